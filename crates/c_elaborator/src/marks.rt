//! What an operand that is not evaluated has added, and that it is dropped (C11 6.5.3.4p2).

ghost use Rattle.std.specs.Prelude.{◌≡◌, take};
ghost use Rattle.c_elaborator.specs.Marks.{IsMark, IsBack};

use crate::work::Work;
use c_tree::Literal;
use ck_base::Sequence;
use std::alloc::Global;
use std::mem;

/// How many uses, addresses and string literals there were.
#[derive(Clone, Copy)]
pub struct Mark {
    uses: usize,
    addressed: usize,
    literals: usize,
}

fn keep_first(alloc: Global, list: &mut Sequence<Literal>, count: usize)
    ensures { list.new ≡ take count list.old }
{
    let mut items = mem::replace(list, Sequence::from_vec(Vec::new(alloc))).into_vec();
    items.truncate(count);
    *list = Sequence::from_vec(items);
}

impl Work<'_> {
    /// What there is now of uses, addresses and string literals.
    pub fn mark(&self) -> Mark
        ensures { IsMark self.now result }
    {
        Mark {
            uses: self.uses.len(),
            addressed: self.addressed.len(),
            literals: self.nodes.p.literals.as_slice().len(),
        }
    }

    /// Drops the uses, addresses and string literals since the mark.
    pub fn back(&mut self, mark: Mark)
        ensures { IsBack self.old mark self.new }
    {
        self.uses.truncate(mark.uses);
        self.addressed.truncate(mark.addressed);
        keep_first(self.nodes.alloc, &mut self.nodes.p.literals, mark.literals);
    }
}
