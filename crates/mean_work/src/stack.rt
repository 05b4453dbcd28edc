//! A list whose next item is on top.
ghost use Rattle.std.specs.Prelude.{◌≡◌, [], ◌∷◌, OnOk, OnErr};
ghost use Rattle.mean_work.specs.Stacks.{Pops, with_top};

use ck_base::NoMemory;
use std::alloc::Global;
use std::marker::Model;

/// A list of items, which contracts see with the top first.
#[derive(Drop)]
pub struct Stack<T> {
    items: Vec<T>,
}

impl<T> Model for Stack<T> {
    ghost use Rattle.std.specs.Prelude.{List, reverse};

    ghost Value = { List T };

    ghost view = { λ s. reverse s.items.items };
}

impl<T: Drop> Stack<T> {
    pub fn new(alloc: Global) -> Stack<T>
        ensures { result ≡ [] }
    {
        Stack {
            items: Vec::new(alloc),
        }
    }

    #[tactic(auto, using(crate::proofs::Reversed::reverse_push))]
    pub fn push(&mut self, x: T) -> Result<(), NoMemory>
        ensures ok { OnOk result (self.new ≡ x ∷ self.old) }
        ensures err { OnErr result (self.new ≡ self.old) }
    {
        self.items.push(x)?;
        Ok(())
    }

    #[tactic(auto, using(crate::proofs::Reversed::reverse_push))]
    pub fn pop(&mut self) -> Option<T>
        ensures { Pops self.old self.new result }
    {
        self.items.pop()
    }

    /// Another item is on top, where there is one.
    #[tactic(auto, using(crate::proofs::Reversed::replaced, crate::proofs::Reversed::none_replaced))]
    pub fn replace(&mut self, x: T)
        ensures { self.new ≡ with_top x self.old }
    {
        let count = self.items.len();
        if count > 0 {
            self.items[count - 1] = x;
        }
    }
}
