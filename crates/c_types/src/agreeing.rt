//! Types that agree, and the composites of types (C11 6.2.7).
ghost use Rattle.std.specs.Prelude.{◌≡◌, ℕ, ◌<◌, length, take, Some, IfOk, OnErr};
ghost use Rattle.c_tree.specs.Types.{Ty, composite};
ghost use Rattle.c_tree.specs.Views.{types_of};
ghost use Rattle.c_tree.specs.Scopes.{State};
ghost use Rattle.c_interner.specs.Agreement.{lengths_of};
ghost use Rattle.c_interner.specs.Numbers.{AddsTypes, type_named};
ghost use Rattle.c_types.specs.Calls.{Extends};
ghost use Rattle.c_types.specs.Fitting.{both_agree};
ghost use Rattle.c_types.specs.Stands.{Stands, named};

use crate::lists::{put, taken};
use crate::scopes::Scopes;
use c_interner::{Lengths, agree};
use c_tree::{CType, Typed};
use ck_base::{NoMemory, Sequence};
use std::alloc::Global;

// Only the first so many types of a list stay. It takes no memory.
fn keep_first(alloc: Global, types: &mut Sequence<CType>, count: usize)
    ensures { types.new ≡ take count types.old }
{
    let mut items = taken(alloc, types);
    items.truncate(count);
    put(types, items);
}

impl<'a> Scopes<'a> {
    /// Whether two types agree: they are equal, or compatible (C11 6.2.7p1). A number that names no type agrees with
    /// none.
    pub fn agree(&self, p: &Typed, how: Lengths, a: u32, b: u32) -> Result<bool, NoMemory>
        ensures { IfOk result (λ r. r ≡ both_agree (lengths_of how) (named (types_of p.now.types) a)
            (named (types_of p.now.types) b)) }
    {
        let count = p.types.as_slice().len();
        if (a as usize) < count {
            if (b as usize) < count {
                return agree(self.alloc, p, how, a, b);
            }
        }
        Ok(false)
    }

    /// The number of the composite of two compatible types of the program (C11 6.2.7p3). Types may have been added to
    /// the program, also for want of memory.
    pub fn composite(&mut self, p: &mut Typed, a: u32, b: u32) -> Result<u32, NoMemory>
        requires first { a < length p.old.types }
        requires second { b < length p.old.types }
        ensures adds { AddsTypes p.old p.new }
        ensures ok { IfOk result (λ k. (k < length p.new.types) ×
            (type_named p.new k ≡ composite (type_named p.old a) (type_named p.old b))) }
        ensures keeps { (s : State) → Stands self.old p.old s → Stands self.new p.new s }
        ensures others { self.new ≡ record self.old { numbers = self.new.numbers } }
        ensures extends { Extends p.old p.new }
        ensures file { self.new.file.now ≡ self.old.file.now }
    {
        self.numbers.composite(p, a, b)
    }

    // The same of types that are there. For want of memory the program is as it was.
    pub(crate) fn merged(&mut self, p: &mut Typed, a: u32, b: u32) -> Result<u32, NoMemory>
        ensures adds { AddsTypes p.old p.new }
        ensures ok { IfOk result (λ k. (t u : Ty) → named (types_of p.old.types) a ≡ Some t →
            named (types_of p.old.types) b ≡ Some u → named (types_of p.new.types) k ≡ Some (composite t u)) }
        ensures err { OnErr result (p.new ≡ p.old) }
        ensures keeps { (s : State) → Stands self.old p.old s → Stands self.new p.new s }
        ensures others { self.new ≡ record self.old { numbers = self.new.numbers } }
        ensures file { self.new.file.now ≡ self.old.file.now }
    {
        let count = p.types.as_slice().len();
        if (a as usize) < count {
            if (b as usize) < count {
                let merged = self.composite(p, a, b);
                if merged.is_err() {
                    keep_first(self.alloc, &mut p.types, count);
                }
                return merged;
            }
        }
        Ok(a)
    }
}
