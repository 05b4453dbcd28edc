//! Declarators, part by part (C11 6.7.6).

ghost use Rattle.std.specs.Prelude.{◌≡◌, [], ◌∷◌, ◌++◌, IfOk};

use crate::parts::{Derived, Wrap};
use c_elaborator::Name;
use ck_base::NoMemory;
use std::alloc::Global;

impl<'a> Derived<'a> {
    /// A declarator that is a name alone, or nothing.
    pub fn new(alloc: Global, name: Option<Name>) -> Self
        ensures name { result.name ≡ name }
        ensures wraps { result.wraps.items ≡ [] }
    {
        Derived {
            name,
            wraps: Vec::new(alloc),
        }
    }

    /// What a part makes of the type of the specifiers, before all that the declarator makes of it.
    pub fn wrapped(self, part: Wrap<'a>) -> Result<Self, NoMemory>
        ensures name { IfOk result (λ d. d.name ≡ self.entry.name) }
        ensures wraps { IfOk result (λ d. d.wraps.items ≡ self.entry.wraps.items ++ part.entry ∷ []) }
    {
        let mut all = self;
        all.wraps.push(part)?;
        Ok(all)
    }
}
