//! Names are declared (C11 6.7).
ghost use Rattle.std.specs.Prelude.{◌≡◌, ◌<◌, length};
ghost use Rattle.c_types.specs.Calls.{Answers, Declares, Extends, IsDeclared};
ghost use Rattle.c_types.specs.Declares.{storage_of, name_of, formed_of, declares_in_block, declares_object};
ghost use Rattle.c_types.specs.Declares.{declares_named};

use crate::entries::{Decl, DeclKind, Entry, Storage};
use crate::judging::is_function;
use crate::names::constant_of;
use crate::scopes::Scopes;
use c_tree::Typed;
use ck_base::Refusal;

impl<'a> Scopes<'a> {
    // An object of a block is declared.
    fn declare_in_block(&mut self, p: &mut Typed, d: Decl) -> Result<Entry, Refusal>
        ensures answers { d.of < length p.old.types →
            Answers self.old p.old self.new p.new (declares_in_block (storage_of d.storage)
            (name_of self.old.file.now d) (formed_of p.old d) d.defines) (IsDeclared p.new) result }
        ensures extends { Extends p.old p.new }
        ensures file { self.new.file.now ≡ self.old.file.now }
    {
        match d.storage {
            Storage::Extern => self.declare_external(p, d),
            Storage::Static => self.declare_internal(p, d),
            Storage::Plain | Storage::Typedef => self.declare_local(p, d),
        }
    }

    // A function or an object is declared.
    fn declare_object(&mut self, p: &mut Typed, d: Decl) -> Result<Entry, Refusal>
        ensures answers { d.of < length p.old.types →
            Answers self.old p.old self.new p.new (declares_object (storage_of d.storage)
            (name_of self.old.file.now d) (formed_of p.old d) d.defines) (IsDeclared p.new) result }
        ensures extends { Extends p.old p.new }
        ensures file { self.new.file.now ≡ self.old.file.now }
    {
        if is_function(p.types.as_slice(), d.of) {
            self.declare_function(p, d)
        } else if self.is_at_file_scope() {
            self.declare_global(p, d)
        } else {
            self.declare_in_block(p, d)
        }
    }

    // A typedef name, a function or an object is declared.
    fn declare_named(&mut self, p: &mut Typed, d: Decl) -> Result<Entry, Refusal>
        ensures answers { d.of < length p.old.types →
            Answers self.old p.old self.new p.new (declares_named (storage_of d.storage) (name_of self.old.file.now d)
            (formed_of p.old d) d.defines) (IsDeclared p.new) result }
        ensures extends { Extends p.old p.new }
        ensures file { self.new.file.now ≡ self.old.file.now }
    {
        match d.storage {
            Storage::Typedef => self.declare_alias(p, d),
            Storage::Plain | Storage::Static | Storage::Extern => self.declare_object(p, d),
        }
    }

    /// A name is declared, and the answer is what it denotes then. A new object or function is added to the program,
    /// and a new local to those of the function at work. After a refusal the scopes and the program are as they were:
    /// 131 at the name where it denotes something else in the scope or has another type, 132 where an object lacks a
    /// complete type, 133 where the type, the storage class and what stands with the name do not fit one another, and
    /// 140 for an array of more than 67,108,864 bytes; the lowest code first.
    pub fn declare(&mut self, p: &mut Typed, d: Decl) -> Result<Entry, Refusal>
        ensures answers { Declares self.old.file.now self.old p.old self.new p.new d result }
        ensures extends { Extends p.old p.new }
        ensures file { self.new.file.now ≡ self.old.file.now }
    {
        match d.what {
            DeclKind::Object => self.declare_named(p, d),
            DeclKind::Fun => {
                if d.defines {
                    let k = self.declare_definition(p, d)?;
                    Ok(Entry::Fun(k))
                } else {
                    self.declare_named(p, d)
                }
            }
            DeclKind::Typedef => self.declare_alias(p, d),
            DeclKind::Constant(_) => self.declare_value(d, constant_of(d.what)),
            DeclKind::Tag(kind) => self.declare_tag(p, kind, d),
        }
    }
}
