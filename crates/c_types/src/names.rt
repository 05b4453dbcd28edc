//! Names are bound in the innermost scope.
ghost use Rattle.std.specs.Prelude.{◌≡◌, List, ℕ, ℤ, OnOk, OnErr, IsOk, Some, None};
ghost use Rattle.c_types.specs.Rooms.{HasNameRoom, HasTagRoom};
ghost use Rattle.c_tree.specs.Scopes.{State, bind_name, bind_tag};
ghost use Rattle.c_tree.specs.Scopes.{Entity as Meant};
ghost use Rattle.c_tree.specs.Declarators.{named_tag};
ghost use Rattle.c_tree.specs.Views.{types_of};
ghost use Rattle.c_types.specs.Calls.{Answers, Keeps, IsDeclared};
ghost use Rattle.c_types.specs.Declares.{name_of, declares_constant};
ghost use Rattle.c_types.specs.Looks.{IsThere};
ghost use Rattle.c_types.specs.Naming.{constant_of};
ghost use Rattle.c_types.specs.Stands.{Stands, entity_kept, entity_seen, tagging_of, text_at};

use crate::entries::{Decl, DeclKind, Entity, Entry, Tagging};
use crate::scopes::{Scopes, entry_of};
use c_tree::Typed;
use ck_base::{DECLARED_TWICE, NoMemory, Refusal, Span};

fn constant(value: i32) -> Entity
    ensures { result ≡ Entity.Enumerator value }
{
    Entity::Enumerator(value)
}

// The enumeration constant that a declaration is of.
pub(crate) fn constant_of(what: DeclKind) -> Entity
    ensures { result ≡ constant_of what }
{
    match what {
        DeclKind::Constant(value) => Entity::Enumerator(value),
        DeclKind::Object | DeclKind::Fun | DeclKind::Typedef | DeclKind::Tag(_) => {
            Entity::Enumerator(0)
        }
    }
}

impl<'a> Scopes<'a> {
    /// The bytes at a span, as far as they stand in the file.
    pub fn text(&self, span: Span) -> &'a [u8]
        ensures { result.now ≡ text_at self.now.file.now span }
    {
        let end = (span.end as usize).min(self.file.len());
        let start = (span.start as usize).min(end);
        &self.file[start..end]
    }

    // An ordinary name of the innermost scope denotes this from here on.
    pub(crate) fn bind(&mut self, name: &'a [u8], entity: Entity) -> Result<(), NoMemory>
        ensures ok { OnOk result ((p : Typed) (s : State) (x : Meant) → Stands self.old p s →
            entity_kept (types_of p.types) entity ≡ entity_seen x →
            Stands self.new p (bind_name name.entry.now x s)) }
        ensures err { OnErr result ((p : Typed) → Keeps self.old self.new p) }
        ensures others { self.new ≡ record self.old { scopes = self.new.scopes } }
        ensures succeeds { HasNameRoom self.old.scopes.items → IsOk result }
        ensures file { self.new.file.now ≡ self.old.file.now }
    {
        let count = self.scopes.len();
        if count > 0 {
            self.scopes[count - 1].bind(name, entity)?;
        }
        Ok(())
    }

    // A tag of the innermost scope denotes this from here on.
    pub(crate) fn bind_tag(&mut self, name: &'a [u8], tagging: Tagging) -> Result<(), NoMemory>
        ensures ok { OnOk result ((p : Typed) (s : State) → Stands self.old p s → IsThere s (tagging_of tagging) →
            Stands self.new p (bind_tag name.entry.now (tagging_of tagging) s)) }
        ensures err { OnErr result ((p : Typed) → Keeps self.old self.new p) }
        ensures succeeds { HasTagRoom self.old.scopes.items → IsOk result }
        ensures file { self.new.file.now ≡ self.old.file.now }
    {
        let count = self.scopes.len();
        if count > 0 {
            self.scopes[count - 1].bind_tag(name, tagging)?;
        }
        Ok(())
    }

    // A name of the innermost scope denotes an enumeration constant: 131 at the name where the scope has the name
    // already.
    pub(crate) fn declare_value(&mut self, d: Decl, entity: Entity) -> Result<Entry, Refusal>
        ensures is { (p : Typed) (z : ℤ) → entity ≡ Entity.Enumerator z →
            Answers self.old p self.new p (declares_constant (name_of self.old.file.now d) z) (IsDeclared p) result }
        ensures file { self.new.file.now ≡ self.old.file.now }
    {
        let name = self.text(d.name);
        if self.look_here(name).is_some() {
            return Err(Refusal::Code(DECLARED_TWICE, d.pos));
        }
        self.bind(name, entity)?;
        Ok(entry_of(entity))
    }

    /// An enumeration constant of the innermost scope (C11 6.7.2.2): 131 at the name where the scope has the name
    /// already.
    pub fn declare_constant(&mut self, d: Decl, value: i32) -> Result<Entry, Refusal>
        ensures is { (p : Typed) →
            Answers self.old p self.new p (declares_constant (name_of self.old.file.now d) value) (IsDeclared p)
            result }
        ensures file { self.new.file.now ≡ self.old.file.now }
    {
        self.declare_value(d, constant(value))
    }
}
