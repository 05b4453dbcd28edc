//! The tags of structs, unions and enumerations are declared.
ghost use Rattle.std.specs.Prelude.{◌≡◌, ℕ, List, false, true, IfOk, OnOk, OnErr, slice_get};
ghost use Rattle.ck_base.specs.Tokens.{Lexeme};
ghost use Rattle.c_tree.specs.Scopes.{State, Recorded};
ghost use Rattle.c_tree.specs.Types.{Tagged};
ghost use Rattle.c_tree.specs.Declarators.{new_enumeration, declare_tag, kind_at, same_record};
ghost use Rattle.c_types.specs.Calls.{Does, Keeps, Answers, IsTag, Extends};
ghost use Rattle.c_types.specs.Declares.{name_of, declares_record, declares_enumeration, declares_tag};
ghost use Rattle.c_interner.specs.Numbers.{type_named};
ghost use Rattle.c_types.specs.Rooms.{HasTagRoom};
ghost use Rattle.c_types.specs.Naming.{IsNewTag, IsTagOf, names_record};
ghost use Rattle.c_types.specs.Stands.{Stands, tagging_of};

use crate::entries::{Decl, Entry, TagKind, Tagging};
use crate::scopes::Scopes;
use c_tree::{RecordKind, Typed};
use ck_base::{DECLARED_TWICE, INCOMPLETE_TYPE, MISFIT, NoMemory, Refusal};

impl<'a> Scopes<'a> {
    // Room for one more tag in the innermost scope.
    fn reserve_tag(&mut self) -> Result<(), NoMemory>
        ensures room { OnOk result (HasTagRoom self.new.scopes.items) }
        ensures keeps { (p : Typed) → Keeps self.old self.new p }
        ensures file { self.new.file.now ≡ self.old.file.now }
    {
        let count = self.scopes.len();
        if count > 0 {
            self.scopes[count - 1].reserve_tag()?;
        }
        Ok(())
    }

    /// The number of the type of a struct or union, by the number of its tag.
    pub fn type_of_tag(&self, tag: u32) -> u32
        ensures { (p : Typed) (s : State) (k : RecordKind) → Stands self.now p s → kind_at s tag k ≡ true →
            type_named p result ≡ Tagged tag }
    {
        match self.tag(tag) {
            None => 0,
            Some(info) => info.of,
        }
    }

    /// Whether a tag is that of a struct, or of a union.
    pub fn is_of_kind(&self, tag: u32, kind: RecordKind) -> bool
        ensures { (p : Typed) (s : State) → Stands self.now p s → result ≡ kind_at s tag kind }
    {
        match self.tag(tag) {
            None => false,
            Some(info) => is_same_kind(info.kind, kind),
        }
    }

    // A new struct or union with a tag in the innermost scope.
    fn new_named_tag(
        &mut self,
        p: &mut Typed,
        kind: RecordKind,
        name: &'a [u8],
    ) -> Result<u32, NoMemory>
        ensures ok { IfOk result (λ n. (t : Lexeme) → t.text ≡ name.entry.now →
            Does self.old p.old self.new p.new (declare_tag kind t) (IsNewTag kind n)) }
        ensures err { OnErr result (p.new ≡ p.old) }
        ensures keeps { OnErr result (Keeps self.old self.new p.old) }
        ensures extends { Extends p.old p.new }
        ensures file { self.new.file.now ≡ self.old.file.now }
    {
        self.reserve_tag()?;
        let tag = self.add_tag(p, kind)?;
        self.bind_tag(name, Tagging::Recorded(tag))?;
        Ok(tag)
    }

    // A struct or union that is in force here is named, perhaps with braces.
    fn name_record(&mut self, tag: u32, kind: RecordKind, d: Decl) -> Result<u32, Refusal>
        ensures is { (p : Typed) →
            Answers self.old p self.new p (names_record kind (name_of self.old.file.now d) d.defines (Recorded tag))
            (IsTagOf kind) result }
        ensures file { self.new.file.now ≡ self.old.file.now }
    {
        if !self.is_of_kind(tag, kind) {
            return Err(Refusal::Code(MISFIT, d.pos));
        }
        if d.defines {
            match self.begin_tag(tag, d.pos) {
                Ok(()) => Ok(tag),
                Err(refusal) => Err(refusal),
            }
        } else {
            Ok(tag)
        }
    }

    // A tag that is in force here is named.
    fn name_tag(&mut self, found: Tagging, kind: RecordKind, d: Decl) -> Result<u32, Refusal>
        ensures is { (p : Typed) →
            Answers self.old p self.new p (names_record kind (name_of self.old.file.now d) d.defines
            (tagging_of found)) (IsTagOf kind) result }
        ensures file { self.new.file.now ≡ self.old.file.now }
    {
        match found {
            Tagging::Enumerated => Err(Refusal::Code(MISFIT, d.pos)),
            Tagging::Recorded(tag) => self.name_record(tag, kind, d),
        }
    }

    // A struct or union is declared by its tag in the innermost scope.
    fn declare_record(&mut self, p: &mut Typed, kind: RecordKind, d: Decl) -> Result<u32, Refusal>
        ensures answers { Answers self.old p.old self.new p.new
            (declares_record kind (name_of self.old.file.now d) d.defines) (IsTagOf kind) result }
        ensures extends { Extends p.old p.new }
        ensures file { self.new.file.now ≡ self.old.file.now }
    {
        let name = self.text(d.name);
        match self.look_tag_here(name) {
            None => {
                let tag = self.new_named_tag(p, kind, name)?;
                if d.defines {
                    self.open_tag(tag);
                }
                Ok(tag)
            }
            Some(found) => self.name_tag(found, kind, d),
        }
    }

    // The tag of an enumeration is declared with its braces.
    fn new_enumeration(&mut self, d: Decl) -> Result<(), Refusal>
        ensures is { (p : Typed) →
            Answers self.old p self.new p (declares_enumeration (name_of self.old.file.now d) true)
            (λ x s a. Unit {0}) result }
        ensures file { self.new.file.now ≡ self.old.file.now }
    {
        let name = self.text(d.name);
        match self.look_tag_here(name) {
            None => {
                self.bind_tag(name, Tagging::Enumerated)?;
                Ok(())
            }
            Some(found) => Err(Refusal::Code(clash(found), d.pos)),
        }
    }

    // The tag of an enumeration that is in force is named.
    fn name_enumeration(&self, d: Decl) -> Result<(), Refusal>
        ensures { (p : Typed) → Answers self.now p self.now p (declares_enumeration (name_of self.now.file.now d) false)
            (λ x s a. Unit {0}) result }
    {
        match self.look_tag(self.text(d.name)) {
            None => Err(Refusal::Code(INCOMPLETE_TYPE, d.pos)),
            Some(found) => match found {
                Tagging::Enumerated => Ok(()),
                Tagging::Recorded(_) => Err(Refusal::Code(MISFIT, d.pos)),
            },
        }
    }

    // An enumeration is declared by its tag.
    fn declare_enumeration(&mut self, d: Decl) -> Result<(), Refusal>
        ensures is { (p : Typed) →
            Answers self.old p self.new p (declares_enumeration (name_of self.old.file.now d) d.defines)
            (λ x s a. Unit {0}) result }
        ensures file { self.new.file.now ≡ self.old.file.now }
    {
        if d.defines {
            self.new_enumeration(d)
        } else {
            self.name_enumeration(d)
        }
    }

    /// A tag stands with braces, or alone (C11 6.7.2.3). 131 at the name where its braces were opened before, 132 where
    /// it is that of no enumeration that is in force, and 133 where it is that of another kind.
    pub fn declare_tag(&mut self, p: &mut Typed, kind: TagKind, d: Decl) -> Result<Entry, Refusal>
        ensures answers { Answers self.old p.old self.new p.new
            (declares_tag kind (name_of self.old.file.now d) d.defines) (IsTag p.new) result }
        ensures extends { Extends p.old p.new }
        ensures file { self.new.file.now ≡ self.old.file.now }
    {
        match kind {
            TagKind::Struct => match self.declare_record(p, RecordKind::Struct, d) {
                Ok(tag) => Ok(Entry::Tag(self.type_of_tag(tag), TagKind::Struct)),
                Err(refusal) => Err(refusal),
            },
            TagKind::Union => match self.declare_record(p, RecordKind::Union, d) {
                Ok(tag) => Ok(Entry::Tag(self.type_of_tag(tag), TagKind::Union)),
                Err(refusal) => Err(refusal),
            },
            TagKind::Enum => match self.declare_enumeration(d) {
                Ok(()) => Ok(Entry::Tag(self.int, TagKind::Enum)),
                Err(refusal) => Err(refusal),
            },
        }
    }
}

fn is_same_kind(a: RecordKind, b: RecordKind) -> bool
    ensures { result ≡ same_record a b }
{
    match (a, b) {
        (RecordKind::Struct, RecordKind::Struct) => true,
        (RecordKind::Union, RecordKind::Union) => true,
        (RecordKind::Struct, RecordKind::Union) => false,
        (RecordKind::Union, RecordKind::Struct) => false,
    }
}

// The code where a tag that is in the scope stands with the braces of an enumeration.
fn clash(found: Tagging) -> u16
    ensures { (t : Lexeme) (s : State) →
        new_enumeration t (Some (tagging_of found)) s ≡ Err (record { code = result; place = t.pos }) }
{
    match found {
        Tagging::Enumerated => DECLARED_TWICE,
        Tagging::Recorded(_) => MISFIT,
    }
}
