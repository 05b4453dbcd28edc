//! The scopes in force.

ghost use Rattle.std.specs.Prelude.{◌≡◌, ℕ, List, ◌∷◌, Some, None, OnOk, OnErr, IfOk, option_map, reverse, length};
ghost use Rattle.std.specs.Prelude.{bytes_eq, ◌<◌, IsOk, if◌then◌else◌};
ghost use Rattle.indexmap.specs.IndexMap.{spare};
ghost use Rattle.c_tree.specs.Scopes.{State, enter, leave, find_name, find_tag, find_in, innermost};
ghost use Rattle.c_tree.specs.Scopes.{Scope as MeantScope};
ghost use Rattle.c_tree.specs.Views.{types_of};
ghost use Rattle.c_types.specs.Stands.{Stands, ShowsScope, name_in, tag_in, entity_kept, entity_seen, tagging_of};
ghost use Rattle.c_interner.specs.Numbers.{IsPlain, AddsTypes, IsNumberOf};
ghost use Rattle.c_types.specs.Calls.{Does, Keeps, Found, IsEntity, IsTag, Extends};
ghost use Rattle.c_types.specs.Looks.{ShowsInnermost, IsThere, name_among, tag_among, entry_of, tag_kind_of};

use crate::entries::{Entity, Entry, TagKind, Tagging};
use c_interner::Numbers;
use c_tree::{CType, RecordKind, Typed, VarDef};
use c_type_sizes::Room;
use ck_base::NoMemory;
use indexmap::IndexMap;
use std::alloc::Global;
use text_keys::TextKey;

/// A scope: the ordinary names and the tags that are declared in it (C11 6.2.3).
#[derive(Drop)]
pub struct Scope<'a> {
    pub(crate) names: IndexMap<TextKey<'a>, Entity>,
    pub(crate) tags: IndexMap<TextKey<'a>, Tagging>,
}

/// A struct or union.
#[derive(Clone, Copy)]
pub(crate) struct TagInfo {
    pub(crate) kind: RecordKind,
    /// Its braces were opened.
    pub(crate) begun: bool,
    /// The number of its type.
    pub(crate) of: u32,
    /// Its size and alignment, once it is complete.
    pub(crate) room: Option<Room>,
}

/// The members of a complete struct or union.
#[derive(Drop)]
pub(crate) struct MemberTable<'a> {
    /// The number of the first of each name.
    pub(crate) numbers: IndexMap<TextKey<'a>, u32>,
    /// Where the first ones begin in a struct, as far as that is known.
    pub(crate) offsets: Vec<u64>,
}

/// What is known of an object of static storage duration beside its name and type.
#[derive(Clone, Copy)]
pub(crate) struct ObjectInfo {
    pub(crate) linked: bool,
    pub(crate) defined: bool,
    /// It has an initialiser.
    pub(crate) given: bool,
}

/// What is declared so far in a C file, and the scopes in force.
#[derive(Drop)]
pub struct Scopes<'a> {
    pub(crate) alloc: Global,
    pub(crate) file: &'a [u8],
    /// The innermost last.
    pub(crate) scopes: Vec<Scope<'a>>,
    pub(crate) tags: Vec<TagInfo>,
    /// The members of each complete struct or union, by the number of its tag.
    pub(crate) named: IndexMap<u32, MemberTable<'a>>,
    /// The offsets in the tables may be wrong, since a struct or union got members again.
    pub(crate) stale: bool,
    pub(crate) objects: Vec<ObjectInfo>,
    /// Of each function, whether its definition was begun.
    pub(crate) begun: Vec<bool>,
    /// The objects with linkage, by their names.
    pub(crate) linked: IndexMap<TextKey<'a>, u32>,
    /// The parameters and the other locals of the function at work.
    pub(crate) locals: Vec<VarDef>,
    pub(crate) numbers: Numbers,
    /// The number of `int`.
    pub(crate) int: u32,
}

impl<'a> Scope<'a> {
    /// A scope without names.
    pub fn new(alloc: Global) -> Self
        ensures names { (n : List ℕ) → name_in result n ≡ None }
        ensures tags { (n : List ℕ) → tag_in result n ≡ None }
    {
        Scope {
            names: IndexMap::new(alloc),
            tags: IndexMap::new(alloc),
        }
    }

    /// An ordinary name denotes this from here on (C11 6.2.1p7).
    pub(crate) fn bind(&mut self, name: &'a [u8], entity: Entity) -> Result<(), NoMemory>
        ensures names { OnOk result ((n : List ℕ) →
            name_in self.new n ≡ (if bytes_eq name.entry.now n then Some entity else name_in self.old n)) }
        ensures tags { (n : List ℕ) → tag_in self.new n ≡ tag_in self.old n }
        ensures err { OnErr result ((n : List ℕ) → name_in self.new n ≡ name_in self.old n) }
        ensures succeeds { 0 < spare self.old.names → IsOk result }
    {
        self.names.insert(TextKey { bytes: name }, entity)?;
        Ok(())
    }

    /// A tag denotes this from here on.
    pub(crate) fn bind_tag(&mut self, name: &'a [u8], tagging: Tagging) -> Result<(), NoMemory>
        ensures names { (n : List ℕ) → name_in self.new n ≡ name_in self.old n }
        ensures tags { OnOk result ((n : List ℕ) →
            tag_in self.new n ≡ (if bytes_eq name.entry.now n then Some tagging else tag_in self.old n)) }
        ensures err { OnErr result ((n : List ℕ) → tag_in self.new n ≡ tag_in self.old n) }
        ensures succeeds { 0 < spare self.old.tags → IsOk result }
    {
        self.tags.insert(TextKey { bytes: name }, tagging)?;
        Ok(())
    }

    // Room for one more ordinary name.
    pub(crate) fn reserve_name(&mut self) -> Result<(), NoMemory>
        ensures names { (n : List ℕ) → name_in self.new n ≡ name_in self.old n }
        ensures tags { (n : List ℕ) → tag_in self.new n ≡ tag_in self.old n }
        ensures room { OnOk result (0 < spare self.new.names) }
    {
        self.names.reserve(1)?;
        Ok(())
    }

    // Room for one more tag.
    pub(crate) fn reserve_tag(&mut self) -> Result<(), NoMemory>
        ensures names { (n : List ℕ) → name_in self.new n ≡ name_in self.old n }
        ensures tags { (n : List ℕ) → tag_in self.new n ≡ tag_in self.old n }
        ensures room { OnOk result (0 < spare self.new.tags) }
    {
        self.tags.reserve(1)?;
        Ok(())
    }

    pub(crate) fn name(&self, name: &[u8]) -> Option<Entity>
        ensures { result ≡ name_in self.now name.now }
    {
        self.names.get(&TextKey { bytes: name }).copied()
    }

    pub(crate) fn tag(&self, name: &[u8]) -> Option<Tagging>
        ensures { result ≡ tag_in self.now name.now }
    {
        self.tags.get(&TextKey { bytes: name }).copied()
    }
}

impl<'a> Scopes<'a> {
    /// The number of a type, which is added to the program if it has none. The numbers in it are those of types of the
    /// program, and it is no struct or union. Equal types get one number. For want of memory the program is as it was.
    pub fn number_of(&mut self, p: &mut Typed, c: CType) -> Result<u32, NoMemory>
        requires { IsPlain c }
        ensures adds { AddsTypes p.old p.new }
        ensures ok { IfOk result (λ k. IsNumberOf p.old p.new k c) }
        ensures err { OnErr result (p.new ≡ p.old) }
        ensures keeps { (s : State) → Stands self.old p.old s → Stands self.new p.new s }
        ensures extends { Extends p.old p.new }
        ensures file { self.new.file.now ≡ self.old.file.now }
    {
        self.numbers.number_of(p, c)
    }

    /// Opens an inner scope.
    pub fn enter(&mut self) -> Result<(), NoMemory>
        ensures ok { OnOk result ((p : Typed) → Does self.old p self.new p enter (λ s a. Unit {0})) }
        ensures err { OnErr result ((p : Typed) → Keeps self.old self.new p) }
        ensures file { self.new.file.now ≡ self.old.file.now }
    {
        self.reopen(Scope::new(self.alloc))
    }

    /// Drops the innermost scope.
    pub fn leave(&mut self)
        ensures is { (p : Typed) → Does self.old p self.new p leave (λ s a. Unit {0}) }
        ensures file { self.new.file.now ≡ self.old.file.now }
    {
        let _ = self.close();
    }

    /// Closes the innermost scope, and gives it.
    pub fn close(&mut self) -> Option<Scope<'a>>
        ensures left { (p : Typed) → Does self.old p self.new p leave (λ s a. Unit {0}) }
        ensures scope { (p : Typed) (s : State) → Stands self.old p s →
            ShowsInnermost (types_of p.types) (length s.tags) result s.scopes }
        ensures file { self.new.file.now ≡ self.old.file.now }
    {
        self.scopes.pop()
    }

    /// Opens a scope that was closed.
    pub fn reopen(&mut self, scope: Scope<'a>) -> Result<(), NoMemory>
        ensures ok { OnOk result ((p : Typed) (s : State) (c : MeantScope) → Stands self.old p s →
            ShowsScope (types_of p.types) (length s.tags) scope.entry c →
            Stands self.new p (record s { scopes = c ∷ s.scopes })) }
        ensures err { OnErr result ((p : Typed) → Keeps self.old self.new p) }
        ensures file { self.new.file.now ≡ self.old.file.now }
    {
        self.scopes.push(scope)?;
        Ok(())
    }

    /// What an ordinary name denotes: the innermost scope that has it decides (C11 6.2.1p4).
    pub fn look(&self, name: &[u8]) -> Option<Entity>
        ensures { (p : Typed) (s : State) → Stands self.now p s →
            option_map (entity_kept (types_of p.types)) result
            ≡ option_map entity_seen (find_name s.scopes name.now) }
    {
        name_of(self.scopes.as_slice(), name)
    }

    /// What an ordinary name of the innermost scope denotes.
    pub fn look_here(&self, name: &[u8]) -> Option<Entity>
        ensures { (p : Typed) (s : State) → Stands self.now p s →
            option_map (entity_kept (types_of p.types)) result
            ≡ option_map entity_seen (find_in (innermost s.scopes).names name.now) }
    {
        match self.scopes.last() {
            None => None,
            Some(scope) => scope.name(name),
        }
    }

    /// What a tag denotes: the innermost scope that has it decides.
    pub fn look_tag(&self, name: &[u8]) -> Option<Tagging>
        ensures { (p : Typed) (s : State) → Stands self.now p s →
            option_map tagging_of result ≡ find_tag s.scopes name.now }
    {
        tag_of(self.scopes.as_slice(), name)
    }

    /// What a tag of the innermost scope denotes.
    pub fn look_tag_here(&self, name: &[u8]) -> Option<Tagging>
        ensures { (p : Typed) (s : State) → Stands self.now p s →
            option_map tagging_of result ≡ find_in (innermost s.scopes).tags name.now }
    {
        match self.scopes.last() {
            None => None,
            Some(scope) => scope.tag(name),
        }
    }

    /// The entry of what an ordinary name denotes.
    pub fn find(&self, name: &[u8]) -> Option<Entry>
        ensures { (p : Typed) (s : State) → Stands self.now p s →
            Found (IsEntity p) result (find_name s.scopes name.now) }
    {
        match self.look(name) {
            None => None,
            Some(found) => Some(entry_of(found)),
        }
    }

    /// The entry of what a tag denotes.
    pub fn find_tag(&self, name: &[u8]) -> Option<Entry>
        ensures { (p : Typed) (s : State) → Stands self.now p s →
            Found (λ x g. IsTag p x s g) result (find_tag s.scopes name.now) }
    {
        match self.look_tag(name) {
            None => None,
            Some(found) => self.tag_entry(found),
        }
    }

    // The entry of a tag.
    pub(crate) fn tag_entry(&self, tagging: Tagging) -> Option<Entry>
        ensures { (p : Typed) (s : State) → Stands self.now p s → IsThere s (tagging_of tagging) →
            Found (λ x g. IsTag p x s g) result (Some (tagging_of tagging)) }
    {
        match tagging {
            Tagging::Enumerated => Some(Entry::Tag(self.int, TagKind::Enum)),
            Tagging::Recorded(n) => match self.tags.get(n as usize) {
                None => None,
                Some(tag) => Some(Entry::Tag(tag.of, tag_kind(tag.kind))),
            },
        }
    }
}

// What the innermost of the scopes that has an ordinary name says of it. The innermost is the last.
fn name_of(scopes: &[Scope], name: &[u8]) -> Option<Entity>
    ensures { result ≡ name_among (reverse scopes.now) name.now }
{
    let mut left = scopes.len();
    while left > 0 {
        left -= 1;
        match scopes[left].name(name) {
            Some(found) => return Some(found),
            None => {}
        }
    }
    None
}

// The same of a tag.
fn tag_of(scopes: &[Scope], name: &[u8]) -> Option<Tagging>
    ensures { result ≡ tag_among (reverse scopes.now) name.now }
{
    let mut left = scopes.len();
    while left > 0 {
        left -= 1;
        match scopes[left].tag(name) {
            Some(found) => return Some(found),
            None => {}
        }
    }
    None
}

fn tag_kind(kind: RecordKind) -> TagKind
    ensures { result ≡ tag_kind_of kind }
{
    match kind {
        RecordKind::Struct => TagKind::Struct,
        RecordKind::Union => TagKind::Union,
    }
}

/// The entry of an ordinary name.
pub(crate) fn entry_of(entity: Entity) -> Entry
    ensures { result ≡ entry_of entity }
{
    match entity {
        Entity::Local(k, _) => Entry::Var(k),
        Entity::Static(k) => Entry::Global(k),
        Entity::Routine(k) => Entry::Fun(k),
        Entity::Alias(of) => Entry::Typedef(of),
        Entity::Enumerator(value) => Entry::Constant(value),
        Entity::Library(k, _) => Entry::Library(k),
    }
}
