//! The tags of structs and unions: their declaration, and their members.
ghost use Rattle.ck_base.specs.declared.positions.Pos.{Pos};
ghost use Rattle.std.specs.Prelude.{false, true, Some, ◌≡◌, ℕ, List, Bool, ◌<◌, map, length, IfOk, OnErr, MatchResult};
ghost use Rattle.std.specs.Prelude.{slice_get, OnOk, nat_eq, bytes_eq, is_some, ◌||◌, if◌then◌else◌};
ghost use Rattle.c_tree.specs.Layout.{size_limit};
ghost use Rattle.c_tree.specs.Scopes.{State, Part};
ghost use Rattle.c_tree.specs.Declarators.{new_tag, begin_tag, complete_tag, is_begun, record_extent};
ghost use Rattle.c_types.specs.Calls.{Given, Does, Keeps, Answers, HasParts, Completes, Extends};
ghost use Rattle.c_tree.specs.Views.{types_of};
ghost use Rattle.c_type_sizes.specs.Sizes.{IsRecordRoom};
ghost use Rattle.c_types.specs.Sizes.{AreStarts, is_union, has_tag, completed_type};
ghost use Rattle.c_types.specs.Stands.{Stands, part_seen, member_kept};
ghost use Rattle.c_types.specs.Stands.{number_among, first_named};
ghost use Rattle.std.specs.Map.{lookup};

use crate::scopes::{MemberTable, Scopes, TagInfo};
use c_interner::{append, next_number, replace};
use c_tree::{CType, Member, RecordKind, Typed};
use c_type_sizes::{Room, whole_room};
use cap_layout::LayoutFault;
use ck_base::{DECLARED_TWICE, NoMemory, Pos, Refusal, Sequence, TYPE_TOO_LARGE};
use indexmap::IndexMap;
use text_keys::TextKey;

fn is_union(kind: RecordKind) -> bool
    ensures { result ≡ is_union kind }
{
    match kind {
        RecordKind::Struct => false,
        RecordKind::Union => true,
    }
}

fn completed(kind: RecordKind, tag: u32, members: Vec<Member>) -> CType
    ensures { result ≡ completed_type kind tag members.items }
{
    match kind {
        RecordKind::Struct => CType::Struct(tag, Sequence::from_vec(members)),
        RecordKind::Union => CType::Union(tag, Sequence::from_vec(members)),
    }
}

// Whether a type is the struct or union with this tag.
fn is_tagged(c: &CType, tag: u32) -> bool
    ensures { result ≡ has_tag (Some c.now) tag }
{
    match c {
        CType::Struct(found, _) | CType::Union(found, _) | CType::Incomplete(found) => {
            *found == tag
        }
        CType::Void
        | CType::Int(_, _)
        | CType::Cap(_)
        | CType::Pointer(_)
        | CType::Array(_, _)
        | CType::Function(_, _)
        | CType::Const(_) => false,
    }
}

// Whether a number names the type of a struct or union.
fn is_type_of(p: &Typed, of: u32, tag: u32) -> bool
    ensures { result ≡ has_tag (slice_get p.now.types of) tag }
{
    match p.types.as_slice().get(of as usize) {
        None => false,
        Some(c) => is_tagged(c, tag),
    }
}

// Whether offsets may be wrong once a struct or union gets members, where it had this size.
fn is_stale(stale: bool, before: Option<Room>) -> bool
    ensures { result ≡ (stale || is_some before) }
{
    match before {
        None => stale,
        Some(_) => true,
    }
}

// The members of a struct or union by their names. Of members of one name the first is found.
fn names_of<'a>(
    scopes: &Scopes<'a>,
    members: &[Member],
) -> Result<IndexMap<TextKey<'a>, u32>, NoMemory>
    ensures { IfOk result (λ t. (name : List ℕ) →
        lookup (λ k. bytes_eq name k.bytes.now) t.entries
        ≡ first_named scopes.now.file.now 0 (map (λ m. m.name) members.now) name) }
{
    let mut numbers = IndexMap::new(scopes.alloc);
    let mut left = next_number(members)?;
    while left > 0 {
        left -= 1;
        let name = scopes.text(members[left as usize].name);
        numbers.insert(TextKey { bytes: name }, left)?;
    }
    Ok(numbers)
}

impl<'a> Scopes<'a> {
    pub(crate) fn tag(&self, n: u32) -> Option<TagInfo>
        ensures { result ≡ slice_get self.now.tags.items n }
    {
        self.tags.get(n as usize).copied()
    }

    // A new struct or union without a tag, which is not complete, and its type. The answer is the number of its tag.
    pub(crate) fn add_tag(&mut self, p: &mut Typed, kind: RecordKind) -> Result<u32, NoMemory>
        ensures ok { IfOk result (λ n. Does self.old p.old self.new p.new (new_tag kind) (λ s m. m ≡ n)) }
        ensures err { OnErr result (p.new ≡ p.old) }
        ensures keeps { OnErr result (Keeps self.old self.new p.old) }
        ensures scopes { self.new.scopes ≡ self.old.scopes }
        ensures extends { Extends p.old p.new }
        ensures file { self.new.file.now ≡ self.old.file.now }
    {
        let tag = next_number(self.tags.as_slice())?;
        let of = next_number(p.types.as_slice())?;
        self.tags.reserve(1)?;
        append(self.alloc, &mut p.types, CType::Incomplete(tag))?;
        let info = TagInfo {
            kind,
            begun: false,
            of,
            room: None,
        };
        self.tags.push(info)?;
        Ok(tag)
    }

    /// A new struct or union without a tag, which is not complete, and its type. The answer is the number of its tag.
    pub fn new_tag(&mut self, p: &mut Typed, kind: RecordKind) -> Result<u32, NoMemory>
        ensures ok { IfOk result (λ n. Does self.old p.old self.new p.new (new_tag kind) (λ s m. m ≡ n)) }
        ensures err { OnErr result (p.new ≡ p.old) }
        ensures keeps { OnErr result (Keeps self.old self.new p.old) }
        ensures extends { Extends p.old p.new }
        ensures file { self.new.file.now ≡ self.old.file.now }
    {
        self.add_tag(p, kind)
    }

    // The braces of a struct or union are opened for the first time.
    pub(crate) fn open_tag(&mut self, tag: u32)
        ensures is { (p : Typed) (s : State) (place : Pos) → Stands self.old p s →
            is_begun (slice_get s.tags tag) ≡ false → Given self.new p (begin_tag tag place s) (λ t a. Unit {0}) }
        ensures file { self.new.file.now ≡ self.old.file.now }
    {
        match self.tag(tag) {
            None => {}
            Some(info) => {
                self.tags[tag as usize] = TagInfo {
                    kind: info.kind,
                    begun: true,
                    of: info.of,
                    room: info.room,
                };
            }
        }
    }

    /// The braces of a struct or union are opened, which happens once: otherwise 131 at the place.
    pub fn begin_tag(&mut self, tag: u32, pos: Pos) -> Result<(), Refusal>
        ensures is { (p : Typed) → Answers self.old p self.new p (begin_tag tag pos) (λ x s a. Unit {0}) result }
        ensures file { self.new.file.now ≡ self.old.file.now }
    {
        match self.tag(tag) {
            None => Ok(()),
            Some(info) => {
                if info.begun {
                    return Err(Refusal::Code(DECLARED_TWICE, pos));
                }
                self.open_tag(tag);
                Ok(())
            }
        }
    }

    // The size of a struct or union from its members, if it is complete.
    fn record_room(
        &self,
        p: &Typed,
        kind: RecordKind,
        ms: &[Member],
    ) -> Result<Option<Room>, LayoutFault>
        ensures { (s : State) (parts : List Part) → Stands self.now p.now s →
            HasParts (types_of p.now.types) parts ms.now → IsRecordRoom (record_extent s.tags kind parts) result }
    {
        whole_room(self.members_end(p, ms, is_union(kind)))
    }

    // The members of a struct or union, by their names and with their offsets.
    fn table_of(
        &self,
        p: &Typed,
        kind: RecordKind,
        members: &[Member],
    ) -> Result<MemberTable<'a>, NoMemory>
        ensures numbers { IfOk result (λ t. (name : List ℕ) → number_among (Some t) name
            ≡ first_named self.now.file.now 0 (map (λ m. m.name) members.now) name) }
        ensures offsets { IfOk result (λ t. (s : State) (parts : List Part) → Stands self.now p.now s →
            HasParts (types_of p.now.types) parts members.now → AreStarts s.tags kind parts t.offsets.items) }
    {
        let numbers = names_of(self, members)?;
        let offsets = match kind {
            RecordKind::Struct => self.starts_of(p, members)?,
            RecordKind::Union => Vec::new(self.alloc),
        };
        Ok(MemberTable { numbers, offsets })
    }

    // The members of a struct or union are found in this table from here on.
    fn note_members(&mut self, tag: u32, table: MemberTable<'a>) -> Result<(), NoMemory>
        ensures ok { OnOk result ((n : ℕ) → lookup (nat_eq n) self.new.named.entries
            ≡ (if nat_eq tag n then Some table.entry else lookup (nat_eq n) self.old.named.entries)) }
        ensures err { OnErr result (self.new.named.entries ≡ self.old.named.entries) }
        ensures others { self.new ≡ record self.old { named = self.new.named } }
        ensures file { self.new.file.now ≡ self.old.file.now }
    {
        self.named.insert(tag, table)?;
        Ok(())
    }

    /// A struct or union gets its members, which make it complete (C11 6.7.2.1): 140 at the place if it has more than
    /// 67,108,864 bytes. The members' types are those of the program.
    pub fn complete_tag(
        &mut self,
        p: &mut Typed,
        tag: u32,
        members: Vec<Member>,
        pos: Pos,
    ) -> Result<(), Refusal>
        ensures answers { (kind : RecordKind) (parts : List Part) →
            HasParts (types_of p.old.types) parts members.items →
            Completes self.old p.old self.new p.new kind tag parts pos result }
        ensures extends { Extends p.old p.new }
        ensures file { self.new.file.now ≡ self.old.file.now }
    {
        match self.tag(tag) {
            None => Ok(()),
            Some(info) => match self.record_room(p, info.kind, members.as_slice()) {
                Err(_) => Err(Refusal::Code(TYPE_TOO_LARGE, pos)),
                Ok(room) => {
                    if !is_type_of(p, info.of, tag) {
                        return Ok(());
                    }
                    let table = self.table_of(p, info.kind, members.as_slice())?;
                    self.note_members(tag, table)?;
                    replace(
                        self.alloc,
                        &mut p.types,
                        info.of,
                        completed(info.kind, tag, members),
                    );
                    self.tags[tag as usize] = TagInfo {
                        kind: info.kind,
                        begun: info.begun,
                        of: info.of,
                        room,
                    };
                    self.stale = is_stale(self.stale, info.room);
                    Ok(())
                }
            },
        }
    }
}
