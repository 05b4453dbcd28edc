//! What is known of what was declared.
ghost use Rattle.std.specs.Prelude.{◌≡◌, List, length, map, option_map, Some, slice_get, IfSome};
ghost use Rattle.c_tree.specs.Declarations.{has_linkage};
ghost use Rattle.c_tree.specs.Scopes.{State, TagState, StaticState, RoutineState, LocalState};
ghost use Rattle.c_tree.specs.Types.{Ty};
ghost use Rattle.c_tree.specs.Views.{types_of};
ghost use Rattle.c_types.specs.Stands.{Stands, named, part_seen, member_kept, members_kept};
ghost use Rattle.c_types.specs.Stands.{first_part, starts_in, offset_among};
ghost use Rattle.c_types.specs.Members.{now, parts_of, is_defined};

use crate::scopes::{MemberTable, ObjectInfo, Scopes};
use c_tree::{CType, Member, RecordKind, Typed};
use text_keys::TextKey;

// The members of a complete struct or union.
fn members_of(c: &CType) -> Option<&[Member]>
    ensures { (ts : List Ty) → option_map (λ x. map (member_kept ts) (now x)) result ≡ members_kept ts (Some c.now) }
{
    match c {
        CType::Struct(_, members) => Some(members.as_slice()),
        CType::Union(_, members) => Some(members.as_slice()),
        CType::Void
        | CType::Int(_, _)
        | CType::Cap(_)
        | CType::Pointer(_)
        | CType::Array(_, _)
        | CType::Function(_, _)
        | CType::Const(_)
        | CType::Incomplete(_) => None,
    }
}

fn offset_in(table: &MemberTable, k: u32) -> Option<u64>
    ensures { result ≡ offset_among (Some table.now) k }
{
    table.offsets.get(k as usize).copied()
}

impl<'a> Scopes<'a> {
    /// The members of a struct or union by the number of its tag, once it is complete (C11 6.7.2.1).
    pub fn members<'p>(&self, p: &'p Typed, tag: u32) -> Option<&'p [Member]>
        ensures { (s : State) → Stands self.now p.now s →
            option_map (λ x. map (member_kept (types_of p.now.types)) (now x)) result
            ≡ option_map (map part_seen) (parts_of (slice_get s.tags tag)) }
    {
        match self.tag(tag) {
            None => None,
            Some(info) => match p.types.as_slice().get(info.of as usize) {
                None => None,
                Some(c) => members_of(c),
            },
        }
    }

    /// The number of the first member of a name, of a struct or union by the number of its tag, once it is complete.
    pub fn member(&self, tag: u32, name: &[u8]) -> Option<u32>
        ensures { (p : Typed) (s : State) → Stands self.now p s →
            result ≡ first_part self.now.file.now (parts_of (slice_get s.tags tag)) name.now }
    {
        match self.named.get(&tag) {
            None => None,
            Some(table) => table.numbers.get(&TextKey { bytes: name }).copied(),
        }
    }

    /// The offset of a member of a struct by the number of its tag, where it is known by itself.
    pub fn offset(&self, tag: u32, k: u32) -> Option<u64>
        ensures { (p : Typed) (s : State) → Stands self.now p s →
            IfSome result (λ z. slice_get (starts_in s.tags (slice_get s.tags tag)) k ≡ Some z) }
    {
        if self.stale {
            return None;
        }
        match self.named.get(&tag) {
            None => None,
            Some(table) => offset_in(table, k),
        }
    }

    /// How many structs and unions there are.
    pub fn tag_count(&self) -> usize
        ensures { (p : Typed) (s : State) → Stands self.now p s → result ≡ length s.tags }
    {
        self.tags.len()
    }

    /// Whether a tag is that of a struct or of a union, if there is one with this number.
    pub fn kind_of_tag(&self, tag: u32) -> Option<RecordKind>
        ensures { (p : Typed) (s : State) → Stands self.now p s →
            result ≡ option_map (λ (t : TagState). t.kind) (slice_get s.tags tag) }
    {
        match self.tag(tag) {
            None => None,
            Some(info) => Some(info.kind),
        }
    }

    pub(crate) fn object(&self, k: u32) -> Option<ObjectInfo>
        ensures { result ≡ slice_get self.now.objects.items k }
    {
        self.objects.get(k as usize).copied()
    }

    /// Whether an object of static storage duration is defined (C11 6.9.2), perhaps tentatively.
    pub fn is_defined(&self, k: u32) -> bool
        ensures { (p : Typed) (s : State) → Stands self.now p s → result ≡ is_defined (slice_get s.statics k) }
    {
        match self.object(k) {
            None => false,
            Some(object) => object.defined,
        }
    }

    // Whether an object of static storage duration has linkage (C11 6.2.2).
    pub(crate) fn has_linkage(&self, k: u32) -> bool
        ensures { (p : Typed) (s : State) → Stands self.now p s → result ≡ has_linkage (slice_get s.statics k) }
    {
        match self.object(k) {
            None => false,
            Some(object) => object.linked,
        }
    }

    /// The number of the type of an object of static storage duration.
    pub fn type_of_object(&self, p: &Typed, k: u32) -> Option<u32>
        ensures { (s : State) → Stands self.now p.now s →
            option_map (named (types_of p.now.types)) result
            ≡ option_map (λ (g : StaticState). Some g.of) (slice_get s.statics k) }
    {
        match p.globals.as_slice().get(k as usize) {
            None => None,
            Some(global) => Some(global.of),
        }
    }

    /// The number of the type of a function.
    pub fn type_of_function(&self, p: &Typed, k: u32) -> Option<u32>
        ensures { (s : State) → Stands self.now p.now s →
            option_map (named (types_of p.now.types)) result
            ≡ option_map (λ (f : RoutineState). Some f.of) (slice_get s.routines k) }
    {
        match p.funs.as_slice().get(k as usize) {
            None => None,
            Some(function) => Some(function.of),
        }
    }

    /// The number of the type of a parameter or another local of the function at work.
    pub fn type_of_local(&self, k: u32) -> Option<u32>
        ensures { (p : Typed) (s : State) → Stands self.now p s →
            option_map (named (types_of p.types)) result
            ≡ option_map (λ (v : LocalState). Some v.of) (slice_get s.locals k) }
    {
        match self.locals.get(k as usize) {
            None => None,
            Some(local) => Some(local.of),
        }
    }
}
