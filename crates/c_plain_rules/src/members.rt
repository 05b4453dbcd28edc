//! The parts of structs and unions that an initialiser has values for (C11 6.7.2.1, 6.7.9).

ghost use Rattle.std.specs.Prelude.{IfOk};
ghost use Rattle.std.specs.List.{All};
ghost use Rattle.c_expressions.specs.Nodes.{IsWhole};
ghost use Rattle.c_plain_parts.specs.Members.{AreMembers, AreAllMembers, AreFirstMembers, IsClose};

use c_elaborator::Work;
use c_plain_parts::{Place, next_of, record_of, struct_places};
use c_tree::{Member, RecordKind};
use cap_layout::Layout;
use ck_base::NoMemory;

// The first member of a union, if it is within the limit.
fn first_place(work: &Work, members: &[Member]) -> Result<Vec<Place>, NoMemory>
    requires { IsWhole work.now.nodes }
    ensures are { IfOk result (λ places. AreMembers work.now RecordKind.Union members.now places.items) }
    ensures close { IfOk result (λ places. All IsClose places.items) }
{
    let mut places = Vec::new(work.nodes.alloc);
    if let Some(m) = members.first() {
        let of = work.there(m.of);
        if let Some(_) = next_of(work, of, Layout { size: 0, align: 1 }) {
            places.push(Place { at: 0, of })?;
        }
    }
    Ok(places)
}

// The members that an initialiser has values for: those of a struct, or the first one of a union.
fn places_in(work: &Work, kind: RecordKind, members: &[Member]) -> Result<Vec<Place>, NoMemory>
    requires { IsWhole work.now.nodes }
    ensures are { IfOk result (λ places. AreMembers work.now kind members.now places.items) }
    ensures close { IfOk result (λ places. All IsClose places.items) }
{
    match kind {
        RecordKind::Struct => struct_places(work, members),
        RecordKind::Union => first_place(work, members),
    }
}

/// The parts of a struct or union that the first so many items of an initialiser have values for: its first members at
/// their offsets, or the first member of a union (6.7.2.1p15, p16, 6.7.9p17). They end before one whose type is not
/// complete or over the limit, and there are none where no tag has the number. Memory may be wanting.
pub fn first_members(work: &Work, tag: u32, count: usize) -> Result<Vec<Place>, NoMemory>
    requires { IsWhole work.now.nodes }
    ensures are { IfOk result (λ places. AreFirstMembers work.now tag count places.items) }
    ensures close { IfOk result (λ places. All IsClose places.items) }
{
    match record_of(work, tag) {
        None => Ok(Vec::new(work.nodes.alloc)),
        Some(record) => {
            let most = record.members.len().min(count);
            places_in(work, record.kind, &record.members[..most])
        }
    }
}

/// All the parts of a struct or union that an initialiser has values for, as `first_members` has the first of them.
/// Memory may be wanting.
pub fn all_members(work: &Work, tag: u32) -> Result<Vec<Place>, NoMemory>
    requires { IsWhole work.now.nodes }
    ensures are { IfOk result (λ places. AreAllMembers work.now tag places.items) }
    ensures close { IfOk result (λ places. All IsClose places.items) }
{
    match record_of(work, tag) {
        None => Ok(Vec::new(work.nodes.alloc)),
        Some(record) => places_in(work, record.kind, record.members),
    }
}
