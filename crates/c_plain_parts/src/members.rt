//! The members of structs with their offsets (C11 6.7.2.1).

ghost use Rattle.std.specs.Prelude.{◌≡◌, ◌+◌, ◌<◌, ◌≤◌, IfOk, IfSome};
ghost use Rattle.std.specs.List.{All};
ghost use Rattle.cap_concentrate.specs.Rounding.{rounded_up};
ghost use Rattle.cap_layout.specs.Answers.{extent_is, greatest_align};
ghost use Rattle.c_tree.specs.Layout.{size_limit, member_offset, behind, no_members};
ghost use Rattle.c_tree.specs.Scopes.{State};
ghost use Rattle.c_expressions.specs.Nodes.{IsWhole, type_count};
ghost use Rattle.c_elaborator.specs.Work.{Shows};
ghost use Rattle.c_plain_parts.specs.Members.{AreMembersOf, ArePlaced, IsRecord, IsNext, IsTagCount, IsClose};

use c_elaborator::Work;
use c_tree::{Member, RecordKind};
use cap_layout::{LIMIT, Layout, owned};
use ck_base::NoMemory;

/// A part of an object.
#[derive(Clone, Copy)]
pub struct Place {
    /// Its offset, in bytes.
    pub at: u64,
    /// The number of its type.
    pub of: u32,
}

/// A struct or union.
#[derive(Clone, Copy)]
pub struct Record<'w> {
    /// Which of the two it is.
    pub kind: RecordKind,
    /// Its members in the order of the file; none where it is not complete.
    pub members: &'w [Member],
}

/// A member at its place, and the end of the members up to it.
#[derive(Clone, Copy)]
pub struct Next {
    pub place: Place,
    pub end: Layout,
}

// The members of a struct or union that an initialiser may have values for; none where it is not complete.
fn members_of<'w>(work: &'w Work<'_>, tag: u32) -> &'w [Member]
    ensures { AreMembersOf work.now tag result.now }
{
    match work.nodes.scopes.members(&work.nodes.p, tag) {
        None => &[],
        Some(members) => members,
    }
}

/// A struct or union by the number of its tag; none where there is no such tag (6.7.2.3).
pub fn record_of<'w>(work: &'w Work<'_>, tag: u32) -> Option<Record<'w>>
    ensures { IsRecord work.now tag result }
{
    match work.nodes.scopes.kind_of_tag(tag) {
        None => None,
        Some(kind) => Some(Record {
            kind,
            members: members_of(work, tag),
        }),
    }
}

/// How many structs and unions there are, complete or not.
pub fn tag_count(work: &Work) -> usize
    ensures { IsTagCount work.now result }
{
    work.nodes.scopes.tag_count()
}

// The least multiple of an alignment that is not below `n`.
fn rounded(n: u64, align: u64) -> u64
    requires positive { 0 < align }
    requires align { align ≤ greatest_align }
    requires small { n ≤ size_limit }
    ensures is { result ≡ rounded_up n align }
    ensures below { result < n + align }
{
    (n + (align - 1)) / align * align
}

// Where a member begins behind the end of those before it.
fn start_of(m: Layout, end: Layout) -> u64
    requires m_size { m.size ≤ size_limit }
    requires m_positive { 0 < m.align }
    requires m_align { m.align ≤ greatest_align }
    requires size { end.size ≤ size_limit }
    ensures is { result ≡ member_offset (extent_is m) (extent_is end) }
    ensures bound { result < 67239936 }
{
    rounded(end.size, m.align.max(owned(m.size).align))
}

// The end of the members with one more.
fn behind(m: Layout, end: Layout) -> Layout
    requires m_size { m.size ≤ size_limit }
    requires m_positive { 0 < m.align }
    requires m_align { m.align ≤ greatest_align }
    requires size { end.size ≤ size_limit }
    ensures { extent_is result ≡ behind (extent_is m) (extent_is end) }
{
    let own = owned(m.size);
    Layout {
        size: start_of(m, end) + own.length,
        align: end.align.max(m.align.max(own.align)),
    }
}

/// The next member of a struct behind the end of those before it; none where its type is not complete, or one of them
/// is over the limit.
pub fn next_of(work: &Work, of: u32, end: Layout) -> Option<Next>
    requires { of < type_count work.now.nodes }
    ensures is { IsNext work.now of end result }
    ensures close { IfSome result (λ n. IsClose n.place) }
{
    if end.size > LIMIT {
        return None;
    }
    match work.nodes.scopes.layout(&work.nodes.p, of) {
        Err(_) => None,
        Ok(m) => {
            let at = start_of(m, end);
            Some(Next {
                place: Place { at, of },
                end: behind(m, end),
            })
        }
    }
}

/// The members of a struct, each behind those before it.
pub fn struct_places(work: &Work, members: &[Member]) -> Result<Vec<Place>, NoMemory>
    requires { IsWhole work.now.nodes }
    ensures are { IfOk result (λ places. ArePlaced work.now members.now places.items) }
    ensures close { IfOk result (λ places. All IsClose places.items) }
{
    let mut places = Vec::new(work.nodes.alloc);
    let mut end = Layout { size: 0, align: 1 };
    for m in members {
        match next_of(work, work.there(m.of), end) {
            None => return Ok(places),
            Some(next) => {
                places.push(next.place)?;
                end = next.end;
            }
        }
    }
    Ok(places)
}
