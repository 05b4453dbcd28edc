//! The scalars of a type in the order of their offsets (C11 6.2.5p21).

ghost use Rattle.std.specs.Prelude.{◌≡◌, ◌+◌, ◌-◌, ◌*◌, ◌++◌, ◌∷◌, [], ◌<◌, ◌≤◌, if◌then◌else◌, length, IfOk, OnOk};
ghost use Rattle.c_tree.specs.Initializers.{scalars, scalars_of, tag_scalars, repeat};
ghost use Rattle.c_tree.specs.Types.{Tagged};
ghost use Rattle.c_expressions.specs.Nodes.{IsWhole, type_in, type_count};
ghost use Rattle.c_initializers.specs.Covering.{IsCursor, StaysCursor};
ghost use Rattle.c_plain_rules.specs.Members.{ArePartsOf};
ghost use Rattle.c_initializers.specs.Rows.{Fits, IsRowThere, row_scalars, type_steps, row_steps, AddsRows, Walks};
ghost use Rattle.c_initializers.specs.Sizes.{IsSized};
ghost use Rattle.c_initializers.specs.Slots.{is_needed, needed};

use crate::covering::{Cursor, Extent};
use crate::sizes::size_of;
use c_elaborator::Work;
use c_expressions::Class;
use c_plain_rules::{Place, all_members, tag_count};
use ck_base::NoMemory;

/// Parts of one type at equal distances, the scalars of which are to be listed.
#[derive(Clone, Copy)]
pub(crate) struct Row {
    /// Where the first one stands.
    at: u64,
    /// The number of their type.
    of: u32,
    /// How many there are.
    count: u64,
    /// The bytes from one to the next.
    step: u64,
    /// How deep structs and unions lie in one another there, at most.
    tags: usize,
}

/// The scalars of a type that get a value, where some values have these bytes, in the order of their offsets; memory is
/// wanting for more than `most`.
pub(crate) fn scalars(
    work: &Work,
    of: u32,
    most: u64,
    extents: &[Extent],
) -> Result<Vec<Place>, NoMemory>
    requires whole { IsWhole work.now.nodes }
    requires there { of < type_count work.now.nodes }
    requires sized { IsSized work.now of }
    ensures { IfOk result (λ places. ArePartsOf work.now places.items
        (λ s. needed extents.now (scalars s (type_in work.now.nodes of)))) }
{
    let mut cursor = Cursor::new(extents);
    let mut places = Vec::new(work.nodes.alloc);
    let mut rows = Vec::new(work.nodes.alloc);
    rows.push(single(of, 0, tag_count(work)))?;
    'steps: while let Some(row) = rows.pop() {
        walk(work, row, most, &mut cursor, &mut rows, &mut places)?;
    }
    Ok(places)
}

// One part.
fn single(of: u32, at: u64, tags: usize) -> Row
    ensures { result ≡ record { at = at; of = of; count = 1; step = 0; tags = tags } }
{
    Row {
        at,
        of,
        count: 1,
        step: 0,
        tags,
    }
}

fn push_row(rows: &mut Vec<Row>, row: Row) -> Result<(), NoMemory>
    ensures { OnOk result (rows.new.items ≡ rows.old.items ++ row ∷ []) }
{
    rows.push(row)?;
    Ok(())
}

// So many parts more have a scalar each, at least.
fn check_room(places: &[Place], most: u64, count: u64) -> Result<(), NoMemory>
    ensures { OnOk result (count ≤ most - length places.now) }
{
    if count > most.saturating_sub(places.len() as u64) {
        Err(NoMemory)
    } else {
        Ok(())
    }
}

// One more scalar.
fn push_place(places: &mut Vec<Place>, most: u64, place: Place) -> Result<(), NoMemory>
    ensures { OnOk result (places.new.items ≡ places.old.items ++ place ∷ []) }
{
    check_room(places.as_slice(), most, 1)?;
    places.push(place)?;
    Ok(())
}

// The same of one that gets a value.
fn push_needed(
    cursor: &mut Cursor<'_>,
    places: &mut Vec<Place>,
    most: u64,
    place: Place,
) -> Result<(), NoMemory>
    requires { IsCursor cursor.old }
    ensures cursor { OnOk result (StaysCursor cursor.old cursor.new) }
    ensures places { OnOk result (places.new.items ≡ places.old.items
        ++ (if is_needed cursor.old.extents.now place.at then place ∷ [] else [])) }
{
    if cursor.needs(place.at) {
        push_place(places, most, place)?;
    }
    Ok(())
}

// What is behind the first part of a row. (All of it ends before 2 ^ 62, so that sums of offsets are exact.)
fn push_rest(work: &Work, row: Row, rows: &mut Vec<Row>) -> Result<(), NoMemory>
    requires some { 0 < row.count }
    requires there { IsRowThere work.now row }
    ensures { OnOk result (AddsRows work.now rows.old.items rows.new.items
        (row.count * type_steps work.now row.tags (type_in work.now.nodes row.of))
        (λ s. repeat (row.count - 1) row.step (scalars_of s (tag_scalars row.tags s) (type_in work.now.nodes row.of))
        (row.at + row.step))) }
{
    if row.count == 1 {
        return Ok(());
    }
    let at = row.at.saturating_add(row.step);
    let count = row.count - 1;
    push_row(rows, Row { at, count, ..row })
}

// The members of a struct, or the first one of a union, that stands at an offset.
fn push_members(
    work: &Work,
    tag: u32,
    at: u64,
    tags: usize,
    rows: &mut Vec<Row>,
) -> Result<(), NoMemory>
    requires whole { IsWhole work.now.nodes }
    requires fits { Fits work.now (Tagged tag) at tags }
    ensures { OnOk result (AddsRows work.now rows.old.items rows.new.items
        (type_steps work.now tags (Tagged tag) - 1) (λ s. tag_scalars tags s tag at)) }
{
    if tags == 0 {
        return Ok(());
    }
    let members = all_members(work, tag)?;
    let mut left = members.len();
    while left > 0 {
        left -= 1;
        let m = members[left];
        push_row(rows, single(m.of, at.saturating_add(m.at), tags - 1))?;
    }
    Ok(())
}

// A type that stands at an offset: its parts are looked at next, or it is a scalar.
fn push_parts(
    work: &Work,
    of: u32,
    at: u64,
    tags: usize,
    most: u64,
    cursor: &mut Cursor<'_>,
    rows: &mut Vec<Row>,
    places: &mut Vec<Place>,
) -> Result<(), NoMemory>
    requires whole { IsWhole work.now.nodes }
    requires there { of < type_count work.now.nodes }
    requires fits { Fits work.now (type_in work.now.nodes of) at tags }
    requires cursor { IsCursor cursor.old }
    ensures cursor { OnOk result (StaysCursor cursor.old cursor.new) }
    ensures walks { OnOk result (Walks work.now cursor.old.extents.now rows.old.items places.old.items rows.new.items
        places.new.items (type_steps work.now tags (type_in work.now.nodes of))
        (λ s. scalars_of s (tag_scalars tags s) (type_in work.now.nodes of) at)) }
{
    match work.nodes.class(of) {
        Class::Array(element, count) => {
            check_room(places.as_slice(), most, count)?;
            let step = size_of(work, element);
            let row = Row {
                at,
                of: element,
                count,
                step,
                tags,
            };
            push_row(rows, row)
        }
        Class::Tagged(tag) => push_members(work, tag, at, tags, rows),
        Class::Const(inner) => push_row(rows, single(inner, at, tags)),
        _ => push_needed(cursor, places, most, Place { at, of }),
    }
}

// One step: the first part of a row, before the rest of it.
fn walk(
    work: &Work,
    row: Row,
    most: u64,
    cursor: &mut Cursor<'_>,
    rows: &mut Vec<Row>,
    places: &mut Vec<Place>,
) -> Result<(), NoMemory>
    requires whole { IsWhole work.now.nodes }
    requires there { IsRowThere work.now row }
    requires cursor { IsCursor cursor.old }
    ensures cursor { OnOk result (StaysCursor cursor.old cursor.new) }
    ensures walks { OnOk result (Walks work.now cursor.old.extents.now rows.old.items places.old.items rows.new.items
        places.new.items (row_steps work.now row) (λ s. row_scalars work.now s row)) }
{
    if row.count == 0 {
        return Ok(());
    }
    push_rest(work, row, rows)?;
    push_parts(work, row.of, row.at, row.tags, most, cursor, rows, places)
}
