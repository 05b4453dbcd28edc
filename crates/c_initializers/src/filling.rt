//! Every scalar of an object of automatic storage duration gets a value (C11 6.7.9p10, p21).

ghost use Rattle.std.specs.Prelude.{◌≡◌, ◌+◌, ◌-◌, ◌<◌, ◌≤◌, ◌∷◌, [], ◌==◌, if◌then◌else◌, length, map};
ghost use Rattle.std.specs.Prelude.{IfOk, IfSome, OnOk};
ghost use Rattle.std.specs.List.{All};
ghost use Rattle.c_tree.specs.Initializers.{scalar_slot, zero_slot};
ghost use Rattle.c_expressions.specs.Nodes.{IsWhole, type_in, type_count};
ghost use Rattle.c_elaborator.specs.Answers.{Answers, quietly};
ghost use Rattle.c_initializers.specs.Sizes.{IsSized};
ghost use Rattle.c_initializers.specs.Slots.{HasSlots, AddsSlots, IsSlotThere, AreSlotsThere, SlotsThere, AreSlots};
ghost use Rattle.c_initializers.specs.Slots.{slot_in, slots_in, chosen, HaveExtents, place_of, scalars_given};
ghost use Rattle.c_initializers.specs.Slots.{every_slot_of};

use crate::covering::{Cursor, Extent};
use crate::scalars::scalars;
use crate::sizes::size_of;
use crate::slots::Slot;
use c_elaborator::Work;
use c_expressions::{Class, Leaf, Nodes};
use c_plain_rules::Place;
use ck_base::{NoMemory, Pos, Refusal};

/// How many scalars lists and strings may initialise in locals.
const MOST_SCALARS: u64 = 4_194_304;

// How many scalars may be initialised in a local; those of lists and strings have a limit in sum.
fn most_scalars(work: &Work, listed: bool) -> u64
    ensures { result ≡ (if listed then 4194304 - work.now.scalars else 18446744073709551615) }
{
    if listed {
        MOST_SCALARS.saturating_sub(work.scalars)
    } else {
        u64::MAX
    }
}

// How many scalars lists and strings have initialised with those of one more local; memory is wanting past the limit.
fn scalars_then(work: &Work, listed: bool, count: u64) -> Result<u64, NoMemory>
    ensures is { IfOk result (λ n. n ≡ (if listed then work.now.scalars + count else work.now.scalars)) }
    ensures few { work.now.scalars ≤ 4194304 → IfOk result (λ n. n ≤ 4194304) }
{
    if !listed {
        return Ok(work.scalars);
    }
    if count > most_scalars(work, listed) {
        return Err(NoMemory);
    }
    Ok(work.scalars + count)
}

fn is_record(nodes: &Nodes, of: u32) -> bool
    requires whole { IsWhole nodes.now }
    requires there { of < type_count nodes.now }
{
    matches!(nodes.class(of), Class::Tagged(_))
}

// The bytes of the values of structs and unions: their scalars, of which there are not more, are initialised at once.
fn record_bytes(work: &Work, slots: &[Slot]) -> u64
    requires whole { IsWhole work.now.nodes }
    requires slots { AreSlotsThere work.now.nodes slots.now }
{
    let mut bytes: u64 = 0;
    for x in slots {
        if is_record(&work.nodes, x.of) {
            bytes = bytes.saturating_add(size_of(work, x.of));
        }
    }
    bytes
}

// The bytes that values have.
fn extents_of(work: &Work, slots: &[Slot]) -> Result<Vec<Extent>, NoMemory>
    ensures { IfOk result (λ extents. HaveExtents work.now slots.now extents.items) }
{
    let mut extents = Vec::new(work.nodes.alloc);
    for x in slots {
        let to = u128::from(x.at) + u128::from(size_of(work, x.of));
        extents.push(Extent { from: x.at, to })?;
    }
    Ok(extents)
}

// A given value for a scalar; one that goes on from an earlier scalar stands there already.
fn add_given(nodes: &Nodes, at: u64, x: Slot, out: &mut Vec<Slot>) -> Result<(), NoMemory>
    requires whole { IsWhole nodes.now }
    requires there { IsSlotThere nodes.now x }
    ensures { OnOk result (AddsSlots nodes.now nodes.now out.old.items out.new.items
        (if x.at == at then slot_in nodes.now x ∷ [] else [])) }
{
    if x.at == at {
        out.push(x)?;
    }
    Ok(())
}

// A zero for a scalar.
fn add_zero(nodes: &mut Nodes, whole: Pos, p: Place, out: &mut Vec<Slot>) -> Result<(), NoMemory>
    requires whole { IsWhole nodes.old }
    requires there { p.of < type_count nodes.old }
    ensures { OnOk result (AddsSlots nodes.old nodes.new out.old.items out.new.items
        (zero_slot whole (place_of nodes.old p) ∷ [])) }
{
    let value = nodes.leaf(Leaf::Constant(0), p.of, whole)?;
    out.push(Slot {
        at: p.at,
        of: p.of,
        value,
        first: whole,
    })?;
    Ok(())
}

// The value of a scalar: that which was found, or zero.
fn add_slot(
    nodes: &mut Nodes,
    whole: Pos,
    p: Place,
    found: Option<usize>,
    slots: &[Slot],
    out: &mut Vec<Slot>,
) -> Result<(), NoMemory>
    requires whole { IsWhole nodes.old }
    requires there { p.of < type_count nodes.old }
    requires slots { AreSlotsThere nodes.old slots.now }
    requires found { IfSome found (λ k. k < length slots.now) }
    ensures { OnOk result (AddsSlots nodes.old nodes.new out.old.items out.new.items
        (scalar_slot whole (place_of nodes.old p) (chosen (slots_in nodes.old slots.now) found))) }
{
    match found {
        None => add_zero(nodes, whole, p, out),
        Some(k) => add_given(nodes, p.at, slots[k], out),
    }
}

// The value of each scalar: the first one that has its place, or zero.
fn scalar_slots(
    nodes: &mut Nodes,
    whole: Pos,
    scalars: &[Place],
    slots: &[Slot],
    extents: &[Extent],
) -> Result<Vec<Slot>, NoMemory>
    requires whole { IsWhole nodes.old }
    requires scalars { All (λ (p : Place). p.of < type_count nodes.old) scalars.now }
    requires slots { AreSlotsThere nodes.old slots.now }
    requires extents { length extents.now ≡ length slots.now }
    ensures { IfOk result (λ out. HasSlots nodes.old nodes.new out.items
        (scalars_given whole (slots_in nodes.old slots.now) extents.now (map (place_of nodes.old) scalars.now))) }
{
    let mut cursor = Cursor::new(extents);
    let mut out = Vec::new(nodes.alloc);
    for p in scalars {
        let found = cursor.find(p.at);
        add_slot(nodes, whole, *p, found, slots, &mut out)?;
    }
    Ok(out)
}

/// The value of every scalar of a type, in the order of their offsets, where an initialiser gave these. Memory is
/// wanting, before a zero is made, where lists and strings initialise more than 4,194,304 scalars in sum.
pub fn every_slot(
    work: &mut Work,
    whole: Pos,
    of: u32,
    slots: &[Slot],
    listed: bool,
) -> Result<Vec<Slot>, Refusal>
    requires whole { IsWhole work.old.nodes }
    requires there { of < type_count work.old.nodes }
    requires sized { IsSized work.old of }
    requires slots { AreSlotsThere work.old.nodes slots.now }
    ensures { Answers quietly work.old work.new
        (every_slot_of whole (type_in work.old.nodes of) (slots_in work.old.nodes slots.now)) SlotsThere AreSlots
        result }
{
    let most = most_scalars(work, listed).saturating_add(record_bytes(work, slots));
    let extents = extents_of(work, slots)?;
    let places = scalars(work, of, most, extents.as_slice())?;
    let out = scalar_slots(
        &mut work.nodes,
        whole,
        places.as_slice(),
        slots,
        extents.as_slice(),
    )?;
    let count = scalars_then(work, listed, out.len() as u64)?;
    work.scalars = count;
    Ok(out)
}
