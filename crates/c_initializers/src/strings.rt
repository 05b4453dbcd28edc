//! Arrays of characters that string literals initialise (C11 6.7.9p14), and single values (6.7.9p11, p13).

ghost use Rattle.std.specs.Prelude.{◌≡◌, ◌+◌, ◌^◌, ◌<◌, ◌==◌, nat_le, if◌then◌else◌, IfOk};
ghost use Rattle.c_tree.specs.Initializers.{takes_string, byte_slots, is_character, element, array_count};
ghost use Rattle.c_expressions.specs.Nodes.{IsWhole, operand_in, type_in, type_count, term_count};
ghost use Rattle.c_expressions.specs.Answers.{Answers as Built};
ghost use Rattle.c_elaborator.specs.Answers.{Answers, quietly};
ghost use Rattle.c_initializers.specs.Slots.{HasSlots, SlotThere, IsSlot, FilledThere, IsFilled, string_filled};
ghost use Rattle.c_initializers.specs.Slots.{plain_slot, IsSlotIn, IsFilledIn};
ghost use Rattle.c_initializers.specs.Texts.{AreTaken};

use crate::slots::{Filled, Slot};
use c_elaborator::Work;
use c_expressions::{Class, Leaf, Nodes, Operand};
use ck_base::{MISFIT, NoMemory, Pos, Refusal};
use ck_int::{IntKind, wrap};

fn is_character(nodes: &Nodes, of: u32) -> bool
    requires whole { IsWhole nodes.now }
    requires there { of < type_count nodes.now }
    ensures { is_character (type_in nodes.now of) ≡ result }
{
    match nodes.class(of) {
        Class::Int(IntKind::U8 | IntKind::I8, _) => true,
        _ => false,
    }
}

/// Whether a type is an array that takes a string literal: its elements have a character type (C11 6.7.9p14).
pub fn takes_string(work: &Work, of: u32) -> bool
    requires whole { IsWhole work.now.nodes }
    requires there { of < type_count work.now.nodes }
    ensures { takes_string (type_in work.now.nodes of) ≡ result }
{
    match work.nodes.class(of) {
        Class::Array(element, _) => is_character(&work.nodes, work.nodes.bare(element)),
        _ => false,
    }
}

// Bytes one by one as constants of a type, at the first byte of the whole initialiser.
fn byte_slots(
    nodes: &mut Nodes,
    whole: Pos,
    of: u32,
    at: u64,
    bytes: &[u8],
) -> Result<Vec<Slot>, NoMemory>
    requires whole { IsWhole nodes.old }
    requires there { of < type_count nodes.old }
    requires near { at < 2 ^ 63 }
    ensures { IfOk result (λ slots. HasSlots nodes.old nodes.new slots.items
        (byte_slots whole (type_in nodes.old of) at bytes.now)) }
{
    let kind = nodes.class(of).kind();
    let mut slots = Vec::new(nodes.alloc);
    for (k, byte) in bytes.iter().enumerate() {
        let number = wrap(kind, i128::from(*byte));
        let value = nodes.leaf(Leaf::Constant(number), of, whole)?;
        slots.push(Slot {
            at: at + k as u64,
            of,
            value,
            first: whole,
        })?;
    }
    Ok(slots)
}

// How many bytes an array takes: as many as there are where its length is not known.
fn room_of(length: u64, count: u64) -> u64
    ensures { result ≡ (if length == 0 then count else length) }
{
    if length == 0 { count } else { length }
}

// Whether so many bytes have room, without the last one.
fn has_room(count: u64, room: u64) -> bool
    ensures { result ≡ nat_le count (room + 1) }
{
    count <= room || count - room == 1
}

// How many of so many bytes of a string an array takes: none where more than the last has no room.
pub(crate) fn taken_of(nodes: &Nodes, count: u64, of: u32) -> Option<u64>
    requires whole { IsWhole nodes.now }
    requires there { of < type_count nodes.now }
    ensures { AreTaken count (type_in nodes.now of) result }
{
    let (_, length) = row_of(nodes, of);
    let room = room_of(length, count);
    if has_room(count, room) {
        Some(count.min(room))
    } else {
        None
    }
}

// The bytes of a string literal in an array of characters.
fn string_in(
    nodes: &mut Nodes,
    bytes: &[u8],
    pos: Pos,
    whole: Pos,
    of: u32,
    at: u64,
) -> Result<Filled, Refusal>
    requires whole { IsWhole nodes.old }
    requires there { of < type_count nodes.old }
    requires near { at < 2 ^ 63 }
    ensures { Built nodes.old nodes.new (string_filled bytes.now pos whole (type_in nodes.old of) at) IsFilledIn
        result }
{
    let count = bytes.len() as u64;
    match taken_of(nodes, count, of) {
        None => Err(Refusal::Code(MISFIT, pos)),
        Some(most) => {
            let (element, _) = row_of(nodes, of);
            let slots = byte_slots(nodes, whole, element, at, &bytes[..most as usize])?;
            Ok(Filled { slots, count })
        }
    }
}

/// The bytes of a string literal in an array of characters: 133 at the literal where more than its last zero has no
/// room.
pub fn string(
    work: &mut Work,
    bytes: &[u8],
    pos: Pos,
    whole: Pos,
    of: u32,
    at: u64,
) -> Result<Filled, Refusal>
    requires whole { IsWhole work.old.nodes }
    requires there { of < type_count work.old.nodes }
    requires near { at < 2 ^ 63 }
    ensures { Answers quietly work.old work.new
        (string_filled bytes.now pos whole (type_in work.old.nodes of) at) FilledThere IsFilled result }
{
    string_in(&mut work.nodes, bytes, pos, whole, of, at)
}

// The element of an array and how many there are; of another type itself and none.
fn row_of(nodes: &Nodes, of: u32) -> (u32, u64)
    requires whole { IsWhole nodes.now }
    requires there { of < type_count nodes.now }
    ensures there { result.0 < type_count nodes.now }
    ensures element { type_in nodes.now result.0 ≡ element (type_in nodes.now of) }
    ensures count { result.1 ≡ array_count (type_in nodes.now of) }
{
    match nodes.class(of) {
        Class::Array(element, count) => (nodes.bare(element), count),
        _ => (of, 0),
    }
}

// A value as by assignment.
fn plain_in(nodes: &mut Nodes, x: Operand, of: u32, at: u64) -> Result<Slot, Refusal>
    requires whole { IsWhole nodes.old }
    requires there { of < type_count nodes.old }
    requires operand { x.node < term_count nodes.old }
    ensures { Built nodes.old nodes.new (plain_slot (type_in nodes.old of) at (operand_in nodes.old x)) IsSlotIn
        result }
{
    match nodes.assigned(of, x) {
        Err(refusal) => Err(refusal),
        Ok(value) => Ok(Slot {
            at,
            of: nodes.bare(of),
            value,
            first: x.first,
        }),
    }
}

/// A value for a scalar, a struct or a union, as by assignment (133). What it stands for where a value is wanted was
/// taken before.
pub fn plain(work: &mut Work, x: Operand, of: u32, at: u64) -> Result<Slot, Refusal>
    requires whole { IsWhole work.old.nodes }
    requires there { of < type_count work.old.nodes }
    requires operand { x.node < term_count work.old.nodes }
    ensures { Answers quietly work.old work.new
        (plain_slot (type_in work.old.nodes of) at (operand_in work.old.nodes x)) SlotThere IsSlot result }
{
    plain_in(&mut work.nodes, x, of, at)
}
