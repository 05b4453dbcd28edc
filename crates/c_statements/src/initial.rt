//! Initialisers. `depth` bounds how deep they go.

ghost use Rattle.std.specs.Prelude.{◌≡◌, ◌<◌, length};
ghost use Rattle.ck_base.specs.Lexes.{IsAccepted};
ghost use Rattle.ck_base.specs.Tokens.{Lexeme};
ghost use Rattle.c_tree.specs.Initializers.{string_initializer, plain_initializer, braced_initializer};
ghost use Rattle.c_tree.specs.Syntax.{Syn, Syns};
ghost use Rattle.c_tree.specs.Programs.{reading, readings, is_text};
ghost use Rattle.c_types.specs.Stands.{text_at};
ghost use Rattle.c_expressions.specs.Nodes.{IsWhole, type_in, type_count};
ghost use Rattle.c_elaborator.specs.Answers.{Answers, quietly, NothingThere, IsNothing};
ghost use Rattle.c_elaborator.specs.Parts.{IsPart, AreParts, HaveTexts, token_of};
ghost use Rattle.c_readings.specs.Within.{PartWithin, PartsWithin};
ghost use Rattle.c_initializers.specs.Places.{ArePlaces};
ghost use Rattle.c_initializers.specs.Slots.{SlotThere, slot_in, FilledThere, IsFilled};
ghost use Rattle.c_statements.specs.Initial.{asked_by, gives_items, IsNear};

use crate::items::{alone, append, lone_text, next_part};
use c_elaborator::{Name, Work};
use c_initializers::{Filled, Places, Slot, is_start, places_of, plain, string, takes_string};
use c_readings::value_of;
use c_tree::NodeKind;
use ck_base::{Pos, Refusal, TokenKind};

/// What is asked of each value that is written.
#[derive(Clone, Copy)]
pub enum Asked {
    /// Nothing: the object is of automatic storage duration.
    Nothing,
    /// That it is known before the program runs (C11 6.7.9p4).
    Start,
}

/// What an initialiser is of.
#[derive(Clone, Copy)]
pub struct Goal {
    pub asked: Asked,
    /// The first byte of the whole initialiser.
    pub whole: Pos,
    /// The number of the type of what is initialised.
    pub of: u32,
    /// Its offset in the object, in bytes.
    pub at: u64,
    /// How many items of lists in braces stand before it, itself and those that it is in counted.
    pub items: u32,
}

// 134 at the value's first byte where it has to be known before the program runs and is not.
fn ask(work: &Work<'_>, asked: Asked, slot: &Slot) -> Result<(), Refusal>
    requires whole { IsWhole work.now.nodes }
    requires there { SlotThere work.now slot.now }
    ensures { Answers quietly work.now work.now
        (asked_by asked (slot_in work.now.nodes slot.now)) NothingThere IsNothing result }
{
    match asked {
        Asked::Nothing => Ok(()),
        Asked::Start => is_start(work, slot),
    }
}

// One expression, as by assignment (C11 6.7.9p11).
fn plain_value(work: &mut Work<'_>, k: u32, goal: Goal, depth: u32) -> Result<Filled, Refusal>
    requires whole { IsWhole work.old.nodes }
    requires there { goal.of < type_count work.old.nodes }
    requires part { PartWithin work.old depth k }
    ensures { (x : Syn) → IsPart work.old k x →
        Answers quietly work.old work.new (plain_initializer (reading x).operand (asked_by goal.asked) goal.whole
        (type_in work.old.nodes goal.of) goal.at) FilledThere IsFilled result }
{
    let x = value_of(work, k, depth)?;
    let slot = plain(work, x, goal.of, goal.at)?;
    ask(work, goal.asked, &slot)?;
    let slots = alone(work.nodes.alloc, slot)?;
    Ok(Filled { slots, count: 0 })
}

// A string literal for an array of characters (C11 6.7.9p14).
fn text_value(work: &mut Work<'_>, name: Name, kids: &[u32], goal: Goal) -> Result<Filled, Refusal>
    requires whole { IsWhole work.old.nodes }
    requires there { goal.of < type_count work.old.nodes }
    requires near { IsNear goal }
    requires accepted { IsAccepted TokenKind.Text (text_at work.old.file.now name.span) }
    requires parts { HaveTexts work.old kids.now }
    ensures { (xs : Syns) → AreParts work.old kids.now xs →
        Answers quietly work.old work.new (string_initializer (token_of work.old name) xs goal.whole
        (type_in work.old.nodes goal.of) goal.at) FilledThere IsFilled result }
{
    let bytes = work.text_bytes(name, kids)?;
    string(
        work,
        bytes.as_slice(),
        name.pos,
        goal.whole,
        goal.of,
        goal.at,
    )
}

/// An initialiser: a string that fills an array of characters, braces, or one expression (C11 6.7.9). 133 where a value
/// does not fit its part or has none, and 134 where it has to be known before the program runs and is not.
#[cycle(initial)]
pub fn initializer(work: &mut Work<'_>, k: u32, goal: Goal, depth: u32) -> Result<Filled, Refusal>
    requires whole { IsWhole work.old.nodes }
    requires there { goal.of < type_count work.old.nodes }
    requires near { IsNear goal }
    requires part { PartWithin work.old depth k }
    ensures { (x : Syn) → IsPart work.old k x →
        Answers quietly work.old work.new ((reading x).initializer (asked_by goal.asked) goal.whole
        (type_in work.old.nodes goal.of) goal.at) FilledThere IsFilled result }
{
    let part = work.part(k);
    match part.kind {
        NodeKind::BracedInitializer => braced(work, part.kids, part.name.pos, goal, depth - 1),
        NodeKind::Text => {
            if takes_string(work, goal.of) {
                text_value(work, part.name, part.kids, goal)
            } else {
                plain_value(work, k, goal, depth)
            }
        }
        _ => plain_value(work, k, goal, depth),
    }
}

// Braces: `{ "ab" }` is the string (C11 6.7.9p14).
#[cycle(initial)]
fn braced(
    work: &mut Work<'_>,
    kids: &[u32],
    brace: Pos,
    goal: Goal,
    depth: u32,
) -> Result<Filled, Refusal>
    requires whole { IsWhole work.old.nodes }
    requires there { goal.of < type_count work.old.nodes }
    requires near { IsNear goal }
    requires parts { PartsWithin work.old depth kids.now }
    ensures { (t : Lexeme) (xs : Syns) → t.pos ≡ brace → AreParts work.old kids.now xs →
        Answers quietly work.old work.new (braced_initializer t (is_text xs) (readings xs)
        (asked_by goal.asked) goal.whole (type_in work.old.nodes goal.of) goal.at) FilledThere IsFilled result }
{
    match lone_text(work, kids, goal.of) {
        Some(k) => initializer(work, k, goal, depth),
        None => list(work, kids, brace, goal, depth),
    }
}

// A list in braces.
#[cycle(initial)]
fn list(
    work: &mut Work<'_>,
    kids: &[u32],
    brace: Pos,
    goal: Goal,
    depth: u32,
) -> Result<Filled, Refusal>
    requires whole { IsWhole work.old.nodes }
    requires there { goal.of < type_count work.old.nodes }
    requires near { IsNear goal }
    requires parts { PartsWithin work.old depth kids.now }
    ensures { (xs : Syns) → AreParts work.old kids.now xs →
        Answers quietly work.old work.new (gives_items (readings xs) (asked_by goal.asked) goal.whole
        (type_in work.old.nodes goal.of) goal.at brace) FilledThere IsFilled result }
{
    let places = places_of(work, goal.of, kids.len())?;
    listed(work, kids, &places, brace, goal, depth)
}

// Each of the list initialises the next part.
#[cycle(initial)]
fn listed(
    work: &mut Work<'_>,
    kids: &[u32],
    places: &Places,
    brace: Pos,
    goal: Goal,
    depth: u32,
) -> Result<Filled, Refusal>
    requires whole { IsWhole work.old.nodes }
    requires there { goal.of < type_count work.old.nodes }
    requires near { IsNear goal }
    requires parts { PartsWithin work.old depth kids.now }
    requires places { ArePlaces work.old goal.of (length kids.now) places.now }
    ensures { (xs : Syns) → AreParts work.old kids.now xs →
        Answers quietly work.old work.new (gives_items (readings xs) (asked_by goal.asked) goal.whole
        (type_in work.old.nodes goal.of) goal.at brace) FilledThere IsFilled result }
{
    let mut slots = Vec::new(work.nodes.alloc);
    let mut number: u32 = 0;
    for k in kids {
        let part = next_part(places, number, goal, brace)?;
        let filled = initializer(work, *k, part, depth)?;
        append(&mut slots, filled.slots.as_slice())?;
        number += 1;
    }
    Ok(Filled {
        slots,
        count: kids.len() as u64,
    })
}
