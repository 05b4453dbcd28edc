//! What an object of static storage duration begins with (C11 6.7.9p4).

ghost use Rattle.std.specs.Prelude.{◌≡◌, ◌++◌, ◌∷◌, [], Some, length, map, reverse, IfOk, OnOk};
ghost use Rattle.c_tree.specs.Scopes.{State};
ghost use Rattle.c_tree.specs.Readings as meant;
ghost use Rattle.c_tree.specs.Statics.{known_value, start_slots};
ghost use Rattle.c_expressions.specs.Nodes.{IsWhole};
ghost use Rattle.c_elaborator.specs.Answers.{Answers, freely};
ghost use Rattle.c_elaborator.specs.Work.{Shows, aiming_of, pending_of};
ghost use Rattle.c_initializers.specs.Found.{FoundThere, IsFound, Knows, AddsFound, Waits, found_seen, found_of};
ghost use Rattle.c_initializers.specs.Found.{asked_of, pendings};
ghost use Rattle.c_plain_rules.specs.Placing.{pointers_end};
ghost use Rattle.c_initializers.specs.Slots.{AreSlotsThere, slot_in, slots_in};
ghost use Rattle.c_initializers.specs.Starts.{known_of};

use crate::addresses::known_value;
use crate::sizes::size_of;
use crate::slots::Slot;
use crate::starts::{Known, Value};
use c_elaborator::{Bounds, Start, Waiting, Work};
use c_plain_rules::Placed;
use c_tree::Target;
use ck_base::{NO_CONSTANT, NoMemory, Pos, Refusal};

/// The numbers and the pointers that stand in an object.
#[derive(Drop)]
pub struct Found {
    pub numbers: Vec<Placed>,
    pub starts: Vec<Start>,
}

fn keep(known: &mut Vec<Known>, value: Known) -> Result<(), NoMemory>
    ensures { OnOk result (known.new.items ≡ known.old.items ++ value ∷ []) }
{
    known.push(value)?;
    Ok(())
}

// What is known of the values of slots; 134 at the first of which nothing is known.
fn known_values(work: &Work, slots: &[Slot]) -> Result<Vec<Known>, Refusal>
    requires whole { IsWhole work.now.nodes }
    requires slots { AreSlotsThere work.now.nodes slots.now }
    ensures { Knows work.now slots.now result }
{
    let mut known = Vec::new(work.nodes.alloc);
    for x in slots {
        match known_value(work, x.value)? {
            None => return Err(Refusal::Code(NO_CONSTANT, x.first)),
            Some(value) => keep(&mut known, value)?,
        }
    }
    Ok(known)
}

// One more value is found.
fn add_start(work: &Work, x: Slot, v: &Known, found: &mut Found) -> Result<(), NoMemory>
    ensures { OnOk result (AddsFound work.now x v.now found.old found.new) }
{
    match v.value {
        Value::Number(number) => {
            let width = size_of(work, x.of);
            found.numbers.push(Placed {
                at: x.at,
                width,
                number,
            })?;
            Ok(())
        }
        Value::There(p) => {
            found.starts.push(Start {
                at: x.at,
                target: p.target,
                bounds: p.bounds,
                offset: p.offset,
            })?;
            Ok(())
        }
        Value::Entry(k) => {
            found.starts.push(Start {
                at: x.at,
                target: Target::Fun(k),
                bounds: Bounds::Whole,
                offset: 0,
            })?;
            Ok(())
        }
    }
}

// The numbers and the pointers, in the order of the slots.
fn found_in(work: &Work, slots: &[Slot], known: &[Known]) -> Result<Found, NoMemory>
    requires { length known.now ≡ length slots.now }
    ensures { IfOk result (λ f. (s : State) → Shows work.now s →
        found_seen f ≡ found_of s (slots_in work.now.nodes slots.now) (map known_of known.now)) }
{
    let mut found = Found {
        numbers: Vec::new(work.nodes.alloc),
        starts: Vec::new(work.nodes.alloc),
    };
    for (k, x) in slots.iter().enumerate() {
        add_start(work, *x, &known[k], &mut found)?;
    }
    Ok(found)
}

// Lengths that an object is asked for, the last one first.
fn ask(waiting: &mut Vec<Waiting>, pos: Pos, object: u32, asks: &[i128]) -> Result<(), NoMemory>
    ensures { OnOk result (map pending_of waiting.new.items
        ≡ map pending_of waiting.old.items ++ pendings pos object (reverse asks.now)) }
{
    let mut left = asks.len();
    while left > 0 {
        left -= 1;
        waiting.push(Waiting {
            pos,
            object,
            least: asks[left],
        })?;
    }
    Ok(())
}

// What a pointer into an object asks of it, where its length is not known.
fn ask_for(work: &mut Work, x: Slot, v: &Known) -> Result<(), NoMemory>
    ensures { OnOk result (Waits work.old work.new (asked_of (slot_in work.old.nodes x) (known_of v.now))) }
{
    match v.value {
        Value::There(p) => match p.target {
            Target::Global(object) => ask(&mut work.waiting, x.first, object, v.asks.as_slice()),
            _ => Ok(()),
        },
        _ => Ok(()),
    }
}

/// What each value is, once the object's length is known: 134 at the first that is not known before the program runs.
/// What is asked of objects whose lengths are not known waits for the end of the file.
pub fn start_slots(work: &mut Work, slots: &[Slot]) -> Result<Found, Refusal>
    requires whole { IsWhole work.old.nodes }
    requires slots { AreSlotsThere work.old.nodes slots.now }
    ensures { Answers freely work.old work.new
        (start_slots (slots_in work.old.nodes slots.now)) FoundThere IsFound result }
{
    match known_values(work, slots) {
        Err(refusal) => Err(refusal),
        Ok(known) => start_known(work, slots, known.as_slice()),
    }
}

// The same where something is known of each value.
fn start_known(work: &mut Work, slots: &[Slot], known: &[Known]) -> Result<Found, Refusal>
    requires whole { IsWhole work.old.nodes }
    requires length { length known.now ≡ length slots.now }
    requires known { (s : State) → Shows work.old s →
        map (λ (x : meant.Slot). known_value s x.value) (slots_in work.old.nodes slots.now)
        ≡ map (λ k. Some (known_of k)) known.now }
    ensures { Answers freely work.old work.new
        (start_slots (slots_in work.old.nodes slots.now)) FoundThere IsFound result }
{
    let found = found_in(work, slots, known)?;
    let mut left = slots.len();
    while left > 0 {
        left -= 1;
        ask_for(work, slots[left], &known[left])?;
    }
    Ok(found)
}

/// Where the last of some pointers ends in the object, in bytes; 0 where there is none.
pub fn pointers_end(starts: &[Start]) -> u128
    ensures { pointers_end (map aiming_of starts.now) ≡ result }
{
    let mut end: u128 = 0;
    for x in starts {
        end = end.max(u128::from(x.at) + 16);
    }
    end
}
