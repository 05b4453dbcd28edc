//! Jumps and branches, and where they lead.
ghost use Rattle.std.specs.Prelude.{◌≡◌, ℕ, ◌+◌, ◌*◌, ◌<◌, ◌≤ℤ◌, pos, neg_ℤ, IfSome, IfNone};
ghost use Rattle.rv_instr.specs.Range.{InRange, FitsBits, IsEven};
ghost use Rattle.rv_words.specs.Leading.{AreSound, IsSoFar, AreMarks, AreEntered, IsLed, IsMarked, AreLed};
ghost use Rattle.rv_words.specs.Leading.{leading, span, IsHop, IsLedTo, AreOrdered, StandsAt, IsEnteredAt};
ghost use Rattle.rv_words.specs.Leading.{IsJumpLed, AreLedTo};

use crate::instructions::{branch, jump};
use rv_instr::Instr;

/// A jump whose target is still to come: the word that jumps, and the number of a label or of a function.
#[derive(Clone, Copy)]
pub struct Jump {
    pub at: usize,
    pub to: u32,
}

/// A label that stands before the word `at`.
#[derive(Clone, Copy)]
pub struct Mark {
    pub label: u32,
    pub at: usize,
}

/// The bytes from one word to another, where a jump can hold so many.
fn hop(from: usize, to: usize) -> Option<i32>
    ensures range { IfSome result (FitsBits 21) }
    ensures even { IfSome result IsEven }
    ensures there { IfSome result (IsHop from to) }
    ensures far { IfNone result (to < from + 262144 → to + 262144 < from) }
{
    if to >= from {
        let words = to - from;
        if words < 0x4_0000 {
            Some(4 * (words as i32))
        } else {
            None
        }
    } else {
        let words = from - to;
        if words <= 0x4_0000 {
            Some(-4 * (words as i32))
        } else {
            None
        }
    }
}

/// The jump or the branch, by so many bytes, where it can hold them.
fn led(i: Instr, bytes: i32) -> Option<Instr>
    requires was { InRange i }
    requires range { FitsBits 21 bytes }
    requires even { IsEven bytes }
    ensures in_range { IfSome result InRange }
    ensures led { IfSome result (IsLed i bytes) }
    ensures is { IfSome result (λ j. j ≡ leading i bytes) }
    ensures far { IfNone result (neg_ℤ (pos (4 * span i)) ≤ℤ bytes → pos (4 * span i) ≤ℤ bytes) }
{
    match i {
        Instr::Cjal(link, _) => Some(jump(link, bytes)),
        Instr::Branch(op, a, b, _) if bytes >= -4096 && bytes < 4096 => {
            Some(branch(op, a, b, bytes))
        }
        _ => None,
    }
}

/// Where a label stands, among labels in ascending order.
fn place_of(marks: &[Mark], label: u32) -> Option<usize>
    requires { AreOrdered marks.now }
    ensures marked { IfSome result (IsMarked marks.now) }
    ensures found { IfSome result (λ at. (place : ℕ) → StandsAt marks.now label place → place ≡ at) }
    ensures none { IfNone result ((place : ℕ) → StandsAt marks.now label place → ⊥) }
{
    match marks.binary_search_by_key(&label, |m| m.label) {
        Ok(k) => Some(marks[k].at),
        Err(_) => None,
    }
}

/// Leads the jump or branch at a word to another word, where it can reach it.
pub fn lead(words: &mut Vec<Instr>, at: usize, to: usize)
    requires sound { AreSound words.old.items }
    requires target { IsSoFar words.old.items to }
    ensures led { AreLed words.old.items words.new.items }
    ensures there { IsLedTo words.old.items words.new.items at to }
{
    if at < words.len()
        && let Some(bytes) = hop(at, to)
        && let Some(i) = led(words[at], bytes)
    {
        words[at] = i;
    }
}

/// Leads a jump to its label. The labels are in ascending order.
fn lead_to_mark(words: &mut Vec<Instr>, jump: Jump, marks: &[Mark])
    requires sound { AreSound words.old.items }
    requires marks { AreMarks words.old.items marks.now }
    requires ordered { AreOrdered marks.now }
    ensures led { AreLed words.old.items words.new.items }
    ensures there { IsJumpLed (StandsAt marks.now) jump words.old.items words.new.items }
{
    if let Some(to) = place_of(marks, jump.to) {
        lead(words, jump.at, to);
    }
}

/// Leads each jump to its label. The labels are in ascending order.
pub fn lead_to_marks(words: &mut Vec<Instr>, jumps: &[Jump], marks: &[Mark])
    requires sound { AreSound words.old.items }
    requires marks { AreMarks words.old.items marks.now }
    requires ordered { AreOrdered marks.now }
    ensures led { AreLed words.old.items words.new.items }
    ensures there { AreLedTo (StandsAt marks.now) jumps.now words.old.items words.new.items }
{
    for jump in jumps {
        lead_to_mark(words, *jump, marks);
    }
}

/// Leads a call to its function's entry, which is in bytes.
fn lead_to_entry(words: &mut Vec<Instr>, call: Jump, entries: &[u32])
    requires sound { AreSound words.old.items }
    requires entries { AreEntered words.old.items entries.now }
    ensures led { AreLed words.old.items words.new.items }
    ensures there { IsJumpLed (IsEnteredAt entries.now) call words.old.items words.new.items }
{
    if let Some(to) = entries.get(call.to as usize) {
        lead(words, call.at, (*to / 4) as usize);
    }
}

/// Leads each call to its function's entry, which is in bytes.
pub fn lead_to_entries(words: &mut Vec<Instr>, calls: &[Jump], entries: &[u32])
    requires sound { AreSound words.old.items }
    requires entries { AreEntered words.old.items entries.now }
    ensures led { AreLed words.old.items words.new.items }
    ensures there { AreLedTo (IsEnteredAt entries.now) calls.now words.old.items words.new.items }
{
    for call in calls {
        lead_to_entry(words, *call, entries);
    }
}
