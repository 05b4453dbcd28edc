//! Constants and addresses before the program runs (C11 6.6p7 to p9).

ghost use Rattle.std.specs.Prelude.{◌≡◌, ℕ, ◌+◌, ◌*◌, [], ◌<◌, ◌≤◌, ◌^◌, pos, ◌≤ℤ◌, neg_ℤ, option_map, IfOk, IfSome};
ghost use Rattle.c_tree.specs.Constants.{constant_of};
ghost use Rattle.c_tree.specs.Scopes.{State};
ghost use Rattle.c_tree.specs.Statics.{known_value, start_of, number_in, by_number, with_known, by_offset};
ghost use Rattle.c_tree.specs.Statics.{member_offset, pointed_at, cast_start, summed, derived_sum, is_start};
ghost use Rattle.c_tree.specs.Types.{bare};
ghost use Rattle.c_tree.specs.Terms.{type_of};
ghost use Rattle.c_expressions.specs.Nodes.{IsWhole, type_in, term_in, type_count, term_count};
ghost use Rattle.c_elaborator.specs.Answers.{Answers, quietly, NothingThere, IsNothing};
ghost use Rattle.c_elaborator.specs.Work.{Shows};
ghost use Rattle.c_initializers.specs.Forms.{StandsBefore, form_start};
ghost use Rattle.c_initializers.specs.Slots.{IsSlotThere, slot_in};
ghost use Rattle.c_initializers.specs.Starts.{IsKnown, known_of, AreWithin};
ghost use Rattle.c_initializers.specs.Starts.{start_of as value_start};

use crate::forms::{Form, form_of, reads};
use crate::known::{member_offset, move_by, pointed_at, target_size};
use crate::slots::Slot;
use crate::starts::{Known, Pointer, Value, bytes_moved, number_at};
use c_elaborator::{Bounds, Work};
use c_expressions::Nodes;
use ck_base::{NO_CONSTANT, NoMemory, Refusal};

// The number that is added to an address or taken from it, if it is constant.
fn number_of(nodes: &Nodes, node: u32) -> Option<i128>
    requires whole { IsWhole nodes.now }
    requires there { node < term_count nodes.now }
    ensures is { number_in (term_in nodes.now node) (constant_of (term_in nodes.now node)) ≡ result }
    ensures low { IfSome result (λ z. neg_ℤ (pos (2 ^ 64)) ≤ℤ z) }
    ensures high { IfSome result (λ z. z ≤ℤ pos (2 ^ 64)) }
{
    match nodes.constant_of(node) {
        None => None,
        Some(v) => Some(number_at(nodes.evaluation(nodes.of(node)).kind, v)),
    }
}

// What is known of a pointer with so many parts of so many bytes more or less.
fn moved_by(
    work: &Work,
    number: Option<i128>,
    minus: bool,
    size: u64,
    x: Option<Known>,
) -> Result<Option<Known>, NoMemory>
    requires low { IfSome number (λ z. neg_ℤ (pos (2 ^ 64)) ≤ℤ z) }
    requires high { IfSome number (λ z. z ≤ℤ pos (2 ^ 64)) }
    requires small { size ≤ 67108864 }
    requires within { AreWithin (2 ^ 100) x }
    ensures is { IfOk result (λ r. (s : State) → Shows work.now s →
        IsKnown (by_number s minus size number (option_map known_of x)) r) }
    ensures within { (n : ℕ) → AreWithin n x → IfOk result (AreWithin (n + 2 ^ 64)) }
{
    match number {
        None => Ok(None),
        Some(z) => match x {
            None => Ok(None),
            Some(known) => move_by(work, i128::from(bytes_moved(minus, size, z)), known),
        },
    }
}

// A member, by its number, of a place.
fn member_of(work: &Work, a: u32, k: u32, x: Option<Known>) -> Result<Option<Known>, NoMemory>
    requires whole { IsWhole work.now.nodes }
    requires there { a < term_count work.now.nodes }
    requires within { AreWithin (2 ^ 100) x }
    ensures is { IfOk result (λ r. (s : State) → Shows work.now s →
        IsKnown (with_known (option_map known_of x)
        (by_offset s (member_offset s (bare (type_of (term_in work.now.nodes a))) k))) r) }
    ensures within { (n : ℕ) → AreWithin n x → IfOk result (AreWithin (n + 2 ^ 64)) }
{
    match x {
        None => Ok(None),
        Some(known) => match member_offset(work, work.nodes.bare(work.nodes.of(a)), k)? {
            None => Ok(None),
            Some(at) => move_by(work, i128::from(at), known),
        },
    }
}

// A place as a pointer.
fn pointer_to(work: &Work, a: u32, x: Option<Known>) -> Result<Option<Known>, NoMemory>
    requires whole { IsWhole work.now.nodes }
    requires there { a < term_count work.now.nodes }
    requires within { AreWithin (2 ^ 100) x }
    ensures is { IfOk result (λ r. (s : State) → Shows work.now s →
        IsKnown (with_known (option_map known_of x) (pointed_at s (term_in work.now.nodes a))) r) }
    ensures within { (n : ℕ) → AreWithin n x → IfOk result (AreWithin n) }
{
    match x {
        None => Ok(None),
        Some(known) => pointed_at(work, a, known),
    }
}

// A pointer or capability integer as another one.
fn cast_of(work: &Work, node: u32, x: Option<Known>) -> Option<Known>
    requires whole { IsWhole work.now.nodes }
    requires there { node < term_count work.now.nodes }
    ensures is { IsKnown (cast_start (bare (type_of (term_in work.now.nodes node))) (option_map known_of x)) result }
    ensures within { (n : ℕ) → AreWithin n x → AreWithin n result }
{
    if work
        .nodes
        .is_capability(work.nodes.bare(work.nodes.of(node)))
    {
        x
    } else {
        None
    }
}

// A sum of a pointer and a number, in the order of the source.
fn sum_of(
    work: &Work,
    of: u32,
    minus: bool,
    left: (u32, Option<Known>),
    right: (u32, Option<Known>),
) -> Result<Option<Known>, NoMemory>
    requires whole { IsWhole work.now.nodes }
    requires of { of < type_count work.now.nodes }
    requires left { left.0 < term_count work.now.nodes }
    requires right { right.0 < term_count work.now.nodes }
    requires left_within { AreWithin (2 ^ 100) left.1 }
    requires right_within { AreWithin (2 ^ 100) right.1 }
    ensures is { IfOk result (λ r. (s : State) → Shows work.now s →
        IsKnown (summed s (type_in work.now.nodes of) minus
        (term_in work.now.nodes left.0, option_map known_of left.1)
        (term_in work.now.nodes right.0, option_map known_of right.1)) r) }
    ensures within { (n : ℕ) → AreWithin n left.1 → AreWithin n right.1 → IfOk result (AreWithin (n + 2 ^ 64)) }
{
    let size = target_size(work, of);
    if work
        .nodes
        .is_pointer(work.nodes.bare(work.nodes.of(left.0)))
    {
        moved_by(work, number_of(&work.nodes, right.0), minus, size, left.1)
    } else {
        moved_by(work, number_of(&work.nodes, left.0), minus, size, right.1)
    }
}

// A sum or a difference of capability integers, which derives from one of them.
fn derived_of(
    work: &Work,
    minus: bool,
    from_right: bool,
    left: (u32, Option<Known>),
    right: (u32, Option<Known>),
) -> Result<Option<Known>, NoMemory>
    requires whole { IsWhole work.now.nodes }
    requires left { left.0 < term_count work.now.nodes }
    requires right { right.0 < term_count work.now.nodes }
    requires left_within { AreWithin (2 ^ 100) left.1 }
    requires right_within { AreWithin (2 ^ 100) right.1 }
    ensures is { IfOk result (λ r. (s : State) → Shows work.now s →
        IsKnown (derived_sum s minus from_right (term_in work.now.nodes left.0, option_map known_of left.1)
        (term_in work.now.nodes right.0, option_map known_of right.1)) r) }
    ensures within { (n : ℕ) → AreWithin n left.1 → AreWithin n right.1 → IfOk result (AreWithin (n + 2 ^ 64)) }
{
    if !from_right {
        moved_by(work, number_of(&work.nodes, right.0), minus, 1, left.1)
    } else if minus {
        Ok(None)
    } else {
        moved_by(work, number_of(&work.nodes, left.0), false, 1, right.1)
    }
}

fn alone(work: &Work, value: Value) -> Known
    ensures { known_of result ≡ (value_start value, []) }
{
    Known {
        value,
        asks: Vec::new(work.nodes.alloc),
    }
}

// What is known of an expression. Each that it is made of moves an address by less than 2 ^ 64 bytes.
#[cycle(starts)]
fn start_of(work: &Work, node: u32) -> Result<Option<Known>, NoMemory>
    requires whole { IsWhole work.now.nodes }
    requires there { node < term_count work.now.nodes }
    ensures is { IfOk result (λ r. (s : State) → Shows work.now s →
        IsKnown (start_of s (term_in work.now.nodes node)) r) }
    ensures within { IfOk result (AreWithin ((node + 1) * 2 ^ 64)) }
{
    match work.nodes.constant_of(node) {
        Some(number) => Ok(Some(alone(work, Value::Number(number)))),
        None => form_start(work, node, form_of(&work.nodes, node)),
    }
}

// What is known of an expression of a form.
#[cycle(starts)]
fn form_start(work: &Work, node: u32, form: Form) -> Result<Option<Known>, NoMemory>
    requires whole { IsWhole work.now.nodes }
    requires there { node < term_count work.now.nodes }
    requires before { StandsBefore form node }
    ensures is { IfOk result (λ r. (s : State) → Shows work.now s →
        IsKnown (form_start s (term_in work.now.nodes) (type_of (term_in work.now.nodes node)) form) r) }
    ensures within { IfOk result (AreWithin ((node + 1) * 2 ^ 64)) }
{
    match form {
        Form::Whole(target) => Ok(Some(alone(
            work,
            Value::There(Pointer {
                target,
                bounds: Bounds::Whole,
                offset: 0,
            }),
        ))),
        Form::Entry(k) => Ok(Some(alone(work, Value::Entry(k)))),
        Form::Member(a, k) => {
            let x = start_of(work, a)?;
            member_of(work, a, k, x)
        }
        Form::Pointed(a) => {
            let x = start_of(work, a)?;
            pointer_to(work, a, x)
        }
        Form::Same(a) => start_of(work, a),
        Form::Converted(a) => {
            let x = start_of(work, a)?;
            Ok(cast_of(work, node, x))
        }
        Form::Plus(a, b, minus) => {
            let x = start_of(work, a)?;
            let y = start_of(work, b)?;
            let of = work.nodes.bare(work.nodes.of(node));
            sum_of(work, of, minus, (a, x), (b, y))
        }
        Form::Derived(a, b, minus, from_right) => {
            let x = start_of(work, a)?;
            let y = start_of(work, b)?;
            derived_of(work, minus, from_right, (a, x), (b, y))
        }
        Form::Other => Ok(None),
    }
}

/// What is known of a value before the program runs: a number, an address or a function. What is read from a place is
/// not known.
pub(crate) fn known_value(work: &Work, node: u32) -> Result<Option<Known>, NoMemory>
    requires whole { IsWhole work.now.nodes }
    requires there { node < term_count work.now.nodes }
    ensures { IfOk result (λ r. (s : State) → Shows work.now s →
        IsKnown (known_value s (term_in work.now.nodes node)) r) }
{
    if reads(&work.nodes, node) {
        Ok(None)
    } else {
        start_of(work, node)
    }
}

/// A value that is written for an object of static storage duration is a constant or an address: else 134 at its first
/// byte. This is asked of each item before the next one is typed.
pub fn is_start(work: &Work, x: &Slot) -> Result<(), Refusal>
    requires whole { IsWhole work.now.nodes }
    requires there { IsSlotThere work.now.nodes x.now }
    ensures { Answers quietly work.now work.now
        (is_start (slot_in work.now.nodes x.now)) NothingThere IsNothing result }
{
    match known_value(work, x.value)? {
        None => Err(Refusal::Code(NO_CONSTANT, x.first)),
        Some(_) => Ok(()),
    }
}
