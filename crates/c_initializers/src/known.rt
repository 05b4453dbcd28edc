//! What is known of an expression before the program runs (C11 6.6p7 to p9).

ghost use Rattle.std.specs.Prelude.{◌≡◌, ℕ, ◌+◌, ◌<◌, ◌≤◌, ◌^◌, ◌&&◌, nat_le, Some, None, pos, ◌≤ℤ◌, neg_ℤ, reverse};
ghost use Rattle.std.specs.Prelude.{option_map, slice_get, if◌then◌else◌, IfOk};
ghost use Rattle.cap_concentrate.specs.Rounding.{owned};
ghost use Rattle.c_tree.specs.Layout.{size_limit};
ghost use Rattle.c_tree.specs.Scopes.{State};
ghost use Rattle.c_tree.specs.Statics.{There, near_all, moved_to, inside};
ghost use Rattle.c_tree.specs.Statics.{narrowed_in, narrowed, member_offset, move_by, pointed_at, target_size};
ghost use Rattle.c_tree.specs.Views.{aim_of};
ghost use Rattle.c_expressions.specs.Nodes.{IsWhole, type_in, term_in, type_count, term_count};
ghost use Rattle.c_elaborator.specs.declared.work.Bounds.TheVariants as spans;
ghost use Rattle.c_elaborator.specs.Work.{Shows, reach_of};
ghost use Rattle.c_initializers.specs.Starts.{IsKnown, known_of, Points, BoundsWithin, IsWithin, AreWithin};

use crate::sizes::size_of;
use crate::starts::{Known, Pointer, Value, is_exact, is_near};
use c_elaborator::{Bounds, Work};
use c_expressions::Class;
use c_plain_rules::{Place, all_members, record_of};
use c_tree::{RecordKind, Target};
use cap_layout::owned;
use ck_base::NoMemory;

// What an object of so many bytes owns.
fn owned_bytes(n: u64) -> u64
    requires { n ≤ size_limit }
    ensures is { result ≡ owned n }
    ensures small { result < 2 ^ 62 }
{
    owned(n).length
}

// A pointer.
fn place(target: Target, bounds: Bounds, offset: i128, asks: Vec<i128>) -> Known
    ensures is { known_of result ≡ (There (aim_of target) (reach_of bounds) offset, reverse asks.items) }
{
    let value = Value::There(Pointer {
        target,
        bounds,
        offset,
    });
    Known { value, asks }
}

// A pointer, where a test is passed.
fn place_if(
    test: bool,
    target: Target,
    bounds: Bounds,
    offset: i128,
    asks: Vec<i128>,
) -> Option<Known>
    ensures is { IsKnown (if test
        then Some (There (aim_of target) (reach_of bounds) offset, reverse asks.items) else None) result }
    ensures points { Points bounds offset result }
{
    if test {
        Some(place(target, bounds, offset, asks))
    } else {
        None
    }
}

// A move in an object whose length is not known, which asks for 1023 bytes less than the offset.
fn moved_in_open(
    target: Target,
    offset: i128,
    mut asks: Vec<i128>,
) -> Result<Option<Known>, NoMemory>
    requires low { neg_ℤ (pos (2 ^ 101)) ≤ℤ offset }
    requires high { offset ≤ℤ pos (2 ^ 101) }
    ensures is { IfOk result (IsKnown (near_all (aim_of target) offset None (reverse asks.items))) }
    ensures points { IfOk result (Points spans.Whole offset) }
{
    if offset + 1024 <= 0 {
        return Ok(None);
    }
    asks.push(offset - 1023)?;
    Ok(Some(place(target, Bounds::Whole, offset, asks)))
}

// A pointer is moved to an offset, which is less than 1024 bytes outside its bounds.
fn moved_to(
    work: &Work,
    target: Target,
    bounds: Bounds,
    offset: i128,
    asks: Vec<i128>,
) -> Result<Option<Known>, NoMemory>
    requires bounds { BoundsWithin (2 ^ 100) bounds }
    requires low { neg_ℤ (pos (2 ^ 101)) ≤ℤ offset }
    requires high { offset ≤ℤ pos (2 ^ 101) }
    ensures is { IfOk result (λ r. (s : State) → Shows work.now s →
        IsKnown (moved_to s (aim_of target) (reach_of bounds) offset (reverse asks.items)) r) }
    ensures points { IfOk result (Points bounds offset) }
{
    match bounds {
        Bounds::Part(low, length) => {
            let near = is_near(low, length, offset);
            Ok(place_if(near, target, bounds, offset, asks))
        }
        Bounds::Whole => match work.aim_length(target) {
            Some(length) => {
                let near = is_near(0, length, offset);
                Ok(place_if(near, target, bounds, offset, asks))
            }
            None => moved_in_open(target, offset, asks),
        },
    }
}

// A pointer is moved by so many bytes.
pub(crate) fn move_by(work: &Work, by: i128, x: Known) -> Result<Option<Known>, NoMemory>
    requires within { IsWithin (2 ^ 100) x.value }
    requires low { neg_ℤ (pos (2 ^ 64)) ≤ℤ by }
    requires high { by ≤ℤ pos (2 ^ 64) }
    ensures is { IfOk result (λ r. (s : State) → Shows work.now s → IsKnown (move_by s by (known_of x)) r) }
    ensures within { (n : ℕ) → IsWithin n x.value → IfOk result (AreWithin (n + 2 ^ 64)) }
{
    match x.value {
        Value::There(p) => moved_to(work, p.target, p.bounds, p.offset + by, x.asks),
        _ => Ok(None),
    }
}

// Bounds of so many bytes in an object whose length is not known, which ask for their end.
fn part_in_open(
    target: Target,
    at: u128,
    n: u64,
    mut asks: Vec<i128>,
) -> Result<Option<Known>, NoMemory>
    requires { at ≤ 2 ^ 100 }
    ensures is { IfOk result (IsKnown (inside None at n (reverse asks.items) (aim_of target))) }
    ensures points { IfOk result (Points (spans.Part at n) (pos at)) }
{
    asks.push((at + u128::from(n)) as i128)?;
    Ok(Some(place(target, Bounds::Part(at, n), at as i128, asks)))
}

// Whether so many bytes from an offset on lie in bounds.
fn lies_in(low: u128, length: u64, at: u128, n: u64) -> bool
    requires low { low ≤ 2 ^ 100 }
    requires at { at ≤ 2 ^ 100 }
    ensures { result ≡ (nat_le low at && nat_le (at + n) (low + length)) }
{
    low <= at && at + u128::from(n) <= low + u128::from(length)
}

// Exact bounds of so many bytes, inside those that the pointer has.
fn narrowed_in(
    work: &Work,
    target: Target,
    bounds: Bounds,
    at: u128,
    n: u64,
    asks: Vec<i128>,
) -> Result<Option<Known>, NoMemory>
    requires bounds { BoundsWithin (2 ^ 100) bounds }
    requires at { at ≤ 2 ^ 100 }
    ensures is { IfOk result (λ r. (s : State) → Shows work.now s →
        IsKnown (narrowed_in s (aim_of target) (reach_of bounds) at n (reverse asks.items)) r) }
    ensures points { IfOk result (Points (spans.Part at n) (pos at)) }
{
    let part = Bounds::Part(at, n);
    let offset = at as i128;
    match bounds {
        Bounds::Part(low, length) => {
            let lies = lies_in(low, length, at, n);
            Ok(place_if(lies, target, part, offset, asks))
        }
        Bounds::Whole => match work.aim_length(target) {
            Some(length) => {
                let lies = at + u128::from(n) <= u128::from(length);
                Ok(place_if(lies, target, part, offset, asks))
            }
            None => part_in_open(target, at, n, asks),
        },
    }
}

// A pointer is narrowed to so many bytes.
fn narrowed(work: &Work, n: u64, x: Known) -> Result<Option<Known>, NoMemory>
    requires within { IsWithin (2 ^ 100) x.value }
    requires small { n < 2 ^ 62 }
    ensures is { IfOk result (λ r. (s : State) → Shows work.now s → IsKnown (narrowed s n (known_of x)) r) }
    ensures within { (m : ℕ) → IsWithin m x.value → IfOk result (AreWithin m) }
{
    match x.value {
        Value::There(p) => {
            if p.offset < 0 {
                return Ok(None);
            }
            let at = p.offset as u128;
            if is_exact(at, n) {
                narrowed_in(work, p.target, p.bounds, at, n, x.asks)
            } else {
                Ok(None)
            }
        }
        _ => Ok(None),
    }
}

fn offset_at(places: &[Place], k: u32) -> Option<u64>
    ensures { result ≡ option_map (λ (p : Place). p.at) (slice_get places.now k) }
{
    match places.get(k as usize) {
        None => None,
        Some(p) => Some(p.at),
    }
}

// The offset of a member of a struct or union by a type.
pub(crate) fn member_offset(work: &Work, of: u32, k: u32) -> Result<Option<u64>, NoMemory>
    requires whole { IsWhole work.now.nodes }
    requires there { of < type_count work.now.nodes }
    ensures { IfOk result (λ n. (s : State) → Shows work.now s → member_offset s (type_in work.now.nodes of) k ≡ n) }
{
    match work.nodes.class(of) {
        Class::Tagged(tag) => match record_of(work, tag) {
            None => Ok(None),
            Some(record) => match record.kind {
                RecordKind::Union => Ok(Some(0)),
                RecordKind::Struct => match work.nodes.scopes.offset(tag, k) {
                    Some(at) => Ok(Some(at)),
                    None => {
                        let places = all_members(work, tag)?;
                        Ok(offset_at(places.as_slice(), k))
                    }
                },
            },
        },
        _ => Ok(None),
    }
}

// What is known of a place as a pointer: a member is narrowed to.
pub(crate) fn pointed_at(work: &Work, node: u32, x: Known) -> Result<Option<Known>, NoMemory>
    requires whole { IsWhole work.now.nodes }
    requires there { node < term_count work.now.nodes }
    requires within { IsWithin (2 ^ 100) x.value }
    ensures is { IfOk result (λ r. (s : State) → Shows work.now s →
        IsKnown (pointed_at s (term_in work.now.nodes node) (known_of x)) r) }
    ensures within { (n : ℕ) → IsWithin n x.value → IfOk result (AreWithin n) }
{
    if work.nodes.fact(node).member {
        let n = owned_bytes(size_of(work, work.nodes.of(node)));
        narrowed(work, n, x)
    } else {
        Ok(Some(x))
    }
}

// The size of what a pointer points to; 1 for another type.
pub(crate) fn target_size(work: &Work, of: u32) -> u64
    requires whole { IsWhole work.now.nodes }
    requires there { of < type_count work.now.nodes }
    ensures is { (s : State) → Shows work.now s → target_size s (type_in work.now.nodes of) ≡ result }
    ensures small { result ≤ size_limit }
{
    match work.nodes.target(of) {
        None => 1,
        Some(t) => size_of(work, t),
    }
}
