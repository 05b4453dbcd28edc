//! Operations on two pointers or capability integers, and calls through a value (C11 6.5.6, 6.5.8, 6.5.9, 6.5.2.2).

ghost use Rattle.std.specs.Prelude.{◌≡◌, ℕ, List, slice_get};
ghost use Rattle.cheri_c_sem.specs.Modes.{laps as laps_of};
ghost use Rattle.obj_mem.specs.Comparisons.{is_inside as is_inside_of, is_distinct as is_distinct_of};
ghost use Rattle.obj_mem.specs.Comparisons.{is_low as is_low_address, unequal_where as unequal_if};
ghost use Rattle.obj_mem.specs.Comparisons.{strict_equal as equal_strictly, equal as equal_of, negated as negation_of};
ghost use Rattle.obj_mem.specs.Comparisons.{is_true as is_true_of, less_word as less_of_words};
ghost use Rattle.obj_mem.specs.Comparisons.{strict_less as less_strictly, less as less_of, compare as compare_of};
ghost use Rattle.obj_mem.specs.Comparisons.{strict_distance as distance_strictly, distance as distance_of};
ghost use Rattle.obj_mem.specs.Comparisons.{strict_identical as identical_strictly, identical as identical_of};
ghost use Rattle.obj_mem.specs.Comparisons.{callee as callee_of};
ghost use Rattle.obj_mem.specs.Objects.{Shape};
ghost use Rattle.obj_mem.specs.Values.{Live, Fun, Raw, value_of};
ghost use Rattle.object_memory.specs.Answers.{mode_of, shapes_of};

use crate::capabilities::{address_of, bits_of};
use crate::object::{Life, Object};
use crate::pointers::has_tag;
use crate::words::word;
use cap_ops::Cause;
use ck_int::CmpOp;
use mean_work::unspecified;
use obj_mem::{Fault, Mode, Reason, Value};

/// Whether an offset is inside its object's length.
#[tactic(auto, using(crate::proofs::Puts::lookups))]
fn is_inside(objects: &[Object], object: u64, offset: u64) -> bool
    ensures { result ≡ is_inside_of (slice_get (shapes_of objects.now) object) offset }
{
    match objects.get(object as usize) {
        None => false,
        Some(o) => offset < o.length(),
    }
}

/// And the object is not a local of a function that has returned.
#[tactic(auto, using(crate::proofs::Puts::lookups))]
fn is_distinct(objects: &[Object], object: u64, offset: u64) -> bool
    ensures { result ≡ is_distinct_of (slice_get (shapes_of objects.now) object) offset }
{
    match objects.get(object as usize) {
        None => false,
        Some(o) => offset < o.length() && !matches!(o.life(), Life::Returned),
    }
}

/// Whether no object and no function has an address, nor a pointer up to 1023 bytes below an object.
fn is_low(address: u64) -> bool
    ensures { result ≡ is_low_address address }
{
    address < 64512
}

fn unequal_where(known: bool) -> Result<bool, Fault>
    ensures { result ≡ unequal_if known }
{
    if known {
        Ok(false)
    } else {
        unspecified(Reason::Address)
    }
}

/// Whether the address of a pointer to an object, at an offset, is that of a value.
fn equals_live(objects: &[Object], object: u64, at: u64, w: Value) -> Result<bool, Fault>
    ensures { (low high permissions : ℕ) →
        result ≡ equal_strictly (shapes_of objects.now) (Live object low high at permissions) (value_of w) }
{
    match w {
        Value::Int(_) => unspecified(Reason::Address),
        Value::Live(other, _, _, offset, _) => {
            let to = word(offset);
            if object == other {
                Ok(at == to)
            } else {
                unequal_where(is_distinct(objects, object, at) && is_distinct(objects, other, to))
            }
        }
        Value::Fun(_) => unequal_where(is_inside(objects, object, at)),
        Value::Raw(address, _) => unequal_where(is_low(address)),
    }
}

/// Whether the address of a function is that of a value.
fn equals_function(objects: &[Object], f: u32, w: Value) -> Result<bool, Fault>
    ensures { result ≡ equal_strictly (shapes_of objects.now) (Fun f) (value_of w) }
{
    match w {
        Value::Int(_) => unspecified(Reason::Address),
        Value::Live(object, _, _, offset, _) => {
            unequal_where(is_inside(objects, object, word(offset)))
        }
        Value::Fun(g) => Ok(f == g),
        Value::Raw(address, _) => unequal_where(is_low(address)),
    }
}

/// Whether an address without a tag is that of a value.
fn equals_address(objects: &[Object], address: u64, upper: u64, w: Value) -> Result<bool, Fault>
    ensures { result ≡ equal_strictly (shapes_of objects.now) (Raw address upper) (value_of w) }
{
    match w {
        Value::Int(_) => unspecified(Reason::Address),
        Value::Live(_, _, _, _, _) | Value::Fun(_) => unequal_where(is_low(address)),
        Value::Raw(other, _) => Ok(address == other),
    }
}

fn strict_equal(objects: &[Object], v: Value, w: Value) -> Result<bool, Fault>
    ensures { result ≡ equal_strictly (shapes_of objects.now) (value_of v) (value_of w) }
{
    match v {
        Value::Int(_) => unspecified(Reason::Address),
        Value::Live(object, _, _, offset, _) => equals_live(objects, object, word(offset), w),
        Value::Fun(f) => equals_function(objects, f, w),
        Value::Raw(address, upper) => equals_address(objects, address, upper, w),
    }
}

/// Whether addresses are equal.
fn equal(mode: Mode<'_>, objects: &[Object], v: Value, w: Value) -> Result<bool, Fault>
    ensures { result ≡ equal_of (mode_of mode.entry) (shapes_of objects.now) (value_of v) (value_of w) }
{
    match mode {
        Mode::Placed(map) => Ok(address_of(map, objects, v) == address_of(map, objects, w)),
        Mode::Strict => strict_equal(objects, v, w),
    }
}

fn negated(answer: Result<bool, Fault>) -> Result<bool, Fault>
    ensures { result ≡ negation_of answer }
{
    match answer {
        Ok(b) => Ok(!b),
        Err(e) => Err(e),
    }
}

/// Whether a value is other than null.
pub(crate) fn is_true(mode: Mode<'_>, objects: &[Object], v: Value) -> Result<bool, Fault>
    ensures { result ≡ is_true_of (mode_of mode.entry) (shapes_of objects.now) (value_of v) }
{
    negated(equal(mode, objects, v, Value::Raw(0, 0)))
}

/// As signed numbers, or as unsigned ones.
fn less_word(signed: bool, x: u64, y: u64) -> bool
    ensures { result ≡ less_of_words signed x y }
{
    if signed {
        x.wrapping_add(1 << 63) < y.wrapping_add(1 << 63)
    } else {
        x < y
    }
}

fn strict_less(signed: bool, v: Value, w: Value) -> Result<bool, Fault>
    ensures { result ≡ less_strictly signed (value_of v) (value_of w) }
{
    match (v, w) {
        (Value::Live(o, _, _, at, _), Value::Live(o2, _, _, at2, _)) if o == o2 => {
            Ok(less_word(true, word(at), word(at2)))
        }
        (Value::Fun(f), Value::Fun(g)) if f == g => Ok(false),
        (Value::Raw(address, _), Value::Raw(address2, _)) => {
            Ok(less_word(signed, address, address2))
        }
        _ => unspecified(Reason::Address),
    }
}

fn less(mode: Mode<'_>, objects: &[Object], signed: bool, v: Value, w: Value) -> Result<bool, Fault>
    ensures { result ≡ less_of (mode_of mode.entry) (shapes_of objects.now) signed (value_of v) (value_of w) }
{
    match mode {
        Mode::Placed(map) => Ok(less_word(
            signed,
            address_of(map, objects, v),
            address_of(map, objects, w),
        )),
        Mode::Strict => strict_less(signed, v, w),
    }
}

/// A comparison of addresses, which count as signed numbers or as unsigned ones.
pub(crate) fn compare(
    mode: Mode<'_>,
    objects: &[Object],
    signed: bool,
    op: CmpOp,
    v: Value,
    w: Value,
) -> Result<bool, Fault>
    ensures { result ≡ compare_of (mode_of mode.entry) (shapes_of objects.now) signed op (value_of v) (value_of w) }
{
    match op {
        CmpOp::Lt => less(mode, objects, signed, v, w),
        CmpOp::Le => negated(less(mode, objects, signed, w, v)),
        CmpOp::Gt => less(mode, objects, signed, w, v),
        CmpOp::Ge => negated(less(mode, objects, signed, v, w)),
        CmpOp::Eq => equal(mode, objects, v, w),
        CmpOp::Ne => negated(equal(mode, objects, v, w)),
    }
}

fn strict_distance(v: Value, w: Value) -> Result<u64, Fault>
    ensures { result ≡ distance_strictly (value_of v) (value_of w) }
{
    match (v, w) {
        (Value::Live(o, _, _, at, _), Value::Live(o2, _, _, at2, _)) if o == o2 => {
            Ok(word(at).wrapping_sub(word(at2)))
        }
        (Value::Fun(f), Value::Fun(g)) if f == g => Ok(0),
        (Value::Raw(address, _), Value::Raw(address2, _)) => Ok(address.wrapping_sub(address2)),
        _ => unspecified(Reason::Address),
    }
}

/// From the second address to the first, in bytes.
pub(crate) fn distance(mode: Mode<'_>, objects: &[Object], v: Value, w: Value) -> Result<u64, Fault>
    ensures { result ≡ distance_of (mode_of mode.entry) (shapes_of objects.now) (value_of v) (value_of w) }
{
    match mode {
        Mode::Placed(map) => {
            let to = address_of(map, objects, v);
            Ok(to.wrapping_sub(address_of(map, objects, w)))
        }
        Mode::Strict => strict_distance(v, w),
    }
}

fn strict_identical(objects: &[Object], v: Value, w: Value) -> Result<bool, Fault>
    ensures { result ≡ identical_strictly (shapes_of objects.now) (value_of v) (value_of w) }
{
    match (v, w) {
        (Value::Live(o, low, high, at, p), Value::Live(o2, low2, high2, at2, p2)) => {
            if o == o2 {
                Ok(low == low2 && high == high2 && word(at) == word(at2) && p == p2)
            } else {
                strict_equal(objects, v, w)
            }
        }
        (Value::Live(_, _, _, _, _), Value::Fun(_)) | (Value::Fun(_), Value::Live(_, _, _, _, _)) =>
            strict_equal(objects, v, w),
        (Value::Fun(f), Value::Fun(g)) => Ok(f == g),
        (Value::Raw(address, upper), Value::Raw(address2, upper2)) => {
            Ok(address == address2 && upper == upper2)
        }
        (Value::Int(_), _) | (_, Value::Int(_)) => unspecified(Reason::Address),
        _ => Ok(false),
    }
}

/// Whether tags and all bits are equal.
pub(crate) fn identical(
    mode: Mode<'_>,
    objects: &[Object],
    v: Value,
    w: Value,
) -> Result<bool, Fault>
    ensures { result ≡ identical_of (mode_of mode.entry) (shapes_of objects.now) (value_of v) (value_of w) }
{
    match mode {
        Mode::Placed(map) => {
            Ok(has_tag(v) == has_tag(w) && bits_of(map, objects, v) == bits_of(map, objects, w))
        }
        Mode::Strict => strict_identical(objects, v, w),
    }
}

/// The function that a call through a value enters, or the cause by which the jump fails.
pub fn callee(v: Value) -> Result<u32, Fault>
    ensures { result ≡ callee_of (value_of v) }
{
    match v {
        Value::Fun(f) => Ok(f),
        Value::Live(_, _, _, _, _) => Err(Fault::Cause(Cause::Execute)),
        Value::Raw(_, _) | Value::Int(_) => Err(Fault::Cause(Cause::Tag)),
    }
}

/// Whether so many bytes at two places of one object have some in common and not all.
pub(crate) fn laps(from: Value, to: Value, bytes: u64) -> bool
    ensures { result ≡ laps_of (value_of from) (value_of to) bytes }
{
    match (from, to) {
        (Value::Live(o, _, _, at, _), Value::Live(o2, _, _, at2, _)) => {
            let down = word(at).wrapping_sub(word(at2));
            let up = word(at2).wrapping_sub(word(at));
            o == o2 && word(at) != word(at2) && (down < bytes || up < bytes)
        }
        _ => false,
    }
}
