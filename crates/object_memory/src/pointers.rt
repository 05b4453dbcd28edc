//! Operations on one pointer or capability integer.

ghost use Rattle.std.specs.Prelude.{◌≡◌, ◌+◌, ◌^◌, ◌<◌, ◌≤◌, ◌==◌, ◌||◌, not, nat_lt, IsTrue, List};
ghost use Rattle.obj_mem.specs.Objects.{Shape, base_in as base_of};
ghost use Rattle.obj_mem.specs.Pointers.{is_near as is_near_to, placed_move as placed_moved};
ghost use Rattle.obj_mem.specs.Pointers.{strict_move as strict_moved, move, is_rounding as rounds};
ghost use Rattle.obj_mem.specs.Pointers.{placed_narrow as placed_narrowed, strict_narrow as strict_narrowed, narrow};
ghost use Rattle.obj_mem.specs.Pointers.{clear as clear_of, mask, get_address, placed_at_address as placed_with};
ghost use Rattle.obj_mem.specs.Pointers.{set_address, length_between as length_from, get_tag, get_permissions};
ghost use Rattle.obj_mem.specs.Pointers.{get_base, get_length, get_offset, raw_fields, raw_base, raw_top};
ghost use Rattle.cap_concentrate.specs.Rounding.{alignment, owned, least_base, least_top};
ghost use Rattle.obj_mem.specs.Table.{addresses_of};
ghost use Rattle.obj_mem.specs.Values.{value_of};
ghost use Rattle.object_memory.specs.Answers.{mode_of, moved_to, seen, shapes_of, HasBase};

use crate::capabilities::{
    FUNCTION_PERMISSIONS, address_of, base_in, cleared, entry_of, keeps, pair, text_of, untagged,
};
use crate::object::Object;
use crate::words::{live, word};
use cap_concentrate::{
    Fields, alignment_mask, bounds_of, flip_null, rounded_length, set_bounds, unpack,
};
use mean_work::unspecified;
use obj_mem::{Fault, Map, Mode, Reason, Value};

/// A pointer with another offset, which keeps its tag where its bounds stay the same.
fn at_offset(map: &Map, objects: &[Object], v: Value, to: u64) -> Value
    ensures { value_of result ≡ moved_to (addresses_of map.now) (base_of (shapes_of objects.now)) (value_of v) to }
{
    match v {
        Value::Live(object, low, high, _, permissions) => {
            let base = base_in(objects, object);
            let address = base.wrapping_add(to);
            if keeps(
                u128::from(base) + u128::from(low),
                u128::from(base) + u128::from(high),
                address,
            ) {
                live(object, low, high, to, permissions)
            } else {
                untagged(map, objects, v, address)
            }
        }
        _ => v,
    }
}

fn placed_move(map: &Map, objects: &[Object], v: Value, by: u64) -> Value
    ensures { value_of result ≡ placed_moved (addresses_of map.now) (base_of (shapes_of objects.now)) (value_of v) by }
{
    match v {
        Value::Int(_) => v,
        Value::Raw(address, upper) => Value::Raw(address.wrapping_add(by), upper),
        Value::Fun(f) => untagged(map, objects, v, entry_of(map, f).wrapping_add(by)),
        Value::Live(_, _, _, offset, _) => {
            at_offset(map, objects, v, word(offset).wrapping_add(by))
        }
    }
}

/// Whether an offset is less than 1024 bytes below or above bounds, modulo 2^64.
fn is_near(low: u64, high: u64, offset: u64) -> bool
    ensures { result ≡ is_near_to low high offset }
{
    let distance = offset.wrapping_add(1023).wrapping_sub(low);
    u128::from(distance) + u128::from(low) < u128::from(high) + 2047
}

fn strict_move(v: Value, by: u64) -> Result<Value, Fault>
    ensures { seen result ≡ strict_moved (value_of v) by }
{
    match v {
        Value::Int(_) => Ok(v),
        Value::Raw(address, upper) => Ok(Value::Raw(address.wrapping_add(by), upper)),
        Value::Fun(_) => unspecified(Reason::Address),
        Value::Live(object, low, high, offset, permissions) => {
            let to = word(offset).wrapping_add(by);
            if is_near(low, high, to) {
                Ok(live(object, low, high, to, permissions))
            } else {
                unspecified(Reason::Excursion)
            }
        }
    }
}

/// A value moved by bytes, counted modulo 2^64.
pub(crate) fn moved(mode: Mode<'_>, objects: &[Object], v: Value, by: u64) -> Result<Value, Fault>
    ensures { seen result ≡ move (mode_of mode.entry) (shapes_of objects.now) (value_of v) by }
{
    match mode {
        Mode::Placed(map) => Ok(placed_move(map, objects, v, by)),
        Mode::Strict => strict_move(v, by),
    }
}

fn placed_narrow(map: &Map, objects: &[Object], v: Value, length: u64, exact: bool) -> Value
    ensures { value_of result ≡ placed_narrowed (addresses_of map.now) (base_of (shapes_of objects.now))
        (value_of v) length exact }
{
    match v {
        Value::Int(_) | Value::Raw(_, _) => v,
        Value::Fun(_) => cleared(map, objects, v),
        Value::Live(object, low, high, offset, permissions) => {
            let base = base_in(objects, object);
            let start = base.wrapping_add(word(offset));
            if u128::from(start) + u128::from(length) > 1 << 64 {
                return cleared(map, objects, v);
            }
            let bounds = set_bounds(start, length);
            let old_base = u128::from(base) + u128::from(low);
            let old_top = u128::from(base) + u128::from(high);
            let inside = old_base <= u128::from(bounds.base) && bounds.top <= old_top;
            if inside && (!exact || bounds.exact) {
                Value::Live(
                    object,
                    bounds.base - base,
                    (bounds.top - u128::from(base)) as u64,
                    offset,
                    permissions,
                )
            } else {
                cleared(map, objects, v)
            }
        }
    }
}

/// The alignment of an object of so many bytes.
#[tactic(auto, using(crate::proofs::Roundings::unmasked, cap_concentrate::proofs::Owned::alignment_pos))]
pub(crate) fn alignment_of(length: u64) -> u64
    ensures value { result ≡ alignment length }
    ensures some { 0 < result }
{
    0u64.wrapping_sub(alignment_mask(length))
}

/// Whether a length is its own owned length.
#[tactic(auto, using(crate::proofs::Roundings::owned_kept))]
fn is_owned(length: u64) -> bool
    ensures { result ≡ (owned length == length) }
{
    rounded_length(length) == length
}

/// Whether it depends on the address that a narrowing is exact.
fn is_rounding(offset: u64, length: u64) -> bool
    ensures { result ≡ rounds offset length }
{
    if length <= 4095 {
        return false;
    }
    let alignment = alignment_of(length);
    !(offset % alignment == 0 && is_owned(length))
}

/// Whether the least bounds of a request, taken on offsets, lie inside bounds.
#[tactic(auto, using(crate::proofs::Roundings::top_from))]
fn lies_inside(low: u64, high: u64, offset: u64, length: u64) -> bool
    ensures inside { result ≡ not (nat_lt (least_base offset (offset + length)) low
        || nat_lt high (least_top offset (offset + length))) }
    ensures within { IsTrue result → offset + length ≤ high }
{
    if u128::from(offset) + u128::from(length) > 1 << 64 {
        return false;
    }
    let bounds = set_bounds(offset, length);
    low <= bounds.base && bounds.top <= u128::from(high)
}

fn strict_narrow(v: Value, length: u64) -> Result<Value, Fault>
    ensures { seen result ≡ strict_narrowed (value_of v) length }
{
    match v {
        Value::Int(_) | Value::Raw(_, _) => Ok(v),
        Value::Fun(_) => unspecified(Reason::Address),
        Value::Live(object, low, high, offset, permissions) => {
            let start = word(offset);
            if !lies_inside(low, high, start, length) {
                unspecified(Reason::Address)
            } else if is_rounding(start, length) {
                unspecified(Reason::Rounding)
            } else {
                Ok(Value::Live(object, start, start + length, offset, permissions))
            }
        }
    }
}

/// A value narrowed to a length from its address on.
pub(crate) fn narrowed(
    mode: Mode<'_>,
    objects: &[Object],
    v: Value,
    length: u64,
    exact: bool,
) -> Result<Value, Fault>
    ensures { seen result ≡ narrow (mode_of mode.entry) (shapes_of objects.now) (value_of v) length exact }
{
    match mode {
        Mode::Placed(map) => Ok(placed_narrow(map, objects, v, length, exact)),
        Mode::Strict => strict_narrow(v, length),
    }
}

/// A value without its tag.
pub(crate) fn clear(mode: Mode<'_>, objects: &[Object], v: Value) -> Result<Value, Fault>
    ensures { seen result ≡ clear_of (mode_of mode.entry) (shapes_of objects.now) (value_of v) }
{
    match v {
        Value::Int(_) | Value::Raw(_, _) => Ok(v),
        _ => match mode {
            Mode::Placed(map) => Ok(cleared(map, objects, v)),
            Mode::Strict => unspecified(Reason::Address),
        },
    }
}

/// A value with those of its permissions that a mask has.
pub(crate) fn masked(
    mode: Mode<'_>,
    objects: &[Object],
    v: Value,
    bits: u64,
) -> Result<Value, Fault>
    ensures { seen result ≡ mask (mode_of mode.entry) (shapes_of objects.now) (value_of v) bits }
{
    match v {
        Value::Live(object, low, high, offset, permissions) => Ok(Value::Live(
            object,
            low,
            high,
            offset,
            (u64::from(permissions) & bits) as u16,
        )),
        _ => clear(mode, objects, v),
    }
}

/// The address of a value.
pub(crate) fn address(mode: Mode<'_>, objects: &[Object], v: Value) -> Result<u64, Fault>
    ensures { result ≡ get_address (mode_of mode.entry) (shapes_of objects.now) (value_of v) }
{
    match mode {
        Mode::Placed(map) => Ok(address_of(map, objects, v)),
        Mode::Strict => match v {
            Value::Int(n) => Ok(n),
            Value::Raw(address, _) => Ok(address),
            _ => unspecified(Reason::Address),
        },
    }
}

fn placed_at_address(map: &Map, objects: &[Object], v: Value, to: u64) -> Value
    ensures { value_of result ≡ placed_with (addresses_of map.now) (base_of (shapes_of objects.now)) (value_of v) to }
{
    match v {
        Value::Int(_) => v,
        Value::Raw(_, upper) => Value::Raw(to, upper),
        Value::Fun(_) => untagged(map, objects, v, to),
        Value::Live(object, _, _, _, _) => {
            at_offset(map, objects, v, to.wrapping_sub(base_in(objects, object)))
        }
    }
}

/// A value with another address.
pub(crate) fn with_address(
    mode: Mode<'_>,
    objects: &[Object],
    v: Value,
    to: u64,
) -> Result<Value, Fault>
    ensures { seen result ≡ set_address (mode_of mode.entry) (shapes_of objects.now) (value_of v) to }
{
    match mode {
        Mode::Placed(map) => Ok(placed_at_address(map, objects, v, to)),
        Mode::Strict => match v {
            Value::Int(_) => Ok(v),
            Value::Raw(_, upper) => Ok(Value::Raw(to, upper)),
            _ => unspecified(Reason::Address),
        },
    }
}

/// Whether a value has a tag: it is a pointer to an object or a function.
pub fn has_tag(v: Value) -> bool
    ensures { result ≡ get_tag (value_of v) }
{
    matches!(v, Value::Live(_, _, _, _, _) | Value::Fun(_))
}

/// The fields of a capability without a tag.
fn fields_of_raw(address: u64, upper: u64) -> Fields
    ensures { result ≡ raw_fields address upper }
{
    unpack(flip_null(pair(address, upper)))
}

/// The base and the top of a capability without a tag.
fn bounds_of_raw(address: u64, upper: u64) -> (u64, u128)
    ensures base { result.0 ≡ raw_base address upper }
    ensures top { result.1 ≡ raw_top address upper }
{
    let mut fields = fields_of_raw(address, upper);
    fields.address = address;
    bounds_of(fields)
}

/// The permissions of a value: bit 0 is Global, then Execute, Load, Store, Load_Capability, Store_Capability and
/// Store_Local_Capability.
pub fn permissions_of(v: Value) -> u64
    ensures { result ≡ get_permissions (value_of v) }
{
    match v {
        Value::Int(_) => 0,
        Value::Live(_, _, _, _, permissions) => u64::from(permissions),
        Value::Fun(_) => u64::from(FUNCTION_PERMISSIONS),
        Value::Raw(address, upper) => u64::from(fields_of_raw(address, upper).perms),
    }
}

/// From a base to a top: at most 2^64 - 1, also where the top is below the base.
fn length_between(base: u128, top: u128) -> u64
    ensures { result ≡ length_from base top }
{
    if top < base {
        return u64::MAX;
    }
    (top - base).min(u128::from(u64::MAX)) as u64
}

/// The base of the bounds of a value.
pub(crate) fn base(mode: Mode<'_>, objects: &[Object], v: Value) -> Result<u64, Fault>
    requires { HasBase (shapes_of objects.now) (value_of v) }
    ensures { result ≡ get_base (mode_of mode.entry) (shapes_of objects.now) (value_of v) }
{
    match (v, mode) {
        (Value::Int(_), _) => Ok(0),
        (Value::Raw(address, upper), _) => Ok(bounds_of_raw(address, upper).0),
        (Value::Live(object, low, _, _, _), Mode::Placed(_)) => Ok(base_in(objects, object) + low),
        (Value::Fun(_), Mode::Placed(map)) => Ok(text_of(map).0),
        (_, Mode::Strict) => unspecified(Reason::Address),
    }
}

/// The length of the bounds of a value.
pub(crate) fn length(mode: Mode<'_>, v: Value) -> Result<u64, Fault>
    ensures { (shapes : List Shape) → result ≡ get_length (mode_of mode.entry) shapes (value_of v) }
{
    match (v, mode) {
        (Value::Int(_), _) => Ok(u64::MAX),
        (Value::Raw(address, upper), _) => {
            let (base, top) = bounds_of_raw(address, upper);
            Ok(length_between(u128::from(base), top))
        }
        (Value::Live(_, low, high, _, _), _) => {
            Ok(length_between(u128::from(low), u128::from(high)))
        }
        (Value::Fun(_), Mode::Placed(map)) => {
            let (base, top) = text_of(map);
            Ok(length_between(u128::from(base), top))
        }
        (Value::Fun(_), Mode::Strict) => unspecified(Reason::Address),
    }
}

/// The address of a value less the base of its bounds, modulo 2^64.
pub(crate) fn offset(mode: Mode<'_>, v: Value) -> Result<u64, Fault>
    ensures { (shapes : List Shape) → result ≡ get_offset (mode_of mode.entry) shapes (value_of v) }
{
    match (v, mode) {
        (Value::Int(n), _) => Ok(n),
        (Value::Raw(address, upper), _) => {
            Ok(address.wrapping_sub(bounds_of_raw(address, upper).0))
        }
        (Value::Live(_, low, _, offset, _), _) => Ok(word(offset).wrapping_sub(low)),
        (Value::Fun(f), Mode::Placed(map)) => { Ok(entry_of(map, f).wrapping_sub(text_of(map).0)) }
        (Value::Fun(_), Mode::Strict) => unspecified(Reason::Address),
    }
}
