//! Values as capabilities, under a map.

ghost use Rattle.std.specs.Prelude.{◌≡◌, ◌+◌, ◌*◌, ◌^◌, ◌<◌, ◌≤◌};
ghost use Rattle.cap_concentrate.specs.Encoding.{AreEncoded, length_exponent as least_exponent_of, with_bounds};
ghost use Rattle.cap_ops.specs.Bounded.{plain_fields};
ghost use Rattle.obj_mem.specs.Objects.{base_in as base_of};
ghost use Rattle.obj_mem.specs.Pointers.{keeps as keeps_at};
ghost use Rattle.obj_mem.specs.Table.{addresses_of};
ghost use Rattle.obj_mem.specs.Values.{value_of, address_of as address_at, bits, memory_bits as memory_bits_of};
ghost use Rattle.obj_mem.specs.Values.{untagged as untagged_at, cleared as cleared_of};
ghost use Rattle.object_memory.specs.Answers.{shapes_of};

use crate::object::Object;
use crate::words::word;
use cap_concentrate::{Fields, bounds_of, flip_null, pack, unpack};
use cap_ops::{SENTRY, UNSEALED, null};
use obj_mem::{Map, Value};

/// Global and Execute.
pub(crate) const FUNCTION_PERMISSIONS: u16 = 3;

/// The base of an object, and 0 where it is not there.
#[tactic(auto, using(crate::proofs::Puts::lookups))]
pub(crate) fn base_in(objects: &[Object], object: u64) -> u64
    ensures { result ≡ base_of (shapes_of objects.now) object }
{
    match objects.get(object as usize) {
        None => 0,
        Some(o) => o.base(),
    }
}

/// The entry of a function, and 0 where it is not there.
pub(crate) fn entry_of(map: &Map, function: u32) -> u64
    ensures { result ≡ (addresses_of map.now).entry function }
{
    match map.entries.as_slice().get(function as usize) {
        None => 0,
        Some(entry) => *entry,
    }
}

/// The text's first address, and the one behind its last.
pub(crate) fn text_of(map: &Map) -> (u64, u128)
    ensures base { result.0 ≡ (addresses_of map.now).text }
    ensures end { result.1 ≡ (addresses_of map.now).text_end }
{
    let (base, length) = map.text;
    (base, u128::from(base) + u128::from(length))
}

/// The address of a value.
pub(crate) fn address_of(map: &Map, objects: &[Object], v: Value) -> u64
    ensures { result ≡ address_at (addresses_of map.now) (base_of (shapes_of objects.now)) (value_of v) }
{
    match v {
        Value::Int(n) => n,
        Value::Live(object, _, _, offset, _) => {
            base_in(objects, object).wrapping_add(word(offset))
        }
        Value::Fun(f) => entry_of(map, f),
        Value::Raw(address, _) => address,
    }
}

/// A power of two.
fn power(exponent: u32) -> u128
    requires { exponent ≤ 65 }
    ensures { result ≡ 2 ^ exponent }
{
    1 << exponent
}

/// The least exponent at which a length is below 2^(e + 13), and 52 where there is none.
fn length_exponent(length: u128) -> u32
    ensures value { result ≡ least_exponent_of length }
    ensures bound { result ≤ 52 }
{
    let mut e = 0;
    while e < 52 && length >= power(e + 13) {
        e += 1;
    }
    e
}

/// The canonical fields of bounds: the internal-exponent bit, the low 12 bits of T, and the 14 bits of B.
#[tactic(auto, unfolding(cap_concentrate::specs::Encoding::encoded_internal, cap_concentrate::specs::Encoding::encoded_t, cap_concentrate::specs::Encoding::encoded_b))]
fn encoded(base: u128, top: u128) -> (bool, u16, u16)
    ensures encoded { AreEncoded result.0 result.1 result.2 base top }
    ensures t_in_range { result.1 < 4096 }
    ensures b_in_range { result.2 < 16384 }
{
    let length = top.saturating_sub(base);
    if length < 4096 {
        return (false, (top % 4096) as u16, (base % 16384) as u16);
    }
    let e = length_exponent(length);
    (
        true,
        ((top >> (e + 3)) % 512) as u16 * 8 + (e / 8) as u16,
        ((base >> (e + 3)) % 2048) as u16 * 8 + (e % 8) as u16,
    )
}

/// The fields of a capability with these bounds, in their canonical form.
#[tactic(auto, unfolding(cap_concentrate::specs::Encoding::with_bounds))]
pub(crate) fn fields_with(
    base: u128,
    top: u128,
    permissions: u16,
    otype: u32,
    address: u64,
) -> Fields
    requires { otype < 2 ^ 18 }
    ensures { result ≡ with_bounds (plain_fields permissions otype address) base top }
{
    let (internal, t, b) = encoded(base, top);
    Fields {
        user: 0,
        perms: permissions % 4096,
        reserved: 0,
        flag: false,
        otype,
        internal,
        t,
        b,
        address,
    }
}

/// The number of 128 bits with these halves.
pub(crate) fn pair(low: u64, high: u64) -> u128
    ensures { result ≡ high * 2 ^ 64 + low }
{
    u128::from(high) * (1 << 64) + u128::from(low)
}

/// The 128 bits of the capability that a value is.
#[tactic(auto, unfolding(obj_mem::specs::Values::bits, obj_mem::specs::Values::capability_of))]
pub(crate) fn bits_of(map: &Map, objects: &[Object], v: Value) -> u128
    ensures { result ≡ bits (addresses_of map.now) (base_of (shapes_of objects.now)) (value_of v) }
{
    match v {
        Value::Int(n) => pack(null(n).fields),
        Value::Live(object, low, high, offset, permissions) => {
            let base = base_in(objects, object);
            pack(fields_with(
                u128::from(base) + u128::from(low),
                u128::from(base) + u128::from(high),
                permissions,
                UNSEALED,
                base.wrapping_add(word(offset)),
            ))
        }
        Value::Fun(f) => {
            let (base, top) = text_of(map);
            pack(fields_with(
                u128::from(base),
                top,
                FUNCTION_PERMISSIONS,
                SENTRY,
                entry_of(map, f),
            ))
        }
        Value::Raw(address, upper) => pack(unpack(flip_null(pair(address, upper)))),
    }
}

/// The same bits as they stand in memory.
pub(crate) fn memory_bits(map: &Map, objects: &[Object], v: Value) -> u128
    ensures { result ≡ memory_bits_of (addresses_of map.now) (base_of (shapes_of objects.now)) (value_of v) }
{
    flip_null(bits_of(map, objects, v))
}

/// What clearing the tag of a value leaves, at an address.
pub(crate) fn untagged(map: &Map, objects: &[Object], v: Value, to: u64) -> Value
    ensures { value_of result ≡ untagged_at (addresses_of map.now) (base_of (shapes_of objects.now)) (value_of v) to }
{
    match v {
        Value::Raw(_, upper) => Value::Raw(to, upper),
        _ => Value::Raw(to, (memory_bits(map, objects, v) >> 64) as u64),
    }
}

/// A value without its tag.
pub(crate) fn cleared(map: &Map, objects: &[Object], v: Value) -> Value
    ensures { value_of result ≡ cleared_of (addresses_of map.now) (base_of (shapes_of objects.now)) (value_of v) }
{
    untagged(map, objects, v, address_of(map, objects, v))
}

/// Whether the canonical fields of bounds give them at an address.
#[tactic(auto, unfolding(obj_mem::specs::Pointers::keeps, cap_concentrate::specs::Encoding::with_bounds))]
pub(crate) fn keeps(base: u128, top: u128, address: u64) -> bool
    ensures { result ≡ keeps_at base top address }
{
    let (given_base, given_top) = bounds_of(fields_with(base, top, 0, 0, address));
    u128::from(given_base) == base && given_top == top
}
