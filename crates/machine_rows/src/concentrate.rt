//! The format of capabilities and their bounds: each public call on known values.
mod decoding_vectors;
mod packing_vectors;
mod rounding_vectors;

use crate::answers::{must_all_hold, wrong_unless};
use cap_concentrate::{
    Bounds, Fields, NULL_BITS, alignment_mask, bounds_of, flip_null, keeps_bounds, pack,
    rounded_length, set_bounds, unpack,
};
use decoding_vectors::{DECODE, KEEPS_BOUNDS};
use packing_vectors::FIELDS;
use rounding_vectors::{LENGTHS, SET_BOUNDS};

/// The first length that is rounded otherwise.
fn wrong_length() -> Option<usize> {
    for (at, &(length, owned, mask)) in LENGTHS.iter().enumerate() {
        if rounded_length(length) != owned || alignment_mask(length) != mask {
            return Some(at);
        }
    }
    None
}

/// The least bounds of a request that ends at most at 2^64.
fn bounds_within(base: u64, length: u64) -> Option<Bounds> {
    if u128::from(base) + u128::from(length) <= 1 << 64 {
        Some(set_bounds(base, length))
    } else {
        None
    }
}

/// A request, its bounds and their fields.
type Setting = ((u64, u64), (u64, u128, bool), (bool, u16, u16));

fn is_set(&((base, length), (low, high, exact), (internal, t, b)): &Setting) -> bool {
    let Some(bounds) = bounds_within(base, length) else {
        return false;
    };
    let good_bounds = bounds.base == low && bounds.top == high && bounds.exact == exact;
    let good_fields = bounds.internal == internal && bounds.t == t && bounds.b == b;
    good_bounds && good_fields
}

/// The first request that has other bounds.
fn wrong_setting() -> Option<usize> {
    for (at, row) in SET_BOUNDS.iter().enumerate() {
        if !is_set(row) {
            return Some(at);
        }
    }
    None
}

/// The first bits that give other bounds.
fn wrong_decoding() -> Option<usize> {
    for (at, &(bits, base, top)) in DECODE.iter().enumerate() {
        if bounds_of(unpack(bits)) != (base, top) {
            return Some(at);
        }
    }
    None
}

/// The fields of bounds and an address, another address, and whether the bounds are kept there.
type Keeping = ((bool, u16, u16, u64), (u64, bool));

fn is_kept(&((internal, t, b, address), (other, kept)): &Keeping) -> bool {
    if t >= 4096 || b >= 16384 {
        return false;
    }
    let mut fields = unpack(0);
    fields.internal = internal;
    fields.t = t;
    fields.b = b;
    fields.address = address;
    keeps_bounds(fields, other) == kept
}

/// The first address at which bounds are kept or not kept otherwise.
fn wrong_keeping() -> Option<usize> {
    for (at, row) in KEEPS_BOUNDS.iter().enumerate() {
        if !is_kept(row) {
            return Some(at);
        }
    }
    None
}

/// The bits and their form in memory, and the fields.
type Placing = (
    (u128, u128),
    (u8, u16, u8, bool),
    (u32, bool, u16, u16),
    u64,
);

fn stands_at_its_place(&((bits, memory), others, bounds, address): &Placing) -> bool {
    let f = unpack(bits);
    let good_others = (f.user, f.perms, f.reserved, f.flag) == others;
    let good_bounds = (f.otype, f.internal, f.t, f.b) == bounds;
    let good = good_others && good_bounds && f.address == address && pack(f) == bits;
    good && flip_null(bits) == memory
}

/// The first bits that have other fields.
fn wrong_placing() -> Option<usize> {
    for (at, row) in FIELDS.iter().enumerate() {
        if !stands_at_its_place(row) {
            return Some(at);
        }
    }
    None
}

/// Unsealed capabilities with permissions 125 and the address at the base: base, length, and the
/// upper half in a register and in memory.
const PACKED: [(u64, u64, u128, u128); 2] = [
    (65536, 40, 0x007d_1fff_f80a_0000, 0x007d_0000_040b_8004),
    (
        1_048_576,
        100_096,
        0x007d_1fff_fe1c_0004,
        0x007d_0000_021d_8000,
    ),
];

fn fields_of(bounds: Bounds, address: u64) -> Fields {
    Fields {
        user: 0,
        perms: 125,
        reserved: 0,
        flag: false,
        otype: 0x3_ffff,
        internal: bounds.internal,
        t: bounds.t,
        b: bounds.b,
        address,
    }
}

fn is_packed(&(base, length, upper, memory): &(u64, u64, u128, u128)) -> bool {
    let Some(bounds) = bounds_within(base, length) else {
        return false;
    };
    let fields = fields_of(bounds, base);
    let bits = pack(fields);
    bits >> 64 == upper && flip_null(bits) >> 64 == memory && unpack(bits) == fields
}

/// The first capability that has other bits.
fn wrong_packing() -> Option<usize> {
    for (at, row) in PACKED.iter().enumerate() {
        if !is_packed(row) {
            return Some(at);
        }
    }
    None
}

#[test]
fn bounds_and_fields_have_their_bits(rt: HostRuntime) {
    must_all_hold(&rt, "lengths are rounded", wrong_length());
    must_all_hold(&rt, "bounds are set", wrong_setting());
    must_all_hold(&rt, "bits are decoded", wrong_decoding());
    must_all_hold(&rt, "bounds are kept", wrong_keeping());
    must_all_hold(&rt, "fields stand at their places", wrong_placing());
    must_all_hold(&rt, "capabilities are packed", wrong_packing());
    must_all_hold(
        &rt,
        "null is flipped",
        wrong_unless(flip_null(NULL_BITS) == 0),
    );
}
