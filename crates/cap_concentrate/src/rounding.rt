//! The least bounds of a request.
ghost use Rattle.std.specs.Prelude.{◌≡◌, ℕ, ◌+◌, ◌-◌, ◌/◌, ◌%◌, ◌^◌, ◌≤◌, ◌↔◌, IsTrue};
ghost use Rattle.cap_concentrate.specs.Decoding.{base_of, top_of};
ghost use Rattle.cap_concentrate.specs.Encoding.{AreEncoded};
ghost use Rattle.cap_concentrate.specs.Rounding.{IsLeastBounds, bounds_exponent, least_base, least_top, alignment};
ghost use Rattle.cap_concentrate.specs.Rounding.{owned};

use super::Bounds;

// An end in units of 2^shift, rounded up.
fn units_up(end: u128, shift: u32) -> u128
    requires end_in_range { end ≤ 2 ^ 64 }
    requires shift_in_range { shift ≤ 64 }
    ensures { result ≡ (end + (2 ^ shift - 1)) / 2 ^ shift }
{
    (end + ((1 << shift) - 1)) >> shift
}

// The least exponent at which a request of 4096 bytes or more, rounded at both ends, is short.
fn bounds_exponent(base: u64, len: u64) -> u32
    requires within { base + len ≤ 2 ^ 64 }
    requires long { 4096 ≤ len }
    ensures value { result ≡ bounds_exponent base (base + len) }
    ensures bound { result ≤ 52 }
{
    let end = u128::from(base) + u128::from(len);
    let e = 64 - (len >> 13).leading_zeros();
    if units_up(end, e + 3) < u128::from(base >> (e + 3)) + 1024 {
        e
    } else {
        e + 1
    }
}

/// The least bounds that hold the `len` bytes from `base` on, and the fields that give them there
/// (CHERI ISAv9, CSetBounds).
pub fn set_bounds(base: u64, len: u64) -> Bounds
    requires { base + len ≤ 2 ^ 64 }
    ensures base { result.base ≡ least_base base (base + len) }
    ensures top { result.top ≡ least_top base (base + len) }
    ensures least { IsLeastBounds base (base + len) result.base result.top }
    ensures exact { IsTrue result.exact ↔ ((result.base ≡ base) × (result.top ≡ base + len)) }
    ensures aligned { (n : ℕ) → len ≡ owned n → base % alignment n ≡ 0 → IsTrue result.exact }

    // The fields are the canonical ones.
    ensures encoded { AreEncoded result.internal result.t result.b result.base result.top }
    ensures decodes_base { base_of result.internal result.t result.b base ≡ result.base }
    ensures decodes_top { top_of result.internal result.t result.b base ≡ result.top }
{
    let end = u128::from(base) + u128::from(len);
    if len < 4096 {
        return Bounds {
            base,
            top: end,
            exact: true,
            internal: false,
            t: (end % 4096) as u16,
            b: (base % 16384) as u16,
        };
    }
    let e = bounds_exponent(base, len);
    let low = base >> (e + 3);
    let high = units_up(end, e + 3);
    let rounded_base = low << (e + 3);
    let rounded_top = high << (e + 3);
    Bounds {
        base: rounded_base,
        top: rounded_top,
        exact: rounded_base == base && rounded_top == end,
        internal: true,
        t: (high % 512 * 8) as u16 + (e / 8) as u16,
        b: (low % 2048 * 8) as u16 + (e % 8) as u16,
    }
}

/// The mask of the addresses at which an object of `len` bytes is aligned: ones from the alignment's
/// bit on, and zeros below it (CHERI ISAv9, CRAM).
pub fn alignment_mask(len: u64) -> u64
    ensures { result + alignment len ≡ 2 ^ 64 }
{
    if len < 4096 {
        u64::MAX
    } else {
        u64::MAX << (bounds_exponent(0, len) + 3)
    }
}

/// The owned length of an object of `len` bytes, in 64 bits (CHERI ISAv9, CRRL).
///
/// It is 0 where the owned length is 2^64.
pub fn rounded_length(len: u64) -> u64
    ensures { result ≡ owned len % 2 ^ 64 }
{
    let mask = alignment_mask(len);
    len.wrapping_add(!mask) & mask
}
