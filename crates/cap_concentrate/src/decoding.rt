//! The bounds of fields.
ghost use Rattle.std.specs.Prelude.{◌≡◌, ◌+◌, ◌*◌, ◌%◌, ◌^◌, ◌<◌, ◌≤◌, ◌↔◌, IsTrue};
ghost use Rattle.cap_concentrate.specs.Decoding.{one_where, exponent, mantissa, whole_top, placed, corrected, base_at};
ghost use Rattle.cap_concentrate.specs.Decoding.{top_at, same_bounds};
ghost use Rattle.cap_concentrate.specs.Encoding.{AreEncoded};

use super::Fields;

// E, from L and from the low bits of T and B.
#[tactic(auto, unfolding(crate::specs::Decoding::exponent))]
fn exponent(internal: bool, t: u16, b: u16) -> u32
    ensures value { result ≡ exponent internal t b }
    ensures bound { result ≤ 52 }
{
    if internal {
        u32::from(t % 8 * 8 + b % 8).min(52)
    } else {
        0
    }
}

// What counts of T or B.
#[tactic(auto, unfolding(crate::specs::Decoding::mantissa))]
fn mantissa(internal: bool, x: u16) -> u16
    ensures value { result ≡ mantissa internal x }
    ensures bound { result ≤ x }
{
    if internal { x / 8 * 8 } else { x }
}

// The length in units of 2^E: so far above B lies T.
#[tactic(auto, unfolding(crate::specs::Decoding::whole_top))]
fn length(internal: bool, t: u16, b: u16) -> u16
    requires t_in_range { t < 4096 }
    requires b_in_range { b < 16384 }
    ensures value { whole_top internal t b ≡ (b + result) % 16384 }
    ensures bound { result < 4096 + 4096 * one_where internal }
{
    (t + 4096 - b % 4096) % 4096 + u16::from(internal) * 4096
}

// The base, in 64 bits.
//
// Regions of 2^14 units of 2^e begin at the 14 bits `limit`. The base lies in the second block of
// 2048 units of the address's region.
fn placed_base(e: u32, address: u64, b: u16) -> u64
    requires e_in_range { e ≤ 52 }
    requires b_in_range { b < 16384 }
    ensures { result ≡ placed e address b b % 2 ^ 64 }
{
    let limit = (b / 2048 + 7) % 8 * 2048;
    let region = (address >> e).wrapping_sub(u64::from(limit)) / 16384 * 16384;
    region.wrapping_add(u64::from(limit + 2048 + b % 2048)) << e
}

// The top with its bit 64 put right.
#[tactic(auto, unfolding(crate::specs::Decoding::corrected))]
fn corrected(e: u32, base: u64, top: u128) -> u128
    requires { top < 2 ^ 65 }
    ensures { result ≡ corrected e base top }
{
    let distance = ((top >> 63) + 4 - u128::from(base >> 63)) % 4;
    if e < 51 && distance > 1 {
        (top + (1 << 64)) % (1 << 65)
    } else {
        top
    }
}

/// The base and the top that the fields give (CHERI ISAv9, CHERI Concentrate).
///
/// Of arbitrary fields the top may lie below the base, and above 2^64.
pub fn bounds_of(f: Fields) -> (u64, u128)
    ensures base { result.0 ≡ base_at f f.address }
    ensures top { result.1 ≡ top_at f f.address }

    // Bounds in this range have one encoding only.
    ensures canonical { 65536 ≤ result.0 → result.0 ≤ result.1 → result.1 ≤ 2 ^ 40 →
        AreEncoded f.internal f.t f.b result.0 result.1 }
{
    // E is 0 here, and the top the sum of the base and the length.
    if !f.internal {
        let base = placed_base(0, f.address, f.b);
        return (base, u128::from(base) + u128::from(length(false, f.t, f.b)));
    }
    let e = exponent(true, f.t, f.b);
    let b = mantissa(true, f.b);
    let units = length(true, mantissa(true, f.t), b);
    let base = placed_base(e, f.address, b);
    // Below exponent 51 bit 64 of the top follows from its lower bits; from there on the address
    // does not count.
    let top = if e < 51 {
        u128::from(base.wrapping_add(u64::from(units) << e))
    } else {
        (u128::from(b + units) << e) % (1 << 65)
    };
    (base, corrected(e, base, top))
}

/// Whether the fields give the same base and top with this address in place of their own.
///
/// They do at each address less than 1024 bytes below the base or above the top, where the bounds
/// lie between 65,536 and 2^40.
#[tactic(auto, using(crate::proofs::Near::keeps_near, crate::proofs::Block::same_in_block))]
pub fn keeps_bounds(f: Fields, address: u64) -> bool
    ensures value { result ≡ same_bounds f address }
    ensures same { IsTrue result ↔
        ((base_at f address ≡ base_at f f.address) × (top_at f address ≡ top_at f f.address)) }
    ensures near { 65536 ≤ base_at f f.address → base_at f f.address ≤ top_at f f.address →
        top_at f f.address ≤ 2 ^ 40 → base_at f f.address < address + 1024 →
        address < top_at f f.address + 1024 → IsTrue result }
{
    // Decoding reads no bit of the address below these.
    if address / 2048 == f.address / 2048 {
        return true;
    }
    let mut moved = f;
    moved.address = address;
    let (base, top) = bounds_of(f);
    let (moved_base, moved_top) = bounds_of(moved);
    moved_base == base && moved_top == top
}
