//! Integers converted from one kind to another (C11 6.3.1).
ghost use Rattle.std.specs.Prelude.{◌≡◌, ◌+◌, ◌-◌, ◌*◌, ◌%◌, ◌^◌, ◌<◌, ◌≤◌, pos, nat_lt, if◌then◌else◌};
ghost use Rattle.ck_int.specs.Kinds.{IsKept, Represents, converted, kept_of, reduced, value_of, wrapped};

use super::kinds::IntKind;

/// `v` reduced to a kind, as it is kept: for `Bool` 0 where `v` is 0 and otherwise 1 (C11 6.3.1.2), for the others the
/// number of the kind that differs from `v` by a multiple of 2 to the kind's width (C11 6.3.1.3).
pub fn wrap(kind: IntKind, v: i128) -> u64
    ensures value { result ≡ wrapped kind v }
    ensures kept { IsKept kind result }
    ensures unchanged { Represents kind v → value_of kind result ≡ v }
{
    reduce(kind, representative(kind, v))
}

/// The value that `v` keeps at the kind `from`, converted to the kind `to` (C11 6.3.1.2 and 6.3.1.3).
pub fn convert(from: IntKind, to: IntKind, v: u64) -> u64
    ensures value { result ≡ converted from to v }
    ensures kept { IsKept to result }
    ensures unchanged { Represents to (value_of from v) → value_of to result ≡ value_of from v }
{
    reduce(to, reduce(from, v))
}

// 64 bits that are reduced to a kind as `v` is.
#[tactic(auto, unfolding(crate::specs::Kinds::wrapped, crate::specs::Kinds::reduced, crate::specs::Kinds::kept_of))]
fn representative(kind: IntKind, v: i128) -> u64
    ensures { wrapped kind (pos result) ≡ wrapped kind v }
{
    match kind {
        IntKind::Bool => u64::from(v != 0),
        _ => low_word(v),
    }
}

// The low 64 bits of a number in two's complement.
#[tactic(auto, using(std::proofs::lemmas::Nat::and_mask), unfolding(crate::specs::Kinds::kept_of))]
fn low_word(v: i128) -> u64
    ensures { result ≡ kept_of v }
{
    (v.cast_unsigned() & 0xffff_ffff_ffff_ffff) as u64
}

// 64 bits, reduced to a kind.
#[tactic(auto, unfolding(crate::specs::Kinds::wrapped, crate::specs::Kinds::reduced, crate::specs::Kinds::kept_of))]
pub(crate) fn reduce(kind: IntKind, bits: u64) -> u64
    ensures { result ≡ wrapped kind (pos bits) }
{
    match kind {
        IntKind::Bool => u64::from(bits != 0),
        IntKind::I8 => sign_extended(bits % 0x100, 0x80),
        IntKind::U8 => bits % 0x100,
        IntKind::I16 => sign_extended(bits % 0x1_0000, 0x8000),
        IntKind::U16 => bits % 0x1_0000,
        IntKind::I32 => sign_extended(bits % 0x1_0000_0000, 0x8000_0000),
        IntKind::U32 => bits % 0x1_0000_0000,
        IntKind::I64 | IntKind::U64 => bits,
    }
}

// The sign extension of `low`, whose highest bit is worth `sign`.
fn sign_extended(low: u64, sign: u64) -> u64
    requires width { sign < 2 ^ 63 }
    requires in_range { low < 2 * sign }
    ensures { result ≡ (if nat_lt low sign then low else low + (2 ^ 64 - 2 * sign)) }
{
    if low < sign {
        low
    } else {
        low.wrapping_sub(2 * sign)
    }
}
