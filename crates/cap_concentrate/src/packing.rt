//! The 128 bits of a capability.
ghost use Rattle.std.specs.Prelude.{◌≡◌};
ghost use Rattle.cap_concentrate.specs.Packing.{bits_of, fields_of, flipped};

use super::Fields;

/// The bits of null at address 0: unsealed, with no permissions, with base 0, top 2^64 and E = 52.
pub const NULL_BITS: u128 = 0x0000_1fff_fc01_8004_0000_0000_0000_0000;

/// The 128 bits that have these fields.
#[tactic(auto, unfolding(crate::specs::Packing::bits_of))]
pub fn pack(f: Fields) -> u128
    ensures bits { result ≡ bits_of f }
    ensures back { fields_of result ≡ f }
{
    u128::from(f.address)
        | u128::from(f.b) << 64
        | u128::from(f.t) << 78
        | u128::from(f.internal) << 90
        | u128::from(f.otype) << 91
        | u128::from(f.flag) << 109
        | u128::from(f.reserved) << 110
        | u128::from(f.perms) << 112
        | u128::from(f.user) << 124
}

/// The fields that stand at their places in these 128 bits.
pub fn unpack(bits: u128) -> Fields
    ensures fields { result ≡ fields_of bits }
    ensures back { bits_of result ≡ bits }
{
    Fields {
        user: (bits >> 124) as u8,
        perms: (bits >> 112 & 0xfff) as u16,
        reserved: (bits >> 110 & 3) as u8,
        flag: bits >> 109 & 1 == 1,
        otype: (bits >> 91 & 0x3_ffff) as u32,
        internal: bits >> 90 & 1 == 1,
        t: (bits >> 78 & 0xfff) as u16,
        b: (bits >> 64 & 0x3fff) as u16,
        address: (bits & 0xffff_ffff_ffff_ffff) as u64,
    }
}

/// The form in memory, in which null is all zeros, from the form in a register, and back.
pub fn flip_null(bits: u128) -> u128
    ensures is { result ≡ flipped bits }
    ensures back { flipped result ≡ bits }
{
    bits ^ NULL_BITS
}
