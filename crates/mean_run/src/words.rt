//! Offsets as 64 bits.

ghost use Rattle.std.specs.Prelude.{◌≡◌};
ghost use Rattle.ck_int.specs.Kinds.{kept_of};
ghost use Rattle.obj_mem.specs.Values.{Live, value_of};

use obj_mem::Value;

/// The 64 bits of an offset in two's complement.
#[tactic(auto, using(crate::proofs::Casts::kept_is))]
pub fn word(offset: i64) -> u64
    ensures { result ≡ kept_of offset }
{
    offset.cast_unsigned()
}

/// The pointer whose offset has these 64 bits.
#[tactic(auto, using(crate::proofs::Casts::signed_is))]
pub fn live(object: u64, low: u64, high: u64, offset: u64, permissions: u16) -> Value
    ensures { value_of result ≡ Live object low high offset permissions }
{
    Value::Live(object, low, high, offset.cast_signed(), permissions)
}
