//! Places in objects.
ghost use Rattle.std.specs.Prelude.{◌≡◌};
ghost use Rattle.ck_int.specs.Kinds.{kept_of};
ghost use Rattle.obj_mem.specs.Values as value;
ghost use Rattle.obj_mem.specs.Values.{value_of};
ghost use Rattle.cheri_c_sem.specs.Meaning.{further};

use obj_mem::Value;

/// The 64 bits of an offset.
#[tactic(auto, using(object_memory::proofs::Casts::kept_is))]
fn word(offset: i64) -> u64
    ensures { result ≡ kept_of offset }
{
    offset.cast_unsigned()
}

#[tactic(auto, using(object_memory::proofs::Casts::signed_is))]
fn live(object: u64, low: u64, high: u64, offset: u64, permissions: u16) -> Value
    ensures { value_of result ≡ value.Live object low high offset permissions }
{
    Value::Live(object, low, high, offset.cast_signed(), permissions)
}

/// The pointer so many bytes further on in what it points to.
pub fn further(v: Value, n: u64) -> Value
    ensures { value_of result ≡ further (value_of v) n }
{
    match v {
        Value::Live(object, low, high, offset, permissions) => {
            live(object, low, high, word(offset).wrapping_add(n), permissions)
        }
        Value::Int(_) | Value::Fun(_) | Value::Raw(_, _) => v,
    }
}
