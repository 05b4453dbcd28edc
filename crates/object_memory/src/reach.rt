//! What an access through a value reaches.

ghost use Rattle.std.specs.Prelude.{◌≡◌, ◌+◌, ◌<◌, ◌≤◌, find, IfOk, IfNone};
ghost use Rattle.cap_ops.specs.Access.{in_order, loads as loads_of, stores as stores_of, size as size_of};
ghost use Rattle.cap_ops.specs.Capability.{permits as permits_bit};
ghost use Rattle.obj_mem.specs.Access.{misses, reach as reach_of};
ghost use Rattle.obj_mem.specs.Values.{value_of};
ghost use Rattle.mean_work.specs.Answers.{mapped};
ghost use Rattle.object_memory.specs.Answers.{spot_of};
ghost use Rattle.object_memory.specs.Reach.{IsPlain};

use crate::words::word;
use cap_ops::{Access, Cause, LOAD, LOAD_CAPABILITY, STORE, STORE_CAPABILITY};
use obj_mem::{Fault, Value};

/// A place in an object, the bounds through which it is reached, and whether tags are loaded through them.
#[derive(Clone, Copy)]
pub(crate) struct Spot {
    pub(crate) object: u64,
    pub(crate) low: u64,
    pub(crate) high: u64,
    pub(crate) at: u64,
    pub(crate) carries: bool,
}

fn permits(permissions: u16, bit: u32) -> bool
    requires { bit < 16 }
    ensures { result ≡ permits_bit permissions bit }
{
    (permissions >> bit) % 2 == 1
}

fn loads(a: Access) -> bool
    ensures { result ≡ loads_of a }
{
    matches!(a, Access::Load(_) | Access::LoadCap)
}

fn stores(a: Access) -> bool
    ensures { result ≡ stores_of a }
{
    matches!(a, Access::Store(_) | Access::StoreCap(_))
}

fn size(a: Access) -> u64
    ensures { result ≡ size_of a }
{
    match a {
        Access::Load(n) | Access::Store(n) => u64::from(n),
        Access::LoadCap | Access::StoreCap(_) => 16,
        Access::Jump => 4,
    }
}

/// The first cause by which an access through a pointer fails, that is no jump.
fn missed(low: u64, high: u64, at: u64, permissions: u16, a: Access) -> Option<Cause>
    requires { IsPlain a }
    ensures value { result ≡ find (misses low high at permissions a) in_order }
    ensures within { IfNone result (at + size_of a ≤ high) }
{
    if loads(a) && !permits(permissions, LOAD) {
        return Some(Cause::Load);
    }
    if stores(a) && !permits(permissions, STORE) {
        return Some(Cause::Store);
    }
    if matches!(a, Access::StoreCap(true)) && !permits(permissions, STORE_CAPABILITY) {
        return Some(Cause::StoreCap);
    }
    if at < low || u128::from(high) < u128::from(at) + u128::from(size(a)) {
        return Some(Cause::Bounds);
    }
    if at % size(a) != 0 {
        return Some(Cause::Align);
    }
    None
}

/// The place that an access through a value reaches, or the first cause by which it fails.
pub(crate) fn reach(a: Access, v: Value) -> Result<Spot, Fault>
    requires { IsPlain a }
    ensures value { mapped spot_of result ≡ reach_of a (value_of v) }
    ensures within { IfOk result (λ s. s.at + size_of a ≤ s.high) }
{
    match v {
        Value::Int(_) | Value::Raw(_, _) => Err(Fault::Cause(Cause::Tag)),
        Value::Fun(_) => Err(Fault::Cause(Cause::Sealed)),
        Value::Live(object, low, high, offset, permissions) => {
            let at = word(offset);
            match missed(low, high, at, permissions, a) {
                Some(cause) => Err(Fault::Cause(cause)),
                None => Ok(Spot {
                    object,
                    low,
                    high,
                    at,
                    carries: permits(permissions, LOAD_CAPABILITY),
                }),
            }
        }
    }
}
