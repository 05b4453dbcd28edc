//! The tagged values of an object: one or none for each granule of 16 bytes.
ghost use Rattle.std.specs.Prelude.{◌≡◌, ◌/◌, None, Some, slice_set};

use obj_mem::Value;

/// The granule of a place holds a tagged value from here on.
#[tactic(auto, using(crate::proofs::Sets::sets))]
pub fn hold(values: &mut Vec<Option<Value>>, at: u64, v: Value)
    ensures { values.new.items ≡ slice_set values.old.items (at / 16) (Some v) }
{
    let granule = (at / 16) as usize;
    if granule >= values.len() {
        return;
    }
    values[granule] = Some(v);
}

/// The granule of a place holds no value from here on.
#[tactic(auto, using(crate::proofs::Sets::sets))]
pub fn release(values: &mut Vec<Option<Value>>, at: u64)
    ensures { values.new.items ≡ slice_set values.old.items (at / 16) None }
{
    let granule = (at / 16) as usize;
    if granule >= values.len() {
        return;
    }
    values[granule] = None;
}
