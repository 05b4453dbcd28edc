//! What a run keeps of one call.
ghost use Rattle.std.specs.Prelude.{◌<◌, ◌^◌};

use obj_mem::Value;

/// The values of a call's variables, where one was given since the block of the variable was entered; the number of the
/// first of the call's objects, which is below 2^63; and the address of its frame.
#[derive(Drop)]
pub struct Call {
    pub variables: Vec<Option<Value>>,
    pub first: u64,
    pub frame: u64,
    ghost few: { first < 2 ^ 63 },
}
