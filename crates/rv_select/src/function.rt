//! The function at hand.
ghost use Rattle.std.specs.Prelude.{◌≡◌, ◌^◌, ◌<◌};
ghost use Rattle.purecap_abi.specs.Saving.{slots_at};

use crate::numbers::Written;
use obj_mem::Frame;
use purecap_abi::Saved;
use reg_alloc::Places;

/// The table of the program's capabilities: how many entries stand before those of the literals, of the functions,
/// and of the heap.
#[derive(Clone, Copy)]
pub struct Entries {
    pub literals: u64,
    pub functions: u64,
    pub heap: u64,
}

/// The function at hand.
#[derive(Clone, Copy)]
pub struct Function<'a> {
    pub places: &'a Places,
    pub frame: &'a Frame,
    pub saved: Saved,
    pub written: &'a [Written],
    pub entries: Entries,
    pub ghost near: { saved.slots_at < 2 ^ 32 },
    pub ghost slots: { saved.slots_at ≡ slots_at places.now.homes frame.now },
}
