//! Offsets in the saved bytes of a frame.
ghost use Rattle.std.specs.Prelude.{◌≡◌, ◌+◌, ◌*◌, ◌^◌, ◌<◌};

/// How the saved bytes of a frame are used: offsets from its lowest address, in bytes, each the start of places of 16
/// bytes. The link stands at 0, and the outgoing arguments from 16 on.
#[derive(Clone, Copy, Debug, PartialEq, Eq)]
pub struct Saved {
    /// The kept registers that are homes, in ascending order.
    pub registers_at: u64,
    /// How many there are.
    pub registers: u64,
    /// The caller's stack, where the frame's alignment is above 16.
    pub stack_at: Option<u64>,
    /// The slots of the temps.
    pub slots_at: u64,
}

impl Saved {
    /// The offset of a slot.
    pub fn slot(&self, s: u32) -> u64
        requires { self.now.slots_at < 2 ^ 32 }
        ensures { result ≡ self.now.slots_at + 16 * s }
    {
        self.slots_at + 16 * u64::from(s)
    }
}
