//! The homes of live intervals.

use ck_base::Sequence;

/// Where a value stands: in a register, by its number, or in a slot of the frame, counted from 0.
#[derive(Clone, Copy, Debug, PartialEq, Eq)]
pub enum Home {
    Register(u8),
    Slot(u32),
}

/// The home of each interval, in their order.
#[derive(Debug, Drop)]
pub struct Places {
    pub homes: Sequence<Home>,
}
