//! Live intervals.

/// Where a temp is live, in numbers of instructions, which count from 1; 0 is the function's entry. It holds both ends.
/// An interval whose first is above its last holds no instruction.
#[derive(Clone, Copy, Debug, PartialEq, Eq)]
pub struct Interval {
    pub first: u32,
    pub last: u32,
}
