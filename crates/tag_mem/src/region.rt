//! Where memory lies.

/// A stretch of addresses: `length` bytes from `base` on.
#[derive(Clone, Copy, Debug, PartialEq, Eq)]
pub struct Region {
    pub base: u64,
    pub length: u64,
}
