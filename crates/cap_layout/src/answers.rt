//! What the calls answer.

/// The layout of a type, in bytes.
#[derive(Clone, Copy, Debug, PartialEq, Eq)]
pub struct Layout {
    pub size: u64,
    pub align: u64,
}

/// What an object of some bytes owns.
#[derive(Clone, Copy, Debug, PartialEq, Eq)]
pub struct Owned {
    /// Its bytes and its padding.
    pub length: u64,
    /// The alignment with which its bounds are exact.
    pub align: u64,
}

/// Why a type has no layout.
#[derive(Clone, Copy, Debug, PartialEq, Eq)]
pub enum LayoutFault {
    /// It has more than 67,108,864 bytes.
    TooLarge,
    /// It is not complete (C11 6.2.5p1).
    Incomplete,
}
