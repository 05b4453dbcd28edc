//! What an initialiser gives (C11 6.7.9).

use ck_base::Pos;

/// One value that an initialiser gives to a part of an object.
#[derive(Clone, Copy)]
pub struct Slot {
    /// The part's offset, in bytes.
    pub at: u64,
    /// The number of the part's type.
    pub of: u32,
    /// The number of the value among the expressions.
    pub value: u32,
    /// The first byte of what was written.
    pub first: Pos,
}

/// What an initialiser gives.
#[derive(Drop)]
pub struct Filled {
    pub slots: Vec<Slot>,
    /// How many elements it gives to an array whose length is not known.
    pub count: u64,
}
