//! A capability, and the numbers of its object types and permissions.
use cap_concentrate::Fields;

/// A capability of 128 bits with its tag.
#[derive(Clone, Copy, Debug, PartialEq, Eq)]
pub struct Cap {
    /// Whether this is a capability, and not plain data.
    pub tag: bool,
    /// What the 128 bits hold.
    pub fields: Fields,
}

/// The object type of a capability that is not sealed: 2^18 - 1.
pub const UNSEALED: u32 = 0x3_ffff;

/// The object type of a sealed entry: 2^18 - 2.
pub const SENTRY: u32 = 0x3_fffe;

/// The permission bit for jumps.
pub const EXECUTE: u32 = 1;

/// The permission bit for loads.
pub const LOAD: u32 = 2;

/// The permission bit for stores.
pub const STORE: u32 = 3;

/// The permission bit for loads that keep the tag.
pub const LOAD_CAPABILITY: u32 = 4;

/// The permission bit for stores of tagged values.
pub const STORE_CAPABILITY: u32 = 5;
