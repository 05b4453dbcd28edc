//! Values.

/// A value. Objects and functions are named by their numbers, and no address stands in a value but those of `Raw`.
#[derive(Clone, Copy, Debug, PartialEq, Eq)]
pub enum Value {
    /// An integer, kept in the 64 bits of its sign extension or zero extension.
    Int(u64),
    /// A tagged, unsealed capability: the object, its bounds from `low` to before `high`, the offset of its address,
    /// all three counted in bytes from the object's base, and the permissions.
    Live(u64, u64, u64, i64, u16),
    /// The sentry of a function.
    Fun(u32),
    /// A capability without a tag: its address, and the upper 64 bits as they stand in memory.
    Raw(u64, u64),
}
