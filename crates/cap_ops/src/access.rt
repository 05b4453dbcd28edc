//! An access to memory, and why it may fail.

/// An access through a capability. The number of a load or a store is its length in bytes.
#[derive(Clone, Copy, Debug, PartialEq, Eq)]
pub enum Access {
    /// A load of plain bytes.
    Load(u8),
    /// A store of plain bytes.
    Store(u8),
    /// A load of a capability.
    LoadCap,
    /// A store of a capability; the truth value says that it is tagged.
    StoreCap(bool),
    /// A jump, which loads one instruction.
    Jump,
}

/// Why an access fails.
#[derive(Clone, Copy, Debug, PartialEq, Eq)]
pub enum Cause {
    /// The capability is untagged.
    Tag,
    /// It is sealed.
    Sealed,
    /// A load lacks the permission Load.
    Load,
    /// A store lacks the permission Store.
    Store,
    /// A store of a tagged value lacks the permission Store_Capability.
    StoreCap,
    /// The bytes do not lie inside the bounds.
    Bounds,
    /// The address is not a multiple of the length.
    Align,
    /// A jump lacks the permission Execute.
    Execute,
}
