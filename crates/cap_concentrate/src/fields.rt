//! The fields of a capability, and the bounds of a request.
ghost use Rattle.std.specs.Prelude.{◌^◌, ◌<◌};

/// The fields of a 128-bit capability, each in its bit range (CHERI ISAv9, the 128-bit format).
///
/// From the upper end: user permissions, permissions, reserved bits, the flag, the object type, the
/// internal-exponent bit L, the low 12 bits of T, the 14 bits of B, and the address.
#[derive(Clone, Copy, Debug, PartialEq, Eq)]
pub struct Fields {
    /// The four user permissions.
    pub user: u8,
    /// The twelve permissions: bit 0 is Global, then Execute, Load, Store, Load_Capability,
    /// Store_Capability and Store_Local_Capability.
    pub perms: u16,
    /// The two reserved bits.
    pub reserved: u8,
    /// The flag.
    pub flag: bool,
    /// The object type, of 18 bits.
    pub otype: u32,
    /// The internal-exponent bit L.
    pub internal: bool,
    /// The low 12 bits of T.
    pub t: u16,
    /// The 14 bits of B.
    pub b: u16,
    /// The address.
    pub address: u64,
    pub ghost user_in_range: { user < 16 },
    pub ghost perms_in_range: { perms < 4096 },
    pub ghost reserved_in_range: { reserved < 4 },
    pub ghost otype_in_range: { otype < 2 ^ 18 },
    pub ghost t_in_range: { t < 4096 },
    pub ghost b_in_range: { b < 16384 },
}

/// The bounds that a request gets, and the fields that encode them.
#[derive(Clone, Copy, Debug, PartialEq, Eq)]
pub struct Bounds {
    /// The first address.
    pub base: u64,
    /// The address behind the last one, at most 2^64.
    pub top: u128,
    /// Whether these are the bounds that were asked for.
    pub exact: bool,
    /// The internal-exponent bit L.
    pub internal: bool,
    /// The low 12 bits of T.
    pub t: u16,
    /// The 14 bits of B.
    pub b: u16,
    pub ghost t_in_range: { t < 4096 },
    pub ghost b_in_range: { b < 16384 },
}
