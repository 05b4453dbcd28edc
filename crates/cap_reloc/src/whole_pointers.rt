//! The pointers to whole objects.
ghost use Rattle.std.specs.Prelude.{◌≡◌, ◌^◌, ◌<◌};
ghost use Rattle.cap_concentrate.specs.Rounding.{owned};
ghost use Rattle.cap_reloc.specs.Whole.{literal_pointer};

use c_tree::Literal;
use cap_concentrate::rounded_length;

/// A pointer with which a program begins, as a relocation has it.
#[derive(Clone, Copy)]
pub struct Pointer {
    pub base: u64,
    /// Its address, in bytes from the base.
    pub offset: u64,
    /// The length of its bounds, in bytes.
    pub length: u64,
    /// Bits 0 to 11 are the permissions, and bit 63 says that it is a sentry.
    pub perms: u64,
}

/// All permissions but Execute, for objects that are written and for the heap.
pub const DATA: u64 = 0b111_1101;

/// Global, Load and Load_Capability, for literals and for globals of const type.
pub const CONST: u64 = 0b1_0101;

/// The pointer to a whole object of `size` bytes.
#[tactic(auto, using(crate::proofs::OwnedSizes::owned_fits))]
pub fn whole(base: u64, size: u64, perms: u64) -> Pointer
    requires { size < 2 ^ 63 }
    ensures { result ≡ record { base = base; offset = 0; length = owned size; perms = perms } }
{
    Pointer {
        base,
        offset: 0,
        length: rounded_length(size),
        perms,
    }
}

/// The pointer to a string literal.
pub fn literal_pointer(l: &Literal, base: u64) -> Pointer
    ensures { result ≡ literal_pointer (l.now, base) }
{
    whole(base, l.bytes.as_slice().len() as u64, CONST)
}
