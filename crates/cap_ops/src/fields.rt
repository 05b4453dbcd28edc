//! Fields with one part changed.
ghost use Rattle.std.specs.Prelude.{◌≡◌, ◌^◌, ◌<◌};
ghost use Rattle.cap_concentrate.specs.Encoding.{AreEncoded, with_bounds};
ghost use Rattle.cap_ops.specs.Capability.{with_address, with_mask, with_otype};

use cap_concentrate::{Bounds, Fields};

// Another address.
pub fn with_address(f: Fields, address: u64) -> Fields
    ensures { result ≡ with_address f address }
{
    let mut fields = f;
    fields.address = address;
    fields
}

// Other bounds, in their canonical fields.
pub fn with_bounds(f: Fields, bounds: Bounds) -> Fields
    requires { AreEncoded bounds.internal bounds.t bounds.b bounds.base bounds.top }
    ensures { result ≡ with_bounds f bounds.base bounds.top }
{
    let mut fields = f;
    fields.internal = bounds.internal;
    fields.t = bounds.t;
    fields.b = bounds.b;
    fields
}

// The permissions that the mask has too.
pub fn with_mask(f: Fields, mask: u16) -> Fields
    ensures { result ≡ with_mask f mask }
{
    let mut fields = f;
    fields.perms &= mask;
    fields
}

// Another object type.
pub fn with_otype(f: Fields, otype: u32) -> Fields
    requires { otype < 2 ^ 18 }
    ensures { result ≡ with_otype f otype }
{
    let mut fields = f;
    fields.otype = otype;
    fields
}
