//! The operations on capabilities.
ghost use Rattle.std.specs.Prelude.{◌≡◌, ◌+◌, ◌^◌, ◌&&◌, IsTrue, is_some, IfSome};
ghost use Rattle.cap_concentrate.specs.Encoding.{AreEncoded};
ghost use Rattle.cap_concentrate.specs.Rounding.{IsLeastBounds};
ghost use Rattle.cap_ops.specs.Capability.{base, top, usable, permits, request_base, request_top, fits, is_exact};
ghost use Rattle.cap_ops.specs.Capability.{null_at, cleared, moved, added, narrowed, narrowed_exactly, masked, sealed};
ghost use Rattle.cap_ops.specs.Capability.{IsInside};

use super::{Cap, EXECUTE, SENTRY, UNSEALED, fields};
use cap_concentrate::{Bounds, NULL_BITS, bounds_of, keeps_bounds, set_bounds, unpack};

/// Null with this address: untagged and unsealed, with no permissions, and with the whole address
/// space as its bounds.
#[tactic(auto, unfolding(crate::specs::Capability::null_at))]
pub fn null(address: u64) -> Cap
    ensures value { result ≡ null_at address }
    ensures base { base result ≡ 0 }
    ensures top { top result ≡ 2 ^ 64 }
{
    Cap {
        tag: false,
        fields: fields::with_address(unpack(NULL_BITS), address),
    }
}

fn usable(c: Cap) -> bool
    ensures { result ≡ usable c }
{
    c.tag && c.fields.otype == UNSEALED
}

fn may_execute(c: Cap) -> bool
    ensures { result ≡ permits c.fields.perms EXECUTE }
{
    (c.fields.perms >> EXECUTE) % 2 == 1
}

/// The same capability without its tag (CHERI ISAv9, CClearTag).
pub fn clear(c: Cap) -> Cap
    ensures value { result ≡ cleared c }
    ensures inside { IsInside c result }
{
    Cap { tag: false, ..c }
}

/// The capability with another address (CHERI ISAv9, CSetAddr).
///
/// The tag stays exactly where the capability was tagged and unsealed and its base and top stay
/// the same.
#[tactic(auto, unfolding(crate::specs::Capability::moved))]
pub fn with_address(c: Cap, a: u64) -> Cap
    ensures value { result ≡ moved c a }
    ensures inside { IsInside c result }
{
    Cap {
        tag: usable(c) && keeps_bounds(c.fields, a),
        fields: fields::with_address(c.fields, a),
    }
}

/// The capability with its address moved by `by` bytes, modulo 2^64 (CHERI ISAv9, CIncOffset).
///
/// The tag stays as for `with_address`.
pub fn add(c: Cap, by: u64) -> Cap
    ensures value { result ≡ added c by }
    ensures inside { IsInside c result }
{
    with_address(c, c.fields.address.wrapping_add(by))
}

// The least bounds of the `len` bytes from the address on, where the capability may be narrowed to
// them.
#[tactic(auto, unfolding(crate::specs::Capability::fits, crate::specs::Capability::is_exact))]
fn request(c: Cap, len: u64) -> Option<Bounds>
    ensures granted { is_some result ≡ (usable c && fits c len) }
    ensures base { IfSome result (λ r. r.base ≡ request_base c len) }
    ensures top { IfSome result (λ r. r.top ≡ request_top c len) }
    ensures encoded { IfSome result (λ r. AreEncoded r.internal r.t r.b r.base r.top) }
    ensures exact { IfSome result (λ r. r.exact ≡ is_exact c len) }
{
    if !usable(c) || u128::from(c.fields.address) + u128::from(len) > 1 << 64 {
        return None;
    }
    let bounds = set_bounds(c.fields.address, len);
    let (base, top) = bounds_of(c.fields);
    if base <= bounds.base && bounds.top <= top {
        Some(bounds)
    } else {
        None
    }
}

/// The capability with the least bounds of the `len` bytes from its address on (CHERI ISAv9,
/// CSetBounds).
///
/// It succeeds exactly where the capability is tagged and unsealed and these bounds lie inside its
/// own, and else clears the tag.
#[tactic(auto, unfolding(crate::specs::Capability::narrowed, crate::specs::Capability::with_request))]
pub fn narrow(c: Cap, len: u64) -> Cap
    ensures value { result ≡ narrowed c len }
    ensures least { IsTrue result.tag →
        IsLeastBounds c.fields.address (c.fields.address + len) (base result) (top result) }
    ensures inside { IsInside c result }
{
    match request(c, len) {
        Some(bounds) => Cap {
            fields: fields::with_bounds(c.fields, bounds),
            ..c
        },
        None => clear(c),
    }
}

/// The capability narrowed as by `narrow`, where nothing has to be rounded (CHERI ISAv9,
/// CSetBoundsExact).
///
/// It clears the tag where something has to be rounded, too.
#[tactic(auto, unfolding(crate::specs::Capability::narrowed_exactly, crate::specs::Capability::with_request))]
pub fn narrow_exact(c: Cap, len: u64) -> Cap
    ensures value { result ≡ narrowed_exactly c len }
    ensures exact { IsTrue result.tag → (base result ≡ c.fields.address) × (top result ≡ c.fields.address + len) }
    ensures inside { IsInside c result }
{
    match request(c, len) {
        Some(bounds) if bounds.exact => Cap {
            fields: fields::with_bounds(c.fields, bounds),
            ..c
        },
        _ => clear(c),
    }
}

/// The capability with those of its permissions that the mask has (CHERI ISAv9, CAndPerm).
///
/// It succeeds exactly where the capability is tagged and unsealed, and else clears the tag alone.
#[tactic(auto, unfolding(crate::specs::Capability::masked))]
pub fn and_perms(c: Cap, mask: u16) -> Cap
    ensures value { result ≡ masked c mask }
    ensures inside { IsInside c result }
{
    if usable(c) {
        Cap {
            fields: fields::with_mask(c.fields, mask),
            ..c
        }
    } else {
        clear(c)
    }
}

/// The capability as a sealed entry (CHERI ISAv9, CSealEntry).
///
/// It succeeds exactly where the capability is tagged and unsealed and has Execute, and else clears
/// the tag.
#[tactic(auto, unfolding(crate::specs::Capability::sealed))]
pub fn seal_entry(c: Cap) -> Cap
    ensures value { result ≡ sealed c }
    ensures inside { IsInside c result }
{
    if usable(c) && may_execute(c) {
        Cap {
            fields: fields::with_otype(c.fields, SENTRY),
            ..c
        }
    } else {
        clear(c)
    }
}
