//! The check of an access.
ghost use Rattle.std.specs.Prelude.{◌≡◌, ◌<◌};
ghost use Rattle.cap_ops.specs.Access.{IsAccess, checked, size, loads, stores, stores_tagged, jumps};
ghost use Rattle.cap_ops.specs.Capability.{lacks};

use super::{Access, Cap, Cause, EXECUTE, LOAD, STORE, STORE_CAPABILITY, UNSEALED};
use cap_concentrate::bounds_of;

impl Access {
    fn loads(self) -> bool
        ensures { result ≡ loads self }
    {
        matches!(self, Access::Load(_) | Access::LoadCap)
    }

    fn stores(self) -> bool
        ensures { result ≡ stores self }
    {
        matches!(self, Access::Store(_) | Access::StoreCap(_))
    }

    fn stores_tagged(self) -> bool
        ensures { result ≡ stores_tagged self }
    {
        matches!(self, Access::StoreCap(true))
    }

    fn jumps(self) -> bool
        ensures { result ≡ jumps self }
    {
        matches!(self, Access::Jump)
    }

    fn size(self) -> u8
        ensures { result ≡ size self }
    {
        match self {
            Access::Load(n) | Access::Store(n) => n,
            Access::LoadCap | Access::StoreCap(_) => 16,
            Access::Jump => 4,
        }
    }
}

fn lacks(perms: u16, bit: u32) -> bool
    requires { bit < 16 }
    ensures { result ≡ lacks perms bit }
{
    (perms >> bit) % 2 != 1
}

/// The address, or the first cause by which the access fails there (CHERI ISAv9, the checks of
/// loads, stores and jumps).
///
/// The causes are tested in this order: tag; seal; permission (Load; Store, and then
/// Store_Capability where a tagged value is stored; Execute); bounds; natural alignment.
#[tactic(auto, unfolding(crate::specs::Access::checked))]
pub fn check(c: Cap, at: u64, a: Access) -> Result<u64, Cause>
    requires { IsAccess a }
    ensures { result ≡ checked c at a }
{
    if !c.tag {
        return Err(Cause::Tag);
    }
    if c.fields.otype != UNSEALED {
        return Err(Cause::Sealed);
    }
    if a.loads() && lacks(c.fields.perms, LOAD) {
        return Err(Cause::Load);
    }
    if a.stores() && lacks(c.fields.perms, STORE) {
        return Err(Cause::Store);
    }
    if a.stores_tagged() && lacks(c.fields.perms, STORE_CAPABILITY) {
        return Err(Cause::StoreCap);
    }
    if a.jumps() && lacks(c.fields.perms, EXECUTE) {
        return Err(Cause::Execute);
    }
    let (base, top) = bounds_of(c.fields);
    let size = u64::from(a.size());
    if at < base || top < u128::from(at) + u128::from(size) {
        return Err(Cause::Bounds);
    }
    if at % size != 0 {
        return Err(Cause::Align);
    }
    Ok(at)
}
