//! What one step found out and a later one may use again: the bounds of capabilities with the regions where they
//! lead. No answer depends on it.
ghost use Rattle.std.specs.Prelude.{◌≡◌, ℕ, ◌+◌, ◌*◌, ◌&&◌, ◌<◌, ◌≤◌, false, Ok, IsTrue};
ghost use Rattle.cap_concentrate.specs.Decoding.{base_at, top_at, base_of, top_of};
ghost use Rattle.cap_ops.specs.Access.{IsAccess, answer, checked, size, loads, stores, stores_tagged, jumps};
ghost use Rattle.cap_ops.specs.Capability.{base, top, permits, lacks};

use cap_concentrate::{Fields, bounds_of};
use cap_ops::{
    Access, Cap, Cause, EXECUTE, LOAD, STORE, STORE_CAPABILITY, UNSEALED, check as check_anew, null,
};
use rv_instr::Reg;

/// The bounds that some fields give at the addresses of a block of 2048 bytes.
#[derive(Clone, Copy)]
pub struct Bounds {
    internal: bool,
    t: u16,
    b: u16,
    block: u64,
    base: u64,
    /// The top, or 2^64 - 1 where the top is above that.
    top: u64,
    ghost base_is: { base_of internal t b (block * 2048) ≡ base },
    ghost top_is: { top ≤ top_of internal t b (block * 2048) },
}

/// The bounds of a capability, and the number of the region in which its last access was.
#[derive(Clone, Copy)]
pub struct Reach {
    pub bounds: Bounds,
    pub region: usize,
}

/// What each register last lent to an access.
#[derive(Drop)]
pub struct Reaches {
    held: [Reach; 32],
}

/// The number, or 2^64 - 1 where it is above that.
fn at_most_64_bits(n: u128) -> u64
    ensures { result ≤ n }
{
    if n < 1 << 64 { n as u64 } else { u64::MAX }
}

/// The bounds that the fields give.
#[cold]
#[inline(never)]
fn bounds_anew(f: Fields) -> Bounds
    ensures base { result.base ≡ base_at f f.address }
    ensures top { result.top ≤ top_at f f.address }
{
    let (base, top) = bounds_of(f);
    let top = at_most_64_bits(top);
    Bounds {
        internal: f.internal,
        t: f.t,
        b: f.b,
        block: f.address / 2048,
        base,
        top,
    }
}

#[inline(always)]
fn permits(perms: u16, bit: u32) -> bool
    requires { bit < 16 }
    ensures { result ≡ permits perms bit }
{
    (perms >> bit) % 2 == 1
}

/// The bytes of an access.
#[inline(always)]
fn size(a: Access) -> u8
    ensures { result ≡ size a }
{
    match a {
        Access::Load(n) | Access::Store(n) => n,
        Access::LoadCap | Access::StoreCap(_) => 16,
        Access::Jump => 4,
    }
}

/// Whether the permissions are enough for an access.
#[inline(always)]
fn is_permitted(perms: u16, a: Access) -> bool
    ensures load { IsTrue result → (loads a && lacks perms LOAD) ≡ false }
    ensures store { IsTrue result → (stores a && lacks perms STORE) ≡ false }
    ensures capability { IsTrue result → (stores_tagged a && lacks perms STORE_CAPABILITY) ≡ false }
    ensures jump { IsTrue result → (jumps a && lacks perms EXECUTE) ≡ false }
{
    match a {
        Access::Load(_) | Access::LoadCap => permits(perms, LOAD),
        Access::Store(_) | Access::StoreCap(false) => permits(perms, STORE),
        Access::StoreCap(true) => permits(perms, STORE) && permits(perms, STORE_CAPABILITY),
        Access::Jump => permits(perms, EXECUTE),
    }
}

impl Bounds {
    /// Whether the fields give these bounds by their block; where they do not, they may give them all the same.
    #[inline(always)]
    fn are_of(&self, f: &Fields) -> bool
        ensures base { IsTrue result → base_at f.now f.now.address ≡ self.now.base }
        ensures top { IsTrue result → self.now.top ≤ top_at f.now f.now.address }
    {
        if self.block != f.address / 2048 {
            return false;
        }
        if self.b != f.b {
            return false;
        }
        if self.t != f.t {
            return false;
        }
        if self.internal != f.internal {
            return false;
        }
        true
    }

    /// Whether an access passes its check.
    #[inline(always)]
    fn allow(&self, c: &Cap, at: u64, a: Access) -> bool
        requires access { IsAccess a }
        requires base { base c.now ≡ self.now.base }
        requires top { self.now.top ≤ top c.now }
        ensures { IsTrue result → checked c.now at a ≡ Ok at }
    {
        let size = u64::from(size(a));
        if !c.tag {
            return false;
        }
        if c.fields.otype != UNSEALED {
            return false;
        }
        if !is_permitted(c.fields.perms, a) {
            return false;
        }
        if at < self.base {
            return false;
        }
        if self.top < at {
            return false;
        }
        if self.top - at < size {
            return false;
        }
        if at % size != 0 {
            return false;
        }
        true
    }
}

/// The address, or the first cause by which the access fails there. The bounds become those of the capability.
#[inline(always)]
pub fn check(kept: &mut Bounds, c: &Cap, at: u64, a: Access) -> Result<u64, Cause>
    requires { IsAccess a }
    ensures { result ≡ checked c.now at a }
{
    if !kept.are_of(&c.fields) {
        *kept = bounds_anew(c.fields);
    }
    if kept.allow(c, at, a) {
        Ok(at)
    } else {
        check_in_full(c, at, a)
    }
}

/// The same without bounds that were kept.
#[inline(always)]
pub fn check_in_full(c: &Cap, at: u64, a: Access) -> Result<u64, Cause>
    requires { IsAccess a }
    ensures { result ≡ checked c.now at a }
{
    match cause_of(c, at, a) {
        None => Ok(at),
        Some(cause) => Err(cause),
    }
}

/// Why the access fails there, and None where it passes.
#[cold]
#[inline(never)]
fn cause_of(c: &Cap, at: u64, a: Access) -> Option<Cause>
    requires { IsAccess a }
    ensures { checked c.now at a ≡ answer at result }
{
    match check_anew(*c, at, a) {
        Ok(_) => None,
        Err(cause) => Some(cause),
    }
}

impl Reach {
    pub fn new() -> Reach {
        Reach {
            bounds: bounds_anew(null(0).fields),
            region: 0,
        }
    }
}

impl Reaches {
    /// Nothing so far.
    pub fn new() -> Reaches {
        Reaches {
            held: [Reach::new(); 32],
        }
    }

    /// Where that reaches which a register holds.
    #[inline(always)]
    pub fn held(&mut self, r: Reg) -> &mut Reach {
        &mut self.held[r.number() as usize]
    }
}
