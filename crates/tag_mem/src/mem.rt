//! Memory.

ghost use Rattle.std.specs.Prelude.{◌≡◌, ◌+◌, ◌%◌, ◌<◌, ◌≤◌, ◌^◌, ◌*◌, length, is_some, IsTrue, IfSome, IfOk, true};
ghost use Rattle.std.specs.Prelude.{false, Some};
ghost use Rattle.std.specs.Bool.{OnTrue, OnFalse};
ghost use Rattle.std.specs.Borrow.{sem};
ghost use Rattle.tag_mem.specs.Areas.{IsMemory, area_at, has, is_inside, tag_at};
ghost use Rattle.std.specs.Option.{option_copied};
ghost use Rattle.tag_mem.specs.Numbers.{little_bytes};
ghost use Rattle.tag_mem.specs.Memory.{place_of, number_at, capability_at, fits_inside, written, IsAccessSize, Spells};
ghost use Rattle.tag_mem.specs.Memory.{Holds, Writes};
ghost use Rattle.tag_mem.specs.Lending.{LendsGranule, LendsIn};
ghost use Rattle.tag_mem.specs.Regions.{LieFrom, fresh, IsZeroed};

use crate::area::Area;
use crate::number::whole_number;
use crate::region::Region;
use ck_base::NoMemory;
use std::alloc::Global;
use std::marker::Model;

/// The memory of a machine. All of its room is taken when it is made, so no access needs more.
#[derive(Drop)]
pub struct Mem {
    areas: Vec<Area>,
}

impl Model for Mem {
    ghost use Rattle.std.specs.Prelude.{List};
    ghost use Rattle.tag_mem.specs.Areas.{Area as AreaView, IsMemory};

    ghost Value = { List AreaView };

    ghost view = { λ m. m.areas.items };

    ghost invariant = { λ m. IsMemory m.areas.items };
}

impl Mem {
    /// Memory of zeros without tags, in these regions. They ascend without overlap, their bases and lengths are
    /// multiples of 16, and they end at most at 2^40. It fails only for want of memory.
    pub fn new(alloc: Global, regions: &Vec<Region>) -> Result<Mem, NoMemory>
        requires { LieFrom 0 regions.now.items }
        ensures value { IfOk result (λ mem. mem ≡ fresh regions.now.items) }
        ensures by_address { IfOk result (λ mem. IsZeroed mem regions.now.items) }
    {
        let mut areas = Vec::with_capacity(alloc, regions.len())?;
        for region in regions {
            areas.push(Area::zeroed(alloc, *region)?)?;
        }
        Ok(Mem { areas })
    }

    /// The little-endian number of `n` bytes at an address, where `n` is 1, 2, 4 or 8 and divides the address. None
    /// exactly where the address is outside the regions.
    pub fn read(&self, at: u64, n: u8) -> Option<u64>
        requires size { IsAccessSize n }
        requires aligned { at % n ≡ 0 }
        ensures inside { is_some result ≡ is_inside self.now at }
        ensures value { result ≡ number_at self.now at n }
        ensures below { IfSome result (λ v. v < 256 ^ n) }
        ensures by_address { IfSome result (Spells self.now at n) }
    {
        let mut near = 0;
        self.read_near(&mut near, at, n)
    }

    /// The same. The address is looked for first in the region whose number is `near`, counted from 0, and `near`
    /// becomes the number of the region that has it. No answer depends on it.
    #[inline(always)]
    pub fn read_near(&self, near: &mut usize, at: u64, n: u8) -> Option<u64>
        requires size { IsAccessSize n }
        requires aligned { at % n ≡ 0 }
        ensures inside { is_some result ≡ is_inside self.now at }
        ensures value { result ≡ number_at self.now at n }
        ensures below { IfSome result (λ v. v < 256 ^ n) }
        ensures by_address { IfSome result (Spells self.now at n) }
        ensures memory { IfSome result (λ _. IsMemory self.now) }
    {
        let area = self.area_near(near, at)?;
        Some(area.number(at, n))
    }

    /// Writes the low `n` bytes of a number, little endian, and clears the tag of their granule; `n` is 1, 2, 4 or 8
    /// and divides the address. False, and nothing changed, exactly where the address is outside the regions.
    pub fn write(&mut self, at: u64, n: u8, v: u64) -> bool
        requires size { IsAccessSize n }
        requires aligned { at % n ≡ 0 }
        ensures inside { result ≡ is_inside self.old at }
        ensures value { self.new ≡ written self.old at (little_bytes n v) false }
        ensures by_address { OnTrue result (Writes self.old self.new at (little_bytes n v) false) }
        ensures outside { OnFalse result (self.new ≡ self.old) }
    {
        let mut near = 0;
        self.write_near(&mut near, at, n, v)
    }

    /// The same, with the region that is looked at first, as in `read_near`.
    #[inline(always)]
    pub fn write_near(&mut self, near: &mut usize, at: u64, n: u8, v: u64) -> bool
        requires size { IsAccessSize n }
        requires aligned { at % n ≡ 0 }
        ensures inside { result ≡ is_inside self.old at }
        ensures value { self.new ≡ written self.old at (little_bytes n v) false }
        ensures by_address { OnTrue result (Writes self.old self.new at (little_bytes n v) false) }
        ensures outside { OnFalse result (self.new ≡ self.old) }
    {
        // A copy of so many bytes as are known here is one instruction.
        match n {
            1 => self.write_low(near, at, 1, v),
            2 => self.write_low(near, at, 2, v),
            4 => self.write_low(near, at, 4, v),
            8 => self.write_low(near, at, 8, v),
            _ => unreachable!(),
        }
    }

    #[inline(always)]
    fn write_low(&mut self, near: &mut usize, at: u64, n: u8, v: u64) -> bool
        requires size { IsAccessSize n }
        requires aligned { at % n ≡ 0 }
        ensures inside { result ≡ is_inside self.old at }
        ensures value { self.new ≡ written self.old at (little_bytes n v) false }
        ensures by_address { OnTrue result (Writes self.old self.new at (little_bytes n v) false) }
        ensures outside { OnFalse result (self.new ≡ self.old) }
    {
        self.store(near, at, &v.to_le_bytes()[..n as usize], false)
    }

    /// The 128 bits of a capability at a multiple of 16, as they stand in memory, and its tag. None exactly where the
    /// address is outside the regions.
    pub fn cap_at(&self, at: u64) -> Option<(u128, bool)>
        requires { at % 16 ≡ 0 }
        ensures inside { is_some result ≡ is_inside self.now at }
        ensures value { result ≡ capability_at self.now at }
        ensures by_address { IfSome result (λ c. Spells self.now at 16 c.0) }
        ensures tag { IfSome result (λ c. tag_at self.now at ≡ Some c.1) }
    {
        let mut near = 0;
        self.cap_near(&mut near, at)
    }

    /// The same, with the region that is looked at first, as in `read_near`.
    #[inline(always)]
    pub fn cap_near(&self, near: &mut usize, at: u64) -> Option<(u128, bool)>
        requires { at % 16 ≡ 0 }
        ensures inside { is_some result ≡ is_inside self.now at }
        ensures value { result ≡ capability_at self.now at }
        ensures by_address { IfSome result (λ c. Spells self.now at 16 c.0) }
        ensures tag { IfSome result (λ c. tag_at self.now at ≡ Some c.1) }
    {
        let area = self.area_near(near, at)?;
        Some((whole_number(area.granule(at)), area.tag(at)))
    }

    /// Writes the 128 bits of a capability at a multiple of 16, and its tag. False, and nothing changed, exactly where
    /// the address is outside the regions.
    pub fn set_cap(&mut self, at: u64, bits: u128, tag: bool) -> bool
        requires { at % 16 ≡ 0 }
        ensures inside { result ≡ is_inside self.old at }
        ensures value { self.new ≡ written self.old at (little_bytes 16 bits) tag }
        ensures by_address { OnTrue result (Writes self.old self.new at (little_bytes 16 bits) tag) }
        ensures outside { OnFalse result (self.new ≡ self.old) }
    {
        let mut near = 0;
        self.set_cap_near(&mut near, at, bits, tag)
    }

    /// The same, with the region that is looked at first, as in `read_near`.
    #[inline(always)]
    #[tactic(auto, unfolding(crate::specs::Numbers::little_bytes))]
    pub fn set_cap_near(&mut self, near: &mut usize, at: u64, bits: u128, tag: bool) -> bool
        requires { at % 16 ≡ 0 }
        ensures inside { result ≡ is_inside self.old at }
        ensures value { self.new ≡ written self.old at (little_bytes 16 bits) tag }
        ensures by_address { OnTrue result (Writes self.old self.new at (little_bytes 16 bits) tag) }
        ensures outside { OnFalse result (self.new ≡ self.old) }
    {
        self.store(near, at, &bits.to_le_bytes(), tag)
    }

    /// Writes bytes from a multiple of 16 on, and clears the tags of the granules that they touch. False, and nothing
    /// changed, exactly where they do not lie in the region of the address, or no region has it.
    pub fn fill(&mut self, at: u64, bytes: &[u8]) -> bool
        requires { at % 16 ≡ 0 }
        ensures fits { result ≡ fits_inside self.old at (length bytes.now) }
        ensures value { self.new ≡ written self.old at bytes.now false }
        ensures by_address { OnTrue result (Writes self.old self.new at bytes.now false) }
        ensures outside { OnFalse result (self.new ≡ self.old) }
    {
        match self.place(at) {
            Some(i) => self.areas[i].fill(at, bytes),
            None => false,
        }
    }

    /// Lends the granule at a multiple of 16. None exactly where the address is outside the regions.
    pub fn granule(&self, at: u64) -> Option<&[u8; 16]>
        requires { at % 16 ≡ 0 }
        ensures inside { is_some result ≡ is_inside self.now at }
        ensures by_address { IfSome result (λ g. Holds self.now at g.now) }
    {
        let area = self.area(at)?;
        Some(area.granule(at))
    }

    /// Lends the granule at a multiple of 16 to be written, and clears its tag. None, and nothing changed, exactly
    /// where the address is outside the regions.
    pub fn granule_mut(&mut self, at: u64) -> Option<&mut [u8; 16]>
        requires { at % 16 ≡ 0 }
        ensures* writes_back { sem 𝓛 (LendsGranule self.entry at result) }
        ensures inside { is_some result ≡ is_inside self.old at }
        ensures by_address { IfSome result (λ g. Holds self.old at g.now) }
    {
        let i = self.place(at)?;
        Some(self.granule_in(i, at))
    }

    fn granule_in(&mut self, i: usize, at: u64) -> &mut [u8; 16]
        requires place { place_of self.old at ≡ Some i }
        requires aligned { at % 16 ≡ 0 }
        ensures* writes_back { sem 𝓛 (LendsIn self.entry at result) }
        ensures inside { is_inside self.old at ≡ true }
        ensures value { Holds self.old at result.now }
    {
        self.areas[i].granule_mut(at)
    }

    /// The area that has an address.
    fn area(&self, at: u64) -> Option<&Area>
        ensures found { option_copied result ≡ area_at self.now at }
        ensures here { IfSome result (λ area. IsTrue (has area.now at)) }
        ensures memory { IsMemory self.now }
    {
        self.areas.iter().find(|area| area.has(at))
    }

    /// Its place among the areas.
    #[inline(never)]
    fn place(&self, at: u64) -> Option<usize>
        ensures { result ≡ place_of self.now at }
    {
        self.areas.iter().position(|area| area.has(at))
    }

    /// The same, looked for first at `near`, which becomes it.
    #[inline(always)]
    fn place_near(&self, near: &mut usize, at: u64) -> Option<usize>
        ensures { result ≡ place_of self.now at }
    {
        let k = *near;
        if k < self.areas.len() && self.areas[k].has(at) {
            return Some(k);
        }
        let found = self.place(at);
        *near = found.unwrap_or(k);
        found
    }

    /// The area that has an address, looked for first at `near`.
    #[inline(always)]
    fn area_near(&self, near: &mut usize, at: u64) -> Option<&Area>
        ensures found { option_copied result ≡ area_at self.now at }
        ensures here { IfSome result (λ area. IsTrue (has area.now at)) }
        ensures memory { IfSome result (λ _. IsMemory self.now) }
    {
        let i = self.place_near(near, at)?;
        Some(&self.areas[i])
    }

    /// Writes bytes of one granule in the area that has the address, and the granule's tag.
    #[inline(always)]
    fn store(&mut self, near: &mut usize, at: u64, bytes: &[u8], tag: bool) -> bool
        requires some { 0 < length bytes.now }
        requires granule { at % 16 + length bytes.now ≤ 16 }
        ensures inside { result ≡ is_inside self.old at }
        ensures value { self.new ≡ written self.old at bytes.now tag }
        ensures by_address { OnTrue result (Writes self.old self.new at bytes.now tag) }
        ensures outside { OnFalse result (self.new ≡ self.old) }
    {
        match self.place_near(near, at) {
            Some(i) => {
                self.areas[i].store(at, bytes, tag);
                true
            }
            None => false,
        }
    }
}
