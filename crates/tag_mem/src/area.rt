//! One region's granules and tags.

ghost use Rattle.std.specs.Prelude.{◌≡◌, ◌+◌, ◌*◌, ◌/◌, ◌%◌, ◌≤◌, ◌<◌, length, nat_le, IsTrue, IfOk, false};
ghost use Rattle.std.specs.Borrow.{sem};
ghost use Rattle.tag_mem.specs.Areas.{IsArea, has, end_of, bytes_in, tag_in};
ghost use Rattle.tag_mem.specs.Numbers.{little_number};
ghost use Rattle.tag_mem.specs.Granules.{granule_bytes};
ghost use Rattle.tag_mem.specs.Memory.{replaced, area_with};
ghost use Rattle.tag_mem.specs.Regions.{IsRegion, fresh_area};
ghost use Rattle.tag_mem.specs.Lending.{LendsOfArea};

use crate::number::{half_number, part};
use crate::region::Region;
use crate::tags::Tags;
use ck_base::NoMemory;
use std::alloc::Global;
use std::marker::Model;

/// The bytes of a granule: as many as share one tag.
const GRANULE: usize = 16;

/// The granules from a base on, and a tag for each of them.
#[derive(Drop)]
pub struct Area {
    base: u64,
    granules: Vec<[u8; 16]>,
    tags: Tags,
}

impl Model for Area {
    ghost use Rattle.tag_mem.specs.Areas.{Area as AreaView, IsArea};
    ghost use Rattle.tag_mem.specs.Granules.{area_of};

    ghost Value = { AreaView };

    ghost view = { λ a. area_of a.base a.granules.items a.tags };

    ghost invariant = { λ a. IsArea (area_of a.base a.granules.items a.tags) };
}

/// Puts bytes into a granule, from a place on.
#[inline(always)]
fn put(granule: &mut [u8; 16], place: usize, bytes: &[u8])
    requires { place + length bytes.now ≤ 16 }
    ensures value { granule.new ≡ replaced place bytes.now (granule_bytes granule.old) }
    ensures whole { granule_bytes granule.new ≡ granule.new }
{
    granule[place..place + bytes.len()].copy_from_slice(bytes);
}

impl Area {
    /// A region of zeros without tags.
    pub fn zeroed(alloc: Global, region: Region) -> Result<Area, NoMemory>
        requires { IsRegion region }
        ensures { IfOk result (λ area. area ≡ fresh_area region) }
    {
        let count = region.length as usize / GRANULE;
        let mut granules = Vec::new(alloc);
        granules.resize(count, [0; GRANULE])?;
        let tags = Tags::clear(alloc, count)?;
        Ok(Area {
            base: region.base,
            granules,
            tags,
        })
    }

    /// Whether the address lies in the region.
    #[inline(always)]
    pub fn has(&self, at: u64) -> bool
        ensures { result ≡ has self.now at }
    {
        at.wrapping_sub(self.base) < (self.granules.len() * GRANULE) as u64
    }

    /// The granule of an address.
    #[inline(always)]
    pub fn granule(&self, at: u64) -> &[u8; 16]
        requires place { IsTrue (has self.now at) }
        ensures value { granule_bytes result.now ≡ bytes_in self.now (at / 16 * 16) 16 }
        ensures area { IsArea self.now }
    {
        &self.granules[(at - self.base) as usize / GRANULE]
    }

    /// The tag of the granule of an address.
    #[inline(always)]
    pub fn tag(&self, at: u64) -> bool
        requires { IsTrue (has self.now at) }
        ensures { result ≡ tag_in self.now at }
    {
        self.tags.get((at - self.base) as usize / GRANULE)
    }

    /// Lends the granule of an address, whose tag is cleared.
    pub fn granule_mut(&mut self, at: u64) -> &mut [u8; 16]
        requires place { IsTrue (has self.old at) }
        requires aligned { at % 16 ≡ 0 }
        ensures* writes_back { sem 𝓛 (LendsOfArea self.entry at result) }
        ensures value { granule_bytes result.now ≡ bytes_in self.old at 16 }
    {
        let k = (at - self.base) as usize / GRANULE;
        self.tags.set(k, false);
        &mut self.granules[k]
    }

    /// The little-endian number of `n` bytes of half a granule from an address on.
    #[inline(always)]
    pub fn number(&self, at: u64, n: u8) -> u64
        requires place { IsTrue (has self.now at) }
        requires within { at % 8 + n ≤ 8 }
        ensures value { result ≡ little_number (bytes_in self.now at n) }
    {
        let half = half_number(self.granule(at), (at % 16 / 8) as usize);
        part(half, at % 8, n)
    }

    /// Writes bytes of one granule from an address on, and the granule's tag.
    #[inline(always)]
    pub fn store(&mut self, at: u64, bytes: &[u8], tag: bool)
        requires place { IsTrue (has self.old at) }
        requires some { 0 < length bytes.now }
        requires granule { at % 16 + length bytes.now ≤ 16 }
        ensures { self.new ≡ area_with self.old at bytes.now tag }
    {
        let k = (at - self.base) as usize / GRANULE;
        put(&mut self.granules[k], at as usize % GRANULE, bytes);
        self.tags.set(k, tag);
    }

    /// Fills the granules from an address on, and clears their tags. False, and nothing changed, where the bytes go
    /// past the end.
    pub fn fill(&mut self, at: u64, bytes: &[u8]) -> bool
        requires place { IsTrue (has self.old at) }
        requires aligned { at % 16 ≡ 0 }
        ensures fits { result ≡ nat_le (at + length bytes.now) (end_of self.old) }
        ensures value { self.new ≡ area_with self.old at bytes.now false }
    {
        if bytes.len() > self.granules.len() * GRANULE - (at - self.base) as usize {
            return false;
        }
        let mut done = 0;
        while done < bytes.len() {
            let count = (bytes.len() - done).min(GRANULE);
            self.store(at + done as u64, &bytes[done..done + count], false);
            done += count;
        }
        true
    }
}
