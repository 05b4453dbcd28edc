//! Tags, packed.

ghost use Rattle.std.specs.Int.{bit_not, w64};
ghost use Rattle.std.specs.Prelude.{◌≡◌, ℕ, ◌*◌, ◌%◌, ◌^◌, ◌<◌, ◌≤◌, bit_or, bit_and, if◌then◌else◌, length};
ghost use Rattle.std.specs.Prelude.{slice_index_or, slice_set, replicate, false, IfOk};

use ck_base::NoMemory;
use std::alloc::Global;
use std::marker::Model;

/// One tag for each granule, in words of 64 bits, the first in the lowest bit.
#[derive(Drop)]
pub struct Tags {
    words: Vec<u64>,
    count: usize,
}

impl Model for Tags {
    ghost use Rattle.std.specs.Prelude.{List, Bool, ◌≤◌, ◌*◌, length};
    ghost use Rattle.tag_mem.specs.Packed.{unpacked};

    ghost Value = { List Bool };

    ghost view = { λ t. unpacked t.words.items t.count };

    ghost invariant = { λ t. t.count ≤ 64 * length t.words.items };
}

/// The word with the bit k as the tag.
#[inline(always)]
fn with_bit(word: u64, k: usize, tag: bool) -> u64
    requires { k < 64 }
    ensures { result ≡ (if tag then bit_or word (1 * 2 ^ k % 2 ^ 64)
        else bit_and word (bit_not w64 (1 * 2 ^ k % 2 ^ 64))) }
{
    let bit = 1 << k;
    if tag { word | bit } else { word & !bit }
}

impl Tags {
    /// So many clear tags.
    #[tactic(auto, using(crate::proofs::Bits::unpacked_clear))]
    pub fn clear(alloc: Global, count: usize) -> Result<Tags, NoMemory>
        requires { count ≤ 2 ^ 40 }
        ensures { IfOk result (λ tags. tags ≡ replicate count false) }
    {
        let mut words = Vec::new(alloc);
        words.resize(count.div_ceil(64), 0)?;
        Ok(Tags { words, count })
    }

    /// The tag i.
    #[inline(always)]
    pub fn get(&self, i: usize) -> bool
        requires { i < length self.now }
        ensures { result ≡ slice_index_or self.now i false }
    {
        (self.words[i / 64] >> (i % 64)) & 1 == 1
    }

    /// Sets or clears the tag i, and leaves all others.
    #[inline(always)]
    pub fn set(&mut self, i: usize, tag: bool)
        requires { i < length self.old }
        ensures { self.new ≡ slice_set self.old i tag }
    {
        let word = with_bit(self.words[i / 64], i % 64, tag);
        self.words[i / 64] = word;
    }
}
