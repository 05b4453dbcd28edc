//! Counts of texts.

ghost use Rattle.std.specs.Prelude.{◌≡◌, ℕ, ◌+◌, ◌-◌, ◌^◌, ◌<◌, List, OnOk, OnErr, IsOk, bytes_eq, if◌then◌else◌};
ghost use Rattle.c_phrases.specs.Counted.{count_of, HasRoom};

use indexmap::IndexMap;
use std::alloc::{AllocError, Global};

/// Of each text, how often it was counted.
#[derive(Drop)]
pub(crate) struct Counts<'a> {
    table: IndexMap<&'a [u8], usize>,
}

impl<'a> Counts<'a> {
    pub(crate) fn new(alloc: Global) -> Counts<'a>
        ensures { (text : List ℕ) → count_of result text ≡ 0 }
    {
        Counts {
            table: IndexMap::new(alloc),
        }
    }

    /// How often a text was counted.
    pub(crate) fn count(&self, text: &[u8]) -> usize
        ensures { result ≡ count_of self.now text.now }
    {
        self.table.get(text).copied().unwrap_or(0)
    }

    /// Room for one more text.
    pub(crate) fn reserve(&mut self) -> Result<(), AllocError>
        ensures same { (text : List ℕ) → count_of self.new text ≡ count_of self.old text }
        ensures room { OnOk result (HasRoom self.new) }
    {
        self.table.reserve(1)
    }

    /// One more of a text.
    pub(crate) fn add(&mut self, text: &'a [u8]) -> Result<(), AllocError>
        requires { count_of self.old text.now + 1 < 2 ^ 64 }
        ensures ok { OnOk result ((other : List ℕ) →
            count_of self.new other ≡ count_of self.old other + (if bytes_eq text.now other then 1 else 0)) }
        ensures err { OnErr result ((other : List ℕ) → count_of self.new other ≡ count_of self.old other) }
        ensures succeeds { HasRoom self.old → IsOk result }
    {
        let count = self.count(text);
        self.table.insert(text, count + 1)?;
        Ok(())
    }

    /// One fewer of a text.
    pub(crate) fn remove(&mut self, text: &[u8])
        ensures { (other : List ℕ) →
            count_of self.new other ≡ count_of self.old other - (if bytes_eq text.now other then 1 else 0) }
    {
        if let Some(count) = self.table.get_mut(text) {
            *count = count.saturating_sub(1);
        }
    }
}
