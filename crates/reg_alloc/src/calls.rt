//! The calls of a function, in order.
ghost use Rattle.std.specs.Prelude.{ℕ, ◌↔◌, IsTrue, IfOk, Contains};
ghost use Rattle.std.specs.List.Sorted.{IsPermutation, IsNonDecreasing};
ghost use Rattle.reg_alloc.specs.Calls.{IsNextAbove};

use crate::intervals::Interval;
use std::alloc::{AllocError, Global};

/// The numbers of a function's calls, in ascending order.
#[derive(Drop)]
pub struct Calls {
    pub numbers: Vec<u32>,
    pub ghost ordered: { IsNonDecreasing numbers.items },
}

impl Calls {
    ghost use Rattle.reg_alloc.specs.Crossing.{IsCrossed};

    pub fn new(alloc: Global, calls: &[u32]) -> Result<Self, AllocError>
        ensures { IfOk result (λ c. IsPermutation calls.now c.numbers.items) }
    {
        let mut numbers = Vec::from_slice(alloc, calls)?;
        numbers.sort()?;
        Ok(Calls { numbers })
    }

    // The least call above a number.
    fn next_above(&self, number: u32) -> Option<u32>
        ensures { IsNextAbove self.now.numbers.items number result }
    {
        let numbers = self.numbers.as_slice();
        let place = numbers.partition_point(|c| *c <= number);
        numbers.get(place).copied()
    }

    /// Whether an instruction is a call.
    pub fn has(&self, number: u32) -> bool
        ensures { IsTrue result ↔ Contains self.now.numbers.items number }
    {
        self.numbers.as_slice().binary_search(&number).is_ok()
    }

    /// Whether some call crosses an interval: it stands strictly between its ends.
    pub fn cross(&self, v: Interval) -> bool
        ensures { IsTrue result ↔ IsCrossed self.now.numbers.items v }
    {
        match self.next_above(v.first) {
            Some(c) => c < v.last,
            None => false,
        }
    }
}
