//! The linear scan: intervals in the order of their first instructions, each in the first register that is free for it.
ghost use Rattle.std.specs.Prelude.{◌≡◌, ◌+◌, ◌^◌, ◌<◌, ◌≤◌, ℕ, ◌↔◌, [], ◌∷◌, ◌++◌, All, IsTrue, IfOk, IfSome};
ghost use Rattle.std.specs.Prelude.{IfNone, List, length, replicate, slice_index, slice_set};
ghost use Rattle.reg_alloc.specs.Placed.{IsCrossed, IsPlaced, IsSlotBelow, IsRegister, IsRelaxed, StaysClearAt};
ghost use Rattle.reg_alloc.specs.Ranks.{register_of};
ghost use Rattle.reg_alloc.specs.Scanned.{entries_from, AreInOrder, IsNext, IsChoice, AreTaken, HasScanned};

use crate::calls::Calls;
use crate::free::take;
use crate::intervals::Interval;
use crate::places::{Home, Places};
use crate::ranks::{RANKS, lowest_rank, own_rank, register_of};
use ck_base::{NoMemory, Sequence};
use std::alloc::{AllocError, Global};

/// An interval and its place in the caller's list.
#[derive(Clone, Copy)]
struct Entry {
    interval: Interval,
    index: usize,
}

fn numbered(alloc: Global, live: &[Interval]) -> Result<Vec<Entry>, AllocError>
    ensures { IfOk result (λ es. es.items ≡ entries_from 0 live.now) }
{
    let mut entries = Vec::new(alloc);
    for (index, interval) in live.iter().enumerate() {
        entries.push(Entry {
            interval: *interval,
            index,
        })?;
    }
    Ok(entries)
}

fn in_order(alloc: Global, live: &[Interval]) -> Result<Vec<Entry>, AllocError>
    ensures { IfOk result (λ es. AreInOrder live.now es.items) }
{
    let mut entries = numbered(alloc, live)?;
    entries.sort_by_key(|e| e.interval.first)?;
    Ok(entries)
}

/// The homes so far, and what is still free.
#[derive(Drop)]
struct Scan {
    homes: Vec<Home>,
    /// For each rank, the first instruction at which its register is free.
    free_from: [u64; RANKS],
    /// The number of slots so far.
    slots: u32,
}

impl Scan {
    fn new(alloc: Global, count: usize) -> Result<Self, AllocError>
        ensures homes { IfOk result (λ s. length s.homes.items ≡ count) }
        ensures free { IfOk result (λ s. s.free_from ≡ replicate 23 0) }
        ensures slots { IfOk result (λ s. s.slots ≡ 0) }
    {
        Ok(Scan {
            homes: vec![in alloc; Home::Register(5); count]?,
            free_from: [0; RANKS],
            slots: 0,
        })
    }

    fn is_free(&self, rank: usize, v: Interval) -> bool
        requires { rank < 23 }
        ensures { IsTrue result ↔ (slice_index self.now.free_from rank ≤ v.first) }
    {
        self.free_from[rank] <= u64::from(v.first)
    }

    fn first_free(&self, lowest: usize, v: Interval) -> Option<usize>
        ensures within { IfSome result (λ k. (lowest ≤ k) × (k < 23)) }
        ensures free { IfSome result (λ k. slice_index self.now.free_from k ≤ v.first) }
        ensures none { IfNone result (AreTaken self.now.free_from lowest v.first) }
    {
        for rank in lowest..RANKS {
            if self.is_free(rank, v) {
                return Some(rank);
            }
        }
        None
    }

    fn rank_for(&self, calls: &Calls, e: Entry) -> Option<usize>
        ensures choice { IfSome result (IsChoice calls.now.numbers.items e.index e.interval self.now.free_from) }
        ensures none { IfNone result
            ((IsCrossed calls.now.numbers.items e.interval → ⊥) → AreTaken self.now.free_from 8 e.interval.first) }
    {
        match own_rank(calls, e.interval, e.index) {
            Some(rank) if self.is_free(rank, e.interval) => Some(rank),
            _ => self.first_free(lowest_rank(calls, e.interval), e.interval),
        }
    }

    fn take_register(&mut self, e: Entry, rank: usize)
        requires index { e.index < length self.old.homes.items }
        requires rank { rank < 23 }
        ensures homes { self.new.homes.items
            ≡ slice_set self.old.homes.items e.index (Home.Register (register_of rank)) }
        ensures free { self.new.free_from ≡ slice_set self.old.free_from rank (e.interval.last + 1) }
        ensures slots { self.new.slots ≡ self.old.slots }
    {
        take(&mut self.free_from, rank, e.interval);
        self.homes[e.index] = Home::Register(register_of(rank));
    }

    fn take_slot(&mut self, e: Entry)
        requires index { e.index < length self.old.homes.items }
        requires slots { self.old.slots + 1 < 2 ^ 32 }
        ensures homes { self.new.homes.items ≡ slice_set self.old.homes.items e.index (Home.Slot self.old.slots) }
        ensures free { self.new.free_from ≡ self.old.free_from }
        ensures slots { self.new.slots ≡ self.old.slots + 1 }
    {
        self.homes[e.index] = Home::Slot(self.slots);
        self.slots += 1;
    }

    // An interval that holds no instruction needs no register of its own.
    fn place(&mut self, calls: &Calls, e: Entry)
        requires index { e.index < length self.old.homes.items }
        requires slots { self.old.slots + 1 < 2 ^ 32 }
        ensures { (live : List Interval) (done : List Entry) → HasScanned live calls.now.numbers.items done self.old
            → IsNext live done e → HasScanned live calls.now.numbers.items (done ++ e ∷ []) self.new }
    {
        if e.interval.first > e.interval.last {
            self.homes[e.index] = Home::Register(5);
            return;
        }
        match self.rank_for(calls, e) {
            Some(rank) => self.take_register(e, rank),
            None => self.take_slot(e),
        }
    }
}

/// Homes for intervals, for which `check` says true. The calls may come in any order. Slots are counted from 0 on, at
/// most one for each interval, and where at most ten intervals hold each instruction and no call crosses any of them,
/// there is none. An interval that begins at the function's entry or ends at a call is in c10 to c17 only as a
/// parameter in the register that it arrives in, if no call touches it.
pub fn allocate(alloc: Global, live: &Vec<Interval>, calls: &Vec<u32>) -> Result<Places, NoMemory>
    requires { length live.now.items < 2 ^ 32 }
    ensures placed { IfOk result (λ p. IsPlaced live.now.items calls.now.items p.homes) }
    ensures slots { IfOk result (λ p. All (IsSlotBelow (length live.now.items)) p.homes) }
    ensures registers { IsRelaxed live.now.items calls.now.items → IfOk result (λ p. All IsRegister p.homes) }
    ensures arguments { IfOk result (λ p. (i : ℕ) → StaysClearAt live.now.items calls.now.items p.homes i) }
{
    let calls = Calls::new(alloc, calls.as_slice())?;
    let entries = in_order(alloc, live.as_slice())?;
    let mut scan = Scan::new(alloc, live.len())?;
    for e in &entries {
        scan.place(&calls, *e);
    }
    let Scan { homes, .. } = scan;
    Ok(Places {
        homes: Sequence::from_vec(homes),
    })
}
