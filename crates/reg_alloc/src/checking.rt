//! The check of homes.
ghost use Rattle.std.specs.Prelude.{◌≡◌, ◌<◌, ◌≤◌, ℕ, ◌↔◌, length, IsTrue};
ghost use Rattle.reg_alloc.specs.Placed.{IsCrossed, IsUsable, IsKept, Fits, FitsAt, Meet, ApartAt, IsPlaced};

use crate::intervals::Interval;
use crate::places::{Home, Places};

// Whether some call crosses an interval.
fn is_crossed(calls: &[u32], v: Interval) -> bool
    ensures { IsTrue result ↔ IsCrossed calls.now v }
{
    calls.iter().any(|c| v.first < *c && *c < v.last)
}

fn is_usable(register: u8) -> bool
    ensures { IsTrue result ↔ IsUsable register }
{
    5 <= register && register <= 27
}

fn is_kept(register: u8) -> bool
    ensures { IsTrue result ↔ IsKept register }
{
    register == 8 || register == 9 || 18 <= register && register <= 27
}

fn fits(calls: &[u32], v: Interval, home: Home) -> bool
    ensures { IsTrue result ↔ Fits calls.now v home }
{
    match home {
        Home::Register(r) => is_usable(r) && (is_kept(r) || !is_crossed(calls, v)),
        Home::Slot(_) => true,
    }
}

fn all_fit(live: &[Interval], calls: &[u32], homes: &[Home]) -> bool
    requires { length homes.now ≡ length live.now }
    ensures { IsTrue result ↔ ((i : ℕ) → FitsAt live.now calls.now homes.now i) }
{
    for i in 0..live.len() {
        if !fits(calls, live[i], homes[i]) {
            return false;
        }
    }
    true
}

// Whether two intervals hold a common instruction.
fn meet(v: Interval, w: Interval) -> bool
    ensures { IsTrue result ↔ Meet v w }
{
    v.first.max(w.first) <= v.last.min(w.last)
}

fn is_apart(live: &[Interval], homes: &[Home], i: usize, j: usize) -> bool
    requires one_each { length homes.now ≡ length live.now }
    requires first { i < length live.now }
    requires second { j < length live.now }
    ensures { IsTrue result ↔ ApartAt live.now homes.now i j }
{
    !meet(live[i], live[j]) || homes[i] != homes[j]
}

// Whether an interval is apart from each one before it.
fn is_apart_from_earlier(live: &[Interval], homes: &[Home], i: usize) -> bool
    requires one_each { length homes.now ≡ length live.now }
    requires index { i < length live.now }
    ensures { IsTrue result ↔ ((j : ℕ) → j < i → ApartAt live.now homes.now i j) }
{
    for j in 0..i {
        if !is_apart(live, homes, i, j) {
            return false;
        }
    }
    true
}

fn all_apart(live: &[Interval], homes: &[Home]) -> bool
    requires { length homes.now ≡ length live.now }
    ensures { IsTrue result ↔ ((i j : ℕ) → j < i → i < length live.now → ApartAt live.now homes.now i j) }
{
    for i in 0..live.len() {
        if !is_apart_from_earlier(live, homes, i) {
            return false;
        }
    }
    true
}

/// Whether there is one home for each interval, two intervals that hold a common instruction have different homes, no
/// interval that a call crosses stands in a register that the callee may change, and every register is one that the
/// allocator may use, c5 to c27.
///
/// It takes no memory, and compares each pair of intervals. The compiler doesn't call it: what it tests is proved of
/// the homes that `allocate` gives.
pub fn check(live: &Vec<Interval>, calls: &Vec<u32>, places: &Places) -> bool
    ensures { IsTrue result ↔ IsPlaced live.now.items calls.now.items places.now.homes }
{
    let live = live.as_slice();
    let calls = calls.as_slice();
    let homes = places.homes.as_slice();
    homes.len() == live.len() && all_fit(live, calls, homes) && all_apart(live, homes)
}
