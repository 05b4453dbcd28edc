//! Homes that are allocated for intervals, and what the check says of homes.

use crate::answers::must_all_hold;
use ck_base::{NoMemory, Sequence};
use reg_alloc::{Home, Interval, Places, allocate, check};
use std::alloc::{AllocError, Global};

const WHOLE: Interval = Interval { first: 0, last: 9 };

const FIRST: Interval = Interval { first: 0, last: 4 };

const LONGER: Interval = Interval { first: 0, last: 5 };

const SECOND: Interval = Interval { first: 5, last: 9 };

const THEN: Interval = Interval { first: 1, last: 9 };

/// What homes are allocated.
#[derive(Clone, Copy)]
enum Wanted {
    /// Different registers.
    Registers,
    Any,
    These(&'static [Home]),
}

/// Intervals and calls, and their homes. There are registers while there are some.
type Allocated = (&'static [Interval], &'static [u32], Wanted);

const ALLOCATED: [Allocated; 4] = [
    (&[], &[], Wanted::Registers),
    (&[WHOLE; 10], &[], Wanted::Registers),
    (&[WHOLE; 11], &[], Wanted::Any),
    (
        &[FIRST, THEN],
        &[6],
        Wanted::These(&[Home::Register(10), Home::Register(8)]),
    ),
];

fn stands_once(homes: &[Home], home: Home) -> bool {
    let mut is_found = false;
    for other in homes {
        if *other == home {
            if is_found {
                return false;
            }
            is_found = true;
        }
    }
    is_found
}

fn are_registers(homes: &[Home]) -> bool {
    for home in homes {
        if !matches!(home, Home::Register(_)) || !stands_once(homes, *home) {
            return false;
        }
    }
    true
}

fn are_wanted(homes: &[Home], wanted: Wanted) -> bool {
    match wanted {
        Wanted::Registers => are_registers(homes),
        Wanted::Any => true,
        Wanted::These(these) => homes == these,
    }
}

/// Whether so many homes are allocated that the check takes, and that are the wanted ones.
fn is_allocated(alloc: Global, &(intervals, calls, wanted): &Allocated) -> Result<bool, NoMemory> {
    if intervals.len() > 11 {
        return Ok(false);
    }
    let live = Vec::from_slice(alloc, intervals)?;
    let calls = Vec::from_slice(alloc, calls)?;
    let places = allocate(alloc, &live, &calls)?;
    let homes = places.homes.as_slice();
    let is_one_each = homes.len() == intervals.len();
    Ok(is_one_each && check(&live, &calls, &places) && are_wanted(homes, wanted))
}

/// The first intervals that have other homes.
fn wrong_allocation(alloc: Global) -> Option<usize> {
    for (at, row) in ALLOCATED.iter().enumerate() {
        if !matches!(is_allocated(alloc, row), Ok(true)) {
            return Some(at);
        }
    }
    None
}

/// Intervals, their homes, calls, and what the check says. Registers are shared one after the other, and an interval
/// has a home.
type Checked = (&'static [Interval], &'static [Home], &'static [u32], bool);

const REGISTER: Home = Home::Register(10);

const CHECKED: [Checked; 4] = [
    (&[FIRST, SECOND], &[REGISTER; 2], &[], true),
    (&[LONGER, SECOND], &[REGISTER; 2], &[], false),
    (&[WHOLE], &[REGISTER], &[4], false),
    (&[THEN], &[], &[], false),
];

/// Whether the check says so of homes.
fn is_checked(
    alloc: Global,
    &(intervals, homes, calls, wanted): &Checked,
) -> Result<bool, AllocError> {
    let live = Vec::from_slice(alloc, intervals)?;
    let calls = Vec::from_slice(alloc, calls)?;
    let homes = Sequence::from_vec(Vec::from_slice(alloc, homes)?);
    Ok(check(&live, &calls, &Places { homes }) == wanted)
}

/// The first homes of which the check says otherwise.
fn wrong_check(alloc: Global) -> Option<usize> {
    for (at, row) in CHECKED.iter().enumerate() {
        if !matches!(is_checked(alloc, row), Ok(true)) {
            return Some(at);
        }
    }
    None
}

#[test]
fn homes_are_allocated_and_checked(rt: HostRuntime) {
    must_all_hold(&rt, "homes", wrong_allocation(rt.alloc()));
    must_all_hold(&rt, "checks", wrong_check(rt.alloc()));
}
