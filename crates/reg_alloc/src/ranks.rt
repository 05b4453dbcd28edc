//! The registers of the allocator, by rank: the order in which it tries them.
ghost use Rattle.std.specs.Prelude.{◌≡◌, ◌<◌, ◌≤◌, IfSome};
ghost use Rattle.reg_alloc.specs.Crossing.{IsCrossed, IsPassed};
ghost use Rattle.reg_alloc.specs.Ranks.{register_of, IsOwnRank};

use crate::calls::Calls;
use crate::intervals::Interval;

/// The number of registers that the allocator may use.
pub const RANKS: usize = 23;

/// The first rank of a register that takes no argument, and of one that the callee keeps.
const NO_ARGUMENT: usize = 8;

const KEPT: usize = 11;

/// The register of a rank: c17 down to c10, which take arguments; c5 to c7; then c8, c9 and c18 to c27, which the
/// callee keeps.
#[tactic(auto, unfolding(crate::specs::Ranks::register_of))]
pub fn register_of(rank: usize) -> u8
    requires { rank < 23 }
    ensures { result ≡ register_of rank }
{
    if rank < 8 {
        17 - rank as u8
    } else if rank < 13 {
        rank as u8 - 3
    } else {
        rank as u8 + 5
    }
}

/// The first rank that an interval may have. One that a call crosses needs a register that the callee keeps. One that
/// begins at the entry or ends at a call is perhaps an argument: it stays clear of the registers that take arguments,
/// so that none is in the way of another.
pub fn lowest_rank(calls: &Calls, v: Interval) -> usize
    ensures crossed { IsCrossed calls.now.numbers.items v → 11 ≤ result }
    ensures passed { IsPassed calls.now.numbers.items v → 8 ≤ result }
    ensures only_crossed { 8 < result → IsCrossed calls.now.numbers.items v }
    ensures within { result < 23 }
{
    if calls.cross(v) {
        KEPT
    } else if v.first == 0 || calls.has(v.last) {
        NO_ARGUMENT
    } else {
        0
    }
}

/// The rank of the register that a parameter arrives in, where no call touches the parameter.
pub fn own_rank(calls: &Calls, v: Interval, index: usize) -> Option<usize>
    ensures { IfSome result (IsOwnRank calls.now.numbers.items v index) }
{
    if v.first == 0 && index < 8 && !calls.has(v.last) && !calls.cross(v) {
        Some(7 - index)
    } else {
        None
    }
}
