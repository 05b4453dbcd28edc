//! The rules that wait for the end of the file (C11 6.9p5, 6.9.2, 6.5.6p8).

ghost use Rattle.std.specs.Prelude.{◌≡◌, ◌<◌, IfOk, Some, length, slice_get, flat_map};
ghost use Rattle.c_tree.specs.Scopes.{State};
ghost use Rattle.c_tree.specs.Programs.{pending_faults, last_faults, earliest, reaches};
ghost use Rattle.c_elaborator.specs.Work.{Shows, pending_of};
ghost use Rattle.c_plain_parts.specs.Faults.{found, onto};
ghost use Rattle.c_plain_parts.specs.Tables.{AreUses, HasDefinitions};

use c_elaborator::{Waiting, Work};
use c_plain_parts::{Found, Uses, earlier, function_faults, object_faults};
use ck_base::{NO_CONSTANT, NoMemory};

fn reaches(length: Option<u64>, least: i128) -> bool
    ensures { reaches length least ≡ result }
{
    match length {
        None => true,
        Some(n) => i128::from(n) >= least,
    }
}

// An initial pointer was outside an array whose length was not known then (134).
fn waiting_fault(work: &Work<'_>, x: Waiting, rest: Option<Found>) -> Option<Found>
    ensures { (s : State) → Shows work.now s → found result ≡ onto (pending_faults s (pending_of x)) (found rest) }
{
    let length = work.object_length(x.object);
    if reaches(length, x.least) {
        rest
    } else {
        earlier(NO_CONSTANT, x.pos, rest)
    }
}

fn waiting_at(list: &[Waiting], i: usize) -> Waiting
    requires { i < length list.now }
    ensures { slice_get list.now i ≡ Some result }
{
    match list.get(i).copied() {
        Some(x) => x,
        None => unreachable!(),
    }
}

fn waiting_faults(work: &Work<'_>, rest: Option<Found>) -> Option<Found>
    ensures { (s : State) → Shows work.now s →
        found result ≡ onto (flat_map (pending_faults s) s.pending) (found rest) }
{
    let waiting = work.waiting.as_slice();
    let n = waiting.len();
    let mut best = rest;
    for i in 0..n {
        let x = waiting_at(waiting, n - 1 - i);
        best = waiting_fault(work, x, best);
    }
    best
}

/// Of the rules that fail at the end of the file the first in it, or `None`: what is used and not defined (130, C11
/// 6.9p5), an object that is not complete (132, 6.9.2), an initial pointer outside an array (134, 6.5.6p8). Objects or
/// functions that no number of 32 bits counts are want of memory.
pub fn last_fault(
    work: &Work<'_>,
    uses: &Uses,
    definitions: &[Option<u32>],
) -> Result<Option<Found>, NoMemory>
    requires uses { AreUses work.now uses.now }
    requires definitions { HasDefinitions work.now definitions.now }
    ensures { IfOk result (λ best. (s : State) → Shows work.now s → found best ≡ earliest (last_faults s)) }
{
    let of_pointers = waiting_faults(work, None);
    let of_functions = function_faults(work, uses, definitions, of_pointers)?;
    object_faults(work, uses, of_functions)
}
