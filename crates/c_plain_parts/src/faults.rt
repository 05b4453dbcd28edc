//! The rules on objects and functions that wait for the end of the file (C11 6.9p5, 6.9.2).

ghost use Rattle.std.specs.Prelude.{◌≡◌, ◌<◌, IfOk, Some, length, slice_get, flat_map};
ghost use Rattle.c_tree.specs.Scopes.{State, StaticState, RoutineState};
ghost use Rattle.c_tree.specs.Programs.{static_faults, routine_faults};
ghost use Rattle.c_elaborator.specs.Work.{Shows};
ghost use Rattle.c_plain_parts.specs.Faults.{found, onto};
ghost use Rattle.c_plain_parts.specs.Tables.{AreUses, HasDefinitions};

use crate::found::{Found, earlier, undefined};
use crate::tables::{Uses, count, definition, global_at};
use c_elaborator::Work;
use ck_base::{INCOMPLETE_TYPE, NoMemory};

// What fails of an object: it is not complete (132), or it is used and not defined (130).
fn object_fault(work: &Work<'_>, uses: &Uses, k: u32, rest: Option<Found>) -> Option<Found>
    requires uses { AreUses work.now uses.now }
    requires there { k < length work.now.nodes.p.globals }
    ensures { (s : State) (g : StaticState) → Shows work.now s → slice_get s.statics k ≡ Some g →
        found result ≡ onto (static_faults s g) (found rest) }
{
    let used = uses.object(k);
    let best = undefined(work.nodes.scopes.is_defined(k), used, rest);
    let g = global_at(work, k);
    if work.nodes.scopes.is_complete(&work.nodes.p, g.of) {
        best
    } else {
        earlier(INCOMPLETE_TYPE, g.pos, best)
    }
}

/// What fails of the objects, before what fails behind them.
pub fn object_faults(
    work: &Work<'_>,
    uses: &Uses,
    rest: Option<Found>,
) -> Result<Option<Found>, NoMemory>
    requires { AreUses work.now uses.now }
    ensures { IfOk result (λ best. (s : State) → Shows work.now s →
        found best ≡ onto (flat_map (static_faults s) s.statics) (found rest)) }
{
    let n = count(work.nodes.p.globals.as_slice().len())?;
    let mut best = rest;
    for i in 0..n {
        best = object_fault(work, uses, n - 1 - i, best);
    }
    Ok(best)
}

// A function is used and not defined (130).
fn function_fault(
    work: &Work<'_>,
    uses: &Uses,
    definitions: &[Option<u32>],
    k: u32,
    rest: Option<Found>,
) -> Option<Found>
    requires uses { AreUses work.now uses.now }
    requires definitions { HasDefinitions work.now definitions.now }
    requires there { k < length work.now.nodes.p.funs }
    ensures { (s : State) (f : RoutineState) → Shows work.now s → slice_get s.routines k ≡ Some f →
        found result ≡ onto (routine_faults f) (found rest) }
{
    let used = uses.function(k);
    let found = definition(work, definitions, k);
    match found {
        None => undefined(false, used, rest),
        Some(_) => undefined(true, used, rest),
    }
}

/// What fails of the functions, before what fails behind them.
pub fn function_faults(
    work: &Work<'_>,
    uses: &Uses,
    definitions: &[Option<u32>],
    rest: Option<Found>,
) -> Result<Option<Found>, NoMemory>
    requires uses { AreUses work.now uses.now }
    requires definitions { HasDefinitions work.now definitions.now }
    ensures { IfOk result (λ best. (s : State) → Shows work.now s →
        found best ≡ onto (flat_map routine_faults s.routines) (found rest)) }
{
    let n = count(work.nodes.p.funs.as_slice().len())?;
    let mut best = rest;
    for i in 0..n {
        best = function_fault(work, uses, definitions, n - 1 - i, best);
    }
    Ok(best)
}
