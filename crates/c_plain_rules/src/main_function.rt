//! The function `main` (C11 5.1.2.2.1).

ghost use Rattle.std.specs.Prelude.{◌≡◌, ◌<◌, ◌&&◌, if◌then◌else◌, Some, IfOk, length, slice_get};
ghost use Rattle.c_tree.specs.Scopes.{State, RoutineState};
ghost use Rattle.c_tree.specs.Programs.{is_main};
ghost use Rattle.c_elaborator.specs.Work.{Shows};
ghost use Rattle.c_plain_parts.specs.MainFunction.{IsMain};
ghost use Rattle.c_plain_parts.specs.Tables.{HasDefinitions};

use c_elaborator::Work;
use c_plain_parts::{count, definition, function_at, is_main_type, is_named_main};
use ck_base::NoMemory;

fn is_main(work: &Work<'_>, definitions: &[Option<u32>], k: u32) -> bool
    requires definitions { HasDefinitions work.now definitions.now }
    requires there { k < length work.now.nodes.p.funs }
    ensures { (s : State) (r : RoutineState) → Shows work.now s → slice_get s.routines k ≡ Some r → is_main r ≡ result }
{
    let f = function_at(work, k);
    let text = work.nodes.scopes.text(f.name);
    let is_named = is_named_main(text);
    let is_typed = is_main_type(work.nodes.p.types.as_slice(), f.of);
    let found = definition(work, definitions, k);
    match found {
        None => false,
        Some(_) => both(is_named, is_typed),
    }
}

fn both(a: bool, b: bool) -> bool
    ensures { (a && b) ≡ result }
{
    a && b
}

fn main_or(test: bool, k: u32, found: Option<u32>) -> Option<u32>
    ensures { result ≡ (if test then Some k else found) }
{
    if test { Some(k) } else { found }
}

/// The number of the first function that is `main`: defined, of this name and of the type `int(void)` (C11 5.1.2.2.1).
/// `None` where there is none; functions that no number of 32 bits counts are want of memory.
pub fn main_of(work: &Work<'_>, definitions: &[Option<u32>]) -> Result<Option<u32>, NoMemory>
    requires { HasDefinitions work.now definitions.now }
    ensures { IfOk result (IsMain work.now) }
{
    let n = count(work.nodes.p.funs.as_slice().len())?;
    let mut found = None;
    for i in 0..n {
        let k = n - 1 - i;
        let test = is_main(work, definitions, k);
        found = main_or(test, k, found);
    }
    Ok(found)
}
