//! The numbers of the objects and functions that are defined.

ghost use Rattle.std.specs.Prelude.{IfOk, ◌≡◌, ◌+◌, ◌<◌, ℕ, length, slice_index_or, if◌then◌else◌};
ghost use Rattle.c_tree.specs.Scopes.{State};
ghost use Rattle.c_tree.specs.Programs.{numbers_of, is_there};
ghost use Rattle.c_elaborator.specs.Work.{Shows, definition_of};
ghost use Rattle.c_plain_rules.specs.Tables.{HasDefinitions};
ghost use Rattle.c_finish.specs.Finished.{HaveNumbers};

use c_copy::Numbers;
use c_elaborator::Work;
use c_plain_rules::{count, definition};
use ck_base::NoMemory;

fn one_more(test: bool, n: u32) -> u32
    requires { n < u32.MAX }
    ensures { result ≡ (if test then n + 1 else n) }
{
    if test { n + 1 } else { n }
}

// The new number of each object, and how many there are: the number of any that stands behind them.
fn numbers_of_objects(work: &Work<'_>) -> Result<(Vec<u32>, u32), NoMemory>
    ensures { IfOk result (λ t. (s : State) → Shows work.now s → (k : ℕ) →
        (numbers_of s).0 k ≡ slice_index_or t.0.items k t.1) }
{
    let n = count(work.nodes.p.globals.as_slice().len())?;
    let mut table = Vec::new(work.nodes.alloc);
    let mut next: u32 = 0;
    for k in 0..n {
        table.push(next)?;
        next = one_more(work.nodes.scopes.is_defined(k), next);
    }
    Ok((table, next))
}

// The same of functions.
fn numbers_of_functions(
    work: &Work<'_>,
    definitions: &[Option<u32>],
) -> Result<(Vec<u32>, u32), NoMemory>
    requires { HasDefinitions work.now definitions.now }
    ensures { IfOk result (λ t. (s : State) → Shows work.now s → (k : ℕ) →
        (numbers_of s).1 k ≡ slice_index_or t.0.items k t.1) }
{
    let n = count(work.nodes.p.funs.as_slice().len())?;
    let mut table = Vec::new(work.nodes.alloc);
    let mut next: u32 = 0;
    for k in 0..n {
        table.push(next)?;
        let is_there = is_defined(work, definitions, k);
        next = one_more(is_there, next);
    }
    Ok((table, next))
}

// Whether a function has a body.
fn is_defined(work: &Work<'_>, definitions: &[Option<u32>], k: u32) -> bool
    requires definitions { HasDefinitions work.now definitions.now }
    requires there { k < length work.now.nodes.p.funs }
    ensures { is_there (definition_of k work.now.definitions.items) ≡ result }
{
    let found = definition(work, definitions, k);
    match found {
        None => false,
        Some(_) => true,
    }
}

/// The new numbers of objects and functions.
pub(crate) fn new_numbers(work: &Work<'_>, definitions: &[Option<u32>]) -> Result<Numbers, NoMemory>
    requires { HasDefinitions work.now definitions.now }
    ensures { IfOk result (HaveNumbers work.now) }
{
    let (objects, object_count) = numbers_of_objects(work)?;
    let (functions, function_count) = numbers_of_functions(work, definitions)?;
    Ok(Numbers {
        objects,
        functions,
        object_count,
        function_count,
    })
}
