//! The functions of the finished program (C11 6.9.1).

ghost use Rattle.std.specs.Prelude.{◌≡◌, ◌<◌, Some, IfOk, OnOk, length};
ghost use Rattle.c_tree.specs.Scopes.{State};
ghost use Rattle.c_elaborator.specs.Work.{Shows};
ghost use Rattle.c_plain_rules.specs.Tables.{HasDefinitions};
ghost use Rattle.c_finish.specs.Finished.{IsShown, AreRoutines, IsRoutine, AddsRoutine, BodiesThere};
ghost use Rattle.c_elaborator.specs.Work.{definition_of};

use c_elaborator::{Definition, Work};
use c_plain_rules::{count, definition, function_at};
use c_tree::{FunDef, VarDef};
use ck_base::{NoMemory, Sequence};
use std::alloc::Global;

fn numbers(alloc: Global, xs: &[u32]) -> Result<Vec<u32>, NoMemory>
    ensures { IfOk result (λ v. v.items ≡ xs.now) }
{
    let v = Vec::from_slice(alloc, xs)?;
    Ok(v)
}

fn variables(alloc: Global, xs: &[VarDef]) -> Result<Vec<VarDef>, NoMemory>
    ensures { IfOk result (λ v. v.items ≡ xs.now) }
{
    let v = Vec::from_slice(alloc, xs)?;
    Ok(v)
}

// A function that is defined.
fn routine(work: &Work<'_>, k: u32, d: &Definition) -> Result<FunDef, NoMemory>
    requires definition { definition_of k work.now.definitions.items ≡ Some d.now }
    requires there { k < length work.now.nodes.p.funs }
    requires shown { IsShown work.now }
    ensures there { IfOk result (λ f. f.body < length work.now.nodes.p.stmts) }
    ensures is { IfOk result (IsRoutine work.now k) }
{
    let alloc = work.nodes.alloc;
    let params = numbers(alloc, d.params.as_slice())?;
    let vars = variables(alloc, d.vars.as_slice())?;
    let f = function_at(work, k);
    Ok(FunDef {
        name: f.name,
        pos: f.pos,
        of: f.of,
        params: Sequence::from_vec(params),
        vars: Sequence::from_vec(vars),
        body: d.body,
    })
}

// One function more, if it is defined.
fn add_routine(
    work: &Work<'_>,
    definitions: &[Option<u32>],
    k: u32,
    list: &mut Vec<FunDef>,
) -> Result<(), NoMemory>
    requires definitions { HasDefinitions work.now definitions.now }
    requires there { k < length work.now.nodes.p.funs }
    requires shown { IsShown work.now }
    ensures adds { OnOk result (AddsRoutine work.now k list.old.items list.new.items) }
    ensures bodies { OnOk result (BodiesThere work.now list.old.items → BodiesThere work.now list.new.items) }
{
    let found = definition(work, definitions, k);
    match found {
        None => Ok(()),
        Some(d) => {
            let f = routine(work, k, d)?;
            list.push(f)?;
            Ok(())
        }
    }
}

/// The functions that are defined. Their bodies are statements of the work.
pub(crate) fn routines(
    work: &Work<'_>,
    definitions: &[Option<u32>],
) -> Result<Vec<FunDef>, NoMemory>
    requires definitions { HasDefinitions work.now definitions.now }
    requires shown { IsShown work.now }
    ensures are { IfOk result (λ fs. (s : State) → Shows work.now s →
        AreRoutines work.now s (length s.routines) fs.items) }
    ensures bodies { IfOk result (λ fs. BodiesThere work.now fs.items) }
{
    let n = count(work.nodes.p.funs.as_slice().len())?;
    let mut list = Vec::new(work.nodes.alloc);
    for k in 0..n {
        add_routine(work, definitions, k, &mut list)?;
    }
    Ok(list)
}
