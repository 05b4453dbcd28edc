//! The whole program as it is run.

ghost use Rattle.std.specs.Prelude.{◌≡◌, true, IfOk, OnOk, map};
ghost use Rattle.c_tree.specs.Views.{IsOrdered};
ghost use Rattle.c_copy.specs.Copying.{Extends};
ghost use Rattle.plain_programs.specs.Plain.{IsPlain};
ghost use Rattle.c_passing.specs.Named.{HasSyntax};
ghost use Rattle.c_passing.specs.Routines.{written_routine, HaveBodies, AreFunctions, IsObject, AreObjects};
ghost use Rattle.c_passing.specs.Routines.{IsPassedProgram};

use crate::functions::{Whole, function};
use crate::names::names_of;
use crate::types::{listed, types_of};
use c_tree::{FunDef, GlobalDef, Tree, Typed};
use ck_base::{NoMemory, Sequence};
use ordered_programs::is_ordered;
use passing_steps::{Made, number_in};
use plain_programs::is_plain;
use std::alloc::Global;

fn functions(whole: &Whole<'_>, out: &mut Made) -> Result<Vec<FunDef>, NoMemory>
    requires { HaveBodies whole.now.program.now }
    ensures { IfOk result (λ fs. AreFunctions whole.now
        (map (written_routine whole.now) whole.now.program.now.funs) out.old out.new fs.items) }
{
    let mut list = Vec::new(whole.alloc);
    for f in whole.program.funs.as_slice() {
        let f = function(whole, f, out)?;
        list.push(f)?;
    }
    Ok(list)
}

// An object with its type as it is run.
fn object(alloc: Global, numbers: &[u32], g: &GlobalDef) -> Result<GlobalDef, NoMemory>
    ensures { IfOk result (IsObject numbers.now g.now) }
{
    let of = number_in(numbers, g.of);
    let bytes = Vec::from_slice(alloc, g.bytes.as_slice())?;
    let links = Vec::from_slice(alloc, g.links.as_slice())?;
    Ok(GlobalDef {
        name: g.name,
        pos: g.pos,
        of,
        bytes: Sequence::from_vec(bytes),
        links: Sequence::from_vec(links),
    })
}

fn objects(
    alloc: Global,
    numbers: &[u32],
    globals: &[GlobalDef],
) -> Result<Vec<GlobalDef>, NoMemory>
    ensures { IfOk result (λ v. AreObjects numbers.now globals.now v.items) }
{
    let mut list = Vec::new(alloc);
    for g in globals {
        let g = object(alloc, numbers, g)?;
        list.push(g)?;
    }
    Ok(list)
}

// The program with structs and unions by pointers.
fn with_pointers(alloc: Global, p: Typed, tree: &Tree) -> Result<Typed, NoMemory>
    requires syntax { HasSyntax tree.now }
    requires bodies { HaveBodies p }
    ensures { IfOk result (IsPassedProgram tree.now p) }
{
    let names = names_of(alloc, tree)?;
    let types = types_of(alloc, p.types.as_slice())?;
    let mut out = Made {
        exprs: Vec::new(alloc),
        stmts: Vec::new(alloc),
        vars: Vec::new(alloc),
    };
    let whole = Whole {
        alloc,
        program: &p,
        types: &types,
        names: &names,
    };
    let funs = functions(&whole, &mut out)?;
    let objects = objects(alloc, types.numbers.as_slice(), p.globals.as_slice())?;
    let list = listed(alloc, &types)?;
    Ok(Typed {
        types: Sequence::from_vec(list),
        globals: Sequence::from_vec(objects),
        literals: p.literals,
        funs: Sequence::from_vec(funs),
        exprs: Sequence::from_vec(out.exprs),
        stmts: Sequence::from_vec(out.stmts),
        main: p.main,
    })
}

// Whether a program is run as it is written: no struct or union goes by value, and its numbers are in order.
fn is_unchanged(alloc: Global, p: &Typed) -> Result<bool, NoMemory>
    ensures { IfOk result (λ b. b ≡ true → IsOrdered p.now × IsPlain p.now) }
{
    if !is_plain(p) {
        return Ok(false);
    }
    is_ordered(alloc, p)
}

/// The program that is run in the place of one that is typed as it is written. Structs and unions go to functions and
/// come back by pointers, through hidden locals, which have the names of the calls in the file's tree. Where none goes
/// by value and all numbers are in order, it is the program itself.
pub fn pass(alloc: Global, p: Typed, tree: &Tree) -> Result<Typed, NoMemory>
    requires syntax { HasSyntax tree.now }
    requires bodies { HaveBodies p }
    ensures { IfOk result (IsPassedProgram tree.now p) }
{
    let unchanged = is_unchanged(alloc, &p)?;
    if unchanged {
        return Ok(p);
    }
    with_pointers(alloc, p, tree)
}
