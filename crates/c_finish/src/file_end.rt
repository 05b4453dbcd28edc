//! The end of a file (C11 6.9).

ghost use Rattle.std.specs.Prelude.{Some, None, IfOk};
ghost use Rattle.c_tree.specs.Syntax.{Syn};
ghost use Rattle.c_tree.specs.Scopes.{State};
ghost use Rattle.c_tree.specs.Passed.{call_name, calls_in};
ghost use Rattle.c_tree.specs.Programs.{last_faults, earliest, ended};
ghost use Rattle.c_expressions.specs.Nodes.{IsWhole};
ghost use Rattle.c_elaborator.specs.Work.{Shows};
ghost use Rattle.c_passing.specs.Named.{HasSyntax};
ghost use Rattle.c_plain_rules.specs.MainFunction.{IsMain};
ghost use Rattle.c_plain_rules.specs.Tables.{HasDefinitions};
ghost use Rattle.c_finish.specs.Finished.{Finished, IsShown, IsFaultless, IsSyntax, IsAssembled, AreParts, EndsIn};

use crate::numbering::new_numbers;
use crate::objects::objects;
use crate::routines::routines;
use crate::tables::{first_uses, last_definitions, last_fillings};
use c_copy::Numbers;
use c_elaborator::Work;
use c_passing::pass;
use c_plain_rules::{last_fault, main_of};
use c_tree::{FunDef, GlobalDef, Typed};
use ck_base::{NO_MAIN, NoMemory, Pos, Refusal, Sequence};

/// What the end of a file makes for the written program.
#[derive(Drop)]
pub(crate) struct Parts {
    pub numbers: Numbers,
    pub globals: Vec<GlobalDef>,
    pub funs: Vec<FunDef>,
    pub main: u32,
}

// The written program of a work with these parts, whose expressions get the new numbers where they stand.
fn assembled(work: Work<'_>, parts: Parts) -> Typed
    ensures { IsAssembled work.entry parts result }
{
    let Parts {
        numbers,
        globals,
        funs,
        main,
    } = parts;
    let p = work.nodes.p;
    let mut exprs = p.exprs.into_vec();
    numbers.renumber(&mut exprs);
    Typed {
        types: p.types,
        globals: Sequence::from_vec(globals),
        literals: p.literals,
        funs: Sequence::from_vec(funs),
        exprs: Sequence::from_vec(exprs),
        stmts: p.stmts,
        main,
    }
}

// The parts of the program as it is written.
fn parts_of(work: &Work<'_>, definitions: &[Option<u32>], main: u32) -> Result<Parts, NoMemory>
    requires definitions { HasDefinitions work.now definitions.now }
    requires main { IsMain work.now (Some main) }
    requires shown { IsShown work.now }
    requires faultless { IsFaultless work.now }
    ensures { IfOk result (AreParts work.now) }
{
    let numbers = new_numbers(work, definitions)?;
    let main = numbers.function(main);
    let fillings = last_fillings(work)?;
    let globals = objects(work, &numbers, fillings.as_slice())?;
    let funs = routines(work, definitions)?;
    Ok(Parts {
        numbers,
        globals,
        funs,
        main,
    })
}

// The parts, where no rule waits that fails: 135 where no `main` is defined.
fn ending(work: &Work<'_>, definitions: &[Option<u32>]) -> Result<Parts, Refusal>
    requires definitions { HasDefinitions work.now definitions.now }
    requires shown { IsShown work.now }
    requires faultless { IsFaultless work.now }
    ensures { EndsIn work.now (λ s. None) result }
{
    let found = main_of(work, definitions)?;
    match found {
        None => Err(Refusal::Code(NO_MAIN, Pos { line: 1, col: 1 })),
        Some(main) => {
            let p = parts_of(work, definitions, main)?;
            Ok(p)
        }
    }
}

// The parts, or the first rule that fails.
fn parts_at_end(work: &Work<'_>) -> Result<Parts, Refusal>
    requires whole { IsWhole work.now.nodes }
    requires shown { IsShown work.now }
    ensures { EndsIn work.now (λ s. earliest (last_faults s)) result }
{
    let uses = first_uses(work)?;
    let definitions = last_definitions(work)?;
    let first = last_fault(work, &uses, definitions.as_slice())?;
    match first {
        Some(fault) => Err(Refusal::Code(fault.code, fault.pos)),
        None => ending(work, definitions.as_slice()),
    }
}

/// The finished program, or the first rule in the file that fails at its end (130, 132, 134), or 135 at the first byte
/// where no `main` is defined.
pub fn finish(work: Work<'_>) -> Result<Typed, Refusal>
    requires whole { IsWhole work.nodes }
    requires shown { IsShown work }
    requires syntax { HasSyntax work.tree.now }
    ensures { (s : State) (x : Syn) → Shows work.entry s → IsSyntax work.entry x →
        Finished (ended (call_name (calls_in x)) (earliest (last_faults s)) s) result }
{
    match parts_at_end(&work) {
        Err(refusal) => Err(refusal),
        Ok(parts) => {
            let alloc = work.nodes.alloc;
            let tree = work.tree;
            let written = assembled(work, parts);
            let p = pass(alloc, written, tree)?;
            Ok(p)
        }
    }
}
