//! External declarations, and the typed program of a file's tree (C11 6.9).

ghost use Rattle.std.specs.Prelude.{◌≡◌, ◌≤◌, length};
ghost use Rattle.ck_base.specs.Tokens.{Lexeme};
ghost use Rattle.c_tree.specs.Syntax.{Syn, Syns};
ghost use Rattle.c_tree.specs.Programs.{reading, readings, external_of, all_externals};
ghost use Rattle.c_tree.specs.Typing.{Reads};
ghost use Rattle.c_expressions.specs.Nodes.{IsWhole};
ghost use Rattle.c_elaborator.specs.Answers.{Answers, freely, NothingThere, IsNothing};
ghost use Rattle.c_elaborator.specs.Parts.{IsPart, AreParts};
ghost use Rattle.c_readings.specs.Within.{PartWithin, PartsWithin};
ghost use Rattle.c_elab.specs.Elaborated.{HasReading, Elaborated};
ghost use Rattle.c_elab.specs.Functions.{HasState};

use crate::functions::function_definition;
use c_elaborator::Work;
use c_finish::finish;
use c_plain_rules::greatest_depth;
use c_readings::{first_of, node_at};
use c_statements::declaration;
use c_tree::{NodeKind, Tree, Typed};
use ck_base::{Pos, Refusal};
use std::alloc::Global;

// A declaration of the file.
fn declare(work: &mut Work<'_>, kids: &[u32], pos: Pos, depth: u32) -> Result<(), Refusal>
    requires whole { IsWhole work.old.nodes }
    requires parts { PartsWithin work.old depth kids.now }
    ensures { (t : Lexeme) (xs : Syns) → t.pos ≡ pos → AreParts work.old kids.now xs →
        Answers freely work.old work.new (external_of NodeKind.Declaration t xs (readings xs)) NothingThere IsNothing
        result }
{
    let _ = declaration(work, kids, pos, depth)?;
    Ok(())
}

// An external declaration (C11 6.9).
fn external(work: &mut Work<'_>, k: u32, depth: u32) -> Result<(), Refusal>
    requires whole { IsWhole work.old.nodes }
    requires part { PartWithin work.old depth k }
    requires shown { HasState work.old }
    ensures { (x : Syn) → IsPart work.old k x →
        Answers freely work.old work.new (reading x).external NothingThere IsNothing result }
{
    let node = node_at(work, k);
    match node.kind {
        NodeKind::FunctionDefinition => {
            function_definition(work, node.kids.as_slice(), node.pos, depth)
        }
        NodeKind::Declaration => declare(work, node.kids.as_slice(), node.pos, depth),
        _ => Ok(()),
    }
}

// All external declarations, in the order of the file.
fn all_externals(work: &mut Work<'_>, kids: &[u32], depth: u32) -> Result<(), Refusal>
    requires whole { IsWhole work.old.nodes }
    requires parts { PartsWithin work.old depth kids.now }
    requires shown { HasState work.old }
    ensures { (xs : Syns) → AreParts work.old kids.now xs →
        Answers freely work.old work.new (all_externals (readings xs)) NothingThere IsNothing result }
{
    let mut left = kids;
    while let Some(part) = first_of(left) {
        external(work, part.first, depth)?;
        left = part.others;
    }
    Ok(())
}

/// The typed program of a file's tree (C11 6.5 to 6.9), or the first rule that fails: 130 to 136 and 140.
pub fn elab(alloc: Global, tree: &Tree, file: &[u8]) -> Result<Typed, Refusal>
    requires few { length tree.now.nodes ≤ 67_108_864 }
    requires readable { HasReading tree.now file.now }
    ensures { (x : Syn) → Reads tree.now file.now x → Elaborated x result }
{
    let mut work = Work::new(alloc, file, tree)?;
    let depth = greatest_depth(&work);
    let root = node_at(&work, tree.root);
    all_externals(&mut work, root.kids.as_slice(), depth)?;
    finish(work)
}
