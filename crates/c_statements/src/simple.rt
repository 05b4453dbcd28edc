//! Expression statements and jumps (C11 6.8.3, 6.8.6).

ghost use Rattle.std.specs.Prelude.{[]};
ghost use Rattle.c_tree.specs.Syntax.{Syn, Syns};
ghost use Rattle.c_tree.specs.Programs.{reading, readings};
ghost use Rattle.c_tree.specs.Statements.{test};
ghost use Rattle.c_expressions.specs.Nodes.{IsWhole};
ghost use Rattle.c_elaborator.specs.Answers.{Answers, quietly, freely, TermThere, IsTerm};
ghost use Rattle.c_elaborator.specs.Parts.{IsPart, AreParts};
ghost use Rattle.c_readings.specs.Within.{PartWithin, PartsWithin};
ghost use Rattle.c_elaborator.specs.Items.{ContextThere, context_in, OnlyThere, IsItems};
ghost use Rattle.c_statements.specs.Statements.{evaluate_one, evaluated, IsJump, jumping, return_of, return_one};

use c_elaborator::{Context, Items, Work, does};
use c_readings::{first_of, only, value_of};
use c_tree::StmtKind;
use ck_base::{MISFIT, NO_TREE, Pos, Refusal};

// The truth value of an expression that is tested (C11 6.8.4.1p1, 6.8.5p2).
pub(crate) fn test(work: &mut Work<'_>, k: u32, depth: u32) -> Result<u32, Refusal>
    requires whole { IsWhole work.old.nodes }
    requires part { PartWithin work.old depth k }
    ensures { (x : Syn) → IsPart work.old k x →
        Answers quietly work.old work.new (test (reading x)) TermThere IsTerm result }
{
    let a = value_of(work, k, depth)?;
    work.condition(a)
}

// An expression that is evaluated for its effects, as a statement with this place.
pub(crate) fn evaluate_one(
    work: &mut Work<'_>,
    k: u32,
    pos: Pos,
    depth: u32,
) -> Result<Items, Refusal>
    requires whole { IsWhole work.old.nodes }
    requires part { PartWithin work.old depth k }
    ensures { (x : Syn) → IsPart work.old k x →
        Answers freely work.old work.new (evaluate_one (reading x) pos) OnlyThere IsItems result }
{
    let a = value_of(work, k, depth)?;
    does(work, StmtKind::Expr(a.node), pos)
}

// An expression statement (C11 6.8.3).
pub(crate) fn evaluate(
    work: &mut Work<'_>,
    kids: &[u32],
    pos: Pos,
    depth: u32,
) -> Result<Items, Refusal>
    requires whole { IsWhole work.old.nodes }
    requires parts { PartsWithin work.old depth kids.now }
    ensures { (xs : Syns) → AreParts work.old kids.now xs →
        Answers freely work.old work.new (evaluated pos (readings xs)) OnlyThere IsItems result }
{
    match only(kids) {
        None => Err(Refusal::Code(NO_TREE, pos)),
        Some(k) => evaluate_one(work, k, pos, depth),
    }
}

// ---- jumps (C11 6.8.6)

// `break` and `continue` stand where they may, else 133.
pub(crate) fn jump(
    work: &mut Work<'_>,
    kind: StmtKind,
    allowed: bool,
    pos: Pos,
) -> Result<Items, Refusal>
    requires whole { IsWhole work.old.nodes }
    requires jumps { IsJump kind }
    ensures { Answers freely work.old work.new (jumping kind allowed pos) OnlyThere IsItems result }
{
    if allowed {
        does(work, kind, pos)
    } else {
        Err(Refusal::Code(MISFIT, pos))
    }
}

// `return` without a value stands in a function that gives none, else 133.
fn return_nothing(work: &mut Work<'_>, context: Context, pos: Pos) -> Result<Items, Refusal>
    requires whole { IsWhole work.old.nodes }
    requires context { ContextThere work.old context }
    ensures { Answers freely work.old work.new
        (return_of (context_in work.old context) pos []) OnlyThere IsItems result }
{
    if work.nodes.is_void(context.gives) {
        does(work, StmtKind::Return(None), pos)
    } else {
        Err(Refusal::Code(MISFIT, pos))
    }
}

// `return` with a value, which is converted as by assignment: 133 in a function that gives none.
fn return_value(
    work: &mut Work<'_>,
    context: Context,
    k: u32,
    pos: Pos,
    depth: u32,
) -> Result<Items, Refusal>
    requires whole { IsWhole work.old.nodes }
    requires context { ContextThere work.old context }
    requires part { PartWithin work.old depth k }
    ensures { (x : Syn) → IsPart work.old k x →
        Answers freely work.old work.new (return_one (context_in work.old context) pos (reading x)) OnlyThere IsItems
        result }
{
    let a = value_of(work, k, depth)?;
    if work.nodes.is_void(context.gives) {
        return Err(Refusal::Code(MISFIT, pos));
    }
    let value = work.assigned(context.gives, a)?;
    does(work, StmtKind::Return(Some(value)), pos)
}

// A `return` (C11 6.8.6.4).
pub(crate) fn return_at(
    work: &mut Work<'_>,
    context: Context,
    kids: &[u32],
    pos: Pos,
    depth: u32,
) -> Result<Items, Refusal>
    requires whole { IsWhole work.old.nodes }
    requires context { ContextThere work.old context }
    requires parts { PartsWithin work.old depth kids.now }
    ensures { (xs : Syns) → AreParts work.old kids.now xs →
        Answers freely work.old work.new (return_of (context_in work.old context) pos (readings xs)) OnlyThere
        IsItems result }
{
    match first_of(kids) {
        None => return_nothing(work, context, pos),
        Some(x) => return_value(work, context, x.first, pos, depth),
    }
}
