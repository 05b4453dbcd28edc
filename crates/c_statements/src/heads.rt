//! What stands in the parentheses of a `for` (C11 6.8.5.3).

ghost use Rattle.std.specs.Prelude.{◌≡◌, ◌<◌, length};
ghost use Rattle.c_tree.specs.Syntax.{Syn};
ghost use Rattle.c_tree.specs.Programs.{reading};
ghost use Rattle.c_tree.specs.Statements.{is_absent, first_part, optional_test, optional_step};
ghost use Rattle.c_expressions.specs.Nodes.{IsWhole};
ghost use Rattle.c_elaborator.specs.Answers.{Answers, quietly, freely};
ghost use Rattle.c_elaborator.specs.Parts.{IsPart};
ghost use Rattle.c_readings.specs.Within.{PartWithin};
ghost use Rattle.c_elaborator.specs.Items.{context_in, ItemsThere, IsItems};
ghost use Rattle.c_statements.specs.Statements.{MaybeThere, IsMaybe, for_head, HeadThere, IsHead};

use crate::declarations::declaration;
use crate::simple::{evaluate_one, test};
use c_elaborator::{Context, Items, Work, no_items};
use c_plain_rules::Head;
use c_readings::{ThreeParts, node_at, value_of};
use c_tree::NodeKind;
use ck_base::Refusal;

// A declaration, an expression as a statement at its first byte, or nothing.
fn first_part(work: &mut Work<'_>, context: Context, k: u32, depth: u32) -> Result<Items, Refusal>
    requires whole { IsWhole work.old.nodes }
    requires part { PartWithin work.old depth k }
    ensures { (x : Syn) → IsPart work.old k x →
        Answers freely work.old work.new (first_part (context_in work.old context) x (reading x)) ItemsThere IsItems
        result }
{
    let node = node_at(work, k);
    match node.kind {
        NodeKind::Declaration => declaration(work, node.kids.as_slice(), node.pos, depth),
        NodeKind::Absent => Ok(no_items(work.nodes.alloc)),
        _ => evaluate_one(work, k, node.first, depth),
    }
}

// Whether a `for` does without an expression.
fn is_absent(work: &Work<'_>, k: u32) -> bool
    requires { k < length work.now.tree.now.nodes }
    ensures { (x : Syn) → IsPart work.now k x → is_absent x ≡ result }
{
    let node = node_at(work, k);
    matches!(node.kind, NodeKind::Absent)
}

// A test, if there is one.
fn optional_test(work: &mut Work<'_>, k: u32, depth: u32) -> Result<Option<u32>, Refusal>
    requires whole { IsWhole work.old.nodes }
    requires part { PartWithin work.old depth k }
    ensures { (x : Syn) → IsPart work.old k x →
        Answers quietly work.old work.new (optional_test x (reading x)) MaybeThere IsMaybe result }
{
    let absent = is_absent(work, k);
    if absent {
        return Ok(None);
    }
    let value = test(work, k, depth)?;
    Ok(Some(value))
}

// A step, if there is one.
fn optional_step(work: &mut Work<'_>, k: u32, depth: u32) -> Result<Option<u32>, Refusal>
    requires whole { IsWhole work.old.nodes }
    requires part { PartWithin work.old depth k }
    ensures { (x : Syn) → IsPart work.old k x →
        Answers quietly work.old work.new (optional_step x (reading x)) MaybeThere IsMaybe result }
{
    let absent = is_absent(work, k);
    if absent {
        return Ok(None);
    }
    let value = value_of(work, k, depth)?;
    Ok(Some(value.node))
}

// What stands in the parentheses, from left to right.
pub(crate) fn for_head(
    work: &mut Work<'_>,
    context: Context,
    parts: ThreeParts,
    depth: u32,
) -> Result<Head, Refusal>
    requires whole { IsWhole work.old.nodes }
    requires first { PartWithin work.old depth parts.first }
    requires second { PartWithin work.old depth parts.second }
    requires third { PartWithin work.old depth parts.third }
    ensures { (x y z : Syn) → IsPart work.old parts.first x → IsPart work.old parts.second y →
        IsPart work.old parts.third z →
        Answers freely work.old work.new (for_head (context_in work.old context) x y z (reading x) (reading y)
        (reading z)) HeadThere IsHead result }
{
    let items = first_part(work, context, parts.first, depth)?;
    let test = optional_test(work, parts.second, depth)?;
    let step = optional_step(work, parts.third, depth)?;
    Ok(Head { items, test, step })
}
