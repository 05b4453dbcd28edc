//! Statements (C11 6.8). `depth` bounds how deep they go.

ghost use Rattle.std.specs.Prelude.{◌≡◌, ◌<◌, ◌∷◌, [], length};
ghost use Rattle.ck_base.specs.Tokens.{Lexeme};
ghost use Rattle.c_tree.specs.declared.syntax.NodeKind.TheVariants as kinds;
ghost use Rattle.c_tree.specs.Syntax.{Syn, Syns, node as syntax};
ghost use Rattle.c_tree.specs.Scopes.{in_scope};
ghost use Rattle.c_tree.specs.Programs.{reading, readings};
ghost use Rattle.c_tree.specs.Statements.{all_items, substatement, statement_of, switch_item, switch_items, no_cases};
ghost use Rattle.c_expressions.specs.Nodes.{IsWhole, type_in, type_count};
ghost use Rattle.c_elaborator.specs.Answers.{Answers, freely};
ghost use Rattle.c_elaborator.specs.Parts.{IsPart, AreParts, IsStatement, PartsFit};
ghost use Rattle.c_readings.specs.Within.{PartWithin, PartsWithin, PartThat, PartsThat, NodeWithin};
ghost use Rattle.c_readings.specs.Kids.{IsNode};
ghost use Rattle.c_elaborator.specs.Items.{ContextThere, context_in, ItemsThere, OnlyThere, IsItems, ActionThere};
ghost use Rattle.c_elaborator.specs.Items.{IsOnlyAction};
ghost use Rattle.c_statements.specs.Only.{ItemThere};
ghost use Rattle.c_statements.specs.Statements.{CasesThere, IsCases, cases_in, block_of, if_of, if_with, if_else_of};
ghost use Rattle.c_statements.specs.Statements.{if_else_with, while_of, while_with, do_of, do_with, for_in, for_with};
ghost use Rattle.c_statements.specs.Statements.{switch_in, switch_with, inside_of, further};
ghost use Rattle.c_tree.specs.Statements as meant;

use crate::declarations::declaration;
use crate::four::{FourParts, four};
use crate::heads::for_head;
use crate::labels::{labelled, switched};
use crate::simple::{evaluate, jump, return_at, test};
use c_elaborator::{Context, Items, Work, does, enter, join, leave, no_items};
use c_plain_rules::{Cases, for_kind, in_a_loop, in_a_switch, switch_kind, with_items};
use c_readings::{first_of, node_at, only, three, two};
use c_tree::{Node, NodeKind, StmtKind};
use ck_base::{NO_TREE, Pos, Refusal, Sequence};
use indexmap::IndexMap;

// The statement that is given alone.
fn alone(actions: &[u32]) -> u32
    requires { length actions.now ≡ 1 }
    ensures { actions.now ≡ result ∷ [] }
{
    match only(actions) {
        None => unreachable!(),
        Some(k) => k,
    }
}

/// A declaration or a statement of a block.
#[cycle(statements)]
pub fn item(work: &mut Work<'_>, context: Context, k: u32, depth: u32) -> Result<Items, Refusal>
    requires whole { IsWhole work.old.nodes }
    requires context { ContextThere work.old context }
    requires part { PartWithin work.old depth k }
    ensures { (x : Syn) → IsPart work.old k x →
        Answers freely work.old work.new ((reading x).item (context_in work.old context)) (ItemThere x) IsItems result }
{
    let node = node_at(work, k);
    statement(work, context, node, depth - 1)
}

// The statement of a node, by its kind.
#[cycle(statements)]
fn statement(
    work: &mut Work<'_>,
    context: Context,
    node: &Node,
    depth: u32,
) -> Result<Items, Refusal>
    requires whole { IsWhole work.old.nodes }
    requires context { ContextThere work.old context }
    requires node { NodeWithin work.old depth node.now }
    ensures { (t : Lexeme) (xs : Syns) → IsNode work.old node.now t xs →
        Answers freely work.old work.new (statement_of node.now.kind t xs (readings xs) (context_in work.old context))
        (ItemThere (syntax node.now.kind t xs)) IsItems result }
{
    let kids = node.kids.as_slice();
    match node.kind {
        NodeKind::Declaration => declaration(work, kids, node.pos, depth),
        NodeKind::EmptyStatement => does(work, StmtKind::Empty, node.pos),
        NodeKind::ExpressionStatement => evaluate(work, kids, node.pos, depth),
        NodeKind::Break => jump(work, StmtKind::Break, context.breakable, node.pos),
        NodeKind::Continue => jump(work, StmtKind::Continue, context.in_loop, node.pos),
        NodeKind::Return => return_at(work, context, kids, node.pos, depth),
        _ => scoped(work, context, node, depth),
    }
}

// A statement with a scope of its own (C11 6.8p3).
#[cycle(statements)]
fn scoped(work: &mut Work<'_>, context: Context, node: &Node, depth: u32) -> Result<Items, Refusal>
    requires whole { IsWhole work.old.nodes }
    requires context { ContextThere work.old context }
    requires node { NodeWithin work.old depth node.now }
    ensures { (t : Lexeme) (xs : Syns) → IsNode work.old node.now t xs →
        Answers freely work.old work.new (in_scope
        (inside_of node.now.kind t xs (readings xs) (context_in work.old context))) OnlyThere IsItems result }
{
    enter(work)?;
    let items = inside(work, context, node, depth)?;
    leave(work);
    Ok(items)
}

// The statement, in its scope.
#[cycle(statements)]
fn inside(work: &mut Work<'_>, context: Context, node: &Node, depth: u32) -> Result<Items, Refusal>
    requires whole { IsWhole work.old.nodes }
    requires context { ContextThere work.old context }
    requires node { NodeWithin work.old depth node.now }
    ensures { (t : Lexeme) (xs : Syns) → IsNode work.old node.now t xs →
        Answers freely work.old work.new (inside_of node.now.kind t xs (readings xs) (context_in work.old context))
        OnlyThere IsItems result }
{
    let kids = node.kids.as_slice();
    match node.kind {
        NodeKind::Block => block(work, context, kids, node.pos, depth),
        NodeKind::If => if_one(work, context, kids, node.pos, depth),
        NodeKind::IfElse => if_else(work, context, kids, node.pos, depth),
        NodeKind::While => while_loop(work, context, kids, node.pos, depth),
        NodeKind::Do => do_loop(work, context, kids, node.pos, depth),
        NodeKind::For => for_loop(work, context, kids, node.pos, depth),
        NodeKind::Switch => switch(work, context, kids, node.pos, depth),
        _ => Err(Refusal::Code(NO_TREE, node.pos)),
    }
}

/// Declarations and statements, one after the other.
#[cycle(statements)]
pub fn all_items(
    work: &mut Work<'_>,
    context: Context,
    kids: &[u32],
    depth: u32,
) -> Result<Items, Refusal>
    requires whole { IsWhole work.old.nodes }
    requires context { ContextThere work.old context }
    requires parts { PartsWithin work.old depth kids.now }
    ensures { (xs : Syns) → AreParts work.old kids.now xs →
        Answers freely work.old work.new (all_items (context_in work.old context) (readings xs)) ItemsThere IsItems
        result }
{
    let mut items = no_items(work.nodes.alloc);
    let mut left = kids;
    while let Some(part) = first_of(left) {
        let more = item(work, context, part.first, depth)?;
        join(&mut items, more)?;
        left = part.others;
    }
    Ok(items)
}

// A block (C11 6.8.2).
#[cycle(statements)]
fn block(
    work: &mut Work<'_>,
    context: Context,
    kids: &[u32],
    pos: Pos,
    depth: u32,
) -> Result<Items, Refusal>
    requires whole { IsWhole work.old.nodes }
    requires context { ContextThere work.old context }
    requires parts { PartsWithin work.old depth kids.now }
    ensures { (xs : Syns) → AreParts work.old kids.now xs →
        Answers freely work.old work.new (block_of (context_in work.old context) pos (readings xs)) OnlyThere IsItems
        result }
{
    let items = all_items(work, context, kids, depth)?;
    does(
        work,
        StmtKind::Block {
            vars: Sequence::from_vec(items.vars),
            body: Sequence::from_vec(items.actions),
        },
        pos,
    )
}

// A statement that is a part of another: a block of its own (C11 6.8.4p3, 6.8.5p5).
#[cycle(statements)]
fn substatement(work: &mut Work<'_>, context: Context, k: u32, depth: u32) -> Result<u32, Refusal>
    requires whole { IsWhole work.old.nodes }
    requires context { ContextThere work.old context }
    requires part { PartThat IsStatement work.old depth k }
    ensures { (x : Syn) → IsPart work.old k x →
        Answers freely work.old work.new (substatement (context_in work.old context) (reading x)) ActionThere
        IsOnlyAction result }
{
    enter(work)?;
    let items = item(work, context, k, depth)?;
    leave(work);
    Ok(alone(items.actions.as_slice()))
}

// An `if` without an `else` (C11 6.8.4.1).
#[cycle(statements)]
fn if_one(
    work: &mut Work<'_>,
    context: Context,
    kids: &[u32],
    pos: Pos,
    depth: u32,
) -> Result<Items, Refusal>
    requires whole { IsWhole work.old.nodes }
    requires context { ContextThere work.old context }
    requires parts { PartsThat (PartsFit kinds.If) work.old depth kids.now }
    ensures { (xs : Syns) → AreParts work.old kids.now xs →
        Answers freely work.old work.new (if_of (context_in work.old context) pos (readings xs)) OnlyThere IsItems
        result }
{
    match two(kids) {
        None => Err(Refusal::Code(NO_TREE, pos)),
        Some(x) => if_with(work, context, x.first, x.second, pos, depth),
    }
}

#[cycle(statements)]
fn if_with(
    work: &mut Work<'_>,
    context: Context,
    a: u32,
    b: u32,
    pos: Pos,
    depth: u32,
) -> Result<Items, Refusal>
    requires whole { IsWhole work.old.nodes }
    requires context { ContextThere work.old context }
    requires first { PartWithin work.old depth a }
    requires second { PartThat IsStatement work.old depth b }
    ensures { (x y : Syn) → IsPart work.old a x → IsPart work.old b y →
        Answers freely work.old work.new (if_with (context_in work.old context) pos (reading x) (reading y))
        OnlyThere IsItems result }
{
    let on = test(work, a, depth)?;
    let body = substatement(work, context, b, depth)?;
    does(work, StmtKind::If(on, body, None), pos)
}

// An `if` with an `else`.
#[cycle(statements)]
fn if_else(
    work: &mut Work<'_>,
    context: Context,
    kids: &[u32],
    pos: Pos,
    depth: u32,
) -> Result<Items, Refusal>
    requires whole { IsWhole work.old.nodes }
    requires context { ContextThere work.old context }
    requires parts { PartsThat (PartsFit kinds.IfElse) work.old depth kids.now }
    ensures { (xs : Syns) → AreParts work.old kids.now xs →
        Answers freely work.old work.new (if_else_of (context_in work.old context) pos (readings xs)) OnlyThere
        IsItems result }
{
    match three(kids) {
        None => Err(Refusal::Code(NO_TREE, pos)),
        Some(x) => if_else_with(work, context, x.first, x.second, x.third, pos, depth),
    }
}

#[cycle(statements)]
fn if_else_with(
    work: &mut Work<'_>,
    context: Context,
    a: u32,
    b: u32,
    c: u32,
    pos: Pos,
    depth: u32,
) -> Result<Items, Refusal>
    requires whole { IsWhole work.old.nodes }
    requires context { ContextThere work.old context }
    requires first { PartWithin work.old depth a }
    requires second { PartThat IsStatement work.old depth b }
    requires third { PartThat IsStatement work.old depth c }
    ensures { (x y z : Syn) → IsPart work.old a x → IsPart work.old b y → IsPart work.old c z →
        Answers freely work.old work.new (if_else_with (context_in work.old context) pos (reading x) (reading y)
        (reading z)) OnlyThere IsItems result }
{
    let on = test(work, a, depth)?;
    let body = substatement(work, context, b, depth)?;
    let other = substatement(work, context, c, depth)?;
    does(work, StmtKind::If(on, body, Some(other)), pos)
}

// A `while` (C11 6.8.5.1).
#[cycle(statements)]
fn while_loop(
    work: &mut Work<'_>,
    context: Context,
    kids: &[u32],
    pos: Pos,
    depth: u32,
) -> Result<Items, Refusal>
    requires whole { IsWhole work.old.nodes }
    requires context { ContextThere work.old context }
    requires parts { PartsThat (PartsFit kinds.While) work.old depth kids.now }
    ensures { (xs : Syns) → AreParts work.old kids.now xs →
        Answers freely work.old work.new (while_of (context_in work.old context) pos (readings xs)) OnlyThere IsItems
        result }
{
    match two(kids) {
        None => Err(Refusal::Code(NO_TREE, pos)),
        Some(x) => while_with(work, context, x.first, x.second, pos, depth),
    }
}

#[cycle(statements)]
fn while_with(
    work: &mut Work<'_>,
    context: Context,
    a: u32,
    b: u32,
    pos: Pos,
    depth: u32,
) -> Result<Items, Refusal>
    requires whole { IsWhole work.old.nodes }
    requires context { ContextThere work.old context }
    requires first { PartWithin work.old depth a }
    requires second { PartThat IsStatement work.old depth b }
    ensures { (x y : Syn) → IsPart work.old a x → IsPart work.old b y →
        Answers freely work.old work.new (while_with (context_in work.old context) pos (reading x) (reading y))
        OnlyThere IsItems result }
{
    let on = test(work, a, depth)?;
    let body = substatement(work, in_a_loop(context), b, depth)?;
    does(work, StmtKind::While(on, body), pos)
}

// A `do` (C11 6.8.5.2).
#[cycle(statements)]
fn do_loop(
    work: &mut Work<'_>,
    context: Context,
    kids: &[u32],
    pos: Pos,
    depth: u32,
) -> Result<Items, Refusal>
    requires whole { IsWhole work.old.nodes }
    requires context { ContextThere work.old context }
    requires parts { PartsThat (PartsFit kinds.Do) work.old depth kids.now }
    ensures { (xs : Syns) → AreParts work.old kids.now xs →
        Answers freely work.old work.new (do_of (context_in work.old context) pos (readings xs)) OnlyThere IsItems
        result }
{
    match two(kids) {
        None => Err(Refusal::Code(NO_TREE, pos)),
        Some(x) => do_with(work, context, x.first, x.second, pos, depth),
    }
}

#[cycle(statements)]
fn do_with(
    work: &mut Work<'_>,
    context: Context,
    a: u32,
    b: u32,
    pos: Pos,
    depth: u32,
) -> Result<Items, Refusal>
    requires whole { IsWhole work.old.nodes }
    requires context { ContextThere work.old context }
    requires first { PartThat IsStatement work.old depth a }
    requires second { PartWithin work.old depth b }
    ensures { (x y : Syn) → IsPart work.old a x → IsPart work.old b y →
        Answers freely work.old work.new (do_with (context_in work.old context) pos (reading x) (reading y))
        OnlyThere IsItems result }
{
    let body = substatement(work, in_a_loop(context), a, depth)?;
    let on = test(work, b, depth)?;
    does(work, StmtKind::Do(body, on), pos)
}

// A `for` (C11 6.8.5.3).
#[cycle(statements)]
fn for_loop(
    work: &mut Work<'_>,
    context: Context,
    kids: &[u32],
    pos: Pos,
    depth: u32,
) -> Result<Items, Refusal>
    requires whole { IsWhole work.old.nodes }
    requires context { ContextThere work.old context }
    requires parts { PartsThat (PartsFit kinds.For) work.old depth kids.now }
    ensures { (xs : Syns) → AreParts work.old kids.now xs →
        Answers freely work.old work.new (for_in (context_in work.old context) pos xs (readings xs)) OnlyThere
        IsItems result }
{
    match four(kids) {
        None => Err(Refusal::Code(NO_TREE, pos)),
        Some(x) => for_with(work, context, x, pos, depth),
    }
}

#[cycle(statements)]
fn for_with(
    work: &mut Work<'_>,
    context: Context,
    x: FourParts,
    pos: Pos,
    depth: u32,
) -> Result<Items, Refusal>
    requires whole { IsWhole work.old.nodes }
    requires context { ContextThere work.old context }
    requires head { PartWithin work.old depth x.head.first × PartWithin work.old depth x.head.second ×
        PartWithin work.old depth x.head.third }
    requires body { PartThat IsStatement work.old depth x.last }
    ensures { (x1 x2 x3 x4 : Syn) → IsPart work.old x.head.first x1 → IsPart work.old x.head.second x2 →
        IsPart work.old x.head.third x3 → IsPart work.old x.last x4 →
        Answers freely work.old work.new (for_with (context_in work.old context) pos x1 x2 x3 (reading x1)
        (reading x2) (reading x3) (reading x4)) OnlyThere IsItems result }
{
    let head = for_head(work, context, x.head, depth)?;
    let body = substatement(work, in_a_loop(context), x.last, depth)?;
    does(work, for_kind(head, body), pos)
}

// One of what stands in the braces of a `switch`.
#[cycle(statements)]
fn switch_item(
    work: &mut Work<'_>,
    context: Context,
    of: u32,
    k: u32,
    cases: Cases,
    depth: u32,
) -> Result<Cases, Refusal>
    requires whole { IsWhole work.old.nodes }
    requires context { ContextThere work.old context }
    requires of { of < type_count work.old.nodes }
    requires part { PartWithin work.old depth k }
    requires cases { CasesThere work.old cases }
    ensures { (x : Syn) → IsPart work.old k x →
        Answers freely work.old work.new (switch_item (context_in work.old context) (type_in work.old.nodes of) x
        (reading x) (cases_in work.old cases)) CasesThere IsCases result }
{
    let node = node_at(work, k);
    let kids = node.kids.as_slice();
    match node.kind {
        NodeKind::Case => labelled(work, of, kids, node.pos, cases, depth),
        NodeKind::Default => labelled(work, of, kids, node.pos, cases, depth),
        _ => further_item(work, context, k, cases, depth),
    }
}

// A declaration or a statement there.
#[cycle(statements)]
fn further_item(
    work: &mut Work<'_>,
    context: Context,
    k: u32,
    cases: Cases,
    depth: u32,
) -> Result<Cases, Refusal>
    requires whole { IsWhole work.old.nodes }
    requires context { ContextThere work.old context }
    requires part { PartWithin work.old depth k }
    requires cases { CasesThere work.old cases }
    ensures { (x : Syn) → IsPart work.old k x →
        Answers freely work.old work.new (further (context_in work.old context) (reading x) (cases_in work.old cases))
        CasesThere IsCases result }
{
    let more = item(work, context, k, depth)?;
    let longer = with_items(cases, more)?;
    Ok(longer)
}

// What stands in the braces of a `switch`.
#[cycle(statements)]
fn switch_items(
    work: &mut Work<'_>,
    context: Context,
    of: u32,
    kids: &[u32],
    depth: u32,
) -> Result<Cases, Refusal>
    requires whole { IsWhole work.old.nodes }
    requires context { ContextThere work.old context }
    requires of { of < type_count work.old.nodes }
    requires parts { PartsWithin work.old depth kids.now }
    ensures { (xs : Syns) → AreParts work.old kids.now xs →
        Answers freely work.old work.new (switch_items (context_in work.old context) (type_in work.old.nodes of) xs
        (readings xs) no_cases) CasesThere IsCases result }
{
    let mut cases = Cases {
        items: no_items(work.nodes.alloc),
        labels: IndexMap::new(work.nodes.alloc),
    };
    let mut left = kids;
    while let Some(part) = first_of(left) {
        cases = switch_item(work, context, of, part.first, cases, depth)?;
        left = part.others;
    }
    Ok(cases)
}

// The braces of a `switch`, in a scope.
#[cycle(statements)]
fn switch_body(
    work: &mut Work<'_>,
    context: Context,
    of: u32,
    kids: &[u32],
    depth: u32,
) -> Result<Cases, Refusal>
    requires whole { IsWhole work.old.nodes }
    requires context { ContextThere work.old context }
    requires of { of < type_count work.old.nodes }
    requires parts { PartsWithin work.old depth kids.now }
    ensures { (xs : Syns) → AreParts work.old kids.now xs →
        Answers freely work.old work.new (in_scope
        (switch_items (meant.in_a_switch (context_in work.old context)) (type_in work.old.nodes of) xs
        (readings xs) no_cases)) CasesThere IsCases result }
{
    enter(work)?;
    let cases = switch_items(work, in_a_switch(context), of, kids, depth)?;
    leave(work);
    Ok(cases)
}

// A `switch` (C11 6.8.4.2).
#[cycle(statements)]
fn switch(
    work: &mut Work<'_>,
    context: Context,
    kids: &[u32],
    pos: Pos,
    depth: u32,
) -> Result<Items, Refusal>
    requires whole { IsWhole work.old.nodes }
    requires context { ContextThere work.old context }
    requires parts { PartsWithin work.old depth kids.now }
    ensures { (xs : Syns) → AreParts work.old kids.now xs →
        Answers freely work.old work.new (switch_in (context_in work.old context) pos xs (readings xs)) OnlyThere
        IsItems result }
{
    match first_of(kids) {
        None => Err(Refusal::Code(NO_TREE, pos)),
        Some(x) => switch_with(work, context, x.first, x.others, pos, depth),
    }
}

#[cycle(statements)]
fn switch_with(
    work: &mut Work<'_>,
    context: Context,
    k: u32,
    kids: &[u32],
    pos: Pos,
    depth: u32,
) -> Result<Items, Refusal>
    requires whole { IsWhole work.old.nodes }
    requires context { ContextThere work.old context }
    requires on { PartWithin work.old depth k }
    requires parts { PartsWithin work.old depth kids.now }
    ensures { (x : Syn) (xs : Syns) → IsPart work.old k x → AreParts work.old kids.now xs →
        Answers freely work.old work.new (switch_with (context_in work.old context) pos xs (reading x) (readings xs))
        OnlyThere IsItems result }
{
    let on = switched(work, k, depth)?;
    let cases = switch_body(work, context, on.of, kids, depth)?;
    let kind = switch_kind(work.nodes.alloc, on.value, cases)?;
    does(work, kind, pos)
}
