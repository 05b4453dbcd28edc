//! Declarators and parameters (C11 6.7.6).
ghost use Rattle.std.specs.Prelude.{◌≡◌, ◌==◌, length, pos};
ghost use Rattle.ck_base.specs.Tokens.{Lexeme};
ghost use Rattle.c_tree.specs.declared.syntax.NodeKind.TheVariants as kinds;
ghost use Rattle.c_tree.specs.Syntax.{Syn, Syns};
ghost use Rattle.c_tree.specs.Declarators.{constant};
ghost use Rattle.c_tree.specs.Declarators.{array_length, declarator_of};
ghost use Rattle.c_tree.specs.Declarators.{parameter_of, parameter_list};
ghost use Rattle.c_tree.specs.Programs.{reading, readings};
ghost use Rattle.c_expressions.specs.Nodes.{IsWhole};
ghost use Rattle.c_elaborator.specs.Answers.{Answers, quietly};
ghost use Rattle.c_elaborator.specs.Parts.{IsPart, AreParts, token_of, IsOf, AreOf, HasParameters};
ghost use Rattle.c_declarators.specs.Parts.{in_any};
ghost use Rattle.c_declarators.specs.Parts.{ParamThere, IsParam, DerivedThere, ShowsDerived, CountThere, IsCount};
ghost use Rattle.c_readings.specs.Kids.{IsNode};
ghost use Rattle.c_readings.specs.Within.{PartWithin, PartsWithin, PartThat, PartsThat, NodeWithin};
ghost use Rattle.c_readings.specs.Specifying.{ParamsThere};
ghost use Rattle.c_readings.specs.Specifying.{AreParams};
ghost use Rattle.c_readings.specs.Specifying.{PrototypeThere, ShowsPrototype, unstored};
ghost use Rattle.c_readings.specs.Specifying.{within, row_of, function_of};

use crate::expressions::constant;
use crate::rules::declare_parameter;
use crate::tree::{ends, first_of, name_of, node_at, only};
use crate::types::unstored;
use c_declarators::{
    Derived, Param, Prototype, Wrap, array_length, close, enter, parameter_from, parts_const,
};
use c_elaborator::{Name, Work};
use c_plain_rules::is_lone;
use c_tree::{Node, NodeKind};
use ck_base::{NO_TREE, Pos, Refusal};

/// The declarator that a node is (C11 6.7.6).
#[cycle(parts)]
pub fn derived<'a>(work: &mut Work<'a>, k: u32, depth: u32) -> Result<Derived<'a>, Refusal>
    requires whole { IsWhole work.old.nodes }
    requires part { PartWithin work.old depth k }
    ensures { (x : Syn) → IsPart work.old k x →
        Answers quietly work.old work.new (reading x).derived DerivedThere ShowsDerived result }
{
    let node = node_at(work, k);
    declarator(work, node, depth - 1)
}

// The declarator of a node, by its kind.
#[cycle(parts)]
fn declarator<'a>(work: &mut Work<'a>, node: &Node, depth: u32) -> Result<Derived<'a>, Refusal>
    requires whole { IsWhole work.old.nodes }
    requires node { NodeWithin work.old depth node.now }
    ensures { (t : Lexeme) (xs : Syns) → IsNode work.old node.now t xs →
        Answers quietly work.old work.new (declarator_of node.now.kind t xs (readings xs)) DerivedThere ShowsDerived
        result }
{
    let kids = node.kids.as_slice();
    match node.kind {
        NodeKind::DeclaredName => Ok(Derived::new(work.nodes.alloc, Some(name_of(node)))),
        NodeKind::ParenthesizedDeclarator => enclosed(work, kids, node.pos, depth),
        NodeKind::Pointer => pointer(work, kids, node.pos, depth),
        NodeKind::OpenArray => open_array(work, kids, depth),
        NodeKind::Array => array(work, kids, node.pos, depth),
        NodeKind::Function => function(work, kids, node.pos, depth),
        _ => Err(Refusal::Code(NO_TREE, node.pos)),
    }
}

#[cycle(parts)]
fn enclosed<'a>(
    work: &mut Work<'a>,
    kids: &[u32],
    pos: Pos,
    depth: u32,
) -> Result<Derived<'a>, Refusal>
    requires whole { IsWhole work.old.nodes }
    requires parts { PartsWithin work.old depth kids.now }
    ensures { (t : Lexeme) (xs : Syns) → t.pos ≡ pos → AreParts work.old kids.now xs →
        Answers quietly work.old work.new (declarator_of kinds.ParenthesizedDeclarator t xs (readings xs))
        DerivedThere ShowsDerived result }
{
    match first_of(kids) {
        None => Err(Refusal::Code(NO_TREE, pos)),
        Some(part) => derived(work, part.first, depth),
    }
}

// The declarator that is the first of these parts, and nothing where there are none.
#[cycle(parts)]
pub(crate) fn within<'a>(
    work: &mut Work<'a>,
    kids: &[u32],
    depth: u32,
) -> Result<Derived<'a>, Refusal>
    requires whole { IsWhole work.old.nodes }
    requires parts { PartsWithin work.old depth kids.now }
    ensures { (xs : Syns) → AreParts work.old kids.now xs →
        Answers quietly work.old work.new (within (readings xs)) DerivedThere ShowsDerived result }
{
    match first_of(kids) {
        None => Ok(Derived::new(work.nodes.alloc, None)),
        Some(part) => derived(work, part.first, depth),
    }
}

#[cycle(parts)]
fn pointer<'a>(
    work: &mut Work<'a>,
    kids: &[u32],
    pos: Pos,
    depth: u32,
) -> Result<Derived<'a>, Refusal>
    requires whole { IsWhole work.old.nodes }
    requires parts { PartsWithin work.old depth kids.now }
    ensures { (t : Lexeme) (xs : Syns) → t.pos ≡ pos → AreParts work.old kids.now xs →
        Answers quietly work.old work.new (declarator_of kinds.Pointer t xs (readings xs)) DerivedThere ShowsDerived
        result }
{
    match first_of(kids) {
        None => Err(Refusal::Code(NO_TREE, pos)),
        Some(part) => {
            let qualified = parts_const(work.tree, kids);
            let d = within(work, part.others, depth)?;
            let all = d.wrapped(Wrap::Point(qualified))?;
            Ok(all)
        }
    }
}

#[cycle(parts)]
fn open_array<'a>(work: &mut Work<'a>, kids: &[u32], depth: u32) -> Result<Derived<'a>, Refusal>
    requires whole { IsWhole work.old.nodes }
    requires parts { PartsWithin work.old depth kids.now }
    ensures { (t : Lexeme) (xs : Syns) → AreParts work.old kids.now xs →
        Answers quietly work.old work.new (declarator_of kinds.OpenArray t xs (readings xs)) DerivedThere ShowsDerived
        result }
{
    let d = within(work, kids, depth)?;
    let all = d.wrapped(Wrap::Row(0))?;
    Ok(all)
}

#[cycle(parts)]
fn array<'a>(
    work: &mut Work<'a>,
    kids: &[u32],
    pos: Pos,
    depth: u32,
) -> Result<Derived<'a>, Refusal>
    requires whole { IsWhole work.old.nodes }
    requires parts { PartsWithin work.old depth kids.now }
    ensures { (t : Lexeme) (xs : Syns) → t.pos ≡ pos → AreParts work.old kids.now xs →
        Answers quietly work.old work.new (declarator_of kinds.Array t xs (readings xs)) DerivedThere ShowsDerived
        result }
{
    match ends(kids) {
        None => Err(Refusal::Code(NO_TREE, pos)),
        Some(x) => row(work, x.before, x.last, depth),
    }
}

// The number of elements that a node gives: at least 1, otherwise 134 at its first byte (C11 6.7.6.2p1).
#[cycle(parts)]
fn length_of(work: &mut Work<'_>, k: u32, depth: u32) -> Result<u64, Refusal>
    requires whole { IsWhole work.old.nodes }
    requires part { PartWithin work.old depth k }
    ensures { (x : Syn) → IsPart work.old k x →
        Answers quietly work.old work.new (array_length (reading x)) CountThere (in_any IsCount) result }
{
    let c = constant(work, k, depth)?;
    array_length(work, c)
}

// An array of as many elements as a node gives.
#[cycle(parts)]
fn row<'a>(
    work: &mut Work<'a>,
    before: &[u32],
    count: u32,
    depth: u32,
) -> Result<Derived<'a>, Refusal>
    requires whole { IsWhole work.old.nodes }
    requires parts { PartsWithin work.old depth before.now }
    requires count { PartWithin work.old depth count }
    ensures { (xs : Syns) (y : Syn) → AreParts work.old before.now xs → IsPart work.old count y →
        Answers quietly work.old work.new (row_of (readings xs) (reading y)) DerivedThere ShowsDerived result }
{
    let d = within(work, before, depth)?;
    let n = length_of(work, count, depth)?;
    let all = d.wrapped(Wrap::Row(n))?;
    Ok(all)
}

#[cycle(parts)]
fn function<'a>(
    work: &mut Work<'a>,
    kids: &[u32],
    pos: Pos,
    depth: u32,
) -> Result<Derived<'a>, Refusal>
    requires whole { IsWhole work.old.nodes }
    requires parts { PartsThat HasParameters work.old depth kids.now }
    ensures { (t : Lexeme) (xs : Syns) → t.pos ≡ pos → AreParts work.old kids.now xs →
        Answers quietly work.old work.new (declarator_of kinds.Function t xs (readings xs)) DerivedThere ShowsDerived
        result }
{
    match ends(kids) {
        None => Err(Refusal::Code(NO_TREE, pos)),
        Some(x) => function_with(work, x.before, x.last, depth),
    }
}

// A function with the parameters that a node declares.
#[cycle(parts)]
fn function_with<'a>(
    work: &mut Work<'a>,
    before: &[u32],
    parameters: u32,
    depth: u32,
) -> Result<Derived<'a>, Refusal>
    requires whole { IsWhole work.old.nodes }
    requires parts { PartsWithin work.old depth before.now }
    requires parameters { PartThat (IsOf kinds.Parameters) work.old depth parameters }
    ensures { (xs : Syns) (y : Syn) → AreParts work.old before.now xs → IsPart work.old parameters y →
        Answers quietly work.old work.new (function_of (readings xs) (reading y)) DerivedThere ShowsDerived result }
{
    let d = within(work, before, depth)?;
    let found = prototype(work, parameters, depth)?;
    let all = d.wrapped(Wrap::Gives(found))?;
    Ok(all)
}

// The parameters that a node declares, in a scope of their own (C11 6.2.1p4).
#[cycle(parts)]
fn prototype<'a>(work: &mut Work<'a>, k: u32, depth: u32) -> Result<Prototype<'a>, Refusal>
    requires whole { IsWhole work.old.nodes }
    requires part { PartThat (IsOf kinds.Parameters) work.old depth k }
    ensures { (x : Syn) → IsPart work.old k x →
        Answers quietly work.old work.new (reading x).prototype PrototypeThere ShowsPrototype result }
{
    let node = node_at(work, k);
    enter(work)?;
    let params = parameter_list(work, node.kids.as_slice(), depth - 1)?;
    let scope = close(work)?;
    Ok(Prototype { params, scope })
}

// Each name is in force behind its parameter. `void` alone is no parameter.
#[cycle(parts)]
fn parameter_list(work: &mut Work<'_>, kids: &[u32], depth: u32) -> Result<Vec<Param>, Refusal>
    requires whole { IsWhole work.old.nodes }
    requires parts { PartsThat (AreOf kinds.Parameter) work.old depth kids.now }
    ensures { (xs : Syns) → AreParts work.old kids.now xs →
        Answers quietly work.old work.new (parameter_list 0 (length (readings xs) == 1) (readings xs)) ParamsThere
        AreParams result }
{
    let only = is_lone(true, kids);
    let mut params = Vec::new(work.nodes.alloc);
    let mut left = kids;
    while let Some(part) = first_of(left) {
        let p = parameter(work, part.first, only, depth)?;
        if p.nothing {
            return Ok(params);
        }
        declare_parameter(work, &mut params, p)?;
        left = part.others;
    }
    Ok(params)
}

// The parameter that a node is. `only` says that it is the only one.
#[cycle(parts)]
fn parameter(work: &mut Work<'_>, k: u32, only: bool, depth: u32) -> Result<Param, Refusal>
    requires whole { IsWhole work.old.nodes }
    requires part { PartThat (IsOf kinds.Parameter) work.old depth k }
    ensures { (x : Syn) → IsPart work.old k x →
        Answers quietly work.old work.new ((reading x).parameter only) ParamThere (in_any IsParam) result }
{
    let node = node_at(work, k);
    parameter_at(work, name_of(node), node.kids.as_slice(), only, depth - 1)
}

#[cycle(parts)]
fn parameter_at(
    work: &mut Work<'_>,
    first: Name,
    kids: &[u32],
    only: bool,
    depth: u32,
) -> Result<Param, Refusal>
    requires whole { IsWhole work.old.nodes }
    requires parts { PartsWithin work.old depth kids.now }
    ensures { (xs : Syns) → AreParts work.old kids.now xs →
        Answers quietly work.old work.new (parameter_of (token_of work.old first) (readings xs) only) ParamThere
        (in_any IsParam) result }
{
    match first_of(kids) {
        None => Err(Refusal::Code(NO_TREE, first.pos)),
        Some(part) => {
            let s = unstored(work, part.first, false, first.pos, depth)?;
            let d = within(work, part.others, depth)?;
            parameter_from(work, only, s, first, &d)
        }
    }
}
