//! Expressions: the reading of each is typed, part by part (C11 6.5).
ghost use Rattle.std.specs.Prelude.{◌≡◌, ◌++◌, ◌∷◌, [], pos, OnOk};
ghost use Rattle.ck_base.specs.Tokens.{Lexeme};
ghost use Rattle.c_tree.specs.declared.syntax.NodeKind.TheVariants as kinds;
ghost use Rattle.c_tree.specs.Syntax.{Syn, Syns, node as syntax};
ghost use Rattle.c_tree.specs.Scopes.{State};
ghost use Rattle.c_tree.specs.declared.syntax.PrefixOperator.TheVariants as prefixes;
ghost use Rattle.c_tree.specs.Expressions.{read_value, expression_of, selected, unevaluated, read_values};
ghost use Rattle.c_tree.specs.Expressions.{called_library, called_name};
ghost use Rattle.c_tree.specs.Declarators.{constant};
ghost use Rattle.c_elaborator.specs.Work.{Shows};
ghost use Rattle.c_tree.specs.declared.syntax.Selection.TheVariants as selections;
ghost use Rattle.c_tree.specs.Programs.{reading, readings};
ghost use Rattle.c_expressions.specs.Nodes.{IsWhole};
ghost use Rattle.c_elaborator.specs.Answers.{Answers, quietly, OperandThere, IsOperand, TypeThere, IsType};
ghost use Rattle.c_elaborator.specs.Parts.{IsPart, AreParts};
ghost use Rattle.c_declarators.specs.Parts.{in_any, ConstantThere, IsConstant};
ghost use Rattle.c_readings.specs.Kids.{HasNode, IsNode};
ghost use Rattle.c_readings.specs.Within.{PartWithin, PartsWithin};
ghost use Rattle.c_readings.specs.Gathered.{operand_of, type_of, one_operand, one_value, one_type, both, two_values};
ghost use Rattle.c_readings.specs.Gathered.{place_and_value, three_values, type_and_value, assigning, two_in};
ghost use Rattle.c_readings.specs.Gathered.{PairThere};
ghost use Rattle.c_readings.specs.Gathered.{IsPair, TripleThere, IsTriple, CastThere, IsCast, AllThere, AreOperands};
ghost use Rattle.c_readings.specs.Gathered.{called_service, called_value};

use crate::parts::{Casting, Pair, Triple};
use crate::tree::{first_of, name_of, node_at, only, three, two};
use crate::types::type_of;
use c_declarators::{Constant, constant_value};
use c_elaborator::{Name, Work};
use c_expressions::Operand;
use c_tree::{InfixOperator, Node, NodeKind, PrefixOperator, Selection, StepOperator, UnaryOp};
use ck_base::{NO_TREE, NoMemory, Pos, Refusal};
use ck_int::IntOp;

/// The expression that a node is (C11 6.5).
#[cycle(parts)]
pub fn operand(work: &mut Work<'_>, k: u32, depth: u32) -> Result<Operand, Refusal>
    requires whole { IsWhole work.old.nodes }
    requires part { PartWithin work.old depth k }
    ensures { (x : Syn) → IsPart work.old k x →
        Answers quietly work.old work.new (reading x).operand OperandThere IsOperand result }
{
    let node = node_at(work, k);
    expression(work, node, depth - 1)
}

// The expression of a node, by its kind.
#[cycle(parts)]
fn expression(work: &mut Work<'_>, node: &Node, depth: u32) -> Result<Operand, Refusal>
    requires whole { IsWhole work.old.nodes }
    requires node { HasNode work.old node.now }
    requires parts { PartsWithin work.old depth node.now.kids }
    ensures { (t : Lexeme) (xs : Syns) → IsNode work.old node.now t xs →
        Answers quietly work.old work.new (expression_of node.now.kind t xs (readings xs)) OperandThere IsOperand
        result }
{
    let kids = node.kids.as_slice();
    let name = name_of(node);
    match node.kind {
        NodeKind::Name => work.named(name),
        NodeKind::Number => work.number(name),
        NodeKind::Character => work.character(name),
        NodeKind::Text => work.literal(name, kids),
        NodeKind::Parenthesized => parenthesized(work, kids, node.pos, depth),
        NodeKind::Index => index(work, kids, node.pos, depth),
        NodeKind::Call => call(work, kids, node.pos, depth),
        NodeKind::Select(how) => selected(work, how, kids, node.pos, depth),
        NodeKind::Postfix(op) => postfix(work, op, kids, node.pos, depth),
        NodeKind::Prefix(op) => prefixed(work, op, kids, node.pos, depth),
        NodeKind::SizeofExpression => size_of_expression(work, kids, node.pos, depth),
        NodeKind::SizeofType => size_of_type(work, kids, node.pos, depth),
        NodeKind::Cast => cast(work, kids, node.pos, depth),
        NodeKind::Infix(op) => infix(work, op, kids, node.pos, depth),
        NodeKind::Conditional => conditional(work, kids, node.pos, depth),
        NodeKind::Assignment(op) => assignment(work, op, kids, node.pos, depth),
        _ => Err(Refusal::Code(NO_TREE, node.pos)),
    }
}

/// The value of the expression that a node is (C11 6.3.2.1).
#[cycle(parts)]
pub fn value_of(work: &mut Work<'_>, k: u32, depth: u32) -> Result<Operand, Refusal>
    requires whole { IsWhole work.old.nodes }
    requires part { PartWithin work.old depth k }
    ensures { (x : Syn) → IsPart work.old k x →
        Answers quietly work.old work.new (read_value (reading x)) OperandThere IsOperand result }
{
    let x = operand(work, k, depth)?;
    work.value(x)
}

#[cycle(parts)]
fn one_operand(work: &mut Work<'_>, kids: &[u32], pos: Pos, depth: u32) -> Result<Operand, Refusal>
    requires whole { IsWhole work.old.nodes }
    requires parts { PartsWithin work.old depth kids.now }
    ensures { (xs : Syns) → AreParts work.old kids.now xs →
        Answers quietly work.old work.new (one_operand pos (readings xs)) OperandThere IsOperand result }
{
    match only(kids) {
        Some(k) => operand(work, k, depth),
        None => Err(Refusal::Code(NO_TREE, pos)),
    }
}

// The values of two nodes, from left to right.
#[cycle(parts)]
fn values_of(work: &mut Work<'_>, a: u32, b: u32, depth: u32) -> Result<Pair, Refusal>
    requires whole { IsWhole work.old.nodes }
    requires first { PartWithin work.old depth a }
    requires second { PartWithin work.old depth b }
    ensures { (x y : Syn) → IsPart work.old a x → IsPart work.old b y →
        Answers quietly work.old work.new (both (read_value (reading x)) (read_value (reading y))) PairThere IsPair
        result }
{
    let left = value_of(work, a, depth)?;
    let right = value_of(work, b, depth)?;
    Ok(Pair { left, right })
}

#[cycle(parts)]
fn two_values(work: &mut Work<'_>, kids: &[u32], pos: Pos, depth: u32) -> Result<Pair, Refusal>
    requires whole { IsWhole work.old.nodes }
    requires parts { PartsWithin work.old depth kids.now }
    ensures { (xs : Syns) → AreParts work.old kids.now xs →
        Answers quietly work.old work.new (two_values pos (readings xs)) PairThere IsPair result }
{
    match two(kids) {
        Some(x) => values_of(work, x.first, x.second, depth),
        None => Err(Refusal::Code(NO_TREE, pos)),
    }
}

// An expression in parentheses begins with them.
#[cycle(parts)]
fn parenthesized(
    work: &mut Work<'_>,
    kids: &[u32],
    pos: Pos,
    depth: u32,
) -> Result<Operand, Refusal>
    requires whole { IsWhole work.old.nodes }
    requires parts { PartsWithin work.old depth kids.now }
    ensures { (t : Lexeme) (xs : Syns) → t.pos ≡ pos → AreParts work.old kids.now xs →
        Answers quietly work.old work.new (expression_of kinds.Parenthesized t xs (readings xs)) OperandThere
        IsOperand result }
{
    let a = one_operand(work, kids, pos, depth)?;
    Ok(Operand {
        node: a.node,
        first: pos,
    })
}

#[cycle(parts)]
fn index(work: &mut Work<'_>, kids: &[u32], pos: Pos, depth: u32) -> Result<Operand, Refusal>
    requires whole { IsWhole work.old.nodes }
    requires parts { PartsWithin work.old depth kids.now }
    ensures { (t : Lexeme) (xs : Syns) → t.pos ≡ pos → AreParts work.old kids.now xs →
        Answers quietly work.old work.new (expression_of kinds.Index t xs (readings xs)) OperandThere IsOperand result }
{
    let both = two_values(work, kids, pos, depth)?;
    work.index(both.left, both.right, pos)
}

#[cycle(parts)]
fn infix(
    work: &mut Work<'_>,
    op: InfixOperator,
    kids: &[u32],
    pos: Pos,
    depth: u32,
) -> Result<Operand, Refusal>
    requires whole { IsWhole work.old.nodes }
    requires parts { PartsWithin work.old depth kids.now }
    ensures { (t : Lexeme) (xs : Syns) → t.pos ≡ pos → AreParts work.old kids.now xs →
        Answers quietly work.old work.new (expression_of (kinds.Infix op) t xs (readings xs)) OperandThere IsOperand
        result }
{
    let both = two_values(work, kids, pos, depth)?;
    work.infix_join(op, both.left, both.right, pos)
}

#[cycle(parts)]
fn one_value(work: &mut Work<'_>, kids: &[u32], pos: Pos, depth: u32) -> Result<Operand, Refusal>
    requires whole { IsWhole work.old.nodes }
    requires parts { PartsWithin work.old depth kids.now }
    ensures { (xs : Syns) → AreParts work.old kids.now xs →
        Answers quietly work.old work.new (one_value pos (readings xs)) OperandThere IsOperand result }
{
    match only(kids) {
        Some(k) => value_of(work, k, depth),
        None => Err(Refusal::Code(NO_TREE, pos)),
    }
}

// A place, and a value behind it.
#[cycle(parts)]
fn place_with_value(work: &mut Work<'_>, a: u32, b: u32, depth: u32) -> Result<Pair, Refusal>
    requires whole { IsWhole work.old.nodes }
    requires first { PartWithin work.old depth a }
    requires second { PartWithin work.old depth b }
    ensures { (x y : Syn) → IsPart work.old a x → IsPart work.old b y →
        Answers quietly work.old work.new (both (operand_of (reading x)) (read_value (reading y))) PairThere IsPair
        result }
{
    let left = operand(work, a, depth)?;
    let right = value_of(work, b, depth)?;
    Ok(Pair { left, right })
}

#[cycle(parts)]
fn place_and_value(work: &mut Work<'_>, kids: &[u32], pos: Pos, depth: u32) -> Result<Pair, Refusal>
    requires whole { IsWhole work.old.nodes }
    requires parts { PartsWithin work.old depth kids.now }
    ensures { (xs : Syns) → AreParts work.old kids.now xs →
        Answers quietly work.old work.new (place_and_value pos (readings xs)) PairThere IsPair result }
{
    match two(kids) {
        Some(x) => place_with_value(work, x.first, x.second, depth),
        None => Err(Refusal::Code(NO_TREE, pos)),
    }
}

// The values of three nodes, from left to right.
#[cycle(parts)]
fn values_of_three(
    work: &mut Work<'_>,
    a: u32,
    b: u32,
    c: u32,
    depth: u32,
) -> Result<Triple, Refusal>
    requires whole { IsWhole work.old.nodes }
    requires first { PartWithin work.old depth a }
    requires second { PartWithin work.old depth b }
    requires third { PartWithin work.old depth c }
    ensures { (x y z : Syn) → IsPart work.old a x → IsPart work.old b y → IsPart work.old c z →
        Answers quietly work.old work.new (both (read_value (reading x))
        (both (read_value (reading y)) (read_value (reading z)))) TripleThere IsTriple result }
{
    let first = value_of(work, a, depth)?;
    let pair = values_of(work, b, c, depth)?;
    Ok(Triple { first, pair })
}

#[cycle(parts)]
fn three_values(work: &mut Work<'_>, kids: &[u32], pos: Pos, depth: u32) -> Result<Triple, Refusal>
    requires whole { IsWhole work.old.nodes }
    requires parts { PartsWithin work.old depth kids.now }
    ensures { (xs : Syns) → AreParts work.old kids.now xs →
        Answers quietly work.old work.new (three_values pos (readings xs)) TripleThere IsTriple result }
{
    match three(kids) {
        Some(x) => values_of_three(work, x.first, x.second, x.third, depth),
        None => Err(Refusal::Code(NO_TREE, pos)),
    }
}

#[cycle(parts)]
fn one_type(work: &mut Work<'_>, kids: &[u32], pos: Pos, depth: u32) -> Result<u32, Refusal>
    requires whole { IsWhole work.old.nodes }
    requires parts { PartsWithin work.old depth kids.now }
    ensures { (xs : Syns) → AreParts work.old kids.now xs →
        Answers quietly work.old work.new (one_type pos (readings xs)) TypeThere IsType result }
{
    match only(kids) {
        Some(k) => type_of(work, k, false, depth),
        None => Err(Refusal::Code(NO_TREE, pos)),
    }
}

// A type, and the value of an operand behind it.
#[cycle(parts)]
fn type_with_value(work: &mut Work<'_>, a: u32, b: u32, depth: u32) -> Result<Casting, Refusal>
    requires whole { IsWhole work.old.nodes }
    requires first { PartWithin work.old depth a }
    requires second { PartWithin work.old depth b }
    ensures { (x y : Syn) → IsPart work.old a x → IsPart work.old b y →
        Answers quietly work.old work.new (both (type_of (reading x)) (read_value (reading y))) CastThere IsCast
        result }
{
    let of = type_of(work, a, false, depth)?;
    let operand = value_of(work, b, depth)?;
    Ok(Casting { of, operand })
}

#[cycle(parts)]
fn type_and_value(
    work: &mut Work<'_>,
    kids: &[u32],
    pos: Pos,
    depth: u32,
) -> Result<Casting, Refusal>
    requires whole { IsWhole work.old.nodes }
    requires parts { PartsWithin work.old depth kids.now }
    ensures { (xs : Syns) → AreParts work.old kids.now xs →
        Answers quietly work.old work.new (type_and_value pos (readings xs)) CastThere IsCast result }
{
    match two(kids) {
        Some(x) => type_with_value(work, x.first, x.second, depth),
        None => Err(Refusal::Code(NO_TREE, pos)),
    }
}

#[cycle(parts)]
fn conditional(work: &mut Work<'_>, kids: &[u32], pos: Pos, depth: u32) -> Result<Operand, Refusal>
    requires whole { IsWhole work.old.nodes }
    requires parts { PartsWithin work.old depth kids.now }
    ensures { (t : Lexeme) (xs : Syns) → t.pos ≡ pos → AreParts work.old kids.now xs →
        Answers quietly work.old work.new (expression_of kinds.Conditional t xs (readings xs)) OperandThere IsOperand
        result }
{
    let all = three_values(work, kids, pos, depth)?;
    work.conditional(all.first, all.pair.left, all.pair.right, pos)
}

// The rule of an assignment (C11 6.5.16).
fn assigned(work: &mut Work<'_>, op: Option<IntOp>, x: Pair, pos: Pos) -> Result<Operand, Refusal>
    requires whole { IsWhole work.old.nodes }
    requires operands { PairThere work.old x }
    ensures { Answers quietly work.old work.new (assigning op (two_in work.old x) pos) OperandThere IsOperand result }
{
    match op {
        None => work.assign(x.left, x.right, pos),
        Some(op) => work.compound(op, x.left, x.right, pos),
    }
}

#[cycle(parts)]
fn assignment(
    work: &mut Work<'_>,
    op: Option<IntOp>,
    kids: &[u32],
    pos: Pos,
    depth: u32,
) -> Result<Operand, Refusal>
    requires whole { IsWhole work.old.nodes }
    requires parts { PartsWithin work.old depth kids.now }
    ensures { (t : Lexeme) (xs : Syns) → t.pos ≡ pos → AreParts work.old kids.now xs →
        Answers quietly work.old work.new (expression_of (kinds.Assignment op) t xs (readings xs)) OperandThere
        IsOperand result }
{
    let x = place_and_value(work, kids, pos, depth)?;
    assigned(work, op, x, pos)
}

#[cycle(parts)]
fn postfix(
    work: &mut Work<'_>,
    op: StepOperator,
    kids: &[u32],
    pos: Pos,
    depth: u32,
) -> Result<Operand, Refusal>
    requires whole { IsWhole work.old.nodes }
    requires parts { PartsWithin work.old depth kids.now }
    ensures { (t : Lexeme) (xs : Syns) → t.pos ≡ pos → AreParts work.old kids.now xs →
        Answers quietly work.old work.new (expression_of (kinds.Postfix op) t xs (readings xs)) OperandThere IsOperand
        result }
{
    let a = one_operand(work, kids, pos, depth)?;
    work.stepped(op, false, a, pos, a.first)
}

// `++` and `--` in front, and `&`, whose operand is a place.
#[cycle(parts)]
fn step_in_front(
    work: &mut Work<'_>,
    op: StepOperator,
    kids: &[u32],
    pos: Pos,
    depth: u32,
) -> Result<Operand, Refusal>
    requires whole { IsWhole work.old.nodes }
    requires parts { PartsWithin work.old depth kids.now }
    ensures { (t : Lexeme) (xs : Syns) → t.pos ≡ pos → AreParts work.old kids.now xs →
        Answers quietly work.old work.new (expression_of (kinds.Prefix (prefixes.Step op)) t xs (readings xs))
        OperandThere IsOperand result }
{
    let a = one_operand(work, kids, pos, depth)?;
    work.stepped(op, true, a, pos, pos)
}

#[cycle(parts)]
fn address(work: &mut Work<'_>, kids: &[u32], pos: Pos, depth: u32) -> Result<Operand, Refusal>
    requires whole { IsWhole work.old.nodes }
    requires parts { PartsWithin work.old depth kids.now }
    ensures { (t : Lexeme) (xs : Syns) → t.pos ≡ pos → AreParts work.old kids.now xs →
        Answers quietly work.old work.new (expression_of (kinds.Prefix prefixes.Address) t xs (readings xs))
        OperandThere IsOperand result }
{
    let a = one_operand(work, kids, pos, depth)?;
    work.address(a, pos)
}

#[cycle(parts)]
fn indirection(work: &mut Work<'_>, kids: &[u32], pos: Pos, depth: u32) -> Result<Operand, Refusal>
    requires whole { IsWhole work.old.nodes }
    requires parts { PartsWithin work.old depth kids.now }
    ensures { (t : Lexeme) (xs : Syns) → t.pos ≡ pos → AreParts work.old kids.now xs →
        Answers quietly work.old work.new (expression_of (kinds.Prefix prefixes.Indirection) t xs (readings xs))
        OperandThere IsOperand result }
{
    let a = one_value(work, kids, pos, depth)?;
    work.dereference(a, pos, pos)
}

#[cycle(parts)]
fn unary(
    work: &mut Work<'_>,
    op: UnaryOp,
    kids: &[u32],
    pos: Pos,
    depth: u32,
) -> Result<Operand, Refusal>
    requires whole { IsWhole work.old.nodes }
    requires parts { PartsWithin work.old depth kids.now }
    ensures { (t : Lexeme) (xs : Syns) → t.pos ≡ pos → AreParts work.old kids.now xs →
        Answers quietly work.old work.new (expression_of (kinds.Prefix (prefixes.Unary op)) t xs (readings xs))
        OperandThere IsOperand result }
{
    let a = one_value(work, kids, pos, depth)?;
    work.unary_on(op, a, pos)
}

#[cycle(parts)]
fn prefixed(
    work: &mut Work<'_>,
    op: PrefixOperator,
    kids: &[u32],
    pos: Pos,
    depth: u32,
) -> Result<Operand, Refusal>
    requires whole { IsWhole work.old.nodes }
    requires parts { PartsWithin work.old depth kids.now }
    ensures { (t : Lexeme) (xs : Syns) → t.pos ≡ pos → AreParts work.old kids.now xs →
        Answers quietly work.old work.new (expression_of (kinds.Prefix op) t xs (readings xs)) OperandThere IsOperand
        result }
{
    match op {
        PrefixOperator::Step(op) => step_in_front(work, op, kids, pos, depth),
        PrefixOperator::Address => address(work, kids, pos, depth),
        PrefixOperator::Indirection => indirection(work, kids, pos, depth),
        PrefixOperator::Unary(op) => unary(work, op, kids, pos, depth),
    }
}

#[cycle(parts)]
fn cast(work: &mut Work<'_>, kids: &[u32], pos: Pos, depth: u32) -> Result<Operand, Refusal>
    requires whole { IsWhole work.old.nodes }
    requires parts { PartsWithin work.old depth kids.now }
    ensures { (t : Lexeme) (xs : Syns) → t.pos ≡ pos → AreParts work.old kids.now xs →
        Answers quietly work.old work.new (expression_of kinds.Cast t xs (readings xs)) OperandThere IsOperand result }
{
    let x = type_and_value(work, kids, pos, depth)?;
    work.cast(x.of, x.operand, pos)
}

// An operand that is not evaluated.
#[cycle(parts)]
fn unevaluated_operand(
    work: &mut Work<'_>,
    kids: &[u32],
    pos: Pos,
    depth: u32,
) -> Result<Operand, Refusal>
    requires whole { IsWhole work.old.nodes }
    requires parts { PartsWithin work.old depth kids.now }
    ensures { (xs : Syns) → AreParts work.old kids.now xs →
        Answers quietly work.old work.new (unevaluated (one_operand pos (readings xs))) OperandThere IsOperand result }
{
    let mark = work.mark();
    let a = one_operand(work, kids, pos, depth)?;
    work.back(mark);
    Ok(a)
}

#[cycle(parts)]
fn size_of_expression(
    work: &mut Work<'_>,
    kids: &[u32],
    pos: Pos,
    depth: u32,
) -> Result<Operand, Refusal>
    requires whole { IsWhole work.old.nodes }
    requires parts { PartsWithin work.old depth kids.now }
    ensures { (t : Lexeme) (xs : Syns) → t.pos ≡ pos → AreParts work.old kids.now xs →
        Answers quietly work.old work.new (expression_of kinds.SizeofExpression t xs (readings xs)) OperandThere
        IsOperand result }
{
    let a = unevaluated_operand(work, kids, pos, depth)?;
    let of = work.nodes.of(a.node);
    work.sized(of, pos)
}

// A type name whose lengths are not evaluated.
#[cycle(parts)]
fn unevaluated_type(work: &mut Work<'_>, kids: &[u32], pos: Pos, depth: u32) -> Result<u32, Refusal>
    requires whole { IsWhole work.old.nodes }
    requires parts { PartsWithin work.old depth kids.now }
    ensures { (xs : Syns) → AreParts work.old kids.now xs →
        Answers quietly work.old work.new (unevaluated (one_type pos (readings xs))) TypeThere IsType result }
{
    let mark = work.mark();
    let of = one_type(work, kids, pos, depth)?;
    work.back(mark);
    Ok(of)
}

#[cycle(parts)]
fn size_of_type(work: &mut Work<'_>, kids: &[u32], pos: Pos, depth: u32) -> Result<Operand, Refusal>
    requires whole { IsWhole work.old.nodes }
    requires parts { PartsWithin work.old depth kids.now }
    ensures { (t : Lexeme) (xs : Syns) → t.pos ≡ pos → AreParts work.old kids.now xs →
        Answers quietly work.old work.new (expression_of kinds.SizeofType t xs (readings xs)) OperandThere IsOperand
        result }
{
    let of = unevaluated_type(work, kids, pos, depth)?;
    work.sized(of, pos)
}

// A member of the struct or union that a node is.
#[cycle(parts)]
fn member_of(
    work: &mut Work<'_>,
    k: u32,
    name: &[u8],
    pos: Pos,
    depth: u32,
) -> Result<Operand, Refusal>
    requires whole { IsWhole work.old.nodes }
    requires part { PartWithin work.old depth k }
    ensures { (x : Syn) (t word : Lexeme) → t.pos ≡ pos → word.text ≡ name.now → IsPart work.old k x →
        Answers quietly work.old work.new (selected selections.Direct t word (reading x)) OperandThere IsOperand
        result }
{
    let a = operand(work, k, depth)?;
    work.member(a, name, pos)
}

// A member of what the pointer points to that a node is.
#[cycle(parts)]
fn member_behind(
    work: &mut Work<'_>,
    k: u32,
    name: &[u8],
    pos: Pos,
    depth: u32,
) -> Result<Operand, Refusal>
    requires whole { IsWhole work.old.nodes }
    requires part { PartWithin work.old depth k }
    ensures { (x : Syn) (t word : Lexeme) → t.pos ≡ pos → word.text ≡ name.now → IsPart work.old k x →
        Answers quietly work.old work.new (selected selections.Indirect t word (reading x)) OperandThere IsOperand
        result }
{
    let a = value_of(work, k, depth)?;
    work.member_behind(a, name, pos)
}

#[cycle(parts)]
fn selected(
    work: &mut Work<'_>,
    how: Selection,
    kids: &[u32],
    pos: Pos,
    depth: u32,
) -> Result<Operand, Refusal>
    requires whole { IsWhole work.old.nodes }
    requires parts { PartsWithin work.old depth kids.now }
    ensures { (t : Lexeme) (xs : Syns) → t.pos ≡ pos → AreParts work.old kids.now xs →
        Answers quietly work.old work.new (expression_of (kinds.Select how) t xs (readings xs)) OperandThere IsOperand
        result }
{
    match two(kids) {
        Some(x) => {
            let node = node_at(work, x.second);
            let name = work.text(node.text);
            match how {
                Selection::Direct => member_of(work, x.first, name, pos, depth),
                Selection::Indirect => member_behind(work, x.first, name, pos, depth),
            }
        }
        None => Err(Refusal::Code(NO_TREE, pos)),
    }
}

fn push(values: &mut Vec<Operand>, x: Operand) -> Result<(), NoMemory>
    ensures { OnOk result (values.new.items ≡ values.old.items ++ x ∷ []) }
{
    values.push(x)?;
    Ok(())
}

// The values of arguments, from left to right.
#[cycle(parts)]
fn arguments(work: &mut Work<'_>, kids: &[u32], depth: u32) -> Result<Vec<Operand>, Refusal>
    requires whole { IsWhole work.old.nodes }
    requires parts { PartsWithin work.old depth kids.now }
    ensures { (xs : Syns) → AreParts work.old kids.now xs →
        Answers quietly work.old work.new (read_values (readings xs)) AllThere AreOperands result }
{
    let mut values = Vec::new(work.nodes.alloc);
    let mut left = kids;
    while let Some(part) = first_of(left) {
        let x = value_of(work, part.first, depth)?;
        push(&mut values, x)?;
        left = part.others;
    }
    Ok(values)
}

// A call of a library function or intrinsic.
#[cycle(parts)]
fn call_of_library(
    work: &mut Work<'_>,
    service: u8,
    kids: &[u32],
    pos: Pos,
    first: Pos,
    depth: u32,
) -> Result<Operand, Refusal>
    requires whole { IsWhole work.old.nodes }
    requires parts { PartsWithin work.old depth kids.now }
    ensures { (xs : Syns) → AreParts work.old kids.now xs →
        Answers quietly work.old work.new (called_service service pos first (readings xs)) OperandThere IsOperand
        result }
{
    let xs = arguments(work, kids, depth)?;
    work.library_call(service, xs.as_slice(), pos, first)
}

// A call of the value that a node is.
#[cycle(parts)]
fn call_of_value(
    work: &mut Work<'_>,
    of: u32,
    kids: &[u32],
    pos: Pos,
    depth: u32,
) -> Result<Operand, Refusal>
    requires whole { IsWhole work.old.nodes }
    requires called { PartWithin work.old depth of }
    requires parts { PartsWithin work.old depth kids.now }
    ensures { (x : Syn) (xs : Syns) → IsPart work.old of x → AreParts work.old kids.now xs →
        Answers quietly work.old work.new (called_value pos (reading x) (readings xs)) OperandThere IsOperand result }
{
    let f = value_of(work, of, depth)?;
    let xs = arguments(work, kids, depth)?;
    work.call(f, xs.as_slice(), pos)
}

#[cycle(parts)]
fn call(work: &mut Work<'_>, kids: &[u32], pos: Pos, depth: u32) -> Result<Operand, Refusal>
    requires whole { IsWhole work.old.nodes }
    requires parts { PartsWithin work.old depth kids.now }
    ensures { (t : Lexeme) (xs : Syns) → t.pos ≡ pos → AreParts work.old kids.now xs →
        Answers quietly work.old work.new (expression_of kinds.Call t xs (readings xs)) OperandThere IsOperand result }
{
    match first_of(kids) {
        None => Err(Refusal::Code(NO_TREE, pos)),
        Some(part) => {
            let node = node_at(work, part.first);
            let service = library(work, part.first, depth);
            match service {
                Some(number) => {
                    call_of_library(work, number, part.others, pos, node.first, depth)
                }
                None => call_of_value(work, part.first, part.others, pos, depth),
            }
        }
    }
}

// The library function that a name denotes, unless something stands behind the name.
fn named_library(work: &Work<'_>, node: &Node) -> Option<u8>
    requires { node.now.kind ≡ kinds.Name }
    ensures { (t : Lexeme) (xs : Syns) → IsNode work.now node.now t xs → (s : State) → Shows work.now s →
        called_library s (called_name (syntax kinds.Name t xs)) ≡ result }
{
    if node.kids.as_slice().is_empty() {
        work.called_library(name_of(node))
    } else {
        None
    }
}

// The library function that is called by the name that a node is, perhaps in parentheses.
fn library(work: &Work<'_>, k: u32, depth: u32) -> Option<u8>
    requires { PartWithin work.now depth k }
    ensures { (x : Syn) → IsPart work.now k x → (s : State) → Shows work.now s →
        called_library s (called_name x) ≡ result }
{
    let node = node_at(work, k);
    match node.kind {
        NodeKind::Name => named_library(work, node),
        NodeKind::Parenthesized => match only(node.kids.as_slice()) {
            Some(inner) => library(work, inner, depth - 1),
            None => None,
        },
        _ => None,
    }
}

#[cycle(parts)]
fn unevaluated_value(work: &mut Work<'_>, k: u32, depth: u32) -> Result<Operand, Refusal>
    requires whole { IsWhole work.old.nodes }
    requires part { PartWithin work.old depth k }
    ensures { (x : Syn) → IsPart work.old k x →
        Answers quietly work.old work.new (unevaluated (read_value (reading x))) OperandThere IsOperand result }
{
    let mark = work.mark();
    let x = value_of(work, k, depth)?;
    work.back(mark);
    Ok(x)
}

/// The value of the integer constant expression that a node is: 134 at its first byte if it is none (C11 6.6p6).
#[cycle(parts)]
pub fn constant(work: &mut Work<'_>, k: u32, depth: u32) -> Result<Constant, Refusal>
    requires whole { IsWhole work.old.nodes }
    requires part { PartWithin work.old depth k }
    ensures { (x : Syn) → IsPart work.old k x →
        Answers quietly work.old work.new (constant (reading x)) ConstantThere (in_any IsConstant) result }
{
    let x = unevaluated_value(work, k, depth)?;
    constant_value(work, x)
}
