//! Operators on integers and scalars (C11 6.5.3.3, 6.5.5 to 6.5.14, 6.5.17).

ghost use Rattle.std.specs.Prelude.{◌≡◌, ◌<◌, IfOk};
ghost use Rattle.c_tree.specs.Terms as tree;
ghost use Rattle.c_tree.specs.Terms.{join};
ghost use Rattle.c_tree.specs.Expressions.{gives, arithmetic, shift, unary_on, logical, from_right, integer_join};
ghost use Rattle.c_tree.specs.Expressions.{shift_join};
ghost use Rattle.c_expressions.specs.Answers.{Answers};
ghost use Rattle.c_expressions.specs.Nodes.{IsWhole, HasTerm, IsOperand, operand_in, type_in, term_in, type_count};
ghost use Rattle.c_expressions.specs.Nodes.{term_count};
ghost use Rattle.c_operators.specs.Rules.{negated, promoted_unary};

use c_expressions::{Class, Join, Nodes, Operand, Step};
use c_tree::UnaryOp;
use ck_base::{MISFIT, NoMemory, Pos, Refusal};
use ck_int::IntOp;

// Which of two capability integers a result derives from.
fn is_from_right(nodes: &Nodes<'_>, a: u32, b: u32) -> bool
    requires whole { IsWhole nodes.now }
    requires first { a < term_count nodes.now }
    requires second { b < term_count nodes.now }
    ensures { from_right (term_in nodes.now a) (term_in nodes.now b) ≡ result }
{
    nodes.fact(a).plain && !nodes.fact(b).plain
}

// An operation on two operands of a type.
fn integer_node(
    nodes: &mut Nodes<'_>,
    op: IntOp,
    a: u32,
    b: u32,
    of: u32,
    pos: Pos,
) -> Result<u32, NoMemory>
    requires whole { IsWhole nodes.old }
    requires first { a < term_count nodes.old }
    requires second { b < term_count nodes.old }
    requires of { of < type_count nodes.old }
    ensures { IfOk result (λ k. HasTerm nodes.old nodes.new k
        (integer_join op (term_in nodes.old a) (term_in nodes.old b) (type_in nodes.old of) pos)) }
{
    match nodes.class(of) {
        Class::Cap(_) => {
            let from_right = is_from_right(nodes, a, b);
            nodes.join(Join::Capability(op, from_right), a, b, of, pos)
        }
        Class::Void
        | Class::Int(_, _)
        | Class::Pointer(_)
        | Class::Array(_, _)
        | Class::Tagged(_)
        | Class::Function(_)
        | Class::Const(_) => nodes.join(Join::Int(op), a, b, of, pos),
    }
}

/// An operation on integers, at their common type.
pub fn arithmetic(
    nodes: &mut Nodes<'_>,
    op: IntOp,
    a: Operand,
    b: Operand,
    pos: Pos,
) -> Result<Operand, Refusal>
    requires whole { IsWhole nodes.old }
    requires left { a.node < term_count nodes.old }
    requires right { b.node < term_count nodes.old }
    ensures { Answers nodes.old nodes.new (arithmetic op (operand_in nodes.old a) (operand_in nodes.old b) pos)
        IsOperand result }
{
    let s = nodes.of(a.node);
    let t = nodes.of(b.node);
    if !nodes.are_integers(s, t) {
        return Err(Refusal::Code(MISFIT, a.first));
    }
    let of = nodes.common(s, t)?;
    let left = nodes.converted(of, a.node)?;
    let right = nodes.converted(of, b.node)?;
    let node = integer_node(nodes, op, left, right, of, pos)?;
    Ok(Operand {
        node,
        first: a.first,
    })
}

fn shift_node(
    nodes: &mut Nodes<'_>,
    op: IntOp,
    a: u32,
    b: u32,
    of: u32,
    pos: Pos,
) -> Result<u32, NoMemory>
    requires whole { IsWhole nodes.old }
    requires first { a < term_count nodes.old }
    requires second { b < term_count nodes.old }
    requires of { of < type_count nodes.old }
    ensures { IfOk result (λ k. HasTerm nodes.old nodes.new k
        (shift_join op (term_in nodes.old a) (term_in nodes.old b) (type_in nodes.old of) pos)) }
{
    match nodes.class(of) {
        Class::Cap(_) => nodes.join(Join::Capability(op, false), a, b, of, pos),
        Class::Void
        | Class::Int(_, _)
        | Class::Pointer(_)
        | Class::Array(_, _)
        | Class::Tagged(_)
        | Class::Function(_)
        | Class::Const(_) => nodes.join(Join::Int(op), a, b, of, pos),
    }
}

/// A shift, whose operands are promoted each on its own (C11 6.5.7p3).
pub fn shift(
    nodes: &mut Nodes<'_>,
    op: IntOp,
    a: Operand,
    b: Operand,
    pos: Pos,
) -> Result<Operand, Refusal>
    requires whole { IsWhole nodes.old }
    requires left { a.node < term_count nodes.old }
    requires right { b.node < term_count nodes.old }
    ensures { Answers nodes.old nodes.new (shift op (operand_in nodes.old a) (operand_in nodes.old b) pos) IsOperand
        result }
{
    let s = nodes.of(a.node);
    let t = nodes.of(b.node);
    if !nodes.are_integers(s, t) {
        return Err(Refusal::Code(MISFIT, a.first));
    }
    let of = nodes.promoted(s)?;
    let left = nodes.converted(of, a.node)?;
    let right = nodes.promoted_term(b.node)?;
    let node = shift_node(nodes, op, left, right, of, pos)?;
    Ok(Operand {
        node,
        first: a.first,
    })
}

fn negated(nodes: &mut Nodes<'_>, a: Operand, pos: Pos) -> Result<Operand, Refusal>
    requires whole { IsWhole nodes.old }
    requires operand { a.node < term_count nodes.old }
    ensures { Answers nodes.old nodes.new (negated (operand_in nodes.old a) pos) IsOperand result }
{
    if !nodes.is_scalar(nodes.of(a.node)) {
        return Err(Refusal::Code(MISFIT, pos));
    }
    let of = nodes.int()?;
    let node = nodes.step(Step::Unary(UnaryOp::LogicalNot), a.node, of, pos)?;
    Ok(Operand { node, first: pos })
}

fn promoted_unary(
    nodes: &mut Nodes<'_>,
    op: UnaryOp,
    a: Operand,
    pos: Pos,
) -> Result<Operand, Refusal>
    requires whole { IsWhole nodes.old }
    requires operand { a.node < term_count nodes.old }
    ensures { Answers nodes.old nodes.new (promoted_unary op (operand_in nodes.old a) pos) IsOperand result }
{
    let s = nodes.of(a.node);
    if !nodes.is_integer(s) {
        return Err(Refusal::Code(MISFIT, pos));
    }
    let of = nodes.promoted(s)?;
    let operand = nodes.converted(of, a.node)?;
    let node = nodes.step(Step::Unary(op), operand, of, pos)?;
    Ok(Operand { node, first: pos })
}

/// `+`, `-`, `~` and `!` (C11 6.5.3.3).
pub fn unary_on(
    nodes: &mut Nodes<'_>,
    op: UnaryOp,
    a: Operand,
    pos: Pos,
) -> Result<Operand, Refusal>
    requires whole { IsWhole nodes.old }
    requires operand { a.node < term_count nodes.old }
    ensures { Answers nodes.old nodes.new (unary_on op (operand_in nodes.old a) pos) IsOperand result }
{
    match op {
        UnaryOp::LogicalNot => negated(nodes, a, pos),
        UnaryOp::Plus => promoted_unary(nodes, UnaryOp::Plus, a, pos),
        UnaryOp::Minus => promoted_unary(nodes, UnaryOp::Minus, a, pos),
        UnaryOp::Complement => promoted_unary(nodes, UnaryOp::Complement, a, pos),
    }
}

/// `&&` (C11 6.5.13).
pub fn conjunction(
    nodes: &mut Nodes<'_>,
    a: Operand,
    b: Operand,
    pos: Pos,
) -> Result<Operand, Refusal>
    requires whole { IsWhole nodes.old }
    requires left { a.node < term_count nodes.old }
    requires right { b.node < term_count nodes.old }
    ensures { Answers nodes.old nodes.new (logical tree.And (operand_in nodes.old a) (operand_in nodes.old b) pos)
        IsOperand result }
{
    let s = nodes.of(a.node);
    let t = nodes.of(b.node);
    if !nodes.are_scalars(s, t) {
        return Err(Refusal::Code(MISFIT, a.first));
    }
    let of = nodes.int()?;
    let node = nodes.join(Join::And, a.node, b.node, of, pos)?;
    Ok(Operand {
        node,
        first: a.first,
    })
}

/// `||` (C11 6.5.14).
pub fn disjunction(
    nodes: &mut Nodes<'_>,
    a: Operand,
    b: Operand,
    pos: Pos,
) -> Result<Operand, Refusal>
    requires whole { IsWhole nodes.old }
    requires left { a.node < term_count nodes.old }
    requires right { b.node < term_count nodes.old }
    ensures { Answers nodes.old nodes.new (logical tree.Or (operand_in nodes.old a) (operand_in nodes.old b) pos)
        IsOperand result }
{
    let s = nodes.of(a.node);
    let t = nodes.of(b.node);
    if !nodes.are_scalars(s, t) {
        return Err(Refusal::Code(MISFIT, a.first));
    }
    let of = nodes.int()?;
    let node = nodes.join(Join::Or, a.node, b.node, of, pos)?;
    Ok(Operand {
        node,
        first: a.first,
    })
}

/// The comma operator (C11 6.5.17).
pub fn comma(nodes: &mut Nodes<'_>, a: Operand, b: Operand, pos: Pos) -> Result<Operand, Refusal>
    requires whole { IsWhole nodes.old }
    requires left { a.node < term_count nodes.old }
    requires right { b.node < term_count nodes.old }
    ensures { Answers nodes.old nodes.new (gives
        (join tree.Comma (operand_in nodes.old a).is (operand_in nodes.old b).is
        (tree.type_of (operand_in nodes.old b).is) pos) a.first) IsOperand result }
{
    let of = nodes.of(b.node);
    let node = nodes.join(Join::Comma, a.node, b.node, of, pos)?;
    Ok(Operand {
        node,
        first: a.first,
    })
}
