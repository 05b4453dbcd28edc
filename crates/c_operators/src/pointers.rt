//! Operators on pointers, and comparison (C11 6.5.6, 6.5.8, 6.5.9).

ghost use Rattle.std.specs.Prelude.{◌≡◌, ◌<◌, ◌&&◌, not, false, IfOk};
ghost use Rattle.c_tree.specs.Types.{common, int, long, is_function, compatible_bare};
ghost use Rattle.c_tree.specs.Terms as tree;
ghost use Rattle.c_tree.specs.Terms.{join};
ghost use Rattle.c_tree.specs.Constants.{is_null_constant};
ghost use Rattle.c_tree.specs.Conversions.{operand_type, converted_term};
ghost use Rattle.c_tree.specs.Expressions.{gives, promoted_term, sum_of, differ, difference_of, both_agree, compared};
ghost use Rattle.c_expressions.specs.Answers.{Answers};
ghost use Rattle.c_expressions.specs.Nodes.{IsWhole, HasTerm, IsOperand, Tells, operand_in, type_in, term_in};
ghost use Rattle.c_expressions.specs.Nodes.{type_count};
ghost use Rattle.c_expressions.specs.Nodes.{term_count};
ghost use Rattle.c_operators.specs.Rules.{infix_join_of, int_join_of, with_right, with_left, comparing, null_of};
ghost use Rattle.c_operators.specs.Rules.{fallback_of, comparing_as, comparing_pointers};

use crate::operators::{arithmetic, comma, conjunction, disjunction, shift};
use c_expressions::{Join, Nodes, Operand};
use c_tree::InfixOperator;
use ck_base::{MISFIT, NoMemory, Pos, Refusal};
use ck_int::{CmpOp, IntOp};

/// Which operand of a comparison is converted to the other one's type.
#[derive(Clone, Copy)]
enum Fallback {
    /// The right one, to the type of the left one.
    Right,
    /// The left one, to the type of the right one.
    Left,
    Neither,
}

// A pointer on the left that an integer moves.
fn moved_left(
    nodes: &mut Nodes<'_>,
    minus: bool,
    a: Operand,
    b: Operand,
    pos: Pos,
) -> Result<Operand, Refusal>
    requires whole { IsWhole nodes.old }
    requires left { a.node < term_count nodes.old }
    requires right { b.node < term_count nodes.old }
    ensures { Answers nodes.old nodes.new (gives
        (join (tree.Plus minus) (operand_in nodes.old a).is (promoted_term (operand_in nodes.old b).is)
        (operand_type (operand_in nodes.old a)) pos) a.first) IsOperand result }
{
    let of = nodes.of(a.node);
    let right = nodes.promoted_term(b.node)?;
    let node = nodes.join(Join::Plus(minus), a.node, right, of, pos)?;
    Ok(Operand {
        node,
        first: a.first,
    })
}

// A pointer on the right that an integer moves.
fn moved_right(nodes: &mut Nodes<'_>, a: Operand, b: Operand, pos: Pos) -> Result<Operand, Refusal>
    requires whole { IsWhole nodes.old }
    requires left { a.node < term_count nodes.old }
    requires right { b.node < term_count nodes.old }
    ensures { Answers nodes.old nodes.new (gives
        (join (tree.Plus false) (promoted_term (operand_in nodes.old a).is) (operand_in nodes.old b).is
        (operand_type (operand_in nodes.old b)) pos) a.first) IsOperand result }
{
    let of = nodes.of(b.node);
    let left = nodes.promoted_term(a.node)?;
    let node = nodes.join(Join::Plus(false), left, b.node, of, pos)?;
    Ok(Operand {
        node,
        first: a.first,
    })
}

/// A sum, where what pointers point to is known to be complete (C11 6.5.6).
pub fn sum_of(nodes: &mut Nodes<'_>, a: Operand, b: Operand, pos: Pos) -> Result<Operand, Refusal>
    requires whole { IsWhole nodes.old }
    requires left { a.node < term_count nodes.old }
    requires right { b.node < term_count nodes.old }
    ensures { Answers nodes.old nodes.new (sum_of (operand_in nodes.old a) (operand_in nodes.old b) pos) IsOperand
        result }
{
    let s = nodes.of(a.node);
    let t = nodes.of(b.node);
    if nodes.moves(s, t) {
        moved_left(nodes, false, a, b, pos)
    } else if nodes.moves(t, s) {
        moved_right(nodes, a, b, pos)
    } else {
        arithmetic(nodes, IntOp::Add, a, b, pos)
    }
}

fn differ_targets(nodes: &mut Nodes<'_>, s: u32, t: u32) -> Result<bool, NoMemory>
    requires whole { IsWhole nodes.old }
    requires first { s < type_count nodes.old }
    requires second { t < type_count nodes.old }
    ensures { IfOk result (λ b. Tells nodes.old nodes.new
        (not (is_function (type_in nodes.old s)) && compatible_bare (type_in nodes.old s) (type_in nodes.old t)) b) }
{
    let function = nodes.is_function(s);
    let compatible = nodes.compatible_bare(s, t)?;
    Ok(!function && compatible)
}

// Whether the difference of two pointers is a number.
#[tactic(auto, using(crate::proofs::Comparing::differ_pointers, crate::proofs::Comparing::differ_left, crate::proofs::Comparing::differ_right))]
fn differ(nodes: &mut Nodes<'_>, s: u32, t: u32) -> Result<bool, NoMemory>
    requires whole { IsWhole nodes.old }
    requires first { s < type_count nodes.old }
    requires second { t < type_count nodes.old }
    ensures { IfOk result (λ b. Tells nodes.old nodes.new (differ (type_in nodes.old s) (type_in nodes.old t)) b) }
{
    match nodes.target(s) {
        None => Ok(false),
        Some(x) => match nodes.target(t) {
            None => Ok(false),
            Some(y) => differ_targets(nodes, x, y),
        },
    }
}

fn pointer_difference(
    nodes: &mut Nodes<'_>,
    a: Operand,
    b: Operand,
    pos: Pos,
) -> Result<Operand, Refusal>
    requires whole { IsWhole nodes.old }
    requires left { a.node < term_count nodes.old }
    requires right { b.node < term_count nodes.old }
    ensures { Answers nodes.old nodes.new (gives
        (join tree.Difference (operand_in nodes.old a).is (operand_in nodes.old b).is long pos) a.first) IsOperand
        result }
{
    let of = nodes.long()?;
    let node = nodes.join(Join::Difference, a.node, b.node, of, pos)?;
    Ok(Operand {
        node,
        first: a.first,
    })
}

/// A difference, where what pointers point to is known to be complete (C11 6.5.6).
pub fn difference_of(
    nodes: &mut Nodes<'_>,
    a: Operand,
    b: Operand,
    pos: Pos,
) -> Result<Operand, Refusal>
    requires whole { IsWhole nodes.old }
    requires left { a.node < term_count nodes.old }
    requires right { b.node < term_count nodes.old }
    ensures { Answers nodes.old nodes.new (difference_of (operand_in nodes.old a) (operand_in nodes.old b) pos)
        IsOperand result }
{
    let s = nodes.of(a.node);
    let t = nodes.of(b.node);
    if nodes.moves(s, t) {
        return moved_left(nodes, true, a, b, pos);
    }
    let differ = differ(nodes, s, t)?;
    if differ {
        pointer_difference(nodes, a, b, pos)
    } else {
        arithmetic(nodes, IntOp::Sub, a, b, pos)
    }
}

// ---- comparison

fn comparison(nodes: &mut Nodes<'_>, op: CmpOp, a: u32, b: u32, pos: Pos) -> Result<u32, NoMemory>
    requires whole { IsWhole nodes.old }
    requires left { a < term_count nodes.old }
    requires right { b < term_count nodes.old }
    ensures { IfOk result (λ k. HasTerm nodes.old nodes.new k
        (join (tree.Compare op) (term_in nodes.old a) (term_in nodes.old b) int pos)) }
{
    let of = nodes.int()?;
    nodes.join(Join::Compare(op), a, b, of, pos)
}

fn compared_integers(
    nodes: &mut Nodes<'_>,
    op: CmpOp,
    a: Operand,
    b: Operand,
    pos: Pos,
) -> Result<Operand, Refusal>
    requires whole { IsWhole nodes.old }
    requires left { a.node < term_count nodes.old }
    requires right { b.node < term_count nodes.old }
    ensures { Answers nodes.old nodes.new (comparing op
        (converted_term (common (operand_type (operand_in nodes.old a)) (operand_type (operand_in nodes.old b)))
        (operand_in nodes.old a).is) (converted_term
        (common (operand_type (operand_in nodes.old a)) (operand_type (operand_in nodes.old b)))
        (operand_in nodes.old b).is) pos a.first) IsOperand result }
{
    let s = nodes.of(a.node);
    let t = nodes.of(b.node);
    let of = nodes.common(s, t)?;
    let left = nodes.converted(of, a.node)?;
    let right = nodes.converted(of, b.node)?;
    let node = comparison(nodes, op, left, right, pos)?;
    Ok(Operand {
        node,
        first: a.first,
    })
}

fn compared_alike(
    nodes: &mut Nodes<'_>,
    op: CmpOp,
    a: Operand,
    b: Operand,
    pos: Pos,
) -> Result<Operand, Refusal>
    requires whole { IsWhole nodes.old }
    requires left { a.node < term_count nodes.old }
    requires right { b.node < term_count nodes.old }
    ensures { Answers nodes.old nodes.new (comparing op (operand_in nodes.old a).is
        (operand_in nodes.old b).is pos a.first) IsOperand result }
{
    let node = comparison(nodes, op, a.node, b.node, pos)?;
    Ok(Operand {
        node,
        first: a.first,
    })
}

fn compared_right(
    nodes: &mut Nodes<'_>,
    op: CmpOp,
    a: Operand,
    b: Operand,
    pos: Pos,
) -> Result<Operand, Refusal>
    requires whole { IsWhole nodes.old }
    requires left { a.node < term_count nodes.old }
    requires right { b.node < term_count nodes.old }
    ensures { Answers nodes.old nodes.new (with_right op pos (operand_in nodes.old a) (operand_in nodes.old b))
        IsOperand result }
{
    let of = nodes.of(a.node);
    let right = nodes.converted(of, b.node)?;
    let node = comparison(nodes, op, a.node, right, pos)?;
    Ok(Operand {
        node,
        first: a.first,
    })
}

fn compared_left(
    nodes: &mut Nodes<'_>,
    op: CmpOp,
    a: Operand,
    b: Operand,
    pos: Pos,
) -> Result<Operand, Refusal>
    requires whole { IsWhole nodes.old }
    requires left { a.node < term_count nodes.old }
    requires right { b.node < term_count nodes.old }
    ensures { Answers nodes.old nodes.new (with_left op pos (operand_in nodes.old a) (operand_in nodes.old b)) IsOperand
        result }
{
    let of = nodes.of(b.node);
    let left = nodes.converted(of, a.node)?;
    let node = comparison(nodes, op, left, b.node, pos)?;
    Ok(Operand {
        node,
        first: a.first,
    })
}

// Whether two pointers point to compatible types.
#[tactic(auto, using(crate::proofs::Comparing::agree_pointers, crate::proofs::Comparing::agree_left, crate::proofs::Comparing::agree_right))]
fn both_agree(nodes: &mut Nodes<'_>, s: u32, t: u32) -> Result<bool, NoMemory>
    requires whole { IsWhole nodes.old }
    requires first { s < type_count nodes.old }
    requires second { t < type_count nodes.old }
    ensures { IfOk result (λ b. Tells nodes.old nodes.new (both_agree (type_in nodes.old s) (type_in nodes.old t)) b) }
{
    match nodes.target(s) {
        None => Ok(false),
        Some(x) => match nodes.target(t) {
            None => Ok(false),
            Some(y) => nodes.compatible_bare(x, y),
        },
    }
}

// A null pointer constant is converted to the other operand's type.
fn null_between(nodes: &Nodes<'_>, s: u32, t: u32, a: u32, b: u32) -> Fallback
    requires whole { IsWhole nodes.now }
    requires first { s < type_count nodes.now }
    requires second { t < type_count nodes.now }
    requires left { a < term_count nodes.now }
    requires right { b < term_count nodes.now }
    ensures { null_of (type_in nodes.now s) (type_in nodes.now t) (is_null_constant (term_in nodes.now a))
        (is_null_constant (term_in nodes.now b)) ≡ result }
{
    if nodes.is_pointer(s) && nodes.is_null(b) {
        Fallback::Right
    } else if nodes.is_pointer(t) && nodes.is_null(a) {
        Fallback::Left
    } else {
        Fallback::Neither
    }
}

// A pointer is converted to the type of a pointer to `void`.
fn fallback_between(nodes: &Nodes<'_>, s: u32, t: u32) -> Fallback
    requires whole { IsWhole nodes.now }
    requires first { s < type_count nodes.now }
    requires second { t < type_count nodes.now }
    ensures { fallback_of (type_in nodes.now s) (type_in nodes.now t) ≡ result }
{
    if nodes.is_pointer(s) && nodes.is_void_pointer(t) {
        Fallback::Left
    } else if nodes.is_void_pointer(s) && nodes.is_pointer(t) {
        Fallback::Right
    } else {
        Fallback::Neither
    }
}

fn compared_as(
    nodes: &mut Nodes<'_>,
    how: Fallback,
    op: CmpOp,
    a: Operand,
    b: Operand,
    pos: Pos,
) -> Result<Operand, Refusal>
    requires whole { IsWhole nodes.old }
    requires left { a.node < term_count nodes.old }
    requires right { b.node < term_count nodes.old }
    ensures { Answers nodes.old nodes.new (comparing_as how op pos (operand_in nodes.old a) (operand_in nodes.old b))
        IsOperand result }
{
    match how {
        Fallback::Right => compared_right(nodes, op, a, b, pos),
        Fallback::Left => compared_left(nodes, op, a, b, pos),
        Fallback::Neither => Err(Refusal::Code(MISFIT, a.first)),
    }
}

// Two operands that are not both integers, neither a null pointer constant: their types agree, or one is a pointer to
// `void`.
fn compared_pointers(
    nodes: &mut Nodes<'_>,
    op: CmpOp,
    a: Operand,
    b: Operand,
    pos: Pos,
) -> Result<Operand, Refusal>
    requires whole { IsWhole nodes.old }
    requires left { a.node < term_count nodes.old }
    requires right { b.node < term_count nodes.old }
    ensures { Answers nodes.old nodes.new (comparing_pointers op pos (operand_in nodes.old a) (operand_in nodes.old b))
        IsOperand result }
{
    let s = nodes.of(a.node);
    let t = nodes.of(b.node);
    let how = fallback_between(nodes, s, t);
    let agree = both_agree(nodes, s, t)?;
    if agree {
        compared_alike(nodes, op, a, b, pos)
    } else {
        compared_as(nodes, how, op, a, b, pos)
    }
}

/// A comparison (C11 6.5.8, 6.5.9).
pub fn compared(
    nodes: &mut Nodes<'_>,
    op: CmpOp,
    a: Operand,
    b: Operand,
    pos: Pos,
) -> Result<Operand, Refusal>
    requires whole { IsWhole nodes.old }
    requires left { a.node < term_count nodes.old }
    requires right { b.node < term_count nodes.old }
    ensures { Answers nodes.old nodes.new (compared op (operand_in nodes.old a) (operand_in nodes.old b) pos) IsOperand
        result }
{
    let s = nodes.of(a.node);
    let t = nodes.of(b.node);
    if nodes.are_integers(s, t) {
        return compared_integers(nodes, op, a, b, pos);
    }
    match null_between(nodes, s, t, a.node, b.node) {
        Fallback::Right => compared_right(nodes, op, a, b, pos),
        Fallback::Left => compared_left(nodes, op, a, b, pos),
        Fallback::Neither => compared_pointers(nodes, op, a, b, pos),
    }
}

// ---- two operands

fn int_join_of(
    nodes: &mut Nodes<'_>,
    op: IntOp,
    a: Operand,
    b: Operand,
    pos: Pos,
) -> Result<Operand, Refusal>
    requires whole { IsWhole nodes.old }
    requires left { a.node < term_count nodes.old }
    requires right { b.node < term_count nodes.old }
    ensures { Answers nodes.old nodes.new (int_join_of op (operand_in nodes.old a) (operand_in nodes.old b) pos)
        IsOperand result }
{
    match op {
        IntOp::Add => sum_of(nodes, a, b, pos),
        IntOp::Sub => difference_of(nodes, a, b, pos),
        IntOp::Shl => shift(nodes, IntOp::Shl, a, b, pos),
        IntOp::Shr => shift(nodes, IntOp::Shr, a, b, pos),
        IntOp::Mul => arithmetic(nodes, IntOp::Mul, a, b, pos),
        IntOp::Div => arithmetic(nodes, IntOp::Div, a, b, pos),
        IntOp::Rem => arithmetic(nodes, IntOp::Rem, a, b, pos),
        IntOp::And => arithmetic(nodes, IntOp::And, a, b, pos),
        IntOp::Or => arithmetic(nodes, IntOp::Or, a, b, pos),
        IntOp::Xor => arithmetic(nodes, IntOp::Xor, a, b, pos),
    }
}

/// An operator between two operands, where what pointers point to is known to be complete (C11 6.5.5 to 6.5.14,
/// 6.5.17).
pub fn infix_join_of(
    nodes: &mut Nodes<'_>,
    op: InfixOperator,
    a: Operand,
    b: Operand,
    pos: Pos,
) -> Result<Operand, Refusal>
    requires whole { IsWhole nodes.old }
    requires left { a.node < term_count nodes.old }
    requires right { b.node < term_count nodes.old }
    ensures { Answers nodes.old nodes.new (infix_join_of op (operand_in nodes.old a) (operand_in nodes.old b) pos)
        IsOperand result }
{
    match op {
        InfixOperator::Int(op) => int_join_of(nodes, op, a, b, pos),
        InfixOperator::Compare(op) => compared(nodes, op, a, b, pos),
        InfixOperator::And => conjunction(nodes, a, b, pos),
        InfixOperator::Or => disjunction(nodes, a, b, pos),
        InfixOperator::Comma => comma(nodes, a, b, pos),
    }
}
