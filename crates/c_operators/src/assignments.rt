//! Assignments, addresses and casts (C11 6.5.3.2, 6.5.4, 6.5.16).

ghost use Rattle.std.specs.Prelude.{◌≡◌, ◌<◌, ◌&&◌, ◌||◌, if◌then◌else◌, IfOk};
ghost use Rattle.c_tree.specs.Types.{promoted, common, is_pointer, is_function};
ghost use Rattle.c_tree.specs.Terms.{type_of};
ghost use Rattle.c_tree.specs.Conversions.{converted_term, is_place};
ghost use Rattle.c_tree.specs.Expressions.{assign, is_modifiable, is_additive, is_shift, computed_in, right_of};
ghost use Rattle.c_tree.specs.Expressions.{compounds, casts, cast, as_qualified};
ghost use Rattle.c_expressions.specs.Answers.{Answers};
ghost use Rattle.c_expressions.specs.Facts.{local_of};
ghost use Rattle.c_expressions.specs.Nodes.{IsWhole, HasTerm, HasType, IsOperand, operand_in, type_in, term_in};
ghost use Rattle.c_expressions.specs.Nodes.{type_count};
ghost use Rattle.c_expressions.specs.Nodes.{term_count};
ghost use Rattle.c_operators.specs.Rules.{compound_of, address_of};

use c_expressions::{Join, Nodes, Operand, Step};
use ck_base::{MISFIT, NoMemory, Pos, Refusal};
use ck_int::IntOp;

fn is_additive(op: IntOp) -> bool
    ensures { is_additive op ≡ result }
{
    match op {
        IntOp::Add | IntOp::Sub => true,
        IntOp::Mul
        | IntOp::Div
        | IntOp::Rem
        | IntOp::And
        | IntOp::Or
        | IntOp::Xor
        | IntOp::Shl
        | IntOp::Shr => false,
    }
}

fn is_shift(op: IntOp) -> bool
    ensures { is_shift op ≡ result }
{
    match op {
        IntOp::Shl | IntOp::Shr => true,
        IntOp::Add
        | IntOp::Sub
        | IntOp::Mul
        | IntOp::Div
        | IntOp::Rem
        | IntOp::And
        | IntOp::Or
        | IntOp::Xor => false,
    }
}

/// A simple assignment (C11 6.5.16.1).
pub fn assign(nodes: &mut Nodes<'_>, a: Operand, b: Operand, pos: Pos) -> Result<Operand, Refusal>
    requires whole { IsWhole nodes.old }
    requires left { a.node < term_count nodes.old }
    requires right { b.node < term_count nodes.old }
    ensures { Answers nodes.old nodes.new (assign (operand_in nodes.old a) (operand_in nodes.old b) pos) IsOperand
        result }
{
    if !nodes.is_modifiable(a.node) {
        return Err(Refusal::Code(MISFIT, a.first));
    }
    let of = nodes.of(a.node);
    let to = nodes.bare(of);
    let value = nodes.assigned(of, b)?;
    let node = nodes.join(Join::Assign, a.node, value, to, pos)?;
    Ok(Operand {
        node,
        first: a.first,
    })
}

// ---- compound assignment (C11 6.5.16.2)

fn may_compound(nodes: &Nodes<'_>, op: IntOp, node: u32, s: u32, t: u32) -> bool
    requires whole { IsWhole nodes.now }
    requires node { node < term_count nodes.now }
    requires first { s < type_count nodes.now }
    requires second { t < type_count nodes.now }
    ensures { (is_modifiable (term_in nodes.now node) && compounds op (type_in nodes.now s) (type_in nodes.now t))
        ≡ result }
{
    nodes.is_modifiable(node)
        && ((is_additive(op) && nodes.moves(s, t)) || nodes.are_integers(s, t))
}

fn computed_integers(nodes: &mut Nodes<'_>, op: IntOp, s: u32, t: u32) -> Result<u32, NoMemory>
    requires whole { IsWhole nodes.old }
    requires first { s < type_count nodes.old }
    requires second { t < type_count nodes.old }
    ensures { IfOk result (λ k. HasType nodes.old nodes.new k
        (if is_shift op then promoted (type_in nodes.old s)
        else common (type_in nodes.old s) (type_in nodes.old t))) }
{
    if is_shift(op) {
        nodes.promoted(s)
    } else {
        nodes.common(s, t)
    }
}

// The type in which a compound assignment is computed.
fn computed_in(nodes: &mut Nodes<'_>, op: IntOp, s: u32, t: u32) -> Result<u32, NoMemory>
    requires whole { IsWhole nodes.old }
    requires first { s < type_count nodes.old }
    requires second { t < type_count nodes.old }
    ensures { IfOk result (λ k. HasType nodes.old nodes.new k
        (computed_in op (type_in nodes.old s) (type_in nodes.old t))) }
{
    if nodes.is_pointer(s) {
        Ok(s)
    } else {
        computed_integers(nodes, op, s, t)
    }
}

fn right_is_promoted(nodes: &Nodes<'_>, op: IntOp, s: u32) -> bool
    requires whole { IsWhole nodes.now }
    requires there { s < type_count nodes.now }
    ensures { (is_pointer (type_in nodes.now s) || is_shift op) ≡ result }
{
    nodes.is_pointer(s) || is_shift(op)
}

fn common_right(nodes: &mut Nodes<'_>, s: u32, node: u32) -> Result<u32, NoMemory>
    requires whole { IsWhole nodes.old }
    requires there { s < type_count nodes.old }
    requires node { node < term_count nodes.old }
    ensures { IfOk result (λ k. HasTerm nodes.old nodes.new k
        (converted_term (common (type_in nodes.old s) (type_of (term_in nodes.old node))) (term_in nodes.old node))) }
{
    let t = nodes.of(node);
    let of = nodes.common(s, t)?;
    nodes.converted(of, node)
}

// The right operand of a compound assignment.
fn right_of(nodes: &mut Nodes<'_>, op: IntOp, s: u32, node: u32) -> Result<u32, NoMemory>
    requires whole { IsWhole nodes.old }
    requires there { s < type_count nodes.old }
    requires node { node < term_count nodes.old }
    ensures { IfOk result (λ k. HasTerm nodes.old nodes.new k
        (right_of op (type_in nodes.old s) (term_in nodes.old node))) }
{
    if right_is_promoted(nodes, op, s) {
        nodes.promoted_term(node)
    } else {
        common_right(nodes, s, node)
    }
}

/// A compound assignment, where what a pointer points to is known to be complete.
pub fn compound_of(
    nodes: &mut Nodes<'_>,
    op: IntOp,
    a: Operand,
    b: Operand,
    pos: Pos,
) -> Result<Operand, Refusal>
    requires whole { IsWhole nodes.old }
    requires left { a.node < term_count nodes.old }
    requires right { b.node < term_count nodes.old }
    ensures { Answers nodes.old nodes.new (compound_of op (operand_in nodes.old a) (operand_in nodes.old b) pos)
        IsOperand result }
{
    let of = nodes.of(a.node);
    let s = nodes.bare(of);
    let t = nodes.of(b.node);
    if !may_compound(nodes, op, a.node, s, t) {
        return Err(Refusal::Code(MISFIT, a.first));
    }
    let computed = computed_in(nodes, op, s, t)?;
    let right = right_of(nodes, op, s, b.node)?;
    let node = nodes.join(Join::Compound(op, computed), a.node, right, s, pos)?;
    Ok(Operand {
        node,
        first: a.first,
    })
}

// ---- addresses (C11 6.5.3.2)

fn has_address(nodes: &Nodes<'_>, node: u32, of: u32) -> bool
    requires whole { IsWhole nodes.now }
    requires node { node < term_count nodes.now }
    requires there { of < type_count nodes.now }
    ensures { (is_place (term_in nodes.now node) || is_function (type_in nodes.now of)) ≡ result }
{
    nodes.is_place(node) || nodes.is_function(of)
}

/// The address of a place or function.
pub fn address_of(nodes: &mut Nodes<'_>, a: Operand, pos: Pos) -> Result<Operand, Refusal>
    requires whole { IsWhole nodes.old }
    requires operand { a.node < term_count nodes.old }
    ensures { Answers nodes.old nodes.new (address_of (operand_in nodes.old a) pos) IsOperand result }
{
    let of = nodes.of(a.node);
    if !has_address(nodes, a.node, of) {
        return Err(Refusal::Code(MISFIT, pos));
    }
    let to = nodes.pointer_to(of)?;
    let node = nodes.step(Step::Address, a.node, to, pos)?;
    Ok(Operand { node, first: pos })
}

/// The local whose address `&` takes.
pub fn local_of(nodes: &Nodes<'_>, node: u32) -> Option<u32>
    requires whole { IsWhole nodes.now }
    requires there { node < term_count nodes.now }
    ensures { local_of (term_in nodes.now node) ≡ result }
{
    nodes.fact(node).local
}

// ---- casts (C11 6.5.4)

fn casts(nodes: &Nodes<'_>, to: u32, of: u32) -> bool
    requires whole { IsWhole nodes.now }
    requires to { to < type_count nodes.now }
    requires of { of < type_count nodes.now }
    ensures { casts (type_in nodes.now to) (type_in nodes.now of) ≡ result }
{
    nodes.is_void(to) || nodes.are_scalars(to, of)
}

/// A cast to a type.
pub fn cast(nodes: &mut Nodes<'_>, t: u32, a: Operand, pos: Pos) -> Result<Operand, Refusal>
    requires whole { IsWhole nodes.old }
    requires to { t < type_count nodes.old }
    requires operand { a.node < term_count nodes.old }
    ensures { Answers nodes.old nodes.new (cast (type_in nodes.old t) (operand_in nodes.old a) pos) IsOperand result }
{
    let to = nodes.bare(t);
    let of = nodes.of(a.node);
    if !casts(nodes, to, of) {
        return Err(Refusal::Code(MISFIT, pos));
    }
    let node = nodes.convert(a.node, to, pos)?;
    Ok(Operand { node, first: pos })
}

/// A member's type, qualified where that of the struct or union is (C11 6.5.2.3p3).
pub fn as_qualified(nodes: &mut Nodes<'_>, s: u32, t: u32) -> Result<u32, NoMemory>
    requires whole { IsWhole nodes.old }
    requires first { s < type_count nodes.old }
    requires second { t < type_count nodes.old }
    ensures { IfOk result (λ k. HasType nodes.old nodes.new k
        (as_qualified (type_in nodes.old s) (type_in nodes.old t))) }
{
    if nodes.is_const(s) {
        nodes.qualified(t)
    } else {
        Ok(t)
    }
}
