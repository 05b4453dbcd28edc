//! What is complete, as far as the rules on operands ask (C11 6.2.5p1, 6.3.2.1, 6.5.6, 6.5.16.2).

ghost use Rattle.std.specs.Prelude.{◌≡◌, ◌<◌, ◌&&◌};
ghost use Rattle.c_tree.specs.Types.{is_integer, is_pointer, is_scalar};
ghost use Rattle.c_tree.specs.Scopes.{State, is_complete};
ghost use Rattle.c_tree.specs.Conversions.{is_readable};
ghost use Rattle.c_tree.specs.Expressions.{is_counted, is_additive};
ghost use Rattle.c_types.specs.Stands.{Stands};
ghost use Rattle.c_expressions.specs.Nodes.{IsWhole, type_in, term_in, type_count, term_count};
ghost use Rattle.c_operand_rules.specs.Complete.{is_sized, if_so, sum_counted, difference_counted, compound_counted};

use c_expressions::Nodes;
use ck_int::IntOp;

fn if_so(asked: bool, known: bool) -> bool
    ensures { if_so asked known ≡ result }
{
    !asked || known
}

fn is_additive(op: IntOp) -> bool
    ensures { is_additive op ≡ result }
{
    match op {
        IntOp::Add | IntOp::Sub => true,
        IntOp::Mul
        | IntOp::Div
        | IntOp::Rem
        | IntOp::And
        | IntOp::Or
        | IntOp::Xor
        | IntOp::Shl
        | IntOp::Shr => false,
    }
}

// ---- one type

// Whether a type is complete (C11 6.2.5p1).
fn is_complete(nodes: &Nodes<'_>, t: u32) -> bool
    ensures { (s : State) → Stands nodes.now.scopes nodes.now.p s →
        is_complete s (type_in nodes.now t) ≡ result }
{
    nodes.scopes.is_complete(&nodes.p, t)
}

/// Whether a type is that of a function, or complete (C11 6.2.5p1): what a pointer that is dereferenced points to.
pub fn is_sized(nodes: &Nodes<'_>, t: u32) -> bool
    requires whole { IsWhole nodes.now }
    requires there { t < type_count nodes.now }
    ensures { (s : State) → Stands nodes.now.scopes nodes.now.p s → is_sized s (type_in nodes.now t) ≡ result }
{
    nodes.is_function(t) || is_complete(nodes, t)
}

/// Whether a pointer of the type can be moved, as far as the size of what it points to goes (C11 6.5.6p2). Any other
/// type can.
pub fn is_counted(nodes: &Nodes<'_>, t: u32) -> bool
    requires whole { IsWhole nodes.now }
    requires there { t < type_count nodes.now }
    ensures { (s : State) → Stands nodes.now.scopes nodes.now.p s → is_counted s (type_in nodes.now t) ≡ result }
{
    match nodes.target(t) {
        None => true,
        Some(of) => is_sized(nodes, of),
    }
}

/// Whether an expression has a value (C11 6.3.2.1p2): not where its type is a struct or union that is not complete.
pub fn is_readable(nodes: &Nodes<'_>, node: u32) -> bool
    requires whole { IsWhole nodes.now }
    requires there { node < term_count nodes.now }
    ensures { (s : State) → Stands nodes.now.scopes nodes.now.p s → is_readable s (term_in nodes.now node) ≡ result }
{
    let of = nodes.of(node);
    let bare = nodes.bare(of);
    if_so(nodes.is_tagged(bare), is_complete(nodes, of))
}

// ---- two operands

fn is_pointer_with_integer(nodes: &Nodes<'_>, s: u32, t: u32) -> bool
    requires whole { IsWhole nodes.now }
    requires first { s < type_count nodes.now }
    requires second { t < type_count nodes.now }
    ensures { (is_pointer (type_in nodes.now s) && is_integer (type_in nodes.now t)) ≡ result }
{
    nodes.is_pointer(s) && nodes.is_integer(t)
}

fn is_integer_with_pointer(nodes: &Nodes<'_>, s: u32, t: u32) -> bool
    requires whole { IsWhole nodes.now }
    requires first { s < type_count nodes.now }
    requires second { t < type_count nodes.now }
    ensures { (is_integer (type_in nodes.now s) && is_pointer (type_in nodes.now t)) ≡ result }
{
    nodes.is_integer(s) && nodes.is_pointer(t)
}

fn is_pointer_with_scalar(nodes: &Nodes<'_>, s: u32, t: u32) -> bool
    requires whole { IsWhole nodes.now }
    requires first { s < type_count nodes.now }
    requires second { t < type_count nodes.now }
    ensures { (is_pointer (type_in nodes.now s) && is_scalar (type_in nodes.now t)) ≡ result }
{
    nodes.is_pointer(s) && nodes.is_scalar(t)
}

fn are_pointers(nodes: &Nodes<'_>, s: u32, t: u32) -> bool
    requires whole { IsWhole nodes.now }
    requires first { s < type_count nodes.now }
    requires second { t < type_count nodes.now }
    ensures { (is_pointer (type_in nodes.now s) && is_pointer (type_in nodes.now t)) ≡ result }
{
    nodes.is_pointer(s) && nodes.is_pointer(t)
}

/// Whether what a sum of operands of two types moves can be moved (C11 6.5.6p2).
pub fn is_sum_counted(nodes: &Nodes<'_>, s: u32, t: u32) -> bool
    requires whole { IsWhole nodes.now }
    requires first { s < type_count nodes.now }
    requires second { t < type_count nodes.now }
    ensures { (st : State) → Stands nodes.now.scopes nodes.now.p st →
        sum_counted st (type_in nodes.now s) (type_in nodes.now t) ≡ result }
{
    if_so(is_pointer_with_integer(nodes, s, t), is_counted(nodes, s))
        && if_so(is_integer_with_pointer(nodes, s, t), is_counted(nodes, t))
}

/// The same of a difference (C11 6.5.6p3).
pub fn is_difference_counted(nodes: &Nodes<'_>, s: u32, t: u32) -> bool
    requires whole { IsWhole nodes.now }
    requires first { s < type_count nodes.now }
    requires second { t < type_count nodes.now }
    ensures { (st : State) → Stands nodes.now.scopes nodes.now.p st →
        difference_counted st (type_in nodes.now s) (type_in nodes.now t) ≡ result }
{
    if_so(is_pointer_with_scalar(nodes, s, t), is_counted(nodes, s))
        && if_so(are_pointers(nodes, s, t), is_counted(nodes, t))
}

/// The same of a compound assignment by an operator (C11 6.5.16.2p1).
pub fn is_compound_counted(nodes: &Nodes<'_>, op: IntOp, s: u32, t: u32) -> bool
    requires whole { IsWhole nodes.now }
    requires first { s < type_count nodes.now }
    requires second { t < type_count nodes.now }
    ensures { (st : State) → Stands nodes.now.scopes nodes.now.p st →
        compound_counted st op (type_in nodes.now s) (type_in nodes.now t) ≡ result }
{
    if is_additive(op) {
        if_so(is_pointer_with_integer(nodes, s, t), is_counted(nodes, s))
    } else {
        true
    }
}
