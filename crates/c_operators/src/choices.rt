//! The conditional operator (C11 6.5.15).

ghost use Rattle.std.specs.Prelude.{◌≡◌, ◌<◌, ◌&&◌, ◌||◌, IfOk};
ghost use Rattle.c_tree.specs.Types.{Pointer, bare, bare_elements, composite, is_const, is_tagged, is_void, same};
ghost use Rattle.c_tree.specs.Types as types;
ghost use Rattle.c_tree.specs.Constants.{is_null_constant};
ghost use Rattle.c_tree.specs.Expressions.{with_const_of, pointer_arms, arms_type, conditional};
ghost use Rattle.c_expressions.specs.Answers.{Answers};
ghost use Rattle.c_expressions.specs.Nodes.{IsWhole, IsOperand, HasType, HasMaybe, operand_in, type_in, term_in};
ghost use Rattle.c_expressions.specs.Nodes.{type_count};
ghost use Rattle.c_expressions.specs.Nodes.{term_count};
ghost use Rattle.c_operators.specs.Choices.{conditional_with, arms_where, arms_as, target_arms};

use c_expressions::{Nodes, Operand};
use ck_base::{MISFIT, NoMemory, Pos, Refusal};

/// The type of a conditional expression, by those of its second and third operands.
#[derive(Clone, Copy)]
enum Arms {
    /// The common type of two integers.
    Common,
    /// That of the second operand.
    Second,
    /// That of the third operand.
    Third,
    /// A pointer to what both of them may point to, if there is one.
    Pointers,
}

// ---- pointers (C11 6.5.15p6)

fn is_either_const(nodes: &Nodes<'_>, s: u32, t: u32) -> bool
    requires whole { IsWhole nodes.now }
    requires first { s < type_count nodes.now }
    requires second { t < type_count nodes.now }
    ensures { (is_const (type_in nodes.now s) || is_const (type_in nodes.now t)) ≡ result }
{
    nodes.is_const(s) || nodes.is_const(t)
}

// Whether one of them is `void`, which may be qualified.
fn is_either_void(nodes: &Nodes<'_>, s: u32, t: u32) -> bool
    requires whole { IsWhole nodes.now }
    requires first { s < type_count nodes.now }
    requires second { t < type_count nodes.now }
    ensures { (is_void (bare (type_in nodes.now s)) || is_void (bare (type_in nodes.now t))) ≡ result }
{
    nodes.is_bare_void(s) || nodes.is_bare_void(t)
}

// A type with a qualifier where one of two others has one.
fn with_const_of(nodes: &mut Nodes<'_>, s: u32, t: u32, of: u32) -> Result<u32, NoMemory>
    requires whole { IsWhole nodes.old }
    requires first { s < type_count nodes.old }
    requires second { t < type_count nodes.old }
    requires of { of < type_count nodes.old }
    ensures { IfOk result (λ k. HasType nodes.old nodes.new k
        (with_const_of (type_in nodes.old s) (type_in nodes.old t) (type_in nodes.old of))) }
{
    if is_either_const(nodes, s, t) {
        nodes.qualified(of)
    } else {
        Ok(of)
    }
}

// The pointer to it.
fn pointer_with(nodes: &mut Nodes<'_>, s: u32, t: u32, of: u32) -> Result<u32, NoMemory>
    requires whole { IsWhole nodes.old }
    requires first { s < type_count nodes.old }
    requires second { t < type_count nodes.old }
    requires of { of < type_count nodes.old }
    ensures { IfOk result (λ k. HasType nodes.old nodes.new k
        (Pointer (with_const_of (type_in nodes.old s) (type_in nodes.old t) (type_in nodes.old of)))) }
{
    let to = with_const_of(nodes, s, t, of)?;
    nodes.pointer_to(to)
}

// The pointer to the composite of what two pointers point to.
fn composite_pointer(nodes: &mut Nodes<'_>, s: u32, t: u32) -> Result<u32, NoMemory>
    requires whole { IsWhole nodes.old }
    requires first { s < type_count nodes.old }
    requires second { t < type_count nodes.old }
    ensures { IfOk result (λ k. HasType nodes.old nodes.new k
        (Pointer (with_const_of (type_in nodes.old s) (type_in nodes.old t)
        (composite (bare_elements (type_in nodes.old s)) (bare_elements (type_in nodes.old t)))))) }
{
    let a = nodes.bare_elements(s)?;
    let b = nodes.bare_elements(t)?;
    let of = nodes.composite(a, b)?;
    pointer_with(nodes, s, t, of)
}

// The pointer to `void`.
fn void_pointer(nodes: &mut Nodes<'_>, s: u32, t: u32) -> Result<u32, NoMemory>
    requires whole { IsWhole nodes.old }
    requires first { s < type_count nodes.old }
    requires second { t < type_count nodes.old }
    ensures { IfOk result (λ k. HasType nodes.old nodes.new k
        (Pointer (with_const_of (type_in nodes.old s) (type_in nodes.old t) types.Void))) }
{
    pointer_with(nodes, s, t, nodes.void)
}

// The pointer that two pointers to these types become.
fn target_arms(nodes: &mut Nodes<'_>, s: u32, t: u32) -> Result<Option<u32>, NoMemory>
    requires whole { IsWhole nodes.old }
    requires first { s < type_count nodes.old }
    requires second { t < type_count nodes.old }
    ensures { IfOk result (λ o. HasMaybe nodes.old nodes.new o
        (target_arms (type_in nodes.old s) (type_in nodes.old t))) }
{
    let void = is_either_void(nodes, s, t);
    let compatible = nodes.compatible_bare(s, t)?;
    if compatible {
        let pointer = composite_pointer(nodes, s, t)?;
        Ok(Some(pointer))
    } else if void {
        let of = void_pointer(nodes, s, t)?;
        Ok(Some(of))
    } else {
        Ok(None)
    }
}

// The pointer that two pointers become.
fn pointer_arms(nodes: &mut Nodes<'_>, s: u32, t: u32) -> Result<Option<u32>, NoMemory>
    requires whole { IsWhole nodes.old }
    requires first { s < type_count nodes.old }
    requires second { t < type_count nodes.old }
    ensures { IfOk result (λ o. HasMaybe nodes.old nodes.new o
        (pointer_arms (type_in nodes.old s) (type_in nodes.old t))) }
{
    match nodes.target(s) {
        None => Ok(None),
        Some(x) => match nodes.target(t) {
            None => Ok(None),
            Some(y) => target_arms(nodes, x, y),
        },
    }
}

// ---- all types

// Whether both are the same struct or union.
fn same_tagged(nodes: &Nodes<'_>, s: u32, t: u32) -> Result<bool, NoMemory>
    requires whole { IsWhole nodes.now }
    requires first { s < type_count nodes.now }
    requires second { t < type_count nodes.now }
    ensures { IfOk result (λ b. (is_tagged (type_in nodes.now s) && same (type_in nodes.now s) (type_in nodes.now t))
        ≡ b) }
{
    if nodes.is_tagged(s) {
        nodes.same(s, t)
    } else {
        Ok(false)
    }
}

fn are_voids(nodes: &Nodes<'_>, s: u32, t: u32) -> bool
    requires whole { IsWhole nodes.now }
    requires first { s < type_count nodes.now }
    requires second { t < type_count nodes.now }
    ensures { (is_void (type_in nodes.now s) && is_void (type_in nodes.now t)) ≡ result }
{
    nodes.is_void(s) && nodes.is_void(t)
}

// Which type the result has, where it is known whether both are the same struct or union.
fn arms_where(nodes: &Nodes<'_>, tagged: bool, s: u32, t: u32, b: u32, c: u32) -> Arms
    requires whole { IsWhole nodes.now }
    requires first { s < type_count nodes.now }
    requires second { t < type_count nodes.now }
    requires left { b < term_count nodes.now }
    requires right { c < term_count nodes.now }
    ensures { arms_where tagged (type_in nodes.now s) (type_in nodes.now t) (is_null_constant (term_in nodes.now b))
        (is_null_constant (term_in nodes.now c)) ≡ result }
{
    if nodes.are_integers(s, t) {
        Arms::Common
    } else if are_voids(nodes, s, t) {
        Arms::Second
    } else if tagged {
        Arms::Second
    } else if nodes.is_pointer(s) && nodes.is_null(c) {
        Arms::Second
    } else if nodes.is_pointer(t) && nodes.is_null(b) {
        Arms::Third
    } else {
        Arms::Pointers
    }
}

fn arms_as(nodes: &mut Nodes<'_>, how: Arms, s: u32, t: u32) -> Result<Option<u32>, NoMemory>
    requires whole { IsWhole nodes.old }
    requires first { s < type_count nodes.old }
    requires second { t < type_count nodes.old }
    ensures { IfOk result (λ o. HasMaybe nodes.old nodes.new o
        (arms_as how (type_in nodes.old s) (type_in nodes.old t))) }
{
    match how {
        Arms::Common => {
            let of = nodes.common(s, t)?;
            Ok(Some(of))
        }
        Arms::Second => Ok(Some(s)),
        Arms::Third => Ok(Some(t)),
        Arms::Pointers => pointer_arms(nodes, s, t),
    }
}

// The type of the result of a conditional operator, by its second and third operands. There is none where they do not
// agree.
fn arms_type(nodes: &mut Nodes<'_>, b: Operand, c: Operand) -> Result<Option<u32>, NoMemory>
    requires whole { IsWhole nodes.old }
    requires second { b.node < term_count nodes.old }
    requires third { c.node < term_count nodes.old }
    ensures { IfOk result (λ o. HasMaybe nodes.old nodes.new o
        (arms_type (operand_in nodes.old b) (operand_in nodes.old c))) }
{
    let s = nodes.of(b.node);
    let t = nodes.of(c.node);
    let tagged = same_tagged(nodes, s, t)?;
    let how = arms_where(nodes, tagged, s, t, b.node, c.node);
    arms_as(nodes, how, s, t)
}

// A choice between two values that are converted to a type.
fn conditional_with(
    nodes: &mut Nodes<'_>,
    of: u32,
    a: Operand,
    b: Operand,
    c: Operand,
    pos: Pos,
) -> Result<Operand, Refusal>
    requires whole { IsWhole nodes.old }
    requires of { of < type_count nodes.old }
    requires condition { a.node < term_count nodes.old }
    requires second { b.node < term_count nodes.old }
    requires third { c.node < term_count nodes.old }
    ensures { Answers nodes.old nodes.new (conditional_with (type_in nodes.old of) (operand_in nodes.old a)
        (operand_in nodes.old b) (operand_in nodes.old c) pos) IsOperand result }
{
    if !nodes.is_scalar(nodes.of(a.node)) {
        return Err(Refusal::Code(MISFIT, a.first));
    }
    let left = nodes.converted(of, b.node)?;
    let right = nodes.converted(of, c.node)?;
    let node = nodes.choice(a.node, left, right, of, pos)?;
    Ok(Operand {
        node,
        first: a.first,
    })
}

/// A choice between two values.
pub fn conditional(
    nodes: &mut Nodes<'_>,
    a: Operand,
    b: Operand,
    c: Operand,
    pos: Pos,
) -> Result<Operand, Refusal>
    requires whole { IsWhole nodes.old }
    requires condition { a.node < term_count nodes.old }
    requires second { b.node < term_count nodes.old }
    requires third { c.node < term_count nodes.old }
    ensures { Answers nodes.old nodes.new (conditional (operand_in nodes.old a) (operand_in nodes.old b)
        (operand_in nodes.old c) pos) IsOperand result }
{
    match arms_type(nodes, b, c)? {
        None => Err(Refusal::Code(MISFIT, a.first)),
        Some(of) => conditional_with(nodes, of, a, b, c, pos),
    }
}
