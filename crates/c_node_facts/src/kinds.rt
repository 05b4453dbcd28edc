//! The operands of an expression, and the expression with others.

ghost use Rattle.std.specs.Prelude.{◌≡◌, ◌<◌, ◌∷◌, [], true, IfOk, length};
ghost use Rattle.c_tree.specs.Views.{operands};
ghost use Rattle.c_node_facts.specs.Operands.{is_step, is_join, is_inner, IsPlainWith, IsCallOf};

use crate::lists::{list_from, list_of_one, list_of_three, list_of_two, listed, one, three, two};
use c_tree::ExprKind;
use ck_base::{NoMemory, Sequence};
use std::alloc::Global;

/// The numbers of an expression's operands, in the order of the source.
pub fn operands(alloc: Global, kind: &ExprKind) -> Result<Vec<u32>, NoMemory>
    ensures { IfOk result (λ v. v.items ≡ operands kind.now) }
{
    match kind {
        ExprKind::Constant(_)
        | ExprKind::Literal(_)
        | ExprKind::Var(_)
        | ExprKind::Global(_)
        | ExprKind::Fun(_) => Ok(Vec::new(alloc)),
        ExprKind::Load(a)
        | ExprKind::Decay(a)
        | ExprKind::Deref(a)
        | ExprKind::Member(a, _)
        | ExprKind::Address(a)
        | ExprKind::Convert(a)
        | ExprKind::Unary(_, a)
        | ExprKind::Step(a, _, _) => list_of_one(alloc, *a),
        ExprKind::Int(_, a, b)
        | ExprKind::Capability(_, a, b, _)
        | ExprKind::Plus(a, b, _)
        | ExprKind::Difference(a, b)
        | ExprKind::Compare(_, a, b)
        | ExprKind::And(a, b)
        | ExprKind::Or(a, b)
        | ExprKind::Comma(a, b)
        | ExprKind::Assign(a, b)
        | ExprKind::Compound(_, a, b, _) => list_of_two(alloc, *a, *b),
        ExprKind::Conditional(a, b, c) => list_of_three(alloc, *a, *b, *c),
        ExprKind::Call(f, xs) => list_from(alloc, *f, xs.as_slice()),
        ExprKind::Library(_, xs) => listed(alloc, xs.as_slice()),
    }
}

fn step_with(kind: &ExprKind, a: u32) -> ExprKind
    requires { is_step kind.now ≡ true }
    ensures { IsPlainWith kind.now (a ∷ []) result }
{
    match kind {
        ExprKind::Load(_) => ExprKind::Load(a),
        ExprKind::Decay(_) => ExprKind::Decay(a),
        ExprKind::Deref(_) => ExprKind::Deref(a),
        ExprKind::Member(_, k) => ExprKind::Member(a, *k),
        ExprKind::Address(_) => ExprKind::Address(a),
        ExprKind::Convert(_) => ExprKind::Convert(a),
        ExprKind::Unary(o, _) => ExprKind::Unary(*o, a),
        ExprKind::Step(_, adds, in_front) => ExprKind::Step(a, *adds, *in_front),
        _ => unreachable!(),
    }
}

fn join_with(kind: &ExprKind, a: u32, b: u32) -> ExprKind
    requires { is_join kind.now ≡ true }
    ensures { IsPlainWith kind.now (a ∷ b ∷ []) result }
{
    match kind {
        ExprKind::Int(o, _, _) => ExprKind::Int(*o, a, b),
        ExprKind::Capability(o, _, _, r) => ExprKind::Capability(*o, a, b, *r),
        ExprKind::Plus(_, _, minus) => ExprKind::Plus(a, b, *minus),
        ExprKind::Difference(_, _) => ExprKind::Difference(a, b),
        ExprKind::Compare(o, _, _) => ExprKind::Compare(*o, a, b),
        ExprKind::And(_, _) => ExprKind::And(a, b),
        ExprKind::Or(_, _) => ExprKind::Or(a, b),
        ExprKind::Comma(_, _) => ExprKind::Comma(a, b),
        ExprKind::Assign(_, _) => ExprKind::Assign(a, b),
        ExprKind::Compound(o, _, _, of) => ExprKind::Compound(*o, a, b, *of),
        _ => unreachable!(),
    }
}

fn call_with(alloc: Global, xs: &[u32]) -> Result<ExprKind, NoMemory>
    requires { 0 < length xs.now }
    ensures { IfOk result (IsCallOf xs.now) }
{
    match xs {
        [f, ys @ ..] => {
            let rest = listed(alloc, ys)?;
            Ok(ExprKind::Call(*f, Sequence::from_vec(rest)))
        }
        [] => unreachable!(),
    }
}

/// The expression with these operands, of one that names no object or function: as many as it has.
pub fn inner_with(alloc: Global, kind: &ExprKind, xs: &[u32]) -> Result<ExprKind, NoMemory>
    requires inner { is_inner kind.now ≡ true }
    requires count { length xs.now ≡ length (operands kind.now) }
    ensures { IfOk result (IsPlainWith kind.now xs.now) }
{
    match kind {
        ExprKind::Conditional(_, _, _) => {
            let (a, b, c) = three(xs);
            Ok(ExprKind::Conditional(a, b, c))
        }
        ExprKind::Call(_, _) => call_with(alloc, xs),
        ExprKind::Library(k, _) => {
            let args = listed(alloc, xs)?;
            Ok(ExprKind::Library(*k, Sequence::from_vec(args)))
        }
        ExprKind::Load(_)
        | ExprKind::Decay(_)
        | ExprKind::Deref(_)
        | ExprKind::Member(_, _)
        | ExprKind::Address(_)
        | ExprKind::Convert(_)
        | ExprKind::Unary(_, _)
        | ExprKind::Step(_, _, _) => {
            let a = one(xs);
            Ok(step_with(kind, a))
        }
        _ => {
            let (a, b) = two(xs);
            Ok(join_with(kind, a, b))
        }
    }
}
