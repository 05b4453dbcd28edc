//! Expressions whose operands stand before them.

ghost use Rattle.std.specs.Prelude.{◌≡◌, ◌<◌, ◌∷◌, [], true};
ghost use Rattle.c_tree.specs.Views.{operands};
ghost use Rattle.ordered_programs.specs.Uses.{Marks};
ghost use Rattle.ordered_programs.specs.Ordered.{ExprsOrdered};

use crate::marks::{mark, mark_all, mark_two};
use c_tree::{Expr, ExprKind};

fn mark_three(marks: &mut Vec<bool>, limit: usize, a: u32, b: u32, c: u32) -> bool
    ensures { result ≡ true → Marks limit marks.old.items marks.new.items (a ∷ b ∷ c ∷ []) }
{
    if !mark(marks, limit, a) {
        return false;
    }
    mark_two(marks, limit, b, c)
}

// A number and then others.
fn mark_from(marks: &mut Vec<bool>, limit: usize, f: u32, xs: &[u32]) -> bool
    ensures { result ≡ true → Marks limit marks.old.items marks.new.items (f ∷ xs.now) }
{
    if !mark(marks, limit, f) {
        return false;
    }
    mark_all(marks, limit, xs)
}

// Whether the operands of expression `k` stand before it and are used for the first time.
fn mark_operands(marks: &mut Vec<bool>, k: usize, kind: &ExprKind) -> bool
    ensures { result ≡ true → Marks k marks.old.items marks.new.items (operands kind.now) }
{
    match kind {
        ExprKind::Constant(_)
        | ExprKind::Literal(_)
        | ExprKind::Var(_)
        | ExprKind::Global(_)
        | ExprKind::Fun(_) => mark_all(marks, k, &[]),
        ExprKind::Load(a)
        | ExprKind::Decay(a)
        | ExprKind::Deref(a)
        | ExprKind::Member(a, _)
        | ExprKind::Address(a)
        | ExprKind::Convert(a)
        | ExprKind::Unary(_, a)
        | ExprKind::Step(a, _, _) => mark(marks, k, *a),
        ExprKind::Int(_, a, b)
        | ExprKind::Capability(_, a, b, _)
        | ExprKind::Plus(a, b, _)
        | ExprKind::Difference(a, b)
        | ExprKind::Compare(_, a, b)
        | ExprKind::And(a, b)
        | ExprKind::Or(a, b)
        | ExprKind::Comma(a, b)
        | ExprKind::Assign(a, b)
        | ExprKind::Compound(_, a, b, _) => mark_two(marks, k, *a, *b),
        ExprKind::Conditional(a, b, c) => mark_three(marks, k, *a, *b, *c),
        ExprKind::Call(f, xs) => mark_from(marks, k, *f, xs.as_slice()),
        ExprKind::Library(_, xs) => mark_all(marks, k, xs.as_slice()),
    }
}

// Whether expression `k` has one of so many types, and its operands stand before it and are used for the first time.
fn is_expr_ordered(types: usize, k: usize, e: &Expr, marks: &mut Vec<bool>) -> bool
    ensures typed { result ≡ true → e.now.of < types }
    ensures operands { result ≡ true → Marks k marks.old.items marks.new.items (operands e.now.kind) }
{
    if (e.of as usize) >= types {
        return false;
    }
    mark_operands(marks, k, &e.kind)
}

/// Whether all expressions of a list are so.
pub(crate) fn are_exprs_ordered(types: usize, exprs: &[Expr], marks: &mut Vec<bool>) -> bool
    ensures { result ≡ true → ExprsOrdered types exprs.now marks.old.items marks.new.items }
{
    for k in 0..exprs.len() {
        if !is_expr_ordered(types, k, &exprs[k], marks) {
            return false;
        }
    }
    true
}
