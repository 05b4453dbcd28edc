//! Calls and `return` without structs and unions.

ghost use Rattle.std.specs.Prelude.{◌≡◌, true, Some, IfSome, slice_get};
ghost use Rattle.c_tree.specs.declared.typed.StmtKind.TheVariants as StmtKinds;
ghost use Rattle.plain_programs.specs.Plain.{ValuePlain, ValuesPlain, CallPlain, CallsPlain, ReturnPlain, ReturnsPlain};

use c_tree::{Expr, ExprKind, Stmt, StmtKind, Typed};
use passing_steps::by_pointer;

// The expression that a number names, if there is one.
fn look(exprs: &[Expr], a: u32) -> Option<&Expr>
    ensures { IfSome result (λ e. slice_get exprs.now a ≡ Some e.now) }
{
    exprs.get(a as usize)
}

// Whether an expression is there, and is no struct or union.
fn is_value_plain(p: &Typed, a: u32) -> bool
    ensures { result ≡ true → ValuePlain p.now a }
{
    match look(p.exprs.as_slice(), a) {
        None => false,
        Some(e) => !by_pointer(p.types.as_slice(), e.of),
    }
}

fn are_values_plain(p: &Typed, xs: &[u32]) -> bool
    ensures { result ≡ true → ValuesPlain p.now xs.now }
{
    for x in xs {
        if !is_value_plain(p, *x) {
            return false;
        }
    }
    true
}

// Whether an expression is no call, or one without such an argument and such a result.
fn is_call_plain(p: &Typed, e: &Expr) -> bool
    ensures { result ≡ true → CallPlain p.now e.now.kind e.now.of }
{
    match &e.kind {
        ExprKind::Call(_, xs) => {
            if by_pointer(p.types.as_slice(), e.of) {
                return false;
            }
            are_values_plain(p, xs.as_slice())
        }
        _ => true,
    }
}

/// Whether no call among some expressions of a program takes or gives a struct or union.
pub(crate) fn are_calls_plain(p: &Typed, exprs: &[Expr]) -> bool
    ensures { result ≡ true → CallsPlain p.now exprs.now }
{
    for e in exprs {
        if !is_call_plain(p, e) {
            return false;
        }
    }
    true
}

// Whether what `return` has, if it has a value, is no struct or union.
fn is_given_plain(p: &Typed, value: Option<u32>) -> bool
    ensures { result ≡ true → ReturnPlain p.now (StmtKinds.Return value) }
{
    match value {
        None => true,
        Some(a) => is_value_plain(p, a),
    }
}

// The same of a statement.
fn is_return_plain(p: &Typed, kind: &StmtKind) -> bool
    ensures { result ≡ true → ReturnPlain p.now kind.now }
{
    match kind {
        StmtKind::Return(value) => is_given_plain(p, *value),
        _ => true,
    }
}

/// Whether no `return` among some statements of a program has a struct or union.
pub(crate) fn are_returns_plain(p: &Typed, stmts: &[Stmt]) -> bool
    ensures { result ≡ true → ReturnsPlain p.now stmts.now }
{
    for s in stmts {
        if !is_return_plain(p, &s.kind) {
            return false;
        }
    }
    true
}
