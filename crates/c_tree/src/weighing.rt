//! The weight of a program.
ghost use Rattle.std.specs.Prelude.{◌≡◌, sum_by};
ghost use Rattle.c_tree.specs.Weight.{counted, expr_weight, stmt_weight, fun_weight, weight};

use crate::typed::{Expr, ExprKind, FunDef, Stmt, StmtKind, Typed};

/// The weight of an expression without its operands.
pub fn expr_weight(e: &Expr) -> u64
    ensures { result ≡ expr_weight e.now }
{
    match e.kind {
        ExprKind::Call(_, _) | ExprKind::Library(_, _) => 4,
        _ => 1,
    }
}

fn exprs_weight(exprs: &[Expr]) -> u64
    ensures { result ≡ counted (sum_by expr_weight exprs.now) }
{
    let mut total: u64 = 0;
    for e in exprs {
        total = total.saturating_add(expr_weight(e));
    }
    total
}

/// The weight of a statement without its expressions and parts.
pub fn stmt_weight(s: &Stmt) -> u64
    ensures { result ≡ stmt_weight s.now }
{
    match &s.kind {
        StmtKind::Switch { labels, .. } => 1 + labels.as_slice().len() as u64,
        _ => 1,
    }
}

fn stmts_weight(stmts: &[Stmt]) -> u64
    ensures { result ≡ counted (sum_by stmt_weight stmts.now) }
{
    let mut total: u64 = 0;
    for s in stmts {
        total = total.saturating_add(stmt_weight(s));
    }
    total
}

/// The weight of a function without its body.
pub fn fun_weight(f: &FunDef) -> u64
    ensures { result ≡ fun_weight f.now }
{
    8 + f.vars.as_slice().len() as u64
}

fn funs_weight(funs: &[FunDef]) -> u64
    ensures { result ≡ counted (sum_by fun_weight funs.now) }
{
    let mut total: u64 = 0;
    for f in funs {
        total = total.saturating_add(fun_weight(f));
    }
    total
}

/// The weight of a program, which bounds the size of its code: 1 for each expression, but 4 for a call; 1 for each
/// statement, each label of a `switch`, each parameter and each other local; and 8 for each function. A weight of 2^64
/// or more is 2^64 - 1 here.
#[tactic(auto, unfolding(crate::specs::Weight::weight))]
pub fn weight(p: &Typed) -> u64
    ensures { result ≡ counted (weight p.now) }
{
    let exprs = exprs_weight(p.exprs.as_slice());
    let stmts = stmts_weight(p.stmts.as_slice());
    let funs = funs_weight(p.funs.as_slice());
    exprs.saturating_add(stmts).saturating_add(funs)
}
