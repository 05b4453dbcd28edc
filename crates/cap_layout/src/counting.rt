//! The counts of objects and copies.
ghost use Rattle.std.specs.Prelude.{◌≡◌, ◌≤◌, sum_by, slice_get};
ghost use Rattle.c_tree.specs.Layout.{extent, bare, size_limit};
ghost use Rattle.c_tree.specs.Weight.{counted};
ghost use Rattle.cap_layout.specs.Kept.{AreLayoutsOf};
ghost use Rattle.c_tree.specs.Counts.{parts, var_granules, fun_granules, granules, is_record, copied};
ghost use Rattle.c_tree.specs.Layout.{size_of};
ghost use Rattle.c_tree.specs.Counts.{expr_copies, value_copies, stmt_copies, copies};

use crate::kept::Layouts;
use crate::owning::owned;
use crate::records::{Record, record_at};
use c_tree::{Expr, ExprKind, FunDef, Stmt, StmtKind, Typed, VarDef};

fn parts(n: u64) -> u64
    requires { n ≤ 4294967296 }
    ensures { result ≡ parts n }
{
    n.div_ceil(16)
}

fn size_of(layouts: &Layouts, p: &Typed, t: u32) -> u64
    requires { AreLayoutsOf p.now.types layouts.now }
    ensures is { result ≡ size_of (extent p.now.types t) }
    ensures bound { result ≤ size_limit }
{
    match layouts.layout(p, t) {
        Ok(l) => l.size,
        Err(_) => 0,
    }
}

fn var_granules(layouts: &Layouts, p: &Typed, v: &VarDef) -> u64
    requires { AreLayoutsOf p.now.types layouts.now }
    ensures { result ≡ var_granules p.now.types v.now }
{
    if v.simple {
        0
    } else {
        parts(owned(size_of(layouts, p, v.of)).length)
    }
}

fn fun_granules(layouts: &Layouts, p: &Typed, f: &FunDef) -> u64
    requires { AreLayoutsOf p.now.types layouts.now }
    ensures { result ≡ counted (fun_granules p.now.types f.now) }
{
    let vars = f.vars.as_slice();
    let mut total: u64 = 0;
    for v in vars {
        total = total.saturating_add(var_granules(layouts, p, v));
    }
    total
}

/// How many parts of 16 bytes, rounded up for each object, all locals that are objects have. A count of 2^64 or more is
/// 2^64 - 1 here. A type without a layout counts nothing.
#[tactic(auto, unfolding(c_tree::specs::Counts::granules))]
pub fn granules(layouts: &Layouts, p: &Typed) -> u64
    requires { AreLayoutsOf p.now.types layouts.now }
    ensures { result ≡ counted (granules p.now) }
{
    let funs = p.funs.as_slice();
    let mut total: u64 = 0;
    for f in funs {
        total = total.saturating_add(fun_granules(layouts, p, f));
    }
    total
}

fn is_record(p: &Typed, t: u32) -> bool
    ensures { result ≡ is_record (bare p.now.types t) }
{
    let types = p.types.as_slice();
    match record_at(types, types.len(), t) {
        Record::Other => false,
        Record::Struct(_) | Record::Union(_) => true,
    }
}

fn copied(layouts: &Layouts, p: &Typed, t: u32) -> u64
    requires { AreLayoutsOf p.now.types layouts.now }
    ensures { result ≡ copied p.now.types t }
{
    if is_record(p, t) {
        parts(size_of(layouts, p, t))
    } else {
        0
    }
}

fn expr_copies(layouts: &Layouts, p: &Typed, e: &Expr) -> u64
    requires { AreLayoutsOf p.now.types layouts.now }
    ensures { result ≡ expr_copies p.now.types e.now }
{
    match e.kind {
        ExprKind::Assign(_, _) | ExprKind::Conditional(_, _, _) => copied(layouts, p, e.of),
        _ => 0,
    }
}

fn value_copies(layouts: &Layouts, p: &Typed, value: u32) -> u64
    requires { AreLayoutsOf p.now.types layouts.now }
    ensures { result ≡ value_copies p.now.types (slice_get p.now.exprs value) }
{
    match p.exprs.as_slice().get(value as usize) {
        None => 0,
        Some(e) => copied(layouts, p, e.of),
    }
}

fn stmt_copies(layouts: &Layouts, p: &Typed, s: &Stmt) -> u64
    requires { AreLayoutsOf p.now.types layouts.now }
    ensures { result ≡ stmt_copies p.now.types p.now.exprs s.now }
{
    match s.kind {
        StmtKind::Init { value, .. } => value_copies(layouts, p, value),
        _ => 0,
    }
}

fn exprs_copies(layouts: &Layouts, p: &Typed) -> u64
    requires { AreLayoutsOf p.now.types layouts.now }
    ensures { result ≡ counted (sum_by (expr_copies p.now.types) p.now.exprs) }
{
    let exprs = p.exprs.as_slice();
    let mut total: u64 = 0;
    for e in exprs {
        total = total.saturating_add(expr_copies(layouts, p, e));
    }
    total
}

fn stmts_copies(layouts: &Layouts, p: &Typed) -> u64
    requires { AreLayoutsOf p.now.types layouts.now }
    ensures { result ≡ counted (sum_by (stmt_copies p.now.types p.now.exprs) p.now.stmts) }
{
    let stmts = p.stmts.as_slice();
    let mut total: u64 = 0;
    for s in stmts {
        total = total.saturating_add(stmt_copies(layouts, p, s));
    }
    total
}

/// How many parts of 16 bytes, rounded up for each copy, are copied by the assignments of structs and unions, by the
/// initialisations from their values and by the conditional expressions that choose one. A count of 2^64 or more is
/// 2^64 - 1 here.
#[tactic(auto, unfolding(c_tree::specs::Counts::copies))]
pub fn copies(layouts: &Layouts, p: &Typed) -> u64
    requires { AreLayoutsOf p.now.types layouts.now }
    ensures { result ≡ counted (copies p.now) }
{
    exprs_copies(layouts, p).saturating_add(stmts_copies(layouts, p))
}
