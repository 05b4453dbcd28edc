//! Statements whose parts stand before them.

ghost use Rattle.std.specs.Prelude.{◌≡◌, ◌++◌, ◌∷◌, [], true};
ghost use Rattle.c_tree.specs.Views.{values, parts, listed, same_number};
ghost use Rattle.ordered_programs.specs.Uses.{Marks};
ghost use Rattle.ordered_programs.specs.Ordered.{StmtsOrdered};

use crate::marks::{mark, mark_all, mark_maybe};
use c_tree::{Stmt, StmtKind};

// Two numbers, as far as they are there.
fn mark_maybes(marks: &mut Vec<bool>, limit: usize, a: Option<u32>, b: Option<u32>) -> bool
    ensures { result ≡ true → Marks limit marks.old.items marks.new.items
        (listed same_number a ++ listed same_number b) }
{
    if !mark_maybe(marks, limit, a) {
        return false;
    }
    mark_maybe(marks, limit, b)
}

// A number and then another one, if it is there.
fn mark_branches(marks: &mut Vec<bool>, limit: usize, x: u32, y: Option<u32>) -> bool
    ensures { result ≡ true → Marks limit marks.old.items marks.new.items (x ∷ listed same_number y) }
{
    if !mark(marks, limit, x) {
        return false;
    }
    mark_maybe(marks, limit, y)
}

// Numbers and then another one.
fn mark_to(marks: &mut Vec<bool>, limit: usize, xs: &[u32], x: u32) -> bool
    ensures { result ≡ true → Marks limit marks.old.items marks.new.items (xs.now ++ x ∷ []) }
{
    if !mark_all(marks, limit, xs) {
        return false;
    }
    mark(marks, limit, x)
}

// Whether the expressions that a statement names are among so many and are used for the first time.
fn mark_values(marks: &mut Vec<bool>, count: usize, kind: &StmtKind) -> bool
    ensures { result ≡ true → Marks count marks.old.items marks.new.items (values kind.now) }
{
    match kind {
        StmtKind::Expr(a) => mark(marks, count, *a),
        StmtKind::Init { value, .. } => mark(marks, count, *value),
        StmtKind::If(a, _, _) => mark(marks, count, *a),
        StmtKind::While(a, _) => mark(marks, count, *a),
        StmtKind::Do(_, a) => mark(marks, count, *a),
        StmtKind::For { test, step, .. } => mark_maybes(marks, count, *test, *step),
        StmtKind::Switch { on, .. } => mark(marks, count, *on),
        StmtKind::Return(a) => mark_maybe(marks, count, *a),
        StmtKind::Block { .. } | StmtKind::Break | StmtKind::Continue | StmtKind::Empty => {
            mark_all(marks, count, &[])
        }
    }
}

// Whether the parts of statement `k` stand before it and are used for the first time.
fn mark_parts(marks: &mut Vec<bool>, k: usize, kind: &StmtKind) -> bool
    ensures { result ≡ true → Marks k marks.old.items marks.new.items (parts kind.now) }
{
    match kind {
        StmtKind::Block { body, .. } => mark_all(marks, k, body.as_slice()),
        StmtKind::If(_, x, y) => mark_branches(marks, k, *x, *y),
        StmtKind::While(_, x) => mark(marks, k, *x),
        StmtKind::Do(x, _) => mark(marks, k, *x),
        StmtKind::For { first, body, .. } => mark_to(marks, k, first.as_slice(), *body),
        StmtKind::Switch { body, .. } => mark_all(marks, k, body.as_slice()),
        StmtKind::Expr(_)
        | StmtKind::Init { .. }
        | StmtKind::Break
        | StmtKind::Continue
        | StmtKind::Return(_)
        | StmtKind::Empty => mark_all(marks, k, &[]),
    }
}

// Whether statement `k` names expressions among so many, and statements before it, each for the first time.
fn is_stmt_ordered(
    count: usize,
    k: usize,
    s: &Stmt,
    exprs: &mut Vec<bool>,
    stmts: &mut Vec<bool>,
) -> bool
    ensures values { result ≡ true → Marks count exprs.old.items exprs.new.items (values s.now.kind) }
    ensures parts { result ≡ true → Marks k stmts.old.items stmts.new.items (parts s.now.kind) }
{
    if !mark_values(exprs, count, &s.kind) {
        return false;
    }
    mark_parts(stmts, k, &s.kind)
}

/// Whether all statements of a list are so.
pub(crate) fn are_stmts_ordered(
    count: usize,
    list: &[Stmt],
    exprs: &mut Vec<bool>,
    stmts: &mut Vec<bool>,
) -> bool
    ensures { result ≡ true → StmtsOrdered count list.now exprs.old.items exprs.new.items
        stmts.old.items stmts.new.items }
{
    for k in 0..list.len() {
        if !is_stmt_ordered(count, k, &list[k], exprs, stmts) {
            return false;
        }
    }
    true
}
