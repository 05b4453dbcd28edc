//! The weights of a program's functions.
ghost use Rattle.std.specs.Prelude.{◌≡◌, ◌+◌, ◌<◌, ◌++◌, [], ◌∷◌, length, MatchOption, Some, None, slice_get};
ghost use Rattle.std.specs.List.{sum_by};
ghost use Rattle.c_tree.specs.TreeWeight.{function_weight};
ghost use Rattle.c_tree.specs.Views.{operands, values, parts};
ghost use Rattle.c_tree.specs.Weight.{kind_weight, labels_of};
ghost use Rattle.obj_mem.specs.Needs.{weight_in};
ghost use Rattle.tac_ir.specs.Temps.{in_option};
ghost use Rattle.tac_ir.specs.Weights.{capped, expression_weight, statement_weight, before};

use c_tree::{Expr, ExprKind, FunDef, Stmt, StmtKind, Typed};

/// How many there are.
fn count_of(o: Option<u32>) -> usize
    ensures { result ≡ length (in_option o) }
{
    match o {
        None => 0,
        Some(_) => 1,
    }
}

/// The first of two or three numbers, and so on.
fn of_two(a: u32, b: u32, i: usize) -> u32
    requires { i < 2 }
    ensures { slice_get (a ∷ b ∷ []) i ≡ Some result }
{
    if i == 0 { a } else { b }
}

fn of_three(a: u32, b: u32, c: u32, i: usize) -> u32
    requires { i < 3 }
    ensures { slice_get (a ∷ b ∷ c ∷ []) i ≡ Some result }
{
    if i == 0 { a } else { of_two(b, c, i - 1) }
}

fn listed(xs: &[u32], i: usize) -> u32
    requires { i < length xs.now }
    ensures { slice_get xs.now i ≡ Some result }
{
    xs[i]
}

/// How many expressions an expression names.
fn operand_count(kind: &ExprKind) -> usize
    ensures { result ≡ length (operands kind.now) }
{
    match kind {
        ExprKind::Load(_)
        | ExprKind::Decay(_)
        | ExprKind::Deref(_)
        | ExprKind::Member(_, _)
        | ExprKind::Address(_)
        | ExprKind::Convert(_)
        | ExprKind::Unary(_, _)
        | ExprKind::Step(_, _, _) => 1,
        ExprKind::Int(_, _, _)
        | ExprKind::Capability(_, _, _, _)
        | ExprKind::Plus(_, _, _)
        | ExprKind::Difference(_, _)
        | ExprKind::Compare(_, _, _)
        | ExprKind::And(_, _)
        | ExprKind::Or(_, _)
        | ExprKind::Comma(_, _)
        | ExprKind::Assign(_, _)
        | ExprKind::Compound(_, _, _, _) => 2,
        ExprKind::Conditional(_, _, _) => 3,
        ExprKind::Call(_, xs) => 1 + xs.as_slice().len(),
        ExprKind::Library(_, xs) => xs.as_slice().len(),
        _ => 0,
    }
}

/// Operand `i` of an expression, counted from 0.
fn operand(kind: &ExprKind, i: usize) -> u32
    requires { i < length (operands kind.now) }
    ensures { slice_get (operands kind.now) i ≡ Some result }
{
    match kind {
        ExprKind::Load(a)
        | ExprKind::Decay(a)
        | ExprKind::Deref(a)
        | ExprKind::Member(a, _)
        | ExprKind::Address(a)
        | ExprKind::Convert(a)
        | ExprKind::Unary(_, a)
        | ExprKind::Step(a, _, _) => *a,
        ExprKind::Int(_, a, b)
        | ExprKind::Capability(_, a, b, _)
        | ExprKind::Plus(a, b, _)
        | ExprKind::Difference(a, b)
        | ExprKind::Compare(_, a, b)
        | ExprKind::And(a, b)
        | ExprKind::Or(a, b)
        | ExprKind::Comma(a, b)
        | ExprKind::Assign(a, b)
        | ExprKind::Compound(_, a, b, _) => of_two(*a, *b, i),
        ExprKind::Conditional(a, b, c) => of_three(*a, *b, *c, i),
        ExprKind::Call(f, xs) => if i == 0 {
            *f
        } else {
            listed(xs.as_slice(), i - 1)
        },
        ExprKind::Library(_, xs) => listed(xs.as_slice(), i),
        _ => unreachable!(),
    }
}

fn kind_weight(kind: &ExprKind) -> u128
    ensures { result ≡ kind_weight kind.now }
{
    match kind {
        ExprKind::Call(_, _) | ExprKind::Library(_, _) => 4,
        _ => 1,
    }
}

/// Expression `k`, where there is one.
fn expression_at(p: &Typed, k: usize) -> Option<&Expr>
    ensures { MatchOption result (slice_get p.now.exprs k ≡ None) (λ e. slice_get p.now.exprs k ≡ Some e.now) }
{
    p.exprs.as_slice().get(k)
}

/// The weight of expression `k` with its operands, where it stands before number `limit`. The calls are as deep as its
/// tree.
fn expression_weight(p: &Typed, k: usize, limit: usize) -> u128
    ensures { result ≡ capped (before (expression_weight p.now) limit k) }
{
    if k >= limit {
        return 1;
    }
    match expression_at(p, k) {
        None => 1,
        Some(e) => {
            let mut total = kind_weight(&e.kind);
            for i in 0..operand_count(&e.kind) {
                let operand = operand(&e.kind, i) as usize;
                total = total.saturating_add(expression_weight(p, operand, k));
            }
            total
        }
    }
}

/// How many expressions a statement names.
fn value_count(kind: &StmtKind) -> usize
    ensures { result ≡ length (values kind.now) }
{
    match kind {
        StmtKind::Expr(_)
        | StmtKind::Init { .. }
        | StmtKind::If(_, _, _)
        | StmtKind::While(_, _)
        | StmtKind::Do(_, _)
        | StmtKind::Switch { .. } => 1,
        StmtKind::For { test, step, .. } => count_of(*test) + count_of(*step),
        StmtKind::Return(value) => count_of(*value),
        _ => 0,
    }
}

/// The one of two numbers that are there.
fn of_both(a: Option<u32>, b: Option<u32>, i: usize) -> u32
    requires { i < length (in_option a) + length (in_option b) }
    ensures { slice_get (in_option a ++ in_option b) i ≡ Some result }
{
    match (a, b) {
        (Some(x), Some(y)) => of_two(x, y, i),
        (Some(x), None) | (None, Some(x)) => x,
        (None, None) => unreachable!(),
    }
}

/// Expression `i` of those that a statement names.
fn value(kind: &StmtKind, i: usize) -> u32
    requires { i < length (values kind.now) }
    ensures { slice_get (values kind.now) i ≡ Some result }
{
    match kind {
        StmtKind::Expr(a)
        | StmtKind::Init { value: a, .. }
        | StmtKind::If(a, _, _)
        | StmtKind::While(a, _)
        | StmtKind::Do(_, a)
        | StmtKind::Switch { on: a, .. } => *a,
        StmtKind::For { test, step, .. } => of_both(*test, *step, i),
        StmtKind::Return(a) => of_both(*a, None, i),
        _ => unreachable!(),
    }
}

fn values_weight(p: &Typed, kind: &StmtKind) -> u128
    ensures { result ≡ capped (sum_by (expression_weight p.now) (values kind.now)) }
{
    let limit = p.exprs.as_slice().len();
    let mut total: u128 = 0;
    for i in 0..value_count(kind) {
        total = total.saturating_add(expression_weight(p, value(kind, i) as usize, limit));
    }
    total
}

/// How many statements a statement names.
fn part_count(kind: &StmtKind) -> usize
    ensures { result ≡ length (parts kind.now) }
{
    match kind {
        StmtKind::Block { body, .. } | StmtKind::Switch { body, .. } => body.as_slice().len(),
        StmtKind::If(_, _, other) => 1 + count_of(*other),
        StmtKind::While(_, _) | StmtKind::Do(_, _) => 1,
        StmtKind::For { first, .. } => first.as_slice().len() + 1,
        _ => 0,
    }
}

/// One of some numbers and a last one.
fn of_pushed(xs: &[u32], last: u32, i: usize) -> u32
    requires { i < length xs.now + 1 }
    ensures { slice_get (xs.now ++ last ∷ []) i ≡ Some result }
{
    if i < xs.len() { xs[i] } else { last }
}

/// Statement `i` of those that a statement names.
fn part(kind: &StmtKind, i: usize) -> u32
    requires { i < length (parts kind.now) }
    ensures { slice_get (parts kind.now) i ≡ Some result }
{
    match kind {
        StmtKind::Block { body, .. } | StmtKind::Switch { body, .. } => listed(body.as_slice(), i),
        StmtKind::If(_, then, other) => of_both(Some(*then), *other, i),
        StmtKind::While(_, body) | StmtKind::Do(body, _) => *body,
        StmtKind::For { first, body, .. } => of_pushed(first.as_slice(), *body, i),
        _ => unreachable!(),
    }
}

/// What a statement itself weighs.
fn own_weight(kind: &StmtKind) -> u128
    ensures { result ≡ 1 + labels_of kind.now }
{
    match kind {
        StmtKind::Switch { labels, .. } => 1 + labels.as_slice().len() as u128,
        _ => 1,
    }
}

/// Statement `k`, where there is one.
fn statement_at(p: &Typed, k: usize) -> Option<&Stmt>
    ensures { MatchOption result (slice_get p.now.stmts k ≡ None) (λ s. slice_get p.now.stmts k ≡ Some s.now) }
{
    p.stmts.as_slice().get(k)
}

/// The weight of statement `k` with its expressions and parts, where it stands before number `limit`. The calls are as
/// deep as its tree.
fn statement_weight(p: &Typed, k: usize, limit: usize) -> u128
    ensures { result ≡ capped (before (statement_weight p.now) limit k) }
{
    if k >= limit {
        return 1;
    }
    match statement_at(p, k) {
        None => 1,
        Some(s) => {
            let mut total = own_weight(&s.kind).saturating_add(values_weight(p, &s.kind));
            for i in 0..part_count(&s.kind) {
                let part = part(&s.kind, i) as usize;
                total = total.saturating_add(statement_weight(p, part, k));
            }
            total
        }
    }
}

/// The weight of a function of a program; one of 2^128 or more is 2^128 - 1 here. Each expression and statement of its
/// body is looked at once. The calls are as deep as the body's tree.
pub fn function_weight(p: &Typed, f: &FunDef) -> u128
    ensures { result ≡ capped (function_weight p.now f.now) }
{
    let body = statement_weight(p, f.body as usize, p.stmts.as_slice().len());
    (8 + f.vars.as_slice().len() as u128).saturating_add(body)
}

/// The weight of function `k`; 0 where there is none.
pub fn weight_in(p: &Typed, k: usize) -> u128
    ensures { result ≡ capped (weight_in p.now k) }
{
    match p.funs.as_slice().get(k) {
        None => 0,
        Some(f) => function_weight(p, f),
    }
}
