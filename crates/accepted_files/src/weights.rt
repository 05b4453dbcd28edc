//! The weights of a program's functions.

ghost use Rattle.std.specs.Prelude.{◌≡◌, ◌+◌, ◌↔◌, [], ◌∷◌, IfOk, IsTrue, length, slice_index, sum_by, vec_len};
ghost use Rattle.c_tree.specs.TreeWeight.{expression_weight, statement_weight, HasLightFunctions};
ghost use Rattle.c_tree.specs.Views.{listed, same_number, operands, values, parts, IsOrdered};
ghost use Rattle.c_tree.specs.Weight.{counted, expr_weight, stmt_weight};
ghost use Rattle.accepted_files.specs.Accepted.{IsLight};
ghost use Rattle.accepted_files.specs.Sums.{AreThere, sum_of, AreSums};

use c_tree::{
    Expr, ExprKind, FunDef, Stmt, StmtKind, Typed, expr_weight, fun_weight, stmt_weight, weight,
};
use ck_base::NoMemory;
use std::alloc::Global;

/// The most weight of a function.
const FUNCTION_LIMIT: u64 = 7_780;

/// The most weight of all functions.
const WEIGHT_LIMIT: u64 = 250_000;

fn of_two(sums: &[u64], a: u32, b: u32) -> u64
    requires { AreThere sums.now (a ∷ b ∷ []) }
    ensures { result ≡ sum_of sums.now (a ∷ b ∷ []) }
{
    sums[a as usize].saturating_add(sums[b as usize])
}

fn of_list(sums: &[u64], nodes: &[u32]) -> u64
    requires { AreThere sums.now nodes.now }
    ensures { result ≡ sum_of sums.now nodes.now }
{
    let mut total: u64 = 0;
    for k in nodes {
        total = total.saturating_add(sums[*k as usize]);
    }
    total
}

fn of_option(sums: &[u64], node: Option<u32>) -> u64
    requires { AreThere sums.now (listed same_number node) }
    ensures { result ≡ sum_of sums.now (listed same_number node) }
{
    match node {
        None => 0,
        Some(k) => sums[k as usize],
    }
}

/// What the operands of an expression weigh.
fn of_operands(sums: &[u64], kind: &ExprKind) -> u64
    requires { AreThere sums.now (operands kind.now) }
    ensures { result ≡ sum_of sums.now (operands kind.now) }
{
    match kind {
        ExprKind::Load(a)
        | ExprKind::Decay(a)
        | ExprKind::Deref(a)
        | ExprKind::Member(a, _)
        | ExprKind::Address(a)
        | ExprKind::Convert(a)
        | ExprKind::Unary(_, a)
        | ExprKind::Step(a, _, _) => sums[*a as usize],
        ExprKind::Int(_, a, b)
        | ExprKind::Capability(_, a, b, _)
        | ExprKind::Plus(a, b, _)
        | ExprKind::Difference(a, b)
        | ExprKind::Compare(_, a, b)
        | ExprKind::And(a, b)
        | ExprKind::Or(a, b)
        | ExprKind::Comma(a, b)
        | ExprKind::Assign(a, b)
        | ExprKind::Compound(_, a, b, _) => of_two(sums, *a, *b),
        ExprKind::Conditional(a, b, c) => sums[*a as usize].saturating_add(of_two(sums, *b, *c)),
        ExprKind::Call(f, xs) => sums[*f as usize].saturating_add(of_list(sums, xs.as_slice())),
        ExprKind::Library(_, xs) => of_list(sums, xs.as_slice()),
        _ => 0,
    }
}

/// What the expressions of a statement weigh.
fn of_values(sums: &[u64], kind: &StmtKind) -> u64
    requires { AreThere sums.now (values kind.now) }
    ensures { result ≡ sum_of sums.now (values kind.now) }
{
    match kind {
        StmtKind::Expr(a)
        | StmtKind::Init { value: a, .. }
        | StmtKind::If(a, _, _)
        | StmtKind::While(a, _)
        | StmtKind::Do(_, a)
        | StmtKind::Switch { on: a, .. } => sums[*a as usize],
        StmtKind::For { test, step, .. } => of_option(sums, *test).saturating_add(of_option(
            sums, *step,
        )),
        StmtKind::Return(value) => of_option(sums, *value),
        _ => 0,
    }
}

/// What the parts of a statement weigh.
fn of_parts(sums: &[u64], kind: &StmtKind) -> u64
    requires { AreThere sums.now (parts kind.now) }
    ensures { result ≡ sum_of sums.now (parts kind.now) }
{
    match kind {
        StmtKind::Block { body, .. } | StmtKind::Switch { body, .. } => of_list(
            sums,
            body.as_slice(),
        ),
        StmtKind::If(_, then, other) => sums[*then as usize].saturating_add(of_option(
            sums, *other,
        )),
        StmtKind::While(_, body) | StmtKind::Do(body, _) => sums[*body as usize],
        StmtKind::For { first, body, .. } => of_list(sums, first.as_slice()).saturating_add(
            sums[*body as usize],
        ),
        _ => 0,
    }
}

fn of_expression(sums: &[u64], e: &Expr) -> u64
    requires { AreThere sums.now (operands e.now.kind) }
    ensures { result ≡ counted (expr_weight e.now + sum_by (slice_index sums.now) (operands e.now.kind)) }
{
    expr_weight(e).saturating_add(of_operands(sums, &e.kind))
}

fn of_statement(exprs: &[u64], sums: &[u64], s: &Stmt) -> u64
    requires values { AreThere exprs.now (values s.now.kind) }
    requires parts { AreThere sums.now (parts s.now.kind) }
    ensures { result ≡ counted (stmt_weight s.now + sum_by (slice_index exprs.now) (values s.now.kind)
        + sum_by (slice_index sums.now) (parts s.now.kind)) }
{
    stmt_weight(s)
        .saturating_add(of_values(exprs, &s.kind))
        .saturating_add(of_parts(sums, &s.kind))
}

/// What each expression weighs with its operands.
fn expression_sums(alloc: Global, p: &Typed) -> Result<Vec<u64>, NoMemory>
    requires { IsOrdered p.now }
    ensures len { IfOk result (λ sums. vec_len sums ≡ length p.now.exprs) }
    ensures are { IfOk result (λ sums. AreSums (expression_weight p.now) sums.items) }
{
    let mut sums = Vec::new(alloc);
    let all = p.exprs.as_slice();
    for e in all {
        let sum = of_expression(sums.as_slice(), e);
        sums.push(sum)?;
    }
    Ok(sums)
}

/// What each statement weighs with its expressions and parts, by the sums of the expressions.
fn statement_sums(alloc: Global, p: &Typed, exprs: &[u64]) -> Result<Vec<u64>, NoMemory>
    requires ordered { IsOrdered p.now }
    requires len { length exprs.now ≡ length p.now.exprs }
    requires are { AreSums (expression_weight p.now) exprs.now }
    ensures len { IfOk result (λ sums. vec_len sums ≡ length p.now.stmts) }
    ensures are { IfOk result (λ sums. AreSums (statement_weight p.now) sums.items) }
{
    let mut sums = Vec::new(alloc);
    let all = p.stmts.as_slice();
    for s in all {
        let sum = of_statement(exprs, sums.as_slice(), s);
        sums.push(sum)?;
    }
    Ok(sums)
}

/// No function is too heavy, by the sums of the statements.
fn are_light(p: &Typed, sums: &[u64]) -> bool
    requires ordered { IsOrdered p.now }
    requires len { length sums.now ≡ length p.now.stmts }
    requires are { AreSums (statement_weight p.now) sums.now }
    ensures { IsTrue result ↔ HasLightFunctions p.now }
{
    let all = p.funs.as_slice();
    for f in all {
        if fun_weight(f).saturating_add(sums[f.body as usize]) > FUNCTION_LIMIT {
            return false;
        }
    }
    true
}

/// A program is within the limits of weight: each of its functions, and all together. Each node is looked at once, and
/// nothing is allocated for a program that is too heavy as a whole.
pub fn is_light(alloc: Global, p: &Typed) -> Result<bool, NoMemory>
    requires { IsOrdered p.now }
    ensures { IfOk result (λ light. IsTrue light ↔ IsLight p.now) }
{
    if weight(p) > WEIGHT_LIMIT {
        return Ok(false);
    }
    let exprs = expression_sums(alloc, p)?;
    let stmts = statement_sums(alloc, p, exprs.as_slice())?;
    Ok(are_light(p, stmts.as_slice()))
}
