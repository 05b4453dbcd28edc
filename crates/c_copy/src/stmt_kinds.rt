//! Statements with other expressions and statements.

ghost use Rattle.std.specs.Prelude.{◌≡◌, ℕ, ◌+◌, ◌<◌, List, ◌++◌, ◌∷◌, [], IfOk, length};
ghost use Rattle.c_tree.specs.declared.typed.StmtKind.TheVariants as StmtKinds;
ghost use Rattle.c_tree.specs.Views.{values, parts, listed, same_number};
ghost use Rattle.c_copy.specs.Copying.{IsStmtWith, AreMaybes};

use c_node_facts::{list_of_one, list_of_two, listed, one, two};
use c_tree::{StmtKind, SwitchLabel};
use ck_base::{NoMemory, Sequence};
use std::alloc::Global;

// The numbers of one and another, as far as there are.
fn maybe_two(alloc: Global, a: Option<u32>, b: Option<u32>) -> Result<Vec<u32>, NoMemory>
    ensures { IfOk result (λ v. v.items ≡ listed same_number a ++ listed same_number b) }
{
    match (a, b) {
        (Some(a), Some(b)) => list_of_two(alloc, a, b),
        (Some(a), None) => list_of_one(alloc, a),
        (None, Some(b)) => list_of_one(alloc, b),
        (None, None) => Ok(Vec::new(alloc)),
    }
}

// Numbers and then another.
fn list_to(alloc: Global, xs: &[u32], a: u32) -> Result<Vec<u32>, NoMemory>
    ensures { IfOk result (λ v. v.items ≡ xs.now ++ a ∷ []) }
{
    let mut v = listed(alloc, xs)?;
    v.push(a)?;
    Ok(v)
}

/// The expressions that a statement names.
pub fn values(alloc: Global, kind: &StmtKind) -> Result<Vec<u32>, NoMemory>
    ensures { IfOk result (λ v. v.items ≡ values kind.now) }
{
    match kind {
        StmtKind::Expr(a) => list_of_one(alloc, *a),
        StmtKind::Init { value, .. } => list_of_one(alloc, *value),
        StmtKind::If(a, _, _) => list_of_one(alloc, *a),
        StmtKind::While(a, _) => list_of_one(alloc, *a),
        StmtKind::Do(_, a) => list_of_one(alloc, *a),
        StmtKind::For { test, step, .. } => maybe_two(alloc, *test, *step),
        StmtKind::Switch { on, .. } => list_of_one(alloc, *on),
        StmtKind::Return(a) => maybe_two(alloc, *a, None),
        StmtKind::Block { .. } | StmtKind::Break | StmtKind::Continue | StmtKind::Empty => {
            Ok(Vec::new(alloc))
        }
    }
}

/// The statements that a statement names.
pub fn parts(alloc: Global, kind: &StmtKind) -> Result<Vec<u32>, NoMemory>
    ensures { IfOk result (λ v. v.items ≡ parts kind.now) }
{
    match kind {
        StmtKind::Block { body, .. } => listed(alloc, body.as_slice()),
        StmtKind::If(_, x, y) => maybe_two(alloc, Some(*x), *y),
        StmtKind::While(_, x) => list_of_one(alloc, *x),
        StmtKind::Do(x, _) => list_of_one(alloc, *x),
        StmtKind::For { first, body, .. } => list_to(alloc, first.as_slice(), *body),
        StmtKind::Switch { body, .. } => listed(alloc, body.as_slice()),
        StmtKind::Expr(_)
        | StmtKind::Init { .. }
        | StmtKind::Break
        | StmtKind::Continue
        | StmtKind::Return(_)
        | StmtKind::Empty => Ok(Vec::new(alloc)),
    }
}

// One number where there was one, and else none.
#[tactic(auto, using(crate::proofs::Items::no_items))]
fn maybe(old: Option<u32>, xs: &[u32]) -> Option<u32>
    requires { length xs.now ≡ length (listed same_number old) }
    ensures { xs.now ≡ listed same_number result }
{
    match old {
        None => None,
        Some(_) => Some(one(xs)),
    }
}

// The same of two.
#[tactic(auto, using(crate::proofs::Items::no_items))]
fn maybes(a: Option<u32>, b: Option<u32>, xs: &[u32]) -> (Option<u32>, Option<u32>)
    requires { length xs.now ≡ length (listed same_number a ++ listed same_number b) }
    ensures { AreMaybes a b xs.now result }
{
    match (a, b) {
        (None, None) => (None, None),
        (Some(_), None) => (Some(one(xs)), None),
        (None, Some(_)) => (None, Some(one(xs))),
        (Some(_), Some(_)) => {
            let (x, y) = two(xs);
            (Some(x), Some(y))
        }
    }
}

// All numbers but the last, and the last.
fn split_last(alloc: Global, xs: &[u32]) -> Result<(Vec<u32>, u32), NoMemory>
    requires { 0 < length xs.now }
    ensures { IfOk result (λ x. xs.now ≡ x.0.items ++ x.1 ∷ []) }
{
    let mut front = listed(alloc, xs)?;
    match front.pop() {
        Some(last) => Ok((front, last)),
        None => unreachable!(),
    }
}

fn block_with(alloc: Global, vars: &[u32], ys: &[u32]) -> Result<StmtKind, NoMemory>
    ensures { IfOk result (λ k. k ≡ StmtKinds.Block vars.now ys.now) }
{
    let vars = listed(alloc, vars)?;
    let body = listed(alloc, ys)?;
    Ok(StmtKind::Block {
        vars: Sequence::from_vec(vars),
        body: Sequence::from_vec(body),
    })
}

// An `if` with as many branches as one that has this second branch.
fn if_with(a: u32, other: Option<u32>, ys: &[u32]) -> StmtKind
    requires { length ys.now ≡ length (listed same_number other) + 1 }
    ensures { (b x : ℕ) → IsStmtWith (StmtKinds.If b x other) (a ∷ []) ys.now result }
{
    match other {
        None => StmtKind::If(a, one(ys), None),
        Some(_) => {
            let (x, y) = two(ys);
            StmtKind::If(a, x, Some(y))
        }
    }
}

// A `for` with a test and a step where these are, and the last statement as its body.
fn for_with(
    alloc: Global,
    vars: &[u32],
    test: Option<u32>,
    step: Option<u32>,
    xs: &[u32],
    ys: &[u32],
) -> Result<StmtKind, NoMemory>
    requires values { length xs.now ≡ length (listed same_number test ++ listed same_number step) }
    requires parts { 0 < length ys.now }
    ensures { IfOk result (λ k. (first : List ℕ) (body : ℕ) → length ys.now ≡ length first + 1 →
        IsStmtWith (StmtKinds.For vars.now first test step body) xs.now ys.now k) }
{
    let vars = listed(alloc, vars)?;
    let (test, step) = maybes(test, step, xs);
    let (first, body) = split_last(alloc, ys)?;
    Ok(StmtKind::For {
        vars: Sequence::from_vec(vars),
        first: Sequence::from_vec(first),
        test,
        step,
        body,
    })
}

fn labels_of(alloc: Global, labels: &[SwitchLabel]) -> Result<Vec<SwitchLabel>, NoMemory>
    ensures { IfOk result (λ v. v.items ≡ labels.now) }
{
    let v = Vec::from_slice(alloc, labels)?;
    Ok(v)
}

fn switch_with(
    alloc: Global,
    on: u32,
    vars: &[u32],
    labels: &[SwitchLabel],
    ys: &[u32],
) -> Result<StmtKind, NoMemory>
    ensures { IfOk result (λ k. k ≡ StmtKinds.Switch on vars.now labels.now ys.now) }
{
    let vars = listed(alloc, vars)?;
    let labels = labels_of(alloc, labels)?;
    let body = listed(alloc, ys)?;
    Ok(StmtKind::Switch {
        on,
        vars: Sequence::from_vec(vars),
        labels: Sequence::from_vec(labels),
        body: Sequence::from_vec(body),
    })
}

/// The statement with as many expressions and statements, these.
#[tactic(auto, using(crate::proofs::Items::no_items))]
pub fn stmt_with(
    alloc: Global,
    kind: &StmtKind,
    xs: &[u32],
    ys: &[u32],
) -> Result<StmtKind, NoMemory>
    requires values { length xs.now ≡ length (values kind.now) }
    requires parts { length ys.now ≡ length (parts kind.now) }
    ensures { IfOk result (IsStmtWith kind.now xs.now ys.now) }
{
    match kind {
        StmtKind::Block { vars, .. } => block_with(alloc, vars.as_slice(), ys),
        StmtKind::If(_, _, other) => Ok(if_with(one(xs), *other, ys)),
        StmtKind::While(_, _) => Ok(StmtKind::While(one(xs), one(ys))),
        StmtKind::Do(_, _) => Ok(StmtKind::Do(one(ys), one(xs))),
        StmtKind::For {
            vars,
            test,
            step,
            ..
        } => for_with(alloc, vars.as_slice(), *test, *step, xs, ys),
        StmtKind::Switch { vars, labels, .. } => {
            switch_with(alloc, one(xs), vars.as_slice(), labels.as_slice(), ys)
        }
        StmtKind::Expr(_) => Ok(StmtKind::Expr(one(xs))),
        StmtKind::Init { var, offset, .. } => Ok(StmtKind::Init {
            var: *var,
            offset: *offset,
            value: one(xs),
        }),
        StmtKind::Return(value) => Ok(StmtKind::Return(maybe(*value, xs))),
        StmtKind::Break => Ok(StmtKind::Break),
        StmtKind::Continue => Ok(StmtKind::Continue),
        StmtKind::Empty => Ok(StmtKind::Empty),
    }
}
