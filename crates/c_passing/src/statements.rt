//! Statements as they are run.

ghost use Rattle.std.specs.Prelude.{◌≡◌, ◌<◌, ◌≤◌, IfOk, OnOk, length, map};
ghost use Rattle.c_tree.specs.declared.typed.StmtKind.TheVariants as StmtKinds;
ghost use Rattle.c_tree.specs.Views.{values, parts, listed, same_number};
ghost use Rattle.c_tree.specs.Passed.{ahead, hidden_of};
ghost use Rattle.c_copy.specs.Copying.{AllBelow, stmt_form};
ghost use Rattle.c_passing.specs.Lists.{hidden_of_each};
ghost use Rattle.c_passing.specs.Passes.{written_action, written_before, FormWithin, ActionWithin, ActionsWithin};
ghost use Rattle.c_passing.specs.Passes.{IsRenumbered, AddsActions, IsGivenValue, IsReturned, IsPassedAction};
ghost use Rattle.c_passing.specs.Passes.{ArePassedActions};

use crate::expressions::{expression, expressions};
use c_copy::{parts, stmt_with, values};
use c_tree::StmtKind;
use ck_base::{NoMemory, Pos, Sequence};
use passing_steps::{Made, Source, bare, by_pointer, give_back, variables};

// How many parts of a statement stand before its expressions.
fn ahead(kind: &StmtKind) -> usize
    ensures is { result ≡ ahead (stmt_form kind.now) }
    ensures there { result ≤ length (parts kind.now) }
{
    match kind {
        StmtKind::Do(_, _) => 1,
        StmtKind::For { first, .. } => first.as_slice().len(),
        _ => 0,
    }
}

// A statement with the new numbers of its variables.
fn renumbered(source: &Source<'_>, kind: StmtKind) -> Result<StmtKind, NoMemory>
    requires { FormWithin (length source.now.numbers.now) (stmt_form kind) }
    ensures { IfOk result (IsRenumbered source.now kind) }
{
    match kind {
        StmtKind::Init { var, offset, value } => {
            let var = source.variable(var);
            Ok(StmtKind::Init { var, offset, value })
        }
        StmtKind::Block { vars, body } => {
            let vars = variables(source, vars.as_slice())?;
            Ok(StmtKind::Block {
                vars: Sequence::from_vec(vars),
                body,
            })
        }
        StmtKind::For {
            vars,
            first,
            test,
            step,
            body,
        } => {
            let vars = variables(source, vars.as_slice())?;
            Ok(StmtKind::For {
                vars: Sequence::from_vec(vars),
                first,
                test,
                step,
                body,
            })
        }
        StmtKind::Switch {
            on,
            vars,
            labels,
            body,
        } => {
            let vars = variables(source, vars.as_slice())?;
            Ok(StmtKind::Switch {
                on,
                vars: Sequence::from_vec(vars),
                labels,
                body,
            })
        }
        other => Ok(other),
    }
}

// The value that is given back by a pointer, and its type.
fn given_back(source: &Source<'_>, a: u32) -> Option<(u32, u32)>
    requires { a < length source.now.program.now.exprs }
    ensures { IsGivenValue source.now a result }
{
    let e = source.expr(a);
    let types = source.written_types();
    if by_pointer(types, e.of) {
        Some((a, bare(types, e.of)))
    } else {
        None
    }
}

// The same of what `return` has, if it has a value.
fn of_return(source: &Source<'_>, value: Option<u32>) -> Option<(u32, u32)>
    requires { AllBelow (length source.now.program.now.exprs) (listed same_number value) }
    ensures { IsReturned source.now (StmtKinds.Return value) result }
{
    match value {
        None => None,
        Some(a) => given_back(source, a),
    }
}

// The same of a statement.
fn returned(source: &Source<'_>, kind: &StmtKind) -> Option<(u32, u32)>
    requires { AllBelow (length source.now.program.now.exprs) (values kind.now) }
    ensures { IsReturned source.now kind.now result }
{
    match kind {
        StmtKind::Return(value) => of_return(source, *value),
        _ => None,
    }
}

/// The number of statement `k` as it is run, which stands behind its parts at the end of the list.
#[cycle(statements)]
pub(crate) fn statement(source: &Source<'_>, k: u32, out: &mut Made) -> Result<u32, NoMemory>
    requires { ActionWithin source.now k }
    ensures { IfOk result (λ j. AddsActions source.now out.old out.new
        (λ names. hidden_of names (written_action source.now k))
        (IsPassedAction source.now out.old out.new (written_action source.now k) j)) }
{
    let s = source.stmt(k);
    if let StmtKind::Expr(a) = &s.kind {
        let value = expression(source, *a, out)?;
        return out.push_stmt(StmtKind::Expr(value), s.pos);
    }
    match returned(source, &s.kind) {
        Some((a, t)) => {
            let value = expression(source, a, out)?;
            give_back(source, value, t, s.pos, out)
        }
        None => {
            let ks = parts(source.alloc, &s.kind)?;
            let (first, last) = ks.as_slice().split_at(ahead(&s.kind));
            let mut js = Vec::new(source.alloc);
            statements(source, first, k, out, &mut js)?;
            let xs = values(source.alloc, &s.kind)?;
            let vs = expressions(source, xs.as_slice(), out)?;
            statements(source, last, k, out, &mut js)?;
            let kind = stmt_with(source.alloc, &s.kind, vs.as_slice(), js.as_slice())?;
            let kind = renumbered(source, kind)?;
            out.push_stmt(kind, s.pos)
        }
    }
}

// The number of a part of statement `limit` as it is run. A number that names no statement before that one stands for
// an empty one.
#[cycle(statements)]
fn part(source: &Source<'_>, k: u32, limit: u32, out: &mut Made) -> Result<u32, NoMemory>
    requires { k < limit → ActionWithin source.now k }
    ensures { IfOk result (λ j. AddsActions source.now out.old out.new
        (λ names. hidden_of names (written_before source.now limit k))
        (IsPassedAction source.now out.old out.new (written_before source.now limit k) j)) }
{
    if k < limit {
        statement(source, k, out)
    } else {
        out.push_stmt(StmtKind::Empty, Pos { line: 0, col: 0 })
    }
}

/// The numbers of some parts of statement `limit` as they are run go behind the others.
#[cycle(statements)]
pub(crate) fn statements(
    source: &Source<'_>,
    ks: &[u32],
    limit: u32,
    out: &mut Made,
    js: &mut Vec<u32>,
) -> Result<(), NoMemory>
    requires { ActionsWithin source.now limit ks.now }
    ensures { OnOk result (AddsActions source.now out.old out.new
        (λ names. hidden_of_each names (map (written_before source.now limit) ks.now))
        (ArePassedActions source.now out.old out.new (map (written_before source.now limit) ks.now)
        js.old.items js.new.items)) }
{
    for k in ks {
        let j = part(source, *k, limit, out)?;
        js.push(j)?;
    }
    Ok(())
}
