//! Expressions as they are run.

ghost use Rattle.std.specs.Prelude.{◌≡◌, true, IfOk, OnOk, length, map};
ghost use Rattle.c_tree.specs.Types.{is_tagged};
ghost use Rattle.c_tree.specs.Views.{operands};
ghost use Rattle.c_tree.specs.Passed.{hidden_in};
ghost use Rattle.c_passing.specs.Lists.{hidden_in_each};
ghost use Rattle.passing_steps.specs.Steps.{written_type};
ghost use Rattle.c_passing.specs.Passes.{written_term, written_call, KindWithin, TermWithin, TermsWithin, AddsTerms};
ghost use Rattle.c_passing.specs.Passes.{IsKindPassed, IsPassed, ArePassed, ArePassedArguments, IsPlainCall};
ghost use Rattle.c_passing.specs.Passes.{IsCallByResult, IsMadeOf};

use crate::calls::{by_result, hide_arguments};
use crate::counts::after;
use crate::operands::{Few, few_operands};
use c_copy::{inner_with, operands, two};
use c_tree::{Expr, ExprKind};
use ck_base::{NoMemory, Pos, Sequence};
use passing_steps::{Made, Source, by_address, hidden_type, hide};

// The same kind of expression with as many operands, these. A compound assignment is computed in the type that stands
// for its type.
fn kind_with(source: &Source<'_>, kind: &ExprKind, xs: &[u32]) -> Result<ExprKind, NoMemory>
    requires count { length xs.now ≡ length (operands kind.now) }
    requires within { KindWithin (length source.now.numbers.now) kind.now }
    ensures { IfOk result (IsKindPassed source.now kind.now xs.now) }
{
    match kind {
        ExprKind::Constant(n) => Ok(ExprKind::Constant(*n)),
        ExprKind::Literal(k) => Ok(ExprKind::Literal(*k)),
        ExprKind::Global(k) => Ok(ExprKind::Global(*k)),
        ExprKind::Fun(k) => Ok(ExprKind::Fun(*k)),
        ExprKind::Var(k) => {
            let v = source.variable(*k);
            Ok(ExprKind::Var(v))
        }
        ExprKind::Compound(o, _, _, of) => {
            let (a, b) = two(xs);
            let of = source.types.number(*of);
            Ok(ExprKind::Compound(*o, a, b, of))
        }
        _ => inner_with(source.alloc, kind, xs),
    }
}

// The arguments, whose hidden locals begin with this number, go behind the others.
#[cycle(expressions)]
fn arguments(
    source: &Source<'_>,
    first: u32,
    xs: &[u32],
    pos: Pos,
    out: &mut Made,
    list: &mut Vec<u32>,
) -> Result<(), NoMemory>
    requires { TermsWithin source.now xs.now }
    ensures { OnOk result (AddsTerms source.now out.old out.new
        (λ names. hidden_in_each names (map (written_term source.now) xs.now))
        (ArePassedArguments source.now out.old out.new first pos (map (written_term source.now) xs.now)
        list.old.items list.new.items)) }
{
    let mut h = first;
    for x in xs {
        let value = expression(source, *x, out)?;
        let e = source.expr(*x);
        match hidden_type(source, e.of) {
            None => list.push(value)?,
            Some(t) => {
                let argument = by_address(source, h, value, t, pos, out)?;
                list.push(argument)?;
                h = after(h)?;
            }
        }
    }
    Ok(())
}

// A call whose result does not come by a pointer.
#[cycle(expressions)]
fn call_plainly(
    source: &Source<'_>,
    e: &Expr,
    called: u32,
    own: u32,
    xs: &[u32],
    out: &mut Made,
) -> Result<u32, NoMemory>
    requires { TermsWithin source.now xs.now }
    ensures { IfOk result (λ j. AddsTerms source.now out.old out.new
        (λ names. hidden_in_each names (map (written_term source.now) xs.now))
        (IsPlainCall source.now out.old out.new e.now called own xs.now j)) }
{
    let mut list = Vec::new(source.alloc);
    arguments(source, own, xs, e.pos, out, &mut list)?;
    let of = source.types.number(e.of);
    let kind = ExprKind::Call(called, Sequence::from_vec(list));
    out.push_expr(kind, of, e.pos)
}

// A call whose result comes by a pointer to a hidden local.
#[cycle(expressions)]
fn call_by_result(
    source: &Source<'_>,
    e: &Expr,
    called: u32,
    own: u32,
    hidden: u32,
    t: u32,
    xs: &[u32],
    out: &mut Made,
) -> Result<u32, NoMemory>
    requires tagged { is_tagged (written_type source.now t) ≡ true }
    requires within { TermsWithin source.now xs.now }
    ensures { IfOk result (λ j. AddsTerms source.now out.old out.new
        (λ names. hidden_in_each names (map (written_term source.now) xs.now))
        (IsCallByResult source.now out.old out.new e.now called own hidden t xs.now j)) }
{
    let of = source.types.number(t);
    let pointer = source.types.pointer(t);
    let address = out.address(hidden, pointer, of, e.pos)?;
    let mut list = Vec::new(source.alloc);
    list.push(address)?;
    arguments(source, own, xs, e.pos, out, &mut list)?;
    by_result(source, hidden, called, list, t, e.pos, out)
}

// A call of `f` as it is run.
#[cycle(expressions)]
fn call(source: &Source<'_>, e: &Expr, f: u32, xs: &[u32], out: &mut Made) -> Result<u32, NoMemory>
    requires called { TermWithin source.now f }
    requires within { TermsWithin source.now xs.now }
    ensures { IfOk result (λ j. AddsTerms source.now out.old out.new
        (λ names. hidden_in names (written_call source.now e.now f xs.now))
        (IsPassed source.now out.old out.new (written_call source.now e.now f xs.now) j)) }
{
    let called = expression(source, f, out)?;
    let own = out.next_var()?;
    hide_arguments(source, xs, e.pos, out)?;
    let hidden = out.next_var()?;
    hide(source, e.of, e.pos, out)?;
    match hidden_type(source, e.of) {
        None => call_plainly(source, e, called, own, xs, out),
        Some(t) => call_by_result(source, e, called, own, hidden, t, xs, out),
    }
}

// A kind of expression that is no call as it is run, behind its operands.
#[cycle(expressions)]
fn made_of(source: &Source<'_>, kind: &ExprKind, out: &mut Made) -> Result<ExprKind, NoMemory>
    requires within { KindWithin (length source.now.numbers.now) kind.now }
    requires there { TermsWithin source.now (operands kind.now) }
    ensures { IfOk result (λ d. AddsTerms source.now out.old out.new
        (λ names. hidden_in_each names (map (written_term source.now) (operands kind.now)))
        (IsMadeOf source.now out.old out.new kind.now d)) }
{
    match few_operands(kind) {
        Few::Nothing => kind_with(source, kind, &[]),
        Few::One(a) => {
            let a = expression(source, a, out)?;
            kind_with(source, kind, &[a])
        }
        Few::Two(a, b) => {
            let a = expression(source, a, out)?;
            let b = expression(source, b, out)?;
            kind_with(source, kind, &[a, b])
        }
        Few::More => {
            let ks = operands(source.alloc, kind)?;
            let js = expressions(source, ks.as_slice(), out)?;
            kind_with(source, kind, js.as_slice())
        }
    }
}

/// The number of expression `k` as it is run, which stands behind its operands at the end of the list.
#[cycle(expressions)]
pub(crate) fn expression(source: &Source<'_>, k: u32, out: &mut Made) -> Result<u32, NoMemory>
    requires { TermWithin source.now k }
    ensures { IfOk result (λ j. AddsTerms source.now out.old out.new
        (λ names. hidden_in names (written_term source.now k))
        (IsPassed source.now out.old out.new (written_term source.now k) j)) }
{
    let e = source.expr(k);
    match &e.kind {
        ExprKind::Call(f, xs) => call(source, e, *f, xs.as_slice(), out),
        _ => {
            let kind = made_of(source, &e.kind, out)?;
            let of = source.types.number(e.of);
            out.push_expr(kind, of, e.pos)
        }
    }
}

/// The numbers of some expressions as they are run.
#[cycle(expressions)]
pub(crate) fn expressions(
    source: &Source<'_>,
    ks: &[u32],
    out: &mut Made,
) -> Result<Vec<u32>, NoMemory>
    requires { TermsWithin source.now ks.now }
    ensures { IfOk result (λ js. AddsTerms source.now out.old out.new
        (λ names. hidden_in_each names (map (written_term source.now) ks.now))
        (ArePassed source.now out.old out.new (map (written_term source.now) ks.now) js.items)) }
{
    let mut js = Vec::new(source.alloc);
    for k in ks {
        let j = expression(source, *k, out)?;
        js.push(j)?;
    }
    Ok(js)
}
