//! The labels of a `switch` (C11 6.8.4.2).

ghost use Rattle.std.specs.Prelude.{◌≡◌, ℕ, ◌+◌, ◌*◌, true, [], length, drop, slice_get, Some, IfOk};
ghost use Rattle.lower_runs.specs.Statements.{kept_number};
ghost use Rattle.tac_ir.specs.WellFormed.{constant_fits};
ghost use Rattle.tac_emit.specs.Emitted.{HasKind, IsOpen, Grown, Adds, HasRoom};
ghost use Rattle.tac_lower.specs.Scenes.{Scene, Opened};
ghost use Rattle.tac_emit.specs.Spent.{Spent};
ghost use Rattle.tac_lower.specs.Cases.{labels_as, compare_code, standing, Compared, StandAt, ShowsCases};
ghost use Rattle.tac_emit.specs.Adding.{Emits};
ghost use Rattle.tac_lower.specs.Statements.{labels_in, IsSwitched, StandUpTo};

use crate::context::Context;
use crate::types::INT;
use c_tree::SwitchLabel;
use ck_base::NoMemory;
use ck_int::{CmpOp, wrap};
use tac_emit::Emitter;
use tac_ir::TacKind;

/// A label, and how many statements of the body stand before it.
#[derive(Clone, Copy)]
struct Case {
    before: u32,
    label: u32,
}

/// The labels of a `switch`, in the order in which they stand.
#[derive(Drop)]
pub struct Cases {
    cases: Vec<Case>,
}

impl Cases {
    fn case(&self, at: usize) -> Option<Case>
        ensures { result ≡ slice_get self.now.cases.items at }
    {
        self.cases.as_slice().get(at).copied()
    }

    /// The labels from number `first` on that stand before statement `before` stand here: the number of the next one.
    pub fn stand_at(&self, first: usize, before: u32, out: &mut Emitter) -> Result<usize, NoMemory>
        ensures stand { IfOk result (λ at. StandUpTo (labels_in self.now) first at out.old out.new) }
        ensures is { IfOk result (λ at. StandAt self.now.cases.items first before at out.old out.new) }
        ensures spent { IfOk result (λ _. Spent out.old out.new 0 0) }
    {
        let mut at = first;
        while let Some(c) = self.case(at) {
            if c.before > before {
                return Ok(at);
            }
            out.stand(c.label)?;
            at += 1;
        }
        Ok(at)
    }

    /// All labels from number `first` on stand here.
    pub fn stand_behind(&self, first: usize, out: &mut Emitter) -> Result<(), NoMemory>
        ensures stand { IfOk result (λ _. StandUpTo (labels_in self.now) first (length self.now.cases.items)
            out.old out.new) }
        ensures is { IfOk result (λ _. Emits out.old out.new 0 (standing (drop first self.now.cases.items))) }
        ensures spent { IfOk result (λ _. Spent out.old out.new 0 0) }
    {
        let mut at = first;
        while let Some(c) = self.case(at) {
            out.stand(c.label)?;
            at += 1;
        }
        Ok(())
    }
}

/// The value of a `switch`, with its kind, and the temps of its comparisons: a label's value, and the answer.
#[derive(Clone, Copy)]
struct Switched {
    temp: u32,
    kind: TacKind,
    value: u32,
    answer: u32,
}

/// A label's value as the kind of a `switch` keeps it (C11 6.8.4.2p5).
fn kept(kind: TacKind, n: u64) -> u64
    ensures fits { constant_fits kind result ≡ true }
    ensures is { result ≡ kept_number kind n }
{
    match kind {
        TacKind::Int(k) => wrap(k, i128::from(n)),
        TacKind::Cap(_) => n,
    }
}

/// The temps of a `switch`.
fn comparison_temps(temp: u32, kind: TacKind, out: &mut Emitter) -> Result<Switched, NoMemory>
    requires temp { HasKind out.old temp kind }
    requires room { HasRoom out.old 2 }
    ensures switched { IfOk result (λ s. IsSwitched out.new s) }
    ensures grown { IfOk result (λ _. Grown out.old out.new) }
    ensures adds { IfOk result (λ _. Adds out.old out.new 2 0) }
    ensures spent { IfOk result (λ _. Spent out.old out.new 2 0) }
    ensures is { IfOk result (λ s. (end : ℕ) → Compared [] kind temp end s end [] out.old out.new) }
{
    let value = out.temp(kind)?;
    let answer = out.temp(INT)?;
    Ok(Switched {
        temp,
        kind,
        value,
        answer,
    })
}

/// A jump to a label where the value is `n`.
fn compare(s: Switched, n: u64, label: u32, out: &mut Emitter) -> Result<(), NoMemory>
    requires switched { IsSwitched out.old s }
    requires open { IsOpen out.old label }
    ensures grown { IfOk result (λ _. Grown out.old out.new) }
    ensures adds { IfOk result (λ _. Adds out.old out.new 0 0) }
    ensures spent { IfOk result (λ _. Spent out.old out.new 0 27) }
    ensures emits { IfOk result (λ _. Emits out.old out.new 0 (compare_code s (Some n) label)) }
{
    out.constant(s.value, s.kind, kept(s.kind, n))?;
    out.compare(CmpOp::Eq, s.kind, s.answer, s.temp, s.value)?;
    out.branch(s.answer, true, label)
}

/// The comparison with a label, if it has a value.
fn compare_label(
    s: Switched,
    value: Option<u64>,
    label: u32,
    out: &mut Emitter,
) -> Result<(), NoMemory>
    requires switched { IsSwitched out.old s }
    requires open { IsOpen out.old label }
    ensures grown { IfOk result (λ _. Grown out.old out.new) }
    ensures adds { IfOk result (λ _. Adds out.old out.new 0 0) }
    ensures spent { IfOk result (λ _. Spent out.old out.new 0 27) }
    ensures emits { IfOk result (λ _. Emits out.old out.new 0 (compare_code s value label)) }
{
    match value {
        None => Ok(()),
        Some(n) => compare(s, n, label, out),
    }
}

/// The comparisons of a value with the labels, in their order, and the jump to `default`, or to the end where there
/// is none.
pub fn compared_cases(
    cx: Context,
    labels: &[SwitchLabel],
    temp: u32,
    kind: TacKind,
    end: u32,
    out: &mut Emitter,
) -> Result<Cases, NoMemory>
    requires scene { Scene cx.p.now cx.d.now cx.types.now cx.homes.now out.old }
    requires temp { HasKind out.old temp kind }
    requires end { IsOpen out.old end }
    requires room { HasRoom out.old (length labels.now + 2) }
    ensures opened { IfOk result (λ c. Opened cx.entry.p.now cx.entry.d.now cx.entry.types.now cx.entry.homes.now
        out.old out.new (labels_in c) (length labels.now + 2)) }
    ensures spent { IfOk result (λ _. Spent out.old out.new 2 (27 * length labels.now + 1)) }
    ensures is { IfOk result (λ c. ShowsCases (labels_as labels.now) kind temp end c out.old out.new) }
{
    let switched = comparison_temps(temp, kind, out)?;
    let mut cases = Vec::new(cx.alloc);
    let mut otherwise = end;
    for l in labels {
        let label = out.label();
        cases.push(Case {
            before: l.before,
            label,
        })?;
        compare_label(switched, l.value, label, out)?;
        if l.value.is_none() {
            otherwise = label;
        }
    }
    out.jump(otherwise)?;
    cases.sort_by_key(|c| c.before)?;
    Ok(Cases { cases })
}
