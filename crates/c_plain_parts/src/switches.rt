//! What stands in the braces of a `switch`, and the statement that it is (C11 6.8.4.2).

ghost use Rattle.std.specs.Prelude.{◌≡◌, ◌++◌, ◌∷◌, [], false, map, length, IfOk};
ghost use Rattle.c_tree.specs.Views.{label_of};
ghost use Rattle.c_tree.specs.Statements.{has_label};
ghost use Rattle.c_plain_parts.specs.Switches.{AddsLabel, switch_of, switch_label, labels_in};

use c_elaborator::{Items, join};
use c_tree::{StmtKind, SwitchLabel};
use ck_base::{DECLARED_TWICE, NoMemory, Pos, Refusal, Sequence};
use indexmap::IndexMap;
use std::alloc::Global;

/// What stands in the braces of a `switch` so far.
#[derive(Drop)]
pub struct Cases {
    pub items: Items,
    /// The values of the labels, none for `default`, in their order. Each has the number of statements that stand
    /// before it.
    pub labels: IndexMap<Option<u64>, u32>,
}

// Whether an earlier label has the value.
#[tactic(auto, using(crate::proofs::Alike::has_found))]
fn has_label(labels: &IndexMap<Option<u64>, u32>, value: Option<u64>) -> bool
    ensures { has_label value (map label_of (map switch_label labels.now.entries)) ≡ result }
{
    labels.contains_key(&value)
}

// One more label, before the next statement. No earlier one is like it.
fn with_label(cases: Cases, value: Option<u64>) -> Result<Cases, NoMemory>
    requires { has_label value (map label_of (labels_in cases)) ≡ false }
    ensures items { IfOk result (λ x. x.items ≡ cases.items) }
    ensures labels { IfOk result (λ x. labels_in x
        ≡ labels_in cases ++ record { value = value; before = length cases.items.actions.items } ∷ []) }
{
    let mut cases = cases;
    let before = u32::try_from(cases.items.actions.len()).map_err(|_| NoMemory)?;
    cases.labels.insert(value, before)?;
    Ok(cases)
}

/// One more label, behind the others and before the next statement: `default` where it has no value. Refused with 131
/// at its place where an earlier one is like it (C11 6.8.4.2p3), and where memory runs out.
pub fn add_label(cases: Cases, value: Option<u64>, pos: Pos) -> Result<Cases, Refusal>
    ensures { AddsLabel cases value pos result }
{
    if has_label(&cases.labels, value) {
        return Err(Refusal::Code(DECLARED_TWICE, pos));
    }
    let labelled = with_label(cases, value)?;
    Ok(labelled)
}

/// What a declaration or a statement gives, behind the others (C11 6.8.2). Fails only where memory runs out.
pub fn with_items(cases: Cases, more: Items) -> Result<Cases, NoMemory>
    ensures vars { IfOk result (λ x. x.items.vars.items ≡ cases.items.vars.items ++ more.vars.items) }
    ensures actions { IfOk result (λ x. x.items.actions.items ≡ cases.items.actions.items ++ more.actions.items) }
    ensures labels { IfOk result (λ x. labels_in x ≡ labels_in cases) }
{
    let mut cases = cases;
    join(&mut cases.items, more)?;
    Ok(cases)
}

fn switch_label(value: Option<u64>, before: u32) -> SwitchLabel
    ensures { result ≡ switch_label (value, before) }
{
    SwitchLabel { value, before }
}

// The labels, one after the other.
fn listed(alloc: Global, labels: &IndexMap<Option<u64>, u32>) -> Result<Vec<SwitchLabel>, NoMemory>
    ensures { IfOk result (λ v. v.items ≡ map switch_label labels.now.entries) }
{
    Ok(
        labels
            .iter()
            .map(|(value, before)| switch_label(*value, *before))
            .collect(alloc)?,
    )
}

/// The statement that a `switch` is, of the expression that it is on and what stands in its braces (C11 6.8.4.2). Fails
/// only where memory runs out.
pub fn switch_kind(alloc: Global, on: u32, cases: Cases) -> Result<StmtKind, NoMemory>
    ensures { IfOk result (λ k. k ≡ switch_of on cases) }
{
    let labels = listed(alloc, &cases.labels)?;
    let items = cases.items;
    Ok(StmtKind::Switch {
        on,
        vars: Sequence::from_vec(items.vars),
        labels: Sequence::from_vec(labels),
        body: Sequence::from_vec(items.actions),
    })
}
