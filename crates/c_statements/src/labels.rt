//! What a `switch` is on, and its labels (C11 6.8.4.2).

ghost use Rattle.std.specs.Prelude.{◌≡◌, ◌<◌, IfOk};
ghost use Rattle.ck_int.specs.Kinds.{wrapped};
ghost use Rattle.c_tree.specs.Syntax.{Syn, Syns};
ghost use Rattle.c_tree.specs.Programs.{reading, readings};
ghost use Rattle.c_tree.specs.Statements.{case_label};
ghost use Rattle.c_expressions.specs.Nodes.{IsWhole, type_in, type_count, term_count};
ghost use Rattle.c_elaborator.specs.Answers.{Answers, quietly, freely};
ghost use Rattle.c_elaborator.specs.Parts.{IsPart, AreParts};
ghost use Rattle.c_readings.specs.Within.{PartWithin, PartsWithin};
ghost use Rattle.c_statements.specs.Statements.{switched, SwitchedThere, IsSwitched, IsPromoted, LabelThere, IsLabel};
ghost use Rattle.c_statements.specs.Statements.{CasesThere, IsCases, cases_in, case_of, labelling};

use c_declarators::Constant;
use c_elaborator::Work;
use c_expressions::Nodes;
use c_plain_rules::{Cases, add_label};
use c_readings::{constant, first_of, value_of};
use ck_base::{MISFIT, NoMemory, Pos, Refusal};
use ck_int::{IntKind, wrap};

/// What a `switch` is on: the number of its promoted type, and the expression in that type.
#[derive(Clone, Copy)]
pub struct Controlling {
    pub of: u32,
    pub value: u32,
}

// An integer in its promoted type.
fn promoted_value(nodes: &mut Nodes<'_>, node: u32) -> Result<Controlling, NoMemory>
    requires whole { IsWhole nodes.old }
    requires there { node < term_count nodes.old }
    ensures { IfOk result (λ x. IsPromoted nodes.old nodes.new node x) }
{
    let to = nodes.promoted(nodes.of(node))?;
    let value = nodes.converted(to, node)?;
    Ok(Controlling { of: to, value })
}

// An integer, promoted: 133 at its first byte if it is none.
pub(crate) fn switched(work: &mut Work<'_>, k: u32, depth: u32) -> Result<Controlling, Refusal>
    requires whole { IsWhole work.old.nodes }
    requires part { PartWithin work.old depth k }
    ensures { (x : Syn) → IsPart work.old k x →
        Answers quietly work.old work.new (switched (reading x)) SwitchedThere IsSwitched result }
{
    let a = value_of(work, k, depth)?;
    if !work.nodes.is_integer(work.nodes.of(a.node)) {
        return Err(Refusal::Code(MISFIT, a.first));
    }
    let on = promoted_value(&mut work.nodes, a.node)?;
    Ok(on)
}

// A constant at a kind.
fn kept_constant(kind: IntKind, value: Constant) -> u64
    ensures { result ≡ wrapped kind value.number }
{
    wrap(kind, value.number)
}

// The value of a `case`, converted to the type of what the `switch` is on.
fn case_value(work: &mut Work<'_>, of: u32, k: u32, depth: u32) -> Result<Option<u64>, Refusal>
    requires whole { IsWhole work.old.nodes }
    requires there { of < type_count work.old.nodes }
    requires part { PartWithin work.old depth k }
    ensures { (x : Syn) → IsPart work.old k x →
        Answers quietly work.old work.new (case_of (type_in work.old.nodes of) (reading x)) LabelThere IsLabel result }
{
    let value = constant(work, k, depth)?;
    let kind = work.nodes.class(of).kind();
    Ok(Some(kept_constant(kind, value)))
}

// The value of a label: none for `default`.
fn label(work: &mut Work<'_>, of: u32, kids: &[u32], depth: u32) -> Result<Option<u64>, Refusal>
    requires whole { IsWhole work.old.nodes }
    requires there { of < type_count work.old.nodes }
    requires parts { PartsWithin work.old depth kids.now }
    ensures { (xs : Syns) → AreParts work.old kids.now xs →
        Answers quietly work.old work.new (case_label (readings xs) (type_in work.old.nodes of)) LabelThere IsLabel
        result }
{
    match first_of(kids) {
        None => Ok(None),
        Some(x) => case_value(work, of, x.first, depth),
    }
}

// A label, which is added behind the others.
pub(crate) fn labelled(
    work: &mut Work<'_>,
    of: u32,
    kids: &[u32],
    pos: Pos,
    cases: Cases,
    depth: u32,
) -> Result<Cases, Refusal>
    requires whole { IsWhole work.old.nodes }
    requires there { of < type_count work.old.nodes }
    requires parts { PartsWithin work.old depth kids.now }
    requires cases { CasesThere work.old cases }
    ensures { (xs : Syns) → AreParts work.old kids.now xs →
        Answers freely work.old work.new (labelling (readings xs) (type_in work.old.nodes of) pos
        (cases_in work.old cases)) CasesThere IsCases result }
{
    let value = label(work, of, kids, depth)?;
    add_label(cases, value, pos)
}
