//! `++` and `--` (C11 6.5.2.4, 6.5.3.1).

ghost use Rattle.std.specs.Prelude.{◌≡◌, ◌<◌, ◌&&◌, not};
ghost use Rattle.c_tree.specs.Types.{is_scalar};
ghost use Rattle.c_tree.specs.Expressions.{is_modifiable, increments, points_to_function};
ghost use Rattle.c_expressions.specs.Answers.{Answers};
ghost use Rattle.c_expressions.specs.Nodes.{IsWhole, IsOperand, operand_in, type_in, term_in, type_count, term_count};
ghost use Rattle.c_operand_rules.specs.Steps.{stepped_of};

use c_expressions::{Nodes, Operand, Step};
use c_tree::StepOperator;
use ck_base::{MISFIT, Pos, Refusal};

fn increments(op: StepOperator) -> bool
    ensures { increments op ≡ result }
{
    match op {
        StepOperator::Increment => true,
        StepOperator::Decrement => false,
    }
}

fn may_step(nodes: &Nodes<'_>, node: u32, t: u32) -> bool
    requires whole { IsWhole nodes.now }
    requires node { node < term_count nodes.now }
    requires there { t < type_count nodes.now }
    ensures { (is_modifiable (term_in nodes.now node) && is_scalar (type_in nodes.now t)
        && not (points_to_function (type_in nodes.now t))) ≡ result }
{
    nodes.is_modifiable(node) && nodes.is_scalar(t) && !nodes.points_to_function(t)
}

/// `++` and `--`, in front of their operand or behind it (C11 6.5.2.4, 6.5.3.1), where what a pointer points to is
/// known to be complete. Refused with 133 at the first byte of the expression unless the operand is modifiable and of
/// scalar type, and no pointer to a function.
pub fn stepped_of(
    nodes: &mut Nodes<'_>,
    op: StepOperator,
    in_front: bool,
    a: Operand,
    pos: Pos,
    first: Pos,
) -> Result<Operand, Refusal>
    requires whole { IsWhole nodes.old }
    requires operand { a.node < term_count nodes.old }
    ensures { Answers nodes.old nodes.new (stepped_of op in_front (operand_in nodes.old a) pos first) IsOperand result }
{
    let of = nodes.of(a.node);
    let t = nodes.bare(of);
    if !may_step(nodes, a.node, t) {
        return Err(Refusal::Code(MISFIT, first));
    }
    let adds = increments(op);
    let node = nodes.step(Step::Move(adds, in_front), a.node, t, pos)?;
    Ok(Operand { node, first })
}
