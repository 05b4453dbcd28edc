//! Conditions as branches.

ghost use Rattle.std.specs.Prelude.{◌≡◌, ◌+◌, ◌-◌, ◌*◌, ◌<◌, true, false, IfOk};
ghost use Rattle.cheri_c_sem.specs.Order.{Ordered};
ghost use Rattle.tac_lower.specs.Copied.{copies_in};
ghost use Rattle.tac_emit.specs.Emitted.{IsOpen, Grown, Adds, HasRoom};
ghost use Rattle.tac_lower.specs.Nodes.{weight_in, IsTyped, HasOne, HasTwo};
ghost use Rattle.tac_emit.specs.Spent.{Spent};
ghost use Rattle.tac_lower.specs.Spent.{SpendsCondition, SpendsJunction};
ghost use Rattle.tac_lower.specs.Scenes.{Scene, Lowered, frame_of};
ghost use Rattle.c_tree.specs.declared.typed.ExprKind.TheVariants as exprs;
ghost use Rattle.c_tree.specs.declared.typed.UnaryOp.TheVariants as unary;
ghost use Rattle.ck_int.specs.declared.kinds.IntKind.TheVariants as int;
ghost use Rattle.tac_ir.specs.declared.code.TacKind.TheVariants as kinds;
ghost use Rattle.tac_ir.specs.declared.code.TacKind.{TacKind};
ghost use Rattle.tac_lower.specs.Nodes.{IsScalar};
ghost use Rattle.tac_emit.specs.Adding.{Emits};
ghost use Rattle.lower_runs.specs.Expressions as relation;
ghost use Rattle.tac_lower.specs.Trees.{setting, ShowsCondition, HasScalar, IsNode, joined};

use crate::context::Context;
use crate::expressions::operand;
use crate::writes::Written;
use c_tree::{ExprKind, UnaryOp};
use ck_base::NoMemory;
use tac_emit::Emitter;

/// The operands of `&&` or `||`.
#[derive(Clone, Copy)]
pub struct Junction {
    pub both: bool,
    pub a: u32,
    pub b: u32,
}

/// A jump to a label where a condition is `when`.
#[derive(Clone, Copy)]
pub struct Jump {
    pub when: bool,
    pub label: u32,
}

impl Junction {
    pub fn and(a: u32, b: u32) -> Self
        ensures { result ≡ record { both = true; a = a; b = b } }
    {
        Junction { both: true, a, b }
    }

    pub fn or(a: u32, b: u32) -> Self
        ensures { result ≡ record { both = false; a = a; b = b } }
    {
        Junction { both: false, a, b }
    }
}

#[tactic(auto, using(tac_emit::proofs::Wells::grown_same, tac_emit::proofs::Wells::adds_same))]
fn jump_if(out: &mut Emitter, truth: bool, jump: Jump) -> Result<(), NoMemory>
    requires open { IsOpen out.old jump.label }
    ensures grown { IfOk result (λ _. Grown out.old out.new) }
    ensures adds { IfOk result (λ _. Adds out.old out.new 0 0) }
    ensures spent { IfOk result (λ _. Spent out.old out.new 0 1) }
    ensures emits { IfOk result (λ _. Emits out.old out.new 0
        (relation.jump_if (relation.same jump.when truth) jump.label)) }
{
    if truth == jump.when {
        out.jump(jump.label)
    } else {
        Ok(())
    }
}

/// Goes to a label where the truth of expression `k` is `when`.
#[cycle(expressions)]
pub fn condition(cx: Context, k: u32, jump: Jump, out: &mut Emitter) -> Result<(), NoMemory>
    requires ordered { Ordered cx.p.now }
    requires scene { Scene cx.p.now cx.d.now cx.types.now cx.homes.now out.old }
    requires typed { IsTyped (frame_of cx.p.now cx.d.now) k }
    requires open { IsOpen out.old jump.label }
    requires room { HasRoom out.old (4 * weight_in cx.p.now k) }
    ensures lowered { IfOk result (λ _. Lowered cx.entry.p.now cx.entry.d.now cx.entry.types.now cx.entry.homes.now
        out.old out.new (4 * weight_in cx.entry.p.now k)) }
    ensures spends { IfOk result (λ _. SpendsCondition cx.entry.fixed (weight_in cx.entry.p.now k)
        (copies_in cx.entry.p.now k)
        out.old out.new) }
    ensures is { IfOk result (λ _. ShowsCondition (setting cx.entry) k jump.when jump.label out.old out.new) }
{
    let Some(e) = cx.node(k) else {
        return jump_if(out, false, jump);
    };
    match &e.kind {
        ExprKind::Constant(n) => jump_if(out, *n != 0, jump),
        ExprKind::Unary(UnaryOp::LogicalNot, a) => opposite_condition(cx, k, *a, jump, out),
        ExprKind::And(a, b) => joined_condition(cx, k, Junction::and(*a, *b), jump, out),
        ExprKind::Or(a, b) => joined_condition(cx, k, Junction::or(*a, *b), jump, out),
        _ => {
            let on = operand(cx, k, Written::Nothing, out)?;
            out.branch(on, jump.when, jump.label)
        }
    }
}

/// Goes to a label where the truth of `!` before `a`, expression `k`, is `when`.
#[cycle(expressions)]
fn opposite_condition(
    cx: Context,
    k: u32,
    a: u32,
    jump: Jump,
    out: &mut Emitter,
) -> Result<(), NoMemory>
    requires ordered { Ordered cx.p.now }
    requires a_before { a < k }
    requires scene { Scene cx.p.now cx.d.now cx.types.now cx.homes.now out.old }
    requires node { HasOne (frame_of cx.p.now cx.d.now) k a }
    requires open { IsOpen out.old jump.label }
    requires room { HasRoom out.old (4 * weight_in cx.p.now k) }
    ensures lowered { IfOk result (λ _. Lowered cx.entry.p.now cx.entry.d.now cx.entry.types.now cx.entry.homes.now
        out.old out.new (4 * weight_in cx.entry.p.now k)) }
    ensures spends { IfOk result (λ _. SpendsCondition cx.entry.fixed (weight_in cx.entry.p.now k)
        (copies_in cx.entry.p.now k)
        out.old out.new) }
    ensures is { IfOk result (λ _. IsScalar cx.entry.p.now k (kinds.Int int.I32) →
        HasScalar cx.entry.p.now a → IsNode cx.entry.p.now k (exprs.Unary unary.LogicalNot a) →
        ShowsCondition (setting cx.entry) k jump.when jump.label out.old out.new) }
{
    let jump = Jump {
        when: !jump.when,
        label: jump.label,
    };
    condition(cx, a, jump, out)
}

/// Goes to a label where the truth of `&&` or `||`, expression `k`, is `when`.
#[cycle(expressions)]
pub fn joined_condition(
    cx: Context,
    k: u32,
    j: Junction,
    jump: Jump,
    out: &mut Emitter,
) -> Result<(), NoMemory>
    requires ordered { Ordered cx.p.now }
    requires a_before { j.a < k }
    requires b_before { j.b < k }
    requires scene { Scene cx.p.now cx.d.now cx.types.now cx.homes.now out.old }
    requires node { HasTwo (frame_of cx.p.now cx.d.now) k j.a j.b }
    requires open { IsOpen out.old jump.label }
    requires room { HasRoom out.old (4 * weight_in cx.p.now k - 3) }
    ensures lowered { IfOk result (λ _. Lowered cx.entry.p.now cx.entry.d.now cx.entry.types.now cx.entry.homes.now
        out.old out.new (4 * weight_in cx.entry.p.now k - 3)) }
    ensures spends { IfOk result (λ _. SpendsJunction cx.entry.fixed (weight_in cx.entry.p.now k)
        (copies_in cx.entry.p.now k)
        out.old out.new) }
    ensures is { IfOk result (λ _. IsScalar cx.entry.p.now k (kinds.Int int.I32) → HasScalar cx.entry.p.now j.a →
        HasScalar cx.entry.p.now j.b → IsNode cx.entry.p.now k (joined j.both j.a j.b) →
        ShowsCondition (setting cx.entry) k jump.when jump.label out.old out.new) }
{
    if j.both == jump.when {
        return joined_around(cx, k, j, jump, out);
    }
    condition(cx, j.a, jump, out)?;
    condition(cx, j.b, jump, out)
}

/// Goes to a label where both operands have the truth that leads there.
#[cycle(expressions)]
fn joined_around(
    cx: Context,
    k: u32,
    j: Junction,
    jump: Jump,
    out: &mut Emitter,
) -> Result<(), NoMemory>
    requires ordered { Ordered cx.p.now }
    requires a_before { j.a < k }
    requires b_before { j.b < k }
    requires around { j.both ≡ jump.when }
    requires scene { Scene cx.p.now cx.d.now cx.types.now cx.homes.now out.old }
    requires node { HasTwo (frame_of cx.p.now cx.d.now) k j.a j.b }
    requires open { IsOpen out.old jump.label }
    requires room { HasRoom out.old (4 * weight_in cx.p.now k - 3) }
    ensures lowered { IfOk result (λ _. Lowered cx.entry.p.now cx.entry.d.now cx.entry.types.now cx.entry.homes.now
        out.old out.new (4 * weight_in cx.entry.p.now k - 3)) }
    ensures spends { IfOk result (λ _. SpendsJunction cx.entry.fixed (weight_in cx.entry.p.now k)
        (copies_in cx.entry.p.now k)
        out.old out.new) }
    ensures is { IfOk result (λ _. IsScalar cx.entry.p.now k (kinds.Int int.I32) → HasScalar cx.entry.p.now j.a →
        HasScalar cx.entry.p.now j.b → IsNode cx.entry.p.now k (joined j.both j.a j.b) →
        ShowsCondition (setting cx.entry) k jump.when jump.label out.old out.new) }
{
    let around = Jump {
        when: !jump.when,
        label: out.label(),
    };
    condition(cx, j.a, around, out)?;
    condition(cx, j.b, jump, out)?;
    out.stand(around.label)
}
