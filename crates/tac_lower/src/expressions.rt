//! Expressions. A value is computed into a temp that is given, which may be a variable's: it is written when all that
//! the expression reads of variables was read.

ghost use Rattle.std.specs.Prelude.{◌≡◌, ℕ, ◌+◌, ◌-◌, ◌*◌, ◌<◌, true, false, IfOk, IfSome, Some};
ghost use Rattle.ck_int.specs.declared.kinds.IntKind.TheVariants as int;
ghost use Rattle.tac_ir.specs.declared.code.TacKind.TheVariants as kinds;
ghost use Rattle.tac_emit.specs.declared.emitter.Emitter.{Emitter};
ghost use Rattle.cheri_c_sem.specs.Order.{Ordered};
ghost use Rattle.tac_lower.specs.Copied.{copies_in};
ghost use Rattle.tac_emit.specs.Emitted.{HasKind, HasRoom, Grown, Adds};
ghost use Rattle.tac_lower.specs.Operands.{Holds, ChangeFits};
ghost use Rattle.tac_lower.specs.Signed.{ResultFits};
ghost use Rattle.tac_emit.specs.Spent.{Spent};
ghost use Rattle.tac_lower.specs.Spent.{Spends, SpendsValue, SpendsOperand, Owns, extra};
ghost use Rattle.tac_lower.specs.Tables.{is_some};
ghost use Rattle.c_tree.specs.WellTyped.{type_in};
ghost use Rattle.tac_lower.specs.Nodes.{scalar_in, kind_in, kept_as, or_int, points, weight_in, IsTyped, IsScalar};
ghost use Rattle.tac_lower.specs.Nodes.{HasOne, HasTwo, HasThree, UnaryNode, SameNode, IntNode, CapabilityNode};
ghost use Rattle.tac_lower.specs.Nodes.{DifferenceNode, CompareNode, TruthNode, SumNode, CommaNode, AssignNode};
ghost use Rattle.tac_lower.specs.Nodes.{CompoundNode, StepNode, ConditionalNode};
ghost use Rattle.tac_lower.specs.Scenes.{Ready, Housed, Scene, Lowered, frame_of};
ghost use Rattle.c_tree.specs.declared.typed.ExprKind.TheVariants as exprs;
ghost use Rattle.tac_lower.specs.Trees.{setting, IsNode, ShowsInPlace, ShowsOperand, ShowsOperandIn, ShowsPair};
ghost use Rattle.tac_lower.specs.Trees.{ShowsAssignment, ShowsSomeStruct, ShowsPlaceEffect, HasRecord, IsWhole};
ghost use Rattle.tac_lower.specs.Trees.{ShowsValue, ShowsEffect, Peels, IsSpared, Signs, joined, HasScalar};
ghost use Rattle.std.specs.Prelude.{not};
ghost use Rattle.tac_lower.specs.Shown.{sign_as};
ghost use Rattle.tac_lower.specs.Assigning.{IsIndex, IsSum, ShowsMoved, ShowsOwn, ShowsAssigned, IsChangeOf, Steps};
ghost use Rattle.tac_lower.specs.Assigning.{Renews, RenewsApart};
ghost use Rattle.lower_runs.specs.Expressions.{asks_old};
ghost use Rattle.tac_lower.specs.Trees.{IsVariable, Located};
ghost use Rattle.ck_int.specs.declared.kinds.IntOp.{IntOp};
ghost use Rattle.c_tree.specs.declared.typed.UnaryOp.{UnaryOp};
ghost use Rattle.tac_ir.specs.declared.code.TacKind.{TacKind};

use crate::calls::{call, library};
use crate::conditions::{Jump, Junction, condition, joined_condition};
use crate::context::Context;
use crate::operations::{
    Change, Held, Pace, Sign, changed, derived, difference, moved, negated, signed, stepped,
    stepped_apart, stride, whole,
};
use crate::places::{address, pointer, struct_assignment};
use crate::types::{INT, int_kind, is_signed, same_kind};
use crate::writes::Written;
use c_tree::{ExprKind, UnaryOp};
use ck_base::NoMemory;
use ck_int::{CmpOp, IntOp};
use tac_emit::Emitter;
use tac_ir::{Amount, TacKind};

/// Two expressions have values of one kind, scalars.
fn kept_alike(cx: Context, k: u32, a: u32) -> bool
    requires ready { Ready cx.p.now cx.types.now }
    ensures { result ≡ true → scalar_in cx.entry.p.now a ≡ scalar_in cx.entry.p.now k }
{
    match (cx.scalar(k), cx.scalar(a)) {
        (Some(j), Some(i)) => same_kind(i, j),
        _ => false,
    }
}

/// The operand of expression `k`, if it is a conversion that leaves its value as it is.
#[tactic(auto, using(crate::proofs::Below::convert))]
fn kept_operand(cx: Context, k: u32) -> Option<u32>
    requires ordered { Ordered cx.p.now }
    requires ready { Ready cx.p.now cx.types.now }
    requires typed { IsTyped (frame_of cx.p.now cx.d.now) k }
    ensures before { IfSome result (λ a. a < k) }
    ensures typed { IfSome result (λ a. IsTyped (frame_of cx.entry.p.now cx.entry.d.now) a) }
    ensures kept { IfSome result (λ a. scalar_in cx.entry.p.now a ≡ scalar_in cx.entry.p.now k) }
    ensures peels { IfSome result (λ a. Peels (setting cx.entry) k a) }
{
    let Some(e) = cx.node(k) else {
        return None;
    };
    match e.kind {
        ExprKind::Convert(a) => { if kept_alike(cx, k, a) { Some(a) } else { None } }
        _ => None,
    }
}

/// Expression `k` without the conversions around it that leave its value as it is.
fn peeled(cx: Context, k: u32) -> u32
    requires ordered { Ordered cx.p.now }
    requires ready { Ready cx.p.now cx.types.now }
    requires typed { IsTyped (frame_of cx.p.now cx.d.now) k }
    ensures typed { IsTyped (frame_of cx.entry.p.now cx.entry.d.now) result }
    ensures kept { scalar_in cx.entry.p.now result ≡ scalar_in cx.entry.p.now k }
    ensures peels { Peels (setting cx.entry) k result }
{
    match kept_operand(cx, k) {
        None => k,
        Some(a) => peeled(cx, a),
    }
}

/// The temp of the variable whose value is read, if it is no object and `later` does not write it.
fn spared_variable(cx: Context, a: u32, later: Written) -> Option<u32>
    requires ready { Ready cx.p.now cx.types.now }
    requires typed { IsTyped (frame_of cx.p.now cx.d.now) a }
    ensures stands { IfSome result (λ t. IsSpared cx.entry.p.now cx.entry.homes.now later a t) }
    ensures has { (e : Emitter) → Housed cx.entry.p.now cx.entry.d.now cx.entry.homes.now e
        → IfSome result (λ t. HasKind e t (kind_in cx.entry.p.now a)) }
{
    match cx.named_variable(a) {
        Some(x) if later.spares(x) => cx.variable(a),
        _ => None,
    }
}

/// The temp that has the value of expression `k` already, and that `later` does not write: a variable's, or the one
/// with the pointer to an object.
pub fn in_place(cx: Context, k: u32, later: Written) -> Option<u32>
    requires ordered { Ordered cx.p.now }
    requires ready { Ready cx.p.now cx.types.now }
    requires typed { IsTyped (frame_of cx.p.now cx.d.now) k }
    ensures has { (e : Emitter) → Housed cx.entry.p.now cx.entry.d.now cx.entry.homes.now e
        → IfSome result (λ t. HasKind e t (kind_in cx.entry.p.now k)) }
    ensures is { IfSome result (λ t. ShowsInPlace (setting cx.entry) later k t) }
{
    let j = peeled(cx, k);
    let e = cx.node(j)?;
    match e.kind {
        ExprKind::Decay(a) => cx.object(a),
        ExprKind::Address(a) => cx.object(a),
        ExprKind::Load(a) => spared_variable(cx, a, later),
        _ => None,
    }
}

/// The number of an index that is a plain constant.
fn constant_index(cx: Context, k: u32) -> Option<u64>
    requires ordered { Ordered cx.p.now }
    requires ready { Ready cx.p.now cx.types.now }
    requires typed { IsTyped (frame_of cx.p.now cx.d.now) k }
    ensures is { IfSome result (λ n. IsIndex (setting cx.entry) k n) }
{
    match cx.scalar(k)? {
        TacKind::Cap(_) => None,
        TacKind::Int(_) => match cx.node(peeled(cx, k))?.kind {
            ExprKind::Constant(n) => Some(n),
            _ => None,
        },
    }
}

/// The temp of a value that is changed in steps: the one that is given, or one of its own where that belongs to a
/// variable or none is given.
fn own(cx: Context, to: Option<u32>, kind: TacKind, out: &mut Emitter) -> Result<u32, NoMemory>
    requires scene { Scene cx.p.now cx.d.now cx.types.now cx.homes.now out.old }
    requires room { HasRoom out.old (1) }
    requires to { IfSome to (λ t. HasKind out.old t kind) }
    ensures has { IfOk result (λ t. HasKind out.new t kind) }
    ensures lowered { IfOk result (λ _. Lowered cx.entry.p.now cx.entry.d.now cx.entry.types.now cx.entry.homes.now
        out.old out.new (1)) }
    ensures owns { IfOk result (λ t. Owns cx.entry.fixed to out.old out.new t) }
    ensures is { IfOk result (λ t. ShowsOwn (setting cx.entry) to t out.old out.new) }
{
    let Some(t) = to else {
        return out.temp(kind);
    };
    if cx.is_own(t) {
        return Ok(t);
    }
    out.temp(kind)
}

/// A temp with the value of expression `k`: one that has it already, if `later` does not write it, or a new one.
#[cycle(expressions)]
pub fn operand(cx: Context, k: u32, later: Written, out: &mut Emitter) -> Result<u32, NoMemory>
    requires ordered { Ordered cx.p.now }
    requires scene { Scene cx.p.now cx.d.now cx.types.now cx.homes.now out.old }
    requires typed { IsTyped (frame_of cx.p.now cx.d.now) k }
    requires room { HasRoom out.old (4 * weight_in cx.p.now k) }
    ensures has { IfOk result (λ t. HasKind out.new t (kind_in cx.entry.p.now k)) }
    ensures lowered { IfOk result (λ _. Lowered cx.entry.p.now cx.entry.d.now cx.entry.types.now cx.entry.homes.now
        out.old out.new (4 * weight_in cx.entry.p.now k)) }
    ensures spends { IfOk result (λ _. SpendsOperand cx.entry.fixed (weight_in cx.entry.p.now k)
        (copies_in cx.entry.p.now k)
        out.old out.new) }
    ensures is { IfOk result (λ t. ShowsOperand (setting cx.entry) later k t out.old out.new) }
{
    match in_place(cx, k, later) {
        Some(t) => Ok(t),
        None => {
            let t = out.temp(cx.kind(k))?;
            value(cx, k, t, out)?;
            Ok(t)
        }
    }
}

/// A temp with the value of expression `k`, which nothing follows: one that has it already, or the one that is given.
#[cycle(expressions)]
fn operand_in(cx: Context, k: u32, to: u32, out: &mut Emitter) -> Result<Held, NoMemory>
    requires ordered { Ordered cx.p.now }
    requires scene { Scene cx.p.now cx.d.now cx.types.now cx.homes.now out.old }
    requires typed { IsTyped (frame_of cx.p.now cx.d.now) k }
    requires to { HasKind out.old to (kind_in cx.p.now k) }
    requires room { HasRoom out.old (4 * weight_in cx.p.now k - 1) }
    ensures holds { IfOk result (λ x. Holds out.new x) }
    ensures kind { IfOk result (λ x. x.kind ≡ kind_in cx.entry.p.now k) }
    ensures lowered { IfOk result (λ _. Lowered cx.entry.p.now cx.entry.d.now cx.entry.types.now cx.entry.homes.now
        out.old out.new (4 * weight_in cx.entry.p.now k - 1)) }
    ensures spends { IfOk result (λ _. SpendsValue cx.entry.fixed (weight_in cx.entry.p.now k)
        (copies_in cx.entry.p.now k)
        (extra cx.entry.fixed (Some to))
        out.old out.new) }
    ensures is { IfOk result (λ x. ShowsOperandIn (setting cx.entry) k to x.temp out.old out.new) }
{
    let kind = cx.kind(k);
    match in_place(cx, k, Written::Nothing) {
        Some(temp) => Ok(Held { temp, kind }),
        None => {
            value(cx, k, to, out)?;
            Ok(Held { temp: to, kind })
        }
    }
}

/// An operand with its kind.
#[cycle(expressions)]
fn held(cx: Context, k: u32, later: Written, out: &mut Emitter) -> Result<Held, NoMemory>
    requires ordered { Ordered cx.p.now }
    requires scene { Scene cx.p.now cx.d.now cx.types.now cx.homes.now out.old }
    requires typed { IsTyped (frame_of cx.p.now cx.d.now) k }
    requires room { HasRoom out.old (4 * weight_in cx.p.now k) }
    ensures holds { IfOk result (λ x. Holds out.new x) }
    ensures kind { IfOk result (λ x. x.kind ≡ kind_in cx.entry.p.now k) }
    ensures lowered { IfOk result (λ _. Lowered cx.entry.p.now cx.entry.d.now cx.entry.types.now cx.entry.homes.now
        out.old out.new (4 * weight_in cx.entry.p.now k)) }
    ensures spends { IfOk result (λ _. SpendsOperand cx.entry.fixed (weight_in cx.entry.p.now k)
        (copies_in cx.entry.p.now k)
        out.old out.new) }
    ensures is { IfOk result (λ x. ShowsOperand (setting cx.entry) later k x.temp out.old out.new) }
{
    let temp = operand(cx, k, later, out)?;
    Ok(Held {
        temp,
        kind: cx.kind(k),
    })
}

/// Two operands, from the left to the right.
#[cycle(expressions)]
fn pair(cx: Context, k: u32, a: u32, b: u32, out: &mut Emitter) -> Result<(Held, Held), NoMemory>
    requires ordered { Ordered cx.p.now }
    requires a_before { a < k }
    requires b_before { b < k }
    requires scene { Scene cx.p.now cx.d.now cx.types.now cx.homes.now out.old }
    requires node { HasTwo (frame_of cx.p.now cx.d.now) k a b }
    requires room { HasRoom out.old (4 * weight_in cx.p.now k - 4) }
    ensures left { IfOk result (λ x. Holds out.new x.0) }
    ensures right { IfOk result (λ x. Holds out.new x.1) }
    ensures left_kind { IfOk result (λ x. x.0.kind ≡ kind_in cx.entry.p.now a) }
    ensures right_kind { IfOk result (λ x. x.1.kind ≡ kind_in cx.entry.p.now b) }
    ensures lowered { IfOk result (λ _. Lowered cx.entry.p.now cx.entry.d.now cx.entry.types.now cx.entry.homes.now
        out.old out.new (4 * weight_in cx.entry.p.now k - 4)) }
    ensures spends { IfOk result (λ _. Spends cx.entry.fixed out.old out.new (2 * weight_in cx.entry.p.now k - 4)
        (32 * weight_in cx.entry.p.now k - 74) (copies_in cx.entry.p.now k)) }
    ensures is { IfOk result (λ x. ShowsPair (setting cx.entry) a x.0.temp b x.1.temp out.old out.new) }
{
    let x = held(cx, a, cx.written(b), out)?;
    let y = held(cx, b, Written::Nothing, out)?;
    Ok((x, y))
}

/// The temp for the value of expression `k`, where it has one.
fn asked(cx: Context, k: u32, to: u32) -> Option<u32>
    requires ready { Ready cx.p.now cx.types.now }
    ensures fits { (e : Emitter) → HasKind e to (kind_in cx.entry.p.now k) →
        ResultFits e result (scalar_in cx.entry.p.now k) }
    ensures given { (j : TacKind) → IsScalar cx.entry.p.now k j → result ≡ Some to }
{
    if cx.scalar(k).is_some() {
        Some(to)
    } else {
        None
    }
}

/// The value of expression `k`, in temp `to`.
#[cycle(expressions)]
pub fn value(cx: Context, k: u32, to: u32, out: &mut Emitter) -> Result<(), NoMemory>
    requires ordered { Ordered cx.p.now }
    requires scene { Scene cx.p.now cx.d.now cx.types.now cx.homes.now out.old }
    requires typed { IsTyped (frame_of cx.p.now cx.d.now) k }
    requires to { HasKind out.old to (kind_in cx.p.now k) }
    requires room { HasRoom out.old (4 * weight_in cx.p.now k - 1) }
    ensures lowered { IfOk result (λ _. Lowered cx.entry.p.now cx.entry.d.now cx.entry.types.now cx.entry.homes.now
        out.old out.new (4 * weight_in cx.entry.p.now k - 1)) }
    ensures spends { IfOk result (λ _. SpendsValue cx.entry.fixed (weight_in cx.entry.p.now k)
        (copies_in cx.entry.p.now k)
        (extra cx.entry.fixed (Some to))
        out.old out.new) }
    ensures is { IfOk result (λ _. ShowsValue (setting cx.entry) k to out.old out.new) }
{
    let kind = cx.kind(k);
    let Some(e) = cx.node(k) else {
        return out.constant(to, kind, 0);
    };
    match &e.kind {
        ExprKind::Constant(n) => out.constant(to, kind, *n),
        #[tactic(auto, using(crate::proofs::Below::load))]
        ExprKind::Load(a) => load(cx, k, *a, to, out),
        ExprKind::Decay(a) => address(cx, k, *a, to, out),
        ExprKind::Address(a) => address(cx, k, *a, to, out),
        #[tactic(auto, using(crate::proofs::Below::convert))]
        ExprKind::Convert(a) => conversion(cx, k, *a, to, out),
        ExprKind::Unary(op, a) => unary(cx, k, *op, *a, to, out),
        ExprKind::Int(op, a, b) => integer(cx, k, *op, *a, *b, to, out),
        ExprKind::Capability(op, a, b, right) => {
            let from = Operation {
                op: *op,
                right: *right,
            };
            capability(cx, k, from, *a, *b, to, out)
        }
        ExprKind::Plus(a, b, minus) => sum(cx, k, *a, *b, *minus, to, out),
        ExprKind::Difference(a, b) => distance(cx, k, *a, *b, to, out),
        ExprKind::Compare(op, a, b) => comparison(cx, k, *op, *a, *b, to, out),
        ExprKind::And(a, b) => truth(cx, k, Junction::and(*a, *b), to, out),
        ExprKind::Or(a, b) => truth(cx, k, Junction::or(*a, *b), to, out),
        ExprKind::Conditional(c, a, b) => choice(cx, k, *c, *a, *b, to, out),
        ExprKind::Comma(a, b) => comma(cx, k, *a, *b, to, out),
        #[tactic(auto, using(crate::proofs::Below::assign_left, crate::proofs::Below::assign_right))]
        ExprKind::Assign(a, b) => assignment(cx, k, *a, *b, Some(to), out),
        ExprKind::Compound(op, a, b, of) => {
            let change = change_of(cx, *op, *of);
            compound(cx, k, change, *a, *b, Some(to), out)
        }
        ExprKind::Step(a, adds, front) => step(cx, k, *a, *adds, *front, Some(to), out),
        ExprKind::Call(f, args) => call(cx, k, *f, args.as_slice(), asked(cx, k, to), out),
        ExprKind::Library(n, args) => library(cx, k, *n, args.as_slice(), asked(cx, k, to), out),
        ExprKind::Literal(_)
        | ExprKind::Var(_)
        | ExprKind::Global(_)
        | ExprKind::Fun(_)
        | ExprKind::Deref(_)
        | ExprKind::Member(_, _) => out.constant(to, kind, 0),
    }
}

/// A choice of two values, by the truth of `c` (C11 6.5.15).
#[cycle(expressions)]
fn choice(
    cx: Context,
    k: u32,
    c: u32,
    a: u32,
    b: u32,
    to: u32,
    out: &mut Emitter,
) -> Result<(), NoMemory>
    requires ordered { Ordered cx.p.now }
    requires c_before { c < k }
    requires a_before { a < k }
    requires b_before { b < k }
    requires scene { Scene cx.p.now cx.d.now cx.types.now cx.homes.now out.old }
    requires node { ConditionalNode (frame_of cx.p.now cx.d.now) k c a b }
    requires to { HasKind out.old to (kind_in cx.p.now k) }
    requires room { HasRoom out.old (4 * weight_in cx.p.now k - 1) }
    ensures lowered { IfOk result (λ _. Lowered cx.entry.p.now cx.entry.d.now cx.entry.types.now cx.entry.homes.now
        out.old out.new (4 * weight_in cx.entry.p.now k - 1)) }
    ensures spends { IfOk result (λ _. SpendsValue cx.entry.fixed (weight_in cx.entry.p.now k)
        (copies_in cx.entry.p.now k)
        (extra cx.entry.fixed (Some to))
        out.old out.new) }
    ensures is { IfOk result (λ _. IsNode cx.entry.p.now k (exprs.Conditional c a b) →
        ShowsValue (setting cx.entry) k to out.old out.new) }
{
    let fork = out.fork();
    let jump = Jump {
        when: false,
        label: fork.other,
    };
    condition(cx, c, jump, out)?;
    value(cx, a, to, out)?;
    out.turn_fork(fork)?;
    value(cx, b, to, out)?;
    out.join_fork(fork)
}

/// The value of `b` behind what `a` does.
#[cycle(expressions)]
fn comma(cx: Context, k: u32, a: u32, b: u32, to: u32, out: &mut Emitter) -> Result<(), NoMemory>
    requires ordered { Ordered cx.p.now }
    requires a_before { a < k }
    requires b_before { b < k }
    requires scene { Scene cx.p.now cx.d.now cx.types.now cx.homes.now out.old }
    requires node { CommaNode (frame_of cx.p.now cx.d.now) k a b }
    requires to { HasKind out.old to (kind_in cx.p.now k) }
    requires room { HasRoom out.old (4 * weight_in cx.p.now k - 1) }
    ensures lowered { IfOk result (λ _. Lowered cx.entry.p.now cx.entry.d.now cx.entry.types.now cx.entry.homes.now
        out.old out.new (4 * weight_in cx.entry.p.now k - 1)) }
    ensures spends { IfOk result (λ _. SpendsValue cx.entry.fixed (weight_in cx.entry.p.now k)
        (copies_in cx.entry.p.now k)
        (extra cx.entry.fixed (Some to))
        out.old out.new) }
    ensures is { IfOk result (λ _. IsNode cx.entry.p.now k (exprs.Comma a b) →
        ShowsValue (setting cx.entry) k to out.old out.new) }
{
    effect(cx, a, out)?;
    value(cx, b, to, out)
}

/// An operation on plain integers.
#[cycle(expressions)]
fn integer(
    cx: Context,
    k: u32,
    op: IntOp,
    a: u32,
    b: u32,
    to: u32,
    out: &mut Emitter,
) -> Result<(), NoMemory>
    requires ordered { Ordered cx.p.now }
    requires a_before { a < k }
    requires b_before { b < k }
    requires scene { Scene cx.p.now cx.d.now cx.types.now cx.homes.now out.old }
    requires node { IntNode (frame_of cx.p.now cx.d.now) k op a b }
    requires to { HasKind out.old to (kind_in cx.p.now k) }
    requires room { HasRoom out.old (4 * weight_in cx.p.now k - 1) }
    ensures lowered { IfOk result (λ _. Lowered cx.entry.p.now cx.entry.d.now cx.entry.types.now cx.entry.homes.now
        out.old out.new (4 * weight_in cx.entry.p.now k - 1)) }
    ensures spends { IfOk result (λ _. SpendsValue cx.entry.fixed (weight_in cx.entry.p.now k)
        (copies_in cx.entry.p.now k)
        (extra cx.entry.fixed (Some to))
        out.old out.new) }
    ensures is { IfOk result (λ _. IsNode cx.entry.p.now k (exprs.Int op a b) →
        ShowsValue (setting cx.entry) k to out.old out.new) }
{
    let (x, y) = pair(cx, k, a, b, out)?;
    whole(out, op, int_kind(cx.kind(k)), to, x.temp, y)
}

/// An operation on capability integers, and whether its result derives from the right operand.
#[derive(Clone, Copy)]
struct Operation {
    op: IntOp,
    right: bool,
}

/// An operation on capability integers.
#[cycle(expressions)]
fn capability(
    cx: Context,
    k: u32,
    from: Operation,
    a: u32,
    b: u32,
    to: u32,
    out: &mut Emitter,
) -> Result<(), NoMemory>
    requires ordered { Ordered cx.p.now }
    requires a_before { a < k }
    requires b_before { b < k }
    requires scene { Scene cx.p.now cx.d.now cx.types.now cx.homes.now out.old }
    requires node { CapabilityNode (frame_of cx.p.now cx.d.now) k from.op a b }
    requires to { HasKind out.old to (kind_in cx.p.now k) }
    requires room { HasRoom out.old (4 * weight_in cx.p.now k - 1) }
    ensures lowered { IfOk result (λ _. Lowered cx.entry.p.now cx.entry.d.now cx.entry.types.now cx.entry.homes.now
        out.old out.new (4 * weight_in cx.entry.p.now k - 1)) }
    ensures spends { IfOk result (λ _. SpendsValue cx.entry.fixed (weight_in cx.entry.p.now k)
        (copies_in cx.entry.p.now k)
        (extra cx.entry.fixed (Some to))
        out.old out.new) }
    ensures is { IfOk result (λ _. IsNode cx.entry.p.now k (exprs.Capability from.op a b from.right) →
        ShowsValue (setting cx.entry) k to out.old out.new) }
{
    let (x, y) = pair(cx, k, a, b, out)?;
    let signed = is_signed(cx.kind(k));
    derived(out, from.op, signed, from.right, to, x, y)
}

/// The difference of two pointers.
#[cycle(expressions)]
fn distance(cx: Context, k: u32, a: u32, b: u32, to: u32, out: &mut Emitter) -> Result<(), NoMemory>
    requires ordered { Ordered cx.p.now }
    requires a_before { a < k }
    requires b_before { b < k }
    requires scene { Scene cx.p.now cx.d.now cx.types.now cx.homes.now out.old }
    requires node { DifferenceNode (frame_of cx.p.now cx.d.now) k a b }
    requires to { HasKind out.old to (kind_in cx.p.now k) }
    requires room { HasRoom out.old (4 * weight_in cx.p.now k - 1) }
    ensures lowered { IfOk result (λ _. Lowered cx.entry.p.now cx.entry.d.now cx.entry.types.now cx.entry.homes.now
        out.old out.new (4 * weight_in cx.entry.p.now k - 1)) }
    ensures spends { IfOk result (λ _. SpendsValue cx.entry.fixed (weight_in cx.entry.p.now k)
        (copies_in cx.entry.p.now k)
        (extra cx.entry.fixed (Some to))
        out.old out.new) }
    ensures is { IfOk result (λ _. IsNode cx.entry.p.now k (exprs.Difference a b) →
        ShowsValue (setting cx.entry) k to out.old out.new) }
{
    let (x, y) = pair(cx, k, a, b, out)?;
    let size = cx.pointed_size(a).unwrap_or(0);
    difference(out, size, to, x.temp, y.temp)
}

/// What expression `k` does, and no value.
#[cycle(expressions)]
pub fn effect(cx: Context, k: u32, out: &mut Emitter) -> Result<(), NoMemory>
    requires ordered { Ordered cx.p.now }
    requires scene { Scene cx.p.now cx.d.now cx.types.now cx.homes.now out.old }
    requires typed { IsTyped (frame_of cx.p.now cx.d.now) k }
    requires room { HasRoom out.old (4 * weight_in cx.p.now k) }
    ensures lowered { IfOk result (λ _. Lowered cx.entry.p.now cx.entry.d.now cx.entry.types.now cx.entry.homes.now
        out.old out.new (4 * weight_in cx.entry.p.now k)) }
    ensures spends { IfOk result (λ _. SpendsValue cx.entry.fixed (weight_in cx.entry.p.now k)
        (copies_in cx.entry.p.now k) 1
        out.old out.new) }
    ensures is { IfOk result (λ _. ShowsEffect (setting cx.entry) k out.old out.new) }
    ensures places { IfOk result (λ _. ShowsPlaceEffect (setting cx.entry) k out.old out.new) }
{
    let Some(e) = cx.node(k) else {
        return Ok(());
    };
    match &e.kind {
        #[tactic(auto, using(crate::proofs::Below::convert))]
        ExprKind::Convert(a) => effect(cx, *a, out),
        #[tactic(auto, using(crate::proofs::Below::assign_left, crate::proofs::Below::assign_right))]
        ExprKind::Assign(a, b) => assignment(cx, k, *a, *b, None, out),
        ExprKind::Compound(op, a, b, of) => {
            let change = change_of(cx, *op, *of);
            compound(cx, k, change, *a, *b, None, out)
        }
        ExprKind::Step(a, adds, front) => step(cx, k, *a, *adds, *front, None, out),
        ExprKind::Call(f, args) => call(cx, k, *f, args.as_slice(), None, out),
        ExprKind::Library(n, args) => library(cx, k, *n, args.as_slice(), None, out),
        ExprKind::Comma(a, b) => {
            effect(cx, *a, out)?;
            effect(cx, *b, out)
        }
        ExprKind::Conditional(c, a, b) => chosen_effect(cx, k, *c, *a, *b, out),
        ExprKind::And(a, b) => guarded_effect(cx, k, *a, *b, false, out),
        ExprKind::Or(a, b) => guarded_effect(cx, k, *a, *b, true, out),
        #[tactic(auto, using(crate::proofs::Below::load))]
        ExprKind::Load(a) => read_effect(cx, k, *a, out),
        ExprKind::Deref(a) => effect(cx, *a, out),
        ExprKind::Member(a, _) => effect(cx, *a, out),
        ExprKind::Constant(_)
        | ExprKind::Literal(_)
        | ExprKind::Var(_)
        | ExprKind::Global(_)
        | ExprKind::Fun(_) => Ok(()),
        ExprKind::Decay(_)
        | ExprKind::Address(_)
        | ExprKind::Unary(_, _)
        | ExprKind::Int(_, _, _)
        | ExprKind::Capability(_, _, _, _)
        | ExprKind::Plus(_, _, _)
        | ExprKind::Difference(_, _)
        | ExprKind::Compare(_, _, _) => {
            let t = out.temp(cx.kind(k))?;
            value(cx, k, t, out)
        }
    }
}

/// What a choice of two values does.
#[cycle(expressions)]
fn chosen_effect(
    cx: Context,
    k: u32,
    c: u32,
    a: u32,
    b: u32,
    out: &mut Emitter,
) -> Result<(), NoMemory>
    requires ordered { Ordered cx.p.now }
    requires c_before { c < k }
    requires a_before { a < k }
    requires b_before { b < k }
    requires scene { Scene cx.p.now cx.d.now cx.types.now cx.homes.now out.old }
    requires node { HasThree (frame_of cx.p.now cx.d.now) k c a b }
    requires room { HasRoom out.old (4 * weight_in cx.p.now k) }
    ensures lowered { IfOk result (λ _. Lowered cx.entry.p.now cx.entry.d.now cx.entry.types.now cx.entry.homes.now
        out.old out.new (4 * weight_in cx.entry.p.now k)) }
    ensures spends { IfOk result (λ _. SpendsValue cx.entry.fixed (weight_in cx.entry.p.now k)
        (copies_in cx.entry.p.now k) 1
        out.old out.new) }
    ensures is { IfOk result (λ _. HasScalar cx.entry.p.now c →
        IsNode cx.entry.p.now k (exprs.Conditional c a b) → ShowsEffect (setting cx.entry) k out.old out.new) }
    ensures places { IfOk result (λ _. HasScalar cx.entry.p.now c →
        IsNode cx.entry.p.now k (exprs.Conditional c a b) → ShowsPlaceEffect (setting cx.entry) k out.old out.new) }
{
    let fork = out.fork();
    let jump = Jump {
        when: false,
        label: fork.other,
    };
    condition(cx, c, jump, out)?;
    effect(cx, a, out)?;
    out.turn_fork(fork)?;
    effect(cx, b, out)?;
    out.join_fork(fork)
}

/// The second operand of `&&` or `||`, `b`, for its effect, unless the truth of `a` is `when`.
#[cycle(expressions)]
fn guarded_effect(
    cx: Context,
    k: u32,
    a: u32,
    b: u32,
    when: bool,
    out: &mut Emitter,
) -> Result<(), NoMemory>
    requires ordered { Ordered cx.p.now }
    requires a_before { a < k }
    requires b_before { b < k }
    requires scene { Scene cx.p.now cx.d.now cx.types.now cx.homes.now out.old }
    requires node { HasTwo (frame_of cx.p.now cx.d.now) k a b }
    requires room { HasRoom out.old (4 * weight_in cx.p.now k) }
    ensures lowered { IfOk result (λ _. Lowered cx.entry.p.now cx.entry.d.now cx.entry.types.now cx.entry.homes.now
        out.old out.new (4 * weight_in cx.entry.p.now k)) }
    ensures spends { IfOk result (λ _. SpendsValue cx.entry.fixed (weight_in cx.entry.p.now k)
        (copies_in cx.entry.p.now k) 1
        out.old out.new) }
    ensures is { IfOk result (λ _. HasScalar cx.entry.p.now a →
        IsNode cx.entry.p.now k (joined (not when) a b) → ShowsEffect (setting cx.entry) k out.old out.new) }
{
    let label = out.label();
    condition(cx, a, Jump { when, label }, out)?;
    effect(cx, b, out)?;
    out.stand(label)
}

/// The reading of place `a`, by expression `k`, of a scalar: that of an object may trap. A struct or union is not read.
#[cycle(expressions)]
fn read_effect(cx: Context, k: u32, a: u32, out: &mut Emitter) -> Result<(), NoMemory>
    requires ordered { Ordered cx.p.now }
    requires a_before { a < k }
    requires scene { Scene cx.p.now cx.d.now cx.types.now cx.homes.now out.old }
    requires node { SameNode (frame_of cx.p.now cx.d.now) k a }
    requires room { HasRoom out.old (4 * weight_in cx.p.now k) }
    ensures lowered { IfOk result (λ _. Lowered cx.entry.p.now cx.entry.d.now cx.entry.types.now cx.entry.homes.now
        out.old out.new (4 * weight_in cx.entry.p.now k)) }
    ensures spends { IfOk result (λ _. SpendsValue cx.entry.fixed (weight_in cx.entry.p.now k)
        (copies_in cx.entry.p.now k) 1
        out.old out.new) }
    ensures is { IfOk result (λ _. IsNode cx.entry.p.now k (exprs.Load a) → IsWhole cx.entry.p.now k →
        ShowsEffect (setting cx.entry) k out.old out.new) }
    ensures places { IfOk result (λ _. IsNode cx.entry.p.now k (exprs.Load a) → IsWhole cx.entry.p.now k →
        ShowsPlaceEffect (setting cx.entry) k out.old out.new) }
{
    match cx.scalar(k) {
        None => effect(cx, a, out),
        Some(kind) => match cx.variable(a) {
            Some(_) => Ok(()),
            None => {
                let t = out.temp(kind)?;
                load(cx, k, a, t, out)
            }
        },
    }
}

/// The value at place `a`, read by expression `k`.
#[cycle(expressions)]
fn load(cx: Context, k: u32, a: u32, to: u32, out: &mut Emitter) -> Result<(), NoMemory>
    requires ordered { Ordered cx.p.now }
    requires a_before { a < k }
    requires scene { Scene cx.p.now cx.d.now cx.types.now cx.homes.now out.old }
    requires node { SameNode (frame_of cx.p.now cx.d.now) k a }
    requires to { HasKind out.old to (kind_in cx.p.now k) }
    requires room { HasRoom out.old (4 * weight_in cx.p.now k - 1) }
    ensures lowered { IfOk result (λ _. Lowered cx.entry.p.now cx.entry.d.now cx.entry.types.now cx.entry.homes.now
        out.old out.new (4 * weight_in cx.entry.p.now k - 1)) }
    ensures spends { IfOk result (λ _. SpendsValue cx.entry.fixed (weight_in cx.entry.p.now k)
        (copies_in cx.entry.p.now k)
        (extra cx.entry.fixed (Some to))
        out.old out.new) }
    ensures is { IfOk result (λ _. IsNode cx.entry.p.now k (exprs.Load a) →
        ShowsValue (setting cx.entry) k to out.old out.new) }
{
    match cx.variable(a) {
        Some(t) => out.transfer(to, t),
        None => {
            let from = pointer(cx, a, Written::Nothing, out)?;
            out.load(to, from, cx.kind(k), cx.pos(a))
        }
    }
}

/// The value of `a`, converted to the kind of expression `k`; to none where it is dropped.
#[cycle(expressions)]
fn conversion(cx: Context, k: u32, a: u32, to: u32, out: &mut Emitter) -> Result<(), NoMemory>
    requires ordered { Ordered cx.p.now }
    requires a_before { a < k }
    requires scene { Scene cx.p.now cx.d.now cx.types.now cx.homes.now out.old }
    requires node { HasOne (frame_of cx.p.now cx.d.now) k a }
    requires to { HasKind out.old to (kind_in cx.p.now k) }
    requires room { HasRoom out.old (4 * weight_in cx.p.now k - 1) }
    ensures lowered { IfOk result (λ _. Lowered cx.entry.p.now cx.entry.d.now cx.entry.types.now cx.entry.homes.now
        out.old out.new (4 * weight_in cx.entry.p.now k - 1)) }
    ensures spends { IfOk result (λ _. SpendsValue cx.entry.fixed (weight_in cx.entry.p.now k)
        (copies_in cx.entry.p.now k)
        (extra cx.entry.fixed (Some to))
        out.old out.new) }
    ensures is { IfOk result (λ _. ((j : TacKind) → IsScalar cx.entry.p.now k j →
        HasScalar cx.entry.p.now a) → IsNode cx.entry.p.now k (exprs.Convert a) →
        ShowsValue (setting cx.entry) k to out.old out.new) }
{
    let new = cx.kind(k);
    if cx.scalar(k).is_none() {
        effect(cx, a, out)?;
        return out.constant(to, new, 0);
    }
    let old = cx.kind(a);
    if same_kind(old, new) {
        return value(cx, a, to, out);
    }
    let x = operand(cx, a, Written::Nothing, out)?;
    out.convert(to, x, old, new)
}

/// A unary operation on `a`.
#[cycle(expressions)]
fn unary(
    cx: Context,
    k: u32,
    op: UnaryOp,
    a: u32,
    to: u32,
    out: &mut Emitter,
) -> Result<(), NoMemory>
    requires ordered { Ordered cx.p.now }
    requires a_before { a < k }
    requires scene { Scene cx.p.now cx.d.now cx.types.now cx.homes.now out.old }
    requires node { UnaryNode (frame_of cx.p.now cx.d.now) k op a }
    requires to { HasKind out.old to (kind_in cx.p.now k) }
    requires room { HasRoom out.old (4 * weight_in cx.p.now k - 1) }
    ensures lowered { IfOk result (λ _. Lowered cx.entry.p.now cx.entry.d.now cx.entry.types.now cx.entry.homes.now
        out.old out.new (4 * weight_in cx.entry.p.now k - 1)) }
    ensures spends { IfOk result (λ _. SpendsValue cx.entry.fixed (weight_in cx.entry.p.now k)
        (copies_in cx.entry.p.now k)
        (extra cx.entry.fixed (Some to))
        out.old out.new) }
    ensures is { IfOk result (λ _. IsNode cx.entry.p.now k (exprs.Unary op a) →
        ShowsValue (setting cx.entry) k to out.old out.new) }
{
    match op {
        UnaryOp::LogicalNot => {
            let x = held(cx, a, Written::Nothing, out)?;
            negated(out, to, x)
        }
        UnaryOp::Plus => signed_value(cx, k, Sign::Positive, a, to, out),
        UnaryOp::Minus => signed_value(cx, k, Sign::Negative, a, to, out),
        UnaryOp::Complement => signed_value(cx, k, Sign::Complement, a, to, out),
    }
}

/// `+`, `-` or `~` of `a`.
#[cycle(expressions)]
fn signed_value(
    cx: Context,
    k: u32,
    sign: Sign,
    a: u32,
    to: u32,
    out: &mut Emitter,
) -> Result<(), NoMemory>
    requires ordered { Ordered cx.p.now }
    requires a_before { a < k }
    requires scene { Scene cx.p.now cx.d.now cx.types.now cx.homes.now out.old }
    requires node { SameNode (frame_of cx.p.now cx.d.now) k a }
    requires to { HasKind out.old to (kind_in cx.p.now k) }
    requires room { HasRoom out.old (4 * weight_in cx.p.now k - 1) }
    ensures lowered { IfOk result (λ _. Lowered cx.entry.p.now cx.entry.d.now cx.entry.types.now cx.entry.homes.now
        out.old out.new (4 * weight_in cx.entry.p.now k - 1)) }
    ensures spends { IfOk result (λ _. SpendsValue cx.entry.fixed (weight_in cx.entry.p.now k)
        (copies_in cx.entry.p.now k)
        (extra cx.entry.fixed (Some to))
        out.old out.new) }
    ensures is { IfOk result (λ _. (op : UnaryOp) → Signs op (sign_as sign) →
        IsNode cx.entry.p.now k (exprs.Unary op a) →
        ShowsValue (setting cx.entry) k to out.old out.new) }
{
    let x = operand_in(cx, a, to, out)?;
    signed(out, sign, to, x)
}

/// A comparison.
#[cycle(expressions)]
fn comparison(
    cx: Context,
    k: u32,
    op: CmpOp,
    a: u32,
    b: u32,
    to: u32,
    out: &mut Emitter,
) -> Result<(), NoMemory>
    requires ordered { Ordered cx.p.now }
    requires a_before { a < k }
    requires b_before { b < k }
    requires scene { Scene cx.p.now cx.d.now cx.types.now cx.homes.now out.old }
    requires node { CompareNode (frame_of cx.p.now cx.d.now) k a b }
    requires to { HasKind out.old to (kind_in cx.p.now k) }
    requires room { HasRoom out.old (4 * weight_in cx.p.now k - 1) }
    ensures lowered { IfOk result (λ _. Lowered cx.entry.p.now cx.entry.d.now cx.entry.types.now cx.entry.homes.now
        out.old out.new (4 * weight_in cx.entry.p.now k - 1)) }
    ensures spends { IfOk result (λ _. SpendsValue cx.entry.fixed (weight_in cx.entry.p.now k)
        (copies_in cx.entry.p.now k)
        (extra cx.entry.fixed (Some to))
        out.old out.new) }
    ensures is { IfOk result (λ _. IsNode cx.entry.p.now k (exprs.Compare op a b) →
        ShowsValue (setting cx.entry) k to out.old out.new) }
{
    let (x, y) = pair(cx, k, a, b, out)?;
    out.compare(op, x.kind, to, x.temp, y.temp)
}

/// The truth of `&&` or `||`, expression `k`, as 0 or 1.
#[cycle(expressions)]
fn truth(cx: Context, k: u32, j: Junction, to: u32, out: &mut Emitter) -> Result<(), NoMemory>
    requires ordered { Ordered cx.p.now }
    requires a_before { j.a < k }
    requires b_before { j.b < k }
    requires scene { Scene cx.p.now cx.d.now cx.types.now cx.homes.now out.old }
    requires node { TruthNode (frame_of cx.p.now cx.d.now) k j.a j.b }
    requires to { HasKind out.old to (kind_in cx.p.now k) }
    requires room { HasRoom out.old (4 * weight_in cx.p.now k - 1) }
    ensures lowered { IfOk result (λ _. Lowered cx.entry.p.now cx.entry.d.now cx.entry.types.now cx.entry.homes.now
        out.old out.new (4 * weight_in cx.entry.p.now k - 1)) }
    ensures spends { IfOk result (λ _. SpendsValue cx.entry.fixed (weight_in cx.entry.p.now k)
        (copies_in cx.entry.p.now k)
        (extra cx.entry.fixed (Some to))
        out.old out.new) }
    ensures is { IfOk result (λ _. HasScalar cx.entry.p.now j.a → HasScalar cx.entry.p.now j.b →
        IsNode cx.entry.p.now k (joined j.both j.a j.b) →
        ShowsValue (setting cx.entry) k to out.old out.new) }
{
    let fork = out.fork();
    let jump = Jump {
        when: false,
        label: fork.other,
    };
    joined_condition(cx, k, j, jump, out)?;
    out.constant(to, INT, 1)?;
    out.turn_fork(fork)?;
    out.constant(to, INT, 0)?;
    out.join_fork(fork)
}

/// A pointer and an integer, `a` and `b` in the order of the source.
#[cycle(expressions)]
fn sum(
    cx: Context,
    k: u32,
    a: u32,
    b: u32,
    minus: bool,
    to: u32,
    out: &mut Emitter,
) -> Result<(), NoMemory>
    requires ordered { Ordered cx.p.now }
    requires a_before { a < k }
    requires b_before { b < k }
    requires scene { Scene cx.p.now cx.d.now cx.types.now cx.homes.now out.old }
    requires node { SumNode (frame_of cx.p.now cx.d.now) k a b }
    requires to { HasKind out.old to (kind_in cx.p.now k) }
    requires room { HasRoom out.old (4 * weight_in cx.p.now k - 1) }
    ensures lowered { IfOk result (λ _. Lowered cx.entry.p.now cx.entry.d.now cx.entry.types.now cx.entry.homes.now
        out.old out.new (4 * weight_in cx.entry.p.now k - 1)) }
    ensures spends { IfOk result (λ _. SpendsValue cx.entry.fixed (weight_in cx.entry.p.now k)
        (copies_in cx.entry.p.now k)
        (extra cx.entry.fixed (Some to))
        out.old out.new) }
    ensures is { IfOk result (λ _. IsNode cx.entry.p.now k (exprs.Plus a b minus) →
        ShowsValue (setting cx.entry) k to out.old out.new) }
{
    match cx.pointed_size(a) {
        Some(size) => pointer_first(cx, k, a, b, stride(size, minus), to, out),
        None => {
            let size = cx.pointed_size(b).unwrap_or(0);
            pointer_second(cx, k, a, b, stride(size, minus), to, out)
        }
    }
}

/// Pointer `a` and integer `b`, with the bytes of an element.
#[cycle(expressions)]
fn pointer_first(
    cx: Context,
    k: u32,
    a: u32,
    b: u32,
    by: u64,
    to: u32,
    out: &mut Emitter,
) -> Result<(), NoMemory>
    requires ordered { Ordered cx.p.now }
    requires a_before { a < k }
    requires b_before { b < k }
    requires scene { Scene cx.p.now cx.d.now cx.types.now cx.homes.now out.old }
    requires node { HasTwo (frame_of cx.p.now cx.d.now) k a b }
    requires pointer { IsScalar cx.p.now a (kinds.Cap false) }
    requires to { HasKind out.old to (kinds.Cap false) }
    requires room { HasRoom out.old (4 * weight_in cx.p.now k - 1) }
    ensures lowered { IfOk result (λ _. Lowered cx.entry.p.now cx.entry.d.now cx.entry.types.now cx.entry.homes.now
        out.old out.new (4 * weight_in cx.entry.p.now k - 1)) }
    ensures spends { IfOk result (λ _. SpendsValue cx.entry.fixed (weight_in cx.entry.p.now k)
        (copies_in cx.entry.p.now k)
        (extra cx.entry.fixed (Some to))
        out.old out.new) }
    ensures is { IfOk result (λ _. IsSum (setting cx.entry) k a b false by →
        ShowsValue (setting cx.entry) k to out.old out.new) }
{
    match constant_index(cx, b) {
        Some(n) => displaced(cx, a, by.wrapping_mul(n), to, out),
        None => {
            let (base, i) = pair(cx, k, a, b, out)?;
            moved(out, by, to, base.temp, i)
        }
    }
}

/// Integer `a` and pointer `b`, with the bytes of an element.
#[cycle(expressions)]
fn pointer_second(
    cx: Context,
    k: u32,
    a: u32,
    b: u32,
    by: u64,
    to: u32,
    out: &mut Emitter,
) -> Result<(), NoMemory>
    requires ordered { Ordered cx.p.now }
    requires a_before { a < k }
    requires b_before { b < k }
    requires scene { Scene cx.p.now cx.d.now cx.types.now cx.homes.now out.old }
    requires node { HasTwo (frame_of cx.p.now cx.d.now) k a b }
    requires pointer { IsScalar cx.p.now b (kinds.Cap false) }
    requires to { HasKind out.old to (kinds.Cap false) }
    requires room { HasRoom out.old (4 * weight_in cx.p.now k - 1) }
    ensures lowered { IfOk result (λ _. Lowered cx.entry.p.now cx.entry.d.now cx.entry.types.now cx.entry.homes.now
        out.old out.new (4 * weight_in cx.entry.p.now k - 1)) }
    ensures spends { IfOk result (λ _. SpendsValue cx.entry.fixed (weight_in cx.entry.p.now k)
        (copies_in cx.entry.p.now k)
        (extra cx.entry.fixed (Some to))
        out.old out.new) }
    ensures is { IfOk result (λ _. IsSum (setting cx.entry) k a b true by →
        ShowsValue (setting cx.entry) k to out.old out.new) }
{
    match constant_index(cx, a) {
        Some(n) => displaced(cx, b, by.wrapping_mul(n), to, out),
        None => {
            let (i, base) = pair(cx, k, a, b, out)?;
            moved(out, by, to, base.temp, i)
        }
    }
}

/// Pointer `k` moved by a known number of bytes.
#[cycle(expressions)]
fn displaced(cx: Context, k: u32, by: u64, to: u32, out: &mut Emitter) -> Result<(), NoMemory>
    requires ordered { Ordered cx.p.now }
    requires scene { Scene cx.p.now cx.d.now cx.types.now cx.homes.now out.old }
    requires typed { IsTyped (frame_of cx.p.now cx.d.now) k }
    requires pointer { IsScalar cx.p.now k (kinds.Cap false) }
    requires to { HasKind out.old to (kinds.Cap false) }
    requires room { HasRoom out.old (4 * weight_in cx.p.now k - 1) }
    ensures lowered { IfOk result (λ _. Lowered cx.entry.p.now cx.entry.d.now cx.entry.types.now cx.entry.homes.now
        out.old out.new (4 * weight_in cx.entry.p.now k - 1)) }
    ensures spends { IfOk result (λ _. Spends cx.entry.fixed out.old out.new
        (2 * weight_in cx.entry.p.now k - 2 + extra cx.entry.fixed (Some to))
        (32 * weight_in cx.entry.p.now k - 6 + 6 * extra cx.entry.fixed (Some to)) (copies_in cx.entry.p.now k)) }
    ensures is { IfOk result (λ _. ShowsMoved (setting cx.entry) k by to out.old out.new) }
{
    let base = operand_in(cx, k, to, out)?;
    out.offset(to, base.temp, Amount::Number(by))
}

/// Place `a` gets value `b`, which is also the value of assignment `k`.
#[cycle(expressions)]
fn assignment(
    cx: Context,
    k: u32,
    a: u32,
    b: u32,
    to: Option<u32>,
    out: &mut Emitter,
) -> Result<(), NoMemory>
    requires ordered { Ordered cx.p.now }
    requires a_before { a < k }
    requires b_before { b < k }
    requires scene { Scene cx.p.now cx.d.now cx.types.now cx.homes.now out.old }
    requires node { AssignNode (frame_of cx.p.now cx.d.now) k a b }
    requires to { IfSome to (λ t. HasKind out.old t (kind_in cx.p.now k)) }
    requires room { HasRoom out.old (4 * weight_in cx.p.now k - 1) }
    ensures lowered { IfOk result (λ _. Lowered cx.entry.p.now cx.entry.d.now cx.entry.types.now cx.entry.homes.now
        out.old out.new (4 * weight_in cx.entry.p.now k - 1)) }
    ensures spends { IfOk result (λ _. SpendsValue cx.entry.fixed (weight_in cx.entry.p.now k)
        (copies_in cx.entry.p.now k) (extra cx.entry.fixed to)
        out.old out.new) }
    ensures is { IfOk result (λ _. IsNode cx.entry.p.now k (exprs.Assign a b) →
        ShowsAssignment (setting cx.entry) k to out.old out.new) }
    ensures copies { IfOk result (λ _. IsNode cx.entry.p.now k (exprs.Assign a b) → HasRecord cx.entry.p.now k →
        ShowsSomeStruct (setting cx.entry) k out.old out.new) }
{
    if cx.facts(k).record {
        struct_assignment(cx, k, a, b, out)?;
        return Ok(());
    }
    match cx.variable(a) {
        Some(v) => {
            value(cx, b, v, out)?;
            out.give(to, v)
        }
        None => object_assignment(cx, k, a, b, to, out),
    }
}

/// An object's place `a` gets value `b`.
#[cycle(expressions)]
fn object_assignment(
    cx: Context,
    k: u32,
    a: u32,
    b: u32,
    to: Option<u32>,
    out: &mut Emitter,
) -> Result<(), NoMemory>
    requires ordered { Ordered cx.p.now }
    requires a_before { a < k }
    requires b_before { b < k }
    requires scene { Scene cx.p.now cx.d.now cx.types.now cx.homes.now out.old }
    requires node { AssignNode (frame_of cx.p.now cx.d.now) k a b }
    requires to { IfSome to (λ t. HasKind out.old t (kind_in cx.p.now k)) }
    requires room { HasRoom out.old (4 * weight_in cx.p.now k - 1) }
    ensures lowered { IfOk result (λ _. Lowered cx.entry.p.now cx.entry.d.now cx.entry.types.now cx.entry.homes.now
        out.old out.new (4 * weight_in cx.entry.p.now k - 1)) }
    ensures spends { IfOk result (λ _. SpendsValue cx.entry.fixed (weight_in cx.entry.p.now k)
        (copies_in cx.entry.p.now k) (extra cx.entry.fixed to)
        out.old out.new) }
    ensures is { IfOk result (λ _. Located (setting cx.entry) a → IsNode cx.entry.p.now k (exprs.Assign a b) →
        ShowsAssignment (setting cx.entry) k to out.old out.new) }
{
    let kind = cx.kind(a);
    let at = pointer(cx, a, cx.written(b), out)?;
    let v = assigned(cx, b, to, kind, out)?;
    out.store(at, v, kind, cx.pos(a))?;
    out.give(to, v)
}

/// The value of `k` that is assigned, in a temp: of its own where it is also asked for.
#[cycle(expressions)]
fn assigned(
    cx: Context,
    k: u32,
    to: Option<u32>,
    kind: TacKind,
    out: &mut Emitter,
) -> Result<u32, NoMemory>
    requires ordered { Ordered cx.p.now }
    requires scene { Scene cx.p.now cx.d.now cx.types.now cx.homes.now out.old }
    requires typed { IsTyped (frame_of cx.p.now cx.d.now) k }
    requires kind { kind_in cx.p.now k ≡ kind }
    requires to { IfSome to (λ t. HasKind out.old t kind) }
    requires room { HasRoom out.old (4 * weight_in cx.p.now k) }
    ensures has { IfOk result (λ t. HasKind out.new t kind) }
    ensures lowered { IfOk result (λ _. Lowered cx.entry.p.now cx.entry.d.now cx.entry.types.now cx.entry.homes.now
        out.old out.new (4 * weight_in cx.entry.p.now k)) }
    ensures spends { IfOk result (λ _. SpendsOperand cx.entry.fixed (weight_in cx.entry.p.now k)
        (copies_in cx.entry.p.now k)
        out.old out.new) }
    ensures is { IfOk result (λ t. ShowsAssigned (setting cx.entry) k to t out.old out.new) }
{
    match to {
        None => operand(cx, k, Written::Nothing, out),
        Some(_) => {
            let v = own(cx, to, kind, out)?;
            value(cx, k, v, out)?;
            Ok(v)
        }
    }
}

/// The operation of a compound assignment that is computed in a type, by its number.
fn change_of(cx: Context, op: IntOp, of: u32) -> Change
    requires ready { Ready cx.p.now cx.types.now }
    ensures op { result.op ≡ op }
    ensures computed { result.computed ≡ or_int (kept_as (type_in cx.entry.p.now of)) }
    ensures element { is_some result.element ≡ points (type_in cx.entry.p.now of) }
    ensures is { IsChangeOf cx.entry.p.now op of result }
{
    Change {
        op,
        computed: cx.kind_of_type(of),
        element: cx.element(of),
    }
}

/// The value of place `a` is changed by `b`, and is also the value of compound assignment `k`.
#[cycle(expressions)]
fn compound(
    cx: Context,
    k: u32,
    change: Change,
    a: u32,
    b: u32,
    to: Option<u32>,
    out: &mut Emitter,
) -> Result<(), NoMemory>
    requires ordered { Ordered cx.p.now }
    requires a_before { a < k }
    requires b_before { b < k }
    requires scene { Scene cx.p.now cx.d.now cx.types.now cx.homes.now out.old }
    requires node { HasTwo (frame_of cx.p.now cx.d.now) k a b }
    requires left { scalar_in cx.p.now a ≡ scalar_in cx.p.now k }
    requires change { ChangeFits change (kind_in cx.p.now a) (kind_in cx.p.now b) }
    requires to { IfSome to (λ t. HasKind out.old t (kind_in cx.p.now k)) }
    requires room { HasRoom out.old (4 * weight_in cx.p.now k - 1) }
    ensures lowered { IfOk result (λ _. Lowered cx.entry.p.now cx.entry.d.now cx.entry.types.now cx.entry.homes.now
        out.old out.new (4 * weight_in cx.entry.p.now k - 1)) }
    ensures spends { IfOk result (λ _. SpendsValue cx.entry.fixed (weight_in cx.entry.p.now k)
        (copies_in cx.entry.p.now k) (extra cx.entry.fixed to)
        out.old out.new) }
    ensures is { IfOk result (λ _. (op : IntOp) (of : ℕ) → IsNode cx.entry.p.now k (exprs.Compound op a b of) →
        CompoundNode (frame_of cx.entry.p.now cx.entry.d.now) k op a b of → IsChangeOf cx.entry.p.now op of change →
        ShowsAssignment (setting cx.entry) k to out.old out.new) }
{
    let kind = cx.kind(a);
    match cx.variable(a) {
        Some(temp) => {
            let y = held(cx, b, Written::Nothing, out)?;
            changed(out, change, temp, Held { temp, kind }, y)?;
            out.give(to, temp)
        }
        None => {
            let at = pointer(cx, a, cx.written(b), out)?;
            let y = held(cx, b, Written::Nothing, out)?;
            let temp = own(cx, to, kind, out)?;
            out.load(temp, at, kind, cx.pos(a))?;
            changed(out, change, temp, Held { temp, kind }, y)?;
            out.store(at, temp, kind, cx.pos(a))?;
            out.give(to, temp)
        }
    }
}

/// Place `a` is moved by one; the new value is asked for where the operator stands in front, else the old one.
#[cycle(expressions)]
fn step(
    cx: Context,
    k: u32,
    a: u32,
    up: bool,
    front: bool,
    to: Option<u32>,
    out: &mut Emitter,
) -> Result<(), NoMemory>
    requires ordered { Ordered cx.p.now }
    requires a_before { a < k }
    requires scene { Scene cx.p.now cx.d.now cx.types.now cx.homes.now out.old }
    requires node { StepNode (frame_of cx.p.now cx.d.now) k a }
    requires to { IfSome to (λ t. HasKind out.old t (kind_in cx.p.now k)) }
    requires room { HasRoom out.old (4 * weight_in cx.p.now k - 1) }
    ensures lowered { IfOk result (λ _. Lowered cx.entry.p.now cx.entry.d.now cx.entry.types.now cx.entry.homes.now
        out.old out.new (4 * weight_in cx.entry.p.now k - 1)) }
    ensures spends { IfOk result (λ _. SpendsValue cx.entry.fixed (weight_in cx.entry.p.now k)
        (copies_in cx.entry.p.now k) (extra cx.entry.fixed to)
        out.old out.new) }
    ensures is { IfOk result (λ _. IsNode cx.entry.p.now k (exprs.Step a up front) →
        ShowsAssignment (setting cx.entry) k to out.old out.new) }
{
    let kind = cx.kind(a);
    let size = cx.pointed_size(a).unwrap_or(1);
    let pace = Pace { up, size };
    match cx.variable(a) {
        Some(temp) => variable_step(cx, pace, front, to, Held { temp, kind }, out),
        None => {
            let at = pointer(cx, a, Written::Nothing, out)?;
            let old = own(cx, to, kind, out)?;
            out.load(old, at, kind, cx.pos(a))?;
            let new = renewed(out, pace, drops_old(front, to), Held { temp: old, kind })?;
            out.store(at, new, kind, cx.pos(a))?;
            out.give(to, old)
        }
    }
}

/// The old value of a place that is moved is not asked for.
fn drops_old(front: bool, to: Option<u32>) -> bool
    ensures { asks_old (not front) to ≡ not result }
{
    front || to.is_none()
}

/// The new value of a place that is moved: in the temp of the old one, where this is not asked for.
fn renewed(out: &mut Emitter, pace: Pace, same: bool, old: Held) -> Result<u32, NoMemory>
    requires old { Holds out.old old }
    requires room { HasRoom out.old 1 }
    ensures has { IfOk result (λ t. HasKind out.new t old.kind) }
    ensures grown { IfOk result (λ _. Grown out.old out.new) }
    ensures adds { IfOk result (λ _. Adds out.old out.new 1 0) }
    ensures spent { IfOk result (λ _. Spent out.old out.new 1 17) }
    ensures same { same ≡ true → IfOk result (λ t. Renews pace old t out.old out.new) }
    ensures apart { same ≡ false → IfOk result (λ t. RenewsApart pace old t out.old out.new) }
{
    if !same {
        return stepped_apart(out, pace, old);
    }
    stepped(out, pace, old.temp, old)?;
    Ok(old.temp)
}

/// A variable is moved by one.
fn variable_step(
    cx: Context,
    pace: Pace,
    front: bool,
    to: Option<u32>,
    v: Held,
    out: &mut Emitter,
) -> Result<(), NoMemory>
    requires scene { Scene cx.p.now cx.d.now cx.types.now cx.homes.now out.old }
    requires v { Holds out.old v }
    requires to { IfSome to (λ t. HasKind out.old t v.kind) }
    requires room { HasRoom out.old (2) }
    ensures lowered { IfOk result (λ _. Lowered cx.entry.p.now cx.entry.d.now cx.entry.types.now cx.entry.homes.now
        out.old out.new (2)) }
    ensures spends { IfOk result (λ _. Spends cx.entry.fixed out.old out.new 2 35 0) }
    ensures is { IfOk result (λ _. (k a : ℕ) → IsTyped (frame_of cx.entry.p.now cx.entry.d.now) a →
        Steps (setting cx.entry) k a front pace → IsVariable cx.entry.p.now cx.entry.homes.now a v.temp →
        v.kind ≡ kind_in cx.entry.p.now a → ShowsAssignment (setting cx.entry) k to out.old out.new) }
{
    if drops_old(front, to) {
        stepped(out, pace, v.temp, v)?;
        return out.give(to, v.temp);
    }
    let old = own(cx, to, v.kind, out)?;
    out.copy(old, v.temp)?;
    stepped(out, pace, v.temp, v)?;
    out.give(to, old)
}
