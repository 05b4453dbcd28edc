//! Places, and struct and union values: their pointers.

ghost use Rattle.std.specs.Prelude.{◌≡◌, ℕ, ◌+◌, ◌-◌, ◌*◌, ◌<◌, ◌≤◌, true, false, IfOk, IfSome, Some};
ghost use Rattle.tac_ir.specs.declared.code.TacKind.TheVariants as kinds;
ghost use Rattle.tac_emit.specs.declared.emitter.Emitter.{Emitter};
ghost use Rattle.tac_lower.specs.Destinations.{TargetFits, DestinationFits};
ghost use Rattle.tac_emit.specs.Emitted.{HasKind, Grown, Adds, HasRoom};
ghost use Rattle.tac_lower.specs.Nodes.{weight_in, kind_in, IsTyped, AddressNode, HasOne, HasTwo, HasThree};
ghost use Rattle.tac_lower.specs.Nodes.{AssignNode, ConditionalNode, VarNode};
ghost use Rattle.c_tree.specs.Counts.{parts};
ghost use Rattle.tac_lower.specs.Copied.{copies_in};
ghost use Rattle.tac_lower.specs.Tables.{record_size};
ghost use Rattle.tac_ir.specs.WellFormed.{units_fit};
ghost use Rattle.cheri_c_sem.specs.Types.{unit_of};
ghost use Rattle.tac_emit.specs.Spent.{Spent};
ghost use Rattle.tac_lower.specs.Spent.{Spends, SpendsValue, SpendsPlace, SpendsPointer, SpendsCopy, extra};
ghost use Rattle.tac_lower.specs.Scenes.{Ready, Housed, Scene, Lowered, frame_of};
ghost use Rattle.cheri_c_sem.specs.Order.{Ordered};
ghost use Rattle.c_tree.specs.declared.typed.ExprKind.TheVariants as exprs;
ghost use Rattle.tac_lower.specs.declared.writes.Written.{Written};
ghost use Rattle.tac_lower.specs.Trees.{setting, target_as, IsNode, IsAddress, HasScalar, IsPlain, StandsAt};
ghost use Rattle.tac_lower.specs.Trees.{ShowsValue, ShowsPointer, ShowsPlace, ShowsStruct, ShowsCopy, ShowsBase};
ghost use Rattle.tac_lower.specs.Trees.{Reached, frame_in};
ghost use Rattle.c_tree.specs.Types.{Ty};
ghost use Rattle.c_tree.specs.Views.{IsOrdered};
ghost use Rattle.lower_runs.specs.Expressions.{Within};

use crate::conditions::{Jump, condition};
use crate::context::Context;
use crate::expressions::{effect, in_place, operand, value};
use crate::types::{POINTER, TypeFacts};
use crate::writes::Written;
use c_tree::ExprKind;
use ck_base::{NoMemory, Pos};
use tac_emit::{Copied, Emitter};
use tac_ir::Amount;
use tac_objects::narrow_to_member;

/// Where a struct or union is copied to.
#[derive(Clone, Copy)]
pub struct Destination {
    pub to: Target,
    pub pos: Pos,
    pub bytes: u64,
    pub unit: u8,
}

impl Destination {
    /// That of a value of a type, which has no more bytes than the type.
    fn limited(self, facts: TypeFacts) -> Destination
        requires units { units_fit (record_size facts) (unit_of facts.align) ≡ true }
        ensures same { self.bytes ≤ record_size facts → result ≡ self }
        ensures fits { (e : Emitter) → DestinationFits e self → DestinationFits e result }
        ensures bytes { parts result.bytes ≤ parts self.bytes }
        ensures value { parts result.bytes ≤ parts (record_size facts) }
    {
        let size = facts.record_size();
        if self.bytes <= size {
            return self;
        }
        Destination {
            to: self.to,
            pos: self.pos,
            bytes: size,
            unit: facts.unit(),
        }
    }
}

#[derive(Clone, Copy)]
pub enum Target {
    /// The pointer is in a temp.
    At(u32),
    /// At an offset in an object, the pointer to which is in a temp.
    Within(u32, u64),
}

impl Target {
    /// The temp with the pointer.
    pub fn pointer(self, out: &mut Emitter) -> Result<u32, NoMemory>
        requires target { TargetFits out.old self }
        requires room { HasRoom out.old 1 }
        ensures has { IfOk result (λ t. HasKind out.new t (kinds.Cap false)) }
        ensures grown { IfOk result (λ _. Grown out.old out.new) }
        ensures adds { IfOk result (λ _. Adds out.old out.new 1 0) }
        ensures spent { IfOk result (λ _. Spent out.old out.new 1 15) }
        ensures is { IfOk result (λ t. Reached (target_as self) t out.old out.new) }
    {
        match self {
            Target::At(t) => Ok(t),
            Target::Within(base, offset) => within(out, base, offset),
        }
    }
}

/// The pointer at an offset in an object.
pub fn within(out: &mut Emitter, base: u32, offset: u64) -> Result<u32, NoMemory>
    requires base { HasKind out.old base (kinds.Cap false) }
    requires room { HasRoom out.old 1 }
    ensures has { IfOk result (λ t. HasKind out.new t (kinds.Cap false)) }
    ensures grown { IfOk result (λ _. Grown out.old out.new) }
    ensures adds { IfOk result (λ _. Adds out.old out.new 1 0) }
    ensures spent { IfOk result (λ _. Spent out.old out.new 1 15) }
    ensures is { IfOk result (λ t. Reached (Within base offset) t out.old out.new) }
{
    if offset == 0 {
        return Ok(base);
    }
    let t = out.temp(POINTER)?;
    out.offset(t, base, Amount::Number(offset))?;
    Ok(t)
}

/// The pointer to a variable.
fn variable_pointer(cx: Context, x: u32, to: u32, out: &mut Emitter) -> Result<(), NoMemory>
    requires scene { Scene cx.p.now cx.d.now cx.types.now cx.homes.now out.old }
    requires to { HasKind out.old to (kinds.Cap false) }
    ensures lowered { IfOk result (λ _. Lowered cx.entry.p.now cx.entry.d.now cx.entry.types.now cx.entry.homes.now
        out.old out.new (0)) }
    ensures spent { IfOk result (λ _. Spent out.old out.new 0 6) }
    ensures is { IfOk result (λ _. (k : ℕ) → IsNode cx.entry.p.now k (exprs.Var x) →
        VarNode (frame_of cx.entry.p.now cx.entry.d.now) k x → ShowsPlace (setting cx.entry) k to out.old out.new) }
{
    match cx.pointer_to_variable(x) {
        Some(t) => out.transfer(to, t),
        None => out.constant(to, POINTER, 0),
    }
}

/// The temp that has the pointer to place `k`, where one has it that is not written.
#[tactic(auto, using(crate::proofs::Below::load))]
fn base_in_place(cx: Context, k: u32) -> Option<u32>
    requires ordered { Ordered cx.p.now }
    requires ready { Ready cx.p.now cx.types.now }
    requires typed { IsTyped (frame_of cx.p.now cx.d.now) k }
    ensures has { (e : Emitter) → Housed cx.entry.p.now cx.entry.d.now cx.entry.homes.now e
        → IfSome result (λ t. HasKind e t (kinds.Cap false)) }
    ensures is { IfSome result (λ t. ShowsBase (setting cx.entry) k t) }
{
    let Some(e) = cx.node(k) else {
        return None;
    };
    match e.kind {
        ExprKind::Deref(a) => in_place(cx, a, Written::Nothing),
        ExprKind::Var(x) => cx.pointer_to_variable(x),
        ExprKind::Load(a) => base_in_place(cx, a),
        _ => None,
    }
}

/// The pointer to place `k`, in a temp that may be a variable's, if `later` does not write it.
#[cycle(expressions)]
pub fn pointer(cx: Context, k: u32, later: Written, out: &mut Emitter) -> Result<u32, NoMemory>
    requires ordered { Ordered cx.p.now }
    requires scene { Scene cx.p.now cx.d.now cx.types.now cx.homes.now out.old }
    requires typed { IsTyped (frame_of cx.p.now cx.d.now) k }
    requires room { HasRoom out.old (4 * weight_in cx.p.now k) }
    ensures has { IfOk result (λ t. HasKind out.new t (kinds.Cap false)) }
    ensures lowered { IfOk result (λ _. Lowered cx.entry.p.now cx.entry.d.now cx.entry.types.now cx.entry.homes.now
        out.old out.new (4 * weight_in cx.entry.p.now k)) }
    ensures spends { IfOk result (λ _. SpendsPointer cx.entry.fixed (weight_in cx.entry.p.now k)
        (copies_in cx.entry.p.now k)
        out.old out.new) }
    ensures is { IfOk result (λ t. ShowsPointer (setting cx.entry) later k t out.old out.new) }
{
    let Some(e) = cx.node(k) else {
        return fresh_place(cx, k, out);
    };
    match e.kind {
        ExprKind::Deref(a) => operand(cx, a, later, out),
        #[tactic(auto, using(crate::proofs::Below::load))]
        ExprKind::Load(a) => pointer(cx, a, later, out),
        ExprKind::Var(x) => match cx.pointer_to_variable(x) {
            Some(t) => Ok(t),
            None => fresh_place(cx, k, out),
        },
        _ => fresh_place(cx, k, out),
    }
}

/// The pointer to place `k`, in a new temp.
#[cycle(expressions)]
fn fresh_place(cx: Context, k: u32, out: &mut Emitter) -> Result<u32, NoMemory>
    requires ordered { Ordered cx.p.now }
    requires scene { Scene cx.p.now cx.d.now cx.types.now cx.homes.now out.old }
    requires typed { IsTyped (frame_of cx.p.now cx.d.now) k }
    requires room { HasRoom out.old (4 * weight_in cx.p.now k) }
    ensures has { IfOk result (λ t. HasKind out.new t (kinds.Cap false)) }
    ensures lowered { IfOk result (λ _. Lowered cx.entry.p.now cx.entry.d.now cx.entry.types.now cx.entry.homes.now
        out.old out.new (4 * weight_in cx.entry.p.now k)) }
    ensures spends { IfOk result (λ _. SpendsPointer cx.entry.fixed (weight_in cx.entry.p.now k)
        (copies_in cx.entry.p.now k)
        out.old out.new) }
    ensures is { IfOk result (λ t. (later : Written) → ShowsPointer (setting cx.entry) later k t out.old out.new) }
{
    let t = out.temp(POINTER)?;
    place(cx, k, t, out)?;
    Ok(t)
}

/// The pointer to place `k`, in a temp that is written when all that the place reads of variables was read.
#[cycle(expressions)]
pub fn place(cx: Context, k: u32, to: u32, out: &mut Emitter) -> Result<(), NoMemory>
    requires ordered { Ordered cx.p.now }
    requires scene { Scene cx.p.now cx.d.now cx.types.now cx.homes.now out.old }
    requires typed { IsTyped (frame_of cx.p.now cx.d.now) k }
    requires to { HasKind out.old to (kinds.Cap false) }
    requires room { HasRoom out.old (4 * weight_in cx.p.now k - 1) }
    ensures lowered { IfOk result (λ _. Lowered cx.entry.p.now cx.entry.d.now cx.entry.types.now cx.entry.homes.now
        out.old out.new (4 * weight_in cx.entry.p.now k - 1)) }
    ensures spends { IfOk result (λ _. SpendsPlace cx.entry.fixed (weight_in cx.entry.p.now k)
        (copies_in cx.entry.p.now k)
        out.old out.new) }
    ensures is { IfOk result (λ _. ShowsPlace (setting cx.entry) k to out.old out.new) }
{
    let Some(e) = cx.node(k) else {
        return out.constant(to, POINTER, 0);
    };
    match e.kind {
        ExprKind::Var(x) => variable_pointer(cx, x, to, out),
        ExprKind::Global(g) => out.global(to, g, false),
        ExprKind::Literal(n) => out.global(to, n, true),
        ExprKind::Fun(f) => out.function(to, f),
        ExprKind::Deref(a) => value(cx, a, to, out),
        ExprKind::Member(a, m) => member(cx, k, a, m, to, out),
        #[tactic(auto, using(crate::proofs::Below::load))]
        ExprKind::Load(a) => place(cx, a, to, out),
        ExprKind::Comma(a, b) => place_behind(cx, k, a, b, to, out),
        ExprKind::Conditional(c, a, b) => place_choice(cx, k, c, a, b, to, out),
        #[tactic(auto, using(crate::proofs::Below::assign_left, crate::proofs::Below::assign_right))]
        ExprKind::Assign(a, b) => {
            let t = struct_assignment(cx, k, a, b, out)?;
            out.transfer(to, t)
        }
        _ => out.constant(to, POINTER, 0),
    }
}

/// The pointer to place `b` behind what `a` does.
#[cycle(expressions)]
fn place_behind(
    cx: Context,
    k: u32,
    a: u32,
    b: u32,
    to: u32,
    out: &mut Emitter,
) -> Result<(), NoMemory>
    requires ordered { Ordered cx.p.now }
    requires a_before { a < k }
    requires b_before { b < k }
    requires scene { Scene cx.p.now cx.d.now cx.types.now cx.homes.now out.old }
    requires node { HasTwo (frame_of cx.p.now cx.d.now) k a b }
    requires to { HasKind out.old to (kinds.Cap false) }
    requires room { HasRoom out.old (4 * weight_in cx.p.now k - 1) }
    ensures lowered { IfOk result (λ _. Lowered cx.entry.p.now cx.entry.d.now cx.entry.types.now cx.entry.homes.now
        out.old out.new (4 * weight_in cx.entry.p.now k - 1)) }
    ensures spends { IfOk result (λ _. SpendsPlace cx.entry.fixed (weight_in cx.entry.p.now k)
        (copies_in cx.entry.p.now k)
        out.old out.new) }
    ensures is { IfOk result (λ _. IsNode cx.entry.p.now k (exprs.Comma a b) →
        ShowsPlace (setting cx.entry) k to out.old out.new) }
{
    effect(cx, a, out)?;
    place(cx, b, to, out)
}

/// The pointer to one of two places, by the truth of `c`.
#[cycle(expressions)]
fn place_choice(
    cx: Context,
    k: u32,
    c: u32,
    a: u32,
    b: u32,
    to: u32,
    out: &mut Emitter,
) -> Result<(), NoMemory>
    requires ordered { Ordered cx.p.now }
    requires c_before { c < k }
    requires a_before { a < k }
    requires b_before { b < k }
    requires scene { Scene cx.p.now cx.d.now cx.types.now cx.homes.now out.old }
    requires node { HasThree (frame_of cx.p.now cx.d.now) k c a b }
    requires to { HasKind out.old to (kinds.Cap false) }
    requires room { HasRoom out.old (4 * weight_in cx.p.now k - 1) }
    ensures lowered { IfOk result (λ _. Lowered cx.entry.p.now cx.entry.d.now cx.entry.types.now cx.entry.homes.now
        out.old out.new (4 * weight_in cx.entry.p.now k - 1)) }
    ensures spends { IfOk result (λ _. SpendsPlace cx.entry.fixed (weight_in cx.entry.p.now k)
        (copies_in cx.entry.p.now k)
        out.old out.new) }
    ensures is { IfOk result (λ _. HasScalar cx.entry.p.now c →
        IsNode cx.entry.p.now k (exprs.Conditional c a b) → ShowsPlace (setting cx.entry) k to out.old out.new) }
{
    let fork = out.fork();
    let jump = Jump {
        when: false,
        label: fork.other,
    };
    condition(cx, c, jump, out)?;
    place(cx, a, to, out)?;
    out.turn_fork(fork)?;
    place(cx, b, to, out)?;
    out.join_fork(fork)
}

/// The pointer to a member of place `a`, expression `k`.
#[cycle(expressions)]
fn member(cx: Context, k: u32, a: u32, m: u32, to: u32, out: &mut Emitter) -> Result<(), NoMemory>
    requires ordered { Ordered cx.p.now }
    requires a_before { a < k }
    requires scene { Scene cx.p.now cx.d.now cx.types.now cx.homes.now out.old }
    requires node { HasOne (frame_of cx.p.now cx.d.now) k a }
    requires to { HasKind out.old to (kinds.Cap false) }
    requires room { HasRoom out.old (4 * weight_in cx.p.now k - 1) }
    ensures lowered { IfOk result (λ _. Lowered cx.entry.p.now cx.entry.d.now cx.entry.types.now cx.entry.homes.now
        out.old out.new (4 * weight_in cx.entry.p.now k - 1)) }
    ensures spends { IfOk result (λ _. SpendsPlace cx.entry.fixed (weight_in cx.entry.p.now k)
        (copies_in cx.entry.p.now k)
        out.old out.new) }
    ensures is { IfOk result (λ _. IsNode cx.entry.p.now k (exprs.Member a m) →
        ShowsPlace (setting cx.entry) k to out.old out.new) }
{
    let offset = Amount::Number(cx.member_offset(a, m));
    match base_in_place(cx, a) {
        Some(base) => out.offset(to, base, offset),
        None => {
            place(cx, a, to, out)?;
            out.offset(to, to, offset)
        }
    }
}

/// The pointer to place or function `a` as the value of `k`: the one to a member is narrowed to it.
#[cycle(expressions)]
pub fn address(cx: Context, k: u32, a: u32, to: u32, out: &mut Emitter) -> Result<(), NoMemory>
    requires ordered { Ordered cx.p.now }
    requires a_before { a < k }
    requires scene { Scene cx.p.now cx.d.now cx.types.now cx.homes.now out.old }
    requires node { AddressNode (frame_of cx.p.now cx.d.now) k a }
    requires to { HasKind out.old to (kind_in cx.p.now k) }
    requires room { HasRoom out.old (4 * weight_in cx.p.now k - 1) }
    ensures lowered { IfOk result (λ _. Lowered cx.entry.p.now cx.entry.d.now cx.entry.types.now cx.entry.homes.now
        out.old out.new (4 * weight_in cx.entry.p.now k - 1)) }
    ensures spends { IfOk result (λ _. SpendsValue cx.entry.fixed (weight_in cx.entry.p.now k)
        (copies_in cx.entry.p.now k)
        (extra cx.entry.fixed (Some to))
        out.old out.new) }
    ensures is { IfOk result (λ _. IsAddress cx.entry.p.now k a → ShowsValue (setting cx.entry) k to out.old out.new) }
{
    place(cx, a, to, out)?;
    match cx.member_size(a) {
        None => Ok(()),
        Some(size) => narrow_to_member(out, to, size),
    }
}

/// The copy of struct or union value `b` to place `a`, of assignment `k`: the temp with the pointer to the place.
#[cycle(expressions)]
pub fn struct_assignment(
    cx: Context,
    k: u32,
    a: u32,
    b: u32,
    out: &mut Emitter,
) -> Result<u32, NoMemory>
    requires ordered { Ordered cx.p.now }
    requires a_before { a < k }
    requires b_before { b < k }
    requires scene { Scene cx.p.now cx.d.now cx.types.now cx.homes.now out.old }
    requires node { AssignNode (frame_of cx.p.now cx.d.now) k a b }
    requires room { HasRoom out.old (4 * weight_in cx.p.now k - 1) }
    ensures has { IfOk result (λ t. HasKind out.new t (kinds.Cap false)) }
    ensures lowered { IfOk result (λ _. Lowered cx.entry.p.now cx.entry.d.now cx.entry.types.now cx.entry.homes.now
        out.old out.new (4 * weight_in cx.entry.p.now k - 1)) }
    ensures spends { IfOk result (λ _. Spends cx.entry.fixed out.old out.new (2 * weight_in cx.entry.p.now k - 2)
        (32 * weight_in cx.entry.p.now k - 32) (copies_in cx.entry.p.now k)) }
    ensures is { IfOk result (λ t. IsNode cx.entry.p.now k (exprs.Assign a b) →
        ShowsStruct (setting cx.entry) k t out.old out.new) }
{
    let facts = cx.facts(k);
    let bytes = facts.record_size();
    let t = pointer(cx, a, cx.written(b), out)?;
    let destination = Destination {
        to: Target::At(t),
        pos: place_pos(cx, a),
        bytes,
        unit: facts.unit(),
    };
    struct_copy(cx, b, destination, out)?;
    Ok(t)
}

/// The copy of struct or union value `k`: of the chosen one, where it is a choice.
#[cycle(expressions)]
pub fn struct_copy(
    cx: Context,
    k: u32,
    destination: Destination,
    out: &mut Emitter,
) -> Result<(), NoMemory>
    requires ordered { Ordered cx.p.now }
    requires scene { Scene cx.p.now cx.d.now cx.types.now cx.homes.now out.old }
    requires typed { IsTyped (frame_of cx.p.now cx.d.now) k }
    requires destination { DestinationFits out.old destination }
    requires room { HasRoom out.old (4 * weight_in cx.p.now k + 1) }
    ensures lowered { IfOk result (λ _. Lowered cx.entry.p.now cx.entry.d.now cx.entry.types.now cx.entry.homes.now
        out.old out.new (4 * weight_in cx.entry.p.now k + 1)) }
    ensures spends { IfOk result (λ _. SpendsCopy cx.entry.fixed (weight_in cx.entry.p.now k)
        (parts destination.bytes + copies_in cx.entry.p.now k) out.old out.new) }
    ensures is { IfOk result (λ _. ShowsCopy (setting cx.entry) (target_as destination.to) destination.pos
        destination.bytes destination.unit k out.old out.new) }
{
    let Some(e) = cx.node(k) else {
        return plain_copy(cx, k, destination, out);
    };
    match e.kind {
        ExprKind::Conditional(c, a, b) => chosen_copy(cx, k, c, a, b, destination, out),
        ExprKind::Comma(a, b) => {
            effect(cx, a, out)?;
            struct_copy(cx, b, destination, out)
        }
        #[tactic(auto, using(crate::proofs::Below::load))]
        ExprKind::Load(a) => struct_copy(cx, a, destination, out),
        _ => plain_copy(cx, k, destination, out),
    }
}

/// The copy of one of two struct or union values, by the truth of `c`.
#[cycle(expressions)]
fn chosen_copy(
    cx: Context,
    k: u32,
    c: u32,
    a: u32,
    b: u32,
    destination: Destination,
    out: &mut Emitter,
) -> Result<(), NoMemory>
    requires ordered { Ordered cx.p.now }
    requires c_before { c < k }
    requires a_before { a < k }
    requires b_before { b < k }
    requires scene { Scene cx.p.now cx.d.now cx.types.now cx.homes.now out.old }
    requires node { ConditionalNode (frame_of cx.p.now cx.d.now) k c a b }
    requires destination { DestinationFits out.old destination }
    requires room { HasRoom out.old (4 * weight_in cx.p.now k + 1) }
    ensures lowered { IfOk result (λ _. Lowered cx.entry.p.now cx.entry.d.now cx.entry.types.now cx.entry.homes.now
        out.old out.new (4 * weight_in cx.entry.p.now k + 1)) }
    ensures spends { IfOk result (λ _. SpendsCopy cx.entry.fixed (weight_in cx.entry.p.now k)
        (parts destination.bytes + copies_in cx.entry.p.now k) out.old out.new) }
    ensures is { IfOk result (λ _. IsNode cx.entry.p.now k (exprs.Conditional c a b) →
        ShowsCopy (setting cx.entry) (target_as destination.to) destination.pos destination.bytes destination.unit k
        out.old out.new) }
{
    let fork = out.fork();
    let jump = Jump {
        when: false,
        label: fork.other,
    };
    let chosen = destination.limited(cx.facts(k));
    condition(cx, c, jump, out)?;
    struct_copy(cx, a, chosen, out)?;
    out.turn_fork(fork)?;
    struct_copy(cx, b, chosen, out)?;
    out.join_fork(fork)
}

/// The copy of the struct or union at place `k`.
#[cycle(expressions)]
fn plain_copy(
    cx: Context,
    k: u32,
    destination: Destination,
    out: &mut Emitter,
) -> Result<(), NoMemory>
    requires ordered { Ordered cx.p.now }
    requires scene { Scene cx.p.now cx.d.now cx.types.now cx.homes.now out.old }
    requires typed { IsTyped (frame_of cx.p.now cx.d.now) k }
    requires destination { DestinationFits out.old destination }
    requires room { HasRoom out.old (4 * weight_in cx.p.now k + 1) }
    ensures lowered { IfOk result (λ _. Lowered cx.entry.p.now cx.entry.d.now cx.entry.types.now cx.entry.homes.now
        out.old out.new (4 * weight_in cx.entry.p.now k + 1)) }
    ensures spends { IfOk result (λ _. SpendsCopy cx.entry.fixed (weight_in cx.entry.p.now k)
        (parts destination.bytes + copies_in cx.entry.p.now k) out.old out.new) }
    ensures is { IfOk result (λ _. IsPlain (setting cx.entry) k →
        ShowsCopy (setting cx.entry) (target_as destination.to) destination.pos destination.bytes destination.unit k
        out.old out.new) }
{
    let from = pointer(cx, k, Written::Nothing, out)?;
    let to = destination.to.pointer(out)?;
    out.copy_units(Copied {
        from,
        to,
        bytes: destination.bytes,
        unit: destination.unit,
        from_pos: place_pos(cx, k),
        to_pos: destination.pos,
    })
}

/// The position of what designates place `k`.
#[tactic(auto, using(crate::proofs::Below::load, crate::proofs::Below::assign_left, crate::proofs::Below::comma_right))]
pub fn place_pos(cx: Context, k: u32) -> Pos
    requires ordered { Ordered cx.p.now }
    ensures { (t : Ty) → IsOrdered cx.entry.p.now → IsTyped (frame_in (setting cx.entry) t) k →
        StandsAt (setting cx.entry) k result }
{
    match cx.node(k) {
        None => Pos { line: 0, col: 0 },
        Some(e) => match e.kind {
            ExprKind::Load(a) => place_pos(cx, a),
            ExprKind::Assign(a, _) => place_pos(cx, a),
            ExprKind::Comma(_, b) => place_pos(cx, b),
            _ => e.pos,
        },
    }
}
