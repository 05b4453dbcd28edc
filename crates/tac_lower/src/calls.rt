//! Calls of functions, library functions and intrinsics.

ghost use Rattle.std.specs.Prelude.{◌≡◌, ℕ, ◌+◌, ◌-◌, ◌*◌, ◌<◌, map, IfOk, IfSome, Some, slice_get, unwrap_or, length};
ghost use Rattle.c_tree.specs.Libraries as libraries;
ghost use Rattle.c_tree.specs.Libraries.{services};
ghost use Rattle.c_tree.specs.Terms.{type_of};
ghost use Rattle.c_tree.specs.Types.{Ty, Tys, Function, Pointer};
ghost use Rattle.cheri_c_sem.specs.Order.{Ordered};
ghost use Rattle.tac_ir.specs.WellFormed.{signature_of_function};
ghost use Rattle.tac_emit.specs.declared.emitter.Emitter.{Emitter};
ghost use Rattle.tac_lower.specs.Copied.{copies_in, all_copies_in};
ghost use Rattle.tac_emit.specs.Emitted.{HasKind, HasRoom, Grown, Adds};
ghost use Rattle.tac_lower.specs.Known.{AreBelow};
ghost use Rattle.tac_lower.specs.Nodes.{scalar_in, kind_in, expression, weight_in, weights_in, IsTyped, AreTyped};
ghost use Rattle.tac_lower.specs.Nodes.{CallNode, LibraryNode};
ghost use Rattle.tac_emit.specs.Spent.{Spent};
ghost use Rattle.tac_lower.specs.Spent.{Spends, SpendsValue};
ghost use Rattle.c_tree.specs.declared.typed.ExprKind.TheVariants as exprs;
ghost use Rattle.tac_lower.specs.Trees.{setting, IsNode, ShowsArguments, ShowsCall};
ghost use Rattle.cheri_c_sem.specs.Types as meaning;
ghost use Rattle.lower_runs.specs.Expressions as relation;
ghost use Rattle.tac_emit.specs.Adding.{Emits};
ghost use Rattle.tac_lower.specs.Callees.{NamesFunction, intrinsic_as, service_as, HasLength};
ghost use Rattle.tac_lower.specs.Scenes.{Ready, Scene, Lowered, frame_of};
ghost use Rattle.tac_lower.specs.Services.{ServiceAsks, IntrinsicFits};
ghost use Rattle.tac_lower.specs.Signed.{HaveKinds, ResultFits, signature_as};

use crate::context::Context;
use crate::expressions::operand;
use crate::types::{INT, WORD};
use crate::writes::{Written, written_behind, written_by};
use c_tree::ExprKind;
use ck_base::NoMemory;
use tac_emit::Emitter;
use tac_ir::{Amount, CapWork, LibOp, TacKind};

/// The number of the function that expression `f` names, if it names one.
fn named_function(cx: Context, f: u32) -> Option<u32>
    requires ready { Ready cx.p.now cx.types.now }
    requires typed { IsTyped (frame_of cx.p.now cx.d.now) f }
    ensures signed { IfSome result (λ n. (r : Ty) (ps : Tys) →
        type_of (expression cx.entry.p.now f) ≡ Pointer (Function r ps)
        → signature_of_function cx.entry.p.now n ≡ Some (signature_as r ps)) }
    ensures names { IfSome result (λ n. NamesFunction cx.entry.p.now f n) }
{
    let e = cx.node(f)?;
    let ExprKind::Decay(a) = e.kind else {
        return None;
    };
    match cx.node(a)?.kind {
        ExprKind::Fun(n) => Some(n),
        _ => None,
    }
}

/// The values of arguments, whose numbers are below `k`, from the first on.
#[tactic(auto, using(crate::proofs::Below::below))]
#[cycle(expressions)]
fn arguments(cx: Context, k: u32, args: &[u32], out: &mut Emitter) -> Result<Vec<u32>, NoMemory>
    requires ordered { Ordered cx.p.now }
    requires before { AreBelow k args.now }
    requires scene { Scene cx.p.now cx.d.now cx.types.now cx.homes.now out.old }
    requires typed { AreTyped (frame_of cx.p.now cx.d.now) args.now }
    requires room { HasRoom out.old (4 * weights_in cx.p.now args.now) }
    ensures kinds { IfOk result (λ ts. HaveKinds out.new ts.items (map (kind_in cx.entry.p.now) args.now)) }
    ensures lowered { IfOk result (λ _. Lowered cx.entry.p.now cx.entry.d.now cx.entry.types.now cx.entry.homes.now
        out.old out.new (4 * weights_in cx.entry.p.now args.now)) }
    ensures spends { IfOk result (λ _. Spends cx.entry.fixed out.old out.new
        (2 * weights_in cx.entry.p.now args.now - length args.now)
        (32 * weights_in cx.entry.p.now args.now - 21 * length args.now) (all_copies_in cx.entry.p.now args.now)) }
    ensures is { IfOk result (λ ts. ShowsArguments (setting cx.entry) args.now ts.items out.old out.new) }
{
    let mut behind = written_behind(cx.alloc, cx.writes, args)?;
    let mut temps = Vec::new(cx.alloc);
    for a in args {
        let later = behind.pop().unwrap_or(Written::Any);
        let t = operand(cx, *a, later, out)?;
        temps.push(t)?;
    }
    Ok(temps)
}

/// Call `k` of `f`.
#[cycle(expressions)]
pub fn call(
    cx: Context,
    k: u32,
    f: u32,
    args: &[u32],
    to: Option<u32>,
    out: &mut Emitter,
) -> Result<(), NoMemory>
    requires ordered { Ordered cx.p.now }
    requires f_before { f < k }
    requires before { AreBelow k args.now }
    requires scene { Scene cx.p.now cx.d.now cx.types.now cx.homes.now out.old }
    requires node { CallNode (frame_of cx.p.now cx.d.now) k f args.now }
    requires to { ResultFits out.old to (scalar_in cx.p.now k) }
    requires room { HasRoom out.old (4 * weight_in cx.p.now k - 1) }
    ensures lowered { IfOk result (λ _. Lowered cx.entry.p.now cx.entry.d.now cx.entry.types.now cx.entry.homes.now
        out.old out.new (4 * weight_in cx.entry.p.now k - 1)) }
    ensures spends { IfOk result (λ _. SpendsValue cx.entry.fixed (weight_in cx.entry.p.now k)
        (copies_in cx.entry.p.now k) 0
        out.old out.new) }
    ensures is { IfOk result (λ _. IsNode cx.entry.p.now k (exprs.Call f args.now) →
        ShowsCall (setting cx.entry) k to out.old out.new) }
{
    match named_function(cx, f) {
        Some(n) => {
            let temps = arguments(cx, k, args, out)?;
            out.call(to, n, temps)
        }
        None => {
            let v = operand(cx, f, written_by(cx.writes, args), out)?;
            let temps = arguments(cx, k, args, out)?;
            let of = cx.facts(f).target.unwrap_or(0);
            out.call_value(to, v, of, temps, cx.pos(k))
        }
    }
}

/// Call `k` of a library function or intrinsic, by its number.
#[cycle(expressions)]
pub fn library(
    cx: Context,
    k: u32,
    number: u8,
    args: &[u32],
    to: Option<u32>,
    out: &mut Emitter,
) -> Result<(), NoMemory>
    requires ordered { Ordered cx.p.now }
    requires before { AreBelow k args.now }
    requires scene { Scene cx.p.now cx.d.now cx.types.now cx.homes.now out.old }
    requires node { LibraryNode (frame_of cx.p.now cx.d.now) k number args.now }
    requires to { ResultFits out.old to (scalar_in cx.p.now k) }
    requires room { HasRoom out.old (4 * weight_in cx.p.now k - 1) }
    ensures lowered { IfOk result (λ _. Lowered cx.entry.p.now cx.entry.d.now cx.entry.types.now cx.entry.homes.now
        out.old out.new (4 * weight_in cx.entry.p.now k - 1)) }
    ensures spends { IfOk result (λ _. SpendsValue cx.entry.fixed (weight_in cx.entry.p.now k)
        (copies_in cx.entry.p.now k) 0
        out.old out.new) }
    ensures is { IfOk result (λ _. IsNode cx.entry.p.now k (exprs.Library number args.now) →
        ShowsCall (setting cx.entry) k to out.old out.new) }
{
    let temps = arguments(cx, k, args, out)?;
    match service_of(number) {
        Service::Library(op) => out.service(op, to, temps),
        Service::Exit => out.service(LibOp::Exit, None, temps),
        Service::Intrinsic(i) => {
            let kind = first_kind(cx, args);
            let a = first_temp(temps.as_slice());
            let b = second_temp(temps.as_slice());
            intrinsic_value(out, i, kind, to, a, b)
        }
    }
}

/// The kind of the first of some arguments; where there is none, that of an `int`.
fn first_kind(cx: Context, args: &[u32]) -> TacKind
    requires ready { Ready cx.p.now cx.types.now }
    ensures first { (x : ℕ) → slice_get args.now 0 ≡ Some x → result ≡ kind_in cx.entry.p.now x }
    ensures is { result ≡ relation.first_kind (map (kind_in cx.entry.p.now) args.now) }
{
    match args.first() {
        None => INT,
        Some(x) => cx.kind(*x),
    }
}

/// The first of some temps.
fn first_temp(temps: &[u32]) -> u32
    ensures { result ≡ unwrap_or (slice_get temps.now 0) 0 }
{
    temps.first().copied().unwrap_or(0)
}

/// The second of some temps, if there is one.
fn second_temp(temps: &[u32]) -> Option<u32>
    ensures { result ≡ slice_get temps.now 1 }
{
    temps.get(1).copied()
}

/// What a number of a library function or intrinsic stands for.
#[derive(Clone, Copy)]
enum Service {
    Library(LibOp),
    /// It gives nothing.
    Exit,
    Intrinsic(Intrinsic),
}

#[derive(Clone, Copy)]
enum Intrinsic {
    /// The address.
    Address,
    /// Narrowing, exactly or with rounding.
    Bounds(bool),
    Work(CapWork),
}

/// The library functions, and then the intrinsics.
fn service_of(number: u8) -> Service
    ensures asks { (s : libraries.Service) → slice_get services number ≡ Some s → ServiceAsks result s.takes s.gives }
    ensures is { service_as result ≡ meaning.service_of number }
{
    match number {
        0 => Service::Library(LibOp::PutChar),
        1 => Service::Library(LibOp::GetChar),
        2 => Service::Library(LibOp::Malloc),
        4 => Service::Intrinsic(Intrinsic::Address),
        5 => Service::Intrinsic(Intrinsic::Work(CapWork::Base)),
        6 => Service::Intrinsic(Intrinsic::Work(CapWork::Offset)),
        7 => Service::Intrinsic(Intrinsic::Work(CapWork::Length)),
        8 => Service::Intrinsic(Intrinsic::Work(CapWork::Tag)),
        9 => Service::Intrinsic(Intrinsic::Work(CapWork::Perms)),
        10 => Service::Intrinsic(Intrinsic::Work(CapWork::SetAddress)),
        11 => Service::Intrinsic(Intrinsic::Work(CapWork::Clear)),
        12 => Service::Intrinsic(Intrinsic::Bounds(false)),
        13 => Service::Intrinsic(Intrinsic::Bounds(true)),
        14 => Service::Intrinsic(Intrinsic::Work(CapWork::AndPerms)),
        15 => Service::Intrinsic(Intrinsic::Work(CapWork::EqualExact)),
        16 => Service::Intrinsic(Intrinsic::Work(CapWork::Rounded)),
        17 => Service::Intrinsic(Intrinsic::Work(CapWork::Mask)),
        _ => Service::Exit,
    }
}

/// An intrinsic, where its value is asked for: none has an effect.
fn intrinsic_value(
    out: &mut Emitter,
    i: Intrinsic,
    kind: TacKind,
    to: Option<u32>,
    a: u32,
    b: Option<u32>,
) -> Result<(), NoMemory>
    requires fits { IfSome to (λ t. IntrinsicFits out.old i kind t a b) }
    ensures grown { IfOk result (λ _. Grown out.old out.new) }
    ensures adds { IfOk result (λ _. Adds out.old out.new 0 0) }
    ensures spent { IfOk result (λ _. Spent out.old out.new 0 15) }
    ensures emits { HasLength i b → IfOk result (λ _. Emits out.old out.new 0
        (relation.intrinsic (intrinsic_as i) to kind a b)) }
{
    let Some(to) = to else {
        return Ok(());
    };
    match i {
        Intrinsic::Address => out.convert(to, a, kind, WORD),
        Intrinsic::Bounds(exact) => out.narrow(to, a, Amount::Temp(b.unwrap_or(0)), exact),
        Intrinsic::Work(op) => out.work(op, to, a, b),
    }
}
