//! Statements.

ghost use Rattle.std.specs.Prelude.{◌+◌, ◌*◌, ◌<◌, false, [], ◌∷◌, length, IfOk};
ghost use Rattle.c_tree.specs.Terms.{type_of};
ghost use Rattle.c_tree.specs.WellTyped.{AreVars, FunctionFits, InitFits};
ghost use Rattle.cheri_c_sem.specs.Order.{Ordered};
ghost use Rattle.tac_ir.specs.declared.code.TacKind.TheVariants as kinds;
ghost use Rattle.tac_lower.specs.Copied.{copied_in, copies_in, part_copies, all_part_copies};
ghost use Rattle.tac_emit.specs.Emitted.{HasKind, IsOpen, Grown, Turned, Adds, HasRoom, Stands};
ghost use Rattle.tac_lower.specs.Known.{AreBelow};
ghost use Rattle.tac_lower.specs.Nodes.{expression, weight_in, IsTyped};
ghost use Rattle.tac_lower.specs.Parts.{heft_in, hefts_in, entered, entered_in, all_entered_in, or_none, ReturnPart};
ghost use Rattle.tac_lower.specs.Scenes.{Scene, Lowered, frame_of};
ghost use Rattle.tac_emit.specs.Spent.{Enters, Spent};
ghost use Rattle.tac_lower.specs.Spent.{Consumes, SpendsCopy, SpendsFlat, SpendsPart};
ghost use Rattle.tac_lower.specs.Zeroed.{zeroed, zeroed_in, all_zeroed_in};
ghost use Rattle.tac_lower.specs.Statements.{IsPart, AreParts, IsTypedIfAny, IsExit, AreExits, Begun, Behind};
ghost use Rattle.std.specs.Prelude.{ℕ, ◌≡◌, Some, None};
ghost use Rattle.c_tree.specs.declared.typed.StmtKind.TheVariants as stmts;
ghost use Rattle.tac_ir.specs.declared.code.TacInstr.TheVariants as instr;
ghost use Rattle.tac_emit.specs.Adding.{Emits, one};
ghost use Rattle.tac_lower.specs.Trees.{setting, HasScalar};
ghost use Rattle.tac_lower.specs.Stating.{routine, exits_as, IsStmt, ShowsStatement, ShowsStatements};
ghost use Rattle.tac_lower.specs.Stating.{ShowsTest, ShowsStep, ShowsBehind, ShowsLoop, ShowsJump, ShowsEntered};
ghost use Rattle.tac_lower.specs.Stating.{Points, ShowsBlock, ShowsInit};
ghost use Rattle.lower_runs.specs.Statements.{Exits as Ways, in_loop};

use crate::conditions::{Jump, condition};
use crate::context::{Context, Home};
use crate::expressions::{effect, operand, value};
use crate::places::{Destination, Target, struct_copy, within};
use crate::switches::compared_cases;
use crate::writes::Written;
use c_tree::{StmtKind, SwitchLabel};
use ck_base::{NoMemory, Pos};
use tac_emit::Emitter;
use tac_objects::enter_object;

/// Where `break` and `continue` lead, if there are such places.
#[derive(Clone, Copy)]
pub struct Exits {
    pub break_to: Option<u32>,
    pub continue_to: Option<u32>,
}

/// A variable's block is entered. That of a parameter is the function.
fn enter_variable(cx: Context, x: u32, out: &mut Emitter) -> Result<(), NoMemory>
    requires scene { Scene cx.p.now cx.d.now cx.types.now cx.homes.now out.old }
    requires there { x < length cx.d.now.vars }
    ensures lowered { IfOk result (λ _. Lowered cx.entry.p.now cx.entry.d.now cx.entry.types.now cx.entry.homes.now
        out.old out.new 0) }
    ensures spent { IfOk result (λ _. Enters out.old out.new 0 (19 * entered cx.entry.d.now (x ∷ [])) 0
        (zeroed cx.entry.d.now cx.entry.homes.now (x ∷ []))) }
    ensures is { IfOk result (λ _. ShowsEntered (routine cx.entry) (x ∷ []) out.old out.new) }
{
    if cx.is_parameter(x) {
        return Ok(());
    }
    match cx.home(x) {
        None => Ok(()),
        Some(Home::Temp(t, kind)) => out.constant(t, kind, 0),
        Some(Home::Object(n, t)) => enter_object(out, t, n),
    }
}

/// A block is entered: its variables are 0 or null, and its objects are zero bytes.
fn enter(cx: Context, vars: &[u32], out: &mut Emitter) -> Result<(), NoMemory>
    requires scene { Scene cx.p.now cx.d.now cx.types.now cx.homes.now out.old }
    requires there { AreVars (frame_of cx.p.now cx.d.now) vars.now }
    ensures lowered { IfOk result (λ _. Lowered cx.entry.p.now cx.entry.d.now cx.entry.types.now cx.entry.homes.now
        out.old out.new 0) }
    ensures spent { IfOk result (λ _. Enters out.old out.new 0 (19 * entered cx.entry.d.now vars.now) 0
        (zeroed cx.entry.d.now cx.entry.homes.now vars.now)) }
    ensures is { IfOk result (λ _. ShowsEntered (routine cx.entry) vars.now out.old out.new) }
{
    for x in vars {
        enter_variable(cx, *x, out)?;
    }
    Ok(())
}

/// The initialisation of a part of an object, the pointer to which is in a temp.
fn initialise_object(
    cx: Context,
    base: u32,
    offset: u64,
    a: u32,
    pos: Pos,
    out: &mut Emitter,
) -> Result<(), NoMemory>
    requires ordered { Ordered cx.p.now }
    requires scene { Scene cx.p.now cx.d.now cx.types.now cx.homes.now out.old }
    requires base { HasKind out.old base (kinds.Cap false) }
    requires typed { IsTyped (frame_of cx.p.now cx.d.now) a }
    requires room { HasRoom out.old (4 * weight_in cx.p.now a + 1) }
    ensures lowered { IfOk result (λ _. Lowered cx.entry.p.now cx.entry.d.now cx.entry.types.now cx.entry.homes.now
        out.old out.new (4 * weight_in cx.entry.p.now a + 1)) }
    ensures spends { IfOk result (λ _. SpendsCopy cx.entry.fixed (weight_in cx.entry.p.now a)
        (copied_in cx.entry.p.now a + copies_in cx.entry.p.now a) out.old out.new) }
    ensures is { IfOk result (λ _. (x n : ℕ) → Points (setting cx.entry) x n base →
        ShowsInit (routine cx.entry) x offset a pos out.old out.new) }
{
    let facts = cx.facts(a);
    if facts.record {
        let bytes = facts.record_size();
        let destination = Destination {
            to: Target::Within(base, offset),
            pos,
            bytes,
            unit: facts.unit(),
        };
        return struct_copy(cx, a, destination, out);
    }
    let v = operand(cx, a, Written::Nothing, out)?;
    let at = within(out, base, offset)?;
    out.store(at, v, cx.kind(a), pos)
}

/// The initialisation of a variable, or of a part of an object, by expression `a`.
fn initialise(
    cx: Context,
    x: u32,
    offset: u64,
    a: u32,
    pos: Pos,
    out: &mut Emitter,
) -> Result<(), NoMemory>
    requires ordered { Ordered cx.p.now }
    requires scene { Scene cx.p.now cx.d.now cx.types.now cx.homes.now out.old }
    requires typed { IsTyped (frame_of cx.p.now cx.d.now) a }
    requires lies { InitFits (frame_of cx.p.now cx.d.now) x offset (type_of (expression cx.p.now a)) }
    requires room { HasRoom out.old (4 * weight_in cx.p.now a + 1) }
    ensures lowered { IfOk result (λ _. Lowered cx.entry.p.now cx.entry.d.now cx.entry.types.now cx.entry.homes.now
        out.old out.new (4 * weight_in cx.entry.p.now a + 1)) }
    ensures spends { IfOk result (λ _. SpendsCopy cx.entry.fixed (weight_in cx.entry.p.now a)
        (copied_in cx.entry.p.now a + copies_in cx.entry.p.now a) out.old out.new) }
    ensures is { IfOk result (λ _. FunctionFits cx.entry.p.now cx.entry.d.now →
        ShowsInit (routine cx.entry) x offset a pos out.old out.new) }
{
    match cx.home(x) {
        None => effect(cx, a, out),
        Some(Home::Temp(t, _)) => value(cx, a, t, out),
        Some(Home::Object(_, base)) => initialise_object(cx, base, offset, a, pos, out),
    }
}

/// A jump to a place, if there is one.
fn jump_out(out: &mut Emitter, to: Option<u32>) -> Result<(), NoMemory>
    requires exit { IsExit out.old to }
    ensures grown { IfOk result (λ _. Grown out.old out.new) }
    ensures adds { IfOk result (λ _. Adds out.old out.new 0 0) }
    ensures spent { IfOk result (λ _. Spent out.old out.new 0 1) }
    ensures is { IfOk result (λ _. ShowsJump to out.old out.new) }
{
    match to {
        None => Ok(()),
        Some(label) => out.jump(label),
    }
}

/// What a function gives back. What has no value is only done.
fn leave(cx: Context, k: u32, a: Option<u32>, out: &mut Emitter) -> Result<(), NoMemory>
    requires ordered { Ordered cx.p.now }
    requires scene { Scene cx.p.now cx.d.now cx.types.now cx.homes.now out.old }
    requires fits { FunctionFits cx.p.now cx.d.now }
    requires part { ReturnPart (frame_of cx.p.now cx.d.now) k a }
    requires room { HasRoom out.old (4 * heft_in cx.p.now k) }
    ensures lowered { IfOk result (λ _. Lowered cx.entry.p.now cx.entry.d.now cx.entry.types.now cx.entry.homes.now
        out.old out.new (4 * heft_in cx.entry.p.now k)) }
    ensures spends { IfOk result (λ _. SpendsFlat cx.entry.fixed (heft_in cx.entry.p.now k)
        (part_copies cx.entry.p.now k)
        out.old out.new) }
    ensures is { IfOk result (λ _. (x : Ways) → IsStmt cx.entry.p.now k (stmts.Return a) →
        ShowsStatement (routine cx.entry) k x out.old out.new) }
{
    let Some(a) = a else {
        return out.leave(None);
    };
    match cx.scalar(a) {
        None => {
            effect(cx, a, out)?;
            out.leave(None)
        }
        Some(_) => {
            let v = operand(cx, a, Written::Nothing, out)?;
            out.leave(Some(v))
        }
    }
}

/// The labels of a loop: where it begins, where its step is, and where it ends.
#[derive(Clone, Copy)]
struct Circle {
    top: u32,
    next: u32,
    end: u32,
}

/// A loop begins.
fn begin_loop(out: &mut Emitter) -> Result<Circle, NoMemory>
    requires room { HasRoom out.old 3 }
    ensures begun { IfOk result (λ c. Begun out.old out.new c) }
{
    let top = out.label();
    out.stand(top)?;
    let fork = out.fork();
    Ok(Circle {
        top,
        next: fork.other,
        end: fork.end,
    })
}

/// It is left where a test, if there is one, is false.
fn test_loop(
    cx: Context,
    test: Option<u32>,
    circle: Circle,
    out: &mut Emitter,
) -> Result<(), NoMemory>
    requires ordered { Ordered cx.p.now }
    requires scene { Scene cx.p.now cx.d.now cx.types.now cx.homes.now out.old }
    requires typed { IsTypedIfAny (frame_of cx.p.now cx.d.now) test }
    requires end { IsOpen out.old circle.end }
    requires room { HasRoom out.old (4 * or_none (weight_in cx.p.now) test) }
    ensures lowered { IfOk result (λ _. Lowered cx.entry.p.now cx.entry.d.now cx.entry.types.now cx.entry.homes.now
        out.old out.new (4 * or_none (weight_in cx.entry.p.now) test)) }
    ensures spends { IfOk result (λ _. SpendsFlat cx.entry.fixed
        (or_none (weight_in cx.entry.p.now) test) (or_none (copies_in cx.entry.p.now) test)
        out.old out.new) }
    ensures is { IfOk result (λ _. ShowsTest (routine cx.entry) test circle.end out.old out.new) }
{
    match test {
        None => Ok(()),
        Some(c) => {
            let jump = Jump {
                when: false,
                label: circle.end,
            };
            condition(cx, c, jump, out)
        }
    }
}

/// Its step, if there is one.
fn step_loop(cx: Context, step: Option<u32>, out: &mut Emitter) -> Result<(), NoMemory>
    requires ordered { Ordered cx.p.now }
    requires scene { Scene cx.p.now cx.d.now cx.types.now cx.homes.now out.old }
    requires typed { IsTypedIfAny (frame_of cx.p.now cx.d.now) step }
    requires room { HasRoom out.old (4 * or_none (weight_in cx.p.now) step) }
    ensures lowered { IfOk result (λ _. Lowered cx.entry.p.now cx.entry.d.now cx.entry.types.now cx.entry.homes.now
        out.old out.new (4 * or_none (weight_in cx.entry.p.now) step)) }
    ensures spends { IfOk result (λ _. SpendsFlat cx.entry.fixed
        (or_none (weight_in cx.entry.p.now) step) (or_none (copies_in cx.entry.p.now) step)
        out.old out.new) }
    ensures is { IfOk result (λ _. ShowsStep (routine cx.entry) step out.old out.new) }
{
    match step {
        None => Ok(()),
        Some(e) => effect(cx, e, out),
    }
}

/// It begins again, and ends here.
fn end_loop(out: &mut Emitter, circle: Circle) -> Result<(), NoMemory>
    requires top { Stands out.old circle.top }
    ensures turned { IfOk result (λ _. Turned out.old out.new circle.end) }
    ensures adds { IfOk result (λ _. Adds out.old out.new 0 0) }
    ensures spent { IfOk result (λ _. Spent out.old out.new 0 1) }
    ensures emits { IfOk result (λ _. Emits out.old out.new 0
        (λ r. instr.Turn ∷ instr.Jump circle.top ∷ instr.Label circle.end ∷ r)) }
{
    out.turn_back(circle.top)?;
    out.stand(circle.end)
}

/// The body of a loop, and the label of what follows it in the loop.
#[cycle(statements)]
fn loop_body(cx: Context, body: u32, circle: Circle, out: &mut Emitter) -> Result<(), NoMemory>
    requires ordered { Ordered cx.p.now }
    requires scene { Scene cx.p.now cx.d.now cx.types.now cx.homes.now out.old }
    requires fits { FunctionFits cx.p.now cx.d.now }
    requires part { IsPart (frame_of cx.p.now cx.d.now) body }
    requires next { IsOpen out.old circle.next }
    requires end { IsOpen out.old circle.end }
    requires room { HasRoom out.old (4 * heft_in cx.p.now body) }
    ensures behind { IfOk result (λ _. Behind cx.entry.p.now cx.entry.d.now cx.entry.types.now cx.entry.homes.now
        out.old out.new circle.next (4 * heft_in cx.entry.p.now body)) }
    ensures spends { IfOk result (λ _. SpendsPart cx.entry.fixed (heft_in cx.entry.p.now body)
        (part_copies cx.entry.p.now body) (entered_in cx.entry.p.now cx.entry.d.now body)
        (zeroed_in cx.entry.p.now cx.entry.d.now cx.entry.homes.now body) out.old out.new) }
    ensures is { IfOk result (λ _. ShowsBehind (routine cx.entry) body
        (in_loop circle.end circle.next) circle.next out.old out.new) }
{
    let exits = Exits {
        break_to: Some(circle.end),
        continue_to: Some(circle.next),
    };
    statement(cx, body, exits, out)?;
    out.stand(circle.next)
}

/// A `while` or `for` loop (C11 6.8.5.1, 6.8.5.3).
#[cycle(statements)]
fn tested_loop(
    cx: Context,
    test: Option<u32>,
    step: Option<u32>,
    body: u32,
    out: &mut Emitter,
) -> Result<(), NoMemory>
    requires ordered { Ordered cx.p.now }
    requires scene { Scene cx.p.now cx.d.now cx.types.now cx.homes.now out.old }
    requires fits { FunctionFits cx.p.now cx.d.now }
    requires test { IsTypedIfAny (frame_of cx.p.now cx.d.now) test }
    requires step { IsTypedIfAny (frame_of cx.p.now cx.d.now) step }
    requires part { IsPart (frame_of cx.p.now cx.d.now) body }
    requires room { HasRoom out.old (4 * (or_none (weight_in cx.p.now) test + or_none (weight_in cx.p.now) step
        + heft_in cx.p.now body) + 3) }
    ensures lowered { IfOk result (λ _. Lowered cx.entry.p.now cx.entry.d.now cx.entry.types.now cx.entry.homes.now
        out.old out.new (4 * (or_none (weight_in cx.entry.p.now) test + or_none (weight_in cx.entry.p.now) step
        + heft_in cx.entry.p.now body) + 3)) }
    ensures spends { IfOk result (λ _. Consumes cx.entry.fixed out.old out.new
        (2 * (or_none (weight_in cx.entry.p.now) test + or_none (weight_in cx.entry.p.now) step
        + heft_in cx.entry.p.now body))
        (32 * (or_none (weight_in cx.entry.p.now) test + or_none (weight_in cx.entry.p.now) step
        + heft_in cx.entry.p.now body)
        + 19 * entered_in cx.entry.p.now cx.entry.d.now body + 1)
        (or_none (copies_in cx.entry.p.now) test + or_none (copies_in cx.entry.p.now) step
        + part_copies cx.entry.p.now body) (zeroed_in cx.entry.p.now cx.entry.d.now cx.entry.homes.now body)) }
    ensures is { IfOk result (λ _. ShowsLoop (routine cx.entry) test step body out.old out.new) }
{
    let circle = begin_loop(out)?;
    test_loop(cx, test, circle, out)?;
    loop_body(cx, body, circle, out)?;
    step_loop(cx, step, out)?;
    end_loop(out, circle)
}

/// A `do` loop (C11 6.8.5.2).
#[cycle(statements)]
fn repeated_loop(cx: Context, body: u32, test: u32, out: &mut Emitter) -> Result<(), NoMemory>
    requires ordered { Ordered cx.p.now }
    requires scene { Scene cx.p.now cx.d.now cx.types.now cx.homes.now out.old }
    requires fits { FunctionFits cx.p.now cx.d.now }
    requires typed { IsTyped (frame_of cx.p.now cx.d.now) test }
    requires part { IsPart (frame_of cx.p.now cx.d.now) body }
    requires room { HasRoom out.old (4 * (weight_in cx.p.now test + heft_in cx.p.now body) + 3) }
    ensures lowered { IfOk result (λ _. Lowered cx.entry.p.now cx.entry.d.now cx.entry.types.now cx.entry.homes.now
        out.old out.new (4 * (weight_in cx.entry.p.now test + heft_in cx.entry.p.now body) + 3)) }
    ensures spends { IfOk result (λ _. Consumes cx.entry.fixed out.old out.new
        (2 * (weight_in cx.entry.p.now test + heft_in cx.entry.p.now body))
        (32 * (weight_in cx.entry.p.now test + heft_in cx.entry.p.now body)
        + 19 * entered_in cx.entry.p.now cx.entry.d.now body + 1)
        (copies_in cx.entry.p.now test + part_copies cx.entry.p.now body)
        (zeroed_in cx.entry.p.now cx.entry.d.now cx.entry.homes.now body)) }
    ensures is { IfOk result (λ _. (k : ℕ) (x : Ways) → IsStmt cx.entry.p.now k (stmts.Do body test) →
        HasScalar cx.entry.p.now test →
        ShowsStatement (routine cx.entry) k x out.old out.new) }
{
    let circle = begin_loop(out)?;
    loop_body(cx, body, circle, out)?;
    let jump = Jump {
        when: false,
        label: circle.end,
    };
    condition(cx, test, jump, out)?;
    end_loop(out, circle)
}

/// An `if` with two branches, in statement `k`.
#[cycle(statements)]
fn choice(
    cx: Context,
    k: u32,
    c: u32,
    a: u32,
    b: u32,
    exits: Exits,
    out: &mut Emitter,
) -> Result<(), NoMemory>
    requires ordered { Ordered cx.p.now }
    requires a_before { a < k }
    requires b_before { b < k }
    requires scene { Scene cx.p.now cx.d.now cx.types.now cx.homes.now out.old }
    requires fits { FunctionFits cx.p.now cx.d.now }
    requires test { IsTyped (frame_of cx.p.now cx.d.now) c }
    requires first { IsPart (frame_of cx.p.now cx.d.now) a }
    requires second { IsPart (frame_of cx.p.now cx.d.now) b }
    requires exits { AreExits out.old exits }
    requires room { HasRoom out.old (4 * (weight_in cx.p.now c + heft_in cx.p.now a + heft_in cx.p.now b) + 2) }
    ensures lowered { IfOk result (λ _. Lowered cx.entry.p.now cx.entry.d.now cx.entry.types.now cx.entry.homes.now
        out.old out.new (4 * (weight_in cx.entry.p.now c + heft_in cx.entry.p.now a + heft_in cx.entry.p.now b) + 2)) }
    ensures spends { IfOk result (λ _. Consumes cx.entry.fixed out.old out.new
        (2 * (weight_in cx.entry.p.now c + heft_in cx.entry.p.now a + heft_in cx.entry.p.now b))
        (32 * (weight_in cx.entry.p.now c + heft_in cx.entry.p.now a + heft_in cx.entry.p.now b)
        + 19 * (entered_in cx.entry.p.now cx.entry.d.now a + entered_in cx.entry.p.now cx.entry.d.now b) + 1)
        (copies_in cx.entry.p.now c + part_copies cx.entry.p.now a + part_copies cx.entry.p.now b)
        (λ v. zeroed_in cx.entry.p.now cx.entry.d.now cx.entry.homes.now a v
        + zeroed_in cx.entry.p.now cx.entry.d.now cx.entry.homes.now b v)) }
    ensures is { IfOk result (λ _. IsStmt cx.entry.p.now k (stmts.If c a (Some b)) → HasScalar cx.entry.p.now c →
        ShowsStatement (routine cx.entry) k (exits_as exits) out.old out.new) }
{
    let fork = out.fork();
    let jump = Jump {
        when: false,
        label: fork.other,
    };
    condition(cx, c, jump, out)?;
    statement(cx, a, exits, out)?;
    out.turn_fork(fork)?;
    statement(cx, b, exits, out)?;
    out.join_fork(fork)
}

/// An `if` with one branch.
#[cycle(statements)]
fn guarded(cx: Context, c: u32, a: u32, exits: Exits, out: &mut Emitter) -> Result<(), NoMemory>
    requires ordered { Ordered cx.p.now }
    requires scene { Scene cx.p.now cx.d.now cx.types.now cx.homes.now out.old }
    requires fits { FunctionFits cx.p.now cx.d.now }
    requires test { IsTyped (frame_of cx.p.now cx.d.now) c }
    requires first { IsPart (frame_of cx.p.now cx.d.now) a }
    requires exits { AreExits out.old exits }
    requires room { HasRoom out.old (4 * (weight_in cx.p.now c + heft_in cx.p.now a) + 1) }
    ensures lowered { IfOk result (λ _. Lowered cx.entry.p.now cx.entry.d.now cx.entry.types.now cx.entry.homes.now
        out.old out.new (4 * (weight_in cx.entry.p.now c + heft_in cx.entry.p.now a) + 1)) }
    ensures spends { IfOk result (λ _. Consumes cx.entry.fixed out.old out.new
        (2 * (weight_in cx.entry.p.now c + heft_in cx.entry.p.now a))
        (32 * (weight_in cx.entry.p.now c + heft_in cx.entry.p.now a)
        + 19 * entered_in cx.entry.p.now cx.entry.d.now a)
        (copies_in cx.entry.p.now c + part_copies cx.entry.p.now a)
        (zeroed_in cx.entry.p.now cx.entry.d.now cx.entry.homes.now a)) }
    ensures is { IfOk result (λ _. (k : ℕ) → IsStmt cx.entry.p.now k (stmts.If c a None) → HasScalar cx.entry.p.now c →
        ShowsStatement (routine cx.entry) k (exits_as exits) out.old out.new) }
{
    let label = out.label();
    condition(cx, c, Jump { when: false, label }, out)?;
    statement(cx, a, exits, out)?;
    out.stand(label)
}

/// Statements whose numbers are below `k`.
#[tactic(auto, using(crate::proofs::Below::below))]
#[cycle(statements)]
fn statements(
    cx: Context,
    k: u32,
    body: &[u32],
    exits: Exits,
    out: &mut Emitter,
) -> Result<(), NoMemory>
    requires ordered { Ordered cx.p.now }
    requires before { AreBelow k body.now }
    requires scene { Scene cx.p.now cx.d.now cx.types.now cx.homes.now out.old }
    requires fits { FunctionFits cx.p.now cx.d.now }
    requires parts { AreParts (frame_of cx.p.now cx.d.now) body.now }
    requires exits { AreExits out.old exits }
    requires room { HasRoom out.old (4 * hefts_in cx.p.now body.now) }
    ensures lowered { IfOk result (λ _. Lowered cx.entry.p.now cx.entry.d.now cx.entry.types.now cx.entry.homes.now
        out.old out.new (4 * hefts_in cx.entry.p.now body.now)) }
    ensures spends { IfOk result (λ _. SpendsPart cx.entry.fixed (hefts_in cx.entry.p.now body.now)
        (all_part_copies cx.entry.p.now body.now) (all_entered_in cx.entry.p.now cx.entry.d.now body.now)
        (all_zeroed_in cx.entry.p.now cx.entry.d.now cx.entry.homes.now body.now) out.old out.new) }
    ensures is { IfOk result (λ _. ShowsStatements (routine cx.entry) body.now (exits_as exits) out.old out.new) }
{
    for s in body {
        statement(cx, *s, exits, out)?;
    }
    Ok(())
}

/// Variables, and then statements whose numbers are below `k`.
#[cycle(statements)]
fn block(
    cx: Context,
    k: u32,
    vars: &[u32],
    body: &[u32],
    exits: Exits,
    out: &mut Emitter,
) -> Result<(), NoMemory>
    requires ordered { Ordered cx.p.now }
    requires before { AreBelow k body.now }
    requires scene { Scene cx.p.now cx.d.now cx.types.now cx.homes.now out.old }
    requires fits { FunctionFits cx.p.now cx.d.now }
    requires there { AreVars (frame_of cx.p.now cx.d.now) vars.now }
    requires parts { AreParts (frame_of cx.p.now cx.d.now) body.now }
    requires exits { AreExits out.old exits }
    requires room { HasRoom out.old (4 * hefts_in cx.p.now body.now) }
    ensures lowered { IfOk result (λ _. Lowered cx.entry.p.now cx.entry.d.now cx.entry.types.now cx.entry.homes.now
        out.old out.new (4 * hefts_in cx.entry.p.now body.now)) }
    ensures spends { IfOk result (λ _. SpendsPart cx.entry.fixed (hefts_in cx.entry.p.now body.now)
        (all_part_copies cx.entry.p.now body.now)
        (entered cx.entry.d.now vars.now + all_entered_in cx.entry.p.now cx.entry.d.now body.now)
        (λ v. zeroed cx.entry.d.now cx.entry.homes.now vars.now v
        + all_zeroed_in cx.entry.p.now cx.entry.d.now cx.entry.homes.now body.now v) out.old out.new) }
    ensures is { IfOk result (λ _. ShowsBlock (routine cx.entry) vars.now body.now (exits_as exits) out.old out.new) }
{
    enter(cx, vars, out)?;
    statements(cx, k, body, exits, out)
}

/// A `switch`, statement `k` (C11 6.8.4.2). Its block is entered once, ahead of the comparisons, and its statements
/// stand among its labels.
#[tactic(auto, using(crate::proofs::Below::below))]
#[cycle(statements)]
fn switch(
    cx: Context,
    k: u32,
    on: u32,
    vars: &[u32],
    labels: &[SwitchLabel],
    body: &[u32],
    exits: Exits,
    out: &mut Emitter,
) -> Result<(), NoMemory>
    requires ordered { Ordered cx.p.now }
    requires before { AreBelow k body.now }
    requires scene { Scene cx.p.now cx.d.now cx.types.now cx.homes.now out.old }
    requires fits { FunctionFits cx.p.now cx.d.now }
    requires value { IsTyped (frame_of cx.p.now cx.d.now) on }
    requires there { AreVars (frame_of cx.p.now cx.d.now) vars.now }
    requires parts { AreParts (frame_of cx.p.now cx.d.now) body.now }
    requires exits { AreExits out.old exits }
    requires room { HasRoom out.old (4 * (weight_in cx.p.now on + hefts_in cx.p.now body.now)
        + length labels.now + 3) }
    ensures lowered { IfOk result (λ _. Lowered cx.entry.p.now cx.entry.d.now cx.entry.types.now cx.entry.homes.now
        out.old out.new (4 * (weight_in cx.entry.p.now on + hefts_in cx.entry.p.now body.now)
        + length labels.now + 3)) }
    ensures spends { IfOk result (λ _. Consumes cx.entry.fixed out.old out.new
        (2 * (weight_in cx.entry.p.now on + hefts_in cx.entry.p.now body.now) + 1)
        (32 * (weight_in cx.entry.p.now on + hefts_in cx.entry.p.now body.now + length labels.now)
        + 19 * (entered cx.entry.d.now vars.now + all_entered_in cx.entry.p.now cx.entry.d.now body.now))
        (copies_in cx.entry.p.now on + all_part_copies cx.entry.p.now body.now)
        (λ v. zeroed cx.entry.d.now cx.entry.homes.now vars.now v
        + all_zeroed_in cx.entry.p.now cx.entry.d.now cx.entry.homes.now body.now v)) }
    ensures is { IfOk result (λ _. IsStmt cx.entry.p.now k (stmts.Switch on vars.now labels.now body.now) →
        HasScalar cx.entry.p.now on → ShowsStatement (routine cx.entry) k (exits_as exits) out.old out.new) }
{
    let v = operand(cx, on, Written::Nothing, out)?;
    enter(cx, vars, out)?;
    let end = out.label();
    let cases = compared_cases(cx, labels, v, cx.kind(on), end, out)?;
    let inside = Exits {
        break_to: Some(end),
        continue_to: exits.continue_to,
    };
    let mut first: usize = 0;
    let mut before: u32 = 0;
    for s in body {
        first = cases.stand_at(first, before, out)?;
        statement(cx, *s, inside, out)?;
        before = before.saturating_add(1);
    }
    cases.stand_behind(first, out)?;
    out.stand(end)
}

/// Statement `k`.
#[cycle(statements)]
pub fn statement(cx: Context, k: u32, exits: Exits, out: &mut Emitter) -> Result<(), NoMemory>
    requires ordered { Ordered cx.p.now }
    requires scene { Scene cx.p.now cx.d.now cx.types.now cx.homes.now out.old }
    requires fits { FunctionFits cx.p.now cx.d.now }
    requires part { IsPart (frame_of cx.p.now cx.d.now) k }
    requires exits { AreExits out.old exits }
    requires room { HasRoom out.old (4 * heft_in cx.p.now k) }
    ensures lowered { IfOk result (λ _. Lowered cx.entry.p.now cx.entry.d.now cx.entry.types.now cx.entry.homes.now
        out.old out.new (4 * heft_in cx.entry.p.now k)) }
    ensures spends { IfOk result (λ _. SpendsPart cx.entry.fixed (heft_in cx.entry.p.now k)
        (part_copies cx.entry.p.now k) (entered_in cx.entry.p.now cx.entry.d.now k)
        (zeroed_in cx.entry.p.now cx.entry.d.now cx.entry.homes.now k) out.old out.new) }
    ensures is { IfOk result (λ _. ShowsStatement (routine cx.entry) k (exits_as exits) out.old out.new) }
{
    let Some(s) = cx.stmt(k) else {
        return Ok(());
    };
    match &s.kind {
        StmtKind::Expr(a) => effect(cx, *a, out),
        StmtKind::Init { var, offset, value } => {
            initialise(cx, *var, *offset, *value, s.pos, out)
        }
        StmtKind::Block { vars, body } => {
            block(cx, k, vars.as_slice(), body.as_slice(), exits, out)
        }
        StmtKind::If(c, a, b) => match b {
            Some(b) => choice(cx, k, *c, *a, *b, exits, out),
            None => guarded(cx, *c, *a, exits, out),
        },
        StmtKind::While(c, a) => tested_loop(cx, Some(*c), None, *a, out),
        StmtKind::Do(a, c) => repeated_loop(cx, *a, *c, out),
        StmtKind::For {
            vars,
            first,
            test,
            step,
            body,
        } => {
            block(cx, k, vars.as_slice(), first.as_slice(), exits, out)?;
            tested_loop(cx, *test, *step, *body, out)
        }
        StmtKind::Switch {
            on,
            vars,
            labels,
            body,
        } => switch(
            cx,
            k,
            *on,
            vars.as_slice(),
            labels.as_slice(),
            body.as_slice(),
            exits,
            out,
        ),
        StmtKind::Break => jump_out(out, exits.break_to),
        StmtKind::Continue => jump_out(out, exits.continue_to),
        StmtKind::Return(a) => leave(cx, k, *a, out),
        StmtKind::Empty => Ok(()),
    }
}
