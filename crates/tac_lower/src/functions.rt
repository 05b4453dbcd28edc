//! The code of a function.

ghost use Rattle.std.specs.Prelude.{◌≡◌, ℕ, ◌+◌, ◌*◌, ◌^◌, ◌<◌, ◌≤◌, List, [], true, false, length, IfOk, Some};
ghost use Rattle.std.specs.Prelude.{slice_get};
ghost use Rattle.std.specs.Prelude.{◌==◌, if◌then◌else◌, nat_lt, sum_by};
ghost use Rattle.c_tree.specs.TreeWeight.{function_limit, function_weight};
ghost use Rattle.c_tree.specs.Types.{Ty, Tys, Function};
ghost use Rattle.c_tree.specs.WellTyped.{FunctionFits, type_in};
ghost use Rattle.c_tree.specs.declared.typed.FunDef.{FunDef};
ghost use Rattle.c_tree.specs.declared.typed.Typed.{Typed};
ghost use Rattle.c_tree.specs.declared.typed.VarDef.{VarDef};
ghost use Rattle.cheri_c_sem.specs.Programs.{lengths_of};
ghost use Rattle.tac_ir.specs.WellFormed.{function_fits, type_of_param};
ghost use Rattle.tac_lower.specs.declared.context.Home.TheVariants as homes;
ghost use Rattle.tac_emit.specs.Emitted.{HasKind, Pushed, WellListed, Keeps, Grown, Adds, HasRoom, Stands, open_labels};
ghost use Rattle.tac_lower.specs.Functions.{AreParameters, Makes};
ghost use Rattle.tac_lower.specs.Nodes.{kept_as, or_int};
ghost use Rattle.tac_lower.specs.Scenes.{Ready, HomeFits, Housed, Scene, Lowered};
ghost use Rattle.tac_ir.specs.Within.{FunctionCosts, function_copies};
ghost use Rattle.tac_lower.specs.Copied.{part_copies};
ghost use Rattle.tac_emit.specs.Spent.{Enters, Spent};
ghost use Rattle.tac_lower.specs.Zeroed.{is_object, is_taken, taken, ZeroesOnce};
ghost use Rattle.tac_lower.specs.Signed.{kept_parameter, ReturnFits};
ghost use Rattle.tac_ir.specs.declared.code.TacInstr.TheVariants as instr;
ghost use Rattle.tac_lower.specs.Programs.{gives_in, taken_code, taking, IsNext, AreHomes, EndsWith, Standing};
ghost use Rattle.cheri_c_sem.specs.Expressions.{expr_tree};
ghost use Rattle.lower_runs.specs.Programs.{IsCodeOf};
ghost use Rattle.tac_lower.specs.Trees.{signatures, AreCovered};
ghost use Rattle.tac_emit.specs.Adding.{none, Added, Emits};

use crate::context::{Context, Home};
use crate::statements::{Exits, statement};
use crate::types::{POINTER, TypeFacts, facts_at, or_int};
use crate::writes::Written;
use c_tree::{FunDef, Typed, VarDef};
use ck_base::{NoMemory, Sequence};
use std::alloc::Global;
use tac_emit::Emitter;
use tac_ir::{TacFun, TacKind};
use tac_objects::enter_with;

/// The program, and what is known of it.
#[derive(Clone, Copy)]
pub struct Program<'a> {
    pub alloc: Global,
    pub p: &'a Typed,
    pub types: &'a [TypeFacts],
    pub writes: &'a [Written],
}

impl Program<'_> {
    fn kind_of_type(self, t: u32) -> TacKind
        ensures { Ready self.entry.p.now self.entry.types.now → result ≡ or_int (kept_as (type_in self.entry.p.now t)) }
    {
        or_int(facts_at(self.types, t).kind)
    }
}

/// The type of a variable, by its number.
fn type_of_variable(d: &FunDef, x: u32) -> u32
    ensures { result ≡ type_of_param (slice_get d.now.vars x) }
{
    match d.vars.as_slice().get(x as usize) {
        None => 0,
        Some(v) => v.of,
    }
}

/// The temps of the parameters, the first ones.
fn parameter_temps(program: Program, d: &FunDef, out: &mut Emitter) -> Result<(), NoMemory>
    requires ready { Ready program.p.now program.types.now }
    requires none { out.old.kinds.items ≡ [] }
    requires room { HasRoom out.old (length d.now.params) }
    ensures parameters { IfOk result (λ _. AreParameters program.entry.p.now d.now out.new) }
    ensures added { IfOk result (λ _. Added out.old out.new none) }
    ensures grown { IfOk result (λ _. Grown out.old out.new) }
    ensures adds { IfOk result (λ _. Adds out.old out.new (length d.now.params) 0) }
    ensures spent { IfOk result (λ _. Spent out.old out.new (length d.now.params) 0) }
{
    for x in d.params.as_slice() {
        out.temp(program.kind_of_type(type_of_variable(d, *x)))?;
    }
    Ok(())
}

/// The homes of variables while they are found.
#[derive(Clone, Copy)]
struct Count {
    /// The number of the next variable.
    variable: u32,
    /// How many objects there were.
    objects: u32,
}

impl Count {
    /// With one variable more.
    fn with(self, v: &VarDef) -> Count
        requires variable { self.variable + 1 < 2 ^ 32 }
        requires objects { self.objects + 1 < 2 ^ 32 }
        ensures variable { result.variable ≡ self.variable + 1 }
        ensures simple { v.now.simple ≡ true → result.objects ≡ self.objects }
        ensures object { v.now.simple ≡ false → result.objects ≡ self.objects + 1 }
    {
        let variable = self.variable + 1;
        if v.simple {
            Count {
                variable,
                objects: self.objects,
            }
        } else {
            Count {
                variable,
                objects: self.objects + 1,
            }
        }
    }
}

/// The home of a variable that is an object, by its number among these.
fn object_home(n: u32, out: &mut Emitter) -> Result<Home, NoMemory>
    requires room { HasRoom out.old 1 }
    ensures home { IfOk result (λ h. (p : Typed) (d : FunDef) (v : VarDef) → n < length (lengths_of p d.vars)
        → HomeFits p d out.new v h) }
    ensures next { IfOk result (λ h. (params i : ℕ) (v : VarDef) → v.simple ≡ false
        → IsNext params i n (length out.old.kinds.items) v h) }
    ensures added { IfOk result (λ _. Added out.old out.new none) }
    ensures grown { IfOk result (λ _. Grown out.old out.new) }
    ensures adds { IfOk result (λ _. Adds out.old out.new 1 0) }
    ensures spent { IfOk result (λ _. Spent out.old out.new 1 0) }
    ensures numbered { IfOk result (λ h. (v : ℕ) → is_object v (Some h) ≡ (if n == v then 1 else 0)) }
{
    let t = out.temp(POINTER)?;
    Ok(Home::Object(n, t))
}

/// The temp of variable `x`, which is no object: a parameter has its own.
#[tactic(auto, using(tac_emit::proofs::Wells::grown_same, tac_emit::proofs::Wells::adds_same))]
fn value_temp(x: u32, params: usize, kind: TacKind, out: &mut Emitter) -> Result<u32, NoMemory>
    requires parameter { x < params → HasKind out.old x kind }
    requires room { HasRoom out.old 1 }
    ensures has { IfOk result (λ t. HasKind out.new t kind) }
    ensures next { IfOk result (λ t. t ≡ (if nat_lt x params then x else length out.old.kinds.items)) }
    ensures added { IfOk result (λ _. Added out.old out.new none) }
    ensures grown { IfOk result (λ _. Grown out.old out.new) }
    ensures adds { IfOk result (λ _. Adds out.old out.new 1 0) }
    ensures spent { IfOk result (λ _. Spent out.old out.new 1 0) }
{
    if (x as usize) < params {
        Ok(x)
    } else {
        out.temp(kind)
    }
}

/// The home of the next variable.
fn next_home(
    program: Program,
    d: &FunDef,
    v: &VarDef,
    count: Count,
    out: &mut Emitter,
) -> Result<Home, NoMemory>
    requires ready { Ready program.p.now program.types.now }
    requires parameters { AreParameters program.p.now d.now out.old }
    requires fits { FunctionFits program.p.now d.now }
    requires there { slice_get d.now.vars count.variable ≡ Some v.now }
    requires object { v.now.simple ≡ false → count.objects < length (lengths_of program.p.now d.now.vars) }
    requires room { HasRoom out.old 1 }
    ensures home { IfOk result (λ h. HomeFits program.entry.p.now d.now out.new v.now h) }
    ensures next { IfOk result (λ h. IsNext (length d.now.params) count.variable count.objects
        (length out.old.kinds.items) v.now h) }
    ensures added { IfOk result (λ _. Added out.old out.new none) }
    ensures grown { IfOk result (λ _. Grown out.old out.new) }
    ensures adds { IfOk result (λ _. Adds out.old out.new 1 0) }
    ensures spent { IfOk result (λ _. Spent out.old out.new 1 0) }
    ensures numbered { IfOk result (λ h. (w : ℕ) → is_object w (Some h)
        ≤ (if v.now.simple then 0 else (if count.objects == w then 1 else 0))) }
{
    if v.simple {
        let kind = program.kind_of_type(v.of);
        let t = value_temp(count.variable, d.params.as_slice().len(), kind, out)?;
        Ok(Home::Temp(t, kind))
    } else {
        object_home(count.objects, out)
    }
}

/// The homes of a function's variables, in their order.
fn homes(program: Program, d: &FunDef, out: &mut Emitter) -> Result<Vec<Home>, NoMemory>
    requires ready { Ready program.p.now program.types.now }
    requires fits { FunctionFits program.p.now d.now }
    requires parameters { AreParameters program.p.now d.now out.old }
    requires few { length d.now.vars < 2 ^ 32 }
    requires room { HasRoom out.old (length d.now.vars) }
    ensures housed { IfOk result (λ hs. Housed program.entry.p.now d.now hs.items out.new) }
    ensures homes { IfOk result (λ hs. AreHomes program.entry.p.now d.now hs.items (length out.new.kinds.items)) }
    ensures added { IfOk result (λ _. Added out.old out.new none) }
    ensures grown { IfOk result (λ _. Grown out.old out.new) }
    ensures adds { IfOk result (λ _. Adds out.old out.new (length d.now.vars) 0) }
    ensures spent { IfOk result (λ _. Spent out.old out.new (length d.now.vars) 0) }
    ensures apart { IfOk result (λ hs. (v : ℕ) → sum_by (λ h. is_object v (Some h)) hs.items ≤ 1) }
{
    let mut found = Vec::new(program.alloc);
    let mut count = Count {
        variable: 0,
        objects: 0,
    };
    for v in d.vars.as_slice() {
        let home = next_home(program, d, v, count, out)?;
        found.push(home)?;
        count = count.with(v);
    }
    Ok(found)
}

/// A parameter that is an object, number `n` among these with the pointer in temp `at`, is entered and gets its
/// argument, the value of temp `t`.
fn take_object(
    cx: Context,
    d: &FunDef,
    x: u32,
    n: u32,
    at: u32,
    t: u32,
    out: &mut Emitter,
) -> Result<(), NoMemory>
    requires scene { Scene cx.p.now d.now cx.types.now cx.homes.now out.old }
    requires home { slice_get cx.homes.now x ≡ Some (homes.Object n at) }
    requires value { HasKind out.old t (kept_parameter cx.p.now d.now x) }
    ensures lowered { IfOk result (λ _. Lowered cx.entry.p.now d.now cx.entry.types.now cx.entry.homes.now
        out.old out.new 0) }
    ensures spent { IfOk result (λ _. Enters out.old out.new 0 26 0 (λ v. is_taken cx.entry.homes.now v x)) }
    ensures takes { IfOk result (λ _. Emits out.old out.new 0 (taken_code (Some (homes.Object n at)) t
        (kept_parameter cx.entry.p.now d.now x) d.now.pos)) }
{
    let kind = cx.kind_of_type(type_of_variable(d, x));
    enter_with(out, at, n, t, kind, d.pos)
}

/// A parameter that is an object gets its argument, the value of temp `t`.
fn take_parameter(
    cx: Context,
    d: &FunDef,
    x: u32,
    t: u32,
    out: &mut Emitter,
) -> Result<(), NoMemory>
    requires scene { Scene cx.p.now d.now cx.types.now cx.homes.now out.old }
    requires value { HasKind out.old t (kept_parameter cx.p.now d.now x) }
    ensures lowered { IfOk result (λ _. Lowered cx.entry.p.now d.now cx.entry.types.now cx.entry.homes.now
        out.old out.new 0) }
    ensures spent { IfOk result (λ _. Enters out.old out.new 0 26 0 (λ v. is_taken cx.entry.homes.now v x)) }
    ensures takes { IfOk result (λ _. Emits out.old out.new 0 (taken_code (slice_get cx.entry.homes.now x) t
        (kept_parameter cx.entry.p.now d.now x) d.now.pos)) }
{
    match cx.home(x) {
        Some(Home::Object(n, at)) => take_object(cx, d, x, n, at, t, out),
        _ => Ok(()),
    }
}

fn take_parameters(cx: Context, d: &FunDef, out: &mut Emitter) -> Result<(), NoMemory>
    requires scene { Scene cx.p.now d.now cx.types.now cx.homes.now out.old }
    requires parameters { AreParameters cx.p.now d.now out.old }
    requires few { length d.now.params < 2 ^ 32 }
    ensures lowered { IfOk result (λ _. Lowered cx.entry.p.now d.now cx.entry.types.now cx.entry.homes.now
        out.old out.new 0) }
    ensures spent { IfOk result (λ _. Enters out.old out.new 0 (26 * length d.now.params) 0
        (taken cx.entry.homes.now d.now.params)) }
    ensures takes { IfOk result (λ _. Emits out.old out.new 0 (taking cx.entry.homes.now
        (kept_parameter cx.entry.p.now d.now) d.now.pos d.now.params 0)) }
{
    let mut t: u32 = 0;
    for x in d.params.as_slice() {
        take_parameter(cx, d, *x, t, out)?;
        t = t.saturating_add(1);
    }
    Ok(())
}

/// The kind of what a function gives, if it gives a value.
fn gives(types: &[TypeFacts], d: &FunDef) -> Option<TacKind>
    ensures { (p : Typed) (r : Ty) (ps : Tys) → Ready p types.now → type_in p d.now.of ≡ Function r ps
        → result ≡ kept_as r }
{
    match facts_at(types, d.of).gives {
        None => None,
        Some(t) => facts_at(types, t).kind,
    }
}

/// 0 or null of a kind, if there is one.
fn end_value(kind: Option<TacKind>, out: &mut Emitter) -> Result<Option<u32>, NoMemory>
    requires room { HasRoom out.old 1 }
    ensures value { IfOk result (λ v. ReturnFits out.new kind v) }
    ensures ends { IfOk result (λ v. (b : Emitter) → Pushed out.new b (instr.Return v) → EndsWith kind out.old b) }
    ensures grown { IfOk result (λ _. Grown out.old out.new) }
    ensures adds { IfOk result (λ _. Adds out.old out.new 1 0) }
    ensures spent { IfOk result (λ _. Spent out.old out.new 1 11) }
{
    match kind {
        None => Ok(None),
        Some(kind) => {
            let t = out.fresh_constant(kind, 0)?;
            Ok(Some(t))
        }
    }
}

/// The end of a function gives 0 or null, if the function gives a value (C11 5.1.2.2.3, 6.9.1p12). Behind a return no
/// run comes to the end.
fn end_function(cx: Context, out: &mut Emitter) -> Result<(), NoMemory>
    requires scene { Scene cx.p.now cx.d.now cx.types.now cx.homes.now out.old }
    requires fits { FunctionFits cx.p.now cx.d.now }
    requires closed { (l : ℕ) → open_labels out.old l ≡ false }
    requires room { HasRoom out.old 1 }
    ensures whole { IfOk result (λ _. WellListed cx.entry.p.now cx.entry.d.now out.new.kinds.items
        out.new.code.items out.new.code.items) }
    ensures keeps { IfOk result (λ _. Keeps out.old.kinds.items out.new.kinds.items) }
    ensures made { IfOk result (λ _. (l : ℕ) → Stands out.new l → l < out.new.labels) }
    ensures ends { IfOk result (λ _. EndsWith (gives_in cx.entry.p.now cx.entry.d.now) out.old out.new) }
    ensures adds { IfOk result (λ _. Adds out.old out.new 1 0) }
    ensures spent { IfOk result (λ _. Spent out.old out.new 1 35) }
{
    if out.has_left() {
        return Ok(());
    }
    let value = end_value(gives(cx.types, cx.d), out)?;
    out.leave(value)
}

fn finished(d: &FunDef, out: Emitter) -> TacFun
    requires few { length d.now.params < 2 ^ 32 }
    requires temps { length out.kinds.items < 2 ^ 32 }
    ensures makes { Makes d.now out result }
{
    let temps = out.temps();
    let Emitter { code, kinds, .. } = out;
    TacFun {
        name: d.pos,
        params: d.params.as_slice().len() as u32,
        temps,
        kinds: Sequence::from_vec(kinds),
        code: Sequence::from_vec(code),
    }
}

/// The code of a function. The first temps are those of the parameters; then come those of the other variables, and
/// of the pointers to objects.
pub fn function(program: Program, d: &FunDef) -> Result<TacFun, NoMemory>
    requires ready { Ready program.p.now program.types.now }
    requires fits { FunctionFits program.p.now d.now }
    requires light { function_weight program.p.now d.now ≤ function_limit }
    requires covered { (vars : List VarDef) → AreCovered program.writes.now (expr_tree program.p.now vars) }
    ensures named { IfOk result (λ f. f.name ≡ d.now.pos) }
    ensures formed { IfOk result (λ f. function_fits program.entry.p.now d.now f ≡ true) }
    ensures costs { IfOk result (λ f. FunctionCosts (function_weight program.entry.p.now d.now) f) }
    ensures copies { IfOk result (λ f. function_copies f ≤ part_copies program.entry.p.now d.now.body) }
    ensures zeros { IfOk result ZeroesOnce }
    ensures short { IfOk result (λ f. length f.code < 2 ^ 32) }
    ensures is { IfOk result (λ f. Standing program.entry.p.now → (n : ℕ)
        → slice_get program.entry.p.now.funs n ≡ Some d.now
        → IsCodeOf program.entry.p.now (signatures program.entry.p.now) n d.now f) }
{
    let mut out = Emitter::new(program.alloc);
    parameter_temps(program, d, &mut out)?;
    let homes = homes(program, d, &mut out)?;
    let cx = Context {
        alloc: program.alloc,
        p: program.p,
        d,
        types: program.types,
        writes: program.writes,
        homes: homes.as_slice(),
        fixed: out.temps(),
    };
    take_parameters(cx, d, &mut out)?;
    let exits = Exits {
        break_to: None,
        continue_to: None,
    };
    statement(cx, d.body, exits, &mut out)?;
    end_function(cx, &mut out)?;
    Ok(finished(d, out))
}
