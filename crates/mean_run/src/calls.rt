//! Calls (C11 6.5.2.2) and returns (6.8.6.4).
ghost use Rattle.std.specs.Prelude.{◌≡◌, ◌==◌, ◌∷◌, ◌+◌, ◌<◌, ◌^◌, List, [], IfOk, OnOk, Some, None, slice_get, map};
ghost use Rattle.std.specs.Prelude.{length, replicate, reverse, slice_index_or, false, true, if◌then◌else◌};
ghost use Rattle.c_tree.specs.declared.typed.Typed.{Typed};
ghost use Rattle.c_tree.specs.declared.typed.VarDef.{VarDef as Variable};
ghost use Rattle.obj_mem.specs.Values.{value_of};
ghost use Rattle.cheri_c_sem.specs.Calls.{add_locals, end_locals};
ghost use Rattle.cheri_c_sem.specs.Expressions.{bare_type, fits};
ghost use Rattle.cheri_c_sem.specs.Modes.{Store};
ghost use Rattle.cheri_c_sem.specs.Operations.{Operations};
ghost use Rattle.cheri_c_sem.specs.Programs.{end_of_type, function_tree, lengths_of, parameter_of};
ghost use Rattle.cheri_c_sem.specs.Types.{pointee_of, result_type_of, size_in, type_of_var};
ghost use Rattle.c_tree.specs.Layout.{bare};
ghost use Rattle.mean_steps.specs.Machine.{beyond, call, closed, opened, turn_behind, turned};
ghost use Rattle.mean_steps.specs.Machine as machine;
ghost use Rattle.mean_steps.specs.Parts.{Now, at_end, called, pass, pass_one};
ghost use Rattle.mean_run.specs.Allocated.{IsEntered};
ghost use Rattle.mean_run.specs.Calls.{Ended, Enters, given_behind};
ghost use Rattle.mean_run.specs.Views.{moment_of, caller_of, fun_of, funs_of, now_of};
ghost use Rattle.mean_run.specs.Parts.{Did, Does, Gives, Unless_wanting};
ghost use Rattle.mean_run.specs.Sizes.{AreSizedVariables, IsSmall};
ghost use Rattle.mean_run.specs.Sources.{IsFit, IsSource};

use crate::call::Call;
use crate::locals::{function, is_object};
use crate::places::{DATA, type_of, within_limit};
use crate::state::{Source, State};
use crate::storage::Storage;
use c_tree::{FunDef, Typed, VarDef};
use cap_ops::Cause;
use ck_base::{NoMemory, Pos};
use mean_operations::Operations;
use mean_types::{NOTHING, compatible};
use mean_work::{Place, Stop, Work, fault_end, turn_behind};
use obj_mem::{Ending, Value};
use std::alloc::Global;

/// No memory has room for so many objects.
const MOST_OBJECTS: u64 = 0x8000_0000_0000_0000;

/// So many variables that have no value.
fn no_values(alloc: Global, count: usize) -> Result<Vec<Option<Value>>, NoMemory>
    ensures { IfOk result (λ vs. vs.items ≡ replicate count None) }
{
    let mut variables = Vec::with_capacity(alloc, count)?;
    'values: for _ in 0..count {
        variables.push(None)?;
    }
    Ok(variables)
}

/// Whether a function's type is compatible with the one of a call.
fn is_compatible(s: &Source<'_>, of: u32, g: u32) -> bool
    ensures { (vars : List Variable) → result ≡ slice_index_or (fits s.now.p.now vars of) g false }
{
    match function(s.p, g) {
        None => false,
        Some(d) => compatible(s.p.types.as_slice(), of, d.of),
    }
}

/// The function that is called through an expression: by its sentry, and with a type compatible with its own.
fn called(s: &Source<'_>, through: u32, callee: Value, pos: Pos) -> Result<u32, Stop>
    requires { IsSource s.now }
    ensures { (ops : Operations Store) (vars : List Variable) (n : Now Store) → Gives (called ops pos
        (fits s.now.p.now vars (pointee_of (bare_type s.now.p.now vars through))) (value_of callee) n) (λ g. g) n
        result }
{
    match callee {
        Value::Fun(g) => {
            let of = s.types.facts(s.p, type_of(s.p, through)).target;
            if is_compatible(s, of, g) {
                Ok(g)
            } else {
                Err(Stop::Ended(Ending::Outside(pos)))
            }
        }
        Value::Live(_, _, _, _, _) => Err(Stop::Ended(Ending::Trap(Cause::Execute, pos))),
        Value::Raw(_, _) => Err(Stop::Ended(Ending::Trap(Cause::Tag, pos))),
        Value::Int(_) => Err(Stop::Ended(Ending::Trap(Cause::Tag, pos))),
    }
}

/// The objects among a function's variables; each is dead before its block is entered.
fn add_objects<B: Storage>(
    m: &mut B,
    s: &Source<'_>,
    frame: u64,
    g: u32,
    vars: &[VarDef],
) -> Result<(), NoMemory>
    requires source { IsSource s.now }
    requires entered { IsEntered (B.meaning m.old) g frame }
    ensures same { B.meaning m.new ≡ B.meaning m.old }
    ensures did { AreSizedVariables s.now.p.now vars.now → OnOk result (B.held m.new
        ≡ add_locals (B.meaning m.old) (B.held m.old) frame g 0 (lengths_of s.now.p.now vars.now)) }
{
    let mut n: u64 = 0;
    'vars: for v in vars {
        match add_object(m, s, frame, g, n, v) {
            Err(e) => return Err(e),
            Ok(next) => n = next,
        }
    }
    Ok(())
}

/// An object for a variable that is one, and the number of the next one.
fn add_object<B: Storage>(
    m: &mut B,
    s: &Source<'_>,
    frame: u64,
    g: u32,
    n: u64,
    v: &VarDef,
) -> Result<u64, NoMemory>
    requires source { IsSource s.now }
    requires entered { IsEntered (B.meaning m.old) g frame }
    ensures same { B.meaning m.new ≡ B.meaning m.old }
    ensures next { n + 1 < 2 ^ 64 → IfOk result (λ k. k ≡ n + (if v.now.simple then 0 else 1)) }
    ensures did { IsSmall s.now.p.now v.now.of → OnOk result (B.held m.new ≡ (if v.now.simple then B.held m.old
        else (B.meaning m.old).add_local (B.held m.old) frame g n (size_in s.now.p.now.types v.now.of))) }
{
    if v.simple {
        return Ok(n);
    }
    m.add_local(frame, g, n, within_limit(s.types.facts(s.p, v.of).size))?;
    Ok(n.wrapping_add(1))
}

impl State {
    /// So many values on top go, the first one last; where there are fewer, all of them.
    fn take_values(&mut self, alloc: Global, count: usize) -> Result<Vec<Value>, NoMemory>
        ensures values { IfOk result (λ vs. map value_of (reverse vs.items)
            ≡ turned count (map value_of self.old.values) []) }
        ensures state { IfOk result (λ vs. (p : Typed) (held : Store) → moment_of p self.new held
            ≡ record (moment_of p self.old held) { values = beyond count (map value_of self.old.values) }) }
    {
        let mut values = Vec::with_capacity(alloc, count)?;
        'values: for _ in 0..count {
            match self.values.pop() {
                None => return Ok(values),
                Some(v) => values.push(v)?,
            }
        }
        Ok(values)
    }

    /// The call of the value below so many arguments on top, through an expression.
    pub fn call<B: Storage>(
        &mut self,
        m: &mut B,
        s: &Source<'_>,
        through: u32,
        count: usize,
        pos: Pos,
    ) -> Result<(), Stop>
        requires { IsSource s.now }
        ensures same { B.meaning m.new ≡ B.meaning m.old }
        ensures does { IsFit s.now.p.now → (vars : List Variable) → Does (call (B.meaning m.old)
            (funs_of s.now.p.now) pos (fits s.now.p.now vars (pointee_of (bare_type s.now.p.now vars through))) count
            (moment_of s.now.p.now self.old (B.held m.old))) (moment_of s.now.p.now self.new (B.held m.new)) result }
    {
        let mut values = self.take_values(s.alloc, count)?;
        let callee = self.take();
        match called(s, through, callee, pos) {
            Err(stop) => Err(stop),
            Ok(g) => match self.turn() {
                Err(stop) => Err(stop),
                Ok(()) => self.open(m, s, g, &mut values, false),
            },
        }
    }

    /// The first call.
    pub fn begin<B: Storage>(&mut self, m: &mut B, s: &Source<'_>, g: u32) -> Result<(), Stop>
        requires { IsSource s.now }
        ensures same { B.meaning m.new ≡ B.meaning m.old }
        ensures does { IsFit s.now.p.now → Does (opened (B.meaning m.old) (funs_of s.now.p.now) true g
            (slice_get (funs_of s.now.p.now) g) [] (moment_of s.now.p.now self.old (B.held m.old)))
            (moment_of s.now.p.now self.new (B.held m.new)) result }
    {
        let mut values = Vec::new(s.alloc);
        self.open(m, s, g, &mut values, true)
    }

    /// A function is called with values, of which the first one stands last.
    fn open<B: Storage>(
        &mut self,
        m: &mut B,
        s: &Source<'_>,
        g: u32,
        values: &mut Vec<Value>,
        first: bool,
    ) -> Result<(), Stop>
        requires { IsSource s.now }
        ensures same { B.meaning m.new ≡ B.meaning m.old }
        ensures does { IsFit s.now.p.now → Does (opened (B.meaning m.old) (funs_of s.now.p.now) first g
            (slice_get (funs_of s.now.p.now) g) (map value_of (reverse values.old.items))
            (moment_of s.now.p.now self.old (B.held m.old))) (moment_of s.now.p.now self.new (B.held m.new)) result }
    {
        match function(s.p, g) {
            None => self.give_behind(first, NOTHING),
            Some(d) => match self.enter_frame(m, s, g, d) {
                Err(stop) => Err(stop),
                Ok(()) => match self.pass(m, s, g, d, values) {
                    Err(stop) => Err(stop),
                    Ok(()) => self.enter_body(g, d.body, first),
                },
            },
        }
    }

    fn enter_body(&mut self, g: u32, body: u32, first: bool) -> Result<(), Stop>
        ensures { Unless_wanting result (self.new
            ≡ record self.old { work = Work.Statement g body ∷ Work.Return g first ∷ self.old.work }) }
    {
        Ok(self.then(Work::Statement(g, body), Work::Return(g, first))?)
    }

    /// The turn behind a call, and then a value.
    fn give_behind(&mut self, first: bool, v: Value) -> Result<(), Stop>
        ensures { (p : Typed) (held : Store) → Does (given_behind first (value_of v) (moment_of p self.old held))
            (moment_of p self.new held) result }
    {
        match self.turn_behind(first) {
            Err(stop) => Err(stop),
            Ok(()) => self.give_value(v),
        }
    }

    /// The turn behind a call; the first call has none.
    fn turn_behind(&mut self, first: bool) -> Result<(), Stop>
        ensures { (p : Typed) (held : Store) → Did (turn_behind first) (λ u. u) p self.old self.new held held result }
    {
        turn_behind(&mut self.left, first)
    }

    /// A fresh frame, where there is room for it.
    fn enter_frame<B: Storage>(
        &mut self,
        m: &mut B,
        s: &Source<'_>,
        g: u32,
        d: &FunDef,
    ) -> Result<(), Stop>
        requires { IsSource s.now }
        ensures same { B.meaning m.new ≡ B.meaning m.old }
        ensures did { AreSizedVariables s.now.p.now d.now.vars →
            Enters (B.meaning m.old) s.now.p.now g d.now self.old self.new (B.held m.old)
            (B.held m.new) ((B.meaning m.old).enter g self.old.call.frame) result }
    {
        match m.enter(g, self.call.frame) {
            None => Err(Stop::Ended(Ending::Stack(d.pos))),
            Some(address) => self.enter_at(m, s, g, d, address),
        }
    }

    fn enter_at<B: Storage>(
        &mut self,
        m: &mut B,
        s: &Source<'_>,
        g: u32,
        d: &FunDef,
        address: u64,
    ) -> Result<(), Stop>
        requires source { IsSource s.now }
        requires entered { IsEntered (B.meaning m.old) g address }
        ensures same { B.meaning m.new ≡ B.meaning m.old }
        ensures did { AreSizedVariables s.now.p.now d.now.vars →
            Enters (B.meaning m.old) s.now.p.now g d.now self.old self.new (B.held m.old)
            (B.held m.new) (Some address) result }
    {
        let vars = d.vars.as_slice();
        let first = m.count();
        if first >= MOST_OBJECTS {
            return Err(Stop::NoMemory);
        }
        let fresh = Call {
            variables: no_values(s.alloc, vars.len())?,
            first,
            frame: address,
        };
        let caller = std::mem::replace(&mut self.call, fresh);
        self.callers.push(caller)?;
        Ok(add_objects(m, s, address, g, vars)?)
    }

    /// The arguments come into the parameters.
    fn pass<B: Operations>(
        &mut self,
        m: &mut B,
        s: &Source<'_>,
        g: u32,
        d: &FunDef,
        values: &mut Vec<Value>,
    ) -> Result<(), Stop>
        requires { IsSource s.now }
        ensures same { B.meaning m.new ≡ B.meaning m.old }
        ensures did { slice_get s.now.p.now.funs g ≡ Some d.now → Did (pass (B.meaning m.old) d.now.pos
            (map (parameter_of s.now.p.now d.now.vars) d.now.params) (map value_of (reverse values.old.items))) (λ u. u)
            s.now.p.now self.old self.new (B.held m.old) (B.held m.new) result }
    {
        'params: for x in d.params.as_slice() {
            match values.pop() {
                None => return Ok(()),
                Some(v) => match self.pass_one(m, s, g, d, *x, v) {
                    Err(stop) => return Err(stop),
                    Ok(()) => {}
                },
            }
        }
        Ok(())
    }

    /// An argument comes into a variable, or into an object, which is then zero bytes first.
    fn pass_one<B: Operations>(
        &mut self,
        m: &mut B,
        s: &Source<'_>,
        g: u32,
        d: &FunDef,
        x: u32,
        v: Value,
    ) -> Result<(), Stop>
        requires { IsSource s.now }
        ensures same { B.meaning m.new ≡ B.meaning m.old }
        ensures did { slice_get s.now.p.now.funs g ≡ Some d.now → Did (pass_one (B.meaning m.old) d.now.pos
            (parameter_of s.now.p.now d.now.vars x) (value_of v)) (λ u. u) s.now.p.now self.old self.new (B.held m.old)
            (B.held m.new) result }
    {
        if is_object(s.p, g, x) {
            let object = self.object(s.locals.before(g, x));
            let kind = s.types.facts(s.p, type_of_variable(d, x)).kind_or_int();
            let to = m.whole(object, DATA);
            m.zero(object);
            self.store(m, kind, Place::At(d.pos, to), v)
        } else {
            self.set_variable(x, Some(v));
            Ok(())
        }
    }

    /// A function's body was left at its end.
    pub fn reach_end<B: Storage>(
        &mut self,
        m: &mut B,
        s: &Source<'_>,
        g: u32,
        first: bool,
    ) -> Result<(), Stop>
        requires { IsSource s.now }
        ensures same { B.meaning m.new ≡ B.meaning m.old }
        ensures does { Does (Ended (B.meaning m.old) (funs_of s.now.p.now) first
            (fun_of s.now.p.now g (slice_get s.now.p.now.funs g))
            (moment_of s.now.p.now self.old (B.held m.old))) (moment_of s.now.p.now self.new (B.held m.new)) result }
    {
        match end_value(m, s, g) {
            Err(stop) => Err(stop),
            Ok(v) => self.close(m, s, g, first, v),
        }
    }

    /// The current call ends: its objects end, the caller goes on, and one more turn is used.
    pub fn close<B: Operations>(
        &mut self,
        m: &mut B,
        s: &Source<'_>,
        g: u32,
        first: bool,
        v: Value,
    ) -> Result<(), Stop>
        requires { IsSource s.now }
        ensures same { B.meaning m.new ≡ B.meaning m.old }
        ensures does { Does (closed (B.meaning m.old) (funs_of s.now.p.now) first
            (fun_of s.now.p.now g (slice_get s.now.p.now.funs g)) (value_of v) (map caller_of self.old.callers)
            (moment_of s.now.p.now self.old (B.held m.old))) (moment_of s.now.p.now self.new (B.held m.new)) result }
    {
        self.end_objects(m, s, g);
        match self.callers.pop() {
            None => self.give_behind(first, v),
            Some(caller) => {
                self.call = caller;
                self.give_behind(first, v)
            }
        }
    }

    fn end_objects<B: Operations>(&self, m: &mut B, s: &Source<'_>, g: u32)
        requires { IsSource s.now }
        ensures same { B.meaning m.new ≡ B.meaning m.old }
        ensures did { B.held m.new ≡ end_locals (B.meaning m.old) (B.held m.old) self.now.call.first
            (fun_of s.now.p.now g (slice_get s.now.p.now.funs g)).objects }
    {
        'objects: for n in 0..objects_of(s, g) {
            m.end(self.object(n));
        }
    }
}

/// How many objects a function's variables are.
fn objects_of(s: &Source<'_>, g: u32) -> u64
    requires { IsSource s.now }
    ensures is { result ≡ length (fun_of s.now.p.now g (slice_get s.now.p.now.funs g)).objects }
    ensures few { result < 2 ^ 63 }
{
    match function(s.p, g) {
        None => 0,
        Some(d) => s.locals.count(g).min(d.vars.as_slice().len() as u64),
    }
}

fn type_of_variable(d: &FunDef, x: u32) -> u32
    ensures { result ≡ type_of_var (slice_get d.now.vars x) }
{
    match d.vars.as_slice().get(x as usize) {
        None => 0,
        Some(var) => var.of,
    }
}

fn is_main(p: &Typed, g: u32) -> bool
    ensures { result ≡ (g == p.now.main) }
{
    g == p.main
}

/// What a function gives that reaches its end (C11 6.9.1p12, 5.1.2.2.3).
fn end_value<B: Operations>(m: &B, s: &Source<'_>, g: u32) -> Result<Value, Stop>
    requires { IsSource s.now }
    ensures { (n : Now Store) → Gives (at_end (B.meaning m.now)
        (fun_of s.now.p.now g (slice_get s.now.p.now.funs g)).name
        (fun_of s.now.p.now g (slice_get s.now.p.now.funs g)).at_end n) value_of n result }
{
    match function(s.p, g) {
        None => Ok(NOTHING),
        Some(d) => if is_main(s.p, g) {
            Ok(NOTHING)
        } else {
            end_of(m, s, d)
        },
    }
}

fn end_of<B: Operations>(m: &B, s: &Source<'_>, d: &FunDef) -> Result<Value, Stop>
    requires { IsSource s.now }
    ensures { (n : Now Store) → Gives (at_end (B.meaning m.now) d.now.pos (end_of_type s.now.p.now
        (bare s.now.p.now.types (result_type_of (bare s.now.p.now.types d.now.of)))) n) value_of n result }
{
    let gives = s.types.facts(s.p, s.types.facts(s.p, d.of).gives);
    if gives.void {
        return Ok(NOTHING);
    }
    match m.falls(gives.kind_or_int()) {
        Err(f) => Err(Stop::Ended(fault_end(f, d.pos))),
        Ok(v) => Ok(v),
    }
}
