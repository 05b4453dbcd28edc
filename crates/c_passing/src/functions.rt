//! Functions as they are run.

ghost use Rattle.std.specs.Prelude.{◌≡◌, ◌≤◌, ◌++◌, [], true, List, IfOk, OnOk, length, map, take, drop};
ghost use Rattle.c_tree.specs.declared.typed.FunDef.{FunDef as Function};
ghost use Rattle.c_tree.specs.Terms.{numbers_from, Variable};
ghost use Rattle.c_tree.specs.Passed.{by_pointer, named_variables, passed_param, passed_variable, result_pointer};
ghost use Rattle.c_tree.specs.Passed.{copied_params, hidden_of};
ghost use Rattle.passing_steps.specs.Steps.{written_type};
ghost use Rattle.c_passing.specs.Passes.{written_action, AddsActions};
ghost use Rattle.c_passing.specs.Routines.{written_routine, written_variable, source_routine, source_variable};
ghost use Rattle.c_passing.specs.Routines.{HasBody, AreRun, IsRun, IsNamed, named_so_far, AddsParam, HasParams};
ghost use Rattle.c_passing.specs.Routines.{HasLocals, IsParamCopy, AreParamCopies, IsBody, IsFunction};

use crate::counts::{after, count, sum};
use crate::statements::statements;
use crate::types::given_by_pointer;
use c_tree::{ExprKind, FunDef, StmtKind, Typed, VarDef};
use ck_base::{NoMemory, Sequence};
use passing_steps::{Made, Names, Source, Types, add_numbers, bare, block_vars, by_pointer};
use std::alloc::Global;

/// The program as it is written, and what stands for its types and names its calls.
#[derive(Clone, Copy)]
pub(crate) struct Whole<'a> {
    pub alloc: Global,
    pub program: &'a Typed,
    pub types: &'a Types,
    pub names: &'a Names,
}

// The variables of a function that have names.
#[derive(Drop)]
struct Standing {
    /// How many parameters there are before the written ones.
    before: u32,
    /// How many parameters come by pointers.
    copied: u32,
    /// The variable that stands for each written one.
    numbers: Vec<u32>,
    vars: Vec<VarDef>,
}

impl Standing {
    // The number of the next variable.
    fn next_var(&self) -> Result<u32, NoMemory>
        ensures { IfOk result (λ k. k ≡ length self.now.vars.items) }
    {
        count(self.vars.len())
    }
}

fn retyped(whole: &Whole<'_>, v: VarDef) -> VarDef
    ensures { IsRun whole.now result (passed_variable (written_variable whole.now v)) }
{
    let of = whole.types.number(v.of);
    VarDef { of, ..v }
}

// A parameter as it is run.
fn passed(whole: &Whole<'_>, v: VarDef) -> VarDef
    ensures { IsRun whole.now result (passed_param (written_variable whole.now v)) }
{
    if by_pointer(whole.program.types.as_slice(), v.of) {
        let of = whole.types.pointer(v.of);
        VarDef {
            of,
            simple: true,
            ..v
        }
    } else {
        retyped(whole, v)
    }
}

// The parameter by which the result is given, if there is one: how many those are.
fn result_pointer(whole: &Whole<'_>, f: &FunDef, vars: &mut Vec<VarDef>) -> Result<u32, NoMemory>
    requires { vars.old.items ≡ [] }
    ensures count { IfOk result (λ n. n ≡ length (result_pointer (written_routine whole.now f.now))) }
    ensures vars { OnOk result (AreRun whole.now vars.new.items (result_pointer (written_routine whole.now f.now))) }
{
    match given_by_pointer(whole.program.types.as_slice(), f.of) {
        None => Ok(0),
        Some(gives) => {
            let of = whole.types.pointer(gives);
            vars.push(VarDef {
                name: f.name,
                pos: f.pos,
                of,
                simple: true,
            })?;
            Ok(1)
        }
    }
}

fn params_as_run(
    whole: &Whole<'_>,
    params: &[VarDef],
    vars: &mut Vec<VarDef>,
) -> Result<(), NoMemory>
    ensures { OnOk result ((vs : List Variable) → AreRun whole.now vars.old.items vs →
        AreRun whole.now vars.new.items (vs ++ map passed_param (map (written_variable whole.now) params.now))) }
{
    for v in params {
        let v = passed(whole, *v);
        vars.push(v)?;
    }
    Ok(())
}

// A parameter: where it stands, and the local that it is copied to if it comes by a pointer.
fn add_param(whole: &Whole<'_>, v: VarDef, k: u32, into: &mut Standing) -> Result<(), NoMemory>
    ensures { OnOk result (AddsParam whole.now into.old into.new v k) }
{
    if by_pointer(whole.program.types.as_slice(), v.of) {
        let at = into.next_var()?;
        let local = retyped(whole, v);
        into.vars.push(local)?;
        into.copied = after(into.copied)?;
        into.numbers.push(at)?;
    } else {
        let at = sum(k, into.before)?;
        into.numbers.push(at)?;
    }
    Ok(())
}

// The locals that parameters are copied to, and where each written parameter stands.
fn copied_params(whole: &Whole<'_>, params: &[VarDef], into: &mut Standing) -> Result<(), NoMemory>
    ensures { OnOk result ((f : Function) → HasParams whole.now f params.now →
        IsNamed whole.now f 0 into.old (named_so_far (written_routine whole.now f) 0) →
        IsNamed whole.now f (length params.now) into.new
        (named_so_far (written_routine whole.now f) (length params.now))) }
{
    for k in 0..params.len() {
        let at = count(k)?;
        add_param(whole, params[k], at, into)?;
    }
    Ok(())
}

fn other_locals(whole: &Whole<'_>, locals: &[VarDef], into: &mut Standing) -> Result<(), NoMemory>
    ensures { OnOk result ((f : Function) → HasLocals whole.now f locals.now →
        IsNamed whole.now f (length f.params) into.old
        (named_so_far (written_routine whole.now f) (length f.params)) →
        IsNamed whole.now f (length f.vars) into.new (named_variables (written_routine whole.now f))) }
{
    for v in locals {
        let at = into.next_var()?;
        let local = retyped(whole, *v);
        into.vars.push(local)?;
        into.numbers.push(at)?;
    }
    Ok(())
}

// The parameters as they are written, and the other locals.
fn written_vars(f: &FunDef) -> (&[VarDef], &[VarDef])
    requires { length f.now.params ≤ length f.now.vars }
    ensures params { result.0.now ≡ take (length f.now.params) f.now.vars }
    ensures locals { result.1.now ≡ drop (length f.now.params) f.now.vars }
{
    f.vars.as_slice().split_at(f.params.as_slice().len())
}

fn named(whole: &Whole<'_>, f: &FunDef) -> Result<Standing, NoMemory>
    requires { length f.now.params ≤ length f.now.vars }
    ensures { IfOk result (λ n. IsNamed whole.now f.now (length f.now.vars) n
        (named_variables (written_routine whole.now f.now))) }
{
    let alloc = whole.alloc;
    let (params, locals) = written_vars(f);
    let mut vars = Vec::new(alloc);
    let before = result_pointer(whole, f, &mut vars)?;
    params_as_run(whole, params, &mut vars)?;
    let mut named = Standing {
        before,
        copied: 0,
        numbers: Vec::new(alloc),
        vars,
    };
    copied_params(whole, params, &mut named)?;
    other_locals(whole, locals, &mut named)?;
    Ok(named)
}

// A parameter that came by a pointer is copied to the local that stands for it.
fn param_copy(
    source: &Source<'_>,
    v: VarDef,
    from: u32,
    to: u32,
    out: &mut Made,
) -> Result<u32, NoMemory>
    requires { by_pointer (written_type source.now v.of) ≡ true }
    ensures { IfOk result (IsParamCopy source.now out.old out.new v from to) }
{
    let t = bare(source.written_types(), v.of);
    let of = source.types.number(t);
    let pointer = source.types.pointer(t);
    let place = out.behind(from, pointer, of, v.pos)?;
    let value = out.push_expr(ExprKind::Load(place), of, v.pos)?;
    let kind = StmtKind::Init {
        var: to,
        offset: 0,
        value,
    };
    out.push_stmt(kind, v.pos)
}

// The copies of parameters, which begin with these numbers as they are run, and as locals.
fn param_copies(
    source: &Source<'_>,
    params: &[VarDef],
    first: u32,
    local: u32,
    out: &mut Made,
    body: &mut Vec<u32>,
) -> Result<(), NoMemory>
    ensures { OnOk result (AreParamCopies source.now out.old out.new first local
        (map (source_variable source.now) params.now) body.old.items body.new.items) }
{
    let mut from = first;
    let mut to = local;
    for v in params {
        if by_pointer(source.written_types(), v.of) {
            let copy = param_copy(source, *v, from, to, out)?;
            body.push(copy)?;
            to = after(to)?;
        }
        from = after(from)?;
    }
    Ok(())
}

// The body of a function, which is a block.
fn body(
    source: &Source<'_>,
    f: &FunDef,
    before: u32,
    copied: u32,
    out: &mut Made,
) -> Result<u32, NoMemory>
    requires fits { HasBody source.now.program.now f.now }
    requires numbers { length source.now.numbers.now ≡ length f.now.vars }
    requires before { before ≡ length (result_pointer (source_routine source.now f.now)) }
    requires copied { copied ≡ length (copied_params (source_routine source.now f.now)) }
    ensures { IfOk result (λ j. AddsActions source.now out.old out.new
        (λ names. hidden_of names (written_action source.now f.now.body))
        (IsBody source.now (source_routine source.now f.now) out.old out.new j)) }
{
    let s = source.stmt(f.body);
    match &s.kind {
        StmtKind::Block { vars, body } => {
            let (params, _) = written_vars(f);
            let written = count(params.len())?;
            let local = sum(written, before)?;
            let other = sum(local, copied)?;
            let hidden = out.next_var()?;
            let mut list = Vec::new(source.alloc);
            param_copies(source, params, before, local, out, &mut list)?;
            statements(source, body.as_slice(), f.body, out, &mut list)?;
            let end = out.next_var()?;
            let vars = block_vars(source, (local, other), vars.as_slice(), (hidden, end))?;
            let kind = StmtKind::Block {
                vars: Sequence::from_vec(vars),
                body: Sequence::from_vec(list),
            };
            out.push_stmt(kind, s.pos)
        }
        _ => unreachable!(),
    }
}

fn numbers_below(alloc: Global, n: u32) -> Result<Vec<u32>, NoMemory>
    ensures { IfOk result (λ v. v.items ≡ numbers_from 0 n) }
{
    let mut list = Vec::new(alloc);
    add_numbers(&mut list, 0, n)?;
    Ok(list)
}

/// A function as it is run. Its variables are taken out of what was made.
pub(crate) fn function(whole: &Whole<'_>, f: &FunDef, out: &mut Made) -> Result<FunDef, NoMemory>
    requires { HasBody whole.now.program.now f.now }
    ensures { IfOk result (IsFunction whole.now (written_routine whole.now f.now) out.old out.new) }
{
    let Standing {
        before,
        copied,
        numbers,
        vars,
    } = named(whole, f)?;
    let source = Source {
        alloc: whole.alloc,
        program: whole.program,
        types: whole.types,
        names: whole.names,
        numbers: numbers.as_slice(),
    };
    out.vars = vars;
    let body = body(&source, f, before, copied, out)?;
    let written = count(f.params.as_slice().len())?;
    let params = sum(written, before)?;
    let params = numbers_below(whole.alloc, params)?;
    let of = whole.types.number(f.of);
    let vars = std::mem::replace(&mut out.vars, Vec::new(whole.alloc));
    Ok(FunDef {
        name: f.name,
        pos: f.pos,
        of,
        params: Sequence::from_vec(params),
        vars: Sequence::from_vec(vars),
        body,
    })
}
