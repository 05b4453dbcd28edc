//! The bodies of functions (C11 6.9.1).

ghost use Rattle.std.specs.Prelude.{◌≡◌, true, Some, None, Ok, ◌+◌, ◌<◌, ◌∷◌, ◌++◌, [], All, IfOk, OnOk, length, map};
ghost use Rattle.std.specs.Prelude.{slice_get, slice_set, ◌&&◌, not};
ghost use Rattle.c_tree.specs.Syntax.{Syn};
ghost use Rattle.c_tree.specs.Programs.{first_incomplete};
ghost use Rattle.c_tree.specs.Scopes.{State, RoutineState};
ghost use Rattle.c_expressions.specs.Nodes.{IsWhole};
ghost use Rattle.c_elaborator.specs.Work.{Shows};
ghost use Rattle.c_elaborator.specs.Answers.{Answers, freely, NothingThere, IsNothing, action_in, action_count};
ghost use Rattle.c_elaborator.specs.Parts.{IsPart};
ghost use Rattle.c_readings.specs.Within.{PartWithin};
ghost use Rattle.c_declarators.specs.Forming.{ParamIsThere};
ghost use Rattle.c_declarators.specs.Parts.{IsPrototype, param_in, shown_in};
ghost use Rattle.c_elaborator.specs.Items.{ContextThere, context_in, ItemsThere, items_in};
ghost use Rattle.c_elaborator.specs.Shown.{AnswersFor};
ghost use Rattle.c_elab.specs.Functions.{AreMarked, VariableThere, variable_in, variable_seen, variables_from, ends};
ghost use Rattle.c_elab.specs.Functions.{finishes, types_body, defines};

use crate::parameters::open_body;
use c_declarators::{Param, Prototype};
use c_elaborator::{Context, Definition, Items, Work, add_statement};
use c_plain_rules::{context_of, numbers_below};
use c_readings::node_at;
use c_statements::all_items;
use c_tree::{StmtKind, VarDef};
use ck_base::{INCOMPLETE_TYPE, NoMemory, Pos, Refusal, Sequence};
use std::alloc::Global;

// ---- the variables

fn no_marks(alloc: Global, n: usize) -> Result<Vec<bool>, NoMemory>
    ensures marks { IfOk result (λ t. AreMarked [] t.items) }
    ensures count { IfOk result (λ t. length t.items ≡ n) }
{
    let mut marks = Vec::new(alloc);
    for made in 0..n {
        marks.push(false)?;
    }
    Ok(marks)
}

fn mark(marks: &mut Vec<bool>, k: u32)
    ensures marks { marks.new.items ≡ slice_set marks.old.items k true }
    ensures count { length marks.new.items ≡ length marks.old.items }
{
    let at = k as usize;
    if at < marks.len() {
        marks[at] = true;
    }
}

// For each of the first locals, as many as are wanted, whether its address is taken.
fn marks_of(work: &Work<'_>, n: usize) -> Result<Vec<bool>, NoMemory>
    ensures marks { IfOk result (λ t. AreMarked work.now.addressed.items t.items) }
    ensures count { IfOk result (λ t. length t.items ≡ n) }
{
    let mut marks = no_marks(work.nodes.alloc, n)?;
    for k in work.addressed.as_slice() {
        mark(&mut marks, *k);
    }
    Ok(marks)
}

fn is_taken(marks: &[bool], k: u32) -> bool
    requires { k < length marks.now }
    ensures { slice_get marks.now k ≡ Some result }
{
    match marks.get(k as usize).copied() {
        Some(b) => b,
        None => unreachable!(),
    }
}

fn is_simple(scalar: bool, taken: bool) -> bool
    ensures { result ≡ (scalar && not taken) }
{
    scalar && !taken
}

// A local holds a value and is no object where it is a scalar whose address is never taken.
fn variable(work: &Work<'_>, marks: &[bool], k: u32, v: VarDef) -> VarDef
    requires whole { IsWhole work.now.nodes }
    requires marks { AreMarked work.now.addressed.items marks.now }
    requires marked { k < length marks.now }
    ensures there { VariableThere work.now result }
    ensures is { variable_seen work.now result ≡ variable_seen work.now (variable_in work.now k v) }
{
    let of = work.there(v.of);
    let scalar = work.nodes.is_scalar(work.nodes.bare(of));
    let taken = is_taken(marks, k);
    VarDef {
        name: v.name,
        pos: v.pos,
        of,
        simple: is_simple(scalar, taken),
    }
}

fn push_variable(all: &mut Vec<VarDef>, x: VarDef) -> Result<(), NoMemory>
    ensures { OnOk result (all.new.items ≡ all.old.items ++ x ∷ []) }
{
    all.push(x)?;
    Ok(())
}

fn after(k: u32) -> Result<u32, NoMemory>
    ensures { IfOk result (λ n. n ≡ k + 1) }
{
    k.checked_add(1).ok_or(NoMemory)
}

// All locals of the function.
fn variables(work: &Work<'_>, locals: &[VarDef]) -> Result<Vec<VarDef>, NoMemory>
    requires { IsWhole work.now.nodes }
    ensures there { IfOk result (λ xs. All (VariableThere work.now) xs.items) }
    ensures are { IfOk result (λ xs. map (variable_seen work.now) xs.items
        ≡ map (variable_seen work.now) (variables_from work.now 0 locals.now)) }
{
    let marks = marks_of(work, locals.len())?;
    let mut all = Vec::new(work.nodes.alloc);
    let mut k: u32 = 0;
    for v in locals {
        let x = variable(work, marks.as_slice(), k, *v);
        push_variable(&mut all, x)?;
        let next = after(k)?;
        k = next;
    }
    Ok(all)
}

// ---- the end of a body

// A later definition stands behind the others.
fn add_definition(definitions: &mut Vec<Definition>, d: Definition) -> Result<(), NoMemory>
    ensures { OnOk result (definitions.new.items ≡ definitions.old.items ++ d ∷ []) }
{
    definitions.push(d)?;
    Ok(())
}

// The scope of a body is left, where there is no function that it is of.
fn leave_body(work: &mut Work<'_>, k: u32, count: u32, body: u32)
    requires whole { IsWhole work.old.nodes }
    requires none { (s : State) → Shows work.old s → slice_get s.routines k ≡ None }
    ensures { Answers freely work.old work.new (ends k count (action_in work.old body)) NothingThere IsNothing (Ok tt) }
{
    let _ = work.nodes.scopes.take_locals();
    work.addressed.clear();
    work.nodes.scopes.leave();
}

// A statement and the locals are a function's body, and its scope is left.
fn define_end(work: &mut Work<'_>, k: u32, count: u32, body: u32) -> Result<(), Refusal>
    requires whole { IsWhole work.old.nodes }
    requires there { body < action_count work.old }
    requires known { (s : State) → Shows work.old s → (f : RoutineState) × (slice_get s.routines k ≡ Some f) }
    ensures { Answers freely work.old work.new (ends k count (action_in work.old body)) NothingThere IsNothing result }
{
    let params = numbers_below(work.nodes.alloc, count)?;
    let locals = work.nodes.scopes.take_locals();
    let vars = variables(work, locals.as_slice())?;
    let definition = Definition {
        function: k,
        params,
        vars,
        body,
    };
    add_definition(&mut work.definitions, definition)?;
    work.addressed.clear();
    work.nodes.scopes.leave();
    Ok(())
}

// The end of the body of a function.
fn end_body(work: &mut Work<'_>, k: u32, count: u32, body: u32) -> Result<(), Refusal>
    requires whole { IsWhole work.old.nodes }
    requires there { body < action_count work.old }
    ensures { Answers freely work.old work.new (ends k count (action_in work.old body)) NothingThere IsNothing result }
{
    match work.function_type(k) {
        None => {
            leave_body(work, k, count, body);
            Ok(())
        }
        Some(_) => define_end(work, k, count, body),
    }
}

// What stands in the braces is one statement at the first byte of the block.
fn finish_body(
    work: &mut Work<'_>,
    k: u32,
    count: u32,
    items: Items,
    first: Pos,
) -> Result<(), Refusal>
    requires whole { IsWhole work.old.nodes }
    requires items { ItemsThere work.old items }
    ensures { Answers freely work.old work.new
        (finishes k count (items_in work.old items) first) NothingThere IsNothing result }
{
    let kind = StmtKind::Block {
        vars: Sequence::from_vec(items.vars),
        body: Sequence::from_vec(items.actions),
    };
    let body = add_statement(work, kind, first)?;
    end_body(work, k, count, body)
}

// ---- a body

// The statements of a body whose parameters are in force.
fn type_body(
    work: &mut Work<'_>,
    k: u32,
    context: Context,
    count: u32,
    block: u32,
    depth: u32,
) -> Result<(), Refusal>
    requires whole { IsWhole work.old.nodes }
    requires context { ContextThere work.old context }
    requires part { PartWithin work.old depth block }
    ensures { (z : Syn) → IsPart work.old block z →
        Answers freely work.old work.new (types_body k count (context_in work.old context) z) NothingThere IsNothing
        result }
{
    let node = node_at(work, block);
    let items = all_items(work, context, node.kids.as_slice(), depth)?;
    finish_body(work, k, count, items, node.first)
}

// The place of the first parameter whose type is not complete.
fn first_incomplete(work: &Work<'_>, params: &[Param]) -> Option<Pos>
    ensures { (s : State) → Shows work.now s → result ≡ first_incomplete s.tags (map (param_in work.now) params.now) }
{
    for param in params {
        if !work.nodes.scopes.is_complete(&work.nodes.p, param.of) {
            return Some(param.at.pos);
        }
    }
    None
}

fn count_of(params: &[Param]) -> Result<u32, NoMemory>
    ensures { IfOk result (λ n. n ≡ length params.now) }
{
    u32::try_from(params.len()).map_err(|_| NoMemory)
}

/// The parameters and the body of a function whose definition was begun.
pub(crate) fn define_body<'a>(
    work: &mut Work<'a>,
    k: u32,
    p: Prototype<'a>,
    block: u32,
    depth: u32,
) -> Result<(), Refusal>
    requires whole { IsWhole work.old.nodes }
    requires there { All (ParamIsThere work.old.nodes) p.params.items }
    requires part { PartWithin work.old depth block }
    ensures { (z : Syn) → IsPart work.old block z →
        AnswersFor freely work.old work.new (λ s q. IsPrototype (shown_in work.old s) work.old p.entry q)
        (λ q. defines k q z) NothingThere IsNothing result }
{
    let count = count_of(p.params.as_slice())?;
    let context = context_of(work, k);
    if let Some(place) = first_incomplete(work, p.params.as_slice()) {
        return Err(Refusal::Code(INCOMPLETE_TYPE, place));
    }
    open_body(work, p)?;
    type_body(work, k, context, count, block, depth)
}
