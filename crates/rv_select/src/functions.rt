//! The code of a function.
ghost use Rattle.std.specs.Prelude.{◌≡◌, ◌++◌, ◌+◌, ◌-◌, ◌*◌, ◌≤◌, ◌<◌, min, length, OnOk, vec_len};
ghost use Rattle.std.specs.List.{All};
ghost use Rattle.purecap_abi.specs.Words.{IsPlainWord};
ghost use Rattle.purecap_abi.specs.Saving.{IsFor};
ghost use Rattle.tac_ir.specs.Costs.{cost, function_cost, places_cost};
ghost use Rattle.purecap_abi.specs.Ends.{before_store, prologue_code};
ghost use Rattle.select_words.specs.Entries.{ForEach, StackWords, ParameterWords};
ghost use Rattle.rv_select.specs.Choosing.{chosen};
ghost use Rattle.rv_select.specs.Following.{IsBetween, FunctionIsPut};
ghost use Rattle.rv_emit.specs.Growing.{Grows, Extends, Enters, Puts, entering, trapping, room};
ghost use Rattle.rv_select.specs.Noting.{Selects};
ghost use Rattle.rv_select.specs.Parameters.{TakesParameter, TakesParameters, Settles, AreSettled, IsLoadedTo};
ghost use Rattle.rv_select.specs.Suiting.{Suits, AllSuit, Computes, Points, Touches, Leads};

use crate::calls::{Callee, call, call_value, leave, stack_place};
use crate::comparisons::{branch, comparison};
use crate::conversions::conversion;
use crate::function::Function;
use crate::homes::{Place, keep, register};
use crate::memory::{
    Ends, capability, copy_units, function, global, load, local, narrow, offset, store, zero,
};
use crate::operations::{constant, copy, integer};
use crate::services::service;
use ck_base::{NoMemory, Pos};
use rv_emit::Code;
use rv_idioms::{Move, count, left, move_all, right};
use rv_instr::{Instr, Reg};
use std::alloc::Global;
use tac_ir::{TacFun, TacInstr};

/// What computes with numbers alone.
fn computation(code: &mut Code, f: &Function<'_>, i: &TacInstr) -> Result<(), NoMemory>
    requires { Computes i.now }
    ensures size { OnOk result (Grows (cost i.now) code.old code.new) }
    ensures words { OnOk result (Suits f.now i.now → Selects (chosen f.now) i.now code.old code.new) }
{
    match i {
        TacInstr::Const { to, value, .. } => constant(code, f, *to, *value),
        TacInstr::Copy { to, from } => copy(code, f, *to, *from),
        TacInstr::Int { op, kind, to, a, b } => integer(code, f, *op, *kind, *to, *a, *b),
        TacInstr::Cmp { op, kind, to, a, b } => comparison(code, f, *op, *kind, *to, *a, *b),
        TacInstr::Convert { to, from, old, new } => conversion(code, f, *to, *from, *old, *new),
        _ => Ok(()),
    }
}

/// What makes capabilities.
fn capabilities(code: &mut Code, f: &Function<'_>, i: &TacInstr) -> Result<(), NoMemory>
    requires { Points i.now }
    ensures size { OnOk result (Grows (cost i.now) code.old code.new) }
    ensures words { OnOk result (Suits f.now i.now → Selects (chosen f.now) i.now code.old code.new) }
{
    match i {
        TacInstr::Cap { op, to, a, b } => capability(code, f, *op, *to, *a, *b),
        TacInstr::Offset { to, base, by } => offset(code, f, *to, *base, *by),
        TacInstr::Narrow {
            to,
            base,
            length,
            exact,
        } => narrow(code, f, *to, *base, *length, *exact),
        TacInstr::Local { to, var } => local(code, f, *to, *var),
        TacInstr::Global {
            to,
            number,
            literal,
        } => global(code, f, *to, *number, *literal),
        TacInstr::Function { to, fun } => function(code, f, *to, *fun),
        _ => Ok(()),
    }
}

/// What reads and writes memory.
fn access(code: &mut Code, f: &Function<'_>, i: &TacInstr) -> Result<(), NoMemory>
    requires touches { Touches i.now }
    requires room { code.old.words + cost i.now ≤ room }
    ensures size { OnOk result (Extends (cost i.now) code.old code.new) }
    ensures words { OnOk result (Suits f.now i.now → Selects (chosen f.now) i.now code.old code.new) }
{
    match i {
        TacInstr::Load {
            to,
            from,
            kind,
            pos,
        } => load(code, f, *to, *from, *kind, *pos),
        TacInstr::Store {
            at,
            value,
            kind,
            pos,
        } => store(code, f, *at, *value, *kind, *pos),
        TacInstr::Zero { var } => zero(code, f, *var),
        TacInstr::CopyUnits {
            from,
            to,
            bytes,
            unit,
            from_pos,
            to_pos,
        } => {
            let ends = Ends {
                from: *from,
                to: *to,
                from_pos: *from_pos,
                to_pos: *to_pos,
            };
            copy_units(code, f, ends, *bytes, *unit)
        }
        _ => Ok(()),
    }
}

/// What leads elsewhere.
fn control(alloc: Global, code: &mut Code, f: &Function<'_>, i: &TacInstr) -> Result<(), NoMemory>
    requires leads { Leads i.now }
    requires framed { IsFor f.now.places.now.homes f.now.frame.now }
    requires room { code.old.words + cost i.now ≤ room }
    ensures size { OnOk result (Extends (cost i.now) code.old code.new) }
    ensures words { OnOk result (Suits f.now i.now → Selects (chosen f.now) i.now code.old code.new) }
{
    match i {
        TacInstr::Label(label) => code.label(*label),
        TacInstr::Jump(label) => code.jump(*label),
        TacInstr::Branch { on, when, label } => branch(code, f, *on, *when, *label),
        TacInstr::Call { to, fun, args } => call(alloc, code, f, *to, *fun, args.as_slice()),
        TacInstr::CallValue {
            to,
            value,
            args,
            pos,
            ..
        } => {
            let callee = Callee {
                value: *value,
                pos: *pos,
            };
            call_value(alloc, code, f, *to, callee, args.as_slice())
        }
        TacInstr::Lib { op, to, args } => service(code, f, *op, *to, args.as_slice()),
        TacInstr::Return(value) => leave(alloc, code, f, *value),
        _ => Ok(()),
    }
}

/// The code of an instruction.
fn instruction(
    alloc: Global,
    code: &mut Code,
    f: &Function<'_>,
    i: &TacInstr,
) -> Result<(), NoMemory>
    requires framed { IsFor f.now.places.now.homes f.now.frame.now }
    requires room { code.old.words + cost i.now ≤ room }
    ensures size { OnOk result (Extends (cost i.now) code.old code.new) }
    ensures words { OnOk result (Suits f.now i.now → Selects (chosen f.now) i.now code.old code.new) }
{
    match i {
        TacInstr::Const { .. }
        | TacInstr::Copy { .. }
        | TacInstr::Int { .. }
        | TacInstr::Cmp { .. }
        | TacInstr::Convert { .. } => computation(code, f, i),
        TacInstr::Cap { .. }
        | TacInstr::Offset { .. }
        | TacInstr::Narrow { .. }
        | TacInstr::Local { .. }
        | TacInstr::Global { .. }
        | TacInstr::Function { .. } => capabilities(code, f, i),
        TacInstr::Load { .. }
        | TacInstr::Store { .. }
        | TacInstr::Zero { .. }
        | TacInstr::CopyUnits { .. } => access(code, f, i),
        _ => control(alloc, code, f, i),
    }
}

/// The words of a prologue, at the first of which the function is entered, with the line of its first store.
fn prologue(code: &mut Code, words: &[Instr], first: usize, name: Pos) -> Result<(), NoMemory>
    requires behind { 0 < first }
    requires inside { first < length words.now }
    requires plain { All IsPlainWord words.now }
    requires room { code.old.words + length words.now ≤ room }
    ensures size { OnOk result (Enters (length words.now) code.old code.new) }
    ensures text { OnOk result (code.new.text ≡ code.old.text ++ words.now) }
    ensures links { OnOk result
        (code.new.links ≡ trapping (entering code.old) (length code.old.text + first) name 1) }
{
    code.enter(words[0])?;
    for k in 1..words.len() {
        if k == first {
            code.put_at(words[k], name, 1)?;
        } else {
            code.put(words[k])?;
        }
    }
    Ok(())
}

/// The prologue, with the line of its first store.
fn begin(alloc: Global, code: &mut Code, f: &Function<'_>, name: Pos) -> Result<(), NoMemory>
    requires framed { IsFor f.now.places.now.homes f.now.frame.now }
    requires room { code.old.words + 27 ≤ room }
    ensures size { OnOk result (Enters 27 code.old code.new) }
    ensures text { OnOk result
        (code.new.text ≡ code.old.text ++ prologue_code f.now.places.now.homes f.now.frame.now) }
    ensures links { OnOk result (code.new.links
        ≡ trapping (entering code.old) (length code.old.text + length (before_store f.now.frame.now)) name 1) }
{
    let words = purecap_abi::prologue(alloc, f.frame, f.places)?;
    prologue(
        code,
        words.as_slice(),
        purecap_abi::first_store(f.frame) as usize,
        name,
    )
}

/// Stores the parameter of a register whose home is a slot, or notes its move to another register.
fn register_parameter(
    code: &mut Code,
    f: &Function<'_>,
    k: u8,
    moves: &mut Vec<Move>,
) -> Result<(), NoMemory>
    requires { k < 8 }
    ensures kept { OnOk result (code.old.words ≤ code.new.words) }
    ensures few { OnOk result (code.new.words + 2 * vec_len moves.new ≤ code.old.words + 2 * vec_len moves.old + 3) }
    ensures links { OnOk result (code.new.links ≡ code.old.links) }
    ensures words { OnOk result (TakesParameter f.now k →
        Puts (Settles (chosen f.now) k moves.old.items moves.new.items) code.old code.new) }
{
    let from = purecap_abi::argument(k);
    match f.home(u32::from(k)) {
        Place::Register(to) if to == from.number() => Ok(()),
        Place::Register(to) => {
            moves.push(Move {
                from,
                to: register(to),
            })?;
            Ok(())
        }
        Place::Slot(at) => code.store_far(from, Reg::STACK, at, right()),
        Place::Number(_) => Ok(()),
    }
}

/// Stores the parameters of registers whose homes are slots, and notes the moves of the others.
fn register_parameters(
    code: &mut Code,
    f: &Function<'_>,
    params: u32,
    moves: &mut Vec<Move>,
) -> Result<(), NoMemory>
    requires { vec_len moves.old ≤ 0 }
    ensures kept { OnOk result (code.old.words ≤ code.new.words) }
    ensures few { OnOk result (code.new.words + 2 * vec_len moves.new ≤ code.old.words + 3 * min params 8) }
    ensures links { OnOk result (code.new.links ≡ code.old.links) }
    ensures words { OnOk result (TakesParameters f.now params →
        Puts (AreSettled (chosen f.now) (min params 8) moves.new.items) code.old code.new) }
{
    let count = params.min(8) as u8;
    for k in 0..count {
        register_parameter(code, f, k, moves)?;
    }
    Ok(())
}

/// The register to which a parameter past eight is loaded.
fn loaded_to(f: &Function<'_>, k: u32) -> Reg
    ensures { TakesParameter f.now k → IsLoadedTo (chosen f.now) k result }
{
    match f.home(k) {
        Place::Register(r) => register(r),
        _ => count(),
    }
}

/// Brings a parameter past eight from the caller's frame, whose address is in c28, to its home.
fn stack_parameter(code: &mut Code, f: &Function<'_>, k: u32) -> Result<(), NoMemory>
    ensures size { OnOk result (Grows 6 code.old code.new) }
    ensures words { OnOk result (8 ≤ k → k ≤ 4194304 → TakesParameter f.now k →
        Puts (StackWords (chosen f.now) k) code.old code.new) }
{
    let r = loaded_to(f, k);
    code.load_far(r, left(), stack_place(k as usize), right())?;
    keep(code, f, k, r)
}

/// Brings the parameters past eight to their homes.
fn stack_parameters(code: &mut Code, f: &Function<'_>, params: u32) -> Result<(), NoMemory>
    ensures size { OnOk result (Grows (6 * (params - 8)) code.old code.new) }
    ensures words { OnOk result (TakesParameters f.now params →
        Puts (ForEach (StackWords (chosen f.now)) 8 (params - 8)) code.old code.new) }
{
    for k in 8..params {
        stack_parameter(code, f, k)?;
    }
    Ok(())
}

/// Brings the parameters to their homes. c28 keeps the caller's stack address until the last is read.
fn parameters(alloc: Global, code: &mut Code, f: &Function<'_>, params: u32) -> Result<(), NoMemory>
    ensures size { OnOk result (Grows (places_cost params) code.old code.new) }
    ensures words { OnOk result
        (TakesParameters f.now params → Puts (ParameterWords (chosen f.now) params) code.old code.new) }
{
    let mut moves = Vec::new(alloc);
    register_parameters(code, f, params, &mut moves)?;
    move_all(code, moves, count())?;
    stack_parameters(code, f, params)
}

/// The code of a function.
pub fn select_function(
    alloc: Global,
    code: &mut Code,
    f: &Function<'_>,
    t: &TacFun,
) -> Result<(), NoMemory>
    requires framed { IsFor f.now.places.now.homes f.now.frame.now }
    requires room { code.old.words + function_cost t.now ≤ room }
    ensures size { OnOk result (Enters (function_cost t.now) code.old code.new) }
    ensures put { OnOk result (IsBetween code.old → AllSuit f.now t.now.code → TakesParameters f.now t.now.params
        → function_cost t.now < 262144 → FunctionIsPut (chosen f.now) f.now.frame.now t.now code.old code.new) }
{
    code.counted();
    begin(alloc, code, f, t.name)?;
    parameters(alloc, code, f, t.params)?;
    let all = t.code.as_slice();
    for i in all {
        instruction(alloc, code, f, i)?;
    }
    code.counted();
    code.lead_to_labels()
}
