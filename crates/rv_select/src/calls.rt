//! Calls and returns.
ghost use Rattle.std.specs.Prelude.{◌≡◌, true, false, [], ◌∷◌, ◌++◌, ◌+◌, ◌-◌, ◌*◌, ◌≤◌, ◌<◌, min, length};
ghost use Rattle.std.specs.Prelude.{OnOk, IfOk, vec_len};
ghost use Rattle.purecap_abi.specs.Saving.{IsFor};
ghost use Rattle.tac_ir.specs.Temps.{in_option};
ghost use Rattle.select_words.specs.Calling.{FindsEntry};
ghost use Rattle.select_words.specs.Returning.{ReturnWords};
ghost use Rattle.select_words.specs.Services.{Argument};
ghost use Rattle.tac_ir.specs.declared.code.TacInstr.TheVariants.{Call};
ghost use Rattle.rv_select.specs.Choosing.{chosen, Chooses, ChoosesSome};
ghost use Rattle.rv_select.specs.Noting.{noting, Selects};
ghost use Rattle.rv_select.specs.Selected.{AreAside, CallsThrough};
ghost use Rattle.select_words.specs.Entries.{ForEach, stack_place};
ghost use Rattle.select_words.specs.Passing.{ArgumentWords, StackedWords, IsPassing};
ghost use Rattle.rv_select.specs.Passed.{StandsAside, ChoosesArguments, AreChosen, ArePlaced};
ghost use Rattle.rv_emit.specs.Growing.{Grows, Extends, Puts, reach, room};
ghost use Rattle.tac_ir.specs.Costs.{places_cost};

use crate::function::{Entries, Function};
use crate::homes::{Place, bring, keep_some, operand, register};
use ck_base::{NoMemory, Pos};
use rv_emit::{Code, instructions as instr};
use rv_idioms::{Move, left, move_all, right, table_entry, way};
use rv_instr::Reg;
use std::alloc::Global;

/// Whether a register is one of c10 to c17, in which arguments stand.
fn is_argument(number: u8) -> bool
    ensures { result ≡ true → IsPassing number }
{
    number >= 10 && number < 18
}

/// A temp that comes to the register of an argument from elsewhere.
#[derive(Clone, Copy)]
struct Bring {
    to: Reg,
    temp: u32,
}

/// How the first eight arguments come to their registers: moves between these, and then what stands elsewhere.
#[derive(Drop)]
struct Placed {
    moves: Vec<Move>,
    others: Vec<Bring>,
}

/// How one of the first eight arguments comes to its register.
fn place_argument(f: &Function<'_>, all: &mut Placed, to: Reg, temp: u32) -> Result<(), NoMemory>
    ensures count { OnOk result (vec_len all.new.moves + vec_len all.new.others
        ≡ vec_len all.old.moves + vec_len all.old.others + 1) }
    ensures moves { OnOk result (StandsAside f.now temp → all.new.moves.items ≡ all.old.moves.items) }
    ensures others { OnOk result (StandsAside f.now temp →
        all.new.others.items ≡ all.old.others.items ++ record { to = to; temp = temp } ∷ []) }
    ensures chosen { OnOk result (0 < to → Chooses f.now temp →
        AreChosen f.now all.old.others.items → AreChosen f.now all.new.others.items) }
{
    match f.place(temp) {
        Place::Register(from) if is_argument(from) => all.moves.push(Move {
            from: register(from),
            to,
        })?,
        _ => all.others.push(Bring { to, temp })?,
    }
    Ok(())
}

/// How the first eight arguments come to their registers.
fn arguments_of(alloc: Global, f: &Function<'_>, args: &[u32]) -> Result<Placed, NoMemory>
    ensures few { IfOk result (λ all. vec_len all.moves + vec_len all.others ≤ min (length args.now) 8) }
    ensures chosen { IfOk result (λ all. ChoosesArguments f.now args.now → AreChosen f.now all.others.items) }
    ensures placed { IfOk result (λ all. ChoosesArguments f.now args.now → AreAside (chosen f.now) args.now →
        ArePlaced args.now (min (length args.now) 8) all) }
{
    let mut all = Placed {
        moves: Vec::new(alloc),
        others: Vec::new(alloc),
    };
    for k in 0u8..8 {
        if let Some(t) = args.get(k as usize) {
            place_argument(f, &mut all, purecap_abi::argument(k), *t)?;
        }
    }
    Ok(all)
}

/// Stores the arguments past eight, in at most six words each.
fn stack_arguments(code: &mut Code, f: &Function<'_>, args: &[u32]) -> Result<(), NoMemory>
    ensures size { OnOk result (Grows (6 * (length args.now - 8)) code.old code.new) }
    ensures words { OnOk result (ChoosesArguments f.now args.now →
        Puts (ForEach (StackedWords (chosen f.now) args.now) 8 (length args.now - 8)) code.old code.new) }
{
    for k in 8..args.len() {
        let r = operand(code, f, args[k], left())?;
        code.store_far(r, Reg::STACK, stack_place(k), right())?;
    }
    Ok(())
}

/// Where an argument past eight stands, in bytes from the caller's stack address.
pub fn stack_place(k: usize) -> u64
    ensures { 8 ≤ k → k ≤ 4194304 → result ≡ stack_place k }
{
    if k >= 8 && k <= 4194304 {
        purecap_abi::stack_argument(k as u64)
    } else {
        16
    }
}

/// Brings the arguments to where they stand: at most three words for each of the first eight, and six for the others.
fn arguments(alloc: Global, code: &mut Code, f: &Function<'_>, args: &[u32]) -> Result<(), NoMemory>
    ensures size { OnOk result (Grows (places_cost (length args.now)) code.old code.new) }
    ensures words { OnOk result (ChoosesArguments f.now args.now →
        Puts (λ ws. AreAside (chosen f.now) args.now → ArgumentWords (chosen f.now) args.now ws) code.old code.new) }
{
    stack_arguments(code, f, args)?;
    let Placed { moves, others } = arguments_of(alloc, f, args)?;
    move_all(code, moves, left())?;
    for other in &others {
        bring(code, f, other.to, other.temp)?;
    }
    Ok(())
}

/// Brings the sentry of a function from the table to c31.
pub fn find(code: &mut Code, table: Entries, fun: u32) -> Result<(), NoMemory>
    ensures size { OnOk result (Grows 3 code.old code.new) }
    ensures words { let entry = table.functions + fun in
        OnOk result (16 * entry < reach → Puts (FindsEntry entry) code.old code.new) }
{
    table_entry(code, way(), table.functions.saturating_add(u64::from(fun)))
}

/// A call of a function that a jump reaches.
fn near_call(
    alloc: Global,
    code: &mut Code,
    f: &Function<'_>,
    to: Option<u32>,
    fun: u32,
    args: &[u32],
) -> Result<(), NoMemory>
    requires { code.old.links.far ≡ false }
    ensures size { OnOk result (Extends (4 + places_cost (length args.now)) code.old code.new) }
    ensures words { OnOk result (ChoosesArguments f.now args.now → ChoosesSome f.now to →
        Selects (chosen f.now) (Call to fun args.now) code.old code.new) }
{
    arguments(alloc, code, f, args)?;
    code.call(fun)?;
    keep_some(code, f, to, Reg::RESULT)
}

/// A call of a function by its sentry.
fn far_call(
    alloc: Global,
    code: &mut Code,
    f: &Function<'_>,
    to: Option<u32>,
    fun: u32,
    args: &[u32],
) -> Result<(), NoMemory>
    ensures size { OnOk result (Grows (7 + places_cost (length args.now)) code.old code.new) }
    ensures words { OnOk result (ChoosesArguments f.now args.now → ChoosesSome f.now to →
        16 * (f.now.entries.functions + fun) < reach →
        Selects (chosen f.now) (Call to fun args.now) code.old code.new) }
{
    find(code, f.entries, fun)?;
    arguments(alloc, code, f, args)?;
    code.put(instr::jump_through(Reg::LINK, way()))?;
    keep_some(code, f, to, Reg::RESULT)
}

/// A call of a function.
pub fn call(
    alloc: Global,
    code: &mut Code,
    f: &Function<'_>,
    to: Option<u32>,
    fun: u32,
    args: &[u32],
) -> Result<(), NoMemory>
    ensures size { OnOk result (Extends (7 + places_cost (length args.now)) code.old code.new) }
    ensures words { OnOk result (ChoosesArguments f.now args.now → ChoosesSome f.now to →
        16 * (f.now.entries.functions + fun) < reach →
        Selects (chosen f.now) (Call to fun args.now) code.old code.new) }
{
    if code.is_far() {
        return far_call(alloc, code, f, to, fun, args);
    }
    near_call(alloc, code, f, to, fun, args)
}

/// What is called, and from where in the source.
#[derive(Clone, Copy)]
pub struct Callee {
    pub value: u32,
    pub pos: Pos,
}

/// A call through a value, which comes to c31.
pub fn call_value(
    alloc: Global,
    code: &mut Code,
    f: &Function<'_>,
    to: Option<u32>,
    callee: Callee,
    args: &[u32],
) -> Result<(), NoMemory>
    requires { code.old.words + (7 + places_cost (length args.now)) ≤ room }
    ensures size { OnOk result (Extends (7 + places_cost (length args.now)) code.old code.new) }
    ensures words { let traps = (noting code.old code.new).Traps in
        OnOk result (Chooses f.now callee.value → ChoosesArguments f.now args.now → ChoosesSome f.now to →
        Puts (CallsThrough (λ n. traps n callee.pos) (chosen f.now) to callee.value args.now) code.old code.new) }
{
    bring(code, f, way(), callee.value)?;
    arguments(alloc, code, f, args)?;
    code.put_at(instr::jump_through(Reg::LINK, way()), callee.pos, 0)?;
    keep_some(code, f, to, Reg::RESULT)
}

/// Brings the value that is returned to c10, where there is one.
fn bring_result(code: &mut Code, f: &Function<'_>, value: Option<u32>) -> Result<(), NoMemory>
    ensures size { OnOk result (Grows 3 code.old code.new) }
    ensures words { OnOk result (ChoosesSome f.now value →
        Puts (Argument (chosen f.now) (in_option value)) code.old code.new) }
{
    match value {
        None => Ok(()),
        Some(t) => bring(code, f, Reg::RESULT, t),
    }
}

/// A return, with the value in c10.
pub fn leave(
    alloc: Global,
    code: &mut Code,
    f: &Function<'_>,
    value: Option<u32>,
) -> Result<(), NoMemory>
    requires { IsFor f.now.places.now.homes f.now.frame.now }
    ensures size { OnOk result (Grows 24 code.old code.new) }
    ensures words { OnOk result (ChoosesSome f.now value →
        Puts (ReturnWords (chosen f.now) value) code.old code.new) }
{
    bring_result(code, f, value)?;
    let end = purecap_abi::epilogue(alloc, f.frame, f.places)?;
    code.put_all(end.as_slice())
}
