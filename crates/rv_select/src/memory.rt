//! Capabilities, objects, and what is loaded, stored and copied.
ghost use Rattle.std.specs.Prelude.{◌≡◌, ◌+◌, ◌-◌, ◌*◌, ◌^◌, ◌/◌, ◌≤◌, ◌<◌, length, pos};
ghost use Rattle.std.specs.Prelude.{OnOk, IfOk, IfSome, if◌then◌else◌};
ghost use Rattle.cap_machine.specs.Integers.{extended};
ghost use Rattle.rv_instr.specs.Range.{FitsBits};
ghost use Rattle.rv_instr.specs.declared.ops.CapRegOp.TheVariants.{Cincoffset};
ghost use Rattle.select_words.specs.Forms.{OfOne, OfTwo, Amounts};
ghost use Rattle.select_words.specs.Accesses.{store_op, load_words};
ghost use Rattle.select_words.specs.Capabilities.{exact_op, OneOfTwo, Seconds, IntrinsicWords, intrinsic_of};
ghost use Rattle.select_words.specs.Capabilities.{Advance, Offsets, EntryWords, LocalWords};
ghost use Rattle.select_words.specs.Zeroing.{ZeroWords};
ghost use Rattle.rv_select.specs.Choosing.{chosen, Chooses, ChoosesSome, ChoosesAmount};
ghost use Rattle.rv_emit.specs.Growing.{Grows, Extends, Puts, reach, room};
ghost use Rattle.rv_select.specs.Noting.{Selects};
ghost use Rattle.rv_select.specs.Objects.{HasObject};
ghost use Rattle.rv_select.specs.Work.{NeverSeals, IsOfForm, IsAmount};
ghost use Rattle.tac_ir.specs.Costs.{amount_cost, load_cost};
ghost use Rattle.tac_ir.specs.declared.code.TacInstr.TheVariants.{Load, Store, CopyUnits};

use crate::function::Function;
use crate::homes::{bring, keep, operand};
use ck_base::{NoMemory, Pos};
use rv_emit::{Code, instructions as instr};
use rv_idioms::{
    copy_loop, copy_unit, left, load_words, number_of, right, store_op, table_entry, zero_object,
};
use rv_instr::{CapGetOp, CapRegOp, Reg};
use tac_ir::{Amount, CapWork, TacKind};

/// The instruction of an intrinsic.
#[derive(Clone, Copy)]
enum Intrinsic {
    OfOne(CapGetOp),
    OfTwo(CapRegOp),
}

fn instruction_of(op: CapWork) -> Intrinsic
    ensures never { NeverSeals result }
    ensures is { IsOfForm (intrinsic_of op) result }
{
    match op {
        CapWork::Base => Intrinsic::OfOne(CapGetOp::Cgetbase),
        CapWork::Offset => Intrinsic::OfOne(CapGetOp::Cgetoffset),
        CapWork::Length => Intrinsic::OfOne(CapGetOp::Cgetlen),
        CapWork::Tag => Intrinsic::OfOne(CapGetOp::Cgettag),
        CapWork::Perms => Intrinsic::OfOne(CapGetOp::Cgetperm),
        CapWork::Clear => Intrinsic::OfOne(CapGetOp::Ccleartag),
        CapWork::SetAddress => Intrinsic::OfTwo(CapRegOp::Csetaddr),
        CapWork::AndPerms => Intrinsic::OfTwo(CapRegOp::Candperm),
        CapWork::EqualExact => Intrinsic::OfTwo(CapRegOp::Csetequalexact),
        CapWork::Rounded => Intrinsic::OfOne(CapGetOp::Crrl),
        CapWork::Mask => Intrinsic::OfOne(CapGetOp::Cram),
    }
}

/// The register of the second operand, where there is one.
fn second(code: &mut Code, f: &Function<'_>, b: Option<u32>) -> Result<Reg, NoMemory>
    ensures size { OnOk result (Grows 3 code.old code.new) }
    ensures words { IfOk result (λ r. ChoosesSome f.now b →
        Puts (λ ws. Seconds (chosen f.now) b ws r) code.old code.new) }
{
    match b {
        None => Ok(Reg::ZERO),
        Some(t) => operand(code, f, t, right()),
    }
}

/// An intrinsic on a capability, or on a length.
pub fn capability(
    code: &mut Code,
    f: &Function<'_>,
    op: CapWork,
    to: u32,
    a: u32,
    b: Option<u32>,
) -> Result<(), NoMemory>
    ensures size { OnOk result (Grows 10 code.old code.new) }
    ensures words { OnOk result (Chooses f.now to → Chooses f.now a → ChoosesSome f.now b →
        Puts (IntrinsicWords (chosen f.now) to a b (intrinsic_of op)) code.old code.new) }
{
    let a = operand(code, f, a, left())?;
    let r = f.target(to);
    match instruction_of(op) {
        Intrinsic::OfOne(op) => code.put(instr::of_one(op, r, a))?,
        Intrinsic::OfTwo(op) => {
            let b = second(code, f, b)?;
            code.put(instr::of_two(op, r, a, b))?;
        }
    }
    keep(code, f, to, r)
}

/// The register that holds an amount.
fn amount(code: &mut Code, f: &Function<'_>, by: Amount) -> Result<Reg, NoMemory>
    ensures size { OnOk result (Grows (amount_cost by - 1) code.old code.new) }
    ensures words { IfOk result (λ b. ChoosesAmount f.now by →
        Puts (λ ws. Amounts (chosen f.now) by ws b) code.old code.new) }
{
    match by {
        Amount::Temp(t) => operand(code, f, t, right()),
        Amount::Number(n) => {
            code.long_number(right(), n)?;
            Ok(right())
        }
    }
}

/// The number that an amount is, where 12 bits of two's complement hold it.
fn short_amount(f: &Function<'_>, by: Amount) -> Option<i32>
    ensures fits { IfSome result (FitsBits 12) }
    ensures is { IfSome result (IsAmount (chosen f.now) by) }
{
    match by {
        Amount::Temp(t) => f.short(t),
        Amount::Number(n) => match i32::try_from(n.cast_signed()) {
            Ok(v) if v >= -2048 && v < 2048 => Some(v),
            _ => None,
        },
    }
}

/// A capability moved by a number of bytes that 12 bits hold.
fn offset_near(
    code: &mut Code,
    f: &Function<'_>,
    to: u32,
    base: u32,
    bytes: i32,
) -> Result<(), NoMemory>
    requires { FitsBits 12 bytes }
    ensures size { OnOk result (Grows 7 code.old code.new) }
    ensures words { OnOk result (Chooses f.now to → Chooses f.now base →
        Puts (OfOne (chosen f.now) to base (Advance (extended bytes))) code.old code.new) }
{
    let a = operand(code, f, base, left())?;
    let r = f.target(to);
    code.put(instr::advance(r, a, bytes))?;
    keep(code, f, to, r)
}

/// A capability moved by what a register holds.
fn offset_far(
    code: &mut Code,
    f: &Function<'_>,
    to: u32,
    base: u32,
    by: Amount,
) -> Result<(), NoMemory>
    ensures size { OnOk result (Grows (6 + amount_cost by) code.old code.new) }
    ensures words { OnOk result (Chooses f.now to → Chooses f.now base → ChoosesAmount f.now by →
        Puts (OfTwo (chosen f.now) to base (Amounts (chosen f.now) by) (OneOfTwo Cincoffset)) code.old code.new) }
{
    let a = operand(code, f, base, left())?;
    let b = amount(code, f, by)?;
    let r = f.target(to);
    code.put(instr::of_two(CapRegOp::Cincoffset, r, a, b))?;
    keep(code, f, to, r)
}

/// A capability moved by bytes.
pub fn offset(
    code: &mut Code,
    f: &Function<'_>,
    to: u32,
    base: u32,
    by: Amount,
) -> Result<(), NoMemory>
    ensures size { OnOk result (Grows (6 + amount_cost by) code.old code.new) }
    ensures words { OnOk result (Chooses f.now to → Chooses f.now base → ChoosesAmount f.now by →
        Puts (Offsets (chosen f.now) to base by) code.old code.new) }
{
    match short_amount(f, by) {
        Some(bytes) => offset_near(code, f, to, base, bytes),
        None => offset_far(code, f, to, base, by),
    }
}

/// How bounds are set.
fn exact_op(exact: bool) -> CapRegOp
    ensures { result ≡ exact_op exact }
{
    if exact {
        CapRegOp::Csetboundsexact
    } else {
        CapRegOp::Csetbounds
    }
}

/// A capability with narrower bounds.
pub fn narrow(
    code: &mut Code,
    f: &Function<'_>,
    to: u32,
    base: u32,
    length: Amount,
    exact: bool,
) -> Result<(), NoMemory>
    ensures size { OnOk result (Grows (6 + amount_cost length) code.old code.new) }
    ensures words { OnOk result (Chooses f.now to → Chooses f.now base → ChoosesAmount f.now length →
        Puts (OfTwo (chosen f.now) to base (Amounts (chosen f.now) length) (OneOfTwo (exact_op exact)))
        code.old code.new) }
{
    let a = operand(code, f, base, left())?;
    let b = amount(code, f, length)?;
    let r = f.target(to);
    code.put(instr::of_two(exact_op(exact), r, a, b))?;
    keep(code, f, to, r)
}

/// A value is loaded.
pub fn load(
    code: &mut Code,
    f: &Function<'_>,
    to: u32,
    from: u32,
    kind: TacKind,
    pos: Pos,
) -> Result<(), NoMemory>
    requires { code.old.words + 7 ≤ room }
    ensures size { OnOk result (Extends (load_cost kind) code.old code.new) }
    ensures words { OnOk result (Chooses f.now to → Chooses f.now from →
        Selects (chosen f.now) (Load to from kind pos) code.old code.new) }
{
    let a = operand(code, f, from, left())?;
    let r = f.target(to);
    load_words(code, kind, r, a, pos)?;
    keep(code, f, to, r)
}

/// A value is stored.
pub fn store(
    code: &mut Code,
    f: &Function<'_>,
    at: u32,
    value: u32,
    kind: TacKind,
    pos: Pos,
) -> Result<(), NoMemory>
    requires { code.old.words + 7 ≤ room }
    ensures size { OnOk result (Extends 7 code.old code.new) }
    ensures words { OnOk result (Chooses f.now at → Chooses f.now value →
        Selects (chosen f.now) (Store at value kind pos) code.old code.new) }
{
    let a = operand(code, f, at, left())?;
    let b = operand(code, f, value, right())?;
    code.put_at(instr::store(store_op(kind), b, a, 0), pos, 0)
}

/// The pointer to a local.
pub fn local(code: &mut Code, f: &Function<'_>, to: u32, var: u32) -> Result<(), NoMemory>
    ensures size { OnOk result (Grows 9 code.old code.new) }
    ensures words { OnOk result (Chooses f.now to → HasObject f.now.frame.now var →
        Puts (LocalWords (chosen f.now) to var) code.old code.new) }
{
    let object = f.object(var);
    let r = f.target(to);
    code.moved(r, Reg::STACK, object.at)?;
    code.number(right(), number_of(object.length))?;
    code.put(instr::of_two(CapRegOp::Csetboundsexact, r, r, right()))?;
    keep(code, f, to, r)
}

/// An entry of the table.
fn entry(code: &mut Code, f: &Function<'_>, to: u32, number: u64) -> Result<(), NoMemory>
    ensures size { OnOk result (Grows 6 code.old code.new) }
    ensures words { OnOk result (Chooses f.now to → 16 * number < reach →
        Puts (EntryWords (chosen f.now) to number) code.old code.new) }
{
    let r = f.target(to);
    table_entry(code, r, number)?;
    keep(code, f, to, r)
}

/// The pointer to a global or to a literal.
pub fn global(
    code: &mut Code,
    f: &Function<'_>,
    to: u32,
    number: u32,
    literal: bool,
) -> Result<(), NoMemory>
    ensures size { OnOk result (Grows 6 code.old code.new) }
    ensures words { let entry = if literal then f.now.entries.literals + number else number in
        OnOk result (Chooses f.now to → 16 * entry < reach →
        Puts (EntryWords (chosen f.now) to entry) code.old code.new) }
{
    let before = if literal { f.entries.literals } else { 0 };
    entry(code, f, to, before.saturating_add(u64::from(number)))
}

/// The sentry of a function.
pub fn function(code: &mut Code, f: &Function<'_>, to: u32, fun: u32) -> Result<(), NoMemory>
    ensures size { OnOk result (Grows 6 code.old code.new) }
    ensures words { OnOk result (Chooses f.now to → 16 * (f.now.entries.functions + fun) < reach →
        Puts (EntryWords (chosen f.now) to (f.now.entries.functions + fun)) code.old code.new) }
{
    entry(
        code,
        f,
        to,
        f.entries.functions.saturating_add(u64::from(fun)),
    )
}

/// The bytes of a local become zero.
pub fn zero(code: &mut Code, f: &Function<'_>, var: u32) -> Result<(), NoMemory>
    ensures size { OnOk result (Grows 10 code.old code.new) }
    ensures words { OnOk result (HasObject f.now.frame.now var →
        Puts (ZeroWords (chosen f.now) var) code.old code.new) }
{
    let object = f.object(var);
    zero_object(code, object.at, object.length)
}

/// Where a struct is copied from and to, in the code and in the source.
#[derive(Clone, Copy)]
pub struct Ends {
    pub from: u32,
    pub to: u32,
    pub from_pos: Pos,
    pub to_pos: Pos,
}

/// The number of units of a size, if it is one.
fn units_of(bytes: u64, unit: u8) -> u64
    ensures { 0 < unit → result ≡ bytes / unit }
{
    if unit == 0 {
        0
    } else {
        bytes / u64::from(unit)
    }
}

/// Copies a struct in units.
pub fn copy_units(
    code: &mut Code,
    f: &Function<'_>,
    ends: Ends,
    bytes: u64,
    unit: u8,
) -> Result<(), NoMemory>
    requires { code.old.words + 14 ≤ room }
    ensures size { OnOk result (Extends 14 code.old code.new) }
    ensures words { let units = bytes / unit in
        let copying = CopyUnits ends.from ends.to bytes unit ends.from_pos ends.to_pos in
        OnOk result (Chooses f.now ends.from → Chooses f.now ends.to → 0 < unit → units < 2 ^ 31 →
        Selects (chosen f.now) copying code.old code.new) }
{
    let units = units_of(bytes, unit);
    if units == 0 {
        return Ok(());
    }
    bring(code, f, left(), ends.from)?;
    bring(code, f, right(), ends.to)?;
    if units == 1 {
        return copy_unit(code, unit, ends.from_pos, ends.to_pos);
    }
    copy_loop(code, units, unit, ends.from_pos, ends.to_pos)
}
