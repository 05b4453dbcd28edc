//! Constants, copies and operations on integers.
ghost use Rattle.std.specs.Prelude.{◌≡◌, ◌+◌, ◌%◌, ◌^◌, ◌<◌, ◌≤◌, pos, OnOk, IfSome};
ghost use Rattle.ck_int.specs.Kinds.{form_of, width_of};
ghost use Rattle.select_words.specs.Words.{Constant, Copied};
ghost use Rattle.select_words.specs.Operations.{selected_op};
ghost use Rattle.select_words.specs.Operations.{add_op, shift_by, AtKind, IntegerWords};
ghost use Rattle.cap_machine.specs.Integers.{extended};
ghost use Rattle.ck_int.specs.declared.kinds.IntOp.TheVariants.{Sub, Mul};
ghost use Rattle.rv_select.specs.declared.operations.Work.TheVariants.{Registers};
ghost use Rattle.rv_select.specs.Planning.{by_number, IsTimes, IsWithNumber, IsPlan};
ghost use Rattle.rv_select.specs.Planning.{IsShift, ChoosesWork, WorkWord};
ghost use Rattle.rv_instr.specs.declared.instr.Instr.TheVariants.{Shift};
ghost use Rattle.rv_instr.specs.declared.ops.ShiftOp.TheVariants.{Slli};
ghost use Rattle.rv_select.specs.Choosing.{chosen, Chooses, IsOnly, Stands};
ghost use Rattle.rv_emit.specs.Growing.{Grows, Puts};
ghost use Rattle.rv_select.specs.Work.{WorkFits};
ghost use Rattle.tac_ir.specs.Costs.{number_cost, operation_cost, is_wide};

use crate::function::Function;
use crate::homes::{Place, bring, keep, operand, register};
use ck_base::NoMemory;
use ck_int::{IntKind, IntOp};
use rv_emit::{Code, instructions as instr};
use rv_idioms::{add_op, finish, is_wide, left, reg_op, right, shift_op};
use rv_instr::{ImmOp, Reg, RegOp, ShiftOp};

/// A temp becomes a constant.
pub fn constant(code: &mut Code, f: &Function<'_>, to: u32, value: u64) -> Result<(), NoMemory>
    ensures size { OnOk result (Grows (3 + number_cost value) code.old code.new) }
    ensures words { OnOk result (Chooses f.now to → IsOnly (chosen f.now) to value →
        Puts (Constant (chosen f.now) to value) code.old code.new) }
{
    match f.number(to) {
        Some(_) => Ok(()),
        None => {
            let r = f.target(to);
            code.long_number(r, value)?;
            keep(code, f, to, r)
        }
    }
}

/// A temp becomes another.
pub fn copy(code: &mut Code, f: &Function<'_>, to: u32, from: u32) -> Result<(), NoMemory>
    ensures size { OnOk result (Grows 6 code.old code.new) }
    ensures words { OnOk result (Chooses f.now to → Stands (chosen f.now) to → Chooses f.now from →
        Puts (Copied (chosen f.now) to from) code.old code.new) }
{
    if to == from {
        return Ok(());
    }
    match f.place(to) {
        Place::Register(r) => bring(code, f, register(r), from),
        _ => {
            let r = operand(code, f, from, left())?;
            keep(code, f, to, r)
        }
    }
}

/// How an operation is computed, before its result is reduced to its kind.
#[derive(Clone, Copy)]
enum Work {
    Registers(RegOp, u32, u32),
    Immediate(ImmOp, u32, i32),
    Shift(ShiftOp, u32, u8),
}

/// The operation with a number on either side, where the order doesn't matter.
fn with_number(f: &Function<'_>, op: ImmOp, a: u32, b: u32) -> Option<Work>
    ensures fits { IfSome result WorkFits }
    ensures is { IfSome result (IsWithNumber (chosen f.now) op a b) }
{
    match (f.short(a), f.short(b)) {
        (_, Some(v)) => Some(Work::Immediate(op, a, v)),
        (Some(v), None) => Some(Work::Immediate(op, b, v)),
        (None, None) => None,
    }
}

/// A difference from a number is a sum.
fn difference(f: &Function<'_>, kind: IntKind, a: u32, b: u32) -> Option<Work>
    ensures fits { IfSome result WorkFits }
    ensures is { IfSome result (IsPlan (chosen f.now) Sub kind a b) }
{
    match f.short(b) {
        Some(v) if v > -2048 => Some(Work::Immediate(add_op(kind), a, -v)),
        _ => None,
    }
}

/// The power of two that a positive number is.
fn power_of(number: i32) -> Option<u8>
    ensures { IfSome result (λ k. (k < 31) × (number ≡ pos (2 ^ k))) }
{
    let mut power = 1u32;
    for k in 0u8..31 {
        if i64::from(number) == i64::from(power) {
            return Some(k);
        }
        power = power.wrapping_mul(2);
    }
    None
}

/// The shift that multiplies by a temp.
fn shift_by(f: &Function<'_>, a: u32, b: u32) -> Option<Work>
    ensures fits { IfSome result WorkFits }
    ensures is { IfSome result (IsTimes (chosen f.now) a b) }
{
    let power = power_of(f.number(b)?)?;
    Some(Work::Shift(ShiftOp::Slli, a, power))
}

/// A product with a power of two, in 64 bits, is a shift.
fn product(f: &Function<'_>, kind: IntKind, a: u32, b: u32) -> Option<Work>
    ensures fits { IfSome result WorkFits }
    ensures is { IfSome result (IsPlan (chosen f.now) Mul kind a b) }
{
    if !is_wide(kind) {
        return None;
    }
    match shift_by(f, a, b) {
        Some(work) => Some(work),
        None => shift_by(f, b, a),
    }
}

/// A number as the count of a shift of a kind, which is promoted to 32 bits where it has fewer.
fn count_of(kind: IntKind, number: i32) -> u8
    ensures { 32 ≤ width_of (form_of kind) → result ≡ extended number % width_of (form_of kind) }
{
    match kind {
        IntKind::Bool => u8::from(number != 0),
        IntKind::I64 | IntKind::U64 => (number.cast_unsigned() % 64) as u8,
        _ => (number.cast_unsigned() % 32) as u8,
    }
}

/// A shift by a number.
fn shift(f: &Function<'_>, op: IntOp, kind: IntKind, a: u32, b: u32) -> Option<Work>
    requires { IsShift op }
    ensures fits { IfSome result WorkFits }
    ensures is { IfSome result (λ w. 32 ≤ width_of (form_of kind) → IsPlan (chosen f.now) op kind a b w) }
{
    let number = f.number(b)?;
    Some(Work::Shift(shift_op(kind, op), a, count_of(kind, number)))
}

/// An operation on two registers. Shifted right by a truth value, a truth value is whether it exceeds the count.
fn of_registers(op: IntOp, kind: IntKind, a: u32, b: u32) -> Work
    ensures fits { WorkFits result }
    ensures is { AtKind kind op → result ≡ Registers (selected_op kind op) a b }
{
    match (op, kind) {
        (IntOp::Shr, IntKind::Bool) => Work::Registers(RegOp::Sltu, b, a),
        _ => Work::Registers(reg_op(kind, op), a, b),
    }
}

/// How an operation is computed with a number.
fn short_plan(f: &Function<'_>, op: IntOp, kind: IntKind, a: u32, b: u32) -> Option<Work>
    ensures fits { IfSome result WorkFits }
    ensures is { IfSome result (λ w. AtKind kind op → IsPlan (chosen f.now) op kind a b w) }
{
    match op {
        IntOp::Add => with_number(f, add_op(kind), a, b),
        IntOp::Sub => difference(f, kind, a, b),
        IntOp::Mul => product(f, kind, a, b),
        IntOp::Shl | IntOp::Shr => shift(f, op, kind, a, b),
        IntOp::Div | IntOp::Rem => None,
        IntOp::And => with_number(f, ImmOp::Andi, a, b),
        IntOp::Or => with_number(f, ImmOp::Ori, a, b),
        IntOp::Xor => with_number(f, ImmOp::Xori, a, b),
    }
}

/// How an operation is computed.
fn plan(f: &Function<'_>, op: IntOp, kind: IntKind, a: u32, b: u32) -> Work
    ensures fits { WorkFits result }
    ensures is { AtKind kind op → IsPlan (chosen f.now) op kind a b result }
{
    match short_plan(f, op, kind, a, b) {
        Some(work) => work,
        None => of_registers(op, kind, a, b),
    }
}

/// Whether a shift by a number computes it.
fn by_number(work: Work) -> bool
    ensures { result ≡ by_number work }
{
    matches!(work, Work::Shift(_, _, _))
}

/// Computes in a register.
fn compute(code: &mut Code, f: &Function<'_>, work: Work, r: Reg) -> Result<(), NoMemory>
    requires { WorkFits work }
    ensures size { OnOk result (Grows 7 code.old code.new) }
    ensures words { OnOk result (ChoosesWork f.now work →
        Puts (WorkWord (chosen f.now) work r) code.old code.new) }
{
    match work {
        Work::Registers(op, a, b) => {
            let a = operand(code, f, a, left())?;
            let b = operand(code, f, b, right())?;
            code.put(instr::operation(op, r, a, b))
        }
        Work::Immediate(op, a, number) => {
            let a = operand(code, f, a, left())?;
            code.put(instr::immediate(op, r, a, number))
        }
        Work::Shift(op, a, count) => {
            let a = operand(code, f, a, left())?;
            code.put(instr::shift(op, r, a, count))
        }
    }
}

/// An operation on integers.
pub fn integer(
    code: &mut Code,
    f: &Function<'_>,
    op: IntOp,
    kind: IntKind,
    to: u32,
    a: u32,
    b: u32,
) -> Result<(), NoMemory>
    ensures size { OnOk result (Grows (operation_cost kind) code.old code.new) }
    ensures words { OnOk result (Chooses f.now to → Chooses f.now a → Chooses f.now b → AtKind kind op →
        Puts (IntegerWords (chosen f.now) op kind to a b) code.old code.new) }
{
    let work = plan(f, op, kind, a, b);
    let r = f.target(to);
    compute(code, f, work, r)?;
    finish(code, op, kind, by_number(work), r)?;
    keep(code, f, to, r)
}
