//! Comparisons of registers.
ghost use Rattle.std.specs.Prelude.{◌≡◌, ◌++◌, [], ◌∷◌, OnOk};
ghost use Rattle.rv_instr.specs.Range.{FitsBits};
ghost use Rattle.select_words.specs.Integers.{less};
ghost use Rattle.select_words.specs.Operations.{less_number, turn_round, is_zero, is_some, compare_code};
ghost use Rattle.rv_emit.specs.Growing.{Grows};
ghost use Rattle.rv_idioms.specs.Operations.{zero_code, number_code};

use ck_base::NoMemory;
use ck_int::CmpOp;
use rv_emit::{Code, instructions as instr};
use rv_instr::{ImmOp, Reg, RegOp};

fn less(signed: bool) -> RegOp
    ensures { result ≡ less signed }
{
    if signed { RegOp::Slt } else { RegOp::Sltu }
}

fn less_than_number(signed: bool) -> ImmOp
    ensures { result ≡ less_number signed }
{
    if signed { ImmOp::Slti } else { ImmOp::Sltiu }
}

/// Turns a truth value round.
fn turn_round(code: &mut Code, r: Reg) -> Result<(), NoMemory>
    ensures size { OnOk result (Grows 1 code.old code.new) }
    ensures text { OnOk result (code.new.text ≡ code.old.text ++ turn_round r ∷ []) }
{
    code.put(instr::immediate(ImmOp::Xori, r, r, 1))
}

/// Whether a register is zero.
fn is_zero(code: &mut Code, to: Reg, a: Reg) -> Result<(), NoMemory>
    ensures size { OnOk result (Grows 1 code.old code.new) }
    ensures text { OnOk result (code.new.text ≡ code.old.text ++ is_zero to a ∷ []) }
{
    code.put(instr::immediate(ImmOp::Sltiu, to, a, 1))
}

/// Whether a register is not zero.
fn is_not_zero(code: &mut Code, to: Reg, a: Reg) -> Result<(), NoMemory>
    ensures size { OnOk result (Grows 1 code.old code.new) }
    ensures text { OnOk result (code.new.text ≡ code.old.text ++ is_some to a ∷ []) }
{
    code.put(instr::operation(RegOp::Sltu, to, Reg::ZERO, a))
}

/// Compares two registers.
pub fn compare(
    code: &mut Code,
    op: CmpOp,
    signed: bool,
    r: Reg,
    a: Reg,
    b: Reg,
) -> Result<(), NoMemory>
    ensures size { OnOk result (Grows 2 code.old code.new) }
    ensures text { OnOk result (code.new.text ≡ code.old.text ++ compare_code op signed r a b) }
{
    match op {
        CmpOp::Lt => code.put(instr::operation(less(signed), r, a, b)),
        CmpOp::Gt => code.put(instr::operation(less(signed), r, b, a)),
        CmpOp::Le => {
            code.put(instr::operation(less(signed), r, b, a))?;
            turn_round(code, r)
        }
        CmpOp::Ge => {
            code.put(instr::operation(less(signed), r, a, b))?;
            turn_round(code, r)
        }
        CmpOp::Eq => {
            code.put(instr::operation(RegOp::Xor, r, a, b))?;
            is_zero(code, r, r)
        }
        CmpOp::Ne => {
            code.put(instr::operation(RegOp::Xor, r, a, b))?;
            is_not_zero(code, r, r)
        }
    }
}

/// Compares a register with zero, by equality or its opposite: no bits differ from zero.
pub fn compare_zero(code: &mut Code, op: CmpOp, r: Reg, a: Reg) -> Result<(), NoMemory>
    ensures size { OnOk result (Grows 1 code.old code.new) }
    ensures text { OnOk result (code.new.text ≡ code.old.text ++ zero_code op r a) }
{
    match op {
        CmpOp::Eq => is_zero(code, r, a),
        _ => is_not_zero(code, r, a),
    }
}

/// Compares a register with a number of 12 bits, by "less" or its opposite, or by equality or its opposite.
pub fn compare_number(
    code: &mut Code,
    op: CmpOp,
    signed: bool,
    r: Reg,
    a: Reg,
    number: i32,
) -> Result<(), NoMemory>
    requires { FitsBits 12 number }
    ensures size { OnOk result (Grows 2 code.old code.new) }
    ensures text { OnOk result (code.new.text ≡ code.old.text ++ number_code op signed number r a) }
{
    match op {
        CmpOp::Eq => {
            code.put(instr::immediate(ImmOp::Xori, r, a, number))?;
            is_zero(code, r, r)
        }
        CmpOp::Ne => {
            code.put(instr::immediate(ImmOp::Xori, r, a, number))?;
            is_not_zero(code, r, r)
        }
        CmpOp::Ge => {
            code.put(instr::immediate(less_than_number(signed), r, a, number))?;
            turn_round(code, r)
        }
        _ => code.put(instr::immediate(less_than_number(signed), r, a, number)),
    }
}
