//! The fields that encode an instruction, by the formats of the RISC-V unprivileged ISA.

ghost use Rattle.std.specs.Prelude.{◌≡◌, ◌+◌, ◌-◌, ◌*◌, ◌<◌, ◌≤◌, ◌^◌, pos};
ghost use Rattle.rv_instr.specs.Range.{InRange, count_bits};
ghost use Rattle.rv_code.specs.Formats.{imm_bits, r_format, i_format, s_format, b_format, u_format, j_format};
ghost use Rattle.rv_code.specs.Table.{shift_high};
ghost use Rattle.rv_code.specs.Encoding.{fields_of};

use crate::fields::{Fields, bits};
use crate::table::{
    branch_funct3, cap_get_rs2, cap_imm_funct3, cap_reg_funct7, imm_row, load_funct3, reg_row,
    shift_row, store_funct3, upper_opcode,
};
use rv_instr::{Instr, Reg, ShiftOp};

/// The bits `high` to `low` of an immediate in two's complement.
fn imm_bits(imm: i32, high: u32, low: u32) -> u32
    requires ordered { low ≤ high }
    requires narrow { high < low + 31 }
    requires inside { high < 32 }
    ensures value { result ≡ imm_bits imm high low }
    ensures below { result < 2 ^ (high + 1 - low) }
{
    bits(imm.cast_unsigned(), high, low)
}

fn r_format(funct7: u32, rs2: u32, rs1: Reg, funct3: u32, rd: Reg, opcode: u32) -> Fields
    ensures { result ≡ r_format funct7 rs2 rs1 funct3 rd opcode }
{
    Fields {
        opcode,
        rd: rd.number().into(),
        funct3,
        rs1: rs1.number().into(),
        rs2,
        funct7,
    }
}

fn i_format(imm: i32, rs1: Reg, funct3: u32, rd: Reg, opcode: u32) -> Fields
    ensures { result ≡ i_format imm rs1 funct3 rd opcode }
{
    r_format(
        imm_bits(imm, 11, 5),
        imm_bits(imm, 4, 0),
        rs1,
        funct3,
        rd,
        opcode,
    )
}

fn s_format(imm: i32, rs2: Reg, rs1: Reg, funct3: u32, opcode: u32) -> Fields
    ensures { result ≡ s_format imm rs2 rs1 funct3 opcode }
{
    Fields {
        opcode,
        rd: imm_bits(imm, 4, 0),
        funct3,
        rs1: rs1.number().into(),
        rs2: rs2.number().into(),
        funct7: imm_bits(imm, 11, 5),
    }
}

fn b_format(imm: i32, rs2: Reg, rs1: Reg, funct3: u32, opcode: u32) -> Fields
    ensures { result ≡ b_format imm rs2 rs1 funct3 opcode }
{
    Fields {
        opcode,
        rd: imm_bits(imm, 4, 1) << 1 | imm_bits(imm, 11, 11),
        funct3,
        rs1: rs1.number().into(),
        rs2: rs2.number().into(),
        funct7: imm_bits(imm, 12, 12) << 6 | imm_bits(imm, 10, 5),
    }
}

fn u_format(field: u32, rd: Reg, opcode: u32) -> Fields
    ensures { result ≡ u_format field rd opcode }
{
    Fields {
        opcode,
        rd: rd.number().into(),
        funct3: bits(field, 2, 0),
        rs1: bits(field, 7, 3),
        rs2: bits(field, 12, 8),
        funct7: bits(field, 19, 13),
    }
}

fn j_format(imm: i32, rd: Reg, opcode: u32) -> Fields
    ensures { result ≡ j_format imm rd opcode }
{
    Fields {
        opcode,
        rd: rd.number().into(),
        funct3: imm_bits(imm, 14, 12),
        rs1: imm_bits(imm, 19, 15),
        rs2: imm_bits(imm, 4, 1) << 1 | imm_bits(imm, 11, 11),
        funct7: imm_bits(imm, 20, 20) << 6 | imm_bits(imm, 10, 5),
    }
}

/// The immediate of a shift: the bits above the count, and the count.
fn shift_imm(op: ShiftOp, high: u32, count: u8) -> i32
    requires row { high ≡ shift_high op }
    requires count { count < 2 ^ count_bits op }
    ensures { result ≡ pos (shift_high op * 2 ^ count_bits op + count) }
{
    let count_bits = match op {
        ShiftOp::Slli | ShiftOp::Srli | ShiftOp::Srai => 6,
        ShiftOp::Slliw | ShiftOp::Srliw | ShiftOp::Sraiw => 5,
    };
    (high << count_bits | u32::from(count)) as i32
}

/// The fields that encode an instruction.
#[tactic(auto, unfolding(crate::specs::Encoding::fields_of, rv_instr::specs::Range::InRange))]
pub fn fields(i: Instr) -> Fields
    requires { InRange i }
    ensures { result ≡ fields_of i }
{
    match i {
        Instr::Upper(op, rd, field) => u_format(field, rd, upper_opcode(op)),
        Instr::Cjal(rd, offset) => j_format(offset, rd, 0x6f),
        Instr::Cjalr(rd, rs1, offset) => i_format(offset, rs1, 0, rd, 0x67),
        Instr::Branch(op, rs1, rs2, offset) => b_format(offset, rs2, rs1, branch_funct3(op), 0x63),
        Instr::Load(op, rd, rs1, offset) => i_format(offset, rs1, load_funct3(op), rd, 0x03),
        Instr::Store(op, rs2, rs1, offset) => s_format(offset, rs2, rs1, store_funct3(op), 0x23),
        Instr::Clc(rd, rs1, offset) => i_format(offset, rs1, 2, rd, 0x0f),
        Instr::Imm(op, rd, rs1, number) => {
            let (opcode, funct3) = imm_row(op);
            i_format(number, rs1, funct3, rd, opcode)
        }
        Instr::Shift(op, rd, rs1, count) => {
            let (opcode, high, funct3) = shift_row(op);
            i_format(shift_imm(op, high, count), rs1, funct3, rd, opcode)
        }
        Instr::Op(op, rd, rs1, rs2) => {
            let (opcode, funct7, funct3) = reg_row(op);
            r_format(funct7, rs2.number().into(), rs1, funct3, rd, opcode)
        }
        Instr::Ecall => i_format(0, Reg::ZERO, 0, Reg::ZERO, 0x73),
        Instr::Ebreak => i_format(1, Reg::ZERO, 0, Reg::ZERO, 0x73),
        Instr::CapImm(op, rd, rs1, number) => i_format(number, rs1, cap_imm_funct3(op), rd, 0x5b),
        Instr::CapReg(op, rd, rs1, rs2) => {
            r_format(cap_reg_funct7(op), rs2.number().into(), rs1, 0, rd, 0x5b)
        }
        Instr::CapGet(op, rd, rs1) => r_format(0x7f, cap_get_rs2(op), rs1, 0, rd, 0x5b),
    }
}
