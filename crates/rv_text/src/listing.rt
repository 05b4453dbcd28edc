//! The text of an instruction.

ghost use Rattle.std.specs.Prelude.{◌≡◌, ◌++◌, OnOk, OnErr, string_bytes};
ghost use Rattle.rv_text.specs.Listing.{upper_rd, stored, cap_reg_rd, cap_reg_rs2, cap_get_rd, cap_get_rs1, text};
ghost use Rattle.rv_text.specs.Operands.{text_of};

use crate::names::{
    branch_name, cap_get_name, cap_imm_name, cap_reg_name, imm_name, load_name, reg_name,
    shift_name, store_name, upper_name,
};
use crate::operands::{Operand, Text, alone, with_three, with_two};
use ck_base::NoMemory;
use rv_instr::{CapGetOp, CapRegOp, Instr, Reg, StoreOp, UpperOp};

fn upper_rd(op: UpperOp, rd: Reg) -> Operand
    ensures { text_of result ≡ upper_rd op rd }
{
    match op {
        UpperOp::Lui => Operand::Integer(rd),
        UpperOp::Auipcc => Operand::Capability(rd),
    }
}

fn stored(op: StoreOp, register: Reg) -> Operand
    ensures { text_of result ≡ stored op register }
{
    match op {
        StoreOp::Sb | StoreOp::Sh | StoreOp::Sw | StoreOp::Sd => Operand::Integer(register),
        StoreOp::Csc => Operand::Capability(register),
    }
}

fn cap_reg_rd(op: CapRegOp, rd: Reg) -> Operand
    ensures { text_of result ≡ cap_reg_rd op rd }
{
    match op {
        CapRegOp::Csetequalexact => Operand::Integer(rd),
        _ => Operand::Capability(rd),
    }
}

fn cap_reg_rs2(op: CapRegOp, rs2: Reg) -> Operand
    ensures { text_of result ≡ cap_reg_rs2 op rs2 }
{
    match op {
        CapRegOp::Csetequalexact => Operand::Capability(rs2),
        _ => Operand::Integer(rs2),
    }
}

fn cap_get_rd(op: CapGetOp, rd: Reg) -> Operand
    ensures { text_of result ≡ cap_get_rd op rd }
{
    match op {
        CapGetOp::Cmove | CapGetOp::Ccleartag | CapGetOp::Csealentry => Operand::Capability(rd),
        _ => Operand::Integer(rd),
    }
}

fn cap_get_rs1(op: CapGetOp, rs1: Reg) -> Operand
    ensures { text_of result ≡ cap_get_rs1 op rs1 }
{
    match op {
        CapGetOp::Crrl | CapGetOp::Cram => Operand::Integer(rs1),
        _ => Operand::Capability(rs1),
    }
}

/// The text of an instruction, on the stack.
fn text(instr: Instr) -> Text
    ensures { result.bytes ≡ text instr }
{
    use Operand::{At, Capability, Field, Integer, Number};
    match instr {
        Instr::Upper(op, rd, field) => with_two(upper_name(op), upper_rd(op, rd), Field(field)),
        Instr::Cjal(rd, offset) => with_two("cjal", Capability(rd), Number(offset)),
        Instr::Cjalr(rd, rs1, offset) => with_two("cjalr", Capability(rd), At(offset, rs1)),
        Instr::Branch(op, rs1, rs2, offset) => {
            with_three(branch_name(op), Integer(rs1), Integer(rs2), Number(offset))
        }
        Instr::Load(op, rd, rs1, offset) => with_two(load_name(op), Integer(rd), At(offset, rs1)),
        Instr::Store(op, rs2, rs1, offset) => {
            with_two(store_name(op), stored(op, rs2), At(offset, rs1))
        }
        Instr::Clc(rd, rs1, offset) => with_two("clc", Capability(rd), At(offset, rs1)),
        Instr::Imm(op, rd, rs1, number) => {
            with_three(imm_name(op), Integer(rd), Integer(rs1), Number(number))
        }
        Instr::Shift(op, rd, rs1, count) => {
            with_three(
                shift_name(op),
                Integer(rd),
                Integer(rs1),
                Number(i32::from(count)),
            )
        }
        Instr::Op(op, rd, rs1, rs2) => {
            with_three(reg_name(op), Integer(rd), Integer(rs1), Integer(rs2))
        }
        Instr::Ecall => alone("ecall"),
        Instr::Ebreak => alone("ebreak"),
        Instr::CapImm(op, rd, rs1, number) => {
            with_three(
                cap_imm_name(op),
                Capability(rd),
                Capability(rs1),
                Number(number),
            )
        }
        Instr::CapReg(op, rd, rs1, rs2) => with_three(
            cap_reg_name(op),
            cap_reg_rd(op, rd),
            Capability(rs1),
            cap_reg_rs2(op, rs2),
        ),
        Instr::CapGet(op, rd, rs1) => {
            with_two(cap_get_name(op), cap_get_rd(op, rd), cap_get_rs1(op, rs1))
        }
    }
}

/// Appends the text of an instruction in a listing: its name, and after a space its operands, parted by commas.
///
/// The operands stand in the order rd, rs1, rs2 or the immediate; loads, stores and `cjalr` have the register moved and
/// then `IMM(cN)`, and branches rs1, rs2 and the offset. A register is `cN` where its capability is read or written,
/// and `xN` where its integer is. Immediates are signed decimal, and the 20-bit field of `lui` and `auipcc` is decimal.
/// A string that cannot grow is left as it was.
pub fn line(instr: Instr, into: &mut String) -> Result<(), NoMemory>
    ensures done { OnOk result (string_bytes into.new ≡ string_bytes into.old ++ text instr) }
    ensures kept { OnErr result (string_bytes into.new ≡ string_bytes into.old) }
{
    into.push_str(text(instr).as_str())?;
    Ok(())
}
