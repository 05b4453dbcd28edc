//! The instruction of a word's fields, by the formats of the RISC-V unprivileged ISA.

ghost use Rattle.std.specs.Prelude.{◌≡◌, ◌+◌, ◌-◌, ◌<◌, ◌≤◌, ◌^◌};
ghost use Rattle.rv_code.specs.Formats.{FitsWord};
ghost use Rattle.rv_code.specs.Decoding.{
  sign_extended,
  i_bits,
  s_bits,
  b_bits,
  u_bits,
  j_bits,
  upper_at,
  cjal_at,
  cjalr_at,
  branch_at,
  load_at,
  store_at,
  clc_at,
  imm_at,
  long_shift_at,
  word_shift_at,
  op_imm_at,
  op_imm_32_at,
  reg_at,
  system_at,
  cap_imm_number,
  cap_imm_at,
  cap_get_at,
  cap_reg_at,
  cap_at,
  instr_at,
};

use crate::fields::{Fields, bits};
use crate::table::{
    branch_named, cap_get_named, cap_imm_named, cap_reg_named, imm_named, load_named, reg_named,
    shift_named, store_named, upper_named,
};
use rv_instr::{CapImmOp, Instr, Reg};

/// The number whose two's complement in `width` bits is `n`.
fn sign_extended(width: u32, n: u32) -> i32
    requires some { 1 ≤ width }
    requires narrow { width < 31 }
    requires number { n < 2 ^ width }
    ensures { result ≡ sign_extended width n }
{
    let n = n as i32;
    if n < 1 << (width - 1) {
        n
    } else {
        n - (1 << width)
    }
}

/// The register of a field.
fn register(field: u32) -> Reg
    requires { field < 32 }
    ensures { result ≡ field }
{
    Reg::numbered(field as u8)
}

/// imm[11:0] of format I.
fn i_bits(f: Fields) -> u32
    requires { FitsWord f }
    ensures value { result ≡ i_bits f }
    ensures below { result < 2 ^ 12 }
{
    f.funct7 << 5 | f.rs2
}

/// imm[11:0] of format S.
fn s_bits(f: Fields) -> u32
    requires { FitsWord f }
    ensures value { result ≡ s_bits f }
    ensures below { result < 2 ^ 12 }
{
    f.funct7 << 5 | f.rd
}

/// imm[12:0] of format B.
fn b_bits(f: Fields) -> u32
    requires { FitsWord f }
    ensures value { result ≡ b_bits f }
    ensures below { result < 2 ^ 13 }
{
    bits(f.rd, 4, 1) << 1
        | bits(f.funct7, 5, 0) << 5
        | bits(f.rd, 0, 0) << 11
        | bits(f.funct7, 6, 6) << 12
}

/// imm[31:12] of format U.
fn u_bits(f: Fields) -> u32
    requires { FitsWord f }
    ensures value { result ≡ u_bits f }
    ensures below { result < 2 ^ 20 }
{
    f.funct3 | f.rs1 << 3 | f.rs2 << 8 | f.funct7 << 13
}

/// imm[20:0] of format J.
fn j_bits(f: Fields) -> u32
    requires { FitsWord f }
    ensures value { result ≡ j_bits f }
    ensures below { result < 2 ^ 21 }
{
    bits(f.rs2, 4, 1) << 1
        | bits(f.funct7, 5, 0) << 5
        | bits(f.rs2, 0, 0) << 11
        | f.funct3 << 12
        | f.rs1 << 15
        | bits(f.funct7, 6, 6) << 20
}

#[tactic(auto, unfolding(crate::specs::Decoding::upper_at))]
fn upper(f: Fields) -> Option<Instr>
    requires { FitsWord f }
    ensures { result ≡ upper_at f }
{
    let op = upper_named(f.opcode)?;
    Some(Instr::Upper(op, register(f.rd), u_bits(f)))
}

#[tactic(auto, unfolding(crate::specs::Decoding::cjal_at))]
fn cjal(f: Fields) -> Option<Instr>
    requires { FitsWord f }
    ensures { result ≡ cjal_at f }
{
    let offset = sign_extended(21, j_bits(f));
    Some(Instr::Cjal(register(f.rd), offset))
}

#[tactic(auto, unfolding(crate::specs::Decoding::cjalr_at))]
fn cjalr(f: Fields) -> Option<Instr>
    requires { FitsWord f }
    ensures { result ≡ cjalr_at f }
{
    if f.funct3 == 0 {
        let offset = sign_extended(12, i_bits(f));
        Some(Instr::Cjalr(register(f.rd), register(f.rs1), offset))
    } else {
        None
    }
}

#[tactic(auto, unfolding(crate::specs::Decoding::branch_at))]
fn branch(f: Fields) -> Option<Instr>
    requires { FitsWord f }
    ensures { result ≡ branch_at f }
{
    let op = branch_named(f.funct3)?;
    let offset = sign_extended(13, b_bits(f));
    Some(Instr::Branch(op, register(f.rs1), register(f.rs2), offset))
}

#[tactic(auto, unfolding(crate::specs::Decoding::load_at))]
fn load(f: Fields) -> Option<Instr>
    requires { FitsWord f }
    ensures { result ≡ load_at f }
{
    let op = load_named(f.funct3)?;
    let offset = sign_extended(12, i_bits(f));
    Some(Instr::Load(op, register(f.rd), register(f.rs1), offset))
}

#[tactic(auto, unfolding(crate::specs::Decoding::store_at))]
fn store(f: Fields) -> Option<Instr>
    requires { FitsWord f }
    ensures { result ≡ store_at f }
{
    let op = store_named(f.funct3)?;
    let offset = sign_extended(12, s_bits(f));
    Some(Instr::Store(op, register(f.rs2), register(f.rs1), offset))
}

#[tactic(auto, unfolding(crate::specs::Decoding::clc_at))]
fn clc(f: Fields) -> Option<Instr>
    requires { FitsWord f }
    ensures { result ≡ clc_at f }
{
    if f.funct3 == 2 {
        let offset = sign_extended(12, i_bits(f));
        Some(Instr::Clc(register(f.rd), register(f.rs1), offset))
    } else {
        None
    }
}

#[tactic(auto, unfolding(crate::specs::Decoding::imm_at))]
fn imm(f: Fields) -> Option<Instr>
    requires { FitsWord f }
    ensures { result ≡ imm_at f }
{
    let op = imm_named(f.opcode, f.funct3)?;
    let number = sign_extended(12, i_bits(f));
    Some(Instr::Imm(op, register(f.rd), register(f.rs1), number))
}

/// A shift whose count has six bits.
#[tactic(auto, unfolding(crate::specs::Decoding::long_shift_at))]
fn long_shift(f: Fields) -> Option<Instr>
    requires { FitsWord f }
    ensures { result ≡ long_shift_at f }
{
    let op = shift_named(f.opcode, bits(f.funct7, 6, 1), f.funct3)?;
    let count = bits(f.funct7, 0, 0) << 5 | f.rs2;
    Some(Instr::Shift(op, register(f.rd), register(f.rs1), count as u8))
}

/// A shift whose count has five bits.
#[tactic(auto, unfolding(crate::specs::Decoding::word_shift_at))]
fn word_shift(f: Fields) -> Option<Instr>
    requires { FitsWord f }
    ensures { result ≡ word_shift_at f }
{
    let op = shift_named(f.opcode, f.funct7, f.funct3)?;
    Some(Instr::Shift(op, register(f.rd), register(f.rs1), f.rs2 as u8))
}

#[tactic(auto, unfolding(crate::specs::Decoding::op_imm_at))]
fn op_imm(f: Fields) -> Option<Instr>
    requires { FitsWord f }
    ensures { result ≡ op_imm_at f }
{
    match f.funct3 {
        1 | 5 => long_shift(f),
        _ => imm(f),
    }
}

#[tactic(auto, unfolding(crate::specs::Decoding::op_imm_32_at))]
fn op_imm_32(f: Fields) -> Option<Instr>
    requires { FitsWord f }
    ensures { result ≡ op_imm_32_at f }
{
    match f.funct3 {
        1 | 5 => word_shift(f),
        _ => imm(f),
    }
}

#[tactic(auto, unfolding(crate::specs::Decoding::reg_at))]
fn reg(f: Fields) -> Option<Instr>
    requires { FitsWord f }
    ensures { result ≡ reg_at f }
{
    let op = reg_named(f.opcode, f.funct7, f.funct3)?;
    Some(Instr::Op(op, register(f.rd), register(f.rs1), register(f.rs2)))
}

#[tactic(auto, unfolding(crate::specs::Decoding::system_at))]
fn system(f: Fields) -> Option<Instr>
    requires { FitsWord f }
    ensures { result ≡ system_at f }
{
    match (f.rd, f.funct3, f.rs1, f.funct7, f.rs2) {
        (0, 0, 0, 0, 0) => Some(Instr::Ecall),
        (0, 0, 0, 0, 1) => Some(Instr::Ebreak),
        _ => None,
    }
}

/// The immediate of an instruction on a capability, whose twelve bits are `n`.
fn cap_imm_number(op: CapImmOp, n: u32) -> i32
    requires { n < 2 ^ 12 }
    ensures { result ≡ cap_imm_number op n }
{
    match op {
        CapImmOp::Cincoffsetimm => sign_extended(12, n),
        CapImmOp::Csetboundsimm => n as i32,
    }
}

#[tactic(auto, unfolding(crate::specs::Decoding::cap_imm_at))]
fn cap_imm(f: Fields) -> Option<Instr>
    requires { FitsWord f }
    ensures { result ≡ cap_imm_at f }
{
    let op = cap_imm_named(f.funct3)?;
    let number = cap_imm_number(op, i_bits(f));
    Some(Instr::CapImm(op, register(f.rd), register(f.rs1), number))
}

#[tactic(auto, unfolding(crate::specs::Decoding::cap_get_at))]
fn cap_get(f: Fields) -> Option<Instr>
    requires { FitsWord f }
    ensures { result ≡ cap_get_at f }
{
    let op = cap_get_named(f.rs2)?;
    Some(Instr::CapGet(op, register(f.rd), register(f.rs1)))
}

#[tactic(auto, unfolding(crate::specs::Decoding::cap_reg_at))]
fn cap_reg(f: Fields) -> Option<Instr>
    requires { FitsWord f }
    ensures { result ≡ cap_reg_at f }
{
    let op = cap_reg_named(f.funct7)?;
    Some(Instr::CapReg(op, register(f.rd), register(f.rs1), register(f.rs2)))
}

#[tactic(auto, unfolding(crate::specs::Decoding::cap_at))]
fn cap(f: Fields) -> Option<Instr>
    requires { FitsWord f }
    ensures { result ≡ cap_at f }
{
    match (f.funct3, f.funct7) {
        (0, 0x7f) => cap_get(f),
        (0, _) => cap_reg(f),
        _ => cap_imm(f),
    }
}

/// The instruction of a word's fields, and None where there is none.
#[tactic(auto, unfolding(crate::specs::Decoding::instr_at))]
pub fn instr(f: Fields) -> Option<Instr>
    requires { FitsWord f }
    ensures { result ≡ instr_at f }
{
    match f.opcode {
        0x37 | 0x17 => upper(f),
        0x6f => cjal(f),
        0x67 => cjalr(f),
        0x63 => branch(f),
        0x03 => load(f),
        0x23 => store(f),
        0x0f => clc(f),
        0x13 => op_imm(f),
        0x1b => op_imm_32(f),
        0x33 | 0x3b => reg(f),
        0x73 => system(f),
        0x5b => cap(f),
        _ => None,
    }
}
