//! Instructions.

use crate::ops::{
    BranchOp, CapGetOp, CapImmOp, CapRegOp, ImmOp, LoadOp, RegOp, ShiftOp, StoreOp, UpperOp,
};
use crate::reg::Reg;

/// An instruction. Its fields stand in the order rd, rs1, rs2, immediate, unless a variant says
/// otherwise. Offsets are in bytes.
///
/// The fields may hold more than an instruction word does: `InRange` of `specs/Range.antt` says
/// which instructions have a word.
#[derive(Clone, Copy, Debug, PartialEq, Eq)]
pub enum Instr {
    /// rd and the 20-bit field of format U.
    Upper(UpperOp, Reg, u32),
    /// Jumps by an even offset from this instruction, and links in rd.
    Cjal(Reg, i32),
    /// Jumps to the capability of rs1 with the offset added, and links in rd.
    Cjalr(Reg, Reg, i32),
    /// rs1, rs2, and the even offset from this instruction.
    Branch(BranchOp, Reg, Reg, i32),
    /// Loads an integer to rd, by the authority of rs1 and at its address plus the offset.
    Load(LoadOp, Reg, Reg, i32),
    /// The register that is stored (rs2), the authority (rs1), and the offset.
    Store(StoreOp, Reg, Reg, i32),
    /// Loads a capability to rd, by the authority of rs1 and at its address plus the offset.
    Clc(Reg, Reg, i32),
    /// An integer and an immediate.
    Imm(ImmOp, Reg, Reg, i32),
    /// An integer, shifted by a count.
    Shift(ShiftOp, Reg, Reg, u8),
    /// Two integers.
    Op(RegOp, Reg, Reg, Reg),
    /// Asks the environment for a service.
    Ecall,
    /// Stops at a break point.
    Ebreak,
    /// A capability and an immediate.
    CapImm(CapImmOp, Reg, Reg, i32),
    /// A capability (rs1), and a register (rs2).
    CapReg(CapRegOp, Reg, Reg, Reg),
    /// One register (rs1).
    CapGet(CapGetOp, Reg, Reg),
}
