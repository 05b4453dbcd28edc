//! The instructions of the machine: RV64I with multiplication and division (RISC-V unprivileged ISA), and the
//! pure-capability instructions of CHERI-RISC-V (CHERI ISAv9).
//!
//! Promise: none: types and constants alone.
//! Definitions (`specs/`): `Range`, the numbers that an instruction's fields may have.
//! Main lemmas (`proofs/`): none.
#![tactic(auto)]

mod instr;
mod ops;
mod reg;

pub use instr::Instr;
pub use ops::{
    BranchOp, CapGetOp, CapImmOp, CapRegOp, ImmOp, LoadOp, RegOp, ShiftOp, StoreOp, UpperOp,
};
pub use reg::Reg;
