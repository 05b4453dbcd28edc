//! The rows of the integer instructions, branches and jumps.
ghost use Rattle.std.specs.Prelude.{◌≡◌, ℕ};
ghost use Rattle.cap_machine.specs.Rows.{plus, unsealed, entered, upper_row, op_row, imm_row, shift_row, branch_row};
ghost use Rattle.cap_machine.specs.Rows.{cjal_row, cjalr_row};

use crate::end::Step;
use crate::integers::{extended, immediate_op, is_taken, result_of, shift_op, upper};
use crate::machine::Machine;
use crate::state::address;
use cap_ops::{Access, Cap, SENTRY, UNSEALED, add, check, with_address};
use rv_instr::{BranchOp, ImmOp, Reg, RegOp, ShiftOp, UpperOp};

/// An address moved by an immediate, modulo 2^64.
#[inline(always)]
pub fn plus(a: u64, z: i32) -> u64
    ensures { result ≡ plus a z }
{
    a.wrapping_add(extended(z))
}

/// The capability without its seal.
#[tactic(auto, unfolding(crate::specs::Rows::unsealed))]
fn unsealed(c: Cap) -> Cap
    ensures { result ≡ unsealed c }
{
    let mut fields = c.fields;
    fields.otype = UNSEALED;
    Cap { tag: c.tag, fields }
}

/// The capability that a jump enters: a sentry is unsealed by a jump to it with immediate 0.
pub fn entered(c: Cap, z: i32) -> Cap
    ensures { result ≡ entered c z }
{
    if c.fields.otype == SENTRY && extended(z) == 0 {
        unsealed(c)
    } else {
        c
    }
}

impl Machine {
    #[tactic(auto, unfolding(crate::specs::Rows::upper_row))]
    pub(crate) fn upper_row(&mut self, op: UpperOp, rd: Reg, n: u32) -> Step
        ensures { (result, self.new) ≡ upper_row self.old op rd n }
    {
        match op {
            UpperOp::Lui => self.set_integer(rd, upper(n)),
            UpperOp::Auipcc => self.set(rd, add(self.pc, upper(n))),
        }
    }

    #[tactic(auto, unfolding(crate::specs::Rows::op_row))]
    pub(crate) fn op_row(&mut self, op: RegOp, rd: Reg, rs1: Reg, rs2: Reg) -> Step
        ensures { (result, self.new) ≡ op_row self.old op rd rs1 rs2 }
    {
        let value = result_of(op, self.integer(rs1), self.integer(rs2));
        self.set_integer(rd, value)
    }

    #[tactic(auto, unfolding(crate::specs::Rows::imm_row))]
    pub(crate) fn imm_row(&mut self, op: ImmOp, rd: Reg, rs1: Reg, z: i32) -> Step
        ensures { (result, self.new) ≡ imm_row self.old op rd rs1 z }
    {
        let value = result_of(immediate_op(op), self.integer(rs1), extended(z));
        self.set_integer(rd, value)
    }

    #[tactic(auto, unfolding(crate::specs::Rows::shift_row))]
    pub(crate) fn shift_row(&mut self, op: ShiftOp, rd: Reg, rs1: Reg, n: u8) -> Step
        ensures { (result, self.new) ≡ shift_row self.old op rd rs1 n }
    {
        let value = result_of(shift_op(op), self.integer(rs1), u64::from(n));
        self.set_integer(rd, value)
    }

    #[tactic(auto, unfolding(crate::specs::Rows::branch_row))]
    pub(crate) fn branch_row(&mut self, op: BranchOp, rs1: Reg, rs2: Reg, z: i32) -> Step
        ensures { (result, self.new) ≡ branch_row self.old op rs1 rs2 z }
    {
        let taken = is_taken(op, self.integer(rs1), self.integer(rs2));
        let offset = if taken { extended(z) } else { 4 };
        self.move_by(offset);
        Step::Next
    }

    #[tactic(auto, unfolding(crate::specs::Rows::cjal_row))]
    pub(crate) fn cjal_row(&mut self, rd: Reg, z: i32) -> Step
        ensures { (result, self.new) ≡ cjal_row self.old rd z }
    {
        self.link(rd);
        self.move_by(extended(z));
        Step::Next
    }

    #[tactic(auto, unfolding(crate::specs::Rows::cjalr_row))]
    pub(crate) fn cjalr_row(&mut self, rd: Reg, rs1: Reg, z: i32) -> Step
        ensures { (result, self.new) ≡ cjalr_row self.old rd rs1 z }
    {
        let c = entered(self.register(rs1), z);
        match check(c, plus(address(c), z), Access::Jump) {
            Err(cause) => self.trap(cause),
            Ok(at) => self.jump(rd, with_address(c, at)),
        }
    }
}
