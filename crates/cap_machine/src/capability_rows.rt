//! The rows of the capability instructions.
ghost use Rattle.std.specs.Prelude.{◌≡◌, ℕ, ◌%◌, ◌^◌, ◌<◌};
ghost use Rattle.cap_machine.specs.Rows.{same, length_of, cap_imm_row, cap_reg_row, cap_get_row};
ghost use Rattle.cap_ops.specs.Capability.{base};

use crate::end::Step;
use crate::integers::extended;
use crate::machine::Machine;
use cap_concentrate::{alignment_mask, bounds_of, pack, rounded_length};
use cap_ops::{Cap, add, and_perms, clear, narrow, narrow_exact, seal_entry, with_address};
use rv_instr::{CapGetOp, CapImmOp, CapRegOp, Reg};

/// Tag and all 128 bits are equal.
fn is_same(c: Cap, d: Cap) -> bool
    ensures { result ≡ same c d }
{
    c.tag == d.tag && pack(c.fields) == pack(d.fields)
}

/// The permissions that an integer names by its low 12 bits.
fn named_perms(n: u64) -> u16
    ensures value { result ≡ n % 2 ^ 12 }
{
    (n % 4096) as u16
}

fn base_of(c: Cap) -> u64
    ensures { result ≡ base c }
{
    let (base, _) = bounds_of(c.fields);
    base
}

/// Top less base, at most 2^64 - 1, and 2^64 - 1 where the top is below the base.
fn length_of(c: Cap) -> u64
    ensures { result ≡ length_of c }
{
    let (base, top) = bounds_of(c.fields);
    let base = u128::from(base);
    if top < base || top - base > u128::from(u64::MAX) {
        u64::MAX
    } else {
        (top - base) as u64
    }
}

fn tag(c: Cap) -> bool
    ensures { result ≡ c.tag }
{
    c.tag
}

fn perms(c: Cap) -> u16
    ensures { result ≡ c.fields.perms }
{
    c.fields.perms
}

impl Machine {
    #[tactic(auto, unfolding(crate::specs::Rows::cap_imm_row))]
    pub(crate) fn cap_imm_row(&mut self, op: CapImmOp, rd: Reg, rs1: Reg, z: i32) -> Step
        ensures { (result, self.new) ≡ cap_imm_row self.old op rd rs1 z }
    {
        let c = self.register(rs1);
        match op {
            CapImmOp::Cincoffsetimm => self.set(rd, add(c, extended(z))),
            CapImmOp::Csetboundsimm => self.set(rd, narrow(c, extended(z))),
        }
    }

    #[tactic(auto, unfolding(crate::specs::Rows::cap_reg_row))]
    pub(crate) fn cap_reg_row(&mut self, op: CapRegOp, rd: Reg, rs1: Reg, rs2: Reg) -> Step
        ensures { (result, self.new) ≡ cap_reg_row self.old op rd rs1 rs2 }
    {
        let c = self.register(rs1);
        let n = self.integer(rs2);
        match op {
            CapRegOp::Csetbounds => self.set(rd, narrow(c, n)),
            CapRegOp::Csetboundsexact => self.set(rd, narrow_exact(c, n)),
            CapRegOp::Candperm => self.set(rd, and_perms(c, named_perms(n))),
            CapRegOp::Csetaddr => self.set(rd, with_address(c, n)),
            CapRegOp::Cincoffset => self.set(rd, add(c, n)),
            CapRegOp::Csetequalexact => {
                let equal = is_same(c, self.register(rs2));
                self.set_integer(rd, u64::from(equal))
            }
        }
    }

    #[tactic(auto, unfolding(crate::specs::Rows::cap_get_row))]
    pub(crate) fn cap_get_row(&mut self, op: CapGetOp, rd: Reg, rs1: Reg) -> Step
        ensures { (result, self.new) ≡ cap_get_row self.old op rd rs1 }
    {
        let c = self.register(rs1);
        let n = self.integer(rs1);
        match op {
            CapGetOp::Cgetperm => self.set_integer(rd, u64::from(perms(c))),
            CapGetOp::Cgetbase => self.set_integer(rd, base_of(c)),
            CapGetOp::Cgetlen => self.set_integer(rd, length_of(c)),
            CapGetOp::Cgettag => self.set_integer(rd, u64::from(tag(c))),
            CapGetOp::Cgetoffset => self.set_integer(rd, n.wrapping_sub(base_of(c))),
            CapGetOp::Crrl => self.set_integer(rd, rounded_length(n)),
            CapGetOp::Cram => self.set_integer(rd, alignment_mask(n)),
            CapGetOp::Cmove => self.set(rd, c),
            CapGetOp::Ccleartag => self.set(rd, clear(c)),
            CapGetOp::Cgetaddr => self.set_integer(rd, n),
            CapGetOp::Csealentry => self.set(rd, seal_entry(c)),
        }
    }
}
