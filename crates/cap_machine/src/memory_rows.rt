//! The rows that load and store.
ghost use Rattle.std.specs.Prelude.{◌≡◌, ℕ, false};
ghost use Rattle.cap_ops.specs.Capability.{permits};
ghost use Rattle.cap_ops.specs.Access.{checked, IsAccess};
ghost use Rattle.cap_ops.specs.declared.access.Access.TheVariants as access;
ghost use Rattle.cap_machine.specs.State.{register};
ghost use Rattle.cap_machine.specs.Rows.{memory_bits, from_memory, store_checked, load_row, store_row, clc_row};

use crate::end::Step;
use crate::integer_rows::plus;
use crate::integers::{loaded_bytes, loaded_kind};
use crate::kept::{Bounds, Reach, check, check_in_full};
use crate::machine::Machine;
use cap_concentrate::{Fields, flip_null, pack, unpack};
use cap_ops::{Access, Cap, Cause, LOAD_CAPABILITY, null};
use ck_int::wrap;
use rv_instr::{LoadOp, Reg, StoreOp};

/// The bits of a capability as they stand in memory.
fn memory_bits(f: Fields) -> u128
    ensures { result ≡ memory_bits f }
{
    flip_null(pack(f))
}

/// The fields of bits that stand in memory.
fn from_memory(bits: u128) -> Fields
    ensures { result ≡ from_memory bits }
{
    unpack(flip_null(bits))
}

/// Whether a capability has Load_Capability.
fn loads_capabilities(f: Fields) -> bool
    ensures { result ≡ permits f.perms LOAD_CAPABILITY }
{
    (f.perms >> LOAD_CAPABILITY) % 2 == 1
}

impl Machine {
    /// The check of an access by a register.
    #[inline(always)]
    fn check_by(&self, kept: &mut Bounds, r: Reg, at: u64, a: Access) -> Result<u64, Cause>
        requires { IsAccess a }
        ensures { result ≡ checked (register self.now r) at a }
    {
        let k = r.number();
        if k == 0 {
            check_in_full(&null(0), at, a)
        } else {
            check(kept, &self.regs[k as usize], at, a)
        }
    }

    /// A load, each by code of its own.
    pub(crate) fn load_row(
        &mut self,
        kept: &mut Reach,
        op: LoadOp,
        rd: Reg,
        rs1: Reg,
        z: i32,
    ) -> Step
        ensures { (result, self.new) ≡ load_row self.old op rd rs1 z }
    {
        match op {
            LoadOp::Lb => self.load(kept, LoadOp::Lb, rd, rs1, z),
            LoadOp::Lh => self.load(kept, LoadOp::Lh, rd, rs1, z),
            LoadOp::Lw => self.load(kept, LoadOp::Lw, rd, rs1, z),
            LoadOp::Ld => self.load(kept, LoadOp::Ld, rd, rs1, z),
            LoadOp::Lbu => self.load(kept, LoadOp::Lbu, rd, rs1, z),
            LoadOp::Lhu => self.load(kept, LoadOp::Lhu, rd, rs1, z),
            LoadOp::Lwu => self.load(kept, LoadOp::Lwu, rd, rs1, z),
        }
    }

    #[inline(always)]
    #[tactic(auto, unfolding(crate::specs::Rows::load_row))]
    fn load(&mut self, kept: &mut Reach, op: LoadOp, rd: Reg, rs1: Reg, z: i32) -> Step
        ensures { (result, self.new) ≡ load_row self.old op rd rs1 z }
    {
        let n = loaded_bytes(op);
        let at = plus(self.integer(rs1), z);
        match self.check_by(&mut kept.bounds, rs1, at, Access::Load(n)) {
            Err(cause) => self.trap(cause),
            Ok(at) => match self.mem.read_near(&mut kept.region, at, n) {
                None => self.trap(Cause::Bounds),
                Some(v) => self.set_integer(rd, wrap(loaded_kind(op), i128::from(v))),
            },
        }
    }

    /// A capability is stored with its tag.
    fn store_capability(&mut self, kept: &mut Reach, rs1: Reg, at: u64, v: Cap) -> Step
        ensures { (result, self.new) ≡ store_checked self.old 16 (memory_bits v.fields) v.tag
            (checked (register self.old rs1) at (access.StoreCap v.tag)) }
    {
        match self.check_by(&mut kept.bounds, rs1, at, Access::StoreCap(v.tag)) {
            Err(cause) => self.trap(cause),
            Ok(at) => {
                if self
                    .mem
                    .set_cap_near(&mut kept.region, at, memory_bits(v.fields), v.tag)
                {
                    self.advance();
                    Step::Next
                } else {
                    self.trap(Cause::Bounds)
                }
            }
        }
    }

    /// The low bytes of an integer are stored.
    #[inline(always)]
    fn store_integer(&mut self, kept: &mut Reach, rs1: Reg, at: u64, n: u8, v: u64) -> Step
        requires { IsAccess (access.Store n) }
        ensures { (result, self.new) ≡ store_checked self.old n v false
            (checked (register self.old rs1) at (access.Store n)) }
    {
        match self.check_by(&mut kept.bounds, rs1, at, Access::Store(n)) {
            Err(cause) => self.trap(cause),
            Ok(at) => {
                if self.mem.write_near(&mut kept.region, at, n, v) {
                    self.advance();
                    Step::Next
                } else {
                    self.trap(Cause::Bounds)
                }
            }
        }
    }

    #[tactic(auto, unfolding(crate::specs::Rows::store_row))]
    pub(crate) fn store_row(
        &mut self,
        kept: &mut Reach,
        op: StoreOp,
        rs2: Reg,
        rs1: Reg,
        z: i32,
    ) -> Step
        ensures { (result, self.new) ≡ store_row self.old op rs2 rs1 z }
    {
        let at = plus(self.integer(rs1), z);
        let v = self.integer(rs2);
        match op {
            StoreOp::Csc => self.store_capability(kept, rs1, at, self.register(rs2)),
            StoreOp::Sb => self.store_integer(kept, rs1, at, 1, v),
            StoreOp::Sh => self.store_integer(kept, rs1, at, 2, v),
            StoreOp::Sw => self.store_integer(kept, rs1, at, 4, v),
            StoreOp::Sd => self.store_integer(kept, rs1, at, 8, v),
        }
    }

    #[tactic(auto, unfolding(crate::specs::Rows::clc_row))]
    pub(crate) fn clc_row(&mut self, kept: &mut Reach, rd: Reg, rs1: Reg, z: i32) -> Step
        ensures { (result, self.new) ≡ clc_row self.old rd rs1 z }
    {
        let at = plus(self.integer(rs1), z);
        match self.check_by(&mut kept.bounds, rs1, at, Access::LoadCap) {
            Err(cause) => self.trap(cause),
            Ok(at) => match self.mem.cap_near(&mut kept.region, at) {
                None => self.trap(Cause::Bounds),
                Some((bits, tag)) => {
                    let loaded = Cap {
                        tag: tag && loads_capabilities(self.register(rs1).fields),
                        fields: from_memory(bits),
                    };
                    self.set(rd, loaded)
                }
            },
        }
    }
}
