//! Memory under a map, or with no addresses, as the operations that the meaning of programs stands on.

ghost use Rattle.std.specs.Prelude.{◌≡◌, IfOk, Ok};
ghost use Rattle.obj_mem.specs.Access.{onward};
ghost use Rattle.obj_mem.specs.Objects.{Strict};
ghost use Rattle.obj_mem.specs.Values as value;
ghost use Rattle.cheri_c_sem.specs.Modes.{operations};
ghost use Rattle.cheri_c_sem.specs.Modes.{number_answer};
ghost use Rattle.obj_mem.specs.Pointers.{get_base};
ghost use Rattle.obj_mem.specs.Values.{value_of};
ghost use Rattle.object_memory.specs.State.{base_or, memory_of};
ghost use Rattle.mean_operations.specs.Answers.{seen, number_seen};
ghost use Rattle.mean_run.specs.Allocated.{IsEntered};
ghost use Rattle.object_memory.specs.Answers.{mode_of};
ghost use Rattle.c_mean.specs.HeldMemory.{IsRoomyIn, plan_of, store_of};

use ck_base::NoMemory;
use ck_int::{CmpOp, IntKind, IntOp};
use mean_operations::{Operations, Work};
use mean_run::{AllocateFault, Storage};
use mean_types::{Kind, number_of, truth, zero_of};
use obj_mem::{Fault, Mode, Reason, UnitFault, Value};
use object_memory::{
    AllocateFault as NotAllocated, Memory, alignment_mask_of, base_at, frame_of, has_tag,
    local_offset, permissions_of, rounded,
};
use std::alloc::Global;

/// Memory in a mode.
#[derive(Drop)]
pub struct Held<'a> {
    mode: Mode<'a>,
    memory: Memory<'a>,
    ghost same: { mode_of memory.mode ≡ (plan_of mode).mode },
    ghost roomy: { IsRoomyIn mode },
}

impl<'a> Held<'a> {
    /// Memory with no objects.
    #[tactic(auto, unfolding(cheri_c_sem::specs::Modes::operations), using(crate::proofs::Planned::mode_is))]
    pub fn new(alloc: Global, mode: Mode<'a>) -> Result<Self, NoMemory>
        requires { IsRoomyIn mode }
        ensures held { IfOk result (λ h. store_of h.memory ≡ (operations (plan_of mode.entry)).empty) }
        ensures plan { IfOk result (λ h. plan_of h.mode ≡ plan_of mode.entry) }
    {
        Ok(Held {
            mode,
            memory: Memory::new(alloc, mode)?,
        })
    }
}

/// The base of a global, where there are addresses.
fn global_base(mode: Mode<'_>, k: u64) -> Option<u64>
    ensures { base_or result ≡ (plan_of mode.entry).global k }
{
    match mode {
        Mode::Placed(map) => Some(base_at(map.globals.as_slice(), k)),
        Mode::Strict => None,
    }
}

/// That of a literal.
fn literal_base(mode: Mode<'_>, k: u64) -> Option<u64>
    ensures { base_or result ≡ (plan_of mode.entry).literal k }
{
    match mode {
        Mode::Placed(map) => Some(base_at(map.literals.as_slice(), k)),
        Mode::Strict => None,
    }
}

/// That of a local, in a frame that was entered.
fn local_base(mode: Mode<'_>, frame: u64, f: u32, n: u64) -> Option<u64>
    requires roomy { IsRoomyIn mode }
    requires entered { IsEntered (operations (plan_of mode)) f frame }
    ensures { base_or result ≡ (plan_of mode.entry).local frame f n }
{
    match mode {
        Mode::Placed(map) => Some(frame + local_offset(map, f, n)),
        Mode::Strict => None,
    }
}

fn number(answer: Result<u64, Fault>) -> Result<Value, Fault>
    ensures { seen result ≡ onward answer (λ n. Ok (value.Int n)) }
{
    match answer {
        Err(e) => Err(e),
        Ok(n) => Ok(Value::Int(n)),
    }
}

/// The base of the bounds of a value, where there are no addresses.
fn strict_base(memory: &Memory<'_>, v: Value) -> Result<u64, Fault>
    ensures { number_seen result ≡ number_answer (get_base Strict (memory_of memory.now).shapes (value_of v)) }
{
    match v {
        Value::Live(_, _, _, _, _) | Value::Fun(_) => Err(Fault::Unspecified(Reason::Address)),
        Value::Int(_) => Ok(0),
        Value::Raw(_, _) => memory.base(v),
    }
}

#[tactic(auto, unfolding(cheri_c_sem::specs::Modes::operations))]
impl Operations for Held<'_> {
    ghost meaning = { λ h. operations (plan_of h.mode) };

    ghost held = { λ h. store_of h.memory };

    fn integer(
        &self,
        op: IntOp,
        kind: IntKind,
        count: IntKind,
        x: u64,
        y: u64,
    ) -> Result<u64, Fault> {
        self.memory.integer(op, kind, count, x, y)
    }

    fn address(&self, v: Value) -> Result<u64, Fault> {
        self.memory.address(v)
    }

    fn compare(&self, op: CmpOp, signed: bool, v: Value, w: Value) -> Result<bool, Fault> {
        self.memory.compare(signed, op, v, w)
    }

    fn difference(&self, v: Value, w: Value) -> Result<u64, Fault> {
        self.memory.distance(v, w)
    }

    fn offset(&self, v: Value, by: u64) -> Result<Value, Fault> {
        self.memory.offset(v, by)
    }

    fn narrow(&self, v: Value, length: u64, exact: bool) -> Result<Value, Fault> {
        self.memory.narrow(v, length, exact)
    }

    fn base(&self, v: Value) -> Result<u64, Fault> {
        match self.mode {
            Mode::Placed(_) => self.memory.base(v),
            Mode::Strict => strict_base(&self.memory, v),
        }
    }

    fn work(&self, work: Work, v: Value, x: Value) -> Result<Value, Fault> {
        match work {
            Work::Offset => number(self.memory.capability_offset(v)),
            Work::Length => number(self.memory.length(v)),
            Work::Tag => Ok(truth(has_tag(v))),
            Work::Permissions => Ok(Value::Int(permissions_of(v))),
            Work::Clear => self.memory.clear(v),
            Work::SetAddress => self.memory.set_address(v, number_of(x)),
            Work::AndPermissions => self.memory.mask(v, number_of(x)),
            Work::EqualExact => match self.memory.identical(v, x) {
                Err(e) => Err(e),
                Ok(b) => Ok(truth(b)),
            },
            Work::Rounded => Ok(Value::Int(rounded(number_of(v)))),
            Work::Mask => Ok(Value::Int(alignment_mask_of(number_of(v)))),
        }
    }

    fn load(&self, p: Value, n: u8) -> Result<Value, Fault> {
        self.memory.load(p, n)
    }

    fn store(&mut self, p: Value, n: u8, v: Value) -> Result<(), Fault> {
        self.memory.store(p, n, v)
    }

    fn copy_unit(&mut self, from: Value, to: Value, n: u8) -> Result<(), UnitFault> {
        self.memory.copy_unit(from, to, n)
    }

    fn overlap(&self, from: Value, to: Value, bytes: u64) -> Result<(), Fault> {
        self.memory.overlap(from, to, bytes)
    }

    fn unset(&self, kind: Kind) -> Result<Value, Fault> {
        match self.mode {
            Mode::Placed(_) => Ok(zero_of(kind)),
            Mode::Strict => Err(Fault::Unspecified(Reason::Unwritten)),
        }
    }

    fn falls(&self, kind: Kind) -> Result<Value, Fault> {
        match self.mode {
            Mode::Placed(_) => Ok(zero_of(kind)),
            Mode::Strict => Err(Fault::Unspecified(Reason::Undefined)),
        }
    }

    fn whole(&self, object: u64, permissions: u16) -> Value {
        self.memory.whole(object, permissions)
    }

    fn zero(&mut self, object: u64) {
        self.memory.zero(object)
    }

    fn leave(&mut self, object: u64) {
        self.memory.leave(object)
    }

    fn end(&mut self, object: u64) {
        self.memory.end(object)
    }
}

#[tactic(auto, unfolding(cheri_c_sem::specs::Modes::operations))]
impl Storage for Held<'_> {
    fn note_member(&mut self, p: Value, own: u64) -> Result<(), NoMemory> {
        self.memory.note_member(p, own)
    }

    fn add_global(&mut self, k: u64, length: u64) -> Result<(), NoMemory> {
        self.memory.add(length, global_base(self.mode, k))?;
        Ok(())
    }

    fn add_literal(&mut self, k: u64, length: u64) -> Result<(), NoMemory> {
        self.memory.add(length, literal_base(self.mode, k))?;
        Ok(())
    }

    fn add_local(&mut self, frame: u64, f: u32, n: u64, length: u64) -> Result<(), NoMemory> {
        let object = self.memory.add(length, local_base(self.mode, frame, f, n))?;
        self.memory.rest(object);
        Ok(())
    }

    fn count(&self) -> u64 {
        self.memory.count()
    }

    fn allocate(&mut self, n: u64) -> Result<Value, AllocateFault> {
        match self.memory.allocate(n) {
            Ok(v) => Ok(v),
            Err(NotAllocated::Fault(f)) => Err(AllocateFault::Fault(f)),
            Err(NotAllocated::NoMemory) => Err(AllocateFault::NoMemory),
        }
    }

    fn stack_top(&self) -> u64 {
        match self.mode {
            Mode::Placed(map) => map.stack.0 + map.stack.1,
            Mode::Strict => 0,
        }
    }

    fn enter(&self, f: u32, address: u64) -> Option<u64> {
        match self.mode {
            Mode::Placed(map) => frame_of(map, f, address),
            Mode::Strict => Some(address),
        }
    }
}
