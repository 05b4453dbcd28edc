//! Memory under a map, as the operations that the meaning of code stands on.
ghost use Rattle.std.specs.Prelude.{◌≡◌, ◌+◌, ◌^◌, ◌<◌, ◌≤◌, slice_get, IfOk, OnOk};
ghost use Rattle.cheri_c_sem.specs.Modes.{local_offset as offset_of, number_answer, truth_answer};
ghost use Rattle.obj_mem.specs.Table.{addresses_of};
ghost use Rattle.obj_mem.specs.Values.{value_of};
ghost use Rattle.object_memory.specs.Answers.{HasBase, seen};
ghost use Rattle.object_memory.specs.Memories.{IsSize};
ghost use Rattle.tac_ir.specs.Effects.{work_of};
ghost use Rattle.tac_run.specs.Holdings.{ops_of, with_store, Changes, Takes};

use ck_base::NoMemory;
use ck_int::{CmpOp, IntKind, IntOp};
use mean_types::{number_of, truth};
use obj_mem::{Fault, Map, Mode, UnitFault, Value};
use object_memory::{
    AllocateFault, Memory, alignment_mask_of, base_at, frame_of, has_tag, local_offset,
    permissions_of, rounded,
};
use std::alloc::Global;
use std::marker::Model;
use tac_ir::CapWork;

/// Memory under a map.
#[derive(Drop)]
pub struct Held<'a> {
    map: &'a Map,
    memory: Memory<'a>,
}

impl<'a> Model for Held<'a> {
    ghost use Rattle.tac_run.specs.Holdings.{Holding, IsUnder, store_of};

    ghost Value = { Holding };

    ghost view = { λ h. record { map = h.map.now; store = store_of h.memory } };

    ghost invariant = { λ h. IsUnder h.map.now h.memory };
}

fn number_answer(r: Result<u64, Fault>) -> Result<Value, Fault>
    ensures { seen result ≡ number_answer r }
{
    match r {
        Ok(n) => Ok(Value::Int(n)),
        Err(e) => Err(e),
    }
}

fn truth_answer(r: Result<bool, Fault>) -> Result<Value, Fault>
    ensures { seen result ≡ truth_answer r }
{
    match r {
        Ok(b) => Ok(truth(b)),
        Err(e) => Err(e),
    }
}

#[tactic(auto, unfolding(cheri_c_sem::specs::Modes::operations))]
impl<'a> Held<'a> {
    /// Memory without objects.
    pub fn new(alloc: Global, map: &'a Map) -> Result<Held<'a>, NoMemory>
        ensures { IfOk result (λ h. h ≡ record { map = map.now; store = (ops_of h).empty }) }
    {
        let memory = Memory::new(alloc, Mode::Placed(map))?;
        Ok(Held { map, memory })
    }

    /// An operation on integers; the second kind is that of the right operand.
    pub fn integer(
        &self,
        op: IntOp,
        kind: IntKind,
        count: IntKind,
        x: u64,
        y: u64,
    ) -> Result<u64, Fault>
        ensures { result ≡ (ops_of self.now).int op kind count x y }
    {
        self.memory.integer(op, kind, count, x, y)
    }

    /// The address of a capability.
    pub fn address(&self, v: Value) -> Result<u64, Fault>
        ensures { result ≡ (ops_of self.now).address self.now.store (value_of v) }
    {
        self.memory.address(v)
    }

    /// A comparison of the addresses of capabilities, which count as signed numbers or not.
    pub fn compare(&self, op: CmpOp, signed: bool, v: Value, w: Value) -> Result<bool, Fault>
        ensures { result ≡ (ops_of self.now).compare self.now.store op signed (value_of v) (value_of w) }
    {
        self.memory.compare(signed, op, v, w)
    }

    /// A capability moved by a number of bytes, modulo 2^64.
    pub fn offset(&self, v: Value, by: u64) -> Result<Value, Fault>
        ensures { seen result ≡ (ops_of self.now).offset self.now.store (value_of v) by }
    {
        self.memory.offset(v, by)
    }

    /// A capability with its bounds narrowed to a length.
    pub fn narrow(&self, v: Value, length: u64, exact: bool) -> Result<Value, Fault>
        ensures { seen result ≡ (ops_of self.now).narrow self.now.store (value_of v) length exact }
    {
        self.memory.narrow(v, length, exact)
    }

    /// What is asked of a capability, or made of it. The base of its bounds is a number of 64 bits.
    pub fn work(&self, work: CapWork, v: Value, x: Value) -> Result<Value, Fault>
        requires { HasBase self.now.store.memory.shapes (value_of v) }
        ensures { seen result ≡ (ops_of self.now).work self.now.store (work_of work) (value_of v) (value_of x) }
    {
        match work {
            CapWork::Base => number_answer(self.memory.base(v)),
            CapWork::Offset => number_answer(self.memory.capability_offset(v)),
            CapWork::Length => number_answer(self.memory.length(v)),
            CapWork::Tag => Ok(truth(has_tag(v))),
            CapWork::Perms => Ok(Value::Int(permissions_of(v))),
            CapWork::Clear => self.memory.clear(v),
            CapWork::SetAddress => self.memory.set_address(v, number_of(x)),
            CapWork::AndPerms => self.memory.mask(v, number_of(x)),
            CapWork::EqualExact => truth_answer(self.memory.identical(v, x)),
            CapWork::Rounded => Ok(Value::Int(rounded(number_of(v)))),
            CapWork::Mask => Ok(Value::Int(alignment_mask_of(number_of(v)))),
        }
    }

    /// The 1, 2, 4, 8 or 16 bytes at a pointer.
    pub fn load(&self, p: Value, n: u8) -> Result<Value, Fault>
        requires { IsSize n }
        ensures { seen result ≡ (ops_of self.now).load self.now.store (value_of p) n }
    {
        self.memory.load(p, n)
    }

    /// A value in the 1, 2, 4, 8 or 16 bytes at a pointer.
    pub fn store(&mut self, p: Value, n: u8, v: Value) -> Result<(), Fault>
        requires { IsSize n }
        ensures { Changes ((ops_of self.old).store self.old.store (value_of p) n (value_of v)) self.old result
            self.new }
    {
        self.memory.store(p, n, v)
    }

    /// The first unit of a struct copy, of a number of bytes.
    pub fn copy_unit(&mut self, from: Value, to: Value, n: u8) -> Result<(), UnitFault>
        requires { IsSize n }
        ensures { Changes ((ops_of self.old).copy_unit self.old.store (value_of from) (value_of to) n) self.old result
            self.new }
    {
        self.memory.copy_unit(from, to, n)
    }

    /// How many objects there are: the number of the next one.
    pub fn count(&self) -> u64
        ensures { result ≡ (ops_of self.now).count self.now.store }
    {
        self.memory.count()
    }

    /// The pointer to an object as a whole.
    pub fn whole(&self, object: u64, permissions: u16) -> Value
        ensures { value_of result ≡ (ops_of self.now).whole self.now.store object permissions }
    {
        self.memory.whole(object, permissions)
    }

    /// The block of a local is entered.
    pub fn zero(&mut self, object: u64)
        ensures { self.new ≡ with_store self.old ((ops_of self.old).zero self.old.store object) }
    {
        self.memory.zero(object);
    }

    /// The function of a local returns.
    pub fn end(&mut self, object: u64)
        ensures { self.new ≡ with_store self.old ((ops_of self.old).end self.old.store object) }
    {
        self.memory.end(object);
    }

    /// The next object, which is a global.
    pub fn add_global(&mut self, k: u64, length: u64) -> Result<(), NoMemory>
        requires { length ≤ 67108864 }
        ensures { OnOk result (self.new ≡ with_store self.old ((ops_of self.old).add_global self.old.store k length)) }
    {
        let _object = self
            .memory
            .add(length, Some(base_at(self.map.globals.as_slice(), k)))?;
        Ok(())
    }

    /// The next object, which is a literal.
    pub fn add_literal(&mut self, k: u64, length: u64) -> Result<(), NoMemory>
        requires { length ≤ 2 ^ 40 }
        ensures { OnOk result (self.new ≡ with_store self.old ((ops_of self.old).add_literal self.old.store k length)) }
    {
        let _object = self
            .memory
            .add(length, Some(base_at(self.map.literals.as_slice(), k)))?;
        Ok(())
    }

    /// The next object: local n of a function whose frame has this address. It is dead before its block is entered.
    pub fn add_local(&mut self, frame: u64, fun: u32, n: u64, length: u64) -> Result<(), NoMemory>
        requires length { length ≤ 67108864 }
        requires base { frame + offset_of (slice_get self.old.map.frames fun) n < 2 ^ 64 }
        ensures { OnOk result (self.new ≡ with_store self.old
            ((ops_of self.old).add_local self.old.store frame fun n length)) }
    {
        let base = frame + local_offset(self.map, fun, n);
        let object = self.memory.add(length, Some(base))?;
        self.memory.rest(object);
        Ok(())
    }

    /// An allocation of a number of bytes.
    pub fn allocate(&mut self, n: u64) -> Result<Value, AllocateFault>
        requires { (addresses_of self.old.map).heap_end < 2 ^ 63 }
        ensures { Takes ((ops_of self.old).allocate self.old.store n) self.old result self.new }
    {
        self.memory.allocate(n)
    }

    /// The stack's top.
    pub fn stack_top(&self) -> u64
        requires { self.now.map.stack.0 + self.now.map.stack.1 < 2 ^ 64 }
        ensures { result ≡ (ops_of self.now).stack_top }
    {
        let (base, length) = self.map.stack;
        base + length
    }

    /// The frame of a function below an address, where there is room for it.
    pub fn enter(&self, fun: u32, address: u64) -> Option<u64>
        ensures { result ≡ (ops_of self.now).enter fun address }
    {
        frame_of(self.map, fun, address)
    }
}
