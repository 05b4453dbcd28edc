//! Memory as separate objects.

ghost use Rattle.std.specs.Prelude.{◌≡◌, ◌+◌, ◌^◌, ◌<◌, ◌≤◌, length, slice_get, Err, IfOk, Ok, OnErr, OnOk};
ghost use Rattle.cap_concentrate.specs.Rounding.{owned, rounded_up};
ghost use Rattle.cheri_c_sem.specs.Modes.{int_of, overlap_of};
ghost use Rattle.obj_mem.specs.Access.{copy_unit as copy_unit_of, load as load_of, store as store_of};
ghost use Rattle.obj_mem.specs.Comparisons.{compare as compare_of, is_true as is_true_of, distance as distance_of};
ghost use Rattle.obj_mem.specs.Comparisons.{identical as identical_of};
ghost use Rattle.obj_mem.specs.Heap.{allocate as allocate_of, allocated as allocated_of};
ghost use Rattle.obj_mem.specs.Heap.{allocation_alignment as alignment_of_allocation, heap_start};
ghost use Rattle.obj_mem.specs.Heap.{placed_allocate as placed_allocate_of, strict_allocate as strict_allocate_of};
ghost use Rattle.obj_mem.specs.Objects.{Placed, Strict, add as added, end as ended, fresh as fresh_of, leave as left};
ghost use Rattle.obj_mem.specs.Objects.{no_objects, note_member as member_noted, owned_of_shape, rest as rested};
ghost use Rattle.obj_mem.specs.Objects.{with_life, whole_pointer, zero_object};
ghost use Rattle.obj_mem.specs.Pointers.{move, narrow as narrow_of, clear as clear_of, mask as mask_of};
ghost use Rattle.obj_mem.specs.Pointers.{set_address as set_address_of, get_address, get_base, get_length, get_offset};
ghost use Rattle.obj_mem.specs.Table.{addresses_of};
ghost use Rattle.obj_mem.specs.Values.{value_of};
ghost use Rattle.object_memory.specs.Answers.{HasBase, mode_of, seen, shapes_of};
ghost use Rattle.object_memory.specs.Memories.{IsSize, Leaves};
ghost use Rattle.object_memory.specs.State.{memory_of, base_or, count_of, SameBeside};
ghost use Rattle.object_memory.specs.Allocations.{Allocates, HasHeap};
ghost use Rattle.object_memory.specs.Views.{cell_of, life_of};

use crate::notes::{self, Note};
use crate::object::{Cell, Life, Object};
use crate::words::live;
use crate::{access, comparisons, integers, pointers};
use cap_concentrate::rounded_length;
use ck_base::NoMemory;
use ck_int::{CmpOp, IntKind, IntOp};
use mean_work::unspecified;
use obj_mem::{Fault, Map, Mode, Reason, UnitFault, Value};
use std::alloc::Global;

/// The objects of a run, and what it knows of its heap.
#[derive(Drop)]
pub struct Memory<'a> {
    alloc: Global,
    mode: Mode<'a>,
    objects: Vec<Object>,
    notes: Vec<Note>,
    /// The next free address of the heap; in the strict mode what all allocations take at most.
    heap: u64,
}

/// All permissions of pointers to data: all but Execute.
const DATA_PERMISSIONS: u16 = 125;

/// The heap of the strict meaning.
const STRICT_HEAP: u64 = 16_777_216;

/// Why an allocation is not done.
#[derive(Clone, Copy, Debug, PartialEq, Eq)]
pub enum AllocateFault {
    /// The strict meaning says nothing.
    Fault(Fault),
    /// There is no room for what is kept of the object.
    NoMemory,
}

/// What a fresh byte is.
fn fresh(mode: Mode<'_>) -> Cell
    ensures { cell_of result ≡ fresh_of (mode_of mode.entry) }
{
    match mode {
        Mode::Placed(_) => Cell::Byte(0),
        Mode::Strict => Cell::Unwritten,
    }
}

/// The owned length of an object that memory is asked for.
#[tactic(auto, using(crate::proofs::Changed::owned_most))]
fn owned_length(length: u64) -> u64
    requires { length < 2 ^ 63 }
    ensures { result ≡ owned length }
{
    rounded_length(length)
}

/// The alignment of an allocation of so many bytes.
#[tactic(auto, using(crate::proofs::Roundings::alignment_below))]
fn allocation_alignment(n: u64) -> u64
    ensures value { result ≡ alignment_of_allocation n }
    ensures some { 0 < result }
    ensures bound { result ≤ 2 ^ 55 }
{
    pointers::alignment_of(n).max(16)
}

/// The least multiple of an alignment that is not below an address.
fn aligned(next: u64, alignment: u64) -> u128
    requires some { 0 < alignment }
    requires bound { alignment ≤ 2 ^ 55 }
    ensures is { result ≡ rounded_up next alignment }
    ensures below { result < next + alignment }
{
    (u128::from(next) + u128::from(alignment - 1)) / u128::from(alignment) * u128::from(alignment)
}

/// The bytes that an object owns, and 0 where it is not there.
#[tactic(auto, using(crate::proofs::Puts::lookups))]
fn owned_in(objects: &[Object], object: u64) -> u64
    ensures { result ≡ owned_of_shape (slice_get (shapes_of objects.now) object) }
{
    match objects.get(object as usize) {
        None => 0,
        Some(o) => o.owned(),
    }
}

impl<'a> Memory<'a> {
    /// Memory without objects.
    pub fn new(alloc: Global, mode: Mode<'a>) -> Result<Memory<'a>, NoMemory>
        ensures memory { IfOk result (λ m. memory_of m ≡ no_objects) }
        ensures mode { IfOk result (λ m. mode_of m.mode ≡ mode_of mode.entry) }
        ensures heap { IfOk result (λ m. m.heap ≡ heap_start (mode_of mode.entry)) }
    {
        Ok(Memory {
            alloc,
            mode,
            objects: Vec::new(alloc),
            notes: Vec::new(alloc),
            heap: match mode {
                Mode::Placed(map) => map.heap.0,
                Mode::Strict => 0,
            },
        })
    }

    /// How many objects there are: the number of the next one.
    #[tactic(auto, using(crate::proofs::Puts::changes))]
    pub fn count(&self) -> u64
        ensures { result ≡ length (memory_of self.now).shapes }
    {
        self.objects.len() as u64
    }

    #[tactic(auto, using(crate::proofs::Changed::pushes, cap_concentrate::proofs::Owned::owned_ge))]
    fn push_object(&mut self, length: u64, base: u64) -> Result<u64, NoMemory>
        requires { owned length < 2 ^ 63 }
        ensures memory { OnOk result (memory_of self.new
            ≡ added (mode_of self.old.mode) (memory_of self.old) length base) }
        ensures number { IfOk result (λ k. k ≡ count_of (memory_of self.old)) }
        ensures err { OnErr result (memory_of self.new ≡ memory_of self.old) }
        ensures beside { SameBeside self.old self.new }
    {
        let object = Object::new(
            self.alloc,
            length,
            owned_length(length),
            base,
            fresh(self.mode),
        )?;
        let number = self.objects.len() as u64;
        self.objects.push(object)?;
        Ok(number)
    }

    /// Adds an active object of so many bytes, of which nothing is written, and gives its number. A base counts in the
    /// placed mode.
    #[tactic(auto, using(crate::proofs::Changed::owned_bound))]
    pub fn add(&mut self, length: u64, base: Option<u64>) -> Result<u64, NoMemory>
        requires { length ≤ 2 ^ 40 }
        ensures memory { OnOk result (memory_of self.new
            ≡ added (mode_of self.old.mode) (memory_of self.old) length (base_or base)) }
        ensures number { IfOk result (λ k. k ≡ count_of (memory_of self.old)) }
        ensures err { OnErr result (memory_of self.new ≡ memory_of self.old) }
        ensures beside { SameBeside self.old self.new }
    {
        self.push_object(length, base.unwrap_or(0))
    }

    fn set_life(&mut self, object: u64, life: Life)
        ensures memory { memory_of self.new ≡ with_life (life_of life) (memory_of self.old) object }
        ensures beside { SameBeside self.old self.new }
    {
        let k = object as usize;
        if k >= self.objects.len() {
            return;
        }
        self.objects[k].set_life(life);
    }

    /// A local may not be accessed before its block is entered.
    pub fn rest(&mut self, object: u64)
        ensures memory { memory_of self.new ≡ rested (memory_of self.old) object }
        ensures beside { SameBeside self.old self.new }
    {
        self.set_life(object, Life::Inactive);
    }

    /// The block of a local is left, which only the strict mode tells.
    pub fn leave(&mut self, object: u64)
        ensures memory { memory_of self.new ≡ left (mode_of self.old.mode) (memory_of self.old) object }
        ensures beside { SameBeside self.old self.new }
    {
        match self.mode {
            Mode::Placed(_) => {}
            Mode::Strict => self.rest(object),
        }
    }

    /// The function of a local returns.
    pub fn end(&mut self, object: u64)
        ensures memory { memory_of self.new ≡ ended (memory_of self.old) object }
        ensures beside { SameBeside self.old self.new }
    {
        self.set_life(object, Life::Returned);
    }

    /// The block of a local is entered: nothing is written in it, and it may be accessed.
    pub fn zero(&mut self, object: u64)
        ensures memory { memory_of self.new ≡ zero_object (mode_of self.old.mode) (memory_of self.old) object }
        ensures beside { SameBeside self.old self.new }
    {
        let k = object as usize;
        if k >= self.objects.len() {
            return;
        }
        let each = fresh(self.mode);
        self.objects[k].begin(each);
    }

    /// The pointer to a whole object.
    pub fn whole(&self, object: u64, permissions: u16) -> Value
        ensures { value_of result ≡ whole_pointer (memory_of self.now).shapes object permissions }
    {
        let owned = owned_in(self.objects.as_slice(), object);
        live(object, 0, owned, 0, permissions)
    }

    /// A pointer was narrowed to a member of this length, which only the strict mode notes.
    pub fn note_member(&mut self, p: Value, own: u64) -> Result<(), NoMemory>
        ensures memory { OnOk result (memory_of self.new
            ≡ member_noted (mode_of self.old.mode) (memory_of self.old) (value_of p) own) }
        ensures err { OnErr result (memory_of self.new ≡ memory_of self.old) }
        ensures beside { SameBeside self.old self.new }
    {
        match (self.mode, p) {
            (Mode::Strict, Value::Live(object, low, high, _, _)) => {
                notes::add_note(&mut self.notes, object, low, high, own)
            }
            _ => Ok(()),
        }
    }

    /// The `n` bytes at a pointer.
    pub fn load(&self, p: Value, n: u8) -> Result<Value, Fault>
        requires { IsSize n }
        ensures { seen result ≡ load_of (mode_of self.now.mode) (memory_of self.now) (value_of p) n }
    {
        access::load(
            self.mode,
            self.objects.as_slice(),
            self.notes.as_slice(),
            p,
            n,
        )
    }

    /// A value in the `n` bytes at a pointer. Where it fails, memory is as it was.
    #[tactic(auto, unfolding(obj_mem::specs::Access::store))]
    pub fn store(&mut self, p: Value, n: u8, v: Value) -> Result<(), Fault>
        requires { IsSize n }
        ensures memory { Leaves (store_of (mode_of self.old.mode) (memory_of self.old) (value_of p) n (value_of v))
            (memory_of self.old) result (memory_of self.new) }
        ensures beside { SameBeside self.old self.new }
    {
        let piece = access::stored_piece(n, v);
        access::put(
            self.mode,
            &mut self.objects,
            self.notes.as_slice(),
            p,
            n,
            &piece,
        )
    }

    /// One unit of a struct copy, of `n` bytes: as a load and then a store, but bytes that were not written are carried
    /// on. Where it fails, memory is as it was.
    pub fn copy_unit(&mut self, from: Value, to: Value, n: u8) -> Result<(), UnitFault>
        requires { IsSize n }
        ensures memory { Leaves (copy_unit_of (mode_of self.old.mode) (memory_of self.old) (value_of from)
            (value_of to) n) (memory_of self.old) result (memory_of self.new) }
        ensures beside { SameBeside self.old self.new }
    {
        access::copy_unit(
            self.mode,
            &mut self.objects,
            self.notes.as_slice(),
            from,
            to,
            n,
        )
    }

    /// Whether so many bytes may be copied from one place to another.
    pub fn overlap(&self, from: Value, to: Value, bytes: u64) -> Result<(), Fault>
        ensures { result ≡ overlap_of (mode_of self.now.mode) (value_of from) (value_of to) bytes }
    {
        match self.mode {
            Mode::Placed(_) => Ok(()),
            Mode::Strict => if comparisons::laps(from, to, bytes) {
                unspecified(Reason::Overlap)
            } else {
                Ok(())
            },
        }
    }

    /// A new object of so many bytes, which is the heap's last.
    #[tactic(auto, using(cap_concentrate::proofs::Owned::owned_ge))]
    fn allocated(&mut self, n: u64, base: u64, heap: u64) -> Result<Value, AllocateFault>
        requires { owned n < 2 ^ 63 }
        ensures memory { Allocates (Ok (allocated_of (mode_of self.old.mode) (memory_of self.old) n base heap))
            (memory_of self.old) self.old.heap result (memory_of self.new) self.new.heap }
        ensures mode { self.new.mode ≡ self.old.mode }
    {
        match self.push_object(n, base) {
            Err(NoMemory) => Err(AllocateFault::NoMemory),
            Ok(object) => {
                self.heap = heap;
                Ok(live(object, 0, owned_length(n), 0, DATA_PERMISSIONS))
            }
        }
    }

    fn placed_allocate(&mut self, map: &Map, n: u64) -> Result<Value, AllocateFault>
        requires heap { (addresses_of map.now).heap_end < 2 ^ 63 }
        requires mode { mode_of self.old.mode ≡ Placed (addresses_of map.now) }
        ensures memory { Allocates (Ok (placed_allocate_of (addresses_of map.now) (memory_of self.old) self.old.heap n))
            (memory_of self.old) self.old.heap result (memory_of self.new) self.new.heap }
        ensures mode { self.new.mode ≡ self.old.mode }
    {
        let (heap_base, heap_length) = map.heap;
        if heap_length < n {
            return Ok(Value::Raw(0, 0));
        }
        let start = aligned(self.heap, allocation_alignment(n));
        let end = start + u128::from(owned_length(n));
        if u128::from(heap_base) + u128::from(heap_length) < end {
            return Ok(Value::Raw(0, 0));
        }
        self.allocated(n, start as u64, end as u64)
    }

    #[tactic(auto, using(cap_concentrate::proofs::Owned::owned_ge))]
    fn strict_allocate(&mut self, n: u64) -> Result<Value, AllocateFault>
        requires { mode_of self.old.mode ≡ Strict }
        ensures memory { Allocates (strict_allocate_of (memory_of self.old) self.old.heap n)
            (memory_of self.old) self.old.heap result (memory_of self.new) self.new.heap }
        ensures mode { self.new.mode ≡ self.old.mode }
    {
        if STRICT_HEAP < n {
            return Err(AllocateFault::Fault(Fault::Unspecified(Reason::Heap)));
        }
        let taken = u128::from(self.heap) + u128::from(owned_length(n));
        let total = taken + u128::from(allocation_alignment(n));
        if u128::from(STRICT_HEAP) < total {
            return Err(AllocateFault::Fault(Fault::Unspecified(Reason::Heap)));
        }
        self.allocated(n, 0, total as u64)
    }

    /// `malloc(n)`: the pointer to a new object, or null where the heap has no room. In the strict mode the heap is the
    /// least that a map may have.
    pub fn allocate(&mut self, n: u64) -> Result<Value, AllocateFault>
        requires { HasHeap (mode_of self.old.mode) }
        ensures memory { Allocates (allocate_of (mode_of self.old.mode) (memory_of self.old) self.old.heap n)
            (memory_of self.old) self.old.heap result (memory_of self.new) self.new.heap }
        ensures mode { self.new.mode ≡ self.old.mode }
    {
        match self.mode {
            Mode::Placed(map) => self.placed_allocate(map, n),
            Mode::Strict => self.strict_allocate(n),
        }
    }

    /// A value moved by bytes, counted modulo 2^64.
    pub fn offset(&self, v: Value, by: u64) -> Result<Value, Fault>
        ensures { seen result ≡ move (mode_of self.now.mode) (memory_of self.now).shapes (value_of v) by }
    {
        pointers::moved(self.mode, self.objects.as_slice(), v, by)
    }

    /// A value narrowed to a length from its address on. In the strict mode both forms are the same.
    pub fn narrow(&self, v: Value, length: u64, exact: bool) -> Result<Value, Fault>
        ensures { seen result ≡ narrow_of (mode_of self.now.mode) (memory_of self.now).shapes
            (value_of v) length exact }
    {
        pointers::narrowed(self.mode, self.objects.as_slice(), v, length, exact)
    }

    /// A value without its tag.
    pub fn clear(&self, v: Value) -> Result<Value, Fault>
        ensures { seen result ≡ clear_of (mode_of self.now.mode) (memory_of self.now).shapes (value_of v) }
    {
        pointers::clear(self.mode, self.objects.as_slice(), v)
    }

    /// A value with those of its permissions that a mask has.
    pub fn mask(&self, v: Value, bits: u64) -> Result<Value, Fault>
        ensures { seen result ≡ mask_of (mode_of self.now.mode) (memory_of self.now).shapes (value_of v) bits }
    {
        pointers::masked(self.mode, self.objects.as_slice(), v, bits)
    }

    /// A value with another address.
    pub fn set_address(&self, v: Value, to: u64) -> Result<Value, Fault>
        ensures { seen result ≡ set_address_of (mode_of self.now.mode) (memory_of self.now).shapes (value_of v) to }
    {
        pointers::with_address(self.mode, self.objects.as_slice(), v, to)
    }

    /// The address of a value, as in the conversion to a plain integer.
    pub fn address(&self, v: Value) -> Result<u64, Fault>
        ensures { result ≡ get_address (mode_of self.now.mode) (memory_of self.now).shapes (value_of v) }
    {
        pointers::address(self.mode, self.objects.as_slice(), v)
    }

    /// The base of the bounds of a value.
    pub fn base(&self, v: Value) -> Result<u64, Fault>
        requires { HasBase (memory_of self.now).shapes (value_of v) }
        ensures { result ≡ get_base (mode_of self.now.mode) (memory_of self.now).shapes (value_of v) }
    {
        pointers::base(self.mode, self.objects.as_slice(), v)
    }

    /// The length of the bounds of a value, at most 2^64 - 1.
    pub fn length(&self, v: Value) -> Result<u64, Fault>
        ensures { result ≡ get_length (mode_of self.now.mode) (memory_of self.now).shapes (value_of v) }
    {
        pointers::length(self.mode, v)
    }

    /// The address of a value less the base of its bounds, modulo 2^64.
    pub fn capability_offset(&self, v: Value) -> Result<u64, Fault>
        ensures { result ≡ get_offset (mode_of self.now.mode) (memory_of self.now).shapes (value_of v) }
    {
        pointers::offset(self.mode, v)
    }

    /// A comparison of addresses, which count as signed numbers or as unsigned ones.
    pub fn compare(&self, signed: bool, op: CmpOp, v: Value, w: Value) -> Result<bool, Fault>
        ensures { result ≡ compare_of (mode_of self.now.mode) (memory_of self.now).shapes signed op (value_of v)
            (value_of w) }
    {
        comparisons::compare(self.mode, self.objects.as_slice(), signed, op, v, w)
    }

    /// Whether a value is other than null.
    pub fn is_true(&self, v: Value) -> Result<bool, Fault>
        ensures { result ≡ is_true_of (mode_of self.now.mode) (memory_of self.now).shapes (value_of v) }
    {
        comparisons::is_true(self.mode, self.objects.as_slice(), v)
    }

    /// From the second address to the first, in bytes, modulo 2^64.
    pub fn distance(&self, v: Value, w: Value) -> Result<u64, Fault>
        ensures { result ≡ distance_of (mode_of self.now.mode) (memory_of self.now).shapes (value_of v) (value_of w) }
    {
        comparisons::distance(self.mode, self.objects.as_slice(), v, w)
    }

    /// Whether tags and all bits are equal.
    pub fn identical(&self, v: Value, w: Value) -> Result<bool, Fault>
        ensures { result ≡ identical_of (mode_of self.now.mode) (memory_of self.now).shapes (value_of v) (value_of w) }
    {
        comparisons::identical(self.mode, self.objects.as_slice(), v, w)
    }

    /// An operation on integers. The second kind is that of the right operand, which may differ in a shift.
    pub fn integer(
        &self,
        op: IntOp,
        kind: IntKind,
        count: IntKind,
        x: u64,
        y: u64,
    ) -> Result<u64, Fault>
        ensures { result ≡ int_of (mode_of self.now.mode) op kind count x y }
    {
        integers::operated(self.mode, op, kind, count, x, y)
    }
}
