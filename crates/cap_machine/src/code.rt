//! The instructions that were decoded.
ghost use Rattle.std.specs.Prelude.{◌≡◌, ◌%◌, ◌^◌, ◌≤◌, IsTrue, Ok};
ghost use Rattle.tag_mem.specs.Areas.{IsMemory};
ghost use Rattle.cap_machine.specs.declared.machine.Machine.{Machine};
ghost use Rattle.cap_machine.specs.Rows.{row};
ghost use Rattle.cap_machine.specs.Step.{fetched};
ghost use Rattle.cap_machine.specs.Code.{slot_of, vacant, found, counter_at, Current, IsEmpty, KeepsIf, Spares};
ghost use Rattle.cap_machine.specs.Code.{IsAlike};

use crate::integer_rows::{entered, plus};
use crate::kept::Reach;
use crate::machine::Machine;
use cap_ops::Cap;
use rv_instr::{Instr, Reg};

/// How many instructions are kept.
const SLOTS: usize = 1024;

/// An instruction, and the address where it was fetched.
#[derive(Clone, Copy)]
pub struct Decoded {
    at: u64,
    instruction: Instr,
}

/// The instructions that were decoded, each in a slot by its address, and where the counter last reached.
#[derive(Drop)]
pub struct Code {
    pub reach: Reach,
    /// The first granule of them, and their last byte.
    low: u64,
    last: u64,
    slots: [Decoded; SLOTS],
}

/// The slot of an address.
#[inline(always)]
fn slot_of(at: u64) -> usize
    ensures { result ≡ slot_of at }
{
    (at / 4) as usize % SLOTS
}

/// A slot with no instruction: this address has another slot.
fn vacant(at: u64) -> Decoded
    ensures { result ≡ vacant at }
{
    Decoded {
        at,
        instruction: Instr::Ebreak,
    }
}

/// Whether two capabilities differ at most in tag and address.
#[inline(always)]
fn is_alike(c: &Cap, d: &Cap) -> bool
    ensures { IsTrue result → IsAlike c.now d.now }
{
    let mut fields = c.fields;
    fields.address = d.fields.address;
    fields == d.fields
}

impl Code {
    /// None so far.
    pub fn new() -> Code
        ensures { IsEmpty result }
    {
        let mut code = Code {
            reach: Reach::new(),
            low: 0,
            last: 0,
            slots: [vacant(0); SLOTS],
        };
        code.forget_all();
        code
    }

    #[cold]
    #[inline(never)]
    fn forget_all(&mut self)
        ensures { IsEmpty self.new }
    {
        self.low = u64::MAX;
        self.last = 0;
        for k in 0..SLOTS {
            self.slots[k] = vacant(4 * (k as u64 + 1));
        }
    }

    /// The instruction at an address, where it was decoded.
    #[inline(always)]
    #[tactic(auto, unfolding(crate::specs::Code::found_in))]
    pub fn found(&self, at: u64) -> Option<Instr>
        ensures { result ≡ found self.now at }
    {
        let slot = &self.slots[slot_of(at)];
        if slot.at == at {
            Some(slot.instruction)
        } else {
            None
        }
    }

    /// Keeps the instruction that was fetched at an address.
    pub fn keep(&mut self, at: u64, instruction: Instr) -> Instr
        requires { at % 4 ≡ 0 }
        ensures value { result ≡ instruction }
        ensures current { (m : Machine) → Current self.old m → IsMemory m.mem →
            fetched (counter_at m at) ≡ Ok instruction → Current self.new m }
    {
        self.low = self.low.min(at / 16 * 16);
        self.last = self.last.max(at + 3);
        let k = slot_of(at);
        self.slots[k] = Decoded { at, instruction };
        self.slots[k].instruction
    }

    /// Forgets all where a store at this address may write some of them.
    #[inline(always)]
    fn before_store(&mut self, at: u64)
        ensures { KeepsIf (Spares self.old at) self.old self.new }
    {
        if self.low <= at && at <= self.last {
            self.forget_all();
        }
    }

    /// Forgets all where the counter becomes another capability.
    #[inline(always)]
    fn before_jump(&mut self, from: &Cap, to: &Cap)
        ensures { KeepsIf (IsAlike from.now to.now) self.old self.new }
    {
        if !is_alike(from, to) {
            self.forget_all();
        }
    }

    /// Forgets all that may not hold after this instruction.
    #[inline(always)]
    pub fn prepare(&mut self, m: &Machine, i: &Instr)
        ensures { Current self.old m.now → Current self.new (row m.now i.now).1 }
    {
        match *i {
            Instr::Store(_, _, rs1, z) => self.before_store(plus(m.integer(rs1), z)),
            Instr::Cjalr(_, rs1, z) => self.before_jump(&m.pc, &entered(m.register(rs1), z)),
            _ => {}
        }
    }
}
