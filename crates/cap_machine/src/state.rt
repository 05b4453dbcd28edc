//! Reading and writing the state.
ghost use Rattle.std.specs.Prelude.{◌≡◌, ℕ, ◌/◌};
ghost use Rattle.cap_ops.specs.Capability.{usable, moved, added};
ghost use Rattle.cap_machine.specs.State.{register, integer, with_register, next, counter};
ghost use Rattle.cap_machine.specs.Rows.{set, set_integer, link, jump, trap};

use crate::end::{End, Step};
use crate::machine::Machine;
use cap_ops::{Cap, Cause, UNSEALED, add, null, seal_entry, with_address};
use rv_instr::Reg;

/// The address of a capability.
#[inline(always)]
pub fn address(c: Cap) -> u64
    ensures { result ≡ c.fields.address }
{
    c.fields.address
}

#[inline(always)]
fn is_usable(c: Cap) -> bool
    ensures { result ≡ usable c }
{
    c.tag && c.fields.otype == UNSEALED
}

/// The counter at another address, where its bounds may not stay.
#[cold]
#[inline(never)]
fn moved_afar(c: Cap, at: u64) -> Cap
    ensures { result ≡ moved c at }
{
    with_address(c, at)
}

/// Moves the counter within its block of 2048 addresses, where its bounds stay.
#[inline(always)]
fn move_in_block(c: &mut Cap, at: u64)
    requires { at / 2048 ≡ c.old.fields.address / 2048 }
    ensures { c.new ≡ moved c.old at }
{
    c.tag = is_usable(*c);
    c.fields.address = at;
}

impl Machine {
    /// The capability that a register holds; register 0 is null.
    #[inline(always)]
    pub fn register(&self, r: Reg) -> Cap
        ensures { result ≡ register self.now r }
    {
        let k = r.number();
        if k == 0 {
            null(0)
        } else {
            self.regs[k as usize]
        }
    }

    /// A register's integer.
    #[inline(always)]
    pub fn integer(&self, r: Reg) -> u64
        ensures { result ≡ integer self.now r }
    {
        address(self.register(r))
    }

    /// The address of the instruction.
    #[inline(always)]
    pub fn counter(&self) -> u64
        ensures { result ≡ counter self.now }
    {
        address(self.pc)
    }

    #[inline(always)]
    pub(crate) fn write(&mut self, r: Reg, c: Cap)
        ensures { self.new ≡ with_register self.old r c }
    {
        let k = r.number();
        if k != 0 {
            self.regs[k as usize] = c;
        }
    }

    /// Moves the counter by so many bytes, modulo 2^64.
    #[inline(always)]
    pub(crate) fn move_by(&mut self, by: u64)
        ensures { self.new ≡ record self.old { pc = added self.old.pc by } }
    {
        let from = self.counter();
        let at = from.wrapping_add(by);
        if at / 2048 == from / 2048 {
            move_in_block(&mut self.pc, at);
        } else {
            self.pc = moved_afar(self.pc, at);
        }
    }

    #[inline(always)]
    pub(crate) fn advance(&mut self)
        ensures { self.new ≡ next self.old }
    {
        self.move_by(4);
    }

    #[inline(always)]
    pub(crate) fn trap(&self, cause: Cause) -> Step
        ensures { (result, self.now) ≡ trap self.now cause }
    {
        Step::Ended(End::Trap(cause, self.counter()))
    }

    #[inline(always)]
    pub(crate) fn set(&mut self, r: Reg, c: Cap) -> Step
        ensures { (result, self.new) ≡ set self.old r c }
    {
        self.write(r, c);
        self.advance();
        Step::Next
    }

    #[inline(always)]
    pub(crate) fn set_integer(&mut self, r: Reg, n: u64) -> Step
        ensures { (result, self.new) ≡ set_integer self.old r n }
    {
        self.set(r, null(n))
    }

    /// Writes the link.
    #[inline(always)]
    pub(crate) fn link(&mut self, rd: Reg)
        ensures { self.new ≡ with_register self.old rd (link self.old) }
    {
        if rd.number() != 0 {
            let link = seal_entry(add(self.pc, 4));
            self.write(rd, link);
        }
    }

    pub(crate) fn jump(&mut self, rd: Reg, target: Cap) -> Step
        ensures { (result, self.new) ≡ jump self.old rd target }
    {
        self.link(rd);
        self.pc = target;
        Step::Next
    }
}
