//! Where the temps of the function at hand stand: from an operand to a register, and from a register to a home.
ghost use Rattle.std.specs.Prelude.{◌≡◌, ◌<◌, length, slice_get, OnOk, IfOk, IfSome, Some};
ghost use Rattle.std.specs.Option.{option_map};
ghost use Rattle.cap_machine.specs.Integers.{extended};
ghost use Rattle.rv_instr.specs.Range.{FitsBits};
ghost use Rattle.select_words.specs.Emitted.{IsNumber, Operand, Target, Keep};
ghost use Rattle.select_words.specs.Words.{Bring};
ghost use Rattle.select_words.specs.Services.{KeepSome};
ghost use Rattle.rv_select.specs.Choosing.{chosen, number_in, HasHome, IsFound, Chooses, ChoosesSome};
ghost use Rattle.rv_emit.specs.Growing.{Grows, Puts};

use crate::function::Function;
use crate::numbers::Written;
use ck_base::NoMemory;
use obj_mem::Slot;
use reg_alloc::Home;
use rv_emit::{Code, instructions as instr};
use rv_idioms::{left, way};
use rv_instr::Reg;

/// Where a temp is found.
#[derive(Clone, Copy)]
pub enum Place {
    /// Nowhere: it is a number.
    Number(i32),
    /// In the register of that number.
    Register(u8),
    /// At an offset in the frame, in bytes.
    Slot(u64),
}

/// The register of that number. No home has a number past the last register's.
pub fn register(number: u8) -> Reg
    ensures { number < 32 → result ≡ number }
{
    match Reg::new(number) {
        Some(r) => r,
        None => Reg::ZERO,
    }
}

impl Function<'_> {
    /// The number that a temp is, where it is one.
    pub fn number(&self, t: u32) -> Option<i32>
        ensures { option_map extended result ≡ number_in (slice_get self.now.written.now t) }
    {
        match self.written.get(t as usize) {
            Some(Written::Number(v)) => Some(*v),
            _ => None,
        }
    }

    /// The number that a temp is, where 12 bits hold it.
    pub fn short(&self, t: u32) -> Option<i32>
        ensures fits { IfSome result (FitsBits 12) }
        ensures is { IfSome result (λ v. IsNumber (chosen self.now) t (extended v)) }
    {
        match self.number(t) {
            Some(v) if v >= -2048 && v < 2048 => Some(v),
            _ => None,
        }
    }

    /// Where the home of a temp is.
    pub fn home(&self, t: u32) -> Place
        ensures { t < length self.now.places.now.homes →
            HasHome self.now.places.now.homes self.now.frame.now t result }
    {
        match self.places.homes.as_slice().get(t as usize) {
            Some(Home::Register(r)) => Place::Register(*r),
            Some(Home::Slot(s)) => Place::Slot(self.saved.slot(*s)),
            None => Place::Number(0),
        }
    }

    /// Where a temp is found.
    pub fn place(&self, t: u32) -> Place
        ensures { t < length self.now.places.now.homes → IsFound (chosen self.now) t result }
    {
        match self.number(t) {
            Some(v) => Place::Number(v),
            None => self.home(t),
        }
    }

    /// The register in which a temp is computed.
    pub fn target(&self, t: u32) -> Reg
        ensures { Chooses self.now t → Target (chosen self.now) t result }
    {
        match self.place(t) {
            Place::Register(r) => register(r),
            _ => left(),
        }
    }

    /// Where an object stands in the frame.
    pub fn object(&self, var: u32) -> Slot
        ensures { IfSome (slice_get self.now.frame.now.slots var) (λ s. result ≡ s) }
    {
        match self.frame.slots.as_slice().get(var as usize) {
            Some(s) => *s,
            None => Slot {
                var,
                at: 0,
                length: 0,
            },
        }
    }
}

/// The register that holds a temp: its home, or the scratch register after at most three words.
pub fn operand(code: &mut Code, f: &Function<'_>, t: u32, scratch: Reg) -> Result<Reg, NoMemory>
    requires { 0 < scratch }
    ensures size { OnOk result (Grows 3 code.old code.new) }
    ensures words { IfOk result (λ r. Chooses f.now t →
        Puts (λ ws. Operand (chosen f.now) t scratch ws r) code.old code.new) }
{
    match f.place(t) {
        Place::Number(0) => Ok(Reg::ZERO),
        Place::Register(r) => Ok(register(r)),
        Place::Number(v) => {
            code.number(scratch, v)?;
            Ok(scratch)
        }
        Place::Slot(at) => {
            code.load_far(scratch, Reg::STACK, at, scratch)?;
            Ok(scratch)
        }
    }
}

/// Brings a temp to a register, in at most three words.
pub fn bring(code: &mut Code, f: &Function<'_>, to: Reg, t: u32) -> Result<(), NoMemory>
    ensures size { OnOk result (Grows 3 code.old code.new) }
    ensures words { OnOk result (0 < to → Chooses f.now t → Puts (Bring (chosen f.now) t to) code.old code.new) }
{
    match f.place(t) {
        Place::Number(v) => code.number(to, v),
        Place::Register(r) if r == to.number() => Ok(()),
        Place::Register(r) => code.put(instr::moving(to, register(r))),
        Place::Slot(at) => code.load_far(to, Reg::STACK, at, to),
    }
}

/// Keeps a register as a temp, in at most three words.
pub fn keep(code: &mut Code, f: &Function<'_>, t: u32, from: Reg) -> Result<(), NoMemory>
    ensures size { OnOk result (Grows 3 code.old code.new) }
    ensures words { OnOk result (Chooses f.now t → Puts (Keep (chosen f.now) t from) code.old code.new) }
{
    match f.place(t) {
        Place::Number(_) => Ok(()),
        Place::Register(r) if r == from.number() => Ok(()),
        Place::Register(r) => code.put(instr::moving(register(r), from)),
        Place::Slot(at) => code.store_far(from, Reg::STACK, at, way()),
    }
}

/// Keeps a register as a temp, where there is one.
pub fn keep_some(
    code: &mut Code,
    f: &Function<'_>,
    t: Option<u32>,
    from: Reg,
) -> Result<(), NoMemory>
    ensures size { OnOk result (Grows 3 code.old code.new) }
    ensures words { OnOk result (from ≡ 10 → ChoosesSome f.now t →
        Puts (KeepSome (chosen f.now) t) code.old code.new) }
{
    match t {
        None => Ok(()),
        Some(t) => keep(code, f, t, from),
    }
}
