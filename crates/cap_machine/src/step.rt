//! One step, and runs.
ghost use Rattle.std.specs.Prelude.{◌≡◌, ℕ, ◌<◌, ◌-◌, ◌^◌, Option, Some, List, IfOk};
ghost use Rattle.ck_base.specs.Runs.{outcome, state_and_ending, Puts, Reads};
ghost use Rattle.ck_base.specs.Calls.{seen, Acted, IsRun, Counted};
ghost use Rattle.tag_mem.specs.Areas.{IsMemory};
ghost use Rattle.cap_machine.specs.Code.{Current};
ghost use Rattle.cap_machine.specs.Rows.{row};
ghost use Rattle.cap_machine.specs.ContainedText.{Text};
ghost use Rattle.cap_machine.specs.Containment.{IsContained, Keeps, LeavesContained, StaysContained};
ghost use Rattle.cap_machine.specs.Step.{fetched, low_byte, answered, read_value, call, is_call, act, limits};
ghost use Rattle.cap_machine.specs.Step.{ending_of};

use crate::code::Code;
use crate::end::{End, Step};
use crate::kept::{Reach, Reaches, check};
use crate::machine::Machine;
use crate::output::put_byte;
use cap_ops::{Access, Cause, null};
use ck_base::{Sink, Source};
use rv_code::decode;
use rv_instr::{Instr, Reg};

/// Whether this is an environment call.
fn is_call(i: &Instr) -> bool
    ensures { result ≡ is_call i.now }
{
    matches!(i, Instr::Ecall)
}

impl Machine {
    /// The instruction at the counter, or how the step ends without one.
    #[inline(always)]
    fn fetch(&self, code: &mut Code) -> Result<Instr, End>
        requires { Current code.old self.now }
        ensures value { result ≡ fetched self.now }
        ensures current { Current code.new self.now }
    {
        if self.pc.tag {
            if let Some(i) = code.found(self.counter()) {
                return Ok(i);
            }
        }
        self.fetch_anew(code)
    }

    /// The same, which is kept.
    #[cold]
    #[inline(never)]
    fn fetch_anew(&self, code: &mut Code) -> Result<Instr, End>
        requires { Current code.old self.now }
        ensures value { result ≡ fetched self.now }
        ensures current { Current code.new self.now }
    {
        match self.decoded(&mut code.reach) {
            Err(end) => Err(end),
            Ok(i) => Ok(code.keep(self.counter(), i)),
        }
    }

    /// The same, from memory.
    #[tactic(auto, unfolding(crate::specs::Step::fetched))]
    fn decoded(&self, reach: &mut Reach) -> Result<Instr, End>
        ensures value { result ≡ fetched self.now }
        ensures memory { IfOk result (λ _. IsMemory self.now.mem) }
    {
        match check(&mut reach.bounds, &self.pc, self.counter(), Access::Jump) {
            Err(cause) => Err(End::Trap(cause, self.counter())),
            Ok(at) => match self.mem.read_near(&mut reach.region, at, 4) {
                None => Err(End::Trap(Cause::Bounds, self.counter())),
                Some(word) => match decode(word as u32) {
                    None => Err(End::Illegal(self.counter())),
                    Some(i) => Ok(i),
                },
            },
        }
    }

    /// An instruction that is no environment call.
    #[inline(always)]
    #[tactic(auto, unfolding(crate::specs::Rows::row))]
    fn row(&mut self, reaches: &mut Reaches, i: Instr) -> Step
        ensures { (result, self.new) ≡ row self.old i }
    {
        match i {
            Instr::Upper(op, rd, n) => self.upper_row(op, rd, n),
            Instr::Cjal(rd, z) => self.cjal_row(rd, z),
            Instr::Cjalr(rd, rs1, z) => self.cjalr_row(rd, rs1, z),
            Instr::Branch(op, rs1, rs2, z) => self.branch_row(op, rs1, rs2, z),
            Instr::Load(op, rd, rs1, z) => self.load_row(reaches.held(rs1), op, rd, rs1, z),
            Instr::Store(op, rs2, rs1, z) => self.store_row(reaches.held(rs1), op, rs2, rs1, z),
            Instr::Clc(rd, rs1, z) => self.clc_row(reaches.held(rs1), rd, rs1, z),
            Instr::Imm(op, rd, rs1, z) => self.imm_row(op, rd, rs1, z),
            Instr::Shift(op, rd, rs1, n) => self.shift_row(op, rd, rs1, n),
            Instr::Op(op, rd, rs1, rs2) => self.op_row(op, rd, rs1, rs2),
            Instr::CapImm(op, rd, rs1, z) => self.cap_imm_row(op, rd, rs1, z),
            Instr::CapReg(op, rd, rs1, rs2) => self.cap_reg_row(op, rd, rs1, rs2),
            Instr::CapGet(op, rd, rs1) => self.cap_get_row(op, rd, rs1),
            Instr::Ebreak => Step::Ended(End::Break(self.counter())),
            Instr::Ecall => Step::Ended(End::Illegal(self.counter())),
        }
    }

    fn low_byte(&self) -> u8
        ensures { result ≡ low_byte self.now }
    {
        (self.integer(Reg::RESULT) % 256) as u8
    }

    fn answer(&mut self, n: u64)
        ensures { self.new ≡ answered self.old n }
    {
        self.write(Reg::RESULT, null(n));
        self.advance();
    }

    /// Environment call 1: the low byte of register 10 is put.
    fn put_byte<O: Sink>(&mut self, out: &mut O) -> Step
        ensures acted { (left : Option (List ℕ)) (faults : ℕ) →
            Acted limits (Puts (low_byte self.old) (answered self.old (low_byte self.old)))
            (seen left faults (O.held out.old) (O.faults out.old))
            (seen left faults (O.held out.new) (O.faults out.new)) self.old self.new (ending_of result) }
        ensures contained { (t : Text) → IsContained t self.old →
            Keeps t (Puts (low_byte self.old) (answered self.old (low_byte self.old))) →
            LeavesContained t self.new (ending_of result) }
    {
        let byte = self.low_byte();
        match put_byte(out, byte) {
            Ok(()) => {
                self.answer(u64::from(byte));
                Step::Next
            }
            Err(_) => Step::Ended(End::WriteFault),
        }
    }

    /// Environment call 2: register 10 is set to the next input byte, or to -1 at the end.
    fn read_byte<I: Source>(&mut self, input: &mut I) -> Step
        ensures acted { (held : Option (List ℕ)) (faults : ℕ) →
            Acted limits (Reads (λ byte. answered self.old (read_value byte)))
            (seen (I.left input.old) (I.faults input.old) held faults)
            (seen (I.left input.new) (I.faults input.new) held faults) self.old self.new (ending_of result) }
        ensures contained { (t : Text) → IsContained t self.old →
            Keeps t (Reads (λ byte. answered self.old (read_value byte))) →
            LeavesContained t self.new (ending_of result) }
    {
        match input.next() {
            Ok(Some(byte)) => {
                self.answer(u64::from(byte));
                Step::Next
            }
            Ok(None) => {
                self.answer(u64::MAX);
                Step::Next
            }
            Err(_) => Step::Ended(End::ReadFault),
        }
    }

    /// An environment call, by the integer of register 17.
    fn call<I: Source, O: Sink>(&mut self, input: &mut I, out: &mut O) -> Step
        ensures acted { Acted limits (call self.old)
            (seen (I.left input.old) (I.faults input.old) (O.held out.old) (O.faults out.old))
            (seen (I.left input.new) (I.faults input.new) (O.held out.new) (O.faults out.new)) self.old self.new
            (ending_of result) }
        ensures contained { (t : Text) → IsContained t self.old → Keeps t (call self.old) →
            LeavesContained t self.new (ending_of result) }
    {
        let number = self.integer(Reg::SERVICE);
        if number == 1 {
            self.put_byte(out)
        } else if number == 2 {
            self.read_byte(input)
        } else if number == 3 {
            Step::Ended(End::Exit(self.low_byte()))
        } else {
            Step::Ended(End::Illegal(self.counter()))
        }
    }

    /// One instruction, by what the steps before it found out.
    #[inline(always)]
    fn next_step<I: Source, O: Sink>(
        &mut self,
        code: &mut Code,
        reaches: &mut Reaches,
        input: &mut I,
        out: &mut O,
    ) -> Step
        requires { Current code.old self.old }
        ensures acted { Acted limits (act self.old)
            (seen (I.left input.old) (I.faults input.old) (O.held out.old) (O.faults out.old))
            (seen (I.left input.new) (I.faults input.new) (O.held out.new) (O.faults out.new)) self.old self.new
            (ending_of result) }
        ensures contained { StaysContained self.old self.new (ending_of result) }
        ensures current { Current code.new self.new }
    {
        match self.fetch(code) {
            Err(end) => Step::Ended(end),
            Ok(i) => {
                if is_call(&i) {
                    self.call(input, out)
                } else {
                    code.prepare(self, &i);
                    self.row(reaches, i)
                }
            }
        }
    }

    /// One instruction. A fault of the input or the output, a trap and every other end leave the machine as it was.
    pub fn step<I: Source, O: Sink>(&mut self, input: &mut I, out: &mut O) -> Step
        ensures acted { Acted limits (act self.old)
            (seen (I.left input.old) (I.faults input.old) (O.held out.old) (O.faults out.old))
            (seen (I.left input.new) (I.faults input.new) (O.held out.new) (O.faults out.new)) self.old self.new
            (ending_of result) }
        ensures contained { StaysContained self.old self.new (ending_of result) }
    {
        let mut code = Code::new();
        let mut reaches = Reaches::new();
        self.next_step(&mut code, &mut reaches, input, out)
    }

    /// At most so many instructions: a run over the world of the call, where the source tells its bytes. It ends by
    /// `Steps` exactly where all of them were done and none ended.
    pub fn run<I: Source, O: Sink>(&mut self, steps: u64, input: &mut I, out: &mut O) -> End
        requires source_room { I.faults input.old < 2 ^ 64 - 1 }
        requires sink_room { O.faults out.old < 2 ^ 64 - 1 }
        ensures run { IsRun (outcome limits act state_and_ending self.old steps)
            (seen (I.left input.old) (I.faults input.old) (O.held out.old) (O.faults out.old))
            (seen (I.left input.new) (I.faults input.new) (O.held out.new) (O.faults out.new)) (self.new, result) }
        ensures counted { Counted limits (seen (I.left input.old) (I.faults input.old) (O.held out.old)
            (O.faults out.old)) (seen (I.left input.new) (I.faults input.new) (O.held out.new) (O.faults out.new))
            result }
        ensures contained { StaysContained self.old self.new (Some result) }
    {
        let mut code = Code::new();
        let mut reaches = Reaches::new();
        for _done in 0..steps {
            match self.next_step(&mut code, &mut reaches, input, out) {
                Step::Next => {}
                Step::Ended(end) => return end,
            }
        }
        End::Steps
    }
}
