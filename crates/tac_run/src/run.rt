//! A run between two of its instructions, and where it goes on.

ghost use Rattle.std.specs.Prelude.{◌≡◌, ℕ, ◌+◌, ◌^◌, ◌<◌, true, List, Option, drop, length, slice_get};
ghost use Rattle.ck_base.specs.Calls.{seen};
ghost use Rattle.obj_mem.specs.Values.{value_of};
ghost use Rattle.mean_types.specs.Facts.{AreTypesOf};
ghost use Rattle.tac_ir.specs.Meaning.{code_of, is_label, up_to};
ghost use Rattle.tac_ir.specs.WellFormed.{is_well_formed};
ghost use Rattle.tac_steps.specs.Machine.{arrived, onward, jumped, paused, leads, with_answer, act_on, act};
ghost use Rattle.tac_run.specs.Moments.{IsSound, Names};
ghost use Rattle.tac_run.specs.Ready.{IsReady, objects_by};
ghost use Rattle.tac_run.specs.Views.{now_of, moment_of, next_of, ops_in, Asks, IsInside, Led, Stepped};

use crate::faults::Stop;
use crate::program::Program;
use crate::state::{Next, State};
use ck_base::{Sink, Source};
use obj_mem::{Ending, Value};
use tac_ir::{LibOp, TacInstr};

/// A call that waits: its function and the next instruction there, the values of its temps, the number of the first of
/// its objects, the address of its frame, and the temp for the result.
#[derive(Drop)]
pub struct Caller {
    pub fun: u32,
    pub at: usize,
    pub temps: Vec<Value>,
    pub first: u64,
    pub frame: u64,
    pub to: Option<u32>,
}

/// The function that runs, its next instruction, whether a Turn was just passed, the calls that wait, the newest last,
/// and the state.
#[derive(Drop)]
pub struct Run<'a> {
    pub fun: u32,
    pub at: usize,
    pub turned: bool,
    pub callers: Vec<Caller>,
    pub now: State<'a>,
}

fn is_label(i: &TacInstr, label: u32) -> bool
    ensures { result ≡ is_label i.now label }
{
    match i {
        TacInstr::Label(l) => *l == label,
        _ => false,
    }
}

/// The place behind a label that is looked for from a place on, or behind the last instruction.
fn place_from(code: &[TacInstr], from: usize, label: u32) -> usize
    ensures { result ≡ from + up_to label (drop from code.now) }
{
    let mut at = from;
    while let Some(i) = code.get(at) {
        at += 1;
        if is_label(i, label) {
            return at;
        }
    }
    at
}

impl<'a> Run<'a> {
    /// Goes on at an instruction. Where a Turn was just passed, this uses its turn; where none is left, it goes on
    /// behind the last instruction, where the run ends.
    fn arrive(&mut self, program: Program<'_>, at: usize)
        ensures moment { moment_of self.new ≡ arrived (ops_in self.old) program.entry.t.now
            (objects_by program.entry.p.now) self.old.turned at (moment_of self.old) }
        ensures memory { self.new.now.memory ≡ self.old.now.memory }
    {
        if self.turned {
            self.turned = false;
            if self.now.left == 0 {
                self.at = program.code(self.fun).len();
            } else {
                self.now.left -= 1;
                self.at = at;
            }
        } else {
            self.at = at;
        }
    }

    fn advance(&mut self, program: Program<'_>)
        requires { self.old.at < length (code_of (slice_get program.t.now.funs self.old.fun)) }
        ensures moment { moment_of self.new ≡ onward (ops_in self.old) program.entry.t.now
            (objects_by program.entry.p.now) (moment_of self.old) }
        ensures memory { self.new.now.memory ≡ self.old.now.memory }
    {
        let _length = program.code(self.fun).len();
        self.arrive(program, self.at + 1);
    }

    /// Jumps to a label, which is looked for behind the jump, and behind a Turn from the start of the code.
    fn jump(&mut self, program: Program<'_>, label: u32)
        requires { self.old.at < length (code_of (slice_get program.t.now.funs self.old.fun)) }
        ensures moment { moment_of self.new ≡ jumped (ops_in self.old) program.entry.t.now
            (objects_by program.entry.p.now) (moment_of self.old) label }
        ensures memory { self.new.now.memory ≡ self.old.now.memory }
    {
        let code = program.code(self.fun);
        let _length = code.len();
        let from = if self.turned { 0 } else { self.at + 1 };
        let at = place_from(code, from, label);
        self.arrive(program, at);
    }

    /// A Turn. Behind another one it ends the run.
    fn pause(&mut self, program: Program<'_>)
        requires { self.old.at < length (code_of (slice_get program.t.now.funs self.old.fun)) }
        ensures moment { moment_of self.new ≡ paused (ops_in self.old) program.entry.t.now
            (objects_by program.entry.p.now) self.old.turned (moment_of self.old) }
        ensures memory { self.new.now.memory ≡ self.old.now.memory }
    {
        let length = program.code(self.fun).len();
        if self.turned {
            self.turned = false;
            self.at = length;
        } else {
            self.turned = true;
            self.at += 1;
        }
    }

    /// Goes on where an instruction leads.
    fn follow(&mut self, program: Program<'_>, next: Next) -> Result<(), Stop>
        requires ready { IsReady program.p.now self.old.now.memory.map }
        requires types { AreTypesOf program.p.now.types program.types.now }
        requires inside { self.old.at < length (code_of (slice_get program.t.now.funs self.old.fun)) }
        requires room { self.old.now.first + length (objects_by program.p.now self.old.fun) < 2 ^ 64 }
        ensures { Led (leads (ops_in self.old) program.entry.t.now (objects_by program.entry.p.now) (next_of next)
            (moment_of self.old)) self.old result self.new }
    {
        match next {
            Next::On => {
                self.advance(program);
                Ok(())
            }
            Next::To(label) => {
                self.jump(program, label);
                Ok(())
            }
            Next::Pause => {
                self.pause(program);
                Ok(())
            }
            Next::Back(v) => self.back(program, v),
            Next::Into(fun, values, to) => self.call(program, fun, values, to),
        }
    }

    /// A temp gets the answer of the outside.
    fn answer(&mut self, program: Program<'_>, to: Option<u32>, v: Value)
        requires { self.old.at < length (code_of (slice_get program.t.now.funs self.old.fun)) }
        ensures moment { moment_of self.new ≡ with_answer (ops_in self.old) program.entry.t.now
            (objects_by program.entry.p.now) to (value_of v) (moment_of self.old) }
        ensures memory { self.new.now.memory ≡ self.old.now.memory }
    {
        self.now.set_optional(to, v);
        self.advance(program);
    }

    fn put_char<O: Sink>(
        &mut self,
        program: Program<'_>,
        to: Option<u32>,
        args: &[u32],
        out: &mut O,
    ) -> Result<(), Stop>
        requires { self.old.at < length (code_of (slice_get program.t.now.funs self.old.fun)) }
        ensures { (left : Option (List ℕ)) (faults : ℕ) →
            Stepped (act_on (ops_in self.old) program.entry.t.now (objects_by program.entry.p.now) program.entry.p.now
            (TacInstr.Lib LibOp.PutChar to args.now) (moment_of self.old))
            (seen left faults (O.held out.old) (O.faults out.old))
            (seen left faults (O.held out.new) (O.faults out.new)) self.old result self.new }
    {
        let byte = (self.now.first_number(args) % 256) as u8;
        match out.put(&[byte]) {
            Err(_) => Err(Stop::Ended(Ending::WriteFault)),
            Ok(()) => {
                self.answer(program, to, Value::Int(u64::from(byte)));
                Ok(())
            }
        }
    }

    fn get_char<I: Source>(
        &mut self,
        program: Program<'_>,
        to: Option<u32>,
        input: &mut I,
    ) -> Result<(), Stop>
        requires { self.old.at < length (code_of (slice_get program.t.now.funs self.old.fun)) }
        ensures { (args : List ℕ) (held : Option (List ℕ)) (faults : ℕ) →
            Stepped (act_on (ops_in self.old) program.entry.t.now (objects_by program.entry.p.now) program.entry.p.now
            (TacInstr.Lib LibOp.GetChar to args) (moment_of self.old))
            (seen (I.left input.old) (I.faults input.old) held faults)
            (seen (I.left input.new) (I.faults input.new) held faults) self.old result self.new }
    {
        match input.next() {
            Err(_) => Err(Stop::Ended(Ending::ReadFault)),
            Ok(Some(byte)) => {
                self.answer(program, to, Value::Int(u64::from(byte)));
                Ok(())
            }
            Ok(None) => {
                self.answer(program, to, Value::Int(u64::MAX));
                Ok(())
            }
        }
    }

    /// An instruction that neither reads nor puts.
    fn perform(&mut self, program: Program<'_>, i: &TacInstr) -> Result<(), Stop>
        requires ready { IsReady program.p.now self.old.now.memory.map }
        requires types { AreTypesOf program.p.now.types program.types.now }
        requires inside { self.old.at < length (code_of (slice_get program.t.now.funs self.old.fun)) }
        requires room { self.old.now.first + length (objects_by program.p.now self.old.fun) < 2 ^ 64 }
        requires sound { IsSound program.p.now (moment_of self.old) }
        requires names { Names program.p.now (length (objects_by program.p.now self.old.fun)) i.now }
        requires asks { Asks program.p.now self.old.now.memory.map i.now (now_of self.old.now) }
        requires kind { IsInside i.now }
        ensures { Led (act_on (ops_in self.old) program.entry.t.now
            (objects_by program.entry.p.now) program.entry.p.now i.now (moment_of self.old)) self.old result
            self.new }
    {
        match self.now.perform(program, program.kinds(self.fun), i) {
            Err(stop) => Err(stop),
            Ok(next) => self.follow(program, next),
        }
    }

    /// One instruction.
    fn act<I: Source, O: Sink>(
        &mut self,
        program: Program<'_>,
        i: &TacInstr,
        input: &mut I,
        out: &mut O,
    ) -> Result<(), Stop>
        requires ready { IsReady program.p.now self.old.now.memory.map }
        requires types { AreTypesOf program.p.now.types program.types.now }
        requires inside { self.old.at < length (code_of (slice_get program.t.now.funs self.old.fun)) }
        requires room { self.old.now.first + length (objects_by program.p.now self.old.fun) < 2 ^ 64 }
        requires sound { IsSound program.p.now (moment_of self.old) }
        requires names { Names program.p.now (length (objects_by program.p.now self.old.fun)) i.now }
        requires asks { Asks program.p.now self.old.now.memory.map i.now (now_of self.old.now) }
        ensures { Stepped (act_on (ops_in self.old) program.entry.t.now
            (objects_by program.entry.p.now) program.entry.p.now i.now (moment_of self.old))
            (seen (I.left input.old) (I.faults input.old) (O.held out.old) (O.faults out.old))
            (seen (I.left input.new) (I.faults input.new) (O.held out.new) (O.faults out.new)) self.old result
            self.new }
    {
        match i {
            TacInstr::Lib { op, to, args } => match op {
                LibOp::PutChar => self.put_char(program, *to, args.as_slice(), out),
                LibOp::GetChar => self.get_char(program, *to, input),
                LibOp::Malloc | LibOp::Exit => self.perform(program, i),
            },
            _ => self.perform(program, i),
        }
    }

    /// The next instruction, or the end of the code.
    pub fn step<I: Source, O: Sink>(
        &mut self,
        program: Program<'_>,
        input: &mut I,
        out: &mut O,
    ) -> Result<(), Stop>
        requires formed { is_well_formed program.t.now program.p.now ≡ true }
        requires ready { IsReady program.p.now self.old.now.memory.map }
        requires types { AreTypesOf program.p.now.types program.types.now }
        requires sound { IsSound program.p.now (moment_of self.old) }
        ensures { Stepped (act (ops_in self.old) program.entry.t.now
            (objects_by program.entry.p.now) program.entry.p.now (moment_of self.old))
            (seen (I.left input.old) (I.faults input.old) (O.held out.old) (O.faults out.old))
            (seen (I.left input.new) (I.faults input.new) (O.held out.new) (O.faults out.new)) self.old result
            self.new }
    {
        // There are at most 2^64 - 1 objects.
        let _count = self.now.memory.count();
        match program.code(self.fun).get(self.at) {
            None => Err(Stop::Ended(Ending::Turns)),
            Some(i) => self.act(program, i, input, out),
        }
    }
}
