//! What a run has between two of its instructions.
ghost use Rattle.std.specs.Prelude.{◌≡◌, map, None, Some};
ghost use Rattle.obj_mem.specs.Values.{value_of};
ghost use Rattle.cheri_c_sem.specs.Kinds.{nothing, number_of};
ghost use Rattle.cheri_c_sem.specs.Meaning.{first_of};
ghost use Rattle.object_memory.specs.Answers.{seen};
ghost use Rattle.tac_ir.specs.Meaning.{with_result};
ghost use Rattle.tac_steps.specs.Machine.{value_in};
ghost use Rattle.tac_run.specs.Views.{now_of, next_of, Comes, value_or_nothing, amount_in, gives_to};

use crate::faults::{Stop, fault_end};
use crate::held::Held;
use ck_base::Pos;
use mean_types::{NOTHING, number_of};
use obj_mem::{Fault, Value};
use tac_ir::Amount;

/// The values of the temps of the call that runs, the number of the first of its objects, the address of its frame,
/// memory, and the turns that are left.
#[derive(Drop)]
pub struct State<'a> {
    pub temps: Vec<Value>,
    pub first: u64,
    pub frame: u64,
    pub memory: Held<'a>,
    pub left: u64,
}

/// Where an instruction leads.
#[derive(Drop)]
pub enum Next {
    On,
    /// To a label.
    To(u32),
    /// Over a turn.
    Pause,
    /// Back to the caller.
    Back(Value),
    /// Into a function, with its arguments, and the temp for the result.
    Into(u32, Vec<Value>, Option<u32>),
}

impl<'a> State<'a> {
    pub fn temp(&self, t: u32) -> Value
        ensures { value_of result ≡ value_in (now_of self.now) t }
    {
        match self.temps.get(t as usize) {
            None => NOTHING,
            Some(v) => *v,
        }
    }

    #[tactic(auto, using(crate::proofs::Listed::vars_set))]
    pub fn set(&mut self, t: u32, v: Value)
        ensures now { now_of self.new ≡ record (now_of self.old)
            { vars = with_result (now_of self.old).vars (Some t) (value_of v) } }
        ensures map { self.new.memory ≡ self.old.memory }
    {
        if (t as usize) < self.temps.len() {
            self.temps[t as usize] = v;
        }
    }

    pub fn set_optional(&mut self, to: Option<u32>, v: Value)
        ensures now { now_of self.new ≡ record (now_of self.old)
            { vars = with_result (now_of self.old).vars to (value_of v) } }
        ensures map { self.new.memory ≡ self.old.memory }
    {
        match to {
            None => {}
            Some(t) => self.set(t, v),
        }
    }

    pub fn optional(&self, t: Option<u32>) -> Value
        ensures { value_of result ≡ value_or_nothing (now_of self.now) t }
    {
        match t {
            None => NOTHING,
            Some(t) => self.temp(t),
        }
    }

    /// The 64 bits of the first of some temps.
    pub fn first_number(&self, args: &[u32]) -> u64
        ensures { result ≡ number_of (first_of (map (value_in (now_of self.now)) args.now)) }
    {
        match args.first() {
            None => 0,
            Some(t) => number_of(self.temp(*t)),
        }
    }

    pub fn amount(&self, amount: Amount) -> u64
        ensures { result ≡ amount_in (now_of self.now) amount }
    {
        match amount {
            Amount::Number(n) => n,
            Amount::Temp(t) => number_of(self.temp(t)),
        }
    }

    /// A temp gets the answer of an operation.
    pub fn take(&mut self, to: u32, answer: Result<Value, Fault>, pos: Pos) -> Result<Next, Stop>
        ensures { Comes next_of (gives_to to pos (seen answer) (now_of self.old)) self.old.memory.map result self.new }
    {
        match answer {
            Err(f) => Err(Stop::Ended(fault_end(f, pos))),
            Ok(v) => {
                self.set(to, v);
                Ok(Next::On)
            }
        }
    }
}
