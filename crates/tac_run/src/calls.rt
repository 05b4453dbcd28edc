//! Calls and returns.
ghost use Rattle.std.specs.Prelude.{◌≡◌, ℕ, ◌+◌, ◌^◌, ◌<◌, ◌∷◌, false, length, map, slice_get, IfOk, OnOk, Ok, Some};
ghost use Rattle.obj_mem.specs.Values.{value_of};
ghost use Rattle.cheri_c_sem.specs.Calls.{add_locals, end_locals};
ghost use Rattle.cheri_c_sem.specs.Modes.{local_offset};
ghost use Rattle.cheri_c_sem.specs.Programs.{lengths_of};
ghost use Rattle.mean_types.specs.Facts.{AreTypesOf};
ghost use Rattle.tac_ir.specs.Meaning.{code_of, entry_temps, kinds_of};
ghost use Rattle.tac_steps.specs.Machine.{caller_of, entered, called_behind, resumed, returned_behind};
ghost use Rattle.tac_run.specs.Ready.{AreSmall, IsReady, objects_by};
ghost use Rattle.tac_run.specs.Holdings.{ops_of, with_store};
ghost use Rattle.tac_run.specs.Views.{ops_in, vars_of, moment_of, caller_of as waiting, Led};

use crate::faults::Stop;
use crate::held::Held;
use crate::operations::kind_of;
use crate::program::Program;
use crate::run::{Caller, Run};
use c_tree::VarDef;
use ck_base::NoMemory;
use mean_types::{number_of, zero_of};
use obj_mem::{Ending, Value};
use std::mem;

/// The objects among some variables, for a call of a function in a frame at an address. Each is dead before its block
/// is entered.
pub fn add_locals(
    memory: &mut Held<'_>,
    program: Program<'_>,
    frame: u64,
    fun: u32,
    vars: &[VarDef],
) -> Result<(), NoMemory>
    requires types { AreTypesOf program.p.now.types program.types.now }
    requires small { AreSmall program.p.now.types vars.now }
    requires room { (n : ℕ) → n < length (lengths_of program.p.now vars.now) →
        frame + local_offset (slice_get memory.old.map.frames fun) n < 2 ^ 64 }
    ensures { OnOk result (memory.new ≡ with_store memory.old
        (add_locals (ops_of memory.old) memory.old.store frame fun 0 (lengths_of program.entry.p.now vars.now))) }
{
    let mut n: u64 = 0;
    'vars: for v in vars {
        if v.simple {
            continue;
        }
        memory.add_local(frame, fun, n, program.types.facts(program.p, v.of).size)?;
        n += 1;
    }
    Ok(())
}

/// The objects among some variables end, from an object on.
fn end_locals(memory: &mut Held<'_>, program: Program<'_>, first: u64, vars: &[VarDef])
    requires { first + length (lengths_of program.p.now vars.now) < 2 ^ 64 }
    ensures { memory.new ≡ with_store memory.old
        (end_locals (ops_of memory.old) memory.old.store first (lengths_of program.entry.p.now vars.now)) }
{
    let mut object = first;
    'vars: for v in vars {
        if v.simple {
            continue;
        }
        memory.end(object);
        object += 1;
    }
}

/// At entry the arguments, and 0 or null in every other temp.
#[tactic(auto, using(crate::proofs::Listed::entry_is))]
pub fn with_zeros(
    program: Program<'_>,
    fun: u32,
    mut values: Vec<Value>,
) -> Result<Vec<Value>, NoMemory>
    ensures { IfOk result (λ vs. vars_of vs.items
        ≡ entry_temps (kinds_of (slice_get program.entry.t.now.funs fun)) (map value_of values.items)) }
{
    let kinds = program.kinds(fun);
    'kinds: while let Some(k) = kinds.get(values.len()) {
        values.push(zero_of(kind_of(*k)))?;
    }
    Ok(values)
}

impl<'a> Run<'a> {
    /// A function is entered in a frame at an address.
    fn open(
        &mut self,
        program: Program<'_>,
        fun: u32,
        address: u64,
        values: Vec<Value>,
        to: Option<u32>,
    ) -> Result<(), NoMemory>
        requires ready { IsReady program.p.now self.old.now.memory.map }
        requires types { AreTypesOf program.p.now.types program.types.now }
        requires inside { self.old.at < length (code_of (slice_get program.t.now.funs self.old.fun)) }
        requires straight { self.old.turned ≡ false }
        requires room { (n : ℕ) → n < length (objects_by program.p.now fun) →
            address + local_offset (slice_get self.old.now.memory.map.frames fun) n < 2 ^ 64 }
        ensures { OnOk result (Led (entered (ops_in self.old) program.entry.t.now (objects_by program.entry.p.now)
            (Some address) fun (map value_of values.items)
            (caller_of (ops_in self.old) program.entry.t.now (objects_by program.entry.p.now)
            (moment_of self.old) to ∷ (moment_of self.old).callers) (moment_of self.old).now) self.old
            (Ok (tt {0})) self.new) }
    {
        let _length = program.code(self.fun).len();
        let temps = with_zeros(program, fun, values)?;
        let first = self.now.memory.count();
        add_locals(
            &mut self.now.memory,
            program,
            address,
            fun,
            program.variables(fun),
        )?;
        let temps = mem::replace(&mut self.now.temps, temps);
        self.callers.push(Caller {
            fun: self.fun,
            at: self.at + 1,
            temps,
            first: self.now.first,
            frame: self.now.frame,
            to,
        })?;
        self.fun = fun;
        self.at = 0;
        self.now.first = first;
        self.now.frame = address;
        Ok(())
    }

    /// A call uses its turn, and then takes the frame, where there is room. Behind a Turn it ends the run.
    pub fn call(
        &mut self,
        program: Program<'_>,
        fun: u32,
        values: Vec<Value>,
        to: Option<u32>,
    ) -> Result<(), Stop>
        requires ready { IsReady program.p.now self.old.now.memory.map }
        requires types { AreTypesOf program.p.now.types program.types.now }
        requires inside { self.old.at < length (code_of (slice_get program.t.now.funs self.old.fun)) }
        ensures { Led (called_behind (ops_in self.old) program.entry.t.now
            (objects_by program.entry.p.now) self.old.turned fun (map value_of values.items) to
            (moment_of self.old)) self.old result self.new }
    {
        if self.turned {
            return Err(Stop::Ended(Ending::Turns));
        }
        if self.now.left == 0 {
            return Err(Stop::Ended(Ending::Turns));
        }
        self.now.left -= 1;
        match self.now.memory.enter(fun, self.now.frame) {
            None => Err(Stop::Ended(Ending::Stack(program.name(fun)))),
            Some(address) => match self.open(program, fun, address, values, to) {
                Err(NoMemory) => Err(Stop::NoMemory),
                Ok(()) => Ok(()),
            },
        }
    }

    fn resume(&mut self, program: Program<'_>, caller: Caller, v: Value)
        requires straight { self.old.turned ≡ false }
        requires room { self.old.now.first + length (objects_by program.p.now self.old.fun) < 2 ^ 64 }
        ensures moment { moment_of self.new ≡ resumed (ops_in self.old) program.entry.t.now
            (objects_by program.entry.p.now) (waiting caller) (moment_of self.old).callers self.old.now.left
            (value_of v) (moment_of self.old) }
        ensures map { self.new.now.memory.map ≡ self.old.now.memory.map }
    {
        let first = self.now.first;
        end_locals(
            &mut self.now.memory,
            program,
            first,
            program.variables(self.fun),
        );
        self.fun = caller.fun;
        self.at = caller.at;
        self.now.temps = caller.temps;
        self.now.first = caller.first;
        self.now.frame = caller.frame;
        self.now.set_optional(caller.to, v);
    }

    /// A return: the locals end, and behind a turn the caller has the result. The last return ends the run. Behind a
    /// Turn each ends it.
    pub fn back(&mut self, program: Program<'_>, v: Value) -> Result<(), Stop>
        requires room { self.old.now.first + length (objects_by program.p.now self.old.fun) < 2 ^ 64 }
        ensures { Led (returned_behind (ops_in self.old) program.entry.t.now
            (objects_by program.entry.p.now) self.old.turned (value_of v) (moment_of self.old)) self.old result
            self.new }
    {
        if self.turned {
            return Err(Stop::Ended(Ending::Turns));
        }
        match self.callers.pop() {
            None => Err(Stop::Ended(Ending::Exit((number_of(v) % 256) as u8))),
            Some(_) if self.now.left == 0 => Err(Stop::Ended(Ending::Turns)),
            Some(caller) => {
                self.now.left -= 1;
                self.resume(program, caller, v);
                Ok(())
            }
        }
    }
}
