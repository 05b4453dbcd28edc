//! Runs of three-address code.
ghost use Rattle.std.specs.Prelude.{◌≡◌, ◌+◌, ◌-◌, ◌^◌, ◌<◌, true, IfOk, OnErr, Some};
ghost use Rattle.ck_base.specs.Calls.{seen, IsRun, Counted};
ghost use Rattle.ck_base.specs.Runs.{outcome, ending_alone};
ghost use Rattle.c_tree.specs.Typing.{Sound};
ghost use Rattle.obj_mem.specs.Needs.{Legal};
ghost use Rattle.cheri_c_sem.specs.Calls.{start};
ghost use Rattle.cheri_c_sem.specs.Programs.{program_tree};
ghost use Rattle.mean_types.specs.Facts.{AreTypesOf};
ghost use Rattle.tac_ir.specs.Meaning.{tac};
ghost use Rattle.tac_ir.specs.WellFormed.{is_well_formed};
ghost use Rattle.tac_steps.specs.Machine.{act, first_moment, limits};
ghost use Rattle.tac_steps.specs.Weights.{acts_left};
ghost use Rattle.tac_run.specs.Moments.{IsSound};
ghost use Rattle.tac_run.specs.Ready.{IsReady, objects_by};
ghost use Rattle.tac_run.specs.Holdings.{ops_of};
ghost use Rattle.stopped_runs.specs.Stopping.{StoppedShort};
ghost use Rattle.tac_run.specs.Views.{moment_of, ops_in};

use crate::calls::{add_locals, with_zeros};
use crate::faults::Stop;
use crate::held::Held;
use crate::program::Program;
use crate::run::Run;
use crate::start::start;
use crate::state::State;
use c_tree::Typed;
use ck_base::{NoMemory, Sink, Source};
use mean_types::Types;
use obj_mem::{Ending, Map};
use std::alloc::Global;
use tac_ir::Tac;

impl<'a> Run<'a> {
    /// Runs to the end, or to want of memory.
    fn run<I: Source, O: Sink>(
        mut self,
        program: Program<'_>,
        input: &mut I,
        out: &mut O,
    ) -> Result<Ending, NoMemory>
        requires formed { is_well_formed program.t.now program.p.now ≡ true }
        requires ready { IsReady program.p.now self.now.memory.map }
        requires types { AreTypesOf program.p.now.types program.types.now }
        requires sound { IsSound program.p.now (moment_of self) }
        requires source_room { I.faults input.old < 2 ^ 64 - 1 }
        requires sink_room { O.faults out.old < 2 ^ 64 - 1 }
        ensures run { IfOk result (λ e. IsRun (outcome limits
            (act (ops_in self.entry) program.entry.t.now (objects_by program.entry.p.now) program.entry.p.now)
            ending_alone (moment_of self.entry) (acts_left program.entry.t.now (moment_of self.entry) + 1))
            (seen (I.left input.old) (I.faults input.old) (O.held out.old) (O.faults out.old))
            (seen (I.left input.new) (I.faults input.new) (O.held out.new) (O.faults out.new)) e) }
        ensures counted { IfOk result (λ e. Counted limits
            (seen (I.left input.old) (I.faults input.old) (O.held out.old) (O.faults out.old))
            (seen (I.left input.new) (I.faults input.new) (O.held out.new) (O.faults out.new)) e) }
        ensures short { OnErr result (StoppedShort (outcome limits
            (act (ops_in self.entry) program.entry.t.now (objects_by program.entry.p.now) program.entry.p.now)
            ending_alone (moment_of self.entry) (acts_left program.entry.t.now (moment_of self.entry) + 1))
            (seen (I.left input.old) (I.faults input.old) (O.held out.old) (O.faults out.old))
            (seen (I.left input.new) (I.faults input.new) (O.held out.new) (O.faults out.new))) }
    {
        'acts: loop {
            match self.step(program, input, out) {
                Ok(()) => {}
                Err(Stop::Ended(end)) => return Ok(end),
                Err(Stop::NoMemory) => return Err(NoMemory),
            }
        }
    }
}

/// The function `main`, in its frame at an address.
fn first<'a>(
    program: Program<'_>,
    mut memory: Held<'a>,
    address: u64,
    turns: u64,
) -> Result<Run<'a>, NoMemory>
    requires ready { IsReady program.p.now memory.map }
    requires types { AreTypesOf program.p.now.types program.types.now }
    requires start { memory.store ≡ start (ops_of memory) (program_tree program.p.now) }
    requires entered { (ops_of memory).enter program.p.now.main (ops_of memory).stack_top ≡ Some address }
    ensures moment { IfOk result (λ r. moment_of r
        ≡ first_moment (ops_of memory.entry) program.entry.t.now (objects_by program.entry.p.now) address
        (program_tree program.entry.p.now) turns) }
    ensures map { IfOk result (λ r. r.now.memory.map ≡ memory.entry.map) }
{
    let fun = program.p.main;
    let temps = with_zeros(program, fun, Vec::new(program.alloc))?;
    let first = memory.count();
    add_locals(&mut memory, program, address, fun, program.variables(fun))?;
    Ok(Run {
        fun,
        at: 0,
        turned: false,
        callers: Vec::new(program.alloc),
        now: State {
            temps,
            first,
            frame: address,
            memory,
            left: turns,
        },
    })
}

/// Runs code, as its meaning says, under a map, with so many turns, in the world of the call. Where memory is wanting,
/// what was read and put is the beginning of the run.
#[tactic(auto, using(stopped_runs::proofs::Shortened::not_begun))]
pub fn run_tac<I: Source, O: Sink>(
    alloc: Global,
    t: &Tac,
    p: &Typed,
    m: &Map,
    input: &mut I,
    out: &mut O,
    turns: u64,
) -> Result<Ending, NoMemory>
    requires formed { is_well_formed t.now p.now ≡ true }
    requires sound { Sound p.now }
    requires legal { Legal p.now m.now }
    requires source_room { I.faults input.old < 2 ^ 64 - 1 }
    requires sink_room { O.faults out.old < 2 ^ 64 - 1 }
    ensures run { IfOk result (λ e. IsRun (λ w. tac t.now p.now m.now w turns)
        (seen (I.left input.old) (I.faults input.old) (O.held out.old) (O.faults out.old))
        (seen (I.left input.new) (I.faults input.new) (O.held out.new) (O.faults out.new)) e) }
    ensures counted { IfOk result (λ e. Counted limits
        (seen (I.left input.old) (I.faults input.old) (O.held out.old) (O.faults out.old))
        (seen (I.left input.new) (I.faults input.new) (O.held out.new) (O.faults out.new)) e) }
    ensures short { OnErr result (StoppedShort (λ w. tac t.now p.now m.now w turns)
        (seen (I.left input.old) (I.faults input.old) (O.held out.old) (O.faults out.old))
        (seen (I.left input.new) (I.faults input.new) (O.held out.new) (O.faults out.new))) }
{
    let types = Types::new(alloc, p)?;
    let program = Program {
        alloc,
        t,
        p,
        types: &types,
    };
    let memory = start(program, m)?;
    match memory.enter(p.main, memory.stack_top()) {
        None => Ok(Ending::Stack(program.name(p.main))),
        Some(address) => first(program, memory, address, turns)?.run(program, input, out),
    }
}
