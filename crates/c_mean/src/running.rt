//! Runs of a program's meaning.

ghost use Rattle.std.specs.Prelude.{◌-◌, ◌<◌, ◌^◌, IfOk, OnErr};
ghost use Rattle.ck_base.specs.Calls.{seen, IsRun, Counted};
ghost use Rattle.stopped_runs.specs.Stopping.{StoppedShort};
ghost use Rattle.c_tree.specs.File.{HasRoom};
ghost use Rattle.c_tree.specs.Typing.{Sound};
ghost use Rattle.c_mean.specs.Modes.{IsLegalIn, run_in};
ghost use Rattle.mean_steps.specs.Machine.{limits};

use crate::held::Held;
use crate::start::start;
use c_tree::Typed;
use ck_base::{NoMemory, Sink, Source as Input};
use mean_run::{Locals, Offsets, Source, State, Storage};
use mean_types::Types;
use obj_mem::{Ending, Mode};
use std::alloc::Global;

/// The placed run of a program under a map, or its strict run, with so many turns. `Turns` comes exactly where one more
/// turn is needed. Calls in progress and unfinished expressions stand in vectors. Where memory is wanting, what was
/// read and put is the beginning of the run.
#[tactic(auto, using(stopped_runs::proofs::Shortened::not_begun))]
pub fn mean<I: Input, O: Sink>(
    alloc: Global,
    p: &Typed,
    mode: Mode<'_>,
    input: &mut I,
    out: &mut O,
    turns: u64,
) -> Result<Ending, NoMemory>
    requires sound { Sound p.now }
    requires room { HasRoom p.now }
    requires legal { IsLegalIn p.now mode }
    requires source_room { I.faults input.old < 2 ^ 64 - 1 }
    requires sink_room { O.faults out.old < 2 ^ 64 - 1 }
    ensures run { IfOk result (λ e. IsRun (λ w. run_in p.now mode.entry w turns)
        (seen (I.left input.old) (I.faults input.old) (O.held out.old) (O.faults out.old))
        (seen (I.left input.new) (I.faults input.new) (O.held out.new) (O.faults out.new)) e) }
    ensures counted { IfOk result (λ e. Counted limits
        (seen (I.left input.old) (I.faults input.old) (O.held out.old) (O.faults out.old))
        (seen (I.left input.new) (I.faults input.new) (O.held out.new) (O.faults out.new)) e) }
    ensures short { OnErr result (StoppedShort (λ w. run_in p.now mode.entry w turns)
        (seen (I.left input.old) (I.faults input.old) (O.held out.old) (O.faults out.old))
        (seen (I.left input.new) (I.faults input.new) (O.held out.new) (O.faults out.new))) }
{
    let types = Types::new(alloc, p)?;
    let offsets = Offsets::new(alloc, p)?;
    let locals = Locals::new(alloc, p)?;
    let mut held = Held::new(alloc, mode)?;
    start(&mut held, p, &types)?;
    let mut state = State::new(alloc, p.main, held.stack_top(), turns)?;
    let source = Source {
        alloc,
        p,
        types: &types,
        offsets: &offsets,
        locals: &locals,
    };
    state.run(&mut held, &source, input, out)
}
