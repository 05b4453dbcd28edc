//! Running the strict meaning of a C file.
ghost use Rattle.std.specs.Prelude.{◌≡◌, ◌<◌, ◌-◌, ◌^◌};
ghost use Rattle.ck_base.specs.Calls.{seen};
ghost use Rattle.command_modes.specs.Answers.{meant};
ghost use Rattle.command_modes.specs.Modes.{MeanSays};

use crate::answer::Answer;
use crate::running::not_built;
use c_mean::mean;
use cheric_build::accepted;
use ck_base::{NoMemory, Sink, Source};
use obj_mem::{Ending, Mode};
use std::alloc::Global;

/// The answer of a run of the meaning.
fn meant(ending: Ending) -> Answer
    ensures { result ≡ meant ending }
{
    match ending {
        Ending::Exit(n) => Answer::Exit(n),
        Ending::Trap(cause, pos) => Answer::Trap(cause, pos),
        Ending::Stack(pos) => Answer::Stack(pos),
        Ending::Turns => Answer::Turns,
        Ending::Outside(pos) => Answer::Outside(pos),
        Ending::Unspecified(reason, pos) => Answer::Unspecified(reason, pos),
        Ending::ReadFault => Answer::Input,
        Ending::WriteFault => Answer::Output,
    }
}

/// Runs the strict meaning of a C file, for at most so many turns.
pub fn mean_file<I: Source, O: Sink>(
    alloc: Global,
    file: &[u8],
    turns: u64,
    input: &mut I,
    out: &mut O,
) -> Answer
    requires source_room { I.faults input.old < 2 ^ 64 - 1 }
    requires sink_room { O.faults out.old < 2 ^ 64 - 1 }
    ensures { MeanSays (seen (I.left input.old) (I.faults input.old) (O.held out.old) (O.faults out.old))
        (seen (I.left input.new) (I.faults input.new) (O.held out.new) (O.faults out.new)) file.now turns result }
{
    let program = match accepted(alloc, file) {
        Ok(program) => program,
        Err(refusal) => return not_built(refusal),
    };
    match mean(alloc, &program, Mode::Strict, input, out, turns) {
        Ok(ending) => meant(ending),
        Err(NoMemory) => Answer::Memory,
    }
}
