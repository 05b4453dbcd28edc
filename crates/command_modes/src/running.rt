//! Running an image: one that is built of a C file, and one that stands in a file.
ghost use Rattle.std.specs.Prelude.{◌≡◌, ◌<◌, ◌-◌, ◌^◌, true, Ok, Err, MatchResult};
ghost use Rattle.bounds_place.specs.Sizes.{in_range};
ghost use Rattle.ck_base.specs.Calls.{seen};
ghost use Rattle.image_load.specs.Judging.{judged};
ghost use Rattle.image_load.specs.State.{machine_of};
ghost use Rattle.image_load.specs.Loading.{Loads};
ghost use Rattle.typed_build.specs.Built.{place_of};
ghost use Rattle.command_modes.specs.Answers.{answer_of, trapped, not_built, refused_as};
ghost use Rattle.command_modes.specs.Modes.{RanLoaded, RunSays, ExecSays};

use crate::answer::Answer;
use bounds_place::Sizes;
use cap_machine::End;
use cap_ops::Cause;
use cheric_build::build_sized;
use ck_base::{Pos, Refusal, Sink, Source};
use elf_file::{Line as Position, View};
use image_load::{LoadRefusal, load};
use std::alloc::Global;

fn place_of(line: Position) -> Pos
    ensures { result ≡ place_of line }
{
    Pos {
        line: line.line,
        col: line.col,
    }
}

/// The answer of a trap at an address.
fn trapped(cause: Cause, pc: u64, line: Option<Position>) -> Answer
    ensures { result ≡ trapped cause pc line }
{
    match line {
        None => Answer::TrapAt(cause, pc),
        Some(line) if line.kind == 0 => Answer::Trap(cause, place_of(line)),
        Some(line) => Answer::Stack(place_of(line)),
    }
}

/// The answer of a run of an image.
fn answer_of(view: &View<'_>, end: End) -> Answer
    ensures { result ≡ answer_of view.now end }
{
    match end {
        End::Exit(n) => Answer::Exit(n),
        End::Trap(cause, pc) => trapped(cause, pc, view.position(pc)),
        End::Break(pc) => Answer::Break(pc),
        End::Illegal(pc) => Answer::Illegal(pc),
        End::Steps => Answer::Steps,
        End::ReadFault => Answer::Input,
        End::WriteFault => Answer::Output,
    }
}

/// The answer where a file is not built.
pub fn not_built(refusal: Refusal) -> Answer
    ensures { result ≡ not_built refusal }
{
    match refusal {
        Refusal::Code(code, pos) => Answer::Refused(code, pos),
        Refusal::NoMemory => Answer::Memory,
    }
}

/// The answer of a load that was refused.
fn refused_as(refusal: LoadRefusal) -> Answer
    ensures { result ≡ refused_as refusal }
{
    match refusal {
        LoadRefusal::NoMemory => Answer::Memory,
        refusal => Answer::NotLoaded(refusal.number()),
    }
}

/// Loads an image and runs it. After the load no memory is taken.
fn run_image<I: Source, O: Sink>(
    alloc: Global,
    view: &View<'_>,
    steps: u64,
    input: &mut I,
    out: &mut O,
) -> Result<Answer, LoadRefusal>
    requires source_room { I.faults input.old < 2 ^ 64 - 1 }
    requires sink_room { O.faults out.old < 2 ^ 64 - 1 }
    ensures { MatchResult
        result
        (λ answer. (judged view.now ≡ Ok tt) ×
        RanLoaded (seen (I.left input.old) (I.faults input.old) (O.held out.old) (O.faults out.old))
        (seen (I.left input.new) (I.faults input.new) (O.held out.new) (O.faults out.new))
        (record { image = view.now; machine = machine_of view.now }) steps answer)
        (λ refusal. ((seen (I.left input.new) (I.faults input.new) (O.held out.new) (O.faults out.new))
        ≡ (seen (I.left input.old) (I.faults input.old) (O.held out.old) (O.faults out.old))) ×
        Loads view.now (Err refusal)) }
{
    let mut machine = load(alloc, view)?;
    let end = machine.run(steps, input, out);
    Ok(answer_of(view, end))
}

/// Builds a C file for a heap and a stack of these sizes, loads the bytes that were built, and runs them.
pub fn run_file<I: Source, O: Sink>(
    alloc: Global,
    file: &[u8],
    limit: (u64, Sizes),
    input: &mut I,
    out: &mut O,
) -> Answer
    requires source_room { I.faults input.old < 2 ^ 64 - 1 }
    requires sink_room { O.faults out.old < 2 ^ 64 - 1 }
    requires sizes { in_range limit.1 ≡ true }
    ensures { RunSays (seen (I.left input.old) (I.faults input.old) (O.held out.old) (O.faults out.old))
        (seen (I.left input.new) (I.faults input.new) (O.held out.new) (O.faults out.new)) file.now limit.0 limit.1
        result }
{
    let (steps, sizes) = limit;
    let built = match build_sized(alloc, file, sizes) {
        Ok(built) => built,
        Err(refusal) => return not_built(refusal),
    };
    let Ok(view) = View::read(&built.elf) else {
        unreachable!()
    };
    match run_image(alloc, &view, steps, input, out) {
        Ok(answer) => answer,
        Err(_) => Answer::Memory,
    }
}

/// Reads the image in a file, loads it, and runs it.
pub fn exec_file<I: Source, O: Sink>(
    alloc: Global,
    file: &[u8],
    steps: u64,
    input: &mut I,
    out: &mut O,
) -> Answer
    requires source_room { I.faults input.old < 2 ^ 64 - 1 }
    requires sink_room { O.faults out.old < 2 ^ 64 - 1 }
    ensures { ExecSays (seen (I.left input.old) (I.faults input.old) (O.held out.old) (O.faults out.old))
        (seen (I.left input.new) (I.faults input.new) (O.held out.new) (O.faults out.new)) file.now steps result }
{
    let view = match View::read(file) {
        Ok(view) => view,
        Err(refusal) => return Answer::NotLoaded(refusal.number()),
    };
    match run_image(alloc, &view, steps, input, out) {
        Ok(answer) => answer,
        Err(refusal) => refused_as(refusal),
    }
}
