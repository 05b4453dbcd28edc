//! Generating a C file, and running it.
ghost use Rattle.std.specs.Prelude.{◌≡◌, ℕ, List, Option, [], Some, ◌++◌, ◌<◌, ◌≤◌, ◌-◌, ◌^◌, length, true, IfOk};
ghost use Rattle.std.specs.Prelude.{decimal, string_bytes};
ghost use Rattle.bounds_place.specs.Sizes.{in_range};
ghost use Rattle.ck_base.specs.Calls.{seen};
ghost use Rattle.command_modes.specs.Modes.{GenerateSays};
ghost use Rattle.command_modes.specs.Shown.{summary};

use crate::answer::Answer;
use crate::message::line_of;
use crate::running::run_file;
use crate::showing::put;
use bounds_place::Sizes;
use ck_base::{NoMemory, Sink, SureSink, SureSource};
use generator::generate;
use itoa::Buffer;
use std::alloc::Global;

/// The summary of a generated file of this length and of its run.
fn summary_of(alloc: Global, functions: u32, length: u64, ran: Answer) -> Result<String, NoMemory>
    ensures { IfOk result (λ s. string_bytes s ≡ summary functions length ran) }
{
    let mut summary = String::from_str(alloc, "functions ")?;
    summary.push_str(Buffer::new().format(functions))?;
    summary.push_str("\nsource ")?;
    summary.push_str(Buffer::new().format(length))?;
    summary.push_str("\n")?;
    summary.push_str(line_of(ran).as_str())?;
    Ok(summary)
}

/// Generates a C file of so many functions, builds and runs it over an input of its own, and puts a summary.
pub fn show_generated<O: Sink>(
    alloc: Global,
    functions: u32,
    limit: (u64, Sizes),
    out: &mut O,
) -> Answer
    requires sink_room { O.faults out.old < 2 ^ 64 - 1 }
    requires few { functions ≤ 64 }
    requires sizes { in_range limit.1 ≡ true }
    ensures { (left : Option (List ℕ)) (faults : ℕ) →
        GenerateSays (seen left faults (O.held out.old) (O.faults out.old))
        (seen left faults (O.held out.new) (O.faults out.new)) functions limit.0 limit.1 result }
{
    let Ok(file) = generate(alloc, functions) else {
        return Answer::Memory;
    };
    let mut input = SureSource::new(Vec::new(alloc));
    let mut output = SureSink::new();
    let ran = run_file(alloc, &file, limit, &mut input, &mut output);
    if let Answer::Memory = ran {
        return Answer::Memory;
    }
    match summary_of(alloc, functions, file.len() as u64, ran) {
        Ok(text) => put(out, text.as_bytes()),
        Err(NoMemory) => Answer::Memory,
    }
}
