//! Showing what a build says of itself: the map and the listing.
ghost use Rattle.std.specs.Prelude.{◌≡◌, ℕ, List, Option, ◌<◌, ◌-◌, ◌^◌, true, IfOk, IfErr};
ghost use Rattle.bounds_place.specs.Sizes.{in_range, HasSizes};
ghost use Rattle.ck_base.specs.Calls.{seen};
ghost use Rattle.cheric_build.specs.FromFile.{IsBuiltFrom, IsFileRefusal};
ghost use Rattle.command_modes.specs.Modes.{MapSays, ListingSays};
ghost use Rattle.command_modes.specs.Shown.{IsProgramOf, PutSays};

use crate::answer::Answer;
use crate::running::not_built;
use bounds_place::Sizes;
use build_text::{listing_of, map_of};
use c_tree::Typed;
use cheric_build::{Built, build_sized, build_typed, front};
use ck_base::{NoMemory, Refusal, Sink};
use elf_file::View;
use std::alloc::Global;

/// Puts a text to the output.
pub fn put<O: Sink>(out: &mut O, text: &[u8]) -> Answer
    requires { O.faults out.old < 2 ^ 64 - 1 }
    ensures { (left : Option (List ℕ)) (faults : ℕ) →
        PutSays (seen left faults (O.held out.old) (O.faults out.old))
        (seen left faults (O.held out.new) (O.faults out.new)) text.now result }
{
    match out.put(text) {
        Ok(()) => Answer::Shown,
        Err(_) => Answer::Output,
    }
}

/// The typed program of a C file, and what is built of it for a heap and a stack of these sizes.
fn build_program(alloc: Global, file: &[u8], sizes: Sizes) -> Result<(Typed, Built), Refusal>
    requires { in_range sizes ≡ true }
    ensures program { IfOk result (λ r. IsProgramOf file.now r.0 r.1.elf.items r.1.map r.1.count) }
    ensures built { IfOk result (λ r. IsBuiltFrom file.now r.1.elf.items r.1.map r.1.count) }
    ensures sized { IfOk result (λ r. HasSizes sizes r.1.map) }
    ensures refused { IfErr result (IsFileRefusal file.now) }
{
    let p = front(alloc, file)?;
    let built = build_typed(alloc, &p, sizes)?;
    Ok((p, built))
}

/// Builds a C file for a heap and a stack of these sizes, and puts the text of its map.
pub fn show_map<O: Sink>(alloc: Global, file: &[u8], sizes: Sizes, out: &mut O) -> Answer
    requires sink_room { O.faults out.old < 2 ^ 64 - 1 }
    requires sizes { in_range sizes ≡ true }
    ensures { (left : Option (List ℕ)) (faults : ℕ) →
        MapSays (seen left faults (O.held out.old) (O.faults out.old))
        (seen left faults (O.held out.new) (O.faults out.new)) file.now sizes result }
{
    let (p, built) = match build_program(alloc, file, sizes) {
        Ok(made) => made,
        Err(refusal) => return not_built(refusal),
    };
    match map_of(alloc, file, &p, &built.map) {
        Ok(text) => put(out, &text),
        Err(NoMemory) => Answer::Memory,
    }
}

/// Builds a C file for a heap and a stack of these sizes, and puts the listing of its text.
pub fn show_listing<O: Sink>(alloc: Global, file: &[u8], sizes: Sizes, out: &mut O) -> Answer
    requires sink_room { O.faults out.old < 2 ^ 64 - 1 }
    requires sizes { in_range sizes ≡ true }
    ensures { (left : Option (List ℕ)) (faults : ℕ) →
        ListingSays (seen left faults (O.held out.old) (O.faults out.old))
        (seen left faults (O.held out.new) (O.faults out.new)) file.now sizes result }
{
    let built = match build_sized(alloc, file, sizes) {
        Ok(built) => built,
        Err(refusal) => return not_built(refusal),
    };
    let Ok(view) = View::read(&built.elf) else {
        unreachable!()
    };
    match listing_of(alloc, built.map.text.0, view.text()) {
        Ok(text) => put(out, text.as_bytes()),
        Err(NoMemory) => Answer::Memory,
    }
}
