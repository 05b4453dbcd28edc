//! Building a C file, and putting the bytes under a name.
ghost use Rattle.std.specs.Prelude.{◌≡◌, ◌<◌, ◌-◌, ◌^◌, true};
ghost use Rattle.bounds_place.specs.Sizes.{in_range};
ghost use Rattle.command_modes.specs.Modes.{files_seen, BuildSays};

use crate::answer::Answer;
use crate::running::not_built;
use bounds_place::Sizes;
use cheric_build::build_sized;
use ck_base::{Files, PutError};
use std::alloc::Global;

/// Builds a C file for a heap and a stack of these sizes, and puts the bytes that were built under a name. Refuses what
/// `build` refuses: then no name is put.
pub fn build_file<F: Files>(
    alloc: Global,
    file: &[u8],
    elf: &str,
    sizes: Sizes,
    files: &mut F,
) -> Answer
    requires files_room { F.faults files.old < 2 ^ 64 - 1 }
    requires sizes { in_range sizes ≡ true }
    ensures { BuildSays (files_seen (F.told files.old) (F.faults files.old))
        (files_seen (F.told files.new) (F.faults files.new)) file.now elf.now sizes result }
{
    let built = match build_sized(alloc, file, sizes) {
        Ok(built) => built,
        Err(refusal) => return not_built(refusal),
    };
    match files.put(alloc, elf, &built.elf) {
        Ok(()) => Answer::Built(built.elf.len() as u64),
        Err(PutError::NoMemory) => Answer::Memory,
        Err(PutError::Failed) => Answer::File,
    }
}
