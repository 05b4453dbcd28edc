//! The call that does all that the program does.
ghost use Rattle.std.specs.Prelude.{◌≡◌, ℕ, List, ◌<◌, ◌-◌, ◌^◌, IfOk, MatchResult, map, string_bytes};
ghost use Rattle.bounds_place.specs.declared.sizes.Sizes.{Sizes as SizesOf};
ghost use Rattle.ck_base.specs.Calls.{seen};
ghost use Rattle.command_line.specs.Lines.{Build};
ghost use Rattle.command_line.specs.Asked.{mode_of, IsInRange};
ghost use Rattle.command_line.specs.declared.line.Mode.TheVariants as modes;
ghost use Rattle.command_modes.specs.Modes.{files_seen};
ghost use Rattle.cheric_top.specs.Command.{around, HasRead, NotRead, ModeSays, FileSays};
ghost use Rattle.cheric_top.specs.Command.{source_of, Says, IsDone};

use ck_base::{FileError, Files, NoMemory, Sink, Source};
use command_line::{Line, Mode, line_of};
use command_modes::{
    Answer, audit_file, build_file, exec_file, mean_file, run_file, say, show_generated,
    show_listing, show_map,
};
use std::alloc::Global;

/// The bytes of the file of this name, or the answer where it is not read.
fn read<F: Files>(alloc: Global, files: &mut F, name: &str) -> Result<Vec<u8>, Answer>
    requires { F.faults files.old < 2 ^ 64 - 1 }
    ensures { MatchResult
        result
        (λ file. ((files_seen (F.told files.new) (F.faults files.new))
        ≡ (files_seen (F.told files.old) (F.faults files.old))) ×
        HasRead (files_seen (F.told files.old) (F.faults files.old)) name.now file.items)
        (λ answer. NotRead (files_seen (F.told files.old) (F.faults files.old))
        (files_seen (F.told files.new) (F.faults files.new)) name.now answer) }
{
    match files.get(alloc, name) {
        Ok(file) => Ok(file),
        Err(FileError::NoMemory) => Err(Answer::Memory),
        Err(FileError::Failed | FileError::Missing | FileError::TooLong) => Err(Answer::File),
    }
}

/// The name under which a built file is put.
fn elf_name(alloc: Global, name: &str, elf: Option<&str>) -> Result<String, NoMemory>
    ensures { IfOk result (λ s. (sizes : SizesOf) →
        mode_of name.now (modes.Build elf.entry sizes) ≡ Build (string_bytes s) sizes) }
{
    if let Some(elf) = elf {
        return Ok(String::from_str(alloc, elf)?);
    }
    let mut elf = String::from_str(alloc, name)?;
    elf.push_str(".elf")?;
    Ok(elf)
}

/// Does what a mode does with a file that was read.
fn work_on<F: Files, I: Source, O: Sink>(
    alloc: Global,
    name: &str,
    mode: Mode<'_>,
    file: &[u8],
    files: &mut F,
    input: &mut I,
    out: &mut O,
) -> Answer
    requires files_room { F.faults files.old < 2 ^ 64 - 1 }
    requires source_room { I.faults input.old < 2 ^ 64 - 1 }
    requires sink_room { O.faults out.old < 2 ^ 64 - 1 }
    requires ranged { IsInRange mode }
    ensures { ModeSays (around (files_seen (F.told files.old) (F.faults files.old))
        (files_seen (F.told files.new) (F.faults files.new))
        (seen (I.left input.old) (I.faults input.old) (O.held out.old) (O.faults out.old))
        (seen (I.left input.new) (I.faults input.new) (O.held out.new) (O.faults out.new))) file.now
        (mode_of name.now mode.entry) result }
{
    match mode {
        Mode::Run(steps, sizes) => run_file(alloc, file, (steps, sizes), input, out),
        Mode::Exec(steps) => exec_file(alloc, file, steps, input, out),
        Mode::Build(elf, sizes) => match elf_name(alloc, name, elf) {
            Ok(elf) => build_file(alloc, file, &elf, sizes, files),
            Err(NoMemory) => Answer::Memory,
        },
        Mode::Audit => audit_file(alloc, file),
        Mode::Mean(turns) => mean_file(alloc, file, turns, input, out),
        Mode::ShowMap(sizes) => show_map(alloc, file, sizes, out),
        Mode::ShowListing(sizes) => show_listing(alloc, file, sizes, out),
    }
}

/// The file whose places the answers of a mode name, by the file that was read.
fn source_of(alloc: Global, mode: Mode<'_>, file: Vec<u8>) -> Vec<u8>
    ensures { (name : List ℕ) → result.items ≡ source_of (mode_of name mode.entry) file.items }
{
    match mode {
        Mode::Exec(_) => Vec::new(alloc),
        Mode::Audit => Vec::new(alloc),
        _ => file,
    }
}

/// Reads a file and does with it what a mode does: the answer, and the file whose places it names.
fn work_on_name<F: Files, I: Source, O: Sink>(
    alloc: Global,
    name: &str,
    mode: Mode<'_>,
    files: &mut F,
    input: &mut I,
    out: &mut O,
) -> (Answer, Vec<u8>)
    requires files_room { F.faults files.old < 2 ^ 64 - 1 }
    requires source_room { I.faults input.old < 2 ^ 64 - 1 }
    requires sink_room { O.faults out.old < 2 ^ 64 - 1 }
    requires ranged { IsInRange mode }
    ensures { FileSays (around (files_seen (F.told files.old) (F.faults files.old))
        (files_seen (F.told files.new) (F.faults files.new))
        (seen (I.left input.old) (I.faults input.old) (O.held out.old) (O.faults out.old))
        (seen (I.left input.new) (I.faults input.new) (O.held out.new) (O.faults out.new))) name.now
        (mode_of name.now mode.entry) result.1.items result.0 }
{
    match read(alloc, files, name) {
        Ok(file) => {
            let answer = work_on(alloc, name, mode, &file, files, input, out);
            (answer, source_of(alloc, mode, file))
        }
        Err(answer) => (answer, Vec::new(alloc)),
    }
}

/// Does what the words say: the answer, and the file whose places it names.
fn work<F: Files, I: Source, O: Sink>(
    alloc: Global,
    words: &Vec<String>,
    files: &mut F,
    input: &mut I,
    out: &mut O,
) -> (Answer, Vec<u8>)
    requires files_room { F.faults files.old < 2 ^ 64 - 1 }
    requires source_room { I.faults input.old < 2 ^ 64 - 1 }
    requires sink_room { O.faults out.old < 2 ^ 64 - 1 }
    ensures { Says (around (files_seen (F.told files.old) (F.faults files.old))
        (files_seen (F.told files.new) (F.faults files.new))
        (seen (I.left input.old) (I.faults input.old) (O.held out.old) (O.faults out.old))
        (seen (I.left input.new) (I.faults input.new) (O.held out.new) (O.faults out.new)))
        (map (λ s. string_bytes s) words.now.items) result.1.items result.0 }
{
    let none = Vec::new(alloc);
    match line_of(alloc, words.as_slice()) {
        Ok(Some(Line::OfFile(name, mode))) => work_on_name(alloc, name, mode, files, input, out),
        Ok(Some(Line::Generate(functions, steps, sizes))) => (
            show_generated(alloc, functions, (steps, sizes), out),
            none,
        ),
        Ok(None) => (Answer::Words, none),
        Err(NoMemory) => (Answer::Memory, none),
    }
}

/// Does all that the program does, and gives the status with which it ends.
///
/// `words` begins with the program's name. The lines are `run FILE`, `build FILE`, `exec FILE`, `audit FILE`, `mean
/// FILE`, `map FILE`, `list FILE` and `gen N`, with the options `--steps N`, `--turns N`, `--out NAME`, `--heap N` and
/// `--stack N`, in any order and each at most once; an option that a mode does not use has no effect. `run` builds a C
/// file, loads the bytes and runs them over `input` and `out`; `build` puts them under NAME, or under FILE followed by
/// `.elf`; `exec` loads and runs such a file, and `audit` says whether a run of it can leave its text, or which word or
/// relocation first breaks a rule. `mean` runs the strict meaning of a C file over `input` and `out`. `map` and `list`
/// put to `out` where the parts of a C file's program stand, and the listing of its text. `gen` generates a C file of N
/// functions, runs it and puts a summary to `out`. But for these three where they succeed, one line of text on the
/// outcome goes to `notes`. A place in it is one of the C file as its line markers give it: a file name, where there is
/// one, a line and a column.
pub fn cheric<F: Files, I: Source, O: Sink, N: Sink>(
    alloc: Global,
    words: &Vec<String>,
    files: &mut F,
    input: &mut I,
    out: &mut O,
    notes: &mut N,
) -> u8
    requires files_room { F.faults files.old < 2 ^ 64 - 1 }
    requires source_room { I.faults input.old < 2 ^ 64 - 1 }
    requires sink_room { O.faults out.old < 2 ^ 64 - 1 }
    requires notes_room { N.faults notes.old < 2 ^ 64 - 1 }
    ensures { IsDone (around (files_seen (F.told files.old) (F.faults files.old))
        (files_seen (F.told files.new) (F.faults files.new))
        (seen (I.left input.old) (I.faults input.old) (O.held out.old) (O.faults out.old))
        (seen (I.left input.new) (I.faults input.new) (O.held out.new) (O.faults out.new)))
        (map (λ s. string_bytes s) words.now.items) result (N.held notes.old) (N.held notes.new) (N.faults notes.old)
        (N.faults notes.new) }
{
    let (answer, source) = work(alloc, words, files, input, out);
    say(answer, &source, notes)
}
