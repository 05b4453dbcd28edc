//! The words of a line, as the simple command of `clap` takes them.

ghost use Rattle.std.specs.Prelude.{◌≡◌, ℕ, List, IfOk, MatchOption, IfSome, map, string_bytes};
ghost use Rattle.clap.specs.Words.{app_of, first_value, found_of};
ghost use Rattle.command_line.specs.Lines.{Line as LineOf, IsLine, Takes, command, given_in};
ghost use Rattle.command_line.specs.Asked.{line_of, IsLineInRange};

use crate::arguments::{option, word};
use crate::line::{Line, line_in};
use ck_base::NoMemory;
use clap::error::ErrorKind;
use clap::{ArgMatches, Command};
use std::alloc::Global;

/// The command, as `clap` reads it.
fn command<'a>(alloc: Global) -> Result<Command<'a>, NoMemory>
    ensures { IfOk result (λ c. app_of c ≡ command) }
{
    let command = Command::new(alloc, "cheric")
        .arg(word(alloc, "mode"))?
        .arg(word(alloc, "file"))?
        .arg(option(alloc, "steps"))?
        .arg(option(alloc, "turns"))?
        .arg(option(alloc, "out"))?
        .arg(option(alloc, "heap"))?
        .arg(option(alloc, "stack"))?;
    Ok(command)
}

/// What the words give under each name; none where the command doesn't take them.
fn matches_of<'a>(alloc: Global, words: &'a [String]) -> Result<Option<ArgMatches<'a>>, NoMemory>
    ensures { let words = map (λ s. string_bytes s) words.entry.now in
        IfOk result (λ found. MatchOption found (Takes words → ⊥)
        (λ m. Takes words × ((id : List ℕ) → first_value (found_of m) id ≡ given_in words id))) }
{
    match command(alloc)?.try_get_matches_from(words) {
        Ok(matches) => Ok(Some(matches)),
        Err(e) if e.kind() == ErrorKind::OutOfMemory => Err(NoMemory),
        Err(_) => Ok(None),
    }
}

/// The line that the words are, if they are one. They begin with the program's name.
pub fn line_of<'a>(alloc: Global, words: &'a [String]) -> Result<Option<Line<'a>>, NoMemory>
    ensures is { let words = map (λ s. string_bytes s) words.entry.now in
        IfOk result (λ found. MatchOption found ((line : LineOf) → IsLine words line → ⊥)
        (λ line. IsLine words (line_of line))) }
    // The sizes of a line and the number of functions that it asks for are in range.
    ensures ranged { IfOk result (λ found. IfSome found IsLineInRange) }
{
    match matches_of(alloc, words)? {
        Some(matches) => Ok(line_in(&matches)),
        None => Ok(None),
    }
}
