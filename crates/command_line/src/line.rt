//! What a line asks for.

ghost use Rattle.std.specs.Prelude.{◌≡◌, ℕ, MatchOption, IfSome, true};
ghost use Rattle.bounds_place.specs.Sizes.{in_range};
ghost use Rattle.clap.specs.Words.{first_value, found_of};
ghost use Rattle.command_line.specs.Lines.{Mode as ModeOf, Line as LineOf, IsCount, AsksMode, Asks, IsGiven, sizes_of};
ghost use Rattle.command_line.specs.Asked.{mode_of, options_of, line_of, IsLineInRange};

use crate::options::{Options, options_of, sizes_of};
use bounds_place::Sizes;
use clap::ArgMatches;
use itoa::Buffer;

/// The limit of instructions where the words name none.
const STEPS: u64 = 100_000_000;

/// The limit of turns where the words name none.
const TURNS: u64 = 10_000_000;

/// What is done with a file.
#[derive(Clone, Copy)]
pub enum Mode<'a> {
    /// Its C program is built for these sizes, and run for at most so many instructions.
    Run(u64, Sizes),
    /// Its C program is built for these sizes, and put under this name, or under the file's followed by `.elf`.
    Build(Option<&'a str>, Sizes),
    /// Its image is loaded, and run for at most so many instructions.
    Exec(u64),
    /// Its image is audited.
    Audit,
    /// Its C program is run by its strict meaning, for at most so many turns.
    Mean(u64),
    /// Its C program is built for these sizes, and its map shown.
    ShowMap(Sizes),
    /// Its C program is built for these sizes, and its listing shown.
    ShowListing(Sizes),
}

/// What a line of words asks for.
#[derive(Clone, Copy)]
pub enum Line<'a> {
    /// What is done with the file of this name.
    OfFile(&'a str, Mode<'a>),
    /// A C file of so many functions is generated, built for these sizes, and run for at most so many instructions.
    Generate(u32, u64, Sizes),
}

/// The number of functions that a word is.
fn count_of(word: &str) -> Option<u32>
    ensures { MatchOption result ((n : ℕ) → IsCount word.now n → ⊥) (λ n. IsCount word.now n) }
{
    match word.parse::<u32>() {
        Ok(n) if 1 <= n && n <= 64 && Buffer::new().format(n) == word => Some(n),
        _ => None,
    }
}

/// The mode that a word asks for, with the file's name and the options.
fn mode_of<'a>(word: &str, name: &str, options: Options<'a>) -> Option<Mode<'a>>
    ensures { MatchOption
        result
        ((mode : ModeOf) → AsksMode word.now name.now (options_of options.entry) mode → ⊥)
        (λ mode. AsksMode word.now name.now (options_of options.entry) (mode_of name.now mode)) }
{
    let steps = options.steps.unwrap_or(STEPS);
    let sizes = sizes_of(options);
    match word {
        "run" => Some(Mode::Run(steps, sizes)),
        "build" => Some(Mode::Build(options.out, sizes)),
        "exec" => Some(Mode::Exec(steps)),
        "audit" => Some(Mode::Audit),
        "mean" => Some(Mode::Mean(options.turns.unwrap_or(TURNS))),
        "map" => Some(Mode::ShowMap(sizes)),
        "list" => Some(Mode::ShowListing(sizes)),
        _ => None,
    }
}

/// The line that a word asks for, with the other word and the options.
fn line_by<'a>(word: &str, name: &'a str, options: Options<'a>) -> Option<Line<'a>>
    ensures { MatchOption
        result
        ((line : LineOf) → Asks word.now name.entry.now (options_of options.entry) line → ⊥)
        (λ line. Asks word.now name.entry.now (options_of options.entry) (line_of line)) }
{
    if word != "gen" {
        return Some(Line::OfFile(name, mode_of(word, name, options)?));
    }
    let steps = options.steps.unwrap_or(STEPS);
    Some(Line::Generate(count_of(name)?, steps, sizes_of(options)))
}

/// The line that was given.
pub fn line_in<'a>(matches: &ArgMatches<'a>) -> Option<Line<'a>>
    ensures is { let given = first_value (found_of matches.now) in
        MatchOption result ((line : LineOf) → IsGiven given line → ⊥) (λ line. IsGiven given (line_of line)) }
    ensures ranged { IfSome result IsLineInRange }
{
    let options = options_of(matches)?;
    if !sizes_of(options).in_range() {
        return None;
    }
    let word = matches.get_str("mode")?;
    let name = matches.get_str("file")?;
    line_by(word, name, options)
}
