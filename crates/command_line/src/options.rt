//! The options of a line.

ghost use Rattle.std.specs.Prelude.{◌≡◌, MatchOption, Option, List, ℕ};
ghost use Rattle.clap.specs.Words.{first_value, found_of};
ghost use Rattle.command_line.specs.Lines.{IsNumber, IsNumberIfGiven, number_in, HasNumbers, options_in, sizes_of};
ghost use Rattle.command_line.specs.Asked.{text_in, options_of};
ghost use Rattle.std.specs.Str.Parse.{digits_value};

use bounds_place::{Sizes, USUAL};
use clap::ArgMatches;

/// The greatest number of a line.
const GREATEST: u64 = 1_000_000_000_000;

/// The most digits of a number.
const MOST_DIGITS: usize = 13;

/// What the options of a line set.
#[derive(Clone, Copy)]
pub struct Options<'a> {
    /// The limit of instructions.
    pub steps: Option<u64>,
    /// The limit of turns.
    pub turns: Option<u64>,
    /// The name of the ELF file.
    pub out: Option<&'a str>,
    /// The heap's length.
    pub heap: Option<u64>,
    /// The stack's length.
    pub stack: Option<u64>,
}

/// The number that a word is. A plus, which the standard library would take in front of the digits, is none.
fn number(word: &str) -> Option<u64>
    ensures { MatchOption result (IsNumber word.now → ⊥) (λ n. IsNumber word.now × (n ≡ digits_value 10 word.now)) }
{
    if word.len() > MOST_DIGITS || word.as_bytes().first() == Some(&b'+') {
        return None;
    }
    match word.parse::<u64>() {
        Ok(n) if n <= GREATEST => Some(n),
        _ => None,
    }
}

/// The number of an option, if it is there; none where it is there and its value is no number.
fn number_of(word: Option<&str>) -> Option<Option<u64>>
    ensures { MatchOption result (IsNumberIfGiven (text_in word.entry) → ⊥)
        (λ n. IsNumberIfGiven (text_in word.entry) × (n ≡ number_in (text_in word.entry))) }
{
    match word {
        None => Some(None),
        Some(word) => Some(Some(number(word)?)),
    }
}

/// What the options set; none where a value is no number.
pub fn options_of<'a>(matches: &ArgMatches<'a>) -> Option<Options<'a>>
    ensures { let given = first_value (found_of matches.now) in
        MatchOption result (HasNumbers given → ⊥) (λ o. HasNumbers given × (options_of o ≡ options_in given)) }
{
    Some(Options {
        steps: number_of(matches.get_str("steps"))?,
        turns: number_of(matches.get_str("turns"))?,
        out: matches.get_str("out"),
        heap: number_of(matches.get_str("heap"))?,
        stack: number_of(matches.get_str("stack"))?,
    })
}

/// The sizes that the options choose.
pub fn sizes_of(options: Options<'_>) -> Sizes
    ensures { result ≡ sizes_of (options_of options.entry) }
{
    Sizes {
        heap: options.heap.unwrap_or(USUAL.heap),
        stack: options.stack.unwrap_or(USUAL.stack),
    }
}
