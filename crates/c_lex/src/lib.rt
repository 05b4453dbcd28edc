//! The tokens of a C file (C11 6.4, narrowed to the language that is compiled), as slices of the file, and the values
//! of its literals.
//!
//! Promise: `Tokens::next` gives the longest token, the end, or the first place that breaks the rules; a file has one
//! reading.
//! Definitions (`specs/`): `Lexes`, `Tokens` and `Literals` of `ck_base`; here `Fronts`, `Spelled`, `Bases`, `Reader`.
//! Main lemmas (`proofs/`): `Longest`, `OneReading`.
#![tactic(auto)]

mod bases;
mod forms;
mod laws;
mod literals;
mod pieces;
mod places;
mod punctuators;
mod separators;
mod tokens;

pub use ck_base::{Integer, TokenKind};
pub use laws::{calls_read, one_reading, one_step, token_count};
pub use literals::{char_of, integer_of, unescape};
pub use tokens::{Token, Tokens};
