//! The words of the command, as lines.
//!
//! Promise: a line is found exactly where the words are one, and it is the one that they are.
//! Definitions (`specs/`): `Lines`, `Asked`, `Rules`; the simple command of `clap`.
//! Main lemmas (`proofs/`): none.
#![tactic(auto)]

mod arguments;
mod line;
mod options;
mod words;

pub use line::{Line, Mode};
pub use words::line_of;
