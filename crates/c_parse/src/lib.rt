//! The tree of a C file, or why it has none (C11 6.5 to 6.9, annex A).
//!
//! Promise: `parse` gives the one tree of a file, or the first of 100 to 104, 121 and 120 that applies.
//! Definitions (`specs/`): `Parsed`; `Statements` of `c_externals`; `Parses` of `c_tree`.
//! Main lemmas (`proofs/`): `Answering`, `OneAnswer`.
#![tactic(auto)]

mod files;
mod laws;

pub use files::parse;
pub use laws::{one_answer, one_tree, readings_are_trees};
