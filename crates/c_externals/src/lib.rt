//! The external definitions of a C file: declarations, statements and functions (C11 6.7 to 6.9).
//!
//! Promise: `file` gives the tree of all tokens, if the grammar has one of at most 200 levels.
//! Definitions (`specs/`): `Statements` (reading from left to right), `Blocks` (what is answered).
//! Main lemmas (`proofs/`): `StatementsSound`, `StatementsComplete`.
#![tactic(auto)]

mod declarations;
mod externals;
mod statements;

pub use externals::file;
