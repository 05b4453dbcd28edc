//! Selects the machine's instructions for three-address code.
//!
//! Promise: each instruction has a word, the size is within the costs, lines ascend, entries are distinct, and the
//! code is contained; where it is selectable, its words are those of the whole program, function by function. Calls are
//! near, or far where the text is longer than a call leads.
//! Definitions (`specs/`): `Choosing`, `Suiting`, `Selectable`, `Noting`, `Following`, `Selected`.
//! Main lemmas (`proofs/`): `Noted`, `Standing`, `Together`.
#![tactic(auto)]

mod calls;
mod comparisons;
mod conversions;
mod function;
mod functions;
mod homes;
mod memory;
mod numbers;
mod operations;
mod selection;
mod services;

pub use selection::{Items, select, select_within};
