//! What a C program means, placed at the addresses of a map and without addresses (C11 6.5, 6.8, CHERI C).
//!
//! Promise: laws: turns alone bound a run; each node's tree is made of those of its operands.
//! Definitions (`specs/`): `Runs` (`placed`, `strict`), `Meaning`, `Statements`, `Calls`, `Modes`.
//! Main lemmas (`proofs/`): `Turns`, `Same`.
#![tactic(auto)]

mod laws;

pub use laws::{trees_of_operands, turns_alone};
