//! The machine's code as it grows: words appended one after another, with the places in the source of those that may
//! trap, and jumps that lead to labels and functions once these stand.
//!
//! Promise: each word is one of the machine, the lines ascend and lie in the code, jumps lead to where their labels
//! stand and calls to where functions are entered, and the whole code is contained.
//! Definitions (`specs/`): `Growing`, what is seen of the code; `Leading`, where its jumps lead.
//! Main lemmas (`proofs/`): `Grown`, `Appended`; `Contained`, `Led`, `Landed` of `rv_words`.
#![tactic(auto)]

mod emit;

pub use emit::{Code, Complete};
pub use rv_words::{Jump, Mark, instructions};
