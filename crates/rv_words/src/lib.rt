//! Words of the machine before they join the code: single instructions, words for numbers and for places far from a
//! base, and jumps, which are led to labels and functions once these stand.
//!
//! Promise: each instruction is one of the machine; words that were sound stay so when jumps are led, and each leads to
//! where its label stands or its function is entered.
//! Definitions (`specs/`): `Leading`, `Instructions`.
//! Main lemmas (`proofs/`): `Contained`, `Targets`, `Led`, `Landed`.
#![tactic(auto)]

pub mod instructions;
mod jumps;
mod parts;

pub use jumps::{Jump, Mark, lead, lead_to_entries, lead_to_marks};
pub use parts::{load_part, moved_part, number_part, store_part, word_part};
