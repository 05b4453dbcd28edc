//! Whole runs of selected code on the machine, and of three-address code.
//!
//! Promise: laws: where the words of each instruction do on the machine what it means, at each place to which a run
//! comes, whole runs match in both directions, within a count of acts for each turn; and so they do where the words
//! stand there in the forms that selection chooses.
//! Definitions (`specs/`): `Visited` (the places to which runs come), `Runs` (what is known of each kind of
//! instruction), `Matching` (what is asked of the code, and what is then known), `Chosen` (the forms).
//! Main lemmas (`proofs/`): `Kinded`, `Steady` (which object is the first of a function stays), `Moves` (each
//! instruction does one of few moves), `Passes` (by turns), `Matching`, `Chosen`.
#![tactic(auto)]

mod laws;

pub use laws::{chosen_code_matches, chosen_code_runs, whole_runs_match};
