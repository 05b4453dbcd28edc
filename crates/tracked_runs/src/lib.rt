//! Runs of a machine that track a run which is counted in turns.
//!
//! Promise: a law: where a machine's run tracks one that is meant, they match in both directions, within a count of
//! acts for each turn.
//! Definitions (`specs/`): `Tracking` (steps in a world, and what it is to track), `Matching` (what endings report, and
//! what is then known).
//! Main lemmas (`proofs/`): `Follow` (any machine, in both directions), `Matching`.
#![tactic(auto)]

mod laws;

pub use laws::tracked_runs_match;
