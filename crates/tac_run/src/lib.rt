//! Three-address code as it runs, over separate objects under a map.
//!
//! Promise: of a sound program and a legal map, a run of well-formed code is what the code means, in the world of the
//! call; one that memory stops is the beginning of it.
//! Definitions (`specs/`): `Ready`, `Moments`, `Bases`, `Holdings`, `Views`.
//! Main lemmas (`proofs/`): `Acts`, `Starts`, `Meant`, `Readiness`.
#![tactic(auto)]

mod calls;
mod effects;
mod faults;
mod held;
mod operations;
mod places;
mod program;
mod run;
mod running;
mod start;
mod state;

pub use running::run_tac;
