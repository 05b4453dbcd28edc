//! The meaning of programs as it runs: over separate objects, under a map or with no addresses.
//!
//! Promise: memory is what the meaning's operations say, and the run of a sound program with room, under a map that is
//! legal for it or in the strict mode, is the one that is meant; one that memory stops is the beginning of it.
//! Definitions (`specs/`): `HeldMemory`, `Modes`, `Starting`.
//! Main lemmas (`proofs/`): `Started`, `Beginning`, `Roomy`, `Fitting`, `Sizes`, `Allocating`; `Planned`, `Slots`,
//! `Mapped` and `Low` (what a legal map gives).
#![tactic(auto)]

mod held;
mod running;
mod start;

pub use running::mean;
