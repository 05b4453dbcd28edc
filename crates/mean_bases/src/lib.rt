//! The bases of the pointers that a run has.
//!
//! Promise: laws: at each moment of a run under a map whose heap is low and whose frames hold their locals, the base of
//! each value that stands ready is a number of 64 bits; a strict run tells none of a pointer.
//! Definitions (`specs/`): `Bases`, `Moments` (moments that acts lead to; bounds below 2^63), `Laws`.
//! Main lemmas (`proofs/`): `Stays` (what holds of each value is kept by each act, where operations keep it), `Keeps`
//! (the operations under a map keep bounds low).
#![tactic(auto)]

mod laws;

pub use laws::{placed_runs_have_bases, strict_runs_have_bases};
