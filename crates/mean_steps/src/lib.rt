//! The meaning of programs as a machine with a small step: a list of work, a list of values and one of places.
//!
//! Promise: laws: each act of the machine keeps what its work means, so its runs are those of the meaning.
//! Definitions (`specs/`): `Parts`, `Machine`, `Weights` (a bound of its acts), `Laws`.
//! Main lemmas (`proofs/`): `Meant`, `Steps`, `Runs`.
#![tactic(auto)]

mod laws;

pub use laws::runs_are_meant;
