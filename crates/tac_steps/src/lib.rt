//! The meaning of three-address code as a machine with a small step: the number of the next instruction, and the calls
//! that wait.
//!
//! Promise: law: each act of the machine keeps what its code means, so its runs are those of the meaning, for every
//! code.
//! Definitions (`specs/`): `Machine`, `Weights` (a bound of its acts), `Laws`.
//! Main lemmas (`proofs/`): `Kept`, `Meant`, `Runs`.
#![tactic(auto)]

mod laws;

pub use laws::runs_are_meant;
