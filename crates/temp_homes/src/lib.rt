//! Homes keep temps: along the ways that control takes through a function's code.
//!
//! Promise: a law: homes that keep live intervals apart keep the temps that are still to be read, where a temp is
//! written, where arguments are passed, and across calls.
//! Definitions (`specs/`): `Keeping`.
//! Main lemmas (`proofs/`): `Awaited`, an interval holds each reached place at which its temp is awaited.
#![tactic(auto)]

mod laws;

pub use laws::homes_keep_temps;
