//! Where the temps of three-address code are live, and what its calls need.
//!
//! Promise: the interval of a temp covers each place where it is live, and is the least that does so as defined.
//! Definitions (`specs/`): `Intervals` of `tac_ir`; here `Live`, `Loops`, `Uses`.
//! Main lemmas (`proofs/`): `LiveTemps`, `LoopSteps`.
#![tactic(auto)]

mod calling;
mod live;
mod loops;
mod operands;
mod uses;

pub use calling::{calls, outgoing};
pub use live::intervals;
