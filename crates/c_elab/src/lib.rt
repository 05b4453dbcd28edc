//! The typed program of a C file's tree (C11 6.5 to 6.9).
//!
//! Promise: `elab` gives the program that typing gives, or exactly the first rule that fails, with its code and
//! place.
//! Definitions (`specs/`): `Typing` of `c_tree`; here `Elaborated`.
//! Main lemmas (`proofs/`): `Reading`, `Ending`.
#![tactic(auto)]

mod bodies;
mod elaboration;
mod functions;
mod parameters;

pub use elaboration::elab;
