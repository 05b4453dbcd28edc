//! The types of a program by their numbers: one number for equal types, whether two types agree, and the composite of
//! two compatible types (C11 6.2.7).
//!
//! Promise: a number names the type that was asked for; agreement and composite are those of the definition.
//! Definitions (`specs/`): `Types` of `c_tree`; `Agreement` of `c_type_levels`; here `Numbers`.
//! Main lemmas (`proofs/`): `Keeping`, `Pairing`.
#![tactic(auto)]

mod agreement;
mod composites;
mod levels;
mod numbers;

pub use agreement::agree;
pub use c_type_levels::{Head, Lengths, head_of, params_of, stands_before};
pub use numbers::{Numbers, append, next_number, replace};
