//! The operations on values and memory that the meaning of programs stands on, as a trait, and what is made of them.
//!
//! Promise: each call is its definition, whatever the operations are.
//! Definitions (`specs/`): `Answers`; what they speak of is `cheri_c_sem`'s.
//! Main lemmas (`proofs/`): none.
#![tactic(auto)]

mod arithmetic;
mod operations;
mod signs;

pub use arithmetic::{Derived, Moved, Operation, compared, converted, is_true, operated};
pub use operations::{Operations, Work};
pub use signs::signed;
