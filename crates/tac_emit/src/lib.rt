//! The three-address code of a function while it is made: instruction by instruction, with new temps and labels.
//!
//! Promise: what is added keeps the code well formed, each temp of its kind and each label once; it is these very
//! instructions (`Emits`), and it takes so many temps, labels, places of the frame and words of machine code at most.
//! Definitions (`specs/`): `Emitted`, `Adding`, `Spent`, `Lone`.
//! Main lemmas (`proofs/`): `Wells`, `Instructions`, `Labels`, `Emitting`, `Spending`.
#![tactic(auto)]

mod emitter;

pub use emitter::{Copied, Emitter, Fork};
