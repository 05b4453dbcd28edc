//! The machine to which the image of a program loads, and the program's first state.
//!
//! Promise: laws: the code is the machine's text, stack and table are there, the machine stands for the first state
//! of the program, and its addresses keep 64 bits.
//! Definitions (`specs/`): `Images` (what is asked of an image, and what is then known), `Running`, `Words`.
//! Main lemmas (`proofs/`): `Memory` (what an image loads), `Tables`, `Filled` and `Linked` (what the meaning writes at
//! the start), `Started`.
#![tactic(auto)]

mod laws;

pub use laws::{
    images_are_text, images_begin, images_fit, images_have_stacks, images_have_tables,
    images_have_words,
};
