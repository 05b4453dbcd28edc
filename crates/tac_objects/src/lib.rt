//! Objects of a function in three-address code while it is made.
//!
//! Promise: no object becomes zero but where its block is entered, directly before its pointer is made; a pointer to a
//! member gets the bounds of what the member owns.
//! Definitions (`specs/`): `Emitted`, `Adding`, `Spent` of `tac_emit`.
//! Main lemmas (`proofs/`): none.
#![tactic(auto)]

mod objects;

pub use objects::{enter_object, enter_with, narrow_to_member};
