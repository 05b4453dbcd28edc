//! The text of a C file of as many functions as one asks for.
//!
//! Promise: the file is exactly that of the definition.
//! Definitions (`specs/`): `Generated`.
//! Main lemmas (`proofs/`): none.
#![tactic(auto)]

mod generating;

pub use generating::generate;
