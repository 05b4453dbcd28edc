//! Line markers: the places that the user of a preprocessed file knows (C11 6.10.4).
//!
//! Promise: `marked` gives the place by the last marker before the position.
//! Definitions (`specs/`): `Comments`, `Marks`, `Plain`.
//! Main lemmas (`proofs/`): `Passing`, `Plain`.
#![tactic(auto)]

mod comments;
mod laws;
mod markers;
mod places;

pub use laws::unmarked;
pub use places::{MarkedPlace, marked};
