//! Where the objects of a run under a legal map are.
//!
//! Promise: laws: at each moment of such a run the extents of the objects that are alive are disjoint, and off the
//! text, the table and what the frames of the calls in progress save; members of properly aligned structs have exact
//! bounds.
//! Definitions (`specs/`): `Calls`, `Extents`, `Members`.
//! Main lemmas (`proofs/`): `Moments` (what is kept by each act), `Places` (extents of objects), `Stays`, `Members`.
#![tactic(auto)]

mod laws;

pub use laws::{extents_stay_apart, members_are_exact};
