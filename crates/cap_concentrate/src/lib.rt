//! The capability format: the fields of 128 bits, the bounds that they give, and the rounding of a request (CHERI
//! ISAv9, CHERI Concentrate for 128-bit capabilities). No call takes memory, and none refuses.
//!
//! Promise: bounds that are set are the least that a capability can have; owned lengths have exact ones; moves nearby
//! keep them.
//! Definitions (`specs/`): `Packing`, `Decoding`, `Rounding`, `Encoding`.
//! Main lemmas (`proofs/`): `Least`, `Owned`, `Near`, `Encoded`.
#![tactic(auto)]

mod decoding;
mod fields;
mod packing;
mod rounding;

pub use decoding::{bounds_of, keeps_bounds};
pub use fields::{Bounds, Fields};
pub use packing::{NULL_BITS, flip_null, pack, unpack};
pub use rounding::{alignment_mask, rounded_length, set_bounds};
