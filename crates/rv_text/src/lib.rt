//! The text of an instruction in a listing.
//!
//! Promise: `line` appends exactly the text of its instruction, or leaves the string as it was.
//! Definitions (`specs/`): `Listing`.
//! Main lemmas (`proofs/`): none.
#![tactic(auto)]

mod listing;
mod names;
mod operands;

pub use listing::line;
