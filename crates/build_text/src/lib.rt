//! What a build says of itself, as text: where the parts of the program stand, and the words of its text.
//!
//! Promise: the text is exactly that of the map, or of the words.
//! Definitions (`specs/`): `Map`, `Listing`; `Listing` of `rv_text`.
//! Main lemmas (`proofs/`): none.
#![tactic(auto)]

mod listing;
mod map;

pub use listing::listing_of;
pub use map::map_of;
