//! Frames and calls of pure-capability code: where arguments stand, the frame of a function and what it saves, how a
//! function begins and ends, and words for numbers, and for places that may be far from a base. The callee keeps c8, c9
//! and c18 to c27; the words here use no scratch register but c28, c29 and c30.
//!
//! Promise: a frame is one that a legal map may have, and each slot in it has 16 bytes; prologue and epilogue are those
//! of the definition word for word, and so are the words of numbers, which make them.
//! Definitions (`specs/`): `Frames`, `Placing`, `Saving`, `Ends`, `Words`, `Numbers`.
//! Main lemmas (`proofs/`): `FrameLaws`, `EndLaws`, `Ranges`, `Numbers`.
#![tactic(auto)]

mod arguments;
mod ends;
mod frames;
mod offsets;
mod saving;
mod taking;
mod words;

pub use arguments::{argument, stack_argument};
pub use ends::{epilogue, first_store, prologue};
pub use frames::frame;
pub use offsets::Saved;
pub use saving::saved;
pub use taking::Way;
pub use words::{load_capability, moved, number, store_capability};
