//! The values of a C program, the map of its places, and how a run of it ends.
//!
//! Promise: laws: where the strict mode answers, the placed one answers alike under every map; objects have exact
//! bounds.
//! Definitions (`specs/`): `Values`, `Objects`, `Access`, `Pointers`, `Comparisons`, `Heap`, `Legal`.
//! Main lemmas (`proofs/`): `Agree`, `Units`.
#![tactic(auto)]

mod ending;
pub mod laws;
mod map;
mod value;

pub use ending::{Ending, Fault, Reason, UnitFault};
pub use map::{Frame, Map, Mode, Slot};
pub use value::Value;
