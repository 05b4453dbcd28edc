//! One level of a type over the numbers of its parts: whether two levels agree, and the composite of two types of those
//! of their parts (C11 6.2.7).
//!
//! Promise: a level is that of the type; agreement but for the parts and the composite are those of the definition.
//! Definitions (`specs/`): `Types` of `c_tree`; here `Heads`, `Levels`, `Agreement`.
//! Main lemmas (`proofs/`): `Composing`.
#![tactic(auto)]

mod agreement;
mod composites;
mod heads;

pub use agreement::{Lengths, levels_agree};
pub use composites::composed;
pub use heads::{Head, Level, head_of, params_of, stands_before};
