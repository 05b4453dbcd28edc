//! Places the text, the table, the globals, the literals, the heap and the stack of a program.
//!
//! Promise: `place` gives a legal map, in which no two objects share a byte, or 141 exactly where the objects exceed
//! their limit.
//! Definitions (`specs/`): `Legal` and `Needs` of `obj_mem`; here `Placing`.
//! Main lemmas (`proofs/`): `Legal`, `Steps`.
#![tactic(auto)]

mod placing;
mod rows;
mod sizes;

pub use placing::{exceeds_limit, place};
pub use sizes::{Sizes, USUAL, is_heap, is_stack};
