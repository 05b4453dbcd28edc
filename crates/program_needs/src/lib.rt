//! What a program asks for: bytes for each of its objects, and instructions for each turn.
//!
//! Promise: an object asks for its owned length and its alignment, and what objects take together is their sum, as 64
//! bits count it; the count of instructions for each turn is that of the definition.
//! Definitions (`specs/`): `Legal`, `Needs`, `Counted` of `obj_mem`; here `Needs`.
//! Main lemmas (`proofs/`): `Lengths`, `Locals`, `Counting`.
#![tactic(auto)]

mod counts;
mod needs;

pub use counts::count_of;
pub use needs::{
    LIMIT, Need, global_needs, literal_needs, local_needs, owned_by, owned_length, room,
    some_locals_exceed,
};
