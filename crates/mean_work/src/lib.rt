//! What a run of the meaning keeps: the parts of the work that is left to do, the places that stand ready, and the
//! turns; and the values that its memory holds, those of an object's granules, and the ones that bytes are, where they
//! are known.
//!
//! Promise: what is pushed last is done first, so the left one of two operands is; a turn is used where one is left,
//! and none behind the first call. A granule holds what was put last, or nothing; and where the strict meaning says
//! nothing, this is its reason. The meaning of each call on values is one of `obj_mem`.
//! Definitions (`specs/`): `Stacks`, `Places`, `Turns`, `Answers`. Main lemmas (`proofs/`): `Reversed`, `Turning`,
//! `Sets`.
#![tactic(auto)]

mod granules;
mod order;
mod reasons;
mod stack;
mod turns;
mod work;

pub use granules::{hold, release};
pub use order::{both, operands, then};
pub use reasons::{known, no_padding, unspecified};
pub use stack::Stack;
pub use turns::{turn, turn_behind};
pub use work::{NOWHERE, Place, Stop, Work, fault_end, unit_end};
