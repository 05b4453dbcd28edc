//! Memory as separate objects, and the operations on values, as code: with the addresses of a map, or with none.
//!
//! Promise: each call is its definition, in both modes and with its refusals exactly; `NoMemory` is answered by the
//! calls alone that make room. Definitions (`specs/`): `Views`, `Answers`, `Memories`, `Allocations`; the meaning of
//! each call is one of `obj_mem`, and of integers one of `cheri_c_sem`. Main lemmas (`proofs/`): `Loads`, `Puts`,
//! `Copies`, `Changed`.
#![tactic(auto)]

mod access;
mod bytes;
mod capabilities;
mod comparisons;
mod frames;
mod integers;
mod memory;
mod notes;
mod object;
mod pointers;
mod reach;
mod words;

pub use comparisons::callee;
pub use frames::{base_at, frame_of, local_offset};
pub use integers::{alignment_mask_of, rounded};
pub use memory::{AllocateFault, Memory};
pub use pointers::{has_tag, permissions_of};
