//! The relocations of a program, and the bytes of its initial data.
//!
//! Promise: each relocation is the capability with which a pointer of the program begins; the other bytes begin as
//! its objects do. A pointer to a whole object has the bounds of what it owns, and one to a string literal permits no
//! store.
//! Definitions (`specs/`): `Whole`, `Begins`, `Initial`.
//! Main lemmas (`proofs/`): `Starts`, `Contents`.
#![tactic(auto)]

mod beginning;
mod bytes;
mod pointers;
mod relocations;
mod starting;
mod whole_pointers;

pub use beginning::Table;
pub use starting::table;
