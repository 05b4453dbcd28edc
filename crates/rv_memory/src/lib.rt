//! The idioms of the machine's memory: how a kind is loaded, entries of the table, objects that become zero, and the
//! allocation of memory.
//!
//! Promise: each appends exactly the words that `select_words` has for it, and no more than it may cost.
//! Definitions (`specs/`): `Heap`.
//! Main lemmas (`proofs/`): `Zeroes`, `Allocated`.
#![tactic(auto)]

mod heap;
mod memory;
mod registers;

pub use heap::allocate;
pub use memory::{load_op, number_of, table_entry, zero_object};
pub use registers::{count, left, right, way};
