//! The idioms of the machine: the few instructions that stand for one operation on registers.
//!
//! Promise: each appends exactly the words that `select_words` has for the operation, and no more than it may cost:
//! comparisons, reductions to a kind, loads and stores, loops that copy a struct, and moves that all happen at once; and
//! from `rv_memory`, entries of the table, objects that become zero and the allocation of memory.
//! Definitions (`specs/`): `Operations`, `Copies`, `Moves`.
//! Main lemmas (`proofs/`): `Copied`, `Moved`; `Zeroes` of `rv_memory`.
#![tactic(auto)]

mod comparisons;
mod kinds;
mod memory;
mod moves;
mod operations;

pub use comparisons::{compare, compare_number, compare_zero};
pub use kinds::{bits_of, is_signed, is_wide, keep_bits};
pub use memory::{copy_loop, copy_unit, load_words, store_op};
pub use moves::{Move, move_all};
pub use operations::{add_op, finish, reg_op, shift_op};
pub use rv_memory::{allocate, count, left, number_of, right, table_entry, way, zero_object};
