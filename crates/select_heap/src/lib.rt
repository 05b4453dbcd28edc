//! What the words of `malloc` do on the machine: what an allocation means over separate objects.
//!
//! Promise: laws: where the words that selection appends for a call of `malloc` stand in the text, a machine that
//! stands for a state of three-address code goes on to one that stands for the state behind the call: with null, or
//! with the pointer to a new object, which is placed as the meaning places it.
//! Definitions (`specs/`): `Allocating` (the heap's entry of the table), `Heap` (the words).
//! Main lemmas (`proofs/`): `Beside`, `Allocating`, `Masks`, `Rows`, `Heap`.
#![tactic(auto)]

mod laws;

pub use laws::{allocations_run, heap_moves_on, heap_reads_back};
