//! The capability machine: RV64IM with CHERI capabilities, one row per instruction, over 32 capability registers, a
//! program counter that is a capability, and tagged memory.
//!
//! Promise: a step is its row, a run is its steps, and no run of a contained text leaves it.
//! Definitions (`specs/`): `State`, `Integers`, `Rows`, `Step`, `ContainedText`, `Containment`, `Code`.
//! Main lemmas (`proofs/`): `Containment`, `KeptRows`, `KeptCode`.
#![tactic(auto)]

mod capability_rows;
mod code;
mod end;
mod integer_rows;
mod integers;
mod kept;
mod machine;
mod memory_rows;
mod output;
mod state;
mod step;

pub use end::{End, Step};
pub use integers::extended;
pub use machine::Machine;
