//! Runs of the meaning of programs, by a machine with a small step over the numbers of a typed program's nodes.
//!
//! Promise: every part is safe and ends, whatever the program is. For a program that typing gives (`IsFit`) each step
//! is one act of the machine of `mean_steps`, and meets the outside as that act does: values, places, operations,
//! choices, statements, jumps, calls, returns, library functions and intrinsics. So a whole run from the first moment
//! is the one that is meant, where at most 2^64 - 2 acts are left; `run` answers `Turns` after 2^64 - 1 acts.
//! Definitions (`specs/`): `Views` (what the state is in that machine's words), `Acts` (a step against an act),
//! `Begun`, `Placed` and `Finished` (what a node asks for first, and what its operation does), `Branches`, `Done`,
//! `Jumps` and `Labels` (statements), `Calls`, `Offsets`, `Parts` (what a part came to). Main lemmas (`proofs/`):
//! `Going`, `Stepping`, `Finishing`, `Stating`, `Calling`, `Serving`, `Placing`, `Chooses`, `Branching`.
#![tactic(auto)]

mod blocks;
mod branches;
mod call;
mod calls;
mod choices;
mod finish;
mod initialization;
mod locals;
mod offsets;
mod operations;
mod places;
mod services;
mod state;
mod statements;
mod steps;
mod storage;
mod values;
mod words;

pub use call::Call;
pub use locals::Locals;
pub use offsets::Offsets;
pub use places::{further, global_permissions, within_limit};
pub use state::{Source, State};
pub use storage::{AllocateFault, Storage};
