//! The compiler's top: the command over files, an input and an output.
//!
//! Promise: `cheric` does what its words ask for, says how it ended, and blames the outside only where it failed in
//! this call.
//! Definitions (`specs/`): `Command`; `Answers`, `Modes` of `command_modes`; `Lines` of `command_line`.
//! Main lemmas (`proofs/`): none.
#![tactic(auto)]

mod command;

pub use command::cheric;
pub use command_modes::{Answer, status_of};
pub use generator::generate;
