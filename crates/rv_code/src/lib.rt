//! Instructions as words of 32 bits, and back (RISC-V unprivileged ISA, formats and opcodes).
//!
//! Promise: a word decodes to an instruction exactly where it encodes that instruction, and an instruction has one
//! word.
//! Definitions (`specs/`): `Formats`, `Table`, `Encoding`, `Decoding`.
//! Main lemmas (`proofs/`): `Laws`, `ReadBack`.
#![tactic(auto)]

mod code;
mod decoding;
mod encoding;
mod fields;
mod table;

pub use code::{decode, encode};
