//! From a typed program to the ELF file of machine code.
//!
//! Promise: `build_typed` gives the program's image, whose runs are what the program means (`IsBuilt`), with the code
//! and the homes of which its text was made (`UsesRegisters`), or the first of 141 and 142 that applies.
//! Definitions (`specs/`): `Built`, `Registers`, `Written`, `Text`, `Coded`, `Frames`, `Programs`.
//! Main lemmas (`proofs/`): `Writes`, `Builds`, `Framed`, `Selecting`, `Meaning`, `LowFrames`,
//! `SameBuilt`.
#![tactic(auto)]

mod building;
mod frames;
mod homes;
mod image;
mod text;
mod whole;
mod written;

pub use building::{Built, START, build_typed};
