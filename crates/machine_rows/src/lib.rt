//! Tests of the crates below the language: numbers, worlds, capabilities, memory, instructions, images and the
//! machine.
//!
//! Promise: none: a test that fails stops the gate. They stand apart, so that a crate is proved once, whatever its
//! tests say.
//! Definitions (`specs/`): none.
//! Main lemmas (`proofs/`): none.
#![tactic(auto)]

#[cfg(test)]
mod answers;
#[cfg(test)]
mod audits;
#[cfg(test)]
mod capabilities;
#[cfg(test)]
mod concentrate;
#[cfg(test)]
mod images;
#[cfg(test)]
mod integers;
#[cfg(test)]
mod loading;
#[cfg(test)]
mod machines;
#[cfg(test)]
mod made;
#[cfg(test)]
mod memory;
#[cfg(test)]
mod words;
#[cfg(test)]
mod worlds;
