//! Tests of the crates that read C and place its objects, and nothing else.
//!
//! Promise: none: a test that fails stops the gate. They stand apart, so that a crate is proved once, whatever its
//! tests say.
//! Definitions (`specs/`): none.
//! Main lemmas (`proofs/`): none.
#![tactic(auto)]

#[cfg(test)]
mod agreement;
#[cfg(test)]
mod declarations;
#[cfg(test)]
mod given;
#[cfg(test)]
mod initializers;
#[cfg(test)]
mod layouts;
#[cfg(test)]
mod maps;
#[cfg(test)]
mod parsing;
#[cfg(test)]
mod programs;
#[cfg(test)]
mod tokens;
