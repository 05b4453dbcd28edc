//! Tests of memory as separate objects, and nothing else.
//!
//! Promise: none: a test that fails stops the gate. They stand apart, so that a crate is proved once, whatever its
//! tests say.
//! Definitions (`specs/`): none.
#![tactic(auto)]

#[cfg(test)]
mod memory;
