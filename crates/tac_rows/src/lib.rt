//! Tests of three-address code and of the code that is selected for it, and nothing else.
//!
//! Promise: none: a test that fails stops the gate. They stand apart, so that a crate is proved once, whatever its
//! tests say.
//! Definitions (`specs/`): none.
//! Main lemmas (`proofs/`): `Framed`.
#![tactic(auto)]

#[cfg(test)]
mod answers;
#[cfg(test)]
mod frames;
#[cfg(test)]
mod homes;
#[cfg(test)]
mod intervals;
#[cfg(test)]
mod selection;
#[cfg(test)]
mod steps;
#[cfg(test)]
mod three_address_code;
