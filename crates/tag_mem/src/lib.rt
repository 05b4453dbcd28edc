//! The memory of a capability machine: regions of bytes, with one tag for each granule of 16 bytes (CHERI ISAv9,
//! tagged memory). To a reader it is a map from addresses to bytes and a set of tagged granules.
//!
//! Promise: a write changes the bytes that it names and the tags of their granules, and nothing else; a read gives
//! what stands there.
//! Definitions (`specs/`): `Regions`, `Areas`, `Memory`, `Numbers`.
//! Main lemmas (`proofs/`): `ByAddress`, `Laws`.
#![tactic(auto)]

mod area;
mod mem;
mod number;
mod region;
mod tags;

pub use mem::Mem;
pub use region::Region;
