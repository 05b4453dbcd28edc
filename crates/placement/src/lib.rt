//! Placement independence: where the meaning of a C program without addresses is defined, it is the program's meaning
//! at the addresses of every legal map.
//!
//! Promise: the law `placement_independence`, of every sound program, legal map, input and number of turns.
//! Definitions (`specs/`): `Independence`; `Runs` of `cheri_c_sem`.
//! Main lemmas (`proofs/`): `Independent`.
#![tactic(auto)]

mod laws;

pub use laws::placement_independence;
