//! Which C files are accepted, and why the others are refused.
//!
//! Promise: `is_light` says whether a program is within the limits of weight, function by function and as a whole.
//! Definitions (`specs/`): `Accepted` (`Accepts`, `Refused`, `IsLight`, `OneFile`).
//! Main lemmas (`proofs/`): `OneFile`, where a file is read in one way; `Light`, `Summing`.
#![tactic(auto)]

mod weights;

pub use weights::is_light;
