//! Runs over real objects that stop before they end.
//!
//! Promise: definitions and lemmas alone. Definitions (`specs/`): `Stopping`. Main lemmas (`proofs/`): `Shortened`.
#![tactic(auto)]
