//! Capabilities with their tag, the operations on them, and the check of an access (CHERI ISAv9). What does not
//! succeed gives the same capability with the tag clear; none traps, and no call takes memory.
//!
//! Promise: no operation sets a tag or widens; `check` gives the first cause by which an access fails.
//! Definitions (`specs/`): `Capability`, `Access`, `Bounded`.
//! Main lemmas (`proofs/`): `Inside`, `Laws`.
#![tactic(auto)]

mod access;
mod capability;
mod checking;
mod fields;
mod operations;

pub use access::{Access, Cause};
pub use capability::{
    Cap, EXECUTE, LOAD, LOAD_CAPABILITY, SENTRY, STORE, STORE_CAPABILITY, UNSEALED,
};
pub use checking::check;
pub use operations::{add, and_perms, clear, narrow, narrow_exact, null, seal_entry, with_address};
