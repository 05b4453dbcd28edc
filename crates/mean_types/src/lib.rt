//! What the meaning of programs asks of their types, as code.
//!
//! Promise: each answer is that of the definition: kinds, the facts of a type by its number, compatible types.
//! Definitions (`specs/`): `Views`, `Facts`, `Parameters`; what they speak of is `cheri_c_sem`'s.
//! Main lemmas (`proofs/`): `Behind`, `Agreement`.
#![tactic(auto)]

mod compatibility;
mod kinds;
mod types;

pub use compatibility::compatible;
pub use kinds::{
    INT, Kind, NOTHING, POINTER, address_kind, bytes_of, constant_of, int_kind, null_at, number_of,
    promoted, read_as, truth, zero_of,
};
pub use types::{TypeFacts, Types};
