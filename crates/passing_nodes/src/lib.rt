//! What the steps by which structs and unions are passed are made of: the types by their new numbers, the names of
//! calls, and the expressions, statements and variables that are made.
//!
//! Promise: what is made stands behind what was made before, and means what the passed program has in its place. Where
//! memory or the numbers of 32 bits end it is `NoMemory`.
//! Definitions (`specs/`): `Steps`, `Numbered` (the types), `Named` (the names of calls) and `Places` (their order),
//! `Ordered` (the numbers). Main lemmas (`proofs/`): `Calling`, `Returning`, `Ordering`, `Naming`.
#![tactic(auto)]

mod names;
mod nodes;
mod types;

pub use names::Names;
pub use nodes::{Made, Source};
pub use types::{Types, VOID, bare, by_pointer, is_tagged, look, number_in};
