//! The steps by which structs and unions are passed: hidden locals, arguments and `return` by pointers, and the
//! variables of a block.
//!
//! Promise: each makes what the passed program has in its place, behind what was made before: the hidden local of a
//! value, the copy of an argument and its address, the copy of what `return` has, the locals that parameters are copied
//! to. Where memory or the numbers of 32 bits end it is `NoMemory`.
//! Definitions (`specs/`): `Steps`, `Numbered` (the types), `Named` (the names of calls), `Ordered` (the numbers) of
//! `passing_nodes`.
//! Main lemmas (`proofs/`): `Calling`, `Returning`, `Ordering` of `passing_nodes`.
#![tactic(auto)]

mod blocks;
mod hidden;
mod returns;

pub use blocks::{add_numbers, block_vars, variables};
pub use hidden::{by_address, hidden_type, hide};
pub use passing_nodes::{
    Made, Names, Source, Types, VOID, bare, by_pointer, is_tagged, look, number_in,
};
pub use returns::give_back;
