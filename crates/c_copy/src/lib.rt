//! The new numbers of the objects and functions of a typed program, in its expressions; the parts of statements, and
//! statements with others.
//!
//! Promise: an expression with the new numbers has the renumbered term of what it was.
//! Definitions (`specs/`): `Operands` of `c_node_facts`; here `Copying`, `Standing`, `Order`.
//! Main lemmas (`proofs/`): `Renumbering`, `Copies`.
#![tactic(auto)]

mod numbers;
mod stmt_kinds;

pub use c_node_facts::{inner_with, listed, operands, two};
pub use numbers::Numbers;
pub use stmt_kinds::{parts, stmt_with, values};
