//! The typed expressions of a C file, by their numbers, and their values and conversions (C11 6.3).
//!
//! Promise: each node has the term of the definition, and what is kept of it is what the definition says of that
//! term.
//! Definitions (`specs/`): `Conversions`, `Terms` of `c_tree`, `Facts` of `c_node_facts`; here `Nodes`.
//! Main lemmas (`proofs/`): `Converting`, `Keeping`.
#![tactic(auto)]

mod agreement;
mod conversions;
mod making;
mod nodes;
mod queries;
mod trees;

pub use c_interner::Lengths;
pub use c_node_facts::{Class, Conversion, Evaluation, Fact, Integer, Join, Leaf, Step};
pub use nodes::{Nodes, Operand};
