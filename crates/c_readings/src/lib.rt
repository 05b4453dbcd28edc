//! Expressions, type names, specifiers, declarators and parameters of a C file's tree: the recursion over its syntax
//! (C11 6.5, 6.7).
//!
//! Promise: each part is typed as the definition's reading of it, or refused by its first rule.
//! Definitions (`specs/`): `Readings`, `Programs` of `c_tree`; here `Gathered`, `Folding`.
//! Main lemmas (`proofs/`): `Gathering`, `Calling`.
#![tactic(auto)]

mod declarators;
mod expressions;
mod parts;
mod rules;
mod tree;
mod types;

pub use declarators::derived;
pub use expressions::{constant, operand, value_of};
pub use tree::{FirstPart, ThreeParts, TwoParts, first_of, name_of, node_at, only, three, two};
pub use types::{specified, type_of};
