//! The declarations of a C file with their initialisers (C11 6.7), and its statements (C11 6.8).
//!
//! Promise: each is typed as the definition's reading of it, or refused by its first rule.
//! Definitions (`specs/`): `Declarations`, `Statements` of `c_tree`; here `Declaring`, `Statements`.
//! Main lemmas (`proofs/`): `Stating`, `Initializing`.
#![tactic(auto)]

mod declarations;
mod declaring;
mod filling;
mod four;
mod heads;
mod initial;
mod items;
mod labels;
mod simple;
mod statements;

pub use declarations::declaration;
pub use declaring::declare_definition;
pub use labels::Controlling;
pub use statements::{all_items, item};
