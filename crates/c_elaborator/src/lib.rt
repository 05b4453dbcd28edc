//! What the elaboration of a C file has built so far, the rules on operands that look at what is declared (C11 6.5),
//! and how statements are added and scopes stand in scopes (C11 6.2.1p4, 6.8).
//!
//! Promise: each step adds what the definition's step adds, or gives its refusal; a scope is closed as it was opened.
//! Definitions (`specs/`): `Scopes`, `Expressions`, `Statements` of `c_tree`; here `Work`, `Parts`, `Items`, `Scoped`.
//! Main lemmas (`proofs/`): `Extending`, `Kept`, `Adding`, `Scoping`.
#![tactic(auto)]

mod beginning;
mod declared;
mod items;
mod leaves;
mod lengths;
mod literals;
mod marks;
mod members;
mod operands;
mod parts;
mod places;
mod rules;
mod scoped;
mod work;

pub use items::{Context, Items, add_statement, does, join, no_items};
pub use marks::Mark;
pub use scoped::{enter, leave};
pub use work::{Bounds, Definition, Filling, Name, Part, Start, Use, Used, Waiting, Work};
