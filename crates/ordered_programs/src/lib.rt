//! Whether a typed program is in order: its numbers name what is there, types, operands and parts stand before what
//! names them, and each expression and each statement is used once.
//!
//! Promise: what `is_ordered` accepts is in order (`IsOrdered`). It keeps one mark for each expression and statement.
//! Definitions (`specs/`): `IsOrdered` of `c_tree`; here `Uses` (the marks), `Ordered` (the parts of a program).
//! Main lemmas (`proofs/`): `Marking`, `Ordering`.
#![tactic(auto)]

mod expressions;
mod functions;
mod marks;
mod program;
mod statements;
mod types;

pub use program::is_ordered;
