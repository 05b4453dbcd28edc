//! The rules on the operands of the expressions of a C file (C11 6.4.4, 6.4.5, 6.5).
//!
//! Promise: an operator gives its typed node, or the first rule that its operands break.
//! Definitions (`specs/`): `Expressions` of `c_tree`; `Called`, `Steps` of `c_operand_rules`; here `Rules`,
//! `Services`.
//! Main lemmas (`proofs/`): `Asking`, `Choosing`.
#![tactic(auto)]

mod assignments;
mod choices;
mod constants;
mod operators;
mod pointers;
mod services;

pub use assignments::{address_of, as_qualified, assign, cast, compound_of, local_of};
pub use c_operand_rules::{call, stepped_of};
pub use choices::conditional;
pub use constants::{append_text, character, int_constant, number, size_constant};
pub use operators::unary_on;
pub use pointers::{infix_join_of, sum_of};
pub use services::library_call;
