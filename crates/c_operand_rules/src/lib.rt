//! The rules on the operands of calls, `++` and `--` (C11 6.5.2.2, 6.5.2.4, 6.5.3.1), and what the rules on operands
//! ask of types: which are complete (6.2.5p1), and where the members of a struct or union are found (6.5.2.3).
//!
//! Promise: an operator gives its typed node, or the first rule that its operands break: of a call its arguments come
//! before their number. What is asked of a type is answered as the definition does in every state of the typing that
//! what was built so far stands for, and nothing is changed.
//! Definitions (`specs/`): `Scopes`, `Expressions` of `c_tree`; here `Called`, `Steps`, `Complete`, `Members`.
//! Main lemmas (`proofs/`): `Arguments`, `Finding`.
#![tactic(auto)]

mod calls;
mod complete;
mod members;
mod steps;

pub use calls::{call, fewer, push};
pub use complete::{
    is_compound_counted, is_counted, is_difference_counted, is_readable, is_sized, is_sum_counted,
};
pub use members::{Found, find_member};
pub use steps::stepped_of;
