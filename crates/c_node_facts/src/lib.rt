//! What the rules ask of one level of a type (C11 6.2.5), the integer promotions and the common type (6.3.1), and what
//! is known of an expression by what is known of its operands: whether it is a place, a constant (6.6), a null pointer
//! constant (6.3.2.3); its operands by their numbers, and the expression with others (6.5).
//!
//! Promise: each is what the definition says of every type that has this level, and of every term that is made so. What
//! is made with other operands names these, in order, and is else as it was.
//! Definitions (`specs/`): `Types`, `Constants`, `Conversions`, `Views`, `Programs` of `c_tree`; here `Classes`,
//! `Facts`, `Operands`.
//! Main lemmas (`proofs/`): `Known`.
#![tactic(auto)]

mod classes;
mod facts;
mod kinds;
mod lists;

pub use classes::{Class, Integer, class_of, params_of};
pub use facts::{
    Conversion, Evaluation, Fact, Join, Leaf, Step, call_fact, choice_fact, conversion_fact,
    join_fact, leaf_fact, step_fact,
};
pub use kinds::{inner_with, operands};
pub use lists::{list_of_one, list_of_two, listed, one, two};
