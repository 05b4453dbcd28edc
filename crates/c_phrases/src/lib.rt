//! The phrases of a C file: expressions, specifiers, declarators and initializers (C11 6.5, 6.7).
//!
//! Promise: `read` and `specifiers` give the tree of the phrase that the tokens begin with, if there is one, and go on
//! behind it.
//! Definitions (`specs/`): `Reading` (what is read), `Got` (what is answered), `Steps` (the phrases).
//! Main lemmas (`proofs/`): `Sound`, `Complete`.
#![tactic(auto)]

mod counts;
mod cursor;
mod declaration_specifiers;
mod declarators;
mod expressions;
mod items;
mod levels;
mod names;
mod phrases;
mod runs;
mod steps;
mod stream;
mod tables;

pub use cursor::{Cursor, Mark, Part, Parts, Root, Stop, is_marked};
pub use declaration_specifiers::specifiers;
pub use items::{Item, Place};
pub use levels::{
    ADDITIVE, AND, ASSIGNMENT, CAST, COMMA, CONDITIONAL, EQUALITY, EXCLUSIVE_OR, INCLUSIVE_OR,
    LOGICAL_AND, LOGICAL_OR, MULTIPLICATIVE, POSTFIX, RELATIONAL, SHIFT, UNARY,
};
pub use names::{Naming, TypeNames};
pub use phrases::read;
pub use steps::{Phrase, Specified};
pub use stream::Stream;
