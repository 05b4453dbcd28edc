//! Programs in which no struct or union goes to a function or comes back by value: they are run as they are written.
//!
//! Promise: what `is_plain` accepts is such a program (`IsPlain`); where it is in order too, it shows the program that
//! is run in its place (`runs_as_written`). It takes no memory.
//! Definitions (`specs/`): `Passed` of `c_tree`; here `Plain`.
//! Main lemmas (`proofs/`): `TypeLaws`, `Expressions`, `Statements` and `Routines`, joined by `Unchanged`.
#![tactic(auto)]

mod nodes;
mod program;
mod types;

pub use program::is_plain;
