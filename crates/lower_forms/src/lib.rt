//! What lowered code looks like, whatever the machine: facts of the code and its program alone, for what is built on
//! it.
//!
//! Promise: the code that stands for a sound program, as `lower_runs` says it, and is well formed and within it, has
//! the form of `Forms` (`code_has_form`); each part of that has a law of its own, with the premises that it needs. And
//! each object of a function becomes zero in its code (`objects_become_zero`).
//! Definitions (`specs/`): `Forms`, of instructions, functions and programs; `Laws`.
//! Main lemmas (`proofs/`): `Naming`, what well formed code says; `Scalars` and `Parameters`, types by their numbers
//! and as trees; `Calling`; `Trees`, what is asked of trees; `Operations`, `Expressions` and `Statements`, that their
//! code is then so, by induction on how it is made; `Working` and `Running`, that the trees of a sound program are;
//! `Zeroed` and `Declaring`, that each object becomes zero.
#![tactic(auto)]

mod laws;

pub use laws::{
    calls_are_short, code_has_form, code_is_made, code_is_named, copies_are_counted,
    main_gives_int, objects_become_zero, parameters_are_taken,
};
