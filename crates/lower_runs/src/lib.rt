//! What lowered code does: what the program means.
//!
//! Promise: laws, for each rule by which lowering makes code: where the codes of the parts do what the parts mean, so
//! does the whole, over all operations, in every world, and whatever follows; and `programs_run`: where the code of
//! each function stands for it, that of a sound program runs under a legal map as the program means, for every input of
//! bytes and any number of turns. `calls_fit` and `copies_fit` say what the relation asks of types. Definitions
//! (`specs/`): the relation of trees and code in `Expressions`, `Statements`, `Operating`, `Functions` and `Programs`,
//! and of code and shorter code in `Shortened`; which trees have code, in `Trees`; the relation of states in `States`
//! and `Sound`; the simulation in `Simulation`, `Following` and `Calling`; the results in `Laws`, `StatementLaws`,
//! `Result`, `Frames`, `Functions`, `Programs` and `Fitting`. Main lemmas (`proofs/`): `Agreement`, `Operands`,
//! `Conditions`, `Places`, `Changes`, `Placed`, `Functions`, `Shortened`, `Starts`, `Programs`, `Fitting`.
#![tactic(auto)]

mod laws;

pub use laws::{
    arguments_are_taken, assignments_run, blocks_are_entered, bodies_run, calls_are_run, calls_fit,
    calls_run, conditions_run, copies_fit, effects_run, expressions_run, frames_hold_objects,
    functions_end, functions_run, loads_run, loops_run, operands_run, operations_are_placed,
    places_run, programs_run, short_code_runs, statements_run, switch_bodies_run, values_run,
};
