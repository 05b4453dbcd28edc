//! What selected code does on the machine: what three-address code means over separate objects.
//!
//! Promise: laws: where the words that selection appends for an instruction stand in the text, a machine that stands
//! for a state of three-address code goes on to one that stands for the state behind the instruction, or traps as the
//! meaning does; so far of all instructions but `malloc`.
//! Definitions (`specs/`), beside the words themselves (`select_words`): `Acts`, `Selecting`, `Numbers`, `Operands`,
//! `Kinds`, `Results`, `Instructions`, `Jumps`, `Accesses`, `Zeroing`, `Copying`, `Services`, `Returning`, `Prologue`,
//! `Entries`, `Passing`, `Calling`, `Through`.
//! Main lemmas (`proofs/`): `Acts`, `Operands`, `Results`, `Far`, `Table`, `Working`, `Arithmetic`, `Loops`,
//! `Bringing`, `Stretches`, `Keeping`, `Saving`, `Moves`, `Costs`, `Sentries`.
#![tactic(auto)]

mod laws;

pub use laws::{
    accesses_run, arguments_pass, branches_run, calls_run, calls_through_values_run,
    comparisons_run, constants_run, conversions_run, copies_run, exits_run, far_calls_run,
    far_first_is_entered, first_is_entered, intrinsics_run, jumps_run, labels_run,
    last_returns_run, narrows_run, numbers_are_made, offsets_run, operands_come, operations_run,
    parameters_come, pointers_run, prologues_run, puts_run, results_go_home, returns_run,
    struct_copies_run, takes_run, zeroes_run,
};
