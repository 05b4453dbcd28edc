//! Whole runs of the machine that an image loads to, and of the program.
//!
//! Promise: laws: where the words that were selected for a program's code stand in the machine that
//! was loaded, its runs are what the program means; and they stand so in the setting that is made of a program's
//! homes, words and map.
//! Definitions (`specs/`): `Asked` (what is asked, and what is then known), `Made` (the setting),
//! `Counted` (its acts), `Starting` (the first function), `Running` (all).
//! Main lemmas (`proofs/`): `Leading` (where instructions lead), `Placed` (runs come to places in the code),
//! `Labels` (which stand once), `Formed`, `Standing` (the words stand there), `Meant`; `Lines`, `Kept`, `Turned`,
//! `Made`; `Sums`, `Counts`, `Starting`, `Running`.
#![tactic(auto)]

mod laws;

pub use laws::{
    asked_code_runs, counted_code, first_starts, lowered_code, made_code_runs, selected_functions,
};
