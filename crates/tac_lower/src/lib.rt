//! Lowering: from typed programs to three-address code.
//!
//! Promise: `lower` gives well-formed code for every sound program, none of whose functions weighs more than 7,780,
//! function by function, which costs no more than the weight of each function allows, copies no more than the program
//! does, and lets no object become zero twice, nor makes its pointer before. Each operation on values in temps adds the
//! code that `lower_runs` has for it (`Shown`). The code of a sound program runs under each legal map as the program
//! means (`same`).
//! Definitions (`specs/`): `Runs`; `Lowered`; `WellFormed` and `Within` of `tac_ir`; on the way `Scenes`, `Shown`,
//! `Spent`, `Copied`, `Zeroed`, `Nodes`, `Functions`, `Trees`, `Stating`, `Programs`.
//! Main lemmas (`proofs/`): `Bodies`, `Scening`, `Housing`, `Operating`, `Spending`, `Copying`, `Zeroing`, `Whole`,
//! `Sound`.
#![tactic(auto)]

mod calls;
mod conditions;
mod context;
mod expressions;
mod functions;
mod laws;
mod lowering;
mod operations;
mod places;
mod statements;
mod switches;
mod types;
mod writes;

pub use laws::{
    calls_keep_code_well_formed, finished_code_is_well_formed, jumps_keep_code_well_formed,
    library_calls_fit, parts_add_up, signatures_fit, typed_expressions_fit, typed_statements_fit,
};
pub use lowering::lower;
