//! The end of the elaboration of a C file: the finished program.
//!
//! Promise: the program is the definition's, or the failure that stands first in the file decides.
//! Definitions (`specs/`): `Programs` of `c_tree`; here `Finished`, `Tables`.
//! Main lemmas (`proofs/`): `Ending`, `Globals`, `Functions`, `Bodies`.
#![tactic(auto)]

mod file_end;
mod numbering;
mod objects;
mod routines;
mod tables;

pub use file_end::finish;
