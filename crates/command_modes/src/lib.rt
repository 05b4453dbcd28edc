//! The modes of the command: what each does with a file that was read, and the line and the status of its answer.
//!
//! Promise: each mode answers what it did with the files, the input and the output, and a said answer has its line and
//! its status.
//! Definitions (`specs/`): `Answers`, `Audit`, `Shown`, `Modes`.
//! Main lemmas (`proofs/`): `Said`, `Loads`.
#![tactic(auto)]

mod answer;
mod auditing;
mod building;
mod generating;
mod meaning;
mod message;
mod running;
mod showing;

pub use answer::Answer;
pub use auditing::audit_file;
pub use building::build_file;
pub use generating::show_generated;
pub use meaning::mean_file;
pub use message::{say, status_of};
pub use running::{exec_file, run_file};
pub use showing::{show_listing, show_map};
