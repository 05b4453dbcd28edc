//! What holds of every typed program.
//!
//! Promise: what typing gives of a file is well typed (`sound_programs_fit`), so no layer above looks at the syntax
//! again. Beside it, each in a module of its own: where variables are named (`scopes`), where values and places stand
//! (`values`), and with which codes typing refuses a file (`codes`).
//! Definitions (`specs/`): `Fitting`, `Scoping`, `Valued`, `Codes`; `WellTyped` of `c_tree`.
//! Main lemmas (`proofs/`): `Wholes` of the state at the end of a file; `PassingState`, that the state that stands for
//! the program as it is run, with structs and unions by pointers, is as good; `Fits`, `Final`.
#![tactic(auto)]

pub mod codes;
mod laws;
pub mod scopes;
pub mod values;

pub use laws::sound_programs_fit;
