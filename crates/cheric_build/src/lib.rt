//! From a C file to machine code: the front end as a whole, and `build`: the image of every accepted file, whose runs
//! are what the file means.
//!
//! Promise: a file is built as the typed program that it is accepted as, or refused by the first rule that it breaks.
//! Definitions (`specs/`): `FromFile`; `Accepted` of `accepted_files`, `Built` of `typed_build`.
//! Main lemmas (`proofs/`): `FileAnswers`, `Once`.
#![tactic(auto)]

mod accepting;
mod building;
mod front_end;

pub use accepting::accepted;
pub use bounds_place::Sizes;
pub use building::{build, build_sized};
pub use front_end::front;
pub use typed_build::{Built, build_typed};
