//! The sizes of types while a file is read (C11 6.2.8, 6.7.2.1): of a row of elements, and of a struct or union by its
//! members. Which structs and unions there are is not known here: a row of them is given by their tag.
//!
//! Promise: sizes, alignments and the places of members are those of the definition, and `TooLarge` comes exactly for
//! more than 67,108,864 bytes.
//! Definitions (`specs/`): `Layout` and `Scopes` of `c_tree`; here `Sizes`.
//! Main lemmas (`proofs/`): `Levels`, `Ends`.
#![tactic(auto)]

mod extents;
mod records;
mod rooms;

pub use extents::{Base, Row, placed, repeated, row_of, start_of};
pub use records::whole_room;
pub use rooms::Room;
