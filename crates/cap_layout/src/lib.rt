//! Sizes, alignments and member offsets of the types of a C program (C11 6.2.8, 6.7.2.1), what an object of some bytes
//! owns, so that its bounds can be exact, and the counts of a program's objects and copies. No call but `Layouts::new`
//! takes memory.
//!
//! Promise: a type's layout is that of the definition, and `TooLarge` and `Incomplete` come exactly where it says; an
//! object owns what the definition says.
//! Definitions (`specs/`): `Rounding` of `cap_concentrate`, `Layout` and `Counts` of `c_tree`; here `Extents`,
//! `Answers`, `Kept`.
//! Main lemmas (`proofs/`): `Lengths`, `Found`, `Steps`.
#![tactic(auto)]

mod answers;
mod counting;
mod kept;
mod members;
mod offsets;
mod owning;
mod records;
mod shapes;
mod sizes;

pub use answers::{Layout, LayoutFault, Owned};
pub use counting::{copies, granules};
pub use kept::Layouts;
pub use offsets::offset_of;
pub use owning::owned;
pub use shapes::LIMIT;
pub use sizes::layout;
