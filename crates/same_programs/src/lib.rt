//! Programs that stand for one program are the same for all that is built of them.
//!
//! Promise: law: where two typed programs stand for one, and one of them is well typed, they have one tree, one weight
//! and one count, ask the same of their map and begin with the same pointers and bytes.
//! Definitions (`specs/`): `Alike` (what is the same); apart from a program's lists, `Types` (what the meaning asks of
//! types), `Trees` (its tree), `Needs`, `Counts` and `Totals`, and `Points` (which operands are pointers).
//! Main lemmas (`proofs/`): `Nodes` (a node's tree is made of those that it names), `Expressions`, `Statements`,
//! `Programs`, `Needs`, `Counts`, `Gathered`.
#![tactic(auto)]

mod laws;

pub use laws::alike_programs_are_same;
