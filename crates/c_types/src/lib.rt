//! What is declared in a C file (C11 6.2.1 to 6.2.5, 6.7): the layouts of complete structs and unions, and the names
//! in force.
//!
//! Promise: a declaration is declared, or refused by the first rule of its place; a refused one leaves all as it was.
//! Definitions (`specs/`): `Scopes`, `Declarations` of `c_tree`; here `Stands`, `Declares`.
//! Main lemmas (`proofs/`): `Extending`, `Judged`.
#![tactic(auto)]

mod agreeing;
mod aliases;
mod beginning;
mod declaring;
mod entries;
mod filling;
mod functions;
mod judging;
mod lists;
mod locals;
mod measuring;
mod members;
mod names;
mod scopes;
mod statics;
mod tag_names;
mod tags;

pub use c_interner::Lengths;
pub use entries::{Decl, DeclKind, Entity, Entry, Faults, Storage, TagKind, Tagging};
pub use judging::either;
pub use scopes::{Scope, Scopes};
