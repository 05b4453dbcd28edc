//! What declaration specifiers, tags, enumerators, declarators, members and parameters make of their parts (C11 6.7).
//!
//! Promise: each gives what the definition's rule gives, or the first refusal.
//! Definitions (`specs/`): `Declarators` of `c_tree`; `Constants` of `c_plain_rules`; here `Steps`, `Forming`.
//! Main lemmas (`proofs/`): `Deriving`, `Tagging`.
#![tactic(auto)]

mod building;
mod forming;
mod judging;
mod members;
mod naming;
mod parameters;
mod parts;
mod prototypes;
mod specifiers;
mod tags;
mod typing;
mod words;

pub use c_plain_rules::{Constant, array_length, constant_value};
pub use forming::{adjusted, form};
pub use judging::judge;
pub use members::{Members, add_member};
pub use naming::{enumerate, typedef_name};
pub use parameters::{is_new, parameter_from};
pub use parts::{Derived, Formed, Param, Prototype, Specified, Wrap};
pub use prototypes::{bind_parameter, close, enter};
pub use specifiers::specified;
pub use tags::{
    begin_tag, complete_tag, named_enumeration, named_tag, new_enumeration, new_tag, tagged,
};
pub use typing::{formed, named_type};
pub use words::{Words, has_register, parts_const};
