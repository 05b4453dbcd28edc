//! Rules of C that ask for no other part of the syntax, once theirs is typed: the numbers in declarations (C11 6.6,
//! 6.7.2.2, 6.7.6.2) and which specifiers stand alone (6.7.2), what a `for` and a `switch` are put together from
//! (6.8.4.2, 6.8.5.3), what an object is made of (6.7.2.1, 6.7.9), what typing begins with at a file and at the body of
//! a function (6.9), and what waits for the end of a file.
//!
//! Promise: each number is that of the definition's rule, or its refusal. The statements are those of their parts; a
//! label goes behind the others or is refused where an earlier one is like it; what stands in a loop may be left and
//! continued, what stands in a `switch` may be left. The parts of a struct or union are those of the definition, each
//! at its offset, of a union the first alone; the bytes of an object are those of its numbers, each written over what
//! stood there, up to the last that counts. No part of a file goes deeper than is said, so a depth is never used up; a
//! body stands in no loop and no `switch`; the parameters are the first variables, each of them. Of the rules that fail
//! at the end of the file the one that stands first in it is found, if any does, by its code and place; and `main` is
//! found where the file defines it.
//! Definitions (`specs/`): `Constants`, `Declarators`, `Statements`, `Initializers`, `Layout`, `Statics`, `Terms`,
//! `Programs` of `c_tree`; `Members`, `Placing`, `Switches`, `Faults`, `MainFunction`, `Tables` of `c_plain_parts`;
//! here `Constants`, `Specifiers`, `Control`, `Depths`.
//! Main lemmas (`proofs/`): `Depth`; those of `c_plain_parts`.
#![tactic(auto)]

mod bodies;
mod bytes;
mod constants;
mod depths;
mod enumerators;
mod faults;
mod loops;
mod main_function;
mod members;
mod specifiers;
mod switches;

pub use bodies::{context_of, numbers_below};
pub use bytes::initial_bytes;
pub use c_plain_parts::{
    Cases, Found, Place, Placed, Record, Uses, add_label, count, definition, definition_at, entry,
    function_at, global_at, record_of, switch_kind, tag_count, with_items,
};
pub use constants::{Constant, array_length, constant_value};
pub use depths::greatest_depth;
pub use enumerators::{in_int, next_after};
pub use faults::last_fault;
pub use loops::{Head, for_kind, in_a_loop};
pub use main_function::main_of;
pub use members::{all_members, first_members};
pub use specifiers::{has_storage, is_lone, names_type, push_some};
pub use switches::in_a_switch;
