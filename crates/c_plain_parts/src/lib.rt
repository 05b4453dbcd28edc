//! Parts of rules of C that ask for no other part of the syntax: what counts of all that was said of objects and
//! functions and what fails of them at the end of a file, the name and type of `main`, the members of structs at their
//! offsets, numbers in objects, and what stands in a `switch`.
//!
//! Promise: each is that of the definition. A label goes behind the others or is refused where an earlier one is like
//! it; of the rules that fail the one that stands first in the file is found.
//! Definitions (`specs/`): `Initializers`, `Layout`, `Statics`, `Statements`, `Programs` of `c_tree`; here `Members`,
//! `Placing`, `Switches`, `Faults`, `MainFunction`, `Tables` (what counts of all that was said of each object and
//! function).
//! Main lemmas (`proofs/`): `Alike`, `MemberLaws`, `RecordLaws`, `ByteLaws`, `Faulting`, `MainFunction`, `Shown`.
#![tactic(auto)]

mod bytes;
mod faults;
mod found;
mod main_type;
mod members;
mod switches;
mod tables;

pub use bytes::{Placed, greatest_end, significant};
pub use faults::{function_faults, object_faults};
pub use found::{Found, earlier, undefined};
pub use main_type::{is_main_type, is_named_main};
pub use members::{Next, Place, Record, next_of, record_of, struct_places, tag_count};
pub use switches::{Cases, add_label, switch_kind, with_items};
pub use tables::{Uses, count, definition, definition_at, entry, function_at, global_at};
