//! The initialisers of a C file (C11 6.7.9), once their expressions are typed.
//!
//! Promise: initial bytes, pointers and stores are those of the definition, in the order of offsets.
//! Definitions (`specs/`): `Initializers`, `Statics` of `c_tree`, `Members` of `c_plain_rules`; here `Slots`,
//! `Objects`.
//! Main lemmas (`proofs/`): `FillLaws`, `ObjectLaws`.
#![tactic(auto)]

mod addresses;
mod counts;
mod covering;
mod filling;
mod forms;
mod known;
mod objects;
mod places;
mod scalars;
mod sizes;
mod slots;
mod starts;
mod statics;
mod strings;
mod texts;

pub use addresses::is_start;
pub use counts::with_count;
pub use filling::every_slot;
pub use objects::{fill_local, fill_static};
pub use places::{Places, places_of};
pub use sizes::complete_now;
pub use slots::{Filled, Slot};
pub use statics::{Found, pointers_end, start_slots};
pub use strings::{plain, string, takes_string};
pub use texts::fill_text;
