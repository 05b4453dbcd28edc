//! Homes for the temps of three-address code: registers and slots of the frame.
//!
//! Promise: `allocate` gives two temps that live at once two homes, and keeps what lives across a call out of the
//! callee's registers; a register is taken up to the last instruction of its interval.
//! Definitions (`specs/`): `Crossing`, `Calls`, `Ranks`, `Placed`.
//! Main lemmas (`proofs/`): `NextCall`, `Finished`, `Checked`.
#![tactic(auto)]

mod calls;
mod checking;
mod free;
mod intervals;
mod places;
mod ranks;
mod scan;

pub use checking::check;
pub use intervals::Interval;
pub use places::{Home, Places};
pub use scan::allocate;
