//! Three-address code: what it is, what it means, and what it costs.
//!
//! Promise: `well_formed` and `is_within_costs` are exact.
//! Definitions (`specs/`): `Effects`, `Meaning`, `WellFormed`, `Costs`, `Within`, `Intervals`.
//! Main lemmas (`proofs/`): `Padding`, `Weighing`.
#![tactic(auto)]

mod body;
mod checking;
mod code;
mod costs;
mod kinds;
mod labels;
mod signatures;
mod slices;
mod weights;
mod within;

pub use checking::well_formed;
pub use code::{Amount, CapWork, LibOp, Tac, TacFun, TacInstr, TacKind};
pub use costs::{cost, function_cost, outgoing};
pub use signatures::bare;
pub use weights::function_weight;
pub use within::is_within_costs;
