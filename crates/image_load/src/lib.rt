//! Loading: the machine that an image describes.
//!
//! Promise: `load` gives exactly the image's state or the first refusal; a contained image is loaded to a contained
//! state. The stack stands in c2 and the table in c3, both with exact bounds and without Execute; every other register
//! is null.
//! Definitions (`specs/`): `Bounded`, `Permissions` of `cap_ops`; here `Extents`, `Judging`, `State`, `Loading`,
//! `Contained`.
//! Main lemmas (`proofs/`): `Judged`, `First`.
#![tactic(auto)]

mod beginning;
mod extent;
mod judging;
mod loading;
mod refusal;

pub use judging::judge;
pub use loading::load;
pub use refusal::LoadRefusal;
