//! The audit of an image: whether its text is contained, so that no run of it, in any world, leaves the text or meets
//! a word that is no instruction.
//!
//! Promise: `audit` says yes exactly where the image is contained, and else names the first word or relocation that
//! breaks a rule, with the least reason of the definition.
//! Definitions (`specs/`): `Audit`, `Rules`; `Contained` of `image_load`.
//! Main lemmas (`proofs/`): `Audited`, `AuditedImage`.
#![tactic(auto)]

mod auditing;
mod finding;
mod reached;
mod rules;
mod verdict;
mod words;

pub use auditing::audit;
pub use verdict::Verdict;
