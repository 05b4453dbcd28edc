//! Functions that need no memory keep their values in registers.
//!
//! Promise: a law: in a text of selected words, the stretch of a function that only computes and jumps, and all of
//! whose homes are registers, stores no more than the link and the registers that a callee keeps, and loads no more
//! than these at each return and each parameter once. It asks that the frames of such functions have no alignment above
//! 16.
//! Definitions (`specs/`): `Stretches`, `Plain`, `Keeping`.
//! Main lemmas (`proofs/`): `Quiet`, the words of an instruction touch no memory; `Stretched`, those of a function.
#![tactic(auto)]

mod laws;

pub use laws::plain_functions_keep_to_registers;
