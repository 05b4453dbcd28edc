//! The arithmetic of C's integers, and so of RISC-V's: conversion between kinds, the ten binary operations and the
//! six comparisons, each defined for all operands. A value of a kind is kept as the `u64` of its sign or zero
//! extension; an operand that isn't so kept is first reduced, as `wrap` reduces it. Nothing is refused, and no memory
//! is taken.
//!
//! Promise: `wrap`, `convert`, `binary` and `compare` are those on whole numbers, then reduced.
//! Definitions (`specs/`): `Kinds`, `Arithmetic`, `Words`.
//! Main lemmas (`proofs/`): `Laws`, `OperationLaws`.
#![tactic(auto)]

mod arithmetic;
mod comparison;
mod conversion;
mod kinds;

pub use arithmetic::binary;
pub use comparison::compare;
pub use conversion::{convert, wrap};
pub use kinds::{CmpOp, IntKind, IntOp};
