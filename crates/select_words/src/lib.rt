//! The words that selection appends, instruction by instruction.
//!
//! Definitions (`specs/`): `Selecting`, what the words of a function depend on; `Standing`; `Numbers`, `Emitted`,
//! `Forms`, of which the others are made; `Words`, `Integers`, `Operations`, `Capabilities`, `Jumps`, `Accesses`,
//! `Zeroing`, `Copying`, `Services`, `Heap`; `Entries`, `Passing`, `Calling`, `Through`, `Returning`.
#![tactic(auto)]
