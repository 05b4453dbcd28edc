//! Memory as separate objects, injected into the memory of the machine.
//!
//! Promise: laws: while the objects of a placed run stand in the machine's memory, a load, a store, a copy, an
//! operation on a pointer, an allocation and the check of a call do there what the meaning does, with the same traps,
//! and the objects stand there still; a program begins in the whole injection, and a store, a result in a register, the
//! entry of a block, a call and a return keep it, while the table's entries are as they were loaded.
//! Definitions (`specs/`): `Fits` over `Objects`, `Parts` and `Frames`; `Values`, `Steps`, `Pointers`, `Getting`,
//! `Calling`, `Changes`, `Copies`, `Growing`, `Whole`, `Slots`, `Spills`, `Tables`, `Disjoint`, `Starts`, `Homes`,
//! `Zeroing`, `Registers`, `Returns`, `Leaving`, `Entering`, `Outgoing`, `Older`.
//! Main lemmas (`proofs/`): `Reached`, `Storing`, `Loading`, `FramesKept`, `Altered`, `Pointing`, `Reshaped`,
//! `Growing`, `Locals`.
#![tactic(auto)]

mod laws;

pub use laws::{
    allocations_fit, callees_fit, copies_fit, done_keeps_fits, enters_fit, extents_are_apart,
    first_enters_fit, getting_fits, globals_are_older_at_start, granules_are_zeroed, leaves_fit,
    loads_fit, locals_fit, moves_on_fit, numbers_fit, numbers_read_back, objects_come_and_go,
    others_are_older_at_entries, outgoing_keeps_fits, pointers_fit, registers_keep_fits,
    registers_read_back, results_fit, returns_clear, scratch_keeps_fits, slots_read_back,
    spills_fit, stack_reaches, start_fits, stores_fit, stores_keep_fits, table_reaches,
    table_reads_back, whole_pointers_fit, zero_keeps_fits,
};
