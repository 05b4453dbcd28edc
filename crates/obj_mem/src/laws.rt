//! Laws of memory and values: where the strict mode answers, the placed one answers alike under every map.

ghost use Rattle.obj_mem.specs.Values.{Addresses};
ghost use Rattle.obj_mem.specs.Agreement.{MemoryAgrees};
ghost use Rattle.obj_mem.specs.Standing.{PointersAgreeEverywhere, ObjectsAreExact};

/// Loads, stores, copies, and objects that come and go.
#[tactic(auto, using(crate::proofs::Units::memory_agrees_law))]
pub fn memory_agrees()
    ensures { (a : Addresses) → MemoryAgrees a }
{}

/// Moves, narrowing, permissions, addresses, comparisons and differences of values that a run makes.
#[tactic(auto, using(crate::proofs::Agree::pointers_agree_law))]
pub fn pointers_agree()
    ensures { PointersAgreeEverywhere }
{}

/// Under a legal map each global and each literal has exact bounds at its place.
pub fn objects_are_exact()
    ensures { ObjectsAreExact }
{}
