//! Laws of the bases of pointers.

ghost use Rattle.mean_bases.specs.Laws.{PlacedRunsHaveBases, StrictRunsHaveBases};

/// The base of each pointer that stands ready at a moment of a run under a map is a number of 64 bits.
pub fn placed_runs_have_bases()
    ensures { PlacedRunsHaveBases }
{}

/// So it is of a strict run, which tells no base of a pointer.
pub fn strict_runs_have_bases()
    ensures { StrictRunsHaveBases }
{}
