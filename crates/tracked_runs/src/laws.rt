//! The law of tracked runs.

ghost use Rattle.tracked_runs.specs.Matching.{TrackedRunsMatch};

/// Where a machine tracks a run that is meant, turn by turn, the two match: each does what the other does, in a bound
/// of acts for each turn.
pub fn tracked_runs_match()
    ensures { TrackedRunsMatch }
{}
