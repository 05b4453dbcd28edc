//! Laws of whole runs.

ghost use Rattle.select_whole.specs.Chosen.{ChosenCodeMatches, ChosenCodeRuns};
ghost use Rattle.select_whole.specs.Matching.{WholeRunsMatch};

/// Where the words of each instruction do on the machine what it means, at each place to which a run comes, the
/// machine's run and that of three-address code match: each does what the other does, in a bound of acts for each turn.
pub fn whole_runs_match()
    ensures { WholeRunsMatch }
{}

/// They do so where they stand there in the forms that selection chooses.
pub fn chosen_code_runs()
    ensures { ChosenCodeRuns }
{}

/// Where the words stand in these forms, whole runs match.
pub fn chosen_code_matches()
    ensures { ChosenCodeMatches }
{}
