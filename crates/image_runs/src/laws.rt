//! The law of whole runs.

ghost use Rattle.image_runs.specs.Asked.{AskedCodeRuns};
ghost use Rattle.image_runs.specs.Counted.{CountedCode};
ghost use Rattle.image_runs.specs.Lowered.{LoweredCode};
ghost use Rattle.image_runs.specs.Made.{SelectedFunctions};
ghost use Rattle.image_runs.specs.Running.{MadeCodeRuns};
ghost use Rattle.image_runs.specs.Starting.{FirstStarts};

/// Where words were selected for well-formed code that means what a sound program means, and the
/// machine was loaded with them under a legal map, its runs in worlds that give bytes are what the
/// program means: each does what the other does, in a bound of acts for each turn.
pub fn asked_code_runs()
    ensures { AskedCodeRuns }
{}

/// Functions whose words were selected stand as the law of whole runs asks, in the setting that is made of them.
pub fn selected_functions()
    ensures { SelectedFunctions }
{}

/// The acts that are counted for a turn are no more than the count of the program.
pub fn counted_code()
    ensures { CountedCode }
{}

/// The machine comes to the first function, or finds no room for its frame.
pub fn first_starts()
    ensures { FirstStarts }
{}

/// The machine that was loaded with what is made of a program does what the program means, within the program's count
/// of acts for each turn.
pub fn made_code_runs()
    ensures { MadeCodeRuns }
{}

/// The code of a sound program is what is asked of code for its whole runs.
pub fn lowered_code()
    ensures { LoweredCode }
{}
