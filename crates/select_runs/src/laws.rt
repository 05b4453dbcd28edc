//! Laws of selected code: what the words that stand for an instruction do on the machine.

ghost use Rattle.select_runs.specs.Numbers.{NumbersAreMade};
ghost use Rattle.select_runs.specs.Instructions.{ComparisonsRun, ConstantsRun, ConversionsRun, CopiesRun};
ghost use Rattle.select_runs.specs.Instructions.{IntrinsicsRun, LabelsRun, NarrowsRun, OffsetsRun, OperationsRun};
ghost use Rattle.select_runs.specs.Instructions.{PointersRun};
ghost use Rattle.select_runs.specs.Jumps.{BranchesRun, JumpsRun};
ghost use Rattle.select_runs.specs.Operands.{OperandsCome};
ghost use Rattle.select_runs.specs.Results.{ResultsGoHome};
ghost use Rattle.select_runs.specs.Accesses.{AccessesRun};
ghost use Rattle.select_runs.specs.Copying.{StructCopiesRun};
ghost use Rattle.select_runs.specs.Services.{ExitsRun, PutsRun, TakesRun};
ghost use Rattle.select_runs.specs.Zeroing.{ZeroesRun};

/// Words that make a number of a register do so on the machine, and change nothing else.
pub fn numbers_are_made()
    ensures { NumbersAreMade }
{}

/// Where the words of an operand stand, its register has the capability of the temp's value, and no register but the
/// scratch
/// register is another than it was.
pub fn operands_come()
    ensures { OperandsCome }
{}

/// A value that was computed in the register for it comes into its temp: to a register that is its home, or to its
/// slot.
pub fn results_go_home()
    ensures { ResultsGoHome }
{}

/// Constants.
pub fn constants_run()
    ensures { ConstantsRun }
{}

/// Copies of temps.
pub fn copies_run()
    ensures { CopiesRun }
{}

/// Labels, for which there are no words.
pub fn labels_run()
    ensures { LabelsRun }
{}

/// Jumps to a label that is ahead, and behind a Turn to any label.
pub fn jumps_run()
    ensures { JumpsRun }
{}

/// Branches to a label that is ahead, and behind a Turn to any label, or past it.
pub fn branches_run()
    ensures { BranchesRun }
{}

/// Capabilities that are narrowed.
pub fn narrows_run()
    ensures { NarrowsRun }
{}

/// Capabilities that are moved.
pub fn offsets_run()
    ensures { OffsetsRun }
{}

/// What is asked of capabilities and lengths, and made of them.
pub fn intrinsics_run()
    ensures { IntrinsicsRun }
{}

/// Pointers to locals, globals, literals and functions.
pub fn pointers_run()
    ensures { PointersRun }
{}

/// Operations on integers.
pub fn operations_run()
    ensures { OperationsRun }
{}

/// Comparisons of integers and of addresses.
pub fn comparisons_run()
    ensures { ComparisonsRun }
{}

/// Conversions between kinds.
pub fn conversions_run()
    ensures { ConversionsRun }
{}

/// Loads and stores: what they do, or the trap by which they end the run.
pub fn accesses_run()
    ensures { AccessesRun }
{}

/// Blocks that are entered: the bytes of a local become zero, granule by granule.
pub fn zeroes_run()
    ensures { ZeroesRun }
{}

/// Structs that are copied, unit by unit: what the copies do, or the trap at the unit that fails.
pub fn struct_copies_run()
    ensures { StructCopiesRun }
{}

/// `putchar`: a byte is put, and the function goes on.
pub fn puts_run()
    ensures { PutsRun }
{}

/// `getchar`: a byte is taken, or the end, and the function goes on.
pub fn takes_run()
    ensures { TakesRun }
{}

/// `exit`.
pub fn exits_run()
    ensures { ExitsRun }
{}

ghost use Rattle.select_runs.specs.Returning.{ReturnsRun, LastReturnsRun};

/// Returns to a caller, which goes on with the result.
pub fn returns_run()
    ensures { ReturnsRun }
{}

/// The return of the first function, by which the run ends.
pub fn last_returns_run()
    ensures { LastReturnsRun }
{}

ghost use Rattle.select_runs.specs.Prologue.{ProloguesRun};

/// What a function begins with: it takes its frame, or traps where the stack has no room for it.
pub fn prologues_run()
    ensures { ProloguesRun }
{}

ghost use Rattle.select_runs.specs.Entries.{ParametersCome};

/// Behind what a function begins with its parameters come to their homes.
pub fn parameters_come()
    ensures { ParametersCome }
{}

ghost use Rattle.select_runs.specs.Passing.{ArgumentsPass};

/// Arguments of a call come to their registers and to the caller's frame.
pub fn arguments_pass()
    ensures { ArgumentsPass }
{}

ghost use Rattle.select_runs.specs.Calling.{CallsRun, FarCallsRun, FarFirstIsEntered, FirstIsEntered};

/// Calls of a function: its arguments are passed, and it is entered, or traps where the stack has no room for it.
pub fn calls_run()
    ensures { CallsRun }
{}

/// Calls by the sentry that the table has of a function.
pub fn far_calls_run()
    ensures { FarCallsRun }
{}

/// The first function is entered.
pub fn first_is_entered()
    ensures { FirstIsEntered }
{}

/// The first function is entered by the sentry that the table has of it.
pub fn far_first_is_entered()
    ensures { FarFirstIsEntered }
{}

ghost use Rattle.select_runs.specs.Through.{CallsThroughValuesRun};

/// Calls through values: of a function, or of what is none.
pub fn calls_through_values_run()
    ensures { CallsThroughValuesRun }
{}
