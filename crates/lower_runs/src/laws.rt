//! Laws of lowered code, one for each group of rules of the relation: where the codes of the parts do what the parts
//! mean, so does the code that a rule makes of them.

ghost use Rattle.std.specs.Prelude.{ℕ};
ghost use Rattle.lower_runs.specs.Expressions.{Signature};
ghost use Rattle.lower_runs.specs.StatementLaws.{CallRules, InEachFunction, StatementRules, BodyRules};
ghost use Rattle.lower_runs.specs.StatementLaws.{BlockRules, LoopRules};
ghost use Rattle.lower_runs.specs.Result.{ExpressionsRun, StatementsAreRun};
ghost use Rattle.lower_runs.specs.Laws.{Everywhere, OperandRules, ValueRules, LoadRules, PlaceRules, ConditionRules};
ghost use Rattle.lower_runs.specs.Frames.{FramesAreLegal};
ghost use Rattle.lower_runs.specs.Functions.{ArgumentsAreTaken, CallsAreRun, FunctionsEnd, FunctionsRun};
ghost use Rattle.lower_runs.specs.Fitting.{CopiesFit, SoundCallsFit};
ghost use Rattle.lower_runs.specs.Programs.{ProgramsRun};
ghost use Rattle.lower_runs.specs.Shortened.{ShortCodeRuns};
ghost use Rattle.lower_runs.specs.Laws.{EffectRules, AssignmentRules, OperationsArePlaced};

/// Operands: values that stand in a temp already, and those that come into a new one.
#[tactic(auto, using(crate::proofs::Gathered::operands_law))]
pub fn operands_run()
    ensures { Everywhere OperandRules }
{}

/// Constants, variables, conversions, operations on integers, comparisons, choices and truth values.
#[tactic(auto, using(crate::proofs::Gathered::values_law))]
pub fn values_run()
    ensures { Everywhere ValueRules }
{}

/// Loads, and pointers to places as values.
#[tactic(auto, using(crate::proofs::Gathered::loads_law))]
pub fn loads_run()
    ensures { Everywhere LoadRules }
{}

/// Places, and the pointers to them.
#[tactic(auto, using(crate::proofs::Gathered::places_law))]
pub fn places_run()
    ensures { Everywhere PlaceRules }
{}

/// Conditions as branches.
#[tactic(auto, using(crate::proofs::Gathered::conditions_law))]
pub fn conditions_run()
    ensures { Everywhere ConditionRules }
{}

/// What expressions do whose value is not asked for.
#[tactic(auto, using(crate::proofs::Gathered::effects_law))]
pub fn effects_run()
    ensures { Everywhere EffectRules }
{}

/// Assignments to variables, and to objects.
#[tactic(auto, using(crate::proofs::Gathered::assignments_law))]
pub fn assignments_run()
    ensures { Everywhere AssignmentRules }
{}

/// Statements one behind the other, initialisations, blocks, choices, jumps and returns.
#[tactic(auto, using(crate::proofs::GatheredStatements::statements_law))]
pub fn statements_run()
    ensures { InEachFunction StatementRules }
{}

/// Blocks are entered: their variables are 0 or null, and their objects zero bytes.
#[tactic(auto, using(crate::proofs::GatheredStatements::blocks_law))]
pub fn blocks_are_entered()
    ensures { InEachFunction BlockRules }
{}

/// Loops, as many rounds as the turns allow.
#[tactic(auto, using(crate::proofs::GatheredStatements::loops_law))]
pub fn loops_run()
    ensures { InEachFunction LoopRules }
{}

/// The statements of a `switch`, from each of its labels on.
#[tactic(auto, using(crate::proofs::GatheredStatements::bodies_law))]
pub fn switch_bodies_run()
    ensures { InEachFunction BodyRules }
{}

/// Arguments and calls, where further calls do what the code of their functions does, with fewer turns.
#[tactic(auto, using(crate::proofs::Gathered::calls_law))]
pub fn calls_run()
    ensures { (signs : ℕ → Signature) →
        Everywhere (λ ops w t p objects r call g. CallRules ops w t p objects r call g signs) }
{}

/// Operations under a legal map are what the other laws ask for.
#[tactic(auto, using(crate::proofs::Placed::operations_placed))]
pub fn operations_are_placed()
    ensures { OperationsArePlaced }
{}

/// Frames under a legal map hold the objects of their functions.
#[tactic(auto, using(crate::proofs::Frames::frames_legal))]
pub fn frames_hold_objects()
    ensures { FramesAreLegal }
{}

/// Arguments come into parameters, that are variables or objects, at the entry of a function.
pub fn arguments_are_taken()
    ensures { ArgumentsAreTaken }
{}

/// The end of a function, behind its body, goes back to the caller, or ends the run.
#[tactic(auto, using(crate::proofs::Ends::functions_end))]
pub fn functions_end()
    ensures { FunctionsEnd }
{}

/// A function runs as its call means, given calls with fewer turns.
pub fn functions_run()
    ensures { FunctionsRun }
{}

/// Calls as deep as the turns allow do what the code of their functions does.
pub fn calls_are_run()
    ensures { CallsAreRun }
{}

/// Code that lacks what stands behind a return, with no label and no `Zero` among that, runs alike.
#[tactic(auto, using(crate::proofs::Shortened::short_code_runs))]
pub fn short_code_runs()
    ensures { ShortCodeRuns }
{}

/// The code of a sound program runs under a legal map as the program means.
#[tactic(auto, using(crate::proofs::Programs::programs_run))]
pub fn programs_run()
    ensures { ProgramsRun }
{}

/// In a sound program a function may be called through each type that is compatible with its own, and takes and gives
/// what a type says through which it may be called.
#[tactic(auto, using(crate::proofs::Fitting::sound_calls_fit))]
pub fn calls_fit()
    ensures { SoundCallsFit }
{}

/// A struct or union is whole units of the length in which it is copied.
#[tactic(auto, using(crate::proofs::Units::copies_fit))]
pub fn copies_fit()
    ensures { CopiesFit }
{}

/// Code that the relation makes of expressions does what they mean, given calls, in a world that gives bytes.
#[tactic(auto, using(crate::proofs::Results::expressions_law))]
pub fn expressions_run()
    ensures { ExpressionsRun }
{}

/// The same of statements.
#[tactic(auto, using(crate::proofs::Bodies::statements_are_run))]
pub fn bodies_run()
    ensures { StatementsAreRun }
{}
