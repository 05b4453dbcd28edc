//! The law of plain functions.

ghost use Rattle.plain_functions.specs.Keeping.{PlainFunctionsKeepToRegisters};

/// In selected words, with whatever fills the text behind them, each plain function keeps to registers.
pub fn plain_functions_keep_to_registers()
    ensures { PlainFunctionsKeepToRegisters }
{}
