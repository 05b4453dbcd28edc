//! How a step goes on and how a run ends.

use cap_ops::Cause;

/// How a run of the machine ends.
#[derive(Clone, Copy, Debug, PartialEq, Eq)]
pub enum End {
    /// The program's exit, with its low eight bits.
    Exit(u8),
    /// A check failed, by this cause, at the instruction at this address.
    Trap(Cause, u64),
    /// `ebreak` at this address.
    Break(u64),
    /// At this address stands a word outside the instruction table, or an environment call with another number.
    Illegal(u64),
    /// All the steps were done.
    Steps,
    /// The input failed.
    ReadFault,
    /// The output failed.
    WriteFault,
}

/// What a step comes to.
#[derive(Clone, Copy, Debug, PartialEq, Eq)]
pub enum Step {
    /// The next instruction follows.
    Next,
    Ended(End),
}
