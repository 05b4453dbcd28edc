//! How a run of a program ends.

use cap_ops::Cause;
use ck_base::Pos;

/// Why the strict meaning says nothing of a program.
#[derive(Clone, Copy, Debug, PartialEq, Eq)]
pub enum Reason {
    /// The number of an address is needed.
    Address,
    /// The operation is undefined in C.
    Undefined,
    /// A byte is read that was not written.
    Unwritten,
    /// An access takes a byte of an object's or a member's padding.
    Padding,
    /// Whether a narrowing is exact depends on the address.
    Rounding,
    /// A pointer was moved 1024 bytes or more outside its bounds.
    Excursion,
    /// The allocations exceed the heap of the strict meaning.
    Heap,
    /// A struct is copied over a part of itself.
    Overlap,
}

/// How a run of a program ends.
#[derive(Clone, Copy, Debug, PartialEq, Eq)]
pub enum Ending {
    /// The program's exit, with its low eight bits.
    Exit(u8),
    /// An access or a call fails, by this cause.
    Trap(Cause, Pos),
    /// A frame falls below the stack.
    Stack(Pos),
    /// One more turn is needed than the limit allows.
    Turns,
    /// A local of a function that has returned is used, or a function is called through another type than its own.
    Outside(Pos),
    /// The strict meaning is not defined.
    Unspecified(Reason, Pos),
    /// The input failed.
    ReadFault,
    /// The output failed.
    WriteFault,
}

/// Why an operation on memory is not done.
#[derive(Clone, Copy, Debug, PartialEq, Eq)]
pub enum Fault {
    /// The access fails, by this cause.
    Cause(Cause),
    /// The object is a local of a function that has returned.
    Outside,
    /// The strict meaning is not defined.
    Unspecified(Reason),
}

/// Which half of the copy of a unit is not done.
#[derive(Clone, Copy, Debug, PartialEq, Eq)]
pub enum UnitFault {
    Load(Fault),
    Store(Fault),
}
