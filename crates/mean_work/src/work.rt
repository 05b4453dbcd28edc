//! What is left to do of a run, what stands between two of its steps, and why it goes no further.
ghost use Rattle.std.specs.Prelude.{◌≡◌};
ghost use Rattle.obj_mem.specs.Values.{value_of};
ghost use Rattle.cheri_c_sem.specs.Meaning.{capability_of, position_of};
ghost use Rattle.cheri_c_sem.specs.Steps.{fault_end, unit_end};
ghost use Rattle.mean_work.specs.Places.{place_of};

use ck_base::{NoMemory, Pos};
use obj_mem::{Ending, Fault, UnitFault, Value};
use std::alloc::AllocError;

/// A part of the work that is left: the number of the function that it is in, and that of an expression or a statement.
#[derive(Clone, Copy)]
pub enum Work {
    /// The value of an expression goes on the values.
    Value(u32, u32),
    /// The place that an expression designates goes on the places.
    Place(u32, u32),
    /// The number 1 goes on the values.
    One,
    /// The value on top goes.
    Drop,
    /// The operation of an expression, whose operands stand on top, gives its value.
    Finish(u32, u32),
    /// The same, and it gives a place.
    FinishPlace(u32, u32),
    /// The left operand of `&&` or `||`, or the condition of `?:`, stands on top.
    Choose(u32, u32),
    /// The condition of a `?:` that designates a place stands on top.
    ChoosePlace(u32, u32),
    /// The right operand of `&&` or `||` stands on top.
    Decide(u32, u32),
    /// The first call.
    Begin(u32),
    /// A function's body was left; whether its call is the first one.
    Return(u32, bool),
    /// A statement.
    Statement(u32, u32),
    /// A statement that does nothing.
    Nothing,
    /// The statements of a block or `switch`, or those before the first test of a `for`, from a number on.
    Rest(u32, u32, usize),
    /// The value of an initialisation stands on top; of a struct or union, its place.
    Initialize(u32, u32),
    /// The condition of an `if` stands on top.
    Branch(u32, u32),
    /// A loop is at its test.
    Test(u32, u32),
    /// The test of a loop stands on top.
    Tested(u32, u32),
    /// The body of a loop was left.
    Again(u32, u32),
    /// The step of a `for` was done.
    Turn(u32, u32),
    /// What a `switch` is on stands on top.
    Switch(u32, u32),
    /// The body of a `switch` was left.
    SwitchEnd,
    /// A block, a `for` or a `switch` was left.
    Leave(u32, u32),
    /// The value that is returned stands on top.
    Give,
}

/// A place, with the position of the node that designates it: a variable of the current call, by its number, or what a
/// capability points to.
#[derive(Clone, Copy)]
pub enum Place {
    In(Pos, u32),
    At(Pos, Value),
}

/// Why a run goes no further.
#[derive(Clone, Copy)]
pub enum Stop {
    Ended(Ending),
    NoMemory,
}

/// What stands for the place of an expression that designates none.
pub const NOWHERE: Place = Place::At(Pos { line: 0, col: 0 }, Value::Raw(0, 0));

impl Place {
    pub fn position(self) -> Pos
        ensures { result ≡ position_of (place_of self) }
    {
        match self {
            Place::In(pos, _) => pos,
            Place::At(pos, _) => pos,
        }
    }

    /// The capability of a place; a variable has none.
    pub fn capability(self) -> Value
        ensures { value_of result ≡ capability_of (place_of self) }
    {
        match self {
            Place::In(_, _) => Value::Raw(0, 0),
            Place::At(_, v) => v,
        }
    }
}

impl From<NoMemory> for Stop {
    ghost use Rattle.std.specs.Prelude.{◌≡◌};
    ghost use Rattle.mean_work.specs.declared.work.Stop.TheVariants as stop;

    ghost from_gives = { λ _ e. e ≡ stop.NoMemory };

    fn from(_: NoMemory) -> Stop {
        Stop::NoMemory
    }
}

impl From<AllocError> for Stop {
    ghost use Rattle.std.specs.Prelude.{◌≡◌};
    ghost use Rattle.mean_work.specs.declared.work.Stop.TheVariants as stop;

    ghost from_gives = { λ _ e. e ≡ stop.NoMemory };

    fn from(_: AllocError) -> Stop {
        Stop::NoMemory
    }
}

/// How a run ends at an operation that faults.
pub fn fault_end(fault: Fault, pos: Pos) -> Ending
    ensures { result ≡ fault_end fault pos }
{
    match fault {
        Fault::Cause(cause) => Ending::Trap(cause, pos),
        Fault::Outside => Ending::Outside(pos),
        Fault::Unspecified(reason) => Ending::Unspecified(reason, pos),
    }
}

/// How a run ends at a unit of a struct copy, with the positions of the place that is read and of the one that is
/// written.
pub fn unit_end(fault: UnitFault, from: Pos, to: Pos) -> Ending
    ensures { result ≡ unit_end fault from to }
{
    match fault {
        UnitFault::Load(f) => fault_end(f, from),
        UnitFault::Store(f) => fault_end(f, to),
    }
}
