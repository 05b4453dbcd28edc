//! Why a run goes no further.
ghost use Rattle.std.specs.Prelude.{◌≡◌};
ghost use Rattle.cheri_c_sem.specs.Steps.{fault_end, unit_end};

use ck_base::Pos;
use obj_mem::{Ending, Fault, UnitFault};

/// Why a run goes no further.
#[derive(Clone, Copy)]
pub enum Stop {
    /// It ends.
    Ended(Ending),
    /// There is no room for what is kept of it.
    NoMemory,
}

/// The operations that have no position don't fault under a map; this stands for the position that they lack.
pub const NO_POSITION: Pos = Pos { line: 0, col: 0 };

/// How a run ends at an operation that faults.
pub fn fault_end(fault: Fault, pos: Pos) -> Ending
    ensures { result ≡ fault_end fault pos }
{
    match fault {
        Fault::Cause(cause) => Ending::Trap(cause, pos),
        Fault::Outside => Ending::Outside(pos),
        Fault::Unspecified(reason) => Ending::Unspecified(reason, pos),
    }
}

/// How a run ends at a unit of a struct copy, with the positions of the place that is read and of the one that is
/// written.
pub fn unit_end(fault: UnitFault, from: Pos, to: Pos) -> Ending
    ensures { result ≡ unit_end fault from to }
{
    match fault {
        UnitFault::Load(f) => fault_end(f, from),
        UnitFault::Store(f) => fault_end(f, to),
    }
}
