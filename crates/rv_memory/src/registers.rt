//! The registers that no home is in: what an instruction works with.
ghost use Rattle.std.specs.Prelude.{◌≡◌};

use rv_instr::Reg;

/// c4, which only the allocation of memory uses.
pub fn spare() -> Reg
    ensures { result ≡ 4 }
{
    Reg::numbered(4)
}

/// c28: the left operand, and what has its home in a slot.
pub fn left() -> Reg
    ensures { result ≡ 28 }
{
    Reg::numbered(28)
}

/// c29: the right operand.
pub fn right() -> Reg
    ensures { result ≡ 29 }
{
    Reg::numbered(29)
}

/// c30: a count.
pub fn count() -> Reg
    ensures { result ≡ 30 }
{
    Reg::numbered(30)
}

/// c31: the function that is called, and the way to a slot.
pub fn way() -> Reg
    ensures { result ≡ 31 }
{
    Reg::numbered(31)
}
