//! The number of a register.

ghost use Rattle.std.specs.Prelude.{◌≡◌, ℕ, ◌<◌};
ghost use Rattle.std.specs.Option.{SomeIff};

use std::marker::Model;

/// One of the 32 registers. A clause sees its number.
///
/// A register holds a capability, and the capability's address is the register's integer. Listings
/// write `cN` where the capability is meant, and `xN` where the integer is.
#[derive(Clone, Copy, Debug, PartialEq, Eq)]
pub struct Reg(u8);

impl Model for Reg {
    ghost Value = { ℕ };

    ghost view = { λ r. r.0 };

    ghost invariant = { λ r. r.0 < 32 };

    ghost inverse = { λ n. record { 0 = n } };
}

impl Reg {
    /// c0: always null, and what is written to it is dropped.
    pub const ZERO: Reg = Reg(0);

    /// c1: the sentry to which a function returns.
    pub const LINK: Reg = Reg(1);

    /// c2: the stack.
    pub const STACK: Reg = Reg(2);

    /// c3: the table of a program's capabilities.
    pub const TABLE: Reg = Reg(3);

    /// c10: the first argument of a function, and its result.
    pub const RESULT: Reg = Reg(10);

    /// c17: the number of the service that `ecall` asks for.
    pub const SERVICE: Reg = Reg(17);

    /// The register with this number, and None exactly from 32 on.
    pub fn new(number: u8) -> Option<Self>
        ensures { SomeIff result (number < 32) number }
    {
        if number < 32 {
            Some(Self::numbered(number))
        } else {
            None
        }
    }

    /// The register with this number, which is known to be below 32.
    pub fn numbered(number: u8) -> Self
        requires { number < 32 }
        ensures { result ≡ number }
    {
        Reg(number)
    }

    /// The register's number, from 0 to 31.
    pub fn number(self) -> u8
        ensures value { result ≡ self }
        ensures below { result < 32 }
    {
        self.0
    }
}
