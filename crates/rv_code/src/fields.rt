//! The six fields of an instruction word.

/// The fields of an instruction word, from its lowest bits.
#[derive(Clone, Copy)]
pub struct Fields {
    pub opcode: u32,
    pub rd: u32,
    pub funct3: u32,
    pub rs1: u32,
    pub rs2: u32,
    pub funct7: u32,
}

impl Fields {
    ghost use Rattle.std.specs.Prelude.{◌≡◌};
    ghost use Rattle.rv_code.specs.Formats.{word_of, FitsWord};
    ghost use Rattle.rv_code.specs.Decoding.{split_of};

    /// The fields of a word.
    pub fn of_word(w: u32) -> Self
        ensures value { result ≡ split_of w }
        ensures fit { FitsWord result }
    {
        Fields {
            opcode: bits(w, 6, 0),
            rd: bits(w, 11, 7),
            funct3: bits(w, 14, 12),
            rs1: bits(w, 19, 15),
            rs2: bits(w, 24, 20),
            funct7: bits(w, 31, 25),
        }
    }

    /// The word of the fields.
    pub fn word(self) -> u32
        requires { FitsWord self }
        ensures { result ≡ word_of self }
    {
        self.opcode
            | self.rd << 7
            | self.funct3 << 12
            | self.rs1 << 15
            | self.rs2 << 20
            | self.funct7 << 25
    }
}

ghost use Rattle.std.specs.Prelude.{◌≡◌, ◌≤◌, ◌<◌, ◌+◌, ◌-◌, ◌^◌};
ghost use Rattle.rv_code.specs.Formats.{bits};

/// The bits `high` to `low` of a number.
pub fn bits(n: u32, high: u32, low: u32) -> u32
    requires ordered { low ≤ high }
    requires narrow { high < low + 31 }
    requires inside { high < 32 }
    ensures value { result ≡ bits n high low }
    ensures below { result < 2 ^ (high + 1 - low) }
{
    n >> low & (1 << (high + 1 - low)) - 1
}
