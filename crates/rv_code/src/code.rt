//! Words and instructions.

ghost use Rattle.std.specs.Prelude.{◌≡◌, ◌↔◌, ℕ, Some, IsNone};
ghost use Rattle.rv_instr.specs.declared.instr.Instr.{Instr};
ghost use Rattle.rv_instr.specs.Range.{InRange};
ghost use Rattle.rv_code.specs.Encoding.{Encodes};
ghost use Rattle.rv_code.specs.Decoding.{decode_of};

use crate::fields::Fields;
use crate::{decoding, encoding};
use rv_instr::Instr;

/// The word of an instruction whose fields are in range: the only one that encodes it.
pub fn encode(i: Instr) -> u32
    requires { InRange i }
    ensures word { Encodes result i }
    ensures only { (w : ℕ) → Encodes w i → w ≡ result }
    ensures decoded { decode_of result ≡ Some i }
{
    encoding::fields(i).word()
}

/// The instruction that a word encodes, and None exactly where it encodes none.
pub fn decode(w: u32) -> Option<Instr>
    ensures some { (i : Instr) → (result ≡ Some i) ↔ Encodes w i }
    ensures none { IsNone result ↔ ((i : Instr) → ¬ Encodes w i) }
    ensures value { result ≡ decode_of w }
{
    decoding::instr(Fields::of_word(w))
}
