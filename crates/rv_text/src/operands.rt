//! A name and its operands, on the stack.

ghost use Rattle.std.specs.Prelude.{◌≡◌, ◌++◌, ◌+◌, ◌≤◌, length, codes, decimal};
ghost use Rattle.std.specs.Fmt.{signed_decimal};
ghost use Rattle.arrayvec.specs.ArrayString.{array_string_len};
ghost use Rattle.rv_text.specs.Listing.{with_two, with_three};
ghost use Rattle.rv_text.specs.Operands.{text_of};

use arrayvec::ArrayString;
use itoa::Buffer;
use rv_instr::Reg;

/// The most bytes of a text.
const ROOM: usize = 72;

/// The text of one instruction.
pub type Text = ArrayString<ROOM>;

/// An operand.
#[derive(Clone, Copy)]
pub enum Operand {
    /// A register whose capability is read or written.
    Capability(Reg),
    /// A register whose integer is read or written.
    Integer(Reg),
    /// A number.
    Number(i32),
    /// The 20-bit field of format U.
    Field(u32),
    /// The place at an offset from the capability of a register.
    At(i32, Reg),
}

/// Appends a letter and the number of a register.
fn push_register(text: &mut Text, letter: &str, register: Reg)
    requires { (length letter.now ≤ 1) × (array_string_len text.old ≤ 68) }
    ensures bytes { text.new.bytes ≡ text.old.bytes ++ letter.now ++ decimal register }
    ensures len { array_string_len text.new ≤ array_string_len text.old + 4 }
{
    text.push_str(letter);
    text.push_str(Buffer::new().format(register.number()));
}

/// Appends a signed number.
fn push_number(text: &mut Text, number: i32)
    requires { array_string_len text.old ≤ 61 }
    ensures bytes { text.new.bytes ≡ text.old.bytes ++ signed_decimal number }
    ensures len { array_string_len text.new ≤ array_string_len text.old + 11 }
{
    text.push_str(Buffer::new().format(number));
}

/// Appends an operand.
fn push(text: &mut Text, operand: Operand)
    requires { array_string_len text.old ≤ 55 }
    ensures bytes { text.new.bytes ≡ text.old.bytes ++ text_of operand }
    ensures len { array_string_len text.new ≤ array_string_len text.old + 17 }
{
    match operand {
        Operand::Capability(register) => push_register(text, "c", register),
        Operand::Integer(register) => push_register(text, "x", register),
        Operand::Number(number) => push_number(text, number),
        Operand::Field(field) => text.push_str(Buffer::new().format(field)),
        Operand::At(offset, register) => {
            push_number(text, offset);
            text.push_str("(");
            push_register(text, "c", register);
            text.push_str(")");
        }
    }
}

/// A name and two operands.
pub fn with_two(name: &str, a: Operand, b: Operand) -> Text
    requires { length name.now ≤ 15 }
    ensures { result.bytes ≡ with_two name.now (text_of a) (text_of b) }
{
    let mut text = Text::new();
    text.push_str(name);
    text.push_str(" ");
    push(&mut text, a);
    text.push_str(",");
    push(&mut text, b);
    text
}

/// A name and three operands.
pub fn with_three(name: &str, a: Operand, b: Operand, c: Operand) -> Text
    requires { length name.now ≤ 15 }
    ensures { result.bytes ≡ with_three name.now (text_of a) (text_of b) (text_of c) }
{
    let mut text = Text::new();
    text.push_str(name);
    text.push_str(" ");
    push(&mut text, a);
    text.push_str(",");
    push(&mut text, b);
    text.push_str(",");
    push(&mut text, c);
    text
}

/// A name alone.
pub fn alone(name: &str) -> Text
    requires { length name.now ≤ 15 }
    ensures { result.bytes ≡ name.now }
{
    let mut text = Text::new();
    text.push_str(name);
    text
}
