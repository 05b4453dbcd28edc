//! The listing of a text.

ghost use Rattle.std.specs.Prelude.{◌≡◌, ◌++◌, ◌+◌, ◌*◌, ◌/◌, ◌<◌, ◌≤◌, ◌^◌, false, length, OnOk, IfOk, codes, decimal};
ghost use Rattle.std.specs.Prelude.{string_bytes};
ghost use Rattle.std.specs.Fmt.{digit_glyph};
ghost use Rattle.tag_mem.specs.Numbers.{word_in};
ghost use Rattle.build_text.specs.Listing.{last_digits, word_line, listing_text};

use ck_base::NoMemory;
use itoa::Buffer;
use rv_code::decode;
use rv_text::line;
use std::alloc::Global;

/// A hexadecimal digit in lower case.
fn glyph(digit: u8) -> char
    requires { digit < 16 }
    ensures is { result ≡ digit_glyph false digit }
    ensures ascii { result < 128 }
{
    let byte = if digit < 10 {
        b'0' + digit
    } else {
        b'a' - 10 + digit
    };
    char::from(byte)
}

/// Appends the last hexadecimal digits of a number, so many of them.
fn push_digits(into: &mut String, count: u32, number: u32) -> Result<(), NoMemory>
    ensures { OnOk result (string_bytes into.new ≡ string_bytes into.old ++ last_digits count number) }
{
    if count == 0 {
        return Ok(());
    }
    push_digits(into, count - 1, number / 16)?;
    into.push(glyph((number % 16) as u8))?;
    Ok(())
}

/// Appends the line of a word at an address.
fn push_word(into: &mut String, at: u64, word: u32) -> Result<(), NoMemory>
    ensures { OnOk result (string_bytes into.new ≡ string_bytes into.old ++ word_line at word) }
{
    into.push_str(Buffer::new().format(at))?;
    into.push_str(" ")?;
    push_digits(into, 8, word)?;
    into.push_str(" ")?;
    if let Some(instr) = decode(word) {
        line(instr, into)?;
    }
    into.push_str("\n")?;
    Ok(())
}

/// Word k of a text, counted from 0.
fn word_in(text: &[u8], k: usize) -> u32
    requires { k < length text.now / 4 }
    ensures { result ≡ word_in text.now k }
{
    let at = 4 * k;
    u32::from_le_bytes([text[at], text[at + 1], text[at + 2], text[at + 3]])
}

/// The listing of a text that begins at an address: one line for each word, with the address in decimal, the word as
/// eight hexadecimal digits, and the text of its instruction.
pub fn listing_of(alloc: Global, base: u64, text: &[u8]) -> Result<String, NoMemory>
    requires { base + length text.now ≤ 2 ^ 64 }
    ensures { IfOk result (λ s. string_bytes s ≡ listing_text base text.now) }
{
    let mut listing = String::new(alloc);
    for k in 0..text.len() / 4 {
        push_word(&mut listing, base + 4 * k as u64, word_in(text, k))?;
    }
    Ok(listing)
}
