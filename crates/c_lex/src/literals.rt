//! The values of literals (C11 6.4.4, 6.4.5).

ghost use Rattle.std.specs.Prelude.{◌≡◌, ℕ, ◌+◌, ◌^◌, ◌<◌, ◌≤◌, ◌↔◌, ◌++◌, List, Bool, length, take, SomeIff, IfSome};
ghost use Rattle.std.specs.Prelude.{IfNone, OnOk, OnErr, MatchOption, IsTrue};
ghost use Rattle.std.specs.List.{prefix_len};
ghost use Rattle.std.specs.Char.{digit_value, is_digit};
ghost use Rattle.std.specs.Str.{byte};
ghost use Rattle.ck_base.specs.declared.tokens.Integer.{Integer as IntegerOf};
ghost use Rattle.ck_base.specs.Tokens.{is_among as among};
ghost use Rattle.ck_base.specs.Literals.{are_digits, value_of as number_of, suffixes, leading_digits as digits_ahead};
ghost use Rattle.ck_base.specs.Literals.{simple_escape as escape_of, in_quotes, IsInteger, IsCharacter, IsString};
ghost use Rattle.ck_base.specs.Literals.{AreCharacters};
ghost use Rattle.ck_base.specs.Lexes.{IsAccepted};
ghost use Rattle.c_lex.specs.Spelled.{base_at, digits_at, suffix_at, has_type as typed, numeric_at, other_escape_at};
ghost use Rattle.c_lex.specs.Spelled.{escape_at, character_at, is_plain as plain};

use crate::bases::digits_of;
use crate::forms::is_among;
use ck_base::{Integer, NoMemory, TokenKind};

// The value of a digit of either case, or 36.
fn digit_of(b: u8) -> u8
    ensures { result ≡ digit_value b }
{
    match b {
        b'0'..=b'9' => b - b'0',
        b'a'..=b'z' => b - b'a' + 10,
        b'A'..=b'Z' => b - b'A' + 10,
        _ => 36,
    }
}

// How many digits of the base stand at the front.
fn digits_length(base: u8, bytes: &[u8]) -> usize
    ensures value { result ≡ prefix_len (λ b. is_digit b base) bytes.now }
    ensures within { result ≤ length bytes.now }
{
    bytes.iter().take_while(|b| digit_of(**b) < base).count()
}

// Whether these are one or more decimal digits.
pub fn is_decimal(text: &[u8]) -> bool
    ensures { result ≡ are_digits 10 text.now }
{
    !text.is_empty() && digits_length(10, text) == text.len()
}

// The number that the digits write, or None where it is 2^64 or more.
fn value_of(base: u8, digits: &[u8]) -> Option<u64>
    requires { 1 ≤ base }
    ensures { SomeIff result (number_of base digits.now < 2 ^ 64) (number_of base digits.now) }
{
    let mut value = 0u64;
    for b in digits {
        value = u64::from(base)
            .checked_mul(value)?
            .checked_add(u64::from(digit_of(*b)))?;
    }
    Some(value)
}

const NONE: [&[u8]; 1] = [b""];

const UNSIGNED: [&[u8]; 2] = [b"u", b"U"];

const LONG: [&[u8]; 2] = [b"l", b"L"];

const LONG_LONG: [&[u8]; 2] = [b"ll", b"LL"];

const UNSIGNED_LONG: [&[u8]; 8] = [b"ul", b"lu", b"uL", b"Lu", b"Ul", b"lU", b"UL", b"LU"];

const UNSIGNED_LONG_LONG: [&[u8]; 8] = [
    b"ull", b"llu", b"uLL", b"LLu", b"Ull", b"llU", b"ULL", b"LLU",
];

// The suffix of an integer constant: whether it is unsigned, and how many longs it has.
#[tactic(auto, unfolding(crate::specs::Spelled::suffix_at))]
fn suffix_of(suffix: &[u8]) -> Option<(bool, u8)>
    ensures { result ≡ suffix_at suffix.now }
{
    if is_among(&NONE, suffix) {
        Some((false, 0))
    } else if is_among(&UNSIGNED, suffix) {
        Some((true, 0))
    } else if is_among(&LONG, suffix) {
        Some((false, 1))
    } else if is_among(&LONG_LONG, suffix) {
        Some((false, 2))
    } else if is_among(&UNSIGNED_LONG, suffix) {
        Some((true, 1))
    } else if is_among(&UNSIGNED_LONG_LONG, suffix) {
        Some((true, 2))
    } else {
        None
    }
}

// Whether a constant has a type: a decimal one without `u` needs a signed one.
fn has_type(value: u64, unsigned: bool, decimal: bool) -> bool
    ensures { result ≡ typed value unsigned decimal }
{
    unsigned || !decimal || value < 1 << 63
}

/// The integer constant that is spelled so, or None where none is (C11 6.4.4.1).
pub fn integer_of(text: &[u8]) -> Option<Integer>
    ensures found { IfSome result (IsInteger text.now) }
    ensures only { (n : IntegerOf) → IsInteger text.now n → result ≡ Some n }
{
    let (base, digits) = digits_of(text);
    let (digits, suffix) = digits.split_at(digits_length(base, digits));
    if digits.is_empty() {
        return None;
    }
    let value = value_of(base, digits)?;
    let (unsigned, longs) = suffix_of(suffix)?;
    let decimal = base == 10;
    if !has_type(value, unsigned, decimal) {
        return None;
    }
    Some(Integer {
        value,
        unsigned,
        longs,
        decimal,
    })
}

// The byte that a backslash and this byte stand for.
#[tactic(auto, unfolding(ck_base::specs::Literals::simple_escape))]
fn simple_escape(b: u8) -> Option<u8>
    ensures { result ≡ escape_of b }
{
    match b {
        b'n' => Some(10),
        b't' => Some(9),
        b'r' => Some(13),
        b'a' => Some(7),
        b'b' => Some(8),
        b'f' => Some(12),
        b'v' => Some(11),
        b'\\' | b'\'' | b'"' | b'?' => Some(b),
        _ => None,
    }
}

// The digits of the base at the front, at most so many.
fn leading_digits(base: u8, most: usize, bytes: &[u8]) -> &[u8]
    ensures { result.now ≡ take most (digits_ahead base bytes.now) }
{
    &bytes[..digits_length(base, bytes).min(most)]
}

// A numeric escape sequence with some bytes before its digits: its value, which is a byte's, and its length.
fn numeric_escape(base: u8, digits: &[u8], before: usize) -> Option<(u8, usize)>
    requires base { 1 ≤ base }
    requires small { before ≤ 1 }
    ensures { result ≡ numeric_at base digits.now before }
{
    if digits.is_empty() {
        return None;
    }
    match value_of(base, digits) {
        Some(value) if value <= 255 => Some((value as u8, before + digits.len())),
        _ => None,
    }
}

// An escape sequence with no octal digit, behind its backslash: its value and its length.
#[tactic(auto, unfolding(crate::specs::Spelled::other_escape_at))]
fn other_escape(bytes: &[u8]) -> Option<(u8, usize)>
    ensures { result ≡ other_escape_at bytes.now }
{
    match bytes {
        [] => None,
        [first, rest @ ..] if *first == b'x' => {
            numeric_escape(16, leading_digits(16, rest.len(), rest), 1)
        }
        [first, ..] => match simple_escape(*first) {
            Some(value) => Some((value, 1)),
            None => None,
        },
    }
}

// The escape sequence at the front, behind its backslash: its value and its length.
#[tactic(auto, unfolding(crate::specs::Spelled::escape_at))]
fn escape(bytes: &[u8]) -> Option<(u8, usize)>
    ensures { result ≡ escape_at bytes.now }
{
    let octal = leading_digits(8, 3, bytes);
    if octal.is_empty() {
        other_escape(bytes)
    } else {
        numeric_escape(8, octal, 0)
    }
}

// The character at the front, behind an opening quote: its value and its length.
#[tactic(auto, unfolding(crate::specs::Spelled::character_at))]
fn character(quote: u8, bytes: &[u8]) -> Option<(u8, usize)>
    ensures value { result ≡ character_at quote bytes.now }
    ensures within { IfSome result (λ found. (1 ≤ found.1) × (found.1 ≤ length bytes.now)) }
{
    match bytes {
        [first, rest @ ..] if *first == b'\\' => match escape(rest) {
            Some((value, n)) => Some((value, n + 1)),
            None => None,
        },
        [first, ..] if *first != quote && *first != b'\n' => Some((*first, 1)),
        _ => None,
    }
}

// What stands between two quotes.
fn contents_of(quote: u8, text: &[u8]) -> Option<&[u8]>
    ensures found { IfSome result (λ contents. text.now ≡ in_quotes quote contents.now) }
    ensures none { IfNone result ((bytes : List ℕ) → text.now ≡ in_quotes quote bytes → ⊥) }
{
    match text {
        [first, contents @ .., last] if *first == quote && *last == quote => Some(contents),
        _ => None,
    }
}

/// The value of the character constant that is spelled so, or None where none is (C11 6.4.4.4).
pub fn char_of(text: &[u8]) -> Option<u8>
    ensures found { IfSome result (IsCharacter text.now) }
    ensures only { (value : ℕ) → IsCharacter text.now value → result ≡ Some value }
{
    let contents = contents_of(b'\'', text)?;
    let (value, n) = character(b'\'', contents)?;
    if n == contents.len() {
        Some(value)
    } else {
        None
    }
}

// A byte that stands for itself between double quotes.
fn is_plain(b: u8) -> bool
    ensures { result ≡ plain b }
{
    !(b == b'\\' || b == b'"' || b == b'\n')
}

// How many bytes at the front stand for themselves between double quotes.
fn plain_length(bytes: &[u8]) -> usize
    ensures value { result ≡ prefix_len plain bytes.now }
    ensures within { result ≤ length bytes.now }
{
    bytes.iter().take_while(|b| is_plain(**b)).count()
}

// Whether a string literal is spelled so.
pub fn is_string(text: &[u8]) -> bool
    ensures { IsTrue result ↔ IsAccepted TokenKind.Text text.now }
{
    let Some(mut rest) = contents_of(b'"', text) else {
        return false;
    };
    loop {
        let (_, escaped) = rest.split_at(plain_length(rest));
        let Some((_, n)) = character(b'"', escaped) else {
            return escaped.is_empty();
        };
        rest = &escaped[n..];
    }
}

// Appends the values of the characters. An error may leave some of them.
fn append_values(characters: &[u8], into: &mut Vec<u8>) -> Result<(), NoMemory>
    ensures ok { OnOk result ((values : List ℕ) → AreCharacters (byte "\"") characters.now values →
        into.new.items ≡ into.old.items ++ values) }
    ensures err { OnErr result ((some : List ℕ) × (into.new.items ≡ into.old.items ++ some)) }
{
    let mut rest = characters;
    loop {
        let (plain, escaped) = rest.split_at(plain_length(rest));
        into.extend_from_slice(plain)?;
        let Some((value, n)) = character(b'"', escaped) else {
            return Ok(());
        };
        into.push(value)?;
        rest = &escaped[n..];
    }
}

/// Appends the bytes that a string literal spells, without the zero at their end (C11 6.4.5). An error leaves `into` as
/// it was.
pub fn unescape(text: &[u8], into: &mut Vec<u8>) -> Result<(), NoMemory>
    requires { IsAccepted TokenKind.Text text.now }
    ensures ok { OnOk result
        ((values : List ℕ) → IsString text.now values → into.new.items ≡ into.old.items ++ values) }
    ensures err { OnErr result (into.new.items ≡ into.old.items) }
{
    let start = into.len();
    let Some(contents) = contents_of(b'"', text) else {
        unreachable!()
    };
    let done = append_values(contents, into);
    if done.is_err() {
        into.truncate(start);
    }
    done
}
