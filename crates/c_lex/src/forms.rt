//! The forms of tokens: how many bytes the longest token at the front of some bytes has.

ghost use Rattle.std.specs.Prelude.{◌≡◌, ℕ, ◌+◌, ◌<◌, ◌≤◌, false, [], ◌∷◌, length, bytes_eq, take, drop, IfSome};
ghost use Rattle.std.specs.Prelude.{IfNone, IsTrue, IsFalse};
ghost use Rattle.std.specs.List.{list_any, prefix_len};
ghost use Rattle.ck_base.specs.Tokens.{is_nondigit as nondigit, is_word_byte as word_byte};
ghost use Rattle.ck_base.specs.Tokens.{is_number_byte as number_byte, starts_number as number_start, is_among as among};
ghost use Rattle.ck_base.specs.Tokens.{punctuators, closes as closed, left_out, has_form};
ghost use Rattle.ck_base.specs.Lexes.{IsLongest, BeginsNoToken};
ghost use Rattle.c_lex.specs.Fronts.{beginning as kind_at, MeasuresFront, MeasuresQuoted};
ghost use Rattle.c_lex.specs.Fronts.{begins_left_out as left_out_begins};

use crate::punctuators::{is_double, is_single, is_triple};
use ck_base::TokenKind;

// A letter or `_` (C11 6.4.2.1).
#[tactic(auto, unfolding(ck_base::specs::Tokens::is_nondigit))]
fn is_nondigit(b: u8) -> bool
    ensures { result ≡ nondigit b }
{
    b.is_ascii_alphabetic() || b == b'_'
}

#[tactic(auto, unfolding(ck_base::specs::Tokens::is_word_byte))]
pub fn is_word_byte(b: u8) -> bool
    ensures { result ≡ word_byte b }
{
    is_nondigit(b) || b.is_ascii_digit()
}

#[tactic(auto, unfolding(ck_base::specs::Tokens::is_number_byte))]
fn is_number_byte(b: u8) -> bool
    ensures { result ≡ number_byte b }
{
    is_word_byte(b) || b == b'.'
}

// How many bytes from the front on may stand in a word.
pub fn word_length(bytes: &[u8]) -> usize
    ensures value { result ≡ prefix_len word_byte bytes.now }
    ensures within { result ≤ length bytes.now }
{
    bytes.iter().take_while(|b| is_word_byte(**b)).count()
}

// How many bytes from the front on may stand in a number.
fn number_length(bytes: &[u8]) -> usize
    ensures { result ≡ prefix_len number_byte bytes.now }
{
    bytes.iter().take_while(|b| is_number_byte(**b)).count()
}

// A digit, or a dot and a digit.
#[tactic(auto, unfolding(ck_base::specs::Tokens::starts_number))]
fn starts_number(bytes: &[u8]) -> bool
    ensures { result ≡ number_start bytes.now }
{
    match bytes {
        [b'.', digit, ..] | [digit, ..] => digit.is_ascii_digit(),
        [] => false,
    }
}

// How many bytes stand behind an opening quote up to the closing one, itself counted.
fn closing_length(quote: u8, bytes: &[u8]) -> Option<usize>
    ensures within { IfSome result (λ n. n ≤ length bytes.now) }
    ensures found { IfSome result (λ n. IsTrue (closed quote false (take n bytes.now))) }
    ensures none { IfNone result ((n : ℕ) → IsFalse (closed quote false (take n bytes.now))) }
{
    let mut escaped = false;
    for (i, b) in bytes.iter().enumerate() {
        if *b == b'\n' {
            return None;
        }
        if escaped {
            escaped = false;
        } else if *b == quote {
            return Some(i + 1);
        } else {
            escaped = *b == b'\\';
        }
    }
    None
}

// How many bytes stand from a quote up to the closing one.
fn quoted_length(quote: u8, bytes: &[u8]) -> Option<usize>
    ensures { MeasuresQuoted quote bytes.now result }
{
    match bytes {
        [first, rest @ ..] if *first == quote => match closing_length(quote, rest) {
            Some(n) => Some(n + 1),
            None => None,
        },
        _ => None,
    }
}

fn is_punctuator(text: &[u8]) -> bool
    ensures { result ≡ among punctuators text.now }
{
    match text {
        [a] => is_single(*a),
        [a, b] => is_double(*a, *b),
        [a, b, c] => is_triple(*a, *b, *c),
        _ => false,
    }
}

// How many bytes the longest punctuator at the front has, which are at most three.
fn punctuator_length(bytes: &[u8]) -> Option<usize>
    ensures { MeasuresFront TokenKind.Punct bytes.now result }
{
    let mut n = bytes.len().min(3);
    while n > 0 && !is_punctuator(&bytes[..n]) {
        n -= 1;
    }
    if n == 0 { None } else { Some(n) }
}

// The kind whose tokens may begin as the bytes do.
#[tactic(auto, unfolding(crate::specs::Fronts::beginning))]
fn beginning(bytes: &[u8]) -> TokenKind
    ensures { result ≡ kind_at bytes.now }
{
    match bytes {
        [] => TokenKind::Punct,
        [first, ..] if is_nondigit(*first) => TokenKind::Word,
        [..] if starts_number(bytes) => TokenKind::Number,
        [b'\'', ..] => TokenKind::Char,
        [b'"', ..] => TokenKind::Text,
        [..] => TokenKind::Punct,
    }
}

// How many bytes the longest token of the kind at the front has.
fn token_length(kind: TokenKind, bytes: &[u8]) -> Option<usize>
    requires { kind_at bytes.now ≡ kind }
    ensures { MeasuresFront kind bytes.now result }
{
    match kind {
        TokenKind::Word => Some(word_length(bytes)),
        TokenKind::Number => Some(number_length(bytes)),
        TokenKind::Char => quoted_length(b'\'', bytes),
        TokenKind::Text => quoted_length(b'"', bytes),
        TokenKind::Punct => punctuator_length(bytes),
    }
}

// The longest token at the front, by its form, and how many bytes it has.
pub fn longest_token(bytes: &[u8]) -> Option<(TokenKind, usize)>
    ensures found { IfSome result (λ found. IsLongest bytes.now found.0 found.1) }
    ensures none { IfNone result (BeginsNoToken bytes.now) }
{
    let kind = beginning(bytes);
    let n = token_length(kind, bytes)?;
    Some((kind, n))
}

const LEFT_OUT: [&[u8]; 24] = [
    b"float",
    b"double",
    b"_Complex",
    b"_Imaginary",
    b"goto",
    b"asm",
    b"__asm",
    b"__asm__",
    b"_Atomic",
    b"_Generic",
    b"_Alignas",
    b"_Alignof",
    b"_Noreturn",
    b"_Static_assert",
    b"_Thread_local",
    b"__attribute",
    b"__attribute__",
    b"__extension__",
    b"typeof",
    b"__typeof__",
    b"__int128",
    b"__builtin_va_list",
    b"__builtin_offsetof",
    b"...",
];

// Whether a text is in a table.
pub fn is_among(table: &[&[u8]], text: &[u8]) -> bool
    ensures { result ≡ list_any (λ entry. bytes_eq entry.now text.now) table.now }
{
    table.contains(&text)
}

// Whether a text of `LEFT_OUT` may begin with this byte.
#[tactic(auto, unfolding(crate::specs::Fronts::begins_left_out))]
fn begins_left_out(b: u8) -> bool
    ensures { result ≡ left_out_begins b }
{
    b == b'.' || b == b'_' || b == b'a' || b == b'd' || b == b'f' || b == b'g' || b == b't'
}

// Whether the language leaves a word or punctuator out. Each of them has three bytes at least.
#[tactic(auto, unfolding(ck_base::specs::Tokens::left_out))]
pub fn is_left_out(text: &[u8]) -> bool
    ensures { result ≡ among left_out text.now }
{
    match text {
        [first, _, _, ..] if begins_left_out(*first) => is_among(&LEFT_OUT, text),
        _ => false,
    }
}
