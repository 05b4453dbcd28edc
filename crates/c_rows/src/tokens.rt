//! Tokens, refusals and values of literals.

ghost use Rattle.std.specs.Prelude.{◌≤◌, length};

mod tables;

use crate::given::must_be_none;
use c_lex::*;
use ck_base::Pos;
use std::alloc::{AllocError, Global};
use std::fmt::Write;
use tables::{CHARACTERS, INTEGERS, LEFT_OUT, LISTINGS, PUNCTUATORS, STRINGS, WORDS};

const START: Pos = Pos { line: 1, col: 1 };

// The tokens of a file, each with its kind, its position and its text, and how the file ends: `end`, or a code and its
// position.
fn list(listing: &mut String, file: &[u8]) -> Result<(), AllocError>
    requires { length file.now ≤ 4_194_304 }
{
    let mut tokens = Tokens::new(file);
    while let Some(next) = tokens.next() {
        match next {
            Ok(token) => {
                let kind = token.kind;
                let line = token.pos.line;
                let col = token.pos.col;
                let spelling = str::from_utf8(token.text).unwrap_or("?");
                write!(listing, "{kind:?} {line}:{col} {spelling}, ")?;
            }
            Err((code, pos)) => {
                let line = pos.line;
                let col = pos.col;
                return write!(listing, "{code} {line}:{col}");
            }
        }
    }
    listing.push_str("end")
}

// The byte of each character's number.
fn bytes_of(alloc: Global, file: &str) -> Result<Vec<u8>, AllocError> {
    let mut bytes = Vec::new(alloc);
    for character in file.chars() {
        bytes.push(u8::try_from(u32::from(character)).unwrap_or(0))?;
    }
    Ok(bytes)
}

fn listing(alloc: Global, file: &str) -> Result<String, AllocError> {
    let bytes = bytes_of(alloc, file)?;
    let mut listing = String::new(alloc);
    if bytes.len() < 100 {
        list(&mut listing, &bytes)?;
    }
    Ok(listing)
}

fn is_listed(alloc: Global, file: &str, want: &str) -> bool {
    match (listing(alloc, file), want.strip_prefix("..")) {
        (Ok(found), Some(end)) => found.as_str().ends_with(end),
        (Ok(found), None) => found.as_str() == want,
        (Err(_), _) => false,
    }
}

fn is_row_listed(alloc: Global, row: &str) -> bool {
    match row.split_once('\n') {
        Some((want, file)) => is_listed(alloc, file, want),
        None => row.starts_with("//"),
    }
}

// The first row that is listed otherwise.
fn wrong_listing(alloc: Global, rows: &'static str) -> Option<&'static str> {
    for row in rows.split("\n----\n") {
        if !is_row_listed(alloc, row) {
            return Some(row);
        }
    }
    None
}

// Whether a text is one token of this kind, or begins with a word that is left out.
fn is_token(text: &str, kind: Option<TokenKind>) -> bool {
    if text.len() >= 100 {
        return false;
    }
    let mut tokens = Tokens::new(text.as_bytes());
    match (tokens.next(), kind) {
        (Some(Ok(token)), Some(kind)) => {
            let is_whole = token.text == text.as_bytes() && tokens.next().is_none();
            token.kind == kind && token.pos == START && is_whole
        }
        (Some(Err(refusal)), None) => refusal == (103, START),
        _ => false,
    }
}

// The first word that is another token.
fn wrong_word(words: &'static str, kind: Option<TokenKind>) -> Option<&'static str> {
    for word in words.split_ascii_whitespace() {
        if !is_token(word, kind) {
            return Some(word);
        }
    }
    None
}

// Whether the next token is refused so, three times.
fn is_refused_on(tokens: &mut Tokens, code: u16, place: Pos) -> bool {
    for _ in 0..3 {
        match tokens.next() {
            Some(Err(refusal)) if refusal == (code, place) => {}
            _ => return false,
        }
    }
    true
}

fn ends_on(tokens: &mut Tokens) -> bool {
    tokens.next().is_none() && tokens.next().is_none() && tokens.next().is_none()
}

// Whether a word, and a number that is wrong, are read, and the refusal is repeated.
fn repeats_a_refusal(tokens: &mut Tokens) -> bool {
    matches!(tokens.next(), Some(Ok(_))) && is_refused_on(tokens, 102, Pos { line: 1, col: 3 })
}

#[test]
fn files_are_read_as_tokens(rt: HostRuntime) {
    must_be_none(&rt, wrong_listing(rt.alloc(), LISTINGS));
    must_be_none(&rt, wrong_word(PUNCTUATORS, Some(TokenKind::Punct)));
    must_be_none(&rt, wrong_word(WORDS, Some(TokenKind::Word)));
    must_be_none(&rt, wrong_word(LEFT_OUT, None));
    assert!(rt; repeats_a_refusal(&mut Tokens::new(b"x 08")));
    assert!(rt; ends_on(&mut Tokens::new(b" ")));
}

fn wanted(want: Option<(u64, bool, u8, bool)>) -> Option<Integer> {
    match want {
        Some((value, unsigned, longs, decimal)) => Some(Integer {
            value,
            unsigned,
            longs,
            decimal,
        }),
        None => None,
    }
}

// The first integer constant that has another value.
fn wrong_integer() -> Option<&'static str> {
    for &(text, want) in &INTEGERS {
        if integer_of(text.as_bytes()) != wanted(want) {
            return Some(text);
        }
    }
    None
}

fn are_characters() -> bool {
    for &(text, want) in &CHARACTERS {
        if char_of(text) != want {
            return false;
        }
    }
    true
}

// Puts the bytes that a text spells, if it is a string literal.
fn is_put(text: &[u8], bytes: &mut Vec<u8>) -> bool {
    if text.len() >= 100 {
        return false;
    }
    match Tokens::new(text).next() {
        Some(Ok(token)) if token.kind == TokenKind::Text => unescape(token.text, bytes).is_ok(),
        _ => false,
    }
}

// Whether the bytes that a text spells are put behind others.
fn spells(alloc: Global, text: &[u8], want: &[u8]) -> Result<bool, AllocError> {
    let mut bytes = Vec::from_slice(alloc, b">")?;
    Ok(is_put(text, &mut bytes) && bytes.as_slice() == want)
}

fn are_strings(alloc: Global) -> bool {
    for &(text, want) in &STRINGS {
        if spells(alloc, text, want) != Ok(true) {
            return false;
        }
    }
    true
}

#[test]
fn literals_have_values(rt: HostRuntime) {
    must_be_none(&rt, wrong_integer());
    assert!(rt; are_characters());
    assert!(rt; are_strings(rt.alloc()));
}
