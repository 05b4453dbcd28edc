//! What stands at a place of a file.

ghost use Rattle.std.specs.Prelude.{◌≡◌, ℕ, ◌≤◌, false, ◌∷◌, List, length, take, drop, IsFalse, MatchOption};
ghost use Rattle.ck_base.specs.Lexes.{is_blank as blank, is_quote as quote, begins_line as line_start, starts_comment};
ghost use Rattle.ck_base.specs.Lexes.{Gap, IsAccepted};
ghost use Rattle.c_lex.specs.Pieces.{IsPlaceOf, Faults, Stands, StandsFound};

use crate::forms::{is_left_out, longest_token};
use crate::literals::{char_of, integer_of, is_string};
use crate::places::{Place, behind};
use crate::separators::{Comment, Directive, comment_at, directive_at, is_blank, line_length};
use ck_base::{EXCLUDED_WORD, INVALID_LITERAL, NO_TOKEN, PRAGMA_PACK, TokenKind, UNCLOSED};

// What stands at a place where no separator does.
#[derive(Clone, Copy)]
pub enum Found {
    // The end of the file.
    End,
    // A token of this many bytes.
    Token(TokenKind, usize),
    // What is refused with this code.
    Refused(u16),
}

// What stands at a place.
#[derive(Clone, Copy)]
pub enum Piece {
    // A blank, a comment or a directive line of this many bytes.
    Separator(usize),
    // Something else.
    Other(Found),
}

// The code of a text that has the form of a token and is none of the language.
fn fault_of(kind: TokenKind, text: &[u8]) -> Option<u16>
    ensures { MatchOption result (IsAccepted kind text.now) (Faults kind text.now) }
{
    match kind {
        TokenKind::Number => {
            if integer_of(text).is_some() {
                None
            } else {
                Some(INVALID_LITERAL)
            }
        }
        TokenKind::Char => {
            if char_of(text).is_some() {
                None
            } else {
                Some(INVALID_LITERAL)
            }
        }
        TokenKind::Text => {
            if is_string(text) {
                None
            } else {
                Some(INVALID_LITERAL)
            }
        }
        TokenKind::Word | TokenKind::Punct => {
            if is_left_out(text) {
                Some(EXCLUDED_WORD)
            } else {
                None
            }
        }
    }
}

fn is_quote(b: u8) -> bool
    ensures { result ≡ quote b }
{
    b == b'\'' || b == b'"'
}

// The token at the front, where neither a blank nor a comment stands.
fn token_at(bytes: &[u8]) -> Found
    requires blank { (b : ℕ) × (rest : List ℕ) × (bytes.now ≡ b ∷ rest) × IsFalse (blank b) }
    requires comment { IsFalse (starts_comment bytes.now) }
    ensures { StandsFound false bytes.now result }
{
    match longest_token(bytes) {
        Some((kind, n)) => match fault_of(kind, &bytes[..n]) {
            Some(code) => Found::Refused(code),
            None => Found::Token(kind, n),
        },
        None if is_quote(bytes[0]) => Found::Refused(UNCLOSED),
        None => Found::Refused(NO_TOKEN),
    }
}

// What stands at the front of the bytes; `first` says that only spaces and tabs stand before them on their line.
fn piece_at(first: bool, bytes: &[u8]) -> Piece
    ensures { Stands first bytes.now result }
{
    match bytes {
        [] => return Piece::Other(Found::End),
        [b, ..] if is_blank(*b) => return Piece::Separator(1),
        [..] => {}
    }
    match comment_at(bytes) {
        Comment::Whole(n) => return Piece::Separator(n),
        Comment::Unclosed => return Piece::Other(Found::Refused(UNCLOSED)),
        Comment::Missing => {}
    }
    if first {
        match directive_at(bytes) {
            Directive::Skipped => return Piece::Separator(line_length(bytes)),
            Directive::Pack => return Piece::Other(Found::Refused(PRAGMA_PACK)),
            Directive::Missing => {}
        }
    }
    Piece::Other(token_at(bytes))
}

// The first place behind separators, and what stands there.
pub fn find(file: &[u8], mut place: Place) -> (Place, Found)
    requires small { length file.now ≤ 4_194_304 }
    requires of_file { IsPlaceOf file.now place }
    ensures of_file { IsPlaceOf file.now result.0 }
    ensures passed { Gap file.now place.at result.0.at }
    ensures found { StandsFound (line_start (take result.0.at file.now)) (drop result.0.at file.now) result.1 }
{
    loop {
        let rest = &file[place.at..];
        match piece_at(place.begins_line, rest) {
            Piece::Separator(n) => place = behind(place, &rest[..n]),
            Piece::Other(found) => return (place, found),
        }
    }
}
