//! What separates tokens: blanks, comments and directive lines.

ghost use Rattle.std.specs.Prelude.{◌≡◌, ℕ, ◌+◌, ◌<◌, ◌≤◌, length, IfSome, IfNone};
ghost use Rattle.std.specs.List.{prefix_len};
ghost use Rattle.ck_base.specs.Lexes.{is_space as space, is_blank as blank, line_length as length_of_line};
ghost use Rattle.ck_base.specs.Lexes.{ClosesBehind, NeverCloses, next_word as word_behind, behind_word};
ghost use Rattle.c_lex.specs.Pieces.{DescribesComment, DescribesNamed, DescribesDirective};

use crate::forms::word_length;
use crate::literals::is_decimal;

// What begins where a comment may.
#[derive(Clone, Copy)]
pub enum Comment {
    // A comment of this many bytes.
    Whole(usize),
    // A comment that is not closed.
    Unclosed,
    // No comment.
    Missing,
}

// What begins where a directive line may.
#[derive(Clone, Copy)]
pub enum Directive {
    // A line that is skipped.
    Skipped,
    // `#pragma pack`.
    Pack,
    // No directive line that is known.
    Missing,
}

#[tactic(auto, unfolding(ck_base::specs::Lexes::is_space))]
pub fn is_space(b: u8) -> bool
    ensures { result ≡ space b }
{
    b == b' ' || b == b'\t'
}

#[tactic(auto, unfolding(ck_base::specs::Lexes::is_blank))]
pub fn is_blank(b: u8) -> bool
    ensures { result ≡ blank b }
{
    b == b' ' || (9 <= b && b <= 13)
}

// How many bytes stand before the end of the line.
pub fn line_length(bytes: &[u8]) -> usize
    ensures { result ≡ length_of_line bytes.now }
{
    bytes.iter().take_while(|b| **b != b'\n').count()
}

// Where the first `*/` stands.
fn close_at(bytes: &[u8]) -> Option<usize>
    ensures found { IfSome result (ClosesBehind bytes.now) }
    ensures none { IfNone result (NeverCloses bytes.now) }
{
    for i in 1..bytes.len() {
        if bytes[i - 1] == b'*' && bytes[i] == b'/' {
            return Some(i - 1);
        }
    }
    None
}

// The comment at the front.
pub fn comment_at(bytes: &[u8]) -> Comment
    ensures { DescribesComment bytes.now result }
{
    if bytes.starts_with(b"//") {
        Comment::Whole(line_length(bytes))
    } else if bytes.starts_with(b"/*") {
        match close_at(&bytes[2..]) {
            Some(n) => Comment::Whole(n + 4),
            None => Comment::Unclosed,
        }
    } else {
        Comment::Missing
    }
}

// How many spaces and tabs stand at the front.
fn spaces_length(bytes: &[u8]) -> usize
    ensures value { result ≡ prefix_len space bytes.now }
    ensures within { result ≤ length bytes.now }
{
    bytes.iter().take_while(|b| is_space(**b)).count()
}

// The word behind spaces and tabs, and what stands behind that word.
fn next_word(bytes: &[u8]) -> (&[u8], &[u8])
    ensures word { result.0.now ≡ word_behind bytes.now }
    ensures rest { result.1.now ≡ behind_word bytes.now }
{
    let (_, rest) = bytes.split_at(spaces_length(bytes));
    rest.split_at(word_length(rest))
}

// The directive that is named behind a `#`.
fn directive_named(bytes: &[u8]) -> Directive
    ensures { DescribesNamed bytes.now result }
{
    let (word, rest) = next_word(bytes);
    if word == b"pragma".as_slice() {
        if next_word(rest).0 == b"pack".as_slice() {
            Directive::Pack
        } else {
            Directive::Skipped
        }
    } else if word == b"line".as_slice() || is_decimal(word) {
        Directive::Skipped
    } else {
        Directive::Missing
    }
}

// The directive line at the front.
pub fn directive_at(bytes: &[u8]) -> Directive
    ensures { DescribesDirective bytes.now result }
{
    match bytes {
        [first, rest @ ..] if *first == b'#' => directive_named(rest),
        _ => Directive::Missing,
    }
}
