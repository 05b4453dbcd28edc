//! The reader of tokens.

use crate::pieces::{Found, find};
use crate::places::{Place, behind_token};
use ck_base::{Pos, Span, TokenKind};
use std::marker::Model;

/// A token, whose text is the file's slice of its span.
#[derive(Clone, Copy)]
pub struct Token<'a> {
    pub kind: TokenKind,
    pub span: Span,
    pub pos: Pos,
    pub text: &'a [u8],
}

/// A reader of the tokens of a file (C11 6.4), from its beginning on. Contracts see the file, and how many bytes of it
/// were read.
#[derive(Drop)]
pub struct Tokens<'a> {
    file: &'a [u8],
    place: Place,
}

impl<'a> Model for Tokens<'a> {
    ghost use Rattle.c_lex.specs.Reader.{Reader};

    ghost Value = { Reader };

    ghost use Rattle.std.specs.Prelude.{◌≤◌, length};
    ghost use Rattle.c_lex.specs.Pieces.{IsPlaceOf};
    ghost use Rattle.c_lex.specs.Reader.{IsReader};

    ghost view = { λ t. record { file = t.file.now; at = t.place.at } };

    ghost invariant = { λ t. IsReader t.file.now t.place };
}

impl<'a> Tokens<'a> {
    ghost use Rattle.std.specs.Prelude.{◌≡◌, ◌+◌, ◌<◌, ◌≤◌, length, IfNone, IfSome, IfOk, IfErr};
    ghost use Rattle.ck_base.specs.Lexes.{IsAccepted, NextToken, NextRefusal, NextEnd};
    ghost use Rattle.c_lex.specs.Lexemes.{lexeme_of};

    /// The reader at the beginning of a file of at most 4,194,304 bytes.
    pub fn new(file: &'a [u8]) -> Tokens<'a>
        requires { length file.now ≤ 4_194_304 }
        ensures { result ≡ record { file = file.now; at = 0 } }
    {
        Tokens {
            file,
            place: Place {
                at: 0,
                pos: Pos { line: 1, col: 1 },
                begins_line: true,
            },
        }
    }

    /// Another reader of the same file, at the same place.
    pub fn again(&self) -> Tokens<'a>
        ensures { result ≡ self.now }
    {
        Tokens {
            file: self.file,
            place: self.place,
        }
    }

    /// The next token; None at the end; or the code and the position of what breaks the rules there:
    /// 100 a byte that begins no token, 101 a literal or comment that is not closed, 102 a literal that has no value,
    /// 103 a word or punctuator that the language leaves out, 104 `#pragma pack`. A refusal and the end leave the
    /// reader as it is, so each later call gives them again.
    pub fn next(&mut self) -> Option<Result<Token<'a>, (u16, Pos)>>
        // what a caller that was handed the reader learns
        ensures small { length self.old.file ≤ 4_194_304 }
        ensures end { IfNone result (NextEnd self.old.file self.old.at) }
        ensures ended { IfNone result (self.new ≡ self.old) }
        ensures token { IfSome result (λ r. IfOk r (λ token. NextToken self.old.file self.old.at (lexeme_of token))) }
        ensures taken { IfSome result (λ r. IfOk r (λ token. self.new ≡ record self.old { at = token.span.end })) }
        ensures forward { IfSome result (λ r. IfOk r (λ token.
            (self.old.at < token.span.end) × (token.span.end ≤ length self.old.file))) }
        ensures long { IfSome result (λ r. IfOk r (λ token.
            token.span.end ≡ token.span.start + length token.text.now)) }
        ensures accepted { IfSome result (λ r. IfOk r (λ token. IsAccepted token.kind token.text.now)) }
        ensures refusal { IfSome result (λ r. IfErr r (λ e. NextRefusal self.old.file self.old.at e.0 e.1)) }
        ensures refused { IfSome result (λ r. IfErr r (λ _. self.new ≡ self.old)) }
    {
        let file = self.file;
        let (place, found) = find(file, self.place);
        match found {
            Found::End => None,
            Found::Refused(code) => Some(Err((code, place.pos))),
            Found::Token(kind, n) => {
                let text = &file[place.at..place.at + n];
                let end = behind_token(place, n);
                self.place = end;
                Some(Ok(Token {
                    kind,
                    span: Span {
                        start: place.at as u32,
                        end: end.at as u32,
                    },
                    pos: place.pos,
                    text,
                }))
            }
        }
    }
}
