//! Tokens with what they are to the grammar.

use crate::tables::symbol_of;
use c_lex::Token;
use c_tree::Symbol;
use ck_base::{Pos, Span, TokenKind};
use std::marker::Model;

/// Where a token stands.
#[derive(Clone, Copy)]
pub struct Place {
    pub pos: Pos,
    pub text: Span,
}

/// A token and what it is to the grammar. Contracts see the token.
#[derive(Drop)]
pub struct Item<'a> {
    text: &'a [u8],
    pos: Pos,
    /// How many bytes of the file stand before it.
    start: u32,
    kind: TokenKind,
    symbol: Symbol,
}

impl<'a> Model for Item<'a> {
    ghost use Rattle.ck_base.specs.Tokens.{Lexeme};

    ghost Value = { Lexeme };

    ghost use Rattle.std.specs.Prelude.{◌+◌, length};
    ghost use Rattle.c_phrases.specs.Items.{IsItem};

    ghost view = { λ s. record {
      kind = s.kind;
      text = s.text.now;
      span = record { start = s.start; end = s.start + length s.text.now };
      pos = s.pos;
    } };

    ghost invariant = { λ s. IsItem s.kind s.symbol s.start s.text.now };
}

impl<'a> Item<'a> {
    ghost use Rattle.std.specs.Prelude.{◌≡◌, ◌+◌, length};
    ghost use Rattle.c_lex.specs.Lexemes.{lexeme_of};
    ghost use Rattle.c_tree.specs.Symbols.{symbol as symbol_of_lexeme};
    ghost use Rattle.c_phrases.specs.Got.{IsPlaceOf};

    pub fn new(token: Token<'a>) -> Item<'a>
        requires { token.span.end ≡ token.span.start + length token.text.now }
        ensures { result ≡ lexeme_of token.entry }
    {
        Item {
            text: token.text,
            pos: token.pos,
            start: token.span.start,
            kind: token.kind,
            symbol: symbol_of(token.kind, token.text),
        }
    }

    /// The same token once more.
    pub(crate) fn again(&self) -> Item<'a>
        ensures { result ≡ self.now }
    {
        Item {
            text: self.text,
            pos: self.pos,
            start: self.start,
            kind: self.kind,
            symbol: self.symbol,
        }
    }

    pub fn symbol(&self) -> Symbol
        ensures { result ≡ symbol_of_lexeme self.now }
    {
        self.symbol
    }

    pub(crate) fn text(&self) -> &'a [u8]
        ensures { result.now ≡ self.now.text }
    {
        self.text
    }

    pub fn place(&self) -> Place
        ensures { IsPlaceOf result self.now }
    {
        Place {
            pos: self.pos,
            text: Span {
                start: self.start,
                end: self.start + self.text.len() as u32,
            },
        }
    }
}
