//! The tokens that are left of a file.

use crate::items::Item;
use std::marker::Model;

/// The tokens that are left of a file. Contracts see them as a list.
#[derive(Drop)]
pub struct Stream<'a> {
    left: &'a [Item<'a>],
}

impl<'a> Model for Stream<'a> {
    ghost use Rattle.std.specs.Prelude.{List};
    ghost use Rattle.ck_base.specs.Tokens.{Lexeme};

    ghost Value = { List Lexeme };

    ghost view = { λ s. s.left.now };
}

impl<'a> Stream<'a> {
    ghost use Rattle.std.specs.Prelude.{◌≡◌, [], ◌∷◌, MatchOption};
    ghost use Rattle.c_phrases.specs.Reading.{past};

    /// All of these tokens.
    pub fn new(tokens: &'a [Item<'a>]) -> Stream<'a>
        ensures { result ≡ tokens.now }
    {
        Stream { left: tokens }
    }

    /// The first of them.
    pub fn first(&self) -> Option<&Item<'a>>
        ensures { MatchOption result (self.now ≡ []) (λ t. self.now ≡ t.now ∷ past self.now) }
    {
        self.left.first()
    }

    /// The one behind it.
    pub(crate) fn second(&self) -> Option<&Item<'a>>
        ensures { MatchOption result (past self.now ≡ []) (λ t. past self.now ≡ t.now ∷ past (past self.now)) }
    {
        match self.left {
            [_, rest @ ..] => rest.first(),
            [] => None,
        }
    }

    /// Where the first of them begins, in bytes from the beginning of the file; behind each of them at the end.
    pub fn at(&self) -> u32 {
        match self.first() {
            Some(item) => item.place().text.start,
            None => u32::MAX,
        }
    }

    /// Goes on behind the first of them.
    pub fn advance(&mut self)
        ensures { self.new ≡ past self.old }
    {
        if let [_, rest @ ..] = self.left {
            self.left = rest;
        }
    }
}
