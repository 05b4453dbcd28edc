//! Reading on through the tokens, and adding the nodes of what was read.

ghost use Rattle.std.specs.Prelude.{◌≡◌, ℕ, ◌+◌, ◌<◌, ◌≤◌, ◌^◌, max, true, false, [], ◌∷◌, ◌++◌, length, Some, None};
ghost use Rattle.std.specs.Prelude.{Err, IfSome, IfNone, MatchOption, MatchResult, IfOk, IfErr};
ghost use Rattle.ck_base.specs.Tokens.{Lexeme};
ghost use Rattle.c_tree.specs.Symbols.{symbol};
ghost use Rattle.c_tree.specs.Syntax.{Syn, Syns, node, nil, one, first_token, weight as weight_of};
ghost use Rattle.c_tree.specs.Grammar.{declared_names};
ghost use Rattle.c_phrases.specs.Reading.{starts as starts_of, past as past_of, expect as expect_of};
ghost use Rattle.c_phrases.specs.Got.{rest_of, is_mark, Joined, IsPlaceOf, Means, Holds, Grows, Made, Fails};

use crate::items::{Item, Place};
use crate::stream::Stream;
use c_tree::{Node, NodeKind, Symbol};
use ck_base::Sequence;
use std::alloc::{AllocError, AllocFailed, Global};

/// Why nothing was read.
#[derive(Clone, Copy, Drop)]
pub enum Stop {
    NoMemory,
    NoTree,
}

impl From<AllocError> for Stop {
    ghost use Rattle.std.specs.Prelude.{◌≡◌};
    ghost use Rattle.c_phrases.specs.declared.cursor.Stop.TheVariants as stop;

    ghost from_gives = { λ _ e. e ≡ stop.NoMemory };

    fn from(_: AllocError) -> Self {
        Stop::NoMemory
    }
}

impl<T: Drop> From<AllocFailed<T>> for Stop {
    ghost use Rattle.std.specs.Prelude.{◌≡◌};
    ghost use Rattle.c_phrases.specs.declared.cursor.Stop.TheVariants as stop;

    ghost from_gives = { λ _ e. e ≡ stop.NoMemory };

    fn from(_: AllocFailed<T>) -> Self {
        Stop::NoMemory
    }
}

/// A token that is looked for.
#[derive(Clone, Copy)]
pub enum Mark {
    OpenParenthesis,
    CloseParenthesis,
    OpenBracket,
    CloseBracket,
    OpenBrace,
    CloseBrace,
    Comma,
    Semicolon,
    Colon,
    Star,
    Equals,
    Else,
    While,
    Text,
    Word,
}

/// What the root of a tree says of it.
#[derive(Clone, Copy)]
pub struct Root<'a> {
    pub kind: NodeKind,
    /// The token that gives its place and text.
    pub own: Place,
    /// The first token of the whole.
    pub first: Place,
    /// The name that it declares, if it is a declarator that declares one.
    pub name: Option<&'a [u8]>,
}

/// A tree that was read.
#[derive(Clone, Copy)]
pub struct Part<'a> {
    pub number: u32,
    pub height: u32,
    pub root: Root<'a>,
}

/// The parts of a node that is not made yet.
#[derive(Drop)]
pub struct Parts {
    pub kids: Vec<u32>,
    /// The greatest height among them.
    pub height: u32,
}

impl Parts {
    /// One more part at the end.
    pub fn push(&mut self, part: Part) -> Result<(), Stop>
        ensures size { IfOk result (λ _. self.new.height ≡ max self.old.height part.entry.height) }
        ensures kids { IfOk result (λ _. self.new.kids.items ≡ self.old.kids.items ++ part.entry.number ∷ []) }
        ensures full { IfErr result (λ e. e ≡ Stop.NoMemory) }
    {
        self.kids.push(part.number)?;
        self.height = self.height.max(part.height);
        Ok(())
    }

    /// These parts, and one more at the end.
    pub fn with(self, part: Part) -> Result<Parts, Stop>
        ensures size { IfOk result (λ parts. parts.height ≡ max self.height part.entry.height) }
        ensures kids { IfOk result (λ parts. parts.kids.items ≡ self.kids.items ++ part.entry.number ∷ []) }
        ensures full { IfErr result (λ e. e ≡ Stop.NoMemory) }
    {
        let mut parts = self;
        parts.push(part)?;
        Ok(parts)
    }
}

/// The tokens that are left, and the nodes so far.
#[derive(Drop)]
pub struct Cursor<'a> {
    alloc: Global,
    pub nodes: Vec<Node>,
    pub left: Stream<'a>,
}

/// Whether the symbol is the one that is looked for.
pub fn is_marked(mark: Mark, symbol: Symbol) -> bool
    ensures { result ≡ is_mark mark symbol }
{
    match mark {
        Mark::OpenParenthesis => matches!(symbol, Symbol::OpenParenthesis),
        Mark::CloseParenthesis => matches!(symbol, Symbol::CloseParenthesis),
        Mark::OpenBracket => matches!(symbol, Symbol::OpenBracket),
        Mark::CloseBracket => matches!(symbol, Symbol::CloseBracket),
        Mark::OpenBrace => matches!(symbol, Symbol::OpenBrace),
        Mark::CloseBrace => matches!(symbol, Symbol::CloseBrace),
        Mark::Comma => matches!(symbol, Symbol::Comma),
        Mark::Semicolon => matches!(symbol, Symbol::Semicolon),
        Mark::Colon => matches!(symbol, Symbol::Colon),
        Mark::Star => matches!(symbol, Symbol::Star),
        Mark::Equals => matches!(symbol, Symbol::Assignment(None)),
        Mark::Else => matches!(symbol, Symbol::Else),
        Mark::While => matches!(symbol, Symbol::While),
        Mark::Text => matches!(symbol, Symbol::Text),
        Mark::Word => matches!(symbol, Symbol::Word),
    }
}

/// Whether the tokens begin with this one.
pub(crate) fn starts(mark: Mark, tokens: &Stream) -> bool
    ensures { result ≡ starts_of (is_mark mark) tokens.now }
{
    match tokens.first() {
        Some(item) => is_marked(mark, item.symbol()),
        None => false,
    }
}

impl<'a> Cursor<'a> {
    pub fn new(alloc: Global, left: Stream<'a>) -> Cursor<'a>
        ensures nodes { result.nodes.items ≡ [] }
        ensures rest { rest_of result ≡ left.entry }
    {
        Cursor {
            alloc,
            nodes: Vec::new(alloc),
            left,
        }
    }

    /// The tokens that are left.
    pub fn rest(&self) -> &Stream<'a>
        ensures { result.now ≡ rest_of self.now }
    {
        &self.left
    }

    /// The first of the tokens that are left.
    pub fn first(&self) -> Option<Item<'a>>
        ensures { MatchOption result (rest_of self.now ≡ []) (λ t. rest_of self.now ≡ t ∷ past_of (rest_of self.now)) }
    {
        match self.left.first() {
            Some(item) => Some(item.again()),
            None => None,
        }
    }

    /// Goes on behind the first token.
    pub fn advance(&mut self)
        ensures nodes { self.new.nodes.items ≡ self.old.nodes.items }
        ensures rest { rest_of self.new ≡ past_of (rest_of self.old) }
    {
        self.left.advance();
    }

    /// Takes the first token.
    pub(crate) fn take(&mut self) -> Option<Item<'a>>
        ensures nodes { self.new.nodes.items ≡ self.old.nodes.items }
        ensures size { IfSome result (λ _. length (rest_of self.old) ≡ length (rest_of self.new) + 1) }
        ensures rest { MatchOption result (rest_of self.old ≡ []) (λ t. rest_of self.old ≡ t ∷ rest_of self.new) }
    {
        match self.first() {
            Some(item) => {
                self.advance();
                Some(item)
            }
            None => None,
        }
    }

    /// Takes the first token and gives it, if it is this one.
    pub fn take_if(&mut self, mark: Mark) -> Option<Item<'a>>
        ensures nodes { self.new.nodes.items ≡ self.old.nodes.items }
        ensures size { IfSome result (λ _. length (rest_of self.old) ≡ length (rest_of self.new) + 1) }
        ensures left { IfNone result (rest_of self.new ≡ rest_of self.old) }
        ensures other { IfNone result (starts_of (is_mark mark) (rest_of self.old) ≡ false) }
        ensures rest { IfSome result (λ t. rest_of self.old ≡ t ∷ rest_of self.new) }
        ensures found { IfSome result (λ t. is_mark mark (symbol t) ≡ true) }
    {
        match self.first() {
            Some(item) if is_marked(mark, item.symbol()) => {
                self.advance();
                Some(item)
            }
            _ => None,
        }
    }

    /// Takes the first token, if it is this one.
    pub fn takes(&mut self, mark: Mark) -> bool
        ensures found { result ≡ starts_of (is_mark mark) (rest_of self.old) }
        ensures nodes { self.new.nodes.items ≡ self.old.nodes.items }
        ensures taken { result ≡ true → rest_of self.new ≡ past_of (rest_of self.old) }
        ensures shorter { result ≡ true → length (rest_of self.old) ≡ length (rest_of self.new) + 1 }
        ensures left { result ≡ false → rest_of self.new ≡ rest_of self.old }
    {
        let found = starts(mark, self.rest());
        if found {
            self.advance();
        }
        found
    }

    /// Takes the first token, which has to be this one.
    pub fn expect(&mut self, mark: Mark) -> Result<(), Stop>
        ensures nodes { self.new.nodes.items ≡ self.old.nodes.items }
        ensures size { IfOk result (λ _. length (rest_of self.old) ≡ length (rest_of self.new) + 1) }
        ensures found { MatchResult result (λ _. expect_of (is_mark mark) (rest_of self.old) ≡ Some (rest_of self.new))
            (λ e. Fails e (expect_of (is_mark mark) (rest_of self.old))) }
    {
        if self.takes(mark) {
            Ok(())
        } else {
            Err(Stop::NoTree)
        }
    }

    /// The parts of a node that has none.
    pub fn no_parts(&self) -> Parts
        ensures size { result.height ≡ 0 }
        ensures none { Holds self.now.nodes.items result nil }
    {
        Parts {
            kids: Vec::new(self.alloc),
            height: 0,
        }
    }

    /// The parts of a node that has one so far.
    pub fn only(&self, part: Part) -> Result<Parts, Stop>
        ensures size { IfOk result (λ parts. parts.height ≡ part.entry.height) }
        ensures one { MatchResult result (λ parts. (x : Syn) → Means self.now.nodes.items part.entry x →
            Holds self.now.nodes.items parts (one x)) (λ e. e ≡ Stop.NoMemory) }
    {
        let mut kids = Vec::new(self.alloc);
        kids.push(part.number)?;
        Ok(Parts {
            kids,
            height: part.height,
        })
    }

    /// A node over these parts.
    pub fn make(&mut self, root: Root<'a>, parts: Parts) -> Result<Part<'a>, Stop>
        requires room { length self.old.nodes.items < 2 ^ 32 }
        requires height { parts.height < 2 ^ 31 }
        ensures size { IfOk result (λ part. (length self.new.nodes.items ≡ length self.old.nodes.items + 1) ×
            (part.height ≡ parts.height + weight_of root.entry.kind)) }
        ensures low { IfOk result (λ part. part.height ≤ parts.height + 1) }
        ensures kind { IfOk result (λ part. part.root ≡ root.entry) }
        ensures rest { rest_of self.new ≡ rest_of self.old }
        ensures tree { MatchResult result (λ part. Made self.old.nodes.items self.new.nodes.items root.entry parts part)
            (λ e. e ≡ Stop.NoMemory) }
    {
        let number = self.nodes.len() as u32;
        let Parts { kids, height } = parts;
        self.nodes.push(Node {
            kind: root.kind,
            pos: root.own.pos,
            first: root.first.pos,
            kids: Sequence::from_vec(kids),
            text: root.own.text,
        })?;
        Ok(Part {
            number,
            height: height + weight(root.kind),
            root,
        })
    }

    /// A node with a token of its own, which declares nothing.
    pub fn join(
        &mut self,
        kind: NodeKind,
        item: &Item<'a>,
        first: Place,
        parts: Parts,
    ) -> Result<Part<'a>, Stop>
        requires room { length self.old.nodes.items < 2 ^ 32 }
        requires height { parts.height < 2 ^ 31 }
        ensures size { IfOk result (λ part. length self.new.nodes.items ≡ length self.old.nodes.items + 1) }
        ensures low { IfOk result (λ part. part.height ≡ parts.height + weight_of kind) }
        ensures kind { IfOk result (λ part. part.root.kind ≡ kind) }
        ensures rest { rest_of self.new ≡ rest_of self.old }
        ensures grows { IfOk result (λ part. Grows self.old.nodes.items self.new.nodes.items) }
        ensures tree { MatchResult result (λ part.
            Joined self.old.nodes.items self.new.nodes.items kind item.now first parts part)
            (λ e. e ≡ Stop.NoMemory) }
    {
        let own = item.place();
        self.make(
            Root {
                kind,
                own,
                first,
                name: None,
            },
            parts,
        )
    }

    /// A node without parts, which declares nothing.
    pub fn leaf(&mut self, kind: NodeKind, item: &Item<'a>) -> Result<Part<'a>, Stop>
        requires room { length self.old.nodes.items < 2 ^ 32 }
        ensures size { IfOk result (λ part. length self.new.nodes.items ≡ length self.old.nodes.items + 1) }
        ensures low { IfOk result (λ part. part.height ≡ weight_of kind) }
        ensures kind { IfOk result (λ part. part.root.kind ≡ kind) }
        ensures rest { rest_of self.new ≡ rest_of self.old }
        ensures grows { IfOk result (λ part. Grows self.old.nodes.items self.new.nodes.items) }
        ensures tree { MatchResult result (λ part. declared_names (node kind item.now nil) ≡ [] →
            Means self.new.nodes.items part (node kind item.now nil)) (λ e. e ≡ Stop.NoMemory) }
    {
        let parts = self.no_parts();
        self.join(kind, item, item.place(), parts)
    }
}

/// What a production counts on the way down.
pub(crate) fn weight(kind: NodeKind) -> u32
    ensures is { result ≡ weight_of kind }
    ensures small { result ≤ 1 }
{
    match kind {
        NodeKind::File
        | NodeKind::Specifiers
        | NodeKind::Specifier(_)
        | NodeKind::TypedefName
        | NodeKind::Record(_)
        | NodeKind::Enum
        | NodeKind::Tag
        | NodeKind::Qualifiers
        | NodeKind::Parameters
        | NodeKind::TypeName
        | NodeKind::Case
        | NodeKind::Default
        | NodeKind::Absent => 0,
        _ => 1,
    }
}
