//! The names of types that are in force.

ghost use Rattle.std.specs.Prelude.{◌≡◌, ℕ, ◌≤◌, false, List, [], ◌∷◌, ◌++◌, length, reverse, drop, IfOk};
ghost use Rattle.ck_base.specs.Tokens.{is_among};
ghost use Rattle.c_tree.specs.Grammar.{is_typedef_name, is_word as is_word_of, may_be_nameless as may_be_nameless_of};
ghost use Rattle.c_tree.specs.Grammar.{is_declared_by as is_declared_by_of};
ghost use Rattle.c_phrases.specs.Reading.{begins_type, starts_with, starts, begins_specifier as begins_specifier_of};
ghost use Rattle.c_phrases.specs.Reading.{begins_declarator as begins_declarator_of, opens_type as opens_type_of};
ghost use Rattle.c_phrases.specs.Reading.{opens_parameters as opens_parameters_of};
ghost use Rattle.c_phrases.specs.Reading.{goes_on_listing as goes_on_listing_of};
ghost use Rattle.ck_base.specs.Tokens.{Lexeme};
ghost use Rattle.c_phrases.specs.Got.{in_force, naming_of, encloses, is_mark};
ghost use Rattle.c_phrases.specs.Begins.{Begins};

use crate::counts::Counts;
use crate::cursor::{Mark, is_marked};
use crate::items::Item;
use crate::stream::Stream;
use c_tree::Symbol;
use std::alloc::{AllocError, Global};
use std::marker::Model;

/// How a declarator names what it declares.
#[derive(Clone, Copy)]
pub enum Naming {
    /// By a name that is no typedef name.
    Plain,
    /// By any name.
    Any,
    /// By none.
    Nameless,
    /// By a name that is no typedef name, or by none.
    Either,
}

/// The typedef names in force, the latest first.
#[derive(Drop)]
pub struct TypeNames<'a> {
    /// The latest last.
    names: Vec<&'a [u8]>,
    /// How often each stands among them.
    counts: Counts<'a>,
    /// The least length that one of them had.
    shortest: usize,
    /// The greatest length that one of them had.
    longest: usize,
}

impl<'a> Model for TypeNames<'a> {
    ghost use Rattle.std.specs.Prelude.{List, ℕ, map, reverse};
    ghost use Rattle.c_phrases.specs.Counted.{IsCounted};

    ghost Value = { List (List ℕ) };

    ghost view = { λ types. reverse (map (λ name. name.now) types.names.items) };

    ghost invariant = { λ types. IsCounted types.counts types.shortest types.longest types.names.items };
}

#[tactic(auto, unfolding(crate::specs::Got::in_force), using(crate::proofs::Force::reversed_push, crate::proofs::Force::reversed_length, crate::proofs::Force::reversed_any))]
impl<'a> TypeNames<'a> {
    pub fn new(alloc: Global) -> TypeNames<'a>
        ensures { in_force result ≡ [] }
    {
        TypeNames {
            names: Vec::new(alloc),
            counts: Counts::new(alloc),
            shortest: usize::MAX,
            longest: 0,
        }
    }

    // Whether a text is as long as a name among them may be.
    fn may_have(&self, text: &[u8]) -> bool
        ensures { result ≡ false → is_among (in_force self.now) text.now ≡ false }
    {
        let count = text.len();
        self.shortest <= count && count <= self.longest
    }

    pub fn contains(&self, text: &[u8]) -> bool
        ensures { result ≡ is_among (in_force self.now) text.now }
    {
        self.may_have(text) && self.counts.count(text) > 0
    }

    pub fn push(&mut self, name: &'a [u8]) -> Result<(), AllocError>
        ensures { IfOk result (λ _. in_force self.new ≡ name.now ∷ in_force self.old) }
    {
        self.counts.reserve()?;
        self.names.push(name)?;
        self.counts.add(name)?;
        self.shortest = self.shortest.min(name.len());
        self.longest = self.longest.max(name.len());
        Ok(())
    }

    pub fn len(&self) -> usize
        ensures { result ≡ length (in_force self.now) }
    {
        self.names.len()
    }

    // Takes off the latest name.
    fn pop(&mut self)
        ensures { in_force self.new ≡ drop 1 (in_force self.old) }
    {
        if let Some(name) = self.names.pop() {
            self.counts.remove(name);
        }
    }

    /// Goes back to the first so many names.
    pub fn truncate(&mut self, count: usize)
        ensures { (ys zs : List (List ℕ)) → in_force self.old ≡ ys ++ zs → length zs ≡ count → in_force self.new ≡ zs }
    {
        while self.len() > count {
            self.pop();
        }
    }

    /// Puts the names behind the first so many in the other order.
    pub fn reverse_from(&mut self, count: usize)
        requires { count ≤ length (in_force self.old) }
        ensures { (ys zs : List (List ℕ)) → in_force self.old ≡ ys ++ zs → length zs ≡ count →
            in_force self.new ≡ reverse ys ++ zs }
    {
        let names = self.names.as_mut_slice();
        names[count..].reverse();
    }

    /// Whether the token is a typedef name.
    pub(crate) fn has(&self, item: &Item) -> bool
        ensures { result ≡ is_typedef_name (in_force self.now) item.now }
    {
        matches!(item.symbol(), Symbol::Word) && self.contains(item.text())
    }

    /// Whether specifiers begin with the token.
    pub fn begin_with(&self, item: &Item) -> bool
        ensures { result ≡ begins_type (in_force self.now) item.now }
    {
        begins_specifier(item.symbol()) || self.has(item)
    }

    /// Whether a type begins with this token, the first of some.
    fn start_at(&self, first: Option<&Item>) -> bool
        ensures { (ts : List Lexeme) → Begins ts first.entry →
            result ≡ starts_with (begins_type (in_force self.now)) ts }
    {
        match first {
            Some(item) => self.begin_with(item),
            None => false,
        }
    }

    /// Whether a type begins with the first token.
    pub fn start(&self, tokens: &Stream) -> bool
        ensures { result ≡ starts_with (begins_type (in_force self.now)) tokens.now }
    {
        self.start_at(tokens.first())
    }
}

pub(crate) fn begins_specifier(symbol: Symbol) -> bool
    ensures { result ≡ begins_specifier_of symbol }
{
    matches!(
        symbol,
        Symbol::Specifier(_) | Symbol::Record(_) | Symbol::Enum
    )
}

fn is_declarator_start(symbol: Symbol) -> bool
    ensures { result ≡ begins_declarator_of symbol }
{
    matches!(
        symbol,
        Symbol::Word | Symbol::Star | Symbol::OpenParenthesis | Symbol::OpenBracket
    )
}

/// Whether a declarator that is not empty begins with the first token.
pub(crate) fn begins_declarator(tokens: &Stream) -> bool
    ensures { result ≡ starts begins_declarator_of tokens.now }
{
    match tokens.first() {
        Some(item) => is_declarator_start(item.symbol()),
        None => false,
    }
}

pub(crate) fn may_be_nameless(naming: Naming) -> bool
    ensures { result ≡ may_be_nameless_of (naming_of naming) }
{
    matches!(naming, Naming::Nameless | Naming::Either)
}

pub(crate) fn is_word(symbol: Symbol) -> bool
    ensures { result ≡ is_word_of symbol }
{
    matches!(symbol, Symbol::Word)
}

pub(crate) fn is_declared_by(naming: Naming, types: &TypeNames, item: &Item) -> bool
    ensures { result ≡ is_declared_by_of (naming_of naming) (in_force types.now) item.now }
{
    let word = is_word(item.symbol());
    match naming {
        Naming::Any => word,
        Naming::Nameless => false,
        Naming::Plain | Naming::Either => word && !types.has(item),
    }
}

/// An opening parenthesis and the start of a type.
pub(crate) fn opens_type(types: &TypeNames, tokens: &Stream) -> bool
    ensures { result ≡ opens_type_of (in_force types.now) tokens.now }
{
    match tokens.first() {
        Some(item) => {
            is_marked(Mark::OpenParenthesis, item.symbol()) && types.start_at(tokens.second())
        }
        None => false,
    }
}

/// Whether this token, the first of some, is the one that is looked for.
fn is_marked_at(mark: Mark, first: Option<&Item>) -> bool
    ensures { (ts : List Lexeme) → Begins ts first.entry → result ≡ starts (is_mark mark) ts }
{
    match first {
        Some(item) => is_marked(mark, item.symbol()),
        None => false,
    }
}

/// What follows an opening parenthesis is a list of parameters, of which this is the first token.
fn opens_parameters(types: &TypeNames, first: Option<&Item>) -> bool
    ensures { (ts : List Lexeme) → Begins ts first.entry → result ≡ opens_parameters_of (in_force types.now) ts }
{
    is_marked_at(Mark::CloseParenthesis, first) || types.start_at(first)
}

/// An opening parenthesis that is no list of parameters' where the declarator may be nameless.
pub(crate) fn is_enclosed(types: &TypeNames, naming: Naming, tokens: &Stream) -> bool
    ensures { result ≡ encloses (naming_of naming) (in_force types.now) tokens.now }
{
    match tokens.first() {
        Some(item) => {
            is_marked(Mark::OpenParenthesis, item.symbol())
                && !(may_be_nameless(naming) && opens_parameters(types, tokens.second()))
        }
        None => false,
    }
}

/// A comma that does not end a list in braces.
pub(crate) fn goes_on_listing(tokens: &Stream) -> bool
    ensures { result ≡ goes_on_listing_of tokens.now }
{
    match tokens.first() {
        Some(item) => {
            is_marked(Mark::Comma, item.symbol())
                && !is_marked_at(Mark::CloseBrace, tokens.second())
        }
        None => false,
    }
}
