//! The tree of a file, from the reader of its tokens.
ghost use Rattle.std.specs.Prelude.{◌≡◌, ℕ, ◌+◌, ◌<◌, ◌≤◌, ◌^◌, List, [], ◌∷◌, ◌++◌, map, reverse, length, Some, None};
ghost use Rattle.std.specs.Prelude.{IfOk, MatchResult};
ghost use Rattle.ck_base.specs.Tokens.{Lexeme};
ghost use Rattle.c_tree.specs.Grammar.{predeclared as predeclared_names};
ghost use Rattle.c_tree.specs.File.{IsTokenPlace};
ghost use Rattle.c_phrases.specs.Got.{in_force};
ghost use Rattle.c_parse.specs.Turns.{opening as opening_of, closing as closing_of};
ghost use Rattle.c_parse.specs.Parsed.{IsRefused, OnCode, Answers};
ghost use Rattle.c_parse.specs.Checked.{Counts, IsChecked};

use c_externals::file;
use c_lex::{Tokens, calls_read};
use c_phrases::{Cursor, Item, Place, Stop, Stream, TypeNames};
use c_tree::{Symbol, Tree};
use ck_base::{NO_TREE, NoMemory, Pos, Refusal, Sequence, TOO_MANY_BRACKETS};
use std::alloc::{AllocError, Global};

/// One more than the greatest excess of opening over closing brackets.
const TOO_DEEP: u32 = 201;

/// The names of types that are declared before a file, from the last to the first.
const PREDECLARED: [&[u8]; 13] = [
    b"uint64_t",
    b"uint32_t",
    b"uint16_t",
    b"uint8_t",
    b"int64_t",
    b"int32_t",
    b"int16_t",
    b"int8_t",
    b"uintptr_t",
    b"intptr_t",
    b"ptrdiff_t",
    b"ptraddr_t",
    b"size_t",
];

// How many brackets a token opens.
fn opening(symbol: Symbol) -> u32
    ensures is { result ≡ opening_of symbol }
    ensures small { result ≤ 1 }
{
    match symbol {
        Symbol::OpenParenthesis | Symbol::OpenBracket | Symbol::OpenBrace => 1,
        _ => 0,
    }
}

// How many brackets a token closes.
fn closing(symbol: Symbol) -> u32
    ensures is { result ≡ closing_of symbol }
    ensures small { result ≤ 1 }
{
    match symbol {
        Symbol::CloseParenthesis | Symbol::CloseBracket | Symbol::CloseBrace => 1,
        _ => 0,
    }
}

// The brackets of the tokens so far.
#[derive(Clone, Copy)]
struct Brackets {
    opened: u32,
    closed: u32,
    // The place of the bracket by which one too many stands open.
    deep: Option<Pos>,
}

// No brackets yet.
fn no_brackets() -> Brackets
    ensures { Counts result [] }
{
    Brackets {
        opened: 0,
        closed: 0,
        deep: None,
    }
}

// The place of the bracket by which one too many stands open, with one more token, which stands at this place.
fn deep_with(deep: Option<Pos>, opened: u32, closed: u32, place: Pos) -> Option<Pos>
    requires { closed ≤ 2 ^ 31 }
    ensures found { deep ≡ None → opened ≡ closed + 201 → result ≡ Some place }
    ensures none { deep ≡ None → (opened ≡ closed + 201 → ⊥) → result ≡ None }
    ensures kept { (q : Pos) → deep ≡ Some q → result ≡ Some q }
{
    match deep {
        Some(_) => deep,
        None if opened == closed + TOO_DEEP => Some(place),
        None => None,
    }
}

// The brackets with those of one more token.
fn with_token(brackets: Brackets, token: &Item) -> Brackets
    requires opened { brackets.opened < 2 ^ 31 }
    requires closed { brackets.closed < 2 ^ 31 }
    ensures { (ts : List Lexeme) → Counts brackets ts → Counts result (ts ++ token.now ∷ []) }
{
    let opened = brackets.opened + opening(token.symbol());
    let closed = brackets.closed + closing(token.symbol());
    Brackets {
        opened,
        closed,
        deep: deep_with(brackets.deep, opened, closed, token.place().pos),
    }
}

// One more token at the end.
fn push_item<'a>(items: &mut Vec<Item<'a>>, item: Item<'a>) -> Result<(), NoMemory>
    ensures { IfOk result (λ _. items.new.items ≡ items.old.items ++ item.entry ∷ []) }
{
    Ok(items.push(item)?)
}

// All tokens, of which none breaks a rule and no bracket stands too deep, or why not.
fn check<'a>(alloc: Global, tokens: Tokens<'a>) -> Result<Vec<Item<'a>>, Refusal>
    requires { tokens.at ≡ 0 }
    ensures { MatchResult result (λ items. IsChecked tokens.entry.file items.items)
        (λ e. OnCode e (IsRefused tokens.entry.file)) }
{
    calls_read();
    let mut reader = tokens;
    let mut items = Vec::new(alloc);
    let mut brackets = no_brackets();
    while let Some(next) = reader.next() {
        match next {
            Ok(token) => {
                let item = Item::new(token);
                brackets = with_token(brackets, &item);
                push_item(&mut items, item)?;
            }
            Err((code, place)) => return Err(Refusal::Code(code, place)),
        }
    }
    match brackets.deep {
        Some(place) => Err(Refusal::Code(TOO_MANY_BRACKETS, place)),
        None => Ok(items),
    }
}

// The position of the first of the tokens that begins at this byte or behind it, or of the last one.
fn stopped(tokens: &[Item], at: u32) -> Pos
    requires { 0 < length tokens.now }
    ensures { (bytes : List ℕ) → IsTokenPlace bytes tokens.now result }
{
    let mut place = Pos { line: 1, col: 1 };
    for item in tokens {
        let Place { pos, text } = item.place();
        place = pos;
        if text.start >= at {
            return place;
        }
    }
    place
}

// Further names of types, of which the last is the latest.
fn declare_all<'a>(types: &mut TypeNames<'a>, names: &[&'static [u8]]) -> Result<(), AllocError>
    ensures { IfOk result (λ _. in_force types.new ≡ reverse (map (λ name. name.now) names.now) ++ in_force types.old) }
{
    for name in names {
        types.push(name)?;
    }
    Ok(())
}

// The names of types that are declared before a file.
fn predeclared<'a>(alloc: Global) -> Result<TypeNames<'a>, AllocError>
    ensures { IfOk result (λ types. in_force types ≡ predeclared_names) }
{
    let mut types = TypeNames::new(alloc);
    declare_all(&mut types, &PREDECLARED)?;
    Ok(types)
}

// The tree of a file that has these tokens, which break no rule, or the place where there is none.
fn tree_of<'a>(alloc: Global, tokens: &'a [Item<'a>]) -> Result<Tree, Refusal>
    requires { length tokens.now ≤ 4_194_304 }
    ensures { (file : List ℕ) → IsChecked file tokens.now → Answers file result }
{
    let mut types = predeclared(alloc)?;
    let mut cursor = Cursor::new(alloc, Stream::new(tokens));
    match file(&mut cursor, &mut types) {
        Ok(part) => Ok(Tree {
            nodes: Sequence::from_vec(cursor.nodes),
            root: part.number,
        }),
        Err(Stop::NoTree) => Err(Refusal::Code(NO_TREE, stopped(tokens, cursor.left.at()))),
        Err(Stop::NoMemory) => Err(Refusal::NoMemory),
    }
}

/// The tree of a file (C11 6.5 to 6.9), from the reader of its tokens, none of which was taken before. The file is
/// refused by the first of these codes that applies: 100 to 104, as its tokens are; 121, at the bracket by which the
/// excess of opening over closing brackets reaches 201; 120, at the position of a token, where the grammar has no tree
/// of at most 200 levels for the tokens. It may be refused for want of memory at any time. A tree has at most
/// 67,108,864 nodes.
///
/// The tokens are read once and kept in a list: up to the end, for the refusals before 120; then the tree is made of
/// the list.
pub fn parse<'a>(alloc: Global, tokens: Tokens<'a>) -> Result<Tree, Refusal>
    requires { tokens.at ≡ 0 }
    ensures { Answers tokens.entry.file result }
{
    let items = check(alloc, tokens)?;
    tree_of(alloc, &items)
}
