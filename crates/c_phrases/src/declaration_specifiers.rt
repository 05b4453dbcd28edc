//! Specifiers: of types, structs, unions and enumerations (C11 6.7.2), and members.
ghost use Rattle.std.specs.Prelude.{◌≡◌, ℕ, suc, ◌+◌, ◌<◌, ◌≤◌, ◌^◌, false, true, [], ◌∷◌, length, Option};
ghost use Rattle.std.specs.Prelude.{Some, None, MatchResult, IfOk, IfSome, IfNone, Err};
ghost use Rattle.c_tree.specs.Syntax.{Syns, node, first_token, weight as weight_of};
ghost use Rattle.c_tree.specs.Symbols.{symbol};
ghost use Rattle.c_phrases.specs.Reading.{read as reader};
ghost use Rattle.c_phrases.specs.Reading.{record_from, enum_from, specifier_by};
ghost use Rattle.c_phrases.specs.Reading.{specifier_list as specifier_list_from, specifiers as specifiers_from};
ghost use Rattle.c_phrases.specs.Reading.{goes_on_specifying as goes_on_specifying_of};
ghost use Rattle.c_tree.specs.Grammar.{declared_names};
ghost use Rattle.c_phrases.specs.Got.{rest_of, in_force, IsRoomy, Paid, Owed, Reads};
ghost use Rattle.c_phrases.specs.Got.{ReadsParts, Holds, after, Fails};
ghost use Rattle.c_phrases.specs.Reading.{starts_with, with_parts};
ghost use Rattle.c_phrases.specs.Gathering.{Spared};
ghost use Rattle.c_phrases.specs.Steps.{members_from};
ghost use Rattle.c_phrases.specs.Steps.{GotGathered, GotSpecified};

use crate::cursor::{Cursor, Mark, Part, Parts, Stop, starts};
use crate::items::Item;
use crate::names::{TypeNames, begins_specifier};
use crate::phrases::{braced, read};
use crate::runs::tag;
use crate::steps::{Gathered, Phrase, Specified};
use c_tree::{NodeKind, RecordKind, Symbol};

// Members up to and with a closing brace, at least one.
#[cycle(phrases)]
fn members<'a>(
    cursor: &mut Cursor<'a>,
    types: &TypeNames<'a>,
    start: Parts,
    below: u32,
) -> Result<Parts, Stop>
    requires room { IsRoomy cursor.old }
    requires height { below ≤ 200 }
    requires start { start.height ≤ below }
    ensures size { IfOk result (λ _. Paid cursor.old cursor.new 4) }
    ensures low { IfOk result (λ p. p.height ≤ below) }
    ensures tree { (ys : Syns) (turns : ℕ) → length (rest_of cursor.old) < turns →
        Holds cursor.old.nodes.items start ys →
        ReadsParts cursor.old cursor.new (after ys
        (members_from (reader below) turns (in_force types.now) (rest_of cursor.old))) result }
{
    let mut parts = start;
    let mut part = read(cursor, types, Phrase::Member, below)?;
    parts.push(part)?;
    'list: while !starts(Mark::CloseBrace, cursor.rest()) {
        part = read(cursor, types, Phrase::Member, below)?;
        parts.push(part)?;
    }
    cursor.expect(Mark::CloseBrace)?;
    Ok(parts)
}

// A node of a tag, if there is one and nothing behind it.
fn tag_alone<'a>(
    cursor: &mut Cursor<'a>,
    kind: NodeKind,
    keyword: &Item<'a>,
    tag: Parts,
) -> Result<Part<'a>, Stop>
    requires room { length cursor.old.nodes.items < 2 ^ 31 }
    requires low { tag.height ≤ 0 }
    ensures size { IfOk result (λ _. length cursor.new.nodes.items ≡ length cursor.old.nodes.items + 1) }
    ensures low { IfOk result (λ p. p.height ≡ weight_of kind) }
    ensures rest { rest_of cursor.new ≡ rest_of cursor.old }
    ensures tree { (ys : Syns) → first_token (node kind keyword.now ys) ≡ keyword.now →
        declared_names (node kind keyword.now ys) ≡ [] → Holds cursor.old.nodes.items tag ys →
        Reads cursor.old cursor.new (with_parts (node kind keyword.now) ys (rest_of cursor.old)) result }
{
    if tag.kids.is_empty() {
        return Err(Stop::NoTree);
    }
    cursor.join(kind, keyword, keyword.place(), tag)
}

// A struct or a union, behind its first token.
#[cycle(phrases)]
fn record_specifier<'a>(
    cursor: &mut Cursor<'a>,
    types: &TypeNames<'a>,
    kind: RecordKind,
    keyword: &Item<'a>,
    below: u32,
) -> Result<Part<'a>, Stop>
    requires room { IsRoomy cursor.old }
    requires height { below ≤ 200 }
    ensures size { IfOk result (λ _. Owed cursor.old cursor.new 1) }
    ensures low { IfOk result (λ p. p.height ≤ below) }
    ensures tree { Reads cursor.old cursor.new
        (record_from (reader below) kind keyword.now (in_force types.now) (rest_of cursor.old)) result }
{
    let kind = NodeKind::Record(kind);
    let start = tag(cursor)?;
    if !cursor.takes(Mark::OpenBrace) {
        return tag_alone(cursor, kind, keyword, start);
    }
    let parts = members(cursor, types, start, below)?;
    cursor.join(kind, keyword, keyword.place(), parts)
}

// An enumeration, behind its first token.
#[cycle(phrases)]
fn enum_specifier<'a>(
    cursor: &mut Cursor<'a>,
    types: &TypeNames<'a>,
    keyword: &Item<'a>,
    below: u32,
) -> Result<Part<'a>, Stop>
    requires room { IsRoomy cursor.old }
    requires height { below ≤ 200 }
    ensures size { IfOk result (λ _. Owed cursor.old cursor.new 1) }
    ensures low { IfOk result (λ p. p.height ≤ below) }
    ensures tree { Reads cursor.old cursor.new
        (enum_from (reader below) keyword.now (in_force types.now) (rest_of cursor.old)) result }
{
    let kind = NodeKind::Enum;
    let start = tag(cursor)?;
    if !cursor.takes(Mark::OpenBrace) {
        return tag_alone(cursor, kind, keyword, start);
    }
    let parts = braced(cursor, types, Phrase::Enumerator, start, below)?;
    cursor.join(kind, keyword, keyword.place(), parts)
}

// A specifier that begins with this token.
#[cycle(phrases)]
fn specifier<'a>(
    cursor: &mut Cursor<'a>,
    types: &TypeNames<'a>,
    item: &Item<'a>,
    below: u32,
) -> Result<Part<'a>, Stop>
    requires room { IsRoomy cursor.old }
    requires height { below ≤ 200 }
    ensures size { IfOk result (λ _. Owed cursor.old cursor.new 1) }
    ensures low { IfOk result (λ p. p.height ≤ below) }
    ensures tree { Reads cursor.old cursor.new
        (specifier_by (reader below) (symbol item.now) item.now (in_force types.now) (rest_of cursor.old)) result }
{
    match item.symbol() {
        Symbol::Specifier(word) => cursor.leaf(NodeKind::Specifier(word), item),
        Symbol::Record(kind) => record_specifier(cursor, types, kind, item, below),
        Symbol::Enum => enum_specifier(cursor, types, item, below),
        Symbol::Word => cursor.leaf(NodeKind::TypedefName, item),
        _ => Err(Stop::NoTree),
    }
}

// Whether the token goes on with specifiers.
fn goes_on_specifying(types: &TypeNames, named: bool, item: &Item) -> bool
    ensures { result ≡ goes_on_specifying_of (in_force types.now) named item.now }
{
    begins_specifier(item.symbol()) || (!named && types.has(item))
}

// Takes the first token, if it goes on with specifiers.
fn take_specifier<'a>(cursor: &mut Cursor<'a>, types: &TypeNames, named: bool) -> Option<Item<'a>>
    ensures nodes { cursor.new.nodes.items ≡ cursor.old.nodes.items }
    ensures size { IfSome result (λ _. length (rest_of cursor.old) ≡ length (rest_of cursor.new) + 1) }
    ensures left { IfNone result (rest_of cursor.new ≡ rest_of cursor.old) }
    ensures other { IfNone result (starts_with (goes_on_specifying_of (in_force types.now) named) (rest_of cursor.old)
        ≡ false) }
    ensures rest { IfSome result (λ t. rest_of cursor.old ≡ t ∷ rest_of cursor.new) }
    ensures found { IfSome result (λ t. goes_on_specifying_of (in_force types.now) named t ≡ true) }
{
    match cursor.first() {
        Some(item) if goes_on_specifying(types, named, &item) => {
            cursor.advance();
            Some(item)
        }
        _ => None,
    }
}

// Specifiers as far as they go.
#[cycle(phrases)]
fn specifier_list<'a>(
    cursor: &mut Cursor<'a>,
    types: &TypeNames<'a>,
    below: u32,
) -> Result<Gathered, Stop>
    requires room { IsRoomy cursor.old }
    requires height { below ≤ 200 }
    ensures size { IfOk result (λ g. Spared cursor.old cursor.new (length g.parts.kids.items)) }
    ensures low { IfOk result (λ p. p.parts.height ≤ below) }
    ensures tree { MatchResult result (λ g. GotGathered cursor.old cursor.new
        (specifier_list_from (reader below) (suc (length (rest_of cursor.old))) false (in_force types.now)
        (rest_of cursor.old)) g) (λ e. Fails e
        (specifier_list_from (reader below) (suc (length (rest_of cursor.old))) false (in_force types.now)
        (rest_of cursor.old))) }
{
    let mut gathered = Gathered {
        parts: cursor.no_parts(),
        defines: false,
        typedef_name: false,
        type_names: 0,
    };
    while let Some(item) = take_specifier(cursor, types, gathered.type_names > 0) {
        let part = specifier(cursor, types, &item, below)?;
        gathered = gathered.with(part)?;
    }
    Ok(gathered)
}

/// Specifiers, at least one.
#[cycle(phrases)]
pub fn specifiers<'a>(
    cursor: &mut Cursor<'a>,
    types: &TypeNames<'a>,
    below: u32,
) -> Result<Specified<'a>, Stop>
    requires room { IsRoomy cursor.old }
    requires height { below ≤ 200 }
    ensures size { IfOk result (λ _. Paid cursor.old cursor.new 5) }
    ensures low { IfOk result (λ p. p.part.height ≤ below) }
    ensures tree { MatchResult result (λ s. GotSpecified cursor.old cursor.new
        (specifiers_from (reader below) (in_force types.now) (rest_of cursor.old)) s)
        (λ e. Fails e (specifiers_from (reader below) (in_force types.now) (rest_of cursor.old))) }
{
    let Some(item) = cursor.first() else {
        return Err(Stop::NoTree);
    };
    let gathered = specifier_list(cursor, types, below)?;
    if gathered.parts.kids.is_empty() {
        return Err(Stop::NoTree);
    }
    if !gathered.is_agreed() {
        return Err(Stop::NoTree);
    }
    let Gathered {
        parts,
        defines,
        type_names,
        ..
    } = gathered;
    let part = cursor.join(NodeKind::Specifiers, &item, item.place(), parts)?;
    Ok(Specified {
        part,
        defines,
        names_type: type_names > 0,
    })
}
