//! Expressions, specifiers, declarators and initializers. Each function reads one phrase, of which the tokens are the
//! first that are left. What it reads has at most the height `below + 1`, and its parts have at most the height
//! `below`.
ghost use Rattle.std.specs.Prelude.{suc, ◌+◌, ◌<◌, ◌≤◌};
ghost use Rattle.std.specs.Prelude.{Some, None, IfOk, Err};
ghost use Rattle.c_tree.specs.Syntax.{Syns, node, weight as weight_of};
ghost use Rattle.c_phrases.specs.Reading.{read as reader, list_of, listed_in_braces};
ghost use Rattle.c_phrases.specs.Reading.{member as member_from};
ghost use Rattle.c_phrases.specs.Reading.{enumerator as enumerator_from, initializer as initializer_from};
ghost use Rattle.c_phrases.specs.Got.{rest_of, in_force, naming_of, IsRoomy, Paid, Reads};
ghost use Rattle.c_phrases.specs.Got.{ReadsParts, Holds, after};
ghost use Rattle.c_phrases.specs.Steps.{goal_of, specified_from};
ghost use Rattle.c_phrases.specs.Steps.{IsSmallPhrase, IsSpecifying};

use crate::cursor::{Cursor, Mark, Part, Parts, Root, Stop};
use crate::declaration_specifiers::specifiers;
use crate::declarators::{declarator, optional_declarator, with_optional};
use crate::expressions::{expression, node};
use crate::levels::CONDITIONAL;
use crate::names::{Naming, TypeNames, goes_on_listing, is_declared_by};
use crate::steps::{Phrase, Step};
use c_tree::NodeKind;

/// A phrase of at most this height.
#[cycle(phrases)]
pub fn read<'a>(
    cursor: &mut Cursor<'a>,
    types: &TypeNames<'a>,
    phrase: Phrase,
    budget: u32,
) -> Result<Part<'a>, Stop>
    requires room { IsRoomy cursor.old }
    requires height { budget ≤ 200 }
    requires level { IsSmallPhrase phrase }
    ensures size { IfOk result (λ _. Paid cursor.old cursor.new 4) }
    ensures low { IfOk result (λ p. p.height ≤ budget) }
    ensures tree { Reads cursor.old cursor.new
        (reader budget (goal_of phrase) (in_force types.now) (rest_of cursor.old)) result }
{
    if budget == 0 {
        return Err(Stop::NoTree);
    }
    let below = budget - 1;
    match phrase {
        Phrase::Expression(level) => expression(cursor, types, level, below),
        Phrase::Declarator(naming) => declarator(cursor, types, naming, below),
        Phrase::Parameter => parameter_or_type_name(
            cursor,
            types,
            NodeKind::Parameter,
            Naming::Either,
            below,
        ),
        Phrase::Member => member(cursor, types, below),
        Phrase::Enumerator => enumerator(cursor, types, below),
        Phrase::Initializer => initializer(cursor, types, below),
    }
}

// Phrases with commas between them, at least one, as further parts.
#[cycle(phrases)]
pub(crate) fn separated<'a>(
    cursor: &mut Cursor<'a>,
    types: &TypeNames<'a>,
    what: Phrase,
    start: Parts,
    below: u32,
) -> Result<Parts, Stop>
    requires room { IsRoomy cursor.old }
    requires height { below ≤ 200 }
    requires level { IsSmallPhrase what }
    requires start { start.height ≤ below }
    ensures size { IfOk result (λ _. Paid cursor.old cursor.new 4) }
    ensures low { IfOk result (λ p. p.height ≤ below) }
    ensures keeps { IfOk result (λ p. start.height ≤ p.height) }
    ensures tree { (ys : Syns) → Holds cursor.old.nodes.items start ys →
        ReadsParts cursor.old cursor.new (after ys
        (list_of (reader below) (goal_of what) (in_force types.now) (rest_of cursor.old))) result }
{
    let mut parts = start;
    let mut part = read(cursor, types, what, below)?;
    parts.push(part)?;
    'list: while goes_on_listing(cursor.rest()) {
        cursor.advance();
        part = read(cursor, types, what, below)?;
        parts.push(part)?;
    }
    Ok(parts)
}

// The same up to and with a closing brace, before which one more comma may stand.
#[cycle(phrases)]
pub(crate) fn braced<'a>(
    cursor: &mut Cursor<'a>,
    types: &TypeNames<'a>,
    what: Phrase,
    start: Parts,
    below: u32,
) -> Result<Parts, Stop>
    requires room { IsRoomy cursor.old }
    requires height { below ≤ 200 }
    requires level { IsSmallPhrase what }
    requires start { start.height ≤ below }
    ensures size { IfOk result (λ _. Paid cursor.old cursor.new 4) }
    ensures low { IfOk result (λ p. p.height ≤ below) }
    ensures tree { (ys : Syns) → Holds cursor.old.nodes.items start ys →
        ReadsParts cursor.old cursor.new (after ys
        (listed_in_braces (reader below) (goal_of what) (in_force types.now) (rest_of cursor.old))) result }
{
    let parts = separated(cursor, types, what, start, below)?;
    cursor.takes(Mark::Comma);
    cursor.expect(Mark::CloseBrace)?;
    Ok(parts)
}

// Specifiers, and a declarator or nothing: a parameter or a type name.
#[cycle(phrases)]
pub(crate) fn parameter_or_type_name<'a>(
    cursor: &mut Cursor<'a>,
    types: &TypeNames<'a>,
    kind: NodeKind,
    naming: Naming,
    below: u32,
) -> Result<Part<'a>, Stop>
    requires room { IsRoomy cursor.old }
    requires height { below ≤ 200 }
    requires kind { IsSpecifying kind }
    ensures size { IfOk result (λ _. Paid cursor.old cursor.new 4) }
    ensures low { IfOk result (λ p. p.height ≤ below + weight_of kind) }
    ensures tree { Reads cursor.old cursor.new
        (specified_from (reader below) kind (naming_of naming) (in_force types.now) (rest_of cursor.old)) result }
{
    let specifiers = specifiers(cursor, types, below)?;
    let declarator = optional_declarator(cursor, types, naming, below)?;
    let parts = with_optional(cursor, specifiers.part, declarator)?;
    let own = specifiers.part.root.own;
    cursor.make(
        Root {
            kind,
            own,
            first: own,
            name: None,
        },
        parts,
    )
}

#[cycle(phrases)]
fn member<'a>(cursor: &mut Cursor<'a>, types: &TypeNames<'a>, below: u32) -> Result<Part<'a>, Stop>
    requires room { IsRoomy cursor.old }
    requires height { below ≤ 200 }
    ensures size { IfOk result (λ _. Paid cursor.old cursor.new 4) }
    ensures low { IfOk result (λ p. p.height ≤ below + 1) }
    ensures tree { Reads cursor.old cursor.new
        (member_from (reader below) (suc below) (in_force types.now) (rest_of cursor.old)) result }
{
    let specifiers = specifiers(cursor, types, below)?;
    let parts = cursor.only(specifiers.part)?;
    let parts = separated(cursor, types, Phrase::Declarator(Naming::Any), parts, below)?;
    cursor.expect(Mark::Semicolon)?;
    let own = specifiers.part.root.own;
    cursor.make(
        Root {
            kind: NodeKind::Member,
            own,
            first: own,
            name: None,
        },
        parts,
    )
}

#[cycle(phrases)]
fn enumerator<'a>(
    cursor: &mut Cursor<'a>,
    types: &TypeNames<'a>,
    below: u32,
) -> Result<Part<'a>, Stop>
    requires room { IsRoomy cursor.old }
    requires height { below ≤ 200 }
    ensures size { IfOk result (λ _. Paid cursor.old cursor.new 4) }
    ensures low { IfOk result (λ p. p.height ≤ below + 1) }
    ensures tree { Reads cursor.old cursor.new
        (enumerator_from (reader below) (suc below) (in_force types.now) (rest_of cursor.old)) result }
{
    let Some(name) = cursor.take() else {
        return Err(Stop::NoTree);
    };
    if !is_declared_by(Naming::Plain, types, &name) {
        return Err(Stop::NoTree);
    }
    if !cursor.takes(Mark::Equals) {
        return cursor.leaf(NodeKind::Enumerator, &name);
    }
    let none = cursor.no_parts();
    let steps = [Step::Read(Phrase::Expression(CONDITIONAL))];
    node(
        cursor,
        types,
        NodeKind::Enumerator,
        &name,
        name.place(),
        &steps,
        none,
        below,
    )
}

#[cycle(phrases)]
fn initializer<'a>(
    cursor: &mut Cursor<'a>,
    types: &TypeNames<'a>,
    below: u32,
) -> Result<Part<'a>, Stop>
    requires room { IsRoomy cursor.old }
    requires height { below ≤ 200 }
    ensures size { IfOk result (λ _. Paid cursor.old cursor.new 4) }
    ensures low { IfOk result (λ p. p.height ≤ below + 1) }
    ensures tree { Reads cursor.old cursor.new
        (initializer_from (reader below) (suc below) (in_force types.now) (rest_of cursor.old)) result }
{
    let Some(brace) = cursor.take_if(Mark::OpenBrace) else {
        return expression(cursor, types, 1, below);
    };
    if cursor.takes(Mark::CloseBrace) {
        return cursor.leaf(NodeKind::BracedInitializer, &brace);
    }
    let none = cursor.no_parts();
    let parts = braced(cursor, types, Phrase::Initializer, none, below)?;
    cursor.join(NodeKind::BracedInitializer, &brace, brace.place(), parts)
}
