//! Declarators and their suffixes (C11 6.7.6).
ghost use Rattle.std.specs.Prelude.{◌≡◌, suc, ◌+◌, ◌<◌, ◌≤◌, max, List, length, Option};
ghost use Rattle.std.specs.Prelude.{Some, None, option_map, MatchResult, IfOk, IfSome, IfNone, Err};
ghost use Rattle.c_tree.specs.declared.syntax.Node.{Node as NodeOf};
ghost use Rattle.c_tree.specs.Syntax.{Syn, more};
ghost use Rattle.c_phrases.specs.Reading.{read as reader};
ghost use Rattle.c_phrases.specs.Reading.{optional_declarator as optional_from};
ghost use Rattle.c_phrases.specs.Reading.{declarator as declarator_from, core as core_from, parts_of, array_from};
ghost use Rattle.c_phrases.specs.Reading.{function_from};
ghost use Rattle.c_tree.specs.Grammar.{names_of_first};
ghost use Rattle.c_phrases.specs.Got.{rest_of, in_force, naming_of, some_name, IsRoomy, Paid, Owed, Reads};
ghost use Rattle.c_phrases.specs.Got.{Means, MeansOption, Holds, Fails, GotOptional};
ghost use Rattle.c_phrases.specs.Got.{GotCore};
ghost use Rattle.c_phrases.specs.Suffixes.{height_of, BeginsSuffix, IsTooHigh, next_from, suffixed};

use crate::cursor::{Cursor, Mark, Part, Parts, Root, Stop};
use crate::expressions::follow;
use crate::items::Item;
use crate::levels::CONDITIONAL;
use crate::names::{
    Naming, TypeNames, begins_declarator, is_declared_by, is_enclosed, may_be_nameless,
};
use crate::phrases::read;
use crate::runs::qualifiers;
use crate::steps::{Phrase, Step};
use c_tree::NodeKind;

// A declarator, or nothing where it may be nameless.
#[cycle(phrases)]
pub(crate) fn optional_declarator<'a>(
    cursor: &mut Cursor<'a>,
    types: &TypeNames<'a>,
    naming: Naming,
    below: u32,
) -> Result<Option<Part<'a>>, Stop>
    requires room { IsRoomy cursor.old }
    requires height { below ≤ 200 }
    ensures size { IfOk result (λ _. Owed cursor.old cursor.new 0) }
    ensures low { IfOk result (λ found. IfSome found (λ p. p.height ≤ below)) }
    ensures tree { MatchResult result (λ found.
        GotOptional cursor.old cursor.new (optional_from (reader below) (naming_of naming) (in_force types.now)
        (rest_of cursor.old)) found) (λ e. Fails e
        (optional_from (reader below) (naming_of naming) (in_force types.now) (rest_of cursor.old))) }
{
    if begins_declarator(cursor.rest()) {
        let part = read(cursor, types, Phrase::Declarator(naming), below)?;
        return Ok(Some(part));
    }
    if may_be_nameless(naming) {
        Ok(None)
    } else {
        Err(Stop::NoTree)
    }
}

// A part, and another if there is one.
pub(crate) fn with_optional<'a>(
    cursor: &Cursor<'a>,
    part: Part<'a>,
    other: Option<Part<'a>>,
) -> Result<Parts, Stop>
    ensures size { IfOk result (λ parts. parts.height ≡ max part.entry.height (height_of other.entry)) }
    ensures tree { MatchResult result (λ parts. (x : Syn) (y : Option Syn) → Means cursor.now.nodes.items part.entry x →
        MeansOption cursor.now.nodes.items other.entry y → Holds cursor.now.nodes.items parts (more x (parts_of y)))
        (λ e. e ≡ Stop.NoMemory) }
{
    let parts = cursor.only(part)?;
    match other {
        Some(other) => parts.with(other),
        None => Ok(parts),
    }
}

// The name that a declarator declares, if there is one and it does.
fn optional_name<'a>(declarator: Option<Part<'a>>) -> Option<&'a [u8]>
    ensures { (nodes : List NodeOf) (x : Option Syn) → MeansOption nodes declarator.entry x →
        some_name (option_map (λ name. name.now) result) ≡ names_of_first (parts_of x) }
{
    match declarator {
        Some(part) => part.root.name,
        None => None,
    }
}

// A declarator that is not empty.
#[cycle(phrases)]
pub(crate) fn declarator<'a>(
    cursor: &mut Cursor<'a>,
    types: &TypeNames<'a>,
    naming: Naming,
    below: u32,
) -> Result<Part<'a>, Stop>
    requires room { IsRoomy cursor.old }
    requires height { below ≤ 200 }
    ensures size { IfOk result (λ _. Paid cursor.old cursor.new 4) }
    ensures low { IfOk result (λ p. p.height ≤ below + 1) }
    ensures tree { Reads cursor.old cursor.new
        (declarator_from (reader below) (suc below) (naming_of naming) (in_force types.now) (rest_of cursor.old))
        result }
{
    let Some(item) = cursor.first() else {
        return Err(Stop::NoTree);
    };
    if !cursor.takes(Mark::Star) {
        let core = core(cursor, types, naming, below)?;
        return suffixes(cursor, types, core, below);
    }
    let qualifiers = qualifiers(cursor, &item)?;
    let inner = optional_declarator(cursor, types, naming, below)?;
    let parts = with_optional(cursor, qualifiers, inner)?;
    let name = optional_name(inner);
    let own = item.place();
    cursor.make(
        Root {
            kind: NodeKind::Pointer,
            own,
            first: own,
            name,
        },
        parts,
    )
}

// What the suffixes of a declarator stand behind: a name, a declarator in parentheses, or nothing.
#[cycle(phrases)]
fn core<'a>(
    cursor: &mut Cursor<'a>,
    types: &TypeNames<'a>,
    naming: Naming,
    below: u32,
) -> Result<Option<Part<'a>>, Stop>
    requires room { IsRoomy cursor.old }
    requires height { below ≤ 200 }
    ensures size { IfOk result (λ found. IfSome found (λ p. Paid cursor.old cursor.new 4)) }
    ensures none { IfOk result (λ found. IfNone found
        ((rest_of cursor.new ≡ rest_of cursor.old) × (cursor.new.nodes.items ≡ cursor.old.nodes.items))) }
    ensures low { IfOk result (λ found. IfSome found (λ p. p.height ≤ below + 1)) }
    ensures tree { MatchResult result (λ found.
        GotCore cursor.old cursor.new (core_from (reader below) (suc below) (naming_of naming) (in_force types.now)
        (rest_of cursor.old)) found) (λ e. Fails e
        (core_from (reader below) (suc below) (naming_of naming) (in_force types.now) (rest_of cursor.old))) }
{
    let Some(item) = cursor.first() else {
        return Err(Stop::NoTree);
    };
    let own = item.place();
    if cursor.takes(Mark::Word) {
        if !is_declared_by(naming, types, &item) {
            return Err(Stop::NoTree);
        }
        let parts = cursor.no_parts();
        let name = Some(item.text());
        let part = cursor.make(
            Root {
                kind: NodeKind::DeclaredName,
                own,
                first: own,
                name,
            },
            parts,
        )?;
        return Ok(Some(part));
    }
    if is_enclosed(types, naming, cursor.rest()) {
        cursor.advance();
        let inner = read(cursor, types, Phrase::Declarator(naming), below)?;
        cursor.expect(Mark::CloseParenthesis)?;
        let parts = cursor.only(inner)?;
        let part = cursor.make(
            Root {
                kind: NodeKind::ParenthesizedDeclarator,
                own,
                first: own,
                name: inner.root.name,
            },
            parts,
        )?;
        return Ok(Some(part));
    }
    if may_be_nameless(naming) {
        Ok(None)
    } else {
        Err(Stop::NoTree)
    }
}

// The suffixes of a declarator, as far as they go.
#[cycle(phrases)]
fn suffixes<'a>(
    cursor: &mut Cursor<'a>,
    types: &TypeNames<'a>,
    start: Option<Part<'a>>,
    below: u32,
) -> Result<Part<'a>, Stop>
    requires room { IsRoomy cursor.old }
    requires height { below ≤ 200 }
    requires start { height_of start ≤ below + 1 }
    ensures size { IfOk result (λ _. Owed cursor.old cursor.new 0) }
    ensures some { IfNone start.entry (IfOk result (λ _. Paid cursor.old cursor.new 4)) }
    ensures low { IfOk result (λ p. p.height ≤ below + 1) }
    ensures tree { (x : Option Syn) → MeansOption cursor.old.nodes.items start.entry x →
        Reads cursor.old cursor.new (suffixed (reader below) (suc below) (suc (suc below)) (in_force types.now) x
        (rest_of cursor.old)) result }
{
    let mut inner = start;
    while let Some(part) = next_suffix(cursor, types, inner, below)? {
        inner = Some(part);
    }
    inner.ok_or(Stop::NoTree)
}

// The next suffix behind what stands before it, or nothing where none begins.
#[cycle(phrases)]
fn next_suffix<'a>(
    cursor: &mut Cursor<'a>,
    types: &TypeNames<'a>,
    inner: Option<Part<'a>>,
    below: u32,
) -> Result<Option<Part<'a>>, Stop>
    requires room { IsRoomy cursor.old }
    requires height { below ≤ 200 }
    ensures size { IfOk result (λ found. IfSome found (λ p. Paid cursor.old cursor.new 4)) }
    ensures none { IfOk result (λ found. IfNone found
        ((rest_of cursor.new ≡ rest_of cursor.old) × (cursor.new.nodes.items ≡ cursor.old.nodes.items))) }
    ensures low { IfOk result (λ found. IfSome found (λ p. p.height ≤ below + 1)) }
    ensures taller { IfOk result (λ found. IfSome found (λ p. height_of inner.entry < p.height)) }
    ensures tree { (x : Option Syn) → MeansOption cursor.old.nodes.items inner.entry x →
        MatchResult result (λ found. GotCore cursor.old cursor.new
        (next_from (reader below) (suc below) x (in_force types.now) (rest_of cursor.old)) found)
        (λ e. Fails e (next_from (reader below) (suc below) x (in_force types.now) (rest_of cursor.old))) }
{
    let Some(item) = cursor.first() else {
        return Ok(None);
    };
    if cursor.takes(Mark::OpenBracket) {
        let part = array(cursor, types, inner, &item, below)?;
        return Ok(Some(part));
    }
    if cursor.takes(Mark::OpenParenthesis) {
        let part = function(cursor, types, inner, &item, below)?;
        return Ok(Some(part));
    }
    Ok(None)
}

// The parts and the root of a suffix, before what stands in its brackets is read.
fn suffix<'a>(
    cursor: &Cursor<'a>,
    inner: Option<Part<'a>>,
    kind: NodeKind,
    item: &Item<'a>,
    below: u32,
) -> Result<(Parts, Root<'a>), Stop>
    ensures size { IfOk result (λ r. r.0.height ≡ height_of inner.entry) }
    ensures low { IfOk result (λ r. r.0.height ≤ below) }
    ensures kind { IfOk result (λ r. r.1.kind ≡ kind) }
    ensures tree { (x : Option Syn) → MeansOption cursor.now.nodes.items inner.entry x →
        MatchResult result (λ r. Holds cursor.now.nodes.items r.0 (parts_of x) × BeginsSuffix r.1 kind item.now x)
        (λ e. IsTooHigh e below x) }
{
    match inner {
        Some(part) if part.height > below => Err(Stop::NoTree),
        Some(part) => {
            let root = Root {
                kind,
                own: item.place(),
                first: part.root.first,
                name: part.root.name,
            };
            Ok((cursor.only(part)?, root))
        }
        None => {
            let own = item.place();
            Ok((
                cursor.no_parts(),
                Root {
                    kind,
                    own,
                    first: own,
                    name: None,
                },
            ))
        }
    }
}

// An array's brackets, behind the first.
#[cycle(phrases)]
fn array<'a>(
    cursor: &mut Cursor<'a>,
    types: &TypeNames<'a>,
    inner: Option<Part<'a>>,
    item: &Item<'a>,
    below: u32,
) -> Result<Part<'a>, Stop>
    requires room { IsRoomy cursor.old }
    requires height { below ≤ 200 }
    ensures size { IfOk result (λ _. Owed cursor.old cursor.new 1) }
    ensures low { IfOk result (λ p. p.height ≤ below + 1) }
    ensures taller { IfOk result (λ p. height_of inner.entry < p.height) }
    ensures tree { (x : Option Syn) → MeansOption cursor.old.nodes.items inner.entry x →
        Reads cursor.old cursor.new (array_from (reader below) (suc below) x item.now (in_force types.now)
        (rest_of cursor.old)) result }
{
    if cursor.takes(Mark::CloseBracket) {
        let (parts, root) = suffix(cursor, inner, NodeKind::OpenArray, item, below)?;
        return cursor.make(root, parts);
    }
    let (mut parts, root) = suffix(cursor, inner, NodeKind::Array, item, below)?;
    let length = read(cursor, types, Phrase::Expression(CONDITIONAL), below)?;
    cursor.expect(Mark::CloseBracket)?;
    parts.push(length)?;
    cursor.make(root, parts)
}

// A function's parameters, behind the opening parenthesis.
#[cycle(phrases)]
fn function<'a>(
    cursor: &mut Cursor<'a>,
    types: &TypeNames<'a>,
    inner: Option<Part<'a>>,
    item: &Item<'a>,
    below: u32,
) -> Result<Part<'a>, Stop>
    requires room { IsRoomy cursor.old }
    requires height { below ≤ 200 }
    ensures size { IfOk result (λ _. Owed cursor.old cursor.new 2) }
    ensures low { IfOk result (λ p. p.height ≤ below + 1) }
    ensures taller { IfOk result (λ p. height_of inner.entry < p.height) }
    ensures tree { (x : Option Syn) → MeansOption cursor.old.nodes.items inner.entry x →
        Reads cursor.old cursor.new (function_from (reader below) (suc below) x item.now (in_force types.now)
        (rest_of cursor.old)) result }
{
    let (mut parts, root) = suffix(cursor, inner, NodeKind::Function, item, below)?;
    let none = cursor.no_parts();
    let listed = follow(cursor, types, Step::Listed(Phrase::Parameter), none, below)?;
    cursor.expect(Mark::CloseParenthesis)?;
    let parameters = cursor.join(NodeKind::Parameters, item, item.place(), listed)?;
    parts.push(parameters)?;
    cursor.make(root, parts)
}
