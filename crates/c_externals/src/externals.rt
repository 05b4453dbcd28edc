//! External definitions and files (C11 6.9).
ghost use Rattle.std.specs.Prelude.{◌≡◌, ℕ, suc, ◌+◌, ◌*◌, true, ◌<◌, ◌≤◌, ◌∷◌, not, length, MatchResult, IfOk};
ghost use Rattle.std.specs.List.{list_any};
ghost use Rattle.ck_base.specs.Tokens.{is_among};
ghost use Rattle.c_tree.specs.Syntax.{Syn};
ghost use Rattle.c_phrases.specs.Reading.{past};
ghost use Rattle.c_tree.specs.Grammar.{predeclared, defines_types, names_a_type, naming as naming_from};
ghost use Rattle.c_externals.specs.Statements.{definition_from, external as external_from, externals as externals_from};
ghost use Rattle.c_externals.specs.Statements.{read_file};
ghost use Rattle.c_phrases.specs.Got.{rest_of, in_force, naming_of, names_of, IsRoomy, Paid, Owed, Reads, Means, Holds};
ghost use Rattle.c_phrases.specs.Got.{Fails};
ghost use Rattle.c_externals.specs.Blocks.{outer, declared_externally, Specifies, GotNaming, GotExternals, GotFile};

use crate::declarations::{declaration_behind, specifiers_only};
use crate::statements::block;
use c_phrases::{
    Cursor, Item, Mark, Naming, Part, Parts, Phrase, Place, Root, Specified, Stop, TypeNames, read,
    specifiers,
};
use c_tree::NodeKind;
use ck_base::{Pos, Span};

/// The greatest height of what stands in an external definition.
const BELOW: u32 = 199;

// Whether the declared name is no typedef name.
fn is_plain(types: &TypeNames, root: Root) -> bool
    ensures { result ≡ not (list_any (λ n. is_among (in_force types.now) n) (names_of root.entry)) }
{
    match root.name {
        Some(name) => !types.contains(name),
        None => true,
    }
}

// How the first declarator of an external definition names what it declares: a declaration may define a type again.
fn external_naming(specified: Specified) -> Naming
    ensures { (s : Syn) → specified.entry.defines ≡ defines_types s → specified.entry.names_type ≡ names_a_type s →
        naming_of result ≡ naming_from true s }
{
    if specified.defines && specified.names_type {
        Naming::Any
    } else {
        Naming::Plain
    }
}

// A function, behind its specifiers, its declarator and `{`.
fn definition<'a>(
    cursor: &mut Cursor<'a>,
    types: &mut TypeNames<'a>,
    specified: Specified<'a>,
    declarator: Part<'a>,
    brace: &Item<'a>,
) -> Result<Part<'a>, Stop>
    requires room { IsRoomy cursor.old }
    requires specifiers { specified.part.height ≤ BELOW }
    requires low { declarator.height ≤ BELOW }
    ensures size { IfOk result (λ _. Owed cursor.old cursor.new 2) }
    ensures low { IfOk result (λ part. part.height ≤ BELOW + 1) }
    ensures names { IfOk result (λ part. in_force types.new ≡ in_force types.old) }
    ensures tree { (s d : Syn) → Means cursor.old.nodes.items specified.entry.part s →
        Means cursor.old.nodes.items declarator.entry d →
        Reads cursor.old cursor.new (definition_from 199 s d brace.now (in_force types.old) (rest_of cursor.old))
        result }
{
    let body = block(cursor, types, brace, BELOW - 1)?;
    let mut parts = cursor.only(specified.part)?;
    parts.push(declarator)?;
    parts.push(body)?;
    let own = specified.part.root.own;
    cursor.make(
        Root {
            kind: NodeKind::FunctionDefinition,
            own,
            first: own,
            name: None,
        },
        parts,
    )
}

// A function or a declaration, behind its specifiers.
fn external_behind<'a>(
    cursor: &mut Cursor<'a>,
    types: &mut TypeNames<'a>,
    specified: Specified<'a>,
) -> Result<Part<'a>, Stop>
    requires room { IsRoomy cursor.old }
    requires specifiers { specified.part.height ≤ BELOW }
    ensures size { IfOk result (λ _. Paid cursor.old cursor.new 0) }
    ensures low { IfOk result (λ part. part.height ≤ BELOW + 1) }
    ensures tree { (s : Syn) → Specifies cursor.old.nodes.items specified.entry s →
        MatchResult result
        (λ part. GotNaming cursor.old cursor.new (in_force types.old) (in_force types.new)
        (declared_externally s (in_force types.old) (rest_of cursor.old)) part)
        (λ e. Fails e (declared_externally s (in_force types.old) (rest_of cursor.old))) }
{
    let naming = external_naming(specified);
    let declarator = read(cursor, types, Phrase::Declarator(naming), BELOW)?;
    let Some(brace) = cursor.take_if(Mark::OpenBrace) else {
        return declaration_behind(cursor, types, naming, specified, declarator, BELOW);
    };
    if !is_plain(types, declarator.root) {
        return Err(Stop::NoTree);
    }
    definition(cursor, types, specified, declarator, &brace)
}

// A function or a declaration.
fn external<'a>(cursor: &mut Cursor<'a>, types: &mut TypeNames<'a>) -> Result<Part<'a>, Stop>
    requires room { IsRoomy cursor.old }
    ensures size { IfOk result (λ _. Paid cursor.old cursor.new 0) }
    ensures low { IfOk result (λ part. part.height ≤ BELOW + 1) }
    ensures tree { MatchResult result
        (λ part. GotNaming cursor.old cursor.new (in_force types.old) (in_force types.new)
        (external_from 199 (in_force types.old) (rest_of cursor.old)) part)
        (λ e. Fails e (external_from 199 (in_force types.old) (rest_of cursor.old))) }
{
    let specified = specifiers(cursor, types, BELOW)?;
    if cursor.takes(Mark::Semicolon) {
        return specifiers_only(cursor, specified, BELOW);
    }
    external_behind(cursor, types, specified)
}

// An external definition, or a semicolon.
fn outer_item<'a>(
    cursor: &mut Cursor<'a>,
    types: &mut TypeNames<'a>,
    item: &Item<'a>,
) -> Result<Part<'a>, Stop>
    requires room { IsRoomy cursor.old }
    requires first { rest_of cursor.old ≡ item.now ∷ past (rest_of cursor.old) }
    ensures size { IfOk result (λ _. Paid cursor.old cursor.new 0) }
    ensures low { IfOk result (λ part. part.height ≤ BELOW + 1) }
    ensures tree { MatchResult result
        (λ part. GotNaming cursor.old cursor.new (in_force types.old) (in_force types.new)
        (outer 199 (in_force types.old) (rest_of cursor.old)) part)
        (λ e. Fails e (outer 199 (in_force types.old) (rest_of cursor.old))) }
{
    if cursor.takes(Mark::Semicolon) {
        return cursor.leaf(NodeKind::EmptyExternal, item);
    }
    external(cursor, types)
}

// External definitions to the end, as the parts of a file.
fn externals<'a>(cursor: &mut Cursor<'a>, types: &mut TypeNames<'a>) -> Result<Parts, Stop>
    requires room { IsRoomy cursor.old }
    ensures size { IfOk result (λ _. Owed cursor.old cursor.new 0) }
    ensures low { IfOk result (λ parts. parts.height ≤ BELOW + 1) }
    ensures tree { MatchResult result
        (λ parts. GotExternals cursor.new (externals_from 199 (suc (length (rest_of cursor.old))) (in_force types.old)
        (rest_of cursor.old)) parts)
        (λ e. Fails e (externals_from 199 (suc (length (rest_of cursor.old))) (in_force types.old)
        (rest_of cursor.old))) }
{
    let mut parts = cursor.no_parts();
    'list: while let Some(item) = cursor.first() {
        let part = outer_item(cursor, types, &item)?;
        parts.push(part)?;
    }
    Ok(parts)
}

/// A whole file.
pub fn file<'a>(cursor: &mut Cursor<'a>, types: &mut TypeNames<'a>) -> Result<Part<'a>, Stop>
    requires room { IsRoomy cursor.old }
    requires names { in_force types.old ≡ predeclared }
    ensures size { IfOk result (λ _. length cursor.new.nodes.items ≤ length cursor.old.nodes.items
        + 8 * length (rest_of cursor.old) + 1) }
    ensures tree { MatchResult result (λ part. GotFile cursor.new (read_file 199 (rest_of cursor.old)) part)
        (λ e. Fails e (read_file 199 (rest_of cursor.old))) }
{
    let parts = externals(cursor, types)?;
    let own = Place {
        pos: Pos { line: 1, col: 1 },
        text: Span { start: 0, end: 0 },
    };
    cursor.make(
        Root {
            kind: NodeKind::File,
            own,
            first: own,
            name: None,
        },
        parts,
    )
}
