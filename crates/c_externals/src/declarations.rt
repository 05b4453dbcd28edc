//! Declarations (C11 6.7). The names of types that a declaration adds are in force behind each declarator, the latest
//! first.
ghost use Rattle.std.specs.Prelude.{◌≡◌, ℕ, suc, ◌+◌, ◌<◌, ◌≤◌, ◌^◌, ◌++◌, length, Some, MatchResult, IfOk, IfErr};
ghost use Rattle.c_tree.specs.Syntax.{Syn, Syns, node, one, own_token};
ghost use Rattle.c_phrases.specs.Reading.{read as reader};
ghost use Rattle.c_externals.specs.Statements.{initialize as initialize_from, initialized as initialized_from};
ghost use Rattle.c_externals.specs.Statements.{declaration_behind as declaration_behind_from, declare as declare_from};
ghost use Rattle.c_phrases.specs.Got.{rest_of, in_force, naming_of, IsRoomy, Paid, Owed, Grows, Reads, ReadsParts};
ghost use Rattle.c_phrases.specs.Got.{Means};
ghost use Rattle.c_phrases.specs.Got.{Holds, Fails, after};
ghost use Rattle.c_externals.specs.Blocks.{adds, valued, declared, Specifies, GotDeclared, GotNaming};
ghost use Rattle.c_tree.specs.declared.syntax.NodeKind.TheVariants as kinds;

use c_phrases::{
    Cursor, Mark, Naming, Part, Parts, Phrase, Root, Specified, Stop, TypeNames, read, specifiers,
};
use c_tree::NodeKind;

// From here on the name of a declarator is that of a type, where its declaration defines types.
fn define<'a>(types: &mut TypeNames<'a>, defines: bool, root: Root<'a>) -> Result<(), Stop>
    ensures names { IfOk result (λ _. in_force types.new ≡ adds defines root.entry ++ in_force types.old) }
    ensures full { IfErr result (λ e. e ≡ Stop.NoMemory) }
{
    if !defines {
        return Ok(());
    }
    if let Some(name) = root.name {
        types.push(name)?;
    }
    Ok(())
}

// A declarator and its initializer, if there is one, as parts.
fn valued_declarator<'a>(
    cursor: &mut Cursor<'a>,
    types: &TypeNames<'a>,
    declarator: Part<'a>,
    below: u32,
) -> Result<Parts, Stop>
    requires room { IsRoomy cursor.old }
    requires height { below ≤ 200 }
    requires low { declarator.height ≤ below }
    ensures size { IfOk result (λ _. Owed cursor.old cursor.new 0) }
    ensures low { IfOk result (λ parts. parts.height ≤ below) }
    ensures tree { (x : Syn) → Means cursor.old.nodes.items declarator.entry x →
        ReadsParts cursor.old cursor.new (valued (reader below) x (in_force types.now) (rest_of cursor.old)) result }
{
    let parts = cursor.only(declarator)?;
    if !cursor.takes(Mark::Equals) {
        return Ok(parts);
    }
    let initializer = read(cursor, types, Phrase::Initializer, below)?;
    parts.with(initializer)
}

// A declarator with its initializer, if there is one, behind the declarator.
fn initialize<'a>(
    cursor: &mut Cursor<'a>,
    types: &mut TypeNames<'a>,
    defines: bool,
    declarator: Part<'a>,
    below: u32,
) -> Result<Part<'a>, Stop>
    requires room { IsRoomy cursor.old }
    requires height { below ≤ 200 }
    requires low { declarator.height ≤ below }
    ensures size { IfOk result (λ _. Owed cursor.old cursor.new 1) }
    ensures low { IfOk result (λ part. part.height ≤ below) }
    ensures names { IfOk result (λ part. in_force types.new ≡ adds defines part.root ++ in_force types.old) }
    ensures tree { (x : Syn) → Means cursor.old.nodes.items declarator.entry x →
        Reads cursor.old cursor.new (initialize_from (reader below) below defines x (in_force types.old)
        (rest_of cursor.old)) result }
{
    define(types, defines, declarator.root)?;
    let parts = valued_declarator(cursor, types, declarator, below)?;
    if parts.height >= below {
        return Err(Stop::NoTree);
    }
    let Root { first, name, .. } = declarator.root;
    cursor.make(
        Root {
            kind: NodeKind::InitDeclarator,
            own: first,
            first,
            name,
        },
        parts,
    )
}

// A declarator with its initializer, if there is one.
fn declarator<'a>(
    cursor: &mut Cursor<'a>,
    types: &mut TypeNames<'a>,
    naming: Naming,
    defines: bool,
    below: u32,
) -> Result<Part<'a>, Stop>
    requires room { IsRoomy cursor.old }
    requires height { below ≤ 200 }
    ensures size { IfOk result (λ _. Paid cursor.old cursor.new 3) }
    ensures low { IfOk result (λ part. part.height ≤ below) }
    ensures names { IfOk result (λ part. in_force types.new ≡ adds defines part.root ++ in_force types.old) }
    ensures tree { Reads cursor.old cursor.new
        (declared (reader below) below (naming_of naming) defines (in_force types.old) (rest_of cursor.old)) result }
{
    let declarator = read(cursor, types, Phrase::Declarator(naming), below)?;
    initialize(cursor, types, defines, declarator, below)
}

// Declarators with their initializers, behind the first declarator, as further parts.
fn declarators<'a>(
    cursor: &mut Cursor<'a>,
    types: &mut TypeNames<'a>,
    naming: Naming,
    defines: bool,
    first: Part<'a>,
    start: Parts,
    below: u32,
) -> Result<Parts, Stop>
    requires room { IsRoomy cursor.old }
    requires height { below ≤ 200 }
    requires low { first.height ≤ below }
    requires start { start.height ≤ below }
    ensures size { IfOk result (λ _. Owed cursor.old cursor.new 1) }
    ensures low { IfOk result (λ parts. parts.height ≤ below) }
    ensures more { IfOk result (λ _. length (in_force types.old) ≤ length (in_force types.new)) }
    ensures tree { (ys : Syns) (x : Syn) → Holds cursor.old.nodes.items start ys →
        Means cursor.old.nodes.items first.entry x →
        MatchResult result
        (λ parts. GotDeclared cursor.old cursor.new (in_force types.old) (in_force types.new) defines ys
        (initialized_from (reader below) below (suc (length (rest_of cursor.old))) (naming_of naming) defines x
        (in_force types.old) (rest_of cursor.old)) parts)
        (λ e. Fails e (after ys (initialized_from (reader below) below (suc (length (rest_of cursor.old)))
        (naming_of naming) defines x (in_force types.old) (rest_of cursor.old)))) }
{
    let mut parts = start;
    let part = initialize(cursor, types, defines, first, below)?;
    parts.push(part)?;
    'list: while cursor.takes(Mark::Comma) {
        let part = declarator(cursor, types, naming, defines, below)?;
        parts.push(part)?;
    }
    Ok(parts)
}

/// A declaration, behind its specifiers and the first declarator. The names that it adds are in force in their order
/// then.
pub(crate) fn declaration_behind<'a>(
    cursor: &mut Cursor<'a>,
    types: &mut TypeNames<'a>,
    naming: Naming,
    specified: Specified<'a>,
    first: Part<'a>,
    below: u32,
) -> Result<Part<'a>, Stop>
    requires room { IsRoomy cursor.old }
    requires height { below ≤ 200 }
    requires specifiers { specified.part.height ≤ below }
    requires low { first.height ≤ below }
    ensures size { IfOk result (λ _. Paid cursor.old cursor.new 6) }
    ensures low { IfOk result (λ part. part.height ≤ below + 1) }
    ensures tree { (s x : Syn) → Specifies cursor.old.nodes.items specified.entry s →
        Means cursor.old.nodes.items first.entry x →
        MatchResult result
        (λ part. GotNaming cursor.old cursor.new (in_force types.old) (in_force types.new)
        (declaration_behind_from (reader below) below (naming_of naming) s x (in_force types.old)
        (rest_of cursor.old)) part)
        (λ e. Fails e (declaration_behind_from (reader below) below (naming_of naming) s x (in_force types.old)
        (rest_of cursor.old))) }
{
    let before = types.len();
    let start = cursor.only(specified.part)?;
    let parts = declarators(
        cursor,
        types,
        naming,
        specified.defines,
        first,
        start,
        below,
    )?;
    cursor.expect(Mark::Semicolon)?;
    types.reverse_from(before);
    let own = specified.part.root.own;
    cursor.make(
        Root {
            kind: NodeKind::Declaration,
            own,
            first: own,
            name: None,
        },
        parts,
    )
}

/// A declaration of specifiers alone, behind these and the semicolon.
pub(crate) fn specifiers_only<'a>(
    cursor: &mut Cursor<'a>,
    specified: Specified<'a>,
    below: u32,
) -> Result<Part<'a>, Stop>
    requires room { length cursor.old.nodes.items < 2 ^ 31 }
    requires height { below ≤ 200 }
    requires specifiers { specified.part.height ≤ below }
    ensures size { IfOk result (λ _. length cursor.new.nodes.items ≡ length cursor.old.nodes.items + 1) }
    ensures low { IfOk result (λ part. part.height ≤ below + 1) }
    ensures rest { rest_of cursor.new ≡ rest_of cursor.old }
    ensures grows { IfOk result (λ part. Grows cursor.old.nodes.items cursor.new.nodes.items) }
    ensures tree { (s : Syn) → Means cursor.old.nodes.items specified.entry.part s →
        MatchResult result (λ part. Means cursor.new.nodes.items part (node kinds.Declaration (own_token s) (one s)))
        (λ e. e ≡ Stop.NoMemory) }
{
    let parts = cursor.only(specified.part)?;
    let own = specified.part.root.own;
    cursor.make(
        Root {
            kind: NodeKind::Declaration,
            own,
            first: own,
            name: None,
        },
        parts,
    )
}

/// A declaration of at most this height.
pub(crate) fn declare<'a>(
    cursor: &mut Cursor<'a>,
    types: &mut TypeNames<'a>,
    budget: u32,
) -> Result<Part<'a>, Stop>
    requires room { IsRoomy cursor.old }
    requires height { budget ≤ 200 }
    ensures size { IfOk result (λ _. Paid cursor.old cursor.new 4) }
    ensures low { IfOk result (λ part. part.height ≤ budget) }
    ensures tree { MatchResult result
        (λ part. GotNaming cursor.old cursor.new (in_force types.old) (in_force types.new)
        (declare_from budget (in_force types.old) (rest_of cursor.old)) part)
        (λ e. Fails e (declare_from budget (in_force types.old) (rest_of cursor.old))) }
{
    if budget == 0 {
        return Err(Stop::NoTree);
    }
    let below = budget - 1;
    let specified = specifiers(cursor, types, below)?;
    if cursor.takes(Mark::Semicolon) {
        return specifiers_only(cursor, specified, below);
    }
    let first = read(cursor, types, Phrase::Declarator(Naming::Plain), below)?;
    declaration_behind(cursor, types, Naming::Plain, specified, first, below)
}
