//! Statements and blocks (C11 6.8). A statement leaves the names of types in force as it found them.
ghost use Rattle.std.specs.Prelude.{◌≡◌, ℕ, ◌+◌, ◌≤◌, [], ◌∷◌, length, MatchResult, IfOk};
ghost use Rattle.c_tree.specs.Syntax.{Syn, Syns, node, nil, weight as weight_of};
ghost use Rattle.c_tree.specs.Symbols.{symbol};
ghost use Rattle.c_tree.specs.Grammar.{Expression, declared_names};
ghost use Rattle.c_phrases.specs.Reading.{Names, past, read as reader, bracketed as bracketed_from};
ghost use Rattle.c_externals.specs.Statements.{declare as declare_from, state as state_from};
ghost use Rattle.c_externals.specs.Statements.{condition as condition_from};
ghost use Rattle.c_externals.specs.Statements.{while_from, if_from, do_from, for_from, switch_from, return_from};
ghost use Rattle.c_externals.specs.Statements.{jump_from};
ghost use Rattle.c_externals.specs.Statements.{expression_from, block_from, items_in_braces, labelled as labelled_from};
ghost use Rattle.c_externals.specs.Statements.{optional as optional_from, for_behind as for_behind_from};
ghost use Rattle.c_phrases.specs.Got.{rest_of, in_force, is_mark, IsRoomy, Paid, Owed, Reads, ReadsParts, Means, Holds};
ghost use Rattle.c_phrases.specs.Got.{Fails, Grows, after};
ghost use Rattle.c_externals.specs.Blocks.{opening_of as opening_from, label_of as label_from, labelled_by, opened};
ghost use Rattle.c_externals.specs.Blocks.{entry};
ghost use Rattle.c_externals.specs.Blocks.{GotEntry, AreLow, JoinsAll};

use crate::declarations::declare;
use c_phrases::{
    COMMA, CONDITIONAL, Cursor, Item, Mark, Part, Parts, Phrase, Root, Stop, TypeNames, is_marked,
    read,
};
use c_tree::{NodeKind, Symbol};

// How a statement begins that is no expression.
#[derive(Clone, Copy)]
enum Opening {
    Block,
    Empty,
    If,
    Switch,
    While,
    Do,
    For,
    Break,
    Continue,
    Return,
}

// What a token in braces is to a switch.
#[derive(Clone, Copy)]
enum Label {
    Case,
    Default,
    Unlabelled,
}

fn opening_of(symbol: Symbol) -> Option<Opening>
    ensures { result ≡ opening_from symbol }
{
    match symbol {
        Symbol::OpenBrace => Some(Opening::Block),
        Symbol::Semicolon => Some(Opening::Empty),
        Symbol::If => Some(Opening::If),
        Symbol::Switch => Some(Opening::Switch),
        Symbol::While => Some(Opening::While),
        Symbol::Do => Some(Opening::Do),
        Symbol::For => Some(Opening::For),
        Symbol::Break => Some(Opening::Break),
        Symbol::Continue => Some(Opening::Continue),
        Symbol::Return => Some(Opening::Return),
        _ => None,
    }
}

fn label_of(in_switch: bool, symbol: Symbol) -> Label
    ensures { result ≡ label_from in_switch symbol }
{
    if !in_switch {
        return Label::Unlabelled;
    }
    match symbol {
        Symbol::Case => Label::Case,
        Symbol::Default => Label::Default,
        _ => Label::Unlabelled,
    }
}

// A node over these parts, of which each has at most the height `below`.
fn node_of<'a>(
    cursor: &mut Cursor<'a>,
    kind: NodeKind,
    own: &Item<'a>,
    parts: &[Part<'a>],
    below: u32,
) -> Result<Part<'a>, Stop>
    requires room { IsRoomy cursor.old }
    requires height { below ≤ 200 }
    requires low { AreLow below parts.now }
    ensures size { IfOk result (λ part. length cursor.new.nodes.items ≡ length cursor.old.nodes.items + 1) }
    ensures low { IfOk result (λ part. part.height ≤ below + 1) }
    ensures rest { rest_of cursor.new ≡ rest_of cursor.old }
    ensures grows { IfOk result (λ part. Grows cursor.old.nodes.items cursor.new.nodes.items) }
    ensures tree { MatchResult result
        (λ part. JoinsAll cursor.old.nodes.items cursor.new.nodes.items kind own.now parts.now part)
        (λ e. e ≡ Stop.NoMemory) }
{
    let mut all = cursor.no_parts();
    for part in parts {
        all.push(*part)?;
    }
    cursor.join(kind, own, own.place(), all)
}

// An expression, and the token behind it.
fn bracketed<'a>(
    cursor: &mut Cursor<'a>,
    types: &TypeNames<'a>,
    level: u32,
    closing: Mark,
    budget: u32,
) -> Result<Part<'a>, Stop>
    requires room { IsRoomy cursor.old }
    requires height { budget ≤ 200 }
    requires level { level ≤ 15 }
    ensures size { IfOk result (λ part. Paid cursor.old cursor.new 8) }
    ensures low { IfOk result (λ part. part.height ≤ budget) }
    ensures tree { Reads cursor.old cursor.new
        (bracketed_from (reader budget) (Expression level) (is_mark closing) (in_force types.now)
        (rest_of cursor.old)) result }
{
    let part = read(cursor, types, Phrase::Expression(level), budget)?;
    cursor.expect(closing)?;
    Ok(part)
}

// An expression in parentheses.
#[tactic(auto, unfolding(crate::specs::Statements::condition))]
fn condition<'a>(
    cursor: &mut Cursor<'a>,
    types: &TypeNames<'a>,
    budget: u32,
) -> Result<Part<'a>, Stop>
    requires room { IsRoomy cursor.old }
    requires height { budget ≤ 200 }
    ensures size { IfOk result (λ part. Paid cursor.old cursor.new 16) }
    ensures low { IfOk result (λ part. part.height ≤ budget) }
    ensures tree { Reads cursor.old cursor.new
        (condition_from (reader budget) (declare_from budget) (state_from budget) (in_force types.now)
        (rest_of cursor.old)) result }
{
    cursor.expect(Mark::OpenParenthesis)?;
    bracketed(cursor, types, COMMA, Mark::CloseParenthesis, budget)
}

// An expression or nothing, up to and with the token behind it.
fn optional<'a>(
    cursor: &mut Cursor<'a>,
    types: &TypeNames<'a>,
    closing: Mark,
    below: u32,
) -> Result<Part<'a>, Stop>
    requires room { IsRoomy cursor.old }
    requires height { below ≤ 200 }
    ensures size { IfOk result (λ part. Paid cursor.old cursor.new 7) }
    ensures low { IfOk result (λ part. part.height ≤ below) }
    ensures tree { Reads cursor.old cursor.new
        (optional_from (reader below) (declare_from below) (state_from below) (is_mark closing) (in_force types.now)
        (rest_of cursor.old)) result }
{
    let Some(item) = cursor.first() else {
        return Err(Stop::NoTree);
    };
    if is_marked(closing, item.symbol()) {
        cursor.advance();
        return cursor.leaf(NodeKind::Absent, &item);
    }
    bracketed(cursor, types, COMMA, closing, below)
}

// Behind `break` or `continue`.
fn jump<'a>(cursor: &mut Cursor<'a>, kind: NodeKind, own: &Item<'a>) -> Result<Part<'a>, Stop>
    requires room { IsRoomy cursor.old }
    ensures size { IfOk result (λ part. Owed cursor.old cursor.new 1) }
    ensures low { IfOk result (λ part. part.height ≡ weight_of kind) }
    ensures tree { declared_names (node kind own.now nil) ≡ [] → (h : ℕ) →
        Reads cursor.old cursor.new (jump_from (reader h) (declare_from h) (state_from h) (node kind own.now nil)
        (rest_of cursor.old)) result }
{
    cursor.expect(Mark::Semicolon)?;
    cursor.leaf(kind, own)
}

// Behind `return`.
fn return_statement<'a>(
    cursor: &mut Cursor<'a>,
    types: &TypeNames<'a>,
    own: &Item<'a>,
    below: u32,
) -> Result<Part<'a>, Stop>
    requires room { IsRoomy cursor.old }
    requires height { below ≤ 200 }
    ensures size { IfOk result (λ part. Owed cursor.old cursor.new 1) }
    ensures low { IfOk result (λ part. part.height ≤ below + 1) }
    ensures tree { Reads cursor.old cursor.new
        (return_from (reader below) (declare_from below) (state_from below) own.now (in_force types.now)
        (rest_of cursor.old)) result }
{
    if cursor.takes(Mark::Semicolon) {
        return cursor.leaf(NodeKind::Return, own);
    }
    let value = bracketed(cursor, types, COMMA, Mark::Semicolon, below)?;
    let parts = cursor.only(value)?;
    cursor.join(NodeKind::Return, own, own.place(), parts)
}

// An expression and its semicolon.
fn expression_statement<'a>(
    cursor: &mut Cursor<'a>,
    types: &TypeNames<'a>,
    below: u32,
) -> Result<Part<'a>, Stop>
    requires room { IsRoomy cursor.old }
    requires height { below ≤ 200 }
    ensures size { IfOk result (λ part. Paid cursor.old cursor.new 0) }
    ensures low { IfOk result (λ part. part.height ≤ below + 1) }
    ensures tree { Reads cursor.old cursor.new
        (expression_from (reader below) (declare_from below) (state_from below) (in_force types.now)
        (rest_of cursor.old)) result }
{
    let whole = bracketed(cursor, types, COMMA, Mark::Semicolon, below)?;
    let parts = cursor.only(whole)?;
    let first = whole.root.first;
    cursor.make(
        Root {
            kind: NodeKind::ExpressionStatement,
            own: first,
            first,
            name: None,
        },
        parts,
    )
}

// Behind `case`.
fn case_label<'a>(
    cursor: &mut Cursor<'a>,
    types: &TypeNames<'a>,
    own: &Item<'a>,
    below: u32,
) -> Result<Part<'a>, Stop>
    requires room { IsRoomy cursor.old }
    requires height { below ≤ 200 }
    ensures size { IfOk result (λ part. Owed cursor.old cursor.new 1) }
    ensures low { IfOk result (λ part. part.height ≤ below) }
    ensures tree { Reads cursor.old cursor.new
        (labelled_by (reader below) (declare_from below) (state_from below) Label.Case own.now (in_force types.now)
        (rest_of cursor.old)) result }
{
    let value = bracketed(cursor, types, CONDITIONAL, Mark::Colon, below)?;
    let parts = cursor.only(value)?;
    cursor.join(NodeKind::Case, own, own.place(), parts)
}

// Behind `default`.
fn default_label<'a>(cursor: &mut Cursor<'a>, own: &Item<'a>) -> Result<Part<'a>, Stop>
    requires room { IsRoomy cursor.old }
    ensures size { IfOk result (λ part. Owed cursor.old cursor.new 1) }
    ensures low { IfOk result (λ part. part.height ≤ 0) }
    ensures tree { (h : ℕ) (types : Names) →
        Reads cursor.old cursor.new (labelled_by (reader h) (declare_from h)
        (state_from h) Label.Default own.now types (rest_of cursor.old)) result }
{
    cursor.expect(Mark::Colon)?;
    cursor.leaf(NodeKind::Default, own)
}

// Behind `while`.
#[cycle(statements)]
fn while_statement<'a>(
    cursor: &mut Cursor<'a>,
    types: &mut TypeNames<'a>,
    own: &Item<'a>,
    below: u32,
) -> Result<Part<'a>, Stop>
    requires room { IsRoomy cursor.old }
    requires height { below ≤ 200 }
    ensures size { IfOk result (λ part. Owed cursor.old cursor.new 1) }
    ensures low { IfOk result (λ part. part.height ≤ below + 1) }
    ensures names { IfOk result (λ part. in_force types.new ≡ in_force types.old) }
    ensures tree { Reads cursor.old cursor.new
        (while_from (reader below) (declare_from below) (state_from below) own.now (in_force types.old)
        (rest_of cursor.old)) result }
{
    let test = condition(cursor, types, below)?;
    let body = statement(cursor, types, below)?;
    node_of(cursor, NodeKind::While, own, &[test, body], below)
}

// Behind `do`.
#[cycle(statements)]
fn do_statement<'a>(
    cursor: &mut Cursor<'a>,
    types: &mut TypeNames<'a>,
    own: &Item<'a>,
    below: u32,
) -> Result<Part<'a>, Stop>
    requires room { IsRoomy cursor.old }
    requires height { below ≤ 200 }
    ensures size { IfOk result (λ part. Owed cursor.old cursor.new 1) }
    ensures low { IfOk result (λ part. part.height ≤ below + 1) }
    ensures names { IfOk result (λ part. in_force types.new ≡ in_force types.old) }
    ensures tree { Reads cursor.old cursor.new
        (do_from (reader below) (declare_from below) (state_from below) own.now (in_force types.old)
        (rest_of cursor.old)) result }
{
    let body = statement(cursor, types, below)?;
    cursor.expect(Mark::While)?;
    let test = condition(cursor, types, below)?;
    cursor.expect(Mark::Semicolon)?;
    node_of(cursor, NodeKind::Do, own, &[body, test], below)
}

// Behind `if`. An `else` belongs to the nearest `if`.
#[cycle(statements)]
fn if_statement<'a>(
    cursor: &mut Cursor<'a>,
    types: &mut TypeNames<'a>,
    own: &Item<'a>,
    below: u32,
) -> Result<Part<'a>, Stop>
    requires room { IsRoomy cursor.old }
    requires height { below ≤ 200 }
    ensures size { IfOk result (λ part. Owed cursor.old cursor.new 1) }
    ensures low { IfOk result (λ part. part.height ≤ below + 1) }
    ensures names { IfOk result (λ part. in_force types.new ≡ in_force types.old) }
    ensures tree { Reads cursor.old cursor.new
        (if_from (reader below) (declare_from below) (state_from below) own.now (in_force types.old)
        (rest_of cursor.old)) result }
{
    let test = condition(cursor, types, below)?;
    let yes = statement(cursor, types, below)?;
    if cursor.takes(Mark::Else) {
        let no = statement(cursor, types, below)?;
        return node_of(cursor, NodeKind::IfElse, own, &[test, yes, no], below);
    }
    node_of(cursor, NodeKind::If, own, &[test, yes], below)
}

// Behind the first part of a `for`.
#[cycle(statements)]
fn for_behind<'a>(
    cursor: &mut Cursor<'a>,
    types: &mut TypeNames<'a>,
    own: &Item<'a>,
    first: Part<'a>,
    below: u32,
) -> Result<Part<'a>, Stop>
    requires room { IsRoomy cursor.old }
    requires height { below ≤ 200 }
    requires low { first.height ≤ below }
    ensures size { IfOk result (λ part. Owed cursor.old cursor.new 1) }
    ensures low { IfOk result (λ part. part.height ≤ below + 1) }
    ensures names { IfOk result (λ part. in_force types.new ≡ in_force types.old) }
    ensures tree { (x : Syn) → Means cursor.old.nodes.items first.entry x →
        Reads cursor.old cursor.new (for_behind_from (reader below) (declare_from below) (state_from below) own.now x
        (in_force types.old) (rest_of cursor.old)) result }
{
    let second = optional(cursor, types, Mark::Semicolon, below)?;
    let third = optional(cursor, types, Mark::CloseParenthesis, below)?;
    let body = statement(cursor, types, below)?;
    node_of(
        cursor,
        NodeKind::For,
        own,
        &[first, second, third, body],
        below,
    )
}

// Behind `for`. A declaration in it is in force up to its end.
#[cycle(statements)]
fn for_statement<'a>(
    cursor: &mut Cursor<'a>,
    types: &mut TypeNames<'a>,
    own: &Item<'a>,
    below: u32,
) -> Result<Part<'a>, Stop>
    requires room { IsRoomy cursor.old }
    requires height { below ≤ 200 }
    ensures size { IfOk result (λ part. Owed cursor.old cursor.new 1) }
    ensures low { IfOk result (λ part. part.height ≤ below + 1) }
    ensures names { IfOk result (λ part. in_force types.new ≡ in_force types.old) }
    ensures tree { Reads cursor.old cursor.new
        (for_from (reader below) (declare_from below) (state_from below) own.now (in_force types.old)
        (rest_of cursor.old)) result }
{
    cursor.expect(Mark::OpenParenthesis)?;
    if !types.start(cursor.rest()) {
        let first = optional(cursor, types, Mark::Semicolon, below)?;
        return for_behind(cursor, types, own, first, below);
    }
    let before = types.len();
    let declaration = declare(cursor, types, below)?;
    let part = for_behind(cursor, types, own, declaration, below)?;
    types.truncate(before);
    Ok(part)
}

// A label of a switch, or a statement.
#[cycle(statements)]
fn labelled<'a>(
    cursor: &mut Cursor<'a>,
    types: &mut TypeNames<'a>,
    in_switch: bool,
    item: &Item<'a>,
    below: u32,
) -> Result<Part<'a>, Stop>
    requires room { IsRoomy cursor.old }
    requires height { below ≤ 200 }
    requires first { rest_of cursor.old ≡ item.now ∷ past (rest_of cursor.old) }
    ensures size { IfOk result (λ part. Paid cursor.old cursor.new 0) }
    ensures low { IfOk result (λ part. part.height ≤ below) }
    ensures names { IfOk result (λ part. in_force types.new ≡ in_force types.old) }
    ensures tree { Reads cursor.old cursor.new
        (labelled_from (reader below) (declare_from below) (state_from below) (symbol item.now) in_switch item.now
        (in_force types.old) (past (rest_of cursor.old))) result }
{
    match label_of(in_switch, item.symbol()) {
        Label::Case => {
            cursor.advance();
            case_label(cursor, types, item, below)
        }
        Label::Default => {
            cursor.advance();
            default_label(cursor, item)
        }
        Label::Unlabelled => statement(cursor, types, below),
    }
}

// A declaration, a label of a switch or a statement.
#[cycle(statements)]
fn enter<'a>(
    cursor: &mut Cursor<'a>,
    types: &mut TypeNames<'a>,
    in_switch: bool,
    item: &Item<'a>,
    below: u32,
) -> Result<Part<'a>, Stop>
    requires room { IsRoomy cursor.old }
    requires height { below ≤ 200 }
    requires first { rest_of cursor.old ≡ item.now ∷ past (rest_of cursor.old) }
    ensures size { IfOk result (λ part. Paid cursor.old cursor.new 0) }
    ensures low { IfOk result (λ part. part.height ≤ below) }
    ensures tree { MatchResult result
        (λ part. GotEntry cursor.old cursor.new (in_force types.old) (in_force types.new)
        (entry below in_switch (in_force types.old) item.now (past (rest_of cursor.old))) part)
        (λ e. Fails e (entry below in_switch (in_force types.old) item.now (past (rest_of cursor.old)))) }
{
    if types.begin_with(item) {
        declare(cursor, types, below)
    } else {
        labelled(cursor, types, in_switch, item, below)
    }
}

// Declarations, statements and, in a switch, labels, up to and with the closing brace, as further parts. The names that
// they add end with them.
#[cycle(statements)]
fn items<'a>(
    cursor: &mut Cursor<'a>,
    types: &mut TypeNames<'a>,
    in_switch: bool,
    start: Parts,
    below: u32,
) -> Result<Parts, Stop>
    requires room { IsRoomy cursor.old }
    requires height { below ≤ 200 }
    requires start { start.height ≤ below }
    ensures size { IfOk result (λ _. Owed cursor.old cursor.new 0) }
    ensures low { IfOk result (λ parts. parts.height ≤ below) }
    ensures names { IfOk result (λ _. in_force types.new ≡ in_force types.old) }
    ensures tree { (ys : Syns) → Holds cursor.old.nodes.items start ys →
        ReadsParts cursor.old cursor.new (after ys
        (items_in_braces (reader below) (declare_from below) (state_from below) in_switch (in_force types.old)
        (rest_of cursor.old))) result }
{
    let outer = types.len();
    let mut parts = start;
    while let Some(item) = cursor.first() {
        if cursor.takes(Mark::CloseBrace) {
            types.truncate(outer);
            return Ok(parts);
        }
        let part = enter(cursor, types, in_switch, &item, below)?;
        parts.push(part)?;
    }
    Err(Stop::NoTree)
}

/// A block, behind its opening brace.
#[cycle(statements)]
pub(crate) fn block<'a>(
    cursor: &mut Cursor<'a>,
    types: &mut TypeNames<'a>,
    own: &Item<'a>,
    below: u32,
) -> Result<Part<'a>, Stop>
    requires room { IsRoomy cursor.old }
    requires height { below ≤ 200 }
    ensures size { IfOk result (λ part. Owed cursor.old cursor.new 1) }
    ensures low { IfOk result (λ part. part.height ≤ below + 1) }
    ensures names { IfOk result (λ part. in_force types.new ≡ in_force types.old) }
    ensures tree { Reads cursor.old cursor.new
        (block_from (reader below) (declare_from below) (state_from below) own.now (in_force types.old)
        (rest_of cursor.old)) result }
{
    let none = cursor.no_parts();
    let parts = items(cursor, types, false, none, below)?;
    cursor.join(NodeKind::Block, own, own.place(), parts)
}

// Behind `switch`.
#[cycle(statements)]
fn switch_statement<'a>(
    cursor: &mut Cursor<'a>,
    types: &mut TypeNames<'a>,
    own: &Item<'a>,
    below: u32,
) -> Result<Part<'a>, Stop>
    requires room { IsRoomy cursor.old }
    requires height { below ≤ 200 }
    ensures size { IfOk result (λ part. Owed cursor.old cursor.new 1) }
    ensures low { IfOk result (λ part. part.height ≤ below + 1) }
    ensures names { IfOk result (λ part. in_force types.new ≡ in_force types.old) }
    ensures tree { Reads cursor.old cursor.new
        (switch_from (reader below) (declare_from below) (state_from below) own.now (in_force types.old)
        (rest_of cursor.old)) result }
{
    let value = condition(cursor, types, below)?;
    cursor.expect(Mark::OpenBrace)?;
    let start = cursor.only(value)?;
    let parts = items(cursor, types, true, start, below)?;
    cursor.join(NodeKind::Switch, own, own.place(), parts)
}

// A statement that is no expression, behind its first token.
#[cycle(statements)]
fn open<'a>(
    cursor: &mut Cursor<'a>,
    types: &mut TypeNames<'a>,
    opening: Opening,
    own: &Item<'a>,
    below: u32,
) -> Result<Part<'a>, Stop>
    requires room { IsRoomy cursor.old }
    requires height { below ≤ 200 }
    ensures size { IfOk result (λ part. Owed cursor.old cursor.new 1) }
    ensures low { IfOk result (λ part. part.height ≤ below + 1) }
    ensures names { IfOk result (λ part. in_force types.new ≡ in_force types.old) }
    ensures tree { Reads cursor.old cursor.new
        (opened (reader below) (declare_from below) (state_from below) opening own.now (in_force types.old)
        (rest_of cursor.old)) result }
{
    match opening {
        Opening::Block => block(cursor, types, own, below),
        Opening::Empty => cursor.leaf(NodeKind::EmptyStatement, own),
        Opening::If => if_statement(cursor, types, own, below),
        Opening::Switch => switch_statement(cursor, types, own, below),
        Opening::While => while_statement(cursor, types, own, below),
        Opening::Do => do_statement(cursor, types, own, below),
        Opening::For => for_statement(cursor, types, own, below),
        Opening::Break => jump(cursor, NodeKind::Break, own),
        Opening::Continue => jump(cursor, NodeKind::Continue, own),
        Opening::Return => return_statement(cursor, types, own, below),
    }
}

// A statement of at most this height.
#[cycle(statements)]
fn statement<'a>(
    cursor: &mut Cursor<'a>,
    types: &mut TypeNames<'a>,
    budget: u32,
) -> Result<Part<'a>, Stop>
    requires room { IsRoomy cursor.old }
    requires height { budget ≤ 200 }
    ensures size { IfOk result (λ part. Paid cursor.old cursor.new 0) }
    ensures low { IfOk result (λ part. part.height ≤ budget) }
    ensures names { IfOk result (λ part. in_force types.new ≡ in_force types.old) }
    ensures tree { Reads cursor.old cursor.new (state_from budget (in_force types.old) (rest_of cursor.old)) result }
{
    if budget == 0 {
        return Err(Stop::NoTree);
    }
    let below = budget - 1;
    let Some(item) = cursor.first() else {
        return Err(Stop::NoTree);
    };
    match opening_of(item.symbol()) {
        Some(opening) => {
            cursor.advance();
            open(cursor, types, opening, &item, below)
        }
        None => expression_statement(cursor, types, below),
    }
}
