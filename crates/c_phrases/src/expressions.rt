//! Expressions (C11 6.5).
ghost use Rattle.std.specs.Prelude.{◌≡◌, suc, ◌+◌, ◌<◌, ◌≤◌, false, true, [], ◌∷◌, length, Option};
ghost use Rattle.std.specs.Prelude.{Some, None, IfOk, IfSome, IfNone, Err};
ghost use Rattle.c_tree.specs.Syntax.{Syn, Syns, node, joined, first_token, weight as weight_of};
ghost use Rattle.c_tree.specs.Symbols.{symbol, tail_of as tail_table};
ghost use Rattle.c_phrases.specs.Reading.{read as reader};
ghost use Rattle.c_phrases.specs.Reading.{operand as operand_from, measure_from, longer as longer_from};
ghost use Rattle.c_phrases.specs.Reading.{expression as expression_from, climb as climb_from};
ghost use Rattle.c_phrases.specs.Reading.{goes_on as goes_on_of};
ghost use Rattle.c_phrases.specs.Reading.{starts as starts_of};
ghost use Rattle.c_tree.specs.Grammar.{declared_names};
ghost use Rattle.c_phrases.specs.Got.{rest_of, in_force, IsPlaceOf, IsRoomy, Paid, Owed, Reads};
ghost use Rattle.c_phrases.specs.Got.{ReadsParts, Means, Holds, after};
ghost use Rattle.c_tree.specs.Syntax.{one};
ghost use Rattle.c_phrases.specs.Reading.{select_from};
ghost use Rattle.c_phrases.specs.Steps.{run, made_by, follow_from, IsSmall};
ghost use Rattle.c_phrases.specs.Steps.{AreSmall};

use crate::cursor::{Cursor, Mark, Part, Parts, Stop, starts};
use crate::items::{Item, Place};
use crate::levels::{ASSIGNMENT, CAST, COMMA, CONDITIONAL, UNARY};
use crate::names::{Naming, TypeNames, opens_type};
use crate::phrases::{parameter_or_type_name, read, separated};
use crate::runs::text;
use crate::steps::{Phrase, Step};
use crate::tables::{goes_on, head_of, infix_level, level_of, operand_level, tail_of};
use c_tree::{Head, NodeKind, Selection, Tail};

// A step of a production, as further parts.
#[cycle(phrases)]
pub(crate) fn follow<'a>(
    cursor: &mut Cursor<'a>,
    types: &TypeNames<'a>,
    step: Step,
    start: Parts,
    below: u32,
) -> Result<Parts, Stop>
    requires room { IsRoomy cursor.old }
    requires height { below ≤ 200 }
    requires start { start.height ≤ below }
    requires level { IsSmall step }
    ensures size { IfOk result (λ _. Owed cursor.old cursor.new 0) }
    ensures low { IfOk result (λ p. p.height ≤ below) }
    ensures keeps { IfOk result (λ p. start.height ≤ p.height) }
    ensures tree { (ys : Syns) → Holds cursor.old.nodes.items start ys →
        ReadsParts cursor.old cursor.new (after ys
        (follow_from (reader below) step (in_force types.now) (rest_of cursor.old))) result }
{
    match step {
        Step::Read(what) => {
            let part = read(cursor, types, what, below)?;
            start.with(part)
        }
        Step::TypeName => {
            let part = parameter_or_type_name(
                cursor,
                types,
                NodeKind::TypeName,
                Naming::Nameless,
                below,
            )?;
            start.with(part)
        }
        Step::Listed(what) => {
            if starts(Mark::CloseParenthesis, cursor.rest()) {
                Ok(start)
            } else {
                separated(cursor, types, what, start, below)
            }
        }
        Step::Expect(mark) => {
            cursor.expect(mark)?;
            Ok(start)
        }
    }
}

// The steps of a production, one behind the other, as further parts.
#[cycle(phrases)]
pub(crate) fn production<'a>(
    cursor: &mut Cursor<'a>,
    types: &TypeNames<'a>,
    steps: &[Step],
    start: Parts,
    below: u32,
) -> Result<Parts, Stop>
    requires room { IsRoomy cursor.old }
    requires height { below ≤ 200 }
    requires start { start.height ≤ below }
    requires small { AreSmall steps.now }
    ensures size { IfOk result (λ _. Owed cursor.old cursor.new 0) }
    ensures low { IfOk result (λ p. p.height ≤ below) }
    ensures keeps { IfOk result (λ p. start.height ≤ p.height) }
    ensures tree { (ys : Syns) → Holds cursor.old.nodes.items start ys →
        ReadsParts cursor.old cursor.new (run (reader below) steps.now ys (in_force types.now) (rest_of cursor.old))
        result }
{
    let mut parts = start;
    let mut left = steps;
    while let Some((first, others)) = left.split_first() {
        parts = follow(cursor, types, *first, parts, below)?;
        left = others;
    }
    Ok(parts)
}

// A node of parts that stand already, and of what the steps of its production read.
#[cycle(phrases)]
pub(crate) fn node<'a>(
    cursor: &mut Cursor<'a>,
    types: &TypeNames<'a>,
    kind: NodeKind,
    item: &Item<'a>,
    first: Place,
    steps: &[Step],
    start: Parts,
    below: u32,
) -> Result<Part<'a>, Stop>
    requires room { IsRoomy cursor.old }
    requires height { below ≤ 200 }
    requires start { start.height ≤ below }
    requires small { AreSmall steps.now }
    ensures size { IfOk result (λ _. Owed cursor.old cursor.new 1) }
    ensures low { IfOk result (λ p. p.height ≤ below + 1) }
    ensures taller { IfOk result (λ p. start.height + weight_of kind ≤ p.height) }
    ensures tree { (ys : Syns) → ((zs : Syns) → IsPlaceOf first (first_token (node kind item.now (joined ys zs)))) →
        ((zs : Syns) → declared_names (node kind item.now (joined ys zs)) ≡ []) →
        Holds cursor.old.nodes.items start ys →
        Reads cursor.old cursor.new (made_by (reader below) kind item.now steps.now ys (in_force types.now)
        (rest_of cursor.old)) result }
{
    let parts = production(cursor, types, steps, start, below)?;
    cursor.join(kind, item, first, parts)
}

// The same where all that is read is an expression of at least this level.
#[cycle(phrases)]
fn join_operand<'a>(
    cursor: &mut Cursor<'a>,
    types: &TypeNames<'a>,
    kind: NodeKind,
    item: &Item<'a>,
    first: Place,
    level: u32,
    start: Parts,
    below: u32,
) -> Result<Part<'a>, Stop>
    requires room { IsRoomy cursor.old }
    requires height { below ≤ 200 }
    requires start { start.height ≤ below }
    requires level { level ≤ 15 }
    ensures size { IfOk result (λ _. Owed cursor.old cursor.new 1) }
    ensures low { IfOk result (λ p. p.height ≤ below + 1) }
    ensures taller { IfOk result (λ p. start.height + weight_of kind ≤ p.height) }
    ensures tree { (ys : Syns) → ((zs : Syns) → IsPlaceOf first (first_token (node kind item.now (joined ys zs)))) →
        ((zs : Syns) → declared_names (node kind item.now (joined ys zs)) ≡ []) →
        Holds cursor.old.nodes.items start ys →
        Reads cursor.old cursor.new (made_by (reader below) kind item.now
        (Step.Read (Phrase.Expression level) ∷ []) ys (in_force types.now) (rest_of cursor.old)) result }
{
    let part = read(cursor, types, Phrase::Expression(level), below)?;
    let parts = start.with(part)?;
    cursor.join(kind, item, first, parts)
}

// The part at the left end of an expression.
#[cycle(phrases)]
fn operand<'a>(cursor: &mut Cursor<'a>, types: &TypeNames<'a>, below: u32) -> Result<Part<'a>, Stop>
    requires room { IsRoomy cursor.old }
    requires height { below ≤ 200 }
    ensures size { IfOk result (λ _. Paid cursor.old cursor.new 4) }
    ensures low { IfOk result (λ p. p.height ≤ below + 1) }
    ensures tree { Reads cursor.old cursor.new
        (operand_from (reader below) (suc below) (in_force types.now) (rest_of cursor.old)) result }
{
    let Some(item) = cursor.take() else {
        return Err(Stop::NoTree);
    };
    let own = item.place();
    match head_of(item.symbol()) {
        Head::Name => {
            if types.has(&item) {
                return Err(Stop::NoTree);
            }
            cursor.leaf(NodeKind::Name, &item)
        }
        Head::Number => cursor.leaf(NodeKind::Number, &item),
        Head::Character => cursor.leaf(NodeKind::Character, &item),
        Head::Text => text(cursor, &item, below),
        Head::Opens => {
            let none = cursor.no_parts();
            if types.start(cursor.rest()) {
                let steps = [
                    Step::TypeName,
                    Step::Expect(Mark::CloseParenthesis),
                    Step::Read(Phrase::Expression(CAST)),
                ];
                node(
                    cursor,
                    types,
                    NodeKind::Cast,
                    &item,
                    own,
                    &steps,
                    none,
                    below,
                )
            } else {
                let steps = [
                    Step::Read(Phrase::Expression(COMMA)),
                    Step::Expect(Mark::CloseParenthesis),
                ];
                node(
                    cursor,
                    types,
                    NodeKind::Parenthesized,
                    &item,
                    own,
                    &steps,
                    none,
                    below,
                )
            }
        }
        Head::Prefixes(operator) => {
            let none = cursor.no_parts();
            let steps = [Step::Read(Phrase::Expression(operand_level(operator)))];
            node(
                cursor,
                types,
                NodeKind::Prefix(operator),
                &item,
                own,
                &steps,
                none,
                below,
            )
        }
        Head::Measures => measure(cursor, types, &item, below),
        Head::NoHead => Err(Stop::NoTree),
    }
}

// What stands behind `sizeof`.
#[cycle(phrases)]
fn measure<'a>(
    cursor: &mut Cursor<'a>,
    types: &TypeNames<'a>,
    item: &Item<'a>,
    below: u32,
) -> Result<Part<'a>, Stop>
    requires room { IsRoomy cursor.old }
    requires height { below ≤ 200 }
    ensures size { IfOk result (λ _. Owed cursor.old cursor.new 1) }
    ensures low { IfOk result (λ p. p.height ≤ below + 1) }
    ensures tree { Reads cursor.old cursor.new
        (measure_from (reader below) (suc below) item.now (in_force types.now) (rest_of cursor.old)) result }
{
    let none = cursor.no_parts();
    if opens_type(types, cursor.rest()) {
        cursor.advance();
        let steps = [Step::TypeName, Step::Expect(Mark::CloseParenthesis)];
        node(
            cursor,
            types,
            NodeKind::SizeofType,
            item,
            item.place(),
            &steps,
            none,
            below,
        )
    } else {
        let steps = [Step::Read(Phrase::Expression(UNARY))];
        node(
            cursor,
            types,
            NodeKind::SizeofExpression,
            item,
            item.place(),
            &steps,
            none,
            below,
        )
    }
}

// The selection of a member, behind `.` or `->`, in the tree of which the parts so far are the first.
fn select<'a>(
    cursor: &mut Cursor<'a>,
    selection: Selection,
    item: &Item<'a>,
    first: Place,
    start: Parts,
    below: u32,
) -> Result<Part<'a>, Stop>
    requires room { IsRoomy cursor.old }
    requires height { below ≤ 200 }
    requires start { start.height ≤ below }
    ensures size { IfOk result (λ _. Owed cursor.old cursor.new 1) }
    ensures low { IfOk result (λ p. p.height ≤ below + 1) }
    ensures taller { IfOk result (λ p. start.height < p.height) }
    ensures tree { (x : Syn) → IsPlaceOf first (first_token x) → Holds cursor.old.nodes.items start (one x) →
        Reads cursor.old cursor.new (select_from (reader below) (suc below) selection x item.now (rest_of cursor.old))
        result }
{
    // The member's name has the height 1.
    if below == 0 {
        return Err(Stop::NoTree);
    }
    let Some(name) = cursor.take_if(Mark::Word) else {
        return Err(Stop::NoTree);
    };
    let member = cursor.leaf(NodeKind::MemberName, &name)?;
    let parts = start.with(member)?;
    cursor.join(NodeKind::Select(selection), item, first, parts)
}

// What goes on with an expression, behind the token by which it does.
#[cycle(phrases)]
fn longer<'a>(
    cursor: &mut Cursor<'a>,
    types: &TypeNames<'a>,
    left: Part<'a>,
    item: &Item<'a>,
    below: u32,
) -> Result<Part<'a>, Stop>
    requires room { IsRoomy cursor.old }
    requires height { below ≤ 200 }
    ensures size { IfOk result (λ _. Owed cursor.old cursor.new 1) }
    ensures low { IfOk result (λ p. p.height ≤ below + 1) }
    ensures taller { IfOk result (λ p. left.entry.height < p.height) }
    ensures tree { (x : Syn) → Means cursor.old.nodes.items left.entry x →
        Reads cursor.old cursor.new (longer_from (reader below) (suc below) (tail_table (symbol item.now)) x item.now
        (in_force types.now) (rest_of cursor.old)) result }
{
    if left.height > below {
        return Err(Stop::NoTree);
    }
    let start = cursor.only(left)?;
    match tail_of(item.symbol()) {
        Tail::Indexes => {
            let steps = [
                Step::Read(Phrase::Expression(COMMA)),
                Step::Expect(Mark::CloseBracket),
            ];
            node(
                cursor,
                types,
                NodeKind::Index,
                item,
                left.root.first,
                &steps,
                start,
                below,
            )
        }
        Tail::Calls => {
            let steps = [
                Step::Listed(Phrase::Expression(ASSIGNMENT)),
                Step::Expect(Mark::CloseParenthesis),
            ];
            node(
                cursor,
                types,
                NodeKind::Call,
                item,
                left.root.first,
                &steps,
                start,
                below,
            )
        }
        Tail::Selects(selection) => select(cursor, selection, item, left.root.first, start, below),
        Tail::Steps(operator) => {
            cursor.join(NodeKind::Postfix(operator), item, left.root.first, start)
        }
        Tail::Joins(operator) => join_operand(
            cursor,
            types,
            NodeKind::Infix(operator),
            item,
            left.root.first,
            infix_level(operator) + 1,
            start,
            below,
        ),
        Tail::Asks => {
            let steps = [
                Step::Read(Phrase::Expression(COMMA)),
                Step::Expect(Mark::Colon),
                Step::Read(Phrase::Expression(CONDITIONAL)),
            ];
            node(
                cursor,
                types,
                NodeKind::Conditional,
                item,
                left.root.first,
                &steps,
                start,
                below,
            )
        }
        Tail::Assigns(operator) => join_operand(
            cursor,
            types,
            NodeKind::Assignment(operator),
            item,
            left.root.first,
            ASSIGNMENT,
            start,
            below,
        ),
        Tail::Ends => Err(Stop::NoTree),
    }
}

// An expression of at least this level.
#[cycle(phrases)]
pub(crate) fn expression<'a>(
    cursor: &mut Cursor<'a>,
    types: &TypeNames<'a>,
    level: u32,
    below: u32,
) -> Result<Part<'a>, Stop>
    requires room { IsRoomy cursor.old }
    requires height { below ≤ 200 }
    requires level { level ≤ 15 }
    ensures size { IfOk result (λ _. Paid cursor.old cursor.new 4) }
    ensures low { IfOk result (λ p. p.height ≤ below + 1) }
    ensures tree { Reads cursor.old cursor.new
        (expression_from (reader below) (suc below) level (in_force types.now) (rest_of cursor.old)) result }
{
    let part = operand(cursor, types, below)?;
    if level_of(part.root.kind) < level {
        return Err(Stop::NoTree);
    }
    climb(cursor, types, level, part, below)
}

// What goes on with an expression, as far as the level lets it.
#[cycle(phrases)]
fn climb<'a>(
    cursor: &mut Cursor<'a>,
    types: &TypeNames<'a>,
    level: u32,
    start: Part<'a>,
    below: u32,
) -> Result<Part<'a>, Stop>
    requires room { IsRoomy cursor.old }
    requires height { below ≤ 200 }
    requires level { level ≤ 15 }
    requires start { start.height ≤ below + 1 }
    ensures size { IfOk result (λ _. Owed cursor.old cursor.new 0) }
    ensures low { IfOk result (λ p. p.height ≤ below + 1) }
    ensures tree { (x : Syn) → Means cursor.old.nodes.items start.entry x →
        Reads cursor.old cursor.new (climb_from (reader below) (suc below) (suc (suc below)) level
        (in_force types.now) x (rest_of cursor.old)) result }
{
    let mut part = start;
    while let Some(item) = take_tail(cursor, level, level_of(part.root.kind)) {
        part = longer(cursor, types, part, &item, below)?;
    }
    Ok(part)
}

// Takes the first token, if it goes on with a tree of the level `at`, where an expression of the level `level` is read.
fn take_tail<'a>(cursor: &mut Cursor<'a>, level: u32, at: u32) -> Option<Item<'a>>
    ensures nodes { cursor.new.nodes.items ≡ cursor.old.nodes.items }
    ensures size { IfSome result (λ _. length (rest_of cursor.old) ≡ length (rest_of cursor.new) + 1) }
    ensures left { IfNone result (rest_of cursor.new ≡ rest_of cursor.old) }
    ensures other { IfNone result (starts_of (λ s. goes_on_of (tail_table s) level at) (rest_of cursor.old) ≡ false) }
    ensures rest { IfSome result (λ t. rest_of cursor.old ≡ t ∷ rest_of cursor.new) }
    ensures found { IfSome result (λ t. goes_on_of (tail_table (symbol t)) level at ≡ true) }
{
    match cursor.first() {
        Some(item) if goes_on(tail_of(item.symbol()), level, at) => {
            cursor.advance();
            Some(item)
        }
        _ => None,
    }
}
