//! Constants and string literals (C11 6.4.4, 6.4.5, 6.5.1).

ghost use Rattle.std.specs.Prelude.{◌≡◌, ◌<◌, ◌&&◌, ◌++◌, ◌∷◌, [], not, nat_le, nat_lt, if◌then◌else◌, IfOk, OnOk};
ghost use Rattle.ck_base.specs.Lexes.{IsAccepted};
ghost use Rattle.ck_base.specs.Literals.{type_of};
ghost use Rattle.c_tree.specs.Types.{int, unsigned_long};
ghost use Rattle.c_tree.specs.Terms.{Constant, leaf};
ghost use Rattle.c_tree.specs.Values as values;
ghost use Rattle.c_tree.specs.Values.{characters_of};
ghost use Rattle.c_tree.specs.Expressions.{gives};
ghost use Rattle.c_expressions.specs.Answers.{Answers};
ghost use Rattle.c_expressions.specs.Classes.{integer_type};
ghost use Rattle.c_expressions.specs.Nodes.{IsWhole, IsOperand, type_in, type_count};
ghost use Rattle.c_operators.specs.Rules.{number_at, character_at};

use c_expressions::{Integer, Leaf, Nodes, Operand};
use c_lex::{char_of, integer_of, unescape};
use ck_base::{Integer as Number, NoMemory, Pos, Refusal, TokenKind};
use ck_int::IntKind;

// Whether the types in a constant's list have a sign, or none (C11 6.4.4.1p5).
fn is_listed(n: Number, unsigned: bool) -> bool
    ensures { (if n.unsigned then unsigned else not (n.decimal && unsigned)) ≡ result }
{
    if n.unsigned {
        unsigned
    } else {
        !(n.decimal && unsigned)
    }
}

// Whether a constant can have a type that says `long` so often, and whose values are below a limit.
fn can_have(n: Number, longs: u8, unsigned: bool, limit: u128) -> bool
    ensures { (nat_le n.longs longs && (if n.unsigned then unsigned else not (n.decimal && unsigned))
        && nat_lt n.value limit) ≡ result }
{
    n.longs <= longs && is_listed(n, unsigned) && u128::from(n.value) < limit
}

// The first type of its list that has the value (C11 6.4.4.1p5).
fn number_type(n: Number) -> Integer
    ensures { values.integer_type (type_of n) ≡ integer_type result }
{
    if can_have(n, 0, false, 1 << 31) {
        Integer::Int(IntKind::I32, 0)
    } else if can_have(n, 0, true, 1 << 32) {
        Integer::Int(IntKind::U32, 0)
    } else if can_have(n, 1, false, 1 << 63) {
        Integer::Int(IntKind::I64, 0)
    } else if can_have(n, 1, true, 1 << 64) {
        Integer::Int(IntKind::U64, 0)
    } else if can_have(n, 2, false, 1 << 63) {
        Integer::Int(IntKind::I64, 1)
    } else if can_have(n, 2, true, 1 << 64) {
        Integer::Int(IntKind::U64, 1)
    } else {
        Integer::Int(IntKind::I32, 0)
    }
}

/// Appends the values of the characters of a string literal (C11 6.4.5p6).
pub fn append_text(text: &[u8], into: &mut Vec<u8>) -> Result<(), NoMemory>
    requires { IsAccepted TokenKind.Text text.now }
    ensures { OnOk result (into.new.items ≡ into.old.items ++ characters_of text.now) }
{
    unescape(text, into)
}

// A constant of a type.
fn constant(nodes: &mut Nodes<'_>, value: u64, of: u32, pos: Pos) -> Result<Operand, Refusal>
    requires whole { IsWhole nodes.old }
    requires of { of < type_count nodes.old }
    ensures { Answers nodes.old nodes.new (gives (leaf (Constant value) (type_in nodes.old of) pos) pos) IsOperand
        result }
{
    let node = nodes.leaf(Leaf::Constant(value), of, pos)?;
    Ok(Operand { node, first: pos })
}

/// A constant of type `int`, by the 64 bits of its value.
pub fn int_constant(nodes: &mut Nodes<'_>, value: u64, pos: Pos) -> Result<Operand, Refusal>
    requires { IsWhole nodes.old }
    ensures { Answers nodes.old nodes.new (gives (leaf (Constant value) int pos) pos) IsOperand result }
{
    let of = nodes.int()?;
    constant(nodes, value, of, pos)
}

/// A constant of type `size_t`, as that of `sizeof` (C11 6.5.3.4p5).
pub fn size_constant(nodes: &mut Nodes<'_>, value: u64, pos: Pos) -> Result<Operand, Refusal>
    requires { IsWhole nodes.old }
    ensures { Answers nodes.old nodes.new (gives (leaf (Constant value) unsigned_long pos) pos) IsOperand result }
{
    let of = nodes.integer(Integer::Int(IntKind::U64, 0))?;
    constant(nodes, value, of, pos)
}

// A number by its value and its type.
fn number_with(nodes: &mut Nodes<'_>, n: Number, pos: Pos) -> Result<Operand, Refusal>
    requires { IsWhole nodes.old }
    ensures { Answers nodes.old nodes.new (gives (leaf (Constant n.value) (values.integer_type (type_of n)) pos) pos)
        IsOperand result }
{
    let of = nodes.integer(number_type(n))?;
    constant(nodes, n.value, of, pos)
}

/// An integer constant (C11 6.4.4.1).
pub fn number(nodes: &mut Nodes<'_>, text: &[u8], pos: Pos) -> Result<Operand, Refusal>
    requires whole { IsWhole nodes.old }
    requires accepted { IsAccepted TokenKind.Number text.now }
    ensures { Answers nodes.old nodes.new (number_at text.now pos) IsOperand result }
{
    match integer_of(text) {
        None => unreachable!(),
        Some(n) => number_with(nodes, n, pos),
    }
}

/// A character constant (C11 6.4.4.4).
pub fn character(nodes: &mut Nodes<'_>, text: &[u8], pos: Pos) -> Result<Operand, Refusal>
    requires whole { IsWhole nodes.old }
    requires accepted { IsAccepted TokenKind.Char text.now }
    ensures { Answers nodes.old nodes.new (character_at text.now pos) IsOperand result }
{
    match char_of(text) {
        None => unreachable!(),
        Some(value) => int_constant(nodes, u64::from(value), pos),
    }
}
