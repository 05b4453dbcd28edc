//! What tokens are to the grammar, and what they can do in an expression.

ghost use Rattle.std.specs.Prelude.{◌≡◌, ◌≤◌, [], ◌∷◌, map};
ghost use Rattle.c_tree.specs.Symbols as table;
ghost use Rattle.c_tree.specs.Symbols.{look_up as look_up_of};
ghost use Rattle.c_phrases.specs.Words.{word_or as word_or_of};
ghost use Rattle.c_phrases.specs.Reading as reading;

use crate::levels::{
    ADDITIVE, AND, ASSIGNMENT, CAST, COMMA, CONDITIONAL, EQUALITY, EXCLUSIVE_OR, INCLUSIVE_OR,
    LOGICAL_AND, LOGICAL_OR, MULTIPLICATIVE, POSTFIX, RELATIONAL, SHIFT, UNARY,
};
use c_tree::{
    Head, InfixOperator, NodeKind, PrefixOperator, RecordKind, Selection, SpecifierWord,
    StepOperator, Symbol, Tail, UnaryOp,
};
use ck_base::TokenKind;
use ck_int::{CmpOp, IntOp};

// The keywords (C11 6.4.1), and spellings of extensions, by their first byte.
const A_WORDS: [(&[u8], Symbol); 1] = [(b"auto", Symbol::Specifier(SpecifierWord::Auto))];

const B_WORDS: [(&[u8], Symbol); 1] = [(b"break", Symbol::Break)];

const C_WORDS: [(&[u8], Symbol); 4] = [
    (b"case", Symbol::Case),
    (b"char", Symbol::Specifier(SpecifierWord::Char)),
    (b"const", Symbol::Specifier(SpecifierWord::Const)),
    (b"continue", Symbol::Continue),
];

const D_WORDS: [(&[u8], Symbol); 2] = [(b"default", Symbol::Default), (b"do", Symbol::Do)];

const E_WORDS: [(&[u8], Symbol); 3] = [
    (b"else", Symbol::Else),
    (b"enum", Symbol::Enum),
    (b"extern", Symbol::Specifier(SpecifierWord::Extern)),
];

const F_WORDS: [(&[u8], Symbol); 1] = [(b"for", Symbol::For)];

const I_WORDS: [(&[u8], Symbol); 3] = [
    (b"if", Symbol::If),
    (b"inline", Symbol::Specifier(SpecifierWord::Inline)),
    (b"int", Symbol::Specifier(SpecifierWord::Int)),
];

const L_WORDS: [(&[u8], Symbol); 1] = [(b"long", Symbol::Specifier(SpecifierWord::Long))];

const R_WORDS: [(&[u8], Symbol); 3] = [
    (b"register", Symbol::Specifier(SpecifierWord::Register)),
    (b"restrict", Symbol::Specifier(SpecifierWord::Restrict)),
    (b"return", Symbol::Return),
];

const S_WORDS: [(&[u8], Symbol); 6] = [
    (b"short", Symbol::Specifier(SpecifierWord::Short)),
    (b"signed", Symbol::Specifier(SpecifierWord::Signed)),
    (b"sizeof", Symbol::Sizeof),
    (b"static", Symbol::Specifier(SpecifierWord::Static)),
    (b"struct", Symbol::Record(RecordKind::Struct)),
    (b"switch", Symbol::Switch),
];

const T_WORDS: [(&[u8], Symbol); 1] = [(b"typedef", Symbol::Specifier(SpecifierWord::Typedef))];

const U_WORDS: [(&[u8], Symbol); 2] = [
    (b"union", Symbol::Record(RecordKind::Union)),
    (b"unsigned", Symbol::Specifier(SpecifierWord::Unsigned)),
];

const V_WORDS: [(&[u8], Symbol); 2] = [
    (b"void", Symbol::Specifier(SpecifierWord::Void)),
    (b"volatile", Symbol::Specifier(SpecifierWord::Volatile)),
];

const W_WORDS: [(&[u8], Symbol); 1] = [(b"while", Symbol::While)];

const UNDERSCORE_WORDS: [(&[u8], Symbol); 5] = [
    (b"_Bool", Symbol::Specifier(SpecifierWord::Bool)),
    (b"__intcap_t", Symbol::Specifier(SpecifierWord::IntCap)),
    (b"__uintcap_t", Symbol::Specifier(SpecifierWord::UintCap)),
    (b"__restrict", Symbol::Specifier(SpecifierWord::Restrict)),
    (b"__inline", Symbol::Specifier(SpecifierWord::Inline)),
];

/// The punctuators (C11 6.4.6).
const PUNCTUATORS: [(&[u8], Symbol); 45] = [
    (b"[", Symbol::OpenBracket),
    (b"]", Symbol::CloseBracket),
    (b"(", Symbol::OpenParenthesis),
    (b")", Symbol::CloseParenthesis),
    (b"{", Symbol::OpenBrace),
    (b"}", Symbol::CloseBrace),
    (b".", Symbol::Selection(Selection::Direct)),
    (b"->", Symbol::Selection(Selection::Indirect)),
    (b"++", Symbol::Step(StepOperator::Increment)),
    (b"--", Symbol::Step(StepOperator::Decrement)),
    (b"&", Symbol::Ampersand),
    (b"*", Symbol::Star),
    (b"+", Symbol::Plus),
    (b"-", Symbol::Minus),
    (b"~", Symbol::Tilde),
    (b"!", Symbol::Exclamation),
    (b"/", Symbol::Infix(InfixOperator::Int(IntOp::Div))),
    (b"%", Symbol::Infix(InfixOperator::Int(IntOp::Rem))),
    (b"<<", Symbol::Infix(InfixOperator::Int(IntOp::Shl))),
    (b">>", Symbol::Infix(InfixOperator::Int(IntOp::Shr))),
    (b"<", Symbol::Infix(InfixOperator::Compare(CmpOp::Lt))),
    (b">", Symbol::Infix(InfixOperator::Compare(CmpOp::Gt))),
    (b"<=", Symbol::Infix(InfixOperator::Compare(CmpOp::Le))),
    (b">=", Symbol::Infix(InfixOperator::Compare(CmpOp::Ge))),
    (b"==", Symbol::Infix(InfixOperator::Compare(CmpOp::Eq))),
    (b"!=", Symbol::Infix(InfixOperator::Compare(CmpOp::Ne))),
    (b"^", Symbol::Infix(InfixOperator::Int(IntOp::Xor))),
    (b"|", Symbol::Infix(InfixOperator::Int(IntOp::Or))),
    (b"&&", Symbol::Infix(InfixOperator::And)),
    (b"||", Symbol::Infix(InfixOperator::Or)),
    (b"?", Symbol::Question),
    (b":", Symbol::Colon),
    (b";", Symbol::Semicolon),
    (b"=", Symbol::Assignment(None)),
    (b"*=", Symbol::Assignment(Some(IntOp::Mul))),
    (b"/=", Symbol::Assignment(Some(IntOp::Div))),
    (b"%=", Symbol::Assignment(Some(IntOp::Rem))),
    (b"+=", Symbol::Assignment(Some(IntOp::Add))),
    (b"-=", Symbol::Assignment(Some(IntOp::Sub))),
    (b"<<=", Symbol::Assignment(Some(IntOp::Shl))),
    (b">>=", Symbol::Assignment(Some(IntOp::Shr))),
    (b"&=", Symbol::Assignment(Some(IntOp::And))),
    (b"^=", Symbol::Assignment(Some(IntOp::Xor))),
    (b"|=", Symbol::Assignment(Some(IntOp::Or))),
    (b",", Symbol::Comma),
];

// What a table says of a text.
fn look_up(table: &[(&[u8], Symbol)], text: &[u8]) -> Symbol
    ensures { result ≡ look_up_of (map (λ entry. (entry.0.now, entry.1)) table.now) text.now }
{
    match table.split_first() {
        Some((entry, _)) if entry.0 == text => entry.1,
        Some((_, others)) => look_up(others, text),
        None => Symbol::Other,
    }
}

// A word that no table knows is an identifier.
fn word_or(symbol: Symbol) -> Symbol
    ensures { result ≡ word_or_of symbol }
{
    match symbol {
        Symbol::Other => Symbol::Word,
        known => known,
    }
}

// The keyword that a word is, or none.
#[tactic(auto, unfolding(c_tree::specs::Symbols::keyword_symbols))]
fn keyword(text: &[u8]) -> Symbol
    ensures { result ≡ look_up_of table.keyword_symbols text.now }
{
    match text {
        [b'a', ..] => look_up(&A_WORDS, text),
        [b'b', ..] => look_up(&B_WORDS, text),
        [b'c', ..] => look_up(&C_WORDS, text),
        [b'd', ..] => look_up(&D_WORDS, text),
        [b'e', ..] => look_up(&E_WORDS, text),
        [b'f', ..] => look_up(&F_WORDS, text),
        [b'i', ..] => look_up(&I_WORDS, text),
        [b'l', ..] => look_up(&L_WORDS, text),
        [b'r', ..] => look_up(&R_WORDS, text),
        [b's', ..] => look_up(&S_WORDS, text),
        [b't', ..] => look_up(&T_WORDS, text),
        [b'u', ..] => look_up(&U_WORDS, text),
        [b'v', ..] => look_up(&V_WORDS, text),
        [b'w', ..] => look_up(&W_WORDS, text),
        [b'_', ..] => look_up(&UNDERSCORE_WORDS, text),
        _ => Symbol::Other,
    }
}

// What a word is (C11 6.4.1).
fn word_symbol(text: &[u8]) -> Symbol
    ensures { result ≡ word_or_of (look_up_of table.keyword_symbols text.now) }
{
    word_or(keyword(text))
}

// The punctuators of one byte (C11 6.4.6).
#[tactic(auto, unfolding(c_tree::specs::Symbols::punctuator_symbols))]
fn single_symbol(a: u8) -> Symbol
    ensures { result ≡ look_up_of table.punctuator_symbols (a ∷ []) }
{
    match a {
        b'[' => Symbol::OpenBracket,
        b']' => Symbol::CloseBracket,
        b'(' => Symbol::OpenParenthesis,
        b')' => Symbol::CloseParenthesis,
        b'{' => Symbol::OpenBrace,
        b'}' => Symbol::CloseBrace,
        b'.' => Symbol::Selection(Selection::Direct),
        b'&' => Symbol::Ampersand,
        b'*' => Symbol::Star,
        b'+' => Symbol::Plus,
        b'-' => Symbol::Minus,
        b'~' => Symbol::Tilde,
        b'!' => Symbol::Exclamation,
        b'/' => Symbol::Infix(InfixOperator::Int(IntOp::Div)),
        b'%' => Symbol::Infix(InfixOperator::Int(IntOp::Rem)),
        b'<' => Symbol::Infix(InfixOperator::Compare(CmpOp::Lt)),
        b'>' => Symbol::Infix(InfixOperator::Compare(CmpOp::Gt)),
        b'^' => Symbol::Infix(InfixOperator::Int(IntOp::Xor)),
        b'|' => Symbol::Infix(InfixOperator::Int(IntOp::Or)),
        b'?' => Symbol::Question,
        b':' => Symbol::Colon,
        b';' => Symbol::Semicolon,
        b'=' => Symbol::Assignment(None),
        b',' => Symbol::Comma,
        _ => Symbol::Other,
    }
}

// What a punctuator is (C11 6.4.6).
#[tactic(auto, unfolding(c_tree::specs::Symbols::punctuator_symbols))]
fn punctuator_symbol(text: &[u8]) -> Symbol
    ensures { result ≡ look_up_of table.punctuator_symbols text.now }
{
    match text {
        [a] => single_symbol(*a),
        _ => look_up(&PUNCTUATORS, text),
    }
}

/// What a token is to the grammar.
#[tactic(auto, unfolding(c_tree::specs::Symbols::symbol_of), using(crate::proofs::Words::word_is))]
pub(crate) fn symbol_of(kind: TokenKind, text: &[u8]) -> Symbol
    ensures { result ≡ table.symbol_of kind text.now }
{
    match kind {
        TokenKind::Word => word_symbol(text),
        TokenKind::Number => Symbol::Number,
        TokenKind::Char => Symbol::Character,
        TokenKind::Text => Symbol::Text,
        TokenKind::Punct => punctuator_symbol(text),
    }
}

/// How a token begins an expression (C11 6.5.1 to 6.5.4).
pub(crate) fn head_of(symbol: Symbol) -> Head
    ensures { result ≡ table.head_of symbol }
{
    match symbol {
        Symbol::Word => Head::Name,
        Symbol::Number => Head::Number,
        Symbol::Character => Head::Character,
        Symbol::Text => Head::Text,
        Symbol::OpenParenthesis => Head::Opens,
        Symbol::Step(step) => Head::Prefixes(PrefixOperator::Step(step)),
        Symbol::Ampersand => Head::Prefixes(PrefixOperator::Address),
        Symbol::Star => Head::Prefixes(PrefixOperator::Indirection),
        Symbol::Plus => Head::Prefixes(PrefixOperator::Unary(UnaryOp::Plus)),
        Symbol::Minus => Head::Prefixes(PrefixOperator::Unary(UnaryOp::Minus)),
        Symbol::Tilde => Head::Prefixes(PrefixOperator::Unary(UnaryOp::Complement)),
        Symbol::Exclamation => Head::Prefixes(PrefixOperator::Unary(UnaryOp::LogicalNot)),
        Symbol::Sizeof => Head::Measures,
        _ => Head::NoHead,
    }
}

/// How a token goes on with an expression (C11 6.5.2, 6.5.5 to 6.5.17).
pub(crate) fn tail_of(symbol: Symbol) -> Tail
    ensures { result ≡ table.tail_of symbol }
{
    match symbol {
        Symbol::OpenBracket => Tail::Indexes,
        Symbol::OpenParenthesis => Tail::Calls,
        Symbol::Selection(selection) => Tail::Selects(selection),
        Symbol::Step(step) => Tail::Steps(step),
        Symbol::Ampersand => Tail::Joins(InfixOperator::Int(IntOp::And)),
        Symbol::Star => Tail::Joins(InfixOperator::Int(IntOp::Mul)),
        Symbol::Plus => Tail::Joins(InfixOperator::Int(IntOp::Add)),
        Symbol::Minus => Tail::Joins(InfixOperator::Int(IntOp::Sub)),
        Symbol::Infix(operator) => Tail::Joins(operator),
        Symbol::Comma => Tail::Joins(InfixOperator::Comma),
        Symbol::Question => Tail::Asks,
        Symbol::Assignment(operator) => Tail::Assigns(operator),
        _ => Tail::Ends,
    }
}

/// The level of an operator between two operands (C11 6.5.5 to 6.5.14, 6.5.17): 0 is the loosest.
pub(crate) fn infix_level(operator: InfixOperator) -> u32
    ensures level { result ≡ table.infix_level operator }
    ensures small { result ≤ 12 }
{
    match operator {
        InfixOperator::Comma => COMMA,
        InfixOperator::Or => LOGICAL_OR,
        InfixOperator::And => LOGICAL_AND,
        InfixOperator::Int(IntOp::Or) => INCLUSIVE_OR,
        InfixOperator::Int(IntOp::Xor) => EXCLUSIVE_OR,
        InfixOperator::Int(IntOp::And) => AND,
        InfixOperator::Compare(CmpOp::Eq | CmpOp::Ne) => EQUALITY,
        InfixOperator::Compare(CmpOp::Lt | CmpOp::Gt | CmpOp::Le | CmpOp::Ge) => RELATIONAL,
        InfixOperator::Int(IntOp::Shl | IntOp::Shr) => SHIFT,
        InfixOperator::Int(IntOp::Add | IntOp::Sub) => ADDITIVE,
        InfixOperator::Int(IntOp::Mul | IntOp::Div | IntOp::Rem) => MULTIPLICATIVE,
    }
}

/// The level of what stands behind a prefix operator (C11 6.5.3).
pub(crate) fn operand_level(operator: PrefixOperator) -> u32
    ensures { result ≡ table.operand_level operator }
{
    match operator {
        PrefixOperator::Step(_) => UNARY,
        _ => CAST,
    }
}

/// Whether a word is a qualifier (C11 6.7.3).
pub(crate) fn is_qualifier(word: SpecifierWord) -> bool
    ensures { result ≡ table.is_qualifier word }
{
    matches!(
        word,
        SpecifierWord::Const | SpecifierWord::Volatile | SpecifierWord::Restrict
    )
}

/// Whether a word names a type, or a part of one (C11 6.7.2).
pub(crate) fn is_type_word(word: SpecifierWord) -> bool
    ensures { result ≡ table.is_type_word word }
{
    matches!(
        word,
        SpecifierWord::Void
            | SpecifierWord::Char
            | SpecifierWord::Short
            | SpecifierWord::Int
            | SpecifierWord::Long
            | SpecifierWord::Signed
            | SpecifierWord::Unsigned
            | SpecifierWord::Bool
            | SpecifierWord::IntCap
            | SpecifierWord::UintCap
    )
}

/// The level of an expression, by its root.
pub(crate) fn level_of(kind: NodeKind) -> u32
    ensures { result ≡ reading.level_of kind }
{
    match kind {
        NodeKind::Infix(operator) => infix_level(operator),
        NodeKind::Cast => CAST,
        NodeKind::Prefix(_) | NodeKind::SizeofExpression | NodeKind::SizeofType => UNARY,
        NodeKind::Conditional => CONDITIONAL,
        NodeKind::Assignment(_) => ASSIGNMENT,
        _ => POSTFIX,
    }
}

/// Whether a token goes on with a tree of the level `at`, where an expression of the level `level` is read.
pub(crate) fn goes_on(tail: Tail, level: u32, at: u32) -> bool
    ensures { result ≡ reading.goes_on tail level at }
{
    match tail {
        Tail::Joins(operator) => level <= infix_level(operator) && infix_level(operator) <= at,
        Tail::Asks => level <= CONDITIONAL && LOGICAL_OR <= at,
        Tail::Assigns(_) => level <= ASSIGNMENT && UNARY <= at,
        Tail::Ends => false,
        Tail::Indexes | Tail::Calls | Tail::Selects(_) | Tail::Steps(_) => POSTFIX <= at,
    }
}
