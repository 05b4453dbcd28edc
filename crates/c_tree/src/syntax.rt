//! A C file as it is written: what its tokens are to the grammar, and the tree that they make (C11 6.5 to 6.9). The
//! nodes of a tree stand in a list, and name each other by their numbers there, counted from 0.

use crate::typed::UnaryOp;
use ck_base::{Pos, Sequence, Span};
use ck_int::{CmpOp, IntOp};

/// A word that may stand among the specifiers of a declaration (C11 6.7.1 to 6.7.4).
#[derive(Clone, Copy, Debug, PartialEq, Eq)]
pub enum SpecifierWord {
    Typedef,
    Static,
    Extern,
    Auto,
    Register,
    Inline,
    Const,
    Volatile,
    Restrict,
    Void,
    Char,
    Short,
    Int,
    Long,
    Signed,
    Unsigned,
    Bool,
    /// `__intcap_t`.
    IntCap,
    /// `__uintcap_t`.
    UintCap,
}

/// The kinds of types with members (C11 6.7.2.1).
#[derive(Clone, Copy, Debug, PartialEq, Eq)]
pub enum RecordKind {
    Struct,
    Union,
}

/// The operators between two operands of which both or the left one are read first (C11 6.5.5 to 6.5.14, 6.5.17).
#[derive(Clone, Copy, Debug, PartialEq, Eq)]
pub enum InfixOperator {
    /// `* / % + - << >> & ^ |`.
    Int(IntOp),
    /// `< <= > >= == !=`.
    Compare(CmpOp),
    /// `&&`.
    And,
    /// `||`.
    Or,
    /// `,`.
    Comma,
}

/// What moves a place by one (C11 6.5.2.4, 6.5.3.1).
#[derive(Clone, Copy, Debug, PartialEq, Eq)]
pub enum StepOperator {
    /// `++`.
    Increment,
    /// `--`.
    Decrement,
}

/// The operators in front of one operand, other than `sizeof` (C11 6.5.3).
#[derive(Clone, Copy, Debug, PartialEq, Eq)]
pub enum PrefixOperator {
    Step(StepOperator),
    /// `&`.
    Address,
    /// `*`.
    Indirection,
    /// `+ - ~ !`.
    Unary(UnaryOp),
}

/// How a member is named (C11 6.5.2.3).
#[derive(Clone, Copy, Debug, PartialEq, Eq)]
pub enum Selection {
    /// `.`, from a struct or union.
    Direct,
    /// `->`, from a pointer to one.
    Indirect,
}

/// What a token is to the grammar.
#[derive(Clone, Copy, Debug, PartialEq, Eq)]
pub enum Symbol {
    /// A word that is no keyword.
    Word,
    Number,
    Character,
    Text,
    OpenParenthesis,
    CloseParenthesis,
    OpenBracket,
    CloseBracket,
    OpenBrace,
    CloseBrace,
    Selection(Selection),
    Step(StepOperator),
    Ampersand,
    Star,
    Plus,
    Minus,
    Tilde,
    Exclamation,
    /// An operator that stands between operands only.
    Infix(InfixOperator),
    Question,
    Colon,
    Semicolon,
    Comma,
    /// `=`, or an operator and `=`.
    Assignment(Option<IntOp>),
    Specifier(SpecifierWord),
    Record(RecordKind),
    Enum,
    Sizeof,
    If,
    Else,
    While,
    Do,
    For,
    Switch,
    Case,
    Default,
    Break,
    Continue,
    Return,
    /// No token of the language.
    Other,
}

/// How a token begins an expression.
#[derive(Clone, Copy, Debug, PartialEq, Eq)]
pub enum Head {
    Name,
    Number,
    Character,
    Text,
    /// `(`, of a cast or of an expression in parentheses.
    Opens,
    Prefixes(PrefixOperator),
    Measures,
    /// It begins none.
    NoHead,
}

/// How a token goes on with an expression that stands before it.
#[derive(Clone, Copy, Debug, PartialEq, Eq)]
pub enum Tail {
    Indexes,
    Calls,
    Selects(Selection),
    Steps(StepOperator),
    Joins(InfixOperator),
    /// `?`.
    Asks,
    Assigns(Option<IntOp>),
    /// It goes on with none.
    Ends,
}

/// The productions of the grammar. A node's parts are named in their order.
#[derive(Clone, Copy, Debug, PartialEq, Eq)]
pub enum NodeKind {
    /// A translation unit: external declarations, any number (C11 6.9).
    File,
    /// Specifiers, a declarator, and a block (C11 6.9.1).
    FunctionDefinition,
    /// A `;` alone between external declarations.
    EmptyExternal,
    /// Specifiers, and then declarators with their initializers, any number (C11 6.7).
    Declaration,
    /// A declarator, and an initializer if there is one (C11 6.7).
    InitDeclarator,
    /// Initializers in braces, any number (C11 6.7.9).
    BracedInitializer,
    /// Specifiers and qualifiers, at least one (C11 6.7.1 to 6.7.4).
    Specifiers,
    /// A specifier or qualifier of one word.
    Specifier(SpecifierWord),
    /// A typedef name among specifiers (C11 6.7.8).
    TypedefName,
    /// A tag if there is one, and members, at least one unless there is a tag (C11 6.7.2.1).
    Record(RecordKind),
    /// A tag if there is one, and enumerators, at least one unless there is a tag (C11 6.7.2.2).
    Enum,
    /// The name of a struct, a union or an enumeration (C11 6.7.2.3).
    Tag,
    /// Specifiers, and then declarators, at least one (C11 6.7.2.1).
    Member,
    /// The expression of its value, if there is one (C11 6.7.2.2).
    Enumerator,
    /// The qualifiers, and the declarator behind them unless that is empty (C11 6.7.6.1).
    Pointer,
    /// The qualifiers behind a `*`, any number.
    Qualifiers,
    /// The declarator before `[`, unless that is empty. There is no length (C11 6.7.6.2).
    OpenArray,
    /// The declarator before `[`, unless that is empty, and the length (C11 6.7.6.2).
    Array,
    /// The declarator before `(`, unless that is empty, and the parameters (C11 6.7.6.3).
    Function,
    /// The declarator in the parentheses (C11 6.7.6).
    ParenthesizedDeclarator,
    /// The name that a declarator declares (C11 6.7.6).
    DeclaredName,
    /// The parameters between `(` and `)`, any number (C11 6.7.6.3).
    Parameters,
    /// Specifiers, and the declarator unless that is empty (C11 6.7.6.3).
    Parameter,
    /// Specifiers, and the declarator unless that is empty (C11 6.7.7).
    TypeName,
    /// Declarations and statements in braces, any number (C11 6.8.2).
    Block,
    /// A `;` that is a statement (C11 6.8.3).
    EmptyStatement,
    /// An expression (C11 6.8.3).
    ExpressionStatement,
    /// A condition and a statement (C11 6.8.4.1).
    If,
    /// A condition, the statement for a true one, and the one for a false one (C11 6.8.4.1).
    IfElse,
    /// A condition and a statement (C11 6.8.5.1).
    While,
    /// A statement and a condition (C11 6.8.5.2).
    Do,
    /// A declaration, an expression or `Absent`; a condition or `Absent`; an expression or `Absent`; and a statement
    /// (C11 6.8.5.3).
    For,
    /// An expression, and what stands in the braces: labels, declarations and statements, any number (C11 6.8.4.2).
    Switch,
    /// The expression of its value (C11 6.8.1).
    Case,
    /// The label `default` (C11 6.8.1).
    Default,
    Break,
    Continue,
    /// An expression, if there is one (C11 6.8.6.4).
    Return,
    /// An expression that a `for` does without.
    Absent,
    /// A name that is an expression (C11 6.5.1).
    Name,
    Number,
    Character,
    /// A string literal. Those that follow it directly are its parts (C11 6.4.5, 5.1.1.2).
    Text,
    /// An expression (C11 6.5.1).
    Parenthesized,
    /// What is indexed, and the index (C11 6.5.2.1).
    Index,
    /// What is called, and the arguments, any number (C11 6.5.2.2).
    Call,
    /// A struct, a union or a pointer, and a `MemberName` (C11 6.5.2.3).
    Select(Selection),
    /// The name behind `.` or `->`.
    MemberName,
    /// The operand of a step that stands behind it (C11 6.5.2.4).
    Postfix(StepOperator),
    /// The operand (C11 6.5.3).
    Prefix(PrefixOperator),
    /// The operand of `sizeof` (C11 6.5.3.4).
    SizeofExpression,
    /// The type name of `sizeof` (C11 6.5.3.4).
    SizeofType,
    /// A type name and the operand (C11 6.5.4).
    Cast,
    /// Two operands (C11 6.5.5 to 6.5.14, 6.5.17).
    Infix(InfixOperator),
    /// A condition and two operands (C11 6.5.15).
    Conditional,
    /// Two operands of `=`, or of an operator and `=` (C11 6.5.16).
    Assignment(Option<IntOp>),
}

/// A node of a tree.
#[derive(Debug, Drop)]
pub struct Node {
    pub kind: NodeKind,
    /// The place of its own token: its operator, its word, its name or its opening bracket. Where it has none, it is
    /// that of its first token.
    pub pos: Pos,
    /// The place of the first token of the whole construct.
    pub first: Pos,
    /// The numbers of its parts, in the order of the file.
    pub kids: Sequence<u32>,
    /// The bytes of the token at `pos`.
    pub text: Span,
}

/// The tree of a file.
#[derive(Debug, Drop)]
pub struct Tree {
    pub nodes: Sequence<Node>,
    /// The number of the node that is the whole file.
    pub root: u32,
}
