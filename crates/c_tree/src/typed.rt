//! A program whose types are known. Types, globals, literals, functions, expressions and statements stand in lists, and
//! name each other by their numbers there, counted from 0.

use ck_base::{Pos, Sequence, Span};
use ck_int::{CmpOp, IntKind, IntOp};

/// A type (C11 6.2.5). A number without another word is that of a type.
#[derive(Debug, Drop)]
pub enum CType {
    Void,
    /// An integer type. The number tells types of one kind apart: it is 1 for `unsigned char`, `long long` and
    /// `unsigned long long`, and otherwise 0.
    Int(IntKind, u8),
    /// A capability integer: `__intcap_t` where it is signed, else `__uintcap_t`.
    Cap(bool),
    Pointer(u32),
    /// The element and how many there are. An array of 0 elements is one whose length is not known.
    Array(u32, u64),
    /// A struct: the number of its tag, and its members in order.
    Struct(u32, Sequence<Member>),
    /// A union: the number of its tag, and its members in order.
    Union(u32, Sequence<Member>),
    /// What it gives, and its parameters in order.
    Function(u32, Sequence<u32>),
    Const(u32),
    /// A struct or union that is not completed: the number of its tag.
    Incomplete(u32),
}

/// A member of a struct or union (C11 6.7.2.1).
#[derive(Clone, Copy, Debug, PartialEq, Eq)]
pub struct Member {
    pub name: Span,
    /// Its type.
    pub of: u32,
}

/// What the initial pointer of a global points to.
#[derive(Clone, Copy, Debug, PartialEq, Eq)]
pub enum Target {
    Global(u32),
    Literal(u32),
    Fun(u32),
}

/// A pointer with which a global begins.
#[derive(Clone, Copy, Debug, PartialEq, Eq)]
pub struct Link {
    /// Its place in the global, in bytes.
    pub at: u64,
    pub target: Target,
    /// Where its bounds begin in the target, in bytes.
    pub low: u64,
    /// The length of its bounds, in bytes.
    pub length: u64,
    /// Its address, in bytes from the target's base.
    pub offset: i64,
}

/// An object of static storage duration: a global, or a local that is `static`.
#[derive(Debug, Drop)]
pub struct GlobalDef {
    pub name: Span,
    pub pos: Pos,
    /// Its type.
    pub of: u32,
    /// Its initial bytes; those behind the last are zero. A link's bytes are zero.
    pub bytes: Sequence<u8>,
    pub links: Sequence<Link>,
}

/// The array that a string literal names (C11 6.4.5), its last zero included.
#[derive(Debug, Drop)]
pub struct Literal {
    pub pos: Pos,
    pub bytes: Sequence<u8>,
}

/// A parameter, or a local that is not `static`.
#[derive(Clone, Copy, Debug, PartialEq, Eq)]
pub struct VarDef {
    pub name: Span,
    pub pos: Pos,
    /// Its type.
    pub of: u32,
    /// It has a scalar type and its address is never taken: it holds a value and is no object.
    pub simple: bool,
}

/// A function with its body (C11 6.9.1).
#[derive(Debug, Drop)]
pub struct FunDef {
    pub name: Span,
    pub pos: Pos,
    /// Its type.
    pub of: u32,
    /// The parameters' numbers among the variables, in order.
    pub params: Sequence<u32>,
    /// The parameters; behind them, in a program as it is run, the locals to which structs and unions that came by a
    /// pointer are copied; then the other locals, in the order of their declarations, and last, as it is run, those that
    /// hold the structs and unions that calls result in.
    pub vars: Sequence<VarDef>,
    /// The statement that is its body.
    pub body: u32,
}

/// The unary operations on integers (C11 6.5.3.3).
#[derive(Clone, Copy, Debug, PartialEq, Eq)]
pub enum UnaryOp {
    Plus,
    Minus,
    Complement,
    LogicalNot,
}

/// An expression. Numbers without another word are those of its operands, in the order of the source.
#[derive(Debug, Drop)]
pub enum ExprKind {
    /// An integer in the 64 bits of its extension, or a null capability with this address.
    Constant(u64),
    /// The place of a literal, by its number.
    Literal(u32),
    /// The place of a variable of the function, by its number.
    Var(u32),
    /// The place of a global, by its number.
    Global(u32),
    /// A function, by its number.
    Fun(u32),
    /// The value at a place.
    Load(u32),
    /// An array or a function as a pointer (C11 6.3.2.1).
    Decay(u32),
    /// The place to which a pointer points.
    Deref(u32),
    /// A place, and the number of its member.
    Member(u32, u32),
    /// The address of a place or function.
    Address(u32),
    /// A conversion to the expression's type, written or implied.
    Convert(u32),
    Unary(UnaryOp, u32),
    /// An operation on integers of one type, or a shift.
    Int(IntOp, u32, u32),
    /// An operation on capability integers. The result derives from the right operand where the truth value says so,
    /// else from the left one.
    Capability(IntOp, u32, u32, bool),
    /// A pointer and an integer, in the order of the source; the truth value says that the integer is taken from the
    /// pointer.
    Plus(u32, u32, bool),
    /// The difference of two pointers.
    Difference(u32, u32),
    Compare(CmpOp, u32, u32),
    And(u32, u32),
    Or(u32, u32),
    Conditional(u32, u32, u32),
    Comma(u32, u32),
    /// A place and the value that it gets.
    Assign(u32, u32),
    /// An operation, a place, a right operand, and the number of the type in which the result is computed.
    Compound(IntOp, u32, u32, u32),
    /// A place that is moved by one: up where the first truth value says so, else down; the expression has the new
    /// value where the second says that the operator stands in front, else the old one.
    Step(u32, bool, bool),
    /// What is called, and the arguments.
    Call(u32, Sequence<u32>),
    /// A library function or intrinsic, by its number, and the arguments.
    Library(u8, Sequence<u32>),
}

/// An expression with its type and position. A place has the type of what stands there.
#[derive(Debug, Drop)]
pub struct Expr {
    pub kind: ExprKind,
    pub of: u32,
    pub pos: Pos,
}

/// A label of a `switch`.
#[derive(Clone, Copy, Debug, PartialEq, Eq)]
pub struct SwitchLabel {
    /// The value of a `case`, converted to the promoted type of what the `switch` is on; `default` has none.
    pub value: Option<u64>,
    /// How many statements of the body stand before it.
    pub before: u32,
}

/// A statement (C11 6.8). Expressions and statements are named by their numbers, variables by theirs in the function.
#[derive(Debug, Drop)]
pub enum StmtKind {
    Expr(u32),
    /// The initialisation of a scalar of a local, or of a struct or union from a value, at an offset in bytes.
    Init {
        var: u32,
        offset: u64,
        value: u32,
    },
    /// A block: the variables that it declares, and its statements.
    Block {
        vars: Sequence<u32>,
        body: Sequence<u32>,
    },
    /// A condition and its two branches.
    If(u32, u32, Option<u32>),
    /// A test and a body.
    While(u32, u32),
    /// A body and a test.
    Do(u32, u32),
    /// The variables that it declares, and the statements before the first test.
    For {
        vars: Sequence<u32>,
        first: Sequence<u32>,
        test: Option<u32>,
        step: Option<u32>,
        body: u32,
    },
    Switch {
        on: u32,
        vars: Sequence<u32>,
        labels: Sequence<SwitchLabel>,
        body: Sequence<u32>,
    },
    Break,
    Continue,
    Return(Option<u32>),
    Empty,
}

/// A statement with its position.
#[derive(Debug, Drop)]
pub struct Stmt {
    pub kind: StmtKind,
    pub pos: Pos,
}

/// A program whose types are known.
#[derive(Debug, Drop)]
pub struct Typed {
    pub types: Sequence<CType>,
    pub globals: Sequence<GlobalDef>,
    pub literals: Sequence<Literal>,
    pub funs: Sequence<FunDef>,
    pub exprs: Sequence<Expr>,
    pub stmts: Sequence<Stmt>,
    /// The number of the function `main` (C11 5.1.2.2.1).
    pub main: u32,
}
