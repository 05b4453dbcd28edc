//! What elaboration has built so far.

use c_expressions::Nodes;
use c_tree::{NodeKind, Target, Tree, VarDef};
use ck_base::{Pos, Span};

/// A name as it stands in the file.
#[derive(Clone, Copy)]
pub struct Name {
    pub span: Span,
    pub pos: Pos,
}

/// A node of the tree.
#[derive(Clone, Copy)]
pub struct Part<'a> {
    pub kind: NodeKind,
    /// Its own token.
    pub name: Name,
    /// The place of the first token of the whole construct.
    pub first: Pos,
    /// The numbers of its parts, in the order of the file.
    pub kids: &'a [u32],
}

/// What an expression names.
#[derive(Clone, Copy)]
pub enum Used {
    /// An object of static storage duration, by its number.
    Object(u32),
    /// A function, by its number.
    Function(u32),
}

/// A use, and its place (C11 6.9p3).
#[derive(Clone, Copy)]
pub struct Use {
    pub what: Used,
    pub pos: Pos,
}

/// The bounds of an initial pointer.
#[derive(Clone, Copy)]
pub enum Bounds {
    /// Those of all that it points to.
    Whole,
    /// Those of a part: where it begins and how many bytes it has.
    Part(u128, u64),
}

/// A pointer with which an object begins.
#[derive(Clone, Copy)]
pub struct Start {
    /// Its place in the object, in bytes.
    pub at: u64,
    pub target: Target,
    pub bounds: Bounds,
    /// Its address, in bytes from the beginning of what it points to.
    pub offset: i128,
}

/// The initial value of an object of static storage duration (C11 6.7.9).
#[derive(Drop)]
pub struct Filling {
    /// The object's number.
    pub object: u32,
    /// Its first bytes; those behind them are zero.
    pub bytes: Vec<u8>,
    pub starts: Vec<Start>,
}

/// The definition of a function (C11 6.9.1).
#[derive(Drop)]
pub struct Definition {
    /// The function's number.
    pub function: u32,
    /// The parameters' numbers among the variables.
    pub params: Vec<u32>,
    pub vars: Vec<VarDef>,
    /// The number of its body among the statements.
    pub body: u32,
}

/// An initial pointer into an array whose length is not known yet.
#[derive(Clone, Copy)]
pub struct Waiting {
    pub pos: Pos,
    /// The array's number among the objects of static storage duration.
    pub object: u32,
    /// The least length in bytes with which the initialiser is accepted.
    pub least: i128,
}

/// What elaboration has built so far.
#[derive(Drop)]
pub struct Work<'a> {
    /// The types, expressions and statements, and the scopes in force.
    pub nodes: Nodes<'a>,
    pub file: &'a [u8],
    pub tree: &'a Tree,
    /// The uses of objects of static storage duration and of functions, in the order of the file.
    pub uses: Vec<Use>,
    /// The locals of the function at work whose address was taken.
    pub addressed: Vec<u32>,
    pub fillings: Vec<Filling>,
    pub definitions: Vec<Definition>,
    pub waiting: Vec<Waiting>,
    /// How many scalars the lists and strings have that initialised locals so far.
    pub scalars: u64,
}
