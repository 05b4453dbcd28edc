//! What names denote, and what is declared.

use ck_base::{Pos, Span};

/// The kinds of tags (C11 6.7.2.3).
#[derive(Clone, Copy, PartialEq, Eq)]
pub enum TagKind {
    Struct,
    Union,
    Enum,
}

/// What a declaration is of.
#[derive(Clone, Copy)]
pub enum DeclKind {
    Object,
    Fun,
    Typedef,
    /// An enumeration constant and its value.
    Constant(i32),
    Tag(TagKind),
}

/// Storage-class specifiers, as far as they have an effect (C11 6.7.1).
#[derive(Clone, Copy)]
pub enum Storage {
    Plain,
    Static,
    Extern,
    Typedef,
}

/// The rules that the type of a declarator breaks by itself.
#[derive(Clone, Copy)]
pub struct Faults {
    /// An array has elements of a type that is not complete.
    pub lacks: bool,
    /// An array has functions as elements; or a function gives an array, a function, a struct or a union; or a function
    /// definition has no parameters of its own.
    pub misfits: bool,
    /// An array has more than 67,108,864 bytes.
    pub too_large: bool,
}

/// A declaration of one name.
#[derive(Clone, Copy)]
pub struct Decl {
    pub name: Span,
    pub pos: Pos,
    /// The number of its type. It says nothing of an enumeration constant and of a tag.
    pub of: u32,
    pub faults: Faults,
    pub what: DeclKind,
    pub storage: Storage,
    /// An initialiser, a body or braces stand with the name.
    pub defines: bool,
}

/// What a name denotes.
#[derive(Clone, Copy, PartialEq, Eq)]
pub enum Entry {
    /// A parameter or another local of the function, by its number there.
    Var(u32),
    Global(u32),
    Fun(u32),
    /// The number of the type.
    Typedef(u32),
    Constant(i32),
    /// A tag: the number of its type, which is that of `int` for an enumeration.
    Tag(u32, TagKind),
    /// A library function or an intrinsic.
    Library(u8),
}

/// What an ordinary name denotes, with its type where that stands nowhere else.
#[derive(Clone, Copy)]
pub enum Entity {
    /// A parameter or another local: its number in the function, and that of its type.
    Local(u32, u32),
    /// A global, by its number.
    Static(u32),
    /// A function, by its number.
    Routine(u32),
    /// A typedef name: the number of the type.
    Alias(u32),
    /// An enumeration constant.
    Enumerator(i32),
    /// A library function or an intrinsic, and the number of its type, if it has one.
    Library(u8, Option<u32>),
}

/// What a tag denotes.
#[derive(Clone, Copy)]
pub enum Tagging {
    /// A struct or union: the number of its tag.
    Recorded(u32),
    Enumerated,
}
