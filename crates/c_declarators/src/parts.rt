//! What specifiers, parameters and declarators are once their parts are typed (C11 6.7).

use c_elaborator::Name;
use c_types::{Faults, Scope, Storage};
use ck_base::Pos;

/// Declaration specifiers (C11 6.7.1 to 6.7.3).
#[derive(Clone, Copy)]
pub struct Specified {
    /// The place of the first of them.
    pub first: Pos,
    /// A word for storage other than `register` stands among them.
    pub stored: bool,
    pub storage: Storage,
    /// The number of the type.
    pub of: u32,
}

/// A parameter (C11 6.7.6.3).
#[derive(Clone, Copy)]
pub struct Param {
    pub name: Option<Name>,
    /// The token that gives its place.
    pub at: Name,
    /// The number of its type, adjusted.
    pub of: u32,
    /// It is `void` alone, without a name: there are no parameters.
    pub nothing: bool,
}

/// The parameters of a function declarator, and what their scope declares.
#[derive(Drop)]
pub struct Prototype<'a> {
    pub params: Vec<Param>,
    pub scope: Scope<'a>,
}

/// What a part of a declarator makes of a type (C11 6.7.6).
#[derive(Drop)]
pub enum Wrap<'a> {
    /// A pointer to it, perhaps qualified.
    Point(bool),
    /// An array of so many, none where that is not known.
    Row(u64),
    /// A function that gives it.
    Gives(Prototype<'a>),
}

/// A declarator.
#[derive(Drop)]
pub struct Derived<'a> {
    pub name: Option<Name>,
    /// What is made of the type of the specifiers, the last of these first.
    pub wraps: Vec<Wrap<'a>>,
}

/// The type that a declarator makes, and the rules that it breaks.
#[derive(Clone, Copy)]
pub struct Formed {
    /// The number of the type.
    pub of: u32,
    pub faults: Faults,
}
