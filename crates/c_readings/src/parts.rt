//! What two or three parts of an expression are typed to.

use c_expressions::Operand;

/// Two operands.
#[derive(Clone, Copy)]
pub struct Pair {
    pub left: Operand,
    pub right: Operand,
}

/// Three operands.
#[derive(Clone, Copy)]
pub struct Triple {
    pub first: Operand,
    pub pair: Pair,
}

/// A type's number and an operand.
#[derive(Clone, Copy)]
pub struct Casting {
    pub of: u32,
    pub operand: Operand,
}
