//! The levels of expressions, from the loosest to the tightest, by the C standard's names (C11 6.5.1 to 6.5.17).

/// Operands with commas between them (C11 6.5.17).
pub const COMMA: u32 = 0;

/// An assignment (C11 6.5.16).
pub const ASSIGNMENT: u32 = 1;

/// A choice by `?` and `:`, as a constant expression may be (C11 6.5.15, 6.6).
pub const CONDITIONAL: u32 = 2;

/// Operands of `||` (C11 6.5.14).
pub const LOGICAL_OR: u32 = 3;

/// Operands of `&&` (C11 6.5.13).
pub const LOGICAL_AND: u32 = 4;

/// Operands of `|` (C11 6.5.12).
pub const INCLUSIVE_OR: u32 = 5;

/// Operands of `^` (C11 6.5.11).
pub const EXCLUSIVE_OR: u32 = 6;

/// Operands of `&` (C11 6.5.10).
pub const AND: u32 = 7;

/// Operands of `==` or `!=` (C11 6.5.9).
pub const EQUALITY: u32 = 8;

/// Operands of `<`, `>`, `<=` or `>=` (C11 6.5.8).
pub const RELATIONAL: u32 = 9;

/// Operands of `<<` or `>>` (C11 6.5.7).
pub const SHIFT: u32 = 10;

/// Operands of `+` or `-` (C11 6.5.6).
pub const ADDITIVE: u32 = 11;

/// Operands of `*`, `/` or `%` (C11 6.5.5).
pub const MULTIPLICATIVE: u32 = 12;

/// A cast (C11 6.5.4).
pub const CAST: u32 = 13;

/// An operator before its operand (C11 6.5.3).
pub const UNARY: u32 = 14;

/// A name, a literal, parentheses, or an operator behind its operand (C11 6.5.1, 6.5.2).
pub const POSTFIX: u32 = 15;
