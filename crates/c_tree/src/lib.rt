//! The trees of a C program: as it is written, and with its types known; and the rules between them (C11 6.5 to 6.9).
//!
//! Promise: `weight` is the sum over a program's nodes; a tree is typed in one way, or refused by one rule.
//! Definitions (`specs/`): `Parses` (grammar), `Typing`, `File` (as it is read; its room), `WellTyped`, `Weight`.
//! Main lemmas (`proofs/`): `OneAnswer`, `Weighed`.
#![tactic(auto)]

mod syntax;
mod typed;
mod weighing;

pub use syntax::{
    Head, InfixOperator, Node, NodeKind, PrefixOperator, RecordKind, Selection, SpecifierWord,
    StepOperator, Symbol, Tail, Tree,
};
pub use typed::{
    CType, Expr, ExprKind, FunDef, GlobalDef, Link, Literal, Member, Stmt, StmtKind, SwitchLabel,
    Target, Typed, UnaryOp, VarDef,
};
pub use weighing::{expr_weight, fun_weight, stmt_weight, weight};
