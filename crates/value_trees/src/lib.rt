//! Where values and places stand in the trees of a typed program.
//!
//! Promise, of every sound program: the tree of an expression that is a value is a value, or a place where it is a
//! struct or union, and that of a place is a place (`trees_are_values`); the trees of functions' bodies do what the
//! lowering asks of statements (`bodies_do`); each expression is in a function, where it fits (`expressions_are_used`);
//! what is read or written has its own position (`places_have_positions`); and what the lowering asks of nodes and
//! types besides (`nodes_fit`, `types_agree`, `types_are_small`).
//! Definitions (`specs/`): `Standing`, `Nodes`, `Statements`, `Types`.
//! Main lemmas (`proofs/`): `Nodes`, an expression by its operands and a statement by its parts; `Values`, the types of
//! values; `Sorts`, `Records` and `Sizes`, of types by their numbers and as trees; `Standing`, by induction on the
//! numbers of expressions; `Uses`, from the bodies of functions down; `Places`; `Blocks`, the variables that blocks
//! declare; `Held`, the variables that a tree names; `Statements`, by induction on the numbers of statements;
//! `Fitting`; `Limits`.
#![tactic(auto)]

ghost use Rattle.c_tree.specs.Typing.{Sound};
ghost use Rattle.value_trees.specs.Nodes.{ArePlaced, AreUsed, NodesFit};
ghost use Rattle.value_trees.specs.Standing.{TreesStand};
ghost use Rattle.value_trees.specs.Statements.{BodiesDo};
ghost use Rattle.value_trees.specs.Types.{AreSmall, TypesAgree};

use c_tree::Typed;

/// The trees of a typed program are values and places as its expressions are.
pub fn trees_are_values()
    ensures stand { (p : Typed) → Sound p → TreesStand p }
{}

/// Each expression is in a function's body: it fits there, and is a value or a place.
pub fn expressions_are_used()
    ensures used { (p : Typed) → Sound p → AreUsed p }
{}

/// The tree of what is read or written has the position of its own node.
pub fn places_have_positions()
    ensures placed { (p : Typed) → Sound p → ArePlaced p }
{}

/// Each function's body does what the lowering asks: its values, places and jumps stand where they may, its blocks
/// declare variables of their own, and the labels of its switches differ.
pub fn bodies_do()
    ensures done { (p : Typed) → Sound p → BodiesDo p }
{}

/// Types that differ by `const` alone have one size, and are structs or unions alike.
pub fn types_agree()
    ensures agree { (p : Typed) → Sound p → TypesAgree p }
{}

/// What calls take is scalar, what variables begin with a scalar, a struct or a union, and a variable that stands for a
/// struct or union is an object.
pub fn nodes_fit()
    ensures fit { (p : Typed) → Sound p → NodesFit p }
{}

/// No expression has a type larger than an object may be, nor has a member that is taken.
pub fn types_are_small()
    ensures small { (p : Typed) → Sound p → AreSmall p }
{}
