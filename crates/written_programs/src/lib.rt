//! Programs can be written: numbered lists show each program whose nodes have the operands of their shapes.
//!
//! Promises: for such a program there is a typed program that shows it and is in order (`programs_are_written`); the
//! nodes of what typing gives have the operands of their shapes (`typed_programs_are_whole`), and its types name
//! structs and unions that are there (`typed_types_have_tags`). Nothing runs here: the lists are made from the trees,
//! each type, expression and statement behind what it names.
//! Definitions (`specs/`): `Writable`.
//! Main lemmas (`proofs/`): `Types`, `Expressions` and `Statements` write one list each; `Written` joins them; `Whole`
//! and `Tagged` go along what typing gives.
#![tactic(auto)]

ghost use Rattle.std.specs.Prelude.{◌≡◌, Ok, length};
ghost use Rattle.c_tree.specs.Syntax.{Syn};
ghost use Rattle.c_tree.specs.Terms.{Program};
ghost use Rattle.c_tree.specs.Programs.{typing};
ghost use Rattle.c_tree.specs.Views.{Shows, IsOrdered};
ghost use Rattle.typing_laws.specs.Fitting.{IsFit};
ghost use Rattle.written_programs.specs.Writable.{Every, TagsBelow, program_types, IsWholeRoutine, IsWritable};

use c_tree::Typed;

/// A program whose nodes have the operands and the parts of their shapes, and whose types name tags that are there,
/// stands in lists: a typed program shows it, each number names what stands before, and each expression and each
/// statement is used once.
pub fn programs_are_written()
    ensures written { (q : Program) → IsWritable q → (p : Typed) × Shows p q × IsOrdered p }
{}

/// The nodes of what typing gives have the operands and the parts of their shapes.
pub fn typed_programs_are_whole()
    ensures whole { (x : Syn) (q : Program) → IsFit x → typing x ≡ Ok q → Every IsWholeRoutine q.routines }
{}

/// The types that what typing gives names are made of structs and unions that are there.
pub fn typed_types_have_tags()
    ensures tags { (x : Syn) (q : Program) → IsFit x → typing x ≡ Ok q →
        Every (TagsBelow (length q.tags)) (program_types q) }
{}
