//! Where lowered code writes its temps.
//!
//! Promise: well formed code that stands for a sound program, as `lower_runs` says it, writes each temp before it
//! reads it, on every way through a function, but those of its arguments (`code_writes_first`). For its trees name
//! parameters, or variables of the blocks around (`bodies_name_declared`, `named_code_writes_first`).
//! Definitions (`specs/`): `Naming`, where trees name variables; `Laws`.
//! Main lemmas (`proofs/`): `Waiting`, which temps code awaits, told by how often it goes back; `Straight`, code of
//! operations; `Pieces` and `Expressions`, of expressions, by induction on how it is made; `Parts`, `Loops`, `Blocks`,
//! `Switches` and `Statements`, of statements; `Functions`; `Scopes`, from the names in scope to those of trees.
#![tactic(auto)]

ghost use Rattle.c_tree.specs.Typing.{Sound};
ghost use Rattle.lower_writes.specs.Laws.{NamedCodeWrites, SoundCodeWrites};
ghost use Rattle.lower_writes.specs.Naming.{BodiesName};

use c_tree::Typed;

/// Code of trees that name variables where these are declared writes each temp before it reads it.
pub fn named_code_writes_first()
    ensures written { NamedCodeWrites }
{}

/// The bodies of a sound program's functions name their parameters, or variables of the blocks around (C11 6.2.1).
pub fn bodies_name_declared()
    ensures named { (p : Typed) → Sound p → BodiesName p }
{}

/// The code of a sound program writes each temp before it reads it, but those of arguments.
pub fn code_writes_first()
    ensures written { SoundCodeWrites }
{}
