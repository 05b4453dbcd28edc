//! Where the variables of a typed program are named.
//!
//! Promise: every typed program names a variable only inside the block that declares it, or a parameter
//! (`variables_stand_in_scope`). Where in the block its declaration stands is not said.
//! Definitions (`specs/`): `Scoping`.
//! Main lemmas (`proofs/`): `Stepping`, how a step of typing keeps the names in scope; `Expressions`, `Declared`,
//! `Stated` and `Files` along typing; `Passing`, of the program as it is run, with structs and unions by pointers;
//! `Whole`.
ghost use Rattle.c_tree.specs.Typing.{Sound};
ghost use Rattle.typing_laws.specs.Scoping.{AreScoped};

use c_tree::Typed;

/// An expression or an initialisation names a parameter, or a variable of a block around it (C11 6.2.1).
pub fn variables_stand_in_scope()
    ensures scoped { (p : Typed) → Sound p → AreScoped p }
{}
