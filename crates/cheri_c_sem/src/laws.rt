//! Laws of the meaning of programs.

ghost use Rattle.std.specs.Prelude.{List};
ghost use Rattle.ck_base.specs.World.{World};
ghost use Rattle.c_tree.specs.declared.typed.Typed.{Typed};
ghost use Rattle.c_tree.specs.declared.typed.VarDef.{VarDef};
ghost use Rattle.cheri_c_sem.specs.Operations.{Operations};
ghost use Rattle.cheri_c_sem.specs.Modes.{Store};
ghost use Rattle.cheri_c_sem.specs.Tree.{Fun};
ghost use Rattle.cheri_c_sem.specs.Order.{Ordered};
ghost use Rattle.cheri_c_sem.specs.Unfolding.{TurnsAlone, TreesOfOperands};

/// Calls and loops are bounded by turns alone, in either mode and in every world.
#[tactic(auto, using(crate::proofs::Gathered::turns_alone_law))]
pub fn turns_alone()
    ensures { (ops : Operations Store) (w : World) (funs : List Fun) → TurnsAlone ops w funs }
{}

/// Where operands stand before the node that has them, its tree is made of theirs.
#[tactic(auto, using(crate::proofs::Gathered::trees_of_operands_law))]
pub fn trees_of_operands()
    ensures { (p : Typed) → Ordered p → (vars : List VarDef) → TreesOfOperands p vars }
{}
