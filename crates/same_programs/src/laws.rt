//! Laws of programs that stand for one program.

ghost use Rattle.c_tree.specs.Terms.{Program};
ghost use Rattle.c_tree.specs.declared.typed.Typed.{Typed};
ghost use Rattle.c_tree.specs.Views.{Shows, IsOrdered};
ghost use Rattle.c_tree.specs.WellTyped.{WellTyped};
ghost use Rattle.same_programs.specs.Alike.{IsSame};

/// Where two programs stand for one, and one of them is well typed, they have one tree and one count, ask the same of
/// their map and begin alike.
pub fn alike_programs_are_same()
    ensures { (p r : Typed) (q : Program) → WellTyped p → IsOrdered r → Shows p q → Shows r q → IsSame p r }
{}
