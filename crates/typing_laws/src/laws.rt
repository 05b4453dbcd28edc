//! What holds of every typed program.

ghost use Rattle.c_tree.specs.Typing.{Sound};
ghost use Rattle.c_tree.specs.WellTyped.{WellTyped};

use c_tree::Typed;

/// What typing gives of a file is well typed (C11 6.5 to 6.9): the types of its expressions agree, its objects begin
/// with what fits them, its functions fit their types, and it has a `main` that takes nothing and gives an `int` (C11
/// 5.1.2.2.1).
pub fn sound_programs_fit()
    ensures well_typed { (p : Typed) → Sound p → WellTyped p }
{}
