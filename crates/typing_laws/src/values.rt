//! Where the values and the places of a typed program stand.
//!
//! Promise: in every typed program a value stands where a value is asked for, and a place where a place is asked for
//! (`values_stand_where_asked`); as it is run, calls take scalars and give one or nothing, a compound assignment
//! to an integer is computed in a promoted type, and the labels of a `switch` differ. A parameter's type is adjusted
//! (`parameters_are_adjusted`).
//! Definitions (`specs/`): `Valued`.
//! Main lemmas (`proofs/`): `Made`, what typing sees to while it makes expressions; `Stepping`, `Expressions`,
//! `Declared`, `Stated` and `Files` along typing; `Sorts`, what follows with the types; `Passing`, of the program as it
//! is run, with structs and unions by pointers; `Whole`.
ghost use Rattle.c_tree.specs.Typing.{Sound};
ghost use Rattle.typing_laws.specs.Valued.{AreValues, ParametersFit};

use c_tree::Typed;

/// Each expression is a value, or a place, where it is asked for (C11 6.3.2.1), no two labels of a `switch` are alike
/// (6.8.4.2), and a `for` begins with no jump (6.8.5).
pub fn values_stand_where_asked()
    ensures valued { (p : Typed) → Sound p → AreValues p }
{}

/// A parameter is of no array and no function type: its type is adjusted (C11 6.7.6.3).
pub fn parameters_are_adjusted()
    ensures adjusted { (p : Typed) → Sound p → ParametersFit p }
{}
