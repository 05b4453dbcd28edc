//! What holds of the form of lowered code.

ghost use Rattle.lower_forms.specs.Laws.{CallsAreShort, CodeHasForm, CodeIsMade, CodeIsNamed, CopiesAreCounted};
ghost use Rattle.lower_forms.specs.Laws.{MainGivesInt, ObjectsBecomeZero, ParametersAreTaken};

/// Well formed code names temps, locals, globals, literals and functions that are there.
pub fn code_is_named()
    ensures named { CodeIsNamed }
{}

/// The first temps of a function in well formed code are of the kinds of its type's parameters.
pub fn parameters_are_taken()
    ensures taken { ParametersAreTaken }
{}

/// `main` takes nothing and gives an `int` (C11 5.1.2.2.1).
pub fn main_gives_int()
    ensures gives { MainGivesInt }
{}

/// Lowered code has operations at promoted kinds, but for steps of narrow variables, and copies no larger than an
/// object may be.
pub fn code_is_made()
    ensures made { CodeIsMade }
{}

/// A copy has units of some length, and not too many.
pub fn copies_are_counted()
    ensures counted { CopiesAreCounted }
{}

/// Code within its program calls with few arguments.
pub fn calls_are_short()
    ensures short { CallsAreShort }
{}

/// In the code of a function of a sound program each of its objects becomes zero, wherever it is declared.
pub fn objects_become_zero()
    ensures zero { ObjectsBecomeZero }
{}

/// Lowered code has all of this.
pub fn code_has_form()
    ensures form { CodeHasForm }
{}
