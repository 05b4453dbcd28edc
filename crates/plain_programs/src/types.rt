//! Types of functions that take and give no struct or union.

ghost use Rattle.std.specs.Prelude.{◌≡◌, true, false};
ghost use Rattle.c_tree.specs.Passed.{by_pointer};
ghost use Rattle.passing_steps.specs.Numbered.{type_in};
ghost use Rattle.plain_programs.specs.Plain.{NonePointed, TypePlain, TypesPlain};

use c_tree::CType;
use passing_steps::by_pointer;

fn is_none_pointed(types: &[CType], ts: &[u32]) -> bool
    ensures { result ≡ true → NonePointed types.now ts.now }
{
    for t in ts {
        if by_pointer(types, *t) {
            return false;
        }
    }
    true
}

// A function with this result and these parameters.
fn is_function_plain(types: &[CType], gives: u32, params: &[u32]) -> bool
    ensures gives { result ≡ true → by_pointer (type_in types.now gives) ≡ false }
    ensures params { result ≡ true → NonePointed types.now params.now }
{
    if by_pointer(types, gives) {
        return false;
    }
    is_none_pointed(types, params)
}

fn is_type_plain(types: &[CType], c: &CType) -> bool
    ensures { result ≡ true → TypePlain types.now c.now }
{
    match c {
        CType::Function(gives, params) => is_function_plain(types, *gives, params.as_slice()),
        _ => true,
    }
}

/// Whether no function type of a list takes or gives a struct or union.
pub(crate) fn are_types_plain(types: &[CType]) -> bool
    ensures { result ≡ true → TypesPlain types.now }
{
    for c in types {
        if !is_type_plain(types, c) {
            return false;
        }
    }
    true
}
