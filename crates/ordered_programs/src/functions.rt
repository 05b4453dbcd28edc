//! Functions whose bodies are there.

ghost use Rattle.std.specs.Prelude.{◌≡◌, ◌∷◌, [], true};
ghost use Rattle.ordered_programs.specs.Uses.{Marks};
ghost use Rattle.ordered_programs.specs.Ordered.{FunctionTyped, FunctionsOrdered};

use crate::marks::mark;
use crate::types::are_vars_typed;
use c_tree::FunDef;

// Whether a function and its variables have some of so many types.
fn is_function_typed(types: usize, f: &FunDef) -> bool
    ensures { result ≡ true → FunctionTyped types f.now }
{
    (f.of as usize) < types && are_vars_typed(types, f.vars.as_slice())
}

// Whether it is so, and its body is among so many statements and is used for the first time.
fn is_function_ordered(types: usize, count: usize, f: &FunDef, stmts: &mut Vec<bool>) -> bool
    ensures typed { result ≡ true → FunctionTyped types f.now }
    ensures body { result ≡ true → Marks count stmts.old.items stmts.new.items (f.now.body ∷ []) }
{
    if !is_function_typed(types, f) {
        return false;
    }
    mark(stmts, count, f.body)
}

/// Whether all functions of a list are so.
pub(crate) fn are_functions_ordered(
    types: usize,
    count: usize,
    funs: &[FunDef],
    stmts: &mut Vec<bool>,
) -> bool
    ensures { result ≡ true → FunctionsOrdered types count funs.now stmts.old.items stmts.new.items }
{
    for k in 0..funs.len() {
        if !is_function_ordered(types, count, &funs[k], stmts) {
            return false;
        }
    }
    true
}
