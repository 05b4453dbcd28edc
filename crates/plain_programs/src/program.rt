//! Parameters, and the whole program.

ghost use Rattle.std.specs.Prelude.{◌≡◌, ◌<◌, true, false};
ghost use Rattle.c_tree.specs.Passed.{by_pointer};
ghost use Rattle.passing_steps.specs.Numbered.{type_in};
ghost use Rattle.plain_programs.specs.Plain.{AreFirst, VarsPlain, ParamsPlain, FunctionsPlain, IsPlain};

use crate::nodes::{are_calls_plain, are_returns_plain};
use crate::types::are_types_plain;
use c_tree::{CType, FunDef, Typed, VarDef};
use passing_steps::by_pointer;

// Whether these are the first numbers, in order.
fn are_first(params: &[u32]) -> bool
    ensures { result ≡ true → AreFirst params.now }
{
    for k in 0..params.len() {
        if params[k] as usize != k {
            return false;
        }
    }
    true
}

// Whether a variable is none of the first so many, or no struct or union.
fn is_var_plain(types: &[CType], count: usize, k: usize, of: u32) -> bool
    ensures { result ≡ true → k < count → by_pointer (type_in types.now of) ≡ false }
{
    if k < count {
        !by_pointer(types, of)
    } else {
        true
    }
}

// Whether none of the first so many variables is a struct or union.
fn are_vars_plain(types: &[CType], count: usize, vars: &[VarDef]) -> bool
    ensures { result ≡ true → VarsPlain types.now count vars.now }
{
    for k in 0..vars.len() {
        if !is_var_plain(types, count, k, vars[k].of) {
            return false;
        }
    }
    true
}

fn are_params_plain(types: &[CType], f: &FunDef) -> bool
    ensures { result ≡ true → ParamsPlain types.now f.now }
{
    let params = f.params.as_slice();
    if !are_first(params) {
        return false;
    }
    are_vars_plain(types, params.len(), f.vars.as_slice())
}

fn are_functions_plain(types: &[CType], funs: &[FunDef]) -> bool
    ensures { result ≡ true → FunctionsPlain types.now funs.now }
{
    for f in funs {
        if !are_params_plain(types, f) {
            return false;
        }
    }
    true
}

/// Whether no struct or union goes to a function or comes back by value, in any type, call, `return` or parameter of a
/// program. Only `true` says so for certain.
pub fn is_plain(p: &Typed) -> bool
    ensures { result ≡ true → IsPlain p.now }
{
    let types = p.types.as_slice();
    if !are_types_plain(types) {
        return false;
    }
    if !are_functions_plain(types, p.funs.as_slice()) {
        return false;
    }
    if !are_returns_plain(p, p.stmts.as_slice()) {
        return false;
    }
    are_calls_plain(p, p.exprs.as_slice())
}
