//! Which three-address code is well formed for a program.
ghost use Rattle.std.specs.Prelude.{◌≡◌};
ghost use Rattle.tac_ir.specs.Bodies.{in_body, HasCounted};
ghost use Rattle.tac_ir.specs.WellFormed.{param_kinds, begins_with, all_of, instruction_fits, function_fits};
ghost use Rattle.tac_ir.specs.WellFormed.{functions_fit, is_well_formed};

use crate::body::{Body, objects};
use crate::code::{Tac, TacFun, TacKind};
use crate::kinds::same_kind;
use crate::labels::{ends_well, labels_differ, turns_fit};
use crate::signatures::param_kind;
use crate::slices::first_and_rest;
use c_tree::{FunDef, Typed};

/// Whether the first temps have the kinds of the parameters.
fn begins_with_params(p: &Typed, d: &FunDef, kinds: &[TacKind]) -> bool
    ensures { result ≡ begins_with kinds.now (param_kinds p.now d.now) }
{
    let mut left = d.params.as_slice();
    let mut given = kinds;
    while let Some((param, more)) = first_and_rest(left) {
        match first_and_rest(given) {
            None => return false,
            Some((kind, rest)) => {
                if !same_kind(*kind, param_kind(p, d, *param)) {
                    return false;
                }
                left = more;
                given = rest;
            }
        }
    }
    true
}

fn instructions_fit(body: &Body) -> bool
    requires { HasCounted body.now }
    ensures { result ≡ all_of (in_body instruction_fits body.now) body.now.code.now }
{
    let mut left = body.code;
    while let Some((i, rest)) = first_and_rest(left) {
        if !body.instruction_fits(i) {
            return false;
        }
        left = rest;
    }
    true
}

fn function_fits(p: &Typed, d: &FunDef, f: &TacFun) -> bool
    ensures { result ≡ function_fits p.now d.now f.now }
{
    let kinds = f.kinds.as_slice();
    let code = f.code.as_slice();
    let body = Body {
        program: p,
        def: d,
        kinds,
        code,
        objects: objects(d.vars.as_slice()),
    };
    f.params as usize == d.params.as_slice().len()
        && f.params <= f.temps
        && kinds.len() == f.temps as usize
        && begins_with_params(p, d, kinds)
        && instructions_fit(&body)
        && labels_differ(code)
        && ends_well(code)
        && turns_fit(code)
}

fn functions_fit(p: &Typed, defs: &[FunDef], funs: &[TacFun]) -> bool
    ensures { result ≡ functions_fit p.now defs.now funs.now }
{
    let mut left = defs;
    let mut given = funs;
    while let Some((d, more)) = first_and_rest(left) {
        match first_and_rest(given) {
            None => return false,
            Some((f, rest)) => {
                if !function_fits(p, d, f) {
                    return false;
                }
                left = more;
                given = rest;
            }
        }
    }
    match first_and_rest(given) {
        None => true,
        Some(_) => false,
    }
}

/// Whether three-address code is well formed for a program: it has the program's functions in their order; in each
/// function, each temp, label, function, global, literal and local that an instruction names is there, the kinds agree,
/// a constant of an integer kind keeps a number of it, a copy is of whole units of 1, 2, 4, 8 or 16 bytes, each label
/// stands once, a Turn stands directly before each jump or branch to a label that is not later and nowhere else, and
/// the last instruction is a Return or a Jump. It takes no memory: for each label, jump and branch it goes through the
/// function's code.
#[tactic(auto, unfolding(crate::specs::WellFormed::is_well_formed))]
pub fn well_formed(t: &Tac, p: &Typed) -> bool
    ensures { result ≡ is_well_formed t.now p.now }
{
    functions_fit(p, p.funs.as_slice(), t.funs.as_slice())
}
