//! The whole program.

ghost use Rattle.std.specs.Prelude.{◌≡◌, true, false, IfOk, length, replicate};
ghost use Rattle.c_tree.specs.Views.{IsOrdered};
ghost use Rattle.ordered_programs.specs.Ordered.{GlobalsTyped, TypesOrdered};

use crate::expressions::are_exprs_ordered;
use crate::functions::are_functions_ordered;
use crate::marks::{are_all_marked, no_marks};
use crate::statements::are_stmts_ordered;
use crate::types::{are_globals_typed, are_types_ordered};
use c_tree::Typed;
use ck_base::NoMemory;
use std::alloc::Global;

// Whether the expressions, the statements and the functions are in order, where nothing is marked yet.
fn are_nodes_ordered(p: &Typed, exprs: &mut Vec<bool>, stmts: &mut Vec<bool>) -> bool
    requires exprs { exprs.old.items ≡ replicate (length p.now.exprs) false }
    requires stmts { stmts.old.items ≡ replicate (length p.now.stmts) false }
    ensures { result ≡ true → TypesOrdered p.now.types → GlobalsTyped (length p.now.types) p.now.globals →
        IsOrdered p.now }
{
    let types = p.types.as_slice();
    let nodes = p.exprs.as_slice();
    let actions = p.stmts.as_slice();
    if !are_exprs_ordered(types.len(), nodes, exprs) {
        return false;
    }
    if !are_stmts_ordered(nodes.len(), actions, exprs, stmts) {
        return false;
    }
    if !are_functions_ordered(types.len(), actions.len(), p.funs.as_slice(), stmts) {
        return false;
    }
    if !are_all_marked(exprs.as_slice()) {
        return false;
    }
    are_all_marked(stmts.as_slice())
}

/// Whether a program is in order. Only `true` says so for certain. It keeps a mark for each expression and statement.
pub fn is_ordered(alloc: Global, p: &Typed) -> Result<bool, NoMemory>
    ensures { IfOk result (λ b. b ≡ true → IsOrdered p.now) }
{
    let types = p.types.as_slice();
    if !are_types_ordered(types) {
        return Ok(false);
    }
    if !are_globals_typed(types.len(), p.globals.as_slice()) {
        return Ok(false);
    }
    let nodes = p.exprs.as_slice();
    let actions = p.stmts.as_slice();
    let mut exprs = no_marks(alloc, nodes.len())?;
    let mut stmts = no_marks(alloc, actions.len())?;
    Ok(are_nodes_ordered(p, &mut exprs, &mut stmts))
}
