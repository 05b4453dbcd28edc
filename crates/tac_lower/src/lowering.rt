//! Lowering: from typed programs to three-address code.

ghost use Rattle.std.specs.Prelude.{◌≡◌, ◌≤◌, ◌<◌, ◌^◌, length, true, IfOk, sum_by, ℕ, Some, slice_get};
ghost use Rattle.tac_ir.specs.declared.code.TacFun.{TacFun};
ghost use Rattle.tac_lower.specs.Zeroed.{ZeroesOnce};
ghost use Rattle.c_tree.specs.Views.{IsOrdered};
ghost use Rattle.c_tree.specs.TreeWeight.{HasLightFunctions};
ghost use Rattle.cheri_c_sem.specs.Order.{Ordered};
ghost use Rattle.tac_ir.specs.WellFormed.{is_well_formed};
ghost use Rattle.tac_ir.specs.Within.{Within, WithinCosts, function_copies};
ghost use Rattle.c_tree.specs.Counts.{copies};
ghost use Rattle.tac_lower.specs.Functions.{AreTypedFunctions};
ghost use Rattle.tac_lower.specs.Lowered.{names_of, names_in};
ghost use Rattle.tac_lower.specs.Programs.{Standing};
ghost use Rattle.tac_lower.specs.Runs.{RunsAs};
ghost use Rattle.c_tree.specs.Typing.{Sound};
ghost use Rattle.lower_runs.specs.Programs.{IsProgram};

use crate::functions::{Program, function};
use crate::types::type_table;
use crate::writes::writes_table;
use c_tree::Typed;
use ck_base::{NoMemory, Sequence};
use std::alloc::Global;
use tac_ir::Tac;

/// The three-address code of a typed program: its functions in their order. The recursion is as deep as the program's
/// expressions and statements lie in one another.
pub fn lower(alloc: Global, p: &Typed) -> Result<Tac, NoMemory>
    requires ordered { Ordered p.now }
    requires listed { IsOrdered p.now }
    requires typed { AreTypedFunctions p.now }
    requires light { HasLightFunctions p.now }
    ensures named { IfOk result (λ t. names_of t.funs ≡ names_in p.now.funs) }
    ensures formed { IfOk result (λ t. is_well_formed t p.now ≡ true) }
    ensures costs { IfOk result (λ t. WithinCosts t p.now) }
    ensures copies { IfOk result (λ t. sum_by function_copies t.funs ≤ copies p.now) }
    ensures is { IfOk result (λ t. Standing p.now → IsProgram p.now t) }
    ensures within { IfOk result (λ t. Sound p.now → Within t p.now) }
    ensures same { IfOk result (λ t. Sound p.now → RunsAs p.now t) }
    ensures zeros { IfOk result (λ t. (k : ℕ) (f : TacFun) → slice_get t.funs k ≡ Some f → ZeroesOnce f) }
    ensures short { IfOk result (λ t. (k : ℕ) (f : TacFun) → slice_get t.funs k ≡ Some f → length f.code < 2 ^ 32) }
{
    let types = type_table(alloc, p)?;
    let writes = writes_table(alloc, p)?;
    let program = Program {
        alloc,
        p,
        types: types.as_slice(),
        writes: writes.as_slice(),
    };
    let mut funs = Vec::new(alloc);
    let defs = p.funs.as_slice();
    for d in defs {
        let f = function(program, d)?;
        funs.push(f)?;
    }
    Ok(Tac {
        funs: Sequence::from_vec(funs),
    })
}
