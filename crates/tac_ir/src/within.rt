//! Which code is no larger than its program allows.
ghost use Rattle.std.specs.Prelude.{◌+◌, ◌^◌, ◌<◌, ◌↔◌, IsTrue};
ghost use Rattle.tac_ir.specs.Costs.{function_cost, outgoing};
ghost use Rattle.tac_ir.specs.Within.{FunctionCosts, WithinCosts};

use crate::code::{Tac, TacFun};
use crate::costs::{function_cost, outgoing};
use crate::weights::weight_in;
use c_tree::Typed;

fn is_within(f: &TacFun, weight: u128) -> bool
    ensures within { IsTrue result ↔ FunctionCosts weight f.now }
    ensures cost_bound { function_cost f.now < 2 ^ 128 }
    ensures temps_bound { f.now.temps + outgoing f.now.code < 2 ^ 128 }
{
    let temps = u128::from(f.temps) + outgoing(f.code.as_slice()) as u128;
    function_cost(f) <= weight.saturating_mul(32) && temps <= weight.saturating_mul(2)
}

/// Whether each function of some code costs at most 32 times the weight of that function of the program, and its temps
/// and the argument places past eight of its largest call are at most twice that weight. It takes no memory. It looks
/// once at each instruction, and at each expression and statement of a program; its calls are as deep as the program's
/// trees.
pub fn is_within_costs(t: &Tac, p: &Typed) -> bool
    ensures { IsTrue result ↔ WithinCosts t.now p.now }
{
    for (k, f) in t.funs.as_slice().iter().enumerate() {
        if !is_within(f, weight_in(p, k)) {
            return false;
        }
    }
    true
}
