//! The temps that an instruction names.
ghost use Rattle.std.specs.Prelude.{◌≡◌, ◌++◌};
ghost use Rattle.tac_ir.specs.Intervals.{is_control};
ghost use Rattle.tac_ir.specs.Temps.{in_amount, in_option, reads, writes};
ghost use Rattle.tac_live.specs.Calls.{arguments};

use tac_ir::{Amount, TacInstr};

// The temp of an amount.
fn temp_of(amount: &Amount) -> Option<u32>
    ensures { in_option result ≡ in_amount amount.now }
{
    match amount {
        Amount::Temp(t) => Some(*t),
        Amount::Number(_) => None,
    }
}

/// The temp that an instruction writes.
pub fn written(i: &TacInstr) -> Option<u32>
    ensures { in_option result ≡ writes i.now }
{
    match i {
        TacInstr::Const { to, .. }
        | TacInstr::Copy { to, .. }
        | TacInstr::Int { to, .. }
        | TacInstr::Cmp { to, .. }
        | TacInstr::Convert { to, .. }
        | TacInstr::Cap { to, .. }
        | TacInstr::Offset { to, .. }
        | TacInstr::Narrow { to, .. }
        | TacInstr::Load { to, .. }
        | TacInstr::Local { to, .. }
        | TacInstr::Global { to, .. }
        | TacInstr::Function { to, .. } => Some(*to),
        TacInstr::Call { to, .. } | TacInstr::CallValue { to, .. } | TacInstr::Lib { to, .. } =>
            *to,
        _ => None,
    }
}

/// The temps that an instruction reads beside the arguments of a call.
pub fn read(i: &TacInstr) -> (Option<u32>, Option<u32>)
    ensures { in_option result.0 ++ (in_option result.1 ++ arguments i.now) ≡ reads i.now }
{
    match i {
        TacInstr::Copy { from, .. }
        | TacInstr::Convert { from, .. }
        | TacInstr::Load { from, .. } => (Some(*from), None),
        TacInstr::Int { a, b, .. } | TacInstr::Cmp { a, b, .. } => (Some(*a), Some(*b)),
        TacInstr::Cap { a, b, .. } => (Some(*a), *b),
        TacInstr::Offset { base, by, .. } => (Some(*base), temp_of(by)),
        TacInstr::Narrow { base, length, .. } => (Some(*base), temp_of(length)),
        TacInstr::Store { at, value, .. } => (Some(*at), Some(*value)),
        TacInstr::CopyUnits { from, to, .. } => (Some(*from), Some(*to)),
        TacInstr::Branch { on, .. } => (Some(*on), None),
        TacInstr::CallValue { value, .. } => (Some(*value), None),
        TacInstr::Return(v) => (*v, None),
        _ => (None, None),
    }
}

/// The arguments of a call.
pub fn arguments(i: &TacInstr) -> &[u32]
    ensures { result.now ≡ arguments i.now }
{
    match i {
        TacInstr::Call { args, .. }
        | TacInstr::CallValue { args, .. }
        | TacInstr::Lib { args, .. } => args.as_slice(),
        _ => &[],
    }
}

/// Whether an instruction is a label, a jump or a branch.
pub fn is_control(i: &TacInstr) -> bool
    ensures { result ≡ is_control i.now }
{
    matches!(
        i,
        TacInstr::Label(_) | TacInstr::Jump(_) | TacInstr::Branch { .. }
    )
}
