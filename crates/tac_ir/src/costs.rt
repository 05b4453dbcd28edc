//! What instructions and functions cost.
ghost use Rattle.std.specs.Prelude.{◌≡◌, ◌-◌, ◌*◌, ◌^◌, ◌<◌, ◌≤◌, length};
ghost use Rattle.std.specs.List.{sum_by};
ghost use Rattle.tac_ir.specs.Costs.{number_cost, amount_cost, operation_cost, is_wide, conversion_cost, load_cost};
ghost use Rattle.tac_ir.specs.Costs.{places_cost, service_cost, cost, prologue_cost, function_cost, outgoing_by};
ghost use Rattle.tac_ir.specs.Costs.{outgoing};

use crate::code::{Amount, LibOp, TacFun, TacInstr, TacKind};
use crate::slices::first_and_rest;
use ck_int::IntKind;

fn number_cost(n: u64) -> u64
    ensures { result ≡ number_cost n }
{
    if n < 2048 || u64::MAX - 2047 <= n {
        1
    } else if n < 1 << 31 || u64::MAX - 0x7fff_ffff <= n {
        2
    } else if n <= 1 << 40 {
        4
    } else if n <= 1 << 52 {
        6
    } else {
        8
    }
}

fn amount_cost(amount: Amount) -> u64
    ensures { result ≡ amount_cost amount }
{
    match amount {
        Amount::Temp(_) => 4,
        Amount::Number(n) => 1 + number_cost(n),
    }
}

fn operation_cost(kind: IntKind) -> u64
    ensures { result ≡ operation_cost kind }
{
    match kind {
        IntKind::I64 | IntKind::U64 => 11,
        IntKind::I32 | IntKind::U32 => 12,
        IntKind::Bool | IntKind::I8 | IntKind::U8 | IntKind::I16 | IntKind::U16 => 13,
    }
}

fn is_wide(kind: IntKind) -> bool
    ensures { result ≡ is_wide kind }
{
    matches!(kind, IntKind::I64 | IntKind::U64)
}

fn conversion_cost(old: TacKind, new: TacKind) -> u64
    ensures { result ≡ conversion_cost old new }
{
    match (old, new) {
        (TacKind::Int(j), TacKind::Int(k)) => if is_wide(j) && is_wide(k) { 11 } else { 8 },
        (TacKind::Cap(_), TacKind::Int(k)) => if is_wide(k) { 7 } else { 8 },
        (_, TacKind::Cap(_)) => 11,
    }
}

fn load_cost(kind: TacKind) -> u64
    ensures { result ≡ load_cost kind }
{
    match kind {
        TacKind::Int(IntKind::Bool) => 8,
        _ => 7,
    }
}

/// So many arguments or parameters.
fn places_cost(n: usize) -> u64
    requires { n < 2 ^ 61 }
    ensures { result ≡ places_cost n }
{
    let n = n as u64;
    3 * n.min(8) + 6 * n.saturating_sub(8)
}

fn service_cost(op: LibOp) -> u64
    ensures { result ≡ service_cost op }
{
    match op {
        LibOp::PutChar => 9,
        LibOp::GetChar | LibOp::Exit => 6,
        LibOp::Malloc => 34,
    }
}

/// What an instruction costs at most, in words of machine code and in steps: the steps in the loops of a Zero and of a
/// CopyUnits are counted apart.
pub fn cost(i: &TacInstr) -> u64
    ensures { result ≡ cost i.now }
{
    match i {
        TacInstr::Const { value, .. } => 3 + number_cost(*value),
        TacInstr::Copy { .. } | TacInstr::Global { .. } | TacInstr::Function { .. } => 6,
        TacInstr::Int { kind, .. } => operation_cost(*kind),
        TacInstr::Cmp { .. } => 11,
        TacInstr::Convert { old, new, .. } => conversion_cost(*old, *new),
        TacInstr::Cap { .. } | TacInstr::Zero { .. } => 10,
        TacInstr::Offset { by, .. } => 6 + amount_cost(*by),
        TacInstr::Narrow { length, .. } => 6 + amount_cost(*length),
        TacInstr::Load { kind, .. } => load_cost(*kind),
        TacInstr::Store { .. } => 7,
        TacInstr::Local { .. } => 9,
        TacInstr::CopyUnits { .. } => 14,
        TacInstr::Label(_) | TacInstr::Turn => 0,
        TacInstr::Jump(_) => 1,
        TacInstr::Branch { .. } => 5,
        TacInstr::Call { args, .. } => 7 + places_cost(args.as_slice().len()),
        TacInstr::CallValue { args, .. } => 7 + places_cost(args.as_slice().len()),
        TacInstr::Lib { op, .. } => service_cost(*op),
        TacInstr::Return(_) => 24,
    }
}

fn prologue_cost(params: u32) -> u64
    ensures { result ≡ prologue_cost params }
{
    64 + places_cost(params as usize)
}

fn code_cost(code: &[TacInstr]) -> u128
    ensures cost { result ≡ sum_by cost code.now }
    ensures bound { result ≤ length code.now * (2 ^ 64 - 1) }
{
    let mut total: u128 = 0;
    for i in code {
        total += u128::from(cost(i));
    }
    total
}

/// What a function costs: its prologue, by the number of its parameters, and its code. It is below 2^128 whatever the
/// function.
pub fn function_cost(f: &TacFun) -> u128
    ensures { result ≡ function_cost f.now }
{
    u128::from(prologue_cost(f.params)) + code_cost(f.code.as_slice())
}

fn outgoing_by(i: &TacInstr) -> usize
    ensures { result ≡ outgoing_by i.now }
{
    match i {
        TacInstr::Call { args, .. } | TacInstr::CallValue { args, .. } => args
            .as_slice()
            .len()
            .saturating_sub(8),
        _ => 0,
    }
}

/// The argument places past eight of the largest call, of a value too.
pub fn outgoing(code: &[TacInstr]) -> usize
    ensures { result ≡ outgoing code.now }
{
    let mut most = 0;
    let mut left = code;
    while let Some((i, rest)) = first_and_rest(left) {
        most = most.max(outgoing_by(i));
        left = rest;
    }
    most
}
