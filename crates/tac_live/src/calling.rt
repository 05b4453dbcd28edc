//! The calls of a function.
ghost use Rattle.std.specs.Prelude.{◌≡◌, ◌^◌, ◌<◌, IfOk, length};
ghost use Rattle.tac_live.specs.Calls.{AreCalls, is_call, most_places, places_past_eight};

use ck_base::NoMemory;
use std::alloc::Global;
use tac_ir::{TacFun, TacInstr};

// Whether an instruction calls a function, one of the library among them.
fn is_call(i: &TacInstr) -> bool
    ensures { result ≡ is_call i.now }
{
    matches!(
        i,
        TacInstr::Call { .. } | TacInstr::CallValue { .. } | TacInstr::Lib { .. }
    )
}

// The numbers of the calls of some code.
fn calls_of(alloc: Global, code: &[TacInstr]) -> Result<Vec<u32>, NoMemory>
    requires { length code.now < 2 ^ 32 }
    ensures { IfOk result (λ v. AreCalls code.now v.items) }
{
    let mut calls = Vec::new(alloc);
    let mut at = 0u32;
    for i in code {
        at += 1;
        if is_call(i) {
            calls.push(at)?;
        }
    }
    Ok(calls)
}

/// The numbers of a function's calls, those of the library among them, in ascending order. Instructions count from 1.
/// It refuses nothing but for want of memory.
pub fn calls(alloc: Global, f: &TacFun) -> Result<Vec<u32>, NoMemory>
    requires { length f.now.code < 2 ^ 32 }
    ensures { IfOk result (λ v. AreCalls f.now.code v.items) }
{
    calls_of(alloc, f.code.as_slice())
}

// The argument places past eight that an instruction uses.
fn places_past_eight(i: &TacInstr) -> u32
    requires { places_past_eight i.now < 2 ^ 32 }
    ensures { result ≡ places_past_eight i.now }
{
    match i {
        TacInstr::Call { args, .. } | TacInstr::CallValue { args, .. } => {
            args.as_slice().len().saturating_sub(8) as u32
        }
        _ => 0,
    }
}

// The most argument places past eight that an instruction of some code uses.
fn outgoing_of(code: &[TacInstr]) -> u32
    requires { most_places code.now < 2 ^ 32 }
    ensures { result ≡ most_places code.now }
{
    let mut most = 0u32;
    for i in code {
        most = most.max(places_past_eight(i));
    }
    most
}

/// The greatest number of argument places past eight that one of a function's calls uses; 0 where it has no call.
pub fn outgoing(f: &TacFun) -> u32
    requires { most_places f.now.code < 2 ^ 32 }
    ensures { result ≡ most_places f.now.code }
{
    outgoing_of(f.code.as_slice())
}
