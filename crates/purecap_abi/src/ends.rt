//! How a function begins and ends.
ghost use Rattle.std.specs.Prelude.{◌≡◌, ◌≤◌, length, IfOk};
ghost use Rattle.std.specs.List.{All};
ghost use Rattle.purecap_abi.specs.Words.{IsPlainWord};
ghost use Rattle.purecap_abi.specs.Saving.{IsFor};
ghost use Rattle.purecap_abi.specs.Ends.{before_store, prologue_code, epilogue_code, StoresLinkFirst};

use crate::saving::{keeps_stack, saved};
use crate::taking::{Way, caller, give, keep_all, keep_stack, take};
use crate::words::put;
use ck_base::NoMemory;
use obj_mem::Frame;
use reg_alloc::Places;
use rv_instr::{CapGetOp, Instr, Reg, StoreOp};
use std::alloc::Global;

/// The words with which a function begins, at most 27. They take its frame, store the link at the frame's lowest
/// address before all else, and then the caller's stack, where the frame keeps it, and the kept registers that are
/// homes. Behind them c28 holds the caller's stack, from which stack arguments are read. They change c2, c28, c29 and
/// c30 alone.
pub fn prologue(alloc: Global, f: &Frame, places: &Places) -> Result<Vec<Instr>, NoMemory>
    requires { IsFor places.now.homes f.now }
    ensures code { IfOk result (λ code. code.items ≡ prologue_code places.now.homes f.now) }
    ensures plain { IfOk result (λ code. All IsPlainWord code.items) }
    ensures few { IfOk result (λ code. length code.items ≤ 27) }
    ensures first { IfOk result (λ code. StoresLinkFirst code.items (length (before_store f.now))) }
{
    let mut code = Vec::new(alloc);
    let s = saved(f, places);
    put(
        &mut code,
        Instr::CapGet(CapGetOp::Cmove, caller(), Reg::STACK),
    )?;
    take(&mut code, f)?;
    put(
        &mut code,
        Instr::Store(StoreOp::Csc, Reg::LINK, Reg::STACK, 0),
    )?;
    keep_stack(&mut code, s.stack_at)?;
    keep_all(&mut code, places, Way::ToFrame, &s)?;
    Ok(code)
}

/// Which of the prologue's words is the store of the link, its first store.
pub fn first_store(f: &Frame) -> u32
    ensures { result ≡ length (before_store f.now) }
{
    if keeps_stack(f.align) {
        8
    } else if f.size <= 2048 {
        2
    } else {
        4
    }
}

/// The words with which a function ends, at most 20. They load the kept registers that are homes, the link and the
/// caller's stack, and jump to the link. They change these and c29 alone.
pub fn epilogue(alloc: Global, f: &Frame, places: &Places) -> Result<Vec<Instr>, NoMemory>
    requires { IsFor places.now.homes f.now }
    ensures code { IfOk result (λ code. code.items ≡ epilogue_code places.now.homes f.now) }
    ensures plain { IfOk result (λ code. All IsPlainWord code.items) }
    ensures few { IfOk result (λ code. length code.items ≤ 20) }
{
    let mut code = Vec::new(alloc);
    let s = saved(f, places);
    keep_all(&mut code, places, Way::FromFrame, &s)?;
    put(&mut code, Instr::Clc(Reg::LINK, Reg::STACK, 0))?;
    give(&mut code, s.stack_at, f.size)?;
    put(&mut code, Instr::Cjalr(Reg::ZERO, Reg::LINK, 0))?;
    Ok(code)
}
