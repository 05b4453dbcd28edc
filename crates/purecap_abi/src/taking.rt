//! How a frame is taken and given back, and kept registers go to it and from it.
ghost use Rattle.std.specs.Prelude.{◌≡◌, ℕ, ◌+◌, ◌-◌, ◌*◌, ◌^◌, ◌<◌, ◌≤◌, ◌++◌, [], ◌∷◌, length, OnOk, IfOk};
ghost use Rattle.std.specs.Option.{ForSome};
ghost use Rattle.rv_instr.specs.declared.instr.Instr.TheVariants.{CapImm, CapReg};
ghost use Rattle.rv_instr.specs.declared.ops.CapImmOp.TheVariants.{Cincoffsetimm};
ghost use Rattle.rv_instr.specs.declared.ops.CapRegOp.TheVariants.{Cincoffset};
ghost use Rattle.purecap_abi.specs.Words.{wide_code};
ghost use Rattle.purecap_abi.specs.Saving.{kept_here, kept_homes};
ghost use Rattle.purecap_abi.specs.Ends.{take_plain, take_aligned, take_code, give_plain, give_code, stack_code, keep};
ghost use Rattle.purecap_abi.specs.Ends.{keep_from, keep_code, negative};

use crate::offsets::Saved;
use crate::saving::{KEPT, is_home, keeps_stack};
use crate::words::{load_capability, moved, put, store_capability, wide};
use ck_base::NoMemory;
use obj_mem::Frame;
use reg_alloc::Places;
use rv_instr::{CapImmOp, CapRegOp, Instr, Reg, RegOp, StoreOp};

/// Which way a kept register goes.
#[derive(Clone, Copy)]
pub enum Way {
    ToFrame,
    FromFrame,
}

/// The caller's stack, from the function's first word on.
pub fn caller() -> Reg
    ensures { result ≡ 28 }
{
    Reg::numbered(28)
}

fn scratch() -> Reg
    ensures { result ≡ 29 }
{
    Reg::numbered(29)
}

fn mask() -> Reg
    ensures { result ≡ 30 }
{
    Reg::numbered(30)
}

// Moves the stack by a number in the scratch register.
fn move_stack(code: &mut Vec<Instr>, by: u64) -> Result<(), NoMemory>
    ensures { OnOk result (code.new.items ≡ code.old.items ++ (wide_code 29 by ++ CapReg Cincoffset 2 2 29 ∷ [])) }
{
    wide(code, scratch(), by)?;
    put(
        code,
        Instr::CapReg(CapRegOp::Cincoffset, Reg::STACK, Reg::STACK, scratch()),
    )
}

// Moves the stack by a number that an instruction holds.
fn step_stack(by: i32) -> Instr
    ensures { result ≡ CapImm Cincoffsetimm 2 2 by }
{
    Instr::CapImm(CapImmOp::Cincoffsetimm, Reg::STACK, Reg::STACK, by)
}

// The number of which these 64 bits are the negative.
fn negative(value: u64) -> u64
    requires { 0 < value }
    ensures { result ≡ negative value }
{
    u64::MAX - value + 1
}

// Takes a frame whose alignment is 16.
fn take_plain(code: &mut Vec<Instr>, size: u64) -> Result<(), NoMemory>
    requires { 0 < size }
    ensures { OnOk result (code.new.items ≡ code.old.items ++ take_plain size) }
{
    if size <= 2048 {
        put(code, step_stack(-(size as i32)))
    } else {
        move_stack(code, negative(size))
    }
}

// Takes a frame with a greater alignment: the new address is rounded down to it.
fn take_aligned(code: &mut Vec<Instr>, size: u64, align: u64) -> Result<(), NoMemory>
    requires { 0 < align }
    ensures { OnOk result (code.new.items ≡ code.old.items ++ take_aligned size align) }
{
    wide(code, scratch(), size)?;
    put(code, Instr::Op(RegOp::Sub, scratch(), caller(), scratch()))?;
    wide(code, mask(), negative(align))?;
    put(code, Instr::Op(RegOp::And, scratch(), scratch(), mask()))?;
    put(
        code,
        Instr::CapReg(CapRegOp::Csetaddr, Reg::STACK, Reg::STACK, scratch()),
    )
}

/// Takes a frame.
pub fn take(code: &mut Vec<Instr>, f: &Frame) -> Result<(), NoMemory>
    requires align { 0 < f.now.align }
    requires size { 0 < f.now.size }
    ensures { OnOk result (code.new.items ≡ code.old.items ++ take_code f.now) }
{
    if keeps_stack(f.align) {
        take_aligned(code, f.size, f.align)
    } else {
        take_plain(code, f.size)
    }
}

// Gives a frame back whose alignment is 16.
fn give_plain(code: &mut Vec<Instr>, size: u64) -> Result<(), NoMemory>
    ensures { OnOk result (code.new.items ≡ code.old.items ++ give_plain size) }
{
    if size < 2048 {
        put(code, step_stack(size as i32))
    } else {
        move_stack(code, size)
    }
}

/// Gives a frame back: by its size, or by the caller's stack, where the frame keeps it.
pub fn give(code: &mut Vec<Instr>, stack_at: Option<u64>, size: u64) -> Result<(), NoMemory>
    requires { ForSome stack_at (λ at. at < 2 ^ 31 - 2048) }
    ensures { OnOk result (code.new.items ≡ code.old.items ++ give_code stack_at size) }
{
    match stack_at {
        None => give_plain(code, size),
        Some(at) => load_capability(code, Reg::STACK, Reg::STACK, at, scratch()),
    }
}

/// Stores the caller's stack, where the frame keeps it.
pub fn keep_stack(code: &mut Vec<Instr>, stack_at: Option<u64>) -> Result<(), NoMemory>
    requires { ForSome stack_at (λ at. at < 2 ^ 31 - 2048) }
    ensures { OnOk result (code.new.items ≡ code.old.items ++ stack_code stack_at) }
{
    match stack_at {
        None => Ok(()),
        Some(at) => store_capability(code, caller(), Reg::STACK, at, scratch()),
    }
}

// A kept register to its place, or from it.
fn keep(way: Way, register: Reg, base: Reg, at: u64) -> Instr
    requires { at < 2048 }
    ensures { result ≡ keep way register base at }
{
    match way {
        Way::ToFrame => Instr::Store(StoreOp::Csc, register, base, at as i32),
        Way::FromFrame => Instr::Clc(register, base, at as i32),
    }
}

// One kept register, where it is a home. The answer is where the next stands.
fn keep_next(
    code: &mut Vec<Instr>,
    places: &Places,
    way: Way,
    register: u8,
    base: Reg,
    at: u64,
) -> Result<u64, NoMemory>
    requires register { register < 32 }
    requires near { at < 2048 }
    ensures next { IfOk result (λ next. next ≡ at + 16 * length (kept_here places.now.homes register)) }
    ensures code { OnOk result (code.new.items
        ≡ code.old.items ++ keep_from way base at (kept_here places.now.homes register)) }
{
    if is_home(places, register) {
        put(code, keep(way, Reg::numbered(register), base, at))?;
        Ok(at + 16)
    } else {
        Ok(at)
    }
}

// All kept registers that are homes, from a place on.
fn keep_from(
    code: &mut Vec<Instr>,
    places: &Places,
    way: Way,
    base: Reg,
    from: u64,
) -> Result<(), NoMemory>
    requires { from ≤ 1856 }
    ensures { OnOk result (code.new.items ≡ code.old.items ++ keep_from way base from (kept_homes places.now.homes)) }
{
    let mut at = from;
    for register in KEPT {
        at = keep_next(code, places, way, register, base, at)?;
    }
    Ok(())
}

/// All kept registers that are homes: by a base of their own where they may be far from the frame's start.
pub fn keep_all(code: &mut Vec<Instr>, places: &Places, way: Way, s: &Saved) -> Result<(), NoMemory>
    requires registers { s.now.registers ≡ length (kept_homes places.now.homes) }
    requires near { s.now.registers_at ≤ 67108880 }
    ensures { OnOk result (code.new.items ≡ code.old.items
        ++ keep_code way s.now.registers_at (kept_homes places.now.homes)) }
{
    if s.registers == 0 {
        return Ok(());
    }
    if s.registers_at <= 1856 {
        return keep_from(code, places, way, Reg::STACK, s.registers_at);
    }
    moved(code, scratch(), Reg::STACK, s.registers_at)?;
    keep_from(code, places, way, scratch(), 0)
}
