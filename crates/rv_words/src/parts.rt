//! Words that the calling convention's crate makes, before they join the code.
ghost use Rattle.std.specs.Prelude.{◌≡◌, ◌-◌, ◌^◌, ◌<◌, ◌≤◌, true, IfOk, length};
ghost use Rattle.std.specs.List.{All};
ghost use Rattle.purecap_abi.specs.Words.{IsPlainWord, is_word, load_code, store_code, moved_code};
ghost use Rattle.tac_ir.specs.Costs.{number_cost};
ghost use Rattle.select_words.specs.Numbers.{MakesNumber};
ghost use Rattle.rv_words.specs.Instructions.{reach};

use ck_base::NoMemory;
use rv_instr::{Instr, Reg};
use std::alloc::Global;

/// An offset that two instructions reach. No frame and no table is larger.
fn near(offset: u64) -> u64
    ensures near { result < reach }
    ensures same { offset < reach → result ≡ offset }
{
    offset.min(0x7fff_f7ff)
}

/// A register becomes a number.
pub fn number_part(alloc: Global, to: Reg, value: u64) -> Result<Vec<Instr>, NoMemory>
    ensures plain { IfOk result (λ part. All IsPlainWord part.items) }
    ensures few { IfOk result (λ part. length part.items ≤ number_cost value) }
    ensures makes { IfOk result (λ part. 0 < to → MakesNumber to value part.items) }
    ensures low { IfOk result (λ part. value < 2 ^ 31 → length part.items ≤ 2) }
    ensures high { IfOk result (λ part. 2 ^ 64 - 2 ^ 31 ≤ value → length part.items ≤ 2) }
{
    let mut part = Vec::new(alloc);
    purecap_abi::number(&mut part, to, value)?;
    Ok(part)
}

/// A register becomes a number of 32 bits; for another number there are no words.
pub fn word_part(alloc: Global, to: Reg, value: u64) -> Result<Vec<Instr>, NoMemory>
    ensures plain { IfOk result (λ part. All IsPlainWord part.items) }
    ensures few { IfOk result (λ part. length part.items ≤ 2) }
    ensures makes { IfOk result (λ part. is_word value ≡ true → 0 < to → MakesNumber to value part.items) }
{
    if value < 0x8000_0000 {
        return number_part(alloc, to, value);
    }
    if value >= 0xffff_ffff_8000_0000 {
        return number_part(alloc, to, value);
    }
    Ok(Vec::new(alloc))
}

/// Loads a capability from an offset behind a base.
pub fn load_part(
    alloc: Global,
    to: Reg,
    base: Reg,
    offset: u64,
    scratch: Reg,
) -> Result<Vec<Instr>, NoMemory>
    ensures plain { IfOk result (λ part. All IsPlainWord part.items) }
    ensures few { IfOk result (λ part. length part.items ≤ 3) }
    ensures code { IfOk result (λ part. offset < reach → part.items ≡ load_code to base offset scratch) }
{
    let mut part = Vec::new(alloc);
    purecap_abi::load_capability(&mut part, to, base, near(offset), scratch)?;
    Ok(part)
}

/// Stores a capability at an offset behind a base.
pub fn store_part(
    alloc: Global,
    from: Reg,
    base: Reg,
    offset: u64,
    scratch: Reg,
) -> Result<Vec<Instr>, NoMemory>
    ensures plain { IfOk result (λ part. All IsPlainWord part.items) }
    ensures few { IfOk result (λ part. length part.items ≤ 3) }
    ensures code { IfOk result (λ part. offset < reach → part.items ≡ store_code from base offset scratch) }
{
    let mut part = Vec::new(alloc);
    purecap_abi::store_capability(&mut part, from, base, near(offset), scratch)?;
    Ok(part)
}

/// A register becomes a base moved by an offset.
pub fn moved_part(alloc: Global, to: Reg, base: Reg, offset: u64) -> Result<Vec<Instr>, NoMemory>
    ensures plain { IfOk result (λ part. All IsPlainWord part.items) }
    ensures few { IfOk result (λ part. length part.items ≤ 3) }
    ensures code { IfOk result (λ part. offset < reach → part.items ≡ moved_code to base offset) }
{
    let mut part = Vec::new(alloc);
    purecap_abi::moved(&mut part, to, base, near(offset))?;
    Ok(part)
}
