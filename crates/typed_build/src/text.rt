//! The bytes of a text.
ghost use Rattle.std.specs.Prelude.{◌≡◌, ◌+◌, ◌*◌, ◌++◌, ◌≤◌, ℕ, OnOk, IfOk, Some, slice_get, length, pos};
ghost use Rattle.rv_instr.specs.Range.{InRange};
ghost use Rattle.rv_instr.specs.declared.instr.Instr.{Instr as InstrOf};
ghost use Rattle.typed_build.specs.Text.{code_limit, instr_bytes, code_bytes, filler, missing, text_of};

use cap_layout::owned;
use ck_base::NoMemory;
use rv_code::encode;
use rv_instr::{Instr, Reg};
use std::alloc::Global;

/// Appends an instruction.
#[tactic(auto, unfolding(tag_mem::specs::Numbers::little_bytes))]
fn push(text: &mut Vec<u8>, i: Instr) -> Result<(), NoMemory>
    requires { InRange i }
    ensures { OnOk result (text.new.items ≡ text.old.items ++ instr_bytes i) }
{
    Ok(text.extend_from_slice(&encode(i).to_le_bytes())?)
}

/// Appends instructions.
fn push_all(text: &mut Vec<u8>, code: &[Instr]) -> Result<(), NoMemory>
    requires { (k : ℕ) (i : InstrOf) → slice_get code.now k ≡ Some i → InRange i }
    ensures { OnOk result (text.new.items ≡ text.old.items ++ code_bytes code.now) }
{
    for i in code {
        push(text, *i)?;
    }
    Ok(())
}

/// Appends so many words `cjal c0,0`.
#[tactic(auto, unfolding(rv_instr::specs::Range::InRange))]
fn fill(text: &mut Vec<u8>, count: u64) -> Result<(), NoMemory>
    ensures { OnOk result (text.new.items ≡ text.old.items ++ code_bytes (filler count)) }
{
    for _ in 0..count {
        push(text, Instr::Cjal(Reg::ZERO, 0))?;
    }
    Ok(())
}

/// The words that fill so many to a text that has bounds of its own.
fn missing(words: u64) -> u64
    requires { 4 * words ≤ code_limit }
    ensures { result ≡ missing words }
{
    let size = owned((4 * words + 15) / 16 * 16).length;
    size / 4 - words
}

/// The text of some code: its words, filled up with `cjal c0,0`.
pub fn text_of(alloc: Global, code: &[Instr]) -> Result<Vec<u8>, NoMemory>
    requires in_range { (k : ℕ) (i : InstrOf) → slice_get code.now k ≡ Some i → InRange i }
    requires short { 4 * length code.now ≤ code_limit }
    ensures { IfOk result (λ text. text.items ≡ text_of code.now) }
{
    let mut text = Vec::new(alloc);
    push_all(&mut text, code)?;
    fill(&mut text, missing(code.len() as u64))?;
    Ok(text)
}
