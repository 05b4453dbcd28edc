//! Temps that need no home, since one constant is all that they ever hold.
ghost use Rattle.std.specs.Prelude.{◌≡◌, ℕ, List, [], ◌∷◌, ◌++◌, IfOk, IfSome, vec_len};
ghost use Rattle.cap_machine.specs.Integers.{extended};
ghost use Rattle.tac_ir.specs.Temps.{in_option, writes};
ghost use Rattle.tac_ir.specs.declared.code.TacInstr.{TacInstr};
ghost use Rattle.rv_select.specs.Written.{AreWritten, AllWrite, IsConstant, Joins};

use ck_base::NoMemory;
use std::alloc::Global;
use tac_ir::{TacFun, TacInstr};

/// What a function writes to a temp.
#[derive(Clone, Copy)]
pub enum Written {
    Nothing,
    /// One constant that 32 bits of two's complement hold.
    Number(i32),
    Values,
}

/// The temp that an instruction writes.
fn temp_written(i: &TacInstr) -> Option<u32>
    ensures { in_option result ≡ writes i.now }
{
    match i {
        TacInstr::Const { to, .. }
        | TacInstr::Copy { to, .. }
        | TacInstr::Int { to, .. }
        | TacInstr::Cmp { to, .. }
        | TacInstr::Convert { to, .. }
        | TacInstr::Cap { to, .. }
        | TacInstr::Offset { to, .. }
        | TacInstr::Narrow { to, .. }
        | TacInstr::Load { to, .. }
        | TacInstr::Local { to, .. }
        | TacInstr::Global { to, .. }
        | TacInstr::Function { to, .. } => Some(*to),
        TacInstr::Call { to, .. } | TacInstr::CallValue { to, .. } | TacInstr::Lib { to, .. } =>
            *to,
        _ => None,
    }
}

/// The constant that an instruction writes, where 32 bits of two's complement hold it.
fn constant(i: &TacInstr) -> Option<i32>
    ensures { IfSome result (λ v. IsConstant (extended v) i.now) }
{
    match i {
        TacInstr::Const { value, .. } => i32::try_from(value.cast_signed()).ok(),
        _ => None,
    }
}

/// What is written to a temp after one more instruction.
fn joined(before: Written, constant: Option<i32>) -> Written
    ensures { Joins before constant result }
{
    match (before, constant) {
        (Written::Nothing, Some(v)) => Written::Number(v),
        _ => Written::Values,
    }
}

/// Notes what one more instruction writes.
fn note(temps: &mut Vec<Written>, i: &TacInstr)
    ensures len { vec_len temps.new ≡ vec_len temps.old }
    ensures each { (params : ℕ) (code : List TacInstr) → AllWrite params code temps.old.items →
        AllWrite params (code ++ i.now ∷ []) temps.new.items }
{
    let Some(t) = temp_written(i) else {
        return;
    };
    if (t as usize) < temps.len() {
        temps[t as usize] = joined(temps[t as usize], constant(i));
    }
}

/// What the function writes to each temp. A parameter holds a value from the start.
pub fn all_written(alloc: Global, f: &TacFun) -> Result<Vec<Written>, NoMemory>
    ensures { IfOk result (λ written. AreWritten f.now written.items) }
{
    let mut temps = vec![in alloc; Written::Nothing; f.temps as usize]?;
    for t in 0..f.params as usize {
        if t < temps.len() {
            temps[t] = Written::Values;
        }
    }
    for i in f.code.as_slice() {
        note(&mut temps, i);
    }
    Ok(temps)
}
