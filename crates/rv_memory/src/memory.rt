//! How a kind is loaded, entries of the table, and objects that become zero.
ghost use Rattle.std.specs.Prelude.{◌≡◌, ◌+◌, ◌*◌, ◌/◌, ◌^◌, ◌≤◌, ◌<◌, ◌++◌, pos, OnOk};
ghost use Rattle.purecap_abi.specs.Words.{load_code};
ghost use Rattle.select_words.specs.Accesses.{load_op};
ghost use Rattle.select_words.specs.Zeroing.{stores_at, Zeroes};
ghost use Rattle.rv_emit.specs.Growing.{Grows, Puts, reach};

use crate::registers::{left, right};
use ck_base::NoMemory;
use ck_int::IntKind;
use rv_emit::{Code, instructions as instr};
use rv_instr::{BranchOp, ImmOp, LoadOp, Reg, StoreOp};

/// How a kind is loaded.
pub fn load_op(kind: IntKind) -> LoadOp
    ensures { result ≡ load_op kind }
{
    match kind {
        IntKind::Bool | IntKind::U8 => LoadOp::Lbu,
        IntKind::I8 => LoadOp::Lb,
        IntKind::I16 => LoadOp::Lh,
        IntKind::U16 => LoadOp::Lhu,
        IntKind::I32 => LoadOp::Lw,
        IntKind::U32 => LoadOp::Lwu,
        IntKind::I64 | IntKind::U64 => LoadOp::Ld,
    }
}

/// A length or a count as a number of 32 bits. No object has more bytes.
pub fn number_of(n: u64) -> i32
    ensures { n < 2 ^ 31 → result ≡ pos n }
{
    i32::try_from(n).unwrap_or(i32::MAX)
}

/// A register becomes an entry of the program's table.
pub fn table_entry(code: &mut Code, to: Reg, number: u64) -> Result<(), NoMemory>
    ensures size { OnOk result (Grows 3 code.old code.new) }
    ensures text { OnOk result (16 * number < reach →
        code.new.text ≡ code.old.text ++ load_code to 3 (16 * number) to) }
{
    code.load_far(to, Reg::TABLE, number.saturating_mul(16), to)
}

/// Makes so many parts of 16 bytes zero, one or more, from an offset in the frame on.
fn zero_loop(code: &mut Code, at: u64, parts: u64) -> Result<(), NoMemory>
    ensures size { OnOk result (Grows 9 code.old code.new) }
    ensures words { OnOk result (at < reach → 0 < parts → parts < 2 ^ 31 →
        Puts (Zeroes at parts) code.old code.new) }
{
    code.moved(left(), Reg::STACK, at)?;
    code.number(right(), number_of(parts))?;
    code.open_loop();
    code.put(instr::store(StoreOp::Csc, Reg::ZERO, left(), 0))?;
    code.put(instr::advance(left(), left(), 16))?;
    code.put(instr::immediate(ImmOp::Addi, right(), right(), -1))?;
    code.close_loop(BranchOp::Bne, right(), Reg::ZERO)
}

/// Makes each of so many parts of 16 bytes zero, from an offset in the frame on.
fn zero_each(code: &mut Code, at: u64, parts: u64) -> Result<(), NoMemory>
    requires few { parts ≤ 4 }
    requires near { at ≤ 1984 }
    ensures size { OnOk result (Grows parts code.old code.new) }
    ensures text { OnOk result (code.new.text ≡ code.old.text ++ stores_at at parts) }
{
    for k in 0..parts {
        code.put(instr::store(StoreOp::Csc, Reg::ZERO, Reg::STACK, (at + 16 * k) as i32))?;
    }
    Ok(())
}

/// The bytes of an object at an offset in the frame become zero.
pub fn zero_object(code: &mut Code, at: u64, length: u64) -> Result<(), NoMemory>
    ensures size { OnOk result (Grows 10 code.old code.new) }
    ensures words { OnOk result (at < reach → length < 2 ^ 31 →
        Puts (Zeroes at ((length + 15) / 16)) code.old code.new) }
{
    let parts = length / 16 + u64::from(length % 16 != 0);
    if parts == 0 {
        return Ok(());
    }
    if parts > 4 || at > 1984 {
        zero_loop(code, at, parts)
    } else {
        zero_each(code, at, parts)
    }
}
