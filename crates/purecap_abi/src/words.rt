//! Words for numbers, and for places that may be far from a base.

ghost use Rattle.std.specs.Prelude.{◌≡◌, ℕ, ◌+◌, ◌-◌, ◌*◌, ◌/◌, ◌%◌, ◌^◌, ◌<◌, ◌≤◌, ◌++◌, [], ◌∷◌, pos, nat_lt, OnOk};
ghost use Rattle.std.specs.Prelude.{if◌then◌else◌};
ghost use Rattle.rv_instr.specs.Range.{InRange};
ghost use Rattle.rv_instr.specs.declared.instr.Instr.TheVariants.{Imm};
ghost use Rattle.purecap_abi.specs.Words.{Appends, low, high, is_short, is_word, most_words, upper, wide_code};
ghost use Rattle.purecap_abi.specs.Words.{low_code, near_code, load_code, store_code, moved_code};
ghost use Rattle.purecap_abi.specs.Numbers.{Makes};

use ck_base::NoMemory;
use rv_instr::{CapImmOp, CapRegOp, ImmOp, Instr, Reg, ShiftOp, StoreOp, UpperOp};

/// Appends an instruction.
pub fn put(code: &mut Vec<Instr>, i: Instr) -> Result<(), NoMemory>
    ensures { OnOk result (code.new.items ≡ code.old.items ++ i ∷ []) }
{
    code.push(i)?;
    Ok(())
}

// Tells that a register's number is below 32.
fn known(r: Reg)
    ensures { r < 32 }
{
    let _ = r.number();
}

// Whether 12 bits of two's complement hold the number.
fn is_short(value: u64) -> bool
    ensures { result ≡ is_short value }
{
    value < 2048 || value >= 0xffff_ffff_ffff_f800
}

// Whether 32 bits of two's complement hold the number.
fn is_word(value: u64) -> bool
    ensures { result ≡ is_word value }
{
    value < 0x8000_0000 || value >= 0xffff_ffff_8000_0000
}

// The low 12 bits, with a sign.
fn low(value: u64) -> i32
    ensures { result ≡ low value }
{
    let bits = value % 4096;
    if bits < 2048 {
        bits as i32
    } else {
        bits as i32 - 4096
    }
}

// What is left over the low 12 bits, which have a sign.
fn high(value: u64) -> u64
    ensures { result ≡ high value }
{
    value / 4096 + value % 4096 / 2048
}

// The upper 20 of the low 32 bits, where the low 12 are added with their sign.
fn upper(to: Reg, value: u64) -> Instr
    ensures { result ≡ upper to value }
{
    Instr::Upper(UpperOp::Lui, to, (high(value) % 0x10_0000) as u32)
}

// An operation on a register or x0 and the low 12 bits.
fn with_low(op: ImmOp, to: Reg, from: Reg, value: u64) -> Instr
    ensures { result ≡ Imm op to from (low value) }
{
    Instr::Imm(op, to, from, low(value))
}

// Adds the low 12 bits, where they are not all zero.
fn add_low(code: &mut Vec<Instr>, op: ImmOp, to: Reg, value: u64) -> Result<(), NoMemory>
    ensures { OnOk result (code.new.items ≡ code.old.items ++ low_code op to value) }
{
    if value % 4096 == 0 {
        return Ok(());
    }
    put(code, with_low(op, to, to, value))
}

/// Appends the two words that set a register to a number that 32 bits of two's complement hold.
pub fn wide(code: &mut Vec<Instr>, to: Reg, value: u64) -> Result<(), NoMemory>
    ensures { OnOk result (code.new.items ≡ code.old.items ++ wide_code to value) }
{
    put(code, upper(to, value))?;
    put(code, with_low(ImmOp::Addiw, to, to, value))
}

/// Appends words that set a register to a number: one where 12 bits of two's complement hold it, at most two where 32
/// do, and at most eight for the others.
pub fn number(code: &mut Vec<Instr>, to: Reg, value: u64) -> Result<(), NoMemory>
    ensures words { OnOk result (Appends (most_words value) code.old.items code.new.items) }
    ensures value { OnOk result (Makes to value code.old.items code.new.items) }
{
    known(to);
    if is_short(value) {
        return put(code, with_low(ImmOp::Addi, to, Reg::ZERO, value));
    }
    if is_word(value) {
        put(code, upper(to, value))?;
        return add_low(code, ImmOp::Addiw, to, value);
    }
    number(code, to, high(value))?;
    put(code, Instr::Shift(ShiftOp::Slli, to, to, 12))?;
    add_low(code, ImmOp::Addi, to, value)
}

// Appends words that move a base by all but the low 12 bits of an offset.
fn near(code: &mut Vec<Instr>, to: Reg, base: Reg, offset: u64) -> Result<(), NoMemory>
    requires { offset < 2 ^ 31 - 2048 }
    ensures { OnOk result (code.new.items ≡ code.old.items ++ near_code to base offset) }
{
    put(code, upper(to, offset))?;
    put(code, Instr::CapReg(CapRegOp::Cincoffset, to, base, to))
}

// The words of `load_capability`.
fn load_words(
    code: &mut Vec<Instr>,
    to: Reg,
    base: Reg,
    offset: u64,
    scratch: Reg,
) -> Result<(), NoMemory>
    requires { offset < 2 ^ 31 - 2048 }
    ensures { OnOk result (code.new.items ≡ code.old.items ++ load_code to base offset scratch) }
{
    if offset < 2048 {
        return put(code, Instr::Clc(to, base, offset as i32));
    }
    near(code, scratch, base, offset)?;
    put(code, Instr::Clc(to, scratch, low(offset)))
}

/// Appends words that load a capability from an offset behind a base: one where the offset is below 2048, else three,
/// by a scratch register that is not the base.
pub fn load_capability(
    code: &mut Vec<Instr>,
    to: Reg,
    base: Reg,
    offset: u64,
    scratch: Reg,
) -> Result<(), NoMemory>
    requires { offset < 2 ^ 31 - 2048 }
    ensures code { OnOk result (code.new.items ≡ code.old.items ++ load_code to base offset scratch) }
    ensures words { OnOk result (Appends (if nat_lt offset 2048 then 1 else 3) code.old.items code.new.items) }
{
    known(to);
    known(base);
    known(scratch);
    load_words(code, to, base, offset, scratch)
}

// The words of `store_capability`.
fn store_words(
    code: &mut Vec<Instr>,
    from: Reg,
    base: Reg,
    offset: u64,
    scratch: Reg,
) -> Result<(), NoMemory>
    requires { offset < 2 ^ 31 - 2048 }
    ensures { OnOk result (code.new.items ≡ code.old.items ++ store_code from base offset scratch) }
{
    if offset < 2048 {
        return put(code, Instr::Store(StoreOp::Csc, from, base, offset as i32));
    }
    near(code, scratch, base, offset)?;
    put(code, Instr::Store(StoreOp::Csc, from, scratch, low(offset)))
}

/// Appends words that store a capability at an offset behind a base: one where the offset is below 2048, else three, by
/// a scratch register that is neither the base nor what is stored.
pub fn store_capability(
    code: &mut Vec<Instr>,
    from: Reg,
    base: Reg,
    offset: u64,
    scratch: Reg,
) -> Result<(), NoMemory>
    requires { offset < 2 ^ 31 - 2048 }
    ensures code { OnOk result (code.new.items ≡ code.old.items ++ store_code from base offset scratch) }
    ensures words { OnOk result (Appends (if nat_lt offset 2048 then 1 else 3) code.old.items code.new.items) }
{
    known(from);
    known(base);
    known(scratch);
    store_words(code, from, base, offset, scratch)
}

// The words of `moved`.
fn move_base_words(code: &mut Vec<Instr>, to: Reg, base: Reg, offset: u64) -> Result<(), NoMemory>
    requires { offset < 2 ^ 31 - 2048 }
    ensures { OnOk result (code.new.items ≡ code.old.items ++ moved_code to base offset) }
{
    if offset < 2048 {
        return put(
            code,
            Instr::CapImm(CapImmOp::Cincoffsetimm, to, base, offset as i32),
        );
    }
    near(code, to, base, offset)?;
    if offset % 4096 == 0 {
        return Ok(());
    }
    put(
        code,
        Instr::CapImm(CapImmOp::Cincoffsetimm, to, to, low(offset)),
    )
}

/// Appends words that set a register to a base moved by an offset: one where the offset is below 2048, else at most
/// three. The register is not the base.
pub fn moved(code: &mut Vec<Instr>, to: Reg, base: Reg, offset: u64) -> Result<(), NoMemory>
    requires { offset < 2 ^ 31 - 2048 }
    ensures code { OnOk result (code.new.items ≡ code.old.items ++ moved_code to base offset) }
    ensures words { OnOk result (Appends (if nat_lt offset 2048 then 1 else 3) code.old.items code.new.items) }
{
    known(to);
    known(base);
    move_base_words(code, to, base, offset)
}
