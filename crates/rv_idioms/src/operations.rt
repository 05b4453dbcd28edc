//! Which operation computes with registers, and what ends it.
ghost use Rattle.std.specs.Prelude.{◌≡◌, ◌≤◌, ◌++◌, OnOk};
ghost use Rattle.ck_int.specs.Kinds.{form_of, width_of};
ghost use Rattle.select_words.specs.Integers.{long_op, short_op};
ghost use Rattle.select_words.specs.Operations.{AtKind, add_op, finish_code, is_exact, is_exact_word, selected_op};
ghost use Rattle.select_words.specs.Operations.{shift_by};
ghost use Rattle.rv_emit.specs.Growing.{Grows};
ghost use Rattle.rv_idioms.specs.Operations.{exact_below, reduce_words, without_sign};

use crate::kinds::{is_signed, is_wide, reduce};
use ck_base::NoMemory;
use ck_int::{IntKind, IntOp};
use rv_emit::Code;
use rv_instr::{ImmOp, Reg, RegOp, ShiftOp};

fn long_op(op: IntOp) -> RegOp
    ensures { result ≡ long_op op }
{
    match op {
        IntOp::Add => RegOp::Add,
        IntOp::Sub => RegOp::Sub,
        IntOp::Mul => RegOp::Mul,
        IntOp::Div => RegOp::Div,
        IntOp::Rem => RegOp::Rem,
        IntOp::And => RegOp::And,
        IntOp::Or => RegOp::Or,
        IntOp::Xor => RegOp::Xor,
        IntOp::Shl => RegOp::Sll,
        IntOp::Shr => RegOp::Sra,
    }
}

fn word_op(op: IntOp) -> RegOp
    ensures { result ≡ short_op op }
{
    match op {
        IntOp::Add => RegOp::Addw,
        IntOp::Sub => RegOp::Subw,
        IntOp::Mul => RegOp::Mulw,
        IntOp::Div => RegOp::Divw,
        IntOp::Rem => RegOp::Remw,
        IntOp::And => RegOp::And,
        IntOp::Or => RegOp::Or,
        IntOp::Xor => RegOp::Xor,
        IntOp::Shl => RegOp::Sllw,
        IntOp::Shr => RegOp::Sraw,
    }
}

// The operation without a sign. The remainder of two numbers of 32 bits is the same in 64.
fn unsigned_op(op: RegOp) -> RegOp
    ensures { result ≡ without_sign op }
{
    match op {
        RegOp::Div => RegOp::Divu,
        RegOp::Rem | RegOp::Remw => RegOp::Remu,
        RegOp::Sra => RegOp::Srl,
        RegOp::Divw => RegOp::Divuw,
        RegOp::Sraw => RegOp::Srlw,
        other => other,
    }
}

/// The operation of two registers. A kind of fewer than 32 bits is promoted to 32, also for the count of a shift.
pub fn reg_op(kind: IntKind, op: IntOp) -> RegOp
    ensures { AtKind kind op → result ≡ selected_op kind op }
{
    let signed = if is_wide(kind) {
        long_op(op)
    } else {
        word_op(op)
    };
    if is_signed(kind) {
        signed
    } else {
        unsigned_op(signed)
    }
}

/// The addition of a number.
pub fn add_op(kind: IntKind) -> ImmOp
    ensures { result ≡ add_op kind }
{
    if is_wide(kind) {
        ImmOp::Addi
    } else {
        ImmOp::Addiw
    }
}

/// The shift of a kind by a count.
pub fn shift_op(kind: IntKind, op: IntOp) -> ShiftOp
    ensures { 32 ≤ width_of (form_of kind) → result ≡ shift_by kind op }
{
    match (op, kind) {
        (IntOp::Shl, IntKind::I64 | IntKind::U64) => ShiftOp::Slli,
        (IntOp::Shl, _) => ShiftOp::Slliw,
        (_, IntKind::I32) => ShiftOp::Sraiw,
        (_, IntKind::I8 | IntKind::I16 | IntKind::I64) => ShiftOp::Srai,
        _ => ShiftOp::Srli,
    }
}

/// Whether the result has 32 bits without a sign, without being reduced.
fn is_exact_word(op: IntOp, by_number: bool) -> bool
    ensures { result ≡ is_exact_word op by_number }
{
    match op {
        IntOp::And | IntOp::Or | IntOp::Xor | IntOp::Rem => true,
        IntOp::Shr => by_number,
        _ => false,
    }
}

/// Whether the result has a kind of fewer than 32 bits, without being reduced.
fn is_exact_below(op: IntOp) -> bool
    ensures { result ≡ exact_below op }
{
    matches!(op, IntOp::And | IntOp::Or | IntOp::Xor | IntOp::Shr)
}

/// Whether the result has its kind without being reduced.
fn is_exact(op: IntOp, kind: IntKind, by_number: bool) -> bool
    ensures { AtKind kind op → result ≡ is_exact kind op by_number }
{
    match kind {
        IntKind::I32 | IntKind::I64 | IntKind::U64 => true,
        IntKind::U32 => is_exact_word(op, by_number),
        _ => is_exact_below(op),
    }
}

/// Reduces a result to its kind, where it has to be.
pub fn finish(
    code: &mut Code,
    op: IntOp,
    kind: IntKind,
    by_number: bool,
    r: Reg,
) -> Result<(), NoMemory>
    ensures size { OnOk result (Grows (reduce_words kind) code.old code.new) }
    ensures text { OnOk result (AtKind kind op →
        code.new.text ≡ code.old.text ++ finish_code kind op by_number r) }
{
    if is_exact(op, kind, by_number) {
        Ok(())
    } else {
        reduce(code, kind, r, r)
    }
}
