//! The results of the integer instructions.
ghost use Rattle.std.specs.Prelude.{◌≡◌, ℕ, ◌<◌, ◌≤◌, ◌^◌, ◌*◌};
ghost use Rattle.cap_machine.specs.Integers.{result_of, immediate_op, shift_op, is_taken, extended, upper, word};
ghost use Rattle.cap_machine.specs.Integers.{loaded_kind, loaded_bytes, one_where};

use ck_int::{CmpOp, IntKind, IntOp, binary, compare, convert};
use rv_instr::{BranchOp, ImmOp, LoadOp, RegOp, ShiftOp};

/// The sign extension of the low 32 bits.
fn word(v: u64) -> u64
    ensures { result ≡ word v }
{
    convert(IntKind::U32, IntKind::I32, v)
}

/// The result of an operation of two registers.
#[inline(always)]
#[tactic(auto, unfolding(crate::specs::Integers::result_of))]
pub fn result_of(op: RegOp, a: u64, b: u64) -> u64
    ensures { result ≡ result_of op a b }
{
    match op {
        RegOp::Add => binary(IntOp::Add, IntKind::I64, a, b),
        RegOp::Sub => binary(IntOp::Sub, IntKind::I64, a, b),
        RegOp::And => binary(IntOp::And, IntKind::I64, a, b),
        RegOp::Or => binary(IntOp::Or, IntKind::I64, a, b),
        RegOp::Xor => binary(IntOp::Xor, IntKind::I64, a, b),
        RegOp::Sll => binary(IntOp::Shl, IntKind::I64, a, b),
        RegOp::Srl => binary(IntOp::Shr, IntKind::U64, a, b),
        RegOp::Sra => binary(IntOp::Shr, IntKind::I64, a, b),
        RegOp::Slt => u64::from(compare(CmpOp::Lt, IntKind::I64, a, b)),
        RegOp::Sltu => u64::from(compare(CmpOp::Lt, IntKind::U64, a, b)),
        RegOp::Mul => binary(IntOp::Mul, IntKind::I64, a, b),
        RegOp::Div => binary(IntOp::Div, IntKind::I64, a, b),
        RegOp::Divu => binary(IntOp::Div, IntKind::U64, a, b),
        RegOp::Rem => binary(IntOp::Rem, IntKind::I64, a, b),
        RegOp::Remu => binary(IntOp::Rem, IntKind::U64, a, b),
        RegOp::Addw => binary(IntOp::Add, IntKind::I32, a, b),
        RegOp::Subw => binary(IntOp::Sub, IntKind::I32, a, b),
        RegOp::Sllw => binary(IntOp::Shl, IntKind::I32, a, b),
        RegOp::Srlw => word(binary(IntOp::Shr, IntKind::U32, a, b)),
        RegOp::Sraw => binary(IntOp::Shr, IntKind::I32, a, b),
        RegOp::Mulw => binary(IntOp::Mul, IntKind::I32, a, b),
        RegOp::Divw => binary(IntOp::Div, IntKind::I32, a, b),
        RegOp::Divuw => word(binary(IntOp::Div, IntKind::U32, a, b)),
        RegOp::Remw => binary(IntOp::Rem, IntKind::I32, a, b),
        RegOp::Remuw => word(binary(IntOp::Rem, IntKind::U32, a, b)),
    }
}

/// The register operation of an instruction with an immediate.
#[inline(always)]
pub fn immediate_op(op: ImmOp) -> RegOp
    ensures { result ≡ immediate_op op }
{
    match op {
        ImmOp::Addi => RegOp::Add,
        ImmOp::Slti => RegOp::Slt,
        ImmOp::Sltiu => RegOp::Sltu,
        ImmOp::Xori => RegOp::Xor,
        ImmOp::Ori => RegOp::Or,
        ImmOp::Andi => RegOp::And,
        ImmOp::Addiw => RegOp::Addw,
    }
}

/// The register operation of a shift by a count in the instruction.
#[inline(always)]
pub fn shift_op(op: ShiftOp) -> RegOp
    ensures { result ≡ shift_op op }
{
    match op {
        ShiftOp::Slli => RegOp::Sll,
        ShiftOp::Srli => RegOp::Srl,
        ShiftOp::Srai => RegOp::Sra,
        ShiftOp::Slliw => RegOp::Sllw,
        ShiftOp::Srliw => RegOp::Srlw,
        ShiftOp::Sraiw => RegOp::Sraw,
    }
}

/// Whether a branch is taken.
#[tactic(auto, unfolding(crate::specs::Integers::is_taken))]
pub fn is_taken(op: BranchOp, a: u64, b: u64) -> bool
    ensures { result ≡ is_taken op a b }
{
    match op {
        BranchOp::Beq => compare(CmpOp::Eq, IntKind::I64, a, b),
        BranchOp::Bne => compare(CmpOp::Ne, IntKind::I64, a, b),
        BranchOp::Blt => compare(CmpOp::Lt, IntKind::I64, a, b),
        BranchOp::Bge => compare(CmpOp::Ge, IntKind::I64, a, b),
        BranchOp::Bltu => compare(CmpOp::Lt, IntKind::U64, a, b),
        BranchOp::Bgeu => compare(CmpOp::Ge, IntKind::U64, a, b),
    }
}

/// An immediate's sign extension to 64 bits.
#[inline(always)]
#[tactic(auto, unfolding(ck_int::specs::Kinds::kept_of))]
pub fn extended(z: i32) -> u64
    ensures { result ≡ extended z }
{
    i64::from(z).cast_unsigned()
}

/// The 20 upper bits of a word, sign-extended to 64 bits.
pub fn upper(n: u32) -> u64
    ensures { result ≡ upper n }
{
    word(u64::from(n) * 4096)
}

/// The kind that a load reads.
#[inline(always)]
pub fn loaded_kind(op: LoadOp) -> IntKind
    ensures { result ≡ loaded_kind op }
{
    match op {
        LoadOp::Lb => IntKind::I8,
        LoadOp::Lh => IntKind::I16,
        LoadOp::Lw => IntKind::I32,
        LoadOp::Ld => IntKind::I64,
        LoadOp::Lbu => IntKind::U8,
        LoadOp::Lhu => IntKind::U16,
        LoadOp::Lwu => IntKind::U32,
    }
}

/// The number of bytes that a load reads.
#[inline(always)]
pub fn loaded_bytes(op: LoadOp) -> u8
    ensures { result ≡ loaded_bytes op }
{
    match op {
        LoadOp::Lb | LoadOp::Lbu => 1,
        LoadOp::Lh | LoadOp::Lhu => 2,
        LoadOp::Lw | LoadOp::Lwu => 4,
        LoadOp::Ld => 8,
    }
}
