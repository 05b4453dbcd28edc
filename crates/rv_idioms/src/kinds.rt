//! The kinds of integers in registers.
ghost use Rattle.std.specs.Prelude.{◌≡◌, ◌%◌, ◌^◌, [], ◌∷◌, ◌++◌, OnOk, max, if◌then◌else◌};
ghost use Rattle.ck_int.specs.Kinds.{form_of, width_of, is_signed};
ghost use Rattle.rv_instr.specs.Range.{count_bits};
ghost use Rattle.rv_instr.specs.declared.instr.Instr.TheVariants.{Shift};
ghost use Rattle.rv_instr.specs.declared.ops.ShiftOp.TheVariants.{Slli};
ghost use Rattle.select_words.specs.Operations.{reduce_code, kept_code};
ghost use Rattle.tac_ir.specs.Costs.{is_wide};
ghost use Rattle.rv_emit.specs.Growing.{Grows};
ghost use Rattle.rv_idioms.specs.Operations.{reduce_words};

use ck_base::NoMemory;
use ck_int::IntKind;
use rv_emit::{Code, instructions as instr};
use rv_instr::{ImmOp, Reg, RegOp, ShiftOp};

/// Whether a kind has a sign.
pub fn is_signed(kind: IntKind) -> bool
    ensures { result ≡ is_signed (form_of kind) }
{
    matches!(
        kind,
        IntKind::I8 | IntKind::I16 | IntKind::I32 | IntKind::I64
    )
}

/// Whether a kind has 64 bits.
pub fn is_wide(kind: IntKind) -> bool
    ensures { result ≡ is_wide kind }
{
    matches!(kind, IntKind::I64 | IntKind::U64)
}

/// The bits of a kind. A truth value is kept in 8.
pub fn bits_of(kind: IntKind) -> u8
    ensures { result ≡ max 8 (width_of (form_of kind)) }
{
    match kind {
        IntKind::Bool | IntKind::I8 | IntKind::U8 => 8,
        IntKind::I16 | IntKind::U16 => 16,
        IntKind::I32 | IntKind::U32 => 32,
        IntKind::I64 | IntKind::U64 => 64,
    }
}

fn shift_twice(code: &mut Code, back: ShiftOp, count: u8, r: Reg, from: Reg) -> Result<(), NoMemory>
    ensures size { OnOk result (Grows 2 code.old code.new) }
    ensures text { OnOk result (code.new.text ≡ code.old.text ++
        Shift Slli r from (count % 2 ^ 6) ∷ Shift back r r (count % 2 ^ count_bits back) ∷ []) }
{
    code.put(instr::shift(ShiftOp::Slli, r, from, count))?;
    code.put(instr::shift(back, r, r, count))
}

/// A register becomes another, reduced to a kind. A kind of 64 bits has nothing to be reduced.
pub fn reduce(code: &mut Code, kind: IntKind, r: Reg, from: Reg) -> Result<(), NoMemory>
    ensures size { OnOk result (Grows (reduce_words kind) code.old code.new) }
    ensures text { OnOk result (code.new.text ≡ code.old.text ++ reduce_code kind r from) }
{
    match kind {
        IntKind::Bool => code.put(instr::operation(RegOp::Sltu, r, Reg::ZERO, from)),
        IntKind::I8 => shift_twice(code, ShiftOp::Srai, 56, r, from),
        IntKind::U8 => code.put(instr::immediate(ImmOp::Andi, r, from, 255)),
        IntKind::I16 => shift_twice(code, ShiftOp::Srai, 48, r, from),
        IntKind::U16 => shift_twice(code, ShiftOp::Srli, 48, r, from),
        IntKind::I32 => code.put(instr::immediate(ImmOp::Addiw, r, from, 0)),
        IntKind::U32 => shift_twice(code, ShiftOp::Srli, 32, r, from),
        IntKind::I64 | IntKind::U64 => Ok(()),
    }
}

/// A register becomes the integer of a kind that another has the bits of.
pub fn keep_bits(code: &mut Code, kind: IntKind, r: Reg, a: Reg) -> Result<(), NoMemory>
    ensures size { OnOk result (Grows (if is_wide kind then 1 else 2) code.old code.new) }
    ensures text { OnOk result (code.new.text ≡ code.old.text ++ kept_code kind r a) }
{
    match kind {
        IntKind::I64 | IntKind::U64 => code.put(instr::immediate(ImmOp::Addi, r, a, 0)),
        _ => reduce(code, kind, r, a),
    }
}
