//! Comparisons, and branches on a truth value.
ghost use Rattle.std.specs.Prelude.{◌≡◌, pos, true, Some, OnOk, IfSome};
ghost use Rattle.rv_instr.specs.Range.{FitsBits};
ghost use Rattle.select_words.specs.Operations.{compares_signed};
ghost use Rattle.select_words.specs.Operations.{compare_code, compare_number, compare_zero, ComparisonWords};
ghost use Rattle.select_words.specs.Forms.{OfOne, OfTwo, Other};
ghost use Rattle.select_words.specs.Emitted.{IsNumber};
ghost use Rattle.cap_machine.specs.Integers.{extended};
ghost use Rattle.select_words.specs.Jumps.{inverted};
ghost use Rattle.tac_ir.specs.declared.code.TacInstr.TheVariants.{Branch};
ghost use Rattle.rv_select.specs.Choosing.{chosen, Chooses};
ghost use Rattle.rv_select.specs.Noting.{Selects};
ghost use Rattle.rv_emit.specs.Growing.{Grows, Extends, Puts};
ghost use Rattle.rv_select.specs.Work.{is_equality, takes_number};

use crate::function::Function;
use crate::homes::{keep, operand};
use ck_base::NoMemory;
use ck_int::CmpOp;
use rv_emit::Code;
use rv_idioms::{compare, compare_number, compare_zero, is_signed, left, right};
use rv_instr::{BranchOp, Reg};
use tac_ir::TacKind;

/// Whether values of a kind are compared with their signs.
fn compares_signed(kind: TacKind) -> bool
    ensures { result ≡ compares_signed kind }
{
    match kind {
        TacKind::Int(k) => is_signed(k),
        TacKind::Cap(signed) => signed,
    }
}

/// Whether a comparison is one of equality, or its opposite.
fn is_equality(op: CmpOp) -> bool
    ensures { result ≡ is_equality op }
{
    matches!(op, CmpOp::Eq | CmpOp::Ne)
}

/// Whether a comparison is one of equality with zero, or its opposite.
fn compares_zero(op: CmpOp, number: i32) -> bool
    ensures { result ≡ true → (is_equality op ≡ true) × (number ≡ pos 0) }
{
    number == 0 && is_equality(op)
}

/// Whether a comparison with a number has a form of its own.
fn takes_number(op: CmpOp) -> bool
    ensures { result ≡ takes_number op }
{
    matches!(op, CmpOp::Lt | CmpOp::Ge | CmpOp::Eq | CmpOp::Ne)
}

/// The number that a temp is, where a comparison with it has a form of its own.
fn short_for(f: &Function<'_>, op: CmpOp, t: u32) -> Option<i32>
    ensures fits { IfSome result (FitsBits 12) }
    ensures takes { IfSome result (λ v. takes_number op ≡ true) }
    ensures is { IfSome result (λ v. IsNumber (chosen f.now) t (extended v)) }
{
    if takes_number(op) { f.short(t) } else { None }
}

/// A comparison of a temp with zero.
fn with_zero(code: &mut Code, f: &Function<'_>, op: CmpOp, to: u32, a: u32) -> Result<(), NoMemory>
    requires { is_equality op ≡ true }
    ensures size { OnOk result (Grows 11 code.old code.new) }
    ensures words { OnOk result (Chooses f.now to → Chooses f.now a →
        Puts (OfOne (chosen f.now) to a (λ r x ws. Some ws ≡ compare_zero op r x)) code.old code.new) }
{
    let a = operand(code, f, a, left())?;
    let r = f.target(to);
    compare_zero(code, op, r, a)?;
    keep(code, f, to, r)
}

/// A comparison of a temp with a number of 12 bits.
fn with_number(
    code: &mut Code,
    f: &Function<'_>,
    op: CmpOp,
    signed: bool,
    to: u32,
    a: u32,
    number: i32,
) -> Result<(), NoMemory>
    requires fits { FitsBits 12 number }
    requires takes { takes_number op ≡ true }
    ensures size { OnOk result (Grows 11 code.old code.new) }
    ensures words { OnOk result (Chooses f.now to → Chooses f.now a →
        Puts (OfOne (chosen f.now) to a (λ r x ws. Some ws ≡ compare_number op signed number r x))
        code.old code.new) }
{
    let a = operand(code, f, a, left())?;
    let r = f.target(to);
    compare_number(code, op, signed, r, a, number)?;
    keep(code, f, to, r)
}

/// A comparison of two temps in registers.
fn of_registers(
    code: &mut Code,
    f: &Function<'_>,
    op: CmpOp,
    signed: bool,
    to: u32,
    a: u32,
    b: u32,
) -> Result<(), NoMemory>
    ensures size { OnOk result (Grows 11 code.old code.new) }
    ensures words { OnOk result (Chooses f.now to → Chooses f.now a → Chooses f.now b →
        Puts (OfTwo (chosen f.now) to a (Other (chosen f.now) b) (λ r x y ws. ws ≡ compare_code op signed r x y))
        code.old code.new) }
{
    let a = operand(code, f, a, left())?;
    let b = operand(code, f, b, right())?;
    let r = f.target(to);
    compare(code, op, signed, r, a, b)?;
    keep(code, f, to, r)
}

/// A comparison of two temps.
pub fn comparison(
    code: &mut Code,
    f: &Function<'_>,
    op: CmpOp,
    kind: TacKind,
    to: u32,
    a: u32,
    b: u32,
) -> Result<(), NoMemory>
    ensures size { OnOk result (Grows 11 code.old code.new) }
    ensures words { OnOk result (Chooses f.now to → Chooses f.now a → Chooses f.now b →
        Puts (ComparisonWords (chosen f.now) op kind to a b) code.old code.new) }
{
    let signed = compares_signed(kind);
    match short_for(f, op, b) {
        Some(number) => {
            if compares_zero(op, number) {
                with_zero(code, f, op, to, a)
            } else {
                with_number(code, f, op, signed, to, a, number)
            }
        }
        None => of_registers(code, f, op, signed, to, a, b),
    }
}

/// The branch that is taken where the truth of a register isn't `when`.
fn inverted(when: bool) -> BranchOp
    ensures { result ≡ inverted when }
{
    if when { BranchOp::Beq } else { BranchOp::Bne }
}

/// Jumps where the truth of a temp is `when`: a branch over the jump where it isn't.
pub fn branch(
    code: &mut Code,
    f: &Function<'_>,
    on: u32,
    when: bool,
    label: u32,
) -> Result<(), NoMemory>
    ensures size { OnOk result (Extends 5 code.old code.new) }
    ensures words { OnOk result (Chooses f.now on →
        Selects (chosen f.now) (Branch on when label) code.old code.new) }
{
    let r = operand(code, f, on, left())?;
    let over = code.branch(inverted(when), r, Reg::ZERO)?;
    code.jump(label)?;
    code.land(over);
    Ok(())
}
