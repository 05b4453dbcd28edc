//! Operations on integers, and where C leaves them undefined (C11 6.5p5, 6.5.5, 6.5.7).

ghost use Rattle.std.specs.Prelude.{◌≡◌, ◌≢◌, ◌*◌, ◌%◌, ◌-◌, ◌^◌, ◌<◌, ◌≤◌, ◌&&◌, ◌||◌, nat_lt, not, if◌then◌else◌};
ghost use Rattle.std.specs.Prelude.{pos, ◌+ℤ◌, ◌-ℤ◌, ◌*ℤ◌, int_le, int_div};
ghost use Rattle.cap_concentrate.specs.Rounding.{alignment, owned};
ghost use Rattle.cheri_c_sem.specs.Modes.{int_of, outside_width as is_outside_of, is_undefined as is_undefined_of};
ghost use Rattle.cheri_c_sem.specs.Modes.{loses as loses_of, overflows as overflows_in};
ghost use Rattle.ck_int.specs.Arithmetic.{promoted_width_of};
ghost use Rattle.ck_int.specs.Kinds.{form_of, is_signed as is_signed_form, modulo, value_of};
ghost use Rattle.std.specs.Ordering.{int_eq};
ghost use Rattle.object_memory.specs.Answers.{mode_of};
ghost use Rattle.object_memory.specs.Integers.{IsWord};

use cap_concentrate::{alignment_mask, rounded_length};
use ck_int::{IntKind, IntOp, binary};
use mean_work::unspecified;
use obj_mem::{Fault, Mode, Reason};

/// The number that low bits stand for in two's complement, where the highest of them is worth `sign`.
fn signed(low: u64, sign: u64) -> i128
    requires width { sign ≤ 2 ^ 63 }
    requires in_range { low < 2 * sign }
    ensures value { result ≡ (if nat_lt low sign then pos low else pos low -ℤ pos (2 * sign)) }
    ensures word { IsWord result }
{
    if low < sign {
        i128::from(low)
    } else {
        i128::from(low) - 2 * i128::from(sign)
    }
}

/// The number that 64 bits stand for at a kind.
#[tactic(auto, unfolding(ck_int::specs::Kinds::value_of, ck_int::specs::Kinds::reduced))]
fn number_of(kind: IntKind, value: u64) -> i128
    ensures value { result ≡ value_of kind value }
    ensures word { IsWord result }
{
    match kind {
        IntKind::Bool => i128::from(value != 0),
        IntKind::I8 => signed(value % 0x100, 0x80),
        IntKind::U8 => i128::from(value % 0x100),
        IntKind::I16 => signed(value % 0x1_0000, 0x8000),
        IntKind::U16 => i128::from(value % 0x1_0000),
        IntKind::I32 => signed(value % 0x1_0000_0000, 0x8000_0000),
        IntKind::U32 => i128::from(value % 0x1_0000_0000),
        IntKind::I64 => signed(value, 0x8000_0000_0000_0000),
        IntKind::U64 => i128::from(value),
    }
}

/// Whether a number is below the least or above the greatest one.
fn lies_outside(z: i128, least: i128, greatest: i128) -> bool
    ensures { result ≡ not (int_le least z && int_le z greatest) }
{
    !(least <= z && z <= greatest)
}

/// Whether a signed kind doesn't have a number.
fn overflows(kind: IntKind, z: i128) -> bool
    ensures { result ≡ overflows_in kind z }
{
    match kind {
        IntKind::I8 => lies_outside(z, -0x80, 0x7f),
        IntKind::I16 => lies_outside(z, -0x8000, 0x7fff),
        IntKind::I32 => lies_outside(z, -0x8000_0000, 0x7fff_ffff),
        IntKind::I64 => lies_outside(z, -0x8000_0000_0000_0000, 0x7fff_ffff_ffff_ffff),
        IntKind::Bool | IntKind::U8 | IntKind::U16 | IntKind::U32 | IntKind::U64 => false,
    }
}

fn is_signed(kind: IntKind) -> bool
    ensures { result ≡ is_signed_form (form_of kind) }
{
    matches!(
        kind,
        IntKind::I8 | IntKind::I16 | IntKind::I32 | IntKind::I64
    )
}

/// Whether a signed kind doesn't have a product.
#[tactic(auto, using(crate::proofs::Products::wide_overflows))]
fn product_overflows(kind: IntKind, x: i128, y: i128) -> bool
    ensures { result ≡ overflows_in kind (x *ℤ y) }
{
    match x.checked_mul(y) {
        None => is_signed(kind),
        Some(z) => overflows(kind, z),
    }
}

fn sum(x: i128, y: i128) -> i128
    requires left { IsWord x }
    requires right { IsWord y }
    ensures { result ≡ x +ℤ y }
{
    x + y
}

fn difference(x: i128, y: i128) -> i128
    requires left { IsWord x }
    requires right { IsWord y }
    ensures { result ≡ x -ℤ y }
{
    x - y
}

fn quotient(x: i128, y: i128) -> i128
    requires left { IsWord x }
    requires some { y ≢ pos 0 }
    ensures { result ≡ int_div x y }
{
    x / y
}

/// Whether C leaves a quotient undefined.
fn quotient_fails(kind: IntKind, x: i128, y: i128) -> bool
    requires { IsWord x }
    ensures { result ≡ (int_eq y (pos 0) || overflows_in kind (int_div x y)) }
{
    y == 0 || overflows(kind, quotient(x, y))
}

/// The width of the promoted left operand of a shift.
fn promoted_width(kind: IntKind) -> u32
    ensures { result ≡ promoted_width_of kind }
{
    match kind {
        IntKind::I64 | IntKind::U64 => 64,
        _ => 32,
    }
}

/// Whether a count is negative, or not below the width of the promoted left operand.
fn is_outside(kind: IntKind, y: i128) -> bool
    ensures { result ≡ is_outside_of kind y }
{
    y < 0 || i128::from(promoted_width(kind)) <= y
}

/// The power of two that a left shift multiplies by.
fn factor(kind: IntKind, y: i128) -> i128
    ensures { result ≡ pos (2 ^ modulo y (promoted_width_of kind)) }
{
    let count = y.rem_euclid(i128::from(promoted_width(kind))) as u32;
    (1u128 << count) as i128
}

/// A left shift of a negative signed number, or one whose result its kind doesn't have.
fn loses(kind: IntKind, x: i128, y: i128) -> bool
    ensures { result ≡ loses_of kind x y }
{
    is_signed(kind) && (x < 0 || product_overflows(kind, x, factor(kind, y)))
}

/// Whether C leaves an operation undefined.
fn is_undefined(op: IntOp, kind: IntKind, x: i128, y: i128) -> bool
    requires left { IsWord x }
    requires right { IsWord y }
    ensures { result ≡ is_undefined_of op kind x y }
{
    match op {
        IntOp::Add => overflows(kind, sum(x, y)),
        IntOp::Sub => overflows(kind, difference(x, y)),
        IntOp::Mul => product_overflows(kind, x, y),
        IntOp::Div | IntOp::Rem => quotient_fails(kind, x, y),
        IntOp::And | IntOp::Or | IntOp::Xor => false,
        IntOp::Shl => is_outside(kind, y) || loses(kind, x, y),
        IntOp::Shr => is_outside(kind, y),
    }
}

/// An operation on integers. In the strict mode what C leaves undefined is no answer.
pub(crate) fn operated(
    mode: Mode<'_>,
    op: IntOp,
    kind: IntKind,
    count: IntKind,
    x: u64,
    y: u64,
) -> Result<u64, Fault>
    ensures { result ≡ int_of (mode_of mode.entry) op kind count x y }
{
    match mode {
        Mode::Placed(_) => Ok(binary(op, kind, x, y)),
        Mode::Strict => if is_undefined(op, kind, number_of(kind, x), number_of(count, y)) {
            unspecified(Reason::Undefined)
        } else {
            Ok(binary(op, kind, x, y))
        },
    }
}

/// The owned length of an object of so many bytes, modulo 2^64.
pub fn rounded(length: u64) -> u64
    ensures { result ≡ owned length % 2 ^ 64 }
{
    rounded_length(length)
}

/// The mask of the addresses at which an object of so many bytes is aligned.
#[tactic(auto, using(crate::proofs::Roundings::masked))]
pub fn alignment_mask_of(length: u64) -> u64
    ensures { result ≡ 2 ^ 64 - alignment length }
{
    alignment_mask(length)
}
