//! The ten binary operations on integers of a kind (C11 6.5.5 to 6.5.7, 6.5.10 to 6.5.12), defined for all
//! operands.
ghost use Rattle.std.specs.Prelude.{◌≡◌, ◌%◌, ◌^◌, ◌<◌, pos};
ghost use Rattle.std.specs.Int.{int_div_euclid};
ghost use Rattle.ck_int.specs.Kinds.{IsKept, form_of, kept_of};
ghost use Rattle.ck_int.specs.Arithmetic.{binary_of, promoted_width_of, quotient, remainder};
ghost use Rattle.ck_int.specs.Words.{word_of, word_result_of};

use super::conversion::reduce;
use super::kinds::{IntKind, IntOp};

/// An operation on the values that `a` and `b` keep at a kind, the result reduced to the kind.
///
/// Each operation is defined for all operands: sums, differences, products and left shifts wrap; a quotient by zero is
/// all ones, and the remainder by zero is the dividend; the least number divided by -1 is itself, with the remainder 0;
/// and a shift count is taken modulo the width of the promoted left operand, which is 64 at `I64` and `U64` and
/// otherwise 32.
pub fn binary(op: IntOp, kind: IntKind, a: u64, b: u64) -> u64
    ensures value { result ≡ binary_of op kind a b }
    ensures kept { IsKept kind result }
{
    let left = reduce(kind, a);
    let right = reduce(kind, b);
    reduce(kind, word_result(op, kind, left, right))
}

// The 64 bits of an operation's result, on two words read as the kind's.
#[tactic(auto, using(crate::proofs::WordLaws::word_results))]
fn word_result(op: IntOp, kind: IntKind, a: u64, b: u64) -> u64
    ensures { result ≡ word_result_of op kind a b }
{
    match op {
        IntOp::Add => a.wrapping_add(b),
        IntOp::Sub => a.wrapping_sub(b),
        IntOp::Mul => a.wrapping_mul(b),
        IntOp::Div => quotient(kind, a, b),
        IntOp::Rem => remainder(kind, a, b),
        IntOp::And => a & b,
        IntOp::Or => a | b,
        IntOp::Xor => a ^ b,
        IntOp::Shl => a << shift_count(kind, b),
        IntOp::Shr => shifted_right(kind, a, shift_count(kind, b)),
    }
}

fn quotient(kind: IntKind, a: u64, b: u64) -> u64
    ensures { result ≡ kept_of (quotient (word_of (form_of kind) a) (word_of (form_of kind) b)) }
{
    if b == 0 {
        u64::MAX
    } else if kind.is_signed() {
        a.cast_signed()
            .wrapping_div(b.cast_signed())
            .cast_unsigned()
    } else {
        a / b
    }
}

fn remainder(kind: IntKind, a: u64, b: u64) -> u64
    ensures { result ≡ kept_of (remainder (word_of (form_of kind) a) (word_of (form_of kind) b)) }
{
    if b == 0 {
        a
    } else if kind.is_signed() {
        a.cast_signed()
            .wrapping_rem(b.cast_signed())
            .cast_unsigned()
    } else {
        a % b
    }
}

fn shift_count(kind: IntKind, b: u64) -> u64
    ensures { result ≡ b % promoted_width_of kind }
{
    match kind {
        IntKind::I64 | IntKind::U64 => b % 64,
        _ => b % 32,
    }
}

fn shifted_right(kind: IntKind, a: u64, count: u64) -> u64
    requires { count < 64 }
    ensures { result ≡ kept_of (int_div_euclid (word_of (form_of kind) a) (pos (2 ^ count))) }
{
    if kind.is_signed() {
        (a.cast_signed() >> count).cast_unsigned()
    } else {
        a >> count
    }
}
