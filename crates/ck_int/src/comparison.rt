//! The six comparisons of integers of a kind (C11 6.5.8, 6.5.9).
ghost use Rattle.std.specs.Prelude.{◌≡◌, int_lt};
ghost use Rattle.ck_int.specs.Arithmetic.{compare_of};
ghost use Rattle.ck_int.specs.Kinds.{form_of};
ghost use Rattle.ck_int.specs.Words.{word_of};

use super::conversion::reduce;
use super::kinds::{CmpOp, IntKind};

/// Whether the value that `a` keeps at a kind stands in a relation to the one that `b` keeps.
#[tactic(auto, using(crate::proofs::WordLaws::comparisons))]
pub fn compare(op: CmpOp, kind: IntKind, a: u64, b: u64) -> bool
    ensures { result ≡ compare_of op kind a b }
{
    let left = reduce(kind, a);
    let right = reduce(kind, b);
    match op {
        CmpOp::Lt => is_less(kind, left, right),
        CmpOp::Le => !is_less(kind, right, left),
        CmpOp::Gt => is_less(kind, right, left),
        CmpOp::Ge => !is_less(kind, left, right),
        CmpOp::Eq => left == right,
        CmpOp::Ne => left != right,
    }
}

// Whether one word read as the kind's is below another.
fn is_less(kind: IntKind, left: u64, right: u64) -> bool
    ensures { result ≡ int_lt (word_of (form_of kind) left) (word_of (form_of kind) right) }
{
    if kind.is_signed() {
        left.cast_signed() < right.cast_signed()
    } else {
        left < right
    }
}
