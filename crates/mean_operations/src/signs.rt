//! Unary operations on values (C11 6.5.3.3).
ghost use Rattle.std.specs.Prelude.{◌≡◌, not};
ghost use Rattle.obj_mem.specs.Values.{value_of};
ghost use Rattle.cheri_c_sem.specs.Kinds.{truth, Plain, Capability};
ghost use Rattle.cheri_c_sem.specs.Operations.{on_ok, is_true};
ghost use Rattle.mean_types.specs.Views.{kind_of};
ghost use Rattle.mean_steps.specs.Machine.{no_world};
ghost use Rattle.mean_operations.specs.Answers.{seen};
ghost use Rattle.mean_operations.specs.Views.{unary_by};

use crate::arithmetic::{derive, is_true, whole};
use crate::operations::Operations;
use c_tree::UnaryOp;
use ck_int::{IntKind, IntOp};
use mean_types::{Kind, NOTHING, null_at, truth};
use obj_mem::{Fault, Value};

fn negated<B: Operations>(m: &B, kind: Kind, x: Value) -> Result<Value, Fault>
    ensures { seen result ≡ on_ok (B.meaning m.now) (λ b. Ok (truth (not b)))
        (is_true (B.meaning m.now) (B.held m.now) (kind_of kind) (value_of x)) }
{
    match is_true(m, kind, x) {
        Err(e) => Err(e),
        Ok(b) => Ok(truth(!b)),
    }
}

/// A sign is the operation on the whole number 0, or -1, and the operand.
fn sign_of_integer<B: Operations>(m: &B, op: UnaryOp, k: IntKind, x: Value) -> Result<Value, Fault>
    ensures { seen result ≡ unary_by (B.meaning m.now) no_world op (Plain k) (B.held m.now) (value_of x) }
{
    match op {
        UnaryOp::Plus => Ok(x),
        UnaryOp::Minus => whole(m, IntOp::Sub, k, Kind::Plain(k), NOTHING, x),
        UnaryOp::Complement => whole(m, IntOp::Xor, k, Kind::Plain(k), Value::Int(u64::MAX), x),
        UnaryOp::LogicalNot => negated(m, Kind::Plain(k), x),
    }
}

/// Of a capability integer it derives from this.
fn sign_of_capability<B: Operations>(
    m: &B,
    op: UnaryOp,
    signed: bool,
    x: Value,
) -> Result<Value, Fault>
    ensures { seen result ≡ unary_by (B.meaning m.now) no_world op (Capability signed) (B.held m.now) (value_of x) }
{
    let kind = Kind::Capability(signed);
    match op {
        UnaryOp::Plus => derive(m, IntOp::Xor, signed, kind, true, null_at(0), x),
        UnaryOp::Minus => derive(m, IntOp::Sub, signed, kind, true, null_at(0), x),
        UnaryOp::Complement => derive(m, IntOp::Xor, signed, kind, true, null_at(u64::MAX), x),
        UnaryOp::LogicalNot => negated(m, kind, x),
    }
}

/// A unary operation on an operand of a kind (C11 6.5.3.3).
pub fn signed<B: Operations>(m: &B, op: UnaryOp, kind: Kind, x: Value) -> Result<Value, Fault>
    ensures { seen result ≡ unary_by (B.meaning m.now) no_world op (kind_of kind) (B.held m.now) (value_of x) }
{
    match kind {
        Kind::Plain(k) => sign_of_integer(m, op, k, x),
        Kind::Capability(s) => sign_of_capability(m, op, s, x),
    }
}
