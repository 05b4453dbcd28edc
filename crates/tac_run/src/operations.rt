//! Operations on values (C11 6.3, 6.5).
ghost use Rattle.std.specs.Prelude.{◌≡◌};
ghost use Rattle.obj_mem.specs.Values.{value_of};
ghost use Rattle.cheri_c_sem.specs.Operations.{compare_by, is_true, to_int, convert_by, number_by, int_by};
ghost use Rattle.mean_types.specs.Views.{kind_of};
ghost use Rattle.object_memory.specs.Answers.{seen};
ghost use Rattle.tac_ir.specs.Effects.{kind_of as kind_of_temp, kind_at};
ghost use Rattle.tac_run.specs.Holdings.{ops_of};

use crate::held::Held;
use ck_int::{CmpOp, IntKind, IntOp, compare, convert, wrap};
use mean_types::{INT, Kind, POINTER, int_kind, null_at, number_of, truth, zero_of};
use obj_mem::{Fault, Value};
use tac_ir::TacKind;

/// How the values of a temp are kept.
pub fn kind_of(k: TacKind) -> Kind
    ensures { kind_of result ≡ kind_of_temp k }
{
    match k {
        TacKind::Int(kind) => Kind::Plain(kind),
        TacKind::Cap(signed) => Kind::Capability(signed),
    }
}

/// The kind of a temp; of one that is not there, that of an `int`.
pub fn kind_at(kinds: &[TacKind], t: u32) -> Kind
    ensures { kind_of result ≡ kind_at kinds.now t }
{
    match kinds.get(t as usize) {
        None => INT,
        Some(k) => kind_of(*k),
    }
}

/// A comparison at a kind.
pub fn compared(m: &Held<'_>, op: CmpOp, kind: Kind, x: Value, y: Value) -> Result<bool, Fault>
    ensures { result ≡ compare_by (ops_of m.now) m.now.store op (kind_of kind) (value_of x) (value_of y) }
{
    match kind {
        Kind::Plain(k) => Ok(compare(op, k, number_of(x), number_of(y))),
        Kind::Capability(signed) => m.compare(op, signed, x, y),
    }
}

/// A scalar is true where it is other than 0, or than null (C11 6.8.4.1p2).
pub fn is_true(m: &Held<'_>, kind: Kind, x: Value) -> Result<bool, Fault>
    ensures { result ≡ is_true (ops_of m.now) m.now.store (kind_of kind) (value_of x) }
{
    compared(m, CmpOp::Ne, kind, x, zero_of(kind))
}

fn to_int(m: &Held<'_>, k: IntKind, x: Value) -> Result<Value, Fault>
    ensures { seen result ≡ to_int (ops_of m.now) m.now.store k (value_of x) }
{
    match k {
        IntKind::Bool => match is_true(m, POINTER, x) {
            Ok(b) => Ok(truth(b)),
            Err(e) => Err(e),
        },
        _ => match m.address(x) {
            Ok(a) => Ok(Value::Int(wrap(k, i128::from(a)))),
            Err(e) => Err(e),
        },
    }
}

/// A conversion (C11 6.3): a plain integer becomes null with that address, and a capability a plain integer by its
/// address; capabilities turn into each other unchanged.
pub fn converted(m: &Held<'_>, old: Kind, new: Kind, x: Value) -> Result<Value, Fault>
    ensures { seen result ≡ convert_by (ops_of m.now) m.now.store (kind_of old) (kind_of new) (value_of x) }
{
    match (old, new) {
        (Kind::Plain(j), Kind::Plain(k)) => Ok(Value::Int(convert(j, k, number_of(x)))),
        (Kind::Plain(_), Kind::Capability(_)) => Ok(null_at(number_of(x))),
        (Kind::Capability(_), Kind::Plain(k)) => to_int(m, k, x),
        (Kind::Capability(_), Kind::Capability(_)) => Ok(x),
    }
}

/// The 64 bits of a scalar: of a plain integer, or of an address.
fn number(m: &Held<'_>, kind: Kind, x: Value) -> Result<u64, Fault>
    ensures { result ≡ number_by (ops_of m.now) m.now.store (kind_of kind) (value_of x) }
{
    match kind {
        Kind::Plain(_) => Ok(number_of(x)),
        Kind::Capability(_) => m.address(x),
    }
}

/// An operation on integers of a kind; that of the right operand may be another.
pub fn whole(
    m: &Held<'_>,
    op: IntOp,
    k: IntKind,
    count: Kind,
    x: Value,
    y: Value,
) -> Result<Value, Fault>
    ensures { seen result ≡ int_by (ops_of m.now) m.now.store op k (kind_of count) (value_of x) (value_of y) }
{
    match number(m, count, y) {
        Err(e) => Err(e),
        Ok(b) => match m.integer(op, k, int_kind(count), number_of(x), b) {
            Err(e) => Err(e),
            Ok(n) => Ok(Value::Int(n)),
        },
    }
}
