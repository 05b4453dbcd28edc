//! Operations on values (C11 6.3, 6.5; CHERI C/C++ Programming Guide, UCAM-CL-TR-947).
ghost use Rattle.std.specs.Prelude.{◌≡◌, true, false};
ghost use Rattle.obj_mem.specs.Values.{value_of};
ghost use Rattle.cheri_c_sem.specs.Operations.{on_ok, compare_by, is_true, to_int, convert_by, number_by, int_by};
ghost use Rattle.cheri_c_sem.specs.Operations.{derive_by, steps_of, move_by, capability_by, plus_by, difference_by};
ghost use Rattle.mean_types.specs.Views.{kind_of};
ghost use Rattle.cheri_c_sem.specs.Meaning.{operate_by};
ghost use Rattle.cheri_c_sem.specs.Modes.{Store};
ghost use Rattle.cheri_c_sem.specs.Operations as sem;
ghost use Rattle.mean_steps.specs.Machine.{no_world};
ghost use Rattle.mean_operations.specs.Answers.{seen};
ghost use Rattle.mean_operations.specs.Views.{operation_of};

use crate::operations::{Operations, Work};
use ck_int::{CmpOp, IntKind, IntOp, binary, compare, convert, wrap};
use mean_types::{Kind, POINTER, address_kind, int_kind, null_at, number_of, truth, zero_of};
use obj_mem::{Fault, Value};

/// A binary operation whose result has the kind of its computation.
#[derive(Clone, Copy)]
pub enum Operation {
    /// Of integers of a kind; the kind of the right operand.
    Whole(IntOp, IntKind, Kind),
    /// Of capability integers.
    Derived(Derived),
    /// A pointer and an integer.
    Moved(Moved),
    /// The difference of two pointers to elements of a size.
    Apart(u64),
}

/// An operation on capability integers.
#[derive(Clone, Copy)]
pub struct Derived {
    pub op: IntOp,
    pub signed: bool,
    /// The kind of the right operand.
    pub count: Kind,
    /// The result derives from the right operand.
    pub right: bool,
    /// The other operand was converted from a plain integer.
    pub plain: bool,
}

/// A pointer moved by an integer.
#[derive(Clone, Copy)]
pub struct Moved {
    /// The size of an element.
    pub size: u64,
    /// The integer is taken away.
    pub minus: bool,
    /// It stands left of the pointer.
    pub left: bool,
    /// Its kind.
    pub index: Kind,
}

/// A comparison at a kind.
pub fn compared<B: Operations>(
    m: &B,
    op: CmpOp,
    kind: Kind,
    x: Value,
    y: Value,
) -> Result<bool, Fault>
    ensures { result ≡ compare_by (B.meaning m.now) (B.held m.now) op (kind_of kind) (value_of x) (value_of y) }
{
    match kind {
        Kind::Plain(k) => Ok(compare(op, k, number_of(x), number_of(y))),
        Kind::Capability(signed) => m.compare(op, signed, x, y),
    }
}

/// A scalar is true where it is other than 0, or than null (C11 6.8.4.1p2).
pub fn is_true<B: Operations>(m: &B, kind: Kind, x: Value) -> Result<bool, Fault>
    ensures { result ≡ is_true (B.meaning m.now) (B.held m.now) (kind_of kind) (value_of x) }
{
    compared(m, CmpOp::Ne, kind, x, zero_of(kind))
}

fn to_int<B: Operations>(m: &B, k: IntKind, x: Value) -> Result<Value, Fault>
    ensures { seen result ≡ to_int (B.meaning m.now) (B.held m.now) k (value_of x) }
{
    match k {
        IntKind::Bool => match is_true(m, POINTER, x) {
            Ok(b) => Ok(truth(b)),
            Err(e) => Err(e),
        },
        _ => match m.address(x) {
            Ok(a) => Ok(Value::Int(wrap(k, i128::from(a)))),
            Err(e) => Err(e),
        },
    }
}

/// A conversion (C11 6.3): a plain integer becomes null with that address, and a capability a plain integer by its
/// address; capabilities turn into each other unchanged.
pub fn converted<B: Operations>(m: &B, old: Kind, new: Kind, x: Value) -> Result<Value, Fault>
    ensures { seen result ≡ convert_by (B.meaning m.now) (B.held m.now) (kind_of old) (kind_of new) (value_of x) }
{
    match (old, new) {
        (Kind::Plain(j), Kind::Plain(k)) => Ok(Value::Int(convert(j, k, number_of(x)))),
        (Kind::Plain(_), Kind::Capability(_)) => Ok(null_at(number_of(x))),
        (Kind::Capability(_), Kind::Plain(k)) => to_int(m, k, x),
        (Kind::Capability(_), Kind::Capability(_)) => Ok(x),
    }
}

/// The 64 bits of a scalar: of a plain integer, or of an address.
fn number<B: Operations>(m: &B, kind: Kind, x: Value) -> Result<u64, Fault>
    ensures { result ≡ number_by (B.meaning m.now) (B.held m.now) (kind_of kind) (value_of x) }
{
    match kind {
        Kind::Plain(_) => Ok(number_of(x)),
        Kind::Capability(_) => m.address(x),
    }
}

/// An operation on integers.
pub(crate) fn whole<B: Operations>(
    m: &B,
    op: IntOp,
    k: IntKind,
    count: Kind,
    x: Value,
    y: Value,
) -> Result<Value, Fault>
    ensures { seen result ≡ int_by (B.meaning m.now) (B.held m.now) op k (kind_of count) (value_of x) (value_of y) }
{
    match number(m, count, y) {
        Err(e) => Err(e),
        Ok(b) => match m.integer(op, k, int_kind(count), number_of(x), b) {
            Err(e) => Err(e),
            Ok(n) => Ok(Value::Int(n)),
        },
    }
}

/// What derives from a capability is that capability with the computed address.
pub(crate) fn derive<B: Operations>(
    m: &B,
    op: IntOp,
    signed: bool,
    count: Kind,
    right: bool,
    x: Value,
    y: Value,
) -> Result<Value, Fault>
    ensures { seen result ≡ derive_by (B.meaning m.now) (B.held m.now) op signed (kind_of count) right (value_of x)
        (value_of y) }
{
    let a = match m.address(x) {
        Err(e) => return Err(e),
        Ok(a) => a,
    };
    let b = match number(m, count, y) {
        Err(e) => return Err(e),
        Ok(b) => b,
    };
    match m.integer(op, address_kind(signed), int_kind(count), a, b) {
        Err(e) => Err(e),
        Ok(n) => m.work(Work::SetAddress, if right { y } else { x }, Value::Int(n)),
    }
}

/// A number of bytes to move by, or back by it, modulo 2^64.
fn steps_of(minus: bool, n: u64) -> u64
    ensures { (ops : sem.Operations Store) → result ≡ steps_of ops minus n }
{
    if minus { n.wrapping_neg() } else { n }
}

fn move_by<B: Operations>(m: &B, minus: bool, x: Value, n: u64) -> Result<Value, Fault>
    ensures { seen result ≡ move_by (B.meaning m.now) (B.held m.now) minus (value_of x) n }
{
    m.offset(x, steps_of(minus, n))
}

/// A pointer moved by an operand of a kind.
fn move_by_operand<B: Operations>(
    m: &B,
    minus: bool,
    x: Value,
    count: Kind,
    y: Value,
) -> Result<Value, Fault>
    ensures { seen result ≡ on_ok (B.meaning m.now) (move_by (B.meaning m.now) (B.held m.now) minus (value_of x))
        (number_by (B.meaning m.now) (B.held m.now) (kind_of count) (value_of y)) }
{
    match number(m, count, y) {
        Err(e) => Err(e),
        Ok(n) => move_by(m, minus, x, n),
    }
}

/// The right operand, a pointer, moved by the address of the left one.
fn move_right<B: Operations>(m: &B, x: Value, y: Value) -> Result<Value, Fault>
    ensures { seen result ≡ on_ok (B.meaning m.now) (move_by (B.meaning m.now) (B.held m.now) false (value_of y))
        ((B.meaning m.now).address (B.held m.now) (value_of x)) }
{
    match m.address(x) {
        Err(e) => Err(e),
        Ok(n) => move_by(m, false, y, n),
    }
}

/// A plain integer added to the left operand, which moves where it points to an object.
fn added_left<B: Operations>(
    m: &B,
    signed: bool,
    count: Kind,
    x: Value,
    y: Value,
) -> Result<Value, Fault>
    ensures { seen result ≡ capability_by (B.meaning m.now) (B.held m.now) IntOp.Add signed (kind_of count) false true
        (value_of x) (value_of y) }
{
    match x {
        Value::Live(_, _, _, _, _) => move_by_operand(m, false, x, count, y),
        Value::Int(_) | Value::Fun(_) | Value::Raw(_, _) => derive(
            m,
            IntOp::Add,
            signed,
            count,
            false,
            x,
            y,
        ),
    }
}

/// A plain integer added to the right operand.
fn added_right<B: Operations>(
    m: &B,
    signed: bool,
    count: Kind,
    x: Value,
    y: Value,
) -> Result<Value, Fault>
    ensures { seen result ≡ capability_by (B.meaning m.now) (B.held m.now) IntOp.Add signed (kind_of count) true true
        (value_of x) (value_of y) }
{
    match y {
        Value::Live(_, _, _, _, _) => move_right(m, x, y),
        Value::Int(_) | Value::Fun(_) | Value::Raw(_, _) => derive(
            m,
            IntOp::Add,
            signed,
            count,
            true,
            x,
            y,
        ),
    }
}

/// A plain integer taken from the left operand.
fn taken_left<B: Operations>(
    m: &B,
    signed: bool,
    count: Kind,
    x: Value,
    y: Value,
) -> Result<Value, Fault>
    ensures { seen result ≡ capability_by (B.meaning m.now) (B.held m.now) IntOp.Sub signed (kind_of count) false true
        (value_of x) (value_of y) }
{
    match x {
        Value::Live(_, _, _, _, _) => move_by_operand(m, true, x, count, y),
        Value::Int(_) | Value::Fun(_) | Value::Raw(_, _) => derive(
            m,
            IntOp::Sub,
            signed,
            count,
            false,
            x,
            y,
        ),
    }
}

fn added<B: Operations>(m: &B, d: Derived, x: Value, y: Value) -> Result<Value, Fault>
    ensures { seen result ≡ capability_by (B.meaning m.now) (B.held m.now) IntOp.Add d.signed
        (kind_of d.count) d.right d.plain (value_of x) (value_of y) }
{
    if d.right {
        if d.plain {
            added_right(m, d.signed, d.count, x, y)
        } else {
            derive(m, IntOp::Add, d.signed, d.count, true, x, y)
        }
    } else if d.plain {
        added_left(m, d.signed, d.count, x, y)
    } else {
        derive(m, IntOp::Add, d.signed, d.count, false, x, y)
    }
}

fn taken<B: Operations>(m: &B, d: Derived, x: Value, y: Value) -> Result<Value, Fault>
    ensures { seen result ≡ capability_by (B.meaning m.now) (B.held m.now) IntOp.Sub d.signed
        (kind_of d.count) d.right d.plain (value_of x) (value_of y) }
{
    if d.right {
        derive(m, IntOp::Sub, d.signed, d.count, true, x, y)
    } else if d.plain {
        taken_left(m, d.signed, d.count, x, y)
    } else {
        derive(m, IntOp::Sub, d.signed, d.count, false, x, y)
    }
}

/// Where a plain integer is added to a pointer to an object, or taken from it, the pointer moves.
fn capability<B: Operations>(m: &B, d: Derived, x: Value, y: Value) -> Result<Value, Fault>
    ensures { seen result ≡ capability_by (B.meaning m.now) (B.held m.now) d.op d.signed
        (kind_of d.count) d.right d.plain (value_of x) (value_of y) }
{
    match d.op {
        IntOp::Add => added(m, d, x, y),
        IntOp::Sub => taken(m, d, x, y),
        IntOp::Mul
        | IntOp::Div
        | IntOp::Rem
        | IntOp::And
        | IntOp::Or
        | IntOp::Xor
        | IntOp::Shl
        | IntOp::Shr => derive(m, d.op, d.signed, d.count, d.right, x, y),
    }
}

/// A pointer moved by a number of elements, up or down.
fn plus<B: Operations>(
    m: &B,
    size: u64,
    minus: bool,
    index: Kind,
    x: Value,
    y: Value,
) -> Result<Value, Fault>
    ensures { seen result ≡ plus_by (B.meaning m.now) (B.held m.now) size minus (kind_of index) (value_of x)
        (value_of y) }
{
    match number(m, index, y) {
        Err(e) => Err(e),
        Ok(n) => move_by(m, minus, x, n.wrapping_mul(size)),
    }
}

/// The difference of two pointers in elements of a size, toward zero (C11 6.5.6p9).
fn difference<B: Operations>(m: &B, size: u64, x: Value, y: Value) -> Result<Value, Fault>
    ensures { seen result ≡ difference_by (B.meaning m.now) (B.held m.now) size (value_of x) (value_of y) }
{
    match m.difference(x, y) {
        Err(e) => Err(e),
        Ok(bytes) => Ok(Value::Int(binary(IntOp::Div, IntKind::I64, bytes, size))),
    }
}

/// A binary operation.
pub fn operated<B: Operations>(m: &B, op: Operation, x: Value, y: Value) -> Result<Value, Fault>
    ensures { seen result ≡ operate_by (B.meaning m.now) no_world (operation_of op) (B.held m.now) (value_of x)
        (value_of y) }
{
    match op {
        Operation::Whole(op, k, count) => whole(m, op, k, count, x, y),
        Operation::Derived(d) => capability(m, d, x, y),
        Operation::Moved(by) => {
            if by.left {
                plus(m, by.size, by.minus, by.index, y, x)
            } else {
                plus(m, by.size, by.minus, by.index, x, y)
            }
        }
        Operation::Apart(size) => difference(m, size, x, y),
    }
}
