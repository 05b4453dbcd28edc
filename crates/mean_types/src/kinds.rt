//! How the scalars of a program are kept, and what is done with them apart from memory (C11 6.2.5, 6.3).
ghost use Rattle.std.specs.Prelude.{◌≡◌, Some, option_map};
ghost use Rattle.obj_mem.specs.Values.{value_of};
ghost use Rattle.cheri_c_sem.specs.Kinds.{int_bytes, bytes_of, address_kind, int_kind, null_at, zero_of, number_of};
ghost use Rattle.cheri_c_sem.specs.Kinds.{truth, read_as};
ghost use Rattle.cheri_c_sem.specs.Statements.{label_value};
ghost use Rattle.cheri_c_sem.specs.Types.{scalar_of, promoted};
ghost use Rattle.mean_types.specs.Views.{kind_of};

use c_tree::CType;
use ck_int::{IntKind, wrap};
use obj_mem::Value;

/// A plain integer of a kind; or a capability, which is a pointer or a capability integer, whose address counts as
/// signed where the truth value says so.
#[derive(Clone, Copy)]
pub enum Kind {
    Plain(IntKind),
    Capability(bool),
}

/// The kind of an `int`.
pub const INT: Kind = Kind::Plain(IntKind::I32);
/// The kind of a pointer.
pub const POINTER: Kind = Kind::Capability(false);
/// What is given where there is no value, as by a call of a function that gives none.
pub const NOTHING: Value = Value::Int(0);

/// The null capability with an address.
pub fn null_at(address: u64) -> Value
    ensures { value_of result ≡ null_at address }
{
    Value::Raw(address, 0)
}

/// How a type's values are kept, where they are scalars.
pub fn scalar_of(c: &CType) -> Option<Kind>
    ensures { option_map kind_of result ≡ scalar_of (Some c.now) }
{
    match c {
        CType::Int(k, _) => Some(Kind::Plain(*k)),
        CType::Cap(signed) => Some(Kind::Capability(*signed)),
        CType::Pointer(_) => Some(POINTER),
        CType::Void
        | CType::Array(_, _)
        | CType::Struct(_, _)
        | CType::Union(_, _)
        | CType::Function(_, _)
        | CType::Const(_)
        | CType::Incomplete(_) => None,
    }
}

/// The kind of integer that the address of a capability is.
pub fn address_kind(signed: bool) -> IntKind
    ensures { result ≡ address_kind signed }
{
    if signed { IntKind::I64 } else { IntKind::U64 }
}

/// The kind of integer that a scalar counts as.
pub fn int_kind(kind: Kind) -> IntKind
    ensures { result ≡ int_kind (kind_of kind) }
{
    match kind {
        Kind::Plain(k) => k,
        Kind::Capability(signed) => address_kind(signed),
    }
}

fn int_bytes(k: IntKind) -> u8
    ensures { result ≡ int_bytes k }
{
    match k {
        IntKind::Bool | IntKind::I8 | IntKind::U8 => 1,
        IntKind::I16 | IntKind::U16 => 2,
        IntKind::I32 | IntKind::U32 => 4,
        IntKind::I64 | IntKind::U64 => 8,
    }
}

/// The bytes that a scalar takes in memory (C11 6.2.6.1).
pub fn bytes_of(kind: Kind) -> u8
    ensures { result ≡ bytes_of (kind_of kind) }
{
    match kind {
        Kind::Plain(k) => int_bytes(k),
        Kind::Capability(_) => 16,
    }
}

/// The integer promotions (C11 6.3.1.1p2).
pub fn promoted(k: IntKind) -> IntKind
    ensures { result ≡ promoted k }
{
    match k {
        IntKind::Bool | IntKind::I8 | IntKind::U8 | IntKind::I16 | IntKind::U16 | IntKind::I32 =>
            IntKind::I32,
        IntKind::U32 => IntKind::U32,
        IntKind::I64 => IntKind::I64,
        IntKind::U64 => IntKind::U64,
    }
}

/// 0, or null (C11 6.7.9p10).
pub fn zero_of(kind: Kind) -> Value
    ensures { value_of result ≡ zero_of (kind_of kind) }
{
    match kind {
        Kind::Plain(_) => NOTHING,
        Kind::Capability(_) => null_at(0),
    }
}

/// An integer of a kind, or null with that address.
pub fn constant_of(kind: Kind, n: u64) -> Value
    ensures { value_of result ≡ label_value (kind_of kind) n }
{
    match kind {
        Kind::Plain(_) => Value::Int(n),
        Kind::Capability(_) => null_at(n),
    }
}

/// The 64 bits of a plain integer.
pub fn number_of(v: Value) -> u64
    ensures { result ≡ number_of (value_of v) }
{
    match v {
        Value::Int(n) => n,
        Value::Live(_, _, _, _, _) | Value::Fun(_) | Value::Raw(_, _) => 0,
    }
}

/// The value of a comparison.
pub fn truth(b: bool) -> Value
    ensures { value_of result ≡ truth b }
{
    Value::Int(if b { 1 } else { 0 })
}

/// A value as memory gives it, read at a kind: the bytes of a plain integer are extended by its sign, and those of a
/// `_Bool` are reduced to 0 or 1.
pub fn read_as(kind: Kind, v: Value) -> Value
    ensures { value_of result ≡ read_as (kind_of kind) (value_of v) }
{
    match kind {
        Kind::Plain(k) => Value::Int(wrap(k, i128::from(number_of(v)))),
        Kind::Capability(_) => v,
    }
}
