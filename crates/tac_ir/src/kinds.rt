//! Kinds of temps.
ghost use Rattle.std.specs.Prelude.{◌≡◌, slice_index_or};
ghost use Rattle.cheri_c_sem.specs.Compatible.{kind_number, same_bool};
ghost use Rattle.tac_ir.specs.Effects.{kind_of, kind_at};
ghost use Rattle.tac_ir.specs.WellFormed.{same_kind, is_int, is_capability, pointer, int_result, word};

use crate::code::TacKind;
use ck_int::IntKind;

/// What a comparison gives: an `int`.
pub const INT: TacKind = TacKind::Int(IntKind::I32);

/// A length or an address.
pub const WORD: TacKind = TacKind::Int(IntKind::U64);

pub const SIGNED_WORD: TacKind = TacKind::Int(IntKind::I64);

pub const POINTER: TacKind = TacKind::Cap(false);

pub const TRUTH: TacKind = TacKind::Int(IntKind::Bool);

fn kind_number(k: IntKind) -> u8
    ensures { result ≡ kind_number k }
{
    match k {
        IntKind::Bool => 0,
        IntKind::I8 => 1,
        IntKind::U8 => 2,
        IntKind::I16 => 3,
        IntKind::U16 => 4,
        IntKind::I32 => 5,
        IntKind::U32 => 6,
        IntKind::I64 => 7,
        IntKind::U64 => 8,
    }
}

pub fn same_kind(a: TacKind, b: TacKind) -> bool
    ensures { result ≡ same_kind (kind_of a) (kind_of b) }
{
    match (a, b) {
        (TacKind::Int(j), TacKind::Int(k)) => kind_number(j) == kind_number(k),
        (TacKind::Cap(s), TacKind::Cap(t)) => s == t,
        (TacKind::Int(_), TacKind::Cap(_)) | (TacKind::Cap(_), TacKind::Int(_)) => false,
    }
}

pub fn is_int(k: TacKind) -> bool
    ensures { result ≡ is_int (kind_of k) }
{
    matches!(k, TacKind::Int(_))
}

pub fn is_capability(k: TacKind) -> bool
    ensures { result ≡ is_capability (kind_of k) }
{
    matches!(k, TacKind::Cap(_))
}

/// The kind of a temp; of one that is not there, that of an `int`.
pub fn kind_at(kinds: &[TacKind], t: u32) -> TacKind
    ensures { kind_of result ≡ kind_at kinds.now t }
{
    match kinds.get(t as usize) {
        None => INT,
        Some(k) => *k,
    }
}
