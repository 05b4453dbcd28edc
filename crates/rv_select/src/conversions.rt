//! Conversions between kinds.
ghost use Rattle.std.specs.Prelude.{◌≡◌, ◌&&◌, OnOk, if◌then◌else◌};
ghost use Rattle.select_words.specs.Forms.{OfOne};
ghost use Rattle.select_words.specs.Operations.{is_narrower, is_widening, Reduces, CopiedOr, ConversionBy};
ghost use Rattle.rv_select.specs.Choosing.{chosen, Chooses, Stands};
ghost use Rattle.rv_emit.specs.Growing.{Grows, Puts};
ghost use Rattle.tac_ir.specs.Costs.{conversion_cost, is_wide};

use crate::function::Function;
use crate::homes::{keep, operand};
use crate::operations::copy;
use ck_base::NoMemory;
use ck_int::IntKind;
use rv_emit::Code;
use rv_idioms::{bits_of, is_signed, keep_bits, left};
use tac_ir::TacKind;

/// Whether each number of so many bits, with a sign or without, is one of others, in the same 64 bits.
fn is_narrower(from: u8, to: u8, from_signed: bool, to_signed: bool) -> bool
    ensures { result ≡ is_narrower from to from_signed to_signed }
{
    if from < to {
        !from_signed || to_signed
    } else {
        from == to && from_signed == to_signed
    }
}

/// Whether each value of one integer kind is one of the other, in the same 64 bits.
fn is_widening(old: IntKind, new: IntKind) -> bool
    ensures { result ≡ is_widening old new }
{
    match (old, new) {
        (_, IntKind::I64 | IntKind::U64) => true,
        (IntKind::Bool, _) => true,
        (_, IntKind::Bool) => false,
        _ => is_narrower(bits_of(old), bits_of(new), is_signed(old), is_signed(new)),
    }
}

/// A temp is converted to an integer kind from bits that are not of the kind.
fn reduced(
    code: &mut Code,
    f: &Function<'_>,
    to: u32,
    from: u32,
    kind: IntKind,
) -> Result<(), NoMemory>
    ensures size { OnOk result (Grows (if is_wide kind then 7 else 8) code.old code.new) }
    ensures words { OnOk result (Chooses f.now to → Chooses f.now from →
        Puts (OfOne (chosen f.now) to from (Reduces kind)) code.old code.new) }
{
    let a = operand(code, f, from, left())?;
    let r = f.target(to);
    keep_bits(code, kind, r, a)?;
    keep(code, f, to, r)
}

/// A temp is converted from one integer kind to another.
fn between(
    code: &mut Code,
    f: &Function<'_>,
    to: u32,
    from: u32,
    old: IntKind,
    new: IntKind,
) -> Result<(), NoMemory>
    ensures size { OnOk result (Grows (if is_wide old && is_wide new then 11 else 8) code.old code.new) }
    ensures words { OnOk result (Chooses f.now to → Stands (chosen f.now) to → Chooses f.now from →
        Puts (CopiedOr (chosen f.now) to from new (is_widening old new)) code.old code.new) }
{
    if is_widening(old, new) {
        copy(code, f, to, from)
    } else {
        reduced(code, f, to, from, new)
    }
}

/// A temp is converted from one kind to another. What becomes a capability keeps its bits and its tag.
pub fn conversion(
    code: &mut Code,
    f: &Function<'_>,
    to: u32,
    from: u32,
    old: TacKind,
    new: TacKind,
) -> Result<(), NoMemory>
    ensures size { OnOk result (Grows (conversion_cost old new) code.old code.new) }
    ensures words { OnOk result (Chooses f.now to → Stands (chosen f.now) to → Chooses f.now from →
        Puts (ConversionBy (chosen f.now) to from old new) code.old code.new) }
{
    match (old, new) {
        (_, TacKind::Cap(_)) => copy(code, f, to, from),
        (TacKind::Cap(_), TacKind::Int(kind)) => reduced(code, f, to, from, kind),
        (TacKind::Int(j), TacKind::Int(k)) => between(code, f, to, from, j, k),
    }
}
