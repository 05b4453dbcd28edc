//! Objects of a function: their blocks are entered, and pointers to their members narrowed.

ghost use Rattle.std.specs.Prelude.{◌≡◌, ◌≤◌, ◌==◌, ◌∷◌, IfOk, if◌then◌else◌};
ghost use Rattle.cap_concentrate.specs.Rounding.{owned};
ghost use Rattle.c_tree.specs.Layout.{size_limit};
ghost use Rattle.tac_ir.specs.declared.code.TacInstr.TheVariants as instr;
ghost use Rattle.tac_emit.specs.Spent.{Spent, Enters};
ghost use Rattle.tac_emit.specs.Emitted.{HasKind, HasCapability, SameCapability, Grown, Pushed, Entered, Filled, Adds};
ghost use Rattle.tac_emit.specs.Adding.{Emits, NarrowsTo};

use cap_layout::owned;
use ck_base::{NoMemory, Pos};
use tac_emit::Emitter;
use tac_ir::{Amount, TacInstr, TacKind};

/// The greatest size of an object.
const LIMIT: u64 = 67_108_864;

/// What a member of so many bytes owns.
fn owned_length(size: u64) -> u64
    ensures { size ≤ size_limit → result ≡ owned size }
{
    owned(size.min(LIMIT)).length
}

/// An instruction that may name a local.
fn add(out: &mut Emitter, i: TacInstr) -> Result<(), NoMemory>
    ensures pushed { IfOk result (λ _. Pushed out.old out.new i) }
    ensures adds { IfOk result (λ _. Adds out.old out.new 0 0) }
{
    out.code.push(i)?;
    Ok(())
}

/// The pointer to a member of so many bytes gets the bounds of what the member owns.
#[tactic(auto, using(tac_emit::proofs::Emitting::narrows_to))]
pub fn narrow_to_member(out: &mut Emitter, to: u32, size: u64) -> Result<(), NoMemory>
    requires same { SameCapability out.old to to }
    ensures grown { IfOk result (λ _. Grown out.old out.new) }
    ensures adds { IfOk result (λ _. Adds out.old out.new 0 0) }
    ensures spent { IfOk result (λ _. Spent out.old out.new 0 15) }
    ensures narrows { IfOk result (λ _. NarrowsTo out.old out.new to size) }
{
    out.narrow(to, to, Amount::Number(owned_length(size)), true)
}

/// The block of an object is entered: its bytes become zero, and the pointer to it is made.
pub fn enter_object(out: &mut Emitter, to: u32, var: u32) -> Result<(), NoMemory>
    ensures entered { IfOk result (λ _. Entered out.old out.new to var) }
    ensures spent { IfOk result (λ _. Enters out.old out.new 0 19 0 (λ v. if var == v then 1 else 0)) }
    ensures adds { IfOk result (λ _. Adds out.old out.new 0 0) }
{
    add(out, TacInstr::Zero { var })?;
    add(out, TacInstr::Local { to, var })
}

/// The block of an object is entered, and a value is stored there.
pub fn enter_with(
    out: &mut Emitter,
    at: u32,
    var: u32,
    value: u32,
    kind: TacKind,
    pos: Pos,
) -> Result<(), NoMemory>
    requires at { HasCapability out.old at }
    requires value { HasKind out.old value kind }
    ensures filled { IfOk result (λ _. Filled out.old out.new at var) }
    ensures spent { IfOk result (λ _. Enters out.old out.new 0 26 0 (λ v. if var == v then 1 else 0)) }
    ensures emits { IfOk result (λ _. Emits out.old out.new 0
        (λ r. instr.Zero var ∷ instr.Local at var ∷ instr.Store at value kind pos ∷ r)) }
{
    enter_object(out, at, var)?;
    out.store(at, value, kind, pos)
}
