//! The allocation of memory.
ghost use Rattle.std.specs.Prelude.{◌≡◌, ◌<◌, ◌++◌, OnOk};
ghost use Rattle.purecap_abi.specs.Words.{store_code};
ghost use Rattle.select_words.specs.Heap.{rounds, places, takes, malloc_code};
ghost use Rattle.rv_emit.specs.Growing.{Grows, reach};
ghost use Rattle.rv_memory.specs.Heap.{measured};

use crate::registers::{count, left, right, spare, way};
use ck_base::NoMemory;
use rv_emit::{Code, instructions as instr};
use rv_instr::{BranchOp, CapGetOp, CapRegOp, ImmOp, Reg, RegOp};

/// The length of c10 becomes one that has exact bounds, in x30, and x29 the mask of its alignment, at least 16.
fn round(code: &mut Code) -> Result<(), NoMemory>
    ensures size { OnOk result (Grows 3 code.old code.new) }
    ensures text { OnOk result (code.new.text ≡ code.old.text ++ rounds) }
{
    code.put(instr::of_one(CapGetOp::Crrl, count(), Reg::RESULT))?;
    code.put(instr::of_one(CapGetOp::Cram, right(), Reg::RESULT))?;
    code.put(instr::immediate(ImmOp::Andi, right(), right(), -16))
}

/// x4 becomes the least address from the heap's next on that the mask in x29 keeps; x29 becomes the end of the object
/// there.
fn find(code: &mut Code) -> Result<(), NoMemory>
    ensures size { OnOk result (Grows 4 code.old code.new) }
    ensures text { OnOk result (code.new.text ≡ code.old.text ++ places) }
{
    code.put(instr::immediate(ImmOp::Xori, spare(), right(), -1))?;
    code.put(instr::operation(RegOp::Add, spare(), left(), spare()))?;
    code.put(instr::operation(RegOp::And, spare(), spare(), right()))?;
    code.put(instr::operation(RegOp::Add, right(), spare(), count()))
}

/// x10 becomes the bytes of the heap that are then used, and x30 the heap's length.
fn measure(code: &mut Code) -> Result<(), NoMemory>
    ensures size { OnOk result (Grows 3 code.old code.new) }
    ensures text { OnOk result (code.new.text ≡ code.old.text ++ measured) }
{
    code.put(instr::of_one(CapGetOp::Cgetbase, Reg::RESULT, left()))?;
    code.put(instr::operation(RegOp::Sub, Reg::RESULT, right(), Reg::RESULT))?;
    code.put(instr::of_one(CapGetOp::Cgetlen, count(), left()))
}

/// c10 becomes the pointer to the object, and the heap's next address moves behind it.
fn take(code: &mut Code, heap: u64) -> Result<(), NoMemory>
    ensures size { OnOk result (Grows 7 code.old code.new) }
    ensures text { OnOk result (heap < reach → code.new.text ≡ code.old.text ++ (takes ++ store_code 28 3 heap 31)) }
{
    code.put(instr::of_two(CapRegOp::Csetaddr, Reg::RESULT, left(), spare()))?;
    code.put(instr::operation(RegOp::Sub, count(), right(), spare()))?;
    code.put(instr::of_two(CapRegOp::Csetboundsexact, Reg::RESULT, Reg::RESULT, count()))?;
    code.put(instr::of_two(CapRegOp::Csetaddr, left(), left(), right()))?;
    code.store_far(left(), Reg::TABLE, heap, way())
}

/// A length in x10 becomes the pointer to a new object of the heap, or null where the heap hasn't so many bytes left.
/// The address of the table's entry of the heap, which stands at an offset in the table, is the heap's next address.
pub fn allocate(code: &mut Code, heap: u64) -> Result<(), NoMemory>
    ensures size { OnOk result (Grows 25 code.old code.new) }
    ensures text { OnOk result (heap < reach → code.new.text ≡ code.old.text ++ malloc_code heap) }
{
    code.load_far(left(), Reg::TABLE, heap, left())?;
    code.put(instr::of_one(CapGetOp::Cgetlen, right(), left()))?;
    let longer = code.branch(BranchOp::Bltu, right(), Reg::RESULT)?;
    round(code)?;
    find(code)?;
    measure(code)?;
    let full = code.branch(BranchOp::Bltu, count(), Reg::RESULT)?;
    take(code, heap)?;
    let done = code.skip()?;
    code.land(longer);
    code.land(full);
    code.put(instr::immediate(ImmOp::Addi, Reg::RESULT, Reg::ZERO, 0))?;
    code.land(done);
    Ok(())
}
