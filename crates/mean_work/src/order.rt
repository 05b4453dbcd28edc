//! The order of two parts of the work or three: the one that is named first is done first.
ghost use Rattle.std.specs.Prelude.{◌≡◌, ◌∷◌, OnOk};

use crate::stack::Stack;
use crate::work::Work;
use ck_base::NoMemory;

pub fn then(work: &mut Stack<Work>, first: Work, next: Work) -> Result<(), NoMemory>
    ensures { OnOk result (work.new ≡ first ∷ next ∷ work.old) }
{
    work.push(next)?;
    work.push(first)
}

pub fn both(work: &mut Stack<Work>, first: Work, second: Work, next: Work) -> Result<(), NoMemory>
    ensures { OnOk result (work.new ≡ first ∷ second ∷ next ∷ work.old) }
{
    work.push(next)?;
    then(work, first, second)
}

/// Both operands, the left one first, and then the operation.
pub fn operands(
    work: &mut Stack<Work>,
    f: u32,
    k: u32,
    left: u32,
    right: u32,
) -> Result<(), NoMemory>
    ensures { OnOk result (work.new ≡ Work.Value f left ∷ Work.Value f right ∷ Work.Finish f k ∷ work.old) }
{
    work.push(Work::Finish(f, k))?;
    then(work, Work::Value(f, left), Work::Value(f, right))
}
