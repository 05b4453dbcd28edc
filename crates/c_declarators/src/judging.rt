//! Which rules the type of what is declared breaks (C11 6.7.6).

ghost use Rattle.c_tree.specs.Declarators.{Formed, judge};
ghost use Rattle.c_declarators.specs.Parts.{HasFaults, IsJudged};

use c_types::{Faults, either};
use ck_base::{INCOMPLETE_TYPE, MISFIT, Pos, Refusal, TYPE_TOO_LARGE};

/// The rules on the type itself, and others on what is declared, at one place, the lowest code first: 132, 133, 140.
pub fn judge(faults: Faults, lacks: bool, misfits: bool, pos: Pos) -> Result<(), Refusal>
    ensures { (f : Formed) → HasFaults faults f → IsJudged (judge f lacks misfits pos) result }
{
    if either(faults.lacks, lacks) {
        return Err(Refusal::Code(INCOMPLETE_TYPE, pos));
    }
    if either(faults.misfits, misfits) {
        return Err(Refusal::Code(MISFIT, pos));
    }
    if faults.too_large {
        return Err(Refusal::Code(TYPE_TOO_LARGE, pos));
    }
    Ok(())
}
