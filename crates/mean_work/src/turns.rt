//! The turns that a run may still use.
ghost use Rattle.std.specs.Prelude.{◌≡◌};
ghost use Rattle.cheri_c_sem.specs.Modes.{Store};
ghost use Rattle.mean_steps.specs.Machine.{turn_behind};
ghost use Rattle.mean_steps.specs.Parts.{Now, turn};
ghost use Rattle.mean_work.specs.Turns.{LeavesTurns};

use crate::work::Stop;
use obj_mem::Ending;

/// Uses one turn.
#[tactic(auto, using(crate::proofs::Turning::turn_some, crate::proofs::Turning::turn_none))]
pub fn turn(left: &mut u64) -> Result<(), Stop>
    ensures { (n : Now Store) → n.left ≡ left.old → LeavesTurns (turn n) n left.new result }
{
    if *left == 0 {
        return Err(Stop::Ended(Ending::Turns));
    }
    *left -= 1;
    Ok(())
}

/// The turn behind a call; the first call has none.
#[tactic(auto, using(crate::proofs::Turning::none_behind))]
pub fn turn_behind(left: &mut u64, first: bool) -> Result<(), Stop>
    ensures { (n : Now Store) → n.left ≡ left.old → LeavesTurns (turn_behind first n) n left.new result }
{
    if first { Ok(()) } else { turn(left) }
}
