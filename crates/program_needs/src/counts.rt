//! The count of instructions for each turn.
ghost use Rattle.std.specs.Prelude.{◌≡◌, ◌≤◌};
ghost use Rattle.accepted_files.specs.Accepted.{weight_limit};
ghost use Rattle.c_tree.specs.Weight.{weight};
ghost use Rattle.cap_layout.specs.Kept.{AreLayoutsOf};
ghost use Rattle.obj_mem.specs.Counted.{count_of};

use c_tree::{Typed, weight};
use cap_layout::{Layouts, copies, granules};

/// The count of instructions for each turn.
#[tactic(auto, unfolding(obj_mem::specs::Counted::count_of), using(crate::proofs::Counting::few_granules, crate::proofs::Counting::few_copies))]
pub fn count_of(layouts: &Layouts, p: &Typed) -> u64
    requires layouts { AreLayoutsOf p.now.types layouts.now }
    requires light { weight p.now ≤ weight_limit }
    ensures { result ≡ count_of p.now }
{
    32 * weight(p) + 8 * granules(layouts, p) + 128 * copies(layouts, p) + 4096
}
