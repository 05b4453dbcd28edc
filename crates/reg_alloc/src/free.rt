//! Where registers are free.
ghost use Rattle.std.specs.Prelude.{◌≡◌, ◌+◌, ◌<◌, slice_set};

use crate::intervals::Interval;
use crate::ranks::RANKS;

/// The register of a rank is taken up to the last instruction of an interval.
pub fn take(free_from: &mut [u64; RANKS], rank: usize, v: Interval)
    requires { rank < 23 }
    ensures { free_from.new ≡ slice_set free_from.old rank (v.last + 1) }
{
    free_from[rank] = u64::from(v.last) + 1;
}
