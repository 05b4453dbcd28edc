//! What an object owns, and rounding up.
ghost use Rattle.std.specs.Prelude.{◌≡◌, ◌+◌, ◌<◌, ◌≤◌};
ghost use Rattle.cap_concentrate.specs.Rounding.{alignment, owned, rounded_up};
ghost use Rattle.c_tree.specs.Layout.{size_limit};
ghost use Rattle.cap_layout.specs.Extents.{greatest_align};

use crate::answers::Owned;
use cap_concentrate::{alignment_mask, rounded_length};

/// What an object or a member of `n` bytes owns, so that its bounds can be exact (CHERI ISAv9, CRRL and CRAM): `n`
/// rounded up to the alignment of a capability's bounds of that length, and this alignment. `n` is at most 67,108,864.
pub fn owned(n: u64) -> Owned
    requires { n ≤ size_limit }
    ensures length { result.length ≡ owned n }
    ensures align { result.align ≡ alignment n }
    ensures positive { 0 < result.align }
    ensures greatest { result.align ≤ greatest_align }
    ensures holds { n ≤ result.length }
    ensures padding { result.length < n + result.align }
{
    Owned {
        length: rounded_length(n),
        align: !alignment_mask(n) + 1,
    }
}

/// The least multiple of an alignment that is not below `n`.
pub fn rounded(n: u64, align: u64) -> u64
    requires positive { 0 < align }
    requires align { align ≤ greatest_align }
    requires small { n ≤ 4294967296 }
    ensures is { result ≡ rounded_up n align }
    ensures above { n ≤ result }
    ensures below { result < n + align }
{
    (n + (align - 1)) / align * align
}
