//! Objects one behind the other.
ghost use Rattle.std.specs.Prelude.{◌≡◌, ◌+◌, ◌^◌, ◌<◌, ◌≤◌, ◌++◌, sum_by, All, OnOk, IfOk};
ghost use Rattle.cap_concentrate.specs.Rounding.{rounded_up};
ghost use Rattle.bounds_place.specs.Rows.{room, bases_from, end_from};

use program_needs::Need;
use std::alloc::{AllocError, Global};

/// The places of objects, and their end.
#[derive(Drop)]
pub struct Placed {
    pub bases: Vec<u64>,
    pub end: u64,
}

// The least multiple of an alignment that is not below an address.
fn rounded(next: u64, align: u64) -> u64
    requires positive { 0 < align }
    requires fits { next + align ≤ 2 ^ 63 }
    ensures is { result ≡ rounded_up next align }
    ensures above { next ≤ result }
    ensures below { result < next + align }
{
    (next + (align - 1)) / align * align
}

/// Places objects one behind the other, from an address on, each at the next multiple of its alignment.
pub fn row(alloc: Global, needs: &[Need], from: u64) -> Result<Placed, AllocError>
    requires positive { All (λ n. 0 < n.align) needs.now }
    requires fits { from + sum_by room needs.now ≤ 2 ^ 62 }
    ensures bases { IfOk result (λ r. r.bases.items ≡ bases_from from needs.now) }
    ensures end { IfOk result (λ r. r.end ≡ end_from from needs.now) }
    ensures most { IfOk result (λ r. r.end ≤ from + sum_by room needs.now) }
{
    let mut bases = Vec::new(alloc);
    let mut next = from;
    for n in needs {
        let base = rounded(next, n.align);
        bases.push(base)?;
        next = base + n.owned;
    }
    Ok(Placed { bases, end: next })
}
