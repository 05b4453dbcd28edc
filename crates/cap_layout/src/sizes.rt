//! The layout of a type.
ghost use Rattle.std.specs.Prelude.{◌≡◌, ℕ, Some, ◌+◌, ◌<◌, ◌≤◌, length};
ghost use Rattle.c_tree.specs.Layout.{size_limit, times, whole, with_extent, members, no_members, extent_within};
ghost use Rattle.c_tree.specs.Layout.{extent};
ghost use Rattle.cap_layout.specs.Answers.{extent_is, greatest_align, IsLayout};
ghost use Rattle.cap_layout.specs.Walks.{placing, capped};

use crate::answers::{Layout, LayoutFault};
use crate::members::placed;
use crate::owning::rounded;
use crate::shapes::{Base, LIMIT, core_of};
use c_tree::{CType, Member, Typed};

/// Elements in a row.
pub fn repeated(l: Layout, count: u64) -> Result<Layout, LayoutFault>
    requires size { l.size ≤ 67239936 }
    requires positive { 0 < l.align }
    requires align { l.align ≤ greatest_align }
    requires small { count ≤ 67108865 }
    ensures { (k : ℕ) → 0 < k → count ≡ capped k → IsLayout (times k (extent_is l)) result }
{
    let size = l.size * count;
    if size > LIMIT {
        Err(LayoutFault::TooLarge)
    } else {
        Ok(Layout {
            size,
            align: l.align,
        })
    }
}

/// A struct or union from the end of its members, rounded up.
pub fn finished(end: Layout) -> Layout
    requires size { end.size ≤ size_limit }
    requires positive { 0 < end.align }
    requires align { end.align ≤ greatest_align }
    ensures is { whole (extent_is end) ≡ Some (extent_is result) }
    ensures bound { result.size ≤ 67239936 }
    ensures positive { 0 < result.align }
    ensures align { result.align ≤ greatest_align }
{
    Layout {
        size: rounded(end.size, end.align),
        align: end.align,
    }
}

// The end of the members, each at most `depth` levels deep.
#[cycle(size)]
fn fields(types: &[CType], depth: usize, ms: &[Member], shared: bool) -> Result<Layout, LayoutFault>
    ensures { IsLayout (members (placing shared) (extent_within depth types.now) ms.now no_members) result }
{
    let mut end = Layout { size: 0, align: 1 };
    let mut large = false;
    for m in ms {
        match measure(types, depth, m.of) {
            Err(LayoutFault::Incomplete) => return Err(LayoutFault::Incomplete),
            Err(LayoutFault::TooLarge) => large = true,
            Ok(l) => {
                if !large {
                    end = placed(l, end, shared);
                    large = end.size > LIMIT;
                }
            }
        }
    }
    if large {
        Err(LayoutFault::TooLarge)
    } else {
        Ok(end)
    }
}

// The layout of a type at most `depth` levels deep. The recursion is as deep as structs and unions lie in one another.
#[cycle(size)]
fn measure(types: &[CType], depth: usize, t: u32) -> Result<Layout, LayoutFault>
    ensures { IsLayout (extent_within depth types.now t) result }
{
    match core_of(types, depth, t) {
        None => Err(LayoutFault::Incomplete),
        Some(core) => match core.base {
            Base::Scalar(size) => repeated(Layout { size, align: size }, core.count),
            Base::Members(ms, shared) => match fields(types, core.left, ms, shared) {
                Ok(end) => repeated(finished(end), core.count),
                Err(fault) => Err(fault),
            },
        },
    }
}

/// The size and the alignment of a type (C11 6.2.8, 6.5.3.4). A member that is an array, a struct or a union of n bytes
/// is aligned to what its type and its length need, and owns its owned length; a struct or union is rounded up to its
/// greatest alignment. The answer is Incomplete exactly for a type that is not complete, one that contains itself among
/// them, and TooLarge exactly for a complete one of more than 67,108,864 bytes.
pub fn layout(p: &Typed, t: u32) -> Result<Layout, LayoutFault>
    ensures { IsLayout (extent p.now.types t) result }
{
    let types = p.types.as_slice();
    measure(types, types.len(), t)
}
