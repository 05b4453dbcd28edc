//! A member beside the others.
ghost use Rattle.std.specs.Prelude.{◌≡◌, ◌<◌, ◌≤◌};
ghost use Rattle.c_tree.specs.Layout.{size_limit, member_align, member_offset};
ghost use Rattle.cap_layout.specs.Extents.{extent_is, greatest_align, placing};

use crate::answers::Layout;
use crate::owning::{owned, rounded};

/// Where a member of a struct begins behind the end of those before it.
pub fn start_of(m: Layout, end: Layout) -> u64
    requires m_size { m.size ≤ size_limit }
    requires m_positive { 0 < m.align }
    requires m_align { m.align ≤ greatest_align }
    requires size { end.size ≤ size_limit }
    ensures is { result ≡ member_offset (extent_is m) (extent_is end) }
    ensures bound { result ≤ 67239936 }
{
    rounded(end.size, m.align.max(owned(m.size).align))
}

/// The end of the members with one more, which shares the others' bytes or stands behind them.
pub fn placed(m: Layout, end: Layout, shared: bool) -> Layout
    requires m_size { m.size ≤ size_limit }
    requires m_positive { 0 < m.align }
    requires m_align { m.align ≤ greatest_align }
    requires size { end.size ≤ size_limit }
    requires positive { 0 < end.align }
    requires align { end.align ≤ greatest_align }
    ensures is { extent_is result ≡ placing shared (extent_is m) (extent_is end) }
    ensures positive { 0 < result.align }
    ensures align { result.align ≤ greatest_align }
{
    let own = owned(m.size);
    let align = end.align.max(m.align.max(own.align));
    let size = if shared {
        end.size.max(own.length)
    } else {
        start_of(m, end) + own.length
    };
    Layout { size, align }
}
