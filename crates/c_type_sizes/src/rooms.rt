//! What a complete struct or union takes.

ghost use Rattle.std.specs.Prelude.{◌≡◌, ◌<◌, ◌≤◌};
ghost use Rattle.c_tree.specs.Layout.{size_limit};
ghost use Rattle.cap_layout.specs.Answers.{greatest_align};

use cap_layout::Layout;

/// The size and the alignment of a complete struct or union.
#[derive(Clone, Copy)]
pub struct Room {
    pub size: u64,
    pub align: u64,
    ghost small: { size ≤ size_limit },
    ghost positive: { 0 < align },
    ghost fine: { align ≤ greatest_align },
}

impl Room {
    /// The same as a layout.
    pub fn layout(self) -> Layout
        ensures size { result.size ≡ self.size }
        ensures align { result.align ≡ self.align }
        ensures small { result.size ≤ size_limit }
        ensures positive { 0 < result.align }
        ensures fine { result.align ≤ greatest_align }
    {
        Layout {
            size: self.size,
            align: self.align,
        }
    }
}
