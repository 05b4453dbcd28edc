//! The lengths of the heap and the stack.
ghost use Rattle.std.specs.Prelude.{◌≡◌};
ghost use Rattle.bounds_place.specs.Sizes.{is_heap, is_stack, in_range};

/// The lengths of a program's heap and stack, in bytes.
#[derive(Clone, Copy)]
pub struct Sizes {
    pub heap: u64,
    pub stack: u64,
}

/// The sizes without a choice.
pub const USUAL: Sizes = Sizes {
    heap: 16_777_216,
    stack: 1_048_576,
};

/// Whether a heap may have this length: a multiple of 65,536 from 16,777,216 to 67,108,864.
pub fn is_heap(n: u64) -> bool
    ensures { result ≡ is_heap n }
{
    n % 65_536 == 0 && 16_777_216 <= n && n <= 67_108_864
}

/// Whether a stack may have this length: a multiple of 65,536 from 65,536 to 33,554,432.
pub fn is_stack(n: u64) -> bool
    ensures { result ≡ is_stack n }
{
    n % 65_536 == 0 && 65_536 <= n && n <= 33_554_432
}

impl Sizes {
    /// Whether a heap and a stack may have these lengths.
    pub fn in_range(self) -> bool
        ensures { result ≡ in_range self }
    {
        is_heap(self.heap) && is_stack(self.stack)
    }
}
