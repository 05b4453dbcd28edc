//! Which of the values that an initialiser gives stands at a place (C11 6.7.9p19, p21).

ghost use Rattle.std.specs.Prelude.{◌≡◌, ℕ, ◌<◌, ◌≤◌, true, length, position, slice_index_or};
ghost use Rattle.c_initializers.specs.Slots.{is_needed};
ghost use Rattle.c_initializers.specs.Covering.{IsOrdered, IsCursor, EndBefore, covers_place};

/// The bytes of an object that a value has: from an offset up to another one.
#[derive(Clone, Copy)]
pub(crate) struct Extent {
    pub(crate) from: u64,
    pub(crate) to: u128,
}

/// The bytes that some values have, and how far a walk along the object has come. Values that stand in the order of
/// their places are found without looking at all of them.
#[derive(Clone, Copy)]
pub(crate) struct Cursor<'c> {
    extents: &'c [Extent],
    /// Each begins where the one before it ends, or later.
    ordered: bool,
    /// Those before this number end at `passed` or before it.
    next: usize,
    passed: u64,
}

// Whether each begins where the one before it ends, or later, and none ends before it begins.
fn are_ordered(extents: &[Extent]) -> bool
    ensures { result ≡ true → IsOrdered extents.now }
{
    let mut end: u128 = 0;
    for e in extents {
        if u128::from(e.from) < end || e.to < u128::from(e.from) {
            return false;
        }
        end = e.to;
    }
    true
}

// The first from a number on that does not end at a place or before it.
fn skip(extents: &[Extent], next: usize, at: u64) -> usize
    requires { next ≤ length extents.now }
    ensures bound { result ≤ length extents.now }
    ensures passed { EndBefore extents.now next at → EndBefore extents.now result at }
    ensures ends { (d : Extent) → result < length extents.now → at < (slice_index_or extents.now result d).to }
{
    let mut k = next;
    while k < extents.len() && extents[k].to <= u128::from(at) {
        k += 1;
    }
    k
}

impl<'c> Cursor<'c> {
    pub(crate) fn new(extents: &'c [Extent]) -> Self
        ensures is { IsCursor result }
        ensures of { result.extents.now ≡ extents.now }
    {
        Cursor {
            extents,
            ordered: are_ordered(extents),
            next: 0,
            passed: 0,
        }
    }

    // Where to look on for a place: behind those that end before it.
    fn start(&self, at: u64) -> usize
        requires { IsCursor self.now }
        ensures bound { result ≤ length self.now.extents.now }
        ensures passed { EndBefore self.now.extents.now result at }
    {
        if at < self.passed { 0 } else { self.next }
    }

    /// The first value that has the byte at a place, by its number.
    pub(crate) fn find(&mut self, at: u64) -> Option<usize>
        requires { IsCursor self.old }
        ensures is { IsCursor self.new }
        ensures of { self.new.extents.now ≡ self.old.extents.now }
        ensures found { result ≡ position (covers_place at) self.old.extents.now }
    {
        if !self.ordered {
            return first_covering(self.extents, at);
        }
        let k = skip(self.extents, self.start(at), at);
        self.next = k;
        self.passed = at;
        if k < self.extents.len() && self.extents[k].from <= at {
            Some(k)
        } else {
            None
        }
    }

    /// Whether the value that has the byte at a place begins there, or there is none.
    pub(crate) fn needs(&mut self, at: u64) -> bool
        requires { IsCursor self.old }
        ensures is { IsCursor self.new }
        ensures of { self.new.extents.now ≡ self.old.extents.now }
        ensures needed { result ≡ is_needed self.old.extents.now at }
    {
        match self.find(at) {
            None => true,
            Some(k) => match self.extents.get(k) {
                None => true,
                Some(e) => e.from == at,
            },
        }
    }
}

// The first that has the byte at a place, whatever their order.
fn first_covering(extents: &[Extent], at: u64) -> Option<usize>
    ensures { result ≡ position (covers_place at) extents.now }
{
    extents
        .iter()
        .position(|e| e.from <= at && u128::from(at) < e.to)
}
