//! Extents and their capabilities, and the tests of a loader on extents.
ghost use Rattle.std.specs.Prelude.{◌≡◌, ◌<◌, ◌^◌, true, ◌+◌, ◌≤◌};
ghost use Rattle.image_load.specs.Extents.{end_of, is_encodable};
ghost use Rattle.cap_ops.specs.Bounded.{bounded};
ghost use Rattle.image_load.specs.Judging.{lies_well, segments_fit, overlap, some_overlap, lies_inside, is_entry};
ghost use Rattle.image_load.specs.Judging.{is_place, is_permission_word, is_sentry};

use cap_concentrate::{Fields, set_bounds};
use cap_ops::Cap;

/// A base and a length in bytes.
pub type Extent = (u64, u64);

/// The address behind its last byte.
pub fn end_of(e: Extent) -> u128
    ensures value { result ≡ end_of e }
    ensures small { result < 2 ^ 65 }
{
    u128::from(e.0) + u128::from(e.1)
}

/// Whether a capability can have these bounds as they are.
#[tactic(auto, unfolding(crate::specs::Extents::is_encodable))]
pub fn is_encodable(e: Extent) -> bool
    ensures { result ≡ is_encodable e }
{
    let end = end_of(e);
    if end > 1 << 64 {
        return false;
    }
    let bounds = set_bounds(e.0, e.1);
    bounds.base == e.0 && bounds.top == end
}

/// The capability of an extent.
pub fn bounded(e: Extent, perms: u16, otype: u32, address: u64) -> Cap
    requires exact { is_encodable e ≡ true }
    requires perms { perms < 4096 }
    requires otype { otype < 2 ^ 18 }
    ensures { result ≡ bounded e.0 (end_of e) perms otype address }
{
    let bounds = set_bounds(e.0, e.1);
    Cap {
        tag: true,
        fields: Fields {
            user: 0,
            perms,
            reserved: 0,
            flag: false,
            otype,
            internal: bounds.internal,
            t: bounds.t,
            b: bounds.b,
            address,
        },
    }
}

#[tactic(auto, unfolding(crate::specs::Judging::lies_well))]
fn lies_well(e: Extent) -> bool
    ensures { result ≡ lies_well e }
{
    e.0 % 16 == 0 && e.1 % 16 == 0 && 65_536 <= e.0 && end_of(e) <= 1 << 40
}

/// Whether each segment lies well, and none is too large.
#[tactic(auto, unfolding(crate::specs::Judging::segments_fit))]
pub fn segments_fit(text: Extent, initial: Extent, heap: Extent, stack: Extent) -> bool
    ensures { result ≡ segments_fit text initial heap stack }
{
    lies_well(text)
        && lies_well(initial)
        && lies_well(heap)
        && lies_well(stack)
        && text.1 <= 33_554_432
        && u128::from(text.1) + u128::from(initial.1) + u128::from(heap.1) + u128::from(stack.1)
            <= 268_435_456
}

/// Whether some address lies in both.
#[tactic(auto, unfolding(crate::specs::Judging::overlap))]
fn overlap(a: Extent, b: Extent) -> bool
    ensures { result ≡ overlap a b }
{
    a.1 > 0 && b.1 > 0 && u128::from(a.0) < end_of(b) && u128::from(b.0) < end_of(a)
}

/// Whether some address lies in two of the segments.
#[tactic(auto, unfolding(crate::specs::Judging::some_overlap))]
pub fn some_overlap(text: Extent, initial: Extent, heap: Extent, stack: Extent) -> bool
    ensures { result ≡ some_overlap text initial heap stack }
{
    overlap(text, initial)
        || overlap(text, heap)
        || overlap(text, stack)
        || overlap(initial, heap)
        || overlap(initial, stack)
        || overlap(heap, stack)
}

/// Whether the first lies inside the second.
#[tactic(auto, unfolding(crate::specs::Judging::lies_inside))]
pub fn lies_inside(a: Extent, b: Extent) -> bool
    ensures { result ≡ lies_inside a b }
{
    b.0 <= a.0 && end_of(a) <= end_of(b)
}

/// Whether an instruction of the text stands here.
#[tactic(auto, unfolding(crate::specs::Judging::is_entry))]
pub fn is_entry(at: u64, text: Extent) -> bool
    ensures { result ≡ is_entry at text }
{
    text.0 <= at && u128::from(at) < end_of(text) && at % 4 == 0
}

/// Whether a granule of the initial data stands here.
#[tactic(auto, unfolding(crate::specs::Judging::is_place))]
pub fn is_place(at: u64, initial: Extent) -> bool
    ensures { result ≡ is_place at initial }
{
    at % 16 == 0 && initial.0 <= at && u128::from(at) + 16 <= end_of(initial)
}

/// Whether the word says a sentry.
pub fn is_sentry(word: u64) -> bool
    ensures { result ≡ is_sentry word }
{
    word >= 1 << 63
}

/// Whether the word has no other bits than permissions 0 to 6 and a sentry's, and a sentry has Execute.
#[tactic(auto, unfolding(crate::specs::Judging::is_permission_word))]
pub fn is_permission_word(word: u64) -> bool
    ensures { result ≡ is_permission_word word }
{
    word % (1 << 63) < 128 && (!is_sentry(word) || word / 2 % 2 == 1)
}
