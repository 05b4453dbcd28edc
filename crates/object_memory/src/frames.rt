//! Places in a map.

ghost use Rattle.std.specs.Prelude.{◌≡◌, Some, slice_get, slice_index_or};
ghost use Rattle.cheri_c_sem.specs.Modes.{frame_within, local_offset as offset_of, slot_offset as slot_at};
ghost use Rattle.obj_mem.specs.Legal.{slot_of};

use obj_mem::{Frame, Map};

/// The base at a number, and 0 where there is none.
pub fn base_at(bases: &[u64], k: u64) -> u64
    ensures { result ≡ slice_index_or bases.now k 0 }
{
    match bases.get(k as usize) {
        None => 0,
        Some(base) => *base,
    }
}

/// Where local n stands in a frame.
fn slot_offset(f: &Frame, n: u64) -> u64
    ensures { result ≡ slot_at (slot_of f.now n) }
{
    'slots: for s in f.slots.as_slice() {
        if u64::from(s.var) == n {
            return s.at;
        }
    }
    0
}

/// Where local n of a function stands in the function's frame.
pub fn local_offset(m: &Map, function: u32, n: u64) -> u64
    ensures { result ≡ offset_of (slice_get m.now.frames function) n }
{
    match m.frames.as_slice().get(function as usize) {
        None => 0,
        Some(f) => slot_offset(f, n),
    }
}

/// The address of a frame below an address, where the stack has room for it: the address less the frame's size, rounded
/// down to its alignment.
fn frame_below(f: &Frame, base: u64, address: u64) -> Option<u64>
    ensures { result ≡ frame_within base address (Some f.now) }
{
    if address < f.size {
        return None;
    }
    let start = match (address - f.size).checked_div(f.align) {
        None => 0,
        Some(quotient) => quotient * f.align,
    };
    if start < base { None } else { Some(start) }
}

/// That of a function's frame.
pub fn frame_of(m: &Map, function: u32, address: u64) -> Option<u64>
    ensures { result ≡ frame_within m.now.stack.0 address (slice_get m.now.frames function) }
{
    match m.frames.as_slice().get(function as usize) {
        None => None,
        Some(f) => frame_below(f, m.stack.0, address),
    }
}
