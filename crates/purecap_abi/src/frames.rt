//! The frame of a function.
ghost use Rattle.std.specs.Prelude.{◌≡◌, ℕ, ◌+◌, ◌*◌, ◌%◌, ◌^◌, ◌<◌, ◌≤◌, length, sum_by, replicate, IfOk, OnOk};
ghost use Rattle.std.specs.List.{All};
ghost use Rattle.cap_concentrate.specs.Rounding.{rounded_up};
ghost use Rattle.purecap_abi.specs.Saving.{AreHomes, IsFor, kept_bytes, most_outgoing};
ghost use Rattle.purecap_abi.specs.Placing.{greatest_of, ArePlaced, IsAny, AreSlots};
ghost use Rattle.purecap_abi.specs.Frames.{IsLocal, AreLocals, room, HasFrame};

use crate::saving::kept_bytes;
use cap_layout::Owned;
use ck_base::{NoMemory, Sequence};
use obj_mem::{Frame, Slot};
use reg_alloc::Places;
use std::alloc::Global;

// The least multiple of an alignment that is not below `n`.
#[tactic(auto, using(crate::proofs::Powers::rounded_multiple))]
fn rounded(n: u64, align: u64) -> u64
    requires positive { 0 < align }
    requires fits { n + align ≤ 2 ^ 63 }
    ensures is { result ≡ rounded_up n align }
    ensures above { n ≤ result }
    ensures below { result < n + align }
    ensures multiple { result % align ≡ 0 }
{
    (n + (align - 1)) / align * align
}

// The greatest of 16 and the alignments.
fn greatest(locals: &[Owned]) -> u64
    ensures { result ≡ greatest_of locals.now }
{
    let mut greatest = 16;
    for o in locals {
        greatest = o.align.max(greatest);
    }
    greatest
}

// Places all objects from an offset on, those of a lesser alignment first; each takes a byte at least, so that it
// begins before the end. The answer is the end, a multiple of the greatest.
fn place(starts: &mut Vec<u64>, locals: &[Owned], from: u64) -> u64
    requires starts { length starts.old.items ≡ length locals.now }
    requires locals { AreLocals locals.now }
    requires from { from % 16 ≡ 0 }
    requires small { from ≤ 2 ^ 40 }
    ensures starts { length starts.new.items ≡ length locals.now }
    ensures placed { ArePlaced IsAny locals.now starts.new.items from result }
    ensures above { from ≤ result }
    ensures multiple { result % greatest_of locals.now ≡ 0 }
    ensures most { result ≤ from + sum_by room locals.now + 8 }
{
    let most = greatest(locals);
    let mut next = from;
    let mut half = 8;
    while half < most {
        let align = 2 * half;
        next = rounded(next, align);
        for (k, o) in locals.iter().enumerate() {
            if o.align == align {
                starts[k] = next;
                next += rounded(o.length.max(1), align);
            }
        }
        half = align;
    }
    next
}

// As many zeros as there are objects.
fn no_starts(alloc: Global, locals: &[Owned]) -> Result<Vec<u64>, NoMemory>
    ensures { IfOk result (λ starts. length starts.items ≡ length locals.now) }
{
    let mut starts = Vec::new(alloc);
    for _o in locals {
        starts.push(0)?;
    }
    Ok(starts)
}

// The slots of the objects, in the order of these.
fn slots_at(alloc: Global, locals: &[Owned], starts: &[u64]) -> Result<Vec<Slot>, NoMemory>
    requires starts { length starts.now ≡ length locals.now }
    requires few { length locals.now < 2 ^ 32 }
    ensures { IfOk result (λ slots. AreSlots locals.now starts.now slots.items) }
{
    let mut slots = Vec::new(alloc);
    for (k, o) in locals.iter().enumerate() {
        slots.push(Slot {
            var: k as u32,
            at: starts[k],
            length: o.length,
        })?;
    }
    Ok(slots)
}

/// The frame of a function with these locals that are objects and these homes, and `outgoing` places for the arguments
/// past eight of its calls. From its lowest address on stand the link, those places, the kept registers that are homes,
/// the caller's stack where the alignment is above 16, the slots, and then the objects in ascending alignment.
pub fn frame(
    alloc: Global,
    locals: &Vec<Owned>,
    places: &Places,
    outgoing: u32,
) -> Result<Frame, NoMemory>
    requires locals { AreLocals locals.now.items }
    requires homes { AreHomes places.now.homes }
    requires outgoing { outgoing ≤ most_outgoing }
    ensures frame { IfOk result (HasFrame locals.now.items places.now.homes outgoing) }
    ensures saved { IfOk result (IsFor places.now.homes) }
{
    let objects = locals.as_slice();
    let align = greatest(objects);
    let saved = 16 + 16 * u64::from(outgoing) + kept_bytes(align, places);
    let mut starts = no_starts(alloc, objects)?;
    let size = place(&mut starts, objects, saved);
    let slots = slots_at(alloc, objects, starts.as_slice())?;
    Ok(Frame {
        size,
        align,
        slots: Sequence::from_vec(slots),
        saved,
    })
}
