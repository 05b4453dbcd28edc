//! Which images are refused.
ghost use Rattle.std.specs.Prelude.{◌≡◌, ◌+◌, ◌<◌, true, Ok, Some, slice_get};
ghost use Rattle.image_load.specs.Judging.{Extent as ExtentOf, text_of, initial_of, address_of, capability_of};
ghost use Rattle.image_load.specs.Judging.{keeps_extent, is_capability, is_encodable, judged_relocs, judged};
ghost use Rattle.cap_ops.specs.Capability.{base, top};
ghost use Rattle.elf_file.specs.Image.{words_of};

use crate::extent::{
    Extent, bounded, is_encodable, is_entry, is_permission_word, is_place, is_sentry, lies_inside,
    segments_fit, some_overlap,
};
use crate::refusal::LoadRefusal;
use cap_concentrate::bounds_of;
use cap_ops::{Cap, SENTRY, UNSEALED};
use elf_file::{Reloc, View};

/// Image word k.
fn word(view: &View<'_>, k: u8) -> u64
    requires { k < 12 }
    ensures { slice_get (words_of view.now) k ≡ Some result }
{
    match view.word(k) {
        Some(n) => n,
        None => unreachable!(),
    }
}

/// The extent whose base is image word k.
fn extent(view: &View<'_>, k: u8) -> Extent
    requires { k < 11 }
    ensures base { slice_get (words_of view.now) k ≡ Some result.0 }
    ensures length { slice_get (words_of view.now) (k + 1) ≡ Some result.1 }
{
    (word(view, k), word(view, k + 1))
}

/// The entry.
pub fn entry_of(view: &View<'_>) -> u64
    ensures { result ≡ view.now.entry }
{
    word(view, 1)
}

pub fn table_of(view: &View<'_>) -> Extent
    ensures { result ≡ view.now.table }
{
    extent(view, 6)
}

pub fn heap_of(view: &View<'_>) -> Extent
    ensures { result ≡ view.now.heap }
{
    extent(view, 8)
}

pub fn stack_of(view: &View<'_>) -> Extent
    ensures { result ≡ view.now.stack }
{
    extent(view, 10)
}

/// The text's extent.
pub fn text_of(view: &View<'_>) -> Extent
    ensures { result ≡ text_of view.now }
{
    (word(view, 2), view.text().len() as u64)
}

/// The initial data's extent.
pub fn initial_of(view: &View<'_>) -> Extent
    ensures { result ≡ initial_of view.now }
{
    (word(view, 4), view.initial().len() as u64)
}

/// The address of a relocation's capability.
fn address_of(r: Reloc) -> u64
    ensures { result ≡ address_of r }
{
    r.base.wrapping_add(r.offset)
}

/// The capability of a relocation with exact bounds.
pub fn capability_of(r: Reloc) -> Cap
    requires { is_encodable (r.base, r.length) ≡ true }
    ensures { result ≡ capability_of r }
{
    let otype = if is_sentry(r.perms) { SENTRY } else { UNSEALED };
    bounded(
        (r.base, r.length),
        (r.perms % 128) as u16,
        otype,
        address_of(r),
    )
}

/// Whether it has the bounds of the relocation at its address.
#[tactic(auto, unfolding(crate::specs::Judging::keeps_extent))]
fn keeps_extent(r: Reloc) -> bool
    requires { is_encodable (r.base, r.length) ≡ true }
    ensures { result ≡ keeps_extent r }
{
    let c = capability_of(r);
    let (base, top) = bounds_of(c.fields);
    base == r.base && top == u128::from(r.base) + u128::from(r.length)
}

#[tactic(auto, unfolding(crate::specs::Judging::is_capability))]
fn is_capability(r: Reloc) -> bool
    ensures { result ≡ is_capability r }
{
    is_permission_word(r.perms) && is_encodable((r.base, r.length)) && keeps_extent(r)
}

/// Relocation by relocation, its place and then its capability.
fn judge_relocs(view: &View<'_>, initial: Extent) -> Result<(), LoadRefusal>
    ensures { result ≡ judged_relocs initial view.now.relocs (Ok tt) }
{
    let mut k = 0;
    while let Some(r) = view.reloc(k) {
        if !is_place(r.place, initial) {
            return Err(LoadRefusal::Place);
        }
        if !is_capability(r) {
            return Err(LoadRefusal::Bounds);
        }
        k += 1;
    }
    Ok(())
}

/// Whether an image is loaded: the first test that fails decides. It takes no memory.
#[tactic(auto, unfolding(crate::specs::Judging::judged))]
pub fn judge(view: &View<'_>) -> Result<(), LoadRefusal>
    ensures { result ≡ judged view.now }
{
    let text = text_of(view);
    let initial = initial_of(view);
    let heap = heap_of(view);
    let stack = stack_of(view);
    let table = table_of(view);
    if !segments_fit(text, initial, heap, stack) {
        return Err(LoadRefusal::Segment);
    }
    if some_overlap(text, initial, heap, stack) || !lies_inside(table, initial) {
        return Err(LoadRefusal::Overlap);
    }
    if !is_entry(entry_of(view), text) {
        return Err(LoadRefusal::Entry);
    }
    judge_relocs(view, initial)?;
    if is_encodable(text) && is_encodable(table) && is_encodable(stack) {
        Ok(())
    } else {
        Err(LoadRefusal::Bounds)
    }
}
