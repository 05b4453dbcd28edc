//! The words to which a branch, a `cjal` or an entry place leads.

ghost use Rattle.std.specs.Prelude.{◌≡◌, ℕ, ◌+◌, ◌*◌, ◌/◌, ◌<◌, ◌==◌, ◌||◌, ◌&&◌, false, Option, Some, Ok, IfOk};
ghost use Rattle.std.specs.Prelude.{length, map, slice_index_or, vec_len};
ghost use Rattle.std.specs.List.{filter};
ghost use Rattle.cap_machine.specs.ContainedText.{target, instr_at};
ghost use Rattle.image_load.specs.Judging.{address_of, judged};
ghost use Rattle.image_load.specs.Contained.{executes, text_in};
ghost use Rattle.elf_audit.specs.Rules.{holds, leads_to, is_target, is_among, is_reached};

use crate::rules::target;
use crate::words::{base_of, instr_at, place_of, word_count};
use ck_base::NoMemory;
use elf_file::{Reloc, View};
use std::alloc::Global;

/// Whether a relocation has Execute.
pub fn executes(r: Reloc) -> bool
    ensures { result ≡ executes r }
{
    r.perms / 2 % 2 == 1
}

/// The address of a relocation's capability.
pub fn address_of(r: Reloc) -> u64
    ensures { result ≡ address_of r }
{
    r.base.wrapping_add(r.offset)
}

/// Notes the word at an address, where one stands there.
fn note(reached: &mut [bool], base: u64, at: u64)
    ensures { (k : ℕ) → k < length reached.old →
        slice_index_or reached.new k false ≡ (at == base + 4 * k || slice_index_or reached.old k false) }
{
    if at < base || (at - base) % 4 != 0 {
        return;
    }
    let k = (at - base) / 4;
    if k < reached.len() as u64 {
        reached[k as usize] = true;
    }
}

/// Notes the word to which word k leads, where it is a branch or a `cjal`.
fn note_target(reached: &mut [bool], view: &View<'_>, k: usize)
    requires fine { judged view.now ≡ Ok tt }
    requires inside { k < length view.now.text / 4 }
    ensures { (j : ℕ) → j < length reached.old →
        slice_index_or reached.new j false ≡ (holds
        (λ i. leads_to (target i (view.now.text_base + 4 * k)) (view.now.text_base + 4 * j))
        (instr_at (text_in view.now) (view.now.text_base + 4 * k)) || slice_index_or reached.old j false) }
{
    let Some(i) = instr_at(view, k) else {
        return;
    };
    if let Some(to) = target(&i, place_of(view, k)) {
        note(reached, base_of(view), to);
    }
}

/// Notes the words to which a branch or a `cjal` leads.
fn note_targets(reached: &mut [bool], view: &View<'_>)
    requires fine { judged view.now ≡ Ok tt }
    requires length { length reached.old ≡ length view.now.text / 4 }
    requires none { (k : ℕ) → k < length reached.old → slice_index_or reached.old k false ≡ false }
    ensures { (k : ℕ) → k < length reached.old →
        slice_index_or reached.new k false ≡ is_target (text_in view.now) (length view.now.text / 4)
        (view.now.text_base + 4 * k) }
{
    for k in 0..word_count(view) {
        note_target(reached, view, k);
    }
}

/// Notes the word at the address of a relocation with Execute.
fn note_entry(reached: &mut [bool], view: &View<'_>, r: Reloc)
    ensures { (j : ℕ) → j < length reached.old →
        slice_index_or reached.new j false ≡ (executes r && address_of r == view.now.text_base + 4 * j
        || slice_index_or reached.old j false) }
{
    if executes(r) {
        note(reached, base_of(view), address_of(r));
    }
}

/// Notes the words at the addresses of the relocations with Execute.
fn note_entries(reached: &mut [bool], view: &View<'_>)
    ensures { (k : ℕ) → k < length reached.old →
        slice_index_or reached.new k false ≡ (is_among (map address_of (filter executes view.now.relocs))
        (view.now.text_base + 4 * k) || slice_index_or reached.old k false) }
{
    let mut k = 0;
    while let Some(r) = view.reloc(k) {
        note_entry(reached, view, r);
        k += 1;
    }
}

/// The entry.
fn entry_of(view: &View<'_>) -> u64
    ensures { result ≡ view.now.entry }
{
    match view.word(1) {
        Some(entry) => entry,
        None => unreachable!(),
    }
}

/// For each word whether a branch, a `cjal` or an entry place leads to it.
pub fn reached(alloc: Global, view: &View<'_>) -> Result<Vec<bool>, NoMemory>
    requires { judged view.now ≡ Ok tt }
    ensures count { IfOk result (λ v. vec_len v ≡ length view.now.text / 4) }
    ensures each { IfOk result (λ v. (k : ℕ) → k < length view.now.text / 4 →
        slice_index_or v.items k false ≡ is_reached (text_in view.now) (view.now.text_base + 4 * k)) }
{
    let mut words = vec![in alloc; false; word_count(view)]?;
    let reached = words.as_mut_slice();
    note_targets(reached, view);
    note_entries(reached, view);
    note(reached, base_of(view), entry_of(view));
    Ok(words)
}
