//! The first word or relocation that breaks a rule.

ghost use Rattle.std.specs.Prelude.{◌≡◌, ℕ, ◌+◌, ◌*◌, ◌/◌, ◌<◌, false, Ok, MatchOption, All, length, slice_index_or};
ghost use Rattle.cap_machine.specs.ContainedText.{target};
ghost use Rattle.image_load.specs.Judging.{judged, is_sentry, overlap};
ghost use Rattle.image_load.specs.Contained.{text_in};
ghost use Rattle.elf_audit.specs.Rules.{leads_inside, follows_service, is_reached, reason_at, is_entry_reloc};
ghost use Rattle.elf_audit.specs.Rules.{reloc_reason, IsFirstWord, NoWord, IsFirstReloc};

use crate::reached::{address_of, executes};
use crate::rules::{is_allowed, is_call, is_plain_jump, sets_service, target};
use crate::words::{base_of, end_of, instr_at, is_place, place_of, word_count};
use elf_file::{Reloc, View};

/// Whether it leads nowhere, or to a place of the text.
fn leads_inside(view: &View<'_>, to: Option<u64>) -> bool
    requires { judged view.now ≡ Ok tt }
    ensures { result ≡ leads_inside (text_in view.now) to }
{
    match to {
        None => true,
        Some(at) => is_place(view, at),
    }
}

/// Whether word k stands directly after `addi x17,x0,k` with k from 1 to 3.
fn follows_service(view: &View<'_>, k: usize) -> bool
    requires { k < length view.now.text / 4 }
    ensures { result ≡ follows_service (text_in view.now) (view.now.text_base + 4 * k) }
{
    if k == 0 {
        return false;
    }
    match instr_at(view, k - 1) {
        None => false,
        Some(i) => sets_service(&i),
    }
}

/// The least reason why word k breaks a rule, and 0 where it breaks none.
fn word_reason(view: &View<'_>, reached: &[bool], k: usize) -> u8
    requires fine { judged view.now ≡ Ok tt }
    requires inside { k < length view.now.text / 4 }
    requires count { length reached.now ≡ length view.now.text / 4 }
    requires reached { slice_index_or reached.now k false ≡ is_reached (text_in view.now) (view.now.text_base + 4 * k) }
    ensures { result ≡ reason_at (text_in view.now) (view.now.text_base + 4 * k) }
{
    let at = place_of(view, k);
    let Some(i) = instr_at(view, k) else {
        return 1;
    };
    if !is_allowed(&i) {
        2
    } else if !leads_inside(view, target(&i, at)) {
        3
    } else if is_call(&i) && !follows_service(view, k) {
        4
    } else if is_call(&i) && reached[k] {
        5
    } else if at + 4 == end_of(view) && !is_plain_jump(&i) {
        6
    } else {
        0
    }
}

/// The first word that breaks a rule, and its reason.
pub fn first_word(view: &View<'_>, reached: &[bool]) -> Option<(u64, u8)>
    requires fine { judged view.now ≡ Ok tt }
    requires count { length reached.now ≡ length view.now.text / 4 }
    requires reached { (k : ℕ) → k < length view.now.text / 4 →
        slice_index_or reached.now k false ≡ is_reached (text_in view.now) (view.now.text_base + 4 * k) }
    ensures { MatchOption result (NoWord (text_in view.now)) (λ w. IsFirstWord (text_in view.now) w.0 w.1) }
{
    for k in 0..word_count(view) {
        let reason = word_reason(view, reached, k);
        if reason != 0 {
            return Some((place_of(view, k), reason));
        }
    }
    None
}

/// Whether a relocation is a sentry with the text's bounds, at a place of the text.
fn is_entry(view: &View<'_>, r: Reloc) -> bool
    requires { judged view.now ≡ Ok tt }
    ensures { result ≡ is_entry_reloc (text_in view.now) r }
{
    r.perms >= 1 << 63
        && r.base == base_of(view)
        && r.length == view.text().len() as u64
        && is_place(view, address_of(r))
}

/// Whether the extent of a relocation meets the text.
#[tactic(auto, unfolding(image_load::specs::Judging::overlap))]
fn meets_text(view: &View<'_>, r: Reloc) -> bool
    ensures { result ≡ overlap (view.now.text_base, length view.now.text) (r.base, r.length) }
{
    let base = u128::from(base_of(view));
    let size = view.text().len() as u128;
    let from = u128::from(r.base);
    let length = u128::from(r.length);
    size > 0 && length > 0 && base < from + length && from < base + size
}

/// Why a relocation breaks a rule, and 0 where it breaks none.
fn reloc_reason(view: &View<'_>, r: Reloc) -> u8
    requires { judged view.now ≡ Ok tt }
    ensures { result ≡ reloc_reason (text_in view.now) r }
{
    if executes(r) {
        if is_entry(view, r) { 0 } else { 7 }
    } else if meets_text(view, r) {
        8
    } else {
        0
    }
}

/// The first relocation that breaks a rule, where no word does, and its reason.
pub fn first_reloc(view: &View<'_>) -> Option<(u64, u8)>
    requires fine { judged view.now ≡ Ok tt }
    requires words { NoWord (text_in view.now) }
    ensures { MatchOption result (All (λ r. reloc_reason (text_in view.now) r ≡ 0) view.now.relocs)
        (λ f. IsFirstReloc view.now f.0 f.1) }
{
    let mut k = 0;
    while let Some(r) = view.reloc(k) {
        let reason = reloc_reason(view, r);
        if reason != 0 {
            return Some((k, reason));
        }
        k += 1;
    }
    None
}
