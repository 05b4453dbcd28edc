//! Which instructions name each temp.
ghost use Rattle.std.specs.Prelude.{◌≡◌, ℕ, ◌^◌, ◌<◌, true, false, None, Some, All, IfOk, length, slice_index_or};
ghost use Rattle.std.specs.Prelude.{slice_set, vec_len};
ghost use Rattle.tac_ir.specs.Intervals.{NamesAt};
ghost use Rattle.tac_ir.specs.Temps.{in_option, reads, writes};
ghost use Rattle.tac_live.specs.Uses.{MatchUses, noted, with_use};

use crate::operands::{arguments, is_control, read, written};
use ck_base::NoMemory;
use std::alloc::Global;
use tac_ir::TacInstr;

/// The numbers of the first and the last instruction that name a temp, and whether the first writes it without reading
/// it, with no label, jump or branch strictly between the two.
#[derive(Clone, Copy, Debug, PartialEq, Eq)]
pub struct Uses {
    pub first: u32,
    pub last: u32,
    pub straight: bool,
}

// The number of an instruction, and that of the last label, jump or branch before it, or 0.
#[derive(Clone, Copy)]
struct Place {
    at: u32,
    control: u32,
}

// The uses of a temp with one more.
fn with_use(uses: Option<Uses>, place: Place, writes: bool) -> Uses
    ensures { result ≡ with_use uses place writes }
{
    match uses {
        None => Uses {
            first: place.at,
            last: place.at,
            straight: writes,
        },
        Some(u) => Uses {
            first: u.first,
            last: place.at,
            straight: u.straight && place.control <= u.first,
        },
    }
}

// An instruction names a temp.
fn note(uses: &mut [Option<Uses>], t: u32, place: Place, writes: bool)
    requires { t < length uses.old }
    ensures { uses.new ≡ slice_set uses.old t (Some (with_use (slice_index_or uses.old t None) place writes)) }
{
    let t = t as usize;
    let before = uses[t];
    uses[t] = Some(with_use(before, place, writes));
}

// An instruction may name a temp.
fn note_option(uses: &mut [Option<Uses>], t: Option<u32>, place: Place, writes: bool)
    requires { All (λ k. k < length uses.old) (in_option t) }
    ensures { (k : ℕ) → k < length uses.old →
        slice_index_or uses.new k None ≡ noted place writes (in_option t) k (slice_index_or uses.old k None) }
{
    if let Some(t) = t {
        note(uses, t, place, writes);
    }
}

// What an instruction reads and then what it writes is noted.
fn note_instruction(uses: &mut [Option<Uses>], i: &TacInstr, place: Place)
    requires reads { All (λ k. k < length uses.old) (reads i.now) }
    requires writes { All (λ k. k < length uses.old) (writes i.now) }
    ensures { (k : ℕ) → k < length uses.old →
        slice_index_or uses.new k None ≡ noted place true (writes i.now) k
        (noted place false (reads i.now) k (slice_index_or uses.old k None)) }
{
    let (a, b) = read(i);
    note_option(uses, a, place, false);
    note_option(uses, b, place, false);
    for t in arguments(i) {
        note(uses, *t, place, false);
    }
    note_option(uses, written(i), place, true);
}

// No uses of so many temps.
fn no_uses(alloc: Global, temps: u32) -> Result<Vec<Option<Uses>>, NoMemory>
    ensures len { IfOk result (λ v. vec_len v ≡ temps) }
    ensures none { IfOk result (λ v. (t : ℕ) → slice_index_or v.items t None ≡ None) }
{
    let mut uses = Vec::new(alloc);
    for _ in 0..temps {
        uses.push(None)?;
    }
    Ok(uses)
}

/// The uses of each of so many temps.
pub fn uses_of(alloc: Global, temps: u32, code: &[TacInstr]) -> Result<Vec<Option<Uses>>, NoMemory>
    requires named { (t n : ℕ) → NamesAt code.now t n → t < temps }
    requires short { length code.now < 2 ^ 32 }
    ensures len { IfOk result (λ v. vec_len v ≡ temps) }
    ensures uses { IfOk result (λ v. (t : ℕ) → t < temps →
        MatchUses code.now (length code.now) t (slice_index_or v.items t None)) }
{
    let mut uses = no_uses(alloc, temps)?;
    let mut place = Place { at: 0, control: 0 };
    for i in code {
        place.at += 1;
        note_instruction(&mut uses, i, place);
        if is_control(i) {
            place.control = place.at;
        }
    }
    Ok(uses)
}
