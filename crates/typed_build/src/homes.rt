//! The homes of the temps of a program's functions.
ghost use Rattle.std.specs.Prelude.{◌≡◌, IfOk, length, vec_len};
ghost use Rattle.typed_build.specs.Frames.{IsCountable, AreCountable, HasHomes, HaveHomes};
ghost use Rattle.typed_build.specs.Registers.{ArePlacesOf, HavePlaces};

use ck_base::NoMemory;
use reg_alloc::{Places, allocate};
use std::alloc::Global;
use tac_ir::{Tac, TacFun};
use tac_live::{calls, intervals};

/// The homes of a function's temps: by linear scan over their live intervals. They keep the temps of code that writes
/// each before it reads it.
fn homes_of(alloc: Global, f: &TacFun, temps: u32) -> Result<Places, NoMemory>
    requires countable { IsCountable f.now }
    requires temps { temps ≡ f.now.temps }
    ensures homes { IfOk result (λ l. HasHomes f.now l.homes) }
    ensures checked { IfOk result (λ l. ArePlacesOf f.now l.homes) }
{
    let live = intervals(alloc, f)?;
    let calls = calls(alloc, f)?;
    allocate(alloc, &live, &calls)
}

/// The homes of the temps of each function.
pub fn places_of(alloc: Global, t: &Tac) -> Result<Vec<Places>, NoMemory>
    requires { AreCountable t.now }
    ensures len { IfOk result (λ places. vec_len places ≡ length t.now.funs) }
    ensures homes { IfOk result (λ places. HaveHomes t.now.funs places.items) }
    ensures checked { IfOk result (λ places. HavePlaces t.now.funs places.items) }
{
    let mut places = Vec::new(alloc);
    let funs = t.funs.as_slice();
    for f in funs {
        places.push(homes_of(alloc, f, f.temps)?)?;
    }
    Ok(places)
}
