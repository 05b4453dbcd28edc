//! Building of a program within its limits: three-address code, homes, frames, machine code and the image.
ghost use Rattle.std.specs.Prelude.{◌≡◌, true, false, length, vec_len, IfOk, IfErr};
ghost use Rattle.accepted_files.specs.Accepted.{IsLight};
ghost use Rattle.c_tree.specs.TreeWeight.{HasLightFunctions};
ghost use Rattle.c_tree.specs.Typing.{Sound};
ghost use Rattle.cap_layout.specs.Kept.{AreLayoutsOf};
ghost use Rattle.bounds_place.specs.Placing.{exceeds};
ghost use Rattle.bounds_place.specs.Sizes.{in_range, HasSizes};
ghost use Rattle.typed_build.specs.Built.{IsBuilt, IsRefusal};
ghost use Rattle.typed_build.specs.Coded.{IsCode, Selects, HasContainedCode};
ghost use Rattle.typed_build.specs.Frames.{HaveHomes};
ghost use Rattle.typed_build.specs.Programs.{HasProgram};
ghost use Rattle.typed_build.specs.Registers.{HavePlaces, UsesRegisters};

use crate::building::Built;
use crate::frames::frames_of;
use crate::homes::places_of;
use crate::written::{Selected, Written, write_program};
use bounds_place::Sizes;
use c_tree::Typed;
use cap_layout::Layouts;
use ck_base::{NoMemory, Refusal};
use image_starts::images_fit;
use program_needs::count_of;
use reg_alloc::Places;
use rv_select::{Items, select};
use std::alloc::Global;
use tac_ir::Tac;
use tac_lower::lower;

/// The three-address code of a program, which stands for it. Its instructions are counted in 32 bits.
fn code_of(alloc: Global, p: &Typed) -> Result<Tac, NoMemory>
    requires sound { Sound p.now }
    requires light { HasLightFunctions p.now }
    ensures { IfOk result (IsCode p.now) }
{
    lower(alloc, p)
}

/// The frames and the machine code for three-address code and homes.
fn select_all(
    alloc: Global,
    layouts: &Layouts,
    p: &Typed,
    code: &Tac,
    places: &Vec<Places>,
) -> Result<Selected, NoMemory>
    requires layouts { AreLayoutsOf p.now.types layouts.now }
    requires sound { Sound p.now }
    requires within { exceeds p.now ≡ false }
    requires light { IsLight p.now }
    requires code { IsCode p.now code.now }
    requires places { vec_len places.now ≡ length code.now.funs }
    requires homes { HaveHomes code.now.funs places.now.items }
    ensures selects { IfOk result (Selects p.now) }
    ensures contained { IfOk result HasContainedCode }
    ensures program { IfOk result (HasProgram p.now code.now places.now.items) }
{
    let frames = frames_of(alloc, layouts, p, code, places)?;
    let Items {
        code,
        start,
        entries,
        lines,
    } = select(alloc, code, p, places, &frames)?;
    Ok(Selected {
        frames,
        code,
        start,
        entries,
        lines,
    })
}

/// A program within its limits. The machine to which an image loads stands for the program's first state, by the law
/// `images_fit`.
#[tactic(auto, using(crate::proofs::Rooms::no_room))]
pub fn build_whole(
    alloc: Global,
    layouts: &Layouts,
    p: &Typed,
    sizes: Sizes,
) -> Result<Built, Refusal>
    requires layouts { AreLayoutsOf p.now.types layouts.now }
    requires sound { Sound p.now }
    requires within { exceeds p.now ≡ false }
    requires light { IsLight p.now }
    requires sizes { in_range sizes ≡ true }
    ensures built { IfOk result (λ b. IsBuilt p.now b.elf.items b.map b.count) }
    ensures registers { IfOk result (λ b. UsesRegisters p.now b.code b.places.items b.elf.items b.map) }
    ensures sized { IfOk result (λ b. HasSizes sizes b.map) }
    ensures refused { IfErr result (IsRefusal p.now) }
{
    images_fit();
    let code = code_of(alloc, p)?;
    let places = places_of(alloc, &code)?;
    let selected = select_all(alloc, layouts, p, &code, &places)?;
    let count = count_of(layouts, p);
    let Written { elf, map } = write_program(alloc, p, selected, count, sizes)?;
    Ok(Built {
        elf,
        map,
        count,
        code,
        places,
    })
}
