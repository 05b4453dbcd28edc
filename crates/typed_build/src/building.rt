//! Building: from a typed program to the ELF file.
ghost use Rattle.std.specs.Prelude.{◌≡◌, true, false, IfOk, IfErr, OnOk};
ghost use Rattle.accepted_files.specs.Accepted.{IsLight};
ghost use Rattle.c_tree.specs.File.{HasRoom};
ghost use Rattle.c_tree.specs.Typing.{Sound};
ghost use Rattle.cap_layout.specs.Kept.{AreLayoutsOf};
ghost use Rattle.bounds_place.specs.Placing.{exceeds, IsRefusal as ExceedsLimit};
ghost use Rattle.bounds_place.specs.Sizes.{in_range, HasSizes};
ghost use Rattle.typed_build.specs.Built.{IsBuilt, IsRefusal};
ghost use Rattle.typed_build.specs.Registers.{UsesRegisters};

use crate::whole::build_whole;
use accepted_files::is_light;
use bounds_place::{Sizes, exceeds_limit};
use c_tree::Typed;
use cap_layout::Layouts;
use ck_base::{NoMemory, OBJECTS_TOO_LARGE, Pos, Refusal, TOO_HEAVY};
use obj_mem::Map;
use reg_alloc::Places;
use std::alloc::Global;
use tac_ir::Tac;

/// The start of a file.
pub const START: Pos = Pos { line: 1, col: 1 };

/// What is built of a program.
#[derive(Drop)]
pub struct Built {
    /// The bytes of the ELF file.
    pub elf: Vec<u8>,
    /// Where the program's parts stand in memory.
    pub map: Map,
    /// How many instructions of the machine do a turn of the program, and the start.
    pub count: u64,
    /// The three-address code of which the text was made.
    pub code: Tac,
    /// The homes of its temps, by function.
    pub places: Vec<Places>,
}

/// The objects of a program are within their limit.
fn limit(alloc: Global, layouts: &Layouts, p: &Typed) -> Result<(), Refusal>
    requires { AreLayoutsOf p.now.types layouts.now }
    ensures within { OnOk result (exceeds p.now ≡ false) }
    ensures refused { IfErr result (ExceedsLimit p.now) }
{
    if exceeds_limit(alloc, layouts, p)? {
        return Err(Refusal::Code(OBJECTS_TOO_LARGE, START));
    }
    Ok(())
}

/// Builds a typed program; the heap and the stack have the lengths of `sizes`. It is refused, at the start of its file,
/// by 141 where its objects exceed their limit, and then by 142 where the weight of a function does, or that of all.
/// The runs of what is built are what the program means, and none leaves its text or makes code of data. `code` means
/// the same, `places` has a home for each of its temps, and the text is their words.
#[tactic(auto, using(crate::proofs::Rooms::has_room, crate::proofs::Rooms::no_room))]
pub fn build_typed(alloc: Global, p: &Typed, sizes: Sizes) -> Result<Built, Refusal>
    requires sound { Sound p.now }
    requires sizes { in_range sizes ≡ true }
    ensures built { IfOk result (λ b. IsBuilt p.now b.elf.items b.map b.count) }
    ensures registers { IfOk result (λ b. UsesRegisters p.now b.code b.places.items b.elf.items b.map) }
    ensures sized { IfOk result (λ b. HasSizes sizes b.map) }
    ensures within { OnOk result (HasRoom p.now) }
    ensures light { OnOk result (IsLight p.now) }
    ensures refused { IfErr result (IsRefusal p.now) }
{
    let layouts = Layouts::new(alloc, p)?;
    limit(alloc, &layouts, p)?;
    let light = is_light(alloc, p)?;
    if !light {
        return Err(Refusal::Code(TOO_HEAVY, START));
    }
    build_whole(alloc, &layouts, p, sizes)
}
