//! The image of a program's machine code: placed, with the program's initial data, and written.
ghost use Rattle.std.specs.Prelude.{◌≡◌, true, false, IfOk, IfErr, OnOk};
ghost use Rattle.c_tree.specs.Typing.{Sound};
ghost use Rattle.bounds_place.specs.Placing.{exceeds, IsRefusal as ExceedsLimit};
ghost use Rattle.bounds_place.specs.Sizes.{in_range};
ghost use Rattle.obj_mem.specs.Counted.{count_of};
ghost use Rattle.typed_build.specs.Coded.{Selects};
ghost use Rattle.typed_build.specs.Written.{IsWritten};

use crate::image::image_of;
use crate::text::text_of;
use bounds_place::{Sizes, place};
use c_tree::Typed;
use cap_reloc::table;
use ck_base::Refusal;
use elf_file::{Line, write};
use obj_mem::{Frame, Map};
use rv_instr::Instr;
use std::alloc::Global;

/// The machine code of a program. Places are in bytes from the code's base.
#[derive(Drop)]
pub struct Selected {
    /// The frame of each function.
    pub frames: Vec<Frame>,
    pub code: Vec<Instr>,
    /// Where the image is entered.
    pub start: u32,
    /// Where each function is entered.
    pub entries: Vec<u32>,
    /// The instructions at which a trap is the program's, with their places in the source.
    pub lines: Vec<Line>,
}

/// A file, and where the program's parts stand in memory.
#[derive(Drop)]
pub struct Written {
    pub elf: Vec<u8>,
    pub map: Map,
}

/// The file of a program's machine code under a legal map, whose heap and stack have these lengths. It loads, and says
/// the program's count.
pub fn write_program(
    alloc: Global,
    p: &Typed,
    selected: Selected,
    count: u64,
    sizes: Sizes,
) -> Result<Written, Refusal>
    requires sound { Sound p.now }
    requires selects { Selects p.now selected }
    requires count { count ≡ count_of p.now }
    requires sizes { in_range sizes ≡ true }
    ensures written { IfOk result (λ w. IsWritten p.now selected sizes w.map w.elf.items) }
    ensures within { OnOk result (exceeds p.now ≡ false) }
    ensures refused { IfErr result (ExceedsLimit p.now) }
{
    let Selected {
        frames,
        code,
        start,
        entries,
        lines,
    } = selected;
    let text = text_of(alloc, &code)?;
    let map = place(alloc, p, &frames, &entries, text.len() as u64, sizes)?;
    let contents = table(alloc, &map, p)?;
    let image = image_of(&map, start, text, contents, lines, count);
    let elf = write(alloc, &image)?;
    Ok(Written { elf, map })
}
