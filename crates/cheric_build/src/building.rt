//! Building: from a C file to the ELF file.
ghost use Rattle.std.specs.Prelude.{◌≡◌, true, IfOk, IfErr};
ghost use Rattle.bounds_place.specs.Sizes.{in_range, usual, HasSizes};
ghost use Rattle.cheric_build.specs.FromFile.{IsBuiltFrom, IsFileRefusal, IsMadeOf};

use crate::front_end::front;
use bounds_place::{Sizes, USUAL};
use ck_base::Refusal;
use std::alloc::Global;
use typed_build::{Built, build_typed};

/// Builds a C file. Where it answers a build, the file is accepted, and the bytes, the map and the count are built of
/// each typed program as which it is accepted, and the code and the homes are those of one. A file is refused by the
/// first rule that it breaks. The heap has 16,777,216 bytes and the stack 1,048,576.
pub fn build(alloc: Global, file: &[u8]) -> Result<Built, Refusal>
    ensures built { IfOk result (λ b. IsBuiltFrom file.now b.elf.items b.map b.count) }
    ensures made { IfOk result (λ b. IsMadeOf file.now b.code b.places.items b.elf.items b.map) }
    ensures sized { IfOk result (λ b. HasSizes usual b.map) }
    ensures refused { IfErr result (IsFileRefusal file.now) }
{
    build_sized(alloc, file, USUAL)
}

/// Builds a C file as `build` does, for a heap and a stack of these sizes.
pub fn build_sized(alloc: Global, file: &[u8], sizes: Sizes) -> Result<Built, Refusal>
    requires { in_range sizes ≡ true }
    ensures built { IfOk result (λ b. IsBuiltFrom file.now b.elf.items b.map b.count) }
    ensures made { IfOk result (λ b. IsMadeOf file.now b.code b.places.items b.elf.items b.map) }
    ensures sized { IfOk result (λ b. HasSizes sizes b.map) }
    ensures refused { IfErr result (IsFileRefusal file.now) }
{
    let p = front(alloc, file)?;
    build_typed(alloc, &p, sizes)
}
