//! The typed program as which a C file is accepted.
ghost use Rattle.std.specs.Prelude.{IfOk, IfErr};
ghost use Rattle.accepted_files.specs.Accepted.{Accepts};
ghost use Rattle.c_tree.specs.Typing.{Sound};
ghost use Rattle.cheric_build.specs.FromFile.{IsFileRefusal};

use crate::front_end::front;
use accepted_files::is_light;
use bounds_place::exceeds_limit;
use c_tree::Typed;
use cap_layout::Layouts;
use ck_base::{OBJECTS_TOO_LARGE, Refusal, TOO_HEAVY};
use std::alloc::Global;
use typed_build::START;

/// The typed program as which a C file is accepted, or the first rule that the file breaks: as `front` says; then, at
/// the start of the file, 141 where its objects exceed their limit, and 142 where the
/// weight of a function does, or that of all.
pub fn accepted(alloc: Global, file: &[u8]) -> Result<Typed, Refusal>
    ensures accepted { IfOk result (Accepts file.now) }
    ensures sound { IfOk result Sound }
    ensures refused { IfErr result (IsFileRefusal file.now) }
{
    let p = front(alloc, file)?;
    let layouts = Layouts::new(alloc, &p)?;
    if exceeds_limit(alloc, &layouts, &p)? {
        return Err(Refusal::Code(OBJECTS_TOO_LARGE, START));
    }
    let light = is_light(alloc, &p)?;
    if !light {
        return Err(Refusal::Code(TOO_HEAVY, START));
    }
    Ok(p)
}
