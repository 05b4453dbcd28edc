//! Objects of static storage duration that one string initialises (C11 6.7.9p14): their bytes, without a value for each
//! of them.

ghost use Rattle.std.specs.Prelude.{◌≡◌, ◌<◌, true, IfOk};
ghost use Rattle.ck_base.specs.declared.positions.Pos.{Pos as Place};
ghost use Rattle.c_tree.specs.Initializers.{takes_string};
ghost use Rattle.c_expressions.specs.Nodes.{IsWhole, type_in, type_count};
ghost use Rattle.c_elaborator.specs.Answers.{Answers, freely, NothingThere, IsNothing};
ghost use Rattle.c_initializers.specs.Texts.{without_zeros, fills_bytes, fills_text};

use crate::objects::{complete_object, fill_object, object_complete};
use crate::strings::taken_of;
use c_elaborator::Work;
use ck_base::{MISFIT, NoMemory, Pos, Refusal};
use std::alloc::Global;

// Bytes without the zeros at their end.
fn without_zeros(alloc: Global, bytes: &[u8]) -> Result<Vec<u8>, NoMemory>
    ensures { IfOk result (λ v. v.items ≡ without_zeros bytes.now) }
{
    let mut end = bytes.len();
    while end > 0 {
        if bytes[end - 1] != 0 {
            let kept = Vec::from_slice(alloc, &bytes[..end])?;
            return Ok(kept);
        }
        end -= 1;
    }
    Ok(Vec::new(alloc))
}

// An object of static storage duration gets so many elements and these bytes: 132 and 140 at its name.
fn fill_bytes(work: &mut Work, k: u32, pos: Pos, count: u64, bytes: &[u8]) -> Result<(), Refusal>
    requires { IsWhole work.old.nodes }
    ensures { Answers freely work.old work.new
        (fills_bytes k pos count (without_zeros bytes.now)) NothingThere IsNothing result }
{
    complete_object(work, k, count)?;
    object_complete(work, k, pos)?;
    let alloc = work.nodes.alloc;
    let kept = without_zeros(alloc, bytes)?;
    fill_object(work, k, kept, Vec::new(alloc))
}

/// An object of static storage duration gets the bytes of the string that is its whole initialiser: 133 at the string
/// where more than its last zero has no room, and 132 and 140 at the object's name.
pub fn fill_text(
    work: &mut Work,
    k: u32,
    pos: Pos,
    bytes: &[u8],
    at: Pos,
    of: u32,
) -> Result<(), Refusal>
    requires whole { IsWhole work.old.nodes }
    requires there { of < type_count work.old.nodes }
    requires takes { takes_string (type_in work.old.nodes of) ≡ true }
    ensures { (whole : Place) → Answers freely work.old work.new
        (fills_text k pos bytes.now at whole (type_in work.old.nodes of)) NothingThere IsNothing result }
{
    let count = bytes.len() as u64;
    match taken_of(&work.nodes, count, of) {
        None => Err(Refusal::Code(MISFIT, at)),
        Some(most) => fill_bytes(work, k, pos, count, &bytes[..most as usize]),
    }
}
