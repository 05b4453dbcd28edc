//! The count behind an image's words.

ghost use Rattle.std.specs.Prelude.{◌≡◌, ◌++◌, OnOk};
ghost use Rattle.elf_file.specs.Fields.{spelled, Fit};
ghost use Rattle.elf_file.specs.Count.{count_words};

use crate::field::Field::Xword;
use crate::field::put;
use std::alloc::AllocError;

/// Appends the count, where the image's words have it.
#[tactic(auto, unfolding(crate::specs::Count::count_words, crate::specs::Fields::spelled, crate::specs::Fields::Fit))]
pub fn put_count(out: &mut Vec<u8>, counted: bool, count: u64) -> Result<(), AllocError>
    ensures bytes { OnOk result (out.new.items ≡ out.old.items ++ spelled (count_words counted count)) }
    ensures fits { Fit (count_words counted count) }
{
    if !counted {
        return Ok(());
    }
    put(out, &[Xword(count as u128)])
}
