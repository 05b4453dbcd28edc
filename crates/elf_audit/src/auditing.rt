//! The audit.

ghost use Rattle.std.specs.Prelude.{◌≡◌, Ok, IfOk};
ghost use Rattle.image_load.specs.Judging.{judged};
ghost use Rattle.image_load.specs.Contained.{Contained};
ghost use Rattle.elf_audit.specs.Audit.{Answers};
ghost use Rattle.elf_audit.specs.declared.verdict.Verdict.TheVariants.{Yes};

use crate::finding::{first_reloc, first_word};
use crate::reached::reached;
use crate::verdict::Verdict;
use ck_base::NoMemory;
use elf_file::View;
use std::alloc::Global;

/// Audits an image that is not refused: Yes exactly where it is contained, else the first word that breaks a rule, by
/// ascending address, or the first relocation that does where no word does, with its least reason. Time and memory grow
/// with the image alone.
pub fn audit(alloc: Global, view: &View<'_>) -> Result<Verdict, NoMemory>
    requires { judged view.now ≡ Ok tt }
    ensures answer { IfOk result (Answers view.now) }
    ensures contained { IfOk result (λ verdict. Contained view.now → verdict ≡ Yes) }
{
    let words = reached(alloc, view)?;
    if let Some((at, reason)) = first_word(view, words.as_slice()) {
        return Ok(Verdict::Word(at, reason));
    }
    match first_reloc(view) {
        None => Ok(Verdict::Yes),
        Some((k, reason)) => Ok(Verdict::Reloc(k, reason)),
    }
}
