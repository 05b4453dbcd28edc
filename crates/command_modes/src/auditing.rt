//! Auditing an image that stands in a file.
ghost use Rattle.std.specs.Prelude.{◌≡◌};
ghost use Rattle.command_modes.specs.Audit.{AuditSays};

use crate::answer::Answer;
use elf_audit::audit;
use elf_file::View;
use image_load::judge;
use std::alloc::Global;

/// Reads the image in a file, and audits it where no test of the loader refuses it. Nothing is run.
pub fn audit_file(alloc: Global, file: &[u8]) -> Answer
    ensures { AuditSays file.now result }
{
    let view = match View::read(file) {
        Ok(view) => view,
        Err(refusal) => return Answer::NotLoaded(refusal.number()),
    };
    if let Err(refusal) = judge(&view) {
        return Answer::NotLoaded(refusal.number());
    }
    match audit(alloc, &view) {
        Ok(verdict) => Answer::Audited(verdict),
        Err(_) => Answer::Memory,
    }
}
