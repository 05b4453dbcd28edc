//! The files of images that are made by hand.

use ck_base::NoMemory;
use elf_file::{Image, Line, Reloc, Sequence, write};
use std::alloc::{AllocError, Global};

/// What an image is made of.
#[derive(Clone, Copy)]
pub(crate) struct Parts<'a> {
    pub(crate) version: u64,
    pub(crate) entry: u64,
    /// Bases and contents of the text and of the initial data.
    pub(crate) text: (u64, &'a [u8]),
    pub(crate) initial: (u64, &'a [u8]),
    /// Bases and lengths.
    pub(crate) table: (u64, u64),
    pub(crate) heap: (u64, u64),
    pub(crate) stack: (u64, u64),
    pub(crate) relocs: &'a [Reloc],
    pub(crate) lines: &'a [Line],
    pub(crate) count: u64,
}

fn image(alloc: Global, parts: &Parts<'_>) -> Result<Image, AllocError> {
    let text = Vec::from_slice(alloc, parts.text.1)?;
    let initial = Vec::from_slice(alloc, parts.initial.1)?;
    let relocs = Vec::from_slice(alloc, parts.relocs)?;
    let lines = Vec::from_slice(alloc, parts.lines)?;
    Ok(Image {
        version: parts.version,
        entry: parts.entry,
        text_base: parts.text.0,
        text: Sequence::from_vec(text),
        initial_base: parts.initial.0,
        initial: Sequence::from_vec(initial),
        table: parts.table,
        heap: parts.heap,
        stack: parts.stack,
        relocs: Sequence::from_vec(relocs),
        lines: Sequence::from_vec(lines),
        count: parts.count,
    })
}

/// The file that is written of an image of these parts.
pub(crate) fn file_of(alloc: Global, parts: &Parts<'_>) -> Result<Vec<u8>, NoMemory> {
    let image = image(alloc, parts)?;
    write(alloc, &image)
}
