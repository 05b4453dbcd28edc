//! The image in a file, as slices of the file.

ghost use Rattle.std.specs.Prelude.{◌≡◌, ℕ, ◌+◌, ◌==◌, map, slice_get, IsTrue, IfOk, IfSome, Ok, ◌<◌, ◌-◌, ◌^◌};
ghost use Rattle.std.specs.List.{find};
ghost use Rattle.elf_file.specs.declared.image.Image.{Image};
ghost use Rattle.elf_file.specs.File.{IsFileOf, FitsFields};
ghost use Rattle.elf_file.specs.Image.{line_of, lines_ok, words_of, position_of, KeepsRules};
ghost use Rattle.elf_file.specs.Reading.{reading};

use crate::image::{Line, Reloc};
use crate::parts::{Parts, line_of, reloc_of};
use crate::reading;
use crate::refusal::ElfRefusal;
use std::marker::Model;

/// An image, read from a file. Contracts see the image.
#[derive(Drop)]
pub struct View<'a> {
    pub(crate) parts: Parts<'a>,
}

impl<'a> Model for View<'a> {
    ghost use Rattle.std.specs.Prelude.{length, IsTrue};
    ghost use Rattle.elf_file.specs.declared.image.Image.{Image};
    ghost use Rattle.elf_file.specs.Image.{lines_ok};
    ghost use Rattle.elf_file.specs.Parts.{image_of};

    ghost Value = { Image };

    ghost view = { λ v. image_of v.parts };

    ghost invariant = { λ v. let i = image_of v.parts in IsTrue (lines_ok 0 (length i.text) i.lines) };
}

impl<'a> View<'a> {
    /// The image in a file, or the first refusal. It takes no memory, and looks at no byte between or after the parts.
    pub fn read(file: &'a [u8]) -> Result<Self, ElfRefusal>
        ensures exact { result ≡ reading file.now }
        // What is read keeps the rules, and each byte of the file is that of a file of it.
        ensures found { IfOk result (λ i. KeepsRules i × IsFileOf i file.now) }
        // Each file of an image that keeps the rules is read as that image.
        ensures only { (i : Image) → FitsFields i → KeepsRules i → IsFileOf i file.now → result ≡ Ok i }
    {
        reading::read(file)
    }

    /// The text, in bytes.
    pub fn text(&self) -> &'a [u8]
        ensures { result.now ≡ self.now.text }
    {
        self.parts.text
    }

    /// The initial bytes.
    pub fn initial(&self) -> &'a [u8]
        ensures { result.now ≡ self.now.initial }
    {
        self.parts.initial
    }

    /// Relocation `k`, counted from 0, and None exactly from their number on.
    pub fn reloc(&self, k: u64) -> Option<Reloc>
        ensures value { result ≡ slice_get self.now.relocs k }
        ensures below { IfSome result (λ _. k < 2 ^ 64 - 1) }
    {
        let bytes = self.parts.relocs.get(k as usize)?;
        Some(reloc_of(bytes))
    }

    /// Image word `k`, counted from 0, and None exactly from their number on.
    pub fn word(&self, k: u8) -> Option<u64>
        ensures { result ≡ slice_get (words_of self.now) k }
    {
        let words = self.parts.words();
        words[..self.parts.number_of_words()]
            .get(k as usize)
            .copied()
    }

    /// The line at an address: the one whose offset in the text is the address less the text's base. None exactly where
    /// there is none.
    pub fn position(&self, pc: u64) -> Option<Line>
        ensures { result ≡ position_of self.now pc }
    {
        line_in(self.parts.lines, self.parts.headers.text_base, pc)
    }
}

/// The line at an address, among lines that ascend.
fn line_in(lines: &[[u8; 16]], base: u64, pc: u64) -> Option<Line>
    ensures { (size : ℕ) → IsTrue (lines_ok 0 size (map line_of lines.now)) →
        result ≡ find (λ l. base + l.at == pc) (map line_of lines.now) }
{
    if pc < base {
        return None;
    }
    match lines.binary_search_by_key(&(pc - base), |bytes| line_of(bytes).at as u64) {
        Ok(place) => Some(line_of(&lines[place])),
        Err(_) => None,
    }
}
