//! The parts of a file, as slices of the file.

ghost use Rattle.std.specs.Prelude.{◌≡◌, ◌+◌, ◌≤◌, length, take};
ghost use Rattle.elf_file.specs.Headers.{end_of};
ghost use Rattle.elf_file.specs.Image.{words_of, reloc_of, line_of};
ghost use Rattle.elf_file.specs.Parts.{image_of};
ghost use Rattle.elf_file.specs.Reading.{part, image_in};

use crate::field::{word_at, xword_at};
use crate::headers::{Headers, TEXT_AT};
use crate::image::{Line, Reloc};

/// What the headers and the parts of a file say.
#[derive(Clone, Copy)]
pub struct Parts<'a> {
    pub headers: Headers,
    pub version: u64,
    pub count: u64,
    pub table: (u64, u64),
    pub text: &'a [u8],
    pub initial: &'a [u8],
    pub relocs: &'a [[u8; 40]],
    pub lines: &'a [[u8; 16]],
}

/// The relocation in 40 bytes.
pub fn reloc_of(bytes: &[u8; 40]) -> Reloc
    ensures { result ≡ reloc_of bytes.now }
{
    Reloc {
        place: xword_at(bytes, 0),
        base: xword_at(bytes, 8),
        offset: xword_at(bytes, 16),
        length: xword_at(bytes, 24),
        perms: xword_at(bytes, 32),
    }
}

/// The line in 16 bytes.
pub fn line_of(bytes: &[u8; 16]) -> Line
    ensures { result ≡ line_of bytes.now }
{
    Line {
        at: word_at(bytes, 0),
        line: word_at(bytes, 4),
        col: word_at(bytes, 8),
        kind: word_at(bytes, 12),
    }
}

/// The bytes of a part.
pub fn part(file: &[u8], at: u128, size: u64) -> &[u8]
    requires { at + size ≤ length file.now }
    ensures { result.now ≡ part at size file.now }
{
    let (_, rest) = file.split_at(at as usize);
    let (part, _) = rest.split_at(size as usize);
    part
}

/// The count of the image, or 0 where its words do not have it.
fn count_in(file: &[u8], h: Headers) -> u64
    requires { end_of h ≤ length file.now }
    ensures { result ≡ (image_in h file.now).count }
{
    if h.counted {
        xword_at(file, h.words_at() as usize + 96)
    } else {
        0
    }
}

impl<'a> Parts<'a> {
    /// The parts where the headers say that they are.
    pub fn in_file(file: &'a [u8], h: Headers) -> Self
        requires { end_of h ≤ length file.now }
        ensures { image_of result ≡ image_in h file.now }
    {
        let words_at = h.words_at() as usize;
        let (relocs, _) = part(file, h.relocs_at(), h.relocs_size).as_chunks::<40>();
        let (lines, _) = part(file, h.lines_at(), h.lines_size).as_chunks::<16>();
        Parts {
            headers: h,
            version: xword_at(file, words_at),
            count: count_in(file, h),
            table: (xword_at(file, words_at + 48), xword_at(file, words_at + 56)),
            text: part(file, TEXT_AT as u128, h.text_size),
            initial: part(file, h.initial_at(), h.initial_size),
            relocs,
            lines,
        }
    }

    /// How many words the image has.
    pub fn number_of_words(&self) -> usize
        ensures { result ≡ length (words_of (image_of self.now)) }
    {
        if self.version == 2 { 13 } else { 12 }
    }

    /// The words of the image: version, entry, then base and length of text, data, table, heap and stack; and the
    /// count, which only version 2 has.
    pub fn words(&self) -> [u64; 13]
        ensures { take (length (words_of (image_of self.now))) result ≡ words_of (image_of self.now) }
    {
        let h = self.headers;
        [
            self.version,
            h.entry,
            h.text_base,
            self.text.len() as u64,
            h.initial_base,
            self.initial.len() as u64,
            self.table.0,
            self.table.1,
            h.heap.0,
            h.heap.1,
            h.stack.0,
            h.stack.1,
            self.count,
        ]
    }
}
