//! Reading a file, refusal by refusal.

ghost use Rattle.std.specs.Prelude.{◌≡◌, ◌+◌, ◌*◌, ◌≤◌, length, map, drop};
ghost use Rattle.elf_file.specs.Fields.{meets};
ghost use Rattle.elf_file.specs.Headers.{end_of, words_at, program_headers, section_headers, image_words};
ghost use Rattle.elf_file.specs.Parts.{image_of};
ghost use Rattle.elf_file.specs.Image.{line_of, lines_ok};
ghost use Rattle.elf_file.specs.Reading.{p_vaddr, p_memsz, sh_size, headers_in, has_ident, has_file_header, sizes_ok};
ghost use Rattle.elf_file.specs.Reading.{has_tables, image_in, version_fits, has_contents, reading_parts, reading};

use crate::field::{half_at, meets, word_at, xword_at};
use crate::headers::{
    EM_RISCV, Headers, IDENT, NAMES, TEXT_AT, file_header, image_words, program_headers,
    section_headers,
};
use crate::parts::{Parts, line_of, part};
use crate::refusal::ElfRefusal;
use crate::view::View;

/// Whether the file has the identification and the machine.
#[tactic(auto, unfolding(crate::specs::Reading::has_ident, crate::specs::Headers::e_ident))]
fn has_ident(file: &[u8]) -> bool
    requires { 64 ≤ length file.now }
    ensures { result ≡ has_ident file.now }
{
    let (ident, _) = file.split_at(16);
    ident == IDENT.as_slice() && half_at(file, 18) == EM_RISCV
}

/// Whether the rest of the file header is what the format says.
#[tactic(auto, using(crate::proofs::Sizes::size_of_file_header), unfolding(crate::specs::Reading::has_file_header))]
fn has_file_header(file: &[u8]) -> bool
    requires { 64 ≤ length file.now }
    ensures { result ≡ has_file_header file.now }
{
    let (_, rest) = file.split_at(16);
    meets(rest, &file_header(xword_at(file, 24), word_at(file, 48)))
}

/// The address of program header `k`.
fn p_vaddr(file: &[u8], k: usize) -> u64
    requires { 64 + 56 * k + 24 ≤ length file.now }
    ensures { result ≡ p_vaddr k file.now }
{
    xword_at(file, 64 + 56 * k + 16)
}

/// The size in memory of program header `k`.
fn p_memsz(file: &[u8], k: usize) -> u64
    requires { 64 + 56 * k + 48 ≤ length file.now }
    ensures { result ≡ p_memsz k file.now }
{
    xword_at(file, 64 + 56 * k + 40)
}

/// The size of section header `k`.
fn sh_size(file: &[u8], k: usize) -> u64
    requires { 288 + 64 * k + 40 ≤ length file.now }
    ensures { result ≡ sh_size k file.now }
{
    xword_at(file, 288 + 64 * k + 32)
}

/// What an image chooses of the headers.
fn headers_in(file: &[u8]) -> Headers
    requires { 736 ≤ length file.now }
    ensures { result ≡ headers_in file.now }
{
    Headers {
        entry: xword_at(file, 24),
        text_base: p_vaddr(file, 0),
        text_size: sh_size(file, 1),
        initial_base: p_vaddr(file, 1),
        initial_size: sh_size(file, 2),
        heap: (p_vaddr(file, 2), p_memsz(file, 2)),
        stack: (p_vaddr(file, 3), p_memsz(file, 3)),
        relocs_size: sh_size(file, 3),
        lines_size: sh_size(file, 4),
        counted: sh_size(file, 5) == 104,
    }
}

/// Whether the text has whole instructions, and the relocations and lines are whole.
fn sizes_ok(h: Headers) -> bool
    ensures { result ≡ sizes_ok h }
{
    h.text_size % 4 == 0 && h.relocs_size % 40 == 0 && h.lines_size % 16 == 0
}

/// Whether the tables are what the format says for these headers.
#[tactic(auto, unfolding(crate::specs::Reading::has_tables))]
fn has_tables(h: Headers, file: &[u8]) -> bool
    requires { 736 ≤ length file.now }
    ensures { result ≡ has_tables h file.now }
{
    sizes_ok(h) && has_program_headers(h, file) && has_section_headers(h, file)
}

#[tactic(auto, using(crate::proofs::Sizes::size_of_program_headers))]
fn has_program_headers(h: Headers, file: &[u8]) -> bool
    requires { 736 ≤ length file.now }
    ensures { result ≡ meets (program_headers h) (drop 64 file.now) }
{
    let (_, rest) = file.split_at(64);
    meets(rest, program_headers(h).as_flattened())
}

#[tactic(auto, using(crate::proofs::Sizes::size_of_section_headers))]
fn has_section_headers(h: Headers, file: &[u8]) -> bool
    requires { 736 ≤ length file.now }
    ensures { result ≡ meets (section_headers h) (drop 288 file.now) }
{
    let (_, rest) = file.split_at(288);
    meets(rest, section_headers(h).as_flattened())
}

/// Whether the lines ascend strictly, lie in a text of this size, and are of kind 0 or 1.
fn lines_ok(lines: &[[u8; 16]], size: u64) -> bool
    ensures { result ≡ lines_ok 0 size (map line_of lines.now) }
{
    let mut least = 0;
    for bytes in lines {
        let line = line_of(bytes);
        let at = line.at as u64;
        if at < least || at >= size || line.kind >= 2 {
            return false;
        }
        least = at + 1;
    }
    true
}

/// Whether the names are the format's, the lines keep their rules, and the image's words agree with the headers.
#[tactic(auto, unfolding(crate::specs::Reading::has_contents, crate::specs::Headers::section_names))]
fn has_contents(h: Headers, file: &[u8], parts: &Parts<'_>) -> bool
    requires inside { end_of h ≤ length file.now }
    requires same { image_of parts.now ≡ image_in h file.now }
    ensures { result ≡ has_contents h file.now }
{
    part(file, h.names_at(), 54) == NAMES.as_slice()
        && lines_ok(parts.lines, h.text_size)
        && has_words(h, file, parts)
}

#[tactic(auto, using(crate::proofs::Sizes::size_of_image_words))]
fn has_words(h: Headers, file: &[u8], parts: &Parts<'_>) -> bool
    requires { end_of h ≤ length file.now }
    ensures { result ≡ meets (image_words parts.now.version parts.now.table h) (drop (words_at h) file.now) }
{
    let (_, rest) = file.split_at(h.words_at() as usize);
    meets(rest, &image_words(parts.version, parts.table, h))
}

/// Whether the image's words are those of its version: version 2 has the count, and version 1 does not.
fn version_fits(counted: bool, version: u64) -> bool
    ensures { result ≡ version_fits counted version }
{
    if counted { version == 2 } else { version == 1 }
}

/// The view of the parts of a file, where they keep the format.
#[tactic(auto, unfolding(crate::specs::Reading::reading_parts))]
pub fn read_parts<'a>(h: Headers, file: &'a [u8]) -> Result<View<'a>, ElfRefusal>
    ensures { result ≡ reading_parts h file.now }
{
    if h.end() > file.len() as u128 {
        return Err(ElfRefusal::Part);
    }
    let parts = Parts::in_file(file, h);
    if !version_fits(h.counted, parts.version) {
        return Err(ElfRefusal::Version);
    }
    if !has_contents(h, file, &parts) {
        return Err(ElfRefusal::Field);
    }
    Ok(View { parts })
}

/// The view of a file.
#[tactic(auto, unfolding(crate::specs::Reading::reading))]
pub fn read(file: &[u8]) -> Result<View<'_>, ElfRefusal>
    ensures { result ≡ reading file.now }
{
    if file.len() < 64 {
        return Err(ElfRefusal::Short);
    }
    if !has_ident(file) {
        return Err(ElfRefusal::Ident);
    }
    if !has_file_header(file) {
        return Err(ElfRefusal::Field);
    }
    if file.len() < TEXT_AT {
        return Err(ElfRefusal::Tables);
    }
    let headers = headers_in(file);
    if !has_tables(headers, file) {
        return Err(ElfRefusal::Field);
    }
    read_parts(headers, file)
}
