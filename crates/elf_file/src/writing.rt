//! Writing the file of an image.

ghost use Rattle.std.specs.Prelude.{◌≡◌, ◌<◌, ◌^◌, ◌*◌, ◌++◌, length, All, OnOk, IfOk, Ok};
ghost use Rattle.elf_file.specs.Headers.{e_ident, section_names, words_size, file_header, program_headers};
ghost use Rattle.elf_file.specs.Headers.{section_headers};
ghost use Rattle.elf_file.specs.Fields.{spelled, Fit};
ghost use Rattle.elf_file.specs.Image.{reloc_fields, line_fields, KeepsRules};
ghost use Rattle.elf_file.specs.File.{headers_of, words_fields, relocs_bytes, lines_bytes, padding, file_of};
ghost use Rattle.elf_file.specs.File.{FitsFields};
ghost use Rattle.elf_file.specs.Reading.{reading};

use crate::count::put_count;
use crate::field::Field::{Word, Xword};
use crate::field::{Field, put};
use crate::headers::{
    Headers, IDENT, NAMES, file_header, image_words, program_headers, section_headers,
};
use crate::image::{Image, Line, Reloc};
use ck_base::NoMemory;
use std::alloc::{AllocError, Global};

/// The headers of an image's file.
fn headers_of(i: &Image) -> Headers
    ensures { result ≡ headers_of i.now }
{
    Headers {
        entry: i.entry,
        text_base: i.text_base,
        text_size: i.text.as_slice().len() as u64,
        initial_base: i.initial_base,
        initial_size: i.initial.as_slice().len() as u64,
        heap: i.heap,
        stack: i.stack,
        relocs_size: size_of_relocs(i.relocs.as_slice()),
        lines_size: size_of_lines(i.lines.as_slice()),
        counted: i.version == 2,
    }
}

fn size_of_relocs(relocs: &[Reloc]) -> u64
    ensures { result ≡ 40 * length relocs.now }
{
    relocs.len() as u64 * 40
}

fn size_of_lines(lines: &[Line]) -> u64
    ensures { result ≡ 16 * length lines.now }
{
    lines.len() as u64 * 16
}

/// Appends the zero bytes behind a part of this size.
fn put_padding(out: &mut Vec<u8>, size: u64) -> Result<(), AllocError>
    ensures { OnOk result (out.new.items ≡ out.old.items ++ padding size) }
{
    let zeros = [0; 16];
    let gap = (16 - size as usize % 16) % 16;
    out.extend_from_slice(&zeros[..gap])
}

#[tactic(auto, unfolding(crate::specs::Fields::Fit))]
fn reloc_fields(r: Reloc) -> [Field; 5]
    ensures value { result ≡ reloc_fields r }
    ensures fits { Fit (reloc_fields r) }
{
    [
        Xword(r.place as u128),
        Xword(r.base as u128),
        Xword(r.offset as u128),
        Xword(r.length as u128),
        Xword(r.perms as u128),
    ]
}

#[tactic(auto, unfolding(crate::specs::Fields::Fit))]
fn line_fields(l: Line) -> [Field; 4]
    ensures value { result ≡ line_fields l }
    ensures fits { Fit (line_fields l) }
{
    [Word(l.at), Word(l.line), Word(l.col), Word(l.kind)]
}

fn put_relocs(out: &mut Vec<u8>, relocs: &[Reloc]) -> Result<(), AllocError>
    ensures bytes { OnOk result (out.new.items ≡ out.old.items ++ relocs_bytes relocs.now) }
    ensures fits { OnOk result (All (λ r. Fit (reloc_fields r)) relocs.now) }
{
    for reloc in relocs {
        put(out, &reloc_fields(*reloc))?;
    }
    Ok(())
}

fn put_lines(out: &mut Vec<u8>, lines: &[Line]) -> Result<(), AllocError>
    ensures bytes { OnOk result (out.new.items ≡ out.old.items ++ lines_bytes lines.now) }
    ensures fits { OnOk result (All (λ l. Fit (line_fields l)) lines.now) }
{
    for line in lines {
        put(out, &line_fields(*line))?;
    }
    Ok(())
}

#[tactic(auto, unfolding(crate::specs::Headers::e_ident))]
fn put_ident(out: &mut Vec<u8>) -> Result<(), AllocError>
    ensures { OnOk result (out.new.items ≡ out.old.items ++ e_ident) }
{
    out.extend_from_slice(&IDENT)
}

#[tactic(auto, unfolding(crate::specs::Headers::section_names))]
fn put_names(out: &mut Vec<u8>) -> Result<(), AllocError>
    ensures { OnOk result (out.new.items ≡ out.old.items ++ section_names) }
{
    out.extend_from_slice(&NAMES)
}

fn put_headers(out: &mut Vec<u8>, h: Headers) -> Result<(), AllocError>
    ensures { OnOk result (out.new.items ≡ out.old.items ++ e_ident ++ spelled (file_header h.entry 0)
        ++ spelled (program_headers h) ++ spelled (section_headers h)) }
{
    put_ident(out)?;
    put(out, &file_header(h.entry, 0))?;
    put(out, program_headers(h).as_flattened())?;
    put(out, section_headers(h).as_flattened())
}

fn put_parts(out: &mut Vec<u8>, h: Headers, i: &Image) -> Result<(), AllocError>
    ensures fits { OnOk result (All (λ r. Fit (reloc_fields r)) i.now.relocs ×
        All (λ l. Fit (line_fields l)) i.now.lines) }
    ensures bytes { OnOk result (out.new.items
        ≡ out.old.items ++ i.now.text ++ padding h.text_size ++ i.now.initial ++ padding h.initial_size
        ++ relocs_bytes i.now.relocs ++ padding h.relocs_size ++ lines_bytes i.now.lines ++ padding h.lines_size) }
{
    out.extend_from_slice(i.text.as_slice())?;
    put_padding(out, h.text_size)?;
    out.extend_from_slice(i.initial.as_slice())?;
    put_padding(out, h.initial_size)?;
    put_relocs(out, i.relocs.as_slice())?;
    put_padding(out, h.relocs_size)?;
    put_lines(out, i.lines.as_slice())?;
    put_padding(out, h.lines_size)
}

/// Appends the image's words, and the zero bytes behind them.
#[tactic(auto, using(crate::proofs::Runs::spelled_both, crate::proofs::Runs::fit_both))]
fn put_words(out: &mut Vec<u8>, i: &Image) -> Result<(), AllocError>
    ensures bytes { OnOk result (out.new.items
        ≡ out.old.items ++ spelled (words_fields i.now) ++ padding (words_size (headers_of i.now).counted)) }
    ensures fits { OnOk result (Fit (words_fields i.now)) }
{
    let h = headers_of(i);
    put(out, &image_words(i.version, i.table, h))?;
    put_count(out, h.counted, i.count)?;
    put_padding(out, h.words_size())
}

/// The file of an image.
fn file(alloc: Global, i: &Image) -> Result<Vec<u8>, NoMemory>
    ensures bytes { IfOk result (λ file. file.items ≡ file_of i.now) }
    ensures short { IfOk result (λ file. length file.items < 2 ^ 64) }
    ensures fits { OnOk result (FitsFields i.now) }
{
    let h = headers_of(i);
    let mut out = Vec::new(alloc);
    put_headers(&mut out, h)?;
    put_parts(&mut out, h, i)?;
    put_words(&mut out, i)?;
    put_names(&mut out)?;
    Ok(out)
}

/// The file of an image: no flags, zero bytes between its parts, and nothing after the last one.
pub fn write(alloc: Global, i: &Image) -> Result<Vec<u8>, NoMemory>
    ensures bytes { IfOk result (λ file. file.items ≡ file_of i.now) }
    // Reading it gives the image again, where that keeps the rules of the format.
    ensures read_back { KeepsRules i.now → IfOk result (λ file. reading file.items ≡ Ok i.now) }
{
    file(alloc, i)
}
