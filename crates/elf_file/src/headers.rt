//! The headers of a file, and where its parts stand.

ghost use Rattle.std.specs.Prelude.{◌≡◌, ◌+◌, ◌<◌, ◌^◌};
ghost use Rattle.std.specs.List.{flat_map};
ghost use Rattle.elf_file.specs.Fields.{Fit};
ghost use Rattle.elf_file.specs.Headers.{rounded, program_header, section_header, initial_at, relocs_at, lines_at};
ghost use Rattle.elf_file.specs.Headers.{words_at, words_size, names_at, end_of, file_header, program_headers};
ghost use Rattle.elf_file.specs.Headers.{section_headers, image_words};

use crate::field::Field;
use crate::field::Field::{Half, Word, Xword};

/// What an image chooses of its file's headers. The pairs are a base and a length in bytes, and each size is in bytes.
#[derive(Clone, Copy)]
pub struct Headers {
    pub entry: u64,
    pub text_base: u64,
    pub text_size: u64,
    pub initial_base: u64,
    pub initial_size: u64,
    pub heap: (u64, u64),
    pub stack: (u64, u64),
    pub relocs_size: u64,
    pub lines_size: u64,
    /// Whether the image's words end with the count.
    pub counted: bool,
}

// The codes of the headers, by their names in ELF64.
const ET_EXEC: u16 = 2;

pub const EM_RISCV: u16 = 243;

const EV_CURRENT: u32 = 1;

const PT_LOAD: u32 = 1;

const PF_X: u32 = 1;

const PF_W: u32 = 2;

const PF_R: u32 = 4;

const SHT_NULL: u32 = 0;

const SHT_PROGBITS: u32 = 1;

const SHT_STRTAB: u32 = 3;

const SHF_WRITE: u64 = 1;

const SHF_ALLOC: u64 = 2;

const SHF_EXECINSTR: u64 = 4;

/// The size of all headers, behind which the text stands.
pub const TEXT_AT: usize = 736;

/// The identification: the magic number, 64 bits, little endian, version 1, and zeros.
pub const IDENT: [u8; 16] = *b"\x7fELF\x02\x01\x01\0\0\0\0\0\0\0\0\0";

/// The names of the sections, each with a zero byte.
pub const NAMES: [u8; 54] = *b"\0.text\0.data\0.ck_relocs\0.ck_lines\0.ck_image\0.shstrtab\0";

/// The next multiple of 16.
fn rounded(place: u128) -> u128
    requires { place < 2 ^ 100 }
    ensures { result ≡ rounded place }
{
    (place + 15) / 16 * 16
}

impl Headers {
    /// Where the initial bytes stand in the file.
    pub fn initial_at(self) -> u128
        ensures value { result ≡ initial_at self }
        ensures small { result < 2 ^ 66 }
    {
        rounded(TEXT_AT as u128 + self.text_size as u128)
    }

    /// Where the relocations stand in the file.
    pub fn relocs_at(self) -> u128
        ensures value { result ≡ relocs_at self }
        ensures small { result < 2 ^ 67 }
    {
        rounded(self.initial_at() + self.initial_size as u128)
    }

    /// Where the lines stand in the file.
    pub fn lines_at(self) -> u128
        ensures value { result ≡ lines_at self }
        ensures small { result < 2 ^ 68 }
    {
        rounded(self.relocs_at() + self.relocs_size as u128)
    }

    /// Where the image's words stand in the file.
    pub fn words_at(self) -> u128
        ensures value { result ≡ words_at self }
        ensures small { result < 2 ^ 69 }
    {
        rounded(self.lines_at() + self.lines_size as u128)
    }

    /// The size of the image's words.
    pub fn words_size(self) -> u64
        ensures value { result ≡ words_size self.counted }
        ensures small { result < 128 }
    {
        if self.counted { 104 } else { 96 }
    }

    /// Where the names of the sections stand in the file.
    pub fn names_at(self) -> u128
        ensures value { result ≡ names_at self }
        ensures small { result < 2 ^ 70 }
    {
        rounded(self.words_at() + self.words_size() as u128)
    }

    /// Where the last part ends.
    pub fn end(self) -> u128
        ensures value { result ≡ end_of self }
        ensures small { result < 2 ^ 71 }
    {
        self.names_at() + NAMES.len() as u128
    }
}

/// The file header behind its identification (ELF64, "ELF header").
#[tactic(auto, unfolding(crate::specs::Headers::file_header))]
pub fn file_header(entry: u64, flags: u32) -> [Field; 13]
    ensures { result ≡ file_header entry flags }
{
    [
        Half(ET_EXEC),
        Half(EM_RISCV),
        Word(EV_CURRENT),
        Xword(entry as u128),
        // Where the program headers and the section headers begin.
        Xword(64),
        Xword(288),
        Word(flags),
        // The size of this header, and size and number of the program headers and of the section headers.
        Half(64),
        Half(56),
        Half(4),
        Half(64),
        Half(7),
        // The section that has the names.
        Half(6),
    ]
}

/// The header of a loadable segment (ELF64, "Program header").
fn program_header(
    flags: u32,
    offset: u128,
    base: u64,
    file_size: u64,
    memory_size: u64,
) -> [Field; 8]
    ensures { result ≡ program_header flags offset base file_size memory_size }
{
    [
        Word(PT_LOAD),
        Word(flags),
        Xword(offset),
        Xword(base as u128),
        Xword(base as u128),
        Xword(file_size as u128),
        Xword(memory_size as u128),
        Xword(16),
    ]
}

/// The program headers of text, initial data, heap and stack.
#[tactic(auto, unfolding(crate::specs::Headers::program_headers))]
pub fn program_headers(h: Headers) -> [[Field; 8]; 4]
    ensures { flat_map (λ header. header) result ≡ program_headers h }
{
    let data = PF_R | PF_W;
    [
        program_header(
            PF_R | PF_X,
            TEXT_AT as u128,
            h.text_base,
            h.text_size,
            h.text_size,
        ),
        program_header(
            data,
            h.initial_at(),
            h.initial_base,
            h.initial_size,
            h.initial_size,
        ),
        program_header(data, 0, h.heap.0, 0, h.heap.1),
        program_header(data, 0, h.stack.0, 0, h.stack.1),
    ]
}

/// The header of a section (ELF64, "Sections"). `name` is where its name begins in the names.
fn section_header(
    name: u32,
    kind: u32,
    flags: u64,
    base: u64,
    offset: u128,
    size: u64,
    align: u64,
) -> [Field; 10]
    ensures { result ≡ section_header name kind flags base offset size align }
{
    [
        Word(name),
        Word(kind),
        Xword(flags as u128),
        Xword(base as u128),
        Xword(offset),
        Xword(size as u128),
        // No link, no further information, and no entries of one size.
        Word(0),
        Word(0),
        Xword(align as u128),
        Xword(0),
    ]
}

/// The header of a section that is in no segment.
fn unloaded(name: u32, kind: u32, offset: u128, size: u64) -> [Field; 10]
    ensures { result ≡ section_header name kind 0 0 offset size 16 }
{
    section_header(name, kind, 0, 0, offset, size, 16)
}

/// The section headers: none, `.text`, `.data`, `.ck_relocs`, `.ck_lines`, `.ck_image` and `.shstrtab`.
#[tactic(auto, unfolding(crate::specs::Headers::section_headers))]
pub fn section_headers(h: Headers) -> [[Field; 10]; 7]
    ensures { flat_map (λ header. header) result ≡ section_headers h }
{
    let text = SHF_ALLOC | SHF_EXECINSTR;
    let data = SHF_WRITE | SHF_ALLOC;
    [
        section_header(0, SHT_NULL, 0, 0, 0, 0, 0),
        section_header(
            1,
            SHT_PROGBITS,
            text,
            h.text_base,
            TEXT_AT as u128,
            h.text_size,
            16,
        ),
        section_header(
            7,
            SHT_PROGBITS,
            data,
            h.initial_base,
            h.initial_at(),
            h.initial_size,
            16,
        ),
        unloaded(13, SHT_PROGBITS, h.relocs_at(), h.relocs_size),
        unloaded(24, SHT_PROGBITS, h.lines_at(), h.lines_size),
        unloaded(34, SHT_PROGBITS, h.words_at(), h.words_size()),
        unloaded(44, SHT_STRTAB, h.names_at(), 54),
    ]
}

/// The words of the image: version, entry, then base and length of text, data, table, heap and stack.
#[tactic(auto, unfolding(crate::specs::Headers::image_words, crate::specs::Fields::Fit))]
pub fn image_words(version: u64, table: (u64, u64), h: Headers) -> [Field; 12]
    ensures value { result ≡ image_words version table h }
    ensures fits { Fit (image_words version table h) }
{
    [
        Xword(version as u128),
        Xword(h.entry as u128),
        Xword(h.text_base as u128),
        Xword(h.text_size as u128),
        Xword(h.initial_base as u128),
        Xword(h.initial_size as u128),
        Xword(table.0 as u128),
        Xword(table.1 as u128),
        Xword(h.heap.0 as u128),
        Xword(h.heap.1 as u128),
        Xword(h.stack.0 as u128),
        Xword(h.stack.1 as u128),
    ]
}
