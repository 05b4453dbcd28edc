//! An image and its files of both versions, written by hand from the format. The files are in words of eight bytes,
//! little endian.

use crate::answers::must_all_hold;
use crate::made::{Parts, file_of};
use ck_base::NoMemory;
use elf_file::{ElfRefusal, Line, Reloc, View};
use std::alloc::{AllocError, Global};

/// The headers of the file, of its programs and of all sections but the last two.
const HEADERS: [u64; 76] = [
    // e_ident
    0x0001_0102_464c_457f,
    0,
    // e_type, e_machine and e_version
    0x1_00f3_0002,
    // e_entry, e_phoff, e_shoff
    0x1_0004,
    64,
    288,
    // e_flags, e_ehsize and e_phentsize
    0x0038_0040_0000_0000,
    // e_phnum, e_shentsize, e_shnum and e_shstrndx
    0x0006_0007_0040_0004,
    // Each with p_type and p_flags, p_offset, p_vaddr, p_paddr, p_filesz, p_memsz and p_align: text, initial data,
    // heap and stack.
    0x5_0000_0001,
    736,
    0x1_0000,
    0x1_0000,
    12,
    12,
    16,
    0x6_0000_0001,
    752,
    0x10_0000,
    0x10_0000,
    20,
    20,
    16,
    0x6_0000_0001,
    0,
    0x20_0000,
    0x20_0000,
    0,
    0x1_0000,
    16,
    0x6_0000_0001,
    0,
    0x40_0000,
    0x40_0000,
    0,
    0x2_0000,
    16,
    // Each with sh_name and sh_type, sh_flags, sh_addr, sh_offset, sh_size, sh_link and sh_info, sh_addralign and
    // sh_entsize: none, text, data, relocations and lines.
    0,
    0,
    0,
    0,
    0,
    0,
    0,
    0,
    0x1_0000_0001,
    6,
    0x1_0000,
    736,
    12,
    0,
    16,
    0,
    0x1_0000_0007,
    3,
    0x10_0000,
    752,
    20,
    0,
    16,
    0,
    0x1_0000_000d,
    0,
    0,
    784,
    40,
    0,
    16,
    0,
    0x1_0000_0018,
    0,
    0,
    832,
    32,
    0,
    16,
    0,
];

/// What differs between the versions.
struct Form {
    version: u64,
    /// The headers of the sections of the image and the names.
    sections: [u64; 16],
    /// What stands behind the twelve words of the image: the count, and zeros up to the names.
    behind: &'static [u64],
    /// The words of the image from the thirteenth on.
    words: [(u8, Option<u64>); 2],
    /// The length of the file.
    len: usize,
}

/// The count of the image of version 2.
const COUNT: u64 = 0x1234;

const FORMS: [Form; 2] = [
    Form {
        version: 1,
        sections: [
            0x1_0000_0022,
            0,
            0,
            864,
            96,
            0,
            16,
            0,
            0x3_0000_002c,
            0,
            0,
            960,
            54,
            0,
            16,
            0,
        ],
        behind: &[],
        words: [(12, None), (13, None)],
        len: 1014,
    },
    Form {
        version: 2,
        sections: [
            0x1_0000_0022,
            0,
            0,
            864,
            104,
            0,
            16,
            0,
            0x3_0000_002c,
            0,
            0,
            976,
            54,
            0,
            16,
            0,
        ],
        behind: &[COUNT, 0],
        words: [(12, Some(COUNT)), (13, None)],
        len: 1030,
    },
];

/// The parts up to the lines, with zeros behind them.
const PARTS: [u64; 16] = [
    // At 736, three instructions.
    0x0000_0073_0000_0013,
    0x0000_006f,
    // At 752, 20 initial bytes.
    0x0807_0605_0403_0201,
    0x100f_0e0d_0c0b_0a09,
    0x1413_1211,
    0,
    // At 784, a relocation: place, base, offset, length and permissions.
    0x10_0000,
    0x1_0000,
    4,
    12,
    0x8000_0000_0000_0003,
    0,
    // At 832, two lines, each with at and line, and column and kind.
    0x3_0000_0000,
    1,
    0x5_0000_0004,
    0x1_0000_0002,
];

/// At 872, behind the version: the entry, and base and length of text, data, table, heap and stack.
const WORDS: [u64; 11] = [
    0x1_0004, 0x1_0000, 12, 0x10_0000, 20, 0x10_0000, 16, 0x20_0000, 0x1_0000, 0x40_0000, 0x2_0000,
];

/// The names of the sections.
const NAMES: [u8; 54] = *b"\0.text\0.data\0.ck_relocs\0.ck_lines\0.ck_image\0.shstrtab\0";

const RELOC: Reloc = Reloc {
    place: 0x10_0000,
    base: 0x1_0000,
    offset: 4,
    length: 12,
    perms: 0x8000_0000_0000_0003,
};

const FIRST: Line = Line {
    at: 0,
    line: 3,
    col: 1,
    kind: 0,
};

const SECOND: Line = Line {
    at: 4,
    line: 5,
    col: 2,
    kind: 1,
};

fn put_words(bytes: &mut Vec<u8>, words: &[u64]) -> Result<(), AllocError> {
    for word in words {
        bytes.extend_from_slice(&word.to_le_bytes())?;
    }
    Ok(())
}

fn fill(bytes: &mut Vec<u8>, form: &Form, version: u64) -> Result<(), AllocError> {
    put_words(bytes, &HEADERS)?;
    put_words(bytes, &form.sections)?;
    put_words(bytes, &PARTS)?;
    put_words(bytes, &[version])?;
    put_words(bytes, &WORDS)?;
    put_words(bytes, form.behind)?;
    bytes.extend_from_slice(&NAMES)
}

/// The file of a form, with this version word.
fn file(alloc: Global, form: &Form, version: u64) -> Result<Vec<u8>, AllocError> {
    let mut bytes = Vec::new(alloc);
    fill(&mut bytes, form, version)?;
    Ok(bytes)
}

const TEXT: [u8; 12] = [0x13, 0, 0, 0, 0x73, 0, 0, 0, 0x6f, 0, 0, 0];

const INITIAL: [u8; 20] = [
    1, 2, 3, 4, 5, 6, 7, 8, 9, 10, 11, 12, 13, 14, 15, 16, 17, 18, 19, 20,
];

/// The file that is written of the image.
fn written(alloc: Global, form: &Form) -> Result<Vec<u8>, NoMemory> {
    let parts = Parts {
        version: form.version,
        entry: 0x1_0004,
        text: (0x1_0000, &TEXT),
        initial: (0x10_0000, &INITIAL),
        table: (0x10_0000, 16),
        heap: (0x20_0000, 0x1_0000),
        stack: (0x40_0000, 0x2_0000),
        relocs: &[RELOC],
        lines: &[FIRST, SECOND],
        count: if form.version == 2 { COUNT } else { 0 },
    };
    file_of(alloc, &parts)
}

/// An address, and the line that stands there.
const POSITIONS: [(u64, Option<Line>); 5] = [
    (0xffff, None),
    (0x1_0000, Some(FIRST)),
    (0x1_0002, None),
    (0x1_0004, Some(SECOND)),
    (0x1_0008, None),
];

fn has_positions(view: &View<'_>) -> bool {
    for &(pc, line) in &POSITIONS {
        if view.position(pc) != line {
            return false;
        }
    }
    true
}

/// Whether the words from the second to the twelfth are those of the file.
fn has_words(view: &View<'_>) -> bool {
    let mut k = 1;
    for &word in &WORDS {
        if k > 11 || view.word(k) != Some(word) {
            return false;
        }
        k += 1;
    }
    true
}

/// Whether the first word is the version, and those from the thirteenth on are those of the form.
fn has_other_words(view: &View<'_>, form: &Form) -> bool {
    let [(first, count), (second, behind)] = form.words;
    view.word(0) == Some(form.version) && view.word(first) == count && view.word(second) == behind
}

fn has_parts(view: &View<'_>) -> bool {
    view.text() == TEXT.as_slice()
        && view.initial() == INITIAL.as_slice()
        && view.reloc(0) == Some(RELOC)
        && view.reloc(1).is_none()
}

fn is_read(form: &Form, file: &[u8]) -> bool {
    let Ok(view) = View::read(file) else {
        return false;
    };
    has_parts(&view) && has_positions(&view) && has_words(&view) && has_other_words(&view, form)
}

fn refusal_of(file: &[u8]) -> Option<ElfRefusal> {
    match View::read(file) {
        Ok(_) => None,
        Err(refusal) => Some(refusal),
    }
}

/// Puts a byte at a place of the file, for the one that it gives.
fn put(file: &mut Vec<u8>, place: usize, byte: u8) -> u8 {
    match file.get_mut(place) {
        Some(there) => {
            let old = *there;
            *there = byte;
            old
        }
        None => byte,
    }
}

/// Whether the file with another byte at a place is refused so, or read where no refusal is wanted.
fn is_refused_with(file: &mut Vec<u8>, place: usize, byte: u8, wanted: Option<ElfRefusal>) -> bool {
    let old = put(file, place, byte);
    let found = refusal_of(file);
    put(file, place, old);
    found == wanted
}

/// The refusal of the file whose byte at this place has each of its bits changed.
fn refusal_at(form: &Form, place: usize) -> Option<ElfRefusal> {
    match place {
        // The count, and what stands behind it.
        960..976 if form.version == 2 => None,
        // The identification and the machine.
        0..16 | 18..20 => Some(ElfRefusal::Ident),
        // The flags, the text and initial bytes, what stands behind them, the relocation, and the table's base and
        // length.
        48..52 | 736..832 | 912..928 => None,
        864..872 => Some(ElfRefusal::Version),
        // The lines and columns.
        836..844 | 852..860 => None,
        _ => Some(ElfRefusal::Field),
    }
}

/// The place of the second line in the text, with that line's refusal: lines that do not ascend, and one behind the
/// text.
const SECOND_LINES: [(u8, Option<ElfRefusal>); 4] = [
    (0, Some(ElfRefusal::Field)),
    (1, None),
    (11, None),
    (12, Some(ElfRefusal::Field)),
];

/// Whether each change of a byte is answered so. The second file is the first, to be changed.
fn has_each_byte(form: &Form, file: &[u8], changed: &mut Vec<u8>) -> bool {
    for (place, byte) in file.iter().enumerate() {
        if !is_refused_with(changed, place, !*byte, refusal_at(form, place)) {
            return false;
        }
    }
    true
}

fn has_second_lines(file: &mut Vec<u8>) -> bool {
    for &(at, wanted) in &SECOND_LINES {
        if !is_refused_with(file, 848, at, wanted) {
            return false;
        }
    }
    true
}

/// The refusal of a file with this version word, where the image's part has the size of that form.
fn version_refusal(form: &Form, version: u64) -> Option<ElfRefusal> {
    if version == form.version {
        None
    } else {
        Some(ElfRefusal::Version)
    }
}

/// The size of the image's part stands here, in the low byte of its field.
const SIZE_AT: usize = 640;

/// Sizes of the image's part that no version has.
const OTHER_SIZES: [u8; 9] = [0, 8, 88, 95, 97, 100, 103, 105, 112];

/// Whether a file is refused with each other size.
fn refuses_sizes(file: &mut Vec<u8>) -> bool {
    for &size in &OTHER_SIZES {
        if !is_refused_with(file, SIZE_AT, size, Some(ElfRefusal::Field)) {
            return false;
        }
    }
    true
}

fn reads_version(alloc: Global, form: &Form, version: u64) -> Result<bool, AllocError> {
    let mut file = file(alloc, form, version)?;
    Ok(refusal_of(&file) == version_refusal(form, version) && refuses_sizes(&mut file))
}

fn reads_its_version_alone(alloc: Global, form: &Form) -> bool {
    for version in 0..4 {
        if !matches!(reads_version(alloc, form, version), Ok(true)) {
            return false;
        }
    }
    true
}

/// Whether so many first bytes of the file are refused so.
fn is_truncated(file: &[u8], len: usize, (refusal, number): (ElfRefusal, u8)) -> bool {
    len < file.len() && refusal_of(&file[..len]) == Some(refusal) && refusal.number() == number
}

/// The refusal, and its number.
fn truncation(len: usize) -> (ElfRefusal, u8) {
    match len {
        0..64 => (ElfRefusal::Short, 1),
        64..736 => (ElfRefusal::Tables, 4),
        _ => (ElfRefusal::Part, 5),
    }
}

/// Whether the file is refused at each shorter length.
fn is_truncated_at_each(form: &Form, file: &[u8]) -> bool {
    for len in 0..form.len {
        if !is_truncated(file, len, truncation(len)) {
            return false;
        }
    }
    true
}

/// Whether what is written and the file, which are to be the same, are read, and refused with a wrong byte or a byte
/// too few. A byte behind the last part of a file is not looked at.
fn are_parts(form: &Form, written: &[u8], file: &mut Vec<u8>) -> bool {
    file.as_slice() == written
        && file.len() == form.len
        && is_read(form, written)
        && has_each_byte(form, written, file)
        && has_second_lines(file)
        && is_truncated_at_each(form, written)
        && file.push(0xff).is_ok()
        && refusal_of(file).is_none()
}

fn is_formed(alloc: Global, form: &Form) -> Result<bool, NoMemory> {
    let written = written(alloc, form)?;
    let mut file = file(alloc, form, form.version)?;
    Ok(are_parts(form, &written, &mut file))
}

/// The first form of which something is answered otherwise.
fn wrong_form(alloc: Global) -> Option<usize> {
    for (at, form) in FORMS.iter().enumerate() {
        if is_formed(alloc, form) != Ok(true) || !reads_its_version_alone(alloc, form) {
            return Some(at);
        }
    }
    None
}

#[test]
fn images_are_written_and_read_and_wrong_files_refused(rt: HostRuntime) {
    must_all_hold(&rt, "forms", wrong_form(rt.alloc()));
}
