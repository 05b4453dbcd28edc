//! Images by hand: written to their files, read, loaded and run.

use crate::calls::{Answer, SURE, answers_on, elf_of};
use crate::version_1::{TAIL, WORDS};
use cap_machine::End;
use ck_base::{NoMemory, Refusal, SureSink, SureSource};
use elf_file::{ElfRefusal, Image, Reloc, Sequence, View, write};
use image_load::{LoadRefusal, load};
use std::alloc::{AllocError, Global};
use std::process::Abort;

const TEXT: u64 = 65_536;

const TABLE: u64 = 131_072;

const HEAP: u64 = 16_777_216;

const STACK: u64 = 33_554_432;

/// A relocation that no test refuses: all permissions but Execute on the table.
const RELOC: Reloc = Reloc {
    place: TABLE,
    base: TABLE,
    offset: 0,
    length: 48,
    perms: 125,
};

/// A sentry of the text, in the last place of the table.
const SENTRY: Reloc = Reloc {
    place: TABLE + 32,
    base: TEXT,
    length: 16,
    perms: 0x8000_0000_0000_0003,
    ..RELOC
};

/// Places that are no multiple of 16, and behind the table.
const UNALIGNED: Reloc = Reloc {
    place: TABLE + 8,
    ..RELOC
};

const BEHIND: Reloc = Reloc {
    place: TABLE + 48,
    ..RELOC
};

/// Bounds and permissions that no capability has.
const WIDE: Reloc = Reloc {
    base: TEXT + 16,
    length: 4097,
    ..RELOC
};

const OTHER: Reloc = Reloc {
    perms: 128,
    ..RELOC
};

/// A sentry's permissions on the table, and all permissions but Execute on the text.
const EXECUTE: Reloc = Reloc {
    perms: 0x8000_0000_0000_0003,
    ..RELOC
};

const OVER_TEXT: Reloc = Reloc {
    base: TEXT,
    length: 16,
    ..RELOC
};

/// The instruction `ebreak`, and `cjal c0,0`.
const EBREAK: u32 = 0x0010_0073;

const CJAL: u32 = 0x0000_006f;

/// What becomes of the bytes of a file.
#[derive(Clone, Copy, PartialEq, Eq)]
enum Outcome {
    NotRead(ElfRefusal),
    NotLoaded(LoadRefusal),
    Ended(End),
}

fn outcome_of(alloc: Global, file: &[u8]) -> Outcome {
    let view = match View::read(file) {
        Ok(view) => view,
        Err(refusal) => return Outcome::NotRead(refusal),
    };
    match load(alloc, &view) {
        Ok(mut machine) => {
            let mut input = SureSource::new(Vec::new(alloc));
            Outcome::Ended(machine.run(1000, &mut input, &mut SureSink::new()))
        }
        Err(refusal) => Outcome::NotLoaded(refusal),
    }
}

/// What differs between the images: the version, the word that stands four times, the entry, the base of the heap and
/// the relocation.
type Form = (u64, u32, u64, u64, Reloc);

fn image(alloc: Global, &(version, word, entry, heap, reloc): &Form) -> Result<Image, AllocError> {
    let text = Vec::from_slice(alloc, [word.to_le_bytes(); 4].as_flattened())?;
    let initial = vec![in alloc; 0; 48]?;
    let relocs = vec![in alloc; reloc]?;
    Ok(Image {
        version,
        entry,
        text_base: TEXT,
        text: Sequence::from_vec(text),
        initial_base: TABLE,
        initial: Sequence::from_vec(initial),
        table: (TABLE, 48),
        heap: (heap, 4096),
        stack: (STACK, 4096),
        relocs: Sequence::from_vec(relocs),
        lines: Sequence::from_vec(Vec::new(alloc)),
        count: 0,
    })
}

/// The file of an image.
fn file(alloc: Global, form: &Form) -> Result<Vec<u8>, NoMemory> {
    let image = image(alloc, form)?;
    write(alloc, &image)
}

/// Images, with what becomes of them.
const IMAGES: [(Form, Outcome); 16] = [
    (
        (1, EBREAK, TEXT, HEAP, RELOC),
        Outcome::Ended(End::Break(TEXT)),
    ),
    (
        (1, 0, TEXT, HEAP, RELOC),
        Outcome::Ended(End::Illegal(TEXT)),
    ),
    (
        (0, 0, TEXT, HEAP, RELOC),
        Outcome::NotRead(ElfRefusal::Version),
    ),
    (
        (2, 0, TEXT, HEAP, RELOC),
        Outcome::Ended(End::Illegal(TEXT)),
    ),
    (
        (3, 0, TEXT, HEAP, RELOC),
        Outcome::NotRead(ElfRefusal::Version),
    ),
    (
        (1, 0, TEXT, HEAP + 8, RELOC),
        Outcome::NotLoaded(LoadRefusal::Segment),
    ),
    (
        (1, 0, TEXT, TEXT - 4096, RELOC),
        Outcome::NotLoaded(LoadRefusal::Segment),
    ),
    (
        (1, 0, TEXT, STACK, RELOC),
        Outcome::NotLoaded(LoadRefusal::Overlap),
    ),
    (
        (1, 0, TEXT, TEXT, RELOC),
        Outcome::NotLoaded(LoadRefusal::Overlap),
    ),
    (
        (1, 0, TEXT + 2, HEAP, RELOC),
        Outcome::NotLoaded(LoadRefusal::Entry),
    ),
    (
        (1, 0, TEXT + 16, HEAP, RELOC),
        Outcome::NotLoaded(LoadRefusal::Entry),
    ),
    (
        (1, EBREAK, TEXT, HEAP, SENTRY),
        Outcome::Ended(End::Break(TEXT)),
    ),
    (
        (1, EBREAK, TEXT, HEAP, UNALIGNED),
        Outcome::NotLoaded(LoadRefusal::Place),
    ),
    (
        (1, EBREAK, TEXT, HEAP, BEHIND),
        Outcome::NotLoaded(LoadRefusal::Place),
    ),
    (
        (1, EBREAK, TEXT, HEAP, WIDE),
        Outcome::NotLoaded(LoadRefusal::Bounds),
    ),
    (
        (1, EBREAK, TEXT, HEAP, OTHER),
        Outcome::NotLoaded(LoadRefusal::Bounds),
    ),
];

fn become_so(rt: &impl Abort, alloc: Global, rows: &[(Form, Outcome)]) {
    for (form, want) in rows {
        let elf = file(alloc, form).expect(rt, "a file");
        assert!(rt; outcome_of(alloc, &elf) == *want, "{form:?}");
    }
}

#[test]
fn images_end_or_are_refused(rt: HostRuntime) {
    become_so(&rt, rt.alloc(), &IMAGES);
}

/// An image, with a mode of the command, and the status and line of its answer.
type Commanded = (Form, &'static str, u8, &'static str);

const COMMANDED: [Commanded; 15] = [
    (
        (1, EBREAK, TEXT, HEAP, RELOC),
        "cheric exec b",
        6,
        "break 65536\n",
    ),
    (
        (1, 0, TEXT, HEAP, RELOC),
        "cheric exec b",
        6,
        "illegal 65536\n",
    ),
    (
        (1, 0, TEXT + 2, HEAP, RELOC),
        "cheric exec b",
        12,
        "image 15\n",
    ),
    (
        (1, 0, TEXT, STACK, RELOC),
        "cheric exec b",
        12,
        "image 12\n",
    ),
    ((1, 0, TEXT, HEAP, WIDE), "cheric exec b", 12, "image 14\n"),
    (
        (2, 0, TEXT, HEAP, RELOC),
        "cheric exec b",
        6,
        "illegal 65536\n",
    ),
    ((3, 0, TEXT, HEAP, RELOC), "cheric exec b", 12, "image 6\n"),
    (
        (1, CJAL, TEXT, HEAP, RELOC),
        "cheric audit b",
        0,
        "audit yes\n",
    ),
    (
        (2, CJAL, TEXT, HEAP, RELOC),
        "cheric audit b",
        0,
        "audit yes\n",
    ),
    (
        (1, CJAL, TEXT, HEAP, EXECUTE),
        "cheric audit b",
        7,
        "audit no reloc 0 7\n",
    ),
    (
        (2, CJAL, TEXT, HEAP, OVER_TEXT),
        "cheric audit b",
        7,
        "audit no reloc 0 8\n",
    ),
    (
        (1, 0, TEXT, HEAP, RELOC),
        "cheric audit b",
        7,
        "audit no word 65536 1\n",
    ),
    (
        (1, EBREAK, TEXT, HEAP, EXECUTE),
        "cheric audit b",
        7,
        "audit no word 65536 2\n",
    ),
    (
        (1, 0x0000_0073, TEXT, HEAP, RELOC),
        "cheric audit b",
        7,
        "audit no word 65536 4\n",
    ),
    (
        (1, 0, TEXT + 2, HEAP, RELOC),
        "cheric audit b",
        12,
        "image 15\n",
    ),
];

/// Whether the command answers these words so on a file `b`.
fn is_answered(alloc: Global, elf: &[u8], words: &str, answer: Answer<'_>) -> bool {
    answers_on(alloc, "b", elf, words, "", SURE, answer).unwrap_or(false)
}

fn are_answered(rt: &impl Abort, alloc: Global, rows: &[Commanded]) {
    for (form, words, status, line) in rows {
        let elf = file(alloc, form).expect(rt, "a file");
        assert!(rt;
            is_answered(alloc, &elf, *words, (*status, "", *line)),
            "{form:?}"
        );
    }
}

#[test]
fn the_command_runs_audits_or_refuses_images(rt: HostRuntime) {
    are_answered(&rt, rt.alloc(), &COMMANDED);
}

/// The version word of the file stands here.
const VERSION_AT: usize = 960;

/// The file of version 1, with this version word.
fn first_version(alloc: Global, version: u8) -> Result<Vec<u8>, AllocError> {
    let mut file = Vec::new(alloc);
    for word in &WORDS {
        file.extend_from_slice(&word.to_le_bytes())?;
    }
    file.extend_from_slice(&TAIL)?;
    if VERSION_AT < file.len() {
        file[VERSION_AT] = version;
    }
    Ok(file)
}

/// The version word of the file, with the answer of the command's mode `exec`.
const VERSIONS: [(u8, Answer<'static>); 2] = [
    (1, (0, "Hi", "exit 0\n")),
    (2, (12, "", "image 6\n")),
];

#[test]
fn the_command_runs_a_file_of_version_1(rt: HostRuntime) {
    for &(version, answer) in &VERSIONS {
        let elf = first_version(rt.alloc(), version).expect(&rt, "a file");
        assert!(rt;
            is_answered(rt.alloc(), &elf, "cheric exec b", answer),
            "{version}"
        );
    }
}

/// What becomes of a built file that is cut to a length.
fn cut(len: usize) -> Outcome {
    Outcome::NotRead(match len {
        0..64 => ElfRefusal::Short,
        64..736 => ElfRefusal::Tables,
        _ => ElfRefusal::Part,
    })
}

/// What becomes of a built file whose header byte at a place is complemented. A reader takes any flags.
fn complemented(place: usize) -> Outcome {
    match place {
        0..16 | 18..20 => Outcome::NotRead(ElfRefusal::Ident),
        48..52 => Outcome::Ended(End::Exit(0)),
        _ => Outcome::NotRead(ElfRefusal::Field),
    }
}

/// Whether a built file is refused at each cut.
fn is_refused_cut(alloc: Global, elf: &[u8]) -> bool {
    for len in 0..elf.len() {
        if outcome_of(alloc, &elf[..len]) != cut(len) {
            return false;
        }
    }
    true
}

/// Whether each header byte is judged where it is complemented.
fn is_judged_complemented(alloc: Global, elf: &mut [u8]) -> bool {
    for place in 0..elf.len().min(736) {
        elf[place] = !elf[place];
        if outcome_of(alloc, elf) != complemented(place) {
            return false;
        }
        elf[place] = !elf[place];
    }
    true
}

/// Whether a built file is refused so at each cut, and judged so with each header byte complemented.
fn is_refused_broken(alloc: Global) -> Result<bool, Refusal> {
    let file = b"int main(void){putchar(72);putchar(105);return 0;}";
    let mut elf = elf_of(alloc, file)?;
    Ok(is_refused_cut(alloc, &elf) && is_judged_complemented(alloc, &mut elf))
}

#[test]
fn built_files_are_refused_at_each_cut_and_header_byte(rt: HostRuntime) {
    assert!(rt; is_refused_broken(rt.alloc()).unwrap_or(false));
}
