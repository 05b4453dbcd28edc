//! The modes `build`, `exec` and `audit` of the command.

use crate::calls::{
    SURE, Table, answers, answers_on, calls_are_answered, elf_and_count, elf_of, is_call_so,
    one_file,
};
use crate::whole_language::WORDS;
use ck_base::Refusal;
use elf_file::View;
use std::alloc::Global;
use std::process::Abort;

const HI: &str = "int main(void){putchar(72);putchar(105);return 0;}";

const RUNNING: [Table; 1] = [Table {
    file: HI,
    is_built: true,
    input: "",
    cases: "\
cheric exec a.c.elf | 0 | exit 0 | Hi
cheric exec a.c.elf --steps 99999 | 0 | exit 0 | Hi
cheric exec a.c.elf --steps 0 | 4 | steps
cheric exec a.c.elf --steps 1 | 4 | steps
cheric exec a.c.elf ! 0 0 2 0 | 22 | output | H
cheric exec a.c | 12 | image 1",
}];

#[test]
fn a_built_file_is_run(rt: HostRuntime) {
    calls_are_answered(&rt, rt.alloc(), &RUNNING);
}

/// Calls that put no name.
const UNPUT: [Table; 2] = [
    Table {
        file: HI,
        is_built: false,
        input: "",
        cases: "\
cheric build b.c | 20 | file
cheric build a.c ! 1 0 0 0 | 20 | file
cheric build a.c ! 2 0 0 0 | 20 | file
cheric exec a.c.elf | 20 | file",
    },
    Table {
        file: "",
        is_built: false,
        input: "",
        cases: "cheric build a.c ! 0 0 0 1 | 22",
    },
];

#[test]
fn a_refused_file_puts_no_name(rt: HostRuntime) {
    calls_are_answered(&rt, rt.alloc(), &UNPUT);
}

/// Whether the words put what is built of `a.c` under the name, say how many bytes it has, and leave `a.c`.
pub fn builds(alloc: Global, file: &[u8], words: &str, name: &str) -> Result<bool, Refusal> {
    let elf = elf_of(alloc, file)?;
    let len = elf.len();
    let line = format!(in alloc; "built {len}\n")?;
    let mut files = one_file(alloc, "a.c", file, 0)?;
    let is_said = answers(alloc, &mut files, words, "", SURE, (0, "", &line))?;
    Ok(is_said && files.contents("a.c") == Some(file) && files.contents(name) == Some(&elf))
}

#[test]
fn what_is_built_is_put(rt: HostRuntime) {
    let file = HI.as_bytes();
    assert!(rt; builds(rt.alloc(), file, "cheric build a.c", "a.c.elf").unwrap_or(false));
    assert!(rt; builds(rt.alloc(), file, "cheric build a.c --out b", "b").unwrap_or(false));
}

/// What is changed of a built file: it has the first bytes alone, or fewer by a number; its first word is another; or
/// its first relocation has no place.
#[derive(Clone, Copy)]
enum Change {
    No,
    First(usize),
    Fewer(usize),
    Word([u8; 4]),
    NoPlace,
}

/// The first word of a text stands here in the file.
const TEXT_AT: usize = 736;

/// How many bytes the text of a file has, and how many stand between its start and the relocations.
fn lengths(elf: &[u8]) -> (usize, usize) {
    match View::read(elf) {
        Ok(view) => {
            let text = view.text().len();
            (
                text,
                text.saturating_add(view.initial().len().div_ceil(16).saturating_mul(16)),
            )
        }
        Err(_) => (0, 0),
    }
}

/// Puts these bytes behind so many of a text, if there is room.
fn put(elf: &mut Vec<u8>, behind: usize, bytes: &[u8]) {
    let at = TEXT_AT.saturating_add(behind);
    if at <= elf.len() && bytes.len() <= elf.len() - at {
        elf[at..at + bytes.len()].copy_from_slice(bytes);
    }
}

fn changed(mut elf: Vec<u8>, change: Change) -> Vec<u8> {
    match change {
        Change::No => {}
        Change::First(len) => elf.truncate(len),
        Change::Fewer(by) => elf.truncate(elf.len().saturating_sub(by)),
        Change::Word(word) => put(&mut elf, 0, &word),
        Change::NoPlace => {
            let (_, relocs) = lengths(&elf);
            put(&mut elf, relocs, &[0; 8]);
        }
    }
    elf
}

const EBREAK: [u8; 4] = [0x73, 0, 0x10, 0];

/// An object whose bounds are told exactly, and its use past them.
const OBJECT: &str = "char a[4095];int main(void){a[4094]=1;a[4095]=1;return 0;}";

/// A C file, and how a call on what is built of it, under the name `b` and with a change, is answered.
type Image = (&'static str, Change, &'static str);

const IMAGES: [Image; 13] = [
    (HI, Change::No, "cheric exec b | 0 | exit 0 | Hi"),
    (HI, Change::Fewer(1), "cheric exec b | 12 | image 5"),
    (HI, Change::First(64), "cheric exec b | 12 | image 4"),
    (HI, Change::First(63), "cheric exec b | 12 | image 1"),
    (OBJECT, Change::NoPlace, "cheric exec b | 12 | image 13"),
    (HI, Change::No, "cheric audit b | 0 | audit yes"),
    (WORDS, Change::No, "cheric audit b | 0 | audit yes"),
    (
        HI,
        Change::Word(EBREAK),
        "cheric audit b | 7 | audit no word 1073741824 2",
    ),
    (HI, Change::First(63), "cheric audit b | 12 | image 1"),
    (
        HI,
        Change::No,
        "cheric audit b --steps 9 --out c | 0 | audit yes",
    ),
    (HI, Change::No, "cheric audit b ! 1 0 0 0 | 20 | file"),
    (HI, Change::No, "cheric audit b ! 0 0 0 1 | 22"),
    (HI, Change::No, "cheric audit c | 20 | file"),
];

fn is_so(alloc: Global, &(file, change, case): &Image) -> Option<bool> {
    let elf = changed(elf_of(alloc, file.as_bytes()).ok()?, change);
    is_call_so(alloc, "b", &elf, "", case)
}

fn are_so(rt: &impl Abort, alloc: Global, rows: &[Image]) {
    for row in rows {
        assert!(rt; is_so(alloc, row) == Some(true), "{}", row.2);
    }
}

#[test]
fn images_are_run_and_audited(rt: HostRuntime) {
    are_so(&rt, rt.alloc(), &IMAGES);
}

/// Whether `addi x10,x0,72` in place of the last word is named by its place.
fn names_last_word(alloc: Global) -> Result<bool, Refusal> {
    let mut elf = elf_of(alloc, HI.as_bytes())?;
    let last = lengths(&elf).0.saturating_sub(4);
    put(&mut elf, last, &[0x13, 5, 0x80, 4]);
    let place = 1_073_741_824_u64.saturating_add(last as u64);
    let line = format!(in alloc; "audit no word {place} 6\n")?;
    Ok(answers_on(alloc, "b", &elf, "cheric audit b", "", SURE, (7, "", &line))?)
}

#[test]
fn a_last_word_that_goes_on_is_named(rt: HostRuntime) {
    assert!(rt; names_last_word(rt.alloc()).unwrap_or(false));
}

/// Whether a file's image says its version and its count, and nothing behind.
fn says_its_count(alloc: Global, file: &str) -> bool {
    let Ok((elf, count)) = elf_and_count(alloc, file.as_bytes()) else {
        return false;
    };
    let Ok(view) = View::read(&elf) else {
        return false;
    };
    view.word(0) == Some(2) && view.word(12) == Some(count) && view.word(13).is_none()
}

#[test]
fn a_built_file_says_its_version_and_its_count(rt: HostRuntime) {
    for &file in &[HI, WORDS] {
        assert!(rt; says_its_count(rt.alloc(), file), "{file}");
    }
}
