//! The modes `map`, `list` and `gen` of the command.

use crate::calls::{SURE, Table, answers, built, calls_are_answered, elf_of, is_answered, put_of};
use crate::image_commands::builds;
use cheric_top::generate;
use ck_base::{NoMemory, Refusal};
use elf_file::View;
use std::alloc::{AllocError, Global};

const HI: &str = "int main(void){putchar(72);putchar(105);return 0;}";

/// A file with an object of each kind.
const PARTS: &str =
    "int g[10];\nint f(int n){int a[2];a[1]=n;return a[1];}\nint main(void){return f(g[9])+\"hi\"[1];}";

/// The lines of its map, in order, up to what depends on the code. Lengths are owned lengths; the table has 16 bytes
/// for each global, literal and function and 32 more, and the globals and literals stand behind it.
const PARTS_MAP: [&str; 11] = [
    "text 1073741824 ",
    "function f 1073741",
    "function main 1073741",
    "global g 4294967392 40",
    "literal 3:31 4294967440 3",
    "table 4294967296 96",
    "heap 16777216 16777216",
    "stack 33554432 1048576",
    "frame f ",
    "slot 2:18 a ",
    "frame main ",
];

/// The lines of the map of the file that puts `Hi`, in the same way.
const HI_MAP: [&str; 6] = [
    "text 1073741824 ",
    "function main 1073741",
    "table 4294967296 48",
    "heap 16777216 16777216",
    "stack 33554432 1048576",
    "frame main ",
];

fn are_numbers(text: &str) -> bool {
    for byte in text.bytes() {
        if !byte.is_ascii_digit() && byte != b' ' {
            return false;
        }
    }
    true
}

/// Whether the map of a file has these lines, which go on with numbers alone.
fn has_lines(alloc: Global, file: &str, fronts: &[&str]) -> Result<bool, NoMemory> {
    let map = put_of(alloc, file.as_bytes(), "cheric map a.c")?;
    let mut lines = map.lines();
    for front in fronts {
        let Some(rest) = lines.next().unwrap_or("").strip_prefix(*front) else {
            return Ok(false);
        };
        if !are_numbers(rest) {
            return Ok(false);
        }
    }
    Ok(lines.next().is_none())
}

#[test]
fn maps_have_a_line_for_each_part(rt: HostRuntime) {
    assert!(rt; has_lines(rt.alloc(), PARTS, &PARTS_MAP).unwrap_or(false));
    assert!(rt; has_lines(rt.alloc(), HI, &HI_MAP).unwrap_or(false));
}

/// Words, and how a listing writes their instructions.
const INSTRUCTIONS: [(u32, &str); 5] = [
    (0x0000_0073, "ecall"),
    (0x0000_006f, "cjal c0,0"),
    (0x0000_8067, "cjalr c0,0(c1)"),
    (0x0480_0513, "addi x10,x0,72"),
    (0xfe01_115b, "cincoffsetimm c2,c2,-32"),
];

/// Whether a line lists this word at this address, with its instruction.
fn lists_word(alloc: Global, line: &str, at: u64, word: u32) -> Result<bool, AllocError> {
    let front = format!(in alloc; "{at} {word:08x} ")?;
    let Some(instruction) = line.strip_prefix(front.as_str()) else {
        return Ok(false);
    };
    for &(known, written) in &INSTRUCTIONS {
        if word == known {
            return Ok(instruction == written);
        }
    }
    Ok(!instruction.is_empty())
}

/// Whether a listing has a line for each word of the text, with its address, the word and its instruction.
fn lists(alloc: Global, listing: &str, text: &[u8]) -> bool {
    let mut rest = text;
    let mut at: u64 = 1_073_741_824;
    for line in listing.lines() {
        let [a, b, c, d, tail @ ..] = rest else {
            return false;
        };
        let word = u32::from_le_bytes([*a, *b, *c, *d]);
        if lists_word(alloc, line, at, word) != Ok(true) {
            return false;
        }
        rest = tail;
        at = at.saturating_add(4);
    }
    rest.is_empty()
}

/// Whether the listing and the map of a file tell the text that is built.
fn tell_the_text(alloc: Global, file: &[u8]) -> Result<bool, Refusal> {
    let elf = elf_of(alloc, file)?;
    let Ok(view) = View::read(&elf) else {
        return Ok(false);
    };
    let text = view.text();
    let len = text.len();
    let front = format!(in alloc; "text 1073741824 {len}\n")?;
    let map = put_of(alloc, file, "cheric map a.c")?;
    let listing = put_of(alloc, file, "cheric list a.c")?;
    Ok(map.starts_with(front.as_str()) && lists(alloc, &listing, text))
}

#[test]
fn listings_have_a_line_for_each_word(rt: HostRuntime) {
    assert!(rt; tell_the_text(rt.alloc(), HI.as_bytes()).unwrap_or(false));
    let file = generate(rt.alloc(), 64).expect(&rt, "a file");
    assert!(rt; tell_the_text(rt.alloc(), &file).unwrap_or(false));
}

/// A file whose values are few enough for registers.
const SUM: &str = "int main(void){int s=0;int i;for(i=0;i<10;i=i+1)s=s+i;return s;}";

const SUMMED: [Table; 1] = [Table {
    file: SUM,
    is_built: false,
    input: "",
    cases: "cheric run a.c | 1 | exit 45",
}];

/// Names of stores, of rank 0, and of loads, of rank 2. Any other instruction has rank 1.
const RANKS: [(&str, u8); 13] = [
    (" sb ", 0),
    (" sh ", 0),
    (" sw ", 0),
    (" sd ", 0),
    (" csc ", 0),
    (" lb ", 2),
    (" lh ", 2),
    (" lw ", 2),
    (" ld ", 2),
    (" lbu ", 2),
    (" lhu ", 2),
    (" lwu ", 2),
    (" clc ", 2),
];

fn rank(line: &str) -> u8 {
    for &(name, rank) in &RANKS {
        if line.contains(name) {
            return rank;
        }
    }
    1
}

/// How a listing writes a move of the stack's capability.
const MOVE: &str = " cincoffsetimm c2,c2,";

/// Whether neither a load nor a store stands between the prologue and the epilogue of the only function: between the
/// first and the last move of the stack stand the stores of the prologue, others, and then the loads of the epilogue.
fn is_in_registers(listing: &str) -> Option<bool> {
    let (_, behind) = listing.split_once(MOVE)?;
    let (between, _) = behind.rsplit_once(MOVE)?;
    let (lines, _) = between.rsplit_once('\n')?;
    let (mut last, mut count) = (0, 0u32);
    for line in lines.lines().skip(1) {
        let rank = rank(line);
        if rank < last {
            return Some(false);
        }
        if rank == 1 {
            count = count.saturating_add(1);
        }
        last = rank;
    }
    Some(count > 0)
}

#[test]
fn few_values_stand_in_registers(rt: HostRuntime) {
    calls_are_answered(&rt, rt.alloc(), &SUMMED);
    let listing = put_of(rt.alloc(), SUM.as_bytes(), "cheric list a.c").expect(&rt, "a text");
    assert!(rt; is_in_registers(&listing) == Some(true), "{listing}");
}

/// How many lines the map of a file has, and whether it is built, and what is built is audited by yes.
fn mapped(alloc: Global, file: &[u8]) -> Result<(usize, bool), Refusal> {
    let count = put_of(alloc, file, "cheric map a.c")?.lines().count();
    let is_built = builds(alloc, file, "cheric build a.c", "a.c.elf")?;
    let mut files = built(alloc, file)?;
    let audit = "cheric audit a.c.elf";
    let is_contained = answers(alloc, &mut files, audit, "", SURE, (0, "", "audit yes\n"))?;
    Ok((count, is_built && is_contained))
}

/// The generated file of 64 functions has two lines for each and for `main`, one for the array in each, and four more
/// in its map, and its image is contained.
#[test]
fn a_large_file_is_mapped_and_audited(rt: HostRuntime) {
    let file = generate(rt.alloc(), 64).expect(&rt, "a file");
    assert!(rt; mapped(rt.alloc(), &file) == Ok((198, true)));
}

/// Lines without a file that they read, and on files that are refused, are not there or fail.
const LINES: [Table; 2] = [
    Table {
        file: "int main(void){return ;}",
        is_built: false,
        input: "",
        cases: "\
cheric gen 1 | 0 | | functions 1/source 150/exit 16/
cheric gen 3 | 0 | | functions 3/source 322/exit 40/
cheric gen 3 --steps 9 | 0 | | functions 3/source 322/steps/
cheric map b.c | 20 | file
cheric list b.c | 20 | file
cheric map a.c | 10 | refused 133 1:16
cheric list a.c | 10 | refused 133 1:16
cheric map a.c --heap 9 | 11 | words
cheric gen 3 --stack 9 | 11 | words",
    },
    Table {
        file: HI,
        is_built: false,
        input: "",
        cases: "\
cheric map a.c ! 1 0 0 0 | 20 | file
cheric map a.c ! 0 0 1 0 | 22 | output
cheric map a.c ! 0 0 1 1 | 22
cheric list a.c ! 1 0 0 0 | 20 | file
cheric list a.c ! 0 0 1 0 | 22 | output
cheric list a.c ! 0 0 1 1 | 22
cheric gen 1 ! 0 0 1 0 | 22 | output",
    },
];

#[test]
fn lines_are_answered(rt: HostRuntime) {
    calls_are_answered(&rt, rt.alloc(), &LINES);
}

/// Whether the summary of 64 functions is the same at each call, and has the line with which a run of the file ends.
fn is_summed(alloc: Global) -> Result<bool, NoMemory> {
    let summary = put_of(alloc, b"", "cheric gen 64")?;
    let again = put_of(alloc, b"", "cheric gen 64")?;
    let line = format!(in alloc; "{}\n", summary.lines().nth(2).unwrap_or(""))?;
    let file = generate(alloc, 64)?;
    Ok(
        summary.starts_with("functions 64\n")
            && summary.as_str() == again.as_str()
            && is_answered(alloc, &file, "cheric run a.c", (1, "", &line)),
    )
}

#[test]
fn the_largest_generated_file_runs(rt: HostRuntime) {
    assert!(rt; is_summed(rt.alloc()).unwrap_or(false));
}
