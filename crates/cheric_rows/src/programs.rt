//! Programs that the front end gives of files, and the calls that take such.
ghost use Rattle.std.specs.Prelude.{◌≡◌, [], ◌∷◌, IfOk};
ghost use Rattle.c_tree.specs.Typing.{Sound};
ghost use Rattle.cheric_rows.specs.OneFunction.{frame};

use crate::calls::elf_and_count;
use bounds_place::{USUAL, place};
use c_tree::{Typed, weight};
use cap_reloc::{Table, table};
use cheric_build::{build_typed, front};
use ck_base::{NoMemory, Refusal, Sequence};
use elf_file::Reloc;
use obj_mem::{Frame, Map};
use std::alloc::Global;

const COUNTS: &str = "int main(void){int a=3;while(a)a=a-1;return 0;}";

/// Whether the file and its program are built to the same bytes, and how many steps the file is given for each turn.
fn built(alloc: Global, file: &str, p: &Typed) -> Result<(bool, u64), Refusal>
    requires sound { Sound p.now }
{
    let typed = build_typed(alloc, p, USUAL)?;
    let (elf, count) = elf_and_count(alloc, file.as_bytes())?;
    Ok((typed.elf.as_slice() == elf.as_slice(), count))
}

/// What the file weighs, and whether it is built as its program, in so many steps for each turn.
fn weighed(alloc: Global) -> Result<(u64, bool, u64), Refusal> {
    let p = front(alloc, COUNTS.as_bytes())?;
    let (is_same, count) = built(alloc, COUNTS, &p)?;
    Ok((weight(&p), is_same, count))
}

#[test]
fn a_file_is_built_as_its_program(rt: HostRuntime) {
    assert!(rt; weighed(rt.alloc()) == Ok((24, true, 32 * 24 + 4096)));
}

/// A frame of 16 bytes, which are saved area.
fn one_frame(alloc: Global) -> Result<Vec<Frame>, NoMemory>
    ensures { IfOk result (λ frames. frames.items ≡ frame ∷ []) }
{
    let mut frames = Vec::new(alloc);
    frames.push(Frame {
        size: 16,
        align: 16,
        slots: Sequence::from_vec(Vec::new(alloc)),
        saved: 16,
    })?;
    Ok(frames)
}

/// The offset of a function that begins the text.
fn one_entry(alloc: Global) -> Result<Vec<u32>, NoMemory>
    ensures { IfOk result (λ entries. entries.items ≡ 0 ∷ []) }
{
    Ok(vec![in alloc; 0]?)
}

/// The map of a program whose one function has no locals, with its pointers and initial bytes; none for another
/// program.
fn placed(alloc: Global, p: &Typed) -> Result<Option<(Map, Table)>, Refusal>
    requires sound { Sound p.now }
{
    let [main] = p.funs.as_slice() else {
        return Ok(None);
    };
    if !main.vars.as_slice().is_empty() {
        return Ok(None);
    }
    let frames = one_frame(alloc)?;
    let entries = one_entry(alloc)?;
    let map = place(alloc, p, &frames, &entries, 16, USUAL)?;
    let contents = table(alloc, &map, p)?;
    Ok(Some((map, contents)))
}

/// The length of the table of a file's program, with its pointers and initial bytes; none for another program.
fn contents_of(alloc: Global, file: &str) -> Result<Option<(u64, Table)>, Refusal> {
    let p = front(alloc, file.as_bytes())?;
    let Some((map, contents)) = placed(alloc, &p)? else {
        return Ok(None);
    };
    Ok(Some((map.table.1, contents)))
}

/// Files, with the length of the table, the relocations, and the bytes that are not zero.
const PLACED: [(&str, u64, usize, usize); 3] = [
    ("int main(void){return 0;}", 48, 2, 0),
    (
        "char a[4095];char b[4097];int main(void){a[0]=b[0];return 0;}",
        80,
        4,
        0,
    ),
    (
        "int g=258;int *p=&g;int main(void){return \"ab\"[1];}",
        96,
        6,
        4,
    ),
];

/// The length of the table of a file's program, how many relocations it has, and how many bytes are not zero.
fn measured(alloc: Global, file: &str) -> Result<Option<(u64, usize, usize)>, Refusal> {
    let Some((length, contents)) = contents_of(alloc, file)? else {
        return Ok(None);
    };
    let set = contents.bytes.iter().filter(|b| **b != 0).count();
    Ok(Some((length, contents.relocs.len(), set)))
}

fn has_measures(alloc: Global, &(file, length, relocs, set): &(&str, u64, usize, usize)) -> bool {
    let Ok(got) = measured(alloc, file) else {
        return false;
    };
    got == Some((length, relocs, set))
}

#[test]
fn objects_are_placed_and_begun(rt: HostRuntime) {
    for row in &PLACED {
        assert!(rt; has_measures(rt.alloc(), row), "{row:?}");
    }
}

/// Objects, with pointers into them, to a literal and to a function.
const POINTING: &str =
    "int main(void);char a[4097];const char b[10];struct S{char x[8];char m[4];}s;
char*c=a+5;char*q=s.m+2;const char*r=b+9;char*t=\"a\"+1;int(*f)(void)=main;int main(void){return 0;}";

/// Where the table stands, with the objects behind its 192 bytes; where the text stands; and a sentry's permissions.
const TABLE: u64 = 4_294_967_296;

const TEXT: u64 = 1_073_741_824;

const SENTRY: u64 = 0x8000_0000_0000_0003;

/// The relocations by place, base, offset, length and permissions: the whole objects, the literal, the function and the
/// heap, and then the pointers.
const POINTERS: [(u64, u64, u64, u64, u64); 16] = [
    (TABLE, TABLE + 192, 0, 4104, 125),
    (TABLE + 16, TABLE + 4304, 0, 10, 21),
    (TABLE + 32, TABLE + 4320, 0, 12, 125),
    (TABLE + 48, TABLE + 4336, 0, 16, 125),
    (TABLE + 64, TABLE + 4352, 0, 16, 125),
    (TABLE + 80, TABLE + 4368, 0, 16, 125),
    (TABLE + 96, TABLE + 4384, 0, 16, 125),
    (TABLE + 112, TABLE + 4400, 0, 16, 125),
    (TABLE + 128, TABLE + 4416, 0, 2, 21),
    (TABLE + 144, TEXT, 0, 16, SENTRY),
    (TABLE + 160, 16_777_216, 0, 16_777_216, 125),
    (TABLE + 4336, TABLE + 192, 5, 4104, 125),
    (TABLE + 4352, TABLE + 4328, 2, 4, 125),
    (TABLE + 4368, TABLE + 4304, 9, 10, 21),
    (TABLE + 4384, TABLE + 4416, 1, 2, 21),
    (TABLE + 4400, TEXT, 0, 16, SENTRY),
];

/// The first relocation that is none of these, by its number.
fn first_other(relocs: &[Reloc]) -> Option<usize> {
    for (k, r) in relocs.iter().enumerate() {
        if POINTERS.get(k) != Some(&(r.place, r.base, r.offset, r.length, r.perms)) {
            return Some(k);
        }
    }
    None
}

/// How many relocations the file's program has, and the first that is another.
fn judged(alloc: Global, file: &str) -> Result<(usize, Option<usize>), Refusal> {
    let Some((_, contents)) = contents_of(alloc, file)? else {
        return Ok((0, None));
    };
    Ok((contents.relocs.len(), first_other(&contents.relocs)))
}

#[test]
fn pointers_begin_as_relocations(rt: HostRuntime) {
    assert_eq!(rt; judged(rt.alloc(), POINTING), Ok((16, None)));
}
