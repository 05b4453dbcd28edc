//! Maps of known programs.
ghost use Rattle.std.specs.Prelude.{◌≡◌, true, length};
ghost use Rattle.bounds_place.specs.Sizes.{in_range};

use crate::given::none;
use bounds_place::{Sizes, USUAL, is_heap, is_stack, place};
use c_interner::{append, next_number};
use c_tree::{CType, FunDef, GlobalDef, Literal, Typed, VarDef};
use ck_base::{NoMemory, Pos, Refusal, Sequence, Span};
use ck_int::IntKind;
use obj_mem::{Frame, Map, Slot};
use std::alloc::{AllocError, Global};

const PLACE: Pos = Pos { line: 7, col: 5 };

const NAME: Span = Span { start: 0, end: 0 };

fn global(alloc: Global, of: u32) -> GlobalDef {
    GlobalDef {
        name: NAME,
        pos: PLACE,
        of,
        bytes: none(alloc),
        links: none(alloc),
    }
}

fn function(alloc: Global) -> Result<FunDef, AllocError> {
    let local = VarDef {
        name: NAME,
        pos: PLACE,
        of: 1,
        simple: false,
    };
    let vars = vec![in alloc; local]?;
    Ok(FunDef {
        name: NAME,
        pos: PLACE,
        of: 0,
        params: none(alloc),
        vars: Sequence::from_vec(vars),
        body: 0,
    })
}

fn literal(alloc: Global) -> Result<Literal, AllocError> {
    let bytes = Vec::from_slice(alloc, b"a\0")?;
    Ok(Literal {
        pos: PLACE,
        bytes: Sequence::from_vec(bytes),
    })
}

// Globals that are arrays of `unsigned char` of these lengths.
fn add_globals(alloc: Global, p: &mut Typed, lengths: &[u64]) -> Result<(), NoMemory> {
    for length in lengths {
        let of = next_number(p.types.as_slice())?;
        append(alloc, &mut p.types, CType::Array(0, *length))?;
        append(alloc, &mut p.globals, global(alloc, of))?;
    }
    Ok(())
}

// These globals, one literal, and one function that has an array of `local` bytes.
fn fill(alloc: Global, p: &mut Typed, lengths: &[u64], local: u64) -> Result<(), NoMemory> {
    append(alloc, &mut p.types, CType::Int(IntKind::U8, 0))?;
    append(alloc, &mut p.types, CType::Array(0, local))?;
    add_globals(alloc, p, lengths)?;
    append(alloc, &mut p.literals, literal(alloc)?)?;
    append(alloc, &mut p.funs, function(alloc)?)
}

fn frames(alloc: Global) -> Result<Vec<Frame>, AllocError> {
    let slot = Slot {
        var: 0,
        at: 16,
        length: 4104,
    };
    let slots = vec![in alloc; slot]?;
    let frame = Frame {
        size: 4128,
        align: 16,
        slots: Sequence::from_vec(slots),
        saved: 16,
    };
    Ok(vec![in alloc; frame]?)
}

// The map of a program with one function, whose text of 64 bytes has that function at the third word.
#[tactic(auto, using(cap_concentrate::proofs::Laws::owned_short))]
fn map_of(alloc: Global, p: &Typed, sizes: Sizes) -> Result<Map, Refusal>
    requires one { length p.now.funs ≡ 1 }
    requires sizes { in_range sizes ≡ true }
{
    let frames = frames(alloc)?;
    let entries = Vec::from_slice(alloc, &[8])?;
    place(alloc, p, &frames, &entries, 64, sizes)
}

// What is said of a program's map.
#[derive(Clone, Copy)]
pub(crate) enum Said {
    // The objects exceed the limit.
    Refused,
    Fits,
    // Three globals and the literal stand behind the table.
    Begins([u64; 3], u64),
    // The heap, and the stack behind it, by their lengths.
    Heap((u64, u64), (u64, u64)),
}

use Said::{Begins, Fits, Heap, Refused};

fn begins(m: &Map, globals: &[u64], literal: u64) -> bool {
    m.text == (1_073_741_824, 64)
        && m.table == (4_294_967_296, 112)
        && m.entries.as_slice() == &[1_073_741_832][..]
        && m.globals.as_slice() == globals
        && m.literals.as_slice() == &[literal][..]
        && m.frames.as_slice().len() == 1
}

fn is_so(m: &Map, said: Said) -> bool {
    match said {
        Refused => false,
        Fits => true,
        Begins(globals, literal) => begins(m, &globals, literal),
        Heap(heap, stack) => m.heap == heap && m.stack == stack,
    }
}

// Lengths of globals and that of a local, the lengths of heap and stack, and what is said of the map.
pub(crate) type Placed = (&'static [u64], u64, Sizes, Said);

// The globals of the first row with a limit take exactly 67,108,864 bytes with the literal of two, and those of the
// second one byte more.
pub(crate) static PLACED: [Placed; 11] = [
    (
        &[4095, 4097, 100_000],
        4097,
        USUAL,
        Begins([4_294_967_408, 4_294_971_504, 4_294_975_616], 4_295_075_712),
    ),
    (
        &[4095],
        4097,
        USUAL,
        Heap((16_777_216, 16_777_216), (33_554_432, 1_048_576)),
    ),
    (
        &[4095],
        4097,
        Sizes {
            heap: 67_108_864,
            stack: 33_554_432,
        },
        Heap((16_777_216, 67_108_864), (83_886_080, 33_554_432)),
    ),
    (
        &[4095],
        4097,
        Sizes {
            heap: 16_842_752,
            stack: 65_536,
        },
        Heap((16_777_216, 16_842_752), (33_619_968, 65_536)),
    ),
    (&[40_000_000, 26_935_296, 28_672, 4_030], 1, USUAL, Fits),
    (&[40_000_000, 26_935_296, 28_672, 4_031], 1, USUAL, Refused),
    (&[40_000_000, 26_000_000], 1, USUAL, Fits),
    (&[40_000_000, 40_000_000], 1, USUAL, Refused),
    (&[67_043_328, 1], 1, USUAL, Refused),
    (&[1, 1], 67_043_328, USUAL, Fits),
    (&[1, 1], 67_043_329, USUAL, Refused),
];

fn is_mapped(alloc: Global, p: &Typed, sizes: Sizes, said: Said) -> bool {
    if p.funs.as_slice().len() != 1 || !sizes.in_range() {
        return false;
    }
    match map_of(alloc, p, sizes) {
        Ok(m) => is_so(&m, said),
        Err(Refusal::Code(141, Pos { line: 1, col: 1 })) => matches!(said, Refused),
        Err(_) => false,
    }
}

pub(crate) fn is_placed(
    alloc: Global,
    p: &mut Typed,
    &(lengths, local, sizes, said): &Placed,
) -> bool {
    fill(alloc, p, lengths, local).is_ok() && is_mapped(alloc, p, sizes, said)
}

/// Lengths, with whether a heap and whether a stack may have them.
const LENGTHS: [(u64, bool, bool); 9] = [
    (0, false, false),
    (65_535, false, false),
    (65_536, false, true),
    (1_000_000, false, false),
    (16_777_215, false, false),
    (16_777_216, true, true),
    (33_554_432, true, true),
    (33_619_968, true, false),
    (67_174_400, false, false),
];

pub(crate) fn are_lengths() -> bool {
    for &(n, heap, stack) in &LENGTHS {
        if is_heap(n) != heap || is_stack(n) != stack {
            return false;
        }
    }
    true
}
