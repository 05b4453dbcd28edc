//! Tagged memory: each call on its happy path, and at the ends of the regions.

ghost use Rattle.std.specs.Prelude.{◌≡◌, ◌%◌};

use crate::answers::must_all_hold;
use ck_base::NoMemory;
use std::alloc::Global;
use tag_mem::{Mem, Region};

/// Two regions with a gap between them: 64 bytes at 65,536 and 32 bytes at 131,072.
fn memory(alloc: Global) -> Result<Mem, NoMemory> {
    let low = Region {
        base: 65_536,
        length: 64,
    };
    let high = Region {
        base: 131_072,
        length: 32,
    };
    let regions = vec![in alloc; low, high]?;
    Mem::new(alloc, &regions)
}

/// One region of 65 granules, whose tags take two words.
fn long_memory(alloc: Global) -> Result<Mem, NoMemory> {
    let region = Region {
        base: 65_536,
        length: 1_040,
    };
    let regions = vec![in alloc; region]?;
    Mem::new(alloc, &regions)
}

/// A call, and its answer. A granule that is lent is read as a number, or its first byte is written.
#[derive(Clone, Copy)]
enum Call {
    Read(u64, u8, Option<u64>),
    Write(u64, u8, u64, bool),
    Cap(u64, Option<(u128, bool)>),
    SetCap(u64, u128, bool, bool),
    Fill(u64, &'static [u8], bool),
    Lent(u64, Option<u128>),
    LentToWrite(u64, Option<u8>, bool),
}

/// The number in a granule that is lent.
fn lent_number(mem: &Mem, at: u64) -> Option<u128>
    requires { at % 16 ≡ 0 }
{
    let granule = mem.granule(at)?;
    Some(u128::from_le_bytes(*granule))
}

/// Writes the first byte of a granule that is lent, or leaves it.
fn write_lent(mem: &mut Mem, at: u64, byte: Option<u8>) -> bool
    requires { at % 16 ≡ 0 }
{
    match mem.granule_mut(at) {
        Some(granule) => {
            if let Some(byte) = byte {
                granule[0] = byte;
            }
            true
        }
        None => false,
    }
}

/// Reads one byte, or four or eight at a multiple of these.
fn read(mem: &Mem, at: u64, n: u8) -> Option<u64> {
    match n {
        1 => mem.read(at, 1),
        4 if at % 4 == 0 => mem.read(at, 4),
        8 if at % 8 == 0 => mem.read(at, 8),
        _ => None,
    }
}

/// Writes one byte, or two or four at a multiple of these.
fn write(mem: &mut Mem, at: u64, n: u8, v: u64) -> bool {
    match n {
        1 => mem.write(at, 1, v),
        2 if at % 2 == 0 => mem.write(at, 2, v),
        4 if at % 4 == 0 => mem.write(at, 4, v),
        _ => false,
    }
}

/// Whether a call at a granule is answered so.
fn is_so_at_granule(mem: &mut Mem, call: Call, at: u64) -> bool
    requires { at % 16 ≡ 0 }
{
    match call {
        Call::Cap(_, answer) => mem.cap_at(at) == answer,
        Call::SetCap(_, bits, tag, answer) => mem.set_cap(at, bits, tag) == answer,
        Call::Fill(_, bytes, answer) => mem.fill(at, bytes) == answer,
        Call::Lent(_, answer) => lent_number(mem, at) == answer,
        Call::LentToWrite(_, byte, answer) => write_lent(mem, at, byte) == answer,
        _ => false,
    }
}

fn is_so(mem: &mut Mem, call: Call) -> bool {
    match call {
        Call::Read(at, n, answer) => read(mem, at, n) == answer,
        Call::Write(at, n, v, answer) => write(mem, at, n, v) == answer,
        Call::Cap(at, _)
        | Call::SetCap(at, _, _, _)
        | Call::Fill(at, _, _)
        | Call::Lent(at, _)
        | Call::LentToWrite(at, _, _) => at % 16 == 0 && is_so_at_granule(mem, call, at),
    }
}

/// Whether the calls are answered so.
fn are_so(mem: &mut Mem, calls: &[Call]) -> bool {
    for call in calls {
        if !is_so(mem, *call) {
            return false;
        }
    }
    true
}

/// A word of four bytes, and its bytes.
type Word = (u64, [u64; 4]);

// Instruction words of RV64 and their bytes, as an assembler writes them. The third has a bit above its 32.
const WORDS: [Word; 8] = [
    (0x0480_0513, [0x13, 0x05, 0x80, 0x04]),
    (0x0000_8067, [0x67, 0x80, 0x00, 0x00]),
    (0x1_0000_006f, [0x6f, 0x00, 0x00, 0x00]),
    (0x0011_3423, [0x23, 0x34, 0x11, 0x00]),
    (0x0011_4823, [0x23, 0x48, 0x11, 0x00]),
    (0x0101_208f, [0x8f, 0x20, 0x01, 0x01]),
    (0x12b5_055b, [0x5b, 0x05, 0xb5, 0x12]),
    (0xfe01_115b, [0x5b, 0x11, 0x01, 0xfe]),
];

fn bytes_at_base(mem: &Mem) -> Option<[u64; 4]> {
    Some([
        mem.read(65_536, 1)?,
        mem.read(65_537, 1)?,
        mem.read(65_538, 1)?,
        mem.read(65_539, 1)?,
    ])
}

fn is_stored(alloc: Global, &(word, bytes): &Word) -> Result<bool, NoMemory> {
    let mut mem = memory(alloc)?;
    Ok(mem.write(65_536, 4, word) && bytes_at_base(&mem) == Some(bytes))
}

/// The first word that is stored as other bytes.
fn wrong_word(alloc: Global) -> Option<usize> {
    for (at, row) in WORDS.iter().enumerate() {
        if !matches!(is_stored(alloc, row), Ok(true)) {
            return Some(at);
        }
    }
    None
}

const STORED: [Call; 4] = [
    Call::Write(65_536, 4, 0xfe01_115b, true),
    Call::Write(65_542, 2, 0xabcd, true),
    Call::Read(65_536, 8, Some(0xabcd_0000_fe01_115b)),
    Call::Read(65_540, 4, Some(0xabcd_0000)),
];

// The capability with permissions 125 and bounds 65,536 to 65,576, in memory form (exclusive-or with null), at its
// base.
const BITS: u128 = 0x007d_0000_040b_8004_0000_0000_0001_0000;

const TAGGED: [Call; 13] = [
    Call::Cap(65_552, Some((0, false))),
    Call::Cap(65_568, Some((0, false))),
    Call::SetCap(65_552, BITS, true, true),
    Call::SetCap(65_568, BITS, true, true),
    Call::Cap(65_552, Some((BITS, true))),
    Call::Cap(65_568, Some((BITS, true))),
    Call::Read(65_560, 8, Some(0x007d_0000_040b_8004)),
    Call::Write(65_567, 1, 0, true),
    Call::Cap(65_552, Some((BITS, false))),
    Call::Cap(65_568, Some((BITS, true))),
    Call::SetCap(65_568, 1, false, true),
    Call::Cap(65_552, Some((BITS, false))),
    Call::Cap(65_568, Some((1, false))),
];

const TEXT: [u8; 17] = [
    0x13, 0x05, 0x80, 0x04, 0x67, 0x80, 0, 0, 1, 2, 3, 4, 5, 6, 7, 8, 9,
];

const SIXTEEN: [u8; 16] = [
    0x13, 0x05, 0x80, 0x04, 0x67, 0x80, 0, 0, 1, 2, 3, 4, 5, 6, 7, 8,
];

/// The first sixteen bytes as a number.
const FIRST: u128 = 0x0807_0605_0403_0201_0000_8067_0480_0513;

const FILLED: [Call; 11] = [
    Call::SetCap(65_552, 0, true, true),
    Call::SetCap(65_568, 0, true, true),
    // Past the end.
    Call::Fill(65_584, &TEXT, false),
    Call::Cap(65_552, Some((0, true))),
    Call::Cap(65_568, Some((0, true))),
    Call::Fill(65_552, &SIXTEEN, true),
    Call::Cap(65_552, Some((FIRST, false))),
    Call::Cap(65_568, Some((0, true))),
    Call::Fill(65_552, &TEXT, true),
    Call::Cap(65_552, Some((FIRST, false))),
    Call::Cap(65_568, Some((9, false))),
];

const OUTSIDE: [Call; 17] = [
    Call::Read(0, 1, None),
    Call::Write(0, 1, 7, false),
    Call::Read(65_535, 1, None),
    Call::Write(65_535, 1, 7, false),
    Call::Read(65_600, 1, None),
    Call::Write(65_600, 1, 7, false),
    Call::Read(131_071, 1, None),
    Call::Write(131_071, 1, 7, false),
    Call::Read(131_104, 1, None),
    Call::Write(131_104, 1, 7, false),
    Call::Read(0xffff_ffff_ffff_ffff, 1, None),
    Call::Write(0xffff_ffff_ffff_ffff, 1, 7, false),
    Call::Cap(65_520, None),
    Call::SetCap(131_104, 1, true, false),
    Call::Write(131_103, 1, 7, true),
    Call::Read(131_096, 8, Some(0x0700_0000_0000_0000)),
    Call::Read(65_599, 1, Some(0)),
];

/// The last granule of the first word of tags and the first of the next are lent for reading and for writing, and none
/// outside.
const LENT: [Call; 17] = [
    Call::SetCap(66_544, BITS, true, true),
    Call::SetCap(66_560, BITS, true, true),
    Call::Cap(66_544, Some((BITS, true))),
    Call::Cap(66_560, Some((BITS, true))),
    Call::Lent(66_544, Some(BITS)),
    Call::Cap(66_544, Some((BITS, true))),
    Call::Cap(66_560, Some((BITS, true))),
    Call::LentToWrite(66_544, None, true),
    Call::Cap(66_544, Some((BITS, false))),
    Call::Cap(66_560, Some((BITS, true))),
    Call::Lent(66_576, None),
    Call::LentToWrite(66_576, Some(7), false),
    Call::Cap(66_544, Some((BITS, false))),
    Call::Cap(66_560, Some((BITS, true))),
    Call::LentToWrite(66_560, Some(7), true),
    Call::Cap(66_544, Some((BITS, false))),
    Call::Cap(66_560, Some((BITS + 7, false))),
];

/// Calls on memory of their own, which is the long one or the other.
const TURNS: [(bool, &[Call]); 5] = [
    (false, &STORED),
    (false, &TAGGED),
    (false, &FILLED),
    (false, &OUTSIDE),
    (true, &LENT),
];

fn are_answered(alloc: Global, is_long: bool, calls: &[Call]) -> Result<bool, NoMemory> {
    let mut mem = if is_long {
        long_memory(alloc)?
    } else {
        memory(alloc)?
    };
    Ok(are_so(&mut mem, calls))
}

/// The first turns of which a call is answered otherwise.
fn wrong_turns(alloc: Global) -> Option<usize> {
    for (at, &(is_long, calls)) in TURNS.iter().enumerate() {
        if !matches!(are_answered(alloc, is_long, calls), Ok(true)) {
            return Some(at);
        }
    }
    None
}

#[test]
fn stores_fills_and_lends_with_tags_inside_its_regions(rt: HostRuntime) {
    must_all_hold(&rt, "words by their bytes", wrong_word(rt.alloc()));
    must_all_hold(&rt, "turns", wrong_turns(rt.alloc()));
}
