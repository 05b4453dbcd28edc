//! Where the parts of a program stand.
ghost use Rattle.std.specs.Prelude.{◌≡◌, ℕ, ◌+◌, ◌*◌, ◌%◌, ◌^◌, ◌<◌, ◌≤◌, true, false, map, length, IfOk, IfErr};
ghost use Rattle.std.specs.Prelude.{sum_by, nat_lt};
ghost use Rattle.cap_concentrate.specs.Rounding.{owned};
ghost use Rattle.c_tree.specs.Layout.{size_limit};
ghost use Rattle.cap_layout.specs.Kept.{AreLayoutsOf};
ghost use Rattle.obj_mem.specs.Needs.{global_need, literal_need};
ghost use Rattle.bounds_place.specs.Rows.{need, room, bases_from, end_from};
ghost use Rattle.bounds_place.specs.Parts.{IsTable, AreData, HasParts};
ghost use Rattle.bounds_place.specs.Placing.{data_room, exceeds, IsRefusal, AreOffsets, IsPlacing};
ghost use Rattle.bounds_place.specs.Sizes.{in_range};

use crate::rows::row;
use crate::sizes::Sizes;
use c_tree::Typed;
use cap_concentrate::rounded_length;
use cap_layout::Layouts;
use ck_base::{Pos, Refusal, Sequence};
use obj_mem::{Frame, Map, Slot};
use program_needs::{LIMIT, Need, global_needs, literal_needs, room, some_locals_exceed};
use std::alloc::{AllocError, Global};

/// Where the heap begins, which has the stack behind it.
const HEAP: u64 = 16_777_216;

/// Where the text begins, and where the table, which has the globals and the literals behind it.
const TEXT: u64 = 1_073_741_824;

const TABLE: u64 = 4_294_967_296;

const START: Pos = Pos { line: 1, col: 1 };

/// The table's length, and the places of the globals and the literals behind it.
#[derive(Drop)]
struct Data {
    table: u64,
    globals: Vec<u64>,
    literals: Vec<u64>,
}

// The length of a table of so many entries.
#[tactic(auto, using(crate::proofs::Lengths::table_fits))]
fn table_length(entries: u64) -> u64
    requires some { 0 < entries }
    requires few { entries ≤ 536870912 }
    ensures { IsTable entries result }
{
    rounded_length(entries * 16)
}

fn data_of(
    alloc: Global,
    globals: &[Need],
    literals: &[Need],
    functions: usize,
) -> Result<Data, AllocError>
    requires positive { AreData globals.now literals.now }
    requires few { functions ≤ 268435456 }
    ensures table { IfOk result (λ d. IsTable (length globals.now + length literals.now + functions + 2) d.table) }
    ensures globals { IfOk result (λ d. d.globals.items ≡ bases_from (4294967296 + d.table) globals.now) }
    ensures literals { IfOk result (λ d. d.literals.items
        ≡ bases_from (end_from (4294967296 + d.table) globals.now) literals.now) }
{
    let table = table_length(globals.len() as u64 + literals.len() as u64 + functions as u64 + 2);
    let first = row(alloc, globals, TABLE + table)?;
    let second = row(alloc, literals, first.end)?;
    Ok(Data {
        table,
        globals: first.bases,
        literals: second.bases,
    })
}

// Whether objects are over the limit together.
fn data_exceeds(globals: &[Need], literals: &[Need]) -> bool
    ensures { result ≡ nat_lt size_limit (sum_by room globals.now + sum_by room literals.now) }
{
    let total = room(globals).saturating_add(room(literals));
    total > LIMIT
}

// Whether the program is over the limit.
fn exceeds(layouts: &Layouts, p: &Typed, globals: &[Need], literals: &[Need]) -> bool
    requires layouts { AreLayoutsOf p.now.types layouts.now }
    requires globals { globals.now ≡ map need (map (global_need p.now.types) p.now.globals) }
    requires literals { literals.now ≡ map need (map literal_need p.now.literals) }
    ensures { result ≡ exceeds p.now }
{
    data_exceeds(globals, literals) | some_locals_exceed(layouts, p)
}

/// Whether the objects of a program exceed their limit of 67,108,864 bytes: its globals and literals together, or the
/// locals of one function.
pub fn exceeds_limit(alloc: Global, layouts: &Layouts, p: &Typed) -> Result<bool, AllocError>
    requires { AreLayoutsOf p.now.types layouts.now }
    ensures { IfOk result (λ answer. answer ≡ exceeds p.now) }
{
    let globals = global_needs(alloc, layouts, p)?;
    let literals = literal_needs(alloc, p)?;
    Ok(exceeds(layouts, p, &globals, &literals))
}

// The addresses of functions, from their offsets in the text.
fn addresses(alloc: Global, entries: &[u32]) -> Result<Vec<u64>, AllocError>
    ensures { IfOk result (λ es. es.items ≡ map (λ at. 1073741824 + at) entries.now) }
{
    let mut addresses = Vec::new(alloc);
    for &at in entries {
        addresses.push(TEXT + u64::from(at))?;
    }
    Ok(addresses)
}

fn copy_of(alloc: Global, f: &Frame) -> Result<Frame, AllocError>
    ensures { IfOk result (λ g. g ≡ f.now) }
{
    let mut slots: Vec<Slot> = Vec::new(alloc);
    slots.extend_from_slice(f.slots.as_slice())?;
    Ok(Frame {
        size: f.size,
        align: f.align,
        slots: Sequence::from_vec(slots),
        saved: f.saved,
    })
}

fn copies_of(alloc: Global, frames: &[Frame]) -> Result<Vec<Frame>, AllocError>
    ensures { IfOk result (λ fs. fs.items ≡ frames.now) }
{
    let mut copies = Vec::new(alloc);
    for f in frames {
        copies.push(copy_of(alloc, f)?)?;
    }
    Ok(copies)
}

// The map of these parts.
#[tactic(auto, using(crate::proofs::Ranges::heap_most))]
fn map_of(
    alloc: Global,
    made: Data,
    frames: &[Frame],
    entries: &[u32],
    text: u64,
    sizes: Sizes,
) -> Result<Map, AllocError>
    requires { in_range sizes ≡ true }
    ensures { IfOk result
        (HasParts made.table made.globals.items made.literals.items frames.now entries.now text sizes) }
{
    let addresses = addresses(alloc, entries)?;
    let frames = copies_of(alloc, frames)?;
    Ok(Map {
        text: (TEXT, text),
        entries: Sequence::from_vec(addresses),
        globals: Sequence::from_vec(made.globals),
        literals: Sequence::from_vec(made.literals),
        table: (TABLE, made.table),
        heap: (HEAP, sizes.heap),
        stack: (HEAP + sizes.heap, sizes.stack),
        frames: Sequence::from_vec(frames),
    })
}

/// A legal map of a program, with these frames and a text of `text` bytes, in which the functions begin at the offsets
/// `entries`. Its heap and its stack have the lengths of `sizes`. The table, the globals and the literals lie in one
/// stretch from the table's base on.
///
/// It is refused by 141 at 1:1 exactly where the globals and literals together, or the locals of one function that are
/// objects, exceed 67,108,864 bytes, each counted as its owned length and its object's alignment.
pub fn place(
    alloc: Global,
    p: &Typed,
    frames: &Vec<Frame>,
    entries: &Vec<u32>,
    text: u64,
    sizes: Sizes,
) -> Result<Map, Refusal>
    requires entries { length entries.now.items ≡ length p.now.funs }
    requires offsets { AreOffsets entries.now.items text }
    requires whole { text % 16 ≡ 0 }
    requires owned { owned text ≡ text }
    requires most { text ≤ 2 ^ 30 }
    requires sizes { in_range sizes ≡ true }
    ensures placed { IfOk result (IsPlacing p.now frames.now.items entries.now.items text sizes) }
    ensures within { IfOk result (λ m. exceeds p.now ≡ false) }
    ensures refused { IfErr result (IsRefusal p.now) }
{
    let layouts = Layouts::new(alloc, p)?;
    let globals = global_needs(alloc, &layouts, p)?;
    let literals = literal_needs(alloc, p)?;
    if exceeds(&layouts, p, &globals, &literals) {
        return Err(Refusal::Code(141, START));
    }
    let functions = p.funs.as_slice().len();
    let made = data_of(alloc, &globals, &literals, functions)?;
    Ok(map_of(alloc, made, frames, entries, text, sizes)?)
}
