//! Types by their numbers: each call on known types, and types that are large in depth or in the number of their
//! leaves.
ghost use Rattle.std.specs.Prelude.{◌≡◌, ◌<◌, true, length};

use c_interner::{Lengths, Numbers, agree, append, next_number};
use c_tree::{CType, Typed};
use ck_base::{NoMemory, Sequence};
use ck_int::IntKind;
use std::alloc::Global;

const INT: CType = CType::Int(IntKind::I32, 0);

// A type at the end of the list, whether or not it stands there already.
fn add(alloc: Global, p: &mut Typed, c: CType) -> Result<u32, NoMemory> {
    let k = next_number(p.types.as_slice());
    append(alloc, &mut p.types, c)?;
    k
}

fn add_function(alloc: Global, p: &mut Typed, gives: u32, ps: &[u32]) -> Result<u32, NoMemory> {
    let params = ps.to_vec(alloc)?;
    add(alloc, p, CType::Function(gives, Sequence::from_vec(params)))
}

fn are_there(p: &Typed, a: u32, b: u32) -> bool
    ensures first { result ≡ true → a < length p.now.types }
    ensures second { result ≡ true → b < length p.now.types }
{
    let count = p.types.as_slice().len();
    (a as usize) < count && (b as usize) < count
}

fn agree_in(alloc: Global, p: &Typed, how: Lengths, a: u32, b: u32) -> Result<bool, NoMemory> {
    if !are_there(p, a, b) {
        return Err(NoMemory);
    }
    agree(alloc, p, how, a, b)
}

fn composite_in(numbers: &mut Numbers, p: &mut Typed, a: u32, b: u32) -> Result<u32, NoMemory> {
    if !are_there(p, a, b) {
        return Err(NoMemory);
    }
    numbers.composite(p, a, b)
}

// The length of the array at the bottom of a type, along last parameters, and how many levels stand above it.
fn bottom(types: &[CType], top: u32) -> (u64, usize) {
    let mut k = top;
    for level in 0..types.len() {
        match types.get(k as usize) {
            Some(CType::Pointer(of) | CType::Const(of)) => k = *of,
            Some(CType::Function(gives, ps)) => {
                k = ps.as_slice().last().copied().unwrap_or(*gives);
            }
            Some(CType::Array(_, count)) => return (*count, level),
            _ => return (0, level),
        }
    }
    (0, 0)
}

// Pointers in one another to a type; doubled, each of them is to a function of two parameters, both the one before.
fn tower(
    alloc: Global,
    p: &mut Typed,
    of: u32,
    levels: u32,
    doubled: bool,
) -> Result<u32, NoMemory> {
    let mut top = add(alloc, p, CType::Pointer(of))?;
    for _ in 0..levels {
        if doubled {
            top = add_function(alloc, p, 0, &[top, top])?;
        }
        top = add(alloc, p, CType::Pointer(top))?;
    }
    Ok(top)
}

// `int`, an array of an unknown number of them and one of four, pointers to these, a function from the one to the
// other, and back, and a const pointer.
fn add_small_types(alloc: Global, p: &mut Typed) -> Result<(), NoMemory> {
    add(alloc, p, INT)?;
    add(alloc, p, CType::Array(0, 0))?;
    add(alloc, p, CType::Array(0, 4))?;
    add(alloc, p, CType::Pointer(1))?;
    add(alloc, p, CType::Pointer(2))?;
    add_function(alloc, p, 3, &[4])?;
    add_function(alloc, p, 4, &[3])?;
    add(alloc, p, CType::Const(3))?;
    Ok(())
}

// The pointed types of a call and the numbers of the pointers.
const NUMBERED: [(u32, u32); 4] = [(0, 1), (1, 2), (0, 1), (1, 2)];

fn has_number(numbers: &mut Numbers, p: &mut Typed, &(of, expected): &(u32, u32)) -> bool {
    numbers.number_of(p, CType::Int(IntKind::I32, 0)) == Ok(0)
        && numbers.number_of(p, CType::Pointer(of)) == Ok(expected)
}

pub(crate) fn have_one_number(alloc: Global, p: &mut Typed) -> bool {
    let mut numbers = Numbers::new(alloc);
    for row in &NUMBERED {
        if !has_number(&mut numbers, p, row) {
            return false;
        }
    }
    true
}

// Two of the small types, and whether they are equal, and compatible.
const AGREEMENTS: [(u32, u32, bool, bool); 7] = [
    (0, 0, true, true),
    (0, 1, false, false),
    (1, 2, false, true),
    (3, 4, false, true),
    (5, 6, false, true),
    (6, 6, true, true),
    (3, 7, false, false),
];

fn agreements(alloc: Global, p: &Typed, a: u32, b: u32) -> Result<(bool, bool), NoMemory> {
    let equal = agree_in(alloc, p, Lengths::Equal, a, b)?;
    let compatible = agree_in(alloc, p, Lengths::Compatible, a, b)?;
    Ok((equal, compatible))
}

fn are_agreed(alloc: Global, p: &Typed) -> Result<bool, NoMemory> {
    for &(a, b, equal, compatible) in &AGREEMENTS {
        if agreements(alloc, p, a, b)? != (equal, compatible) {
            return Ok(false);
        }
    }
    Ok(true)
}

// Two of the small types, and the length at the bottom of their composite.
const COMPOSITES: [(u32, u32, u64); 6] = [
    (1, 2, 4),
    (2, 1, 4),
    (1, 1, 0),
    (5, 6, 4),
    (6, 5, 4),
    (5, 5, 4),
];

// The length at the bottom of the composite of two types, and whether it is compatible with the first.
fn composed(
    alloc: Global,
    numbers: &mut Numbers,
    p: &mut Typed,
    a: u32,
    b: u32,
) -> Result<(u64, bool), NoMemory> {
    let c = composite_in(numbers, p, a, b)?;
    let compatible = agree_in(alloc, p, Lengths::Compatible, a, c)?;
    Ok((bottom(p.types.as_slice(), c).0, compatible))
}

fn have_composites(alloc: Global, numbers: &mut Numbers, p: &mut Typed) -> Result<bool, NoMemory> {
    for &(a, b, length) in &COMPOSITES {
        if composed(alloc, numbers, p, a, b)? != (length, true) {
            return Ok(false);
        }
    }
    Ok(true)
}

fn are_composed(alloc: Global, p: &mut Typed) -> Result<bool, NoMemory> {
    let mut numbers = Numbers::new(alloc);
    have_composites(alloc, &mut numbers, p)
}

// Towers on the two arrays: their levels, and whether they are doubled; the levels of the composite, and a number of
// types that is not reached.
type Towers = (u32, bool, usize, usize);

const MANY_LEAVES: Towers = (60, true, 121, 400);

const DEEP: Towers = (99_999, false, 100_000, 400_000);

// The composite by numbers that know no type yet.
fn new_composite(alloc: Global, p: &mut Typed, a: u32, b: u32) -> Result<u32, NoMemory> {
    let mut numbers = Numbers::new(alloc);
    composite_in(&mut numbers, p, a, b)
}

// Whether only the lengths at the bottom tell two towers apart.
fn are_compared(
    alloc: Global,
    p: &mut Typed,
    (levels, doubled, height, most): Towers,
) -> Result<bool, NoMemory> {
    let a = tower(alloc, p, 1, levels, doubled)?;
    let b = tower(alloc, p, 2, levels, doubled)?;
    let agreed = agreements(alloc, p, a, b)?;
    let c = new_composite(alloc, p, a, b)?;
    let types = p.types.as_slice();
    Ok(agreed == (false, true) && bottom(types, c) == (4, height) && types.len() < most)
}

// A composite knows each length.
pub(crate) fn are_known(alloc: Global, p: &mut Typed) -> Result<bool, NoMemory> {
    add_small_types(alloc, p)?;
    Ok(are_agreed(alloc, p)? && are_compared(alloc, p, MANY_LEAVES)? && are_composed(alloc, p)?)
}

pub(crate) fn are_deep(alloc: Global, p: &mut Typed) -> Result<bool, NoMemory> {
    add_small_types(alloc, p)?;
    are_compared(alloc, p, DEEP)
}
