//! Images as their files, and the machine or the refusal that they load to.
ghost use Rattle.std.specs.Prelude.{◌≡◌, Ok};
ghost use Rattle.image_load.specs.Judging.{judged};

use crate::answers::must_all_hold;
use crate::made::{Parts, file_of};
use cap_concentrate::{bounds_of, flip_null, unpack};
use cap_machine::Machine;
use cap_ops::{Cap, SENTRY, UNSEALED, null};
use elf_audit::{Verdict, audit};
use elf_file::{Reloc, View};
use image_load::{LoadRefusal, load};
use std::alloc::Global;
use tag_mem::Mem;

/// The base of 64 bytes of initial data.
const INITIAL: u64 = 65_536;

/// The base of 16 bytes of text.
const TEXT: u64 = 131_072;

/// The base of 4,096 bytes of stack.
const STACK: u64 = 262_144;

/// A relocation to the first 40 bytes of the initial data, stored at their base, with all permissions but Execute.
const POINTER: Reloc = Reloc {
    place: INITIAL,
    base: INITIAL,
    offset: 0,
    length: 40,
    perms: 125,
};

/// A sentry of the third instruction.
const FUNCTION: Reloc = Reloc {
    place: INITIAL + 16,
    base: TEXT,
    offset: 8,
    length: 16,
    perms: 0x8000_0000_0000_0003,
};

/// The four instructions.
const WORDS: [u8; 16] = [
    0x13, 0, 0, 0, 0x13, 0, 0, 0, 0x13, 0, 0, 0, 0x73, 0, 0x10, 0,
];

/// A tagged capability that is not sealed, with these permissions, these bounds and this address.
fn is_bounded(c: Cap, perms: u16, bounds: (u64, u128), address: u64) -> bool {
    let f = c.fields;
    let good = f.perms == perms && f.otype == UNSEALED && f.address == address;
    c.tag && good && bounds_of(f) == bounds
}

fn has_registers(pc: Cap, regs: &[Cap; 32]) -> bool {
    is_bounded(pc, 3, (TEXT, 131_088), TEXT + 4)
        && is_bounded(regs[2], 125, (STACK, 266_240), 266_240)
        && is_bounded(regs[3], 125, (INITIAL, 65_568), INITIAL)
        && regs[1] == null(0)
        && regs[31] == null(0)
}

/// A tagged sentry of the third instruction.
fn is_function(c: Option<(u128, bool)>) -> bool {
    let Some((bits, tag)) = c else {
        return false;
    };
    let f = unpack(flip_null(bits));
    tag && f.otype == SENTRY && f.perms == 3 && f.address == TEXT + 8
}

/// The first capability, with the bits of an independent model, and the initial data behind the second.
const POINTER_BITS: u128 = 0x007d_0000_040b_8004_0000_0000_0001_0000;

const INITIAL_BITS: u128 = 0x0707_0707_0707_0707_0707_0707_0707_0707;

fn has_capabilities(mem: &Mem) -> bool {
    mem.cap_at(INITIAL) == Some((POINTER_BITS, true))
        && is_function(mem.cap_at(INITIAL + 16))
        && mem.cap_at(INITIAL + 32) == Some((INITIAL_BITS, false))
}

/// A place of eight bytes that can be read or not, and what stands there.
const PLACES: [(u64, Option<u64>); 6] = [
    (TEXT + 8, Some(0x0010_0073_0000_0013)),
    (TEXT + 16, None),
    (196_608, None),
    (STACK, Some(0)),
    (STACK + 4_088, Some(0)),
    (STACK + 4_096, None),
];

fn has_places(mem: &Mem) -> bool {
    for &(at, wanted) in &PLACES {
        if mem.read(at - at % 8, 8) != wanted {
            return false;
        }
    }
    true
}

fn is_first_state(m: &Machine) -> bool {
    has_registers(m.pc, &m.regs) && has_capabilities(&m.mem) && has_places(&m.mem)
}

const BESIDE: Reloc = Reloc {
    place: INITIAL + 8,
    ..POINTER
};

const BEHIND: Reloc = Reloc {
    place: INITIAL + 64,
    ..POINTER
};

const USER: Reloc = Reloc {
    perms: 128,
    ..POINTER
};

const SEALED_DATA: Reloc = Reloc {
    perms: 0x8000_0000_0000_0001,
    ..POINTER
};

const INEXACT: Reloc = Reloc {
    length: 0x10_0001,
    ..POINTER
};

const FAR: Reloc = Reloc {
    offset: 0x1_0000_0000,
    ..POINTER
};

/// The entry, the table's length, the stack and the relocations, with the refusal: without one the first state is
/// loaded.
type Loaded = (u64, u64, (u64, u64), [Reloc; 2], Option<LoadRefusal>);

const LOADED: [Loaded; 16] = [
    (TEXT + 4, 32, (STACK, 4_096), [POINTER, FUNCTION], None),
    (
        TEXT,
        32,
        (STACK + 8, 4_096),
        [POINTER, FUNCTION],
        Some(LoadRefusal::Segment),
    ),
    (
        TEXT,
        32,
        (STACK, 4_104),
        [POINTER, FUNCTION],
        Some(LoadRefusal::Segment),
    ),
    (
        TEXT,
        32,
        (32_768, 4_096),
        [POINTER, FUNCTION],
        Some(LoadRefusal::Segment),
    ),
    (
        TEXT,
        32,
        (STACK, 0x1000_0000),
        [POINTER, FUNCTION],
        Some(LoadRefusal::Segment),
    ),
    (
        TEXT + 2,
        32,
        (TEXT - 16, 32),
        [POINTER, FUNCTION],
        Some(LoadRefusal::Overlap),
    ),
    (
        TEXT,
        80,
        (STACK, 4_096),
        [POINTER, FUNCTION],
        Some(LoadRefusal::Overlap),
    ),
    (
        TEXT + 2,
        32,
        (STACK, 4_096),
        [BESIDE, USER],
        Some(LoadRefusal::Entry),
    ),
    (
        TEXT + 16,
        32,
        (STACK, 4_096),
        [POINTER, FUNCTION],
        Some(LoadRefusal::Entry),
    ),
    (
        TEXT,
        32,
        (STACK, 4_096),
        [BESIDE, USER],
        Some(LoadRefusal::Place),
    ),
    (
        TEXT,
        32,
        (STACK, 4_096),
        [POINTER, BEHIND],
        Some(LoadRefusal::Place),
    ),
    (
        TEXT,
        32,
        (STACK, 4_096),
        [USER, BESIDE],
        Some(LoadRefusal::Bounds),
    ),
    (
        TEXT,
        32,
        (STACK, 4_096),
        [POINTER, SEALED_DATA],
        Some(LoadRefusal::Bounds),
    ),
    (
        TEXT,
        32,
        (STACK, 4_096),
        [INEXACT, FUNCTION],
        Some(LoadRefusal::Bounds),
    ),
    (
        TEXT,
        32,
        (STACK, 4_096),
        [FAR, FUNCTION],
        Some(LoadRefusal::Bounds),
    ),
    (
        TEXT,
        32,
        (STACK, 0x10_0010),
        [POINTER, FUNCTION],
        Some(LoadRefusal::Bounds),
    ),
];

/// What is so of an image: it is loaded as the first state, or refused, or its audit answers so.
#[derive(Clone, Copy)]
pub(crate) enum Wanted {
    Loaded,
    Refused(LoadRefusal),
    Audited(Verdict),
}

fn is_so(alloc: Global, view: &View<'_>, m: &Machine, wanted: Wanted) -> bool
    requires { judged view.now ≡ Ok tt }
{
    match wanted {
        Wanted::Loaded => is_first_state(m),
        Wanted::Refused(_) => false,
        Wanted::Audited(verdict) => audit(alloc, view).ok() == Some(verdict),
    }
}

/// Whether it is so of the image of these parts. One function owns the machine.
pub(crate) fn is_answered(alloc: Global, parts: &Parts<'_>, wanted: Wanted) -> Option<bool> {
    let file = file_of(alloc, parts).ok()?;
    let view = View::read(&file).ok()?;
    match load(alloc, &view) {
        Ok(m) => Some(is_so(alloc, &view, &m, wanted)),
        Err(refusal) => Some(matches!(wanted, Wanted::Refused(told) if told == refusal)),
    }
}

fn is_loaded(alloc: Global, &(entry, table, stack, ref relocs, refused): &Loaded) -> bool {
    let parts = Parts {
        version: 1,
        entry,
        text: (TEXT, &WORDS),
        initial: (INITIAL, &[7; 64]),
        table: (INITIAL, table),
        heap: (196_608, 0),
        stack,
        relocs,
        lines: &[],
        count: 0,
    };
    let wanted = match refused {
        Some(refusal) => Wanted::Refused(refusal),
        None => Wanted::Loaded,
    };
    is_answered(alloc, &parts, wanted) == Some(true)
}

/// The first row that is answered otherwise.
fn wrong_loading(alloc: Global) -> Option<usize> {
    for (at, row) in LOADED.iter().enumerate() {
        if !is_loaded(alloc, row) {
            return Some(at);
        }
    }
    None
}

const NUMBERS: [(LoadRefusal, u8); 6] = [
    (LoadRefusal::Segment, 11),
    (LoadRefusal::Overlap, 12),
    (LoadRefusal::Place, 13),
    (LoadRefusal::Bounds, 14),
    (LoadRefusal::Entry, 15),
    (LoadRefusal::NoMemory, 0),
];

/// The first refusal that has another number.
fn wrong_number() -> Option<usize> {
    for (at, &(refusal, number)) in NUMBERS.iter().enumerate() {
        if refusal.number() != number {
            return Some(at);
        }
    }
    None
}

#[test]
fn loads_the_first_state_or_refuses_by_the_first_test(rt: HostRuntime) {
    must_all_hold(&rt, "images", wrong_loading(rt.alloc()));
    must_all_hold(&rt, "numbers of refusals", wrong_number());
}
