//! Small programs, as an assembler writes them, with the results that the instruction sets give.
ghost use Rattle.std.specs.Prelude.{◌<◌, ◌^◌};

use crate::answers::{must_all_hold, wrong_unless};
use cap_concentrate::{Fields, set_bounds};
use cap_machine::{End, Machine, Step};
use cap_ops::{Cap, Cause, UNSEALED, null, seal_entry, with_address};
use ck_base::{MemSink, MemSource, NoMemory, SureSink, SureSource};
use rv_instr::Reg;
use std::alloc::{AllocError, Global};
use tag_mem::{Mem, Region};

/// The base of 64 bytes of text.
const TEXT: u64 = 65_536;

/// The base of 64 bytes of data.
const DATA: u64 = 131_072;

/// A capability of 64 bytes at its base.
fn capability(base: u64, perms: u8) -> Cap
    requires { base < 2 ^ 40 }
{
    let bounds = set_bounds(base, 64);
    Cap {
        tag: true,
        fields: Fields {
            user: 0,
            perms: u16::from(perms),
            reserved: 0,
            flag: false,
            otype: UNSEALED,
            internal: bounds.internal,
            t: bounds.t,
            b: bounds.b,
            address: base,
        },
    }
}

/// Memory with the text and the data.
fn memory(alloc: Global) -> Result<Mem, NoMemory> {
    let text = Region {
        base: TEXT,
        length: 64,
    };
    let data = Region {
        base: DATA,
        length: 64,
    };
    let regions = vec![in alloc; text, data]?;
    Mem::new(alloc, &regions)
}

/// The bytes of words.
fn bytes_of(alloc: Global, words: &[u32]) -> Result<Vec<u8>, AllocError> {
    let mut bytes = Vec::new(alloc);
    for word in words {
        bytes.extend_from_slice(&word.to_le_bytes())?;
    }
    Ok(bytes)
}

/// c5 is a sentry of the text. The others have the data: c6 without Load, c7 without the permissions on capabilities,
/// c8 with all permissions but Execute, and c9 with loads alone.
fn registers() -> [Cap; 32] {
    let mut regs = [null(0); 32];
    regs[5] = seal_entry(capability(TEXT, 3));
    regs[6] = capability(DATA, 9);
    regs[7] = capability(DATA, 13);
    regs[8] = capability(DATA, 125);
    regs[9] = capability(DATA, 21);
    regs
}

/// A machine at its first word.
fn machine(alloc: Global, words: &[u32]) -> Result<Machine, NoMemory> {
    let text = bytes_of(alloc, words)?;
    let mut mem = memory(alloc)?;
    mem.fill(TEXT, &text);
    Ok(Machine {
        regs: registers(),
        pc: capability(TEXT, 3),
        mem,
    })
}

/// Asks for a service of the environment, by registers 17 and 10.
fn ask(m: &mut Machine, service: u64, argument: u64) {
    m.regs[17] = null(service);
    m.regs[10] = null(argument);
}

/// Runs without input.
fn run(alloc: Global, m: &mut Machine, steps: u64) -> End {
    m.run(
        steps,
        &mut SureSource::new(Vec::new(alloc)),
        &mut SureSink::new(),
    )
}

// addi x10, x0, 5; addi x10, x10, -1; bne x10, x0, -4; ebreak
const COUNTDOWN: [u32; 4] = [0x0050_0513, 0xfff5_0513, 0xfe05_1ee3, 0x0010_0073];

// csc c8, 16(c8); clc c10, 16(c8); clc c11, 16(c7); sb x0, 20(c8); clc c12, 16(c8)
const TAGGED: [u32; 5] = [
    0x0084_4823,
    0x0104_250f,
    0x0103_a58f,
    0x0004_0a23,
    0x0104_260f,
];

fn has_tags(m: &Machine) -> bool {
    let stored = capability(DATA, 125);
    let cleared = m.register(Reg::numbered(11));
    m.register(Reg::RESULT) == stored
        && !cleared.tag
        && cleared.fields == stored.fields
        && !m.register(Reg::numbered(12)).tag
}

// cjal c1, 8; auipcc c13, 0; cjalr c0, 0(c1)
const LINKED: [u32; 3] = [0x0080_00ef, 0x0000_0697, 0x0000_8067];

/// The second instruction.
fn next() -> Cap {
    with_address(capability(TEXT, 3), TEXT + 4)
}

fn is_linked(m: &Machine) -> bool {
    m.counter() == TEXT + 8 && m.register(Reg::LINK) == seal_entry(next())
}

// csetboundsimm c10, c8, 16; cgetlen x11, c10; cincoffsetimm c10, c10, 4; cgetoffset x12, c10; candperm c13, c8, x12;
// cgetperm x13, c13; cgetbase x14, c8; cgettag x15, c8
const DERIVING: [u32; 8] = [
    0x0104_255b,
    0xfe35_05db,
    0x0045_155b,
    0xfe65_065b,
    0x1ac4_06db,
    0xfe06_86db,
    0xfe24_075b,
    0xfe44_07db,
];

/// The integers of x10 to x15.
const DERIVED: [u64; 6] = [DATA + 4, 16, 4, 4, DATA, 1];

fn integers(m: &Machine) -> [u64; 6] {
    [
        m.integer(Reg::numbered(10)),
        m.integer(Reg::numbered(11)),
        m.integer(Reg::numbered(12)),
        m.integer(Reg::numbered(13)),
        m.integer(Reg::numbered(14)),
        m.integer(Reg::numbered(15)),
    ]
}

/// What a machine shows after its last step.
#[derive(Clone, Copy)]
enum Shown {
    /// The integer that one instruction writes to x10.
    Integer(u64),
    /// The machine as it began.
    Start,
    /// What is left in x10.
    Left(u64),
    Tags,
    Link,
    Next,
    Code,
    Integers,
}

/// Words, the integers of x11 and x12, so many steps, how they end, and what the machine shows then.
type Run = (&'static [u32], (u64, u64), u64, End, Shown);

const RUNS: [Run; 34] = [
    (
        &[0xfff5_851b],
        (0, 0),
        1,
        End::Steps,
        Shown::Integer(u64::MAX),
    ), // addiw x10, x11, -1
    (
        &[0xfff5_851b],
        (0x8000_0000, 0),
        1,
        End::Steps,
        Shown::Integer(0x7fff_ffff),
    ), // addiw x10, x11, -1
    (
        &[0x00c5_d53b],
        (0x8000_0000, 0),
        1,
        End::Steps,
        Shown::Integer(0xffff_ffff_8000_0000),
    ), // srlw
    (
        &[0x00c5_d53b],
        (0xffff_ffff_8000_0000, 36),
        1,
        End::Steps,
        Shown::Integer(0x0800_0000),
    ), // srlw
    (
        &[0x02c5_d53b],
        (0xffff_ffff, 1),
        1,
        End::Steps,
        Shown::Integer(u64::MAX),
    ), // divuw
    (
        &[0x02c5_d53b],
        (7, 0),
        1,
        End::Steps,
        Shown::Integer(u64::MAX),
    ), // divuw
    (
        &[0x02c5_f53b],
        (0x8000_0000, 0),
        1,
        End::Steps,
        Shown::Integer(0xffff_ffff_8000_0000),
    ), // remuw
    (&[0x02c5_f53b], (7, 4), 1, End::Steps, Shown::Integer(3)), // remuw
    (
        &[0x02c5_853b],
        (0x1_0000, 0x8000),
        1,
        End::Steps,
        Shown::Integer(0xffff_ffff_8000_0000),
    ), // mulw
    (
        &[0x02c5_c533],
        (0x8000_0000_0000_0000, u64::MAX),
        1,
        End::Steps,
        Shown::Integer(0x8000_0000_0000_0000),
    ), // div
    (&[0x02c5_e533], (7, 0), 1, End::Steps, Shown::Integer(7)), // rem
    (
        &[0x40c5_d533],
        (0x8000_0000_0000_0000, 63),
        1,
        End::Steps,
        Shown::Integer(u64::MAX),
    ), // sra
    (&[0xfff5_a513], (0, 0), 1, End::Steps, Shown::Integer(0)), // slti x10, x11, -1
    (&[0xfff5_b513], (0, 0), 1, End::Steps, Shown::Integer(1)), // sltiu x10, x11, -1
    (
        &[0x0045_d51b],
        (0xffff_ffff_8000_0000, 0),
        1,
        End::Steps,
        Shown::Integer(0x0800_0000),
    ), // srliw x10, x11, 4
    (
        &[0x8000_0537],
        (0, 0),
        1,
        End::Steps,
        Shown::Integer(0xffff_ffff_8000_0000),
    ), // lui x10, 0x80000
    (
        &[0x0084_c023],
        (0, 0),
        9,
        End::Trap(Cause::Store, TEXT),
        Shown::Start,
    ), // csc c8, 0(c9)
    (
        &[0x0083_c023],
        (0, 0),
        9,
        End::Trap(Cause::StoreCap, TEXT),
        Shown::Start,
    ), // csc c8, 0(c7)
    (
        &[0x0042_80e7],
        (0, 0),
        9,
        End::Trap(Cause::Sealed, TEXT),
        Shown::Start,
    ), // cjalr c1, 4(c5)
    (
        &[0x0004_00e7],
        (0, 0),
        9,
        End::Trap(Cause::Execute, TEXT),
        Shown::Start,
    ), // cjalr c1, 0(c8)
    (
        &[0x0404_0503],
        (0, 0),
        9,
        End::Trap(Cause::Bounds, TEXT),
        Shown::Start,
    ), // lb x10, 64(c8)
    (
        &[0x0024_2503],
        (0, 0),
        9,
        End::Trap(Cause::Align, TEXT),
        Shown::Start,
    ), // lw x10, 2(c8)
    (
        &[0x0000_0503],
        (0, 0),
        9,
        End::Trap(Cause::Tag, TEXT),
        Shown::Start,
    ), // lb x10, 0(c0)
    (
        &[0x0003_0503],
        (0, 0),
        9,
        End::Trap(Cause::Load, TEXT),
        Shown::Start,
    ), // lb x10, 0(c6)
    (&[0x0000_0000], (0, 0), 9, End::Illegal(TEXT), Shown::Start),
    (&[0x0010_0073], (0, 0), 9, End::Break(TEXT), Shown::Start), // ebreak
    (&COUNTDOWN, (0, 0), 5, End::Steps, Shown::Left(3)),
    (&COUNTDOWN, (0, 0), 11, End::Steps, Shown::Left(0)),
    (
        &COUNTDOWN,
        (0, 0),
        12,
        End::Break(TEXT + 12),
        Shown::Left(0),
    ),
    (&TAGGED, (0, 0), 5, End::Steps, Shown::Tags),
    (&LINKED, (0, 0), 1, End::Steps, Shown::Link),
    (&LINKED, (0, 0), 2, End::Steps, Shown::Next),
    (&LINKED, (0, 0), 3, End::Steps, Shown::Code),
    (&DERIVING, (0, 0), 8, End::Steps, Shown::Integers),
];

fn has_shown(m: &Machine, shown: Shown) -> bool {
    match shown {
        Shown::Integer(n) => m.register(Reg::RESULT) == null(n) && m.counter() == TEXT + 4,
        Shown::Start => m.regs == registers() && m.pc == capability(TEXT, 3),
        Shown::Left(n) => m.integer(Reg::RESULT) == n,
        Shown::Tags => has_tags(m),
        Shown::Link => is_linked(m),
        Shown::Next => m.pc == next(),
        Shown::Code => m.register(Reg::numbered(13)) == next(),
        Shown::Integers => integers(m) == DERIVED,
    }
}

fn runs(alloc: Global, &(words, (a, b), steps, wanted, shown): &Run) -> Result<bool, NoMemory> {
    let mut m = machine(alloc, words)?;
    m.regs[11] = null(a);
    m.regs[12] = null(b);
    let end = run(alloc, &mut m, steps);
    Ok(end == wanted && has_shown(&m, shown))
}

/// The first words that run otherwise.
fn wrong_run(alloc: Global) -> Option<usize> {
    for (at, row) in RUNS.iter().enumerate() {
        if !matches!(runs(alloc, row), Ok(true)) {
            return Some(at);
        }
    }
    None
}

/// The input: one byte, of which the second reading fails.
fn input(alloc: Global) -> Result<MemSource, AllocError> {
    let bytes = Vec::from_slice(alloc, &[200])?;
    Ok(MemSource::new(bytes, Vec::from_slice(alloc, &[2])?))
}

/// An output of eight bytes, of which the second writing fails.
fn output(alloc: Global) -> Result<MemSink, NoMemory> {
    MemSink::new(alloc, 8, Vec::from_slice(alloc, &[2])?)
}

/// A service, its argument, how the step ends, and what x10 has then.
const SERVICES: [(u64, u64, Step, u64); 7] = [
    (2, 0, Step::Next, 200),
    (2, 5, Step::Ended(End::ReadFault), 5),
    (2, 5, Step::Next, u64::MAX),
    (1, 0x241, Step::Next, 0x41),
    (1, 0x242, Step::Ended(End::WriteFault), 0x242),
    (3, 0x243, Step::Ended(End::Exit(0x43)), 0x243),
    (9, 0x244, Step::Ended(End::Illegal(TEXT + 12)), 0x244),
];

fn serves_as(
    m: &mut Machine,
    input: &mut MemSource,
    out: &mut MemSink,
    &(service, argument, wanted, answer): &(u64, u64, Step, u64),
) -> bool {
    ask(m, service, argument);
    m.step(input, out) == wanted && m.register(Reg::RESULT) == null(answer)
}

/// Whether the services are served so.
fn are_served(m: &mut Machine, input: &mut MemSource, out: &mut MemSink) -> bool {
    for row in &SERVICES {
        if !serves_as(m, input, out, row) {
            return false;
        }
    }
    m.counter() == TEXT + 12 && out.bytes() == [0x41].as_slice()
}

fn serves(alloc: Global) -> Result<bool, NoMemory> {
    let mut m = machine(alloc, &[0x0000_0073; 5])?;
    let mut input = input(alloc)?;
    let mut out = output(alloc)?;
    Ok(are_served(&mut m, &mut input, &mut out))
}

#[test]
fn machines_run_as_their_words_say(rt: HostRuntime) {
    let alloc = rt.alloc();
    must_all_hold(&rt, "runs", wrong_run(alloc));
    must_all_hold(
        &rt,
        "calls the environment",
        wrong_unless(matches!(serves(alloc), Ok(true))),
    );
}
