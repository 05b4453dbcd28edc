//! Memory as separate objects, in both modes: calls by turns, each with its answer.
ghost use Rattle.object_memory.specs.Memories.{IsSize};

use cap_ops::Cause;
use ck_base::{NoMemory, Sequence};
use ck_int::CmpOp;
use obj_mem::Value::{Fun, Int, Live, Raw};
use obj_mem::{Fault, Map, Mode, Reason, Value};
use object_memory::{Memory, callee, permissions_of};
use std::alloc::{AllocError, Global};
use std::process::Abort;

/// Calls that answer with a value.
#[derive(Clone, Copy)]
enum Valued {
    Whole(u64),
    Load(Value, u8),
    Offset(Value, i64),
    Narrow(Value, u64, bool),
    Clear(Value),
    Mask(Value, u64),
    SetAddress(Value, u64),
}

/// Calls that answer with a number.
#[derive(Clone, Copy)]
enum Counted {
    Count,
    Address(Value),
    Length(Value),
    Offset(Value),
    Distance(Value, Value),
    Permissions(Value),
    Callee(Value),
}

/// Calls that answer whether something holds.
#[derive(Clone, Copy)]
enum Judged {
    Compare(bool, CmpOp, Value, Value),
    IsTrue(Value),
    Identical(Value, Value),
}

/// Calls that change memory.
#[derive(Clone, Copy)]
enum Changing {
    Store(Value, u8, Value),
    NoteMember(Value, u64),
    Rest(u64),
    Zero(u64),
    Leave(u64),
    End(u64),
}

/// A call, and its answer.
#[derive(Clone, Copy)]
enum Row {
    Value(Valued, Result<Value, Fault>),
    Number(Counted, Result<u64, Fault>),
    Truth(Judged, Result<bool, Fault>),
    Change(Changing, Result<(), Fault>),
}

/// A number of bytes that an access may have.
fn size(n: u8) -> u8
    ensures { IsSize result }
{
    match n {
        1 => 1,
        2 => 2,
        4 => 4,
        8 => 8,
        _ => 16,
    }
}

fn value_of(m: &Memory<'_>, call: Valued) -> Result<Value, Fault> {
    match call {
        Valued::Whole(object) => Ok(m.whole(object, 125)),
        Valued::Load(v, n) => m.load(v, size(n)),
        Valued::Offset(v, by) => m.offset(v, by.cast_unsigned()),
        Valued::Narrow(v, length, exact) => m.narrow(v, length, exact),
        Valued::Clear(v) => m.clear(v),
        Valued::Mask(v, bits) => m.mask(v, bits),
        Valued::SetAddress(v, to) => m.set_address(v, to),
    }
}

fn number_of(m: &Memory<'_>, call: Counted) -> Result<u64, Fault> {
    match call {
        Counted::Count => Ok(m.count()),
        Counted::Address(v) => m.address(v),
        Counted::Length(v) => m.length(v),
        Counted::Offset(v) => m.capability_offset(v),
        Counted::Distance(v, w) => m.distance(v, w),
        Counted::Permissions(v) => Ok(permissions_of(v)),
        Counted::Callee(v) => callee(v).map(u64::from),
    }
}

fn truth_of(m: &Memory<'_>, call: Judged) -> Result<bool, Fault> {
    match call {
        Judged::Compare(signed, op, v, w) => m.compare(signed, op, v, w),
        Judged::IsTrue(v) => m.is_true(v),
        Judged::Identical(v, w) => m.identical(v, w),
    }
}

fn change(m: &mut Memory<'_>, call: Changing) -> Result<(), Fault> {
    match call {
        Changing::Store(v, n, w) => m.store(v, size(n), w)?,
        Changing::NoteMember(v, own) => m.note_member(v, own).map_err(|_| Fault::Outside)?,
        Changing::Rest(object) => m.rest(object),
        Changing::Zero(object) => m.zero(object),
        Changing::Leave(object) => m.leave(object),
        Changing::End(object) => m.end(object),
    }
    Ok(())
}

fn is_so(m: &mut Memory<'_>, row: Row) -> bool {
    match row {
        Row::Value(call, answer) => value_of(m, call) == answer,
        Row::Number(call, answer) => number_of(m, call) == answer,
        Row::Truth(call, answer) => truth_of(m, call) == answer,
        Row::Change(call, answer) => change(m, call) == answer,
    }
}

fn are_so(m: &mut Memory<'_>, rows: &[Row]) -> bool {
    for row in rows {
        if !is_so(m, *row) {
            return false;
        }
    }
    true
}

/// A map with a text of 1024 bytes, and functions 4 bytes apart.
fn map(alloc: Global) -> Result<Map, AllocError> {
    let entries = vec![in alloc; 65536, 65540]?;
    Ok(Map {
        text: (65536, 1024),
        entries: Sequence::from_vec(entries),
        globals: Sequence::from_vec(Vec::new(alloc)),
        literals: Sequence::from_vec(Vec::new(alloc)),
        table: (131072, 16),
        heap: (16777216, 16777216),
        stack: (1048576, 65536),
        frames: Sequence::from_vec(Vec::new(alloc)),
    })
}

/// Adds objects of 40, of 16 and of 32 bytes, or one of 100,000, which is the first.
fn has_objects(m: &mut Memory<'_>, is_large: bool) -> Result<bool, NoMemory> {
    if is_large {
        return Ok(m.add(100000, None)? == 0);
    }
    m.add(40, Some(131072))?;
    m.add(16, Some(131120))?;
    m.add(32, Some(131136))?;
    Ok(true)
}

fn are_answered(
    alloc: Global,
    mode: Mode<'_>,
    is_large: bool,
    rows: &[Row],
) -> Result<bool, NoMemory> {
    let mut m = Memory::new(alloc, mode)?;
    Ok(has_objects(&mut m, is_large)? && are_so(&mut m, rows))
}

/// Calls on memory of their own, with their answers, and what they show.
type Turns = (&'static str, &'static [Row]);

const DONE: Result<(), Fault> = Ok(());

const BOUNDS: Fault = Fault::Cause(Cause::Bounds);

const UNTAGGED: Fault = Fault::Cause(Cause::Tag);

const ADDRESS: Fault = Fault::Unspecified(Reason::Address);

const PADDING: Fault = Fault::Unspecified(Reason::Padding);

/// The fifth and the sixth byte of the first object; the whole of the second, and its fifth byte; and the place for a
/// pointer in the third, and the second half of that place.
const A: Value = Live(0, 0, 40, 4, 125);

const B: Value = Live(0, 0, 40, 5, 125);

const X: Value = Live(1, 0, 16, 0, 125);

const Y: Value = Live(1, 0, 16, 4, 125);

const P: Value = Live(2, 0, 32, 16, 125);

const HALF: Value = Live(2, 0, 32, 24, 125);

/// The whole of the second object without its tag, by the format of capabilities.
const CLEARED: Value = Raw(131120, 0x007d_0000_0411_8034);

/// The first object without its tag, far from it and at its base.
const FAR: Value = Raw(151072, 0x007d_0000_040b_8004);

const BACK: Value = Raw(131072, 0x007d_0000_040b_8004);

/// The same, two bytes before its end.
const END: Value = Raw(131110, 0x007d_0000_040b_8004);

/// The bytes of a member of the large object: two of 3 that it has, and the one of padding behind them.
const MEMBER: Value = Live(0, 16, 20, 16, 125);

const LAST: Value = Live(0, 16, 20, 18, 125);

const BEHIND: Value = Live(0, 16, 20, 19, 125);

const IN_BOTH: [Turns; 12] = [
    (
        "whole objects",
        &[
            Row::Number(Counted::Count, Ok(3)),
            Row::Value(Valued::Whole(0), Ok(Live(0, 0, 40, 0, 125))),
        ],
    ),
    (
        "integers are stored and loaded",
        &[
            Row::Value(
                Valued::Offset(Live(0, 0, 40, 0, 125), 36),
                Ok(Live(0, 0, 40, 36, 125)),
            ),
            Row::Change(
                Changing::Store(Live(0, 0, 40, 36, 125), 4, Int(0xffff_ffff_ffff_fff9)),
                DONE,
            ),
            Row::Value(
                Valued::Load(Live(0, 0, 40, 36, 125), 4),
                Ok(Int(0xffff_fff9)),
            ),
            Row::Value(Valued::Load(Live(0, 0, 40, 39, 125), 1), Ok(Int(0xff))),
        ],
    ),
    (
        "integers beside their object",
        &[
            Row::Value(Valued::Load(Live(0, 0, 40, 40, 125), 4), Err(BOUNDS)),
            Row::Value(Valued::Load(Live(0, 0, 40, -4, 125), 4), Err(BOUNDS)),
            Row::Value(
                Valued::Load(Live(0, 0, 40, 2, 125), 4),
                Err(Fault::Cause(Cause::Align)),
            ),
        ],
    ),
    (
        "integers by a value that may not",
        &[
            Row::Change(
                Changing::Store(Live(0, 0, 40, 0, 21), 1, Int(1)),
                Err(Fault::Cause(Cause::Store)),
            ),
            Row::Value(Valued::Load(Fun(0), 4), Err(Fault::Cause(Cause::Sealed))),
            Row::Value(Valued::Load(Raw(131072, 0), 4), Err(UNTAGGED)),
        ],
    ),
    (
        "moves that keep the tag",
        &[
            Row::Value(
                Valued::Offset(Live(0, 0, 40, 0, 125), 400),
                Ok(Live(0, 0, 40, 400, 125)),
            ),
            Row::Value(
                Valued::Offset(Live(0, 0, 40, 400, 125), -400),
                Ok(Live(0, 0, 40, 0, 125)),
            ),
            Row::Value(Valued::Offset(Raw(7, 9), 3), Ok(Raw(10, 9))),
        ],
    ),
    (
        "lengths, permissions and callees",
        &[
            Row::Number(Counted::Length(Y), Ok(16)),
            Row::Number(Counted::Offset(Y), Ok(4)),
            Row::Number(Counted::Permissions(Y), Ok(125)),
            Row::Number(Counted::Permissions(Fun(0)), Ok(3)),
            Row::Number(Counted::Callee(Fun(1)), Ok(1)),
            Row::Number(Counted::Callee(Y), Err(Fault::Cause(Cause::Execute))),
        ],
    ),
    (
        "narrowing",
        &[
            Row::Value(
                Valued::Narrow(Live(0, 0, 40, 8, 125), 4, false),
                Ok(Live(0, 8, 12, 8, 125)),
            ),
            Row::Value(
                Valued::Narrow(Live(0, 0, 40, 8, 125), 4, true),
                Ok(Live(0, 8, 12, 8, 125)),
            ),
        ],
    ),
    (
        "a life begins",
        &[
            Row::Change(Changing::Rest(1), DONE),
            Row::Value(Valued::Load(X, 4), Err(Fault::Outside)),
            Row::Change(Changing::Zero(1), DONE),
            Row::Change(Changing::Store(X, 4, Int(5)), DONE),
        ],
    ),
    (
        "a life ends",
        &[
            Row::Change(Changing::Leave(1), DONE),
            Row::Change(Changing::Zero(1), DONE),
            Row::Change(Changing::End(1), DONE),
            Row::Value(Valued::Load(X, 4), Err(Fault::Outside)),
            Row::Value(Valued::Load(Live(9, 0, 16, 0, 125), 4), Err(Fault::Outside)),
        ],
    ),
    (
        "comparisons",
        &[
            Row::Truth(Judged::Compare(false, CmpOp::Eq, A, X), Ok(false)),
            Row::Truth(Judged::Compare(false, CmpOp::Ne, A, A), Ok(false)),
            Row::Truth(Judged::Compare(false, CmpOp::Lt, A, B), Ok(true)),
            Row::Truth(Judged::Compare(false, CmpOp::Ge, A, B), Ok(false)),
        ],
    ),
    (
        "truth and signs",
        &[
            Row::Truth(
                Judged::Compare(true, CmpOp::Lt, Raw(u64::MAX, 0), Raw(0, 0)),
                Ok(true),
            ),
            Row::Truth(Judged::IsTrue(A), Ok(true)),
            Row::Truth(Judged::IsTrue(Raw(0, 7)), Ok(false)),
            Row::Number(Counted::Distance(B, A), Ok(1)),
        ],
    ),
    (
        "the same value",
        &[
            Row::Truth(Judged::Identical(A, A), Ok(true)),
            Row::Truth(Judged::Identical(A, Raw(131076, 0)), Ok(false)),
            Row::Truth(Judged::Identical(Fun(1), Fun(0)), Ok(false)),
        ],
    ),
];

const WHERE_PLACED: [Turns; 9] = [
    (
        "bytes that were not written are zero",
        &[
            Row::Value(Valued::Load(Live(0, 0, 40, 8, 125), 8), Ok(Int(0))),
            Row::Value(Valued::Load(Live(0, 0, 40, 16, 125), 16), Ok(Raw(0, 0))),
        ],
    ),
    (
        "a stored pointer keeps its tag, and its bytes are those of its address",
        &[
            Row::Change(Changing::Store(P, 16, X), DONE),
            Row::Value(Valued::Load(P, 16), Ok(X)),
            Row::Value(Valued::Load(P, 8), Ok(Int(131120))),
            Row::Value(Valued::Load(P, 1), Ok(Int(48))),
        ],
    ),
    (
        "a byte of it that is stored over itself clears the tag",
        &[
            Row::Change(Changing::Store(P, 16, X), DONE),
            Row::Change(Changing::Store(P, 1, Int(48)), DONE),
            Row::Value(Valued::Load(P, 16), Ok(CLEARED)),
            Row::Number(Counted::Address(CLEARED), Ok(131120)),
            Row::Value(Valued::Load(CLEARED, 4), Err(UNTAGGED)),
            Row::Value(Valued::Clear(X), Ok(CLEARED)),
        ],
    ),
    (
        "a pointer that goes 20,000 bytes out and comes back has no tag",
        &[
            Row::Value(Valued::Offset(Live(0, 0, 40, 0, 125), 20000), Ok(FAR)),
            Row::Value(Valued::Offset(FAR, -20000), Ok(BACK)),
            Row::Number(Counted::Address(BACK), Ok(131072)),
            Row::Value(Valued::Load(BACK, 1), Err(UNTAGGED)),
        ],
    ),
    (
        "an address that becomes a capability integer keeps the pointer, and a plain integer doesn't",
        &[
            Row::Number(Counted::Address(Y), Ok(131124)),
            Row::Value(Valued::SetAddress(Y, 131120), Ok(X)),
            Row::Value(Valued::SetAddress(Raw(0, 0), 131124), Ok(Raw(131124, 0))),
        ],
    ),
    (
        "lengths of other values",
        &[
            Row::Number(Counted::Length(Fun(1)), Ok(1024)),
            Row::Number(Counted::Offset(Fun(1)), Ok(4)),
            Row::Number(Counted::Length(Raw(5, 0)), Ok(u64::MAX)),
        ],
    ),
    (
        "narrowing past the end loses the tag",
        &[Row::Value(Valued::Narrow(Live(0, 0, 40, 38, 125), 4, false), Ok(END))],
    ),
    (
        "a block that is left is known to the strict mode alone",
        &[
            Row::Change(Changing::Rest(1), DONE),
            Row::Change(Changing::Zero(1), DONE),
            Row::Change(Changing::Store(X, 4, Int(5)), DONE),
            Row::Change(Changing::Leave(1), DONE),
            Row::Value(Valued::Load(X, 4), Ok(Int(5))),
        ],
    ),
    (
        "comparisons across objects",
        &[
            Row::Truth(Judged::Compare(false, CmpOp::Lt, A, X), Ok(true)),
            Row::Number(Counted::Distance(X, A), Ok(44)),
        ],
    ),
];

const STRICT: [Turns; 8] = [
    (
        "bytes that were not written say nothing",
        &[Row::Value(
            Valued::Load(Live(0, 0, 40, 8, 125), 8),
            Err(Fault::Unspecified(Reason::Unwritten)),
        )],
    ),
    (
        "a pointer has no byte without addresses",
        &[
            Row::Change(Changing::Store(P, 16, X), DONE),
            Row::Value(Valued::Load(P, 1), Err(ADDRESS)),
        ],
    ),
    (
        "half a pointer without addresses",
        &[
            Row::Change(Changing::Store(P, 16, X), DONE),
            Row::Change(Changing::Store(HALF, 8, Int(0)), DONE),
            Row::Value(Valued::Load(P, 16), Err(ADDRESS)),
            Row::Value(Valued::Load(HALF, 8), Ok(Int(0))),
        ],
    ),
    (
        "moves that say nothing",
        &[
            Row::Value(
                Valued::Offset(Live(0, 0, 40, 0, 125), 20000),
                Err(Fault::Unspecified(Reason::Excursion)),
            ),
            Row::Value(Valued::Offset(Fun(0), 4), Err(ADDRESS)),
        ],
    ),
    (
        "no addresses",
        &[
            Row::Number(Counted::Address(Y), Err(ADDRESS)),
            Row::Value(Valued::SetAddress(Y, 0), Err(ADDRESS)),
            Row::Value(Valued::Mask(Y, 21), Ok(Live(1, 0, 16, 4, 21))),
        ],
    ),
    (
        "narrowing past the end says nothing",
        &[Row::Value(
            Valued::Narrow(Live(0, 0, 40, 38, 125), 4, false),
            Err(ADDRESS),
        )],
    ),
    (
        "a block that is left",
        &[
            Row::Change(Changing::Rest(1), DONE),
            Row::Change(Changing::Zero(1), DONE),
            Row::Change(Changing::Store(X, 4, Int(5)), DONE),
            Row::Change(Changing::Leave(1), DONE),
            Row::Value(Valued::Load(X, 4), Err(Fault::Outside)),
        ],
    ),
    (
        "one past the end may be the address of another object",
        &[
            Row::Truth(Judged::Compare(false, CmpOp::Lt, A, X), Err(ADDRESS)),
            Row::Truth(
                Judged::Compare(false, CmpOp::Eq, Live(0, 0, 40, 40, 125), X),
                Err(ADDRESS),
            ),
            Row::Number(Counted::Distance(X, A), Err(ADDRESS)),
        ],
    ),
];

/// In the strict mode, on an object of 100,000 bytes. The last of its owned bytes lie past its length.
const LARGE: [Turns; 3] = [
    (
        "narrowing in a large object",
        &[
            Row::Value(
                Valued::Narrow(Live(0, 0, 100096, 4, 125), 5001, false),
                Err(Fault::Unspecified(Reason::Rounding)),
            ),
            Row::Value(
                Valued::Narrow(Live(0, 0, 100096, 4, 125), 100093, false),
                Err(ADDRESS),
            ),
        ],
    ),
    (
        "padding",
        &[
            Row::Number(Counted::Count, Ok(1)),
            Row::Value(Valued::Whole(0), Ok(Live(0, 0, 100096, 0, 125))),
            Row::Change(
                Changing::Store(Live(0, 0, 100096, 100095, 125), 1, Int(1)),
                Err(PADDING),
            ),
            Row::Change(
                Changing::Store(Live(0, 0, 100096, 100096, 125), 1, Int(1)),
                Err(BOUNDS),
            ),
        ],
    ),
    (
        "a member of 3 bytes has one of padding behind it",
        &[
            Row::Change(Changing::NoteMember(MEMBER, 2), DONE),
            Row::Change(Changing::NoteMember(MEMBER, 3), DONE),
            Row::Change(Changing::NoteMember(MEMBER, 1), DONE),
            Row::Change(Changing::Store(LAST, 1, Int(1)), DONE),
            Row::Change(Changing::Store(BEHIND, 1, Int(1)), Err(PADDING)),
        ],
    ),
];

/// Turns on the large object, or on three objects.
type Group = (bool, &'static [Turns]);

const PLACED: [Group; 2] = [(false, &IN_BOTH), (false, &WHERE_PLACED)];

const STRICTLY: [Group; 3] = [(false, &IN_BOTH), (false, &STRICT), (true, &LARGE)];

/// What the first turns show that are not answered so, if any are not.
fn wrong(alloc: Global, mode: Mode<'_>, groups: &[Group]) -> &'static str {
    for (is_large, turns) in groups {
        for (shown, rows) in *turns {
            if !matches!(are_answered(alloc, mode, *is_large, *rows), Ok(true)) {
                return *shown;
            }
        }
    }
    ""
}

fn wrong_where_placed(alloc: Global) -> &'static str {
    match map(alloc) {
        Ok(map) => wrong(alloc, Mode::Placed(&map), &PLACED),
        Err(_) => "a map",
    }
}

fn must_be_none(rt: &impl Abort, wrong: &'static str) {
    assert!(rt; wrong.is_empty(), "{wrong}");
}

#[test]
fn placed_and_strict_memory_answer(rt: HostRuntime) {
    must_be_none(&rt, wrong_where_placed(rt.alloc()));
    must_be_none(&rt, wrong(rt.alloc(), Mode::Strict, &STRICTLY));
}
