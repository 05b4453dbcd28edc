//! Three-address code that is made by hand: what it costs, whether it is well formed and within its program, and what
//! is selected for it.

use crate::answers::must_all_hold;
use crate::selection::{are_shifts, is_byte, is_cheap, is_far};
use crate::steps::{Step, main_of, program};
use c_tree::Typed;
use ck_int::CmpOp::{Eq, Lt};
use ck_int::IntKind::{Bool, I8, I16, I32, I64, U8, U16, U32, U64};
use ck_int::IntOp::{Add, Shl, Shr};
use std::alloc::{AllocError, Global};
use tac_ir::{
    Tac, TacInstr, TacKind, cost, function_cost, function_weight, is_within_costs, outgoing,
    well_formed,
};

const INT: TacKind = TacKind::Int(I32);

const POINTER: TacKind = TacKind::Cap(false);

const WORD: TacKind = TacKind::Int(U64);

/// What is asked of the code of `main`.
#[derive(Clone, Copy)]
enum Asked {
    /// Whether it is well formed.
    Formed(bool),
    /// Whether it is within its program of weight 9: 288 words and 18 temps.
    Within(bool),
    /// What its instructions cost.
    Costs([u64; 11]),
    /// What it costs, with the places past eight of its calls, and what its program weighs.
    Whole(u128, usize, u128),
    /// What is selected for it: two known texts, and one with far calls.
    Byte,
    Shifts,
    Far,
}

use Asked::{Formed, Within};

/// `for (i = 0; i < 3; i = i + 1) putchar(65 + i); return i;`
const COUNTING: [Step; 15] = [
    Step::Const(0, I32, 0),
    Step::Const(1, I32, 1),
    Step::Label(0),
    Step::Const(2, I32, 3),
    Step::Cmp(Lt, I32, 2, 0, 2),
    Step::Branch(2, false, 1),
    Step::Const(3, I32, 65),
    Step::Int(Add, I32, 3, 3, 0),
    Step::Put(3),
    Step::Int(Add, I32, 0, 0, 1),
    Step::Turn,
    Step::Jump(0),
    Step::Label(1),
    Step::Copy(2, 0),
    Step::Return(Some(2)),
];

/// `while ((c = getchar()) != -1) putchar(c); exit(7);`
const ECHOING: [Step; 12] = [
    Step::Const(1, I32, 0xffff_ffff_ffff_ffff),
    Step::Label(4),
    Step::Get(0),
    Step::Cmp(Eq, I32, 2, 0, 1),
    Step::Branch(2, true, 9),
    Step::Put(0),
    Step::Turn,
    Step::Jump(4),
    Step::Label(9),
    Step::Const(0, I32, 7),
    Step::Exit(0),
    Step::Return(Some(0)),
];

const COSTLY: [Step; 11] = [
    Step::Const(0, U64, 2047),
    Step::Const(0, U64, 2048),
    Step::Int(Add, I64, 0, 0, 0),
    Step::Int(Add, I32, 0, 0, 0),
    Step::Int(Add, I8, 0, 0, 0),
    Step::Convert(0, 0, TacKind::Int(I64), WORD),
    Step::Convert(0, 0, POINTER, WORD),
    Step::Convert(0, 0, WORD, POINTER),
    Step::Convert(0, 0, WORD, TacKind::Int(Bool)),
    Step::Offset(0, 0, 8),
    Step::Call(9),
];

/// Numbers at the bounds of so many words.
const NUMBERS: [Step; 11] = [
    Step::Const(0, U64, 0xffff_ffff_ffff_ffff),
    Step::Const(0, U64, 0xffff_ffff_ffff_f800),
    Step::Const(0, U64, 0xffff_ffff_ffff_f7ff),
    Step::Const(0, U64, 0xffff_ffff_8000_0000),
    Step::Const(0, U64, 0x7fff_ffff),
    Step::Const(0, U64, 0x8000_0000),
    Step::Const(0, U64, 1 << 40),
    Step::Const(0, U64, (1 << 40) + 1),
    Step::Const(0, U64, 1 << 52),
    Step::Const(0, U64, (1 << 52) + 1),
    Step::Const(0, U64, 0xffff_ffff_7fff_ffff),
];

/// putchar(72), behind a jump over nothing; return that byte.
const BYTE: [Step; 5] = [
    Step::Const(0, I32, 72),
    Step::Jump(0),
    Step::Label(0),
    Step::Put(0),
    Step::Return(Some(0)),
];

/// Shifts of the first temp, of kinds that are narrower than `int`: by itself, and by 41.
const SHIFTS: [Step; 10] = [
    Step::Const(1, I32, 41),
    Step::Int(Shl, I8, 0, 0, 0),
    Step::Int(Shr, I16, 0, 0, 0),
    Step::Int(Shr, U8, 0, 0, 0),
    Step::Int(Shr, Bool, 0, 0, 0),
    Step::Int(Shl, U16, 0, 0, 1),
    Step::Int(Shr, I8, 0, 0, 1),
    Step::Int(Shr, U16, 0, 0, 1),
    Step::Int(Shr, Bool, 0, 0, 1),
    Step::Return(None),
];

const KINDS: [TacKind; 3] = [WORD, INT, TacKind::Int(U32)];

/// A number of eleven words.
const NUMBER: Step = Step::Const(0, U64, 1 << 60);

/// Kinds of temps or how many there are of none, steps in two parts, and what is asked of their code. The rows from the
/// third on have a 64-bit kind, an `int` and an `unsigned int`: a count of another kind, a sum of two kinds, a
/// comparison that gives no `int`, and a constant that its kind keeps or does not.
type Row = (
    &'static [TacKind],
    u32,
    &'static [Step],
    &'static [Step],
    Asked,
);

static ROWS: [Row; 19] = [
    (&[INT; 4], 4, &COUNTING, &[], Formed(true)),
    (&[INT; 3], 3, &ECHOING, &[], Formed(true)),
    (
        &KINDS,
        3,
        &[Step::Int(Shl, I32, 1, 1, 0)],
        &RETURN,
        Formed(true),
    ),
    (
        &KINDS,
        3,
        &[Step::Int(Add, I32, 1, 1, 2)],
        &RETURN,
        Formed(false),
    ),
    (
        &KINDS,
        3,
        &[Step::Cmp(Lt, U32, 2, 2, 2)],
        &RETURN,
        Formed(false),
    ),
    (
        &KINDS,
        3,
        &[Step::Convert(0, 2, TacKind::Int(U32), WORD)],
        &RETURN,
        Formed(true),
    ),
    (
        &KINDS,
        3,
        &[Step::Const(1, I32, 0xffff_ffff_ffff_fff8)],
        &RETURN,
        Formed(true),
    ),
    (
        &KINDS,
        3,
        &[Step::Const(2, U32, 0xffff_ffff_ffff_fff8)],
        &RETURN,
        Formed(false),
    ),
    (&[], 18, &[NUMBER; 17], &[Step::Call(0), END], Within(true)),
    (&[], 17, &[NUMBER; 14], &[Step::Call(9), END], Within(true)),
    (&[], 19, &[], &[Step::Call(0), END], Within(false)),
    (&[], 18, &[], &[Step::Call(9), END], Within(false)),
    (&[], 0, &[NUMBER; 18], &[Step::Call(0), END], Within(false)),
    (
        &[],
        1,
        &COSTLY,
        &[],
        Asked::Costs([4, 5, 11, 12, 13, 11, 7, 11, 8, 8, 37]),
    ),
    (
        &[],
        1,
        &NUMBERS,
        &[],
        Asked::Costs([4, 4, 5, 5, 5, 7, 7, 9, 9, 11, 11]),
    ),
    (
        &[],
        17,
        &[NUMBER; 2],
        &[Step::Call(9), END],
        Asked::Whole(64 + 22 + 37 + 24, 1, 9),
    ),
    (&[INT], 1, &BYTE, &[], Asked::Byte),
    (&[INT; 2], 2, &SHIFTS, &[], Asked::Shifts),
    (&[INT], 1, &[Step::Call(0)], &[END], Asked::Far),
];

const RETURN: [Step; 1] = [Step::Return(Some(1))];

const END: Step = Step::Return(None);

fn cost_so(code: &[TacInstr], costs: &[u64]) -> bool {
    for (instruction, words) in code.iter().zip(costs) {
        if cost(instruction) != *words {
            return false;
        }
    }
    code.len() == costs.len()
}

fn is_whole(t: &Tac, p: &Typed, words: u128, places: usize, weight: u128) -> bool {
    match (t.funs.as_slice(), p.funs.as_slice()) {
        ([f], [main]) => {
            function_cost(f) == words
                && outgoing(f.code.as_slice()) == places
                && function_weight(p, main) == weight
        }
        _ => false,
    }
}

fn is_so(alloc: Global, t: &Tac, p: &Typed, asked: Asked) -> bool {
    match asked {
        Formed(formed) => well_formed(t, p) == formed,
        Within(within) => is_within_costs(t, p) == within,
        Asked::Costs(costs) => match t.funs.as_slice() {
            [f] => cost_so(f.code.as_slice(), &costs),
            _ => false,
        },
        Asked::Whole(words, places, weight) => is_whole(t, p, words, places, weight),
        Asked::Byte => is_cheap(t) && is_byte(alloc, t, p),
        Asked::Shifts => is_cheap(t) && are_shifts(alloc, t, p),
        Asked::Far => is_cheap(t) && is_far(alloc, t, p),
    }
}

/// One function owns a program and its code: each that owns them takes a proof long.
fn is_answered(
    alloc: Global,
    kinds: &[TacKind],
    temps: u32,
    steps: [&[Step]; 2],
    asked: Asked,
) -> Result<bool, AllocError> {
    let p = program(alloc)?;
    let t = main_of(alloc, kinds, temps, steps)?;
    Ok(is_so(alloc, &t, &p, asked))
}

/// The first code that is answered otherwise.
fn wrong_code(alloc: Global) -> Option<usize> {
    for (at, &(kinds, temps, steps, then, asked)) in ROWS.iter().enumerate() {
        if is_answered(alloc, kinds, temps, [steps, then], asked) != Ok(true) {
            return Some(at);
        }
    }
    None
}

/// A place in the counting code, and an instruction with which it is not well formed: no turn before the jump back, a
/// label twice, a label that is not there, a temp that is not there, and a temp of another kind.
const WRONG: [(usize, Step); 5] = [
    (10, Step::Const(0, I32, 0)),
    (12, Step::Label(0)),
    (5, Step::Branch(2, false, 7)),
    (13, Step::Copy(2, 4)),
    (6, Step::Const(3, I64, 65)),
];

/// The first instruction with which it is.
fn wrong_change(alloc: Global) -> Option<usize> {
    for (at, &(place, step)) in WRONG.iter().enumerate() {
        let mut steps = COUNTING;
        if let Some(wrong) = steps.get_mut(place) {
            *wrong = step;
        }
        if is_answered(alloc, &[INT; 4], 4, [&steps, &[]], Formed(false)) != Ok(true) {
            return Some(at);
        }
    }
    None
}

#[test]
fn code_is_answered(rt: HostRuntime) {
    must_all_hold(&rt, "code", wrong_code(rt.alloc()));
    must_all_hold(&rt, "another instruction", wrong_change(rt.alloc()));
}
