//! A loop, and what is live in it.
ghost use Rattle.std.specs.Prelude.{◌≡◌, ◌^◌, ◌<◌, true, IfOk, length};
ghost use Rattle.tac_live.specs.Calls.{most_places};
ghost use Rattle.tac_live.specs.Live.{is_numbered};

use crate::answers::must_hold;
use ck_base::{Pos, Sequence};
use ck_int::IntKind;
use reg_alloc::Interval;
use std::alloc::{AllocError, Global};
use tac_ir::{LibOp, TacFun, TacInstr, TacKind};
use tac_live::{calls, intervals, outgoing};

// t0 is a parameter, t1 lives around the loop, t2 is straight in it, t3 is unused.
fn looping(alloc: Global) -> Result<TacFun, AllocError>
    ensures numbered { IfOk result (λ f. is_numbered f ≡ true) }
    ensures short { IfOk result (λ f. length f.code < 2 ^ 32) }
    ensures places { IfOk result (λ f. most_places f.code < 2 ^ 32) }
{
    let kind = TacKind::Int(IntKind::I32);
    let args = vec![in alloc; 2u32]?;
    let code = vec![in alloc;
        TacInstr::Const {
            to: 1,
            kind,
            value: 0
        },
        TacInstr::Label(7),
        TacInstr::Copy { to: 2, from: 0 },
        TacInstr::Lib {
            op: LibOp::PutChar,
            to: None,
            args: Sequence::from_vec(args)
        },
        TacInstr::Copy { to: 1, from: 1 },
        TacInstr::Turn,
        TacInstr::Branch {
            on: 1,
            when: true,
            label: 7
        },
        TacInstr::Return(Some(1)),
    ]?;
    let kinds = vec![in alloc; kind; 4]?;
    Ok(TacFun {
        name: Pos { line: 1, col: 1 },
        params: 1,
        temps: 4,
        kinds: Sequence::from_vec(kinds),
        code: Sequence::from_vec(code),
    })
}

const WANTED: [Interval; 4] = [
    Interval { first: 0, last: 7 },
    Interval { first: 1, last: 8 },
    Interval { first: 3, last: 4 },
    Interval { first: 1, last: 0 },
];

/// Whether the loop widens its intervals.
fn are_intervals(alloc: Global, f: &TacFun) -> bool
    requires numbered { is_numbered f.now ≡ true }
    requires short { length f.now.code < 2 ^ 32 }
{
    match intervals(alloc, f) {
        Ok(live) => live.as_slice() == WANTED.as_slice(),
        Err(_) => false,
    }
}

/// Whether the library's call counts.
fn are_calls(alloc: Global, f: &TacFun) -> bool
    requires { length f.now.code < 2 ^ 32 }
{
    match calls(alloc, f) {
        Ok(calls) => calls.as_slice() == [4u32].as_slice(),
        Err(_) => false,
    }
}

fn is_read(alloc: Global) -> bool {
    match looping(alloc) {
        Ok(f) => are_intervals(alloc, &f) && are_calls(alloc, &f) && outgoing(&f) == 0,
        Err(_) => false,
    }
}

#[test]
fn loops_widen_and_library_calls_count(rt: HostRuntime) {
    must_hold(&rt, "intervals and calls", is_read(rt.alloc()));
}
