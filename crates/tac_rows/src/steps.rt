//! Code of `main` that is made by hand, and the program that it is of.

use c_tree::{CType, FunDef, Stmt, StmtKind, Typed};
use ck_base::{Pos, Sequence, Span};
use ck_int::IntKind::{self, I32};
use ck_int::{CmpOp, IntOp};
use std::alloc::{AllocError, Global};
use tac_ir::{Amount, LibOp, Tac, TacFun, TacInstr, TacKind};

pub(crate) const PLACE: Pos = Pos { line: 1, col: 5 };

const NAME: Span = Span { start: 0, end: 0 };

fn empty<T>(alloc: Global) -> Sequence<T> {
    Sequence::from_vec(Vec::new(alloc))
}

/// A program with the one function `int main(void)`, whose body is an empty statement: it weighs 9.
pub(crate) fn program(alloc: Global) -> Result<Typed, AllocError> {
    let types = vec![in alloc; CType::Int(I32, 0), CType::Function(0, empty(alloc))]?;
    let main = FunDef {
        name: NAME,
        pos: PLACE,
        of: 1,
        params: empty(alloc),
        vars: empty(alloc),
        body: 0,
    };
    let body = Stmt {
        kind: StmtKind::Empty,
        pos: PLACE,
    };
    let funs = vec![in alloc; main]?;
    let stmts = vec![in alloc; body]?;
    Ok(Typed {
        types: Sequence::from_vec(types),
        globals: empty(alloc),
        literals: empty(alloc),
        funs: Sequence::from_vec(funs),
        exprs: empty(alloc),
        stmts: Sequence::from_vec(stmts),
        main: 0,
    })
}

/// An instruction.
#[derive(Clone, Copy)]
pub(crate) enum Step {
    Const(u32, IntKind, u64),
    Copy(u32, u32),
    Int(IntOp, IntKind, u32, u32, u32),
    Cmp(CmpOp, IntKind, u32, u32, u32),
    Convert(u32, u32, TacKind, TacKind),
    /// By so many bytes.
    Offset(u32, u32, u64),
    Label(u32),
    Jump(u32),
    Branch(u32, bool, u32),
    Put(u32),
    Get(u32),
    Exit(u32),
    Turn,
    /// With so many arguments, each the first temp.
    Call(usize),
    Return(Option<u32>),
}

fn library(
    alloc: Global,
    op: LibOp,
    to: Option<u32>,
    args: &[u32],
) -> Result<TacInstr, AllocError> {
    let args = Vec::from_slice(alloc, args)?;
    Ok(TacInstr::Lib {
        op,
        to,
        args: Sequence::from_vec(args),
    })
}

fn call(alloc: Global, count: usize) -> Result<TacInstr, AllocError> {
    let args = vec![in alloc; 0; count]?;
    Ok(TacInstr::Call {
        to: None,
        fun: 0,
        args: Sequence::from_vec(args),
    })
}

fn instruction(alloc: Global, step: Step) -> Result<TacInstr, AllocError> {
    Ok(match step {
        Step::Const(to, kind, value) => TacInstr::Const {
            to,
            kind: TacKind::Int(kind),
            value,
        },
        Step::Copy(to, from) => TacInstr::Copy { to, from },
        Step::Int(op, kind, to, a, b) => TacInstr::Int { op, kind, to, a, b },
        Step::Cmp(op, kind, to, a, b) => TacInstr::Cmp {
            op,
            kind: TacKind::Int(kind),
            to,
            a,
            b,
        },
        Step::Convert(to, from, old, new) => TacInstr::Convert { to, from, old, new },
        Step::Offset(to, base, bytes) => TacInstr::Offset {
            to,
            base,
            by: Amount::Number(bytes),
        },
        Step::Label(label) => TacInstr::Label(label),
        Step::Jump(label) => TacInstr::Jump(label),
        Step::Branch(on, when, label) => TacInstr::Branch { on, when, label },
        Step::Put(t) => return library(alloc, LibOp::PutChar, None, &[t]),
        Step::Get(to) => return library(alloc, LibOp::GetChar, Some(to), &[]),
        Step::Exit(t) => return library(alloc, LibOp::Exit, None, &[t]),
        Step::Turn => TacInstr::Turn,
        Step::Call(count) => return call(alloc, count),
        Step::Return(value) => TacInstr::Return(value),
    })
}

fn append(alloc: Global, code: &mut Vec<TacInstr>, steps: &[Step]) -> Result<(), AllocError> {
    for step in steps {
        code.push(instruction(alloc, *step)?)?;
    }
    Ok(())
}

/// `main` with temps of these kinds or so many of none, with these steps in turn.
pub(crate) fn main_of(
    alloc: Global,
    kinds: &[TacKind],
    temps: u32,
    steps: [&[Step]; 2],
) -> Result<Tac, AllocError> {
    let kinds = Vec::from_slice(alloc, kinds)?;
    let mut code = Vec::new(alloc);
    for part in steps {
        append(alloc, &mut code, part)?;
    }
    let main = TacFun {
        name: PLACE,
        params: 0,
        temps,
        kinds: Sequence::from_vec(kinds),
        code: Sequence::from_vec(code),
    };
    let funs = vec![in alloc; main]?;
    Ok(Tac {
        funs: Sequence::from_vec(funs),
    })
}
