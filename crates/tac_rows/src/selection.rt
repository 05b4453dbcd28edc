//! Code that `rv_select` makes of a program by hand.
ghost use Rattle.std.specs.Prelude.{◌≡◌, ◌<◌, true, length, IfOk};
ghost use Rattle.std.specs.List.{sum_by};
ghost use Rattle.purecap_abi.specs.Saving.{AreHomes};
ghost use Rattle.tac_ir.specs.Costs.{function_cost};

use c_tree::Typed;
use ck_base::{NoMemory, Sequence};
use elf_file::Line;
use purecap_abi::frame;
use reg_alloc::{Home, Places};
use rv_instr::{CapGetOp, CapImmOp, ImmOp, Instr, Reg, RegOp, ShiftOp, StoreOp};
use rv_select::{Items, select_within};
use std::alloc::Global;
use tac_ir::{Tac, function_cost};

/// Whether the code is one function that costs less than 200 words.
pub(crate) fn is_cheap(t: &Tac) -> bool
    ensures one { result ≡ true → length t.now.funs ≡ 1 }
    ensures cheap { result ≡ true → sum_by function_cost t.now.funs < 200 }
{
    match t.funs.as_slice() {
        [f] => function_cost(f) < 200,
        _ => false,
    }
}

// The home of its temp.
fn places(alloc: Global) -> Result<Places, NoMemory>
    ensures { IfOk result (λ l. AreHomes l.homes) }
{
    Ok(Places {
        homes: Sequence::from_vec(vec![in alloc; Home::Register(10)]?),
    })
}

// What is selected for a function without a parameter, whose first temp is at home in c10: with near calls where the
// text has at most so many words.
fn selected(alloc: Global, t: &Tac, p: &Typed, most: usize) -> Result<Items, NoMemory>
    requires one { length t.now.funs ≡ 1 }
    requires cheap { sum_by function_cost t.now.funs < 200 }
    requires most { most < 200 }
{
    let l = places(alloc)?;
    let f = frame(alloc, &Vec::new(alloc), &l, 0)?;
    let places = vec![in alloc; l]?;
    let frames = vec![in alloc; f]?;
    select_within(alloc, t, p, &places, &frames, most)
}

// The code that is to be selected, by the numbers of the registers.
fn wanted() -> [Instr; 15] {
    let c0 = Reg::numbered(0);
    let c1 = Reg::numbered(1);
    let c2 = Reg::numbered(2);
    let c10 = Reg::numbered(10);
    let c17 = Reg::numbered(17);
    let c28 = Reg::numbered(28);
    [
        Instr::Cjal(c1, 12),
        Instr::Imm(ImmOp::Addi, c17, c0, 3),
        Instr::Ecall,
        Instr::CapGet(CapGetOp::Cmove, c28, c2),
        Instr::CapImm(CapImmOp::Cincoffsetimm, c2, c2, -16),
        Instr::Store(StoreOp::Csc, c1, c2, 0),
        Instr::Cjal(c0, 4),
        Instr::Imm(ImmOp::Addi, c10, c0, 72),
        Instr::Imm(ImmOp::Addi, c17, c0, 1),
        Instr::Ecall,
        Instr::Imm(ImmOp::Addi, c10, c0, 72),
        Instr::Clc(c1, c2, 0),
        Instr::CapImm(CapImmOp::Cincoffsetimm, c2, c2, 16),
        Instr::Cjalr(c0, c1, 0),
        Instr::Cjal(c0, 0),
    ]
}

// Whether the code is the wanted one, entered at its start, with the function's entry and the line of its first store.
fn are_wanted(items: &Items) -> bool {
    let line = Line {
        at: 20,
        line: 1,
        col: 5,
        kind: 1,
    };
    items.start == 0
        && items.entries.as_slice() == [12].as_slice()
        && items.lines.as_slice() == [line].as_slice()
        && items.code.as_slice() == wanted().as_slice()
}

pub(crate) fn is_byte(alloc: Global, t: &Tac, p: &Typed) -> bool
    requires one { length t.now.funs ≡ 1 }
    requires cheap { sum_by function_cost t.now.funs < 200 }
{
    match selected(alloc, t, p, 15) {
        Ok(items) => are_wanted(&items),
        Err(_) => false,
    }
}

// A count is taken modulo 32, and of a truth value it is 0 or 1.
fn wanted_shifts() -> [Instr; 12] {
    let x0 = Reg::numbered(0);
    let x10 = Reg::numbered(10);
    [
        Instr::Op(RegOp::Sllw, x10, x10, x10),
        Instr::Shift(ShiftOp::Slli, x10, x10, 56),
        Instr::Shift(ShiftOp::Srai, x10, x10, 56),
        Instr::Op(RegOp::Sraw, x10, x10, x10),
        Instr::Op(RegOp::Srlw, x10, x10, x10),
        Instr::Op(RegOp::Sltu, x10, x10, x10),
        Instr::Shift(ShiftOp::Slliw, x10, x10, 9),
        Instr::Shift(ShiftOp::Slli, x10, x10, 48),
        Instr::Shift(ShiftOp::Srli, x10, x10, 48),
        Instr::Shift(ShiftOp::Srai, x10, x10, 9),
        Instr::Shift(ShiftOp::Srli, x10, x10, 9),
        Instr::Shift(ShiftOp::Srli, x10, x10, 1),
    ]
}

pub(crate) fn are_shifts(alloc: Global, t: &Tac, p: &Typed) -> bool
    requires one { length t.now.funs ≡ 1 }
    requires cheap { sum_by function_cost t.now.funs < 200 }
{
    match selected(alloc, t, p, 100) {
        Ok(items) => items.code.as_slice().get(6..18) == Some(wanted_shifts().as_slice()),
        Err(_) => false,
    }
}

// `main` calls itself, by its entry of the table, as the start does.
fn wanted_far() -> [Instr; 13] {
    let c0 = Reg::numbered(0);
    let c1 = Reg::numbered(1);
    let c2 = Reg::numbered(2);
    let c3 = Reg::numbered(3);
    let c17 = Reg::numbered(17);
    let c28 = Reg::numbered(28);
    let c31 = Reg::numbered(31);
    [
        Instr::Clc(c31, c3, 0),
        Instr::Cjalr(c1, c31, 0),
        Instr::Imm(ImmOp::Addi, c17, c0, 3),
        Instr::Ecall,
        Instr::CapGet(CapGetOp::Cmove, c28, c2),
        Instr::CapImm(CapImmOp::Cincoffsetimm, c2, c2, -16),
        Instr::Store(StoreOp::Csc, c1, c2, 0),
        Instr::Clc(c31, c3, 0),
        Instr::Cjalr(c1, c31, 0),
        Instr::Clc(c1, c2, 0),
        Instr::CapImm(CapImmOp::Cincoffsetimm, c2, c2, 16),
        Instr::Cjalr(c0, c1, 0),
        Instr::Cjal(c0, 0),
    ]
}

// With near calls the text has 11 words.
pub(crate) fn is_far(alloc: Global, t: &Tac, p: &Typed) -> bool
    requires one { length t.now.funs ≡ 1 }
    requires cheap { sum_by function_cost t.now.funs < 200 }
{
    match selected(alloc, t, p, 10) {
        Ok(items) => {
            items.entries.as_slice() == [16].as_slice()
                && items.code.as_slice() == wanted_far().as_slice()
        }
        Err(_) => false,
    }
}
