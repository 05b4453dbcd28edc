//! What registers load, store and copy.
ghost use Rattle.std.specs.Prelude.{◌≡◌, ◌+◌, ◌-◌, ◌^◌, ◌≤◌, ◌<◌, [], ◌∷◌, ◌++◌, length, OnOk};
ghost use Rattle.select_words.specs.Accesses.{store_op, load_words};
ghost use Rattle.select_words.specs.Copying.{unit_load, unit_store, unit_words};
ghost use Rattle.tac_ir.specs.Costs.{load_cost};
ghost use Rattle.rv_emit.specs.Growing.{Extends, Puts, trapping, both_trapping, room};
ghost use Rattle.rv_idioms.specs.Copies.{RoundWords, Twice};

use ck_base::{NoMemory, Pos};
use ck_int::IntKind;
use rv_emit::{Code, instructions as instr};
use rv_instr::{BranchOp, ImmOp, LoadOp, Reg, RegOp, StoreOp};
use rv_memory::{count, left, load_op, number_of, right, way};
use tac_ir::TacKind;

/// How a kind is stored.
pub fn store_op(kind: TacKind) -> StoreOp
    ensures { result ≡ store_op kind }
{
    match kind {
        TacKind::Int(IntKind::Bool | IntKind::I8 | IntKind::U8) => StoreOp::Sb,
        TacKind::Int(IntKind::I16 | IntKind::U16) => StoreOp::Sh,
        TacKind::Int(IntKind::I32 | IntKind::U32) => StoreOp::Sw,
        TacKind::Int(IntKind::I64 | IntKind::U64) => StoreOp::Sd,
        TacKind::Cap(_) => StoreOp::Csc,
    }
}

/// A register becomes what is loaded from where another points. A truth value is 1 for any byte but zero.
pub fn load_words(code: &mut Code, kind: TacKind, r: Reg, a: Reg, pos: Pos) -> Result<(), NoMemory>
    requires { code.old.words + 1 ≤ room }
    ensures size { OnOk result (Extends (load_cost kind - 6) code.old code.new) }
    ensures text { OnOk result (code.new.text ≡ code.old.text ++ load_words kind r a) }
    ensures links { OnOk result (code.new.links ≡ trapping code.old.links (length code.old.text) pos 0) }
{
    match kind {
        TacKind::Cap(_) => code.put_at(instr::load_capability(r, a), pos, 0),
        TacKind::Int(IntKind::Bool) => {
            code.put_at(instr::load(LoadOp::Lbu, r, a), pos, 0)?;
            code.put(instr::operation(RegOp::Sltu, r, Reg::ZERO, r))
        }
        TacKind::Int(k) => code.put_at(instr::load(load_op(k), r, a), pos, 0),
    }
}

/// Loads a unit of so many bytes to c31 from where c28 points.
fn load_unit(code: &mut Code, unit: u8, pos: Pos) -> Result<(), NoMemory>
    requires { code.old.words + 1 ≤ room }
    ensures size { OnOk result (code.new.words ≡ code.old.words + 1) }
    ensures text { OnOk result (code.new.text ≡ code.old.text ++ unit_load unit ∷ []) }
    ensures links { OnOk result (code.new.links ≡ trapping code.old.links (length code.old.text) pos 0) }
    ensures top { OnOk result (code.new.top ≡ code.old.top) }
{
    match unit {
        1 => code.put_at(instr::load(LoadOp::Lbu, way(), left()), pos, 0),
        2 => code.put_at(instr::load(LoadOp::Lhu, way(), left()), pos, 0),
        4 => code.put_at(instr::load(LoadOp::Lwu, way(), left()), pos, 0),
        8 => code.put_at(instr::load(LoadOp::Ld, way(), left()), pos, 0),
        _ => code.put_at(instr::load_capability(way(), left()), pos, 0),
    }
}

/// Stores a unit of so many bytes from c31 where c29 points.
fn store_unit(code: &mut Code, unit: u8, pos: Pos) -> Result<(), NoMemory>
    requires { code.old.words + 1 ≤ room }
    ensures size { OnOk result (code.new.words ≡ code.old.words + 1) }
    ensures text { OnOk result (code.new.text ≡ code.old.text ++ unit_store unit ∷ []) }
    ensures links { OnOk result (code.new.links ≡ trapping code.old.links (length code.old.text) pos 0) }
    ensures top { OnOk result (code.new.top ≡ code.old.top) }
{
    match unit {
        1 => code.put_at(instr::store(StoreOp::Sb, way(), right(), 0), pos, 0),
        2 => code.put_at(instr::store(StoreOp::Sh, way(), right(), 0), pos, 0),
        4 => code.put_at(instr::store(StoreOp::Sw, way(), right(), 0), pos, 0),
        8 => code.put_at(instr::store(StoreOp::Sd, way(), right(), 0), pos, 0),
        _ => code.put_at(instr::store(StoreOp::Csc, way(), right(), 0), pos, 0),
    }
}

/// Copies one unit.
pub fn copy_unit(code: &mut Code, unit: u8, from: Pos, to: Pos) -> Result<(), NoMemory>
    requires { code.old.words + 2 ≤ room }
    ensures size { OnOk result (code.new.words ≡ code.old.words + 2) }
    ensures text { OnOk result (code.new.text ≡ code.old.text ++ unit_words unit) }
    ensures links { OnOk result (code.new.links ≡ both_trapping code.old.links (length code.old.text) from to) }
    ensures top { OnOk result (code.new.top ≡ code.old.top) }
{
    load_unit(code, unit, from)?;
    store_unit(code, unit, to)
}

/// Copies so many units, one or more, from where c28 points to where c29 does.
pub fn copy_loop(code: &mut Code, units: u64, unit: u8, from: Pos, to: Pos) -> Result<(), NoMemory>
    requires { code.old.words + 8 ≤ room }
    ensures size { OnOk result (Extends 8 code.old code.new) }
    ensures words { OnOk result (units < 2 ^ 31 →
        Puts (RoundWords (Twice code.old code.new from to) units unit) code.old code.new) }
{
    code.number(count(), number_of(units))?;
    code.open_loop();
    copy_unit(code, unit, from, to)?;
    code.put(instr::advance(left(), left(), i32::from(unit)))?;
    code.put(instr::advance(right(), right(), i32::from(unit)))?;
    code.put(instr::immediate(ImmOp::Addi, count(), count(), -1))?;
    code.close_loop(BranchOp::Bne, count(), Reg::ZERO)
}
