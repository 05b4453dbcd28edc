//! The instructions that selection makes. Each has a word of the machine, and but for branches and jumps it may stand
//! anywhere in a text.
#![tactic(auto, unfolding(rv_instr::specs::Range::InRange))]

ghost use Rattle.std.specs.Prelude.{◌≡◌, ◌%◌, ◌^◌, ◌<◌, pos, Some, false};
ghost use Rattle.rv_instr.specs.Range.{InRange, FitsBits, IsEven, count_bits};
ghost use Rattle.rv_instr.specs.declared.instr.Instr.TheVariants.{Branch, Cjal, Cjalr, Load, Store, Clc, Imm, Shift};
ghost use Rattle.rv_instr.specs.declared.instr.Instr.TheVariants.{Op, CapImm, CapReg, CapGet};
ghost use Rattle.rv_instr.specs.declared.ops.CapImmOp.TheVariants.{Cincoffsetimm};
ghost use Rattle.rv_instr.specs.declared.ops.CapGetOp.TheVariants.{Cmove};
ghost use Rattle.purecap_abi.specs.Words.{IsPlainWord};
ghost use Rattle.select_words.specs.ContainedCode.{offset_of};
ghost use Rattle.rv_words.specs.Instructions.{seals};

use rv_instr::{
    BranchOp, CapGetOp, CapImmOp, CapRegOp, ImmOp, Instr, LoadOp, Reg, RegOp, ShiftOp, StoreOp,
};

/// Tells that a register's number is below 32.
fn known(r: Reg)
    ensures { r < 32 }
{
    let _ = r.number();
}

/// An operation on two integers.
pub fn operation(op: RegOp, to: Reg, a: Reg, b: Reg) -> Instr
    ensures plain { IsPlainWord result }
    ensures is { result ≡ Op op to a b }
{
    known(to);
    known(a);
    known(b);
    Instr::Op(op, to, a, b)
}

/// An operation on an integer and a number of 12 bits.
pub fn immediate(op: ImmOp, to: Reg, a: Reg, number: i32) -> Instr
    requires { FitsBits 12 number }
    ensures plain { IsPlainWord result }
    ensures is { result ≡ Imm op to a number }
{
    known(to);
    known(a);
    Instr::Imm(op, to, a, number)
}

/// The bits that a shift moves in.
fn width(op: ShiftOp) -> u8
    ensures { result ≡ 2 ^ count_bits op }
{
    match op {
        ShiftOp::Slli | ShiftOp::Srli | ShiftOp::Srai => 64,
        ShiftOp::Slliw | ShiftOp::Srliw | ShiftOp::Sraiw => 32,
    }
}

/// A shift by a count, of which the bits count that the shift has.
pub fn shift(op: ShiftOp, to: Reg, a: Reg, count: u8) -> Instr
    ensures plain { IsPlainWord result }
    ensures is { result ≡ Shift op to a (count % 2 ^ count_bits op) }
{
    let count = count % width(op);
    known(to);
    known(a);
    Instr::Shift(op, to, a, count)
}

/// What one register tells, or a register without its tag. No register is sealed.
pub fn of_one(op: CapGetOp, to: Reg, a: Reg) -> Instr
    requires { seals op ≡ false }
    ensures plain { IsPlainWord result }
    ensures is { result ≡ CapGet op to a }
{
    known(to);
    known(a);
    Instr::CapGet(op, to, a)
}

/// A register that becomes another.
pub fn moving(to: Reg, from: Reg) -> Instr
    ensures plain { IsPlainWord result }
    ensures is { result ≡ CapGet Cmove to from }
{
    of_one(CapGetOp::Cmove, to, from)
}

/// A capability, changed by a register.
pub fn of_two(op: CapRegOp, to: Reg, a: Reg, b: Reg) -> Instr
    ensures plain { IsPlainWord result }
    ensures is { result ≡ CapReg op to a b }
{
    known(to);
    known(a);
    known(b);
    Instr::CapReg(op, to, a, b)
}

/// A capability, moved by a number of 12 bits.
pub fn advance(to: Reg, a: Reg, bytes: i32) -> Instr
    requires { FitsBits 12 bytes }
    ensures plain { IsPlainWord result }
    ensures is { result ≡ CapImm Cincoffsetimm to a bytes }
{
    known(to);
    known(a);
    Instr::CapImm(CapImmOp::Cincoffsetimm, to, a, bytes)
}

/// Loads an integer from where a capability points.
pub fn load(op: LoadOp, to: Reg, at: Reg) -> Instr
    ensures plain { IsPlainWord result }
    ensures is { result ≡ Load op to at (pos 0) }
{
    known(to);
    known(at);
    Instr::Load(op, to, at, 0)
}

/// Loads a capability from where a capability points.
pub fn load_capability(to: Reg, at: Reg) -> Instr
    ensures plain { IsPlainWord result }
    ensures is { result ≡ Clc to at (pos 0) }
{
    known(to);
    known(at);
    Instr::Clc(to, at, 0)
}

/// Stores a register at a number of 12 bits behind a capability.
pub fn store(op: StoreOp, from: Reg, at: Reg, bytes: i32) -> Instr
    requires { FitsBits 12 bytes }
    ensures plain { IsPlainWord result }
    ensures is { result ≡ Store op from at bytes }
{
    known(from);
    known(at);
    Instr::Store(op, from, at, bytes)
}

/// A branch by so many bytes.
pub fn branch(op: BranchOp, a: Reg, b: Reg, bytes: i32) -> Instr
    requires range { FitsBits 13 bytes }
    requires even { IsEven bytes }
    ensures in_range { InRange result }
    ensures leads { offset_of result ≡ Some bytes }
    ensures is { result ≡ Branch op a b bytes }
{
    known(a);
    known(b);
    Instr::Branch(op, a, b, bytes)
}

/// A jump by so many bytes, that links.
pub fn jump(link: Reg, bytes: i32) -> Instr
    requires range { FitsBits 21 bytes }
    requires even { IsEven bytes }
    ensures in_range { InRange result }
    ensures leads { offset_of result ≡ Some bytes }
    ensures is { result ≡ Cjal link bytes }
{
    known(link);
    Instr::Cjal(link, bytes)
}

/// A jump through a register, that links.
pub fn jump_through(link: Reg, to: Reg) -> Instr
    ensures plain { IsPlainWord result }
    ensures is { result ≡ Cjalr link to (pos 0) }
{
    known(link);
    known(to);
    Instr::Cjalr(link, to, 0)
}
