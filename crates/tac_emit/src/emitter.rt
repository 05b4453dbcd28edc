//! The code of a function while it is made.

ghost use Rattle.std.specs.Prelude.{◌≡◌, ℕ, ◌+◌, ◌^◌, ◌<◌, ◌≤◌, ◌==◌, [], ◌∷◌, length, true, false, IfOk, IfSome, Some};
ghost use Rattle.std.specs.Prelude.{None};
ghost use Rattle.std.specs.Prelude.{if◌then◌else◌};
ghost use Rattle.tac_ir.specs.declared.code.TacKind.TheVariants as kinds;
ghost use Rattle.tac_ir.specs.declared.code.TacInstr.TheVariants as instr;
ghost use Rattle.tac_ir.specs.WellFormed.{constant_fits, units_fit, is_unit};
ghost use Rattle.cheri_c_sem.specs.Types.{is_shift};
ghost use Rattle.ck_int.specs.declared.kinds.IntKind.TheVariants as int;
ghost use Rattle.tac_ir.specs.Costs.{cost, outgoing_by, number_cost};
ghost use Rattle.tac_emit.specs.Spent.{Takes, Spent, is_number};
ghost use Rattle.tac_ir.specs.Temps.{locals, zeros};
ghost use Rattle.tac_ir.specs.Within.{copied_parts};
ghost use Rattle.c_tree.specs.Counts.{parts};
ghost use Rattle.tac_emit.specs.Emitted.{HasKind, HasInt, HasCapability, IsTemp, SameKind, AmountFits, CountFits};
ghost use Rattle.tac_emit.specs.Emitted.{SameCapability, WorkFits, IsOpen, Stands, Grown, Made, Labelled, Forked};
ghost use Rattle.tac_emit.specs.Emitted.{Turned, Pushed, HasLeft, Adds, HasRoom, IsWide, is_capability};
ghost use Rattle.tac_emit.specs.Adding.{Emits, none, one};
ghost use Rattle.lower_runs.specs.Operating.{transfer, give};

use ck_base::{NoMemory, Pos, Sequence};
use ck_int::{CmpOp, IntKind, IntOp};
use std::alloc::Global;
use tac_ir::{Amount, CapWork, LibOp, TacInstr, TacKind};

/// The labels of a choice: where its second way begins, and where both ways end.
#[derive(Clone, Copy)]
pub struct Fork {
    pub other: u32,
    pub end: u32,
}

/// A copy of a struct or union in units, with the positions of the place read and of the place written.
#[derive(Clone, Copy)]
pub struct Copied {
    pub from: u32,
    pub to: u32,
    pub bytes: u64,
    pub unit: u8,
    pub from_pos: Pos,
    pub to_pos: Pos,
}

/// The instructions so far, the kinds of the temps so far, and how many labels they have.
#[derive(Drop)]
pub struct Emitter {
    pub code: Vec<TacInstr>,
    pub kinds: Vec<TacKind>,
    pub labels: u32,
}

impl Emitter {
    /// No instructions.
    pub fn new(alloc: Global) -> Self
        ensures code { result.code.items ≡ [] }
        ensures kinds { result.kinds.items ≡ [] }
        ensures labels { result.labels ≡ 0 }
    {
        Emitter {
            code: Vec::new(alloc),
            kinds: Vec::new(alloc),
            labels: 0,
        }
    }

    /// An instruction that names no local.
    fn push(&mut self, i: TacInstr) -> Result<(), NoMemory>
        requires locals { locals i ≡ [] }
        requires zeros { zeros i ≡ [] }
        ensures pushed { IfOk result (λ _. Pushed self.old self.new i) }
        ensures adds { IfOk result (λ _. Adds self.old self.new 0 0) }
        ensures spent { IfOk result (λ _. Takes self.old self.new (outgoing_by i) (cost i) (copied_parts i)) }
    {
        self.code.push(i)?;
        Ok(())
    }

    /// How many temps there are.
    pub fn temps(&self) -> u32
        requires few { length self.now.kinds.items < 2 ^ 32 }
        ensures { result ≡ length self.now.kinds.items }
    {
        self.kinds.len() as u32
    }

    fn add_temp(&mut self, kind: TacKind) -> Result<u32, NoMemory>
        requires few { length self.old.kinds.items < 2 ^ 32 }
        ensures temp { IfOk result (λ t. t ≡ length self.old.kinds.items) }
        ensures made { IfOk result (λ _. Made self.old self.new kind) }
    {
        let t = self.temps();
        self.kinds.push(kind)?;
        Ok(t)
    }

    /// A new temp.
    pub fn temp(&mut self, kind: TacKind) -> Result<u32, NoMemory>
        requires room { HasRoom self.old 1 }
        ensures next { IfOk result (λ t. t ≡ length self.old.kinds.items) }
        ensures has { IfOk result (λ t. HasKind self.new t kind) }
        ensures grown { IfOk result (λ _. Grown self.old self.new) }
        ensures adds { IfOk result (λ _. Adds self.old self.new 1 0) }
        ensures spent { IfOk result (λ _. Spent self.old self.new 1 0) }
        ensures emits { IfOk result (λ _. Emits self.old self.new 1 none) }
    {
        let t = self.add_temp(kind)?;
        Ok(t)
    }

    /// A new label.
    pub fn label(&mut self) -> u32
        requires few { self.old.labels + 1 < 2 ^ 32 }
        ensures labelled { Labelled self.old self.new result }
    {
        let l = self.labels;
        self.labels = l + 1;
        l
    }

    /// Two new labels of a choice.
    pub fn fork(&mut self) -> Fork
        requires few { self.old.labels + 2 < 2 ^ 32 }
        ensures forked { Forked self.old self.new result.other result.end }
    {
        let other = self.label();
        let end = self.label();
        Fork { other, end }
    }

    /// The first way of a choice ends, and the second begins.
    pub fn turn_fork(&mut self, fork: Fork) -> Result<(), NoMemory>
        requires end { IsOpen self.old fork.end }
        ensures turned { IfOk result (λ _. Turned self.old self.new fork.other) }
        ensures adds { IfOk result (λ _. Adds self.old self.new 0 0) }
        ensures spent { IfOk result (λ _. Spent self.old self.new 0 1) }
        ensures emits { IfOk result (λ _. Emits self.old self.new 0
            (λ r. instr.Jump fork.end ∷ instr.Label fork.other ∷ r)) }
    {
        self.jump(fork.end)?;
        self.stand(fork.other)
    }

    /// The second way of a choice ends.
    pub fn join_fork(&mut self, fork: Fork) -> Result<(), NoMemory>
        ensures stands { IfOk result (λ _. Pushed self.old self.new (instr.Label fork.end)) }
        ensures adds { IfOk result (λ _. Adds self.old self.new 0 0) }
    {
        self.stand(fork.end)
    }

    /// An integer in the 64 bits of its extension, or null with that address.
    pub fn constant(&mut self, to: u32, kind: TacKind, value: u64) -> Result<(), NoMemory>
        requires to { HasKind self.old to kind }
        requires value { constant_fits kind value ≡ true }
        ensures grown { IfOk result (λ _. Grown self.old self.new) }
        ensures adds { IfOk result (λ _. Adds self.old self.new 0 0) }
        ensures spent { IfOk result (λ _. Spent self.old self.new 0 11) }
        ensures short { number_cost value ≡ 1 → IfOk result (λ _. Spent self.old self.new 0 4) }
        ensures emits { IfOk result (λ _. Emits self.old self.new 0 (one (instr.Const to kind value))) }
    {
        self.push(TacInstr::Const { to, kind, value })
    }

    /// A new temp with a constant.
    pub fn fresh_constant(&mut self, kind: TacKind, value: u64) -> Result<u32, NoMemory>
        requires room { HasRoom self.old 1 }
        requires value { constant_fits kind value ≡ true }
        ensures next { IfOk result (λ t. t ≡ length self.old.kinds.items) }
        ensures has { IfOk result (λ t. HasKind self.new t kind) }
        ensures grown { IfOk result (λ _. Grown self.old self.new) }
        ensures adds { IfOk result (λ _. Adds self.old self.new 1 0) }
        ensures spent { IfOk result (λ _. Spent self.old self.new 1 11) }
        ensures short { number_cost value ≡ 1 → IfOk result (λ _. Spent self.old self.new 1 4) }
        ensures emits { IfOk result (λ t. Emits self.old self.new 1 (one (instr.Const t kind value))) }
    {
        let t = self.temp(kind)?;
        self.constant(t, kind, value)?;
        Ok(t)
    }

    pub fn copy(&mut self, to: u32, from: u32) -> Result<(), NoMemory>
        requires same { SameKind self.old to from }
        ensures grown { IfOk result (λ _. Grown self.old self.new) }
        ensures adds { IfOk result (λ _. Adds self.old self.new 0 0) }
        ensures spent { IfOk result (λ _. Spent self.old self.new 0 6) }
        ensures emits { IfOk result (λ _. Emits self.old self.new 0 (one (instr.Copy to from))) }
    {
        self.push(TacInstr::Copy { to, from })
    }

    /// A copy, unless the value is there.
    #[tactic(auto, using(crate::proofs::Wells::grown_same, crate::proofs::Wells::adds_same))]
    pub fn transfer(&mut self, to: u32, from: u32) -> Result<(), NoMemory>
        requires same { SameKind self.old to from }
        ensures grown { IfOk result (λ _. Grown self.old self.new) }
        ensures adds { IfOk result (λ _. Adds self.old self.new 0 0) }
        ensures spent { IfOk result (λ _. Spent self.old self.new 0 6) }
        ensures there { to ≡ from → IfOk result (λ _. Spent self.old self.new 0 0) }
        ensures emits { IfOk result (λ _. Emits self.old self.new 0 (transfer to from)) }
    {
        if to == from {
            Ok(())
        } else {
            self.copy(to, from)
        }
    }

    /// A transfer, where the value is asked for.
    #[tactic(auto, using(crate::proofs::Wells::grown_same, crate::proofs::Wells::adds_same))]
    pub fn give(&mut self, to: Option<u32>, from: u32) -> Result<(), NoMemory>
        requires same { IfSome to (λ t. SameKind self.old t from) }
        ensures grown { IfOk result (λ _. Grown self.old self.new) }
        ensures adds { IfOk result (λ _. Adds self.old self.new 0 0) }
        ensures spent { IfOk result (λ _. Spent self.old self.new 0 6) }
        ensures there { IfSome to (λ t. t ≡ from) → IfOk result (λ _. Spent self.old self.new 0 0) }
        ensures emits { IfOk result (λ _. Emits self.old self.new 0 (give to from)) }
    {
        match to {
            None => Ok(()),
            Some(t) => self.transfer(t, from),
        }
    }

    pub fn int(&mut self, op: IntOp, kind: IntKind, to: u32, a: u32, b: u32) -> Result<(), NoMemory>
        requires to { HasKind self.old to (kinds.Int kind) }
        requires left { HasKind self.old a (kinds.Int kind) }
        requires right { CountFits self.old (is_shift op) kind b }
        ensures grown { IfOk result (λ _. Grown self.old self.new) }
        ensures adds { IfOk result (λ _. Adds self.old self.new 0 0) }
        ensures spent { IfOk result (λ _. Spent self.old self.new 0 13) }
        ensures wide { IsWide (kinds.Int kind) → IfOk result (λ _. Spent self.old self.new 0 11) }
        ensures emits { IfOk result (λ _. Emits self.old self.new 0 (one (instr.Int op kind to a b))) }
    {
        self.push(TacInstr::Int { op, kind, to, a, b })
    }

    pub fn compare(
        &mut self,
        op: CmpOp,
        kind: TacKind,
        to: u32,
        a: u32,
        b: u32,
    ) -> Result<(), NoMemory>
        requires to { HasKind self.old to (kinds.Int int.I32) }
        requires left { HasKind self.old a kind }
        requires right { HasKind self.old b kind }
        ensures grown { IfOk result (λ _. Grown self.old self.new) }
        ensures adds { IfOk result (λ _. Adds self.old self.new 0 0) }
        ensures spent { IfOk result (λ _. Spent self.old self.new 0 11) }
        ensures emits { IfOk result (λ _. Emits self.old self.new 0 (one (instr.Cmp op kind to a b))) }
    {
        self.push(TacInstr::Cmp { op, kind, to, a, b })
    }

    pub fn convert(
        &mut self,
        to: u32,
        from: u32,
        old: TacKind,
        new: TacKind,
    ) -> Result<(), NoMemory>
        requires to { HasKind self.old to new }
        requires from { HasKind self.old from old }
        ensures grown { IfOk result (λ _. Grown self.old self.new) }
        ensures adds { IfOk result (λ _. Adds self.old self.new 0 0) }
        ensures spent { IfOk result (λ _. Spent self.old self.new 0 11) }
        ensures address { is_capability old ≡ true → IsWide new → IfOk result (λ _. Spent self.old self.new 0 7) }
        ensures emits { IfOk result (λ _. Emits self.old self.new 0 (one (instr.Convert to from old new))) }
    {
        self.push(TacInstr::Convert { to, from, old, new })
    }

    /// A new temp with a converted value.
    pub fn fresh_conversion(
        &mut self,
        from: u32,
        old: TacKind,
        new: TacKind,
    ) -> Result<u32, NoMemory>
        requires room { HasRoom self.old 1 }
        requires from { HasKind self.old from old }
        ensures next { IfOk result (λ t. t ≡ length self.old.kinds.items) }
        ensures has { IfOk result (λ t. HasKind self.new t new) }
        ensures grown { IfOk result (λ _. Grown self.old self.new) }
        ensures adds { IfOk result (λ _. Adds self.old self.new 1 0) }
        ensures spent { IfOk result (λ _. Spent self.old self.new 1 11) }
        ensures address { is_capability old ≡ true → IsWide new → IfOk result (λ _. Spent self.old self.new 1 7) }
        ensures emits { IfOk result (λ t. Emits self.old self.new 1 (one (instr.Convert t from old new))) }
    {
        let t = self.temp(new)?;
        self.convert(t, from, old, new)?;
        Ok(t)
    }

    pub fn work(&mut self, op: CapWork, to: u32, a: u32, b: Option<u32>) -> Result<(), NoMemory>
        requires fits { WorkFits self.old op to a b }
        ensures grown { IfOk result (λ _. Grown self.old self.new) }
        ensures adds { IfOk result (λ _. Adds self.old self.new 0 0) }
        ensures spent { IfOk result (λ _. Spent self.old self.new 0 10) }
        ensures emits { IfOk result (λ _. Emits self.old self.new 0 (one (instr.Cap op to a b))) }
    {
        self.push(TacInstr::Cap { op, to, a, b })
    }

    pub fn offset(&mut self, to: u32, base: u32, by: Amount) -> Result<(), NoMemory>
        requires same { SameCapability self.old to base }
        requires by { AmountFits self.old by }
        ensures grown { IfOk result (λ _. Grown self.old self.new) }
        ensures adds { IfOk result (λ _. Adds self.old self.new 0 0) }
        ensures spent { IfOk result (λ _. Spent self.old self.new 0 15) }
        ensures temp { is_number by ≡ false → IfOk result (λ _. Spent self.old self.new 0 10) }
        ensures emits { IfOk result (λ _. Emits self.old self.new 0 (one (instr.Offset to base by))) }
    {
        self.push(TacInstr::Offset { to, base, by })
    }

    pub fn narrow(
        &mut self,
        to: u32,
        base: u32,
        length: Amount,
        exact: bool,
    ) -> Result<(), NoMemory>
        requires same { SameCapability self.old to base }
        requires by { AmountFits self.old length }
        ensures grown { IfOk result (λ _. Grown self.old self.new) }
        ensures adds { IfOk result (λ _. Adds self.old self.new 0 0) }
        ensures spent { IfOk result (λ _. Spent self.old self.new 0 15) }
        ensures emits { IfOk result (λ _. Emits self.old self.new 0 (one (instr.Narrow to base length exact))) }
    {
        self.push(TacInstr::Narrow {
            to,
            base,
            length,
            exact,
        })
    }

    pub fn load(&mut self, to: u32, from: u32, kind: TacKind, pos: Pos) -> Result<(), NoMemory>
        requires to { HasKind self.old to kind }
        requires from { HasCapability self.old from }
        ensures grown { IfOk result (λ _. Grown self.old self.new) }
        ensures adds { IfOk result (λ _. Adds self.old self.new 0 0) }
        ensures spent { IfOk result (λ _. Spent self.old self.new 0 8) }
        ensures emits { IfOk result (λ _. Emits self.old self.new 0 (one (instr.Load to from kind pos))) }
    {
        self.push(TacInstr::Load {
            to,
            from,
            kind,
            pos,
        })
    }

    pub fn store(&mut self, at: u32, value: u32, kind: TacKind, pos: Pos) -> Result<(), NoMemory>
        requires at { HasCapability self.old at }
        requires value { HasKind self.old value kind }
        ensures grown { IfOk result (λ _. Grown self.old self.new) }
        ensures adds { IfOk result (λ _. Adds self.old self.new 0 0) }
        ensures spent { IfOk result (λ _. Spent self.old self.new 0 7) }
        ensures emits { IfOk result (λ _. Emits self.old self.new 0 (one (instr.Store at value kind pos))) }
    {
        self.push(TacInstr::Store {
            at,
            value,
            kind,
            pos,
        })
    }

    pub fn global(&mut self, to: u32, number: u32, literal: bool) -> Result<(), NoMemory>
        ensures pushed { IfOk result (λ _. Pushed self.old self.new (instr.Global to number literal)) }
        ensures adds { IfOk result (λ _. Adds self.old self.new 0 0) }
    {
        self.push(TacInstr::Global {
            to,
            number,
            literal,
        })
    }

    pub fn function(&mut self, to: u32, fun: u32) -> Result<(), NoMemory>
        ensures pushed { IfOk result (λ _. Pushed self.old self.new (instr.Function to fun)) }
        ensures adds { IfOk result (λ _. Adds self.old self.new 0 0) }
    {
        self.push(TacInstr::Function { to, fun })
    }

    pub fn copy_units(&mut self, c: Copied) -> Result<(), NoMemory>
        requires from { HasCapability self.old c.from }
        requires to { HasCapability self.old c.to }
        requires units { units_fit c.bytes c.unit ≡ true }
        ensures grown { IfOk result (λ _. Grown self.old self.new) }
        ensures adds { IfOk result (λ _. Adds self.old self.new 0 0) }
        ensures spent { IfOk result (λ _. Takes self.old self.new 0 14 (parts c.bytes)) }
        ensures emits { IfOk result (λ _. Emits self.old self.new 0
            (one (instr.CopyUnits c.from c.to c.bytes c.unit c.from_pos c.to_pos))) }
    {
        self.push(TacInstr::CopyUnits {
            from: c.from,
            to: c.to,
            bytes: c.bytes,
            unit: c.unit,
            from_pos: c.from_pos,
            to_pos: c.to_pos,
        })
    }

    /// A label stands here.
    pub fn stand(&mut self, label: u32) -> Result<(), NoMemory>
        ensures stands { IfOk result (λ _. Pushed self.old self.new (instr.Label label)) }
        ensures spent { IfOk result (λ _. Spent self.old self.new 0 0) }
        ensures adds { IfOk result (λ _. Adds self.old self.new 0 0) }
    {
        self.push(TacInstr::Label(label))
    }

    pub fn jump(&mut self, label: u32) -> Result<(), NoMemory>
        requires open { IsOpen self.old label }
        ensures grown { IfOk result (λ _. Grown self.old self.new) }
        ensures adds { IfOk result (λ _. Adds self.old self.new 0 0) }
        ensures spent { IfOk result (λ _. Spent self.old self.new 0 1) }
        ensures emits { IfOk result (λ _. Emits self.old self.new 0 (one (instr.Jump label))) }
    {
        self.push(TacInstr::Jump(label))
    }

    pub fn branch(&mut self, on: u32, when: bool, label: u32) -> Result<(), NoMemory>
        requires open { IsOpen self.old label }
        requires temp { IsTemp self.old on }
        ensures grown { IfOk result (λ _. Grown self.old self.new) }
        ensures adds { IfOk result (λ _. Adds self.old self.new 0 0) }
        ensures spent { IfOk result (λ _. Spent self.old self.new 0 5) }
        ensures emits { IfOk result (λ _. Emits self.old self.new 0 (one (instr.Branch on when label))) }
    {
        self.push(TacInstr::Branch { on, when, label })
    }

    pub fn call(&mut self, to: Option<u32>, fun: u32, args: Vec<u32>) -> Result<(), NoMemory>
        ensures pushed { IfOk result (λ _. Pushed self.old self.new (instr.Call to fun args.items)) }
        ensures adds { IfOk result (λ _. Adds self.old self.new 0 0) }
    {
        let args = Sequence::from_vec(args);
        self.push(TacInstr::Call { to, fun, args })
    }

    pub fn call_value(
        &mut self,
        to: Option<u32>,
        value: u32,
        of: u32,
        args: Vec<u32>,
        pos: Pos,
    ) -> Result<(), NoMemory>
        ensures pushed { IfOk result (λ _. Pushed self.old self.new (instr.CallValue to value of args.items pos)) }
        ensures adds { IfOk result (λ _. Adds self.old self.new 0 0) }
    {
        let args = Sequence::from_vec(args);
        self.push(TacInstr::CallValue {
            to,
            value,
            of,
            args,
            pos,
        })
    }

    pub fn service(&mut self, op: LibOp, to: Option<u32>, args: Vec<u32>) -> Result<(), NoMemory>
        ensures pushed { IfOk result (λ _. Pushed self.old self.new (instr.Lib op to args.items)) }
        ensures adds { IfOk result (λ _. Adds self.old self.new 0 0) }
    {
        let args = Sequence::from_vec(args);
        self.push(TacInstr::Lib { op, to, args })
    }

    /// One turn is used, and a loop begins again.
    pub fn turn_back(&mut self, top: u32) -> Result<(), NoMemory>
        requires stands { Stands self.old top }
        ensures grown { IfOk result (λ _. Grown self.old self.new) }
        ensures adds { IfOk result (λ _. Adds self.old self.new 0 0) }
        ensures spent { IfOk result (λ _. Spent self.old self.new 0 1) }
        ensures emits { IfOk result (λ _. Emits self.old self.new 0 (λ r. instr.Turn ∷ instr.Jump top ∷ r)) }
    {
        self.push(TacInstr::Turn)?;
        self.push(TacInstr::Jump(top))
    }

    pub fn leave(&mut self, value: Option<u32>) -> Result<(), NoMemory>
        ensures pushed { IfOk result (λ _. Pushed self.old self.new (instr.Return value)) }
        ensures spent { IfOk result (λ _. Spent self.old self.new 0 24) }
        ensures adds { IfOk result (λ _. Adds self.old self.new 0 0) }
    {
        self.push(TacInstr::Return(value))
    }

    /// Whether the last instruction is a return, so that no run comes behind it.
    pub fn has_left(&self) -> bool
        ensures { result ≡ true → HasLeft self.now }
    {
        matches!(self.code.as_slice().last(), Some(TacInstr::Return(_)))
    }
}
