//! What single instructions do.
ghost use Rattle.std.specs.Prelude.{◌≡◌, ◌+◌, ◌*◌, ◌/◌, ◌^◌, ◌<◌, false, List, map, length, slice_get, slice_index_or};
ghost use Rattle.std.specs.Prelude.{IfOk};
ghost use Rattle.c_tree.specs.declared.typed.Typed.{Typed};
ghost use Rattle.obj_mem.specs.Values.{value_of};
ghost use Rattle.obj_mem.specs.Table.{addresses_of};
ghost use Rattle.cheri_c_sem.specs.Kinds.{bytes_of};
ghost use Rattle.cheri_c_sem.specs.Meaning.{At};
ghost use Rattle.cheri_c_sem.specs.Modes.{Store, truth_answer};
ghost use Rattle.cheri_c_sem.specs.Operations.{Operations};
ghost use Rattle.mean_steps.specs.Parts.{Now, called as called_of, copy_units};
ghost use Rattle.mean_types.specs.Facts.{AreTypesOf};
ghost use Rattle.object_memory.specs.Answers.{seen};
ghost use Rattle.object_memory.specs.Memories.{IsSize};
ghost use Rattle.tac_ir.specs.Effects.{kind_of as kind_of_temp};
ghost use Rattle.tac_steps.specs.Machine.{effect, global_pointer, value_in};
ghost use Rattle.tac_run.specs.Holdings.{ops_of};
ghost use Rattle.tac_run.specs.Views.{now_of, next_of, fits_of, on_done, read_answer, Comes, Asks, Finds, IsGiving};
ghost use Rattle.tac_run.specs.Views.{IsComputing, IsInside};

use crate::faults::{NO_POSITION, Stop, fault_end, unit_end};
use crate::operations::{compared, converted, is_true, kind_at, kind_of, whole};
use crate::places::further;
use crate::program::{CONST, DATA, Program};
use crate::state::{Next, State};
use cap_ops::Cause;
use ck_base::{NoMemory, Pos};
use mean_types::{bytes_of, compatible, null_at, read_as, truth};
use obj_mem::{Ending, Fault, Value};
use object_memory::AllocateFault;
use tac_ir::{LibOp, TacInstr, TacKind};

fn truth_of(answer: Result<bool, Fault>) -> Result<Value, Fault>
    ensures { seen result ≡ truth_answer answer }
{
    match answer {
        Ok(b) => Ok(truth(b)),
        Err(e) => Err(e),
    }
}

/// Whether a function may be called through a function type.
fn fits(program: Program<'_>, of: u32, f: u32) -> bool
    ensures { result ≡ slice_index_or (fits_of program.entry.p.now of) f false }
{
    match program.p.funs.as_slice().get(f as usize) {
        None => false,
        Some(d) => compatible(program.p.types.as_slice(), of, d.of),
    }
}

/// The function that a value is, called through a function type: by its sentry, and with a type compatible with its
/// own.
fn called(program: Program<'_>, v: Value, of: u32, pos: Pos) -> Result<u32, Stop>
    ensures { (ops : Operations Store) (n : Now Store) →
        Finds (called_of ops pos (fits_of program.entry.p.now of) (value_of v) n) n result }
{
    match v {
        Value::Fun(f) if fits(program, of, f) => Ok(f),
        Value::Fun(_) => Err(Stop::Ended(Ending::Outside(pos))),
        Value::Live(_, _, _, _, _) => Err(Stop::Ended(Ending::Trap(Cause::Execute, pos))),
        Value::Raw(_, _) | Value::Int(_) => Err(Stop::Ended(Ending::Trap(Cause::Tag, pos))),
    }
}

impl<'a> State<'a> {
    fn object(&self, var: u32) -> u64
        requires { self.now.first + var < 2 ^ 64 }
        ensures { result ≡ self.now.first + var }
    {
        self.first + u64::from(var)
    }

    /// The value in memory at a pointer, read at a kind.
    fn loaded(&self, from: u32, kind: TacKind) -> Result<Value, Fault>
        ensures { seen result ≡ read_answer (kind_of_temp kind)
            ((ops_of self.now.memory).load self.now.memory.store (value_in (now_of self.now) from)
            (bytes_of (kind_of_temp kind))) }
    {
        let kind = kind_of(kind);
        match self.memory.load(self.temp(from), bytes_of(kind)) {
            Err(e) => Err(e),
            Ok(v) => Ok(read_as(kind, v)),
        }
    }

    fn store(&mut self, at: u32, v: u32, kind: TacKind, pos: Pos) -> Result<Next, Stop>
        ensures { (p : Typed) (kinds : List TacKind) →
            Comes next_of (effect (ops_of self.old.memory) p kinds (TacInstr.Store at v kind pos) (now_of self.old))
            self.old.memory.map result self.new }
    {
        let to = self.temp(at);
        let v = self.temp(v);
        match self.memory.store(to, bytes_of(kind_of(kind)), v) {
            Err(f) => Err(Stop::Ended(fault_end(f, pos))),
            Ok(()) => Ok(Next::On),
        }
    }

    fn zero(&mut self, var: u32) -> Result<Next, Stop>
        requires { self.old.first + var < 2 ^ 64 }
        ensures { (p : Typed) (kinds : List TacKind) →
            Comes next_of (effect (ops_of self.old.memory) p kinds (TacInstr.Zero var) (now_of self.old))
            self.old.memory.map result self.new }
    {
        let object = self.object(var);
        self.memory.zero(object);
        Ok(Next::On)
    }

    /// A struct is copied in units, from the lowest address on.
    fn copy_units(
        &mut self,
        from: Value,
        to: Value,
        count: u64,
        unit: u8,
        positions: (Pos, Pos),
    ) -> Result<(), Stop>
        requires size { IsSize unit }
        requires few { count * unit < 2 ^ 64 }
        ensures { Comes on_done (copy_units (ops_of self.old.memory) count unit 0 (At positions.0 (value_of from))
            (At positions.1 (value_of to)) (now_of self.old)) self.old.memory.map result self.new }
    {
        'units: for done in 0..count {
            let at = done * u64::from(unit);
            match self
                .memory
                .copy_unit(further(from, at), further(to, at), unit)
            {
                Err(f) => return Err(Stop::Ended(unit_end(f, positions.0, positions.1))),
                Ok(()) => {}
            }
        }
        Ok(())
    }

    fn copy(
        &mut self,
        from: u32,
        to: u32,
        bytes: u64,
        unit: u8,
        positions: (Pos, Pos),
    ) -> Result<Next, Stop>
        requires { IsSize unit }
        ensures { (p : Typed) (kinds : List TacKind) →
            Comes next_of (effect (ops_of self.old.memory) p kinds
            (TacInstr.CopyUnits from to bytes unit positions.0 positions.1) (now_of self.old)) self.old.memory.map
            result self.new }
    {
        let from = self.temp(from);
        let to = self.temp(to);
        match self.copy_units(from, to, bytes / u64::from(unit), unit, positions) {
            Err(stop) => Err(stop),
            Ok(()) => Ok(Next::On),
        }
    }

    /// The pointer to a global or a literal.
    fn global(&self, program: Program<'_>, number: u32, literal: bool) -> Value
        requires types { AreTypesOf program.p.now.types program.types.now }
        ensures { value_of result ≡ global_pointer
            (ops_of self.now.memory) program.entry.p.now self.now.memory.store number literal }
    {
        if literal {
            self.memory.whole(program.literal(number), CONST)
        } else {
            self.memory
                .whole(u64::from(number), program.permissions(number))
        }
    }

    fn way(&self, kinds: &[TacKind], on: u32, when: bool, label: u32) -> Result<Next, Stop>
        ensures { (p : Typed) → Comes next_of (effect (ops_of self.now.memory) p kinds.now
            (TacInstr.Branch on when label) (now_of self.now)) self.now.memory.map result self.now }
    {
        match is_true(&self.memory, kind_at(kinds, on), self.temp(on)) {
            Err(f) => Err(Stop::Ended(fault_end(f, NO_POSITION))),
            Ok(b) if b == when => Ok(Next::To(label)),
            Ok(_) => Ok(Next::On),
        }
    }

    fn values(&self, program: Program<'_>, args: &[u32]) -> Result<Vec<Value>, NoMemory>
        ensures { IfOk result (λ vs. map value_of vs.items ≡ map (value_in (now_of self.now)) args.now) }
    {
        let mut values = Vec::new(program.alloc);
        'temps: for t in args {
            values.push(self.temp(*t))?;
        }
        Ok(values)
    }

    /// A call of a function, with the values of some temps.
    fn call(
        &self,
        program: Program<'_>,
        fun: u32,
        args: &[u32],
        to: Option<u32>,
    ) -> Result<Next, Stop>
        ensures { (kinds : List TacKind) →
            Comes next_of (effect (ops_of self.now.memory) program.entry.p.now kinds (TacInstr.Call to fun args.now)
            (now_of self.now)) self.now.memory.map result self.now }
    {
        match self.values(program, args) {
            Err(NoMemory) => Err(Stop::NoMemory),
            Ok(values) => Ok(Next::Into(fun, values, to)),
        }
    }

    fn call_value(
        &self,
        program: Program<'_>,
        v: u32,
        of: u32,
        pos: Pos,
        args: &[u32],
        to: Option<u32>,
    ) -> Result<Next, Stop>
        ensures { (kinds : List TacKind) →
            Comes next_of (effect (ops_of self.now.memory) program.entry.p.now kinds
            (TacInstr.CallValue to v of args.now pos) (now_of self.now)) self.now.memory.map result self.now }
    {
        match called(program, self.temp(v), of, pos) {
            Err(stop) => Err(stop),
            Ok(fun) => self.call(program, fun, args, to),
        }
    }

    fn allocate(&mut self, to: Option<u32>, args: &[u32]) -> Result<Next, Stop>
        requires { (addresses_of self.old.memory.map).heap_end < 2 ^ 63 }
        ensures { (p : Typed) (kinds : List TacKind) →
            Comes next_of (effect (ops_of self.old.memory) p kinds (TacInstr.Lib LibOp.Malloc to args.now)
            (now_of self.old)) self.old.memory.map result self.new }
    {
        let n = self.first_number(args);
        match self.memory.allocate(n) {
            Err(AllocateFault::NoMemory) => Err(Stop::NoMemory),
            Err(AllocateFault::Fault(f)) => Err(Stop::Ended(fault_end(f, NO_POSITION))),
            Ok(v) => {
                self.set_optional(to, v);
                Ok(Next::On)
            }
        }
    }

    /// A library function that neither reads nor puts.
    fn serve(&mut self, op: LibOp, to: Option<u32>, args: &[u32]) -> Result<Next, Stop>
        requires heap { (addresses_of self.old.memory.map).heap_end < 2 ^ 63 }
        requires kind { IsInside (TacInstr.Lib op to args.now) }
        ensures { (p : Typed) (kinds : List TacKind) →
            Comes next_of (effect (ops_of self.old.memory) p kinds (TacInstr.Lib op to args.now) (now_of self.old))
            self.old.memory.map result self.new }
    {
        match op {
            LibOp::PutChar | LibOp::GetChar => unreachable!(),
            LibOp::Malloc => self.allocate(to, args),
            LibOp::Exit => Err(Stop::Ended(Ending::Exit((self.first_number(args) % 256) as u8))),
        }
    }

    /// An instruction that gives a temp a value without looking at what a capability is.
    fn give(&mut self, program: Program<'_>, i: &TacInstr) -> Result<Next, Stop>
        requires types { AreTypesOf program.p.now.types program.types.now }
        requires asks { Asks program.p.now self.old.memory.map i.now (now_of self.old) }
        requires kind { IsGiving i.now }
        ensures { (kinds : List TacKind) →
            Comes next_of (effect (ops_of self.old.memory) program.entry.p.now kinds i.now (now_of self.old))
            self.old.memory.map result self.new }
    {
        match i {
            TacInstr::Const {
                to,
                kind: TacKind::Int(_),
                value,
            } => self.take(*to, Ok(Value::Int(*value)), NO_POSITION),
            TacInstr::Const {
                to,
                kind: TacKind::Cap(_),
                value,
            } => self.take(*to, Ok(null_at(*value)), NO_POSITION),
            TacInstr::Copy { to, from } => {
                let v = self.temp(*from);
                self.take(*to, Ok(v), NO_POSITION)
            }
            TacInstr::Load {
                to,
                from,
                kind,
                pos,
            } => {
                let v = self.loaded(*from, *kind);
                self.take(*to, v, *pos)
            }
            TacInstr::Local { to, var } => {
                let v = self.memory.whole(self.object(*var), DATA);
                self.take(*to, Ok(v), NO_POSITION)
            }
            TacInstr::Global {
                to,
                number,
                literal,
            } => {
                let v = self.global(program, *number, *literal);
                self.take(*to, Ok(v), NO_POSITION)
            }
            TacInstr::Function { to, fun } => self.take(*to, Ok(Value::Fun(*fun)), NO_POSITION),
            _ => unreachable!(),
        }
    }

    /// An instruction that computes a value.
    fn compute(
        &mut self,
        program: Program<'_>,
        kinds: &[TacKind],
        i: &TacInstr,
    ) -> Result<Next, Stop>
        requires types { AreTypesOf program.p.now.types program.types.now }
        requires asks { Asks program.p.now self.old.memory.map i.now (now_of self.old) }
        requires kind { IsComputing i.now }
        ensures { Comes next_of (effect (ops_of self.old.memory) program.entry.p.now kinds.now i.now (now_of self.old))
            self.old.memory.map result self.new }
    {
        let m = &self.memory;
        match i {
            TacInstr::Int { op, kind, to, a, b } => {
                let v = whole(
                    m,
                    *op,
                    *kind,
                    kind_at(kinds, *b),
                    self.temp(*a),
                    self.temp(*b),
                );
                self.take(*to, v, NO_POSITION)
            }
            TacInstr::Cmp { op, kind, to, a, b } => {
                let r = compared(m, *op, kind_of(*kind), self.temp(*a), self.temp(*b));
                self.take(*to, truth_of(r), NO_POSITION)
            }
            TacInstr::Convert { to, from, old, new } => {
                let v = converted(m, kind_of(*old), kind_of(*new), self.temp(*from));
                self.take(*to, v, NO_POSITION)
            }
            TacInstr::Cap { op, to, a, b } => {
                let v = m.work(*op, self.temp(*a), self.optional(*b));
                self.take(*to, v, NO_POSITION)
            }
            TacInstr::Offset { to, base, by } => {
                let v = m.offset(self.temp(*base), self.amount(*by));
                self.take(*to, v, NO_POSITION)
            }
            TacInstr::Narrow {
                to,
                base,
                length,
                exact,
            } => {
                let v = m.narrow(self.temp(*base), self.amount(*length), *exact);
                self.take(*to, v, NO_POSITION)
            }
            _ => self.give(program, i),
        }
    }

    /// An instruction that neither reads nor puts.
    pub fn perform(
        &mut self,
        program: Program<'_>,
        kinds: &[TacKind],
        i: &TacInstr,
    ) -> Result<Next, Stop>
        requires types { AreTypesOf program.p.now.types program.types.now }
        requires asks { Asks program.p.now self.old.memory.map i.now (now_of self.old) }
        requires kind { IsInside i.now }
        ensures { Comes next_of (effect (ops_of self.old.memory) program.entry.p.now kinds.now i.now (now_of self.old))
            self.old.memory.map result self.new }
    {
        match i {
            TacInstr::Store {
                at,
                value,
                kind,
                pos,
            } => self.store(*at, *value, *kind, *pos),
            TacInstr::Zero { var } => self.zero(*var),
            TacInstr::CopyUnits {
                from,
                to,
                bytes,
                unit,
                from_pos,
                to_pos,
            } => { self.copy(*from, *to, *bytes, *unit, (*from_pos, *to_pos)) }
            TacInstr::Label(_) => Ok(Next::On),
            TacInstr::Jump(label) => Ok(Next::To(*label)),
            TacInstr::Branch { on, when, label } => self.way(kinds, *on, *when, *label),
            TacInstr::Call { to, fun, args } => self.call(program, *fun, args.as_slice(), *to),
            TacInstr::CallValue {
                to,
                value,
                of,
                args,
                pos,
            } => { self.call_value(program, *value, *of, *pos, args.as_slice(), *to) }
            TacInstr::Lib { op, to, args } => self.serve(*op, *to, args.as_slice()),
            TacInstr::Turn => Ok(Next::Pause),
            TacInstr::Return(v) => Ok(Next::Back(self.optional(*v))),
            _ => self.compute(program, kinds, i),
        }
    }
}
