//! Library functions (C11 7.21.7, 7.22) and the intrinsics on capabilities (CHERI C/C++ Programming Guide,
//! UCAM-CL-TR-947, 7.3).

ghost use Rattle.std.specs.Prelude.{◌≡◌, ◌≤◌, ◌%◌, ℕ, [], Ok, Option, List, map};
ghost use Rattle.ck_base.specs.Calls.{seen};
ghost use Rattle.ck_base.specs.Runs.{Puts, Reads};
ghost use Rattle.c_tree.specs.declared.typed.Typed.{Typed};
ghost use Rattle.obj_mem.specs.Values.{Int, value_of};
ghost use Rattle.obj_mem.specs.Values as values;
ghost use Rattle.cheri_c_sem.specs.Meaning.{first_of, second_of};
ghost use Rattle.cheri_c_sem.specs.Modes.{Store};
ghost use Rattle.cheri_c_sem.specs.Operations.{Operations, on_ok};
ghost use Rattle.cheri_c_sem.specs.Steps.{byte_or_end};
ghost use Rattle.cheri_c_sem.specs.Types.{service_of};
ghost use Rattle.mean_operations.specs.Answers.{number_seen, seen as value_seen};
ghost use Rattle.mean_steps.specs.Machine.{Moment, beyond, serve, turned, with_value};
ghost use Rattle.mean_steps.specs.Parts.{allocate};
ghost use Rattle.mean_bases.specs.Bases.{HasBase, HaveBases};
ghost use Rattle.mean_run.specs.Acts.{Stepped};
ghost use Rattle.mean_run.specs.Parts.{Does, given_in};
ghost use Rattle.mean_run.specs.Services.{asked_of};
ghost use Rattle.mean_run.specs.Views.{funs_of, moment_of, now_of};

use crate::state::State;
use crate::storage::{AllocateFault, Storage};
use ck_base::{Pos, Sink, Source};
use mean_operations::Work;
use mean_types::{NOTHING, number_of};
use mean_work::{Stop, fault_end};
use obj_mem::{Ending, Fault, Value};

/// A number that is answered, as a value.
fn number(answer: Result<u64, Fault>) -> Result<Value, Fault>
    ensures { value_seen result ≡ number_seen answer }
{
    match answer {
        Err(f) => Err(f),
        Ok(n) => Ok(Value::Int(n)),
    }
}

/// What an intrinsic on capabilities gives, by its number.
fn intrinsic<B: Storage>(m: &B, n: u8, v: Value, x: Value) -> Result<Value, Fault>
    requires base { HasBase (B.meaning m.now) (B.held m.now) (value_of v) }
    requires from { 4 ≤ n }
    requires to { n ≤ 17 }
    ensures { value_seen result ≡ asked_of (B.meaning m.now) (B.held m.now) (service_of n) (value_of v) (value_of x) }
{
    match n {
        4 => number(m.address(v)),
        5 => number(m.base(v)),
        6 => m.work(Work::Offset, v, x),
        7 => m.work(Work::Length, v, x),
        8 => m.work(Work::Tag, v, x),
        9 => m.work(Work::Permissions, v, x),
        10 => m.work(Work::SetAddress, v, x),
        11 => m.work(Work::Clear, v, x),
        12 => m.narrow(v, number_of(x), false),
        13 => m.narrow(v, number_of(x), true),
        14 => m.work(Work::AndPermissions, v, x),
        15 => m.work(Work::EqualExact, v, x),
        16 => m.work(Work::Rounded, v, x),
        17 => m.work(Work::Mask, v, x),
        _ => unreachable!(),
    }
}

impl State {
    /// So many values on top go, as far as there are such; the first and the second of them.
    fn take_arguments(&mut self, count: usize) -> (Value, Value)
        ensures first { value_of result.0 ≡ first_of (turned count (map value_of self.old.values) []) }
        ensures second { value_of result.1 ≡ second_of (turned count (map value_of self.old.values) []) }
        ensures state { (p : Typed) (held : Store) → moment_of p self.new held
            ≡ record (moment_of p self.old held) { values = beyond count (map value_of self.old.values) } }
    {
        let mut first = Value::Int(0);
        let mut second = Value::Int(0);
        'values: for _ in 0..count {
            match self.values.pop() {
                None => return (first, second),
                Some(v) => {
                    second = first;
                    first = v;
                }
            }
        }
        (first, second)
    }

    /// Library function or intrinsic n, with so many arguments on top.
    pub fn serve<B: Storage, I: Source, O: Sink>(
        &mut self,
        m: &mut B,
        n: u8,
        count: usize,
        pos: Pos,
        input: &mut I,
        out: &mut O,
    ) -> Result<(), Stop>
        requires bases { HaveBases (B.meaning m.old) (B.held m.old) (map value_of self.old.values) }
        ensures same { B.meaning m.new ≡ B.meaning m.old }
        ensures does { (p : Typed) (before : Moment Store) → Stepped (serve (B.meaning m.old) (funs_of p) pos
            (service_of n)
            (turned count (map value_of self.old.values) []) (record (moment_of p self.old (B.held m.old))
            { values = beyond count (map value_of self.old.values) }))
            (seen (I.left input.old) (I.faults input.old) (O.held out.old) (O.faults out.old))
            (seen (I.left input.new) (I.faults input.new) (O.held out.new) (O.faults out.new))
            before (moment_of p self.new (B.held m.new)) result }
    {
        let (first, second) = self.take_arguments(count);
        match n {
            0 => self.put_char((number_of(first) % 256) as u8, out),
            1 => self.get_char(input),
            2 => self.allocate(m, number_of(first), pos),
            4..=17 => self.give_answer(intrinsic(m, n, first, second), pos),
            _ => Err(Stop::Ended(Ending::Exit((number_of(first) % 256) as u8))),
        }
    }

    fn put_char<O: Sink>(&mut self, byte: u8, out: &mut O) -> Result<(), Stop>
        ensures { (p : Typed) (held : Store) (left : Option (List ℕ)) (faults : ℕ) (m : Moment Store) →
            Stepped (Puts byte (with_value (Int byte) (moment_of p self.old held)))
            (seen left faults (O.held out.old) (O.faults out.old))
            (seen left faults (O.held out.new) (O.faults out.new)) m (moment_of p self.new held) result }
    {
        // Want of memory shows before the byte is put.
        self.give(Value::Int(u64::from(byte)))?;
        match out.put(&[byte]) {
            Ok(()) => Ok(()),
            Err(_) => Err(Stop::Ended(Ending::WriteFault)),
        }
    }

    fn get_char<I: Source>(&mut self, input: &mut I) -> Result<(), Stop>
        ensures { (p : Typed) (held : Store) (sink : Option (List ℕ)) (faults : ℕ) (m : Moment Store) →
            Stepped (Reads (λ b. with_value (byte_or_end b) (moment_of p self.old held)))
            (seen (I.left input.old) (I.faults input.old) sink faults)
            (seen (I.left input.new) (I.faults input.new) sink faults) m (moment_of p self.new held) result }
    {
        // Want of memory shows before a byte is read.
        self.give(NOTHING)?;
        match input.next() {
            Ok(byte) => {
                self.values.replace(byte_value(byte));
                Ok(())
            }
            Err(_) => Err(Stop::Ended(Ending::ReadFault)),
        }
    }

    fn allocate<B: Storage>(&mut self, m: &mut B, n: u64, pos: Pos) -> Result<(), Stop>
        ensures same { B.meaning m.new ≡ B.meaning m.old }
        ensures does { (p : Typed) → Does (given_in (allocate (B.meaning m.old) pos n (now_of self.old (B.held m.old)))
            (moment_of p self.old (B.held m.old))) (moment_of p self.new (B.held m.new)) result }
    {
        match m.allocate(n) {
            Ok(v) => self.give_value(v),
            Err(AllocateFault::Fault(f)) => Err(Stop::Ended(fault_end(f, pos))),
            Err(AllocateFault::NoMemory) => Err(Stop::NoMemory),
        }
    }
}

/// A byte that was read, or -1 at the end.
fn byte_value(byte: Option<u8>) -> Value
    ensures { value_of result ≡ byte_or_end byte }
{
    match byte {
        None => Value::Int(u64::MAX),
        Some(b) => Value::Int(u64::from(b)),
    }
}
