//! The state of a run between two of its steps, apart from memory.
ghost use Rattle.std.specs.Prelude.{◌≡◌, ◌<◌, ◌^◌, ◌+◌, ◌∷◌, [], OnOk, IfOk, map, option_map, slice_set};
ghost use Rattle.obj_mem.specs.Values.{value_of};
ghost use Rattle.cheri_c_sem.specs.Meaning.{first_of};
ghost use Rattle.cheri_c_sem.specs.Modes.{Store};
ghost use Rattle.mean_steps.specs.Machine.{first_place, behind};
ghost use Rattle.mean_steps.specs.Parts.{turn};
ghost use Rattle.mean_run.specs.Parts.{Becomes, Did};
ghost use Rattle.mean_work.specs.Places.{place_of};
ghost use Rattle.c_tree.specs.declared.typed.Typed.{Typed};

use crate::call::Call;
use crate::locals::Locals;
use crate::offsets::Offsets;
use c_tree::Typed;
use ck_base::NoMemory;
use mean_types::{NOTHING, Types};
use mean_work::{NOWHERE, Place, Stack, Stop, Work, both, then, turn};
use obj_mem::Value;
use std::alloc::Global;

/// A program, with what is known of its types and variables.
#[derive(Clone, Copy)]
pub struct Source<'a> {
    pub alloc: Global,
    pub p: &'a Typed,
    pub types: &'a Types,
    pub offsets: &'a Offsets,
    pub locals: &'a Locals,
}

/// The work that is left, the values and places that stand ready for it, the callers, and the current call; and the
/// turns that are left.
#[derive(Drop)]
pub struct State {
    pub work: Stack<Work>,
    pub values: Stack<Value>,
    pub places: Stack<Place>,
    pub callers: Stack<Call>,
    pub call: Call,
    pub left: u64,
}

impl State {
    /// Before the first call, of function `main`, with the stack's top and so many turns.
    pub fn new(alloc: Global, main: u32, frame: u64, turns: u64) -> Result<State, NoMemory>
        ensures work { IfOk result (λ s. s.work ≡ Work.Begin main ∷ []) }
        ensures values { IfOk result (λ s. s.values ≡ []) }
        ensures places { IfOk result (λ s. s.places ≡ []) }
        ensures callers { IfOk result (λ s. s.callers ≡ []) }
        ensures variables { IfOk result (λ s. s.call.variables.items ≡ []) }
        ensures first { IfOk result (λ s. s.call.first ≡ 0) }
        ensures frame { IfOk result (λ s. s.call.frame ≡ frame) }
        ensures left { IfOk result (λ s. s.left ≡ turns) }
    {
        let mut work = Stack::new(alloc);
        work.push(Work::Begin(main))?;
        Ok(State {
            work,
            values: Stack::new(alloc),
            places: Stack::new(alloc),
            callers: Stack::new(alloc),
            call: Call {
                variables: Vec::new(alloc),
                first: 0,
                frame,
            },
            left: turns,
        })
    }

    pub fn push(&mut self, work: Work) -> Result<(), NoMemory>
        ensures { OnOk result (self.new ≡ record self.old { work = work ∷ self.old.work }) }
    {
        self.work.push(work)
    }

    pub fn then(&mut self, first: Work, next: Work) -> Result<(), NoMemory>
        ensures { OnOk result (self.new ≡ record self.old { work = first ∷ next ∷ self.old.work }) }
    {
        then(&mut self.work, first, next)
    }

    pub fn both(&mut self, first: Work, second: Work, next: Work) -> Result<(), NoMemory>
        ensures { OnOk result (self.new ≡ record self.old { work = first ∷ second ∷ next ∷ self.old.work }) }
    {
        both(&mut self.work, first, second, next)
    }

    pub fn give(&mut self, v: Value) -> Result<(), NoMemory>
        ensures { OnOk result (self.new ≡ record self.old { values = v ∷ self.old.values }) }
    {
        self.values.push(v)
    }

    pub fn designate(&mut self, place: Place) -> Result<(), NoMemory>
        ensures { OnOk result (self.new ≡ record self.old { places = place ∷ self.old.places }) }
    {
        self.places.push(place)
    }

    /// The value on top goes.
    pub fn take(&mut self) -> Value
        ensures value { value_of result ≡ first_of (map value_of self.old.values) }
        ensures state { self.new ≡ record self.old { values = behind self.old.values } }
    {
        match self.values.pop() {
            None => NOTHING,
            Some(v) => v,
        }
    }

    /// The place on top goes.
    pub fn take_place(&mut self) -> Place
        ensures place { place_of result ≡ first_place (map place_of self.old.places) }
        ensures state { self.new ≡ record self.old { places = behind self.old.places } }
    {
        match self.places.pop() {
            None => NOWHERE,
            Some(place) => place,
        }
    }

    /// Uses one turn.
    pub fn turn(&mut self) -> Result<(), Stop>
        ensures { (p : Typed) (held : Store) → Did turn (λ u. u) p self.old self.new held held result }
    {
        turn(&mut self.left)
    }

    /// A variable of the current call gets a value, or has none.
    #[tactic(auto, using(crate::proofs::Tops::map_set))]
    pub fn set_variable(&mut self, x: u32, v: Option<Value>)
        ensures { Becomes self.old self.new (λ p m.
            record m { now = record m.now { vars = slice_set m.now.vars x (option_map value_of v) } }) }
    {
        let at = x as usize;
        if at < self.call.variables.len() {
            self.call.variables[at] = v;
        }
    }

    /// The number of an object of the current call.
    pub fn object(&self, n: u64) -> u64
        ensures { n < 2 ^ 63 → result ≡ self.now.call.first + n }
    {
        self.call.first.wrapping_add(n)
    }
}
