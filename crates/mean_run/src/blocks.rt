//! Blocks are entered and left (C11 6.2.4p6), and jumps leave them (6.8.6).

ghost use Rattle.std.specs.Prelude.{◌≡◌, map, OnOk};
ghost use Rattle.ck_base.specs.Runs.{Goes};
ghost use Rattle.obj_mem.specs.Values.{value_of};
ghost use Rattle.cheri_c_sem.specs.Order.{Ordered};
ghost use Rattle.cheri_c_sem.specs.Programs.{declared};
ghost use Rattle.cheri_c_sem.specs.Statements.{Breaks, Continues, Returns};
ghost use Rattle.mean_steps.specs.Machine.{jumped};
ghost use Rattle.mean_steps.specs.Parts.{enter, enter_one, leave, leave_one, On};
ghost use Rattle.mean_run.specs.Jumps.{met_of};
ghost use Rattle.mean_run.specs.Views.{funs_of, item_of, moment_of, now_of, vars_at};
ghost use Rattle.mean_run.specs.Parts.{DidAll, Does};
ghost use Rattle.mean_run.specs.Sources.{IsSource};

use crate::locals::is_object;
use crate::state::{Source, State};
use crate::storage::Storage;
use ck_base::NoMemory;
use mean_operations::Operations;
use mean_work::{Stop, Work};
use obj_mem::Value;

/// A block is entered: a variable has no value given, and an object is zero bytes.
pub fn enter_block<B: Operations>(
    state: &mut State,
    m: &mut B,
    s: &Source<'_>,
    f: u32,
    vars: &[u32],
)
    requires { IsSource s.now }
    ensures same { B.meaning m.new ≡ B.meaning m.old }
    ensures did { DidAll (enter (B.meaning m.old) (map (declared s.now.p.now (vars_at s.now.p.now f)) vars.now))
        s.now.p.now state.old state.new (B.held m.old) (B.held m.new) }
{
    'vars: for x in vars {
        enter_one(state, m, s, f, *x);
    }
}

fn enter_one<B: Operations>(state: &mut State, m: &mut B, s: &Source<'_>, f: u32, x: u32)
    requires { IsSource s.now }
    ensures same { B.meaning m.new ≡ B.meaning m.old }
    ensures did { DidAll (enter_one (B.meaning m.old) (declared s.now.p.now (vars_at s.now.p.now f) x)) s.now.p.now
        state.old state.new (B.held m.old) (B.held m.new) }
{
    if is_object(s.p, f, x) {
        m.zero(state.object(s.locals.before(f, x)))
    } else {
        state.set_variable(x, None)
    }
}

/// It is left.
pub fn leave_block<B: Operations>(state: &State, m: &mut B, s: &Source<'_>, f: u32, vars: &[u32])
    requires { IsSource s.now }
    ensures same { B.meaning m.new ≡ B.meaning m.old }
    ensures did { leave (B.meaning m.old) (map (declared s.now.p.now (vars_at s.now.p.now f)) vars.now)
        (now_of state.now (B.held m.old)) ≡ On tt (now_of state.now (B.held m.new)) }
{
    'vars: for x in vars {
        leave_one(state, m, s, f, *x);
    }
}

fn leave_one<B: Operations>(state: &State, m: &mut B, s: &Source<'_>, f: u32, x: u32)
    requires { IsSource s.now }
    ensures same { B.meaning m.new ≡ B.meaning m.old }
    ensures did { leave_one (B.meaning m.old) (declared s.now.p.now (vars_at s.now.p.now f) x)
        (now_of state.now (B.held m.old)) ≡ On tt (now_of state.now (B.held m.new)) }
{
    if is_object(s.p, f, x) {
        m.leave(state.object(s.locals.before(f, x)))
    }
}

/// What a jump meets in the work that is left.
#[derive(Clone, Copy)]
pub enum Met {
    /// A block, a `for` or a `switch`, which ends.
    Block(u32, u32),
    /// The end of a loop's body.
    Loop,
    /// The end of a `switch`.
    Switch,
    /// The end of a function; whether its call is the first one.
    Function(u32, bool),
    /// What is passed over.
    Other,
}

fn met_at(work: Work) -> Met
    ensures { result ≡ met_of work }
{
    match work {
        Work::Leave(f, k) => Met::Block(f, k),
        Work::Again(_, _) => Met::Loop,
        Work::SwitchEnd => Met::Switch,
        Work::Return(g, first) => Met::Function(g, first),
        Work::Value(_, _)
        | Work::Place(_, _)
        | Work::One
        | Work::Drop
        | Work::Finish(_, _)
        | Work::FinishPlace(_, _)
        | Work::Choose(_, _)
        | Work::ChoosePlace(_, _)
        | Work::Decide(_, _)
        | Work::Begin(_)
        | Work::Statement(_, _)
        | Work::Nothing
        | Work::Rest(_, _, _)
        | Work::Initialize(_, _)
        | Work::Branch(_, _)
        | Work::Test(_, _)
        | Work::Tested(_, _)
        | Work::Turn(_, _)
        | Work::Switch(_, _)
        | Work::Give => Met::Other,
    }
}

impl State {
    /// The work up to what takes a `break` goes; the blocks that are left by it end on the way.
    pub fn break_out<B: Operations>(&mut self, m: &mut B, s: &Source<'_>) -> Result<(), NoMemory>
        requires { IsSource s.now }
        ensures same { B.meaning m.new ≡ B.meaning m.old }
        ensures goes { Ordered s.now.p.now → OnOk result (jumped (B.meaning m.old) (funs_of s.now.p.now) Breaks
            (map (item_of s.now.p.now) self.old.work) (moment_of s.now.p.now self.old (B.held m.old))
            ≡ Goes (moment_of s.now.p.now self.new (B.held m.new))) }
    {
        'jump: while let Some(work) = self.work.pop() {
            match met_at(work) {
                Met::Block(f, k) => self.leave(m, s, f, k),
                Met::Loop => return Ok(()),
                Met::Switch => return Ok(()),
                Met::Function(_, _) => return self.push(work),
                Met::Other => {}
            }
        }
        Ok(())
    }

    /// The work up to what takes a `continue` goes.
    pub fn go_on<B: Operations>(&mut self, m: &mut B, s: &Source<'_>) -> Result<(), NoMemory>
        requires { IsSource s.now }
        ensures same { B.meaning m.new ≡ B.meaning m.old }
        ensures goes { Ordered s.now.p.now → OnOk result (jumped (B.meaning m.old) (funs_of s.now.p.now) Continues
            (map (item_of s.now.p.now) self.old.work) (moment_of s.now.p.now self.old (B.held m.old))
            ≡ Goes (moment_of s.now.p.now self.new (B.held m.new))) }
    {
        'jump: while let Some(work) = self.work.pop() {
            match met_at(work) {
                Met::Block(f, k) => self.leave(m, s, f, k),
                Met::Loop => return self.push(work),
                Met::Function(_, _) => return self.push(work),
                Met::Switch => {}
                Met::Other => {}
            }
        }
        Ok(())
    }

    /// The work up to the end of the current call goes, which gives a value.
    pub fn give_back<B: Storage>(&mut self, m: &mut B, s: &Source<'_>, v: Value) -> Result<(), Stop>
        requires { IsSource s.now }
        ensures same { B.meaning m.new ≡ B.meaning m.old }
        ensures does { Ordered s.now.p.now → Does (jumped (B.meaning m.old) (funs_of s.now.p.now) (Returns (value_of v))
            (map (item_of s.now.p.now) self.old.work) (moment_of s.now.p.now self.old (B.held m.old)))
            (moment_of s.now.p.now self.new (B.held m.new)) result }
    {
        'jump: while let Some(work) = self.work.pop() {
            match met_at(work) {
                Met::Block(f, k) => self.leave(m, s, f, k),
                Met::Function(g, first) => return self.close(m, s, g, first, v),
                Met::Loop => {}
                Met::Switch => {}
                Met::Other => {}
            }
        }
        Ok(())
    }
}
