//! A step of a run, and whole runs.

ghost use Rattle.std.specs.Prelude.{◌≡◌, ◌∷◌, ◌<◌, ◌-◌, ◌^◌, IfOk, OnErr, [], false, map};
ghost use Rattle.ck_base.specs.Calls.{seen, IsRun, Counted};
ghost use Rattle.stopped_runs.specs.Stopping.{StoppedShort};
ghost use Rattle.c_tree.specs.declared.typed.Typed.{Typed};
ghost use Rattle.obj_mem.specs.Values.{value_of};
ghost use Rattle.cheri_c_sem.specs.Calls.{meant};
ghost use Rattle.cheri_c_sem.specs.Expressions.{expr_tree};
ghost use Rattle.cheri_c_sem.specs.Modes.{Store};
ghost use Rattle.cheri_c_sem.specs.Operations.{Operations};
ghost use Rattle.cheri_c_sem.specs.Order.{Ordered};
ghost use Rattle.cheri_c_sem.specs.Programs.{program_tree, stmt_tree};
ghost use Rattle.mean_steps.specs.Machine as machine;
ghost use Rattle.mean_steps.specs.Machine.{Moment, act, act_on, at_test, designate, evaluate, execs_behind};
ghost use Rattle.mean_steps.specs.Machine.{finish_item, first_moment, limits, proceed};
ghost use Rattle.mean_bases.specs.Bases.{HaveBases};
ghost use Rattle.mean_bases.specs.Moments.{IsReached};
ghost use Rattle.mean_run.specs.Acts.{Stepped};
ghost use Rattle.mean_run.specs.Views.{funs_of, item_of, loop_of, moment_of, parts_of, vars_at};
ghost use Rattle.mean_run.specs.Parts.{Does, Unless_wanting};
ghost use Rattle.mean_run.specs.Sizes.{IsSizedBy};
ghost use Rattle.mean_run.specs.Sources.{IsFit, IsNode, IsSource};
ghost use Rattle.mean_run.specs.Steps.{IsPeeled};

use crate::state::{Source, State};
use crate::storage::Storage;
use c_tree::{Expr, ExprKind, Typed as Program};
use ck_base::{NoMemory, Sink, Source as Input};
use mean_operations::Operations as Memory;
use mean_types::number_of;
use mean_work::{Stop, Work};
use obj_mem::{Ending, Value};

impl State {
    /// The operation of expression k gives its value.
    fn finish<B: Storage, I: Input, O: Sink>(
        &mut self,
        m: &mut B,
        s: &Source<'_>,
        f: u32,
        k: u32,
        input: &mut I,
        out: &mut O,
    ) -> Result<(), Stop>
        requires source { IsSource s.now }
        requires bases { HaveBases (B.meaning m.old) (B.held m.old) (map value_of self.old.values) }
        ensures same { B.meaning m.new ≡ B.meaning m.old }
        ensures does { IsFit s.now.p.now → (before : Moment Store) → Stepped (finish_item (B.meaning m.old)
            (funs_of s.now.p.now) (expr_tree s.now.p.now (vars_at s.now.p.now f) k)
            (moment_of s.now.p.now self.old (B.held m.old)))
            (seen (I.left input.old) (I.faults input.old) (O.held out.old) (O.faults out.old))
            (seen (I.left input.new) (I.faults input.new) (O.held out.new) (O.faults out.new)) before
            (moment_of s.now.p.now self.new (B.held m.new)) result }
    {
        match s.p.exprs.as_slice().get(k as usize) {
            None => self.give_nothing(),
            Some(e) => self.finish_at(m, s, f, k, e, input, out),
        }
    }

    fn finish_at<B: Storage, I: Input, O: Sink>(
        &mut self,
        m: &mut B,
        s: &Source<'_>,
        f: u32,
        k: u32,
        e: &Expr,
        input: &mut I,
        out: &mut O,
    ) -> Result<(), Stop>
        requires source { IsSource s.now }
        requires bases { HaveBases (B.meaning m.old) (B.held m.old) (map value_of self.old.values) }
        ensures same { B.meaning m.new ≡ B.meaning m.old }
        ensures does { IsFit s.now.p.now → IsNode s.now.p.now k e.now →
            IsPeeled s.now.p.now (vars_at s.now.p.now f) e.now → IsSizedBy s.now.p.now e.now.of e.now.kind →
            (before : Moment Store) → Stepped (finish_item
            (B.meaning m.old) (funs_of s.now.p.now) (expr_tree s.now.p.now (vars_at s.now.p.now f) k)
            (moment_of s.now.p.now self.old (B.held m.old)))
            (seen (I.left input.old) (I.faults input.old) (O.held out.old) (O.faults out.old))
            (seen (I.left input.new) (I.faults input.new) (O.held out.new) (O.faults out.new)) before
            (moment_of s.now.p.now self.new (B.held m.new)) result }
    {
        match &e.kind {
            ExprKind::Call(g, args) => self.call(m, s, *g, args.as_slice().len(), e.pos),
            ExprKind::Library(n, args) => self.serve(
                m,
                *n,
                args.as_slice().len(),
                e.pos,
                input,
                out,
            ),
            _ => self.finish_of(m, s, f, k, e),
        }
    }

    /// One part of the work.
    fn act<B: Storage, I: Input, O: Sink>(
        &mut self,
        m: &mut B,
        s: &Source<'_>,
        work: Work,
        input: &mut I,
        out: &mut O,
    ) -> Result<(), Stop>
        requires source { IsSource s.now }
        requires bases { HaveBases (B.meaning m.old) (B.held m.old) (map value_of self.old.values) }
        ensures same { B.meaning m.new ≡ B.meaning m.old }
        ensures does { IsFit s.now.p.now → (before : Moment Store) → Stepped (act_on (B.meaning m.old)
            (funs_of s.now.p.now) (item_of s.now.p.now work) (moment_of s.now.p.now self.old (B.held m.old)))
            (seen (I.left input.old) (I.faults input.old) (O.held out.old) (O.faults out.old))
            (seen (I.left input.new) (I.faults input.new) (O.held out.new) (O.faults out.new)) before
            (moment_of s.now.p.now self.new (B.held m.new)) result }
    {
        match work {
            Work::Value(f, k) => self.evaluate(s, f, k),
            Work::Place(f, k) => self.designate_at(m, s, f, k),
            Work::One => self.give_value(Value::Int(1)),
            Work::Drop => self.drop_value(),
            Work::Finish(f, k) => self.finish(m, s, f, k, input, out),
            Work::FinishPlace(f, k) => self.finish_place(m, s, f, k),
            Work::Choose(f, k) => self.choose(m, s, f, k),
            Work::ChoosePlace(f, k) => self.choose_place(m, s, f, k),
            Work::Decide(f, k) => self.decide(m, s, f, k),
            Work::Begin(g) => self.begin(m, s, g),
            Work::Return(g, first) => self.reach_end(m, s, g, first),
            Work::Statement(f, k) => self.statement(m, s, f, k),
            Work::Rest(f, k, n) => self.proceed(s.p, f, k, n),
            Work::Initialize(f, k) => self.initialize(m, s, f, k),
            Work::Branch(f, k) => self.branch(m, s, f, k),
            Work::Test(f, k) => self.to_be_tested(s.p, f, k),
            Work::Tested(f, k) => self.tested(m, s, f, k),
            Work::Again(f, k) => self.again(s.p, f, k),
            Work::Turn(f, k) => self.turned(f, k),
            Work::Switch(f, k) => self.switch(m, s, f, k),
            Work::Leave(f, k) => self.leave_now(m, s, f, k),
            Work::Give => self.give_top(m, s),
            Work::Nothing => Ok(()),
            Work::SwitchEnd => Ok(()),
        }
    }

    fn evaluate(&mut self, s: &Source<'_>, f: u32, k: u32) -> Result<(), Stop>
        requires { IsSource s.now }
        ensures { IsFit s.now.p.now → (ops : Operations Store) (held : Store) → Does (evaluate ops (funs_of s.now.p.now)
            (expr_tree s.now.p.now (vars_at s.now.p.now f) k) (moment_of s.now.p.now self.old held))
            (moment_of s.now.p.now self.new held) result }
    {
        Ok(self.value(s, f, k)?)
    }

    fn designate_at<B: Memory>(&mut self, m: &B, s: &Source<'_>, f: u32, k: u32) -> Result<(), Stop>
        requires { IsSource s.now }
        ensures { IsFit s.now.p.now → Does (designate (B.meaning m.now) (funs_of s.now.p.now)
            (expr_tree s.now.p.now (vars_at s.now.p.now f) k) (moment_of s.now.p.now self.old (B.held m.now)))
            (moment_of s.now.p.now self.new (B.held m.now)) result }
    {
        Ok(self.place(m, s, f, k)?)
    }

    fn proceed(&mut self, p: &Program, f: u32, k: u32, n: usize) -> Result<(), Stop>
        ensures { Ordered p.now → (ops : Operations Store) (held : Store) → Does (proceed ops (funs_of p.now)
            (execs_behind (parts_of (stmt_tree p.now (vars_at p.now f) k)) n) (moment_of p.now self.old held))
            (moment_of p.now self.new held) result }
    {
        Ok(self.rest(p, f, k, n)?)
    }

    fn to_be_tested(&mut self, p: &Program, f: u32, k: u32) -> Result<(), Stop>
        ensures { Ordered p.now → (ops : Operations Store) (held : Store) → Does (at_test ops (funs_of p.now)
            (loop_of (stmt_tree p.now (vars_at p.now f) k)) (moment_of p.now self.old held))
            (moment_of p.now self.new held) result }
    {
        Ok(self.test(p, f, k)?)
    }

    fn drop_value(&mut self) -> Result<(), Stop>
        ensures { (p : Typed) (ops : Operations Store) (held : Store) → Does (act_on ops (funs_of p) machine.Drop
            (moment_of p self.old held)) (moment_of p self.new held) result }
    {
        self.take();
        Ok(())
    }

    fn leave_now<B: Storage>(&self, m: &mut B, s: &Source<'_>, f: u32, k: u32) -> Result<(), Stop>
        requires { IsSource s.now }
        ensures same { B.meaning m.new ≡ B.meaning m.old }
        ensures does { Ordered s.now.p.now → Does (act_on (B.meaning m.old) (funs_of s.now.p.now)
            (item_of s.now.p.now (Work.Leave f k)) (moment_of s.now.p.now self.now (B.held m.old)))
            (moment_of s.now.p.now self.now (B.held m.new)) result }
    {
        self.leave(m, s, f, k);
        Ok(())
    }

    fn give_top<B: Storage>(&mut self, m: &mut B, s: &Source<'_>) -> Result<(), Stop>
        requires { IsSource s.now }
        ensures same { B.meaning m.new ≡ B.meaning m.old }
        ensures does { Ordered s.now.p.now → Does (act_on (B.meaning m.old) (funs_of s.now.p.now) machine.Give_back
            (moment_of s.now.p.now self.old (B.held m.old))) (moment_of s.now.p.now self.new (B.held m.new)) result }
    {
        let v = self.take();
        self.give_back(m, s, v)
    }

    /// What a state does next: one part of the work.
    pub fn step<B: Storage, I: Input, O: Sink>(
        &mut self,
        m: &mut B,
        s: &Source<'_>,
        input: &mut I,
        out: &mut O,
    ) -> Result<(), Stop>
        requires source { IsSource s.now }
        requires bases { HaveBases (B.meaning m.old) (B.held m.old) (map value_of self.old.values) }
        ensures same { B.meaning m.new ≡ B.meaning m.old }
        ensures does { IsFit s.now.p.now → Stepped (act (B.meaning m.old) (funs_of s.now.p.now)
            (moment_of s.now.p.now self.old (B.held m.old)))
            (seen (I.left input.old) (I.faults input.old) (O.held out.old) (O.faults out.old))
            (seen (I.left input.new) (I.faults input.new) (O.held out.new) (O.faults out.new))
            (moment_of s.now.p.now self.old (B.held m.old)) (moment_of s.now.p.now self.new (B.held m.new)) result }
    {
        match self.work.pop() {
            None => self.over(),
            Some(work) => self.act(m, s, work, input, out),
        }
    }

    /// No work is left.
    fn over(&mut self) -> Result<(), Stop>
        ensures { (p : Typed) (ops : Operations Store) (held : Store) (new : Moment Store) → Does (machine.act_of ops
            (funs_of p) [] (moment_of p self.old held)) new result }
    {
        let v = self.take();
        Err(Stop::Ended(Ending::Exit((number_of(v) % 256) as u8)))
    }

    /// Runs from the first moment to the end, or to want of memory. At each moment that the run comes to, the bases of
    /// the values that stand ready are numbers of 64 bits.
    pub fn run<B: Storage, I: Input, O: Sink>(
        &mut self,
        m: &mut B,
        s: &Source<'_>,
        input: &mut I,
        out: &mut O,
    ) -> Result<Ending, NoMemory>
        requires source { IsSource s.now }
        requires fit { IsFit s.now.p.now }
        requires first { moment_of s.now.p.now self.old (B.held m.old)
            ≡ first_moment (B.meaning m.old) (program_tree s.now.p.now) self.old.left }
        requires bases { (t : Moment Store) → IsReached (act (B.meaning m.old) (funs_of s.now.p.now))
            (first_moment (B.meaning m.old) (program_tree s.now.p.now) self.old.left) t →
            HaveBases (B.meaning m.old) t.now.mem t.values }
        requires source_room { I.faults input.old < 2 ^ 64 - 1 }
        requires sink_room { O.faults out.old < 2 ^ 64 - 1 }
        ensures run { IfOk result (λ e. IsRun (λ w. meant (B.meaning m.old) (program_tree s.now.p.now) w self.old.left)
            (seen (I.left input.old) (I.faults input.old) (O.held out.old) (O.faults out.old))
            (seen (I.left input.new) (I.faults input.new) (O.held out.new) (O.faults out.new)) e) }
        ensures counted { IfOk result (λ e. Counted limits
            (seen (I.left input.old) (I.faults input.old) (O.held out.old) (O.faults out.old))
            (seen (I.left input.new) (I.faults input.new) (O.held out.new) (O.faults out.new)) e) }
        ensures short { OnErr result (StoppedShort
            (λ w. meant (B.meaning m.old) (program_tree s.now.p.now) w self.old.left)
            (seen (I.left input.old) (I.faults input.old) (O.held out.old) (O.faults out.old))
            (seen (I.left input.new) (I.faults input.new) (O.held out.new) (O.faults out.new))) }
    {
        'acts: loop {
            match self.step(m, s, input, out) {
                Ok(()) => {}
                Err(Stop::Ended(ending)) => return Ok(ending),
                Err(Stop::NoMemory) => return Err(NoMemory),
            }
        }
    }
}
