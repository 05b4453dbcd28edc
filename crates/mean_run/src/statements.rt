//! Statements (C11 6.8).
ghost use Rattle.std.specs.Prelude.{◌<◌};
ghost use Rattle.std.specs.Prelude.{◌≡◌, ◌∷◌, map, OnOk, option_map, slice_get, if◌then◌else◌};
ghost use Rattle.ck_base.specs.Runs.{Goes};
ghost use Rattle.c_tree.specs.declared.typed.Typed.{Typed};
ghost use Rattle.obj_mem.specs.Values.{value_of};
ghost use Rattle.cheri_c_sem.specs.Kinds as sem;
ghost use Rattle.cheri_c_sem.specs.Meaning.{first_of};
ghost use Rattle.cheri_c_sem.specs.Modes.{Store};
ghost use Rattle.cheri_c_sem.specs.Operations.{Operations};
ghost use Rattle.cheri_c_sem.specs.Order.{Ordered};
ghost use Rattle.cheri_c_sem.specs.Programs.{stmt_tree};
ghost use Rattle.cheri_c_sem.specs.Statements.{Breaks, Continues, default_of};
ghost use Rattle.cheri_c_sem.specs.Tree.{Ex};
ghost use Rattle.mean_types.specs.Views.{kind_of};
ghost use Rattle.mean_steps.specs.Machine.{choose_label, execute, jumped};
ghost use Rattle.mean_steps.specs.Machine.{again, behind, branch, tested, turned_to, execs_behind, Behind};
ghost use Rattle.mean_steps.specs.Parts.{Now, find_label, leave, test, On};
ghost use Rattle.mean_run.specs.Labels.{IsAt, labels_of, at_label};
ghost use Rattle.mean_run.specs.Done.{DoneBy, SwitchedBy};
ghost use Rattle.mean_run.specs.Begun.{Executed, declared_in, next_one, parts_in, tests};
ghost use Rattle.mean_run.specs.Branches.{AgainBy, Branched, BranchedBy, ForAgain, ForTested, TestAgain, TestedBy};
ghost use Rattle.mean_run.specs.Branches.{other_branch};
ghost use Rattle.mean_run.specs.Parts.{Does, Gives, Unless_wanting};
ghost use Rattle.mean_run.specs.Views.{declared_of, now_of, moment_of, funs_of, item_of, vars_at, loop_of, parts_of};
ghost use Rattle.mean_run.specs.Steps.{Proceeds, ComesToTest};
ghost use Rattle.mean_run.specs.Sources.{IsSource};

use crate::blocks::{enter_block, leave_block};
use crate::branches::Next;
use crate::choices::kind_at;
use crate::state::{Source, State};
use crate::storage::Storage;
use c_tree::{Stmt, StmtKind, SwitchLabel, Typed};
use ck_base::{NoMemory, Pos};
use ck_int::CmpOp;
use mean_operations::{Operations, compared, is_true};
use mean_types::{Kind, NOTHING, constant_of};
use mean_work::{Stop, Work, fault_end};
use obj_mem::Value;

/// Where the statements of a number stand in a program.
pub fn statement_at(p: &Typed, k: u32) -> Option<&Stmt>
    ensures { option_map (λ a. a.now) result ≡ slice_get p.now.stmts k }
{
    p.stmts.as_slice().get(k as usize)
}

/// Where a `switch` goes on: at the first label with the value, and else at `default`.
fn find_label<B: Operations>(
    m: &B,
    pos: Pos,
    kind: Kind,
    v: Value,
    labels: &[SwitchLabel],
) -> Result<Option<u32>, Stop>
    ensures { (n : Now Store) → n.mem ≡ B.held m.now → Gives (find_label (B.meaning m.now) pos (kind_of kind)
        (value_of v) (labels_of labels.now) (default_of (labels_of labels.now)) n) (λ o. o) n result }
{
    'labels: for l in labels {
        match is_at(m, pos, kind, v, l) {
            Err(stop) => return Err(stop),
            Ok(true) => return Ok(Some(l.before)),
            Ok(false) => {}
        }
    }
    Ok(default_of(labels))
}

/// Whether a label has the value.
fn is_at<B: Operations>(
    m: &B,
    pos: Pos,
    kind: Kind,
    v: Value,
    l: &SwitchLabel,
) -> Result<bool, Stop>
    ensures { IsAt (B.meaning m.now) pos (kind_of kind) (value_of v) (B.held m.now) l.now.value result }
{
    match l.value {
        None => Ok(false),
        Some(c) => match compared(m, CmpOp::Eq, kind, v, constant_of(kind, c)) {
            Err(f) => Err(Stop::Ended(fault_end(f, pos))),
            Ok(holds) => Ok(holds),
        },
    }
}

/// Where the `default` label stands, if there is one.
fn default_of(labels: &[SwitchLabel]) -> Option<u32>
    ensures { result ≡ default_of (labels_of labels.now) }
{
    'labels: for l in labels {
        if l.value.is_none() {
            return Some(l.before);
        }
    }
    None
}

/// The other branch of an `if`, or nothing.
fn other_branch(f: u32, no: Option<u32>) -> Work
    ensures { result ≡ other_branch f no }
{
    match no {
        None => Work::Nothing,
        Some(b) => Work::Statement(f, b),
    }
}

/// The variables whose scope is a block, a `for` or a `switch`.
fn declared_in(a: &Stmt) -> &[u32]
    ensures { result.now ≡ declared_in a.now.kind }
{
    match &a.kind {
        StmtKind::Block { vars, .. } => vars.as_slice(),
        StmtKind::For { vars, .. } => vars.as_slice(),
        StmtKind::Switch { vars, .. } => vars.as_slice(),
        _ => &[],
    }
}

impl State {
    /// A statement that neither enters a block nor jumps.
    fn plain_statement(&mut self, s: &Source<'_>, f: u32, k: u32, a: &Stmt) -> Result<(), NoMemory>
        requires { IsSource s.now }
        ensures { OnOk result (Executed s.now.p.now f k a.now.kind self.old self.new) }
    {
        match &a.kind {
            StmtKind::Empty => Ok(()),
            StmtKind::Expr(e) => self.then(Work::Value(f, *e), Work::Drop),
            StmtKind::Init { var, value, .. } => self.initialization(s, f, k, *var, *value),
            StmtKind::If(c, _, _) => self.then(Work::Value(f, *c), Work::Branch(f, k)),
            StmtKind::While(_, _) => self.push(Work::Test(f, k)),
            StmtKind::Do(b, _) => self.then(Work::Statement(f, *b), Work::Again(f, k)),
            StmtKind::Switch { on, .. } => self.then(Work::Value(f, *on), Work::Switch(f, k)),
            StmtKind::Return(value) => match value {
                None => Ok(()),
                Some(e) => self.then(Work::Value(f, *e), Work::Give),
            },
            StmtKind::Block { .. } | StmtKind::For { .. } | StmtKind::Break | StmtKind::Continue =>
                Ok(()),
        }
    }

    /// A statement.
    pub fn statement<B: Storage>(
        &mut self,
        m: &mut B,
        s: &Source<'_>,
        f: u32,
        k: u32,
    ) -> Result<(), Stop>
        requires { IsSource s.now }
        ensures same { B.meaning m.new ≡ B.meaning m.old }
        ensures does { Ordered s.now.p.now → Does (execute (B.meaning m.old) (funs_of s.now.p.now)
            (stmt_tree s.now.p.now (vars_at s.now.p.now f) k) (moment_of s.now.p.now self.old (B.held m.old)))
            (moment_of s.now.p.now self.new (B.held m.new)) result }
    {
        match statement_at(s.p, k) {
            None => Ok(()),
            Some(a) => self.statement_of(m, s, f, k, a),
        }
    }

    fn statement_of<B: Storage>(
        &mut self,
        m: &mut B,
        s: &Source<'_>,
        f: u32,
        k: u32,
        a: &Stmt,
    ) -> Result<(), Stop>
        requires { IsSource s.now }
        ensures same { B.meaning m.new ≡ B.meaning m.old }
        ensures does { Ordered s.now.p.now → DoneBy (B.meaning m.old) s.now.p.now f k a.now.pos (B.held m.old)
            (B.held m.new) self.old self.new result a.now.kind }
    {
        match &a.kind {
            StmtKind::Block { vars, .. } => {
                enter_block(self, m, s, f, vars.as_slice());
                self.block_entered(f, k)
            }
            StmtKind::For { vars, .. } => {
                enter_block(self, m, s, f, vars.as_slice());
                self.for_entered(f, k)
            }
            StmtKind::Break => self.broken(m, s),
            StmtKind::Continue => self.continued(m, s),
            StmtKind::Return(value) => match value {
                None => self.give_back(m, s, NOTHING),
                Some(e) => self.returned(f, *e),
            },
            _ => self.plain(s, f, k, a),
        }
    }

    fn block_entered(&mut self, f: u32, k: u32) -> Result<(), Stop>
        ensures { Unless_wanting result (self.new
            ≡ record self.old { work = Work.Rest f k 0 ∷ Work.Leave f k ∷ self.old.work }) }
    {
        Ok(self.then(Work::Rest(f, k, 0), Work::Leave(f, k))?)
    }

    fn for_entered(&mut self, f: u32, k: u32) -> Result<(), Stop>
        ensures { Unless_wanting result (self.new
            ≡ record self.old { work = Work.Rest f k 0 ∷ Work.Test f k ∷ Work.Leave f k ∷ self.old.work }) }
    {
        Ok(self.both(Work::Rest(f, k, 0), Work::Test(f, k), Work::Leave(f, k))?)
    }

    fn broken<B: Operations>(&mut self, m: &mut B, s: &Source<'_>) -> Result<(), Stop>
        requires { IsSource s.now }
        ensures same { B.meaning m.new ≡ B.meaning m.old }
        ensures does { Ordered s.now.p.now → Does (jumped (B.meaning m.old) (funs_of s.now.p.now) Breaks
            (map (item_of s.now.p.now) self.old.work) (moment_of s.now.p.now self.old (B.held m.old)))
            (moment_of s.now.p.now self.new (B.held m.new)) result }
    {
        Ok(self.break_out(m, s)?)
    }

    fn continued<B: Operations>(&mut self, m: &mut B, s: &Source<'_>) -> Result<(), Stop>
        requires { IsSource s.now }
        ensures same { B.meaning m.new ≡ B.meaning m.old }
        ensures does { Ordered s.now.p.now → Does (jumped (B.meaning m.old) (funs_of s.now.p.now) Continues
            (map (item_of s.now.p.now) self.old.work) (moment_of s.now.p.now self.old (B.held m.old)))
            (moment_of s.now.p.now self.new (B.held m.new)) result }
    {
        Ok(self.go_on(m, s)?)
    }

    fn returned(&mut self, f: u32, e: u32) -> Result<(), Stop>
        ensures { Unless_wanting result (self.new
            ≡ record self.old { work = Work.Value f e ∷ Work.Give ∷ self.old.work }) }
    {
        Ok(self.then(Work::Value(f, e), Work::Give)?)
    }

    fn plain(&mut self, s: &Source<'_>, f: u32, k: u32, a: &Stmt) -> Result<(), Stop>
        requires { IsSource s.now }
        ensures { Unless_wanting result (Executed s.now.p.now f k a.now.kind self.old self.new) }
    {
        Ok(self.plain_statement(s, f, k, a)?)
    }

    /// The statements of a block or `switch`, or those before the first test of a `for`, from number n on.
    pub fn rest(&mut self, p: &Typed, f: u32, k: u32, n: usize) -> Result<(), NoMemory>
        ensures { Ordered p.now → OnOk result (Proceeds p.now
            (execs_behind (parts_of (stmt_tree p.now (vars_at p.now f) k)) n) self.old self.new) }
    {
        match statement_at(p, k) {
            None => Ok(()),
            Some(a) => self.rest_of(f, k, n, a),
        }
    }

    fn rest_of(&mut self, f: u32, k: u32, n: usize, a: &Stmt) -> Result<(), NoMemory>
        ensures { OnOk result (self.new
            ≡ record self.old { work = next_one f k n (slice_get (parts_in a.now.kind) n) self.old.work }) }
    {
        match &a.kind {
            StmtKind::Block { body, .. } => self.one_of(f, k, n, body.as_slice()),
            StmtKind::Switch { body, .. } => self.one_of(f, k, n, body.as_slice()),
            StmtKind::For { first, .. } => self.one_of(f, k, n, first.as_slice()),
            _ => Ok(()),
        }
    }

    fn one_of(&mut self, f: u32, k: u32, n: usize, parts: &[u32]) -> Result<(), NoMemory>
        ensures { OnOk result (self.new
            ≡ record self.old { work = next_one f k n (slice_get parts.now n) self.old.work }) }
    {
        match parts.get(n) {
            None => Ok(()),
            Some(a) => self.then(Work::Statement(f, *a), Work::Rest(f, k, n + 1)),
        }
    }

    // ---- choices and loops (C11 6.8.4, 6.8.5)

    /// The condition of an `if` stands on top.
    pub fn branch<B: Operations>(
        &mut self,
        m: &B,
        s: &Source<'_>,
        f: u32,
        k: u32,
    ) -> Result<(), Stop>
        requires { IsSource s.now }
        ensures { Ordered s.now.p.now → Does (branch (B.meaning m.now) (funs_of s.now.p.now)
            (stmt_tree s.now.p.now (vars_at s.now.p.now f) k) (moment_of s.now.p.now self.old (B.held m.now)))
            (moment_of s.now.p.now self.new (B.held m.now)) result }
    {
        match statement_at(s.p, k) {
            None => self.lose(),
            Some(a) => self.branch_of(m, s, f, k, a),
        }
    }

    fn branch_of<B: Operations>(
        &mut self,
        m: &B,
        s: &Source<'_>,
        f: u32,
        k: u32,
        a: &Stmt,
    ) -> Result<(), Stop>
        requires { IsSource s.now }
        ensures { BranchedBy (B.meaning m.now) (B.held m.now) s.now.p.now f k a.now.pos self.old self.new result
            a.now.kind }
    {
        match &a.kind {
            StmtKind::If(c, first, second) => self.by_truth(
                m,
                kind_at(s, *c),
                a.pos,
                Next::One(Work::Statement(f, *first)),
                Next::One(other_branch(f, *second)),
            ),
            _ => self.lose(),
        }
    }

    fn lose(&mut self) -> Result<(), Stop>
        ensures { Unless_wanting result (self.new ≡ record self.old { values = behind self.old.values }) }
    {
        self.take();
        Ok(())
    }

    /// A loop is at its test.
    pub fn test(&mut self, p: &Typed, f: u32, k: u32) -> Result<(), NoMemory>
        ensures { Ordered p.now → OnOk result (ComesToTest p.now
            (loop_of (stmt_tree p.now (vars_at p.now f) k)) self.old self.new) }
    {
        match statement_at(p, k) {
            None => self.then(Work::Nothing, Work::Again(f, k)),
            Some(a) => self.test_of(f, k, a),
        }
    }

    fn test_of(&mut self, f: u32, k: u32, a: &Stmt) -> Result<(), NoMemory>
        ensures { OnOk result (self.new ≡ record self.old { work = tests f k a.now.kind self.old.work }) }
    {
        match &a.kind {
            StmtKind::While(c, _) => self.then(Work::Value(f, *c), Work::Tested(f, k)),
            StmtKind::Do(_, c) => self.then(Work::Value(f, *c), Work::Tested(f, k)),
            StmtKind::For { test, body, .. } => match test {
                Some(c) => self.then(Work::Value(f, *c), Work::Tested(f, k)),
                None => self.then(Work::Statement(f, *body), Work::Again(f, k)),
            },
            _ => self.then(Work::Nothing, Work::Again(f, k)),
        }
    }

    /// The test of a loop stands on top. The turn of a `do` comes after a true test.
    pub fn tested<B: Operations>(
        &mut self,
        m: &B,
        s: &Source<'_>,
        f: u32,
        k: u32,
    ) -> Result<(), Stop>
        requires { IsSource s.now }
        ensures { Ordered s.now.p.now → Does (tested (B.meaning m.now) (funs_of s.now.p.now)
            (loop_of (stmt_tree s.now.p.now (vars_at s.now.p.now f) k))
            (moment_of s.now.p.now self.old (B.held m.now)))
            (moment_of s.now.p.now self.new (B.held m.now)) result }
    {
        match statement_at(s.p, k) {
            None => self.untested(Work::Nothing, f, k),
            Some(a) => self.tested_of(m, s, f, k, a),
        }
    }

    fn tested_of<B: Operations>(
        &mut self,
        m: &B,
        s: &Source<'_>,
        f: u32,
        k: u32,
        a: &Stmt,
    ) -> Result<(), Stop>
        requires { IsSource s.now }
        ensures { TestedBy (B.meaning m.now) (B.held m.now) s.now.p.now f k a.now.pos self.old self.new result
            a.now.kind }
    {
        match &a.kind {
            StmtKind::While(c, body) => self.tested_before(m, kind_at(s, *c), a.pos, *body, f, k),
            StmtKind::For { test, body, .. } => self.tested_for(m, s, *test, a.pos, *body, f, k),
            StmtKind::Do(body, c) => self.tested_behind(m, kind_at(s, *c), a.pos, *body, f, k),
            _ => self.untested(Work::Nothing, f, k),
        }
    }

    /// A `for`, by its test.
    fn tested_for<B: Operations>(
        &mut self,
        m: &B,
        s: &Source<'_>,
        test: Option<u32>,
        pos: Pos,
        body: u32,
        f: u32,
        k: u32,
    ) -> Result<(), Stop>
        requires { IsSource s.now }
        ensures { ForTested (B.meaning m.now) (B.held m.now) s.now.p.now f k pos self.old self.new result test body }
    {
        match test {
            None => self.untested(Work::Statement(f, body), f, k),
            Some(c) => self.tested_before(m, kind_at(s, c), pos, body, f, k),
        }
    }

    /// A loop with no test.
    fn untested(&mut self, body: Work, f: u32, k: u32) -> Result<(), Stop>
        ensures { Unless_wanting result (self.new ≡ record self.old
            { values = behind self.old.values; work = body ∷ Work.Again f k ∷ self.old.work }) }
    {
        self.take();
        Ok(self.then(body, Work::Again(f, k))?)
    }

    fn tested_before<B: Operations>(
        &mut self,
        m: &B,
        kind: Kind,
        pos: Pos,
        body: u32,
        f: u32,
        k: u32,
    ) -> Result<(), Stop>
        ensures { (j : sem.Kind) → kind_of kind ≡ j → Branched (test (B.meaning m.now) pos j
            (first_of (map value_of self.old.values)) (now_of self.old (B.held m.now)))
            (now_of self.old (B.held m.now)) (Next.Two (Work.Statement f body) (Work.Again f k)) Next.Skip
            self.old self.new result }
    {
        let next = Next::Two(Work::Statement(f, body), Work::Again(f, k));
        self.by_truth(m, kind, pos, next, Next::Skip)
    }

    /// The turn of a `do` comes after a true test.
    fn tested_behind<B: Operations>(
        &mut self,
        m: &B,
        kind: Kind,
        pos: Pos,
        body: u32,
        f: u32,
        k: u32,
    ) -> Result<(), Stop>
        ensures { (p : Typed) (j : sem.Kind) (e : Ex) → kind_of kind ≡ j →
            loop_of (stmt_tree p (vars_at p f) k) ≡ Behind pos j e (stmt_tree p (vars_at p f) body) →
            Does (tested (B.meaning m.now) (funs_of p) (loop_of (stmt_tree p (vars_at p f) k))
            (moment_of p self.old (B.held m.now))) (moment_of p self.new (B.held m.now)) result }
    {
        let v = self.take();
        match is_true(m, kind, v) {
            Err(fault) => Err(Stop::Ended(fault_end(fault, pos))),
            Ok(holds) => self.round_if(holds, f, k, body),
        }
    }

    fn round_if(&mut self, holds: bool, f: u32, k: u32, body: u32) -> Result<(), Stop>
        ensures { (p : Typed) (ops : Operations Store) (held : Store) → Does (if holds then turned_to ops (funs_of p)
            (item_of p (Work.Statement f body) ∷ item_of p (Work.Again f k) ∷ map (item_of p) self.old.work)
            (moment_of p self.old held) else Goes (moment_of p self.old held)) (moment_of p self.new held) result }
    {
        if holds {
            self.goes_round(f, k, body)
        } else {
            Ok(())
        }
    }

    /// A turn is used, and the body comes again.
    fn goes_round(&mut self, f: u32, k: u32, body: u32) -> Result<(), Stop>
        ensures { (p : Typed) (ops : Operations Store) (held : Store) → Does (turned_to ops (funs_of p)
            (item_of p (Work.Statement f body) ∷ item_of p (Work.Again f k) ∷ map (item_of p) self.old.work)
            (moment_of p self.old held)) (moment_of p self.new held) result }
    {
        match self.turn() {
            Err(stop) => Err(stop),
            Ok(_) => self.body_again(f, k, body),
        }
    }

    fn body_again(&mut self, f: u32, k: u32, body: u32) -> Result<(), Stop>
        ensures { Unless_wanting result (self.new
            ≡ record self.old { work = Work.Statement f body ∷ Work.Again f k ∷ self.old.work }) }
    {
        Ok(self.then(Work::Statement(f, body), Work::Again(f, k))?)
    }

    /// The body of a loop was left. In a `while` and a `for` the turn comes after the step.
    pub fn again(&mut self, p: &Typed, f: u32, k: u32) -> Result<(), Stop>
        ensures { Ordered p.now → (ops : Operations Store) (held : Store) → Does (again ops (funs_of p.now)
            (loop_of (stmt_tree p.now (vars_at p.now f) k)) (moment_of p.now self.old held))
            (moment_of p.now self.new held) result }
    {
        match statement_at(p, k) {
            None => self.turned(f, k),
            Some(a) => self.again_of(f, k, a),
        }
    }

    fn again_of(&mut self, f: u32, k: u32, a: &Stmt) -> Result<(), Stop>
        ensures { AgainBy f k self.old self.new result a.now.kind }
    {
        match &a.kind {
            StmtKind::For { step, .. } => self.again_for(*step, f, k),
            StmtKind::Do(_, _) => self.to_test(f, k),
            _ => self.turned(f, k),
        }
    }

    /// The body of a `for`, by its step.
    fn again_for(&mut self, step: Option<u32>, f: u32, k: u32) -> Result<(), Stop>
        ensures { ForAgain f k self.old self.new result step }
    {
        match step {
            None => self.turned(f, k),
            Some(e) => Ok(self.both(Work::Value(f, e), Work::Drop, Work::Turn(f, k))?),
        }
    }

    fn to_test(&mut self, f: u32, k: u32) -> Result<(), Stop>
        ensures { Unless_wanting result (self.new ≡ record self.old { work = Work.Test f k ∷ self.old.work }) }
    {
        Ok(self.push(Work::Test(f, k))?)
    }

    /// The step of a loop was done.
    pub fn turned(&mut self, f: u32, k: u32) -> Result<(), Stop>
        ensures { TestAgain f k self.old self.new result }
    {
        match self.turn() {
            Err(stop) => Err(stop),
            Ok(_) => self.to_test(f, k),
        }
    }

    // ---- `switch` (C11 6.8.4.2)

    /// What a `switch` is on stands on top. Its block is entered before the labels are compared, and left whether or
    /// not one matches.
    pub fn switch<B: Operations>(
        &mut self,
        m: &mut B,
        s: &Source<'_>,
        f: u32,
        k: u32,
    ) -> Result<(), Stop>
        requires { IsSource s.now }
        ensures same { B.meaning m.new ≡ B.meaning m.old }
        ensures does { Ordered s.now.p.now → Does (choose_label (B.meaning m.old) (funs_of s.now.p.now)
            (stmt_tree s.now.p.now (vars_at s.now.p.now f) k) (moment_of s.now.p.now self.old (B.held m.old)))
            (moment_of s.now.p.now self.new (B.held m.new)) result }
    {
        match statement_at(s.p, k) {
            None => self.lose(),
            Some(a) => self.switch_of(m, s, f, k, a),
        }
    }

    fn switch_of<B: Operations>(
        &mut self,
        m: &mut B,
        s: &Source<'_>,
        f: u32,
        k: u32,
        a: &Stmt,
    ) -> Result<(), Stop>
        requires { IsSource s.now }
        ensures same { B.meaning m.new ≡ B.meaning m.old }
        ensures does { SwitchedBy (B.meaning m.old) s.now.p.now f k a.now.pos (B.held m.old) (B.held m.new) self.old
            self.new result a.now.kind }
    {
        match &a.kind {
            StmtKind::Switch {
                on,
                vars,
                labels,
                ..
            } => {
                let v = self.take();
                enter_block(self, m, s, f, vars.as_slice());
                match find_label(m, a.pos, kind_at(s, *on), v, labels.as_slice()) {
                    Err(stop) => Err(stop),
                    Ok(to) => self.goes_to(f, k, to),
                }
            }
            _ => self.lose(),
        }
    }

    /// A `switch` goes on at a statement, or is left.
    fn goes_to(&mut self, f: u32, k: u32, to: Option<u32>) -> Result<(), Stop>
        ensures { Unless_wanting result (self.new ≡ record self.old { work = at_label f k to self.old.work }) }
    {
        match to {
            None => Ok(self.push(Work::Leave(f, k))?),
            Some(n) => Ok(self.both(
                Work::Rest(f, k, n as usize),
                Work::SwitchEnd,
                Work::Leave(f, k),
            )?),
        }
    }

    /// A block, a `for` or a `switch` is left.
    pub fn leave<B: Operations>(&self, m: &mut B, s: &Source<'_>, f: u32, k: u32)
        requires { IsSource s.now }
        ensures same { B.meaning m.new ≡ B.meaning m.old }
        ensures did { Ordered s.now.p.now → leave (B.meaning m.old)
            (declared_of (stmt_tree s.now.p.now (vars_at s.now.p.now f) k)) (now_of self.now (B.held m.old))
            ≡ On tt (now_of self.now (B.held m.new)) }
    {
        match statement_at(s.p, k) {
            None => {}
            Some(a) => leave_block(self, m, s, f, declared_in(a)),
        }
    }
}
