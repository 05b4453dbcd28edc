//! Initialisation of locals (C11 6.7.9).
ghost use Rattle.std.specs.Prelude.{◌<◌, ◌^◌};
ghost use Rattle.std.specs.Prelude.{◌≡◌, ◌∷◌, ◌&&◌, not, OnOk, slice_get, if◌then◌else◌};
ghost use Rattle.c_tree.specs.Layout.{bare};
ghost use Rattle.c_tree.specs.declared.typed.Typed.{Typed};
ghost use Rattle.cheri_c_sem.specs.Expressions.{type_of};
ghost use Rattle.cheri_c_sem.specs.Kinds as sem;
ghost use Rattle.cheri_c_sem.specs.Modes.{Store};
ghost use Rattle.cheri_c_sem.specs.Operations.{Operations};
ghost use Rattle.cheri_c_sem.specs.Programs.{initialisation, stmt_tree};
ghost use Rattle.cheri_c_sem.specs.Tree as tree;
ghost use Rattle.cheri_c_sem.specs.Tree.{Ex};
ghost use Rattle.cheri_c_sem.specs.Types.{is_record, is_simple};
ghost use Rattle.mean_types.specs.Views.{kind_of};
ghost use Rattle.mean_steps.specs.Machine.{initialize};
ghost use Rattle.mean_operations.specs.Answers.{IsAccess};
ghost use Rattle.mean_run.specs.Labels.{object_filled};
ghost use Rattle.mean_run.specs.Done.{InitializedBy};
ghost use Rattle.mean_run.specs.Begun.{assigned};
ghost use Rattle.mean_run.specs.Parts.{Does};
ghost use Rattle.mean_run.specs.Views.{moment_of, funs_of, vars_at};
ghost use Rattle.mean_run.specs.Sizes.{IsSmall};
ghost use Rattle.mean_run.specs.Sources.{IsFit, IsSource};

use crate::locals::is_object;
use crate::places::{copy, type_of, unit};
use crate::state::{Source, State};
use crate::statements::statement_at;
use c_tree::{Stmt, StmtKind, Typed};
use ck_base::{NoMemory, Pos};
use mean_operations::Operations;
use mean_types::Kind;
use mean_work::{Stop, Work};
use obj_mem::Value;

impl State {
    /// Begins the initialisation of a variable, or of a part of one.
    pub(crate) fn initialization(
        &mut self,
        s: &Source<'_>,
        f: u32,
        k: u32,
        var: u32,
        value: u32,
    ) -> Result<(), NoMemory>
        requires { IsSource s.now }
        ensures { OnOk result (self.new ≡ record self.old {
          work = assigned f value (not (is_simple (slice_get (vars_at s.now.p.now f) var))
              && is_record (bare s.now.p.now.types (type_of (slice_get s.now.p.now.exprs value))))
              ∷ Work.Initialize f k ∷ self.old.work;
        }) }
    {
        if is_object(s.p, f, var) {
            self.object_initialization(s, f, k, value)
        } else {
            self.then(Work::Value(f, value), Work::Initialize(f, k))
        }
    }

    fn object_initialization(
        &mut self,
        s: &Source<'_>,
        f: u32,
        k: u32,
        value: u32,
    ) -> Result<(), NoMemory>
        requires { IsSource s.now }
        ensures { OnOk result (self.new ≡ record self.old {
          work = assigned f value (is_record (bare s.now.p.now.types (type_of (slice_get s.now.p.now.exprs value))))
              ∷ Work.Initialize f k ∷ self.old.work;
        }) }
    {
        if s.types.facts(s.p, type_of(s.p, value)).record {
            self.then(Work::Place(f, value), Work::Initialize(f, k))
        } else {
            self.then(Work::Value(f, value), Work::Initialize(f, k))
        }
    }

    /// The value of an initialisation stands on top; of a struct or union, its place.
    pub fn initialize<B: Operations>(
        &mut self,
        m: &mut B,
        s: &Source<'_>,
        f: u32,
        k: u32,
    ) -> Result<(), Stop>
        requires { IsSource s.now }
        ensures same { B.meaning m.new ≡ B.meaning m.old }
        ensures does { IsFit s.now.p.now → Does (initialize (B.meaning m.old) (funs_of s.now.p.now)
            (stmt_tree s.now.p.now (vars_at s.now.p.now f) k) (moment_of s.now.p.now self.old (B.held m.old)))
            (moment_of s.now.p.now self.new (B.held m.new)) result }
    {
        match statement_at(s.p, k) {
            None => Ok(()),
            Some(a) => self.initialize_of(m, s, f, a),
        }
    }

    fn initialize_of<B: Operations>(
        &mut self,
        m: &mut B,
        s: &Source<'_>,
        f: u32,
        a: &Stmt,
    ) -> Result<(), Stop>
        requires { IsSource s.now }
        ensures same { B.meaning m.new ≡ B.meaning m.old }
        ensures does { IsFit s.now.p.now → InitializedBy (B.meaning m.old) s.now.p.now f a.now.pos (B.held m.old)
            (B.held m.new) self.old self.new result a.now.kind }
    {
        match &a.kind {
            StmtKind::Init { var, offset, value } => self.initialized(
                m, s, f, a.pos, *var, *offset, *value,
            ),
            _ => Ok(()),
        }
    }

    fn initialized<B: Operations>(
        &mut self,
        m: &mut B,
        s: &Source<'_>,
        f: u32,
        pos: Pos,
        x: u32,
        offset: u64,
        value: u32,
    ) -> Result<(), Stop>
        requires { IsSource s.now }
        ensures same { B.meaning m.new ≡ B.meaning m.old }
        ensures does { IsFit s.now.p.now → IsSmall s.now.p.now (type_of (slice_get s.now.p.now.exprs value)) →
            (e : Ex) → Does (initialize (B.meaning m.old) (funs_of s.now.p.now)
            (initialisation s.now.p.now (vars_at s.now.p.now f) pos x offset
            (type_of (slice_get s.now.p.now.exprs value)) e) (moment_of s.now.p.now self.old (B.held m.old)))
            (moment_of s.now.p.now self.new (B.held m.new)) result }
    {
        if is_object(s.p, f, x) {
            self.initialize_object(m, s, pos, s.locals.before(f, x), offset, value)
        } else {
            self.initialize_variable(x)
        }
    }

    fn initialize_variable(&mut self, x: u32) -> Result<(), Stop>
        ensures { (p : Typed) (ops : Operations Store) (held : Store) (e : Ex) → Does (initialize ops (funs_of p)
            (tree.Give x e) (moment_of p self.old held)) (moment_of p self.new held) result }
    {
        let v = self.take();
        self.set_variable(x, Some(v));
        Ok(())
    }

    fn initialize_object<B: Operations>(
        &mut self,
        m: &mut B,
        s: &Source<'_>,
        pos: Pos,
        n: u64,
        offset: u64,
        value: u32,
    ) -> Result<(), Stop>
        requires { IsSource s.now }
        ensures same { B.meaning m.new ≡ B.meaning m.old }
        ensures does { IsFit s.now.p.now → IsSmall s.now.p.now (type_of (slice_get s.now.p.now.exprs value)) →
            n < 2 ^ 63 → (e : Ex) → Does (initialize (B.meaning m.old) (funs_of s.now.p.now)
            (object_filled s.now.p.now pos n offset (type_of (slice_get s.now.p.now.exprs value)) e)
            (moment_of s.now.p.now self.old (B.held m.old))) (moment_of s.now.p.now self.new (B.held m.new)) result }
    {
        let facts = s.types.facts(s.p, type_of(s.p, value));
        if facts.record {
            self.fill_part(m, pos, n, offset, facts.size, unit(&facts))
        } else {
            self.set_part(m, pos, n, offset, facts.kind_or_int())
        }
    }

    /// A part of an object gets a struct or union.
    fn fill_part<B: Operations>(
        &mut self,
        m: &mut B,
        pos: Pos,
        n: u64,
        offset: u64,
        bytes: u64,
        unit: u64,
    ) -> Result<(), Stop>
        requires { IsAccess unit }
        ensures same { B.meaning m.new ≡ B.meaning m.old }
        ensures does { n < 2 ^ 63 → (p : Typed) (e : Ex) → Does (initialize (B.meaning m.old) (funs_of p)
            (tree.Fill pos n offset bytes unit e) (moment_of p self.old (B.held m.old)))
            (moment_of p self.new (B.held m.new)) result }
    {
        let from = self.take_place();
        match self.part_of_local(m, pos, n, offset) {
            Err(stop) => Err(stop),
            Ok(to) => copy(m, pos, bytes, unit, from, to),
        }
    }

    /// A part of an object gets a scalar.
    fn set_part<B: Operations>(
        &mut self,
        m: &mut B,
        pos: Pos,
        n: u64,
        offset: u64,
        kind: Kind,
    ) -> Result<(), Stop>
        ensures same { B.meaning m.new ≡ B.meaning m.old }
        ensures does { n < 2 ^ 63 → (p : Typed) (k : sem.Kind) (e : Ex) → kind_of kind ≡ k → Does (initialize
            (B.meaning m.old) (funs_of p) (tree.Init pos n offset k e) (moment_of p self.old (B.held m.old)))
            (moment_of p self.new (B.held m.new)) result }
    {
        let v = self.take();
        match self.part_of_local(m, pos, n, offset) {
            Err(stop) => Err(stop),
            Ok(to) => self.store(m, kind, to, v),
        }
    }
}
