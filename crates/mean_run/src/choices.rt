//! `&&`, `||` and `?:` (C11 6.5.13 to 6.5.15).
ghost use Rattle.std.specs.Prelude.{◌≡◌, ◌∷◌, true, false, List, map};
ghost use Rattle.c_tree.specs.declared.typed.VarDef.{VarDef};
ghost use Rattle.obj_mem.specs.Values.{value_of};
ghost use Rattle.cheri_c_sem.specs.Expressions.{kind_at, expr_tree};
ghost use Rattle.cheri_c_sem.specs.Kinds as sem;
ghost use Rattle.cheri_c_sem.specs.Meaning.{first_of};
ghost use Rattle.mean_types.specs.Views.{kind_of};
ghost use Rattle.mean_steps.specs.Machine.{behind, choose_item, choose_place, decide};
ghost use Rattle.mean_steps.specs.Parts.{test};
ghost use Rattle.mean_run.specs.Branches.{Branched, ChosenBy, DecidedBy, PlaceChosenBy};
ghost use Rattle.mean_run.specs.Parts.{Does, Unless_wanting};
ghost use Rattle.mean_run.specs.Sources.{IsFit, IsSource};
ghost use Rattle.mean_run.specs.Views.{now_of, moment_of, vars_at, funs_of};

use crate::branches::Next;
use crate::places::type_of;
use crate::state::{Source, State};
use c_tree::{Expr, ExprKind};
use ck_base::Pos;
use mean_operations::Operations;
use mean_types::{Kind, NOTHING};
use mean_work::{NOWHERE, Stop, Work};

/// The kind of an expression.
pub fn kind_at(s: &Source<'_>, k: u32) -> Kind
    requires { IsSource s.now }
    ensures { (vars : List VarDef) → kind_of result ≡ kind_at s.now.p.now vars k }
{
    s.types.facts(s.p, type_of(s.p, k)).kind_or_int()
}

impl State {
    /// The first operand of expression k stands on top.
    pub fn choose<B: Operations>(
        &mut self,
        m: &B,
        s: &Source<'_>,
        f: u32,
        k: u32,
    ) -> Result<(), Stop>
        requires { IsSource s.now }
        ensures { IsFit s.now.p.now → Does (choose_item (B.meaning m.now) (funs_of s.now.p.now)
            (expr_tree s.now.p.now (vars_at s.now.p.now f) k) (moment_of s.now.p.now self.old (B.held m.now)))
            (moment_of s.now.p.now self.new (B.held m.now)) result }
    {
        match s.p.exprs.as_slice().get(k as usize) {
            None => self.no_choice(),
            Some(e) => self.choose_of(m, s, f, k, e),
        }
    }

    fn choose_of<B: Operations>(
        &mut self,
        m: &B,
        s: &Source<'_>,
        f: u32,
        k: u32,
        e: &Expr,
    ) -> Result<(), Stop>
        requires { IsSource s.now }
        ensures { ChosenBy (B.meaning m.now) (B.held m.now) s.now.p.now f k e.now.pos self.old self.new result
            e.now.kind }
    {
        match &e.kind {
            ExprKind::And(a, b) => self.by_truth(
                m,
                kind_at(s, *a),
                e.pos,
                Next::Two(Work::Value(f, *b), Work::Decide(f, k)),
                Next::Truth(false),
            ),
            ExprKind::Or(a, b) => self.by_truth(
                m,
                kind_at(s, *a),
                e.pos,
                Next::Truth(true),
                Next::Two(Work::Value(f, *b), Work::Decide(f, k)),
            ),
            ExprKind::Conditional(c, a, b) => self.by_truth(
                m,
                kind_at(s, *c),
                e.pos,
                Next::One(Work::Value(f, *a)),
                Next::One(Work::Value(f, *b)),
            ),
            _ => self.no_choice(),
        }
    }

    fn no_choice(&mut self) -> Result<(), Stop>
        ensures { Unless_wanting result (self.new
            ≡ record self.old { values = NOTHING ∷ behind self.old.values }) }
    {
        self.take();
        Ok(self.give(NOTHING)?)
    }

    /// The condition of a `?:` that designates a place stands on top.
    pub fn choose_place<B: Operations>(
        &mut self,
        m: &B,
        s: &Source<'_>,
        f: u32,
        k: u32,
    ) -> Result<(), Stop>
        requires { IsSource s.now }
        ensures { IsFit s.now.p.now → Does (choose_place (B.meaning m.now) (funs_of s.now.p.now)
            (expr_tree s.now.p.now (vars_at s.now.p.now f) k) (moment_of s.now.p.now self.old (B.held m.now)))
            (moment_of s.now.p.now self.new (B.held m.now)) result }
    {
        match s.p.exprs.as_slice().get(k as usize) {
            None => self.no_place(),
            Some(e) => self.choose_place_of(m, s, f, k, e),
        }
    }

    fn choose_place_of<B: Operations>(
        &mut self,
        m: &B,
        s: &Source<'_>,
        f: u32,
        k: u32,
        e: &Expr,
    ) -> Result<(), Stop>
        requires { IsSource s.now }
        ensures { PlaceChosenBy (B.meaning m.now) (B.held m.now) s.now.p.now f k e.now.pos self.old self.new result
            e.now.kind }
    {
        match &e.kind {
            ExprKind::Conditional(c, a, b) => self.by_truth(
                m,
                kind_at(s, *c),
                e.pos,
                Next::One(Work::Place(f, *a)),
                Next::One(Work::Place(f, *b)),
            ),
            _ => self.no_place(),
        }
    }

    fn no_place(&mut self) -> Result<(), Stop>
        ensures { Unless_wanting result (self.new
            ≡ record self.old { values = behind self.old.values; places = NOWHERE ∷ self.old.places }) }
    {
        self.take();
        Ok(self.designate(NOWHERE)?)
    }

    /// The second operand of `&&` or `||` stands on top.
    pub fn decide<B: Operations>(
        &mut self,
        m: &B,
        s: &Source<'_>,
        f: u32,
        k: u32,
    ) -> Result<(), Stop>
        requires { IsSource s.now }
        ensures { IsFit s.now.p.now → Does (decide (B.meaning m.now) (funs_of s.now.p.now)
            (expr_tree s.now.p.now (vars_at s.now.p.now f) k) (moment_of s.now.p.now self.old (B.held m.now)))
            (moment_of s.now.p.now self.new (B.held m.now)) result }
    {
        match s.p.exprs.as_slice().get(k as usize) {
            None => self.no_choice(),
            Some(e) => self.decide_of(m, s, f, k, e),
        }
    }

    fn decide_of<B: Operations>(
        &mut self,
        m: &B,
        s: &Source<'_>,
        f: u32,
        k: u32,
        e: &Expr,
    ) -> Result<(), Stop>
        requires { IsSource s.now }
        ensures { DecidedBy (B.meaning m.now) (B.held m.now) s.now.p.now f k e.now.pos self.old self.new result
            e.now.kind }
    {
        match &e.kind {
            ExprKind::And(_, b) => self.decided(m, kind_at(s, *b), e.pos),
            ExprKind::Or(_, b) => self.decided(m, kind_at(s, *b), e.pos),
            _ => self.no_choice(),
        }
    }

    fn decided<B: Operations>(&mut self, m: &B, kind: Kind, pos: Pos) -> Result<(), Stop>
        ensures { (k : sem.Kind) → kind_of kind ≡ k → Branched (test (B.meaning m.now) pos k
            (first_of (map value_of self.old.values)) (now_of self.old (B.held m.now)))
            (now_of self.old (B.held m.now)) (Next.Truth true) (Next.Truth false) self.old self.new result }
    {
        self.by_truth(m, kind, pos, Next::Truth(true), Next::Truth(false))
    }
}
