//! Values of expressions (C11 6.5): what each asks for first.
ghost use Rattle.std.specs.Prelude.{◌≡◌, ◌∷◌, OnOk};
ghost use Rattle.c_tree.specs.Layout.{bare};
ghost use Rattle.cheri_c_sem.specs.Expressions.{constant, expr_tree};
ghost use Rattle.cheri_c_sem.specs.Types.{is_record, kind_of};
ghost use Rattle.mean_run.specs.Begun.{Begun, assigned, values_first};
ghost use Rattle.mean_run.specs.Views.{vars_at};
ghost use Rattle.mean_run.specs.Steps.{Evaluates};
ghost use Rattle.mean_run.specs.Sources.{IsFit, IsSource};

use crate::state::{Source, State};
use c_tree::{Expr, ExprKind};
use ck_base::NoMemory;
use mean_types::{NOTHING, constant_of};
use mean_work::{Work, operands};
use obj_mem::Value;

impl State {
    /// A place, and then the operation on it.
    fn place_first(&mut self, f: u32, k: u32, a: u32) -> Result<(), NoMemory>
        ensures { OnOk result (self.new
            ≡ record self.old { work = Work.Place f a ∷ Work.Finish f k ∷ self.old.work }) }
    {
        self.then(Work::Place(f, a), Work::Finish(f, k))
    }

    /// An operand, and then the operation.
    fn operand(&mut self, f: u32, k: u32, a: u32) -> Result<(), NoMemory>
        ensures { OnOk result (self.new
            ≡ record self.old { work = Work.Value f a ∷ Work.Finish f k ∷ self.old.work }) }
    {
        self.then(Work::Value(f, a), Work::Finish(f, k))
    }

    /// Both operands, and then the operation.
    fn operands(&mut self, f: u32, k: u32, a: u32, b: u32) -> Result<(), NoMemory>
        ensures { OnOk result (self.new ≡ record self.old
            { work = Work.Value f a ∷ Work.Value f b ∷ Work.Finish f k ∷ self.old.work }) }
    {
        operands(&mut self.work, f, k, a, b)
    }

    /// What is chosen by, and then the choice.
    fn chosen_by(&mut self, f: u32, k: u32, a: u32) -> Result<(), NoMemory>
        ensures { OnOk result (self.new
            ≡ record self.old { work = Work.Value f a ∷ Work.Choose f k ∷ self.old.work }) }
    {
        self.then(Work::Value(f, a), Work::Choose(f, k))
    }

    /// The place on the left, and what it gets: a value, or a struct or union by its place.
    fn assignment(
        &mut self,
        s: &Source<'_>,
        f: u32,
        k: u32,
        of: u32,
        a: u32,
        b: u32,
    ) -> Result<(), NoMemory>
        requires { IsSource s.now }
        ensures { OnOk result (self.new ≡ record self.old {
          work = Work.Place f a ∷ assigned f b (is_record (bare s.now.p.now.types of)) ∷ Work.Finish f k
              ∷ self.old.work;
        }) }
    {
        if s.types.facts(s.p, of).record {
            self.both(Work::Place(f, a), Work::Place(f, b), Work::Finish(f, k))
        } else {
            self.both(Work::Place(f, a), Work::Value(f, b), Work::Finish(f, k))
        }
    }

    /// The arguments, the first one first.
    fn arguments(&mut self, f: u32, args: &[u32]) -> Result<(), NoMemory>
        ensures { OnOk result (self.new
            ≡ record self.old { work = values_first f args.now self.old.work }) }
    {
        let mut left = args.len();
        'arguments: while left > 0 {
            left -= 1;
            self.push(Work::Value(f, args[left]))?;
        }
        Ok(())
    }

    /// What a call calls, and its arguments.
    fn called_with(&mut self, f: u32, k: u32, callee: u32, args: &[u32]) -> Result<(), NoMemory>
        ensures { OnOk result (self.new ≡ record self.old
            { work = Work.Value f callee ∷ values_first f args.now (Work.Finish f k ∷ self.old.work) }) }
    {
        self.push(Work::Finish(f, k))?;
        self.arguments(f, args)?;
        self.push(Work::Value(f, callee))
    }

    fn served_with(&mut self, f: u32, k: u32, args: &[u32]) -> Result<(), NoMemory>
        ensures { OnOk result (self.new ≡ record self.old
            { work = values_first f args.now (Work.Finish f k ∷ self.old.work) }) }
    {
        self.push(Work::Finish(f, k))?;
        self.arguments(f, args)
    }

    fn constant(&mut self, s: &Source<'_>, of: u32, n: u64) -> Result<(), NoMemory>
        requires { IsSource s.now }
        ensures { OnOk result (Evaluates s.now.p.now
            (constant n (kind_of (bare s.now.p.now.types of))) self.old self.new) }
    {
        self.give(constant_of(s.types.facts(s.p, of).kind_or_int(), n))
    }

    /// What stands for an operand or two, by its number.
    fn value_of(&mut self, s: &Source<'_>, f: u32, k: u32, e: &Expr) -> Result<(), NoMemory>
        requires { IsSource s.now }
        ensures { OnOk result (Begun s.now.p.now f k e.now.of e.now.kind self.old self.new) }
    {
        match &e.kind {
            ExprKind::Constant(n) => self.constant(s, e.of, *n),
            ExprKind::Fun(g) => self.give(Value::Fun(*g)),
            ExprKind::Literal(_) | ExprKind::Global(_) | ExprKind::Var(_) => self.give(NOTHING),
            ExprKind::Load(a) => self.place_first(f, k, *a),
            ExprKind::Decay(a) => self.place_first(f, k, *a),
            ExprKind::Address(a) => self.place_first(f, k, *a),
            ExprKind::Member(a, _) => self.place_first(f, k, *a),
            ExprKind::Deref(a) => self.operand(f, k, *a),
            ExprKind::Unary(_, a) => self.operand(f, k, *a),
            ExprKind::Convert(a) => self.operand(f, k, *a),
            ExprKind::Int(_, a, b) => self.operands(f, k, *a, *b),
            ExprKind::Capability(_, a, b, _) => self.operands(f, k, *a, *b),
            ExprKind::Plus(a, b, _) => self.operands(f, k, *a, *b),
            ExprKind::Difference(a, b) => self.operands(f, k, *a, *b),
            ExprKind::Compare(_, a, b) => self.operands(f, k, *a, *b),
            ExprKind::And(a, _) => self.chosen_by(f, k, *a),
            ExprKind::Or(a, _) => self.chosen_by(f, k, *a),
            ExprKind::Conditional(c, _, _) => self.chosen_by(f, k, *c),
            ExprKind::Comma(a, b) => self.both(Work::Value(f, *a), Work::Drop, Work::Value(f, *b)),
            ExprKind::Compound(_, a, b, _) => self.place_and_value(f, k, *a, *b),
            ExprKind::Step(a, _, _) => self.both(Work::Place(f, *a), Work::One, Work::Finish(f, k)),
            ExprKind::Assign(a, b) => self.assignment(s, f, k, e.of, *a, *b),
            ExprKind::Call(g, args) => self.called_with(f, k, *g, args.as_slice()),
            ExprKind::Library(_, args) => self.served_with(f, k, args.as_slice()),
        }
    }

    /// A place and a value, and then the operation.
    fn place_and_value(&mut self, f: u32, k: u32, a: u32, b: u32) -> Result<(), NoMemory>
        ensures { OnOk result (self.new ≡ record self.old
            { work = Work.Place f a ∷ Work.Value f b ∷ Work.Finish f k ∷ self.old.work }) }
    {
        self.both(Work::Place(f, a), Work::Value(f, b), Work::Finish(f, k))
    }

    /// The value of expression k goes on the values.
    pub fn value(&mut self, s: &Source<'_>, f: u32, k: u32) -> Result<(), NoMemory>
        requires { IsSource s.now }
        ensures { IsFit s.now.p.now → OnOk result (Evaluates s.now.p.now
            (expr_tree s.now.p.now (vars_at s.now.p.now f) k) self.old self.new) }
    {
        match s.p.exprs.as_slice().get(k as usize) {
            None => self.give(NOTHING),
            Some(e) => self.value_of(s, f, k, e),
        }
    }
}
