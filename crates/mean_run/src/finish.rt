//! The operations of expressions whose operands' values and places stand ready (C11 6.5).

ghost use Rattle.std.specs.Prelude.{◌≡◌, ◌≤◌, ◌∷◌, not, Bool, true, false, ℕ, List, Ok, Some, None, slice_get};
ghost use Rattle.std.specs.Prelude.{if◌then◌else◌};
ghost use Rattle.c_tree.specs.Layout.{bare};
ghost use Rattle.c_tree.specs.declared.typed.VarDef.{VarDef};
ghost use Rattle.c_tree.specs.declared.typed.Typed.{Typed};
ghost use Rattle.cap_concentrate.specs.Rounding.{owned};
ghost use Rattle.obj_mem.specs.Values.{value_of};
ghost use Rattle.obj_mem.specs.Values as values;
ghost use Rattle.cheri_c_sem.specs.Kinds as sem;
ghost use Rattle.cheri_c_sem.specs.Meaning.{capability_of};
ghost use Rattle.cheri_c_sem.specs.Meaning as meaning;
ghost use Rattle.cheri_c_sem.specs.Modes.{Store};
ghost use Rattle.cheri_c_sem.specs.Operations.{Operations, on_ok};
ghost use Rattle.cheri_c_sem.specs.Tree as tree;
ghost use Rattle.cheri_c_sem.specs.Tree.{Ex, Binary, Compare, Compound, Assign, Copy, Aggregate, Load, Pointer_to};
ghost use Rattle.cheri_c_sem.specs.Tree.{Deref, Member};
ghost use Rattle.cheri_c_sem.specs.Types.{is_record, kind_of as kind_of_type, narrowing_to, size_in};
ghost use Rattle.cheri_c_sem.specs.Expressions.{expr_tree, kind_tree, kind_at, bare_type, narrowing_of, conversion};
ghost use Rattle.cheri_c_sem.specs.Expressions.{assignment, compound_by, step_operation, step_kind, sign_of, type_of};
ghost use Rattle.mean_types.specs.Views.{kind_of};
ghost use Rattle.mean_operations.specs.Answers.{IsAccess, seen};
ghost use Rattle.mean_operations.specs.Views.{operation_of};
ghost use Rattle.mean_steps.specs.Machine.{finish_item};
ghost use Rattle.mean_steps.specs.Parts.{Came, answer, point_to};
ghost use Rattle.mean_run.specs.Changes.{changed_by, changes};
ghost use Rattle.mean_run.specs.Choices.{is_binary};
ghost use Rattle.mean_run.specs.Finished.{FinishedBy};
ghost use Rattle.mean_run.specs.Parts.{Does, Gives, Unless_wanting, given_in};
ghost use Rattle.mean_run.specs.Sizes.{IsSizedBy, IsSmall, PointsToSmall};
ghost use Rattle.mean_run.specs.Sources.{IsFit, IsSource, IsNode};
ghost use Rattle.mean_run.specs.Steps.{IsPeeled, is_kept, is_call};
ghost use Rattle.mean_run.specs.Views.{moment_of, now_of, vars_at, funs_of};
ghost use Rattle.mean_work.specs.Places.{place_of};

use crate::choices::kind_at;
use crate::operations::{Change, binary_operation, compound_change, step_change};
use crate::places::{copy, type_of, unit, within_limit};
use crate::state::{Source, State};
use crate::storage::Storage;
use c_tree::{Expr, ExprKind, Typed, UnaryOp};
use cap_layout::owned;
use ck_base::Pos;
use ck_int::{CmpOp, IntOp};
use mean_operations::{Operation, Operations, compared, converted, operated, signed};
use mean_types::{Kind, NOTHING, truth};
use mean_work::{Place, Stop, fault_end};
use obj_mem::{Fault, Value};

/// What a member of so many bytes owns.
fn owned_length(size: u64) -> u64
    requires { size ≤ 67108864 }
    ensures { result ≡ owned size }
{
    owned(size).length
}

/// Whether the pointer to what an expression designates is narrowed.
fn is_member(p: &Typed, k: u32) -> bool
    ensures { (vars : List VarDef) → narrowing_of p.now vars (slice_get p.now.exprs k) ≡ (if result
        then Some (narrowing_to (size_in p.now.types (type_of (slice_get p.now.exprs k)))) else None) }
{
    match p.exprs.as_slice().get(k as usize) {
        None => false,
        Some(e) => matches!(&e.kind, ExprKind::Member(_, _)),
    }
}

/// A truth that is answered, as a value.
fn truth_of(answer: Result<bool, Fault>) -> Result<Value, Fault>
    ensures { (ops : Operations Store) → seen result ≡ on_ok ops (λ b. Ok (sem.truth b)) answer }
{
    match answer {
        Err(f) => Err(f),
        Ok(b) => Ok(truth(b)),
    }
}

impl State {
    pub fn give_nothing(&mut self) -> Result<(), Stop>
        ensures { Unless_wanting result (self.new ≡ record self.old { values = NOTHING ∷ self.old.values }) }
    {
        self.give_value(NOTHING)
    }

    pub fn give_value(&mut self, v: Value) -> Result<(), Stop>
        ensures { Unless_wanting result (self.new ≡ record self.old { values = v ∷ self.old.values }) }
    {
        Ok(self.give(v)?)
    }

    /// The answer of an operation at a position is given, or the run ends.
    pub fn give_answer(&mut self, found: Result<Value, Fault>, pos: Pos) -> Result<(), Stop>
        ensures { (p : Typed) (held : Store) →
            Does (given_in (answer pos (seen found) (now_of self.old held)) (moment_of p self.old held))
            (moment_of p self.new held) result }
    {
        match found {
            Err(f) => Err(Stop::Ended(fault_end(f, pos))),
            Ok(v) => self.give_value(v),
        }
    }

    /// What a part came to is given, or the run ends.
    fn give_result(&mut self, value: Result<Value, Stop>) -> Result<(), Stop>
        ensures { (p : Typed) (held : Store) (c : Came Store values.Value) →
            Gives c value_of (now_of self.old held) value →
            Does (given_in c (moment_of p self.old held)) (moment_of p self.new held) result }
    {
        match value {
            Err(stop) => Err(stop),
            Ok(v) => self.give_value(v),
        }
    }

    /// The operation of expression e, which is no call, gives its value.
    pub fn finish_of<B: Storage>(
        &mut self,
        m: &mut B,
        s: &Source<'_>,
        f: u32,
        k: u32,
        e: &Expr,
    ) -> Result<(), Stop>
        requires source { IsSource s.now }
        requires no_call { is_call e.now.kind ≡ false }
        ensures same { B.meaning m.new ≡ B.meaning m.old }
        ensures does { IsFit s.now.p.now → IsNode s.now.p.now k e.now →
            IsPeeled s.now.p.now (vars_at s.now.p.now f) e.now → IsSizedBy s.now.p.now e.now.of e.now.kind →
            Does (finish_item (B.meaning m.old)
            (funs_of s.now.p.now) (expr_tree s.now.p.now (vars_at s.now.p.now f) k)
            (moment_of s.now.p.now self.old (B.held m.old)))
            (moment_of s.now.p.now self.new (B.held m.new)) result }
    {
        self.finish_by(m, s, f, e)
    }

    fn finish_by<B: Storage>(
        &mut self,
        m: &mut B,
        s: &Source<'_>,
        f: u32,
        e: &Expr,
    ) -> Result<(), Stop>
        requires source { IsSource s.now }
        requires no_call { is_call e.now.kind ≡ false }
        ensures same { B.meaning m.new ≡ B.meaning m.old }
        ensures does { IsFit s.now.p.now → FinishedBy (B.meaning m.old) s.now.p.now f (B.held m.old) (B.held m.new)
            self.old self.new result e.now.of e.now.pos e.now.kind }
    {
        match &e.kind {
            ExprKind::Load(_) => self.loaded(m, s, e),
            ExprKind::Decay(a) => self.pointer_to(m, s, *a, e.pos),
            ExprKind::Address(a) => self.pointer_to(m, s, *a, e.pos),
            ExprKind::Member(_, _) => self.lose_place(),
            ExprKind::Deref(_) => self.lose_value(),
            ExprKind::Convert(a) => self.convert(m, s, *a, e.of, e.pos),
            ExprKind::Unary(op, a) => self.unary(m, *op, kind_at(s, *a), e.pos),
            ExprKind::Compare(op, a, _) => self.compare(m, *op, kind_at(s, *a), e.pos),
            ExprKind::Assign(a, _) => self.assign(m, s, *a, e),
            ExprKind::Compound(op, a, b, t) => self.compound(m, s, *op, *a, *b, *t, e.pos),
            ExprKind::Step(a, adds, front) => self.step_by(m, s, *a, *adds, *front, e.pos),
            ExprKind::Int(_, _, _) => self.binary(m, s, e),
            ExprKind::Capability(_, _, _, _) => self.binary(m, s, e),
            ExprKind::Plus(_, _, _) => self.binary(m, s, e),
            ExprKind::Difference(_, _) => self.binary(m, s, e),
            _ => self.give_nothing(),
        }
    }

    /// What designates a member has no value of its own.
    fn lose_place(&mut self) -> Result<(), Stop>
        ensures { (p : Typed) (ops : Operations Store) (held : Store) (pos : Pos) (offset : ℕ) (x : Ex) →
            Does (finish_item ops (funs_of p) (Member pos offset x) (moment_of p self.old held))
            (moment_of p self.new held) result }
    {
        self.take_place();
        self.give_nothing()
    }

    /// And what designates by a pointer.
    fn lose_value(&mut self) -> Result<(), Stop>
        ensures { (p : Typed) (ops : Operations Store) (held : Store) (pos : Pos) (x : Ex) →
            Does (finish_item ops (funs_of p) (Deref pos x) (moment_of p self.old held))
            (moment_of p self.new held) result }
    {
        self.take();
        self.give_nothing()
    }

    /// A binary operation.
    fn binary<B: Operations>(&mut self, m: &B, s: &Source<'_>, e: &Expr) -> Result<(), Stop>
        requires { IsSource s.now }
        ensures { IsFit s.now.p.now → (vars : List VarDef) → IsSizedBy s.now.p.now e.now.of e.now.kind →
            is_binary e.now.kind ≡ true →
            Does (finish_item (B.meaning m.now) (funs_of s.now.p.now)
            (kind_tree s.now.p.now vars (expr_tree s.now.p.now vars) e.now.of e.now.pos e.now.kind)
            (moment_of s.now.p.now self.old (B.held m.now)))
            (moment_of s.now.p.now self.new (B.held m.now)) result }
    {
        match binary_operation(s, e) {
            None => self.give_nothing(),
            Some(operation) => self.operate(m, operation, e.pos),
        }
    }

    /// A compound assignment.
    fn compound<B: Operations>(
        &mut self,
        m: &mut B,
        s: &Source<'_>,
        op: IntOp,
        a: u32,
        b: u32,
        computed: u32,
        pos: Pos,
    ) -> Result<(), Stop>
        requires { IsSource s.now }
        ensures same { B.meaning m.new ≡ B.meaning m.old }
        ensures does { IsFit s.now.p.now → (vars : List VarDef) →
            PointsToSmall s.now.p.now (bare s.now.p.now.types computed) → (x y : Ex) →
            Does (finish_item (B.meaning m.old)
            (funs_of s.now.p.now) (Compound pos (compound_by s.now.p.now vars op (bare s.now.p.now.types computed) a b
            (expr_tree s.now.p.now vars b)) (kind_at s.now.p.now vars a)
            (kind_of_type (bare s.now.p.now.types computed)) false x y)
            (moment_of s.now.p.now self.old (B.held m.old)))
            (moment_of s.now.p.now self.new (B.held m.new)) result }
    {
        self.change(m, compound_change(s, op, a, b, computed), pos)
    }

    /// A step up or down.
    fn step_by<B: Operations>(
        &mut self,
        m: &mut B,
        s: &Source<'_>,
        a: u32,
        adds: bool,
        front: bool,
        pos: Pos,
    ) -> Result<(), Stop>
        requires { IsSource s.now }
        ensures same { B.meaning m.new ≡ B.meaning m.old }
        ensures does { (vars : List VarDef) → PointsToSmall s.now.p.now (bare_type s.now.p.now vars a) →
            (x y : Ex) → Does (finish_item (B.meaning m.old)
            (funs_of s.now.p.now) (Compound pos (step_operation s.now.p.now vars adds (bare_type s.now.p.now vars a))
            (kind_at s.now.p.now vars a) (step_kind s.now.p.now vars (kind_at s.now.p.now vars a)) (not front) x y)
            (moment_of s.now.p.now self.old (B.held m.old)))
            (moment_of s.now.p.now self.new (B.held m.new)) result }
    {
        self.change(m, step_change(s, a, adds, front), pos)
    }

    fn operate<B: Operations>(&mut self, m: &B, operation: Operation, pos: Pos) -> Result<(), Stop>
        ensures { (p : Typed) (o : tree.Operation) (x y : Ex) → operation_of operation ≡ o →
            Does (finish_item (B.meaning m.now) (funs_of p) (Binary pos o x y)
            (moment_of p self.old (B.held m.now))) (moment_of p self.new (B.held m.now)) result }
    {
        let y = self.take();
        let x = self.take();
        self.give_answer(operated(m, operation, x, y), pos)
    }

    fn unary<B: Operations>(&mut self, m: &B, op: UnaryOp, kind: Kind, pos: Pos) -> Result<(), Stop>
        ensures { (p : Typed) (k : sem.Kind) (x : Ex) → kind_of kind ≡ k →
            Does (finish_item (B.meaning m.now) (funs_of p) (sign_of pos k x op)
            (moment_of p self.old (B.held m.now))) (moment_of p self.new (B.held m.now)) result }
    {
        let v = self.take();
        self.give_answer(signed(m, op, kind, v), pos)
    }

    fn loaded<B: Operations>(&mut self, m: &B, s: &Source<'_>, e: &Expr) -> Result<(), Stop>
        requires { IsSource s.now }
        ensures { (x : Ex) → Does (finish_item (B.meaning m.now) (funs_of s.now.p.now)
            (if is_record (bare s.now.p.now.types e.now.of) then Aggregate x
            else Load (kind_of_type (bare s.now.p.now.types e.now.of)) x)
            (moment_of s.now.p.now self.old (B.held m.now)))
            (moment_of s.now.p.now self.new (B.held m.now)) result }
    {
        let facts = s.types.facts(s.p, e.of);
        let from = self.take_place();
        if facts.record {
            self.give_nothing()
        } else {
            let v = self.load(m, facts.kind_or_int(), from);
            self.give_result(v)
        }
    }

    /// A place, an array or a function as a pointer; the one to a member is narrowed, and its length is noted.
    fn pointer_to<B: Storage>(
        &mut self,
        m: &mut B,
        s: &Source<'_>,
        a: u32,
        pos: Pos,
    ) -> Result<(), Stop>
        requires { IsSource s.now }
        ensures same { B.meaning m.new ≡ B.meaning m.old }
        ensures does { (vars : List VarDef) → IsSmall s.now.p.now (type_of (slice_get s.now.p.now.exprs a)) →
            (x : Ex) → Does (finish_item (B.meaning m.old)
            (funs_of s.now.p.now) (Pointer_to pos (narrowing_of s.now.p.now vars (slice_get s.now.p.now.exprs a)) x)
            (moment_of s.now.p.now self.old (B.held m.old)))
            (moment_of s.now.p.now self.new (B.held m.new)) result }
    {
        let to = self.take_place().capability();
        if is_member(s.p, a) {
            let own = within_limit(s.types.facts(s.p, type_of(s.p, a)).size);
            self.point_to_member(m, to, own, pos)
        } else {
            self.give_value(to)
        }
    }

    fn point_to_member<B: Storage>(
        &mut self,
        m: &mut B,
        to: Value,
        own: u64,
        pos: Pos,
    ) -> Result<(), Stop>
        requires { own ≤ 67108864 }
        ensures same { B.meaning m.new ≡ B.meaning m.old }
        ensures does { (p : Typed) (place : meaning.Place) → value_of to ≡ capability_of place →
            Does (given_in (point_to (B.meaning m.old) pos (Some (narrowing_to own)) place
            (now_of self.old (B.held m.old))) (moment_of p self.old (B.held m.old)))
            (moment_of p self.new (B.held m.new)) result }
    {
        match m.narrow(to, owned_length(own), true) {
            Err(f) => Err(Stop::Ended(fault_end(f, pos))),
            Ok(r) => match m.note_member(r, own) {
                Err(_) => Err(Stop::NoMemory),
                Ok(()) => self.give_value(r),
            },
        }
    }

    fn convert<B: Operations>(
        &mut self,
        m: &B,
        s: &Source<'_>,
        a: u32,
        of: u32,
        pos: Pos,
    ) -> Result<(), Stop>
        requires { IsSource s.now }
        ensures { (vars : List VarDef) (x : Ex) →
            is_kept (bare_type s.now.p.now vars a) (bare s.now.p.now.types of) ≡ true →
            Does (finish_item (B.meaning m.now) (funs_of s.now.p.now) (conversion s.now.p.now vars pos
            (bare_type s.now.p.now vars a) (bare s.now.p.now.types of) x)
            (moment_of s.now.p.now self.old (B.held m.now)))
            (moment_of s.now.p.now self.new (B.held m.now)) result }
    {
        let v = self.take();
        let facts = s.types.facts(s.p, of);
        if facts.void {
            self.give_nothing()
        } else {
            self.give_answer(converted(m, kind_at(s, a), facts.kind_or_int(), v), pos)
        }
    }

    fn compare<B: Operations>(&mut self, m: &B, op: CmpOp, kind: Kind, pos: Pos) -> Result<(), Stop>
        ensures { (p : Typed) (k : sem.Kind) (x y : Ex) → kind_of kind ≡ k →
            Does (finish_item (B.meaning m.now) (funs_of p) (Compare pos op k x y)
            (moment_of p self.old (B.held m.now))) (moment_of p self.new (B.held m.now)) result }
    {
        let y = self.take();
        let x = self.take();
        self.give_answer(truth_of(compared(m, op, kind, x, y)), pos)
    }

    fn assign<B: Operations>(
        &mut self,
        m: &mut B,
        s: &Source<'_>,
        a: u32,
        e: &Expr,
    ) -> Result<(), Stop>
        requires { IsSource s.now }
        ensures same { B.meaning m.new ≡ B.meaning m.old }
        ensures does { IsFit s.now.p.now → (vars : List VarDef) → IsSmall s.now.p.now e.now.of → (x y : Ex) →
            Does (finish_item (B.meaning m.old) (funs_of s.now.p.now)
            (assignment s.now.p.now vars e.now.pos e.now.of a x y)
            (moment_of s.now.p.now self.old (B.held m.old)))
            (moment_of s.now.p.now self.new (B.held m.new)) result }
    {
        let facts = s.types.facts(s.p, e.of);
        if facts.record {
            self.copy_over(m, e.pos, facts.size, unit(&facts))
        } else {
            self.put(m, kind_at(s, a))
        }
    }

    /// A struct or union is copied.
    fn copy_over<B: Operations>(
        &mut self,
        m: &mut B,
        pos: Pos,
        bytes: u64,
        unit: u64,
    ) -> Result<(), Stop>
        requires { IsAccess unit }
        ensures same { B.meaning m.new ≡ B.meaning m.old }
        ensures does { (p : Typed) (x y : Ex) → Does (finish_item (B.meaning m.old) (funs_of p)
            (Copy pos bytes unit x y) (moment_of p self.old (B.held m.old)))
            (moment_of p self.new (B.held m.new)) result }
    {
        let from = self.take_place();
        let to = self.take_place();
        match copy(m, pos, bytes, unit, from, to) {
            Err(stop) => Err(stop),
            Ok(()) => self.give_nothing(),
        }
    }

    /// A value of a kind goes to a place.
    fn put<B: Operations>(&mut self, m: &mut B, kind: Kind) -> Result<(), Stop>
        ensures same { B.meaning m.new ≡ B.meaning m.old }
        ensures does { (p : Typed) (k : sem.Kind) (x y : Ex) → kind_of kind ≡ k →
            Does (finish_item (B.meaning m.old) (funs_of p) (Assign k x y)
            (moment_of p self.old (B.held m.old))) (moment_of p self.new (B.held m.new)) result }
    {
        let v = self.take();
        let to = self.take_place();
        match self.store(m, kind, to, v) {
            Err(stop) => Err(stop),
            Ok(()) => self.give_value(v),
        }
    }

    /// A compound assignment (C11 6.5.16.2) or a step: load, conversion, operation, conversion, store.
    fn change<B: Operations>(&mut self, m: &mut B, change: Change, pos: Pos) -> Result<(), Stop>
        ensures same { B.meaning m.new ≡ B.meaning m.old }
        ensures does { (p : Typed) (o : tree.Operation) (j k : sem.Kind) (old : Bool) (x y : Ex) →
            operation_of change.operation ≡ o → kind_of change.place ≡ j → kind_of change.computed ≡ k →
            change.old ≡ old → Does (finish_item (B.meaning m.old) (funs_of p) (Compound pos o j k old x y)
            (moment_of p self.old (B.held m.old))) (moment_of p self.new (B.held m.new)) result }
    {
        let y = self.take();
        let to = self.take_place();
        match self.load(m, change.place, to) {
            Err(stop) => Err(stop),
            Ok(x) => self.change_to(m, change, pos, to, x, y),
        }
    }

    /// The same, where what is at the place is known.
    fn change_to<B: Operations>(
        &mut self,
        m: &mut B,
        change: Change,
        pos: Pos,
        to: Place,
        x: Value,
        y: Value,
    ) -> Result<(), Stop>
        ensures same { B.meaning m.new ≡ B.meaning m.old }
        ensures does { (p : Typed) → Does (given_in (changes (B.meaning m.old) pos (operation_of change.operation)
            (kind_of change.place) (kind_of change.computed) change.old (place_of to) (value_of x) (value_of y)
            (now_of self.old (B.held m.old))) (moment_of p self.old (B.held m.old)))
            (moment_of p self.new (B.held m.new)) result }
    {
        match changed(m, change, x, y) {
            Err(f) => Err(Stop::Ended(fault_end(f, pos))),
            Ok(z) => match self.store(m, change.place, to, z) {
                Err(stop) => Err(stop),
                Ok(()) => self.give_value(either(change.old, x, z)),
            },
        }
    }
}

/// What a compound assignment or a step gives: the old value or the new one.
fn either(old: bool, x: Value, z: Value) -> Value
    ensures { value_of result ≡ (if old then value_of x else value_of z) }
{
    if old { x } else { z }
}

/// What goes to the place of a compound assignment.
fn changed<B: Operations>(m: &B, change: Change, x: Value, y: Value) -> Result<Value, Fault>
    ensures { seen result ≡ changed_by (B.meaning m.now) (B.held m.now) (operation_of change.operation)
        (kind_of change.place) (kind_of change.computed) (value_of x) (value_of y) }
{
    match converted(m, change.place, change.computed, x) {
        Err(f) => Err(f),
        Ok(v) => match operated(m, change.operation, v, y) {
            Err(f) => Err(f),
            Ok(r) => converted(m, change.computed, change.place, r),
        },
    }
}
