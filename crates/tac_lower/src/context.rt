//! What the lowering of a function reads: the program, what is known of its types and expressions, and where variables
//! stand.

ghost use Rattle.std.specs.Prelude.{◌≡◌, ℕ, ◌≤◌, ◌<◌, true, false, List, length, MatchOption};
ghost use Rattle.std.specs.Prelude.{IfSome, Some, None, slice_get, unwrap_or};
ghost use Rattle.c_tree.specs.Types.{Ty, Pointer};
ghost use Rattle.c_tree.specs.WellTyped.{type_in};
ghost use Rattle.c_tree.specs.declared.typed.Expr.{Expr};
ghost use Rattle.c_tree.specs.declared.typed.FunDef.{FunDef};
ghost use Rattle.c_tree.specs.declared.typed.VarDef.{VarDef};
ghost use Rattle.tac_ir.specs.declared.code.TacKind.TheVariants as kinds;
ghost use Rattle.tac_emit.specs.declared.emitter.Emitter.{Emitter};
ghost use Rattle.tac_emit.specs.Emitted.{HasKind};
ghost use Rattle.c_tree.specs.Terms.{type_of};
ghost use Rattle.tac_lower.specs.Nodes.{kept_as, or_int, points, expression, scalar_in, kind_in, IsTyped};
ghost use Rattle.tac_lower.specs.Scenes.{Ready, Housed, frame_of};
ghost use Rattle.tac_lower.specs.Signed.{NamesType};
ghost use Rattle.cheri_c_sem.specs.Types.{is_record, narrowing_to, offset_in, pointee_of, unit_of};
ghost use Rattle.c_tree.specs.Layout.{bare};
ghost use Rattle.tac_ir.specs.WellFormed.{units_fit};
ghost use Rattle.tac_lower.specs.Tables.{is_some, record_size, AreSmall, IsSmall, FactsFit, IsPointed};
ghost use Rattle.tac_lower.specs.Tables.{type_at, narrowing_at};
ghost use Rattle.c_tree.specs.Counts.{parts};
ghost use Rattle.tac_lower.specs.Copied.{copied_in};
ghost use Rattle.tac_lower.specs.Trees.{written_in, pos_in, setting, Located, IsNode, IsVariable, IsObject};
ghost use Rattle.c_tree.specs.declared.typed.ExprKind.TheVariants as exprs;
ghost use Rattle.tac_ir.specs.declared.code.TacKind.{TacKind};
ghost use Rattle.tac_lower.specs.declared.context.Home.TheVariants as home;

use crate::types::{NO_FACTS, TypeFacts, facts_at, member_offset, or_int};
use crate::writes::{Written, written_at};
use c_tree::{Expr, ExprKind, FunDef, Stmt, Typed};
use ck_base::Pos;
use std::alloc::Global;
use tac_ir::TacKind;

/// Where a variable stands.
#[derive(Clone, Copy)]
pub enum Home {
    /// Its value is in a temp of this kind.
    Temp(u32, TacKind),
    /// It is an object, by its number among these, and a temp has the pointer to it.
    Object(u32, u32),
}

/// The program, and the function's variables.
#[derive(Clone, Copy)]
pub struct Context<'a> {
    pub alloc: Global,
    pub p: &'a Typed,
    /// The function.
    pub d: &'a FunDef,
    /// The facts of the types.
    pub types: &'a [TypeFacts],
    /// What the expressions write.
    pub writes: &'a [Written],
    /// The variables.
    pub homes: &'a [Home],
    /// How many temps belong to variables. Those from here on belong to expressions.
    pub fixed: u32,
}

impl<'a> Context<'a> {
    /// Expression `k`.
    pub fn node(self, k: u32) -> Option<&'a Expr>
        ensures { MatchOption result (slice_get self.entry.p.now.exprs k ≡ None)
            (λ e. slice_get self.entry.p.now.exprs k ≡ Some e.now) }
    {
        self.p.exprs.as_slice().get(k as usize)
    }

    /// Statement `k`.
    pub fn stmt(self, k: u32) -> Option<&'a Stmt>
        ensures { MatchOption result (slice_get self.entry.p.now.stmts k ≡ None)
            (λ s. slice_get self.entry.p.now.stmts k ≡ Some s.now) }
    {
        self.p.stmts.as_slice().get(k as usize)
    }

    /// The number of an expression's type.
    pub fn type_of(self, k: u32) -> u32
        ensures { result ≡ type_at self.entry.p.now k }
    {
        match self.node(k) {
            None => 0,
            Some(e) => e.of,
        }
    }

    /// The position of an expression.
    pub fn pos(self, k: u32) -> Pos
        ensures { result ≡ pos_in self.entry.p.now k }
    {
        match self.node(k) {
            None => Pos { line: 0, col: 0 },
            Some(e) => e.pos,
        }
    }

    /// The facts of an expression's type.
    pub fn facts(self, k: u32) -> TypeFacts
        ensures kept { Ready self.entry.p.now self.entry.types.now → result.kind ≡ scalar_in self.entry.p.now k }
        ensures points { Ready self.entry.p.now self.entry.types.now →
            is_some result.target ≡ points (type_of (expression self.entry.p.now k)) }
        ensures pointed { (t : Ty) → Ready self.entry.p.now self.entry.types.now →
            type_of (expression self.entry.p.now k) ≡ Pointer t
            → NamesType self.entry.p.now result.target t }
        ensures copied { Ready self.entry.p.now self.entry.types.now →
            copied_in self.entry.p.now k ≡ parts (record_size result) }
        ensures target { (e : Expr) → Ready self.entry.p.now self.entry.types.now →
            slice_get self.entry.p.now.exprs k ≡ Some e →
            unwrap_or result.target 0 ≡ pointee_of (bare self.entry.p.now.types e.of) }
        ensures record { (e : Expr) → Ready self.entry.p.now self.entry.types.now →
            slice_get self.entry.p.now.exprs k ≡ Some e → result.record ≡ is_record (bare self.entry.p.now.types e.of) }
        ensures units { Ready self.entry.p.now self.entry.types.now →
            units_fit (record_size result) (unit_of result.align) ≡ true }
        ensures fits { (e : Expr) → Ready self.entry.p.now self.entry.types.now →
            slice_get self.entry.p.now.exprs k ≡ Some e → FactsFit self.entry.p.now.types e.of result }
    {
        match self.node(k) {
            None => NO_FACTS,
            Some(e) => facts_at(self.types, e.of),
        }
    }

    /// The kind of an expression's value, where it is a scalar.
    pub fn scalar(self, k: u32) -> Option<TacKind>
        ensures { Ready self.entry.p.now self.entry.types.now → result ≡ scalar_in self.entry.p.now k }
    {
        self.facts(k).kind
    }

    /// The kind of an expression's value; where it is none, that of an `int`.
    pub fn kind(self, k: u32) -> TacKind
        ensures { Ready self.entry.p.now self.entry.types.now → result ≡ kind_in self.entry.p.now k }
    {
        or_int(self.scalar(k))
    }

    /// The kind of the values of a type; where it has none, that of an `int`.
    pub fn kind_of_type(self, t: u32) -> TacKind
        ensures { Ready self.entry.p.now self.entry.types.now → result ≡ or_int (kept_as (type_in self.entry.p.now t)) }
    {
        or_int(facts_at(self.types, t).kind)
    }

    /// The size of place `k`, if it is a member.
    pub fn member_size(self, k: u32) -> Option<u64>
        ensures { (vars : List VarDef) → Ready self.entry.p.now self.entry.types.now →
            MatchOption result (narrowing_at self.entry.p.now vars k ≡ None)
            (λ n. IsSmall self.entry.p.now.types (type_at self.entry.p.now k) →
            narrowing_at self.entry.p.now vars k ≡ Some (narrowing_to n)) }
    {
        match self.node(k) {
            None => None,
            Some(e) => match e.kind {
                ExprKind::Member(_, _) => Some(self.facts(k).size),
                _ => None,
            },
        }
    }

    /// The size of what a type points to, if it is a pointer.
    pub fn element(self, t: u32) -> Option<u64>
        ensures is { Ready self.entry.p.now self.entry.types.now →
            is_some result ≡ points (type_in self.entry.p.now t) }
        ensures size { Ready self.entry.p.now self.entry.types.now →
            IfSome result (IsPointed self.entry.p.now.types t) }
    {
        match facts_at(self.types, t).target {
            None => None,
            Some(of) => Some(facts_at(self.types, of).size),
        }
    }

    /// The size of what expression `k` points to, if it is a pointer.
    pub fn pointed_size(self, k: u32) -> Option<u64>
        ensures is { Ready self.entry.p.now self.entry.types.now →
            is_some result ≡ points (type_of (expression self.entry.p.now k)) }
        ensures size { Ready self.entry.p.now self.entry.types.now →
            IfSome result (IsPointed self.entry.p.now.types (type_at self.entry.p.now k)) }
    {
        match self.facts(k).target {
            None => None,
            Some(of) => Some(facts_at(self.types, of).size),
        }
    }

    /// Where a member begins in the struct or union of expression `a`.
    pub fn member_offset(self, a: u32, member: u32) -> u64
        requires ready { Ready self.p.now self.types.now }
        ensures { AreSmall self.entry.p.now.types (type_at self.entry.p.now a) →
            result ≡ offset_in self.entry.p.now.types (type_at self.entry.p.now a) member }
    {
        member_offset(self.p, self.types, self.type_of(a), member)
    }

    /// What expression `k` writes.
    pub fn written(self, k: u32) -> Written
        ensures { result ≡ written_in self.entry.writes.now k }
    {
        written_at(self.writes, k)
    }

    /// Where a variable stands.
    pub fn home(self, x: u32) -> Option<Home>
        ensures { result ≡ slice_get self.entry.homes.now x }
    {
        self.homes.get(x as usize).copied()
    }

    /// The temp of variable `x`, if it is no object.
    pub fn value_of_variable(self, x: u32) -> Option<u32>
        ensures stands { IfSome result (λ t. (k : TacKind) ×
            (slice_get self.entry.homes.now x ≡ Some (home.Temp t k))) }
        ensures other { MatchOption result
            ((t : ℕ) (k : TacKind) → slice_get self.entry.homes.now x ≡ Some (home.Temp t k) → ⊥) (λ _. Unit {0}) }
        ensures has { (d : FunDef) (e : Emitter) (v : VarDef) → Housed self.entry.p.now d self.entry.homes.now e
            → slice_get d.vars x ≡ Some v
            → IfSome result (λ t. HasKind e t (or_int (kept_as (type_in self.entry.p.now v.of)))) }
    {
        match self.home(x) {
            Some(Home::Temp(t, _)) => Some(t),
            _ => None,
        }
    }

    /// The temp with the pointer to variable `x`, if it is an object.
    pub fn pointer_to_variable(self, x: u32) -> Option<u32>
        ensures stands { IfSome result (λ t. (n : ℕ) ×
            (slice_get self.entry.homes.now x ≡ Some (home.Object n t))) }
        ensures other { MatchOption result
            ((n t : ℕ) → slice_get self.entry.homes.now x ≡ Some (home.Object n t) → ⊥) (λ _. Unit {0}) }
        ensures has { (d : FunDef) (e : Emitter) → Housed self.entry.p.now d self.entry.homes.now e
            → IfSome result (λ t. HasKind e t (kinds.Cap false)) }
    {
        match self.home(x) {
            Some(Home::Object(_, t)) => Some(t),
            _ => None,
        }
    }

    /// The number of the variable that is place `a`, if it is one.
    pub fn named_variable(self, a: u32) -> Option<u32>
        ensures { IfSome result (λ x. IsNode self.entry.p.now a (exprs.Var x)) }
    {
        match self.node(a) {
            None => None,
            Some(e) => match e.kind {
                ExprKind::Var(x) => Some(x),
                _ => None,
            },
        }
    }

    /// The temp of the variable that is place `a`, if it is one and no object.
    pub fn variable(self, a: u32) -> Option<u32>
        ensures stands { IfSome result (λ t. IsVariable self.entry.p.now self.entry.homes.now a t) }
        ensures other { MatchOption result (Located (setting self.entry) a) (λ _. Unit {0}) }
        ensures has { (e : Emitter) → Ready self.entry.p.now self.entry.types.now →
            IsTyped (frame_of self.entry.p.now self.entry.d.now) a
            → Housed self.entry.p.now self.entry.d.now self.entry.homes.now e →
            IfSome result (λ t. HasKind e t (kind_in self.entry.p.now a)) }
    {
        match self.node(a) {
            None => None,
            Some(e) => match e.kind {
                ExprKind::Var(x) => self.value_of_variable(x),
                _ => None,
            },
        }
    }

    /// The temp with the pointer to the object that is place `a`, if it is a variable and an object.
    pub fn object(self, a: u32) -> Option<u32>
        ensures stands { IfSome result (λ t. IsObject self.entry.p.now self.entry.homes.now a t) }
        ensures has { (d : FunDef) (e : Emitter) → Housed self.entry.p.now d self.entry.homes.now e
            → IfSome result (λ t. HasKind e t (kinds.Cap false)) }
    {
        match self.named_variable(a) {
            None => None,
            Some(x) => self.pointer_to_variable(x),
        }
    }

    /// A variable is a parameter: these come first.
    pub fn is_parameter(self, x: u32) -> bool
        ensures parameter { result ≡ true → x < length self.entry.d.now.params }
        ensures other { result ≡ false → length self.entry.d.now.params ≤ x }
    {
        (x as usize) < self.d.params.as_slice().len()
    }

    /// A temp belongs to an expression.
    pub fn is_own(self, t: u32) -> bool
        ensures own { result ≡ true → self.entry.fixed ≤ t }
        ensures other { result ≡ false → t < self.entry.fixed }
    {
        t >= self.fixed
    }
}
