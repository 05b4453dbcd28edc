//! What is passed, and the expressions and statements that are made for it.

ghost use Rattle.std.specs.Prelude.{◌≡◌, ◌++◌, ◌∷◌, ◌<◌, [], Some, IfOk, OnOk, length, slice_get};
ghost use Rattle.c_tree.specs.Terms.{leaf, step};
ghost use Rattle.c_tree.specs.Terms as tree;
ghost use Rattle.c_tree.specs.Views.{type_at};
ghost use Rattle.c_tree.specs.Passed.{behind};
ghost use Rattle.passing_nodes.specs.Steps.{Makes};

use crate::names::Names;
use crate::types::Types;
use c_tree::{CType, Expr, ExprKind, Stmt, StmtKind, Typed, VarDef};
use ck_base::{NoMemory, Pos};
use std::alloc::Global;

/// The program as it is written, and what is known of the one that is run.
#[derive(Clone, Copy)]
pub struct Source<'a> {
    pub alloc: Global,
    pub program: &'a Typed,
    pub types: &'a Types,
    pub names: &'a Names,
    /// The numbers of the variables of the function at work.
    pub numbers: &'a [u32],
}

/// What was made.
#[derive(Drop)]
pub struct Made {
    pub exprs: Vec<Expr>,
    pub stmts: Vec<Stmt>,
    /// The variables of the function at work.
    pub vars: Vec<VarDef>,
}

impl<'a> Source<'a> {
    /// The types as they are written.
    pub fn written_types(&self) -> &'a [CType]
        ensures { result.now ≡ self.now.program.now.types }
    {
        self.program.types.as_slice()
    }

    /// Expression `k` as it is written.
    pub fn expr(&self, k: u32) -> &'a Expr
        requires { k < length self.now.program.now.exprs }
        ensures { slice_get self.now.program.now.exprs k ≡ Some result.now }
    {
        match self.program.exprs.as_slice().get(k as usize) {
            Some(e) => e,
            None => unreachable!(),
        }
    }

    /// Statement `k` as it is written.
    pub fn stmt(&self, k: u32) -> &'a Stmt
        requires { k < length self.now.program.now.stmts }
        ensures { slice_get self.now.program.now.stmts k ≡ Some result.now }
    {
        match self.program.stmts.as_slice().get(k as usize) {
            Some(s) => s,
            None => unreachable!(),
        }
    }

    /// The new number of a variable.
    pub fn variable(&self, k: u32) -> u32
        requires { k < length self.now.numbers.now }
        ensures { slice_get self.now.numbers.now k ≡ Some result }
    {
        match self.numbers.get(k as usize).copied() {
            Some(v) => v,
            None => unreachable!(),
        }
    }
}

impl Made {
    /// The number of one expression more, at the end of the list: `NoMemory` where memory or the numbers end.
    pub fn push_expr(&mut self, kind: ExprKind, of: u32, pos: Pos) -> Result<u32, NoMemory>
        ensures exprs { OnOk result (self.new.exprs.items
            ≡ self.old.exprs.items ++ record { kind = kind; of = of; pos = pos } ∷ []) }
        ensures number { IfOk result (λ k. k ≡ length self.old.exprs.items) }
        ensures rest { OnOk result (self.new ≡ record self.old { exprs = self.new.exprs }) }
    {
        let Ok(k) = u32::try_from(self.exprs.len()) else {
            return Err(NoMemory);
        };
        self.exprs.push(Expr { kind, of, pos })?;
        Ok(k)
    }

    /// The number of one statement more, likewise.
    pub fn push_stmt(&mut self, kind: StmtKind, pos: Pos) -> Result<u32, NoMemory>
        ensures stmts { OnOk result (self.new.stmts.items
            ≡ self.old.stmts.items ++ record { kind = kind; pos = pos } ∷ []) }
        ensures number { IfOk result (λ k. k ≡ length self.old.stmts.items) }
        ensures rest { OnOk result (self.new ≡ record self.old { stmts = self.new.stmts }) }
    {
        let Ok(k) = u32::try_from(self.stmts.len()) else {
            return Err(NoMemory);
        };
        self.stmts.push(Stmt { kind, pos })?;
        Ok(k)
    }

    /// One variable more, at the end of the list.
    pub fn push_var(&mut self, v: VarDef) -> Result<(), NoMemory>
        ensures vars { OnOk result (self.new.vars.items ≡ self.old.vars.items ++ v ∷ []) }
        ensures rest { OnOk result (self.new ≡ record self.old { vars = self.new.vars }) }
    {
        self.vars.push(v)?;
        Ok(())
    }

    /// The number of the next variable: `NoMemory` where no number is left.
    pub fn next_var(&self) -> Result<u32, NoMemory>
        ensures { IfOk result (λ k. k ≡ length self.now.vars.items) }
    {
        match u32::try_from(self.vars.len()) {
            Ok(k) => Ok(k),
            Err(_) => Err(NoMemory),
        }
    }

    /// The number of an expression: what a variable points to.
    pub fn behind(&mut self, k: u32, pointer: u32, of: u32, pos: Pos) -> Result<u32, NoMemory>
        ensures { IfOk result (Makes self.old self.new pointer of
            (λ ts. step tree.Deref (step tree.Load (leaf (tree.Var k) (type_at ts pointer) pos)
            (type_at ts pointer) pos) (type_at ts of) pos)) }
    {
        let place = self.push_expr(ExprKind::Var(k), pointer, pos)?;
        let value = self.push_expr(ExprKind::Load(place), pointer, pos)?;
        self.push_expr(ExprKind::Deref(value), of, pos)
    }

    /// The number of an expression: the address of a variable.
    pub fn address(&mut self, k: u32, pointer: u32, of: u32, pos: Pos) -> Result<u32, NoMemory>
        ensures { IfOk result (Makes self.old self.new pointer of
            (λ ts. step tree.Address (leaf (tree.Var k) (type_at ts of) pos) (type_at ts pointer) pos)) }
    {
        let place = self.push_expr(ExprKind::Var(k), of, pos)?;
        self.push_expr(ExprKind::Address(place), pointer, pos)
    }
}
