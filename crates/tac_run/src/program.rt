//! The code that runs, and what is known beside it.
ghost use Rattle.std.specs.Prelude.{◌≡◌, ◌+◌, ◌^◌, ◌<◌, [], length, slice_get};
ghost use Rattle.cheri_c_sem.specs.Expressions.{permissions_of};
ghost use Rattle.mean_types.specs.Facts.{AreTypesOf};
ghost use Rattle.tac_ir.specs.Meaning.{code_of, kinds_of, name_of};
ghost use Rattle.tac_run.specs.Lists.{vars_of};

use c_tree::{Typed, VarDef};
use ck_base::Pos;
use mean_types::Types;
use std::alloc::Global;
use tac_ir::{Tac, TacInstr, TacKind};

/// The permissions of pointers to objects, and of those to objects that are not written.
pub const DATA: u16 = 125;

pub const CONST: u16 = 21;

/// Code, its program, and the facts of the program's types.
#[derive(Clone, Copy)]
pub struct Program<'a> {
    pub alloc: Global,
    pub t: &'a Tac,
    pub p: &'a Typed,
    pub types: &'a Types,
}

impl<'a> Program<'a> {
    pub fn code(self, f: u32) -> &'a [TacInstr]
        ensures { result.now ≡ code_of (slice_get self.entry.t.now.funs f) }
    {
        match self.t.funs.as_slice().get(f as usize) {
            None => &[],
            Some(f) => f.code.as_slice(),
        }
    }

    pub fn kinds(self, f: u32) -> &'a [TacKind]
        ensures { result.now ≡ kinds_of (slice_get self.entry.t.now.funs f) }
    {
        match self.t.funs.as_slice().get(f as usize) {
            None => &[],
            Some(f) => f.kinds.as_slice(),
        }
    }

    /// The position of a function's name.
    pub fn name(self, f: u32) -> Pos
        ensures { result ≡ name_of (slice_get self.entry.t.now.funs f) }
    {
        match self.t.funs.as_slice().get(f as usize) {
            None => Pos { line: 0, col: 0 },
            Some(f) => f.name,
        }
    }

    /// The variables of a function.
    pub fn variables(self, f: u32) -> &'a [VarDef]
        ensures { result.now ≡ vars_of (slice_get self.entry.p.now.funs f) }
    {
        match self.p.funs.as_slice().get(f as usize) {
            None => &[],
            Some(d) => d.vars.as_slice(),
        }
    }

    /// The permissions of pointers to a global.
    pub fn permissions(self, number: u32) -> u16
        requires { AreTypesOf self.p.now.types self.types.now }
        ensures { result ≡ permissions_of self.entry.p.now [] (slice_get self.entry.p.now.globals number) }
    {
        match self.p.globals.as_slice().get(number as usize) {
            None => DATA,
            Some(g) if self.types.facts(self.p, g.of).constant => CONST,
            Some(_) => DATA,
        }
    }

    /// The number of the object of a literal: the literals follow the globals.
    pub fn literal(self, number: u32) -> u64
        ensures { result ≡ length self.entry.p.now.globals + number }
    {
        self.p.globals.as_slice().len() as u64 + u64::from(number)
    }
}
