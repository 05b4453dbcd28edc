//! The functions of a program, and which of their variables are objects.
ghost use Rattle.std.specs.Prelude.{◌≡◌, ◌+◌, ◌-◌, ◌<◌, ◌^◌, ◌⊎◌, not, [], length, IfOk, Some, option_map};
ghost use Rattle.std.specs.Prelude.{slice_get, if◌then◌else◌};
ghost use Rattle.c_tree.specs.declared.typed.Typed.{Typed};
ghost use Rattle.cheri_c_sem.specs.Types.{objects_before, is_simple};
ghost use Rattle.mean_run.specs.Views.{vars_at};
ghost use Rattle.mean_run.specs.Locals.{AreCounts, AreLocals};

use c_tree::{FunDef, Typed, VarDef};
use ck_base::{NoMemory, Sequence};
use std::alloc::Global;
use std::marker::Model;

/// For each function and each number of its variables, how many objects there are among the first so many.
#[derive(Drop)]
pub struct Locals {
    counts: Vec<Sequence<u64>>,
}

impl Model for Locals {
    ghost use Rattle.std.specs.Prelude.{List, ℕ};

    ghost Value = { List (List ℕ) };

    ghost view = { λ s. s.counts.items };
}

/// One more, for a variable that is an object.
fn more(before: u64, simple: bool) -> u64
    ensures { before + 1 < 2 ^ 64 → result ≡ before + (if simple then 0 else 1) }
{
    if simple {
        before
    } else {
        before.wrapping_add(1)
    }
}

/// How many objects there are among the first n variables, for each n.
fn counts_of(alloc: Global, vars: &[VarDef]) -> Result<Sequence<u64>, NoMemory>
    ensures { IfOk result (λ counts. AreCounts vars.now counts) }
{
    let mut counts = Vec::new(alloc);
    let mut before: u64 = 0;
    counts.push(before)?;
    'vars: for v in vars {
        before = more(before, v.simple);
        counts.push(before)?;
    }
    Ok(Sequence::from_vec(counts))
}

/// The last of the counts of a function.
fn last_of(counts: &[u64]) -> u64
    ensures { slice_get counts.now (length counts.now - 1) ≡ Some result ⊎ (counts.now ≡ []) }
{
    match counts {
        [] => 0,
        [.., n] => *n,
    }
}

impl Locals {
    pub fn new(alloc: Global, p: &Typed) -> Result<Locals, NoMemory>
        ensures { IfOk result (λ s. AreLocals p.now.funs s) }
    {
        let mut counts = Vec::new(alloc);
        'funs: for f in p.funs.as_slice() {
            counts.push(counts_of(alloc, f.vars.as_slice())?)?;
        }
        Ok(Locals { counts })
    }

    /// How many objects there are among the first so many variables of a function.
    pub fn before(&self, f: u32, x: u32) -> u64
        ensures { (p : Typed) → AreLocals p.funs self.now → result ≡ objects_before (vars_at p f) x }
    {
        match self.counts.get(f as usize) {
            None => 0,
            Some(counts) => match counts.as_slice().get(x as usize) {
                Some(n) => *n,
                None => last_of(counts.as_slice()),
            },
        }
    }

    /// How many objects a function's variables are.
    pub fn count(&self, f: u32) -> u64
        ensures { (p : Typed) → AreLocals p.funs self.now →
            result ≡ objects_before (vars_at p f) (length (vars_at p f)) }
    {
        match self.counts.get(f as usize) {
            None => 0,
            Some(counts) => last_of(counts.as_slice()),
        }
    }
}

/// The function of a number.
pub fn function(p: &Typed, f: u32) -> Option<&FunDef>
    ensures { option_map (λ d. d.now) result ≡ slice_get p.now.funs f }
{
    p.funs.as_slice().get(f as usize)
}

/// A variable of a function.
pub fn variable(p: &Typed, f: u32, x: u32) -> Option<&VarDef>
    ensures { option_map (λ v. v.now) result ≡ slice_get (vars_at p.now f) x }
{
    match function(p, f) {
        None => None,
        Some(d) => d.vars.as_slice().get(x as usize),
    }
}

/// Whether a variable is an object.
pub fn is_object(p: &Typed, f: u32, x: u32) -> bool
    ensures { result ≡ not (is_simple (slice_get (vars_at p.now f) x)) }
{
    match variable(p, f, x) {
        None => false,
        Some(v) => !v.simple,
    }
}
