//! What counts of all that was said of each object and function, by their numbers: the first use and the last
//! definition.

ghost use Rattle.std.specs.Prelude.{◌≡◌, ◌<◌, Some, IfOk, length, option_map, slice_get};
ghost use Rattle.c_elaborator.specs.Work.{definition_of};
ghost use Rattle.c_plain_parts.specs.Tables.{HasDefinitions};

use c_elaborator::{Definition, Work};
use c_tree::{FunDef, GlobalDef};
use ck_base::{NoMemory, Pos};

/// Where each object and each function is first used, if it is.
#[derive(Drop)]
pub struct Uses {
    pub objects: Vec<Option<Pos>>,
    pub functions: Vec<Option<Pos>>,
}

/// How many there are. What no number of 32 bits counts is want of memory.
pub fn count(n: usize) -> Result<u32, NoMemory>
    ensures { IfOk result (λ k. k ≡ n) }
{
    match u32::try_from(n) {
        Ok(k) => Ok(k),
        Err(_) => Err(NoMemory),
    }
}

impl Uses {
    /// The place of the first use of an object.
    pub fn object(&self, k: u32) -> Option<Pos>
        requires { k < length self.now.objects.items }
        ensures { slice_get self.now.objects.items k ≡ Some result }
    {
        match self.objects.get(k as usize).copied() {
            Some(o) => o,
            None => unreachable!(),
        }
    }

    /// The place of the first use of a function.
    pub fn function(&self, k: u32) -> Option<Pos>
        requires { k < length self.now.functions.items }
        ensures { slice_get self.now.functions.items k ≡ Some result }
    {
        match self.functions.get(k as usize).copied() {
            Some(o) => o,
            None => unreachable!(),
        }
    }
}

/// An object by its number.
pub fn global_at<'a>(work: &'a Work<'_>, k: u32) -> &'a GlobalDef
    requires { k < length work.now.nodes.p.globals }
    ensures { slice_get work.now.nodes.p.globals k ≡ Some result.now }
{
    match work.nodes.p.globals.as_slice().get(k as usize) {
        Some(g) => g,
        None => unreachable!(),
    }
}

/// A function by its number.
pub fn function_at<'a>(work: &'a Work<'_>, k: u32) -> &'a FunDef
    requires { k < length work.now.nodes.p.funs }
    ensures { slice_get work.now.nodes.p.funs k ≡ Some result.now }
{
    match work.nodes.p.funs.as_slice().get(k as usize) {
        Some(f) => f,
        None => unreachable!(),
    }
}

/// An entry of a table: the number of what counts, if there is something.
pub fn entry(table: &[Option<u32>], k: u32) -> Option<u32>
    requires { k < length table.now }
    ensures { slice_get table.now k ≡ Some result }
{
    match table.get(k as usize).copied() {
        Some(o) => o,
        None => unreachable!(),
    }
}

/// A definition by its number among all that were met.
pub fn definition_at(definitions: &[Definition], i: u32) -> &Definition
    requires { i < length definitions.now }
    ensures { slice_get definitions.now i ≡ Some result.now }
{
    match definitions.get(i as usize) {
        Some(d) => d,
        None => unreachable!(),
    }
}

/// The definition of a function, if it has one.
pub fn definition<'a>(work: &'a Work<'_>, table: &[Option<u32>], k: u32) -> Option<&'a Definition>
    requires definitions { HasDefinitions work.now table.now }
    requires there { k < length work.now.nodes.p.funs }
    ensures { option_map (λ d. d.now) result ≡ definition_of k work.now.definitions.items }
{
    match entry(table, k) {
        None => None,
        Some(at) => Some(definition_at(work.definitions.as_slice(), at)),
    }
}
