//! The tables of what counts of all that was said of each object and function, by their numbers: the first use, the
//! last definition and the last initial value.

ghost use Rattle.std.specs.Prelude.{◌≡◌, ◌<◌, Some, IfOk, None, length, option_map, slice_set, slice_get};
ghost use Rattle.c_elaborator.specs.Work.{UseIsThere};
ghost use Rattle.c_plain_rules.specs.Tables.{AreUses, HasDefinitions};
ghost use Rattle.c_finish.specs.Finished.{IsShown};
ghost use Rattle.c_finish.specs.Tables.{HasFillings, last_filling, IsBlank, AddsUse};

use c_elaborator::{Filling, Use, Used, Work};
use c_plain_rules::{Uses, count, definition_at, entry};
use ck_base::{NoMemory, Pos};
use std::alloc::Global;

fn no_places(alloc: Global, n: usize) -> Result<Vec<Option<Pos>>, NoMemory>
    ensures blank { IfOk result (λ v. IsBlank v.items) }
    ensures count { IfOk result (λ v. length v.items ≡ n) }
{
    let mut v = Vec::new(alloc);
    for made in 0..n {
        v.push(None)?;
    }
    Ok(v)
}

fn no_numbers(alloc: Global, n: usize) -> Result<Vec<Option<u32>>, NoMemory>
    ensures blank { IfOk result (λ v. IsBlank v.items) }
    ensures count { IfOk result (λ v. length v.items ≡ n) }
{
    let mut v = Vec::new(alloc);
    for made in 0..n {
        v.push(None)?;
    }
    Ok(v)
}

fn set_place(table: &mut Vec<Option<Pos>>, k: u32, pos: Pos)
    requires { k < length table.old.items }
    ensures { table.new.items ≡ slice_set table.old.items k (Some pos) }
{
    table[k as usize] = Some(pos);
}

fn set_number(table: &mut Vec<Option<u32>>, k: u32, i: u32)
    requires { k < length table.old.items }
    ensures { table.new.items ≡ slice_set table.old.items k (Some i) }
{
    table[k as usize] = Some(i);
}

fn use_at(uses: &[Use], i: usize) -> Use
    requires { i < length uses.now }
    ensures { slice_get uses.now i ≡ Some result }
{
    match uses.get(i).copied() {
        Some(u) => u,
        None => unreachable!(),
    }
}

// A use that stands before the others.
fn set_use(table: &mut Uses, u: Use)
    requires { UseIsThere (length table.old.objects.items) (length table.old.functions.items) u.what }
    ensures adds { AddsUse table.old u table.new }
    ensures objects { length table.new.objects.items ≡ length table.old.objects.items }
    ensures functions { length table.new.functions.items ≡ length table.old.functions.items }
{
    match u.what {
        Used::Object(k) => set_place(&mut table.objects, k, u.pos),
        Used::Function(k) => set_place(&mut table.functions, k, u.pos),
    }
}

/// The places of the first uses.
pub(crate) fn first_uses(work: &Work<'_>) -> Result<Uses, NoMemory>
    requires { IsShown work.now }
    ensures { IfOk result (AreUses work.now) }
{
    let alloc = work.nodes.alloc;
    let objects = no_places(alloc, work.nodes.p.globals.as_slice().len())?;
    let functions = no_places(alloc, work.nodes.p.funs.as_slice().len())?;
    let mut table = Uses { objects, functions };
    let uses = work.uses.as_slice();
    let n = uses.len();
    for i in 0..n {
        let u = use_at(uses, n - 1 - i);
        set_use(&mut table, u);
    }
    Ok(table)
}

fn filling_at(fillings: &[Filling], i: u32) -> &Filling
    requires { i < length fillings.now }
    ensures { slice_get fillings.now i ≡ Some result.now }
{
    match fillings.get(i as usize) {
        Some(f) => f,
        None => unreachable!(),
    }
}

/// For each function the number of its last definition.
pub(crate) fn last_definitions(work: &Work<'_>) -> Result<Vec<Option<u32>>, NoMemory>
    requires { IsShown work.now }
    ensures { IfOk result (λ v. HasDefinitions work.now v.items) }
{
    let mut table = no_numbers(work.nodes.alloc, work.nodes.p.funs.as_slice().len())?;
    let definitions = work.definitions.as_slice();
    let n = count(definitions.len())?;
    for i in 0..n {
        let d = definition_at(definitions, i);
        set_number(&mut table, d.function, i);
    }
    Ok(table)
}

/// For each object the number of its last initial value.
pub(crate) fn last_fillings(work: &Work<'_>) -> Result<Vec<Option<u32>>, NoMemory>
    requires { IsShown work.now }
    ensures { IfOk result (λ v. HasFillings work.now v.items) }
{
    let mut table = no_numbers(work.nodes.alloc, work.nodes.p.globals.as_slice().len())?;
    let fillings = work.fillings.as_slice();
    let n = count(fillings.len())?;
    for i in 0..n {
        let f = filling_at(fillings, i);
        set_number(&mut table, f.object, i);
    }
    Ok(table)
}

/// The initial value of an object, if it has one.
pub(crate) fn filling<'a>(work: &'a Work<'_>, table: &[Option<u32>], k: u32) -> Option<&'a Filling>
    requires fillings { HasFillings work.now table.now }
    requires there { k < length work.now.nodes.p.globals }
    ensures { option_map (λ f. f.now) result ≡ last_filling k work.now.fillings.items }
{
    match entry(table, k) {
        None => None,
        Some(at) => Some(filling_at(work.fillings.as_slice(), at)),
    }
}
