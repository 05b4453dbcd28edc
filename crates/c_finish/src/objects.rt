//! The objects of the finished program (C11 6.9.2).

ghost use Rattle.std.specs.Prelude.{◌≡◌, ◌<◌, ◌∷◌, [], true, Some, IfOk, OnOk, length, map, option_map, slice_get};
ghost use Rattle.std.specs.Prelude.{◌≤◌, ◌^◌, pos, neg_ℤ, ◌≤ℤ◌};
ghost use Rattle.std.specs.Borrow.{Bor};
ghost use Rattle.c_tree.specs.Scopes.{State, StaticState};
ghost use Rattle.c_tree.specs.Programs.{reach_of, pointing_of, initial_of, object_of};
ghost use Rattle.c_tree.specs.Views.{types_of};
ghost use Rattle.c_tree.specs.Views as views;
ghost use Rattle.c_elaborator.specs.declared.work.Filling.{Filling as Given};
ghost use Rattle.c_elaborator.specs.Work.{Shows, aiming_of};
ghost use Rattle.c_elaborator.specs.Work as works;
ghost use Rattle.c_finish.specs.Finished.{IsShown, IsFaultless, IsNear, AreNear, HaveNumbers, AreObjects, AddsObject};
ghost use Rattle.c_finish.specs.Finished.{filled};
ghost use Rattle.c_finish.specs.Tables.{HasFillings};

use crate::tables::filling;
use c_copy::Numbers;
use c_elaborator::{Bounds, Filling, Start, Work};
use c_plain_rules::{count, global_at};
use c_tree::{GlobalDef, Link};
use ck_base::{NoMemory, Sequence};

// Where the bounds of a pointer begin and how long they are.
fn reach(length: Option<u64>, bounds: Bounds) -> (u128, u64)
    ensures { result ≡ reach_of length (works.reach_of bounds) }
{
    match bounds {
        Bounds::Part(low, length) => (low, length),
        Bounds::Whole => match length {
            Some(n) => (0, n),
            None => (0, 0),
        },
    }
}

fn low_of(low: u128) -> u64
    requires { low ≤ 2 ^ 32 }
    ensures { result ≡ low }
{
    low as u64
}

fn offset_of(offset: i128) -> i64
    requires low { neg_ℤ (pos (2 ^ 32)) ≤ℤ offset }
    requires high { offset ≤ℤ pos (2 ^ 32) }
    ensures { result ≡ offset }
{
    offset as i64
}

fn link_of(work: &Work<'_>, numbers: &Numbers, start: Start) -> Link
    requires numbers { HaveNumbers work.now numbers.now }
    requires near { IsNear (works.reach_of start.bounds) start.offset }
    ensures { (s : State) → Shows work.now s → views.pointing_of result ≡ pointing_of s (aiming_of start) }
{
    let known = work.aim_length(start.target);
    let target = numbers.target(start.target);
    let (from, length) = reach(known, start.bounds);
    let low = low_of(from);
    let offset = offset_of(start.offset);
    Link {
        at: start.at,
        target,
        low,
        length,
        offset,
    }
}

fn start_at(starts: &[Start], i: usize) -> Start
    requires { i < length starts.now }
    ensures { slice_get starts.now i ≡ Some result }
{
    match starts.get(i).copied() {
        Some(x) => x,
        None => unreachable!(),
    }
}

fn links_of(work: &Work<'_>, numbers: &Numbers, starts: &[Start]) -> Result<Vec<Link>, NoMemory>
    requires numbers { HaveNumbers work.now numbers.now }
    requires near { AreNear starts.now }
    ensures { IfOk result (λ ls. (s : State) → Shows work.now s →
        map views.pointing_of ls.items ≡ map (pointing_of s) (map aiming_of starts.now)) }
{
    let mut links = Vec::new(work.nodes.alloc);
    for i in 0..starts.len() {
        let start = start_at(starts, i);
        let link = link_of(work, numbers, start);
        links.push(link)?;
    }
    Ok(links)
}

// The bytes and the pointers with which an object begins.
fn initial(
    work: &Work<'_>,
    numbers: &Numbers,
    given: Option<&Filling>,
) -> Result<(Vec<u8>, Vec<Link>), NoMemory>
    requires numbers { HaveNumbers work.now numbers.now }
    requires near { (f : Given) → option_map (λ (f : Bor Given). f.now) given ≡ Some f → AreNear f.starts.items }
    ensures { IfOk result (λ x. (s : State) → Shows work.now s →
        initial_of s (option_map filled (option_map (λ (f : Bor Filling). f.now) given.entry))
        ≡ (x.0.items, map views.pointing_of x.1.items)) }
{
    let alloc = work.nodes.alloc;
    match given {
        None => Ok((Vec::new(alloc), Vec::new(alloc))),
        Some(f) => {
            let bytes = Vec::from_slice(alloc, f.bytes.as_slice())?;
            let links = links_of(work, numbers, f.starts.as_slice())?;
            Ok((bytes, links))
        }
    }
}

// An object that is defined.
fn object(
    work: &Work<'_>,
    numbers: &Numbers,
    fillings: &[Option<u32>],
    k: u32,
) -> Result<GlobalDef, NoMemory>
    requires numbers { HaveNumbers work.now numbers.now }
    requires fillings { HasFillings work.now fillings.now }
    requires there { k < length work.now.nodes.p.globals }
    requires shown { IsShown work.now }
    requires faultless { IsFaultless work.now }
    ensures { IfOk result (λ o. (s : State) (g : StaticState) → Shows work.now s → slice_get s.statics k ≡ Some g →
        g.defined ≡ true → views.object_of (types_of work.now.nodes.p.types) o ∷ [] ≡ object_of s g) }
{
    let given = filling(work, fillings, k);
    let (bytes, links) = initial(work, numbers, given)?;
    let g = global_at(work, k);
    Ok(GlobalDef {
        name: g.name,
        pos: g.pos,
        of: g.of,
        bytes: Sequence::from_vec(bytes),
        links: Sequence::from_vec(links),
    })
}

// One object more, if it is defined.
fn add_object(
    work: &Work<'_>,
    numbers: &Numbers,
    fillings: &[Option<u32>],
    k: u32,
    list: &mut Vec<GlobalDef>,
) -> Result<(), NoMemory>
    requires numbers { HaveNumbers work.now numbers.now }
    requires fillings { HasFillings work.now fillings.now }
    requires there { k < length work.now.nodes.p.globals }
    requires shown { IsShown work.now }
    requires faultless { IsFaultless work.now }
    ensures { OnOk result (AddsObject work.now k list.old.items list.new.items) }
{
    let is_there = work.nodes.scopes.is_defined(k);
    if !is_there {
        return Ok(());
    }
    let object = object(work, numbers, fillings, k)?;
    list.push(object)?;
    Ok(())
}

/// The objects that are defined.
pub(crate) fn objects(
    work: &Work<'_>,
    numbers: &Numbers,
    fillings: &[Option<u32>],
) -> Result<Vec<GlobalDef>, NoMemory>
    requires numbers { HaveNumbers work.now numbers.now }
    requires fillings { HasFillings work.now fillings.now }
    requires shown { IsShown work.now }
    requires faultless { IsFaultless work.now }
    ensures { IfOk result (λ os. AreObjects work.now os.items) }
{
    let n = count(work.nodes.p.globals.as_slice().len())?;
    let mut list = Vec::new(work.nodes.alloc);
    for k in 0..n {
        add_object(work, numbers, fillings, k, &mut list)?;
    }
    Ok(list)
}
