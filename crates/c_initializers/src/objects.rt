//! What objects and locals get from what their initialisers give (C11 6.7.9).

ghost use Rattle.std.specs.Prelude.{◌≡◌, ℕ, ◌<◌, ◌==◌, if◌then◌else◌, List, map, Some, OnOk};
ghost use Rattle.c_tree.specs.Types.{Ty};
ghost use Rattle.c_tree.specs.Scopes.{State, StaticState, Aiming, change_static};
ghost use Rattle.c_tree.specs.Views.{types_of};
ghost use Rattle.c_types.specs.Calls.{Extends};
ghost use Rattle.c_types.specs.Stands.{Stands, named};
ghost use Rattle.c_tree.specs.Initializers.{with_count};
ghost use Rattle.c_expressions.specs.Nodes.{IsWhole, type_in, type_count};
ghost use Rattle.c_elaborator.specs.Answers.{Answers, quietly, freely, TypeThere, IsType, NothingThere, IsNothing};
ghost use Rattle.c_elaborator.specs.Parts.{token_of};
ghost use Rattle.c_elaborator.specs.Work.{aiming_of, filling_of};
ghost use Rattle.c_initializers.specs.Found.{found_seen};
ghost use Rattle.c_initializers.specs.Objects.{completes_object, object_complete, completes_local, fills_object};
ghost use Rattle.c_initializers.specs.Objects.{fills_found, static_filled, local_filled, AreBelow};
ghost use Rattle.c_initializers.specs.Slots.{FilledThere, filled_in, SlotsThere, AreSlots};

use crate::counts::with_count;
use crate::filling::every_slot;
use crate::sizes::complete_now;
use crate::slots::{Filled, Slot};
use crate::statics::{Found, pointers_end, start_slots};
use c_elaborator::{Filling, Name, Start, Work};
use c_expressions::Nodes;
use c_plain_rules::initial_bytes;
use ck_base::{NoMemory, Pos, Refusal};

// An object of static storage duration gets another type.
fn retype(nodes: &mut Nodes<'_>, k: u32, of: u32)
    ensures rest { nodes.new ≡ record nodes.old { p = nodes.new.p } }
    ensures extends { Extends nodes.old.p nodes.new.p }
    ensures stands { (s : State) (u : Ty) → Stands nodes.old.scopes nodes.old.p s →
        named (types_of nodes.old.p.types) of ≡ Some u →
        Stands nodes.new.scopes nodes.new.p (change_static k (λ (g : StaticState). record g { of = u }) s) }
{
    nodes.scopes.complete_global(&mut nodes.p, k, of);
}

// The type of an object of static storage duration whose initialiser gives so many elements: an array whose length was
// not known gets it (C11 6.7.9p22).
pub(crate) fn complete_object(work: &mut Work, k: u32, count: u64) -> Result<(), Refusal>
    requires { IsWhole work.old.nodes }
    ensures { Answers freely work.old work.new (completes_object k count) NothingThere IsNothing result }
{
    match work.object_type(k) {
        None => Ok(()),
        Some(of) => {
            let counted = with_count(&mut work.nodes, of, count)?;
            retype(&mut work.nodes, k, counted);
            Ok(())
        }
    }
}

// An object has a complete type (132), within the limit (140).
pub(crate) fn object_complete(work: &Work, k: u32, pos: Pos) -> Result<(), Refusal>
    requires { IsWhole work.now.nodes }
    ensures { Answers quietly work.now work.now (object_complete k pos) NothingThere IsNothing result }
{
    complete_now(work, work.static_type(k), pos)
}

// One more initial value. The last one of an object counts.
fn add_filling(fillings: &mut Vec<Filling>, filling: Filling) -> Result<(), NoMemory>
    ensures is { OnOk result ((j : ℕ) →
        filling_of j fillings.new.items ≡ (if filling.object == j
        then Some (filling.bytes.items, map aiming_of filling.starts.items) else filling_of j fillings.old.items)) }
    ensures below { OnOk result ((n : ℕ) → filling.object < n → AreBelow n fillings.old.items →
        AreBelow n fillings.new.items) }
{
    fillings.push(filling)?;
    Ok(())
}

// An object of static storage duration has an initial value from here on. The program gets it at the end of the file.
fn mark_filled(nodes: &mut Nodes<'_>, k: u32)
    ensures facts { nodes.new.facts ≡ nodes.old.facts }
    ensures void { nodes.new.void ≡ nodes.old.void }
    ensures file { nodes.new.scopes.file.now ≡ nodes.old.scopes.file.now }
    ensures program { nodes.new.p ≡ record nodes.old.p { globals = nodes.new.p.globals } }
    ensures stands { (s : State) (i : List ℕ × List Aiming) → Stands nodes.old.scopes nodes.old.p s →
        Stands nodes.new.scopes nodes.new.p (change_static k (λ (g : StaticState). record g { initial = Some i }) s) }
{
    let alloc = nodes.alloc;
    nodes
        .scopes
        .fill_global(&mut nodes.p, k, Vec::new(alloc), Vec::new(alloc));
}

// An object of static storage duration gets its initial bytes and pointers.
pub(crate) fn fill_object(
    work: &mut Work,
    k: u32,
    bytes: Vec<u8>,
    starts: Vec<Start>,
) -> Result<(), Refusal>
    requires { IsWhole work.old.nodes }
    ensures { Answers freely work.old work.new
        (fills_object k bytes.items (map aiming_of starts.items)) NothingThere IsNothing result }
{
    match work.object_type(k) {
        None => Ok(()),
        Some(_) => {
            let filling = Filling {
                object: k,
                bytes,
                starts,
            };
            add_filling(&mut work.fillings, filling)?;
            mark_filled(&mut work.nodes, k);
            Ok(())
        }
    }
}

// The same from the numbers and pointers that stand in it.
fn fill_found(work: &mut Work, k: u32, found: Found) -> Result<(), Refusal>
    requires { IsWhole work.old.nodes }
    ensures { Answers freely work.old work.new (fills_found k (found_seen found)) NothingThere IsNothing result }
{
    let Found { numbers, starts } = found;
    let end = pointers_end(starts.as_slice());
    let bytes = initial_bytes(work.nodes.alloc, numbers.as_slice(), end)?;
    fill_object(work, k, bytes, starts)
}

/// An object of static storage duration gets what its initialiser gives (C11 6.7.9p4, p22): 134 at a value that is not
/// known before the program runs, and 132 and 140 at the object's name where its type is then not complete or too
/// large.
pub fn fill_static(work: &mut Work, k: u32, pos: Pos, filled: &Filled) -> Result<(), Refusal>
    requires whole { IsWhole work.old.nodes }
    requires filled { FilledThere work.old filled.now }
    ensures { Answers freely work.old work.new
        (static_filled k pos (filled_in work.old.nodes filled.now)) NothingThere IsNothing result }
{
    complete_object(work, k, filled.count)?;
    let found = start_slots(work, filled.slots.as_slice())?;
    object_complete(work, k, pos)?;
    fill_found(work, k, found)
}

// The type of a local of the function at work whose initialiser gives so many elements. Its name denotes it with that
// type from here on.
fn complete_local(work: &mut Work, k: u32, of: u32, count: u64, name: Name) -> Result<u32, Refusal>
    requires whole { IsWhole work.old.nodes }
    requires there { of < type_count work.old.nodes }
    ensures { Answers freely work.old work.new
        (completes_local k (with_count (type_in work.old.nodes of) count) (token_of work.old name).text) TypeThere
        IsType result }
{
    let counted = with_count(&mut work.nodes, of, count)?;
    work.nodes.scopes.complete_local(k, counted, name.span)?;
    Ok(counted)
}

// Whether a list or a string gives this: an expression gives one value, and no number of elements.
fn is_listed(filled: &Filled) -> bool {
    filled.count > 0 || filled.slots.len() != 1
}

/// A local gets what its initialiser gives: the values of all its scalars (C11 6.7.9p10, p21, p22). 132 and 140 at its
/// name where its type is then not complete or too large.
pub fn fill_local(
    work: &mut Work,
    k: u32,
    name: Name,
    of: u32,
    whole: Pos,
    filled: &Filled,
) -> Result<Vec<Slot>, Refusal>
    requires whole { IsWhole work.old.nodes }
    requires there { of < type_count work.old.nodes }
    requires filled { FilledThere work.old filled.now }
    ensures { Answers freely work.old work.new
        (local_filled k (token_of work.old name) (type_in work.old.nodes of) whole
        (filled_in work.old.nodes filled.now)) SlotsThere AreSlots result }
{
    let counted = complete_local(work, k, of, filled.count, name)?;
    complete_now(work, counted, name.pos)?;
    let listed = is_listed(filled);
    every_slot(work, whole, counted, filled.slots.as_slice(), listed)
}
