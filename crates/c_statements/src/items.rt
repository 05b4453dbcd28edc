//! The items of a list in braces (C11 6.7.9p17, p20).

ghost use Rattle.std.specs.Prelude.{◌≡◌, ◌+◌, ◌++◌, ◌<◌, ◌∷◌, [], IfOk, OnOk};
ghost use Rattle.c_expressions.specs.Nodes.{IsWhole, type_count};
ghost use Rattle.c_elaborator.specs.Parts.{HasPart, HaveParts};
ghost use Rattle.c_initializers.specs.Places.{AreNear};
ghost use Rattle.c_statements.specs.Initial.{IsLone, IsNear, IsNext};

use crate::initial::Goal;
use c_elaborator::Work;
use c_initializers::{Places, Slot, takes_string};
use c_tree::NodeKind;
use ck_base::{MISFIT, NoMemory, Pos, Refusal};
use std::alloc::Global;

// The string literal in braces that initialises an array of characters, if nothing else stands there.
pub(crate) fn lone_text(work: &Work<'_>, kids: &[u32], of: u32) -> Option<u32>
    requires whole { IsWhole work.now.nodes }
    requires there { of < type_count work.now.nodes }
    requires parts { HaveParts work.now kids.now }
    ensures { IsLone work.now of kids.now result }
{
    match kids {
        [k] => lone(work, *k, of),
        _ => None,
    }
}

// The same of the only part.
fn lone(work: &Work<'_>, k: u32, of: u32) -> Option<u32>
    requires whole { IsWhole work.now.nodes }
    requires there { of < type_count work.now.nodes }
    requires part { HasPart work.now k }
    ensures { IsLone work.now of (k ∷ []) result }
{
    let part = work.part(k);
    match part.kind {
        NodeKind::Text => {
            if takes_string(work, of) {
                Some(k)
            } else {
                None
            }
        }
        _ => None,
    }
}

/// What the item with a number initialises: 133 at the brace where there is nothing left.
pub(crate) fn next_part(
    places: &Places,
    number: u32,
    goal: Goal,
    brace: Pos,
) -> Result<Goal, Refusal>
    requires goal { IsNear goal }
    requires places { AreNear places.now }
    ensures { IsNext places.now number goal brace result }
{
    match places.get(number) {
        None => Err(Refusal::Code(MISFIT, brace)),
        Some(place) => Ok(Goal {
            of: place.of,
            at: goal.at + place.at,
            items: counted(goal.items, number)?,
            ..goal
        }),
    }
}

// How many items there are up to the one with a number in its list.
fn counted(items: u32, number: u32) -> Result<u32, NoMemory>
    ensures { IfOk result (λ n. n ≡ items + number + 1) }
{
    let before = items.checked_add(number).ok_or(NoMemory)?;
    before.checked_add(1).ok_or(NoMemory)
}

/// One value alone.
pub(crate) fn alone(alloc: Global, slot: Slot) -> Result<Vec<Slot>, NoMemory>
    ensures { IfOk result (λ v. v.items ≡ slot ∷ []) }
{
    let mut slots = Vec::new(alloc);
    slots.push(slot)?;
    Ok(slots)
}

/// More values behind those that there are.
pub(crate) fn append(slots: &mut Vec<Slot>, more: &[Slot]) -> Result<(), NoMemory>
    ensures { OnOk result (slots.new.items ≡ slots.old.items ++ more.now) }
{
    slots.extend_from_slice(more)?;
    Ok(())
}
