//! What is declared gets its initial value (C11 6.7.9).

ghost use Rattle.std.specs.Prelude.{◌≡◌, ◌<◌, ◌∷◌, ◌++◌, [], true, IfOk, OnOk};
ghost use Rattle.ck_base.specs.declared.positions.Pos.{Pos as Place};
ghost use Rattle.ck_base.specs.Lexes.{IsAccepted};
ghost use Rattle.c_tree.specs.Initializers.{takes_string, string_initializer};
ghost use Rattle.c_tree.specs.Syntax.{Syn, Syns};
ghost use Rattle.c_tree.specs.Programs.{reading};
ghost use Rattle.c_tree.specs.Scopes.{give};
ghost use Rattle.c_tree.specs.Declarations as meant;
ghost use Rattle.c_types.specs.Stands.{text_at};
ghost use Rattle.c_expressions.specs.Nodes.{IsWhole, type_in, type_count};
ghost use Rattle.c_elaborator.specs.Answers.{Answers, freely};
ghost use Rattle.c_elaborator.specs.Parts.{IsPart, AreParts, HaveTexts, token_of};
ghost use Rattle.c_readings.specs.Within.{PartWithin};
ghost use Rattle.c_initializers.specs.Slots.{AreSlotsThere, slots_in};
ghost use Rattle.c_elaborator.specs.Items.{ItemsThere, IsItems};
ghost use Rattle.c_statements.specs.Declaring.{HasBehind, IsBehind, fills_local, fills_static, init_items, initializes};
ghost use Rattle.c_statements.specs.Declaring.{local_initialized, static_initialized, static_from};

use crate::declarations::Behind;
use crate::initial::{Asked, Goal, initializer};
use c_elaborator::{Items, Name, Work, add_statement, no_items};
use c_initializers::{Slot, fill_local, fill_static, fill_text, takes_string};
use c_tree::{NodeKind, StmtKind};
use c_types::Entry;
use ck_base::{NoMemory, Pos, Refusal, TokenKind};
use std::alloc::Global;

// A variable that is declared, and no statements.
fn new_variable(alloc: Global, k: u32) -> Result<Items, NoMemory>
    ensures vars { IfOk result (λ i. i.vars.items ≡ k ∷ []) }
    ensures actions { IfOk result (λ i. i.actions.items ≡ []) }
{
    let mut vars = Vec::new(alloc);
    vars.push(k)?;
    Ok(Items {
        vars,
        actions: Vec::new(alloc),
    })
}

fn push_action(actions: &mut Vec<u32>, action: u32) -> Result<(), NoMemory>
    ensures { OnOk result (actions.new.items ≡ actions.old.items ++ action ∷ []) }
{
    actions.push(action)?;
    Ok(())
}

// The statements that initialise a local, and its number.
fn init_actions(work: &mut Work<'_>, k: u32, pos: Pos, slots: &[Slot]) -> Result<Items, Refusal>
    requires whole { IsWhole work.old.nodes }
    requires slots { AreSlotsThere work.old.nodes slots.now }
    ensures { Answers freely work.old work.new
        (give (init_items k pos (slots_in work.old.nodes slots.now))) ItemsThere IsItems result }
{
    let mut items = new_variable(work.nodes.alloc, k)?;
    for slot in slots {
        let kind = StmtKind::Init {
            var: k,
            offset: slot.at,
            value: slot.value,
        };
        let action = add_statement(work, kind, pos)?;
        push_action(&mut items.actions, action)?;
    }
    Ok(items)
}

// A local gets its value by statements at the place of its name (C11 6.7.9p8).
fn initialize_local(
    work: &mut Work<'_>,
    k: u32,
    name: Name,
    of: u32,
    b: Behind,
    depth: u32,
) -> Result<Items, Refusal>
    requires whole { IsWhole work.old.nodes }
    requires there { of < type_count work.old.nodes }
    requires part { PartWithin work.old depth b.node }
    ensures { (x : Syn) → IsPart work.old b.node x →
        Answers freely work.old work.new (fills_local k (token_of work.old name) (type_in work.old.nodes of)
        (reading x) b.first) ItemsThere IsItems result }
{
    let goal = Goal {
        asked: Asked::Nothing,
        whole: b.first,
        of,
        at: 0,
        items: 0,
    };
    let filled = initializer(work, b.node, goal, depth)?;
    let slots = fill_local(work, k, name, of, b.first, &filled)?;
    init_actions(work, k, name.pos, slots.as_slice())
}

// An object of static storage duration gets the bytes of the string that is its initialiser (C11 6.7.9p14).
fn initialize_text(
    work: &mut Work<'_>,
    k: u32,
    name: Name,
    of: u32,
    text: Name,
    kids: &[u32],
) -> Result<Items, Refusal>
    requires whole { IsWhole work.old.nodes }
    requires there { of < type_count work.old.nodes }
    requires takes { takes_string (type_in work.old.nodes of) ≡ true }
    requires accepted { IsAccepted TokenKind.Text (text_at work.old.file.now text.span) }
    requires parts { HaveTexts work.old kids.now }
    ensures { (xs : Syns) (first : Place) → AreParts work.old kids.now xs →
        Answers freely work.old work.new (static_from k name.pos (string_initializer (token_of work.old text) xs first
        (type_in work.old.nodes of) 0)) ItemsThere IsItems result }
{
    let bytes = work.text_bytes(text, kids)?;
    fill_text(work, k, name.pos, bytes.as_slice(), text.pos, of)?;
    Ok(no_items(work.nodes.alloc))
}

// An object of static storage duration gets its initial bytes and pointers from the values that its initialiser gives.
fn initialize_values(
    work: &mut Work<'_>,
    k: u32,
    name: Name,
    b: Behind,
    depth: u32,
) -> Result<Items, Refusal>
    requires whole { IsWhole work.old.nodes }
    requires part { PartWithin work.old depth b.node }
    ensures { (x : Syn) → IsPart work.old b.node x →
        Answers freely work.old work.new (fills_static k (token_of work.old name) (reading x) b.first) ItemsThere
        IsItems result }
{
    let of = work.static_type(k);
    let goal = Goal {
        asked: Asked::Start,
        whole: b.first,
        of,
        at: 0,
        items: 0,
    };
    let filled = initializer(work, b.node, goal, depth)?;
    fill_static(work, k, name.pos, &filled)?;
    Ok(no_items(work.nodes.alloc))
}

// An object of static storage duration gets its initial bytes and pointers (C11 6.7.9p4).
fn initialize_static(
    work: &mut Work<'_>,
    k: u32,
    name: Name,
    b: Behind,
    depth: u32,
) -> Result<Items, Refusal>
    requires whole { IsWhole work.old.nodes }
    requires part { PartWithin work.old depth b.node }
    ensures { (x : Syn) → IsPart work.old b.node x →
        Answers freely work.old work.new (fills_static k (token_of work.old name) (reading x) b.first) ItemsThere
        IsItems result }
{
    let of = work.static_type(k);
    let part = work.part(b.node);
    match part.kind {
        NodeKind::Text => {
            if takes_string(work, of) {
                initialize_text(work, k, name, of, part.name, part.kids)
            } else {
                initialize_values(work, k, name, b, depth)
            }
        }
        _ => initialize_values(work, k, name, b, depth),
    }
}

// A local without an initialiser.
fn declare_variable(work: &mut Work<'_>, k: u32) -> Result<Items, Refusal>
    requires { IsWhole work.old.nodes }
    ensures { (p : Place) → Answers freely work.old work.new (give (init_items k p [])) ItemsThere IsItems result }
{
    let items = new_variable(work.nodes.alloc, k)?;
    Ok(items)
}

// A local gets its value, if one stands there.
fn initialize_variable(
    work: &mut Work<'_>,
    k: u32,
    name: Name,
    of: u32,
    behind: Option<Behind>,
    depth: u32,
) -> Result<Items, Refusal>
    requires whole { IsWhole work.old.nodes }
    requires there { of < type_count work.old.nodes }
    requires behind { HasBehind work.old depth behind }
    ensures { (b : meant.Behind) → IsBehind work.old behind b →
        Answers freely work.old work.new (local_initialized k (token_of work.old name) (type_in work.old.nodes of) b)
        ItemsThere IsItems result }
{
    match behind {
        None => declare_variable(work, k),
        Some(b) => initialize_local(work, k, name, of, b, depth),
    }
}

// The same of an object of static storage duration.
fn initialize_object(
    work: &mut Work<'_>,
    k: u32,
    name: Name,
    behind: Option<Behind>,
    depth: u32,
) -> Result<Items, Refusal>
    requires whole { IsWhole work.old.nodes }
    requires behind { HasBehind work.old depth behind }
    ensures { (b : meant.Behind) → IsBehind work.old behind b →
        Answers freely work.old work.new (static_initialized k (token_of work.old name) b) ItemsThere IsItems result }
{
    match behind {
        None => Ok(no_items(work.nodes.alloc)),
        Some(b) => initialize_static(work, k, name, b, depth),
    }
}

/// What was declared gets its initial value, if one stands there.
pub(crate) fn initialize(
    work: &mut Work<'_>,
    entry: Entry,
    name: Name,
    of: u32,
    behind: Option<Behind>,
    depth: u32,
) -> Result<Items, Refusal>
    requires whole { IsWhole work.old.nodes }
    requires there { of < type_count work.old.nodes }
    requires behind { HasBehind work.old depth behind }
    ensures { (b : meant.Behind) → IsBehind work.old behind b →
        Answers freely work.old work.new (initializes entry (token_of work.old name) (type_in work.old.nodes of) b)
        ItemsThere IsItems result }
{
    match entry {
        Entry::Var(k) => initialize_variable(work, k, name, of, behind, depth),
        Entry::Global(k) => initialize_object(work, k, name, behind, depth),
        Entry::Fun(_)
        | Entry::Typedef(_)
        | Entry::Constant(_)
        | Entry::Library(_)
        | Entry::Tag(_, _) => Ok(no_items(work.nodes.alloc)),
    }
}
