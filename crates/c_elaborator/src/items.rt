//! What declarations and statements give, and how statements are added to the program (C11 6.8).

ghost use Rattle.std.specs.Prelude.{◌≡◌, ℕ, ◌<◌, ◌++◌, ◌∷◌, [], Some, slice_get, OnOk, IfOk, length};
ghost use Rattle.c_tree.specs.Scopes.{give};
ghost use Rattle.c_tree.specs.Statements.{one_action};
ghost use Rattle.c_tree.specs.Views.{kind_action, terms_of};
ghost use Rattle.c_expressions.specs.Nodes.{IsWhole, term_count};
ghost use Rattle.c_elaborator.specs.Answers.{Answers, freely, action_in};
ghost use Rattle.c_elaborator.specs.Items.{ValuesThere, AddsAction, OnlyThere, IsItems};

use crate::work::Work;
use c_tree::{Stmt, StmtKind};
use ck_base::{NoMemory, Pos, Refusal, Sequence};
use std::alloc::Global;
use std::mem;

/// Where a statement stands.
#[derive(Clone, Copy)]
pub struct Context {
    /// The number of the type that the function gives.
    pub gives: u32,
    pub in_loop: bool,
    /// It stands in a loop or in a `switch`.
    pub breakable: bool,
}

/// What a declaration or a statement of a block gives.
#[derive(Drop)]
pub struct Items {
    /// The variables that it declares, by their numbers in the function.
    pub vars: Vec<u32>,
    /// Its statements, by their numbers in the program.
    pub actions: Vec<u32>,
}

fn append(alloc: Global, list: &mut Sequence<Stmt>, item: Stmt) -> Result<(), NoMemory>
    ensures { OnOk result (list.new ≡ list.old ++ item ∷ []) }
{
    let mut items = mem::replace(list, Sequence::from_vec(Vec::new(alloc))).into_vec();
    let pushed = items.push(item);
    *list = Sequence::from_vec(items);
    pushed?;
    Ok(())
}

// The number of the next statement.
fn next_number(list: &[Stmt]) -> Result<u32, NoMemory>
    ensures { IfOk result (λ k. k ≡ length list.now) }
{
    u32::try_from(list.len()).map_err(|_| NoMemory)
}

/// A new statement at the end of the program's.
pub fn add_statement(work: &mut Work<'_>, kind: StmtKind, pos: Pos) -> Result<u32, NoMemory>
    requires whole { IsWhole work.old.nodes }
    requires values { ValuesThere (term_count work.old.nodes) kind }
    ensures { IfOk result (λ k. AddsAction work.old work.new k
        (kind_action (terms_of work.old.nodes.p) kind pos (action_in work.old))) }
{
    let k = next_number(work.nodes.p.stmts.as_slice())?;
    append(
        work.nodes.alloc,
        &mut work.nodes.p.stmts,
        Stmt { kind, pos },
    )?;
    Ok(k)
}

// One statement, and no variables.
fn only_action(alloc: Global, k: u32) -> Result<Items, NoMemory>
    ensures vars { IfOk result (λ i. i.vars.items ≡ []) }
    ensures actions { IfOk result (λ i. i.actions.items ≡ k ∷ []) }
{
    let mut actions = Vec::new(alloc);
    actions.push(k)?;
    Ok(Items {
        vars: Vec::new(alloc),
        actions,
    })
}

/// A new statement, which is all that is given.
pub fn does(work: &mut Work<'_>, kind: StmtKind, pos: Pos) -> Result<Items, Refusal>
    requires whole { IsWhole work.old.nodes }
    requires values { ValuesThere (term_count work.old.nodes) kind }
    ensures { Answers freely work.old work.new
        (give (one_action (kind_action (terms_of work.old.nodes.p) kind pos (action_in work.old)))) OnlyThere IsItems
        result }
{
    let k = add_statement(work, kind, pos)?;
    let items = only_action(work.nodes.alloc, k)?;
    Ok(items)
}

/// Nothing that is declared or done.
pub fn no_items(alloc: Global) -> Items
    ensures vars { result.vars.items ≡ [] }
    ensures actions { result.actions.items ≡ [] }
{
    Items {
        vars: Vec::new(alloc),
        actions: Vec::new(alloc),
    }
}

/// What is given first, and then the rest.
pub fn join(items: &mut Items, more: Items) -> Result<(), NoMemory>
    ensures vars { OnOk result (items.new.vars.items ≡ items.old.vars.items ++ more.vars.items) }
    ensures actions { OnOk result (items.new.actions.items ≡ items.old.actions.items ++ more.actions.items) }
{
    items.vars.extend_from_slice(more.vars.as_slice())?;
    items.actions.extend_from_slice(more.actions.as_slice())?;
    Ok(())
}
