//! The names of calls: where the `(` of each stands.

ghost use Rattle.std.specs.Prelude.{◌≡◌, ◌<◌, ◌∷◌, [], if◌then◌else◌, Some, IfOk, OnOk, length, slice_get};
ghost use Rattle.ck_base.specs.Tokens.{Lexeme};
ghost use Rattle.c_tree.specs.Syntax.{Syn, StandsAt};
ghost use Rattle.c_tree.specs.Passed.{calls_in};
ghost use Rattle.c_passing.specs.Named.{own_calls, Knows, AddsCall, Gathers, HasSyntax, IsWithin};

use c_tree::{Node, NodeKind, Tree};
use ck_base::NoMemory;
use passing_steps::Names;
use std::alloc::Global;

fn node_at(tree: &Tree, k: u32) -> &Node
    requires { k < length tree.now.nodes }
    ensures { slice_get tree.now.nodes k ≡ Some result.now }
{
    match tree.nodes.as_slice().get(k as usize) {
        Some(node) => node,
        None => unreachable!(),
    }
}

fn is_call(kind: NodeKind) -> bool
    ensures { (t : Lexeme) → own_calls kind t ≡ (if result then t ∷ [] else []) }
{
    match kind {
        NodeKind::Call => true,
        _ => false,
    }
}

// The name of a node, if it is a call.
fn add_call(names: &mut Names, node: &Node) -> Result<(), NoMemory>
    ensures { OnOk result (AddsCall names.old names.new node.now) }
{
    if is_call(node.kind) {
        names.add(node.pos, node.text)?;
    }
    Ok(())
}

// The names of the calls in a part of a tree, which has so many levels at most.
fn gather(names: &mut Names, tree: &Tree, k: u32, levels: usize) -> Result<(), NoMemory>
    requires { IsWithin tree.now k levels }
    ensures { OnOk result (Gathers tree.now names.old names.new k) }
{
    let node = node_at(tree, k);
    add_call(names, node)?;
    for kid in node.kids.as_slice() {
        gather(names, tree, *kid, levels - 1)?;
    }
    Ok(())
}

fn count_calls(tree: &Tree) -> usize {
    tree.nodes
        .as_slice()
        .iter()
        .filter(|node| is_call(node.kind))
        .count()
}

/// The names of the calls in a file.
pub(crate) fn names_of(alloc: Global, tree: &Tree) -> Result<Names, NoMemory>
    requires { HasSyntax tree.now }
    ensures { IfOk result (λ m. (x : Syn) → StandsAt tree.now.nodes tree.now.root x → Knows m (calls_in x)) }
{
    let mut names = Names::with_capacity(alloc, count_calls(tree))?;
    gather(&mut names, tree, tree.root, tree.nodes.as_slice().len())?;
    Ok(names)
}
