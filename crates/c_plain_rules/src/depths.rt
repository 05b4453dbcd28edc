//! How deep the tree of a file goes.

ghost use Rattle.std.specs.Prelude.{◌≡◌, ℕ, ◌≤◌, length};
ghost use Rattle.c_tree.specs.Syntax.{Syn};
ghost use Rattle.c_elaborator.specs.Parts.{IsPart};
ghost use Rattle.c_plain_rules.specs.Depths.{PartWithin};

use c_elaborator::Work;
use c_tree::Tree;

// The number of a tree's nodes. It is no deeper.
fn node_count(tree: &Tree) -> u32
    requires { length tree.now.nodes ≤ 67_108_864 }
    ensures { result ≡ length tree.now.nodes }
{
    tree.nodes.as_slice().len() as u32
}

/// A depth that no part of the file exceeds: no part goes deeper than the tree has nodes.
pub fn greatest_depth(work: &Work<'_>) -> u32
    requires { length work.now.tree.now.nodes ≤ 67_108_864 }
    ensures { (k : ℕ) (x : Syn) → IsPart work.now k x → PartWithin work.now result k }
{
    node_count(work.tree)
}
