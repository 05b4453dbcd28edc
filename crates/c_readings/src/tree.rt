//! The nodes of a file's tree.

ghost use Rattle.std.specs.Prelude.{◌≡◌, ◌<◌, ◌∷◌, [], Some, length, slice_get, MatchOption};
ghost use Rattle.c_tree.specs.Syntax.{Syns};
ghost use Rattle.c_elaborator.specs.Parts.{AreParts, HaveParts};
ghost use Rattle.c_readings.specs.Kids.{name_of, HasNot, HasEnds, IsTagged};

use c_elaborator::{Name, Work};
use c_tree::{Node, NodeKind};

/// The node with a number.
pub fn node_at<'a>(work: &Work<'a>, k: u32) -> &'a Node
    requires { k < length work.now.tree.now.nodes }
    ensures { slice_get work.now.tree.now.nodes k ≡ Some result.now }
{
    match work.tree.nodes.as_slice().get(k as usize) {
        None => unreachable!(),
        Some(node) => node,
    }
}

/// The token of a node.
pub fn name_of(node: &Node) -> Name
    ensures { result ≡ name_of node.now }
{
    Name {
        span: node.text,
        pos: node.pos,
    }
}

/// The part that stands alone.
#[tactic(auto, using(crate::proofs::Lists::one_item))]
pub fn only(kids: &[u32]) -> Option<u32>
    ensures { MatchOption result (HasNot 1 kids.now) (λ a. kids.now ≡ a ∷ []) }
{
    match kids {
        [a] => Some(*a),
        _ => None,
    }
}

/// Two parts.
#[derive(Clone, Copy)]
pub struct TwoParts {
    pub first: u32,
    pub second: u32,
}

/// The parts where there are two.
#[tactic(auto, using(crate::proofs::Lists::two_items))]
pub fn two(kids: &[u32]) -> Option<TwoParts>
    ensures { MatchOption result (HasNot 2 kids.now) (λ x. kids.now ≡ x.first ∷ x.second ∷ []) }
{
    match kids {
        [a, b] => Some(TwoParts {
            first: *a,
            second: *b,
        }),
        _ => None,
    }
}

/// Three parts.
#[derive(Clone, Copy)]
pub struct ThreeParts {
    pub first: u32,
    pub second: u32,
    pub third: u32,
}

/// The parts where there are three.
#[tactic(auto, using(crate::proofs::Lists::three_items))]
pub fn three(kids: &[u32]) -> Option<ThreeParts>
    ensures { MatchOption result (HasNot 3 kids.now) (λ x. kids.now ≡ x.first ∷ x.second ∷ x.third ∷ []) }
{
    match kids {
        [a, b, c] => Some(ThreeParts {
            first: *a,
            second: *b,
            third: *c,
        }),
        _ => None,
    }
}

/// The first of some parts, and those behind it.
#[derive(Clone, Copy)]
pub struct FirstPart<'a> {
    pub first: u32,
    pub others: &'a [u32],
}

/// The first part, if there is one.
pub fn first_of(kids: &[u32]) -> Option<FirstPart<'_>>
    ensures { MatchOption result (kids.now ≡ []) (λ x. kids.now ≡ x.first ∷ x.others.now) }
{
    match kids.split_first() {
        None => None,
        Some((first, others)) => Some(FirstPart {
            first: *first,
            others,
        }),
    }
}

/// The part that is read last of an array or a function in a declarator, and what is read before it.
#[derive(Clone, Copy)]
pub(crate) struct EndParts<'a> {
    pub before: &'a [u32],
    pub last: u32,
}

/// An array's length or a function's parameters, which stand alone or behind a declarator.
pub(crate) fn ends(kids: &[u32]) -> Option<EndParts<'_>>
    ensures { MatchOption result (kids.now ≡ []) (λ x. HasEnds kids.now x.before.now x.last) }
{
    match first_of(kids) {
        None => None,
        Some(one) => match first_of(one.others) {
            None => Some(EndParts {
                before: one.others,
                last: one.first,
            }),
            Some(two) => Some(EndParts {
                before: kids,
                last: two.first,
            }),
        },
    }
}

/// A tag, and the parts behind it.
#[derive(Clone, Copy)]
pub(crate) struct TagParts<'a> {
    pub name: Name,
    pub others: &'a [u32],
}

/// The tag that stands first, if one does.
pub(crate) fn tag_of<'a>(work: &Work<'_>, kids: &'a [u32]) -> Option<TagParts<'a>>
    requires { HaveParts work.now kids.now }
    ensures { (xs : Syns) → AreParts work.now kids.now xs → IsTagged work.now result xs }
{
    match first_of(kids) {
        None => None,
        Some(part) => {
            let node = node_at(work, part.first);
            match node.kind {
                NodeKind::Tag => Some(TagParts {
                    name: name_of(node),
                    others: part.others,
                }),
                _ => None,
            }
        }
    }
}
