//! Four parts of a node.

ghost use Rattle.std.specs.Prelude.{◌≡◌, ◌∷◌, [], MatchOption};
ghost use Rattle.c_readings.specs.Kids.{HasNot};

use c_readings::ThreeParts;

/// Four parts.
#[derive(Clone, Copy)]
pub(crate) struct FourParts {
    pub head: ThreeParts,
    pub last: u32,
}

/// The parts where there are four.
#[tactic(auto, using(crate::proofs::Fours::four_items))]
pub(crate) fn four(kids: &[u32]) -> Option<FourParts>
    ensures { MatchOption result (HasNot 4 kids.now)
        (λ x. kids.now ≡ x.head.first ∷ x.head.second ∷ x.head.third ∷ x.last ∷ []) }
{
    match kids {
        [a, b, c, d] => Some(FourParts {
            head: ThreeParts {
                first: *a,
                second: *b,
                third: *c,
            },
            last: *d,
        }),
        _ => None,
    }
}
