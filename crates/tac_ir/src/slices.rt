//! The first item of a slice, and the others.
ghost use Rattle.std.specs.Prelude.{◌≡◌, [], ◌∷◌, MatchOption};

pub fn first_and_rest<'a, T>(items: &'a [T]) -> Option<(&'a T, &'a [T])>
    ensures { MatchOption result (items.now ≡ []) (λ p. items.now ≡ p.0.now ∷ p.1.now) }
{
    items.split_first()
}
