//! The base of an integer constant.

ghost use Rattle.std.specs.Prelude.{◌≡◌};
ghost use Rattle.c_lex.specs.Bases.{base_at, digits_at};

/// The base of an integer constant, and its digits with the suffix.
#[tactic(auto, unfolding(crate::specs::Bases::base_at))]
pub fn digits_of(text: &[u8]) -> (u8, &[u8])
    ensures base { result.0 ≡ base_at text.now }
    ensures digits { result.1.now ≡ digits_at text.now }
{
    match text {
        [zero, x, digits @ ..] if *zero == b'0' && (*x == b'x' || *x == b'X') => (16, digits),
        [zero, ..] if *zero == b'0' => (8, text),
        _ => (10, text),
    }
}
