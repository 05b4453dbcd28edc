//! Punctuators, by how many bytes they have.

ghost use Rattle.std.specs.Prelude.{◌≡◌, ℕ, [], ◌∷◌};
ghost use Rattle.ck_base.specs.Tokens.{punctuators, is_among as among};

/// Whether this byte is a punctuator.
#[tactic(auto, unfolding(ck_base::specs::Tokens::punctuators))]
pub fn is_single(a: u8) -> bool
    ensures { result ≡ among punctuators (a ∷ []) }
{
    b"[](){}.&*+-~!/%<>^|?:;=,".contains(&a)
}

/// Whether these two bytes are one.
#[tactic(auto, unfolding(ck_base::specs::Tokens::punctuators))]
pub fn is_double(a: u8, b: u8) -> bool
    ensures { result ≡ among punctuators (a ∷ b ∷ []) }
{
    match a {
        b'-' => b == b'>' || b == b'-' || b == b'=',
        b'+' => b == b'+' || b == b'=',
        b'&' => b == b'&' || b == b'=',
        b'|' => b == b'|' || b == b'=',
        b'<' => b == b'<' || b == b'=',
        b'>' => b == b'>' || b == b'=',
        b'=' | b'!' | b'*' | b'/' | b'%' | b'^' => b == b'=',
        _ => false,
    }
}

/// Whether these three bytes are one.
#[tactic(auto, unfolding(ck_base::specs::Tokens::punctuators))]
pub fn is_triple(a: u8, b: u8, c: u8) -> bool
    ensures { result ≡ among punctuators (a ∷ b ∷ c ∷ []) }
{
    match a {
        b'<' => b == b'<' && c == b'=',
        b'>' => b == b'>' && c == b'=',
        b'.' => b == b'.' && c == b'.',
        _ => false,
    }
}
