//! Texts as keys of tables.
//!
//! Promise: two keys are equal where their bytes are, and a key is hashed by one write of its bytes.
#![tactic(auto)]

ghost use Rattle.std.specs.Prelude.{[], ◌∷◌, bytes_eq};
ghost use Rattle.std.specs.Cmp.{partial_equiv_from_equiv, on_per, on_equiv};
ghost use Rattle.std.specs.Cmp.Lexicographic.{nat_list_eq_equiv, bytes_decides};
ghost use Rattle.std.specs.Hash.{on_Alike, same_Alike};

use std::hash::{Hash, Hasher};

/// A text as the key of a table. Its bytes are hashed at once, where those of a `&[u8]` are hashed one by one.
#[derive(Clone, Copy)]
pub struct TextKey<'a> {
    pub bytes: &'a [u8],
}

impl<'a> PartialEq for TextKey<'a> {
    ghost eq = { λ x y. bytes_eq x.bytes.now y.bytes.now };

    ghost laws = { on_per (λ k. k.bytes.now) (partial_equiv_from_equiv nat_list_eq_equiv) };

    fn eq(&self, other: &Self) -> bool {
        self.bytes == other.bytes
    }
}

impl<'a> Eq for TextKey<'a> {
    ghost laws = { on_equiv (λ k. k.bytes.now) nat_list_eq_equiv };
}

impl<'a> Hash for TextKey<'a> {
    ghost hash_input = { λ k. k.bytes.now ∷ [] };

    ghost respects_eq = { (on_Alike (λ k. k.bytes.now) (same_Alike (λ bytes. bytes ∷ []) bytes_decides)).fed };

    fn hash<H: Hasher>(&self, state: &mut H) {
        state.write(self.bytes);
    }
}
