//! Places in a file.

ghost use Rattle.std.specs.Prelude.{◌≡◌, ℕ, ◌+◌, ◌-◌, ◌^◌, ◌<◌, ◌≤◌, ◌++◌, ◌∷◌, [], List, length};
ghost use Rattle.std.specs.Prelude.{IsTrue};
ghost use Rattle.c_lex.specs.Pieces.{place_behind, goes_on};

use crate::separators::is_space;
use ck_base::Pos;

// How many bytes stand before it, its line and column, and whether only spaces and tabs stand before it on its line.
#[derive(Clone, Copy)]
pub struct Place {
    pub at: usize,
    pub pos: Pos,
    pub begins_line: bool,
}

// The place behind one more byte.
fn behind_byte(place: Place, b: u8) -> Place
    requires at { place.at < 2 ^ 32 - 1 }
    requires line { place.pos.line < 2 ^ 32 - 1 }
    requires col { place.pos.col < 2 ^ 32 - 1 }
    ensures { (front : List ℕ) → place ≡ place_behind front → result ≡ place_behind (front ++ b ∷ []) }
{
    if b == b'\n' {
        Place {
            at: place.at + 1,
            pos: Pos {
                line: place.pos.line + 1,
                col: 1,
            },
            begins_line: true,
        }
    } else {
        Place {
            at: place.at + 1,
            pos: Pos {
                line: place.pos.line,
                col: place.pos.col + 1,
            },
            begins_line: place.begins_line && is_space(b),
        }
    }
}

// The place behind more bytes.
pub fn behind(mut place: Place, bytes: &[u8]) -> Place
    requires { (front : List ℕ) × (place ≡ place_behind front) × (length front + length bytes.now ≤ 4_194_304) }
    ensures { (front : List ℕ) → place ≡ place_behind front → result ≡ place_behind (front ++ bytes.now) }
{
    for b in bytes {
        place = behind_byte(place, *b);
    }
    place
}

// The place behind so many bytes, in which no line ends and of which the first is no space.
pub fn behind_token(place: Place, n: usize) -> Place
    requires { (front : List ℕ) × (place ≡ place_behind front) × (length front + n ≤ 4_194_304) }
    ensures { (front text : List ℕ) → place ≡ place_behind front → length text ≡ n → IsTrue (goes_on text) →
        result ≡ place_behind (front ++ text) }
{
    Place {
        at: place.at + n,
        pos: Pos {
            line: place.pos.line,
            col: place.pos.col + n as u32,
        },
        begins_line: false,
    }
}
