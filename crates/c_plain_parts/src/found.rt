//! The first rule in the file that fails at its end.

ghost use Rattle.std.specs.Prelude.{◌≡◌};
ghost use Rattle.c_tree.specs.Programs.{fault, undefined_use, stands_before, earlier};
ghost use Rattle.c_plain_parts.specs.Faults.{found, onto};

use ck_base::{Pos, UNDEFINED_NAME};

/// A rule that fails, by its code, and where.
#[derive(Clone, Copy)]
pub struct Found {
    pub code: u16,
    pub pos: Pos,
}

fn stands_before(p: Pos, q: Pos) -> bool
    ensures { stands_before p q ≡ result }
{
    p.line < q.line || (p.line == q.line && p.col < q.col)
}

/// Of a rule that fails and a later one, that whose place is the first in the file.
pub fn earlier(code: u16, pos: Pos, rest: Option<Found>) -> Option<Found>
    ensures { found result ≡ earlier (fault code pos) (found rest) }
{
    match rest {
        None => Some(Found { code, pos }),
        Some(other) => {
            if stands_before(other.pos, pos) {
                Some(other)
            } else {
                Some(Found { code, pos })
            }
        }
    }
}

/// What is used is defined (130).
pub fn undefined(defined: bool, used: Option<Pos>, rest: Option<Found>) -> Option<Found>
    ensures { found result ≡ onto (undefined_use defined used) (found rest) }
{
    match used {
        None => rest,
        Some(pos) => {
            if defined {
                rest
            } else {
                earlier(UNDEFINED_NAME, pos, rest)
            }
        }
    }
}
