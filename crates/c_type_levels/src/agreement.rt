//! Whether two levels agree (C11 6.2.7).

ghost use Rattle.std.specs.Prelude.{◌≡◌};
ghost use Rattle.c_tree.specs.Types.{same_kind};
ghost use Rattle.c_type_levels.specs.Agreement.{lengths_of};
ghost use Rattle.c_type_levels.specs.Levels.{levels_agree};

use crate::heads::{Head, Level};
use ck_int::IntKind;

/// When the lengths of two arrays agree.
#[derive(Clone, Copy)]
pub enum Lengths {
    /// They are equal.
    Equal,
    /// They are equal, or one of them is not known (C11 6.7.6.2p6).
    Compatible,
}

fn lengths_agree(how: Lengths, m: u64, n: u64) -> bool
    ensures { lengths_of how m n ≡ result }
{
    match how {
        Lengths::Equal => m == n,
        Lengths::Compatible => m == n || m == 0 || n == 0,
    }
}

fn is_same_kind(j: IntKind, k: IntKind) -> bool
    ensures { same_kind j k ≡ result }
{
    match (j, k) {
        (IntKind::Bool, IntKind::Bool)
        | (IntKind::I8, IntKind::I8)
        | (IntKind::U8, IntKind::U8)
        | (IntKind::I16, IntKind::I16)
        | (IntKind::U16, IntKind::U16)
        | (IntKind::I32, IntKind::I32)
        | (IntKind::U32, IntKind::U32)
        | (IntKind::I64, IntKind::I64)
        | (IntKind::U64, IntKind::U64) => true,
        _ => false,
    }
}

/// Whether two types agree but for their parts (C11 6.2.7p1).
pub fn levels_agree(how: Lengths, c: &Level, d: &Level) -> bool
    ensures { levels_agree (lengths_of how) c.now.head c.now.params.items d.now.head d.now.params.items ≡ result }
{
    match (c.head, d.head) {
        (Head::Void, Head::Void)
        | (Head::Pointer(_), Head::Pointer(_))
        | (Head::Const(_), Head::Const(_)) => true,
        (Head::Int(j, m), Head::Int(k, n)) => is_same_kind(j, k) && m == n,
        (Head::Cap(a), Head::Cap(b)) => { if a { b } else { !b } }
        (Head::Array(_, m), Head::Array(_, n)) => lengths_agree(how, m, n),
        (Head::Tagged(m), Head::Tagged(n)) => m == n,
        (Head::Function(_), Head::Function(_)) => c.params.len() == d.params.len(),
        _ => false,
    }
}
