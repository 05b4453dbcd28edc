//! The struct or union behind the words `const`.
ghost use Rattle.std.specs.Prelude.{◌≡◌, ℕ, ◌*◌, Some, Option, Bool};
ghost use Rattle.c_tree.specs.declared.typed.CType.{CType};
ghost use Rattle.c_tree.specs.Layout.{bare_of, bare_within, extent_within};
ghost use Rattle.cap_layout.specs.Walks.{IsInner, IsOneLevel, IsRecord};

use c_tree::{CType, Member};

/// What stands behind the words `const`: the members of a struct or union, or something else.
#[derive(Clone, Copy)]
pub enum Record<'a> {
    Other,
    Struct(&'a [Member]),
    Union(&'a [Member]),
}

// The type behind one word `const`.
fn inner_of(c: &CType) -> Option<u32>
    ensures { IsInner c.now result }
{
    match c {
        CType::Const(inner) => Some(*inner),
        _ => None,
    }
}

fn record_of<'a>(c: &'a CType) -> Record<'a>
    ensures { IsOneLevel c.now result }
{
    match c {
        CType::Struct(_, members) => Record::Struct(members.as_slice()),
        CType::Union(_, members) => Record::Union(members.as_slice()),
        _ => Record::Other,
    }
}

/// A type without the words `const` before it, at most `depth` of them.
pub fn record_at<'a>(types: &'a [CType], depth: usize, t: u32) -> Record<'a>
    ensures { IsRecord types.now (bare_within depth types.now t) (extent_within depth types.now t) result }
{
    let mut left = depth;
    let mut of = t;
    while left > 0 {
        left -= 1;
        match types.get(of as usize) {
            None => return Record::Other,
            Some(c) => match inner_of(c) {
                None => return record_of(c),
                Some(inner) => of = inner,
            },
        }
    }
    Record::Other
}
