//! One level of a type.

ghost use Rattle.std.specs.Prelude.{◌≡◌, ℕ, ◌<◌, true};
ghost use Rattle.c_tree.specs.Types.{Ty};
ghost use Rattle.c_tree.specs.Views.{type_from};
ghost use Rattle.c_type_levels.specs.Heads.{built, params_of, PartStandsBefore, AllBefore};

use c_tree::CType;
use ck_int::IntKind;

/// One level of a type, without the parameters of a function. Numbers without another word are those of types.
#[derive(Clone, Copy, PartialEq, Eq)]
pub enum Head {
    Void,
    Int(IntKind, u8),
    Cap(bool),
    Pointer(u32),
    Array(u32, u64),
    /// A struct or union, by the number of its tag.
    Tagged(u32),
    /// What it gives.
    Function(u32),
    Const(u32),
}

/// One level of a type. Its numbers are those of types of the whole list.
#[derive(Drop)]
pub struct Level {
    pub head: Head,
    pub params: Vec<u32>,
}

/// The level of a type.
pub fn head_of(c: &CType) -> Head
    ensures { (go : ℕ → Ty) → type_from c.now go ≡ built result (params_of c.now) go }
{
    match c {
        CType::Void => Head::Void,
        CType::Int(kind, other) => Head::Int(*kind, *other),
        CType::Cap(signed) => Head::Cap(*signed),
        CType::Pointer(of) => Head::Pointer(*of),
        CType::Array(of, count) => Head::Array(*of, *count),
        CType::Struct(tag, _) => Head::Tagged(*tag),
        CType::Union(tag, _) => Head::Tagged(*tag),
        CType::Function(gives, _) => Head::Function(*gives),
        CType::Const(of) => Head::Const(*of),
        CType::Incomplete(tag) => Head::Tagged(*tag),
    }
}

/// The parameters, which only a function has.
pub fn params_of<'a>(c: &'a CType) -> &'a [u32]
    ensures { result.now ≡ params_of c.now }
{
    match c {
        CType::Function(_, params) => params.as_slice(),
        _ => &[],
    }
}

fn part_stands_before(head: Head, k: u32) -> bool
    ensures { result ≡ true → PartStandsBefore head k }
{
    match head {
        Head::Void | Head::Int(_, _) | Head::Cap(_) | Head::Tagged(_) => true,
        Head::Pointer(of) | Head::Array(of, _) | Head::Function(of) | Head::Const(of) => of < k,
    }
}

fn all_before(params: &[u32], k: u32) -> bool
    ensures { result ≡ true → AllBefore params.now k }
{
    for p in params {
        if *p >= k {
            return false;
        }
    }
    true
}

/// Whether the types that a level names stand before a number.
pub fn stands_before(head: Head, params: &[u32], k: u32) -> bool
    ensures part { result ≡ true → PartStandsBefore head k }
    ensures params { result ≡ true → AllBefore params.now k }
{
    part_stands_before(head, k) && all_before(params, k)
}
