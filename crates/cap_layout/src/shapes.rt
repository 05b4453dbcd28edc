//! One level of a type, and a type without its arrays.

ghost use Rattle.std.specs.Prelude.{◌≡◌, ℕ, ◌*◌, ◌<◌, ◌≤◌, Option, slice_get};
ghost use Rattle.c_tree.specs.Layout.{Extent, extent_of, bytes_of};
ghost use Rattle.cap_layout.specs.Walks.{shape_extent, capped, IsCore, IsSmallShape};

use c_tree::{CType, Member};
use ck_int::IntKind;

/// A type that is no array and not const: its bytes, or its members and whether they share their bytes.
#[derive(Clone, Copy)]
pub enum Base<'a> {
    Scalar(u64),
    Members(&'a [Member], bool),
}

/// One level of a type.
#[derive(Clone, Copy)]
pub enum Shape<'a> {
    /// It is not complete.
    Missing,
    Whole(Base<'a>),
    /// A number of elements of a type.
    Part(u32, u64),
}

/// A type as a row of elements that are no arrays and not const.
#[derive(Clone, Copy)]
pub struct Core<'a> {
    pub base: Base<'a>,
    /// How many levels are left below it.
    pub left: usize,
    /// How many elements there are; all numbers over the limit of a size are alike.
    pub count: u64,
}

pub const LIMIT: u64 = 67108864;

fn bytes_of(kind: IntKind) -> u64
    ensures is { result ≡ bytes_of kind }
    ensures positive { 0 < result }
    ensures small { result ≤ 16 }
{
    match kind {
        IntKind::Bool | IntKind::I8 | IntKind::U8 => 1,
        IntKind::I16 | IntKind::U16 => 2,
        IntKind::I32 | IntKind::U32 => 4,
        IntKind::I64 | IntKind::U64 => 8,
    }
}

/// One level of a type.
pub fn shape_of<'a>(c: &'a CType) -> Shape<'a>
    ensures is { (go : ℕ → Option Extent) → extent_of (Some c.now) go ≡ shape_extent result go }
    ensures small { IsSmallShape result }
{
    match c {
        CType::Void => Shape::Missing,
        CType::Int(kind, _) => Shape::Whole(Base::Scalar(bytes_of(*kind))),
        CType::Cap(_) => Shape::Whole(Base::Scalar(16)),
        CType::Pointer(_) => Shape::Whole(Base::Scalar(16)),
        CType::Array(element, count) => Shape::Part(*element, *count),
        CType::Struct(_, members) => Shape::Whole(Base::Members(members.as_slice(), false)),
        CType::Union(_, members) => Shape::Whole(Base::Members(members.as_slice(), true)),
        CType::Function(_, _) => Shape::Missing,
        CType::Const(inner) => Shape::Part(*inner, 1),
        CType::Incomplete(_) => Shape::Missing,
    }
}

/// One level of the type at a number, which is not complete if there is none.
pub fn shape_at<'a>(types: &'a [CType], t: u32) -> Shape<'a>
    ensures is { (go : ℕ → Option Extent) → extent_of (slice_get types.now t) go ≡ shape_extent result go }
    ensures small { IsSmallShape result }
{
    match types.get(t as usize) {
        None => Shape::Missing,
        Some(c) => shape_of(c),
    }
}

// The product of two numbers of elements.
fn product(m: u64, n: u64) -> u64
    requires positive { 0 < m }
    requires small { m ≤ 67108865 }
    ensures { (k : ℕ) → m ≡ capped k → 0 < n → result ≡ capped (k * n) }
{
    if n > LIMIT {
        LIMIT + 1
    } else {
        (m * n).min(LIMIT + 1)
    }
}

/// A type without its arrays and the words `const` around it, at most `depth` levels deep, or None where it is not
/// complete.
pub fn core_of<'a>(types: &'a [CType], depth: usize, t: u32) -> Option<Core<'a>>
    ensures { IsCore depth types.now t result }
{
    let mut left = depth;
    let mut of = t;
    let mut count: u64 = 1;
    while left > 0 {
        left -= 1;
        match shape_at(types, of) {
            Shape::Missing => return None,
            Shape::Whole(base) => return Some(Core { base, left, count }),
            Shape::Part(inner, n) => {
                if n == 0 {
                    return None;
                }
                count = product(count, n);
                of = inner;
            }
        }
    }
    None
}
