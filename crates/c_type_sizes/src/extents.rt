//! The sizes of types, by those of complete structs and unions.

ghost use Rattle.std.specs.Prelude.{◌≡◌, ℕ, Some, ◌+◌, ◌*◌, ◌<◌, ◌≤◌, List, IfOk};
ghost use Rattle.c_tree.specs.Layout.{member_offset, size_limit, bytes_of, times, whole, with_extent};
ghost use Rattle.cap_concentrate.specs.Rounding.{rounded_up};
ghost use Rattle.c_tree.specs.Scopes.{TagState, type_extent};
ghost use Rattle.c_tree.specs.Views.{type_at, types_of};
ghost use Rattle.cap_layout.specs.Answers.{greatest_align, extent_is, IsLayout};
ghost use Rattle.cap_layout.specs.Walks.{placing, capped, IsRow};
ghost use Rattle.c_tree.specs.declared.typed.CType.{CType};
ghost use Rattle.c_tree.specs.Types.{Ty};
ghost use Rattle.c_interner.specs.Heads.{built};
ghost use Rattle.c_interner.specs.Numbers.{SeesBefore};
ghost use Rattle.c_type_sizes.specs.Sizes.{step_extent, base_extent, IsSmallStep, IsSmallBase, HasSmallerPart};
ghost use Rattle.c_type_sizes.specs.Sizes.{IsModest};

use c_interner::{Head, head_of};
use c_tree::CType;
use cap_layout::{LIMIT, Layout, LayoutFault, owned};
use ck_int::IntKind;

/// A type that is no array and not const.
#[derive(Clone, Copy)]
pub enum Base {
    /// It is never complete.
    Missing,
    /// The bytes of a scalar.
    Scalar(u64),
    /// A struct or union, by the number of its tag.
    Tagged(u32),
}

/// One level of a type.
#[derive(Clone, Copy)]
enum Step {
    Base(Base),
    /// A number of elements of a type.
    Part(u32, u64),
}

/// A type as a row of elements that are no arrays and not const.
#[derive(Clone, Copy)]
pub struct Row {
    /// What its elements are.
    pub base: Base,
    /// How many elements there are; all numbers over the limit of a size are alike.
    pub count: u64,
}

fn bytes_of(kind: IntKind) -> u64
    ensures is { result ≡ bytes_of kind }
    ensures positive { 0 < result }
    ensures small { result ≤ 16 }
{
    match kind {
        IntKind::Bool | IntKind::I8 | IntKind::U8 => 1,
        IntKind::I16 | IntKind::U16 => 2,
        IntKind::I32 | IntKind::U32 => 4,
        IntKind::I64 | IntKind::U64 => 8,
    }
}

// Elements of a type that stands before the number.
fn part(inner: u32, count: u64, t: u32) -> Step
    ensures is { (tags : List TagState) (types : List CType) (seen : ℕ → Ty) → SeesBefore types t seen →
        with_extent (type_extent tags (seen inner)) (times count) ≡ step_extent tags types result }
    ensures small { IsSmallStep result }
    ensures smaller { HasSmallerPart result t }
{
    if count == 0 {
        Step::Base(Base::Missing)
    } else if inner >= t {
        Step::Base(Base::Missing)
    } else {
        Step::Part(inner, count)
    }
}

fn level(head: Head, t: u32) -> Step
    ensures is { (tags : List TagState) (types : List CType) (seen : ℕ → Ty) (ps : List ℕ) → SeesBefore types t seen →
        type_extent tags (built head ps seen) ≡ step_extent tags types result }
    ensures small { IsSmallStep result }
    ensures smaller { HasSmallerPart result t }
{
    match head {
        Head::Void | Head::Function(_) => Step::Base(Base::Missing),
        Head::Int(kind, _) => Step::Base(Base::Scalar(bytes_of(kind))),
        Head::Cap(_) | Head::Pointer(_) => Step::Base(Base::Scalar(16)),
        Head::Array(inner, count) => part(inner, count, t),
        Head::Tagged(tag) => Step::Base(Base::Tagged(tag)),
        Head::Const(inner) => part(inner, 1, t),
    }
}

fn step_at(types: &[CType], t: u32) -> Step
    ensures is { (tags : List TagState) →
        type_extent tags (type_at (types_of types.now) t) ≡ step_extent tags types.now result }
    ensures small { IsSmallStep result }
    ensures smaller { HasSmallerPart result t }
{
    match types.get(t as usize) {
        None => Step::Base(Base::Missing),
        Some(c) => level(head_of(c), t),
    }
}

// The product of two numbers of elements.
fn product(m: u64, n: u64) -> u64
    requires positive { 0 < m }
    requires small { m ≤ 67108865 }
    ensures { (k : ℕ) → m ≡ capped k → 0 < n → result ≡ capped (k * n) }
{
    if n > LIMIT {
        LIMIT + 1
    } else {
        (m * n).min(LIMIT + 1)
    }
}

/// A type without its arrays and the words `const` around it (C11 6.2.5p20, p26). An array of no elements
/// is one whose length is not known, and has no size.
pub fn row_of(types: &[CType], t: u32) -> Row
    ensures is { (tags : List TagState) →
        IsRow (type_extent tags (type_at (types_of types.now) t)) (base_extent tags result.base) result.count }
    ensures base { IsSmallBase result.base }
    ensures small { result.count ≤ 67108865 }
{
    let mut of = t;
    let mut count: u64 = 1;
    loop {
        match step_at(types, of) {
            Step::Base(base) => return Row { base, count },
            Step::Part(inner, n) => {
                count = product(count, n);
                of = inner;
            }
        }
    }
}

/// The layout of elements in a row (C11 6.2.5p20), or TooLarge exactly for more than 67,108,864 bytes.
pub fn repeated(l: Layout, count: u64) -> Result<Layout, LayoutFault>
    requires size { l.size ≤ 67239936 }
    requires positive { 0 < l.align }
    requires align { l.align ≤ greatest_align }
    requires small { count ≤ 67108865 }
    ensures is { (k : ℕ) → 0 < k → count ≡ capped k → IsLayout (times k (extent_is l)) result }
    ensures modest { IfOk result IsModest }
{
    let size = l.size * count;
    if size > LIMIT {
        Err(LayoutFault::TooLarge)
    } else {
        Ok(Layout {
            size,
            align: l.align,
        })
    }
}

// The least multiple of an alignment that is not below `n`.
fn rounded(n: u64, align: u64) -> u64
    requires positive { 0 < align }
    requires align { align ≤ greatest_align }
    requires small { n ≤ 4294967296 }
    ensures is { result ≡ rounded_up n align }
    ensures above { n ≤ result }
    ensures below { result < n + align }
{
    (n + (align - 1)) / align * align
}

/// Where a member of a struct begins, behind the end of those before it (C11 6.7.2.1p15).
pub fn start_of(m: Layout, end: Layout) -> u64
    requires m_size { m.size ≤ size_limit }
    requires m_positive { 0 < m.align }
    requires m_align { m.align ≤ greatest_align }
    requires size { end.size ≤ size_limit }
    ensures is { result ≡ member_offset (extent_is m) (extent_is end) }
{
    rounded(end.size, m.align.max(owned(m.size).align))
}

/// The end of the members with one more, which shares the others' bytes, as in a union, or stands behind them, as in a
/// struct (C11 6.7.2.1p15, p16).
pub fn placed(m: Layout, end: Layout, shared: bool) -> Layout
    requires m_size { m.size ≤ size_limit }
    requires m_positive { 0 < m.align }
    requires m_align { m.align ≤ greatest_align }
    requires size { end.size ≤ size_limit }
    requires positive { 0 < end.align }
    requires align { end.align ≤ greatest_align }
    ensures is { extent_is result ≡ placing shared (extent_is m) (extent_is end) }
    ensures positive { 0 < result.align }
    ensures align { result.align ≤ greatest_align }
{
    let own = owned(m.size);
    let alone = m.align.max(own.align);
    let align = end.align.max(alone);
    let size = if shared {
        end.size.max(own.length)
    } else {
        rounded(end.size, alone) + own.length
    };
    Layout { size, align }
}

/// A struct or union from the end of its members, rounded up.
pub(crate) fn finished(end: Layout) -> Layout
    requires size { end.size ≤ size_limit }
    requires positive { 0 < end.align }
    requires align { end.align ≤ greatest_align }
    ensures is { whole (extent_is end) ≡ Some (extent_is result) }
    ensures positive { 0 < result.align }
    ensures align { result.align ≤ greatest_align }
{
    Layout {
        size: rounded(end.size, end.align),
        align: end.align,
    }
}
