//! What lowering asks of the types of a program, in a table by their numbers.

ghost use Rattle.ck_int.specs.declared.kinds.IntKind.{IntKind};
ghost use Rattle.tac_ir.specs.declared.code.TacKind.TheVariants as kinds;
ghost use Rattle.std.specs.Prelude.{◌≡◌, ℕ, ◌+◌, ◌^◌, ◌<◌, ◌≤◌, Bool, List, Option, IfOk, Some, None, MatchOption};
ghost use Rattle.std.specs.Prelude.{slice_get};
ghost use Rattle.cheri_c_sem.specs.Compatible.{kind_number};
ghost use Rattle.tac_ir.specs.Effects.{kind_of};
ghost use Rattle.tac_ir.specs.WellFormed.{same_kind};
ghost use Rattle.tac_emit.specs.Emitted.{is_capability};
ghost use Rattle.tac_lower.specs.Nodes.{or_int};
ghost use Rattle.tac_lower.specs.Tables.{kept_by, target_by, given_by, record_size, AreOwn, AreSmall, FactsFit};
ghost use Rattle.tac_lower.specs.Tables.{HasLayout, TableFits};
ghost use Rattle.cap_layout.specs.Kept.{AreLayoutsOf};
ghost use Rattle.cap_concentrate.specs.Rounding.{owned, rounded_up};
ghost use Rattle.cap_layout.specs.Answers.{greatest_align};
ghost use Rattle.cheri_c_sem.specs.Types.{is_record, offset_in, offset_or_zero, unit_of};
ghost use Rattle.c_tree.specs.Layout.{Extent, bare, extent, members_of, no_members, offset_of_member, size_limit};
ghost use Rattle.c_tree.specs.Layout.{struct_offset};
ghost use Rattle.c_tree.specs.declared.typed.Member.{Member};
ghost use Rattle.c_tree.specs.declared.typed.CType.{CType};

use c_tree::{CType, Member, Typed};
use cap_layout::{Layout, Layouts, owned};
use ck_base::NoMemory;
use ck_int::IntKind;
use std::alloc::Global;
use tac_ir::{TacKind, bare};

/// The kind of an `int`.
pub const INT: TacKind = TacKind::Int(IntKind::I32);
/// The kind of an unsigned number of 64 bits.
pub const WORD: TacKind = TacKind::Int(IntKind::U64);
/// The kind of a signed number of 64 bits.
pub const LONG: TacKind = TacKind::Int(IntKind::I64);
/// The kind of a pointer.
pub const POINTER: TacKind = TacKind::Cap(false);

/// How many numbers have 32 bits.
const MOST: usize = 4_294_967_296;

/// A type without `const` around it.
#[derive(Clone, Copy)]
pub struct TypeFacts {
    /// How its values are kept, where they are scalars.
    pub kind: Option<TacKind>,
    /// The type that it points to, by its number.
    pub target: Option<u32>,
    /// What it gives, by the type's number, where it is a function.
    pub gives: Option<u32>,
    /// It is a struct or union.
    pub record: bool,
    /// It has a size and an alignment.
    pub complete: bool,
    pub size: u64,
    pub align: u64,
}

impl TypeFacts {
    /// The bytes of a struct or union; none of another type.
    pub fn record_size(self) -> u64
        ensures { result ≡ record_size self }
    {
        if self.record { self.size } else { 0 }
    }

    /// The length of a unit in which a struct or union is copied: at most 16 bytes, and at most its alignment.
    pub fn unit(self) -> u8
        ensures { result ≡ unit_of self.align }
    {
        if self.align < 16 {
            self.align as u8
        } else {
            16
        }
    }
}

/// What is known of a number without a type.
pub const NO_FACTS: TypeFacts = TypeFacts {
    kind: None,
    target: None,
    gives: None,
    record: false,
    complete: false,
    size: 0,
    align: 1,
};

fn kind_of(c: &CType) -> Option<TacKind>
    ensures { result ≡ kept_by (Some c.now) }
{
    match c {
        CType::Int(kind, _) => Some(TacKind::Int(*kind)),
        CType::Cap(signed) => Some(TacKind::Cap(*signed)),
        CType::Pointer(_) => Some(POINTER),
        _ => None,
    }
}

fn target_of(c: &CType) -> Option<u32>
    ensures { result ≡ target_by (Some c.now) }
{
    match c {
        CType::Pointer(t) => Some(*t),
        _ => None,
    }
}

fn gives_of(c: &CType) -> Option<u32>
    ensures { result ≡ given_by (Some c.now) }
{
    match c {
        CType::Function(t, _) => Some(*t),
        _ => None,
    }
}

fn is_record(c: &CType) -> bool
    ensures { result ≡ is_record (Some c.now) }
{
    matches!(c, CType::Struct(_, _) | CType::Union(_, _))
}

fn members_of(c: &CType) -> &[Member]
    ensures among { (k : ℕ) (m : Member) → slice_get result.now k ≡ Some m
        → slice_get (members_of (Some c.now)) k ≡ Some m }
    ensures offset { (go : ℕ → Option Extent) (k : ℕ) → offset_or_zero (offset_of_member (Some c.now) go k)
        ≡ offset_or_zero (struct_offset go result.now k no_members) }
{
    match c {
        CType::Struct(_, members) => members.as_slice(),
        _ => &[],
    }
}

/// The members of a struct; none, where a type is another one.
fn struct_members(p: &Typed, t: u32) -> &[Member]
    ensures offset { (k : ℕ) → offset_in p.now.types t k
        ≡ offset_or_zero (struct_offset (extent p.now.types) result.now k no_members) }
    ensures among { (k : ℕ) (m : Member) → slice_get result.now k ≡ Some m
        → slice_get (members_of (bare p.now.types t)) k ≡ Some m }
{
    match bare(p.types.as_slice(), t) {
        None => &[],
        Some(c) => members_of(c),
    }
}

/// The least multiple of an alignment that is not below a number.
fn aligned(end: u64, align: u64) -> u64
    requires positive { 0 < align }
    requires align { align ≤ greatest_align }
    requires end { end ≤ 2 ^ 60 }
    ensures is { result ≡ rounded_up end align }
    ensures below { result < end + align }
{
    (end + (align - 1)) / align * align
}

/// Where a member of a struct or union begins (C11 6.7.2.1). In a struct it stands at the least multiple of its
/// alignment, and of that with which bounds of its length are exact, that is not below the end of the member before it,
/// which owns its padding; in a union at 0.
pub fn member_offset(p: &Typed, table: &[TypeFacts], t: u32, member: u32) -> u64
    requires { TableFits p.now.types table.now }
    ensures { AreSmall p.now.types t → result ≡ offset_in p.now.types t member }
{
    let members = struct_members(p, t);
    let mut end: u64 = 0;
    let mut left = member;
    for m in members {
        let f = facts_at(table, m.of);
        if !f.complete {
            return 0;
        }
        let own = owned(f.size);
        let start = aligned(end, f.align.max(own.align));
        if left == 0 {
            return start;
        }
        left -= 1;
        end = start + own.length;
    }
    0
}

/// The layout of a type, if it has one.
fn layout_of(layouts: &Layouts, p: &Typed, t: u32) -> Option<Layout>
    requires { AreLayoutsOf p.now.types layouts.now }
    ensures { HasLayout (extent p.now.types t) result }
{
    match layouts.layout(p, t) {
        Ok(layout) => Some(layout),
        Err(_) => None,
    }
}

/// What a type is.
fn own_facts(types: &[CType], t: u32) -> TypeFacts
    ensures { AreOwn (bare types.now t) result }
{
    match bare(types, t) {
        None => NO_FACTS,
        Some(c) => TypeFacts {
            kind: kind_of(c),
            target: target_of(c),
            gives: gives_of(c),
            record: is_record(c),
            ..NO_FACTS
        },
    }
}

/// The facts of a type, by its layout.
fn facts_of(types: &[CType], t: u32, layout: Option<Layout>) -> TypeFacts
    requires { HasLayout (extent types.now t) layout }
    ensures { FactsFit types.now t result }
{
    let own = own_facts(types, t);
    match layout {
        None => TypeFacts {
            complete: false,
            size: 0,
            align: 1,
            ..own
        },
        Some(Layout { size, align }) => TypeFacts {
            complete: true,
            size,
            align,
            ..own
        },
    }
}

/// The facts of all types of a program, in their order.
pub fn type_table(alloc: Global, p: &Typed) -> Result<Vec<TypeFacts>, NoMemory>
    ensures { IfOk result (λ table. TableFits p.now.types table.items) }
{
    let layouts = Layouts::new(alloc, p)?;
    let types = p.types.as_slice();
    let mut table = Vec::new(alloc);
    let count = types.len().min(MOST);
    for t in 0..count {
        let number = t as u32;
        let layout = layout_of(&layouts, p, number);
        table.push(facts_of(types, number, layout))?;
    }
    Ok(table)
}

fn entry(table: &[TypeFacts], t: u32) -> Option<&TypeFacts>
    ensures { MatchOption result (slice_get table.now t ≡ None) (λ f. slice_get table.now t ≡ Some f.now) }
{
    table.get(t as usize)
}

/// The facts of a type.
pub fn facts_at(table: &[TypeFacts], t: u32) -> TypeFacts
    ensures { (types : List CType) → TableFits types table.now → FactsFit types t result }
{
    match entry(table, t) {
        None => NO_FACTS,
        Some(f) => *f,
    }
}

/// A kind; where there is none, that of an `int`.
pub fn or_int(kind: Option<TacKind>) -> TacKind
    ensures { result ≡ or_int kind }
{
    match kind {
        None => INT,
        Some(k) => k,
    }
}

/// A kind is that of a capability.
pub fn is_capability(kind: TacKind) -> bool
    ensures { result ≡ is_capability kind }
{
    matches!(kind, TacKind::Cap(_))
}

/// The number of an integer kind among them.
fn kind_number(k: IntKind) -> u8
    ensures { result ≡ kind_number k }
{
    match k {
        IntKind::Bool => 0,
        IntKind::I8 => 1,
        IntKind::U8 => 2,
        IntKind::I16 => 3,
        IntKind::U16 => 4,
        IntKind::I32 => 5,
        IntKind::U32 => 6,
        IntKind::I64 => 7,
        IntKind::U64 => 8,
    }
}

/// Two kinds are one.
pub fn same_kind(a: TacKind, b: TacKind) -> bool
    ensures { result ≡ same_kind (kind_of a) (kind_of b) }
{
    match (a, b) {
        (TacKind::Int(j), TacKind::Int(k)) => kind_number(j) == kind_number(k),
        (TacKind::Cap(s), TacKind::Cap(t)) => s == t,
        (TacKind::Int(_), TacKind::Cap(_)) | (TacKind::Cap(_), TacKind::Int(_)) => false,
    }
}

/// The kind of integer that a kind counts as: the address of a capability is an integer of 64 bits.
pub fn int_kind(kind: TacKind) -> IntKind
    ensures { (k : IntKind) → kind ≡ kinds.Int k → result ≡ k }
{
    match kind {
        TacKind::Int(k) => k,
        TacKind::Cap(false) => IntKind::U64,
        TacKind::Cap(true) => IntKind::I64,
    }
}

/// A kind is that of a signed capability integer.
pub fn is_signed(kind: TacKind) -> bool
    ensures { (s : Bool) → kind ≡ kinds.Cap s → result ≡ s }
{
    match kind {
        TacKind::Int(_) => false,
        TacKind::Cap(s) => s,
    }
}
