//! Where the members of structs and unions begin, in a table.

ghost use Rattle.std.specs.Prelude.{◌≡◌, ◌+◌, ◌<◌, ◌≤◌, ◌^◌, IfOk, List, Some};
ghost use Rattle.cap_concentrate.specs.Rounding.{rounded_up};
ghost use Rattle.c_tree.specs.Layout.{Extent, extent, member_offset, size_limit};
ghost use Rattle.c_tree.specs.declared.typed.CType.{CType as Of};
ghost use Rattle.cap_layout.specs.Answers.{greatest_align};
ghost use Rattle.cap_layout.specs.Kept.{AreLayoutsOf};
ghost use Rattle.cheri_c_sem.specs.Types.{offset_in};
ghost use Rattle.mean_run.specs.Offsets.{AreOffsets, AreOffsetsOf, AreStarts, AreStartsIn, HasMember};
ghost use Rattle.mean_run.specs.Offsets.{end_at, end_behind};

use c_tree::{CType, Member, Typed};
use cap_layout::{Layouts, owned};
use ck_base::{NoMemory, Sequence};
use std::alloc::Global;
use std::marker::Model;
use tac_ir::bare;

/// The greatest size of a type.
const LIMIT: u64 = 67_108_864;

/// For each type that is a struct or union, const or not, where its members begin, in their order.
#[derive(Drop)]
pub struct Offsets {
    of_types: Vec<Sequence<u64>>,
}

impl Model for Offsets {
    ghost use Rattle.std.specs.Prelude.{List, ℕ};

    ghost Value = { List (List ℕ) };

    ghost view = { λ s. s.of_types.items };
}

/// Where a member begins behind an end, at the least multiple of its alignment and of that of its length (C11 6.7.2.1),
/// and where what it owns ends.
fn place(layouts: &Layouts, p: &Typed, t: u32, end: u64) -> (u64, u64)
    requires { AreLayoutsOf p.now.types layouts.now }
    ensures { (x : Extent) → extent p.now.types t ≡ Some x → x.size ≤ size_limit → end ≤ size_limit →
        (result.0 ≡ member_offset x (end_at end)) × (result.1 ≡ end_behind x end) }
{
    match layouts.layout(p, t) {
        Err(_) => (0, end),
        Ok(l) => {
            let own = owned(l.size);
            let start = aligned(end.min(LIMIT), l.align.max(own.align));
            (start, start + own.length)
        }
    }
}

/// The least multiple of an alignment that is not below a number.
fn aligned(end: u64, align: u64) -> u64
    requires positive { 0 < align }
    requires align { align ≤ greatest_align }
    requires end { end ≤ size_limit }
    ensures is { result ≡ rounded_up end align }
    ensures below { result < end + align }
{
    (end + (align - 1)) / align * align
}

fn of_struct(
    alloc: Global,
    layouts: &Layouts,
    p: &Typed,
    members: &[Member],
) -> Result<Sequence<u64>, NoMemory>
    requires { AreLayoutsOf p.now.types layouts.now }
    ensures { IfOk result (λ row. AreStarts (extent p.now.types) members.now row) }
{
    let mut offsets = Vec::with_capacity(alloc, members.len())?;
    let mut end: u64 = 0;
    'members: for m in members {
        let placed = place(layouts, p, m.of, end);
        offsets.push(placed.0)?;
        end = placed.1;
    }
    Ok(Sequence::from_vec(offsets))
}

fn of_core(
    alloc: Global,
    layouts: &Layouts,
    p: &Typed,
    c: &CType,
) -> Result<Sequence<u64>, NoMemory>
    requires { AreLayoutsOf p.now.types layouts.now }
    ensures { IfOk result (λ row. AreStartsIn (extent p.now.types) (Some c.now) row) }
{
    match c {
        CType::Struct(_, members) => of_struct(alloc, layouts, p, members.as_slice()),
        CType::Union(_, members) => {
            let count = members.as_slice().len();
            Ok(Sequence::from_vec(vec![in alloc; 0; count]?))
        }
        CType::Void
        | CType::Int(_, _)
        | CType::Cap(_)
        | CType::Pointer(_)
        | CType::Array(_, _)
        | CType::Function(_, _)
        | CType::Const(_)
        | CType::Incomplete(_) => Ok(Sequence::from_vec(Vec::new(alloc))),
    }
}

fn of_type(alloc: Global, layouts: &Layouts, p: &Typed, t: u32) -> Result<Sequence<u64>, NoMemory>
    requires { AreLayoutsOf p.now.types layouts.now }
    ensures { IfOk result (λ row. AreOffsetsOf p.now.types t row) }
{
    match bare(p.types.as_slice(), t) {
        None => Ok(Sequence::from_vec(Vec::new(alloc))),
        Some(c) => of_core(alloc, layouts, p, c),
    }
}

impl Offsets {
    pub fn new(alloc: Global, p: &Typed) -> Result<Offsets, NoMemory>
        ensures { IfOk result (λ s. AreOffsets p.now.types s) }
    {
        let layouts = Layouts::new(alloc, p)?;
        let mut of_types = Vec::new(alloc);
        let count = p.types.as_slice().len();
        'types: for t in 0..count {
            of_types.push(of_type(alloc, &layouts, p, (t % 0x1_0000_0000) as u32)?)?;
        }
        Ok(Offsets { of_types })
    }

    /// Where a member of a struct or union begins.
    pub fn offset(&self, t: u32, member: u32) -> u64
        ensures { (types : List Of) → AreOffsets types self.now → HasMember types t member →
            result ≡ offset_in types t member }
    {
        match self.of_types.get(t as usize) {
            None => 0,
            Some(offsets) => match offsets.as_slice().get(member as usize) {
                None => 0,
                Some(n) => *n,
            },
        }
    }
}
