//! What objects ask of their places.

ghost use Rattle.std.specs.Prelude.{◌≡◌, ℕ, ◌+◌, ◌^◌, ◌<◌, ◌≤◌, ◌≡◌, map, OnOk, IfOk, sum_by, nat_lt, length};
ghost use Rattle.std.specs.List.{list_any};
ghost use Rattle.cap_concentrate.specs.Rounding.{alignment, owned};
ghost use Rattle.c_tree.specs.Layout.{object_alignment, size_limit};
ghost use Rattle.cap_layout.specs.Answers.{greatest_align};
ghost use Rattle.cap_layout.specs.Kept.{AreLayoutsOf};
ghost use Rattle.obj_mem.specs.Legal.{room_of, owned_of};
ghost use Rattle.obj_mem.specs.Needs.{need_of, global_need, literal_need, local_needs};
ghost use Rattle.program_needs.specs.Needs.{need, room, counted, owned_need, locals_exceed};

use c_tree::{FunDef, GlobalDef, Typed};
use cap_concentrate::{alignment_mask, rounded_length};
use cap_layout::{Layouts, Owned};
use std::alloc::{AllocError, Global};

/// The owned length of an object and its alignment, in bytes.
#[derive(Clone, Copy, Debug, PartialEq, Eq)]
pub struct Need {
    pub owned: u64,
    pub align: u64,
}

/// The greatest number of bytes of all globals and literals, and of the locals of one function that are objects, each
/// counted as its owned length and its alignment.
pub const LIMIT: u64 = 67_108_864;

// The alignment of a length.
#[tactic(auto, using(crate::proofs::Lengths::alignment_fits))]
fn alignment_of(length: u64) -> u64
    requires { length < 2 ^ 63 }
    ensures { result ≡ alignment length }
{
    !alignment_mask(length) + 1
}

/// The owned length of a length.
#[tactic(auto, using(crate::proofs::Lengths::owned_fits))]
pub fn owned_length(length: u64) -> u64
    requires { length < 2 ^ 63 }
    ensures { result ≡ owned length }
{
    rounded_length(length)
}

// An object of `length` bytes whose type has this alignment.
fn need_for(length: u64, align: u64) -> Need
    requires { length < 2 ^ 63 }
    ensures owned { result.owned ≡ owned length }
    ensures align { result.align ≡ object_alignment align length }
{
    Need {
        owned: owned_length(length),
        align: align.max(alignment_of(length)).max(16),
    }
}

// An object of a type.
fn need_of(layouts: &Layouts, p: &Typed, t: u32) -> Need
    requires { AreLayoutsOf p.now.types layouts.now }
    ensures { (permissions : ℕ) → result ≡ need (need_of p.now.types t permissions) }
{
    match layouts.layout(p, t) {
        Ok(l) => need_for(l.size, l.align),
        Err(_) => need_for(0, 1),
    }
}

/// The owned length of a global.
pub fn owned_by(layouts: &Layouts, p: &Typed, global: &GlobalDef) -> u64
    requires { AreLayoutsOf p.now.types layouts.now }
    ensures { result ≡ owned_of (global_need p.now.types global.now) }
{
    match layouts.layout(p, global.of) {
        Ok(layout) => owned_length(layout.size),
        Err(_) => owned_length(0),
    }
}

/// What the globals ask for, in their order.
pub fn global_needs(alloc: Global, layouts: &Layouts, p: &Typed) -> Result<Vec<Need>, AllocError>
    requires { AreLayoutsOf p.now.types layouts.now }
    ensures { IfOk result (λ ns. ns.items ≡ map need (map (global_need p.now.types) p.now.globals)) }
{
    let mut needs = Vec::new(alloc);
    let globals = p.globals.as_slice();
    for g in globals {
        needs.push(need_of(layouts, p, g.of))?;
    }
    Ok(needs)
}

/// What the literals ask for, in their order.
pub fn literal_needs(alloc: Global, p: &Typed) -> Result<Vec<Need>, AllocError>
    ensures { IfOk result (λ ns. ns.items ≡ map need (map literal_need p.now.literals)) }
{
    let mut needs = Vec::new(alloc);
    let literals = p.literals.as_slice();
    for l in literals {
        needs.push(need_for(l.bytes.as_slice().len() as u64, 1))?;
    }
    Ok(needs)
}

// A sum and one object more.
fn with_room(total: u64, n: Need) -> u64
    ensures { result ≡ counted (total + room n) }
{
    total.saturating_add(n.owned).saturating_add(n.align)
}

/// What objects take at most, wherever they stand. A sum of 2^64 or more is 2^64 - 1 here.
pub fn room(needs: &[Need]) -> u64
    ensures { result ≡ counted (sum_by room needs.now) }
{
    let mut total: u64 = 0;
    for n in needs {
        total = with_room(total, *n);
    }
    total
}

// What the locals of a function that are objects take at most.
#[tactic(auto, using(crate::proofs::Locals::sum_locals))]
fn local_room(layouts: &Layouts, p: &Typed, f: &FunDef) -> u64
    requires { AreLayoutsOf p.now.types layouts.now }
    ensures { result ≡ counted (room_of (local_needs p.now.types f.now)) }
{
    let vars = f.vars.as_slice();
    let mut total: u64 = 0;
    for v in vars {
        if !v.simple {
            total = with_room(total, need_of(layouts, p, v.of));
        }
    }
    total
}

/// Whether the locals of some function are over the limit.
pub fn some_locals_exceed(layouts: &Layouts, p: &Typed) -> bool
    requires { AreLayoutsOf p.now.types layouts.now }
    ensures { result ≡ list_any (locals_exceed p.now.types) p.now.funs }
{
    let funs = p.funs.as_slice();
    let mut found = false;
    for f in funs {
        let over = local_room(layouts, p, f) > LIMIT;
        found = found || over;
    }
    found
}

// What an object takes, as the frames of functions count it.
fn owned_need(n: Need) -> Owned
    ensures length { result.length ≡ n.owned }
    ensures align { result.align ≡ n.align }
{
    Owned {
        length: n.owned,
        align: n.align,
    }
}

/// What the locals of a function that are objects ask for, in the order of their declarations: their owned lengths and
/// their objects' alignments.
pub fn local_needs(
    alloc: Global,
    layouts: &Layouts,
    p: &Typed,
    f: &FunDef,
) -> Result<Vec<Owned>, AllocError>
    requires { AreLayoutsOf p.now.types layouts.now }
    ensures { IfOk result (λ ns. ns.items ≡ map owned_need (local_needs p.now.types f.now)) }
{
    let vars = f.vars.as_slice();
    let mut needs = Vec::new(alloc);
    for v in vars {
        if !v.simple {
            needs.push(owned_need(need_of(layouts, p, v.of)))?;
        }
    }
    Ok(needs)
}
