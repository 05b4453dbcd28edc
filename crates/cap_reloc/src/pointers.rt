//! The pointers to objects and functions.
ghost use Rattle.std.specs.Prelude.{◌≡◌, ℕ, ◌+◌, ◌-◌, ◌%◌, ◌^◌, ◌<◌, ◌++◌, ◌∷◌, [], map, length, slice_get, IfOk, OnOk};
ghost use Rattle.std.specs.Prelude.{Bool, Some};
ghost use Rattle.std.specs.List.{zip};
ghost use Rattle.cap_layout.specs.Kept.{AreLayoutsOf};
ghost use Rattle.obj_mem.specs.Needs.{need_of, global_need, literal_need, is_const, is_const_of};
ghost use Rattle.cap_reloc.specs.Levels.{const_by};
ghost use Rattle.cap_reloc.specs.Pointers.{global_pointer, literal_pointer, object_pointers, sentry, heap};
ghost use Rattle.cap_reloc.specs.Pointers.{table_pointers};

use crate::whole_pointers::{CONST, DATA, Pointer, literal_pointer, whole};
use c_tree::{CType, GlobalDef, Typed};
use cap_layout::Layouts;
use obj_mem::Map;
use std::alloc::{AllocError, Global};

/// A sentry with Global and Execute.
const SENTRY: u64 = 0x8000_0000_0000_0003;

// What one level of a type says of whether objects of the type are written.
enum Level {
    Const,
    /// It is as its elements, of this type.
    Array(u32),
    Other,
}

fn level_of(c: &CType) -> Level
    ensures { (go : ℕ → Bool) → is_const_of (Some c.now) go ≡ const_by result go }
{
    match c {
        CType::Const(_) => Level::Const,
        CType::Array(of, _) => Level::Array(*of),
        CType::Void
        | CType::Int(_, _)
        | CType::Cap(_)
        | CType::Pointer(_)
        | CType::Struct(_, _)
        | CType::Union(_, _)
        | CType::Function(_, _)
        | CType::Incomplete(_) => Level::Other,
    }
}

fn level_at(types: &[CType], t: u32) -> Level
    ensures { (go : ℕ → Bool) → is_const_of (slice_get types.now t) go ≡ const_by result go }
{
    match types.get(t as usize) {
        Some(c) => level_of(c),
        None => Level::Other,
    }
}

// Whether a type is a const one, or an array of such elements.
fn is_const(p: &Typed, t: u32) -> bool
    ensures { result ≡ is_const p.now.types t }
{
    let types = p.types.as_slice();
    let mut at = t;
    let mut left = types.len();
    while left > 0 {
        left -= 1;
        match level_at(types, at) {
            Level::Const => return true,
            Level::Array(of) => at = of,
            Level::Other => return false,
        }
    }
    false
}

// The size of an object of a type, in bytes. A type without a layout has no objects.
fn size_of(layouts: &Layouts, p: &Typed, t: u32) -> u64
    requires { AreLayoutsOf p.now.types layouts.now }
    ensures value { (permissions : ℕ) → result ≡ (need_of p.now.types t permissions).length }
    ensures small { result < 2 ^ 63 }
{
    match layouts.layout(p, t) {
        Ok(l) => l.size,
        Err(_) => 0,
    }
}

fn global_pointer(layouts: &Layouts, p: &Typed, g: &GlobalDef, base: u64) -> Pointer
    requires { AreLayoutsOf p.now.types layouts.now }
    ensures { result ≡ global_pointer p.now.types (g.now, base) }
{
    let perms = if is_const(p, g.of) { CONST } else { DATA };
    whole(base, size_of(layouts, p, g.of), perms)
}

fn sentry(m: &Map, entry: u64) -> Pointer
    ensures { result ≡ sentry m.now entry }
{
    Pointer {
        base: m.text.0,
        offset: entry.wrapping_sub(m.text.0),
        length: m.text.1,
        perms: SENTRY,
    }
}

fn heap(m: &Map) -> Pointer
    ensures { result ≡ heap m.now }
{
    Pointer {
        base: m.heap.0,
        offset: 0,
        length: m.heap.1,
        perms: DATA,
    }
}

fn global_pointers(
    alloc: Global,
    layouts: &Layouts,
    m: &Map,
    p: &Typed,
) -> Result<Vec<Pointer>, AllocError>
    requires { AreLayoutsOf p.now.types layouts.now }
    ensures { IfOk result (λ cs. cs.items ≡ map (global_pointer p.now.types) (zip p.now.globals m.now.globals)) }
{
    let globals = p.globals.as_slice().iter();
    let bases = m.globals.as_slice().iter();
    globals
        .zip(bases)
        .map(|(g, base)| global_pointer(layouts, p, g, *base))
        .collect(alloc)
}

fn literal_pointers(alloc: Global, m: &Map, p: &Typed) -> Result<Vec<Pointer>, AllocError>
    ensures { IfOk result (λ cs. cs.items ≡ map literal_pointer (zip p.now.literals m.now.literals)) }
{
    let literals = p.literals.as_slice().iter();
    let bases = m.literals.as_slice().iter();
    literals
        .zip(bases)
        .map(|(l, base)| literal_pointer(l, *base))
        .collect(alloc)
}

/// The pointers to the globals and then to the literals, in their order.
#[tactic(auto, unfolding(crate::specs::Pointers::object_pointers))]
pub fn object_pointers(alloc: Global, m: &Map, p: &Typed) -> Result<Vec<Pointer>, AllocError>
    ensures { IfOk result (λ cs. cs.items ≡ object_pointers p.now m.now) }
{
    let layouts = Layouts::new(alloc, p)?;
    let mut pointers = global_pointers(alloc, &layouts, m, p)?;
    pointers.extend_from_slice(&literal_pointers(alloc, m, p)?)?;
    Ok(pointers)
}

// Puts the sentries of the functions, in their order.
fn put_sentries(pointers: &mut Vec<Pointer>, m: &Map) -> Result<(), AllocError>
    ensures { OnOk result (pointers.new.items ≡ pointers.old.items ++ map (sentry m.now) m.now.entries) }
{
    let entries = m.entries.as_slice();
    for entry in entries {
        pointers.push(sentry(m, *entry))?;
    }
    Ok(())
}

/// Puts what stands in the table behind the pointers to objects: the sentries of the functions, and the heap.
#[tactic(auto, unfolding(crate::specs::Pointers::table_pointers))]
pub fn put_functions(pointers: &mut Vec<Pointer>, m: &Map, p: &Typed) -> Result<(), AllocError>
    ensures { OnOk result (pointers.old.items ≡ object_pointers p.now m.now →
        pointers.new.items ≡ table_pointers p.now m.now) }
{
    put_sentries(pointers, m)?;
    pointers.push(heap(m))?;
    Ok(())
}
