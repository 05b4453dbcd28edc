//! The bytes of the initial data.
ghost use Rattle.std.specs.Prelude.{◌≡◌, ℕ, ◌+◌, ◌-◌, ◌%◌, ◌^◌, ◌<◌, ◌≤◌, length, map, slice_index, OnOk, IfOk};
ghost use Rattle.std.specs.List.{All};
ghost use Rattle.cap_concentrate.specs.Rounding.{rounded_up};
ghost use Rattle.cap_reloc.specs.Initial.{byte_in, byte_of, global_contents, literal_contents, contents, lowest};
ghost use Rattle.cap_reloc.specs.Initial.{highest};
ghost use Rattle.cap_reloc.specs.Pointers.{extent_of, LieIn, GlobalsLieIn, LiteralsLieIn};
ghost use Rattle.cap_reloc.specs.declared.whole_pointers.Pointer.{Pointer};

use crate::whole_pointers::Pointer;
use c_tree::Typed;
use obj_mem::Map;
use std::alloc::{AllocError, Global};

/// Where the initial data stand.
#[derive(Clone, Copy)]
pub struct Stretch {
    pub base: u64,
    /// In bytes.
    pub length: u64,
}

/// From the lowest base of a table and of objects up to their highest end, filled to whole granules.
pub fn stretch_of(table: (u64, u64), objects: &[Pointer]) -> Stretch
    requires table { table.0 + table.1 ≤ 2 ^ 40 }
    requires objects { All (λ (c : Pointer). c.base + c.length ≤ 2 ^ 40) objects.now }
    ensures from { result.base ≡ lowest table.0 (map extent_of objects.now) }
    ensures to { result.base + result.length ≡ rounded_up (highest (table.0 + table.1) (map extent_of objects.now)) 16 }
{
    let mut base = table.0;
    let mut end = table.0 + table.1;
    for c in objects {
        base = base.min(c.base);
        end = end.max(c.base + c.length);
    }
    let filled = (end + 15) / 16 * 16;
    Stretch {
        base,
        length: filled - base,
    }
}

// Puts bytes at an address into those from another on.
pub fn put(bytes: &mut [u8], from: u64, at: u64, part: &[u8])
    requires { LieIn from (length bytes.old) at (length part.now) }
    ensures length { length bytes.new ≡ length bytes.old }
    ensures each { (k : ℕ) → k < length bytes.old →
        slice_index bytes.new k ≡ byte_in (slice_index bytes.old k) (at, part.now) (from + k) }
{
    let start = (at - from) as usize;
    bytes[start..start + part.len()].copy_from_slice(part);
}

// Puts the bytes of the globals at their bases.
fn put_globals(bytes: &mut [u8], from: u64, m: &Map, p: &Typed)
    requires bases { length m.now.globals ≡ length p.now.globals }
    requires lie { GlobalsLieIn from (length bytes.old) p.now.globals m.now.globals }
    ensures length { length bytes.new ≡ length bytes.old }
    ensures each { (k : ℕ) → k < length bytes.old →
        slice_index bytes.new k ≡ byte_of (slice_index bytes.old k) (global_contents p.now m.now) (from + k) }
{
    let globals = p.globals.as_slice();
    let bases = m.globals.as_slice();
    for (k, g) in globals.iter().enumerate() {
        put(bytes, from, bases[k], g.bytes.as_slice());
    }
}

// Puts the bytes of the literals at their bases.
fn put_literals(bytes: &mut [u8], from: u64, m: &Map, p: &Typed)
    requires bases { length m.now.literals ≡ length p.now.literals }
    requires lie { LiteralsLieIn from (length bytes.old) p.now.literals m.now.literals }
    ensures length { length bytes.new ≡ length bytes.old }
    ensures each { (k : ℕ) → k < length bytes.old →
        slice_index bytes.new k ≡ byte_of (slice_index bytes.old k) (literal_contents p.now m.now) (from + k) }
{
    let literals = p.literals.as_slice();
    let bases = m.literals.as_slice();
    for (k, l) in literals.iter().enumerate() {
        put(bytes, from, bases[k], l.bytes.as_slice());
    }
}

// Puts the bytes of the globals and the literals into those from an address on.
#[tactic(auto, using(crate::proofs::Contents::byte_of_both))]
fn put_all(bytes: &mut [u8], from: u64, m: &Map, p: &Typed)
    requires global_bases { length m.now.globals ≡ length p.now.globals }
    requires literal_bases { length m.now.literals ≡ length p.now.literals }
    requires globals { GlobalsLieIn from (length bytes.old) p.now.globals m.now.globals }
    requires literals { LiteralsLieIn from (length bytes.old) p.now.literals m.now.literals }
    ensures length { length bytes.new ≡ length bytes.old }
    ensures each { (k : ℕ) → k < length bytes.old →
        slice_index bytes.new k ≡ byte_of (slice_index bytes.old k) (contents p.now m.now) (from + k) }
{
    put_globals(bytes, from, m, p);
    put_literals(bytes, from, m, p);
}

/// The bytes of a stretch: those of the globals and literals at their places, and else zeros.
pub fn initial_bytes(alloc: Global, m: &Map, p: &Typed, s: Stretch) -> Result<Vec<u8>, AllocError>
    requires global_bases { length m.now.globals ≡ length p.now.globals }
    requires literal_bases { length m.now.literals ≡ length p.now.literals }
    requires globals { GlobalsLieIn s.base s.length p.now.globals m.now.globals }
    requires literals { LiteralsLieIn s.base s.length p.now.literals m.now.literals }
    ensures length { IfOk result (λ bytes. length bytes.items ≡ s.length) }
    ensures each { IfOk result (λ bytes. (k : ℕ) → k < s.length →
        slice_index bytes.items k ≡ byte_of 0 (contents p.now m.now) (s.base + k)) }
{
    let mut bytes = vec![in alloc; 0; s.length as usize]?;
    put_all(&mut bytes, s.base, m, p);
    Ok(bytes)
}
