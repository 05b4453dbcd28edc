//! The relocations of the table and of the globals' links.
ghost use Rattle.std.specs.Prelude.{◌≡◌, ℕ, ◌+◌, ◌-◌, ◌*◌, ◌%◌, ◌^◌, ◌<◌, ◌≤◌, ◌++◌, length, map, OnOk, IfOk};
ghost use Rattle.std.specs.List.{All, zip, flat_map};
ghost use Rattle.ck_int.specs.Kinds.{kept_of};
ghost use Rattle.c_tree.specs.declared.typed.GlobalDef.{GlobalDef};
ghost use Rattle.c_tree.specs.declared.typed.Link.{Link};
ghost use Rattle.cap_reloc.specs.Pointers.{stored, entries, entry_of, narrowed, linked, pointer_at, link_reloc};
ghost use Rattle.cap_reloc.specs.Pointers.{link_relocs};

use crate::whole_pointers::Pointer;
use c_tree::{Link, Target, Typed};
use elf_file::Reloc;
use obj_mem::Map;
use std::alloc::{AllocError, Global};

// The relocation that stores a pointer at a place.
fn stored(place: u64, c: Pointer) -> Reloc
    ensures { result ≡ stored place c }
{
    Reloc {
        place,
        base: c.base,
        offset: c.offset,
        length: c.length,
        perms: c.perms,
    }
}

// Puts the relocations of a table at an address.
pub fn put_entries(
    relocs: &mut Vec<Reloc>,
    table: u64,
    pointers: &[Pointer],
) -> Result<(), AllocError>
    requires { table + 16 * length pointers.now ≤ 2 ^ 63 }
    ensures { OnOk result (relocs.new.items ≡ relocs.old.items ++ entries table pointers.now) }
{
    for (k, c) in pointers.iter().enumerate() {
        relocs.push(stored(table + 16 * k as u64, *c))?;
    }
    Ok(())
}

// The two's complement of a signed number.
#[tactic(auto, using(crate::proofs::Sizes::kept_is))]
fn word(n: i64) -> u64
    ensures { result ≡ kept_of n }
{
    n.cast_unsigned()
}

// A pointer to a part of what the pointer to the link's target points to. No base passes 2^64 where the map is legal;
// the address may stand before the part, and is then counted modulo 2^64.
fn narrowed(c: Pointer, l: &Link) -> Pointer
    ensures { result ≡ narrowed c l.now }
{
    Pointer {
        base: c.base.wrapping_add(l.low),
        offset: word(l.offset).wrapping_sub(l.low),
        length: l.length,
        perms: c.perms,
    }
}

fn linked(c: Pointer, l: &Link) -> Pointer
    ensures { result ≡ linked c l.now l.now.target }
{
    match l.target {
        Target::Fun(_) => c,
        _ => narrowed(c, l),
    }
}

// The entry of the table that points to a link's target.
fn entry_of(p: &Typed, target: Target) -> usize
    requires { length p.now.globals + length p.now.literals ≤ 2 ^ 40 }
    ensures { result ≡ entry_of p.now target }
{
    let globals = p.globals.as_slice().len();
    let literals = p.literals.as_slice().len();
    match target {
        Target::Global(g) => g as usize,
        Target::Literal(k) => globals + k as usize,
        Target::Fun(f) => globals + literals + f as usize,
    }
}

fn pointer_at(pointers: &[Pointer], k: usize) -> Pointer
    requires { k < length pointers.now }
    ensures { result ≡ pointer_at pointers.now k }
{
    pointers[k]
}

pub fn link_reloc(p: &Typed, pointers: &[Pointer], base: u64, l: &Link) -> Reloc
    requires few { length p.now.globals + length p.now.literals ≤ 2 ^ 40 }
    requires there { entry_of p.now l.now.target < length pointers.now }
    ensures { result ≡ link_reloc p.now pointers.now base l.now }
{
    let target = pointer_at(pointers, entry_of(p, l.target));
    stored(base.wrapping_add(l.at), linked(target, l))
}

// The links of a global at its base.
fn put_links(
    relocs: &mut Vec<Reloc>,
    p: &Typed,
    pointers: &[Pointer],
    base: u64,
    links: &[Link],
) -> Result<(), AllocError>
    requires few { length p.now.globals + length p.now.literals ≤ 2 ^ 40 }
    requires there { All (λ (l : Link). entry_of p.now l.target < length pointers.now) links.now }
    ensures { OnOk result (relocs.new.items ≡ relocs.old.items ++ map (link_reloc p.now pointers.now base) links.now) }
{
    for l in links {
        relocs.push(link_reloc(p, pointers, base, l))?;
    }
    Ok(())
}

// The links of all globals.
fn put_all_links(
    relocs: &mut Vec<Reloc>,
    m: &Map,
    p: &Typed,
    pointers: &[Pointer],
) -> Result<(), AllocError>
    requires few { length p.now.globals + length p.now.literals ≤ 2 ^ 40 }
    requires bases { length m.now.globals ≡ length p.now.globals }
    requires there { All (λ (g : GlobalDef). All (λ (l : Link). entry_of p.now l.target < length pointers.now) g.links)
        p.now.globals }
    ensures { OnOk result (relocs.new.items ≡ relocs.old.items
        ++ flat_map (link_relocs p.now pointers.now) (zip p.now.globals m.now.globals)) }
{
    let globals = p.globals.as_slice();
    let bases = m.globals.as_slice();
    for (k, g) in globals.iter().enumerate() {
        put_links(relocs, p, pointers, bases[k], g.links.as_slice())?;
    }
    Ok(())
}

/// The relocations of the table's entries, which are these pointers, and then of the globals' links.
pub fn relocations(
    alloc: Global,
    m: &Map,
    p: &Typed,
    pointers: &[Pointer],
) -> Result<Vec<Reloc>, AllocError>
    requires table { m.now.table.0 + 16 * length pointers.now ≤ 2 ^ 63 }
    requires few { length p.now.globals + length p.now.literals ≤ 2 ^ 40 }
    requires bases { length m.now.globals ≡ length p.now.globals }
    requires there { All (λ (g : GlobalDef). All (λ (l : Link). entry_of p.now l.target < length pointers.now) g.links)
        p.now.globals }
    ensures { IfOk result (λ rs. rs.items ≡ entries m.now.table.0 pointers.now
        ++ flat_map (link_relocs p.now pointers.now) (zip p.now.globals m.now.globals)) }
{
    let mut relocs = Vec::new(alloc);
    put_entries(&mut relocs, m.table.0, pointers)?;
    put_all_links(&mut relocs, m, p, pointers)?;
    Ok(relocs)
}
