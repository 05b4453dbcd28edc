//! The objects with which a program begins (C11 5.1.2, 6.7.9p10).

ghost use Rattle.std.specs.Prelude.{◌≡◌, ◌+◌, ◌-◌, ◌<◌, ◌≤◌, ◌^◌, [], length, map, replicate, slice_get, OnOk};
ghost use Rattle.c_tree.specs.Layout.{size_limit};
ghost use Rattle.c_tree.specs.declared.typed.Literal.{Literal as Text};
ghost use Rattle.ck_int.specs.Kinds.{kept_of};
ghost use Rattle.obj_mem.specs.Values.{Live, value_of};
ghost use Rattle.cheri_c_sem.specs.Calls.{
  add_globals,
  add_literals,
  all_bytes,
  fill_globals,
  fill_literals,
  link_globals,
  start,
  with_bytes,
  with_links,
  written,
};
ghost use Rattle.cheri_c_sem.specs.Expressions.{permissions_of};
ghost use Rattle.cheri_c_sem.specs.Programs.{global_tree, program_tree, value_at};
ghost use Rattle.cheri_c_sem.specs.Types.{size_in};
ghost use Rattle.mean_operations.specs.Answers.{IsAccess};
ghost use Rattle.mean_types.specs.Facts.{AreTypesOf};
ghost use Rattle.c_mean.specs.Starting.{AreLinks, IsSized, IsStartable, starting};

use c_tree::{GlobalDef, Link, Literal, Target, Typed};
use ck_base::NoMemory;
use mean_operations::Operations;
use mean_run::{Storage, further, global_permissions};
use mean_types::Types;
use obj_mem::Value;

/// The permissions of pointers to objects, and of those to objects that are not written.
const DATA: u16 = 125;

const CONST: u16 = 21;

/// The objects of the globals and then those of the literals, in their order, with what stands in them at the start.
pub fn start<B: Storage>(m: &mut B, p: &Typed, types: &Types) -> Result<(), NoMemory>
    requires types { AreTypesOf p.now.types types.now }
    requires startable { IsStartable p.now }
    requires empty { B.held m.old ≡ (B.meaning m.old).empty }
    ensures same { B.meaning m.new ≡ B.meaning m.old }
    ensures did { OnOk result (B.held m.new ≡ start (B.meaning m.old) (program_tree p.now)) }
{
    add_all_globals(m, p, types)?;
    add_all_literals(m, p)?;
    fill_all_globals(m, p, types);
    fill_all_literals(m, p);
    link_all_globals(m, p, types);
    Ok(())
}

fn add_all_globals<B: Storage>(m: &mut B, p: &Typed, types: &Types) -> Result<(), NoMemory>
    requires types { AreTypesOf p.now.types types.now }
    requires startable { IsStartable p.now }
    ensures same { B.meaning m.new ≡ B.meaning m.old }
    ensures did { OnOk result (B.held m.new
        ≡ add_globals (B.meaning m.old) (B.held m.old) 0 (map (global_tree p.now) p.now.globals)) }
{
    for (k, g) in p.globals.as_slice().iter().enumerate() {
        m.add_global(k as u64, size_of(p, types, g))?;
    }
    Ok(())
}

fn add_all_literals<B: Storage>(m: &mut B, p: &Typed) -> Result<(), NoMemory>
    requires startable { IsStartable p.now }
    ensures same { B.meaning m.new ≡ B.meaning m.old }
    ensures did { OnOk result (B.held m.new
        ≡ add_literals (B.meaning m.old) (B.held m.old) 0 (map (λ (s : Text). s.bytes) p.now.literals)) }
{
    for (k, l) in p.literals.as_slice().iter().enumerate() {
        m.add_literal(k as u64, length_of(l))?;
    }
    Ok(())
}

fn fill_all_globals<B: Operations>(m: &mut B, p: &Typed, types: &Types)
    requires types { AreTypesOf p.now.types types.now }
    requires startable { IsStartable p.now }
    ensures same { B.meaning m.new ≡ B.meaning m.old }
    ensures did { B.held m.new
        ≡ fill_globals (B.meaning m.old) (B.held m.old) 0 (map (global_tree p.now) p.now.globals) }
{
    for (k, g) in p.globals.as_slice().iter().enumerate() {
        fill(m, p, types, k as u64, g);
    }
}

fn fill_all_literals<B: Operations>(m: &mut B, p: &Typed)
    requires startable { IsStartable p.now }
    ensures same { B.meaning m.new ≡ B.meaning m.old }
    ensures did { B.held m.new
        ≡ fill_literals (B.meaning m.old) (B.held m.old) (length p.now.globals)
        (map (λ (s : Text). s.bytes) p.now.literals) }
{
    let globals = p.globals.as_slice().len() as u64;
    for (k, l) in p.literals.as_slice().iter().enumerate() {
        put_bytes(m, globals + k as u64, l.bytes.as_slice());
    }
}

fn link_all_globals<B: Operations>(m: &mut B, p: &Typed, types: &Types)
    requires types { AreTypesOf p.now.types types.now }
    requires startable { IsStartable p.now }
    ensures same { B.meaning m.new ≡ B.meaning m.old }
    ensures did { B.held m.new
        ≡ link_globals (B.meaning m.old) (B.held m.old) 0 (map (global_tree p.now) p.now.globals) }
{
    for (k, g) in p.globals.as_slice().iter().enumerate() {
        put_links(m, p, types, k as u64, g.links.as_slice());
    }
}

/// The size of a global's type.
fn size_of(p: &Typed, types: &Types, g: &GlobalDef) -> u64
    requires types { AreTypesOf p.now.types types.now }
    requires sized { IsSized p.now g.now }
    ensures is { result ≡ size_in p.now.types g.now.of }
    ensures few { result ≤ 67108864 }
{
    types.facts(p, g.of).size
}

fn length_of(l: &Literal) -> u64
    requires { length l.now.bytes ≤ size_limit }
    ensures is { result ≡ length l.now.bytes }
    ensures few { result ≤ 67108864 }
{
    l.bytes.as_slice().len() as u64
}

/// The permissions of pointers to a global.
fn permissions(p: &Typed, types: &Types, g: u32) -> u16
    requires { AreTypesOf p.now.types types.now }
    ensures { result ≡ permissions_of p.now [] (slice_get p.now.globals g) }
{
    global_permissions(p, types, g)
}

/// A value of so many bytes at a place of an object. What does not fit is not written.
fn write<B: Operations>(m: &mut B, object: u64, at: u64, bytes: u8, v: Value)
    requires { IsAccess bytes }
    ensures same { B.meaning m.new ≡ B.meaning m.old }
    ensures did { B.held m.new ≡ written (B.meaning m.old) (B.held m.old) object at bytes (value_of v) }
{
    let to = further(m.whole(object, DATA), at);
    let _written = m.store(to, bytes, v);
}

fn put_bytes<B: Operations>(m: &mut B, object: u64, bytes: &[u8])
    ensures same { B.meaning m.new ≡ B.meaning m.old }
    ensures did { B.held m.new ≡ with_bytes (B.meaning m.old) (B.held m.old) object 0 bytes.now }
{
    for (at, b) in bytes.iter().enumerate() {
        write(m, object, at as u64, 1, Value::Int(u64::from(*b)));
    }
}

/// The first bytes of a global, and zero bytes behind them.
fn fill<B: Operations>(m: &mut B, p: &Typed, types: &Types, object: u64, g: &GlobalDef)
    requires types { AreTypesOf p.now.types types.now }
    requires sized { IsSized p.now g.now }
    ensures same { B.meaning m.new ≡ B.meaning m.old }
    ensures did { B.held m.new
        ≡ with_bytes (B.meaning m.old) (B.held m.old) object 0
        (all_bytes (B.meaning m.old) (global_tree p.now g.now)) }
{
    put_bytes(m, object, g.bytes.as_slice());
    put_zeros(
        m,
        object,
        g.bytes.as_slice().len() as u64,
        size_of(p, types, g),
    );
}

/// Zero bytes from one place to another.
fn put_zeros<B: Operations>(m: &mut B, object: u64, from: u64, to: u64)
    ensures same { B.meaning m.new ≡ B.meaning m.old }
    ensures did { B.held m.new
        ≡ with_bytes (B.meaning m.old) (B.held m.old) object from (replicate (to - from) 0) }
{
    for at in from..to {
        write(m, object, at, 1, Value::Int(0));
    }
}

fn put_links<B: Operations>(m: &mut B, p: &Typed, types: &Types, object: u64, links: &[Link])
    requires types { AreTypesOf p.now.types types.now }
    requires few { length p.now.globals < 2 ^ 32 }
    requires links { AreLinks links.now }
    ensures same { B.meaning m.new ≡ B.meaning m.old }
    ensures did { B.held m.new
        ≡ with_links (B.meaning m.old) (B.held m.old) object (map (starting p.now) links.now) }
{
    for link in links {
        put_link(m, p, types, object, link);
    }
}

fn put_link<B: Operations>(m: &mut B, p: &Typed, types: &Types, object: u64, l: &Link)
    requires types { AreTypesOf p.now.types types.now }
    requires few { length p.now.globals < 2 ^ 32 }
    requires fits { l.now.low + l.now.length < 2 ^ 64 }
    ensures same { B.meaning m.new ≡ B.meaning m.old }
    ensures did { B.held m.new ≡ written (B.meaning m.old) (B.held m.old) object l.now.at 16
        (value_at p.now l.now l.now.target) }
{
    let globals = p.globals.as_slice().len() as u64;
    let v = match l.target {
        Target::Global(g) => pointer(u64::from(g), permissions(p, types, g), l),
        Target::Literal(n) => pointer(globals + u64::from(n), CONST, l),
        Target::Fun(f) => Value::Fun(f),
    };
    write(m, object, l.at, 16, v);
}

fn pointer(object: u64, permissions: u16, l: &Link) -> Value
    requires { l.now.low + l.now.length < 2 ^ 64 }
    ensures { value_of result ≡ Live object l.now.low (l.now.low + l.now.length) (kept_of l.now.offset) permissions }
{
    Value::Live(object, l.low, l.low + l.length, l.offset, permissions)
}
