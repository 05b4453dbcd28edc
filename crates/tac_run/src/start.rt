//! The objects with which a program begins (C11 5.1.2, 6.7.9p10).
ghost use Rattle.std.specs.Prelude.{◌≡◌, ◌+◌, ◌-◌, ◌^◌, ◌<◌, ◌≤◌, length, map, replicate, IfOk, OnOk};
ghost use Rattle.c_tree.specs.Layout.{size_limit};
ghost use Rattle.c_tree.specs.declared.typed.Typed.{Typed};
ghost use Rattle.obj_mem.specs.Values.{value_of};
ghost use Rattle.cheri_c_sem.specs.Calls.{add_globals, add_literals, written, with_bytes, with_links, all_bytes};
ghost use Rattle.cheri_c_sem.specs.Calls.{fill_globals, link_globals, fill_literals, start};
ghost use Rattle.cheri_c_sem.specs.Programs.{value_by, value_at, global_tree, program_tree};
ghost use Rattle.cheri_c_sem.specs.Types.{size_in};
ghost use Rattle.mean_types.specs.Facts.{AreTypesOf};
ghost use Rattle.object_memory.specs.Memories.{IsSize};
ghost use Rattle.tac_run.specs.Lists.{bytes_of};
ghost use Rattle.tac_run.specs.Ready.{AreBounded, IsReady};
ghost use Rattle.tac_run.specs.Holdings.{ops_of, with_store};

use crate::held::Held;
use crate::places::further;
use crate::program::{CONST, DATA, Program};
use c_tree::{GlobalDef, Link, Target};
use ck_base::NoMemory;
use obj_mem::{Map, Value};

fn add_globals(memory: &mut Held<'_>, program: Program<'_>) -> Result<(), NoMemory>
    requires ready { IsReady program.p.now memory.old.map }
    requires types { AreTypesOf program.p.now.types program.types.now }
    ensures { OnOk result (memory.new ≡ with_store memory.old
        (add_globals (ops_of memory.old) memory.old.store 0
        (map (global_tree program.entry.p.now) program.entry.p.now.globals))) }
{
    'globals: for (k, g) in program.p.globals.as_slice().iter().enumerate() {
        memory.add_global(k as u64, program.types.facts(program.p, g.of).size)?;
    }
    Ok(())
}

fn add_literals(memory: &mut Held<'_>, program: Program<'_>) -> Result<(), NoMemory>
    requires ready { IsReady program.p.now memory.old.map }
    ensures { OnOk result (memory.new ≡ with_store memory.old
        (add_literals (ops_of memory.old) memory.old.store 0 (map bytes_of program.entry.p.now.literals))) }
{
    'literals: for (k, l) in program.p.literals.as_slice().iter().enumerate() {
        memory.add_literal(k as u64, l.bytes.as_slice().len() as u64)?;
    }
    Ok(())
}

/// A value of so many bytes at a place of an object. What does not fit is not written.
fn write(memory: &mut Held<'_>, object: u64, at: u64, bytes: u8, v: Value)
    requires { IsSize bytes }
    ensures { memory.new ≡ with_store memory.old
        (written (ops_of memory.old) memory.old.store object at bytes (value_of v)) }
{
    let to = further(memory.whole(object, DATA), at);
    let _written = memory.store(to, bytes, v);
}

/// Bytes from the start of an object on.
fn write_bytes(memory: &mut Held<'_>, object: u64, bytes: &[u8])
    ensures { memory.new ≡ with_store memory.old (with_bytes (ops_of memory.old) memory.old.store object 0 bytes.now) }
{
    'bytes: for (at, b) in bytes.iter().enumerate() {
        write(memory, object, at as u64, 1, Value::Int(u64::from(*b)));
    }
}

/// Zero bytes from a place of an object up to another one.
fn write_zeros(memory: &mut Held<'_>, object: u64, from: u64, to: u64)
    ensures { memory.new ≡ with_store memory.old
        (with_bytes (ops_of memory.old) memory.old.store object from (replicate (to - from) 0)) }
{
    'zeros: for at in from..to {
        write(memory, object, at, 1, Value::Int(0));
    }
}

/// The first bytes of a global, and zero bytes behind them.
fn fill_global(memory: &mut Held<'_>, program: Program<'_>, object: u64, g: &GlobalDef)
    requires types { AreTypesOf program.p.now.types program.types.now }
    requires small { size_in program.p.now.types g.now.of ≤ size_limit }
    ensures { memory.new ≡ with_store memory.old
        (with_bytes (ops_of memory.old) memory.old.store object 0
        (all_bytes (ops_of memory.old) (global_tree program.entry.p.now g.now))) }
{
    let bytes = g.bytes.as_slice();
    write_bytes(memory, object, bytes);
    write_zeros(
        memory,
        object,
        bytes.len() as u64,
        program.types.facts(program.p, g.of).size,
    );
}

fn fill_globals(memory: &mut Held<'_>, program: Program<'_>)
    requires ready { IsReady program.p.now memory.old.map }
    requires types { AreTypesOf program.p.now.types program.types.now }
    ensures { memory.new ≡ with_store memory.old
        (fill_globals (ops_of memory.old) memory.old.store 0
        (map (global_tree program.entry.p.now) program.entry.p.now.globals)) }
{
    'globals: for (object, g) in program.p.globals.as_slice().iter().enumerate() {
        fill_global(memory, program, object as u64, g);
    }
}

fn fill_literals(memory: &mut Held<'_>, program: Program<'_>)
    ensures { memory.new ≡ with_store memory.old
        (fill_literals (ops_of memory.old) memory.old.store (length program.entry.p.now.globals)
        (map bytes_of program.entry.p.now.literals)) }
{
    let first = program.p.globals.as_slice().len() as u64;
    'literals: for (k, l) in program.p.literals.as_slice().iter().enumerate() {
        write_bytes(memory, first + k as u64, l.bytes.as_slice());
    }
}

/// A pointer with the bounds and the address of a link.
fn pointer(object: u64, permissions: u16, l: &Link) -> Value
    requires { l.now.low + l.now.length < 2 ^ 64 }
    ensures { (p : Typed) → value_of result ≡ value_by p object permissions l.now }
{
    Value::Live(object, l.low, l.low + l.length, l.offset, permissions)
}

fn value_of_link(program: Program<'_>, l: &Link) -> Value
    requires types { AreTypesOf program.p.now.types program.types.now }
    requires bounds { l.now.low + l.now.length < 2 ^ 64 }
    ensures { value_of result ≡ value_at program.entry.p.now l.now l.now.target }
{
    match l.target {
        Target::Global(g) => pointer(u64::from(g), program.permissions(g), l),
        Target::Literal(n) => pointer(program.literal(n), CONST, l),
        Target::Fun(f) => Value::Fun(f),
    }
}

fn link_global(memory: &mut Held<'_>, program: Program<'_>, object: u64, g: &GlobalDef)
    requires types { AreTypesOf program.p.now.types program.types.now }
    requires bounds { AreBounded g.now.links }
    ensures { memory.new ≡ with_store memory.old
        (with_links (ops_of memory.old) memory.old.store object (global_tree program.entry.p.now g.now).links) }
{
    'links: for l in g.links.as_slice() {
        write(memory, object, l.at, 16, value_of_link(program, l));
    }
}

fn link_globals(memory: &mut Held<'_>, program: Program<'_>)
    requires ready { IsReady program.p.now memory.old.map }
    requires types { AreTypesOf program.p.now.types program.types.now }
    ensures { memory.new ≡ with_store memory.old
        (link_globals (ops_of memory.old) memory.old.store 0
        (map (global_tree program.entry.p.now) program.entry.p.now.globals)) }
{
    'globals: for (object, g) in program.p.globals.as_slice().iter().enumerate() {
        link_global(memory, program, object as u64, g);
    }
}

/// The objects of the globals and then those of the literals, in their order, with what stands in them at the start.
#[tactic(auto, unfolding(cheri_c_sem::specs::Calls::start, cheri_c_sem::specs::Programs::program_tree))]
pub fn start<'a>(program: Program<'_>, map: &'a Map) -> Result<Held<'a>, NoMemory>
    requires ready { IsReady program.p.now map.now }
    requires types { AreTypesOf program.p.now.types program.types.now }
    ensures { IfOk result (λ h. h ≡ record {
      map = map.now;
      store = start (ops_of h) (program_tree program.entry.p.now);
    }) }
{
    let mut memory = Held::new(program.alloc, map)?;
    add_globals(&mut memory, program)?;
    add_literals(&mut memory, program)?;
    fill_globals(&mut memory, program);
    fill_literals(&mut memory, program);
    link_globals(&mut memory, program);
    Ok(memory)
}
