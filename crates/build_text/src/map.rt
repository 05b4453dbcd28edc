//! The text of a map.

ghost use Rattle.std.specs.Prelude.{◌≡◌, List, ◌++◌, ◌<◌, ◌≤◌, ◌^◌, length, slice_get, Some, OnOk, IfOk, codes};
ghost use Rattle.std.specs.Prelude.{decimal};
ghost use Rattle.std.specs.List.{filter};
ghost use Rattle.c_tree.specs.declared.typed.CType.{CType};
ghost use Rattle.cap_layout.specs.Kept.{AreLayoutsOf};
ghost use Rattle.obj_mem.specs.Legal.{owned_of};
ghost use Rattle.obj_mem.specs.Needs.{global_need, literal_need, is_object};
ghost use Rattle.build_text.specs.Lines.{lines};
ghost use Rattle.build_text.specs.Map.{name_at, pos_text, pair_end, part_line, function_line, global_line};
ghost use Rattle.build_text.specs.Map.{literal_line, slot_line, slot_line_of, frame_lines, map_text};

use c_tree::{FunDef, GlobalDef, Literal, Typed, VarDef};
use cap_layout::Layouts;
use ck_base::{NoMemory, Pos, Span};
use itoa::Buffer;
use obj_mem::{Frame, Map, Slot};
use program_needs::{owned_by, owned_length};
use std::alloc::Global;

/// The bytes of a name, as far as they stand in the file.
fn name_at(file: &[u8], span: Span) -> &[u8]
    ensures { result.now ≡ name_at file.now span }
{
    let end = (span.end as usize).min(file.len());
    let start = (span.start as usize).min(end);
    &file[start..end]
}

/// Appends some text.
fn push(into: &mut Vec<u8>, text: &str) -> Result<(), NoMemory>
    ensures { OnOk result (into.new.items ≡ into.old.items ++ text.now) }
{
    into.extend_from_slice(text.as_bytes())?;
    Ok(())
}

/// Appends a number in decimal.
fn push_number(into: &mut Vec<u8>, number: u64) -> Result<(), NoMemory>
    ensures { OnOk result (into.new.items ≡ into.old.items ++ decimal number) }
{
    push(into, Buffer::new().format(number))
}

/// Appends a line and a column.
fn push_pos(into: &mut Vec<u8>, pos: Pos) -> Result<(), NoMemory>
    ensures { OnOk result (into.new.items ≡ into.old.items ++ pos_text pos) }
{
    push_number(into, u64::from(pos.line))?;
    push(into, ":")?;
    push_number(into, u64::from(pos.col))
}

/// Appends the bytes of a name.
fn push_name(into: &mut Vec<u8>, file: &[u8], span: Span) -> Result<(), NoMemory>
    ensures { OnOk result (into.new.items ≡ into.old.items ++ name_at file.now span) }
{
    into.extend_from_slice(name_at(file, span))?;
    Ok(())
}

/// Appends two numbers, each behind a space, and ends the line.
fn push_pair(into: &mut Vec<u8>, a: u64, b: u64) -> Result<(), NoMemory>
    ensures { OnOk result (into.new.items ≡ into.old.items ++ pair_end a b) }
{
    push(into, " ")?;
    push_number(into, a)?;
    push(into, " ")?;
    push_number(into, b)?;
    push(into, "\n")
}

/// Appends the line of a part of which there is one.
fn push_part(into: &mut Vec<u8>, word: &str, part: (u64, u64)) -> Result<(), NoMemory>
    ensures { OnOk result (into.new.items ≡ into.old.items ++ part_line word.now part) }
{
    push(into, word)?;
    push_pair(into, part.0, part.1)
}

/// Appends the line of a function, with its entry.
fn push_function(
    into: &mut Vec<u8>,
    file: &[u8],
    function: &FunDef,
    entry: u64,
) -> Result<(), NoMemory>
    ensures { OnOk result (into.new.items ≡ into.old.items ++ function_line file.now (Some function.now) (Some entry)) }
{
    push(into, "function ")?;
    push_name(into, file, function.name)?;
    push(into, " ")?;
    push_number(into, entry)?;
    push(into, "\n")
}

/// Appends the line of function k, if it has an entry.
fn push_function_at(
    into: &mut Vec<u8>,
    file: &[u8],
    functions: &[FunDef],
    entries: &[u64],
    k: usize,
) -> Result<(), NoMemory>
    ensures { OnOk result (into.new.items ≡ into.old.items
        ++ function_line file.now (slice_get functions.now k) (slice_get entries.now k)) }
{
    match (functions.get(k), entries.get(k)) {
        (Some(function), Some(entry)) => push_function(into, file, function, *entry),
        _ => Ok(()),
    }
}

/// Appends the lines of the functions, in their order.
fn push_functions(
    into: &mut Vec<u8>,
    file: &[u8],
    functions: &[FunDef],
    entries: &[u64],
) -> Result<(), NoMemory>
    ensures { OnOk result (into.new.items ≡ into.old.items
        ++ lines (λ k. function_line file.now (slice_get functions.now k) (slice_get entries.now k))
        (length functions.now)) }
{
    for k in 0..functions.len() {
        push_function_at(into, file, functions, entries, k)?;
    }
    Ok(())
}

/// Appends the line of a global of this length, with its base.
fn push_global(
    into: &mut Vec<u8>,
    file: &[u8],
    global: &GlobalDef,
    base: u64,
    length: u64,
) -> Result<(), NoMemory>
    ensures { (types : List CType) → length ≡ owned_of (global_need types global.now) →
        OnOk result (into.new.items ≡ into.old.items ++ global_line file.now types (Some global.now) (Some base)) }
{
    push(into, "global ")?;
    push_name(into, file, global.name)?;
    push_pair(into, base, length)
}

/// Appends the line of global k, if it has a base.
fn push_global_at(
    into: &mut Vec<u8>,
    file: &[u8],
    layouts: &Layouts,
    p: &Typed,
    bases: &[u64],
    k: usize,
) -> Result<(), NoMemory>
    requires { AreLayoutsOf p.now.types layouts.now }
    ensures { OnOk result (into.new.items ≡ into.old.items
        ++ global_line file.now p.now.types (slice_get p.now.globals k) (slice_get bases.now k)) }
{
    match (p.globals.as_slice().get(k), bases.get(k)) {
        (Some(global), Some(base)) => {
            push_global(into, file, global, *base, owned_by(layouts, p, global))
        }
        _ => Ok(()),
    }
}

/// Appends the lines of the globals, in their order.
fn push_globals(
    into: &mut Vec<u8>,
    file: &[u8],
    layouts: &Layouts,
    p: &Typed,
    bases: &[u64],
) -> Result<(), NoMemory>
    requires { AreLayoutsOf p.now.types layouts.now }
    ensures { OnOk result (into.new.items ≡ into.old.items
        ++ lines (λ k. global_line file.now p.now.types (slice_get p.now.globals k) (slice_get bases.now k))
        (length p.now.globals)) }
{
    for k in 0..p.globals.as_slice().len() {
        push_global_at(into, file, layouts, p, bases, k)?;
    }
    Ok(())
}

/// Appends the line of a literal, with its base.
fn push_literal(into: &mut Vec<u8>, literal: &Literal, base: u64) -> Result<(), NoMemory>
    ensures { OnOk result (into.new.items ≡ into.old.items ++ literal_line (Some literal.now) (Some base)) }
{
    push(into, "literal ")?;
    push_pos(into, literal.pos)?;
    push_pair(
        into,
        base,
        owned_length(literal.bytes.as_slice().len() as u64),
    )
}

/// Appends the line of literal k, if it has a base.
fn push_literal_at(
    into: &mut Vec<u8>,
    literals: &[Literal],
    bases: &[u64],
    k: usize,
) -> Result<(), NoMemory>
    ensures { OnOk result (into.new.items ≡ into.old.items
        ++ literal_line (slice_get literals.now k) (slice_get bases.now k)) }
{
    match (literals.get(k), bases.get(k)) {
        (Some(literal), Some(base)) => push_literal(into, literal, *base),
        _ => Ok(()),
    }
}

/// Appends the lines of the literals, in their order.
fn push_literals(into: &mut Vec<u8>, literals: &[Literal], bases: &[u64]) -> Result<(), NoMemory>
    ensures { OnOk result (into.new.items ≡ into.old.items
        ++ lines (λ k. literal_line (slice_get literals.now k) (slice_get bases.now k)) (length literals.now)) }
{
    for k in 0..literals.len() {
        push_literal_at(into, literals, bases, k)?;
    }
    Ok(())
}

/// The locals of a function that are objects, in the order of their declarations.
fn objects_of(alloc: Global, variables: &[VarDef]) -> Result<Vec<VarDef>, NoMemory>
    ensures { IfOk result (λ vs. vs.items ≡ filter is_object variables.now) }
{
    let mut objects = Vec::new(alloc);
    for v in variables {
        if !v.simple {
            objects.push(*v)?;
        }
    }
    Ok(objects)
}

/// Appends the line of a slot, which holds this variable.
fn push_slot(into: &mut Vec<u8>, file: &[u8], slot: Slot, variable: &VarDef) -> Result<(), NoMemory>
    ensures { OnOk result (into.new.items ≡ into.old.items ++ slot_line file.now slot (Some variable.now)) }
{
    push(into, "slot ")?;
    push_pos(into, variable.pos)?;
    push(into, " ")?;
    push_name(into, file, variable.name)?;
    push_pair(into, slot.at, slot.length)
}

/// Appends the line of a slot, if it holds one of these objects.
fn push_slot_of(
    into: &mut Vec<u8>,
    file: &[u8],
    objects: &[VarDef],
    slot: Slot,
) -> Result<(), NoMemory>
    ensures { OnOk result (into.new.items ≡ into.old.items
        ++ slot_line file.now slot (slice_get objects.now slot.var)) }
{
    match objects.get(slot.var as usize) {
        Some(variable) => push_slot(into, file, slot, variable),
        None => Ok(()),
    }
}

/// Appends the line of slot k.
fn push_slot_at(
    into: &mut Vec<u8>,
    file: &[u8],
    objects: &[VarDef],
    slots: &[Slot],
    k: usize,
) -> Result<(), NoMemory>
    ensures { OnOk result (into.new.items ≡ into.old.items
        ++ slot_line_of file.now objects.now (slice_get slots.now k)) }
{
    match slots.get(k) {
        Some(slot) => push_slot_of(into, file, objects, *slot),
        None => Ok(()),
    }
}

/// Appends the lines of the slots of a frame, which hold objects of these.
fn push_slots(
    into: &mut Vec<u8>,
    file: &[u8],
    objects: &[VarDef],
    slots: &[Slot],
) -> Result<(), NoMemory>
    ensures { OnOk result (into.new.items ≡ into.old.items
        ++ lines (λ k. slot_line_of file.now objects.now (slice_get slots.now k)) (length slots.now)) }
{
    for k in 0..slots.len() {
        push_slot_at(into, file, objects, slots, k)?;
    }
    Ok(())
}

/// Appends the lines of a function's frame.
fn push_frame(
    alloc: Global,
    into: &mut Vec<u8>,
    file: &[u8],
    function: &FunDef,
    frame: &Frame,
) -> Result<(), NoMemory>
    ensures { OnOk result (into.new.items ≡ into.old.items
        ++ frame_lines file.now (Some function.now) (Some frame.now)) }
{
    let objects = objects_of(alloc, function.vars.as_slice())?;
    push(into, "frame ")?;
    push_name(into, file, function.name)?;
    push_pair(into, frame.size, frame.align)?;
    push_slots(into, file, &objects, frame.slots.as_slice())
}

/// Appends the lines of the frame of function k, if it has one.
fn push_frame_at(
    alloc: Global,
    into: &mut Vec<u8>,
    file: &[u8],
    functions: &[FunDef],
    frames: &[Frame],
    k: usize,
) -> Result<(), NoMemory>
    ensures { OnOk result (into.new.items ≡ into.old.items
        ++ frame_lines file.now (slice_get functions.now k) (slice_get frames.now k)) }
{
    match (functions.get(k), frames.get(k)) {
        (Some(function), Some(frame)) => push_frame(alloc, into, file, function, frame),
        _ => Ok(()),
    }
}

/// Appends the lines of the functions' frames, in their order.
fn push_frames(
    alloc: Global,
    into: &mut Vec<u8>,
    file: &[u8],
    functions: &[FunDef],
    frames: &[Frame],
) -> Result<(), NoMemory>
    ensures { OnOk result (into.new.items ≡ into.old.items
        ++ lines (λ k. frame_lines file.now (slice_get functions.now k) (slice_get frames.now k))
        (length functions.now)) }
{
    for k in 0..functions.len() {
        push_frame_at(alloc, into, file, functions, frames, k)?;
    }
    Ok(())
}

/// The text of a map of a program: one line for each part, with its place in memory, in the order text, functions,
/// globals, literals, table, heap and stack; and then for each function its frame and the slots of its locals. Names
/// are those of the file that the program is.
pub fn map_of(alloc: Global, file: &[u8], p: &Typed, map: &Map) -> Result<Vec<u8>, NoMemory>
    ensures { IfOk result (λ text. text.items ≡ map_text file.now p.now map.now) }
{
    let layouts = Layouts::new(alloc, p)?;
    let functions = p.funs.as_slice();
    let mut text = Vec::new(alloc);
    push_part(&mut text, "text", map.text)?;
    push_functions(&mut text, file, functions, map.entries.as_slice())?;
    push_globals(&mut text, file, &layouts, p, map.globals.as_slice())?;
    push_literals(&mut text, p.literals.as_slice(), map.literals.as_slice())?;
    push_part(&mut text, "table", map.table)?;
    push_part(&mut text, "heap", map.heap)?;
    push_part(&mut text, "stack", map.stack)?;
    push_frames(alloc, &mut text, file, functions, map.frames.as_slice())?;
    Ok(text)
}
