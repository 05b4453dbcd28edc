//! Selection: the text of a program's code.
ghost use Rattle.std.specs.Prelude.{◌≡◌, ◌+◌, ◌*◌, ◌^◌, ◌≤◌, ◌<◌, false, length, OnOk, IfOk, vec_len};
ghost use Rattle.std.specs.List.{sum_by};
ghost use Rattle.purecap_abi.specs.Saving.{IsFor};
ghost use Rattle.tac_ir.specs.Costs.{function_cost};
ghost use Rattle.select_words.specs.ContainedCode.{IsContainedCode};
ghost use Rattle.rv_select.specs.Following.{Begins, IsBetween, IsPut, ArePut};
ghost use Rattle.rv_emit.specs.Growing.{Extends, Enters, reach, room, IsText, AreEntries};
ghost use Rattle.rv_emit.specs.Leading.{call_span};
ghost use Rattle.rv_select.specs.Selectable.{AreFramed, ReachesFirst};
ghost use Rattle.rv_select.specs.Selectable.{IsSelectable, AreAll, AreSelectable, before, table_of};
ghost use Rattle.rv_select.specs.Selected.{IsSelected};

use crate::calls::find;
use crate::function::{Entries, Function};
use crate::functions::select_function;
use crate::numbers::all_written;
use c_tree::Typed;
use ck_base::NoMemory;
use elf_file::Line;
use obj_mem::Frame;
use reg_alloc::Places;
use rv_emit::instructions::jump_through;
use rv_emit::{Code, Complete};
use rv_idioms::way;
use rv_instr::{Instr, Reg};
use std::alloc::Global;
use tac_ir::{Tac, TacFun};

/// The text of a program, with the places in it that an image names. Places are in bytes from the text's base.
#[derive(Drop)]
pub struct Items {
    pub code: Vec<Instr>,
    /// Where the image is entered.
    pub start: u32,
    /// Where each function is entered, in their order.
    pub entries: Vec<u32>,
    /// The instructions at which a trap is the program's, with their places in the source.
    pub lines: Vec<Line>,
}

/// The order of the table: the globals, the literals, the functions, and the heap.
fn entries_of(p: &Typed) -> Entries
    ensures { (before p.now).heap < 2 ^ 64 → table_of result ≡ before p.now }
{
    let literals = p.globals.as_slice().len() as u64;
    let functions = literals.saturating_add(p.literals.as_slice().len() as u64);
    let heap = functions.saturating_add(p.funs.as_slice().len() as u64);
    Entries {
        literals,
        functions,
        heap,
    }
}

/// Calls `main`, and exits with its result.
fn begin(code: &mut Code, table: Entries, main: u32) -> Result<(), NoMemory>
    ensures size { OnOk result (Extends 6 code.old code.new) }
    ensures begun { let entry = table.functions + main in
        OnOk result (16 * entry < reach → Begins entry main code.old code.new) }
{
    if code.is_far() {
        find(code, table, main)?;
        code.put(jump_through(Reg::LINK, way()))?;
        return code.ask(3);
    }
    code.call(main)?;
    code.ask(3)
}

/// The code of one function, behind that of others.
fn one_function(
    alloc: Global,
    code: &mut Code,
    t: &TacFun,
    places: &Places,
    frame: &Frame,
    entries: Entries,
) -> Result<(), NoMemory>
    requires framed { IsFor places.now.homes frame.now }
    requires room { code.old.words + function_cost t.now ≤ room }
    ensures size { OnOk result (Enters (function_cost t.now) code.old code.new) }
    ensures put { OnOk result (IsBetween code.old
        → IsSelectable (table_of entries) t.now places.now.homes frame.now
        → IsPut (table_of entries) t.now places.now.homes frame.now code.old code.new) }
{
    let written = all_written(alloc, t)?;
    let f = Function {
        places,
        frame,
        saved: purecap_abi::saved(frame, places),
        written: written.as_slice(),
        entries,
    };
    select_function(alloc, code, &f, t)
}

/// The code of all functions in their order.
fn all_functions(
    alloc: Global,
    code: &mut Code,
    funs: &[TacFun],
    places: &[Places],
    frames: &[Frame],
    table: Entries,
) -> Result<(), NoMemory>
    requires places { length places.now ≡ length funs.now }
    requires frames { length frames.now ≡ length funs.now }
    requires framed { AreFramed places.now frames.now }
    requires room { code.old.words + sum_by function_cost funs.now ≤ room }
    ensures few { OnOk result (code.new.words ≤ code.old.words + sum_by function_cost funs.now) }
    ensures each { OnOk result (length code.new.links.entered ≡ length code.old.links.entered + length funs.now) }
    ensures put { OnOk result (IsBetween code.old → AreAll (table_of table) funs.now places.now frames.now
        → ArePut (table_of table) funs.now places.now frames.now code.old code.new) }
{
    for k in 0..funs.len() {
        one_function(alloc, code, &funs[k], &places[k], &frames[k], table)?;
    }
    Ok(())
}

/// The text with far calls or with near ones, which lead to their functions where it is short enough.
fn text(
    alloc: Global,
    t: &Tac,
    p: &Typed,
    places: &Vec<Places>,
    frames: &Vec<Frame>,
    far: bool,
) -> Result<Items, NoMemory>
    requires places { vec_len places.now ≡ length t.now.funs }
    requires frames { vec_len frames.now ≡ length t.now.funs }
    requires framed { AreFramed places.now.items frames.now.items }
    requires costs { 7 + sum_by function_cost t.now.funs ≤ room }
    ensures size { IfOk result (λ items. vec_len items.code ≤ 7 + sum_by function_cost t.now.funs) }
    ensures text { IfOk result (λ items. IsText items.code.items items.lines.items) }
    ensures start { IfOk result (λ items. items.start ≡ 0) }
    ensures each { IfOk result (λ items. vec_len items.entries ≡ length t.now.funs) }
    ensures entries { IfOk result (λ items. AreEntries (vec_len items.code) items.entries.items) }
    ensures contained { IfOk result (λ items. IsContainedCode items.code.items items.entries.items items.start) }
    ensures selected { IfOk result (λ items. (far ≡ false → vec_len items.code ≤ call_span)
        → (before p.now).heap < 2 ^ 64 → ReachesFirst p.now
        → AreSelectable p.now t.now.funs places.now.items frames.now.items
        → IsSelected t.now.funs places.now.items frames.now.items (before p.now) p.now.main items.code.items
        items.lines.items items.entries.items) }
{
    let table = entries_of(p);
    let mut code = Code::new(alloc, far);
    begin(&mut code, table, p.main)?;
    all_functions(
        alloc,
        &mut code,
        t.funs.as_slice(),
        places.as_slice(),
        frames.as_slice(),
        table,
    )?;
    let Complete {
        words,
        lines,
        entries,
    } = code.complete()?;
    Ok(Items {
        code: words,
        start: 0,
        entries,
        lines,
    })
}

/// The text with near calls where that has at most so many words, and otherwise with far ones.
pub fn select_within(
    alloc: Global,
    t: &Tac,
    p: &Typed,
    places: &Vec<Places>,
    frames: &Vec<Frame>,
    most: usize,
) -> Result<Items, NoMemory>
    requires places { vec_len places.now ≡ length t.now.funs }
    requires frames { vec_len frames.now ≡ length t.now.funs }
    requires framed { AreFramed places.now.items frames.now.items }
    requires costs { 7 + sum_by function_cost t.now.funs ≤ room }
    requires most { most ≤ call_span }
    ensures size { IfOk result (λ items. vec_len items.code ≤ 7 + sum_by function_cost t.now.funs) }
    ensures text { IfOk result (λ items. IsText items.code.items items.lines.items) }
    ensures start { IfOk result (λ items. items.start ≡ 0) }
    ensures each { IfOk result (λ items. vec_len items.entries ≡ length t.now.funs) }
    ensures entries { IfOk result (λ items. AreEntries (vec_len items.code) items.entries.items) }
    ensures contained { IfOk result (λ items. IsContainedCode items.code.items items.entries.items items.start) }
    ensures selected { IfOk result (λ items. (before p.now).heap < 2 ^ 64 → ReachesFirst p.now
        → AreSelectable p.now t.now.funs places.now.items frames.now.items
        → IsSelected t.now.funs places.now.items frames.now.items (before p.now) p.now.main items.code.items
        items.lines.items items.entries.items) }
{
    let near = text(alloc, t, p, places, frames, false)?;
    if near.code.len() <= most {
        return Ok(near);
    }
    drop(near);
    text(alloc, t, p, places, frames, true)
}

/// Selects the machine's instructions for a program's code. The text begins with a call of `main`, then has the
/// functions in their order, and ends with a jump to itself. Calls are near where all of them lead to their functions,
/// and far where the text has more than 262,144 words. It refuses nothing but for want of memory.
pub fn select(
    alloc: Global,
    t: &Tac,
    p: &Typed,
    places: &Vec<Places>,
    frames: &Vec<Frame>,
) -> Result<Items, NoMemory>
    requires places { vec_len places.now ≡ length t.now.funs }
    requires frames { vec_len frames.now ≡ length t.now.funs }
    requires framed { AreFramed places.now.items frames.now.items }
    requires costs { 7 + sum_by function_cost t.now.funs ≤ room }
    ensures size { IfOk result (λ items. vec_len items.code ≤ 7 + sum_by function_cost t.now.funs) }
    ensures text { IfOk result (λ items. IsText items.code.items items.lines.items) }
    ensures start { IfOk result (λ items. items.start ≡ 0) }
    ensures each { IfOk result (λ items. vec_len items.entries ≡ length t.now.funs) }
    ensures entries { IfOk result (λ items. AreEntries (vec_len items.code) items.entries.items) }
    ensures contained { IfOk result (λ items. IsContainedCode items.code.items items.entries.items items.start) }
    ensures selected { IfOk result (λ items. (before p.now).heap < 2 ^ 64 → ReachesFirst p.now
        → AreSelectable p.now t.now.funs places.now.items frames.now.items
        → IsSelected t.now.funs places.now.items frames.now.items (before p.now) p.now.main items.code.items
        items.lines.items items.entries.items) }
{
    select_within(alloc, t, p, places, frames, 262144)
}
