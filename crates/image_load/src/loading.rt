//! The machine that an image describes.
ghost use Rattle.std.specs.Prelude.{All, ◌≡◌, ◌%◌, ◌≤◌, ◌<◌, ◌^◌, ℕ, true, Ok, OnOk, IfOk, List, length, nat_lt};
ghost use Rattle.std.specs.List.{prefix_len};
ghost use Rattle.cap_concentrate.specs.declared.fields.Fields.{Fields as FieldsOf};
ghost use Rattle.image_load.specs.Judging.{segments_of, text_of, initial_of, judged, is_encodable};
ghost use Rattle.image_load.specs.State.{with_region, regions_of, relocated, memory_of, of_extent, machine_of};
ghost use Rattle.image_load.specs.State.{registers_of};
ghost use Rattle.image_load.specs.Loading.{Loads};
ghost use Rattle.image_load.specs.Contained.{text_in, Contained};
ghost use Rattle.cap_machine.specs.Containment.{IsContained, RunsContained};
ghost use Rattle.cap_machine.specs.Rows.{memory_bits};

use crate::beginning::registers;
use crate::extent::{Extent, bounded};
use crate::judging::{
    capability_of, entry_of, heap_of, initial_of, judge, stack_of, table_of, text_of,
};
use crate::refusal::LoadRefusal;
use cap_concentrate::{Fields, flip_null, pack};
use cap_machine::Machine;
use cap_ops::{Cap, UNSEALED};
use ck_base::NoMemory;
use elf_file::View;
use std::alloc::Global;
use tag_mem::{Mem, Region};

/// Global and Execute.
const TEXT: u16 = 3;

/// How many regions have a lower base.
fn place(regions: &[Region], base: u64) -> usize
    ensures value { result ≡ prefix_len (λ r. nat_lt r.base base) regions.now }
    ensures inside { result ≤ length regions.now }
{
    regions.iter().take_while(|r| r.base < base).count()
}

/// Adds the region of an extent behind those of lower base; an extent of no bytes has none.
#[tactic(auto, unfolding(crate::specs::State::with_region))]
fn insert(regions: &mut Vec<Region>, e: Extent) -> Result<(), NoMemory>
    ensures { OnOk result (regions.new.items ≡ with_region e regions.old.items) }
{
    if e.1 == 0 {
        return Ok(());
    }
    let at = place(regions, e.0);
    regions.insert(
        at,
        Region {
            base: e.0,
            length: e.1,
        },
    )?;
    Ok(())
}

/// The regions of an image, by ascending base.
fn regions_of(alloc: Global, view: &View<'_>) -> Result<Vec<Region>, NoMemory>
    ensures { IfOk result (λ regions. regions.items ≡ regions_of (segments_of view.now)) }
{
    let mut regions = Vec::new(alloc);
    insert(&mut regions, stack_of(view))?;
    insert(&mut regions, heap_of(view))?;
    insert(&mut regions, initial_of(view))?;
    insert(&mut regions, text_of(view))?;
    Ok(regions)
}

/// The bits of a capability as they stand in memory.
fn memory_bits(f: Fields) -> u128
    ensures { result ≡ memory_bits f }
{
    flip_null(pack(f))
}

/// Stores each relocation's capability with its tag, later ones over earlier ones.
fn store_relocs(mem: &mut Mem, view: &View<'_>)
    requires { judged view.now ≡ Ok tt }
    ensures { mem.new ≡ relocated mem.old view.now.relocs }
{
    let mut k = 0;
    while let Some(r) = view.reloc(k) {
        let c = capability_of(r);
        mem.set_cap(r.place, memory_bits(c.fields), true);
        k += 1;
    }
}

/// The bytes themselves, of which a contract may then say that each is below 256.
fn bytes(part: &[u8]) -> &[u8]
    ensures value { result.now ≡ part.now }
    ensures small { All (λ b. b < 256) result.now }
{
    part
}

/// The memory of an image that is not refused.
#[tactic(auto, unfolding(crate::specs::State::memory_of))]
fn memory_of(alloc: Global, view: &View<'_>) -> Result<Mem, NoMemory>
    requires { judged view.now ≡ Ok tt }
    ensures value { IfOk result (λ mem. mem ≡ memory_of view.now) }
    ensures text { OnOk result (All (λ b. b < 256) view.now.text) }
    ensures initial { OnOk result (All (λ b. b < 256) view.now.initial) }
{
    let regions = regions_of(alloc, view)?;
    let mut mem = Mem::new(alloc, &regions)?;
    mem.fill(text_of(view).0, bytes(view.text()));
    mem.fill(initial_of(view).0, bytes(view.initial()));
    store_relocs(&mut mem, view);
    Ok(mem)
}

/// The registers of an image that is not refused.
fn registers_of(view: &View<'_>) -> [Cap; 32]
    requires { judged view.now ≡ Ok tt }
    ensures { result ≡ registers_of view.now }
{
    registers(stack_of(view), table_of(view))
}

/// The counter of an image that is not refused: the text, at the entry.
fn counter_of(view: &View<'_>) -> Cap
    requires { judged view.now ≡ Ok tt }
    ensures { result ≡ of_extent (text_of view.now) TEXT view.now.entry }
{
    bounded(text_of(view), TEXT, UNSEALED, entry_of(view))
}

/// Loads an image: the machine that it describes, or the first refusal. All the memory of a run is taken here; want of
/// it comes only where the image is not refused, and a refused image leaves nothing. The machine of a contained image
/// is contained, and so is each state of its runs.
#[tactic(auto, unfolding(crate::specs::State::machine_of))]
pub fn load(alloc: Global, view: &View<'_>) -> Result<Machine, LoadRefusal>
    ensures value { Loads view.now result }
    ensures contained { IfOk result (λ m. Contained view.now → IsContained (text_in view.now) m) }
    ensures runs { IfOk result (λ m. Contained view.now → RunsContained (text_in view.now) m) }
{
    if let Err(refusal) = judge(view) {
        return Err(refusal);
    }
    let Ok(mem) = memory_of(alloc, view) else {
        return Err(LoadRefusal::NoMemory);
    };
    Ok(Machine {
        regs: registers_of(view),
        pc: counter_of(view),
        mem,
    })
}
