//! The loops of some code, those that meet as one. Instructions count from 1, and 0 is the entry.
ghost use Rattle.std.specs.BTreeMap.{get};
ghost use Rattle.std.specs.Option.{ForSome};
ghost use Rattle.std.specs.Ordering.{nat_cmp};
ghost use Rattle.std.specs.Prelude.{◌≡◌, ℕ, suc, ◌^◌, ◌<◌, ◌≤◌, true, IfOk, MatchOption, length, slice_index};
ghost use Rattle.std.specs.Prelude.{slice_set, vec_len};
ghost use Rattle.tac_ir.specs.WellFormed.{labels_differ};
ghost use Rattle.tac_live.specs.Loops.{AreReaches, AreTops, AreStarts, AreEnds, AreBlocks};

use ck_base::NoMemory;
use std::alloc::Global;
use std::collections::BTreeMap;
use tac_ir::TacInstr;

/// For each instruction the first and the last of the block in which it stands: loops that meet are one block, and an
/// instruction in no loop is one of its own.
#[derive(Drop)]
pub struct Blocks {
    pub starts: Vec<u32>,
    pub ends: Vec<u32>,
}

// Where a label stands to which instruction number `at` jumps back, a loop begins that reaches to it.
fn note_jump(reach: &mut [u32], places: &BTreeMap<u32, u32>, label: u32, at: u32)
    requires { ForSome (get nat_cmp places.now label) (λ from. from < length reach.old) }
    ensures { MatchOption (get nat_cmp places.now label) (reach.new ≡ reach.old)
        (λ from. reach.new ≡ slice_set reach.old from at) }
{
    if let Some(from) = places.get(&label) {
        reach[*from as usize] = at;
    }
}

// For each instruction how far the loops reach that begin there, or itself.
fn reaches(alloc: Global, code: &[TacInstr]) -> Result<Vec<u32>, NoMemory>
    requires labels { labels_differ code.now ≡ true }
    requires short { length code.now < 2 ^ 32 }
    ensures { IfOk result (λ v. AreReaches code.now (length code.now) v.items) }
{
    let mut places = BTreeMap::new(alloc);
    let mut reach = Vec::new(alloc);
    let mut at = 0u32;
    reach.push(at)?;
    for i in code {
        at += 1;
        reach.push(at)?;
        match i {
            TacInstr::Label(l) => {
                places.insert(*l, at)?;
            }
            TacInstr::Jump(l) => note_jump(&mut reach, &places, *l, at),
            TacInstr::Branch { label, .. } => note_jump(&mut reach, &places, *label, at),
            _ => {}
        }
    }
    Ok(reach)
}

// For each instruction how far the loops reach that begin there or before.
fn tops(alloc: Global, reach: &[u32]) -> Result<Vec<u32>, NoMemory>
    ensures len { IfOk result (λ v. vec_len v ≡ length reach.now) }
    ensures tops { IfOk result (λ v. AreTops reach.now v.items) }
{
    let mut tops = Vec::new(alloc);
    let mut top = 0u32;
    for r in reach {
        top = top.max(*r);
        tops.push(top)?;
    }
    Ok(tops)
}

// For each instruction the last one up to it behind all of whose predecessors no loop goes on.
fn starts(alloc: Global, tops: &[u32]) -> Result<Vec<u32>, NoMemory>
    requires { length tops.now ≤ 2 ^ 32 }
    ensures len { IfOk result (λ v. vec_len v ≡ length tops.now) }
    ensures starts { IfOk result (λ v. AreStarts tops.now v.items) }
{
    let mut starts = Vec::new(alloc);
    let mut start = 0u32;
    let mut top = 0u32;
    for (k, t) in tops.iter().enumerate() {
        let at = k as u32;
        if top < at {
            start = at;
        }
        starts.push(start)?;
        top = *t;
    }
    Ok(starts)
}

// For each instruction the first one from it on behind which no loop goes on.
fn ends(alloc: Global, tops: &[u32]) -> Result<Vec<u32>, NoMemory>
    requires short { length tops.now ≤ 2 ^ 32 }
    requires cut { (n : ℕ) → suc n ≡ length tops.now → slice_index tops.now n ≤ n }
    ensures len { IfOk result (λ v. vec_len v ≡ length tops.now) }
    ensures ends { IfOk result (λ v. AreEnds tops.now v.items) }
{
    let mut ends = Vec::from_slice(alloc, tops)?;
    let mut k = tops.len();
    let mut end = 0u32;
    while k > 0 {
        k -= 1;
        let at = k as u32;
        if tops[k] <= at {
            end = at;
        }
        ends[k] = end;
    }
    Ok(ends)
}

/// The blocks of some code whose labels differ.
pub fn blocks_of(alloc: Global, code: &[TacInstr]) -> Result<Blocks, NoMemory>
    requires labels { labels_differ code.now ≡ true }
    requires short { length code.now < 2 ^ 32 }
    ensures { IfOk result (λ b. AreBlocks code.now b.starts.items b.ends.items) }
{
    let reach = reaches(alloc, code)?;
    let tops = tops(alloc, &reach)?;
    Ok(Blocks {
        starts: starts(alloc, &tops)?,
        ends: ends(alloc, &tops)?,
    })
}
