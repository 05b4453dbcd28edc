//! The live intervals of a function's temps.
ghost use Rattle.std.specs.Prelude.{◌≡◌, ◌^◌, ◌<◌, true, IfOk, length};
ghost use Rattle.tac_ir.specs.Intervals.{IsLive};
ghost use Rattle.tac_live.specs.Live.{AreLive, is_numbered};
ghost use Rattle.tac_live.specs.Loops.{AreBlocks};
ghost use Rattle.tac_live.specs.Uses.{MatchUses};

use crate::loops::{Blocks, blocks_of};
use crate::uses::{Uses, uses_of};
use ck_base::NoMemory;
use reg_alloc::Interval;
use std::alloc::Global;
use tac_ir::TacFun;

// The interval of a temp with these uses.
fn interval(f: &TacFun, t: u32, uses: Option<Uses>, blocks: &Blocks) -> Interval
    requires uses { MatchUses f.now.code (length f.now.code) t uses }
    requires code_blocks { AreBlocks f.now.code blocks.now.starts.items blocks.now.ends.items }
    ensures { IsLive f.now t result.first result.last }
{
    let parameter = t < f.params;
    match uses {
        None if parameter => Interval { first: 0, last: 0 },
        None => Interval { first: 1, last: 0 },
        Some(u) if parameter => Interval {
            first: 0,
            last: blocks.ends[u.last as usize],
        },
        Some(u) if u.straight => Interval {
            first: u.first,
            last: u.last,
        },
        Some(u) => Interval {
            first: blocks.starts[u.first as usize],
            last: blocks.ends[u.last as usize],
        },
    }
}

/// The live interval of each temp of a function, in the order of the temps. A parameter's begins at the entry; that of
/// a temp that no instruction names, and that is no parameter, holds no instruction. The work is that of a sort of the
/// labels, and linear in the code beside. It refuses nothing but for want of memory.
pub fn intervals(alloc: Global, f: &TacFun) -> Result<Vec<Interval>, NoMemory>
    requires numbered { is_numbered f.now ≡ true }
    requires short { length f.now.code < 2 ^ 32 }
    ensures { IfOk result (λ v. AreLive f.now v.items) }
{
    let code = f.code.as_slice();
    let uses = uses_of(alloc, f.temps, code)?;
    let blocks = blocks_of(alloc, code)?;
    let mut live = Vec::new(alloc);
    let mut t = 0u32;
    for u in &uses {
        live.push(interval(f, t, *u, &blocks))?;
        t += 1;
    }
    Ok(live)
}
