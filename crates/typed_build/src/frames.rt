//! The frames of a program's functions.
ghost use Rattle.std.specs.Prelude.{◌≡◌, ◌≤◌, ◌<◌, ◌^◌, ℕ, false, IfOk, OnOk, ◌++◌, ◌∷◌, [], Some, length, slice_get};
ghost use Rattle.std.specs.Prelude.{vec_len};
ghost use Rattle.c_tree.specs.TreeWeight.{function_limit, function_weight};
ghost use Rattle.c_tree.specs.declared.typed.FunDef.{FunDef as Def};
ghost use Rattle.cap_layout.specs.Kept.{AreLayoutsOf};
ghost use Rattle.bounds_place.specs.Placing.{locals_exceed, exceeds};
ghost use Rattle.tac_ir.specs.Within.{FunctionCosts};
ghost use Rattle.tac_ir.specs.declared.code.TacFun.{TacFun as Function};
ghost use Rattle.typed_build.specs.Frames.{HasHomes, HaveHomes, FrameFits, FramesFit};

use c_tree::{FunDef, Typed};
use cap_layout::Layouts;
use ck_base::NoMemory;
use obj_mem::Frame;
use program_needs::local_needs;
use purecap_abi::frame;
use reg_alloc::Places;
use std::alloc::Global;
use tac_ir::{Tac, TacFun, outgoing};

/// The frame of a function.
fn frame_of(
    alloc: Global,
    layouts: &Layouts,
    p: &Typed,
    d: &FunDef,
    f: &TacFun,
    homes: &Places,
) -> Result<Frame, NoMemory>
    requires layouts { AreLayoutsOf p.now.types layouts.now }
    requires homes { HasHomes f.now homes.now.homes }
    requires costs { FunctionCosts (function_weight p.now d.now) f.now }
    requires light { function_weight p.now d.now ≤ function_limit }
    requires within { locals_exceed p.now.types d.now ≡ false }
    ensures { IfOk result (FrameFits p.now d.now f.now homes.now) }
{
    let locals = local_needs(alloc, layouts, p, d)?;
    let outgoing = outgoing(f.code.as_slice());
    let made = frame(alloc, &locals, homes, outgoing as u32)?;
    Ok(made)
}

fn add(frames: &mut Vec<Frame>, frame: Frame) -> Result<(), NoMemory>
    ensures { OnOk result (frames.new.items ≡ frames.old.items ++ frame ∷ []) }
{
    Ok(frames.push(frame)?)
}

/// The frame of each function.
pub fn frames_of(
    alloc: Global,
    layouts: &Layouts,
    p: &Typed,
    t: &Tac,
    places: &Vec<Places>,
) -> Result<Vec<Frame>, NoMemory>
    requires layouts { AreLayoutsOf p.now.types layouts.now }
    requires funs { length t.now.funs ≡ length p.now.funs }
    requires places { vec_len places.now ≡ length p.now.funs }
    requires homes { HaveHomes t.now.funs places.now.items }
    requires few { length p.now.funs < 2 ^ 32 }
    requires within { exceeds p.now ≡ false }
    requires costs { (k : ℕ) (f : Function) (d : Def) → slice_get t.now.funs k ≡ Some f →
        slice_get p.now.funs k ≡ Some d →
        FunctionCosts (function_weight p.now d) f × (function_weight p.now d ≤ function_limit) }
    ensures len { IfOk result (λ frames. vec_len frames ≡ length p.now.funs) }
    ensures fit { IfOk result (λ frames. FramesFit p.now t.now.funs places.now.items frames.items) }
{
    let mut frames = Vec::new(alloc);
    let homes = places.as_slice();
    let defs = p.funs.as_slice();
    let funs = t.funs.as_slice();
    for k in 0..defs.len() {
        let g = frame_of(alloc, layouts, p, &defs[k], &funs[k], &homes[k])?;
        add(&mut frames, g)?;
    }
    Ok(frames)
}
