//! Words for numbers and far places, and the frame of a function without objects.

ghost use Rattle.purecap_abi.specs.Saving.{IsFor};

use crate::answers::must_hold;
use ck_base::{NoMemory, Sequence};
use obj_mem::Frame;
use purecap_abi::{
    argument, epilogue, first_store, frame, load_capability, moved, number, prologue, saved,
    stack_argument, store_capability,
};
use reg_alloc::Places;
use rv_instr::{CapImmOp, ImmOp, Instr, Reg};
use std::alloc::Global;

fn fill(code: &mut Vec<Instr>) -> Result<(), NoMemory> {
    number(code, Reg::RESULT, 5)?;
    number(code, Reg::RESULT, 0x7fff_ffff_ffff_ffff)?;
    load_capability(code, Reg::RESULT, Reg::STACK, 16, argument(7))?;
    store_capability(
        code,
        Reg::RESULT,
        Reg::STACK,
        stack_argument(300),
        argument(7),
    )?;
    moved(code, Reg::RESULT, Reg::STACK, 4096)
}

/// Whether the words are twelve, with the first number at their start.
fn are_appended(alloc: Global) -> Result<bool, NoMemory> {
    let mut code = Vec::new(alloc);
    fill(&mut code)?;
    let first = Instr::Imm(ImmOp::Addi, Reg::RESULT, Reg::ZERO, 5);
    Ok(code.len() == 12 && code.as_slice().first().copied() == Some(first))
}

/// Whether the words of a function's begin and end are those of an empty frame.
fn has_ends(alloc: Global, f: &Frame, places: &Places) -> Result<bool, NoMemory>
    requires { IsFor places.now.homes f.now }
{
    let begin = prologue(alloc, f, places)?.len();
    let end = epilogue(alloc, f, places)?;
    let second = Instr::CapImm(CapImmOp::Cincoffsetimm, Reg::STACK, Reg::STACK, 48);
    Ok(begin == 3 && end.as_slice().get(1).copied() == Some(second))
}

/// Whether they are, and its slots' place is.
fn is_empty_frame(alloc: Global) -> bool {
    let places = Places {
        homes: Sequence::from_vec(Vec::new(alloc)),
    };
    match frame(alloc, &Vec::new(alloc), &places, 2) {
        Ok(f) => {
            first_store(&f) == 2
                && saved(&f, &places).slot(1) == 64
                && has_ends(alloc, &f, &places) == Ok(true)
        }
        Err(_) => false,
    }
}

#[test]
fn words_and_an_empty_frame(rt: HostRuntime) {
    must_hold(&rt, "words", are_appended(rt.alloc()) == Ok(true));
    must_hold(&rt, "a frame", is_empty_frame(rt.alloc()));
}
