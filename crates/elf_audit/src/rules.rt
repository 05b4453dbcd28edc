//! What the rules ask of one instruction.

ghost use Rattle.std.specs.Prelude.{◌≡◌};
ghost use Rattle.cap_machine.specs.Step.{is_call};
ghost use Rattle.cap_machine.specs.ContainedText.{is_allowed, target, is_plain_jump, sets_service};

use cap_machine::extended;
use rv_instr::{CapGetOp, ImmOp, Instr, Reg, UpperOp};

/// Whether it is no `ebreak`, `auipcc` or `csealentry`.
pub fn is_allowed(i: &Instr) -> bool
    ensures { result ≡ is_allowed i.now }
{
    !matches!(
        i,
        Instr::Ebreak
            | Instr::Upper(UpperOp::Auipcc, _, _)
            | Instr::CapGet(CapGetOp::Csealentry, _, _)
    )
}

/// Whether it is an `ecall`.
pub fn is_call(i: &Instr) -> bool
    ensures { result ≡ is_call i.now }
{
    matches!(i, Instr::Ecall)
}

/// Where a branch or a `cjal` at an address leads.
pub fn target(i: &Instr, at: u64) -> Option<u64>
    ensures { result ≡ target i.now at }
{
    match *i {
        Instr::Branch(_, _, _, z) => Some(at.wrapping_add(extended(z))),
        Instr::Cjal(_, z) => Some(at.wrapping_add(extended(z))),
        _ => None,
    }
}

/// Whether it is a `cjal` or a `cjalr` with rd 0.
pub fn is_plain_jump(i: &Instr) -> bool
    ensures { result ≡ is_plain_jump i.now }
{
    match *i {
        Instr::Cjal(rd, _) | Instr::Cjalr(rd, _, _) => rd == Reg::ZERO,
        _ => false,
    }
}

/// Whether it is `addi x17,x0,k` with k from 1 to 3.
pub fn sets_service(i: &Instr) -> bool
    ensures { result ≡ sets_service i.now }
{
    match *i {
        Instr::Imm(ImmOp::Addi, rd, rs1, z) => {
            let k = extended(z);
            rd.number() == 17 && rs1.number() == 0 && 1 <= k && k <= 3
        }
        _ => false,
    }
}
