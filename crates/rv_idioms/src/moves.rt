//! Moves between registers that all happen at once.
ghost use Rattle.std.specs.Prelude.{◌≡◌, [], ◌++◌, ◌*◌, ◌<◌, ◌==◌, OnOk, length, map, vec_len};
ghost use Rattle.std.specs.List.{list_any};
ghost use Rattle.rv_emit.specs.Growing.{Grows, Puts};
ghost use Rattle.rv_idioms.specs.Moves.{AreFree, moving};

use ck_base::NoMemory;
use rv_emit::{Code, instructions as instr};
use rv_instr::Reg;

/// A move from one register to another.
#[derive(Clone, Copy)]
pub struct Move {
    pub from: Reg,
    pub to: Reg,
}

/// Whether a move reads the register.
fn is_read(moves: &[Move], register: Reg) -> bool
    ensures { result ≡ list_any (λ m. m.from == register) moves.now }
{
    moves.iter().any(|m| m.from.number() == register.number())
}

/// The place of the first move whose target no other move reads, else of the first move.
fn next(moves: &[Move]) -> usize
    requires { 0 < length moves.now }
    ensures inside { result < length moves.now }
    ensures free { AreFree moves.now → result ≡ 0 }
{
    for (k, m) in moves.iter().enumerate() {
        if m.from.number() == m.to.number() || !is_read(moves, m.to) {
            return k;
        }
    }
    0
}

/// Lets the moves that read a register read another.
fn redirect(moves: &mut Vec<Move>, from: Reg, to: Reg)
    ensures { vec_len moves.new ≡ vec_len moves.old }
{
    for k in 0..moves.len() {
        if moves[k].from.number() == from.number() {
            moves[k].from = to;
        }
    }
}

/// Carries out moves as if all were done at once, with two words for each at most. Their targets differ, and none
/// reads or writes the scratch register.
pub fn move_all(code: &mut Code, moves: Vec<Move>, scratch: Reg) -> Result<(), NoMemory>
    ensures size { OnOk result (Grows (2 * vec_len moves) code.old code.new) }
    ensures none { OnOk result (moves.items ≡ [] → code.new.text ≡ code.old.text) }
    ensures grows { OnOk result (Puts (λ ws. Unit {0}) code.old code.new) }
    ensures free { OnOk result (AreFree moves.items → code.new.text ≡ code.old.text ++ map moving moves.items) }
{
    let mut moves = moves;
    while !moves.is_empty() {
        let k = next(moves.as_slice());
        let m = moves.remove(k);
        if is_read(moves.as_slice(), m.to) {
            code.put(instr::moving(scratch, m.to))?;
            redirect(&mut moves, m.to, scratch);
        }
        code.put(instr::moving(m.to, m.from))?;
    }
    Ok(())
}
