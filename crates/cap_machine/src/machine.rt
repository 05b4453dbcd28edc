//! The machine's state.

use cap_ops::Cap;
use tag_mem::Mem;

/// A machine: 32 registers and the program counter, each a capability, and the memory. Register 0 reads as null
/// whatever `regs` holds there, and a register's integer is its capability's address.
#[derive(Drop)]
pub struct Machine {
    pub regs: [Cap; 32],
    pub pc: Cap,
    pub mem: Mem,
}
