//! What the command answers.

use cap_ops::Cause;
use ck_base::Pos;
use elf_audit::Verdict;
use obj_mem::Reason;

/// What the command answers: how a run ended, what was built, why a file was refused, or what went wrong.
#[derive(Clone, Copy, Debug, PartialEq, Eq)]
pub enum Answer {
    /// The program exited, with its low eight bits.
    Exit(u8),
    /// An ELF file of so many bytes was built and put.
    Built(u64),
    /// What was asked for was put to the output, and there is nothing more to say.
    Shown,
    /// An access or a call failed, at this place of the file.
    Trap(Cause, Pos),
    /// An instruction at this address failed, and no place is known.
    TrapAt(Cause, u64),
    /// A frame fell below the stack, at this place of the file.
    Stack(Pos),
    /// The limit of instructions was done.
    Steps,
    /// The limit of turns was done.
    Turns,
    /// The strict meaning is not defined from this place of the file on, for this reason.
    Unspecified(Reason, Pos),
    /// What the meanings speak of was left at this place of the file.
    Outside(Pos),
    /// `ebreak` at this address.
    Break(u64),
    /// A word at this address is no instruction, or an environment call has another number.
    Illegal(u64),
    /// An image was audited.
    Audited(Verdict),
    /// The file was refused by this code at this place.
    Refused(u16, Pos),
    /// The words are none of the defined lines.
    Words,
    /// The file is no image that loads, by the refusal of this number.
    NotLoaded(u8),
    /// The file could not be read, or the built one not put.
    File,
    /// The input failed.
    Input,
    /// The output failed.
    Output,
    /// There was no memory.
    Memory,
}
