//! Where the parts of a program stand.

use ck_base::Sequence;

/// The place of a local that is an object, in its function's frame.
#[derive(Clone, Copy, Debug, PartialEq, Eq)]
pub struct Slot {
    /// Which of the function's locals that are objects it is, counted from 0 in the order of their declarations.
    pub var: u32,
    /// Its offset in the frame, in bytes.
    pub at: u64,
    /// The bytes that it owns.
    pub length: u64,
}

/// The frame of a function: its size and alignment in bytes, the places of its locals, and at its start `saved` bytes
/// for registers, spilled values and arguments.
#[derive(Debug, Drop)]
pub struct Frame {
    pub size: u64,
    pub align: u64,
    pub slots: Sequence<Slot>,
    pub saved: u64,
}

/// The addresses of a program's parts. The pairs are a base and a length in bytes.
#[derive(Debug, Drop)]
pub struct Map {
    pub text: (u64, u64),
    /// The first instruction of each function.
    pub entries: Sequence<u64>,
    /// The base of each global.
    pub globals: Sequence<u64>,
    /// The base of each string literal.
    pub literals: Sequence<u64>,
    pub table: (u64, u64),
    pub heap: (u64, u64),
    pub stack: (u64, u64),
    /// The frame of each function.
    pub frames: Sequence<Frame>,
}

/// What a run knows of addresses: those of a map, or none.
#[derive(Clone, Copy, Debug)]
pub enum Mode<'a> {
    Placed(&'a Map),
    Strict,
}
