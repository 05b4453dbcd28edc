//! An image, before it is a file.

use ck_base::Sequence;

/// A capability that loading stores: its bounds are `base` and `length`, its address is `base` plus `offset`.
#[derive(Clone, Copy, Debug, PartialEq, Eq)]
pub struct Reloc {
    /// The address of the 16 bytes where it is stored.
    pub place: u64,
    pub base: u64,
    pub offset: u64,
    /// In bytes.
    pub length: u64,
    /// Bits 0 to 11 are the permissions, and bit 63 says that it is a sentry.
    pub perms: u64,
}

/// The place in the source of an instruction.
#[derive(Clone, Copy, Debug, PartialEq, Eq)]
pub struct Line {
    /// The instruction's offset in the text, in bytes.
    pub at: u32,
    pub line: u32,
    pub col: u32,
    /// 0 for an access or a call at that instruction, and 1 for a prologue's first store.
    pub kind: u32,
}

/// What the file of an image holds. The pairs are a base and a length in bytes.
#[derive(Debug, Drop)]
pub struct Image {
    /// The version of the format: 1, or 2 for an image that has a count.
    pub version: u64,
    /// The address of the first instruction.
    pub entry: u64,
    pub text_base: u64,
    /// The instructions.
    pub text: Sequence<u8>,
    pub initial_base: u64,
    /// The initial bytes of the table, the globals and the literals.
    pub initial: Sequence<u8>,
    pub table: (u64, u64),
    pub heap: (u64, u64),
    pub stack: (u64, u64),
    /// The capabilities, in the order in which they are stored.
    pub relocs: Sequence<Reloc>,
    /// The places of the source, by ascending offset in the text.
    pub lines: Sequence<Line>,
    /// How many instructions are enough for each turn of the program; 0 in version 1, which does not say it.
    pub count: u64,
}
