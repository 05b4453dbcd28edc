//! What a program begins with.

use elf_file::Reloc;

/// What a program begins with.
#[derive(Drop)]
pub struct Table {
    /// The pointers of the table in its order, and then those of the globals in theirs.
    pub relocs: Vec<Reloc>,
    /// The address of the first of the bytes.
    pub base: u64,
    /// The initial bytes of the table, the globals and the literals, which are zeros where relocations are stored.
    pub bytes: Vec<u8>,
}
