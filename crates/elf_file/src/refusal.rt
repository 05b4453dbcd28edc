//! Why a file is not read.

ghost use Rattle.std.specs.Prelude.{◌≡◌};

use thiserror::Error;

/// Why a file is not read as an image.
#[derive(Clone, Copy, Debug, PartialEq, Eq, Error)]
pub enum ElfRefusal {
    /// It has fewer than 64 bytes, and so no file header.
    #[error("the file has no file header")]
    Short,
    /// Its identification or its machine is another.
    #[error("the file is no little-endian 64-bit ELF file for RISC-V")]
    Ident,
    /// A field of a header, a name, a line or a word of the image breaks the format.
    #[error("a field of the file breaks the format")]
    Field,
    /// It has fewer than 736 bytes, and so not all headers.
    #[error("the file does not have all headers")]
    Tables,
    /// A part leaves the file.
    #[error("a part leaves the file")]
    Part,
    /// The image is not of version 1 without a count, nor of version 2 with one.
    #[error("the image has another version")]
    Version,
}

impl ElfRefusal {
    ghost use Rattle.elf_file.specs.Refusal.{refusal_number};

    /// The number of the refusal, from 1 to 6.
    pub fn number(self) -> u8
        ensures { result ≡ refusal_number self }
    {
        match self {
            ElfRefusal::Short => 1,
            ElfRefusal::Ident => 2,
            ElfRefusal::Field => 3,
            ElfRefusal::Tables => 4,
            ElfRefusal::Part => 5,
            ElfRefusal::Version => 6,
        }
    }
}
