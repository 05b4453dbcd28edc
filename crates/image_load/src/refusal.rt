//! Why an image is not loaded.

ghost use Rattle.std.specs.Prelude.{◌≡◌};

use thiserror::Error;

/// Why an image is not loaded: the first test that fails, in the order of the tests, or want of memory.
#[derive(Clone, Copy, Debug, PartialEq, Eq, Error)]
pub enum LoadRefusal {
    /// A segment has a base or a length that is no multiple of 16, leaves 65,536 to 2^40, or is too large.
    #[error("a segment does not fit")]
    Segment,
    /// Two segments overlap, or the table lies outside the initial data.
    #[error("segments overlap")]
    Overlap,
    /// A relocation's place is no granule of the initial data.
    #[error("a relocation lies outside the initial data")]
    Place,
    /// A relocation, the text, the table or the stack is no capability with exact bounds.
    #[error("bounds that no capability has")]
    Bounds,
    /// The entry is no instruction's place in the text.
    #[error("the entry lies outside the text")]
    Entry,
    /// There was no memory.
    #[error("no memory")]
    NoMemory,
}

impl LoadRefusal {
    ghost use Rattle.image_load.specs.Loading.{load_number};

    /// The number of the refusal, from 11 to 15. Want of memory has none, and gives 0.
    pub fn number(self) -> u8
        ensures { result ≡ load_number self }
    {
        match self {
            LoadRefusal::Segment => 11,
            LoadRefusal::Overlap => 12,
            LoadRefusal::Place => 13,
            LoadRefusal::Bounds => 14,
            LoadRefusal::Entry => 15,
            LoadRefusal::NoMemory => 0,
        }
    }
}
