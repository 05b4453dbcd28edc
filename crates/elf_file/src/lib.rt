//! The ELF64 file of a purecap image: what an image holds, the bytes of its file, and a reader whose parts are slices
//! of the file. Behind the file header, four program headers and seven section headers, 736 bytes in all, stand six
//! parts, each at a multiple of 16.
//!
//! Promise: reading gives the image or the first refusal in order, and what was written of an image is read as that
//! image.
//! Definitions (`specs/`): `Fields`, `Count`, `Image`, `File`, `Headers`, `Parts`, `Reading`, `Refusal`.
//! Main lemmas (`proofs/`): `Found`, `Again`.
#![tactic(auto)]

mod count;
mod field;
mod headers;
mod image;
mod parts;
mod reading;
mod refusal;
mod view;
mod writing;

pub use ck_base::Sequence;
pub use image::{Image, Line, Reloc};
pub use refusal::ElfRefusal;
pub use view::View;
pub use writing::write;
