//! The outside, as the crates above see it: a source of bytes, a sink and files by name, in memory and over the
//! system; the places and refusals of a C file; and its tokens, as definitions.
//!
//! Promise: a source, sink or file in memory fails exactly in the calls that are named; a count of faults never
//! falls; of files in memory the bytes that were put last stand under a name, and every other name stays as it was.
//! Definitions (`specs/`): `Named`, `World`, `Runs`, `Calls`, `Agreement`, `Outside`, `Files`, `Lexes`.
//! Main lemmas (`proofs/`): `Fronts`, `NamedFiles`.
#![tactic(auto)]

mod adapters;
mod codes;
mod files;
mod outside;
mod positions;
mod refusal;
mod sequence;
mod sinks;
mod sources;
mod table;
mod tokens;

pub use adapters::{HostFiles, LONGEST_FILE, StdError, StdInput, StdOutput};
pub use codes::{
    DECLARED_TWICE, EXCLUDED_WORD, FILE_TOO_LONG, INCOMPLETE_TYPE, INVALID_LITERAL, MISFIT,
    NO_CONSTANT, NO_MAIN, NO_TOKEN, NO_TREE, OBJECTS_TOO_LARGE, PRAGMA_PACK, TOO_HEAVY,
    TOO_MANY_BRACKETS, TYPE_TOO_LARGE, UNCLOSED, UNDEFINED_NAME, WRONG_ARGUMENT_COUNT,
};
pub use files::{MemFiles, SureFiles};
pub use outside::{Failed, FileError, Files, PutError, Sink, Source};
pub use positions::{Pos, Span};
pub use refusal::{NoMemory, Refusal};
pub use sequence::Sequence;
pub use sinks::{MemSink, SureSink};
pub use sources::{MemSource, SureSource};
pub use tokens::{Integer, TokenKind};
