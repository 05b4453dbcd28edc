//! The outside over the system: standard input, output and error, and the file system. They tell nothing of what they
//! read and write, so no contract speaks of its bytes: this file is trusted, and shown by tests.
ghost use Rattle.std.specs.Prelude.{◌≡◌, None};

use crate::outside::{Failed, FileError, Files, PutError, Sink, Source};
use std::alloc::Global;
use std::io::{self, ErrorKind, Read, Write};
use std::{fs, rt};

/// The most bytes of a file that is read by its name.
pub const LONGEST_FILE: usize = 268_435_456;

/// Standard input, or another reader. The end of the reader is the end of the source.
#[derive(Drop)]
pub struct StdInput<R: Read + Drop> {
    reader: R,
    faults: u64,
}

impl<R: Read + Drop> StdInput<R> {
    /// A source over this reader, which has not failed.
    pub fn new(reader: R) -> Self
        ensures { ⟦<StdInput<R> as Source>⟧.faults result ≡ 0 }
    {
        StdInput { reader, faults: 0 }
    }
}

impl<R: Read + Drop> Source for StdInput<R> {
    ghost left = { λ _. None };

    ghost faults = { λ s. s.faults };

    fn next(&mut self) -> Result<Option<u8>, Failed> {
        let mut piece = [0u8; 1];
        match self.reader.read_exact(&mut piece) {
            Ok(()) => Ok(Some(piece[0])),
            Err(e) if e.kind() == ErrorKind::UnexpectedEof => Ok(None),
            Err(_) => {
                self.faults = self.faults.saturating_add(1);
                Err(Failed)
            }
        }
    }
}

/// Standard output, or another writer.
#[derive(Drop)]
pub struct StdOutput<W: Write + Drop> {
    writer: W,
    faults: u64,
}

impl<W: Write + Drop> StdOutput<W> {
    /// A sink over this writer, which has not failed.
    pub fn new(writer: W) -> Self
        ensures { ⟦<StdOutput<W> as Sink>⟧.faults result ≡ 0 }
    {
        StdOutput { writer, faults: 0 }
    }
}

impl<W: Write + Drop> Sink for StdOutput<W> {
    ghost held = { λ _. None };

    ghost faults = { λ s. s.faults };

    fn put(&mut self, piece: &[u8]) -> Result<(), Failed> {
        match self.writer.write_all(piece) {
            Ok(()) => Ok(()),
            Err(_) => {
                self.faults = self.faults.saturating_add(1);
                Err(Failed)
            }
        }
    }
}

/// Standard error, as a sink of messages.
pub type StdError<W> = StdOutput<W>;

/// The file system: a name is a path.
#[derive(Drop)]
pub struct HostFiles<R: rt::Files + Drop> {
    system: R,
    faults: u64,
}

impl<R: rt::Files + Drop> HostFiles<R> {
    /// The files of this system, which have not failed.
    pub fn new(system: R) -> Self
        ensures { ⟦<HostFiles<R> as Files>⟧.faults result ≡ 0 }
    {
        HostFiles { system, faults: 0 }
    }
}

/// The bytes of a file, and one more where it has more than `LONGEST_FILE`.
fn read_file<R: rt::Files>(system: &R, alloc: Global, name: &str) -> io::Result<Vec<u8>> {
    let mut bytes = Vec::new(alloc);
    fs::open(system, name)?
        .take(LONGEST_FILE as u64 + 1)
        .read_to_end(&mut bytes)?;
    Ok(bytes)
}

impl<R: rt::Files + Drop> Files for HostFiles<R> {
    ghost told = { λ _. None };

    ghost faults = { λ s. s.faults };

    fn get(&mut self, alloc: Global, name: &str) -> Result<Vec<u8>, FileError> {
        match read_file(&self.system, alloc, name) {
            Ok(bytes) if bytes.len() <= LONGEST_FILE => Ok(bytes),
            Err(e) if e.kind() == ErrorKind::OutOfMemory => Err(FileError::NoMemory),
            _ => {
                self.faults = self.faults.saturating_add(1);
                Err(FileError::Failed)
            }
        }
    }

    fn put(&mut self, _alloc: Global, name: &str, bytes: &[u8]) -> Result<(), PutError> {
        match fs::write(&self.system, name, bytes) {
            Ok(()) => Ok(()),
            Err(_) => {
                self.faults = self.faults.saturating_add(1);
                Err(PutError::Failed)
            }
        }
    }
}
