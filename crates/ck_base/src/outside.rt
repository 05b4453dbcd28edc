//! The traits of the outside: bytes in, bytes out, and files by name.
ghost use Rattle.std.specs.Prelude.{◌≡◌, ℕ, Option, List, IfOk, OnOk, OnErr, IsErrOf};
ghost use Rattle.std.specs.Io.KnownBytes.{Appends, Keeps};
ghost use Rattle.ck_base.specs.Outside.{Takes, AppendsPart, Rises};
ghost use Rattle.ck_base.specs.Files.{FileMap, Gets, HasFile, SameOthers, FileCounted};

use std::alloc::Global;

/// A call of the outside failed.
#[derive(Clone, Copy, Debug, PartialEq, Eq)]
pub struct Failed;

/// Why a file could not be read.
#[derive(Clone, Copy, Debug, PartialEq, Eq)]
pub enum FileError {
    Failed,
    /// There is no file of this name.
    Missing,
    /// The file has more than 268,435,456 bytes.
    TooLong,
    NoMemory,
}

/// Why a file could not be put.
#[derive(Clone, Copy, Debug, PartialEq, Eq)]
pub enum PutError {
    Failed,
    NoMemory,
}

/// Bytes that come one by one.
pub trait Source {
    /// The bytes that are left, where it tells them.
    ghost left: { Self → Option (List ℕ) };

    /// How often it has failed; the last value is 2^64 - 1.
    ghost faults: { Self → ℕ };

    /// The next byte, or None at the end. A call that fails takes nothing and is counted.
    fn next(&mut self) -> Result<Option<u8>, Failed>
        ensures taken { IfOk result (λ answer. Takes (left self.old) (left self.new) answer) }
        ensures kept { OnErr result (Keeps (left self.old) (left self.new)) }
        ensures same_count { OnOk result (faults self.new ≡ faults self.old) }
        ensures counted { OnErr result (Rises (faults self.old) (faults self.new)) };
}

/// Where bytes go.
pub trait Sink {
    /// The bytes that it holds, where it tells them.
    ghost held: { Self → Option (List ℕ) };

    /// How often it has failed; the last value is 2^64 - 1.
    ghost faults: { Self → ℕ };

    /// Appends the piece. A call that fails appends a front of the piece, perhaps an empty one, and is counted.
    fn put(&mut self, piece: &[u8]) -> Result<(), Failed>
        ensures whole { OnOk result (Appends (held self.old) (held self.new) piece.now) }
        ensures part { OnErr result (AppendsPart (held self.old) (held self.new) piece.now) }
        ensures same_count { OnOk result (faults self.new ≡ faults self.old) }
        ensures counted { OnErr result (Rises (faults self.old) (faults self.new)) };
}

/// Files by name.
pub trait Files {
    /// The bytes of each name that is there, where it tells them.
    ghost told: { Self → Option FileMap };

    /// How often it has failed; the last value is 2^64 - 1.
    ghost faults: { Self → ℕ };

    /// The bytes of the file of this name; every file stays as it was.
    fn get(&mut self, alloc: Global, name: &str) -> Result<Vec<u8>, FileError>
        ensures same { told self.new ≡ told self.old }
        ensures gives { Gets (told self.old) name.now result }
        ensures counted { FileCounted (faults self.old) (faults self.new) (IsErrOf result FileError.Failed) };

    /// Puts the bytes under the name. Other names stay as they were; want of memory leaves all as it was, and a call
    /// that fails may leave anything under the name itself.
    fn put(&mut self, alloc: Global, name: &str, bytes: &[u8]) -> Result<(), PutError>
        ensures done { OnOk result (HasFile (told self.new) name.now bytes.now) }
        ensures others { SameOthers (told self.old) (told self.new) name.now }
        ensures no_memory { IsErrOf result PutError.NoMemory → told self.new ≡ told self.old }
        ensures counted { FileCounted (faults self.old) (faults self.new) (IsErrOf result PutError.Failed) };
}
