//! Files in memory.
ghost use Rattle.std.specs.Prelude.{◌≡◌, ◌↔◌, Some, option_map, Contains, IsTrue, OnOk, OnErr, IsErrOf, vec_len};
ghost use Rattle.ck_base.specs.Files.{Gets, HasFile, SameOthers, FileCounted};
ghost use Rattle.ck_base.specs.Memory.{NamedBytes, FilesInMemory, named_bytes, file_named, one_more};

use crate::adapters::LONGEST_FILE;
use crate::outside::{FileError, Files, PutError};
use crate::table::Table;
use std::alloc::Global;
use std::marker::Model;

/// A copy of the bytes under a name.
fn copy_of(files: &Table, alloc: Global, name: &str) -> Result<Vec<u8>, FileError>
    ensures gives { Gets (Some (file_named files.now)) name.now result }
    ensures never_fails { IsErrOf result FileError.Failed → ⊥ }
{
    let Some(bytes) = files.find(name) else {
        return Err(FileError::Missing);
    };
    if bytes.len() > LONGEST_FILE {
        return Err(FileError::TooLong);
    }
    match Vec::from_slice(alloc, bytes) {
        Ok(copy) => Ok(copy),
        Err(_) => Err(FileError::NoMemory),
    }
}

/// Files in memory, and the numbers of the calls that fail. Calls count from 1, those of `get` and `put` together.
#[derive(Drop)]
pub struct MemFiles {
    files: Table,
    fails: Vec<u64>,
    calls: u64,
    faults: u64,
}

impl Model for MemFiles {
    ghost Value = { FilesInMemory };

    ghost view = { λ s. record { files = s.files; fails = s.fails.items; calls = s.calls; faults = s.faults } };
}

impl MemFiles {
    /// Files of these names with the contents at the same places, whose calls with these numbers fail. Of equal names
    /// the first counts.
    pub fn new(names: Vec<String>, contents: Vec<Vec<u8>>, fails: Vec<u64>) -> MemFiles
        requires { vec_len names ≡ vec_len contents }
        ensures { result ≡ record {
          files = named_bytes names.items contents.items;
          fails = fails.items;
          calls = 0;
          faults = 0;
        } }
    {
        MemFiles {
            files: Table::new(names, contents),
            fails,
            calls: 0,
            faults: 0,
        }
    }

    /// The bytes under this name, where it is there.
    pub fn contents(&self, name: &str) -> Option<&[u8]>
        ensures { option_map (λ bytes. bytes.now) result ≡ file_named self.now.files name.now }
    {
        self.files.find(name)
    }

    /// Counts a call, and says whether it fails.
    fn is_failing(&mut self) -> bool
        ensures fails { IsTrue result ↔ Contains self.old.fails (one_more self.old.calls) }
        ensures counted { FileCounted self.old.faults self.new.faults (IsTrue result) }
        ensures rest { self.new ≡ record self.old { calls = one_more self.old.calls; faults = self.new.faults } }
    {
        self.calls = self.calls.saturating_add(1);
        let failing = self.fails.contains(&self.calls);
        if failing {
            self.faults = self.faults.saturating_add(1);
        }
        failing
    }
}

impl Files for MemFiles {
    ghost told = { λ s. Some (file_named s.files) };

    ghost faults = { λ s. s.faults };

    /// Fails in the calls that were named.
    fn get(&mut self, alloc: Global, name: &str) -> Result<Vec<u8>, FileError>
        ensures same { Some (file_named self.new.files) ≡ Some (file_named self.old.files) }
        ensures gives { Gets (Some (file_named self.old.files)) name.now result }
        ensures counted { FileCounted self.old.faults self.new.faults (IsErrOf result FileError.Failed) }
        ensures fails { IsErrOf result FileError.Failed ↔ Contains self.old.fails (one_more self.old.calls) }
        ensures calls { self.new.calls ≡ one_more self.old.calls }
        ensures same_fails { self.new.fails ≡ self.old.fails }
    {
        if self.is_failing() {
            return Err(FileError::Failed);
        }
        copy_of(&self.files, alloc, name)
    }

    /// Fails in the calls that were named; it then leaves every file as it was.
    fn put(&mut self, alloc: Global, name: &str, bytes: &[u8]) -> Result<(), PutError>
        ensures done { OnOk result (HasFile (Some (file_named self.new.files)) name.now bytes.now) }
        ensures others { SameOthers (Some (file_named self.old.files)) (Some (file_named self.new.files)) name.now }
        ensures no_memory { IsErrOf result PutError.NoMemory →
            Some (file_named self.new.files) ≡ Some (file_named self.old.files) }
        ensures counted { FileCounted self.old.faults self.new.faults (IsErrOf result PutError.Failed) }
        ensures nothing { OnErr result (self.new.files ≡ self.old.files) }
        ensures fails { IsErrOf result PutError.Failed ↔ Contains self.old.fails (one_more self.old.calls) }
        ensures calls { self.new.calls ≡ one_more self.old.calls }
        ensures same_fails { self.new.fails ≡ self.old.fails }
    {
        if self.is_failing() {
            return Err(PutError::Failed);
        }
        match self.files.put(alloc, name, bytes) {
            Ok(()) => Ok(()),
            Err(_) => Err(PutError::NoMemory),
        }
    }
}

/// Files in memory that never fail.
#[derive(Drop)]
pub struct SureFiles {
    files: Table,
}

impl Model for SureFiles {
    ghost Value = { NamedBytes };

    ghost view = { λ s. s.files };
}

impl SureFiles {
    /// Files of these names with the contents at the same places. Of equal names the first counts.
    pub fn new(names: Vec<String>, contents: Vec<Vec<u8>>) -> SureFiles
        requires { vec_len names ≡ vec_len contents }
        ensures { result ≡ named_bytes names.items contents.items }
    {
        SureFiles {
            files: Table::new(names, contents),
        }
    }
}

impl Files for SureFiles {
    ghost told = { λ s. Some (file_named s) };

    ghost faults = { λ _. 0 };

    fn get(&mut self, alloc: Global, name: &str) -> Result<Vec<u8>, FileError> {
        copy_of(&self.files, alloc, name)
    }

    fn put(&mut self, alloc: Global, name: &str, bytes: &[u8]) -> Result<(), PutError> {
        match self.files.put(alloc, name, bytes) {
            Ok(()) => Ok(()),
            Err(_) => Err(PutError::NoMemory),
        }
    }
}
