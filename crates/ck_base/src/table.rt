//! A table of files in memory.
ghost use Rattle.std.specs.Prelude.{◌≡◌, ◌<◌, [], ◌∷◌, ◌++◌, length, position, bytes_eq, slice_set, option_map};
ghost use Rattle.std.specs.Prelude.{string_bytes, OnOk, OnErr, vec_len};
ghost use Rattle.ck_base.specs.Named.{NamedBytes, PutsFile, named_bytes, place_of, file_named};

use std::alloc::{AllocError, Global};
use std::marker::Model;

/// Names, and at the same places the bytes that stand under them.
#[derive(Drop)]
pub struct Table {
    names: Vec<String>,
    contents: Vec<Vec<u8>>,
}

impl Model for Table {
    ghost Value = { NamedBytes };

    ghost view = { λ s. named_bytes s.names.items s.contents.items };

    ghost invariant = { λ s. vec_len s.names ≡ vec_len s.contents };
}

/// The place of the first of these names that is equal.
fn position_of(names: &[String], name: &str) -> Option<usize>
    ensures { result ≡ position (λ other. bytes_eq (string_bytes other) name.now) names.now }
{
    names.iter().position(|other| other.as_str() == name)
}

impl Table {
    /// The names with the contents at the same places. Of equal names the first counts.
    pub fn new(names: Vec<String>, contents: Vec<Vec<u8>>) -> Table
        requires { vec_len names ≡ vec_len contents }
        ensures { result ≡ named_bytes names.items contents.items }
    {
        Table { names, contents }
    }

    /// The place of the first name that is equal.
    fn place(&self, name: &str) -> Option<usize>
        ensures first { result ≡ place_of self.now.names name.now }
        ensures same_length { length self.now.names ≡ length self.now.contents }
    {
        position_of(&self.names, name)
    }

    /// The bytes under a name.
    pub fn find(&self, name: &str) -> Option<&[u8]>
        ensures { option_map (λ bytes. bytes.now) result ≡ file_named self.now name.now }
    {
        let place = self.place(name)?;
        Some(self.contents[place].as_slice())
    }

    /// Puts the bytes under a name, in place of those that stood there.
    pub fn put(&mut self, alloc: Global, name: &str, bytes: &[u8]) -> Result<(), AllocError>
        ensures puts { OnOk result (PutsFile self.old self.new name.now bytes.now) }
        ensures kept { OnErr result (self.new ≡ self.old) }
    {
        let bytes = Vec::from_slice(alloc, bytes)?;
        match self.place(name) {
            Some(place) => self.replace(place, bytes),
            None => self.add(String::from_str(alloc, name)?, bytes)?,
        }
        Ok(())
    }

    fn replace(&mut self, place: usize, bytes: Vec<u8>)
        requires { place < length self.old.contents }
        ensures { self.new ≡ record self.old { contents = slice_set self.old.contents place bytes.items } }
    {
        self.contents[place] = bytes;
    }

    fn add(&mut self, name: String, bytes: Vec<u8>) -> Result<(), AllocError>
        ensures added { OnOk result (self.new ≡ record {
          names = self.old.names ++ string_bytes name ∷ [];
          contents = self.old.contents ++ bytes.items ∷ [];
        }) }
        ensures kept { OnErr result (self.new ≡ self.old) }
    {
        self.names.reserve(1)?;
        self.contents.reserve(1)?;
        self.names.push_reserved(name);
        self.contents.push_reserved(bytes);
        Ok(())
    }
}
