//! Numbers of stated widths, little endian, as an ELF64 file has them: how they are put and read.
ghost use Rattle.std.specs.Prelude.{◌≡◌, ◌++◌, ◌≤◌, OnOk, ◌+◌, ◌==◌, length};
ghost use Rattle.elf_file.specs.Fields.{width_of, value_of, bytes_of, spelled, number, half_at, word_at, xword_at};
ghost use Rattle.elf_file.specs.Fields.{meets, size_of};

use byteorder::{ByteOrder, LittleEndian};
use std::alloc::AllocError;

/// A number of a file (ELF64, "Data representation").
#[derive(Clone, Copy)]
pub enum Field {
    /// Two bytes.
    Half(u16),
    /// Four bytes.
    Word(u32),
    /// Eight bytes: an extended word, an address or an offset. The value may be one that no eight bytes have.
    Xword(u128),
}

impl Field {
    pub fn width(self) -> usize
        ensures value { result ≡ width_of self }
        ensures most { result ≤ 8 }
    {
        match self {
            Field::Half(_) => 2,
            Field::Word(_) => 4,
            Field::Xword(_) => 8,
        }
    }

    fn value(self) -> u128
        ensures { result ≡ value_of self }
    {
        match self {
            Field::Half(value) => value as u128,
            Field::Word(value) => value as u128,
            Field::Xword(value) => value,
        }
    }
}

/// Appends the fields.
#[tactic(auto, unfolding(crate::specs::Fields::spelled))]
pub fn put(out: &mut Vec<u8>, fields: &[Field]) -> Result<(), AllocError>
    ensures { OnOk result (out.new.items ≡ out.old.items ++ spelled fields.now) }
{
    for field in fields {
        put_field(out, *field)?;
    }
    Ok(())
}

fn put_field(out: &mut Vec<u8>, field: Field) -> Result<(), AllocError>
    ensures { OnOk result (out.new.items ≡ out.old.items ++ bytes_of field) }
{
    out.extend_from_slice(&field.value().to_le_bytes()[..field.width()])
}

/// The half word at a place.
#[tactic(auto, unfolding(crate::specs::Fields::number))]
pub fn half_at(bytes: &[u8], place: usize) -> u16
    requires { place + 2 ≤ length bytes.now }
    ensures { result ≡ half_at place bytes.now }
{
    let (_, rest) = bytes.split_at(place);
    LittleEndian::read_u16(rest)
}

/// The word at a place.
#[tactic(auto, unfolding(crate::specs::Fields::number))]
pub fn word_at(bytes: &[u8], place: usize) -> u32
    requires { place + 4 ≤ length bytes.now }
    ensures { result ≡ word_at place bytes.now }
{
    let (_, rest) = bytes.split_at(place);
    LittleEndian::read_u32(rest)
}

/// The extended word at a place.
#[tactic(auto, unfolding(crate::specs::Fields::number))]
pub fn xword_at(bytes: &[u8], place: usize) -> u64
    requires { place + 8 ≤ length bytes.now }
    ensures { result ≡ xword_at place bytes.now }
{
    let (_, rest) = bytes.split_at(place);
    LittleEndian::read_u64(rest)
}

/// Whether the bytes begin with these fields.
#[tactic(auto, using(crate::proofs::Runs::size_of_more, crate::proofs::Runs::meets_all))]
pub fn meets(bytes: &[u8], fields: &[Field]) -> bool
    requires { size_of fields.now ≤ length bytes.now }
    ensures { result ≡ meets fields.now bytes.now }
{
    let mut rest = bytes;
    for field in fields {
        if !begins_with(rest, *field) {
            return false;
        }
        let (_, after) = rest.split_at(field.width());
        rest = after;
    }
    true
}

/// Whether the bytes begin with this field.
fn begins_with(bytes: &[u8], field: Field) -> bool
    requires { width_of field ≤ length bytes.now }
    ensures { result ≡ (number (width_of field) bytes.now == value_of field) }
{
    match field {
        Field::Half(value) => half_at(bytes, 0) == value,
        Field::Word(value) => word_at(bytes, 0) == value,
        Field::Xword(value) => xword_at(bytes, 0) as u128 == value,
    }
}
