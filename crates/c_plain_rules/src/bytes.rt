//! The bytes with which an object of static storage duration begins (C11 6.7.9).

ghost use Rattle.std.specs.Prelude.{◌≡◌, ℕ, ◌<◌, List, length, map, replicate, slice_index, IfOk};
ghost use Rattle.c_tree.specs.Scopes.{Aiming};
ghost use Rattle.c_tree.specs.Statics.{byte_in, initial_bytes};
ghost use Rattle.c_plain_parts.specs.Placing.{placed_of, written_at, pointers_end};

use c_plain_parts::{Placed, greatest_end};
use ck_base::NoMemory;
use std::alloc::Global;

// One byte is written over what stands at a place.
fn put_byte(bytes: &mut [u8], at: u64, byte: u8)
    requires { at < length bytes.old }
    ensures length { length bytes.new ≡ length bytes.old }
    ensures same { slice_index bytes.new at ≡ byte }
    ensures others { (k : ℕ) → (k ≡ at → ⊥) → slice_index bytes.new k ≡ slice_index bytes.old k }
{
    bytes[at as usize] = byte;
}

// The bytes of a number are written over what stands at its place, the lowest first, as far as there are bytes.
fn put(bytes: &mut [u8], x: &Placed)
    ensures length { length bytes.new ≡ length bytes.old }
    ensures each { (k : ℕ) → k < length bytes.old →
        slice_index bytes.new k ≡ byte_in k (slice_index bytes.old k) (placed_of x.now) }
{
    let room = (bytes.len() as u64).saturating_sub(x.at);
    let count = x.width.min(room);
    let mut left = x.number;
    for j in 0..count {
        put_byte(bytes, x.at + j, (left % 256) as u8);
        left /= 256;
    }
}

// The bytes of all the numbers, one after another.
fn put_all(bytes: &mut [u8], numbers: &[Placed])
    ensures length { length bytes.new ≡ length bytes.old }
    ensures each { (k : ℕ) → k < length bytes.old →
        slice_index bytes.new k ≡ written_at k (slice_index bytes.old k) numbers.now }
{
    for x in numbers {
        put(bytes, x);
    }
}

// No vector has more than `usize::MAX` bytes.
fn zeros(alloc: Global, count: u128) -> Result<Vec<u8>, NoMemory>
    ensures { IfOk result (λ v. v.items ≡ replicate count 0) }
{
    match usize::try_from(count) {
        Ok(count) => Ok(vec![in alloc; 0; count]?),
        Err(_) => Err(NoMemory),
    }
}

/// The bytes of an object from the numbers and pointers that stand in it. They end at the last byte that is not zero or
/// belongs to a pointer: the last pointer ends at `end`, which is 0 where there is none. A pointer's own bytes are
/// zero.
pub fn initial_bytes(alloc: Global, numbers: &[Placed], end: u128) -> Result<Vec<u8>, NoMemory>
    ensures { IfOk result (λ bytes. (ls : List Aiming) → pointers_end ls ≡ end →
        bytes.items ≡ initial_bytes (map placed_of numbers.now) ls) }
{
    let mut bytes = zeros(alloc, greatest_end(numbers).max(end))?;
    put_all(&mut bytes, numbers);
    Ok(bytes)
}
