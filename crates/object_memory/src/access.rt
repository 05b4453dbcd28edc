//! Loads, stores and copies of units.

ghost use Rattle.std.specs.Prelude.{◌≡◌, ℕ, ◌+◌, ◌*◌, ◌/◌, ◌^◌, ◌<◌, ◌≤◌, List, ◌∷◌, ◌&&◌, ◌||◌, ◌==◌, map, None, Ok};
ghost use Rattle.std.specs.Prelude.{Some, IfNone, IfOk, IfSome, if◌then◌else◌, length, option_map, slice_get, true};
ghost use Rattle.obj_mem.specs.Access.{Plain, Tagged, carried as carried_of, copy_unit as copy_unit_of, fetch};
ghost use Rattle.obj_mem.specs.Access.{has_part, onward, put as put_of, store_access as store_access_of};
ghost use Rattle.obj_mem.specs.Access.{stored_piece as stored_piece_of, with_piece, load as load_of};
ghost use Rattle.obj_mem.specs.Access.{load_access as load_access_of, loaded, takes_padding as takes_padding_of};
ghost use Rattle.obj_mem.specs.Objects.{Cell as CellMeant, byte_of as byte_in, byte_at as byte_in_object, bytes_at};
ghost use Rattle.obj_mem.specs.Objects.{part as part_of, parts as parts_of, value_at};
ghost use Rattle.obj_mem.specs.Values.{value_of};
ghost use Rattle.mean_work.specs.Answers.{mapped};
ghost use Rattle.object_memory.specs.Answers.{cells_of, mode_of, plain_cell, seen, shapes_of, spot_of};
ghost use Rattle.object_memory.specs.Answers.{value_seen};
ghost use Rattle.object_memory.specs.Memories.{IsFew, IsSize, IsSum, Leaves, loaded_at, memory_at, piece_of, put_there};
ghost use Rattle.object_memory.specs.Memories.{reached, with_content};
ghost use Rattle.object_memory.specs.Copies.{carried_at as carried_there, plain_piece};
ghost use Rattle.object_memory.specs.declared.notes.Note.{Note as NoteKept};
ghost use Rattle.object_memory.specs.Notes.{note_of};
ghost use Rattle.object_memory.specs.Reach.{IsPlain};
ghost use Rattle.object_memory.specs.Views.{ObjectView, cell_of};

use crate::bytes::{Bytes, bytes_of, bytes_of_pair};
use crate::capabilities::memory_bits;
use crate::notes::{Note, noted_for};
use crate::object::{Cell, Life, Object};
use crate::reach::{Spot, reach};
use cap_ops::Access;
use mean_work::{known, no_padding, unspecified};
use obj_mem::{Fault, Mode, Reason, UnitFault, Value};

/// A tagged value, or bytes.
#[derive(Clone, Copy)]
pub(crate) enum Piece {
    Tagged(Value),
    Plain(Bytes),
}

/// What bytes are as one number, the lowest first.
#[derive(Clone, Copy)]
struct Sum {
    /// One of them was not written.
    unwritten: bool,
    /// One of them is of a stored pointer.
    part: bool,
    number: u64,
}

/// Byte k of a number, the lowest first.
fn byte_of(number: u128, k: u8) -> u8
    ensures { result ≡ byte_in number k }
{
    let mut rest = number;
    let mut left = k;
    while left > 0 {
        rest /= 256;
        left -= 1;
    }
    (rest % 256) as u8
}

/// Byte k of a value that a granule holds.
fn part(mode: Mode<'_>, objects: &[Object], v: Value, k: u8) -> Cell
    ensures { cell_of result ≡ part_of (mode_of mode.entry) (shapes_of objects.now) (value_of v) k }
{
    match mode {
        Mode::Placed(map) => Cell::Byte(byte_of(memory_bits(map, objects, v), k)),
        Mode::Strict => Cell::PartOf(v, k),
    }
}

/// All bytes of a value that a granule holds.
fn parts(mode: Mode<'_>, objects: &[Object], v: Value) -> [Cell; 16]
    ensures { cells_of result ≡ parts_of (mode_of mode.entry) (shapes_of objects.now) (value_of v) 0 16 }
{
    [
        part(mode, objects, v, 0),
        part(mode, objects, v, 1),
        part(mode, objects, v, 2),
        part(mode, objects, v, 3),
        part(mode, objects, v, 4),
        part(mode, objects, v, 5),
        part(mode, objects, v, 6),
        part(mode, objects, v, 7),
        part(mode, objects, v, 8),
        part(mode, objects, v, 9),
        part(mode, objects, v, 10),
        part(mode, objects, v, 11),
        part(mode, objects, v, 12),
        part(mode, objects, v, 13),
        part(mode, objects, v, 14),
        part(mode, objects, v, 15),
    ]
}

/// The byte at a place of an object.
fn byte_at(mode: Mode<'_>, objects: &[Object], o: &Object, at: u64) -> Cell
    ensures { cell_of result ≡ byte_in_object (mode_of mode.entry) (shapes_of objects.now) o.now.content at }
{
    match o.value(at) {
        None => o.cell(at),
        Some(v) => part(mode, objects, v, (at % 16) as u8),
    }
}

/// A byte before others.
fn summed(cell: Cell, rest: Sum) -> Sum
    requires { rest.number < 2 ^ 56 }
    ensures sum { (cs : List CellMeant) → IsSum rest cs → IsSum result (cell_of cell ∷ cs) }
    ensures below { result.number < 256 * rest.number + 256 }
{
    let Sum {
        unwritten,
        part,
        number,
    } = rest;
    match cell {
        Cell::Byte(b) => Sum {
            unwritten,
            part,
            number: u64::from(b) + 256 * number,
        },
        Cell::Unwritten => Sum {
            unwritten: true,
            part,
            number: 256 * number,
        },
        Cell::PartOf(_, _) => Sum {
            unwritten,
            part: true,
            number: 256 * number,
        },
    }
}

/// The `n` bytes from a place on.
fn sum_at(mode: Mode<'_>, objects: &[Object], o: &Object, at: u64, n: u8) -> Sum
    requires few { n ≤ 8 }
    requires within { at + n < 2 ^ 64 }
    ensures sum { IsSum result (bytes_at (mode_of mode.entry) (shapes_of objects.now) o.now.content at n) }
    ensures below { result.number < 256 ^ n }
{
    if n == 0 {
        return Sum {
            unwritten: false,
            part: false,
            number: 0,
        };
    }
    let rest = sum_at(mode, objects, o, at + 1, n - 1);
    summed(byte_at(mode, objects, o, at), rest)
}

fn either(a: bool, b: bool) -> bool
    ensures { result ≡ (a || b) }
{
    a || b
}

/// The 16 bytes from a place on as a value.
#[tactic(auto, using(crate::proofs::Loads::loaded_pair))]
fn read_pair(mode: Mode<'_>, objects: &[Object], o: &Object, at: u64) -> Result<Value, Fault>
    requires { at + 16 < 2 ^ 64 }
    ensures { seen result ≡ loaded 16 (Plain (bytes_at (mode_of mode.entry)
        (shapes_of objects.now) o.now.content at 16)) }
{
    let low = sum_at(mode, objects, o, at, 8);
    let high = sum_at(mode, objects, o, at + 8, 8);
    let unwritten = either(low.unwritten, high.unwritten);
    let part = either(low.part, high.part);
    known(unwritten, part, Value::Raw(low.number, high.number))
}

/// The `n` bytes from a place on as a value.
fn read(mode: Mode<'_>, objects: &[Object], o: &Object, at: u64, n: u8) -> Result<Value, Fault>
    requires size { IsSize n }
    requires within { at + n < 2 ^ 64 }
    ensures { seen result ≡ loaded n
        (Plain (bytes_at (mode_of mode.entry) (shapes_of objects.now) o.now.content at n)) }
{
    if n == 16 {
        read_pair(mode, objects, o, at)
    } else {
        let all = sum_at(mode, objects, o, at, n);
        known(all.unwritten, all.part, Value::Int(all.number))
    }
}

/// Whether `n` bytes take one at or past the object's length, or the own length of the member that is noted for the
/// bounds.
fn takes_padding(notes: &[Note], o: &Object, s: Spot, n: u8) -> bool
    ensures { result ≡ takes_padding_of (map note_of notes.now) o.now.shape (spot_of s) n }
{
    let end = u128::from(s.at) + u128::from(n);
    if u128::from(o.length()) < end {
        return true;
    }
    match noted_for(notes, s.object, s.low, s.high) {
        None => false,
        Some(note) => u128::from(note.low) + u128::from(note.own) < end,
    }
}

/// The object whose `n` bytes an access reaches.
fn object_at<'o>(
    mode: Mode<'_>,
    objects: &'o [Object],
    notes: &[Note],
    s: Spot,
    n: u8,
) -> Result<&'o Object, Fault>
    ensures value { mapped (λ o. o.now.content) result
        ≡ reached (mode_of mode.entry) (memory_at objects.now notes.now) (spot_of s) n }
    ensures there { IfOk result (λ o. slice_get objects.now s.object ≡ Some o.now) }
{
    match objects.get(s.object as usize) {
        None => Err(Fault::Outside),
        Some(o) => {
            if !matches!(o.life(), Life::Active) {
                return Err(Fault::Outside);
            }
            match mode {
                Mode::Placed(_) => Ok(o),
                Mode::Strict => match no_padding(takes_padding(notes, o, s, n)) {
                    Err(e) => Err(e),
                    Ok(()) => Ok(o),
                },
            }
        }
    }
}

/// 16 bytes are loaded as a capability, fewer as an integer.
fn load_access(n: u8) -> Access
    requires { IsSize n }
    ensures value { result ≡ load_access_of n }
    ensures plain { IsPlain result }
{
    if n == 16 {
        Access::LoadCap
    } else {
        Access::Load(n)
    }
}

fn store_access(n: u8, piece: &Piece) -> Access
    requires { IsSize n }
    ensures value { result ≡ store_access_of n (piece_of piece.now) }
    ensures plain { IsPlain result }
{
    if n == 16 {
        Access::StoreCap(matches!(piece, Piece::Tagged(_)))
    } else {
        Access::Store(n)
    }
}

/// The tagged value that `n` bytes give, where they give one.
fn tagged_at(o: &Object, s: Spot, n: u8) -> Option<Value>
    ensures { value_seen result ≡ (if s.carries && n == 16 then value_at o.now.content (s.at / 16) else None) }
{
    if s.carries && n == 16 {
        o.value(s.at)
    } else {
        None
    }
}

/// The `n` bytes at a place.
#[tactic(auto, using(crate::proofs::Loads::load_plain))]
fn load_at(
    mode: Mode<'_>,
    objects: &[Object],
    notes: &[Note],
    s: Spot,
    n: u8,
) -> Result<Value, Fault>
    requires size { IsSize n }
    requires within { s.at + n < 2 ^ 64 }
    ensures { seen result ≡ loaded_at (mode_of mode.entry) (memory_at objects.now notes.now) (spot_of s) n }
{
    match object_at(mode, objects, notes, s, n) {
        Err(e) => Err(e),
        Ok(o) => match tagged_at(o, s, n) {
            Some(v) => Ok(v),
            None => read(mode, objects, o, s.at, n),
        },
    }
}

/// The `n` bytes at a pointer.
#[tactic(auto, unfolding(obj_mem::specs::Access::load))]
pub(crate) fn load(
    mode: Mode<'_>,
    objects: &[Object],
    notes: &[Note],
    p: Value,
    n: u8,
) -> Result<Value, Fault>
    requires { IsSize n }
    ensures { seen result ≡ load_of (mode_of mode.entry) (memory_at objects.now notes.now) (value_of p) n }
{
    match reach(load_access(n), p) {
        Err(e) => Err(e),
        Ok(s) => load_at(mode, objects, notes, s, n),
    }
}

/// What a store of `n` bytes of a value writes.
pub(crate) fn stored_piece(n: u8, v: Value) -> Piece
    requires { n ≤ 16 }
    ensures value { piece_of result ≡ stored_piece_of n (value_of v) }
    ensures few { IsFew result }
{
    match v {
        Value::Int(x) => Piece::Plain(bytes_of(n, x)),
        Value::Raw(address, upper) => Piece::Plain(bytes_of_pair(address, upper)),
        Value::Live(_, _, _, _, _) | Value::Fun(_) => Piece::Tagged(v),
    }
}

/// The bytes of the value that the granule of a place holds, where it holds one.
fn held_parts(mode: Mode<'_>, objects: &[Object], o: &Object, at: u64) -> Option<[Cell; 16]>
    ensures { option_map cells_of result ≡ option_map
        (λ v. parts_of (mode_of mode.entry) (shapes_of objects.now) v 0 16) (value_at o.now.content (at / 16)) }
{
    match o.value(at) {
        None => None,
        Some(v) => Some(parts(mode, objects, v)),
    }
}

/// A piece at a place of an object.
fn put_piece(mode: Mode<'_>, objects: &mut Vec<Object>, k: usize, at: u64, piece: &Piece)
    requires place { k < length objects.old.items }
    requires few { IsFew piece.now }
    ensures { (notes : List NoteKept) (o : ObjectView) → slice_get objects.old.items k ≡ Some o →
        memory_at objects.new.items notes ≡ with_content (memory_at objects.old.items notes) k
        (with_piece (mode_of mode.entry) (shapes_of objects.old.items) o.content at (piece_of piece.now)) }
{
    match piece {
        Piece::Tagged(v) => objects[k].put_value(at, *v),
        Piece::Plain(bytes) => {
            let held = held_parts(mode, objects.as_slice(), &objects[k], at);
            objects[k].write(at, &held, bytes);
        }
    }
}

/// A piece of `n` bytes at a place.
fn put_at_spot(
    mode: Mode<'_>,
    objects: &mut Vec<Object>,
    notes: &[Note],
    s: Spot,
    n: u8,
    piece: &Piece,
) -> Result<(), Fault>
    requires { IsFew piece.now }
    ensures { Leaves (put_there (mode_of mode.entry) (memory_at objects.old.items notes.now) (spot_of s) n
        (piece_of piece.now)) (memory_at objects.old.items notes.now) result
        (memory_at objects.new.items notes.now) }
{
    match object_at(mode, objects.as_slice(), notes, s, n) {
        Err(e) => Err(e),
        Ok(_) => {
            put_piece(mode, objects, s.object as usize, s.at, piece);
            Ok(())
        }
    }
}

/// A piece of `n` bytes at a pointer.
pub(crate) fn put(
    mode: Mode<'_>,
    objects: &mut Vec<Object>,
    notes: &[Note],
    p: Value,
    n: u8,
    piece: &Piece,
) -> Result<(), Fault>
    requires size { IsSize n }
    requires few { IsFew piece.now }
    ensures { Leaves (put_of (mode_of mode.entry) (memory_at objects.old.items notes.now) (value_of p) n
        (piece_of piece.now)) (memory_at objects.old.items notes.now) result
        (memory_at objects.new.items notes.now) }
{
    match reach(store_access(n, piece), p) {
        Err(e) => Err(e),
        Ok(s) => put_at_spot(mode, objects, notes, s, n, piece),
    }
}

/// A byte that a copy carries on, where it is none of a stored pointer.
fn carried_byte(cell: Cell) -> Option<Option<u8>>
    ensures some { IfSome result (λ b. plain_cell b ≡ cell_of cell) }
    ensures none { (rest : List CellMeant) → IfNone result (has_part (cell_of cell ∷ rest) ≡ true) }
{
    match cell {
        Cell::Byte(b) => Some(Some(b)),
        Cell::Unwritten => Some(None),
        Cell::PartOf(_, _) => None,
    }
}

/// The `n` bytes from a place on that a copy carries on. Those that were not written are among them.
fn carried_bytes(
    mode: Mode<'_>,
    objects: &[Object],
    o: &Object,
    at: u64,
    n: u8,
) -> Result<Bytes, Fault>
    requires few { n ≤ 16 }
    requires within { at + n < 2 ^ 64 }
    ensures value { mapped plain_piece result
        ≡ carried_of (Plain (bytes_at (mode_of mode.entry) (shapes_of objects.now) o.now.content at n)) }
    ensures count { IfOk result (λ b. b.count ≡ n) }
{
    let mut items = [None; 16];
    for k in 0..n {
        match carried_byte(byte_at(mode, objects, o, at + u64::from(k))) {
            None => return unspecified(Reason::Address),
            Some(byte) => items[k as usize] = byte,
        }
    }
    Ok(Bytes {
        items,
        count: n as usize,
    })
}

/// What a copy of `n` bytes takes from a place.
fn carried_at(
    mode: Mode<'_>,
    objects: &[Object],
    notes: &[Note],
    s: Spot,
    n: u8,
) -> Result<Piece, Fault>
    requires few { n ≤ 16 }
    requires within { s.at + n < 2 ^ 64 }
    ensures value { mapped piece_of result ≡ carried_there (mode_of mode.entry) (memory_at objects.now notes.now)
        (spot_of s) n }
    ensures few { IfOk result IsFew }
{
    match object_at(mode, objects, notes, s, n) {
        Err(e) => Err(e),
        Ok(o) => match tagged_at(o, s, n) {
            Some(v) => Ok(Piece::Tagged(v)),
            None => match carried_bytes(mode, objects, o, s.at, n) {
                Err(e) => Err(e),
                Ok(bytes) => Ok(Piece::Plain(bytes)),
            },
        },
    }
}

/// What a copy of `n` bytes takes at a pointer.
fn carried(
    mode: Mode<'_>,
    objects: &[Object],
    notes: &[Note],
    p: Value,
    n: u8,
) -> Result<Piece, Fault>
    requires { IsSize n }
    ensures value { mapped piece_of result ≡ onward
        (fetch (mode_of mode.entry) (memory_at objects.now notes.now) (value_of p) n) carried_of }
    ensures few { IfOk result IsFew }
{
    match reach(load_access(n), p) {
        Err(e) => Err(e),
        Ok(s) => carried_at(mode, objects, notes, s, n),
    }
}

/// One unit of a struct copy, of `n` bytes.
pub(crate) fn copy_unit(
    mode: Mode<'_>,
    objects: &mut Vec<Object>,
    notes: &[Note],
    from: Value,
    to: Value,
    n: u8,
) -> Result<(), UnitFault>
    requires { IsSize n }
    ensures { Leaves (copy_unit_of (mode_of mode.entry) (memory_at objects.old.items notes.now) (value_of from)
        (value_of to) n) (memory_at objects.old.items notes.now) result (memory_at objects.new.items notes.now) }
{
    match carried(mode, objects.as_slice(), notes, from, n) {
        Err(e) => Err(UnitFault::Load(e)),
        Ok(piece) => match put(mode, objects, notes, to, n, &piece) {
            Err(e) => Err(UnitFault::Store(e)),
            Ok(()) => Ok(()),
        },
    }
}
