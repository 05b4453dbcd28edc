//! Values that are known before the program runs (C11 6.6p7 to p9).

ghost use Rattle.std.specs.Prelude.{◌≡◌, ◌+◌, ◌<◌, ◌≤◌, ◌^◌, pos, ◌*ℤ◌, ◌≤ℤ◌, neg_ℤ};
ghost use Rattle.ck_int.specs.Kinds.{twos_complement, kept_of, value_of, form_of, is_signed};
ghost use Rattle.c_tree.specs.Statics.{is_near, is_exact, signed_by, bytes_moved};

use c_elaborator::Bounds;
use c_tree::Target;
use cap_concentrate::set_bounds;
use ck_int::{IntKind, convert, wrap};

/// A value that is known before the program runs.
#[derive(Clone, Copy)]
pub enum Value {
    /// A number, which may be an address in null, in the 64 bits of its extension.
    Number(u64),
    /// A place in an object or a literal, or a pointer there.
    There(Pointer),
    /// A function, by its number.
    Entry(u32),
}

/// A pointer that is known before the program runs.
#[derive(Clone, Copy)]
pub struct Pointer {
    pub target: Target,
    pub bounds: Bounds,
    /// Its address, in bytes from the beginning of what it points to.
    pub offset: i128,
}

/// A value that is known before the program runs, and what it asks of an object whose length is not known yet: the
/// least lengths in bytes, the newest last.
#[derive(Drop)]
pub struct Known {
    pub value: Value,
    pub asks: Vec<i128>,
}

// Whether an address is less than 1024 bytes outside its bounds.
pub(crate) fn is_near(low: u128, length: u64, at: i128) -> bool
    requires from { low ≤ 2 ^ 100 }
    requires low { neg_ℤ (pos (2 ^ 101)) ≤ℤ at }
    requires high { at ≤ℤ pos (2 ^ 101) }
    ensures { result ≡ is_near low length at }
{
    let from = low as i128;
    from < at + 1024 && at < from + i128::from(length) + 1024
}

// Whether bounds of so many bytes from an offset on are exact.
fn is_exact_low(at: u64, n: u64) -> bool
    requires { at + n ≤ 2 ^ 64 }
    ensures { result ≡ is_exact at n }
{
    let bounds = set_bounds(at, n);
    bounds.base == at && bounds.top == u128::from(at) + u128::from(n)
}

// The same of any offset. Bounds that begin 2 ^ 60 bytes further on are as exact.
pub(crate) fn is_exact(at: u128, n: u64) -> bool
    requires { n < 2 ^ 62 }
    ensures { result ≡ is_exact at n }
{
    is_exact_low((at % (1 << 60)) as u64, n)
}

// So many parts of so many bytes, on or back.
fn signed_bytes(minus: bool, size: u64, number: i128) -> i128
    requires size { size ≤ 67108864 }
    requires low { neg_ℤ (pos (2 ^ 64)) ≤ℤ number }
    requires high { number ≤ℤ pos (2 ^ 64) }
    ensures { result ≡ signed_by minus (number *ℤ pos size) }
{
    let bytes = number * i128::from(size);
    if minus { -bytes } else { bytes }
}

// A number modulo 2 ^ 64.
fn word_of(v: i128) -> u64
    ensures { result ≡ kept_of v }
{
    wrap(IntKind::U64, v)
}

/// How many bytes an address is moved, modulo 2 ^ 64, by a number of parts of so many bytes.
pub(crate) fn bytes_moved(minus: bool, size: u64, number: i128) -> i64
    requires size { size ≤ 67108864 }
    requires low { neg_ℤ (pos (2 ^ 64)) ≤ℤ number }
    requires high { number ≤ℤ pos (2 ^ 64) }
    ensures { result ≡ bytes_moved minus size number }
{
    signed_word(word_of(signed_bytes(minus, size, number)))
}

// A word read as two's complement.
fn signed_word(v: u64) -> i64
    ensures { result ≡ twos_complement 64 v }
{
    if v < 1 << 63 {
        v as i64
    } else {
        (i128::from(v) - (1 << 64)) as i64
    }
}

fn is_signed(kind: IntKind) -> bool
    ensures { result ≡ is_signed (form_of kind) }
{
    match kind {
        IntKind::I8 | IntKind::I16 | IntKind::I32 | IntKind::I64 => true,
        _ => false,
    }
}

/// The number that a word stands for as an operand of a kind.
pub(crate) fn number_at(kind: IntKind, v: u64) -> i128
    ensures is { result ≡ value_of kind v }
    ensures low { neg_ℤ (pos (2 ^ 64)) ≤ℤ result }
    ensures high { result ≤ℤ pos (2 ^ 64) }
{
    if is_signed(kind) {
        i128::from(signed_word(convert(kind, IntKind::I64, v)))
    } else {
        i128::from(convert(kind, IntKind::U64, v))
    }
}
