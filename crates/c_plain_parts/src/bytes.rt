//! Numbers that stand in an object of static storage duration (C11 6.7.9).

ghost use Rattle.std.specs.Prelude.{◌≡◌, ◌≤◌};
ghost use Rattle.c_tree.specs.Statics.{significant};
ghost use Rattle.c_plain_parts.specs.Placing.{end_in, greatest_end};

/// A number that stands in an object.
#[derive(Clone, Copy)]
pub struct Placed {
    /// Its offset, in bytes.
    pub at: u64,
    /// How many bytes it has.
    pub width: u64,
    /// Its value, in the 64 bits of its extension.
    pub number: u64,
}

/// How many of so many bytes count: up to the last that is not zero.
pub fn significant(width: u64, number: u64) -> u64
    ensures is { result ≡ significant width number }
    ensures within { result ≤ width }
{
    let mut left = number;
    let mut count: u64 = 0;
    while left != 0 && count < width {
        left /= 256;
        count += 1;
    }
    count
}

// Where a number ends, up to its last byte that is not zero.
fn end_of(x: &Placed) -> u128
    ensures { result ≡ end_in x.now }
{
    if x.number == 0 {
        return 0;
    }
    u128::from(x.at) + u128::from(significant(x.width, x.number))
}

/// Where the last of the numbers ends.
pub fn greatest_end(numbers: &[Placed]) -> u128
    ensures { result ≡ greatest_end numbers.now }
{
    let mut greatest: u128 = 0;
    for x in numbers {
        greatest = greatest.max(end_of(x));
    }
    greatest
}
