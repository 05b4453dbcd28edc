//! Bytes on their way into an object.

ghost use Rattle.std.specs.Prelude.{◌≡◌, ◌≤◌, ◌++◌};
ghost use Rattle.obj_mem.specs.Access.{bytes_of as low_bytes};
ghost use Rattle.object_memory.specs.Answers.{plain_cells};

/// At most 16 bytes, each with its number, or not written.
#[derive(Clone, Copy)]
pub(crate) struct Bytes {
    pub(crate) items: [Option<u8>; 16],
    pub(crate) count: usize,
}

/// The `n` low bytes of a number, the lowest first.
pub(crate) fn bytes_of(n: u8, number: u64) -> Bytes
    requires { n ≤ 16 }
    ensures value { plain_cells result ≡ low_bytes n number }
    ensures count { result.count ≡ n }
{
    let mut items = [None; 16];
    let mut left = number;
    for k in 0..n as usize {
        items[k] = Some((left % 256) as u8);
        left /= 256;
    }
    Bytes {
        items,
        count: n as usize,
    }
}

/// The bytes of an address and of the upper 64 bits behind it.
pub(crate) fn bytes_of_pair(address: u64, upper: u64) -> Bytes
    ensures value { plain_cells result ≡ low_bytes 8 address ++ low_bytes 8 upper }
    ensures count { result.count ≡ 16 }
{
    let low = bytes_of(8, address);
    let high = bytes_of(8, upper);
    let mut items = low.items;
    for k in 0..8 {
        items[8 + k] = high.items[k];
    }
    Bytes { items, count: 16 }
}
