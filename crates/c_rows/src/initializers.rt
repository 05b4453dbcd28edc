//! The bytes with which objects of static storage duration begin.

use c_plain_rules::{Placed, initial_bytes};
use std::alloc::Global;

const NUMBERS: [Placed; 3] = [
    Placed {
        at: 0,
        width: 4,
        number: 1,
    },
    Placed {
        at: 4,
        width: 4,
        number: 0xffff_ffff_ffff_fffe,
    },
    Placed {
        at: 8,
        width: 8,
        number: 0,
    },
];

fn has_bytes(alloc: Global, end: u128, length: usize, bytes: &[u8]) -> bool {
    match initial_bytes(alloc, &NUMBERS, end) {
        Ok(found) => found.len() == length && found.as_slice().starts_with(bytes),
        Err(_) => false,
    }
}

// The bytes end at the last that is not zero, or with the last pointer.
pub(crate) fn end_at_the_last_that_is_not_zero(alloc: Global) -> bool {
    has_bytes(alloc, 0, 8, &[1, 0, 0, 0, 254, 255, 255, 255])
        && has_bytes(alloc, 16, 16, &[1, 0, 0, 0, 254, 255, 255, 255])
}
