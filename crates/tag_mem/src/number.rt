//! Numbers that bytes spell.

ghost use Rattle.std.specs.Prelude.{◌≡◌, ◌≤◌, ◌<◌, ◌^◌, ◌*◌, ◌/◌, ◌%◌, take, drop};
ghost use Rattle.tag_mem.specs.Granules.{granule_bytes};
ghost use Rattle.tag_mem.specs.Numbers.{little_number};

/// The number that 16 bytes spell, the lowest first.
#[inline(always)]
pub fn whole_number(bytes: &[u8; 16]) -> u128
    ensures { result ≡ little_number (granule_bytes bytes.now) }
{
    u128::from_le_bytes(*bytes)
}

/// The number that the 8 bytes of one half of a granule spell.
#[inline(always)]
pub fn half_number(bytes: &[u8; 16], half: usize) -> u64
    requires { half < 2 }
    ensures { result ≡ little_number (take 8 (drop (8 * half) (granule_bytes bytes.now))) }
{
    let (halves, _) = bytes.as_chunks::<8>();
    u64::from_le_bytes(halves[half])
}

/// The `n` bytes of a number from the byte k on.
#[inline(always)]
pub fn part(number: u64, k: u64, n: u8) -> u64
    requires place { k < 8 }
    requires size { n ≤ 8 }
    ensures { result ≡ number / 2 ^ (8 * k) % 2 ^ (8 * n) }
{
    if n == 8 {
        number >> (8 * k)
    } else {
        (number >> (8 * k)) % (1 << (8 * n))
    }
}
