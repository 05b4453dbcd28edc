//! Where the arguments of a call stand.

ghost use Rattle.std.specs.Prelude.{◌≡◌, ◌+◌, ◌-◌, ◌*◌, ◌<◌, ◌≤◌};

use rv_instr::Reg;

/// The register of argument `k`, one of the first eight.
pub fn argument(k: u8) -> Reg
    requires { k < 8 }
    ensures { result ≡ 10 + k }
{
    Reg::numbered(10 + k)
}

/// Where argument `k` stands, from the eighth on: an offset from the caller's stack address, in bytes.
pub fn stack_argument(k: u64) -> u64
    requires least { 8 ≤ k }
    requires most { k ≤ 4194304 }
    ensures { result ≡ 16 + 16 * (k - 8) }
{
    16 + 16 * (k - 8)
}
