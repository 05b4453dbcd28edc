//! Numbers, as far as they fit.

ghost use Rattle.std.specs.Prelude.{◌≡◌, ◌+◌, IfOk};

use ck_base::NoMemory;

pub(crate) fn count(n: usize) -> Result<u32, NoMemory>
    ensures { IfOk result (λ k. k ≡ n) }
{
    match u32::try_from(n) {
        Ok(k) => Ok(k),
        Err(_) => Err(NoMemory),
    }
}

pub(crate) fn sum(a: u32, b: u32) -> Result<u32, NoMemory>
    ensures { IfOk result (λ n. n ≡ a + b) }
{
    a.checked_add(b).ok_or(NoMemory)
}

pub(crate) fn after(k: u32) -> Result<u32, NoMemory>
    ensures { IfOk result (λ n. n ≡ k + 1) }
{
    sum(k, 1)
}
