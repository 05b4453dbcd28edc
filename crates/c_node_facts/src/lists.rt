//! Short lists of numbers.

ghost use Rattle.std.specs.Prelude.{◌≡◌, ◌∷◌, [], IfOk, length};

use ck_base::NoMemory;
use std::alloc::Global;

/// The numbers of a list.
pub fn listed(alloc: Global, xs: &[u32]) -> Result<Vec<u32>, NoMemory>
    ensures { IfOk result (λ v. v.items ≡ xs.now) }
{
    let v = Vec::from_slice(alloc, xs)?;
    Ok(v)
}

/// A list of one number.
pub fn list_of_one(alloc: Global, a: u32) -> Result<Vec<u32>, NoMemory>
    ensures { IfOk result (λ v. v.items ≡ a ∷ []) }
{
    let mut v = Vec::new(alloc);
    v.push(a)?;
    Ok(v)
}

/// A list of two numbers.
pub fn list_of_two(alloc: Global, a: u32, b: u32) -> Result<Vec<u32>, NoMemory>
    ensures { IfOk result (λ v. v.items ≡ a ∷ b ∷ []) }
{
    let mut v = list_of_one(alloc, a)?;
    v.push(b)?;
    Ok(v)
}

// A list of three numbers.
pub(crate) fn list_of_three(alloc: Global, a: u32, b: u32, c: u32) -> Result<Vec<u32>, NoMemory>
    ensures { IfOk result (λ v. v.items ≡ a ∷ b ∷ c ∷ []) }
{
    let mut v = list_of_two(alloc, a, b)?;
    v.push(c)?;
    Ok(v)
}

// One number and then others.
pub(crate) fn list_from(alloc: Global, a: u32, xs: &[u32]) -> Result<Vec<u32>, NoMemory>
    ensures { IfOk result (λ v. v.items ≡ a ∷ xs.now) }
{
    let mut v = list_of_one(alloc, a)?;
    v.extend_from_slice(xs)?;
    Ok(v)
}

/// The number of a list of one.
pub fn one(xs: &[u32]) -> u32
    requires { length xs.now ≡ 1 }
    ensures { xs.now ≡ result ∷ [] }
{
    match xs {
        [a] => *a,
        _ => unreachable!(),
    }
}

/// The numbers of a list of two.
pub fn two(xs: &[u32]) -> (u32, u32)
    requires { length xs.now ≡ 2 }
    ensures { xs.now ≡ result.0 ∷ result.1 ∷ [] }
{
    match xs {
        [a, b] => (*a, *b),
        _ => unreachable!(),
    }
}

// The numbers of a list of three.
pub(crate) fn three(xs: &[u32]) -> (u32, u32, u32)
    requires { length xs.now ≡ 3 }
    ensures { xs.now ≡ result.0 ∷ result.1 ∷ result.2 ∷ [] }
{
    match xs {
        [a, b, c] => (*a, *b, *c),
        _ => unreachable!(),
    }
}
