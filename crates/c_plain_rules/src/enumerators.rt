//! The numbers of enumeration constants (C11 6.7.2.2).

ghost use Rattle.std.specs.Prelude.{◌≡◌, true, false, pos, ◌+ℤ◌, MatchOption, FitsSigned};
ghost use Rattle.std.specs.Int.{w32, w128};
ghost use Rattle.c_tree.specs.Declarators.{in_int};

/// The number as an `int`, where it is one (C11 6.7.2.2p2). Refuses nothing: of another number there is none.
pub fn in_int(number: i128) -> Option<i32>
    ensures { MatchOption result (in_int number ≡ false)
        (λ n. (in_int number ≡ true) × (n ≡ number) × FitsSigned w32 n) }
{
    if number < -2147483648 {
        return None;
    }
    if number > 2147483647 {
        return None;
    }
    Some(number as i32)
}

/// The number of the enumeration constant behind one with this value, where it has no expression (C11 6.7.2.2p3).
/// Refuses nothing: behind the greatest `int` stands a number that is no `int`.
pub fn next_after(value: i32) -> i128
    ensures value { result ≡ value +ℤ pos 1 }
    ensures fits { FitsSigned w128 result }
{
    i128::from(value) + 1
}
