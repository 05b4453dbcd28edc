//! Marks of the numbers that are used: each is used once.

ghost use Rattle.std.specs.Prelude.{◌≡◌, ◌<◌, ◌∷◌, [], true, false, Some, IfOk, length, replicate};
ghost use Rattle.std.specs.Prelude.{slice_get, slice_set};
ghost use Rattle.c_tree.specs.Views.{listed, same_number};
ghost use Rattle.ordered_programs.specs.Uses.{Marks, AllMarked};

use ck_base::NoMemory;
use std::alloc::Global;

/// No mark for any of so many numbers.
pub(crate) fn no_marks(alloc: Global, n: usize) -> Result<Vec<bool>, NoMemory>
    ensures { IfOk result (λ v. v.items ≡ replicate n false) }
{
    Ok(vec![in alloc; false; n]?)
}

// Whether a number is below a limit and has no mark yet.
fn is_free(marks: &[bool], limit: usize, k: u32) -> bool
    ensures below { result ≡ true → k < limit }
    ensures free { result ≡ true → slice_get marks.now k ≡ Some false }
{
    match marks.get(k as usize).copied() {
        Some(b) => !b && (k as usize) < limit,
        None => false,
    }
}

fn set(marks: &mut Vec<bool>, k: u32)
    requires { k < length marks.old.items }
    ensures { marks.new.items ≡ slice_set marks.old.items k true }
{
    marks[k as usize] = true;
}

/// Whether a number is below a limit and is used for the first time: it is marked then.
pub(crate) fn mark(marks: &mut Vec<bool>, limit: usize, k: u32) -> bool
    ensures { result ≡ true → Marks limit marks.old.items marks.new.items (k ∷ []) }
{
    if !is_free(marks.as_slice(), limit, k) {
        return false;
    }
    set(marks, k);
    true
}

/// The same of two numbers.
pub(crate) fn mark_two(marks: &mut Vec<bool>, limit: usize, a: u32, b: u32) -> bool
    ensures { result ≡ true → Marks limit marks.old.items marks.new.items (a ∷ b ∷ []) }
{
    if !mark(marks, limit, a) {
        return false;
    }
    mark(marks, limit, b)
}

/// The same of a number, if there is one.
pub(crate) fn mark_maybe(marks: &mut Vec<bool>, limit: usize, k: Option<u32>) -> bool
    ensures { result ≡ true → Marks limit marks.old.items marks.new.items (listed same_number k) }
{
    match k {
        None => true,
        Some(k) => mark(marks, limit, k),
    }
}

/// The same of all of some numbers.
pub(crate) fn mark_all(marks: &mut Vec<bool>, limit: usize, ks: &[u32]) -> bool
    ensures { result ≡ true → Marks limit marks.old.items marks.new.items ks.now }
{
    for k in ks {
        if !mark(marks, limit, *k) {
            return false;
        }
    }
    true
}

/// Whether every number is marked.
pub(crate) fn are_all_marked(marks: &[bool]) -> bool
    ensures { result ≡ true → AllMarked marks.now }
{
    for b in marks {
        if !*b {
            return false;
        }
    }
    true
}
