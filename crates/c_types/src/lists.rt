//! The items of a list are taken out, changed and put back. It takes no memory.

ghost use Rattle.std.specs.Prelude.{◌≡◌};

use ck_base::Sequence;
use std::alloc::Global;
use std::mem;

/// The items of a list, which has none then.
pub(crate) fn taken<T: Drop>(alloc: Global, list: &mut Sequence<T>) -> Vec<T>
    ensures { result.items ≡ list.old }
{
    mem::replace(list, Sequence::from_vec(Vec::new(alloc))).into_vec()
}

/// A list has these items in place of its own.
pub(crate) fn put<T: Drop>(list: &mut Sequence<T>, items: Vec<T>)
    ensures { list.new ≡ items.items }
{
    *list = Sequence::from_vec(items);
}
