//! For which reason the strict meaning says nothing of what is read.
ghost use Rattle.std.specs.Prelude.{◌≡◌, Ok};
ghost use Rattle.obj_mem.specs.declared.ending.Reason.TheVariants as R;
ghost use Rattle.obj_mem.specs.Access.{known as known_of, padding_where, unspecified as says_nothing};
ghost use Rattle.obj_mem.specs.Values.{value_of};
ghost use Rattle.mean_work.specs.Answers.{mapped};

use obj_mem::{Fault, Reason, Value};

/// The strict meaning says nothing, for this reason.
pub fn unspecified<A>(reason: Reason) -> Result<A, Fault>
    ensures { result ≡ says_nothing reason }
{
    Err(Fault::Unspecified(reason))
}

/// A value that is known where its bytes were all written, and none is of a stored pointer.
pub fn known(unwritten: bool, part: bool, v: Value) -> Result<Value, Fault>
    ensures { mapped value_of result ≡ known_of unwritten R.Unwritten (known_of part R.Address (Ok (value_of v))) }
{
    if unwritten {
        return unspecified(Reason::Unwritten);
    }
    if part {
        return unspecified(Reason::Address);
    }
    Ok(v)
}

/// What takes padding is not known.
pub fn no_padding(takes: bool) -> Result<(), Fault>
    ensures { result ≡ padding_where takes (Ok tt) }
{
    if takes {
        unspecified(Reason::Padding)
    } else {
        Ok(())
    }
}
