//! One byte of output: the put of a run's step, whatever the sink is.
ghost use Rattle.std.specs.Prelude.{ℕ, Option, List, OnOk, OnErr};
ghost use Rattle.ck_base.specs.Calls.{seen, PutDone, PutFailed};

use ck_base::{Failed, Sink};

/// Puts one byte. The source stays as it was.
#[inline(always)]
pub fn put_byte<O: Sink>(out: &mut O, byte: u8) -> Result<(), Failed>
    ensures done { OnOk result ((left : Option (List ℕ)) (faults : ℕ) →
        PutDone (seen left faults (O.held out.old) (O.faults out.old))
        (seen left faults (O.held out.new) (O.faults out.new)) byte) }
    ensures failed { OnErr result ((left : Option (List ℕ)) (faults : ℕ) →
        PutFailed (seen left faults (O.held out.old) (O.faults out.old))
        (seen left faults (O.held out.new) (O.faults out.new)) byte) }
{
    out.put(&[byte])
}
