//! The operations on values and memory that the meaning of programs stands on.
ghost use Rattle.std.specs.Prelude.{◌≡◌, ◌⊎◌, ℕ};
ghost use Rattle.obj_mem.specs.Values as values;
ghost use Rattle.obj_mem.specs.Values.{value_of};
ghost use Rattle.cheri_c_sem.specs.Kinds.{nothing};
ghost use Rattle.cheri_c_sem.specs.Modes.{Store};
ghost use Rattle.cheri_c_sem.specs.Operations as sem;
ghost use Rattle.mean_types.specs.Views.{kind_of};
ghost use Rattle.mean_operations.specs.Answers.{seen, number_seen, IsWord, IsAccess, Changes, work_of};

use ck_int::{CmpOp, IntKind, IntOp};
use mean_types::Kind;
use obj_mem::{Fault, UnitFault, Value};

/// What is asked of a capability, or made of it (CHERI C/C++ Programming Guide, UCAM-CL-TR-947, 7.3). `SetAddress`,
/// `AndPermissions` and `EqualExact` have a second operand; `Rounded` and `Mask` are of a length.
#[derive(Clone, Copy)]
pub enum Work {
    Offset,
    Length,
    Tag,
    Permissions,
    Clear,
    SetAddress,
    AndPermissions,
    EqualExact,
    Rounded,
    Mask,
}

/// Memory, with all that a run keeps beside it: the operations of one of the meanings, on what is held of memory.
pub trait Operations {
    /// The operations.
    ghost meaning: { Self → sem.Operations Store };

    /// The memory.
    ghost held: { Self → Store };

    /// An operation on integers; the second kind is that of the right operand.
    fn integer(
        &self,
        op: IntOp,
        kind: IntKind,
        count: IntKind,
        x: u64,
        y: u64,
    ) -> Result<u64, Fault>
        ensures { result ≡ (meaning self.now).int op kind count x y };

    /// The address of a capability.
    fn address(&self, v: Value) -> Result<u64, Fault>
        ensures { result ≡ (meaning self.now).address (held self.now) (value_of v) };

    /// A comparison of the addresses of capabilities, which count as signed numbers or not.
    fn compare(&self, op: CmpOp, signed: bool, v: Value, w: Value) -> Result<bool, Fault>
        ensures { result ≡ (meaning self.now).compare (held self.now) op signed (value_of v) (value_of w) };

    /// The difference of two addresses in bytes.
    fn difference(&self, v: Value, w: Value) -> Result<u64, Fault>
        ensures { result ≡ (meaning self.now).difference (held self.now) (value_of v) (value_of w) };

    /// A capability moved by a number of bytes, modulo 2^64.
    fn offset(&self, v: Value, by: u64) -> Result<Value, Fault>
        ensures { seen result ≡ (meaning self.now).offset (held self.now) (value_of v) by };

    /// A capability with its bounds narrowed to a length.
    fn narrow(&self, v: Value, length: u64, exact: bool) -> Result<Value, Fault>
        ensures { seen result ≡ (meaning self.now).narrow (held self.now) (value_of v) length exact };

    /// The base of the bounds of a capability, which is a number of 64 bits.
    fn base(&self, v: Value) -> Result<u64, Fault>
        requires { IsWord ((meaning self.now).work (held self.now) sem.Base (value_of v) nothing) }
        ensures { (x : values.Value) →
            number_seen result ≡ (meaning self.now).work (held self.now) sem.Base (value_of v) x };

    /// What else is asked of a capability, or made of it.
    fn work(&self, work: Work, v: Value, x: Value) -> Result<Value, Fault>
        ensures { seen result ≡ (meaning self.now).work (held self.now) (work_of work) (value_of v) (value_of x) };

    /// The 1, 2, 4, 8 or 16 bytes at a pointer.
    fn load(&self, p: Value, n: u8) -> Result<Value, Fault>
        requires { IsAccess n }
        ensures { seen result ≡ (meaning self.now).load (held self.now) (value_of p) n };

    /// A value in the 1, 2, 4, 8 or 16 bytes at a pointer.
    fn store(&mut self, p: Value, n: u8, v: Value) -> Result<(), Fault>
        requires { IsAccess n }
        ensures changes { Changes ((meaning self.old).store (held self.old) (value_of p) n (value_of v)) (held self.old)
            (held self.new) result }
        ensures same { meaning self.new ≡ meaning self.old };

    /// The first unit of a struct copy, of a number of bytes.
    fn copy_unit(&mut self, from: Value, to: Value, n: u8) -> Result<(), UnitFault>
        requires { IsAccess n }
        ensures changes { Changes ((meaning self.old).copy_unit (held self.old) (value_of from) (value_of to) n)
            (held self.old) (held self.new) result }
        ensures same { meaning self.new ≡ meaning self.old };

    /// Whether so many bytes may be copied from one place to another.
    fn overlap(&self, from: Value, to: Value, bytes: u64) -> Result<(), Fault>
        ensures { result ≡ (meaning self.now).overlap (value_of from) (value_of to) bytes };

    /// The value of a variable that was not given since its block was entered.
    fn unset(&self, kind: Kind) -> Result<Value, Fault>
        ensures { seen result ≡ (meaning self.now).unset (kind_of kind) };

    /// What a function that gives a value, and is not `main`, gives where it reaches its end.
    fn falls(&self, kind: Kind) -> Result<Value, Fault>
        ensures { seen result ≡ (meaning self.now).falls (kind_of kind) };

    /// The pointer to an object as a whole.
    fn whole(&self, object: u64, permissions: u16) -> Value
        ensures { value_of result ≡ (meaning self.now).whole (held self.now) object permissions };

    /// A local's block is entered; it is left; its function returns.
    fn zero(&mut self, object: u64)
        ensures changes { held self.new ≡ (meaning self.old).zero (held self.old) object }
        ensures same { meaning self.new ≡ meaning self.old };

    fn leave(&mut self, object: u64)
        ensures changes { held self.new ≡ (meaning self.old).leave (held self.old) object }
        ensures same { meaning self.new ≡ meaning self.old };

    fn end(&mut self, object: u64)
        ensures changes { held self.new ≡ (meaning self.old).end (held self.old) object }
        ensures same { meaning self.new ≡ meaning self.old };
}
