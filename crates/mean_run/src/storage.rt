//! Memory that makes room for objects, and knows of frames.
ghost use Rattle.std.specs.Prelude.{◌≡◌, ◌≤◌, OnOk};
ghost use Rattle.obj_mem.specs.Values.{value_of};
ghost use Rattle.mean_run.specs.Allocated.{Allocated, IsEntered};

use ck_base::NoMemory;
use mean_operations::Operations;
use obj_mem::{Fault, Value};

/// Why an allocation is not done.
#[derive(Clone, Copy)]
pub enum AllocateFault {
    Fault(Fault),
    /// There is no room for what is kept of the object.
    NoMemory,
}

/// Operations on memory, and those of them that make room for what is kept.
pub trait Storage: Operations {
    /// The pointer, just narrowed to a member, is to one of this length.
    fn note_member(&mut self, p: Value, own: u64) -> Result<(), NoMemory>
        ensures changes { OnOk result (Self.held self.new
            ≡ (Self.meaning self.old).note_member (Self.held self.old) (value_of p) own) }
        ensures same { Self.meaning self.new ≡ Self.meaning self.old };

    /// The next object: global or literal k, of a length.
    fn add_global(&mut self, k: u64, length: u64) -> Result<(), NoMemory>
        requires { length ≤ 67108864 }
        ensures changes { OnOk result (Self.held self.new
            ≡ (Self.meaning self.old).add_global (Self.held self.old) k length) }
        ensures same { Self.meaning self.new ≡ Self.meaning self.old };

    fn add_literal(&mut self, k: u64, length: u64) -> Result<(), NoMemory>
        requires { length ≤ 67108864 }
        ensures changes { OnOk result (Self.held self.new
            ≡ (Self.meaning self.old).add_literal (Self.held self.old) k length) }
        ensures same { Self.meaning self.new ≡ Self.meaning self.old };

    /// The next object: local `n` of function `f` whose frame, which was entered below an address, has this one; of a
    /// length; it is dead.
    fn add_local(&mut self, frame: u64, f: u32, n: u64, length: u64) -> Result<(), NoMemory>
        requires length { length ≤ 67108864 }
        requires entered { IsEntered (Self.meaning self.old) f frame }
        ensures changes { OnOk result (Self.held self.new
            ≡ (Self.meaning self.old).add_local (Self.held self.old) frame f n length) }
        ensures same { Self.meaning self.new ≡ Self.meaning self.old };

    /// How many objects there are: the number of the next one.
    fn count(&self) -> u64
        ensures { result ≡ (Self.meaning self.now).count (Self.held self.now) };

    /// An allocation of a number of bytes.
    fn allocate(&mut self, n: u64) -> Result<Value, AllocateFault>
        ensures changes { Allocated ((Self.meaning self.old).allocate (Self.held self.old) n) (Self.held self.old)
            (Self.held self.new) result }
        ensures same { Self.meaning self.new ≡ Self.meaning self.old };

    /// The stack's top.
    fn stack_top(&self) -> u64
        ensures { result ≡ (Self.meaning self.now).stack_top };

    /// A function's frame below an address, where there is room for it.
    fn enter(&self, f: u32, address: u64) -> Option<u64>
        ensures { result ≡ (Self.meaning self.now).enter f address };
}
