//! Laws of memory as separate objects and the memory of the machine: for each kind of step, what the machine does where
//! the meaning does it.

ghost use Rattle.place_inject.specs.Calling.{CalleesFit};
ghost use Rattle.place_inject.specs.Changes.{ComeAndGoWhereObjectsFit};
ghost use Rattle.place_inject.specs.Copies.{CopiesFit};
ghost use Rattle.place_inject.specs.Disjoint.{ExtentsAreApartWhereFits};
ghost use Rattle.place_inject.specs.Entering.{EntersFit, FirstEntersFit};
ghost use Rattle.place_inject.specs.Fits.{ScratchKeepsFits, StoresKeepFits};
ghost use Rattle.place_inject.specs.Getting.{GettingFitsWhereObjectsDo};
ghost use Rattle.place_inject.specs.Growing.{AllocationsFit, LocalsFitIn};
ghost use Rattle.place_inject.specs.Homes.{MovesOnFit, NumbersFit, NumbersReadBack, RegistersReadBack, ResultsFit};
ghost use Rattle.place_inject.specs.Leaving.{LeavesFit};
ghost use Rattle.place_inject.specs.Pointers.{PointersFitWhereSpread};
ghost use Rattle.place_inject.specs.Registers.{DoneKeepsFits, RegistersKeepFits};
ghost use Rattle.place_inject.specs.Returns.{ReturnsClear};
ghost use Rattle.place_inject.specs.Slots.{SlotsReadBack, StackReaches};
ghost use Rattle.place_inject.specs.Spills.{SpillsFit};
ghost use Rattle.place_inject.specs.Starts.{StartFits};
ghost use Rattle.place_inject.specs.Tables.{TableReaches, TableReadsBack};
ghost use Rattle.place_inject.specs.Whole.{WholePointersFit};
ghost use Rattle.place_inject.specs.Zeroing.{GranulesAreZeroed, ZeroKeepsFits};
ghost use Rattle.place_inject.specs.Steps.{LoadsFitWhereObjectsDo, StoresFit};

/// A store, of an integer or of a capability, over the bytes of a pointer or not. Where the meaning traps, the machine
/// traps by the same cause and is left as it was.
#[tactic(auto, using(crate::proofs::Storing::stores_fit_law))]
pub fn stores_fit()
    ensures { StoresFit }
{}

/// A load, of an integer or of a capability, whose tag comes with it exactly where a pointer stands there and the
/// authority may load it. Where the meaning traps, the machine traps by the same cause and is left as it was.
#[tactic(auto, using(crate::proofs::Loading::loads_fit_law))]
pub fn loads_fit()
    ensures { LoadsFitWhereObjectsDo }
{}

/// The state in which a program begins, of which the machine as it was loaded has each object's bytes, the zeros of
/// the heap and the heap's capability: the injection relates the two, with no call in progress.
pub fn start_fits()
    ensures { StartFits }
{}

/// A store keeps the whole injection: the text, the table, the rest of the heap, the frames with what they saved, and
/// the homes of the temps that are still to be read are as they were.
#[tactic(auto, using(crate::proofs::StoresKeep::stores_keep_law))]
pub fn stores_keep_fits()
    ensures { StoresKeepFits }
{}

/// Moves, other addresses, narrowing in both forms, masks of permissions and cleared tags: what the machine makes of
/// the capability that a value is, is the capability of what the meaning makes of the value.
pub fn pointers_fit()
    ensures { PointersFitWhereSpread }
{}

/// Address, tag, permissions, base, length and offset of the capability that a value is are those that the meaning
/// gets of the value; and so are order, difference and exact equality of two.
pub fn getting_fits()
    ensures { GettingFitsWhereObjectsDo }
{}

/// A local whose block is entered, which the machine makes zero by whole granules; one whose function returns, and one
/// that rests before its block is entered, at which it does nothing.
#[tactic(auto, using(crate::proofs::Reshaped::come_and_go_law))]
pub fn objects_come_and_go()
    ensures { ComeAndGoWhereObjectsFit }
{}

/// The local's block is entered, in the whole injection: the granules that the machine makes zero have nothing of the
/// text, the table or the frames, and the rest of the heap is zero still.
pub fn zero_keeps_fits()
    ensures { ZeroKeepsFits }
{}

/// A granule of the stack becomes zero: `csc` of x0 through the stack's capability.
pub fn granules_are_zeroed()
    ensures { GranulesAreZeroed }
{}

/// A call through a value: the counter goes to the function that the value is, or the machine traps by the cause by
/// which the meaning does.
pub fn callees_fit()
    ensures { CalleesFit }
{}

/// A unit of a struct copy: a load and then a store, also of bytes that are parts of a pointer.
#[tactic(auto, using(crate::proofs::Copying::copies_fit_law))]
pub fn copies_fit()
    ensures { CopiesFit }
{}

/// An allocation: the new object stands in the zeros of the heap, and the rest of the heap is zero still.
pub fn allocations_fit()
    ensures { AllocationsFit }
{}

/// A local that a call makes, placed apart from all else: the machine knows nothing of it before its block is entered.
pub fn locals_fit()
    ensures { LocalsFitIn }
{}

/// A return: where the locals of the function that runs have ended, no object has a byte of the stack below the
/// frame of
/// its caller.
pub fn returns_clear()
    ensures { ReturnsClear }
{}

/// A call: where the prologue saved what the return needs, and the callee's temps are in their homes, the machine
/// stands for the callee's state, whose locals rest.
pub fn enters_fit()
    ensures { EntersFit }
{}

/// The first function is entered, with no call in progress.
pub fn first_enters_fit()
    ensures { FirstEntersFit }
{}

/// A return: where c2 is the caller's stack again and the registers that functions keep have what was saved of them,
/// the machine stands for the caller's state.
pub fn leaves_fit()
    ensures { LeavesFit }
{}

/// The pointer to a whole object, made from a capability that holds it: its bounds are exact.
pub fn whole_pointers_fit()
    ensures { WholePointersFit }
{}

/// A step that changes nothing but the counter and the registers c28 to c31 keeps the injection.
pub fn scratch_keeps_fits()
    ensures { ScratchKeepsFits }
{}

/// A step that changes nothing but the counter and registers in which no temp stands that is still to be read keeps the
/// injection.
pub fn registers_keep_fits()
    ensures { RegistersKeepFits }
{}

/// The injection doesn't look at what was done with the outside, nor at how many turns are left.
pub fn done_keeps_fits()
    ensures { DoneKeepsFits }
{}

/// A value that comes into its temp and into the register that is the temp's home keeps the injection, where no other
/// temp that is still to be read stands in the register and callers need it only where functions keep it.
pub fn results_fit()
    ensures { ResultsFit }
{}

/// A constant that comes into a temp which is that number and has no home keeps the injection, with no step of the
/// machine.
pub fn numbers_fit()
    ensures { NumbersFit }
{}

/// Going on to a place from which no more temps are to be read keeps the injection.
pub fn moves_on_fit()
    ensures { MovesOnFit }
{}

/// A temp that is a number holds it: null with that address.
pub fn numbers_read_back()
    ensures { NumbersReadBack }
{}

/// A temp whose home is a register is there, with its tag.
pub fn registers_read_back()
    ensures { RegistersReadBack }
{}

/// A value that comes into its temp and, by `csc` through the stack's capability, into the slot that is the temp's home
/// keeps the injection, where no other temp that is still to be read stands in the slot.
pub fn spills_fit()
    ensures { SpillsFit }
{}

/// A value that was spilled is read back from its slot, with its tag.
pub fn slots_read_back()
    ensures { SlotsReadBack }
{}

/// Addresses up to 4096 bytes past the top of the stack keep its bounds, so that far places of frames are reached.
pub fn stack_reaches()
    ensures { StackReaches }
{}

/// Addresses up to 4096 bytes past the end of the table keep its bounds.
pub fn table_reaches()
    ensures { TableReaches }
{}

/// An entry of the table is read: the pointer to a global or to a literal, or the sentry of a function.
pub fn table_reads_back()
    ensures { TableReadsBack }
{}

/// In each state that the injection relates no two objects have a byte in common, padding included, and none has one
/// of the text, of the table or of what the frames of the calls in progress saved.
pub fn extents_are_apart()
    ensures { ExtentsAreApartWhereFits }
{}

ghost use Rattle.place_inject.specs.Outgoing.{OutgoingKeepsFits};

/// An argument past eight that is stored in the caller's frame keeps the injection.
pub fn outgoing_keeps_fits()
    ensures { OutgoingKeepsFits }
{}

ghost use Rattle.place_inject.specs.Older.{OthersAreOlderAtEntries, GlobalsAreOlderAtStart};

/// At a call the objects of the callers, the globals and the literals have lower numbers than the callee's locals.
pub fn others_are_older_at_entries()
    ensures { OthersAreOlderAtEntries }
{}

/// So have the globals and literals at the entry of the first function.
pub fn globals_are_older_at_start()
    ensures { GlobalsAreOlderAtStart }
{}
