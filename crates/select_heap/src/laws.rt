//! Laws of `malloc`: what its words do, in the injection of separate objects into the memory of the machine.

ghost use Rattle.select_heap.specs.Allocating.{HeapMovesOn, HeapReadsBack};
ghost use Rattle.select_heap.specs.Heap.{AllocationsRun};

/// The heap's entry of the table is read: it is the heap's capability at the next free address.
pub fn heap_reads_back()
    ensures { HeapReadsBack }
{}

/// An allocation in the whole injection: where the heap's entry of the table becomes the heap's capability behind the
/// new object, the machine stands for the state in which the object is there.
pub fn heap_moves_on()
    ensures { HeapMovesOn }
{}

/// `malloc`: the object is placed as the meaning places it, and its pointer comes into the temp for the result, or null
/// does where the heap has no room; and the function goes on.
pub fn allocations_run()
    ensures { AllocationsRun }
{}
