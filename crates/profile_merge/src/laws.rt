//! Laws of the faults of a change: each function's contract is a law, and its body is empty.

ghost use Rattle.profile_merge.specs.Laws.{GrowthHasNoFault, OneFaultAtMost};

/// There is one first fault at most.
pub fn one_fault_at_most()
    ensures { OneFaultAtMost }
{}

/// Where a database grows by a part and keeps within the limits, nothing stops the change of that part.
pub fn growth_has_no_fault()
    ensures { GrowthHasNoFault }
{}
