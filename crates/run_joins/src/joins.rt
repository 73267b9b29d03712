//! What the joins make of it.
ghost use Rattle.run_joins.specs.Joins.{JoinsAreValid, JoinedRunsAreValid, CutsAreValid, CutRunsAreValid};

/// What the record says of a processor that was joined is valid and its statistics agree; so the record of all is valid.
pub fn joins_are_valid()
    ensures one { JoinsAreValid }
    ensures all { JoinedRunsAreValid }
{}

/// What was drained of a processor before the daemon kept a fault is valid as of a run that was cut short; so are the drains
/// of all.
pub fn cuts_are_valid()
    ensures one { CutsAreValid }
    ensures all { CutRunsAreValid }
{}
