//! What holds of the run of a trace that has no schedule: rounds alone lose no sample. Each round polls every cell after the
//! turns, so a driver that looks for a buffer finds one.
#![tactic(auto)]

ghost use Rattle.unscheduled_runs.specs.Unscheduled.{UnscheduledRunsLoseNothing};

use driver_laws::{bell_is_heard, invariant_is_kept, turns_hand_batches};

/// The run of a trace without a schedule loses no sample.
pub fn unscheduled_runs_lose_nothing()
    ensures { UnscheduledRunsLoseNothing }
{
    invariant_is_kept();
    bell_is_heard();
    turns_hand_batches();
}
