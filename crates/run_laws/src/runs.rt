//! What holds of a run under every schedule.
ghost use Rattle.run_laws.specs.Laws.{RecordsAreValid, StatisticsAreRight, DrainsAreValid, StepsGoOn, PartsStand, SidesAreSound, RecordsCanBeStored, RecordsCanBeTallied, ExactRunsAreLossless};

use driver_laws::{bell_is_heard, invariant_is_kept, turns_hand_batches};

/// The record of a finished run is valid and its statistics agree with it; at any moment before, the drains so far are valid
/// as those of a run that was cut short.
pub fn records_are_valid()
    ensures valid { RecordsAreValid }
    ensures agree { StatisticsAreRight }
    ensures so_far { DrainsAreValid }
{
    invariant_is_kept();
    bell_is_heard();
    turns_hand_batches();
}

/// Steps only go on: drains come to the end, at positions that do not fall, and those of a part stand once it has ended.
pub fn steps_go_on()
    ensures extend { StepsGoOn }
    ensures parts { PartsStand }
{}

/// Between any two steps the cells are handed over as their words say, the bell never fell, and all that was taken was given
/// back.
pub fn sides_are_sound()
    ensures { SidesAreSound }
{
    invariant_is_kept();
    bell_is_heard();
    turns_hand_batches();
}

/// Each part of what is kept of a run can be stored, and the whole of it tallied.
pub fn records_can_be_stored()
    ensures stored { RecordsCanBeStored }
    ensures tallied { RecordsCanBeTallied }
{
    invariant_is_kept();
    bell_is_heard();
    turns_hand_batches();
}

/// At the exact pace nothing is lost, and each flush goes up to just the samples that were due.
pub fn exact_runs_are_lossless()
    ensures { ExactRunsAreLossless }
{
    invariant_is_kept();
    bell_is_heard();
    turns_hand_batches();
}
