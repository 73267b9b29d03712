//! Why a run ends: rounds finish it at the free pace, whatever its schedule did before. What is left of a run is twice the
//! records that are not in force, one where nothing is asked for, and the samples that are not taken or lost; each round but
//! the first leaves less.
#![tactic(auto)]

ghost use Rattle.run_rounds.specs.Rounds.{RoundsFinish, RunsEndWell};

use driver_laws::{bell_is_heard, invariant_is_kept, turns_go_on, turns_hand_batches};
use run_laws::records_are_valid;

/// A round for each sample, two for each record and three more finish a run, whatever its schedule did before.
pub fn rounds_finish()
    ensures { RoundsFinish }
{
    invariant_is_kept();
    bell_is_heard();
    turns_hand_batches();
    turns_go_on();
}

/// The run of a trace is finished, and its record is valid with statistics that agree.
pub fn runs_end_well()
    ensures { RunsEndWell }
{
    rounds_finish();
    records_are_valid();
}
