//! That the run of a trace without a schedule and without epochs fits an empty database, where it has few images and parts.
#![tactic(auto)]

ghost use Rattle.trace_model.specs.Traces.{recording_of};
ghost use Rattle.quiet_runs.specs.Quiet.{QuietRunFits};

use run_laws::traces_are_fit;
use run_rounds::runs_end_well;
use small_runs::small_runs_fit;
use trace_laws::ranges_are_kept;
use trace_model::Trace;
use unscheduled_runs::unscheduled_runs_lose_nothing;

/// The run of a quiet trace, as the first one, fits an empty database, part by part.
pub fn quiet_runs_fit(trace: &Trace)
    ensures { QuietRunFits (recording_of trace.now) }
{
    traces_are_fit(trace);
    ranges_are_kept(trace);
    runs_end_well();
    unscheduled_runs_lose_nothing();
    small_runs_fit();
}
