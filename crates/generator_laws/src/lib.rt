//! What holds of the run of each made trace: it loses nothing, and fits an empty database.
#![tactic(auto)]

ghost use Rattle.trace_model.specs.Traces.{recording_of};
ghost use Rattle.generator_laws.specs.Made.{MadeRunFits, MadeRunLosesNothing};

use quiet_runs::quiet_runs_fit;
use run_laws::traces_are_fit;
use trace_model::Trace;
use unscheduled_runs::unscheduled_runs_lose_nothing;

/// The run of a made trace, as the first one, loses nothing and fits an empty database, part by part.
pub fn made_traces_fit(trace: &Trace)
    ensures lossless { MadeRunLosesNothing (recording_of trace.now) }
    ensures fits { MadeRunFits (recording_of trace.now) }
{
    traces_are_fit(trace);
    unscheduled_runs_lose_nothing();
    quiet_runs_fit(trace);
}
