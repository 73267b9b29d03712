//! What holds of made traces and of their first runs, and of each run that fits a database.

ghost use Rattle.std.specs.Prelude.{◌≤◌};
ghost use Rattle.sample_key.specs.declared.limits.TheConstants.{MOST_SAMPLES};
ghost use Rattle.trace_model.specs.Traces.{recording_of};
ghost use Rattle.made_runs.specs.FirstRuns.{IsKnownByWhatItSays, IsTraceOf, IsWholeRun};
ghost use Rattle.made_runs.specs.Stopping.{FittingRunsDoNotStop};

use generator_laws::made_traces_fit;
use growth_model::{growth_is_determined, heads_are_determined};
use profile_merge::growth_has_no_fault;
use run_laws::traces_are_fit;
use run_rounds::runs_end_well;
use trace_laws::trace_text_reads;
use trace_model::Trace;

/// A trace that says, line by line, what the trace of a seed says is this very trace: its text reads as it, and as no other.
pub fn said_traces_are_read(trace: &Trace)
    ensures { IsKnownByWhatItSays (recording_of trace.now) }
{
    trace_text_reads(trace);
}

/// The first run of the trace of a seed with this many samples is whole: its record is valid, and each sample is taken and
/// none lost.
pub fn made_run_is_whole(trace: &Trace, seed: u64, samples: u32)
    requires few { samples ≤ MOST_SAMPLES }
    requires made { IsTraceOf seed samples (recording_of trace.now) }
    ensures { IsWholeRun samples (recording_of trace.now) }
{
    traces_are_fit(trace);
    runs_end_well();
    made_traces_fit(trace);
}

/// Where a run keeps the limits of a database after each of its parts, no bad file and no want of room stops it.
pub fn fitting_runs_do_not_stop()
    ensures { FittingRunsDoNotStop }
{
    growth_is_determined();
    heads_are_determined();
    growth_has_no_fault();
}
