//! That every trace is one that the laws speak of.
ghost use Rattle.trace_model.specs.Traces.{recording_of};
ghost use Rattle.run_laws.specs.Laws.{IsFit};

use trace_cut::streams_are_in_order;
use trace_laws::{limits_are_kept, processors_are_there};
use trace_model::Trace;

/// Every trace is within the limits that a run rests on.
pub fn traces_are_fit(trace: &Trace)
    ensures { IsFit (recording_of trace.now) }
{
    streams_are_in_order(trace);
    limits_are_kept(trace);
    processors_are_there(trace);
}
