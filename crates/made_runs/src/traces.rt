//! A made trace, with what its text reads as.

ghost use Rattle.std.specs.Prelude.{◌≤◌, IfOk};
ghost use Rattle.sample_key.specs.declared.limits.TheConstants.{MOST_SAMPLES};
ghost use Rattle.trace_model.specs.Traces.{recording_of};
ghost use Rattle.generator_laws.specs.Made.{IsMade};
ghost use Rattle.made_runs.specs.FirstRuns.{IsTraceOf};

use crate::laws::said_traces_are_read;
use std::alloc::{AllocError, Global};
use trace_generator::make_trace;
use trace_model::Trace;

/// The trace of a seed with this many samples.
pub(crate) fn trace_of(alloc: Global, seed: u64, samples: u32) -> Result<Trace, AllocError>
    requires { samples ≤ MOST_SAMPLES }
    ensures of_seed { IfOk result (λ trace. IsTraceOf seed samples (recording_of trace)) }
    ensures made { IfOk result (λ trace. IsMade (recording_of trace)) }
{
    let trace = make_trace(alloc, seed, samples)?;
    said_traces_are_read(&trace);
    Ok(trace)
}
