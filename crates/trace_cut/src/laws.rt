//! The law of the streams of every trace.

ghost use Rattle.std.specs.Prelude.{◌≤◌, length};
ghost use Rattle.trace_model.specs.declared.limits.TheConstants.{MOST_RECORDS};
ghost use Rattle.trace_model.specs.Streams.{records_in};
ghost use Rattle.trace_model.specs.Traces.{recording_of};
ghost use Rattle.trace_laws.specs.Kept.{HasSizes};
ghost use Rattle.trace_cut.specs.Cutting.{HasStreams};

use trace_laws::{limits_are_kept, sizes_are_kept};
use trace_model::Trace;

/// In each stream of a trace the marks never fall and are at most the number of records, and it has at most 2,000,000
/// samples; there are at most 65,536 records, 1 to 16 processors, and tables and buffers that hold something.
pub fn streams_are_in_order(trace: &Trace)
    ensures samples { HasStreams (recording_of trace.now) }
    ensures records { length (records_in (recording_of trace.now)) ≤ MOST_RECORDS }
    ensures sizes { HasSizes (recording_of trace.now) }
{
    limits_are_kept(trace);
    sizes_are_kept(trace);
}
