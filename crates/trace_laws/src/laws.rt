//! What is written reads as what was written.

ghost use Rattle.trace_model.specs.Recording.{Reads, trace_text};
ghost use Rattle.trace_model.specs.Traces.{recording_of};
ghost use Rattle.trace_laws.specs.Readings.{ReadsAlone};

use text_num::one_spelling;
use trace_model::Trace;

/// The text of a trace in the long form reads as this very trace, and as no other.
pub fn trace_text_reads(trace: &Trace)
    ensures reads { Reads (trace_text (recording_of trace.now)) (recording_of trace.now) }
    ensures alone { ReadsAlone (recording_of trace.now) }
{
    one_spelling();
}
