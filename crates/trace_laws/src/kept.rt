//! Laws of every trace: what its own facts give to the crates that work on one.

ghost use Rattle.trace_model.specs.Traces.{recording_of};
ghost use Rattle.trace_laws.specs.Kept.{HasSizes, KeepsLimits, KeepsRanges, NamesProcessors, PlacesHaveImages};

use trace_model::Trace;

/// A trace has 1 to 16 processors, and its tables and buffers hold something.
pub fn sizes_are_kept(trace: &Trace)
    ensures { HasSizes (recording_of trace.now) }
{}

/// A trace has at most 2,000,000 samples, 65,536 records, 1,024 records that end a part, and 4,000,000 steps.
pub fn limits_are_kept(trace: &Trace)
    ensures { KeepsLimits (recording_of trace.now) }
{}

/// Each record of a trace has the ranges of the format, its base and length are multiples of 4, and its image has a name.
pub fn ranges_are_kept(trace: &Trace)
    ensures { KeepsRanges (recording_of trace.now) }
{}

/// Each sample and each step of a trace is of one of its processors.
pub fn processors_are_there(trace: &Trace)
    ensures { NamesProcessors (recording_of trace.now) }
{}

/// Each place that a trace's records give an address, at any moment, is in one of its images.
pub fn places_have_images(trace: &Trace)
    ensures { PlacesHaveImages (recording_of trace.now) }
{
    ranges_are_kept(trace);
}
