//! A trace that was cut while it was read.

ghost use Rattle.std.specs.Prelude.{◌≡◌};
ghost use Rattle.trace_model.specs.Streams.{records_in, streams_in};
ghost use Rattle.trace_cut.specs.Cutting.{lanes_in};
ghost use Rattle.trace_lines.specs.Outlines.{outlined};

use crate::outlines::Outline;
use trace_cut::Streams;

/// A trace that was cut while it was read: its outline, and its samples and records in streams.
#[derive(Drop)]
pub struct CutTrace {
    /// What a run needs beside the streams.
    pub outline: Outline,
    /// The samples of each processor, and the records.
    pub streams: Streams,
    pub ghost lanes_are: { lanes_in streams.lanes.items ≡ streams_in (outlined outline) },
    pub ghost records_are: { streams.records.items ≡ records_in (outlined outline) },
}
