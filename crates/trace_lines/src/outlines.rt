//! The outline of a trace: its sizes, its images and its schedule, in memory, and its lines as clauses see them.

ghost use Rattle.trace_model.specs.Recording.{AreGood, InOrder};

use text_num::Name;
use told_list::Told;
use trace_model::{Line, Step, Trace};

/// The outline of a trace: what a run needs beside the samples and the records.
#[derive(Drop)]
pub struct Outline {
    /// How many processors, 1 to 16.
    pub cpus: u32,
    /// How many buckets a table has, a power of two from 1 to 4,096.
    pub buckets: u32,
    /// How many entries a buffer holds, 1 to 8,192.
    pub buffer: u32,
    /// The images, which records name by their index here.
    pub images: Vec<Name>,
    /// The samples and records, which take no memory here.
    pub lines: Told<Line>,
    /// The steps of a replay, in order.
    pub schedule: Vec<Step>,
    pub ghost good: { AreGood cpus buckets buffer images.items lines.items schedule.items },
    pub ghost in_order: { InOrder cpus buckets buffer images.items lines.items schedule.items },
}

impl Outline {
    ghost use Rattle.std.specs.Prelude.{◌≡◌};
    ghost use Rattle.trace_model.specs.Traces.{recording_of};
    ghost use Rattle.trace_lines.specs.Outlines.{outlined};

    /// The outline of a trace, whose lines are given back to the allocator.
    pub fn of(trace: Trace) -> Outline
        ensures { outlined result ≡ recording_of trace }
    {
        Outline {
            cpus: trace.cpus,
            buckets: trace.buckets,
            buffer: trace.buffer,
            images: trace.images,
            lines: Told::all(&trace.lines),
            schedule: trace.schedule,
        }
    }
}
