//! A trace as a run sees it beside its samples and records: the whole trace, or the outline of one whose lines are gone.

ghost use Rattle.std.specs.Prelude.{◌≡◌};
ghost use Rattle.trace_outline.specs.Views.{viewed};

use text_num::Name;
use trace_lines::Outline;
use trace_model::{Step, Trace};

/// A trace that is borrowed for a run, whole or in outline.
#[derive(Clone, Copy)]
pub enum TraceView<'a> {
    /// The whole trace.
    Whole(&'a Trace),
    /// The outline of a trace whose lines were given back.
    Outline(&'a Outline),
}

impl<'a> TraceView<'a> {
    /// How many processors, 1 to 16.
    pub fn cpus(&self) -> u32
        ensures { result ≡ (viewed self.now).cpus }
    {
        match self {
            TraceView::Whole(trace) => trace.cpus,
            TraceView::Outline(outline) => outline.cpus,
        }
    }

    /// How many buckets a table has, a power of two from 1 to 4,096.
    pub fn buckets(&self) -> u32
        ensures { result ≡ (viewed self.now).buckets }
    {
        match self {
            TraceView::Whole(trace) => trace.buckets,
            TraceView::Outline(outline) => outline.buckets,
        }
    }

    /// How many entries a buffer holds, 1 to 8,192.
    pub fn buffer(&self) -> u32
        ensures { result ≡ (viewed self.now).buffer }
    {
        match self {
            TraceView::Whole(trace) => trace.buffer,
            TraceView::Outline(outline) => outline.buffer,
        }
    }

    /// The images, which records name by their index here.
    pub fn images(&self) -> &'a [Name]
        ensures { result.now ≡ (viewed self.now).images }
    {
        match self {
            TraceView::Whole(trace) => &trace.images,
            TraceView::Outline(outline) => &outline.images,
        }
    }

    /// The steps of a replay, in order.
    pub fn schedule(&self) -> &'a [Step]
        ensures { result.now ≡ (viewed self.now).schedule }
    {
        match self {
            TraceView::Whole(trace) => &trace.schedule,
            TraceView::Outline(outline) => &outline.schedule,
        }
    }
}
