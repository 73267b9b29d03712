//! What a trace keeps, as a run sees it.

ghost use Rattle.run_laws.specs.Laws.{IsFit};
ghost use Rattle.trace_laws.specs.Kept.{HasSizes, KeepsLimits, KeepsRanges, PlacesHaveImages};
ghost use Rattle.trace_outline.specs.Views.{viewed};

use crate::views::TraceView;

/// The trace has 1 to 16 processors, and tables and buffers that hold something; at most 2,000,000 samples, 65,536 records,
/// 1,024 records that end a part, and 4,000,000 steps; each record has the ranges of the format; and each place that the
/// records give an address is in one of its images.
pub fn views_keep_limits(view: &TraceView<'_>)
    ensures sizes { HasSizes (viewed view.now) }
    ensures limits { KeepsLimits (viewed view.now) }
    ensures ranges { KeepsRanges (viewed view.now) }
    ensures places { PlacesHaveImages (viewed view.now) }
{}

/// The trace is within the limits that a run rests on.
pub fn views_are_fit(view: &TraceView<'_>)
    ensures { IsFit (viewed view.now) }
{}
