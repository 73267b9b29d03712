//! The exact pace: no sample is lost, each flush goes up to just the samples that were due, and so the record counts each
//! place as often as samples of the trace lie there, each by the records that stand before it.
#![tactic(auto)]

ghost use Rattle.run_exact.specs.Exact.{ExactRunsArePlain, JoinsAreExact};

/// A valid record of the exact pace counts plainly, where nothing was lost and each flush goes up to what was due.
pub fn exact_runs_are_plain()
    ensures { ExactRunsArePlain }
{}

/// A joined run of the exact pace has such a record.
pub fn joins_are_exact()
    ensures { JoinsAreExact }
{}
