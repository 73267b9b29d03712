//! That a small run fits an empty database: a run of few images and parts, in one epoch, of which no place is counted too often.
#![tactic(auto)]

ghost use Rattle.small_runs.specs.Small.{SmallRunsFit};

/// A small run fits an empty database, part by part.
pub fn small_runs_fit()
    ensures { SmallRunsFit }
{}
