//! The summary of the run of a made trace, and its text.

ghost use Rattle.std.specs.Prelude.{◌≤◌, IfOk};
ghost use Rattle.sample_key.specs.declared.limits.TheConstants.{MOST_SAMPLES};
ghost use Rattle.made_runs.specs.FirstRuns.{IsMadeSummary, IsMadeText, IsSummaryOfRead};

use crate::laws::made_run_is_whole;
use crate::runs::run_text;
use crate::traces::trace_of;
use std::alloc::{AllocError, Global};
use trace_text::text_of;

/// The summary of the run of the trace of a seed with this many samples, at most 2,000,000, as the first one into an empty
/// database: run 1, from epoch 0. No sample is lost, so its last line begins `total taken SAMPLES` and ends `lost 0`.
pub fn made_summary(alloc: Global, seed: u64, samples: u32) -> Result<Vec<u8>, AllocError>
    requires { samples ≤ MOST_SAMPLES }
    ensures made { IfOk result (λ text. IsMadeSummary seed samples text.items) }
    ensures read_back { IfOk result (λ text. IsSummaryOfRead seed samples text.items) }
{
    let trace = trace_of(alloc, seed, samples)?;
    made_run_is_whole(&trace, seed, samples);
    let text = run_text(alloc, trace)?;
    Ok(text)
}

/// The text of the trace of a seed with this many samples, at most 2,000,000, with the long form of the header. It reads as
/// this very trace, and as no other.
pub fn made_text(alloc: Global, seed: u64, samples: u32) -> Result<Vec<u8>, AllocError>
    requires { samples ≤ MOST_SAMPLES }
    ensures { IfOk result (λ text. IsMadeText seed samples text.items) }
{
    let trace = trace_of(alloc, seed, samples)?;
    let text = text_of(alloc, &trace)?;
    Ok(text)
}
