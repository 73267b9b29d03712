//! The command `make`: the summary of the run of a made trace, or the text of the trace. Two numbers determine it; no input is
//! read and no store is asked, and nothing but want of memory stops it.
ghost use Rattle.std.specs.Prelude.{◌≤◌, IfOk};
ghost use Rattle.sample_key.specs.declared.limits.TheConstants.{MOST_SAMPLES};
ghost use Rattle.dcpi_top.specs.declared.commands.Command.TheVariants as commands;
ghost use Rattle.dcpi_top.specs.Causes.{GivesText};
ghost use Rattle.dcpi_top.specs.Makes.{IsMadeAnswer};
ghost use Rattle.dcpi_top.specs.Streams.{Disk, Stream, IsUntouched};

use crate::refusals::Refusal;
use made_runs::{made_summary, made_text};
use std::alloc::{AllocError, Global};

/// The text of the trace of a seed with this many samples, or the summary of its run.
pub(crate) fn make_text(
    alloc: Global,
    seed: u64,
    samples: u32,
    trace: bool,
) -> Result<Vec<u8>, Refusal>
    requires { samples ≤ MOST_SAMPLES }
    ensures { (input : Stream) (disk : Disk) → IsUntouched input → IsUntouched disk →
        GivesText (λ text. text.items) (commands.Make seed samples trace) input disk result }
{
    let text = made_answer(alloc, seed, samples, trace)?;
    Ok(text)
}

fn made_answer(alloc: Global, seed: u64, samples: u32, trace: bool) -> Result<Vec<u8>, AllocError>
    requires { samples ≤ MOST_SAMPLES }
    ensures { IfOk result (λ text. IsMadeAnswer seed samples trace text.items) }
{
    if trace {
        made_text(alloc, seed, samples)
    } else {
        made_summary(alloc, seed, samples)
    }
}
