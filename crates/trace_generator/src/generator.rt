//! Makes a trace: `make_trace` puts the mappings, then each sample with the records that follow it.

ghost use Rattle.std.specs.Prelude.{◌≡◌, ◌<◌, ◌≤◌, ◌++◌, [], OnOk, IfOk};
ghost use Rattle.sample_key.specs.declared.limits.TheConstants.{MOST_SAMPLES};
ghost use Rattle.trace_model.specs.Recording.{record_said, said_in};
ghost use Rattle.trace_model.specs.Traces.{recording_of};
ghost use Rattle.trace_generator.specs.Generator.{every_so_often, image_names, made_trace, records_after, samples_to};
ghost use Rattle.trace_generator.specs.Making.{said_of};

use crate::draws::Draws;
use crate::mappings::{MAPPINGS, images, put_mappings};
use std::alloc::{AllocError, Global};
use trace_model::{Line, MOST_BUCKETS, MOST_ENTRIES, Record, Trace};

/// After how many samples the daemon is asked for a flush.
const SAMPLES_A_DRAIN: u32 = 10_000;

/// After how many samples what was gathered is committed.
const SAMPLES_A_MERGE: u32 = 100_000;

/// How many processors a made trace has.
const CPUS: u32 = 4;

/// The trace of a seed with this many samples, at most 2,000,000: 4 processors, 4,096 buckets, buffers of 8,192 entries,
/// and no schedule. Its processes, images and addresses are always the same; the samples are drawn.
pub fn make_trace(alloc: Global, seed: u64, samples: u32) -> Result<Trace, AllocError>
    requires { samples ≤ MOST_SAMPLES }
    ensures made { IfOk result (λ trace.
        said_in (recording_of trace) ≡ made_trace seed samples) }
    ensures images { IfOk result (λ trace. trace.images.items ≡ image_names) }
    ensures unscheduled { IfOk result (λ trace. trace.schedule.items ≡ []) }
{
    let images = images(alloc)?;
    let mut lines = Vec::with_capacity(alloc, lines_of(samples))?;
    put_mappings(&mut lines)?;
    put_samples(&mut lines, seed, samples)?;
    Ok(Trace {
        cpus: CPUS,
        buckets: MOST_BUCKETS,
        buffer: MOST_ENTRIES,
        images,
        lines,
        schedule: Vec::new(alloc),
    })
}

// How many lines the samples and records are.
fn lines_of(samples: u32) -> usize
    requires { samples ≤ MOST_SAMPLES }
{
    let drains = samples / SAMPLES_A_DRAIN;
    let merges = samples / SAMPLES_A_MERGE;
    MAPPINGS + (samples + drains + merges) as usize
}

fn put_samples(lines: &mut Vec<Line>, seed: u64, samples: u32) -> Result<(), AllocError>
    requires { samples ≤ MOST_SAMPLES }
    ensures { OnOk result (said_of lines.new.items ≡
        said_of lines.old.items ++ samples_to seed samples) }
{
    let mut draws = Draws { state: seed };
    for before in 0..samples {
        lines.push(draws.sample())?;
        put_records(lines, before + 1)?;
    }
    Ok(())
}

// Appends the records that follow the sample of this number.
fn put_records(lines: &mut Vec<Line>, number: u32) -> Result<(), AllocError>
    ensures { OnOk result (said_of lines.new.items ≡
        said_of lines.old.items ++ records_after number) }
{
    put_at(lines, number, SAMPLES_A_DRAIN, Record::Drain)?;
    put_at(lines, number, SAMPLES_A_MERGE, Record::Merge)
}

// Appends a record where the number is a multiple of the period.
fn put_at(lines: &mut Vec<Line>, number: u32, period: u32, notice: Record) -> Result<(), AllocError>
    requires { 0 < period }
    ensures { OnOk result (said_of lines.new.items ≡ said_of lines.old.items
        ++ every_so_often period (record_said image_names notice) number) }
{
    if number % period == 0 {
        lines.push(Line::Rec(notice))?;
    }
    Ok(())
}
