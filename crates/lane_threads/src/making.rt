//! The lanes and the sides of all processors at the start.
ghost use Rattle.std.specs.Prelude.{◌≡◌, ◌<◌, length, IfOk};
ghost use Rattle.trace_model.specs.Streams.{stream_of, streams_in, records_in};
ghost use Rattle.trace_cut.specs.Cutting.{lanes_in};
ghost use Rattle.trace_outline.specs.Views.{viewed};
ghost use Rattle.lane_threads.specs.Starting.{AllStart, StartsAt};

use crate::works::Work;
use cpu_lane::{Lane, Plan};
use sample_key::{Marked, Pace};
use shared_side::{SharedDaemon, shared};
use std::alloc::{AllocError, Global};
use trace_outline::{TraceView, views_are_fit, views_keep_limits};

/// The lane and both sides of a processor of a trace with these samples and so many records.
pub fn new_pair(
    alloc: Global,
    trace: &TraceView<'_>,
    pace: Pace,
    records: usize,
    cpu: u32,
    samples: Vec<Marked>,
) -> Result<(Work, SharedDaemon), AllocError>
    requires cpu { cpu < (viewed trace.now).cpus }
    requires records { records ≡ length (records_in (viewed trace.now)) }
    requires samples { samples.items ≡ stream_of cpu (viewed trace.now) }
    ensures { IfOk result (λ pair.
        StartsAt pace (viewed trace.now) cpu pair.0 pair.1) }
{
    views_are_fit(trace);
    views_keep_limits(trace);
    let plan = Plan {
        pace,
        last: 2 * records as u64 + 1,
        buffer: trace.buffer() as usize,
    };
    let (side, daemon) = shared(alloc, cpu, &samples, trace.buckets() as usize, plan.buffer)?;
    let lane = Lane::new(alloc, cpu, samples, plan)?;
    Ok((Work { cpu, lane, side }, daemon))
}

/// The lanes with their sides, and the daemon's sides, by the processors' numbers.
#[derive(Drop)]
pub struct Pairs {
    /// The lanes, each with its side.
    pub works: Vec<Work>,
    /// The daemon's sides.
    pub sides: Vec<SharedDaemon>,
}

/// Those of a trace with these streams of samples and so many records.
pub fn new_pairs(
    alloc: Global,
    trace: &TraceView<'_>,
    pace: Pace,
    records: usize,
    streams: Vec<Vec<Marked>>,
) -> Result<Pairs, AllocError>
    requires records { records ≡ length (records_in (viewed trace.now)) }
    requires streams { lanes_in streams.items ≡ streams_in (viewed trace.now) }
    ensures count { IfOk result (λ pairs. length pairs.works.items ≡ (viewed trace.now).cpus) }
    ensures start { IfOk result (λ pairs.
        AllStart pace (viewed trace.now) 0 pairs.works.items pairs.sides.items) }
{
    let mut streams = streams.into_iter();
    let mut pairs = Pairs {
        works: Vec::new(alloc),
        sides: Vec::new(alloc),
    };
    for cpu in 0..trace.cpus() {
        let Some(samples) = streams.next() else {
            unreachable!()
        };
        let (work, side) = new_pair(alloc, trace, pace, records, cpu, samples)?;
        pairs.works.push(work)?;
        pairs.sides.push(side)?;
    }
    Ok(pairs)
}
