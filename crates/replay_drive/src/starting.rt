//! The drivers and sides of all processors at the start.
ghost use Rattle.std.specs.Prelude.{◌≡◌, ◌<◌, length, IfOk};
ghost use Rattle.sample_key.specs.declared.losses.Pace.TheVariants.{Free};
ghost use Rattle.trace_model.specs.Streams.{stream_of, streams_in, records_in};
ghost use Rattle.run_model.specs.Running.{new_processor};
ghost use Rattle.trace_cut.specs.Cutting.{lanes_in};
ghost use Rattle.trace_outline.specs.Views.{viewed};
ghost use Rattle.replay_drive.specs.Players.{AllStart, StartsAt};

use cpu_lane::{Lane, Plan};
use lane_side::PlainSide;
use sample_key::{Marked, Pace};
use std::alloc::{AllocError, Global};
use std::mem;
use trace_outline::{TraceView, views_are_fit, views_keep_limits};

/// The lane and the side of a processor of a trace with these samples and so many records.
pub fn new_player(
    alloc: Global,
    trace: &TraceView<'_>,
    records: usize,
    cpu: u32,
    samples: Vec<Marked>,
) -> Result<(Lane, PlainSide), AllocError>
    requires cpu { cpu < (viewed trace.now).cpus }
    requires records { records ≡ length (records_in (viewed trace.now)) }
    requires samples { samples.items ≡ stream_of cpu (viewed trace.now) }
    ensures { IfOk result (λ player.
        StartsAt Free (viewed trace.now) cpu player.0 player.1) }
{
    views_are_fit(trace);
    views_keep_limits(trace);
    let plan = Plan {
        pace: Pace::Free,
        last: 2 * records as u64 + 1,
        buffer: trace.buffer() as usize,
    };
    let buckets = trace.buckets() as usize;
    let side = PlainSide::new(alloc, cpu, &samples, records + 1, buckets, plan.buffer)?;
    let lane = Lane::new(alloc, cpu, samples, plan)?;
    Ok((lane, side))
}

/// The lanes and the sides of all processors of a trace, by number.
#[derive(Drop)]
pub struct Players {
    /// The lanes.
    pub lanes: Vec<Lane>,
    /// The side of each.
    pub sides: Vec<PlainSide>,
}

/// The lanes and the sides of a trace with these streams of samples and so many records.
pub fn new_players(
    alloc: Global,
    trace: &TraceView<'_>,
    records: usize,
    streams: Vec<Vec<Marked>>,
) -> Result<Players, AllocError>
    requires records { records ≡ length (records_in (viewed trace.now)) }
    requires streams { lanes_in streams.items ≡ streams_in (viewed trace.now) }
    ensures { IfOk result (λ players.
        AllStart Free (viewed trace.now) (viewed trace.now).cpus players.lanes.items players.sides.items) }
{
    let mut streams = streams;
    let mut players = Players {
        lanes: Vec::new(alloc),
        sides: Vec::new(alloc),
    };
    for cpu in 0..trace.cpus() {
        let samples = mem::replace(&mut streams[cpu as usize], Vec::new(alloc));
        let (lane, side) = new_player(alloc, trace, records, cpu, samples)?;
        players.lanes.push(lane)?;
        players.sides.push(side)?;
    }
    Ok(players)
}
