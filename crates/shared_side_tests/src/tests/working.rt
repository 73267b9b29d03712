//! A lane with its shared side: its turns keep what a turn asks.
ghost use Rattle.std.specs.Prelude.{◌≡◌, ◌%◌, ◌^◌, ◌≤◌, [], length, IfOk};
ghost use Rattle.sample_key.specs.declared.limits.TheConstants.{LAST_CPU, MOST_SAMPLES};
ghost use Rattle.driver_play.specs.Plays.{HaveMark};
ghost use Rattle.shared_side_tests.specs.Rounds.{IsPolledEvenly};

use assoc_table::MOST_BUCKETS;
use cpu_lane::{Lane, Plan, Stats, Turn};
use overflow_pair::MOST_BUFFER;
use sample_key::{Loss, Marked};
use shared_side::{SharedDaemon, SharedLane, close_shared, shared};
use std::alloc::{AllocError, Global};
use std::marker::Model;

/// A lane and its side.
#[derive(Drop)]
pub struct Work {
    lane: Lane,
    side: SharedLane,
}

impl Model for Work {
    ghost use Rattle.shared_side_tests.specs.Working.{Working, IsWorking};

    ghost Value = { Working };

    ghost view = { λ w. record { lane = w.lane; side = w.side } };

    ghost invariant = { λ w. IsWorking w.lane w.side };
}

impl Work {
    /// A new lane with its side, and the daemon's side. No record stands before a sample.
    pub fn new(
        alloc: Global,
        cpu: u32,
        samples: Vec<Marked>,
        plan: Plan,
        buckets: usize,
    ) -> Result<(Work, SharedDaemon), AllocError>
        requires cpu { cpu ≤ LAST_CPU }
        requires few { length samples.items ≤ MOST_SAMPLES }
        requires marks { HaveMark 0 samples.items }
        requires last { (plan.last % 2 ≡ 1) × (plan.last ≤ 2 ^ 32) }
        requires buckets { (1 ≤ buckets) × (buckets ≤ MOST_BUCKETS) }
        requires buffer { (1 ≤ plan.buffer) × (plan.buffer ≤ MOST_BUFFER) }
        ensures ends { IfOk result (λ w. w.0.side.fixed.ends ≡ w.1.fixed.ends) }
        ensures polled { IfOk result (λ w. IsPolledEvenly w.1.seen w.1.far) }
        ensures rungs { IfOk result (λ w. w.1.far.rungs ≡ []) }
    {
        let (side, daemon) = shared(alloc, cpu, &samples, buckets, plan.buffer)?;
        let lane = Lane::new(alloc, cpu, samples, plan)?;
        Ok((Work { lane, side }, daemon))
    }

    /// A turn of the lane.
    pub fn turn(&mut self) -> Turn
        ensures { self.new.side.fixed ≡ self.old.side.fixed }
    {
        self.lane.turn(&mut self.side)
    }

    /// Closes both sides: the words, how the samples were counted, and which were lost.
    pub fn close(self, daemon: SharedDaemon) -> ([u64; 3], Stats, Vec<Loss>)
        requires { self.side.fixed.ends ≡ daemon.fixed.ends }
    {
        let Work { lane, side } = self;
        let words = close_shared(side, daemon);
        let stats = lane.stats();
        (words, stats, lane.into_losses())
    }
}
