//! A lane and its side, of which one thread plays both halves. Between two calls the daemon holds nothing.
ghost use Rattle.std.specs.Prelude.{◌≡◌, ◌*◌, ◌/◌, ◌%◌, ◌^◌, ◌≤◌, length, IfOk};
ghost use Rattle.driver_model.specs.Handover.{rung_of};
ghost use Rattle.driver_play.specs.Plays.{HaveMark};

use assoc_table::MOST_BUCKETS;
use cpu_lane::{Lane, Plan, Stats, Turn, running_has_room};
use driver_laws::invariant_is_kept;
use lane_side::{DaemonSide, PlainSide, PollOf};
use overflow_pair::MOST_BUFFER;
use sample_key::{Body, Entry, Loss, Marked};
use std::alloc::{AllocError, Global};
use std::marker::Model;

/// A lane and its side, of which one thread plays both halves.
#[derive(Drop)]
pub struct Play {
    lane: Lane,
    side: PlainSide,
    requests: usize,
}

impl Model for Play {
    ghost use Rattle.driver_play.specs.Plays.{Both, Plays};

    ghost Value = { Both };

    ghost view = { λ p. record { lane = p.lane; side = p.side; requests = p.requests } };

    ghost invariant = { λ p. Plays p.requests p.lane p.side };
}

impl Play {
    /// A new lane of processor 0 on a new side, with room for so many requests. All samples have this mark. It fails only
    /// for want of memory.
    pub fn new(
        alloc: Global,
        samples: Vec<Marked>,
        mark: u64,
        plan: Plan,
        requests: usize,
        buckets: usize,
    ) -> Result<Play, AllocError>
        requires few { length samples.items ≤ 2000000 }
        requires marks { HaveMark mark samples.items }
        requires last { (plan.last % 2 ≡ 1) × (plan.last ≤ 2 ^ 32) × (mark ≤ plan.last / 2) }
        requires requests { requests ≤ 65537 }
        requires buckets { (1 ≤ buckets) × (buckets ≤ MOST_BUCKETS) }
        requires buffer { (1 ≤ plan.buffer) × (plan.buffer ≤ MOST_BUFFER) }
        ensures { IfOk result (λ p. (p.requests ≡ requests) × (rung_of p.side.far.rungs ≡ 0)) }
    {
        let side = PlainSide::new(alloc, 0, &samples, requests, buckets, plan.buffer)?;
        let lane = Lane::new(alloc, 0, samples, plan)?;
        Ok(Play {
            lane,
            side,
            requests,
        })
    }

    /// A turn of the lane.
    #[inline]
    pub fn turn(&mut self) -> Turn
        ensures requests { self.new.requests ≡ self.old.requests }
        ensures rungs { self.new.side.far.rungs ≡ self.old.side.far.rungs }
    {
        running_has_room();
        self.lane.turn(&mut self.side)
    }

    /// Rings the bell.
    pub fn ring(&mut self, value: u64)
        requires later { rung_of self.old.side.far.rungs ≤ value }
        requires few { value ≤ 2 * self.old.requests }
        ensures requests { self.new.requests ≡ self.old.requests }
        ensures rungs { rung_of self.new.side.far.rungs ≡ value }
    {
        invariant_is_kept();
        self.side.ring(value);
    }

    /// Takes buffer b where it was handed, and gives it back empty; whether it was there.
    pub fn drain(&mut self, b: u8) -> bool
        requires { b ≤ 1 }
        ensures requests { self.new.requests ≡ self.old.requests }
        ensures rungs { self.new.side.far.rungs ≡ self.old.side.far.rungs }
    {
        invariant_is_kept();
        match self.side.poll_buffer(b) {
            PollOf::Parcel(parcel) => {
                let mut buffer = parcel.body;
                buffer.clear();
                self.side.return_buffer(b, buffer);
                true
            }
            PollOf::Home(_) => false,
        }
    }

    /// Takes buffer b where it was handed, appends its entries to `out`, and gives it back empty. It fails only for want of
    /// memory, and gives the buffer back even then.
    pub fn copy_buffer(&mut self, b: u8, out: &mut Vec<Entry>) -> Result<(), AllocError>
        requires { b ≤ 1 }
        ensures requests { self.new.requests ≡ self.old.requests }
        ensures rungs { self.new.side.far.rungs ≡ self.old.side.far.rungs }
    {
        invariant_is_kept();
        match self.side.poll_buffer(b) {
            PollOf::Parcel(parcel) => {
                let mut buffer = parcel.body;
                let copied = buffer.copy_to(out);
                buffer.clear();
                self.side.return_buffer(b, buffer);
                copied
            }
            PollOf::Home(_) => Ok(()),
        }
    }

    /// Takes the table where it was handed, appends its entries to `out`, and gives it back empty. It fails only for want
    /// of memory, and gives the table back even then.
    pub fn copy_table(&mut self, out: &mut Vec<Entry>) -> Result<(), AllocError>
        ensures requests { self.new.requests ≡ self.old.requests }
        ensures rungs { self.new.side.far.rungs ≡ self.old.side.far.rungs }
    {
        invariant_is_kept();
        match self.side.poll_table() {
            PollOf::Parcel(parcel) => {
                let mut table = parcel.body;
                let copied = table.copy_to(out);
                table.clear();
                self.side.return_table(table);
                copied
            }
            PollOf::Home(_) => Ok(()),
        }
    }

    /// How the samples so far were counted.
    pub fn stats(&self) -> Stats
        ensures { result ≡ self.now.lane.driver.stats }
    {
        self.lane.stats()
    }

    /// The samples that were lost, in order.
    pub fn into_losses(self) -> Vec<Loss>
        ensures { result.items ≡ self.lane.driver.losses }
    {
        let lane = self.lane;
        lane.into_losses()
    }
}
