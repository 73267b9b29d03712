//! The end of the lanes: the cells of each are closed, and it tells what it lost and counted.
ghost use Rattle.std.specs.Prelude.{◌≡◌, length, map, IfOk};
ghost use Rattle.lane_threads.specs.Pairs.{Pairwise};
ghost use Rattle.lane_threads.specs.Starting.{AreEndsOfOne, WereClosed};
ghost use Rattle.lane_threads.specs.Ending.{HasRoomFor};

use crate::works::Work;
use driver_model::Stats;
use sample_key::Loss;
use shared_side::{SharedDaemon, close_shared};
use std::alloc::{AllocError, Global};

/// What the lanes lost and counted, by processor.
#[derive(Drop)]
pub struct Ended {
    /// The losses of each, in order.
    pub losses: Vec<Vec<Loss>>,
    /// How the samples of each were counted.
    pub stats: Vec<Stats>,
}

impl Ended {
    /// Nothing yet, with room for so many processors.
    pub fn with_room(alloc: Global, count: usize) -> Result<Ended, AllocError>
        ensures { IfOk result (HasRoomFor count) }
    {
        Ok(Ended {
            losses: Vec::with_capacity(alloc, count)?,
            stats: Vec::with_capacity(alloc, count)?,
        })
    }
}

/// Closes the cells between these works and the daemon's sides, one by one, in their order. The
/// room has a place for each.
pub fn close_all(works: Vec<Work>, sides: Vec<SharedDaemon>, room: Ended) -> Ended
    requires ends { Pairwise AreEndsOfOne works.items sides.items }
    requires room { HasRoomFor (length works.items) room }
    ensures closed { Pairwise WereClosed works.items sides.items }
    ensures losses { map (λ v. v.items) result.losses.items
        ≡ map (λ w. w.lane.driver.losses) works.items }
    ensures stats { result.stats.items ≡ map (λ w. w.lane.driver.stats) works.items }
{
    let mut ended = room;
    let mut sides = sides.into_iter();
    for work in works {
        let Some(side) = sides.next() else {
            unreachable!()
        };
        let (losses, stats) = close_one(work, side);
        ended.losses.push_reserved(losses);
        ended.stats.push_reserved(stats);
    }
    ended
}

// Closes the cells between a work and the daemon's side.
fn close_one(work: Work, side: SharedDaemon) -> (Vec<Loss>, Stats)
    requires { AreEndsOfOne work side }
    ensures closed { WereClosed work side }
    ensures losses { result.0.items ≡ work.lane.driver.losses }
    ensures stats { result.1 ≡ work.lane.driver.stats }
{
    let Work {
        cpu: _,
        lane,
        side: end,
    } = work;
    let _words = close_shared(end, side);
    let stats = lane.stats();
    (lane.into_losses(), stats)
}
