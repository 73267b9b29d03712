//! A lane with its shared side, which go through a run together.
ghost use Rattle.std.specs.Prelude.{◌≡◌, true};
ghost use Rattle.lane_threads.specs.declared.works.Next.TheVariants.{End};
ghost use Rattle.lane_threads.specs.Working.{Turned, next_after};

use cpu_lane::{Lane, Turn};
use shared_side::SharedLane;
use std::marker::Model;

/// A lane and its side, and the number of their processor, by which a gate knows them. Contracts
/// see the lane and the side; the driver's invariant holds of them.
#[derive(Drop)]
pub struct Work {
    pub(crate) cpu: u32,
    pub(crate) lane: Lane,
    pub(crate) side: SharedLane,
}

impl Model for Work {
    ghost use Rattle.lane_threads.specs.Working.{Working, IsWorking};

    ghost Value = { Working };

    ghost view = { λ w. record { lane = w.lane; side = w.side } };

    ghost invariant = { λ w. IsWorking w.lane w.side };
}

/// What follows a turn. It carries nothing of the answer, since a thread takes millions of turns and what a lane lost is in the lane.
#[derive(Clone, Copy, Debug, PartialEq, Eq)]
pub enum Next {
    /// The end: the close was answered.
    End,
    /// A short wait: there was nothing to do.
    Rest,
    /// The next turn.
    GoOn,
}

impl Work {
    /// A turn of the lane on its side, over the words that it reads there, and what follows it.
    pub fn turn(&mut self) -> Next
        ensures turn { Turned self.old result self.new }
        ensures done { result ≡ End → self.new.lane.driver.done ≡ true }
    {
        next_after(&self.lane.turn(&mut self.side))
    }
}

// What follows a turn with this answer.
fn next_after(answer: &Turn) -> Next
    ensures { result ≡ next_after answer.now }
{
    match answer {
        Turn::Took => Next::GoOn,
        Turn::Lost(_) => Next::GoOn,
        Turn::Answered => Next::GoOn,
        Turn::Held => Next::Rest,
        Turn::Idle => Next::Rest,
        Turn::Done => Next::End,
    }
}
