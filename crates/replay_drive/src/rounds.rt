//! Many steps of a replay: those of a schedule, and rounds.
ghost use Rattle.std.specs.Prelude.{◌≡◌};
ghost use Rattle.replay_drive.specs.Replaying.{IsUnderWay, StoresSteps, TakesSteps, repeated};

use crate::replays::Replay;
use std::alloc::Global;
use store_io::Store;
use trace_model::Step;

impl Replay<'_> {
    /// Takes these steps, one after the other.
    pub fn steps<D: Store>(&mut self, alloc: Global, steps: &[Step], store: &mut D)
        requires { IsUnderWay self.old }
        ensures taken { TakesSteps self.old self.new steps.now }
        ensures stores { StoresSteps D.files D.faults D.moment D.left_since self.old self.new
            store.old store.new steps.now }
        ensures origin { D.origin store.new ≡ D.origin store.old }
    {
        for step in steps {
            self.step(alloc, *step, store);
        }
    }

    /// Takes the steps of a round so many times, or until the run is finished.
    pub fn rounds<D: Store>(&mut self, alloc: Global, round: &[Step], count: u64, store: &mut D)
        requires { IsUnderWay self.old }
        ensures taken { TakesSteps self.old self.new (repeated count round.now) }
        ensures stores { StoresSteps D.files D.faults D.moment D.left_since self.old self.new
            store.old store.new (repeated count round.now) }
        ensures origin { D.origin store.new ≡ D.origin store.old }
    {
        for _ in 0..count {
            if self.finished {
                return;
            }
            self.steps(alloc, round, store);
        }
    }
}
