//! A replay, step by step: a turn of one lane, a poll of one cell, an advance of the daemon.
ghost use Rattle.std.specs.Prelude.{◌≡◌, false};
ghost use Rattle.trace_model.specs.Recording.{Recording};
ghost use Rattle.replay_drive.specs.Standing.{ends_run};
ghost use Rattle.driver_laws.specs.Turns.{StartKeeps, TurnKeeps, PollsKeep, BellIsHeard};
ghost use Rattle.driver_laws.specs.Doings.{TurnDid};
ghost use Rattle.dcpid_core.specs.Counting.{AdvancesAsTheRun, CountsAgree};
ghost use Rattle.trace_model.specs.declared.notices.Step.TheVariants as steps;
ghost use Rattle.replay_drive.specs.Replaying.{IsUnderWay, LeavesStore, StoresStep, TakesStep};

use crate::players::turn_at;
use cpu_lane::Lane;
use dcpid_core::{Daemon, advances_are_the_runs, counts_agree};
use driver_laws::{bell_is_heard, invariant_is_kept, turns_hand_batches};
use lane_side::PlainSide;
use run_model::Advanced;
use sample_key::LAST_CELL;
use std::alloc::Global;
use store_io::Store;
use trace_model::Step;

/// A replay under way: the lanes and the sides of all processors, by number, and the daemon.
#[derive(Drop)]
pub struct Replay<'a> {
    pub(crate) lanes: Vec<Lane>,
    pub(crate) sides: Vec<PlainSide>,
    pub(crate) daemon: Daemon<'a>,
    pub(crate) finished: bool,
}

impl Replay<'_> {
    /// One step of a schedule. Once the run is finished nothing happens any more.
    pub fn step<D: Store>(&mut self, alloc: Global, step: Step, store: &mut D)
        requires { IsUnderWay self.old }
        ensures taken { TakesStep self.old self.new step }
        ensures stores { StoresStep D.files D.faults D.moment D.left_since self.old self.new
            store.old store.new step }
        ensures origin { D.origin store.new ≡ D.origin store.old }
    {
        if self.finished {
            return;
        }
        match step {
            Step::Lane { cpu } => self.turn(cpu),
            Step::Poll { cpu, cell } => self.poll(alloc, cpu, cell),
            Step::Advance => self.advance(alloc, store),
        }
    }

    // A turn of the lane of this processor.
    fn turn(&mut self, cpu: u32)
        requires taken { IsUnderWay self.old }
        requires going { self.old.finished ≡ false }
        ensures taken { TakesStep self.old self.new (steps.Lane cpu) }
        ensures daemon { self.new.daemon ≡ self.old.daemon }
    {
        laws();
        turn_at(&mut self.lanes, &mut self.sides, cpu);
    }

    // A poll of this cell of this processor.
    fn poll(&mut self, alloc: Global, cpu: u32, cell: u8)
        requires taken { IsUnderWay self.old }
        requires going { self.old.finished ≡ false }
        ensures taken { TakesStep self.old self.new (steps.Poll cpu cell) }
        ensures leaves { (trace : Recording) → self.old.daemon.trace ≡ trace →
            LeavesStore trace self.old.daemon self.new.daemon }
    {
        laws();
        let at = cpu as usize;
        if at >= self.sides.len() {
            return;
        }
        let _polled = self
            .daemon
            .poll(alloc, cpu, cell.min(LAST_CELL), &mut self.sides[at]);
    }

    // An advance of the daemon.
    fn advance<D: Store>(&mut self, alloc: Global, store: &mut D)
        requires taken { IsUnderWay self.old }
        requires going { self.old.finished ≡ false }
        ensures taken { TakesStep self.old self.new steps.Advance }
        ensures stores { StoresStep D.files D.faults D.moment D.left_since self.old self.new
            store.old store.new steps.Advance }
        ensures origin { D.origin store.new ≡ D.origin store.old }
    {
        laws();
        let answer = self.daemon.advance(alloc, &mut self.sides, store);
        self.finished = is_finished(&answer);
    }
}

// Whether an advance ended the run.
fn is_finished(answer: &Advanced) -> bool
    ensures { result ≡ ends_run answer.now }
{
    match answer {
        Advanced::Moved => false,
        Advanced::Opened => false,
        Advanced::Waiting { cpu: _ } => false,
        Advanced::Finished => true,
    }
}

// The laws of the definitions that a step cites.
pub(crate) fn laws()
    ensures start { StartKeeps }
    ensures turn { TurnKeeps }
    ensures polls { PollsKeep }
    ensures heard { BellIsHeard }
    ensures did { TurnDid }
    ensures advances { AdvancesAsTheRun }
    ensures counts { CountsAgree }
{
    invariant_is_kept();
    bell_is_heard();
    turns_hand_batches();
    advances_are_the_runs();
    counts_agree();
}
