//! The end of a replay: what each driver lost and counted, and the daemon's record.
ghost use Rattle.std.specs.Prelude.{◌≡◌, ℕ, List, IfOk, None, map};
ghost use Rattle.trace_model.specs.Recording.{Recording};
ghost use Rattle.trace_model.specs.declared.notices.Step.{Step as Doing};
ghost use Rattle.replay_drive.specs.Ending.{AnswersRun, EndsStore, HasEnded};

use crate::replays::{Replay, laws};
use cpu_lane::Lane;
use database_state::DbFault;
use dcpid_core::Outcome;
use driver_model::Stats;
use run_laws::records_can_be_stored;
use sample_key::Loss;
use std::alloc::{AllocError, Global};
use store_io::Store;

// What the drivers lost and counted, by processor.
#[derive(Drop)]
pub(crate) struct Ended {
    pub(crate) losses: Vec<Vec<Loss>>,
    pub(crate) stats: Vec<Stats>,
}

// What these lanes lost and counted.
pub(crate) fn ended_lanes(alloc: Global, lanes: Vec<Lane>) -> Result<Ended, AllocError>
    ensures losses { IfOk result (λ e.
        map (λ v. v.items) e.losses.items ≡ map (λ l. l.driver.losses) lanes.items) }
    ensures stats { IfOk result (λ e.
        e.stats.items ≡ map (λ l. l.driver.stats) lanes.items) }
{
    let mut losses = Vec::with_capacity(alloc, lanes.len())?;
    let mut stats = Vec::with_capacity(alloc, lanes.len())?;
    for lane in lanes {
        stats.push(lane.stats())?;
        losses.push(lane.into_losses())?;
    }
    Ok(Ended { losses, stats })
}

impl Replay<'_> {
    /// Ends a replay whose run is finished: answers the fault that the daemon keeps, or has it commit the rest, and answers the
    /// record of the run with what the drivers counted.
    pub fn end<D: Store>(self, alloc: Global, store: &mut D) -> Result<Outcome, DbFault>
        requires { (trace : Recording) × (run : ℕ) × (first_epoch : ℕ) × (steps : List Doing)
            × HasEnded trace run first_epoch steps self }
        ensures run { IfOk result (AnswersRun self.entry) }
        ensures stores { EndsStore D.files D.faults D.moment D.left_since self.entry
            store.old store.new result }
        ensures origin { D.origin store.new ≡ D.origin store.old }
    {
        match self.daemon.failed() {
            Some(fault) => Err(fault),
            None => self.commit_rest(alloc, store),
        }
    }

    // Has the daemon commit the rest; it keeps no fault.
    fn commit_rest<D: Store>(self, alloc: Global, store: &mut D) -> Result<Outcome, DbFault>
        requires ended { (trace : Recording) × (run : ℕ) × (first_epoch : ℕ) × (steps : List Doing)
            × HasEnded trace run first_epoch steps self }
        requires fine { self.daemon.failure ≡ None }
        ensures run { IfOk result (AnswersRun self.entry) }
        ensures stores { EndsStore D.files D.faults D.moment D.left_since self.entry
            store.old store.new result }
        ensures origin { D.origin store.new ≡ D.origin store.old }
    {
        laws();
        records_can_be_stored();
        drop(self.sides);
        let ended = ended_lanes(alloc, self.lanes)?;
        let kept = self.daemon.finish(alloc, store, ended.losses)?;
        Ok(Outcome {
            kept,
            stats: ended.stats,
        })
    }
}
