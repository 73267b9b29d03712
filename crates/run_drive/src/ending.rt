//! The end of a run: the cells are closed, the daemon commits the rest, and the outcome is put together.
ghost use Rattle.std.specs.Prelude.{◌≡◌, ℕ, length};
ghost use Rattle.sample_key.specs.declared.losses.Pace.{Pace};
ghost use Rattle.trace_model.specs.Recording.{Recording};
ghost use Rattle.database_state.specs.Heads.{Head};
ghost use Rattle.lane_threads.specs.Ending.{HasRoomFor};
ghost use Rattle.run_joins.specs.Collecting.{CollectsAll};
ghost use Rattle.run_joins.specs.Joins.{CutRunsAreValid, JoinedRunsAreValid, JoinsAreValid};
ghost use Rattle.run_closes.specs.Closes.{ClosesAreJoined, FrontsAreFirst};
ghost use Rattle.run_exact.specs.Exact.{JoinsAreExact};
ghost use Rattle.run_drive.specs.Outcomes.{GivesRun, LeavesRun};
ghost use Rattle.run_drive.specs.Ending.{HasJoined, IsJoining};

use database_state::DbFault;
use dcpid_core::{Daemon, Outcome};
use lane_threads::{Ended, Work, close_all};
use run_closes::closes_are_joined;
use run_exact::joins_are_exact;
use run_joins::{cuts_are_valid, daemons_collect, joins_are_valid};
use shared_side::SharedDaemon;
use std::alloc::Global;
use store_io::Store;

// Ends a run whose lanes were joined.
pub(crate) fn end<D: Store>(
    alloc: Global,
    daemon: Daemon,
    works: Vec<Work>,
    sides: Vec<SharedDaemon>,
    room: Ended,
    store: &mut D,
) -> Result<Outcome, DbFault>
    requires joined { (pace : Pace) × (trace : Recording) × (run : ℕ) × (first_epoch : ℕ)
        × IsJoining pace trace run first_epoch daemon works.items sides.items }
    requires room { HasRoomFor (length works.items) room }
    ensures run { (pace : Pace) (trace : Recording) (begin : Head) (start : D) →
        HasJoined D.files D.faults D.moment D.left_since pace trace begin start store.old
        daemon.entry works.items sides.items → GivesRun pace trace begin result }
    ensures leaves { (pace : Pace) (trace : Recording) (begin : Head) (start : D) →
        HasJoined D.files D.faults D.moment D.left_since pace trace begin start store.old
        daemon.entry works.items sides.items →
        LeavesRun D.files D.faults D.moment D.left_since pace trace begin start store.new result }
    ensures origin { D.origin store.new ≡ D.origin store.old }
{
    laws();
    let Ended { losses, stats } = close_all(works, sides, room);
    let kept = daemon.finish(alloc, store, losses)?;
    Ok(Outcome { kept, stats })
}

// The laws of the joins that the end cites.
fn laws()
    ensures closes { ClosesAreJoined }
    ensures fronts { FrontsAreFirst }
    ensures collects { CollectsAll }
    ensures one { JoinsAreValid }
    ensures all { JoinedRunsAreValid }
    ensures cut { CutRunsAreValid }
    ensures exact { JoinsAreExact }
{
    closes_are_joined();
    daemons_collect();
    joins_are_valid();
    cuts_are_valid();
    joins_are_exact();
}
