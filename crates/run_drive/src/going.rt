//! A run inside its scope: the lanes' threads are started, the daemon goes its rounds, and all ends.
ghost use Rattle.std.specs.Prelude.{◌≡◌, ℕ, ◌+◌, ◌≤◌, List, [], IfOk, length, map, vec_capacity};
ghost use Rattle.sample_key.specs.declared.losses.Pace.{Pace as AtPace};
ghost use Rattle.trace_model.specs.Recording.{Recording};
ghost use Rattle.database_state.specs.Heads.{Head};
ghost use Rattle.lane_threads.specs.Pairs.{Pairwise};
ghost use Rattle.lane_threads.specs.Promising.{Runs};
ghost use Rattle.lane_threads.specs.Working.{Working};
ghost use Rattle.daemon_rounds.specs.Sides.{AreIdle};
ghost use Rattle.run_drive.specs.Outcomes.{GivesRun, LeavesRun};
ghost use Rattle.run_drive.specs.Running.{Finishes, IsReady, IsUnderWay, plain_sides};
ghost use Rattle.run_drive.specs.Rooms.{HaveRoomFor};

use crate::ending::end;
use crate::runs::DAEMON_GATE;
use crossbeam_utils::Backoff;
use daemon_rounds::{Round, go_round, new_daemons_know};
use database_state::DbFault;
use dcpid_core::{Daemon, Outcome};
use lane_threads::{Ended, Runner, Waiting, Work, end_all, start_all, step_here};
use outside_io::Gate;
use shared_side::SharedDaemon;
use std::alloc::{AllocError, Global};
use std::sync::Wait;
use std::thread::{Scope, Threads};
use store_io::Store;

// The room that is made before the first thread starts, so that nothing fails while they go on.
#[derive(Drop)]
pub(crate) struct Rooms {
    pub(crate) runners: Vec<Runner>,
    pub(crate) works: Vec<Work>,
    pub(crate) ended: Ended,
}

impl Rooms {
    // Room for so many processors.
    pub(crate) fn of(alloc: Global, count: usize) -> Result<Rooms, AllocError>
        ensures { IfOk result (HaveRoomFor count) }
    {
        Ok(Rooms {
            runners: Vec::with_capacity(alloc, count)?,
            works: Vec::with_capacity(alloc, count)?,
            ended: Ended::with_room(alloc, count)?,
        })
    }
}

// Starts the lanes' threads, drives the daemon until the run is finished, joins the lanes and ends the run.
pub(crate) fn go<'s, E, R: Threads + Wait + Sync, D: Store, G: Gate + Sync>(
    scope: &Scope<'s, E>,
    rt: &'s R,
    alloc: Global,
    gate: &'s G,
    waiting: Vec<Waiting>,
    sides: Vec<SharedDaemon>,
    daemon: Daemon,
    rooms: Rooms,
    store: &mut D,
) -> Result<Outcome, DbFault>
    requires ready { (pace : AtPace) × (trace : Recording) × (begin : Head)
        × IsReady pace trace begin waiting.items sides.items daemon }
    requires rooms { HaveRoomFor (length waiting.items) rooms }
    ensures run { (pace : AtPace) (trace : Recording) (begin : Head) →
        IsReady pace trace begin waiting.items sides.items daemon.entry →
        GivesRun pace trace begin result }
    ensures leaves { (pace : AtPace) (trace : Recording) (begin : Head) →
        IsReady pace trace begin waiting.items sides.items daemon.entry →
        LeavesRun D.files D.faults D.moment D.left_since pace trace begin
        store.old store.new result }
    ensures origin { D.origin store.new ≡ D.origin store.old }
{
    new_daemons_know();
    let Rooms {
        runners,
        works,
        ended,
    } = rooms;
    let (mut daemon, mut sides) = (daemon, sides);
    let mut runners = start_all(scope, rt, gate, waiting, runners);
    drive(
        rt,
        alloc,
        gate,
        &mut daemon,
        &mut sides,
        &mut runners,
        store,
    );
    let works = end_all(rt, gate, runners, works);
    end(alloc, daemon, works, sides, ended, store)
}

// The daemon's rounds until the run is finished. A round that had nothing to do ends with a short wait.
fn drive<R: Wait, D: Store, G: Gate>(
    rt: &R,
    alloc: Global,
    gate: &G,
    daemon: &mut Daemon,
    sides: &mut Vec<SharedDaemon>,
    runners: &mut Vec<Runner>,
    store: &mut D,
)
    requires going { IsUnderWay D.files D.faults D.moment D.left_since store.old daemon.old
        sides.old.items }
    requires idle { AreIdle (plain_sides sides.old.items) }
    ensures finishes { Finishes D.files D.faults D.moment D.left_since
        daemon.old sides.old.items store.old daemon.new sides.new.items store.new }
    ensures runners { (works : List Working) → Pairwise Runs works runners.old.items
        → Pairwise Runs works runners.new.items }
    ensures fixed { map (λ side. side.fixed) sides.new.items
        ≡ map (λ side. side.fixed) sides.old.items }
    ensures origin { D.origin store.new ≡ D.origin store.old }
{
    let backoff = Backoff::new();
    for _ in rt.forever() {
        gate.at(DAEMON_GATE);
        step_here(runners);
        match go_round(alloc, gate, daemon, sides, store) {
            Round::Finished => return,
            Round::Went => backoff.reset(),
            Round::Waits => backoff.snooze(),
        }
    }
    unreachable!()
}
