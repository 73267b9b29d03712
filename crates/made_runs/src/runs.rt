//! The first run of a made trace, and its summary: the trace is replayed into an empty store in memory, of which no call fails.

ghost use Rattle.std.specs.Prelude.{◌≡◌, IfOk, None, Some};
ghost use Rattle.trace_model.specs.Traces.{recording_of};
ghost use Rattle.store_io.specs.Files.{no_files};
ghost use Rattle.store_io.specs.Memory.{faults_of, origin_of, told_of};
ghost use Rattle.database_state.specs.Heads.{empty_head};
ghost use Rattle.epoch_store.specs.Databases.{failed_of, head_of};
ghost use Rattle.generator_laws.specs.Made.{IsMade};
ghost use Rattle.replay_drive.specs.Outcomes.{IsReplayOf};
ghost use Rattle.made_runs.specs.FirstRuns.{first_summary};
ghost use Rattle.made_runs.specs.Openings.{IsEmptyStore};

use crate::laws::fitting_runs_do_not_stop;
use epoch_store::{Database, DbFault, open_database};
use generator_laws::made_traces_fit;
use replay_drive::{Outcome, replay};
use run_laws::{records_can_be_stored, traces_are_fit};
use std::alloc::{AllocError, Global};
use store_io::{MemStore, stays_without_fault};
use summary_text::summary_text;
use trace_model::Trace;

/// The summary of the first run of a made trace.
pub(crate) fn run_text(alloc: Global, trace: Trace) -> Result<Vec<u8>, AllocError>
    requires { IsMade (recording_of trace) }
    ensures { IfOk result (λ text. text.items ≡ first_summary (recording_of trace)) }
{
    traces_are_fit(&trace);
    records_can_be_stored();
    let outcome = first_run(alloc, trace)?;
    let text = summary_text(alloc, &outcome.kept, &outcome.stats)?;
    Ok(text)
}

// Replays a made trace into an empty database: the store cannot fail, no file is bad, and the run fits.
fn first_run(alloc: Global, trace: Trace) -> Result<Outcome, AllocError>
    requires { IsMade (recording_of trace) }
    ensures { IfOk result (IsReplayOf (recording_of trace) empty_head) }
{
    made_traces_fit(&trace);
    fitting_runs_do_not_stop();
    let mut store = MemStore::new(alloc, Vec::new(alloc));
    let db = open_empty(alloc, &mut store)?;
    match replay(alloc, &trace, db, &mut store) {
        Ok(outcome) => Ok(outcome),
        Err(DbFault::Memory) => Err(AllocError),
        Err(DbFault::StoreFault) => {
            stays_without_fault(&store);
            unreachable!()
        }
        Err(DbFault::Bad { .. }) => unreachable!(),
        Err(DbFault::Full { .. }) => unreachable!(),
    }
}

// Opens an empty store: its database is the empty one.
fn open_empty(alloc: Global, store: &mut MemStore) -> Result<Database, AllocError>
    requires { IsEmptyStore store.old }
    ensures head { IfOk result (λ db. head_of db ≡ empty_head) }
    ensures works { IfOk result (λ db. failed_of db ≡ None) }
    ensures files { told_of store.new ≡ Some no_files }
    ensures origin { origin_of store.new ≡ origin_of store.old }
    ensures faults { faults_of store.new ≡ 0 }
{
    let opened = open_database(alloc, store);
    stays_without_fault(store);
    match opened {
        Ok(db) => Ok(db),
        Err(DbFault::Memory) => Err(AllocError),
        Err(DbFault::StoreFault) => unreachable!(),
        Err(DbFault::Bad { .. }) => unreachable!(),
        Err(DbFault::Full { .. }) => unreachable!(),
    }
}
