//! The run of a whole trace into a database.
ghost use Rattle.std.specs.Prelude.{◌≡◌, ℕ, List, None, IfOk, length};
ghost use Rattle.sample_key.specs.declared.losses.Pace.TheVariants.{Exact};
ghost use Rattle.trace_cut.specs.Cutting.{lanes_in};
ghost use Rattle.trace_model.specs.Streams.{records_in, streams_in};
ghost use Rattle.trace_model.specs.Traces.{recording_of};
ghost use Rattle.trace_lines.specs.Outlines.{outlined};
ghost use Rattle.trace_outline.specs.Views.{viewed};
ghost use Rattle.database_state.specs.Limits.{IsProfile};
ghost use Rattle.database_state.specs.Standing.{database_of};
ghost use Rattle.epoch_store.specs.Databases.{failed_of, head_of};
ghost use Rattle.growth_laws.specs.Places.{PlainRecordsAddPlainly};
ghost use Rattle.growth_laws.specs.Whole.{RunsAddAllDrains};
ghost use Rattle.run_exact.specs.Exact.{ExactRunsArePlain};
ghost use Rattle.store_io.specs.Files.{Files};
ghost use Rattle.database_state.specs.Heads.{Head};
ghost use Rattle.sample_key.specs.declared.losses.Pace.{Pace as AtPace};
ghost use Rattle.trace_model.specs.Recording.{Recording};
ghost use Rattle.run_drive.specs.Outcomes.{GivesRun, GrowsPlainly, IsRunOf, LeavesRun};
ghost use Rattle.run_drive.specs.Running.{IsReady};
ghost use Rattle.run_drive.specs.Rooms.{HaveRoomFor};

use crate::going::{Rooms, go};
use database_state::{DbFault, told_profiles_rise};
use dcpid_core::{Daemon, Outcome};
use epoch_store::Database;
use growth_laws::{plain_records_add_plainly, runs_add_all_drains};
use lane_threads::{Pairs, all_waiting, new_pairs};
use outside_io::Gate;
use run_exact::exact_runs_are_plain;
use run_laws::{records_are_valid, traces_are_fit};
use sample_key::{Marked, Pace};
use std::alloc::Global;
use std::sync::Wait;
use std::thread;
use std::thread::Threads;
use store_io::Store;
use trace_cut::{Streams, cut};
use trace_lines::CutTrace;
use trace_model::{Record, Trace};
use trace_outline::{TraceView, views_are_fit};

/// Where the daemon says at the gate that a round begins.
pub const DAEMON_GATE: u32 = 16;

/// Runs a trace into a database, of which no commit has failed: a thread for each processor's lane, and the daemon here. The
/// schedule of the trace is not used. A part is committed at each record that ends one, and the rest at the end.
///
/// Where it answers a fault, the parts before it are in the database. It may never return.
pub fn run<R: Threads + Wait + Sync, D: Store, G: Gate + Sync>(
    rt: &R,
    alloc: Global,
    trace: &Trace,
    db: Database,
    store: &mut D,
    pace: Pace,
    gate: &G,
) -> Result<Outcome, DbFault>
    requires works { failed_of db ≡ None }
    ensures run { IfOk result (IsRunOf pace (recording_of trace.now) (head_of db)) }
    ensures leaves { LeavesRun D.files D.faults D.moment D.left_since pace
        (recording_of trace.now) (head_of db) store.old store.new result }
    ensures plain { pace ≡ Exact → IfOk result (GrowsPlainly D.files (recording_of trace.now)
        (head_of db) store.old store.new) }
    ensures origin { D.origin store.new ≡ D.origin store.old }
{
    traces_are_fit(trace);
    records_are_valid();
    let Streams { lanes, records } = cut(alloc, trace)?;
    let view = TraceView::Whole(trace);
    run_streams(rt, alloc, &view, &records, lanes, db, store, pace, gate)
}

/// The same of a trace that was cut while it was read.
pub fn run_cut<R: Threads + Wait + Sync, D: Store, G: Gate + Sync>(
    rt: &R,
    alloc: Global,
    trace: CutTrace,
    db: Database,
    store: &mut D,
    pace: Pace,
    gate: &G,
) -> Result<Outcome, DbFault>
    requires works { failed_of db ≡ None }
    ensures run { IfOk result (IsRunOf pace (outlined trace.outline) (head_of db)) }
    ensures leaves { LeavesRun D.files D.faults D.moment D.left_since pace
        (outlined trace.outline) (head_of db) store.old store.new result }
    ensures plain { pace ≡ Exact → IfOk result (GrowsPlainly D.files (outlined trace.outline)
        (head_of db) store.old store.new) }
    ensures origin { D.origin store.new ≡ D.origin store.old }
{
    let CutTrace { outline, streams } = trace;
    let Streams { lanes, records } = streams;
    let view = TraceView::Outline(&outline);
    run_streams(rt, alloc, &view, &records, lanes, db, store, pace, gate)
}

// The same, by the records and the samples of the trace that is seen.
fn run_streams<'a, R: Threads + Wait + Sync, D: Store, G: Gate + Sync>(
    rt: &R,
    alloc: Global,
    trace: &TraceView<'a>,
    records: &'a [Record],
    samples: Vec<Vec<Marked>>,
    db: Database,
    store: &mut D,
    pace: Pace,
    gate: &G,
) -> Result<Outcome, DbFault>
    requires records { records.now ≡ records_in (viewed trace.now) }
    requires samples { lanes_in samples.items ≡ streams_in (viewed trace.now) }
    requires works { failed_of db ≡ None }
    ensures run { IfOk result (IsRunOf pace (viewed trace.now) (head_of db)) }
    ensures leaves { LeavesRun D.files D.faults D.moment D.left_since pace
        (viewed trace.now) (head_of db) store.old store.new result }
    ensures plain { pace ≡ Exact → IfOk result (GrowsPlainly D.files (viewed trace.now)
        (head_of db) store.old store.new) }
    ensures origin { D.origin store.new ≡ D.origin store.old }
{
    views_are_fit(trace);
    records_are_valid();
    laws();
    let Pairs { works, sides } = new_pairs(alloc, trace, pace, records.len(), samples)?;
    let rooms = Rooms::of(alloc, sides.len())?;
    let waiting = all_waiting(alloc, works)?;
    let daemon = Daemon::of_view(alloc, trace, records, pace, db)?;
    let (result, back) = thread::scope(
        thread::scope_env(),
        rt,
        move |scope| -> (Result<Outcome, DbFault>, &mut D)
            requires ready { (at : AtPace) × (of : Recording) × (head : Head)
                × IsReady at of head waiting.items sides.items daemon }
            requires rooms { HaveRoomFor (length waiting.items) rooms }
            ensures same { result.1.ghost_name ≡ store.entry.ghost_name }
            ensures run { (at : AtPace) (of : Recording) (head : Head) →
                IsReady at of head waiting.items sides.items daemon.entry →
                GivesRun at of head result.0 }
            ensures leaves { (at : AtPace) (of : Recording) (head : Head) →
                IsReady at of head waiting.items sides.items daemon.entry →
                LeavesRun D.files D.faults D.moment D.left_since at of head
                store.entry.now result.1.now result.0 }
            ensures origin { D.origin result.1.now ≡ D.origin store.entry.now }
        {
            let result = go(scope, rt, alloc, gate, waiting, sides, daemon, rooms, store);
            (result, store)
        },
    );
    take_back(back);
    result
}

// What was lent comes back.
fn take_back<T>(lent: &mut T)
    ensures { lent.new ≡ lent.old }
{}

// The laws of what a run at the exact pace adds to a database.
fn laws()
    ensures plain { ExactRunsArePlain }
    ensures adds { PlainRecordsAddPlainly }
    ensures all { RunsAddAllDrains }
    ensures known { (head : Head) (files : Files) (epoch : ℕ) (name : List ℕ) (event : ℕ) →
        IsProfile ((database_of head files).known epoch name event) }
    ensures unknown { (head : Head) (files : Files) (epoch event : ℕ) →
        IsProfile ((database_of head files).unknown epoch event) }
{
    exact_runs_are_plain();
    plain_records_add_plainly();
    runs_add_all_drains();
    told_profiles_rise();
}
