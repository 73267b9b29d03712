//! The replay of a whole trace into a database.
ghost use Rattle.std.specs.Prelude.{◌≡◌, ◌++◌, IfOk, OnOk, None, map};
ghost use Rattle.std.specs.List.{flat_map, range_with_len};
ghost use Rattle.trace_model.specs.declared.notices.Step.TheVariants as doings;
ghost use Rattle.trace_cut.specs.Cutting.{lanes_in};
ghost use Rattle.trace_model.specs.Streams.{records_in, streams_in};
ghost use Rattle.trace_model.specs.Traces.{recording_of};
ghost use Rattle.trace_outline.specs.Views.{viewed};
ghost use Rattle.epoch_store.specs.Databases.{failed_of, head_of};
ghost use Rattle.replay_drive.specs.Ending.{IsAtStart, IsRoundOf, polls_of};
ghost use Rattle.replay_drive.specs.Outcomes.{IsReplayOf, Leaves, fault_in};

use crate::replays::{Replay, laws};
use crate::starting::new_players;
use database_state::DbFault;
use dcpid_core::{Daemon, Outcome};
use epoch_store::Database;
use run_rounds::runs_end_well;
use sample_key::{Marked, Pace};
use std::alloc::{AllocError, Global};
use store_io::Store;
use trace_cut::{Streams, cut};
use trace_lines::Outline;
use trace_model::{Record, Step, Trace};
use trace_outline::{TraceView, views_are_fit};

/// More rounds than any trace needs: one for each sample, four for each record, and eight.
pub const MOST_ROUNDS: u64 = 16 * 2_000_000 + 4 * 65_536 + 8;

/// Replays a trace into a database, of which no commit has failed: the steps of its schedule, and then rounds until the close is
/// complete. A part is committed at each record that ends one, and the rest at the end.
///
/// Where it answers a fault, the parts before it are in the database.
pub fn replay<D: Store>(
    alloc: Global,
    trace: &Trace,
    db: Database,
    store: &mut D,
) -> Result<Outcome, DbFault>
    requires works { failed_of db ≡ None }
    ensures run { IfOk result (IsReplayOf (recording_of trace.now) (head_of db)) }
    ensures leaves { Leaves D.files D.faults D.moment D.left_since (recording_of trace.now)
        (head_of db) store.old store.new (fault_in result) }
    ensures origin { D.origin store.new ≡ D.origin store.old }
{
    let Streams { lanes, records } = cut(alloc, trace)?;
    replay_streams(alloc, &TraceView::Whole(trace), &records, lanes, db, store)
}

/// The same for a trace that is not used any more: its lines, 40 bytes each, are given back before the first step.
pub fn replay_owned<D: Store>(
    alloc: Global,
    trace: Trace,
    db: Database,
    store: &mut D,
) -> Result<Outcome, DbFault>
    requires works { failed_of db ≡ None }
    ensures run { IfOk result (IsReplayOf (recording_of trace) (head_of db)) }
    ensures leaves { Leaves D.files D.faults D.moment D.left_since (recording_of trace)
        (head_of db) store.old store.new (fault_in result) }
    ensures origin { D.origin store.new ≡ D.origin store.old }
{
    let Streams { lanes, records } = cut(alloc, &trace)?;
    let outline = Outline::of(trace);
    let view = TraceView::Outline(&outline);
    replay_streams(alloc, &view, &records, lanes, db, store)
}

// The same, by the trace without its lines, its records and its samples.
fn replay_streams<'a, D: Store>(
    alloc: Global,
    trace: &TraceView<'a>,
    records: &'a [Record],
    samples: Vec<Vec<Marked>>,
    db: Database,
    store: &mut D,
) -> Result<Outcome, DbFault>
    requires records { records.now ≡ records_in (viewed trace.now) }
    requires samples { lanes_in samples.items ≡ streams_in (viewed trace.now) }
    requires works { failed_of db ≡ None }
    ensures run { IfOk result (IsReplayOf (viewed trace.now) (head_of db)) }
    ensures leaves { Leaves D.files D.faults D.moment D.left_since (viewed trace.now)
        (head_of db) store.old store.new (fault_in result) }
    ensures origin { D.origin store.new ≡ D.origin store.old }
{
    views_are_fit(trace);
    runs_end_well();
    let round = round_of(alloc, trace.cpus())?;
    let mut replay = at_start(alloc, trace, records, samples, db)?;
    replay.steps(alloc, trace.schedule(), store);
    replay.rounds(alloc, &round, MOST_ROUNDS, store);
    replay.end(alloc, store)
}

// A replay of a trace with these records and samples, before its first step.
fn at_start<'a>(
    alloc: Global,
    trace: &TraceView<'a>,
    records: &'a [Record],
    samples: Vec<Vec<Marked>>,
    db: Database,
) -> Result<Replay<'a>, AllocError>
    requires records { records.now ≡ records_in (viewed trace.now) }
    requires samples { lanes_in samples.items ≡ streams_in (viewed trace.now) }
    requires works { failed_of db ≡ None }
    ensures { IfOk result (IsAtStart (viewed trace.now) (head_of db)) }
{
    views_are_fit(trace);
    laws();
    let players = new_players(alloc, trace, records.len(), samples)?;
    let daemon = Daemon::of_view(alloc, trace, records, Pace::Free, db)?;
    Ok(Replay {
        lanes: players.lanes,
        sides: players.sides,
        daemon,
        finished: false,
    })
}

// One round of so many processors: a turn of each driver, a poll of each cell, and an advance.
fn round_of(alloc: Global, cpus: u32) -> Result<Vec<Step>, AllocError>
    ensures { IfOk result (λ steps. IsRoundOf cpus steps.items) }
{
    let mut steps = turns_of(alloc, cpus)?;
    push_polls(&mut steps, cpus)?;
    steps.push(Step::Advance)?;
    Ok(steps)
}

// A turn of each driver.
fn turns_of(alloc: Global, cpus: u32) -> Result<Vec<Step>, AllocError>
    ensures { IfOk result (λ steps. steps.items ≡ map doings.Lane (range_with_len 0 cpus)) }
{
    let mut steps = Vec::new(alloc);
    for cpu in 0..cpus {
        steps.push(Step::Lane { cpu })?;
    }
    Ok(steps)
}

// A poll of each cell of each processor.
fn push_polls(steps: &mut Vec<Step>, cpus: u32) -> Result<(), AllocError>
    ensures { OnOk result (steps.new.items
        ≡ steps.old.items ++ flat_map polls_of (range_with_len 0 cpus)) }
{
    for cpu in 0..cpus {
        steps.push(Step::Poll { cpu, cell: 0 })?;
        steps.push(Step::Poll { cpu, cell: 1 })?;
        steps.push(Step::Poll { cpu, cell: 2 })?;
    }
    Ok(())
}
