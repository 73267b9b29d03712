//! The command `replay`: a trace is replayed into the database, and the run's summary is the text.
ghost use Rattle.std.specs.Prelude.{◌≡◌, None, Some};
ghost use Rattle.trace_model.specs.Traces.{recording_of};
ghost use Rattle.epoch_store.specs.Databases.{failed_of, head_of};
ghost use Rattle.dcpi_top.specs.declared.commands.Command.TheVariants as commands;
ghost use Rattle.dcpi_top.specs.Causes.{GivesText};
ghost use Rattle.dcpi_top.specs.Moments.{LeavesAtAnyMoment};
ghost use Rattle.dcpi_top.specs.Refusals.{refused, status_in};
ghost use Rattle.dcpi_top.specs.Replays.{IsReadInto};
ghost use Rattle.dcpi_top.specs.Streams.{Stream, seen};

use crate::refusals::Refusal;
use epoch_store::{Database, files_stand_for_one_database, open_database};
use outside_io::Source;
use replay_drive::replay_owned;
use run_laws::{records_can_be_stored, traces_are_fit};
use std::alloc::Global;
use store_io::Store;
use summary_text::summary_text;
use trace_model::Trace;
use trace_text::read_trace;

/// Replays the trace on the input into the database of the store, and gives the summary of the run. The database is opened
/// before the input is read; a part of the run is committed at each record that ends one, and the rest at the end.
pub(crate) fn replay_text<S: Source, D: Store>(
    alloc: Global,
    source: &mut S,
    store: &mut D,
) -> Result<Vec<u8>, Refusal>
    ensures gives { GivesText (λ text. text.items) commands.Replay
        (seen S.left S.faults source.old source.new)
        (seen D.files D.faults store.old store.new) result }
    ensures leaves { LeavesAtAnyMoment D.files D.moment D.left_since (Some commands.Replay)
        (seen S.left S.faults source.old source.new) store.old store.new
        (status_in (refused result)) }
    ensures origin { D.origin store.new ≡ D.origin store.old }
{
    let db = open_database(alloc, store)?;
    let trace = read_trace(alloc, source)?;
    run_text(alloc, trace, db, store)
}

/// Replays a trace into an opened database, and gives the summary of the run.
fn run_text<D: Store>(
    alloc: Global,
    trace: Trace,
    db: Database,
    store: &mut D,
) -> Result<Vec<u8>, Refusal>
    requires { failed_of db ≡ None }
    ensures gives { (input : Stream) → IsReadInto input (recording_of trace)
        (seen D.files D.faults store.old store.new) (head_of db) →
        GivesText (λ text. text.items) commands.Replay input
        (seen D.files D.faults store.old store.new) result }
    ensures leaves { (input : Stream) → IsReadInto input (recording_of trace)
        (seen D.files D.faults store.old store.new) (head_of db) →
        LeavesAtAnyMoment D.files D.moment D.left_since (Some commands.Replay) input
        store.old store.new (status_in (refused result)) }
    ensures origin { D.origin store.new ≡ D.origin store.old }
{
    traces_are_fit(&trace);
    records_can_be_stored();
    files_stand_for_one_database();
    let outcome = replay_owned(alloc, trace, db, store)?;
    let text = summary_text(alloc, &outcome.kept, &outcome.stats)?;
    Ok(text)
}
