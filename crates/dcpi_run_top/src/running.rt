//! A run by threads: it is begun, made, and its summary written.
ghost use Rattle.std.specs.Prelude.{◌≡◌, IfOk};
ghost use Rattle.database_model.specs.Ranges.{IsRecorded};
ghost use Rattle.dcpi_top.specs.Refusals.{refused};
ghost use Rattle.dcpi_top.specs.Streams.{seen};
ghost use Rattle.dcpi_run_top.specs.Answering.{ServesRun};
ghost use Rattle.dcpi_run_top.specs.Runs.{TellsRun, TellsSummary};

use crate::beginning::{Begun, begin};
use database_state::DbFault;
use dcpi_top::Refusal;
use outside_io::{Gate, Sink, Source, put_all};
use run_drive::{Outcome, run_cut};
use sample_key::Pace;
use std::alloc::Global;
use std::sync::Wait;
use std::thread::Threads;
use store_io::Store;
use summary_text::summary_text;

/// Runs the trace on the input into the database of the store, and writes the summary of the run. The database is opened
/// before the input is read. It may never return.
pub(crate) fn print_run<R: Threads + Wait + Sync, S: Source, D: Store, W: Sink, G: Gate + Sync>(
    rt: &R,
    alloc: Global,
    pace: Pace,
    source: &mut S,
    store: &mut D,
    out: &mut W,
    gate: &G,
) -> Result<(), Refusal>
    ensures serves { ServesRun D.files D.faults D.moment D.left_since pace
        (seen S.left S.faults source.old source.new) store.old store.new
        (seen W.written W.faults out.old out.new) (refused result) }
    ensures origin { D.origin store.new ≡ D.origin store.old }
{
    let Begun { db, trace } = begin(alloc, source, store)?;
    let ran = run_cut(rt, alloc, trace, db, store, pace, gate);
    print_summary(alloc, ran, out)
}

/// Writes the summary of a run that came to its end; a fault that stopped it is refused.
fn print_summary<W: Sink>(
    alloc: Global,
    ran: Result<Outcome, DbFault>,
    out: &mut W,
) -> Result<(), Refusal>
    requires recorded { IfOk ran (λ outcome. IsRecorded outcome.kept) }
    ensures told { TellsRun ran (seen W.written W.faults out.old out.new) (refused result) }
{
    match ran {
        Ok(outcome) => print_outcome(alloc, &outcome, out),
        Err(fault) => Err(Refusal::from(fault)),
    }
}

/// Writes the summary of an outcome.
fn print_outcome<W: Sink>(alloc: Global, outcome: &Outcome, out: &mut W) -> Result<(), Refusal>
    requires recorded { IsRecorded outcome.now.kept }
    ensures told { TellsSummary outcome.now (seen W.written W.faults out.old out.new)
        (refused result) }
{
    let text = summary_text(alloc, &outcome.kept, &outcome.stats)?;
    put_all(out, &text)?;
    Ok(())
}
