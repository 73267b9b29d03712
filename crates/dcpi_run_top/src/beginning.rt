//! What comes before a run: the database is opened, and then the trace is read and cut.
ghost use Rattle.std.specs.Prelude.{◌≡◌, None, IfOk};
ghost use Rattle.trace_lines.specs.Outlines.{outlined};
ghost use Rattle.epoch_store.specs.Databases.{failed_of, head_of};
ghost use Rattle.dcpi_top.specs.Moments.{ReadsOnly};
ghost use Rattle.dcpi_top.specs.Replays.{IsReadInto};
ghost use Rattle.dcpi_top.specs.Streams.{seen};
ghost use Rattle.dcpi_run_top.specs.Beginning.{IsRefusedBefore};

use dcpi_top::Refusal;
use epoch_store::{Database, open_database};
use outside_io::Source;
use std::alloc::Global;
use store_io::Store;
use trace_lines::CutTrace;
use trace_text::read_cut;

/// An opened database, and the trace that is to be run into it, which was cut while it was read.
#[derive(Drop)]
pub(crate) struct Begun {
    pub(crate) db: Database,
    pub(crate) trace: CutTrace,
}

/// Opens the database, and reads the trace and cuts it.
pub(crate) fn begin<S: Source, D: Store>(
    alloc: Global,
    source: &mut S,
    store: &mut D,
) -> Result<Begun, Refusal>
    ensures into { IfOk result (λ begun. IsReadInto (seen S.left S.faults source.old source.new)
        (outlined begun.trace.outline) (seen D.files D.faults store.old store.new)
        (head_of begun.db)) }
    ensures counted { IfOk result (λ _. D.faults store.new ≡ D.faults store.old) }
    ensures works { IfOk result (λ begun. failed_of begun.db ≡ None) }
    ensures refused { IsRefusedBefore (seen S.left S.faults source.old source.new)
        (seen D.files D.faults store.old store.new) result }
    ensures reads { ReadsOnly D.files D.moment D.left_since store.old store.new }
    ensures origin { D.origin store.new ≡ D.origin store.old }
{
    let db = open_database(alloc, store)?;
    let trace = read_cut(alloc, source)?;
    Ok(Begun { db, trace })
}
