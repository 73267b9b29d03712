//! `runs_text`: the segments of a database, read in the order of their generations and printed run by run.
ghost use Rattle.std.specs.Prelude.{◌≡◌, ℕ, Some, OnOk};
ghost use Rattle.store_io.specs.Files.{Files};
ghost use Rattle.store_io.specs.Crashes.{OnlyReads};
ghost use Rattle.database_model.specs.Ranges.{IsRecorded, IsSegment};
ghost use Rattle.database_state.specs.Standing.{database_of};
ghost use Rattle.epoch_store.specs.Databases.{head_of};
ghost use Rattle.epoch_store.specs.Faults.{HasDbCause};
ghost use Rattle.dcpiprof_report.specs.Reading.{Gives};
ghost use Rattle.run_listing.specs.Orders.{first_bad, follows};
ghost use Rattle.run_listing.specs.Steps.{Places, reached_by, run_with, text_with};
ghost use Rattle.run_listing.specs.Texts.{listing_of};

use crate::joins::JoinedRun;
use crate::texts::put_run;
use epoch_store::{Database, DbFault, read_run_part};
use run_record::RunSegment;
use std::alloc::Global;
use store_io::{FileRef, Store};

/// The runs of a database as a text: for each run in rising order a line `run R parts P whole`, or `cut` where its last part
/// is missing, then for each processor and event that has samples a line
/// `c CPU EVENT taken T known K unknown U lost L`, by processor, then event code.
///
/// `Bad` names the file of the first generation whose segment is missing, not in its form, or out of order: it neither goes
/// on with the run before it (the same run, its next part, and the part before it not the run's last) nor begins the next run
/// with part 0; the first segment is part 0 of run 1.
pub fn runs_text<D: Store>(alloc: Global, db: &Database, store: &mut D) -> Result<Vec<u8>, DbFault>
    ensures listed { (files : Files) → D.files store.old ≡ Some files →
        Gives (first_bad (database_of (head_of db.now) files).segments)
        (λ text. text.items ≡ listing_of (database_of (head_of db.now) files).segments)
        result }
    ensures reads { OnlyReads (D.files store.old) (D.files store.new) (D.moment store.old)
        (D.moment store.new) (D.left_since store.old) (D.left_since store.new) }
    ensures cause { HasDbCause (D.faults store.old) (D.faults store.new) result }
    ensures origin { D.origin store.new ≡ D.origin store.old }
{
    let mut text = Vec::new(alloc);
    let mut run = JoinedRun::none(alloc);
    for before in 0..db.generation() {
        let g = before + 1;
        let part = read_run_part(alloc, db, store, g)?;
        add_part(alloc, &mut text, &mut run, g, part)?;
    }
    put_run(alloc, &mut text, &run)?;
    Ok(text)
}

// Joins a part to the run that it goes on with; or prints that run, and begins the next one.
fn add_part(
    alloc: Global,
    text: &mut Vec<u8>,
    run: &mut JoinedRun,
    g: u32,
    part: RunSegment,
) -> Result<(), DbFault>
    requires part { IsSegment part }
    requires recorded { IsRecorded run.old.kept }
    ensures order { Places g (follows (reached_by run.old) part) result }
    ensures text { OnOk result (text.new.items ≡ text_with text.old.items run.old part) }
    ensures run { OnOk result (run.new ≡ run_with run.old part) }
    ensures recorded { OnOk result (IsRecorded run.new.kept) }
    ensures cause { (n : ℕ) → HasDbCause n n result }
{
    if run.goes_on(&part) {
        run.append(part)?;
        return Ok(());
    }
    if !run.begins_next(&part) {
        let file = FileRef::Segment { g };
        return Err(DbFault::Bad { file });
    }
    put_run(alloc, text, run)?;
    *run = JoinedRun::started(part);
    Ok(())
}
