//! The commands that list a database: by image, by procedure of a symbol list, all its counts, and its runs. They change no
//! file.
ghost use Rattle.std.specs.Prelude.{◌≡◌, Bool, None, Some, IfOk};
ghost use Rattle.epoch_store.specs.Databases.{head_of};
ghost use Rattle.report_text.specs.Reports.{AddsUp, AreListed};
ghost use Rattle.dcpi_top.specs.declared.commands.Command.TheVariants as commands;
ghost use Rattle.dcpi_top.specs.Causes.{GivesText};
ghost use Rattle.dcpi_top.specs.Checks.{ChecksEpochs};
ghost use Rattle.dcpi_top.specs.Listings.{listing_text};
ghost use Rattle.dcpi_top.specs.Moments.{ReadsOnly};
ghost use Rattle.dcpi_top.specs.Streams.{Stream, IsUntouched, seen};

use crate::refusals::Refusal;
use counts_listing::cat_text;
use dcpiprof_report::{Epochs, Rows, by_image, by_procedure, rows_csv, rows_text};
use epoch_store::{Database, open_database};
use outside_io::Source;
use run_listing::runs_text;
use sample_key::Event;
use std::alloc::{AllocError, Global};
use store_io::Store;
use symbol_ranges::read_symbols;

/// What the database counts by image. The input is not read.
pub(crate) fn image_text<D: Store>(
    alloc: Global,
    store: &mut D,
    epochs: Epochs,
    event: Event,
    csv: bool,
) -> Result<Vec<u8>, Refusal>
    ensures gives { (input : Stream) → IsUntouched input →
        GivesText (λ text. text.items) (commands.ProfImage epochs event csv) input
        (seen D.files D.faults store.old store.new) result }
    ensures reads { ReadsOnly D.files D.moment D.left_since store.old store.new }
    ensures origin { D.origin store.new ≡ D.origin store.old }
{
    let db = open_database(alloc, store)?;
    check_epochs(&db, epochs)?;
    let rows = by_image(alloc, &db, store, epochs, event)?;
    let text = rows_bytes(alloc, &rows, false, epochs, event, csv)?;
    Ok(text)
}

/// What the database counts by procedure of the symbol list on the input. The database is opened and the epochs are looked
/// up before the input is read.
pub(crate) fn procedure_text<S: Source, D: Store>(
    alloc: Global,
    source: &mut S,
    store: &mut D,
    epochs: Epochs,
    event: Event,
    csv: bool,
) -> Result<Vec<u8>, Refusal>
    ensures gives { GivesText (λ text. text.items) (commands.ProfProcedure epochs event csv)
        (seen S.left S.faults source.old source.new)
        (seen D.files D.faults store.old store.new) result }
    ensures reads { ReadsOnly D.files D.moment D.left_since store.old store.new }
    ensures origin { D.origin store.new ≡ D.origin store.old }
{
    let db = open_database(alloc, store)?;
    check_epochs(&db, epochs)?;
    let symbols = read_symbols(alloc, source)?;
    let rows = by_procedure(alloc, &db, store, &symbols, epochs, event)?;
    let text = rows_bytes(alloc, &rows, true, epochs, event, csv)?;
    Ok(text)
}

/// All counts of the database. The input is not read.
pub(crate) fn counts_of<D: Store>(alloc: Global, store: &mut D) -> Result<Vec<u8>, Refusal>
    ensures gives { (input : Stream) → IsUntouched input →
        GivesText (λ text. text.items) commands.Cat input
        (seen D.files D.faults store.old store.new) result }
    ensures reads { ReadsOnly D.files D.moment D.left_since store.old store.new }
    ensures origin { D.origin store.new ≡ D.origin store.old }
{
    let db = open_database(alloc, store)?;
    let text = cat_text(alloc, &db, store)?;
    Ok(text)
}

/// The runs of the database, each with its tally. The input is not read.
pub(crate) fn runs_of<D: Store>(alloc: Global, store: &mut D) -> Result<Vec<u8>, Refusal>
    ensures gives { (input : Stream) → IsUntouched input →
        GivesText (λ text. text.items) commands.Runs input
        (seen D.files D.faults store.old store.new) result }
    ensures reads { ReadsOnly D.files D.moment D.left_since store.old store.new }
    ensures origin { D.origin store.new ≡ D.origin store.old }
{
    let db = open_database(alloc, store)?;
    let text = runs_text(alloc, &db, store)?;
    Ok(text)
}

/// Refuses an epoch above the last one of the database.
fn check_epochs(db: &Database, epochs: Epochs) -> Result<(), Refusal>
    ensures { ChecksEpochs epochs (head_of db.now) result }
{
    match epochs {
        Epochs::All => Ok(()),
        Epochs::One(epoch) => {
            let last = db.last_epoch();
            if epoch > last {
                return Err(Refusal::NoSuchEpoch { epoch, last });
            }
            Ok(())
        }
    }
}

/// The bytes of a listing, as CSV or as text.
fn rows_bytes(
    alloc: Global,
    rows: &Rows,
    procedures: bool,
    epochs: Epochs,
    event: Event,
    csv: bool,
) -> Result<Vec<u8>, AllocError>
    requires sums { AddsUp rows.now }
    requires labels { AreListed procedures rows.now.rows }
    ensures { IfOk result (λ text. text.items ≡ listing_text csv procedures rows.now epochs event) }
{
    if csv {
        rows_csv(alloc, rows, procedures)
    } else {
        rows_text(alloc, rows, epochs, event)
    }
}
