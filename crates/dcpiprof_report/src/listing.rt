//! `by_image` and `by_procedure`: the sums as the rows of a listing.
ghost use Rattle.std.specs.Prelude.{◌≡◌, ◌<◌, ◌^◌, Bool, true, false, List, Some, None, IfOk, map, sum};
ghost use Rattle.std.specs.List.Sorted.{IsStrictlySortedBy};
ghost use Rattle.std.specs.Map.{keys_of, values_of};
ghost use Rattle.store_io.specs.Files.{Files};
ghost use Rattle.store_io.specs.Crashes.{OnlyReads};
ghost use Rattle.sample_key.specs.Events.{code_of};
ghost use Rattle.database_state.specs.Standing.{HaveHead, database_of};
ghost use Rattle.epoch_store.specs.Databases.{head_of};
ghost use Rattle.epoch_store.specs.Faults.{HasDbCause};
ghost use Rattle.report_text.specs.declared.labels.Label.{Label};
ghost use Rattle.report_text.specs.Labels.{label_cmp, same_label};
ghost use Rattle.report_text.specs.Reports.{AddsUp, AreListed, Lists, StandsInOrder, listed_at};
ghost use Rattle.dcpiprof_report.specs.Counting.{counted};
ghost use Rattle.dcpiprof_report.specs.Reading.{Gives, first_bad, wanted};
ghost use Rattle.dcpiprof_report.specs.Sums.{AreSums, held, held_in_all, row_of};

use crate::queries::Query;
use epoch_store::{Database, DbFault};
use report_text::{Epochs, Label, Row, Rows};
use sample_key::Event;
use std::alloc::{AllocError, Global};
use std::collections::BTreeMap;
use store_io::Store;
use symbol_ranges::Symbols;

/// How many samples of an event lie in each image, over the epochs that are asked for, and how many have no known
/// mapping. Only the files of rows of this event and these epochs are read, in the order of the head.
///
/// `Bad` names the first of these files that is missing or not in its form.
pub fn by_image<D: Store>(
    alloc: Global,
    db: &Database,
    store: &mut D,
    epochs: Epochs,
    event: Event,
) -> Result<Rows, DbFault>
    ensures listed { (files : Files) → D.files store.old ≡ Some files → HaveHead files
        (head_of db.now) →
        Gives (first_bad files (wanted (head_of db.now) epochs (code_of event)))
        (λ rows. Lists (counted (database_of (head_of db.now) files) None epochs
        (code_of event)) rows.rows)
        result }
    ensures sums { IfOk result (λ rows. AddsUp rows) }
    ensures order { IfOk result (λ rows. StandsInOrder rows.rows) }
    ensures labels { IfOk result (λ rows. AreListed false rows.rows) }
    ensures reads { OnlyReads (D.files store.old) (D.files store.new) (D.moment store.old)
        (D.moment store.new) (D.left_since store.old) (D.left_since store.new) }
    ensures cause { HasDbCause (D.faults store.old) (D.faults store.new) result }
    ensures origin { D.origin store.new ≡ D.origin store.old }
{
    let query = Query {
        db,
        symbols: None,
        epochs,
        event,
    };
    let sums = query.sums(alloc, store)?;
    let rows = rows_of(alloc, sums)?;
    Ok(rows)
}

/// The same for each procedure of the symbol list, for what lies in each image and in none of its procedures, and for
/// what has no known mapping.
pub fn by_procedure<D: Store>(
    alloc: Global,
    db: &Database,
    store: &mut D,
    symbols: &Symbols,
    epochs: Epochs,
    event: Event,
) -> Result<Rows, DbFault>
    ensures listed { (files : Files) → D.files store.old ≡ Some files → HaveHead files
        (head_of db.now) →
        Gives (first_bad files (wanted (head_of db.now) epochs (code_of event)))
        (λ rows. Lists (counted (database_of (head_of db.now) files) (Some symbols.now) epochs
        (code_of event)) rows.rows)
        result }
    ensures sums { IfOk result (λ rows. AddsUp rows) }
    ensures order { IfOk result (λ rows. StandsInOrder rows.rows) }
    ensures labels { IfOk result (λ rows. AreListed true rows.rows) }
    ensures reads { OnlyReads (D.files store.old) (D.files store.new) (D.moment store.old)
        (D.moment store.new) (D.left_since store.old) (D.left_since store.new) }
    ensures cause { HasDbCause (D.faults store.old) (D.faults store.new) result }
    ensures origin { D.origin store.new ≡ D.origin store.old }
{
    let query = Query {
        db,
        symbols: Some(symbols),
        epochs,
        event,
    };
    let sums = query.sums(alloc, store)?;
    let rows = rows_of(alloc, sums)?;
    Ok(rows)
}

// The sums as rows, the largest first.
fn rows_of(alloc: Global, sums: BTreeMap<Label, u128>) -> Result<Rows, AllocError>
    requires { held_in_all sums.entries < 2 ^ 128 }
    ensures labels { IfOk result (λ rows. (procedures : Bool) → AreSums procedures sums.entries →
        AddsUp rows × AreListed procedures rows.rows) }
    ensures order { IfOk result (λ rows. StandsInOrder rows.rows) }
    ensures counts { IfOk result (λ rows. (label : Label) →
        listed_at label rows.rows ≡ held (same_label label) sums.entries) }
{
    let total = total_of(&sums);
    let mut rows = unsorted(alloc, sums)?;
    rows.sort_unstable();
    Ok(Rows { total, rows })
}

fn total_of(sums: &BTreeMap<Label, u128>) -> u128
    requires { sum (values_of sums.now.entries) < 2 ^ 128 }
    ensures { result ≡ sum (values_of sums.now.entries) }
{
    sums.values().copied().sum()
}

// The rows in the order of their labels.
fn unsorted(alloc: Global, sums: BTreeMap<Label, u128>) -> Result<Vec<Row>, AllocError>
    ensures rows { IfOk result (λ rows. rows.items ≡ map row_of sums.entries) }
    ensures apart { IsStrictlySortedBy label_cmp (keys_of sums.entries) }
{
    let mut rows = Vec::with_capacity(alloc, sums.len())?;
    for (label, count) in sums {
        rows.push(Row { count, label })?;
    }
    Ok(rows)
}
