//! `database_counts` and `cat_text`: first all files are read, in the order of the head; then the counts are listed.
ghost use Rattle.std.specs.Prelude.{◌≡◌, ◌+◌, Some, IfOk, length};
ghost use Rattle.store_io.specs.Files.{Files};
ghost use Rattle.store_io.specs.Crashes.{OnlyReads};
ghost use Rattle.trace_model.specs.Counting.{Spot, listed_at};
ghost use Rattle.trace_model.specs.Listed.{rows_of};
ghost use Rattle.database_state.specs.Standing.{HaveHead, database_of};
ghost use Rattle.epoch_store.specs.Databases.{head_of};
ghost use Rattle.epoch_store.specs.Faults.{HasDbCause};
ghost use Rattle.dcpiprof_report.specs.Reading.{Gives, first_bad};
ghost use Rattle.counts_listing.specs.Counting.{AreCountsIn, IsTextOf, all_files};
ghost use Rattle.counts_listing.specs.Sections.{known_total, unknown_total};

use crate::counts::{known_counts, unknown_counts};
use crate::reading::{read_known_profiles, read_unknown_profiles};
use direct_counts::counts_text;
use epoch_store::{Database, DbFault};
use profile_file::Profile;
use std::alloc::{AllocError, Global};
use store_io::Store;
use trace_model::Counts;

/// How many samples the database holds at each place: at an offset of an image, or at a program counter with no known
/// mapping, by epoch and event. Every profile is read, in the order of the head.
///
/// `Bad` names the first of these files that is missing or not in its form.
pub fn database_counts<D: Store>(
    alloc: Global,
    db: &Database,
    store: &mut D,
) -> Result<Counts, DbFault>
    ensures listed { (files : Files) → D.files store.old ≡ Some files → HaveHead files
        (head_of db.now) →
        Gives (first_bad files (all_files (head_of db.now)))
        (λ counts. AreCountsIn (database_of (head_of db.now) files) (rows_of counts))
        result }
    ensures reads { OnlyReads (D.files store.old) (D.files store.new) (D.moment store.old)
        (D.moment store.new) (D.left_since store.old) (D.left_since store.new) }
    ensures cause { HasDbCause (D.faults store.old) (D.faults store.new) result }
    ensures origin { D.origin store.new ≡ D.origin store.old }
{
    let known = read_known_profiles(alloc, db, store)?;
    let unknown = read_unknown_profiles(alloc, db, store)?;
    let counts = listed(alloc, db, &known, &unknown)?;
    Ok(counts)
}

/// The text of these counts: a line `k EPOCH IMAGE EVENT OFFSET COUNT` for each place in an image and then a line
/// `u EPOCH EVENT PC COUNT` for each program counter with no known mapping.
pub fn cat_text<D: Store>(alloc: Global, db: &Database, store: &mut D) -> Result<Vec<u8>, DbFault>
    ensures printed { (files : Files) → D.files store.old ≡ Some files → HaveHead files
        (head_of db.now) →
        Gives (first_bad files (all_files (head_of db.now)))
        (λ text. IsTextOf (database_of (head_of db.now) files) text.items)
        result }
    ensures reads { OnlyReads (D.files store.old) (D.files store.new) (D.moment store.old)
        (D.moment store.new) (D.left_since store.old) (D.left_since store.new) }
    ensures cause { HasDbCause (D.faults store.old) (D.faults store.new) result }
    ensures origin { D.origin store.new ≡ D.origin store.old }
{
    let counts = database_counts(alloc, db, store)?;
    let text = counts_text(alloc, &counts)?;
    Ok(text)
}

// What the profiles of a database count, where these are its profiles.
fn listed(
    alloc: Global,
    db: &Database,
    known: &[Profile],
    unknown: &[Profile],
) -> Result<Counts, AllocError>
    requires known { length known.now ≡ length (head_of db.now).known }
    requires unknown { length unknown.now ≡ length (head_of db.now).unknown }
    ensures { IfOk result (λ counts. (spot : Spot) →
        listed_at spot (rows_of counts)
        ≡ known_total spot (head_of db.now).names (head_of db.now).known known.now
        + unknown_total spot (head_of db.now).unknown unknown.now) }
{
    let known = known_counts(alloc, db, known)?;
    let unknown = unknown_counts(alloc, db, unknown)?;
    Ok(Counts { known, unknown })
}
