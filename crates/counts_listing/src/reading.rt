//! Reading all profiles of a database: the known ones and the unknown ones, each in the order of the head.
ghost use Rattle.std.specs.Prelude.{◌≡◌, Some, IfOk, length, map};
ghost use Rattle.store_io.specs.Files.{Files};
ghost use Rattle.store_io.specs.Crashes.{OnlyReads};
ghost use Rattle.database_state.specs.Rows.{known_ref, unknown_ref};
ghost use Rattle.epoch_store.specs.Databases.{head_of};
ghost use Rattle.epoch_store.specs.Faults.{HasDbCause};
ghost use Rattle.dcpiprof_report.specs.Reading.{Gives, first_bad};
ghost use Rattle.counts_listing.specs.Sections.{all_told};

use crate::sections::event_of;
use epoch_store::{Database, DbFault, read_known, read_unknown};
use profile_file::Profile;
use std::alloc::Global;
use store_io::Store;

/// The profiles of the known rows.
pub(crate) fn read_known_profiles<D: Store>(
    alloc: Global,
    db: &Database,
    store: &mut D,
) -> Result<Vec<Profile>, DbFault>
    ensures told { (files : Files) → D.files store.old ≡ Some files →
        Gives (first_bad files (map known_ref (head_of db.now).known))
        (λ profiles. profiles.items ≡ all_told files known_ref (head_of db.now).known)
        result }
    ensures many { IfOk result (λ profiles. length profiles.items
        ≡ length (head_of db.now).known) }
    ensures reads { OnlyReads (D.files store.old) (D.files store.new) (D.moment store.old)
        (D.moment store.new) (D.left_since store.old) (D.left_since store.new) }
    ensures cause { HasDbCause (D.faults store.old) (D.faults store.new) result }
    ensures origin { D.origin store.new ≡ D.origin store.old }
{
    let rows = db.known_rows();
    let mut profiles = Vec::with_capacity(alloc, rows.len())?;
    for row in rows {
        let event = event_of(row.event);
        let profile = read_known(alloc, db, store, row.epoch, row.image, event)?;
        profiles.push(profile)?;
    }
    Ok(profiles)
}

/// The profiles of the unknown rows.
pub(crate) fn read_unknown_profiles<D: Store>(
    alloc: Global,
    db: &Database,
    store: &mut D,
) -> Result<Vec<Profile>, DbFault>
    ensures told { (files : Files) → D.files store.old ≡ Some files →
        Gives (first_bad files (map unknown_ref (head_of db.now).unknown))
        (λ profiles. profiles.items ≡ all_told files unknown_ref (head_of db.now).unknown)
        result }
    ensures many { IfOk result (λ profiles. length profiles.items
        ≡ length (head_of db.now).unknown) }
    ensures reads { OnlyReads (D.files store.old) (D.files store.new) (D.moment store.old)
        (D.moment store.new) (D.left_since store.old) (D.left_since store.new) }
    ensures cause { HasDbCause (D.faults store.old) (D.faults store.new) result }
    ensures origin { D.origin store.new ≡ D.origin store.old }
{
    let rows = db.unknown_rows();
    let mut profiles = Vec::with_capacity(alloc, rows.len())?;
    for row in rows {
        let event = event_of(row.event);
        let profile = read_unknown(alloc, db, store, row.epoch, event)?;
        profiles.push(profile)?;
    }
    Ok(profiles)
}
