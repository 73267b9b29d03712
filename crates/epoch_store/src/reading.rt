//! Reading the files of a database: a profile, an unknown profile, a part of a run.
ghost use Rattle.std.specs.Prelude.{◌≡◌, ◌≤◌, ℕ, [], true, None, Some, Ok, IfOk, find};
ghost use Rattle.store_io.specs.Crashes.{OnlyReads};
ghost use Rattle.store_io.specs.Files.{Files, contents};
ghost use Rattle.store_io.specs.FileNames.{file_name};
ghost use Rattle.store_io.specs.declared.file_refs.FileRef.TheVariants.{Segment};
ghost use Rattle.sample_key.specs.Events.{code_of};
ghost use Rattle.database_model.specs.ProfileForm.{format1};
ghost use Rattle.database_model.specs.SegmentForm.{segment};
ghost use Rattle.database_model.specs.Ranges.{IsSegment};
ghost use Rattle.database_state.specs.Rows.{is_rising, known_row, unknown_row};
ghost use Rattle.database_state.specs.Standing.{value_in, segment_file};
ghost use Rattle.epoch_store.specs.Faults.{HasDbCause};
ghost use Rattle.epoch_store.specs.Databases.{head_of};
ghost use Rattle.database_state.specs.Orders.{IsOrder};
ghost use Rattle.epoch_store.specs.Reading.{ReadsAs, Reads, ReadsRow, ReadsKnown, ReadsUnknown};

use crate::database::Database;
use crate::places::find_row;
use database_state::{DbFault, KnownRow, Placed, UnknownRow};
use profile_file::{Profile, ProfileError, read_profile};
use run_record::{RunSegment, SegmentError, read_segment};
use sample_key::Event;
use std::alloc::Global;
use store_io::{FileRef, Store, name_of};

/// Reads the profile of an epoch, an image's number and an event; the empty profile where the head has no such row.
///
/// `Bad` names the row's file exactly where it is missing or not in its form.
pub fn read_known<D: Store>(
    alloc: Global,
    db: &Database,
    store: &mut D,
    epoch: u32,
    image: u32,
    event: Event,
) -> Result<Profile, DbFault>
    ensures profile { (files : Files) → D.files store.old ≡ Some files →
        ReadsKnown files (known_row (head_of db.now).known epoch image (code_of event)) result }
    ensures absent { known_row (head_of db.now).known epoch image (code_of event) ≡ None →
        result ≡ Ok [] }
    ensures reads { OnlyReads (D.files store.old) (D.files store.new) (D.moment store.old)
        (D.moment store.new) (D.left_since store.old) (D.left_since store.new) }
    ensures cause { HasDbCause (D.faults store.old) (D.faults store.new) result }
    ensures origin { D.origin store.new ≡ D.origin store.old }
{
    let place = KnownRow {
        epoch,
        image,
        event: event.code(),
        g: 0,
    };
    read_row(alloc, db.known_rows(), place, store)
}

/// Reads the unknown profile of an epoch and an event; the empty profile where the head has no such row.
///
/// `Bad` names the row's file exactly where it is missing or not in its form.
pub fn read_unknown<D: Store>(
    alloc: Global,
    db: &Database,
    store: &mut D,
    epoch: u32,
    event: Event,
) -> Result<Profile, DbFault>
    ensures profile { (files : Files) → D.files store.old ≡ Some files →
        ReadsUnknown files (unknown_row (head_of db.now).unknown epoch (code_of event)) result }
    ensures absent { unknown_row (head_of db.now).unknown epoch (code_of event) ≡ None →
        result ≡ Ok [] }
    ensures reads { OnlyReads (D.files store.old) (D.files store.new) (D.moment store.old)
        (D.moment store.new) (D.left_since store.old) (D.left_since store.new) }
    ensures cause { HasDbCause (D.faults store.old) (D.faults store.new) result }
    ensures origin { D.origin store.new ≡ D.origin store.old }
{
    let place = UnknownRow {
        epoch,
        event: event.code(),
        g: 0,
    };
    read_row(alloc, db.unknown_rows(), place, store)
}

/// Reads the run's part that was committed at generation `g`.
///
/// `Bad` names its file exactly where it is missing or not in its form.
pub fn read_run_part<D: Store>(
    alloc: Global,
    db: &Database,
    store: &mut D,
    g: u32,
) -> Result<RunSegment, DbFault>
    requires some { 1 ≤ g }
    requires held { g ≤ (head_of db.now).generation }
    ensures ranges { IfOk result (λ part. IsSegment part) }
    ensures segment { (files : Files) → D.files store.old ≡ Some files →
        Reads (Segment g) (value_in segment (files (segment_file g))) result }
    ensures reads { OnlyReads (D.files store.old) (D.files store.new) (D.moment store.old)
        (D.moment store.new) (D.left_since store.old) (D.left_since store.new) }
    ensures cause { HasDbCause (D.faults store.old) (D.faults store.new) result }
    ensures origin { D.origin store.new ≡ D.origin store.old }
{
    let _ = db;
    let file = FileRef::Segment { g };
    let bytes = read_file(alloc, store, file)?;
    let part = segment_in(alloc, file, &bytes)?;
    Ok(part)
}

/// Reads the file of the row of a place.
fn read_row<R: Placed, D: Store>(
    alloc: Global,
    rows: &[R],
    place: R,
    store: &mut D,
) -> Result<Profile, DbFault>
    requires order { IsOrder R.before R.same }
    requires rising { is_rising R.before rows.now ≡ true }
    ensures profile { (files : Files) → D.files store.old ≡ Some files →
        ReadsRow R.file files (find (R.same place) rows.now) result }
    ensures absent { find (R.same place) rows.now ≡ None → result ≡ Ok [] }
    ensures reads { OnlyReads (D.files store.old) (D.files store.new) (D.moment store.old)
        (D.moment store.new) (D.left_since store.old) (D.left_since store.new) }
    ensures cause { HasDbCause (D.faults store.old) (D.faults store.new) result }
    ensures origin { D.origin store.new ≡ D.origin store.old }
{
    match find_row(rows, place) {
        None => Ok(Profile::new(alloc)),
        Some(row) => profile_of(alloc, store, row.file()),
    }
}

fn profile_of<D: Store>(alloc: Global, store: &mut D, file: FileRef) -> Result<Profile, DbFault>
    ensures profile { (files : Files) → D.files store.old ≡ Some files →
        Reads file (value_in format1 (files (file_name file))) result }
    ensures reads { OnlyReads (D.files store.old) (D.files store.new) (D.moment store.old)
        (D.moment store.new) (D.left_since store.old) (D.left_since store.new) }
    ensures cause { HasDbCause (D.faults store.old) (D.faults store.new) result }
    ensures origin { D.origin store.new ≡ D.origin store.old }
{
    let bytes = read_file(alloc, store, file)?;
    let profile = profile_in(alloc, file, &bytes)?;
    Ok(profile)
}

/// The profile that the bytes of a file tell.
fn profile_in(alloc: Global, file: FileRef, bytes: &[u8]) -> Result<Profile, DbFault>
    ensures profile { Reads file (value_in format1 (Some bytes.now)) result }
    ensures cause { (n : ℕ) → HasDbCause n n result }
{
    match read_profile(alloc, bytes) {
        Ok(profile) => Ok(profile),
        Err(ProfileError::Bad { .. }) => Err(DbFault::Bad { file }),
        Err(ProfileError::Memory) => Err(DbFault::Memory),
    }
}

/// The segment that the bytes of a file tell.
fn segment_in(alloc: Global, file: FileRef, bytes: &[u8]) -> Result<RunSegment, DbFault>
    ensures ranges { IfOk result (λ part. IsSegment part) }
    ensures segment { Reads file (value_in segment (Some bytes.now)) result }
    ensures cause { (n : ℕ) → HasDbCause n n result }
{
    match read_segment(alloc, bytes) {
        Ok(part) => Ok(part),
        Err(SegmentError::Bad { .. }) => Err(DbFault::Bad { file }),
        Err(SegmentError::Memory) => Err(DbFault::Memory),
    }
}

/// The bytes of a file; `Bad` exactly where it is missing.
pub fn read_file<D: Store>(alloc: Global, store: &mut D, file: FileRef) -> Result<Vec<u8>, DbFault>
    ensures bytes { (files : Files) → D.files store.old ≡ Some files →
        ReadsAs contents file (files (file_name file)) result }
    ensures reads { OnlyReads (D.files store.old) (D.files store.new) (D.moment store.old)
        (D.moment store.new) (D.left_since store.old) (D.left_since store.new) }
    ensures cause { HasDbCause (D.faults store.old) (D.faults store.new) result }
    ensures origin { D.origin store.new ≡ D.origin store.old }
{
    let name = name_of(alloc, &file)?;
    match store.read(alloc, &name)? {
        Some(bytes) => Ok(bytes),
        None => Err(DbFault::Bad { file }),
    }
}
