//! Changes that fit a database, made of the bytes of their files; each function tests what its change must meet.
ghost use Rattle.std.specs.Prelude.{◌≡◌, ◌⊎◌, ◌+◌, ◌++◌, true, length, map, IfOk};
ghost use Rattle.std.specs.List.{list_all};
ghost use Rattle.image_catalog.specs.Images.{AreImages};
ghost use Rattle.database_model.specs.Ranges.{IsSegment};
ghost use Rattle.database_state.specs.Rows.{is_rising, known_before, unknown_before};
ghost use Rattle.database_state.specs.Updates.{Fits, known_row_of, unknown_row_of, is_known_update, is_unknown_update};
ghost use Rattle.epoch_store.specs.Databases.{head_of};

use crate::errors::NoChange;
use epoch_store::{Change, Database, KnownFile, UnknownFile};
use image_catalog::{Catalog, MOST_IMAGES};
use profile_file::read_profile;
use run_record::{RunSegment, read_segment};
use sample_key::Event;
use std::alloc::Global;
use text_num::Name;

/// A change with the new image A, the profile of image 0 in an epoch, and a part.
pub fn first_change(
    alloc: Global,
    db: &Database,
    epoch: u32,
    profile: &[u8],
    part: &[u8],
) -> Result<Change, NoChange>
    ensures { IfOk result (λ c.
        Fits (head_of db.now).epoch (head_of db.now).runs (head_of db.now).names c) }
{
    let epoch = epoch_of(db.last_epoch(), epoch)?;
    let names = new_names(alloc, db.catalog(), "A")?;
    let images = image_count(db, &names);
    let known = known_of(alloc, epoch, images, 0, profile)?;
    let segment = part_of(alloc, db.runs(), part)?;
    Ok(Change {
        epoch,
        names,
        known,
        unknown: Vec::new(alloc),
        segment,
    })
}

/// A change with no new image, a profile of image 0 and an unknown profile, both in the last epoch, and a part.
pub fn second_change(
    alloc: Global,
    db: &Database,
    known: &[u8],
    unknown: &[u8],
    part: &[u8],
) -> Result<Change, NoChange>
    ensures { IfOk result (λ c.
        Fits (head_of db.now).epoch (head_of db.now).runs (head_of db.now).names c) }
{
    let epoch = db.last_epoch();
    let names = no_names(alloc, db)?;
    let images = image_count(db, &names);
    let known = known_of(alloc, epoch, images, epoch, known)?;
    let unknown = unknown_of(alloc, epoch, epoch, unknown)?;
    let segment = part_of(alloc, db.runs(), part)?;
    Ok(Change {
        epoch,
        names,
        known,
        unknown,
        segment,
    })
}

/// One image that is new.
fn new_names(alloc: Global, held: &Catalog, text: &str) -> Result<Vec<Name>, NoChange>
    ensures { IfOk result (λ names. AreImages (held.now ++ names.items)) }
{
    let name = Name::of_bytes(alloc, text.as_bytes())?.ok_or(NoChange::NotFitting)?;
    if held.names().len() >= MOST_IMAGES {
        return Err(NoChange::NotFitting);
    }
    if held.find(&name).is_some() {
        return Err(NoChange::NotFitting);
    }
    let mut names = Vec::new(alloc);
    names.push(name)?;
    Ok(names)
}

/// The profile of image 0 and cycles, in an epoch up to the last one.
fn known_of(
    alloc: Global,
    last: u32,
    images: usize,
    epoch: u32,
    bytes: &[u8],
) -> Result<Vec<KnownFile>, NoChange>
    ensures all { IfOk result (λ files. list_all (is_known_update last images) files.items ≡ true) }
    ensures rise { IfOk result (λ files.
        is_rising known_before (map (known_row_of 0) files.items) ≡ true) }
{
    let Ok(profile) = read_profile(alloc, bytes) else {
        return Err(NoChange::NotFitting);
    };
    if epoch > last {
        return Err(NoChange::NotFitting);
    }
    if images == 0 {
        return Err(NoChange::NotFitting);
    }
    let mut files = Vec::new(alloc);
    files.push(KnownFile {
        epoch,
        image: 0,
        event: Event::Cycles,
        profile,
    })?;
    Ok(files)
}

/// The unknown profile of cycles, in an epoch up to the last one.
fn unknown_of(
    alloc: Global,
    last: u32,
    epoch: u32,
    bytes: &[u8],
) -> Result<Vec<UnknownFile>, NoChange>
    ensures all { IfOk result (λ files. list_all (is_unknown_update last) files.items ≡ true) }
    ensures rise { IfOk result (λ files.
        is_rising unknown_before (map (unknown_row_of 0) files.items) ≡ true) }
{
    let Ok(profile) = read_profile(alloc, bytes) else {
        return Err(NoChange::NotFitting);
    };
    if epoch > last {
        return Err(NoChange::NotFitting);
    }
    let mut files = Vec::new(alloc);
    files.push(UnknownFile {
        epoch,
        event: Event::Cycles,
        profile,
    })?;
    Ok(files)
}

/// The part of the last run or of the next.
fn part_of(alloc: Global, runs: u32, bytes: &[u8]) -> Result<RunSegment, NoChange>
    ensures part { IfOk result IsSegment }
    ensures run { IfOk result (λ part. (part.run ≡ runs) ⊎ (part.run ≡ runs + 1)) }
{
    let Ok(part) = read_segment(alloc, bytes) else {
        return Err(NoChange::NotFitting);
    };
    if part.run != runs && u64::from(part.run) != u64::from(runs) + 1 {
        return Err(NoChange::NotFitting);
    }
    Ok(part)
}

/// The next epoch, or the last one again.
fn epoch_of(last: u32, epoch: u32) -> Result<u32, NoChange>
    ensures { IfOk result (λ next. (next ≡ last) ⊎ (next ≡ last + 1)) }
{
    if epoch != last && u64::from(epoch) != u64::from(last) + 1 {
        return Err(NoChange::NotFitting);
    }
    Ok(epoch)
}

/// No image that is new.
fn no_names(alloc: Global, db: &Database) -> Result<Vec<Name>, NoChange>
    ensures { IfOk result (λ names. AreImages ((head_of db.now).names ++ names.items)) }
{
    let _images = db.catalog().names();
    Ok(Vec::new(alloc))
}

/// How many images there are with these.
fn image_count(db: &Database, names: &[Name]) -> usize
    ensures { result ≡ length ((head_of db.now).names ++ names.now) }
{
    db.catalog().names().len() + names.len()
}
