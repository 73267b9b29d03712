//! The changed profiles: each is read, and what was gathered is added.
ghost use Rattle.std.specs.Prelude.{◌≡◌, ◌++◌, ℕ, Some, IfOk, OnOk, map};
ghost use Rattle.std.specs.List.Sorted.{IsStrictlySortedBy};
ghost use Rattle.std.specs.Map.{keys_of};
ghost use Rattle.std.specs.List.{AllByRecursion};
ghost use Rattle.store_io.specs.Crashes.{OnlyReads};
ghost use Rattle.store_io.specs.Files.{Files};
ghost use Rattle.epoch_store.specs.Databases.{head_of};
ghost use Rattle.epoch_store.specs.Faults.{HasDbCause};
ghost use Rattle.profile_merge.specs.Sums.{AreCounts, counts_in, sum_at};
ghost use Rattle.profile_merge.specs.Numbering.{owner_cmp};
ghost use Rattle.profile_merge.specs.Changing.{HasChangeCause};
ghost use Rattle.profile_merge.specs.Renewing.{HoldsAs, IsGathered, RenewsAll, RenewsOne, known_file, known_files, unknown_file, unknown_files};

use crate::gathered::Gathered;
use crate::merging::merged;
use crate::owners::Owner;
use crate::sums::Sums;
use database_state::{DbFault, KnownFile, UnknownFile};
use epoch_store::{Database, read_known, read_unknown};
use profile_file::Profile;
use std::alloc::{AllocError, Global};
use std::collections::BTreeMap;
use store_io::Store;

/// A changed profile, whole.
#[derive(Drop)]
pub struct Renewed {
    pub owner: Owner,
    pub profile: Profile,
}

/// The changed profiles, in the order of the parts, which is that of a commit.
pub fn renew_all<D: Store>(
    alloc: Global,
    gathered: &Gathered,
    parts: &BTreeMap<Owner, Owner>,
    db: &Database,
    store: &mut D,
) -> Result<Vec<Renewed>, DbFault>
    requires { AllByRecursion (λ part. IsGathered gathered.now part.1) parts.now.entries }
    ensures ordered { IsStrictlySortedBy owner_cmp (keys_of parts.now.entries) }
    ensures owners { IfOk result (λ all.
        map (λ one. one.owner) all.items ≡ keys_of parts.now.entries) }
    ensures renewed { (files : Files) → D.files store.old ≡ Some files →
        RenewsAll gathered.now (head_of db.now) files parts.now.entries result }
    ensures reads { OnlyReads (D.files store.old) (D.files store.new) (D.moment store.old)
        (D.moment store.new) (D.left_since store.old) (D.left_since store.new) }
    ensures cause { HasChangeCause (D.faults store.old) (D.faults store.new) result }
    ensures origin { D.origin store.new ≡ D.origin store.old }
{
    let mut all = Vec::with_capacity(alloc, parts.len())?;
    for (owner, from) in parts {
        let one = renew(alloc, gathered, *owner, *from, db, store)?;
        all.push(one)?;
    }
    Ok(all)
}

// A profile with what was gathered for another one added.
fn renew<D: Store>(
    alloc: Global,
    gathered: &Gathered,
    owner: Owner,
    from: Owner,
    db: &Database,
    store: &mut D,
) -> Result<Renewed, DbFault>
    requires { IsGathered gathered.now from }
    ensures owner { IfOk result (λ one. one.owner ≡ owner) }
    ensures renewed { (files : Files) → D.files store.old ≡ Some files →
        RenewsOne (sum_at (counts_in gathered.now from)) (head_of db.now) files owner result }
    ensures reads { OnlyReads (D.files store.old) (D.files store.new) (D.moment store.old)
        (D.moment store.new) (D.left_since store.old) (D.left_since store.new) }
    ensures cause { HasChangeCause (D.faults store.old) (D.faults store.new) result }
    ensures origin { D.origin store.new ≡ D.origin store.old }
{
    match gathered.counts(&from) {
        Some(sums) => renew_by(alloc, owner, sums, db, store),
        None => unreachable!(),
    }
}

// A profile with sums added.
fn renew_by<D: Store>(
    alloc: Global,
    owner: Owner,
    sums: &Sums,
    db: &Database,
    store: &mut D,
) -> Result<Renewed, DbFault>
    requires { AreCounts sums.now }
    ensures owner { IfOk result (λ one. one.owner ≡ owner) }
    ensures renewed { (files : Files) → D.files store.old ≡ Some files →
        RenewsOne (sum_at sums.now) (head_of db.now) files owner result }
    ensures reads { OnlyReads (D.files store.old) (D.files store.new) (D.moment store.old)
        (D.moment store.new) (D.left_since store.old) (D.left_since store.new) }
    ensures cause { HasChangeCause (D.faults store.old) (D.faults store.new) result }
    ensures origin { D.origin store.new ≡ D.origin store.old }
{
    let held = read_held(alloc, owner, db, store)?;
    let profile = merged(alloc, owner, sums, &held)?;
    Ok(Renewed { owner, profile })
}

// What a profile holds.
fn read_held<D: Store>(
    alloc: Global,
    owner: Owner,
    db: &Database,
    store: &mut D,
) -> Result<Profile, DbFault>
    ensures held { (files : Files) → D.files store.old ≡ Some files →
        HoldsAs (head_of db.now) files owner result }
    ensures reads { OnlyReads (D.files store.old) (D.files store.new) (D.moment store.old)
        (D.moment store.new) (D.left_since store.old) (D.left_since store.new) }
    ensures cause { HasDbCause (D.faults store.old) (D.faults store.new) result }
    ensures origin { D.origin store.new ≡ D.origin store.old }
{
    match owner {
        Owner::Known {
            epoch,
            image,
            event,
        } => read_known(alloc, db, store, epoch, image, event),
        Owner::Unknown { epoch, event } => read_unknown(alloc, db, store, epoch, event),
    }
}

/// The changed profiles of both kinds.
#[derive(Drop)]
pub struct Kinds {
    pub known: Vec<KnownFile>,
    pub unknown: Vec<UnknownFile>,
}

/// Splits changed profiles by their kind; each keeps its order.
pub fn split(alloc: Global, all: Vec<Renewed>) -> Result<Kinds, AllocError>
    ensures known { IfOk result (λ kinds. kinds.known.items ≡ known_files all.items) }
    ensures unknown { IfOk result (λ kinds. kinds.unknown.items ≡ unknown_files all.items) }
{
    let mut known = Vec::new(alloc);
    let mut unknown = Vec::new(alloc);
    for one in all {
        put_file(&mut known, &mut unknown, one)?;
    }
    Ok(Kinds { known, unknown })
}

fn put_file(
    known: &mut Vec<KnownFile>,
    unknown: &mut Vec<UnknownFile>,
    one: Renewed,
) -> Result<(), AllocError>
    ensures known { OnOk result (known.new.items
        ≡ known.old.items ++ known_file one.owner one.profile) }
    ensures unknown { OnOk result (unknown.new.items
        ≡ unknown.old.items ++ unknown_file one.owner one.profile) }
{
    match one.owner {
        Owner::Known {
            epoch,
            image,
            event,
        } => known.push(KnownFile {
            epoch,
            image,
            event,
            profile: one.profile,
        })?,
        Owner::Unknown { epoch, event } => unknown.push(UnknownFile {
            epoch,
            event,
            profile: one.profile,
        })?,
    }
    Ok(())
}
