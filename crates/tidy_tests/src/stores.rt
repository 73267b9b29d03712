//! Stores with commits and other files in them, and what they have.

use database_tests::{first_change, second_change};
use epoch_store::{DbFault, commit, open_database, read_known, read_run_part, read_unknown};
use sample_key::Event;
use std::alloc::Global;
use std::test::Fail;
use store_io::{Left, MemStore, Store, StoreFail};
use store_tidy::tidy;
use text_num::Name;

/// The profile of offset 0 with the count 1, and its part: one drain, behind which more of the run comes.
const PROFILE: [u8; 4] = [1, 1, 0, 1];

const FIRST_PART: [u8; 6] = [1, 1, 0, 0, 0, 0];
/// The unknown profile of the address 11000 with the count 1, and the last part of the run.
const UNKNOWN: [u8; 6] = [1, 1, 0x80, 0x88, 1, 1];

const LAST_PART: [u8; 8] = [1, 1, 1, 1, 0, 0, 1, 0];

/// What a failed call leaves.
#[derive(Clone, Copy)]
pub(crate) enum Leaves {
    Absent,
    AsBefore,
    OneByte,
}

/// A store with no files, of which one call fails, from 1; none where it is 0.
pub(crate) fn store_failing(alloc: Global, call: u64, leaves: Leaves) -> Result<MemStore, Fail> {
    let mut fails = Vec::new(alloc);
    if call > 0 {
        let left = left_of(alloc, leaves)?;
        fails.push(StoreFail { call, left })?;
    }
    Ok(MemStore::new(alloc, fails))
}

fn left_of(alloc: Global, leaves: Leaves) -> Result<Left, Fail> {
    Ok(match leaves {
        Leaves::Absent => Left::Absent,
        Leaves::AsBefore => Left::AsBefore,
        Leaves::OneByte => Left::Bytes(Vec::from_slice(alloc, &[1])?),
    })
}

/// Puts files there by hand; their bytes are nowhere read.
pub(crate) fn put_all<D: Store>(alloc: Global, store: &mut D, names: &[&str]) -> Result<(), Fail> {
    for name in names {
        let name = Name::of_bytes(alloc, name.as_bytes())?.ok_or("no name")?;
        store.write(alloc, &name, &[1])?;
    }
    Ok(())
}

/// Commits to a store so often: first a profile of epoch 0, then a profile and an unknown one of epoch 1. Answers whether
/// each was whole.
pub(crate) fn commit_some<D: Store>(
    alloc: Global,
    store: &mut D,
    commits: u32,
) -> Result<bool, Fail> {
    let mut whole = true;
    for k in 0..commits {
        whole = whole && commit_one(alloc, store, k)?;
    }
    Ok(whole)
}

fn commit_one<D: Store>(alloc: Global, store: &mut D, k: u32) -> Result<bool, Fail> {
    let mut db = open_database(alloc, store)?;
    let change = if k == 0 {
        first_change(alloc, &db, 1, &PROFILE, &FIRST_PART)?
    } else {
        second_change(alloc, &db, &PROFILE, &UNKNOWN, &LAST_PART)?
    };
    Ok(commit(alloc, &mut db, store, &change).is_ok())
}

/// The names of a store's files, each followed by a space.
pub(crate) fn names_of<D: Store>(alloc: Global, store: &mut D) -> Result<Vec<u8>, Fail> {
    let mut text = Vec::new(alloc);
    for name in store.names(alloc)? {
        text.extend_from_slice(name.bytes())?;
        text.push(b' ')?;
    }
    Ok(text)
}

/// Whether a store has a file of this name.
pub(crate) fn has<D: Store>(alloc: Global, store: &mut D, name: &str) -> Result<bool, Fail> {
    let name = Name::of_bytes(alloc, name.as_bytes())?.ok_or("no name")?;
    Ok(store.read(alloc, &name)?.is_some())
}

/// Opens the database that a store stands for, and removes what it does not use.
pub(crate) fn tidied<D: Store>(alloc: Global, store: &mut D) -> Result<u64, DbFault> {
    let db = open_database(alloc, store)?;
    tidy(alloc, &db, store)
}

/// What a store's files say: the head's numbers, the profiles of the image 0 and the unknown ones of both epochs, and the
/// first part.
pub(crate) fn said<D: Store>(alloc: Global, store: &mut D) -> Result<String, Fail> {
    let db = open_database(alloc, store)?;
    let (generation, epoch, runs) = (db.generation(), db.last_epoch(), db.runs());
    let mut text = format!(in alloc; "{generation} {epoch} {runs}")?;
    for epoch in [0, 1] {
        let known = read_known(alloc, &db, store, epoch, 0, Event::Cycles)?;
        let unknown = read_unknown(alloc, &db, store, epoch, Event::Cycles)?;
        let rows = format!(in alloc; " {:?} {:?}", known.rows(), unknown.rows())?;
        text.push_str(rows.as_str())?;
    }
    if generation > 0 {
        let part = read_run_part(alloc, &db, store, 1)?;
        let (run, number) = (part.run, part.part);
        text.push_str(format!(in alloc; " {run} {number}")?.as_str())?;
    }
    Ok(text)
}
