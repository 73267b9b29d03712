//! Questions to the database that a store stands for, and its answers as text.

use database_state::DbFault;
use epoch_store::{Database, open_database, read_known, read_run_part, read_unknown};
use sample_key::Event;
use std::alloc::Global;
use std::test::Fail;
use store_io::{Left, MemStore, Store, StoreFail};
use text_num::Name;

/// A question to the database that a store stands for.
#[derive(Clone, Copy)]
pub(crate) enum Ask {
    /// The generation, the last epoch, the number of runs, and the rows of both kinds.
    Head,
    /// The profile of image 0 in an epoch, for an event.
    Known(u32, Event),
    /// The unknown profile of cycles in an epoch.
    Unknown(u32),
    /// The part of a run that was committed at a generation.
    Part(u32),
}

/// The answers, each as it is printed and with a line's end behind it; where there is none, why not.
pub(crate) fn told<D: Store>(alloc: Global, store: &mut D, asks: &[Ask]) -> Result<String, Fail> {
    let mut text = String::new(alloc);
    for ask in asks {
        match answer_of(alloc, store, *ask) {
            Ok(answer) => text.push_str(answer.as_str())?,
            Err(fault) => text.push_str(format!(in alloc; "{fault:?}")?.as_str())?,
        }
        text.push('\n')?;
    }
    Ok(text)
}

fn answer_of<D: Store>(alloc: Global, store: &mut D, ask: Ask) -> Result<String, DbFault> {
    let db = open_database(alloc, store)?;
    match ask {
        Ask::Head => head_of(alloc, &db),
        Ask::Known(epoch, event) => {
            let profile = read_known(alloc, &db, store, epoch, 0, event)?;
            Ok(format!(in alloc; "{:?}", profile.rows())?)
        }
        Ask::Unknown(epoch) => {
            let profile = read_unknown(alloc, &db, store, epoch, Event::Cycles)?;
            Ok(format!(in alloc; "{:?}", profile.rows())?)
        }
        Ask::Part(g) => part_of(alloc, &db, store, g),
    }
}

fn head_of(alloc: Global, db: &Database) -> Result<String, DbFault> {
    let (generation, epoch, runs) = (db.generation(), db.last_epoch(), db.runs());
    let (known, unknown) = (db.known_rows(), db.unknown_rows());
    Ok(format!(in alloc; "{generation} {epoch} {runs} {known:?} {unknown:?}")?)
}

fn part_of<D: Store>(
    alloc: Global,
    db: &Database,
    store: &mut D,
    g: u32,
) -> Result<String, DbFault> {
    if g < 1 || g > db.generation() {
        return Ok(String::new(alloc));
    }
    let part = read_run_part(alloc, db, store, g)?;
    Ok(format!(in alloc; "{part:?}")?)
}

/// A store of which one call fails, and leaves nothing, what stood there, or these bytes.
pub(crate) fn failing(alloc: Global, call: u64, left: &str) -> Result<MemStore, Fail> {
    let left = match left {
        "absent" => Left::Absent,
        "as before" => Left::AsBefore,
        _ => Left::Bytes(Vec::from_slice(alloc, left.as_bytes())?),
    };
    let mut fails = Vec::new(alloc);
    fails.push(StoreFail { call, left })?;
    Ok(MemStore::new(alloc, fails))
}

/// A store without faults and with these files.
pub(crate) fn filled(alloc: Global, files: &[(&str, &[u8])]) -> Result<MemStore, Fail> {
    let mut store = MemStore::new(alloc, Vec::new(alloc));
    for (name, bytes) in files {
        let name = Name::of_bytes(alloc, name.as_bytes())?.ok_or("no name")?;
        store.write(alloc, &name, bytes)?;
    }
    Ok(store)
}
