//! Commits over a store in memory, whose writes fail in turn, and over a folder.

use crate::asks::{Ask, failing, filled, told};
use crate::changes::{first_change, second_change};
use epoch_store::{
    DbError, DbFault, commit, files_stand_for_one_database, open_database,
    readers_read_the_database, what_stands_is_within_limits,
};
use sample_key::Event;
use std::alloc::Global;
use std::test::Fail;
use std::{env, fs, process};
use store_io::{DirStore, Store};

// the first part of run 1, and its last part, of one processor without losses
const FIRST_PART: &[u8] = &[1, 1, 0, 0, 0, 0];

const LAST_PART: &[u8] = &[1, 1, 1, 1, 0, 0, 1, 0];

// run 1 in one part: a drain of a table batch that answers 1 and has no entries, and one processor without losses
const WHOLE_RUN: &[u8] = &[1, 1, 0, 1, 0, 1, 0, 0, 0, 2, 1, 0, 1, 0, 0, 0, 1, 0];

// offset 8 counted 3 times, and offset 0 counted once
const THREE: &[u8] = &[1, 1, 2, 3];

const ONE: &[u8] = &[1, 1, 0, 1];

/// Two commits, as far as they were not made yet: a count in epoch 0, and then one in epoch 1 and an unknown one. Answers
/// whether none failed.
fn go_on<D: Store>(alloc: Global, store: &mut D) -> Result<bool, Fail> {
    let mut db = open_database(alloc, store)?;
    if db.generation() == 0 {
        let first = first_change(alloc, &db, 1, ONE, FIRST_PART)?;
        if commit(alloc, &mut db, store, &first).is_err() {
            return Ok(false);
        }
    }
    if db.generation() == 1 {
        let second = second_change(alloc, &db, ONE, ONE, LAST_PART)?;
        if commit(alloc, &mut db, store, &second).is_err() {
            return Ok(false);
        }
    }
    Ok(true)
}

// all that the two commits bring, and what is told of it behind none, the first, and both
const ALL: [Ask; 6] = [
    Ask::Head,
    Ask::Known(0, Event::Cycles),
    Ask::Known(1, Event::Cycles),
    Ask::Unknown(1),
    Ask::Part(1),
    Ask::Part(2),
];

const NONE_MADE: &str = "0 0 0 [] []\n[]\n[]\n[]\n\n\n";

const ONE_MADE: &str = "1 1 1 [KnownRow { epoch: 0, image: 0, event: 0, g: 1 }] []\n\
    [ProfileRow { offset: 0, count: 1 }]\n[]\n[]\n\
    RunSegment { run: 1, part: 0, last: false, first_epoch: 0, drains: [], losses: [] }\n\n";

const BOTH_MADE: &str = "2 1 1 [KnownRow { epoch: 0, image: 0, event: 0, g: 1 }, \
    KnownRow { epoch: 1, image: 0, event: 0, g: 2 }] [UnknownRow { epoch: 1, event: 0, g: 2 }]\n\
    [ProfileRow { offset: 0, count: 1 }]\n[ProfileRow { offset: 0, count: 1 }]\n\
    [ProfileRow { offset: 0, count: 1 }]\n\
    RunSegment { run: 1, part: 0, last: false, first_epoch: 0, drains: [], losses: [] }\n\
    RunSegment { run: 1, part: 1, last: true, first_epoch: 0, drains: [], losses: [[]] }\n";

/// The names of a store, each with a blank after it.
fn listed<D: Store>(alloc: Global, store: &mut D) -> Result<Vec<u8>, Fail> {
    let mut all = Vec::new(alloc);
    for name in &store.names(alloc)? {
        all.extend_from_slice(name.bytes())?;
        all.push(b' ')?;
    }
    Ok(all)
}

#[test]
fn the_first_commit(rt: HostRuntime) -> Result<(), Fail> {
    let alloc = rt.alloc();
    let mut store = filled(alloc, &[])?;
    let mut db = open_database(alloc, &mut store)?;
    let change = first_change(alloc, &db, 0, THREE, WHOLE_RUN)?;
    commit(alloc, &mut db, &mut store, &change)?;
    let names = listed(alloc, &mut store)?;
    assert_eq!(rt;
        names.as_slice(),
        b"head.1 p.0.0.0.1 r.1 seal.1 ".as_slice()
    );
    let told = told(
        alloc,
        &mut store,
        &[Ask::Head, Ask::Known(0, Event::Cycles)],
    )?;
    assert_eq!(rt;
        told.as_str(),
        "1 0 1 [KnownRow { epoch: 0, image: 0, event: 0, g: 1 }] []\n\
        [ProfileRow { offset: 8, count: 3 }]\n"
    );
    Ok(())
}

#[test]
fn a_fault_stops_the_value(rt: HostRuntime) -> Result<(), Fail> {
    let alloc = rt.alloc();
    let mut store = failing(alloc, 4, "absent")?;
    let mut db = open_database(alloc, &mut store)?;
    let change = first_change(alloc, &db, 0, THREE, WHOLE_RUN)?;
    match commit(alloc, &mut db, &mut store, &change) {
        Ok(()) => Err("the commit did not fail".into()),
        Err(fault) => {
            let again = commit(alloc, &mut db, &mut store, &change);
            let first = DbError::Fault(DbFault::StoreFault);
            let then = DbError::Stopped(DbFault::StoreFault);
            assert_eq!(rt; (fault, again), (first, Err(then)));
            Ok(())
        }
    }
}

// A call that fails, and what is told where it leaves nothing or what stood there, and where it leaves other bytes: the
// seal alone decides. Call 1 lists the names; the first commit writes at 2 to 5, the second at 6 to 10.
const TORN: [(u64, &str, &str); 9] = [
    (2, NONE_MADE, NONE_MADE),
    (3, NONE_MADE, NONE_MADE),
    (4, NONE_MADE, NONE_MADE),
    (5, NONE_MADE, ONE_MADE),
    (6, ONE_MADE, ONE_MADE),
    (7, ONE_MADE, ONE_MADE),
    (8, ONE_MADE, ONE_MADE),
    (9, ONE_MADE, ONE_MADE),
    (10, ONE_MADE, BOTH_MADE),
];

// The database is that of the commits that were sealed, and the same commits can be made again.
#[test]
fn torn_writes_leave_it_whole(rt: HostRuntime) -> Result<(), Fail> {
    let alloc = rt.alloc();
    for (call, without, torn) in TORN {
        for (left, made) in [("absent", without), ("as before", without), ("1", torn)] {
            let mut store = failing(alloc, call, left)?;
            let failed = !go_on(alloc, &mut store)?;
            let found = told(alloc, &mut store, &ALL)?;
            assert_eq!(rt; (failed, found.as_str()), (true, made), "{call} {left}");
            assert!(rt; go_on(alloc, &mut store)?);
            assert_eq!(rt; told(alloc, &mut store, &ALL)?.as_str(), BOTH_MADE);
        }
    }
    Ok(())
}

#[test]
fn an_empty_folder_keeps_it(rt: HostRuntime) -> Result<(), Fail> {
    let alloc = rt.alloc();
    let id = process::id(rt.process());
    let above = env::temp_dir(&rt)?;
    let path = format!(in alloc; "{}/epoch_store.{id}", above.as_path().display())?;
    fs::create_dir(&rt, path.as_str())?;
    let mut store = DirStore::at(&rt, path.clone()?);
    assert!(rt; go_on(alloc, &mut store)?);
    assert_eq!(rt; told(alloc, &mut store, &ALL)?.as_str(), BOTH_MADE);
    fs::remove_dir_all(&rt, path.as_str())?;
    assert_eq!(rt;
        told(alloc, &mut store, &[Ask::Head])?.as_str(),
        "StoreFault\n"
    );
    Ok(())
}

#[test]
fn laws_can_be_called() {
    readers_read_the_database();
    files_stand_for_one_database();
    what_stands_is_within_limits();
}
