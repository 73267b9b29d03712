//! Listings of runs, as tables.

use crate::segments::*;
use database_tests::{first_change, second_change};
use epoch_store::{DbFault, commit, open_database};
use run_listing::{runs_stand_in_order, runs_text};
use std::alloc::Global;
use std::test::Fail;
use store_io::{FileRef, Left, MemStore, Store, StoreFail};
use text_num::Name;

// Offset 8 counted 3 times: the profile that each commit writes.
const PROFILE: &[u8] = &[1, 1, 2, 3];

/// A store into which these parts were committed, one after the other.
fn committed(alloc: Global, parts: &[&[u8]]) -> Result<MemStore, Fail> {
    let mut store = MemStore::new(alloc, Vec::new(alloc));
    for part in parts {
        add(alloc, &mut store, part)?;
    }
    Ok(store)
}

fn add(alloc: Global, store: &mut MemStore, part: &[u8]) -> Result<(), Fail> {
    let mut db = open_database(alloc, store)?;
    if db.generation() == 0 {
        let first = first_change(alloc, &db, 0, PROFILE, part)?;
        commit(alloc, &mut db, store, &first)?;
        return Ok(());
    }
    let next = second_change(alloc, &db, PROFILE, PROFILE, part)?;
    commit(alloc, &mut db, store, &next)?;
    Ok(())
}

// What was committed, and the text of its runs.
const LISTED: [(&[&[u8]], &str); 9] = [
    (&[], ""),
    (&[NOTHING_TAKEN], "run 1 parts 1 whole\n"),
    (
        &[FOLDED, FOLDED_AGAIN],
        "run 1 parts 1 whole\nc 0 cycles taken 3 known 3 unknown 0 lost 0\n\
        run 2 parts 1 whole\nc 0 cycles taken 3 known 3 unknown 0 lost 0\n",
    ),
    (
        &[BOTH_OUT],
        "run 1 parts 1 whole\nc 0 cycles taken 7 known 0 unknown 6 lost 1\n",
    ),
    (
        &[FIRST_EPOCH, SECOND_EPOCH],
        "run 1 parts 2 whole\nc 0 cycles taken 2 known 2 unknown 0 lost 0\n",
    ),
    (
        &[FIRST_EPOCH],
        "run 1 parts 1 cut\nc 0 cycles taken 1 known 1 unknown 0 lost 0\n",
    ),
    (
        &[FIRST_EPOCH, FOLDED_AGAIN],
        "run 1 parts 1 cut\nc 0 cycles taken 1 known 1 unknown 0 lost 0\n\
        run 2 parts 1 whole\nc 0 cycles taken 3 known 3 unknown 0 lost 0\n",
    ),
    (
        &[MIXED],
        "run 1 parts 1 whole\nc 0 cycles taken 5 known 3 unknown 2 lost 0\n\
        c 1 cycles taken 1 known 0 unknown 0 lost 1\nc 2 branchmp taken 5 known 0 unknown 5 lost 0\n",
    ),
    (
        &[RUN_1_PART_0, RUN_1_PART_1, RUN_1_PART_2],
        "run 1 parts 3 cut\n",
    ),
];

#[test]
fn runs_are_listed(rt: HostRuntime) -> Result<(), Fail> {
    let alloc = rt.alloc();
    for (parts, text) in LISTED {
        let mut store = committed(alloc, parts)?;
        let db = open_database(alloc, &mut store)?;
        let listed = runs_text(alloc, &db, &mut store)?;
        assert_eq!(rt; listed.as_slice(), text.as_bytes());
    }
    Ok(())
}

/// A store of which a call fails, with these segments, put there by hand under a head.
fn laid(alloc: Global, call: u64, segments: &[&[u8]]) -> Result<MemStore, Fail> {
    let mut fails = Vec::new(alloc);
    let left = Left::AsBefore;
    fails.push(StoreFail { call, left })?;
    let mut store = MemStore::new(alloc, fails);
    for (before, segment) in segments.iter().enumerate() {
        if *segment != MISSING {
            put(alloc, &mut store, "r", before + 1, segment)?;
        }
    }
    let g = segments.len();
    let head = format!(in alloc;
        "dcpi-head 1\ngeneration {g}\nepoch 0\nruns 1\nimages 0\nprofiles 0\nunknowns 0\n"
    )?;
    put(alloc, &mut store, "head", g, head.as_bytes())?;
    put(alloc, &mut store, "seal", g, b"")?;
    Ok(store)
}

fn put(
    alloc: Global,
    store: &mut MemStore,
    kind: &str,
    g: usize,
    bytes: &[u8],
) -> Result<(), Fail> {
    let name = format!(in alloc; "{kind}.{g}")?;
    let name = Name::of_bytes(alloc, name.as_bytes())?.ok_or("no name")?;
    store.write(alloc, &name, bytes)?;
    Ok(())
}

// Segments by their generations, and the first that is bad or out of order.
const BAD: [(&[&[u8]], u32); 13] = [
    (&[MISSING], 1),
    (&[NO_SEGMENT], 1),
    (&[RUN_1_PART_1], 1),
    (&[RUN_2_PART_0], 1),
    (&[RUN_1_PART_0, RUN_1_PART_2], 2),
    (&[RUN_1_PART_0, RUN_1_PART_0], 2),
    (&[RUN_1_WHOLE, RUN_1_PART_1], 2),
    (&[RUN_1_PART_0, RUN_2_PART_1], 2),
    (&[RUN_1_WHOLE, RUN_3_PART_0], 2),
    (&[RUN_1_WHOLE, RUN_2_PART_0, RUN_1_PART_0], 3),
    (&[RUN_1_PART_0, MISSING, NO_SEGMENT], 2),
    (&[RUN_1_PART_0, RUN_1_PART_2, MISSING], 2),
    (&[RUN_1_PART_0, NO_SEGMENT, RUN_3_PART_0], 2),
];

#[test]
fn the_first_bad_segment_is_named(rt: HostRuntime) -> Result<(), Fail> {
    let alloc = rt.alloc();
    for (segments, g) in BAD {
        let mut store = laid(alloc, 0, segments)?;
        let db = open_database(alloc, &mut store)?;
        let fault = runs_text(alloc, &db, &mut store).err();
        let file = FileRef::Segment { g };
        assert_eq!(rt; fault, Some(DbFault::Bad { file }));
    }
    Ok(())
}

// Calls 1 to 4 write the files, 5 and 6 open the database, 7 and 8 read its segments.
#[test]
fn a_failing_store_is_told(rt: HostRuntime) -> Result<(), Fail> {
    let alloc = rt.alloc();
    for call in [7, 8] {
        let mut store = laid(alloc, call, &[RUN_1_PART_0, RUN_1_PART_1])?;
        let db = open_database(alloc, &mut store)?;
        let fault = runs_text(alloc, &db, &mut store).err();
        assert_eq!(rt; fault, Some(DbFault::StoreFault));
        let text = runs_text(alloc, &db, &mut store)?;
        assert_eq!(rt; text.as_slice(), b"run 1 parts 2 cut\n".as_slice());
    }
    let mut store = laid(alloc, 8, &[RUN_1_PART_1, RUN_1_PART_2])?;
    let db = open_database(alloc, &mut store)?;
    let fault = runs_text(alloc, &db, &mut store).err();
    let file = FileRef::Segment { g: 1 };
    assert_eq!(rt; fault, Some(DbFault::Bad { file }));
    Ok(())
}

#[test]
fn the_law_can_be_called() {
    runs_stand_in_order();
}
