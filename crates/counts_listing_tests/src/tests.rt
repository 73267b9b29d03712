//! The text of all counts, the file that is named, and faults, as tables.

use crate::stores::{
    BOUNDARY, EMPTY_PROFILES, FIVE_IMAGES, LARGE_COUNT, LATER_NAME_FIRST, MOST_COUNTED, NO_SAMPLES,
    NOTHING, ONE_PLACE, SIX_UNKNOWN, TWO_EPOCHS,
};
use counts_listing::{a_database_has_one_listing, cat_text, database_counts};
use database_tests::{first_change, second_change};
use epoch_store::{DbFault, commit, open_database};
use sample_key::Event;
use std::alloc::Global;
use std::test::Fail;
use store_io::{FileRef, Left, MemStore, Store, StoreFail};
use text_num::Name;

// each store with the text of its counts
const TEXTS: &[(&[(&str, &[u8])], &str)] = &[
    (NOTHING, ""),
    (NO_SAMPLES, ""),
    (ONE_PLACE, "k 0 /bin/app cycles 8 3\n"),
    (
        SIX_UNKNOWN,
        "u 0 cycles 1000 1\nu 0 cycles 1004 1\nu 0 cycles 1008 1\nu 0 cycles 100c 1\n\
         u 0 cycles 1010 1\nu 0 cycles 1014 1\n",
    ),
    (LARGE_COUNT, "u 0 cycles 1000 65536\n"),
    (BOUNDARY, "k 0 A imiss ffc 1\nu 0 imiss 11000 1\n"),
    (
        LATER_NAME_FIRST,
        "k 0 new cycles 10 1\nk 0 vmunix cycles 20 1\nu 0 cycles 120000010 1\n",
    ),
    (TWO_EPOCHS, "k 0 A cycles 0 1\nk 1 A cycles 0 1\n"),
    (MOST_COUNTED, "k 0 A cycles 4 281474976710656\n"),
    (
        FIVE_IMAGES,
        "k 0 /usr/bin/X cycles 1000 10\nk 0 /usr/bin/X cycles 2000 3\n\
         k 0 /usr/bin/cc cycles 100 5\nk 0 /usr/bin/cc dmiss 100 1\n\
         k 0 /usr/bin/sh cycles 40 3\nk 0 /usr/shlib/libc.so cycles 400 12\n\
         k 0 /vmunix cycles 1000 5\nu 0 cycles 120000000 1\n",
    ),
    (
        EMPTY_PROFILES,
        "k 0 b cycles 0 1\nk 1 a cycles 8 3\nk 1 b cycles 4 2\n\
         u 0 branchmp c 4\nu 1 cycles 4 5\n",
    ),
];

/// A store with these files, of which one call fails, from 1; none where it is 0.
fn store_of(alloc: Global, files: &[(&str, &[u8])], call: u64) -> Result<MemStore, Fail> {
    let mut fails = Vec::new(alloc);
    if call > 0 {
        let left = Left::AsBefore;
        fails.push(StoreFail { call, left })?;
    }
    let mut store = MemStore::new(alloc, fails);
    for (name, bytes) in files {
        put(alloc, &mut store, name, bytes)?;
    }
    Ok(store)
}

fn put(alloc: Global, store: &mut MemStore, name: &str, bytes: &[u8]) -> Result<(), Fail> {
    let name = Name::of_bytes(alloc, name.as_bytes())?.ok_or("no name")?;
    store.write(alloc, &name, bytes)?;
    Ok(())
}

/// The text of the counts of the database that a store stands for.
fn printed(alloc: Global, store: &mut MemStore) -> Result<Vec<u8>, DbFault> {
    let db = open_database(alloc, store)?;
    cat_text(alloc, &db, store)
}

#[test]
fn counts_are_printed(rt: HostRuntime) -> Result<(), Fail> {
    for (files, text) in TEXTS {
        let mut store = store_of(rt.alloc(), files, 0)?;
        let all = printed(rt.alloc(), &mut store)?;
        assert_eq!(rt; all.as_slice(), text.as_bytes());
    }
    Ok(())
}

#[test]
fn counts_are_listed_by_name(rt: HostRuntime) -> Result<(), Fail> {
    let alloc = rt.alloc();
    let mut store = store_of(alloc, LATER_NAME_FIRST, 0)?;
    let db = open_database(alloc, &mut store)?;
    let counts = database_counts(alloc, &db, &mut store)?;
    let mut rows = String::new(alloc);
    for count in &counts.known {
        let (epoch, event) = (count.epoch, count.event);
        let (offset, many) = (count.offset, count.count);
        rows.push_str(format!(in alloc; "{epoch} {event:?} {offset} {many}, ")?.as_str())?;
    }
    for count in &counts.unknown {
        rows.push_str(format!(in alloc; "{count:?}")?.as_str())?;
    }
    assert_eq!(rt;
        rows.as_str(),
        "0 Cycles 16 1, 0 Cycles 32 1, \
         UnknownCount { epoch: 0, event: Cycles, pc: 4831838224, count: 1 }"
    );
    let mut names = Vec::new(alloc);
    for count in &counts.known {
        names.extend_from_slice(count.image.bytes())?;
        names.push(b' ')?;
    }
    assert_eq!(rt; names.as_slice(), b"new vmunix ".as_slice());
    a_database_has_one_listing();
    Ok(())
}

#[test]
fn commits_are_printed(rt: HostRuntime) -> Result<(), Fail> {
    let alloc = rt.alloc();
    let mut store = MemStore::new(alloc, Vec::new(alloc));
    let mut db = open_database(alloc, &mut store)?;
    assert_eq!(rt;
        cat_text(alloc, &db, &mut store)?.as_slice(),
        b"".as_slice()
    );
    let first = first_change(alloc, &db, 1, &[1, 1, 0, 1], &[1, 1, 0, 0, 0, 0])?;
    assert!(rt; commit(alloc, &mut db, &mut store, &first).is_ok());
    let text = cat_text(alloc, &db, &mut store)?;
    assert_eq!(rt; text.as_slice(), b"k 0 A cycles 0 1\n".as_slice());
    let (known, unknown) = ([1, 1, 0, 1], [1, 1, 0x80, 0x88, 1, 1]);
    let second = second_change(alloc, &db, &known, &unknown, &[1, 1, 1, 1, 0, 0, 1, 0])?;
    assert!(rt; commit(alloc, &mut db, &mut store, &second).is_ok());
    let text = cat_text(alloc, &db, &mut store)?;
    assert_eq!(rt;
        text.as_slice(),
        b"k 0 A cycles 0 1\nk 1 A cycles 0 1\nu 1 cycles 11000 1\n".as_slice()
    );
    let text = printed(alloc, &mut store)?;
    assert_eq!(rt;
        text.as_slice(),
        b"k 0 A cycles 0 1\nk 1 A cycles 0 1\nu 1 cycles 11000 1\n".as_slice()
    );
    Ok(())
}

const VMUNIX: FileRef = FileRef::Known {
    epoch: 0,
    image: 0,
    event: 0,
    g: 1,
};

const NEW: FileRef = FileRef::Known {
    epoch: 0,
    image: 1,
    event: 0,
    g: 1,
};

const UNKNOWN: FileRef = FileRef::Unknown {
    epoch: 0,
    event: 0,
    g: 1,
};

// damaged files of two images whose numbers are not in the order of their names, with the file that is named
const DAMAGED: &[(&[&str], FileRef)] = &[
    (&["u.0.0.1"], UNKNOWN),
    (&["p.0.1.0.1"], NEW),
    (&["u.0.0.1", "p.0.1.0.1"], NEW),
    (&["p.0.1.0.1", "p.0.0.0.1"], VMUNIX),
    (&["u.0.0.1", "p.0.1.0.1", "p.0.0.0.1"], VMUNIX),
];

#[test]
fn the_first_bad_file_is_named(rt: HostRuntime) -> Result<(), Fail> {
    let alloc = rt.alloc();
    for (names, file) in DAMAGED {
        let mut store = store_of(alloc, LATER_NAME_FIRST, 0)?;
        for name in *names {
            put(alloc, &mut store, name, &[2])?;
        }
        let named = Some(DbFault::Bad { file: *file });
        assert_eq!(rt; printed(alloc, &mut store).err(), named);
        for name in *names {
            let name = Name::of_bytes(alloc, name.as_bytes())?.ok_or("no name")?;
            store.remove(alloc, &name)?;
        }
        assert_eq!(rt; printed(alloc, &mut store).err(), named);
    }
    Ok(())
}

// which call fails behind the five that put the files, the listing of names and the head; what is answered
const FAULTS: [(u64, Option<DbFault>); 5] = [
    (0, None),
    (8, Some(DbFault::StoreFault)),
    (9, Some(DbFault::StoreFault)),
    (10, Some(DbFault::StoreFault)),
    (11, None),
];

#[test]
fn faults_of_the_store_are_answered(rt: HostRuntime) -> Result<(), Fail> {
    for (call, fault) in FAULTS {
        let mut store = store_of(rt.alloc(), LATER_NAME_FIRST, call)?;
        let answer = printed(rt.alloc(), &mut store).err();
        assert_eq!(rt; answer, fault, "call {call}");
    }
    Ok(())
}

// a call that fails behind the six that put the files, the listing of names and the head, where the second profile is bad
// besides: the first that happens is answered
#[test]
fn the_first_fault_is_answered(rt: HostRuntime) -> Result<(), Fail> {
    let alloc = rt.alloc();
    let bad = Some(DbFault::Bad { file: NEW });
    let fault = Some(DbFault::StoreFault);
    for (call, answer) in [(9, fault), (10, fault), (11, bad)] {
        let mut store = store_of(alloc, LATER_NAME_FIRST, call)?;
        put(alloc, &mut store, "p.0.1.0.1", &[])?;
        assert_eq!(rt; printed(alloc, &mut store).err(), answer, "call {call}");
    }
    Ok(())
}
