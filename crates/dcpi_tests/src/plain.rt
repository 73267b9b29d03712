//! The command `plain`, and words that are no command.
use crate::rows::{Row, gives, names_of, sound_store};
use crate::traces::{
    BOUNDARY, FOLD, MAP_CHANGED, NOTHING, STRANGER, TRUNCATED, TWO_EPOCHS, UNALIGNED,
};
use std::alloc::Global;
use std::process::Abort;
use std::test::Fail;

/// A whole trace and its listing.
const LISTED: Row = Row {
    words: &["plain"],
    input: FOLD,
    read_fails: &[],
    write_fails: &[],
    status: 0,
    out: b"k 0 /bin/app cycles 8 3\n",
    err: b"",
};

const NOTHING_HELD: Row = Row {
    input: NOTHING,
    out: b"",
    ..LISTED
};

const BOUNDARY_OF_A_MAPPING: Row = Row {
    input: BOUNDARY,
    out: b"k 0 A imiss ffc 1\nu 0 imiss 11000 1\n",
    ..LISTED
};

const MAP_CHANGED_SINCE: Row = Row {
    input: MAP_CHANGED,
    out: b"k 0 A cycles 4 1\n",
    ..LISTED
};

const EPOCHS: Row = Row {
    input: TWO_EPOCHS,
    out: b"k 0 A cycles 0 1\nk 1 A cycles 0 1\n",
    ..LISTED
};

const EXEC_KERNEL_STRANGER: Row = Row {
    input: STRANGER,
    out: b"k 0 new cycles 10 1\nk 0 vmunix cycles 20 1\nu 0 cycles 120000010 1\n",
    ..LISTED
};

const NO_MULTIPLE: Row = Row {
    input: UNALIGNED,
    status: 2,
    out: b"",
    err: b"dcpi: trace line 2: Unaligned\n",
    ..LISTED
};

const CUT: Row = Row {
    input: TRUNCATED,
    err: b"dcpi: trace line 2: NoEnd\n",
    ..NO_MULTIPLE
};

const NO_WORDS: Row = Row {
    words: &[],
    status: 1,
    out: b"",
    err: b"dcpi: usage\n",
    ..LISTED
};

const REPLAY_ALONE: Row = Row {
    words: &["replay"],
    ..NO_WORDS
};

const TWO_WORDS: Row = Row {
    words: &["plain", "plain"],
    ..NO_WORDS
};

const FIRST_READ_FAILS: Row = Row {
    read_fails: &[1],
    status: 3,
    out: b"",
    err: b"dcpi: read fault\n",
    ..LISTED
};

const FIRST_WRITE_FAILS: Row = Row {
    write_fails: &[1],
    status: 5,
    out: b"",
    err: b"dcpi: write fault\n",
    ..LISTED
};

// Makes each call; the store stays empty.
fn every(rt: &impl Abort, alloc: Global, rows: &[Row<'_>]) -> Result<(), Fail> {
    let mut store = sound_store(alloc);
    for row in rows {
        gives(rt, alloc, row, &mut store)?;
    }
    assert_eq!(rt; names_of(alloc, &mut store)?.as_slice(), b"".as_slice());
    Ok(())
}

#[test]
fn listings(rt: HostRuntime) -> Result<(), Fail> {
    let rows = [
        LISTED,
        NOTHING_HELD,
        BOUNDARY_OF_A_MAPPING,
        MAP_CHANGED_SINCE,
        EPOCHS,
        EXEC_KERNEL_STRANGER,
    ];
    every(&rt, rt.alloc(), &rows)
}

#[test]
fn refusals(rt: HostRuntime) -> Result<(), Fail> {
    let rows = [
        NO_MULTIPLE,
        CUT,
        NO_WORDS,
        REPLAY_ALONE,
        TWO_WORDS,
        FIRST_READ_FAILS,
        FIRST_WRITE_FAILS,
    ];
    every(&rt, rt.alloc(), &rows)
}
