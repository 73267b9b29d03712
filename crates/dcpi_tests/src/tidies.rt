//! The command `tidy`: how many files it removes, which ones stay, and what the database is afterwards.
use crate::crashes::{BEFORE_WRITES, LISTED};
use crate::replays::{AT_BOUNDARY, COUNTED, IN_EPOCHS, REPLAYED, RUN_OF_PARTS, TWO_PARTS};
use crate::rows::{Row, failing_store, gives, names_of, put_files, sound_store};
use std::alloc::Global;
use std::process::Abort;
use std::test::Fail;
use store_io::MemStore;

/// No file is removed. The input is not read, so its faults do not show.
pub const TIDIED: Row = Row {
    words: &["tidy", "db"],
    input: b"",
    read_fails: &[1],
    write_fails: &[],
    status: 0,
    out: b"removed 0\n",
    err: b"",
};

const TWO_REMOVED: Row = Row {
    out: b"removed 2\n",
    ..TIDIED
};

const STOPPED: Row = Row {
    status: 4,
    out: b"",
    err: b"dcpi: store fault\n",
    ..TIDIED
};

// Makes each call over the store, and compares the names that are there afterwards.
fn gives_and_leaves(
    rt: &impl Abort,
    alloc: Global,
    rows: &[Row<'_>],
    store: &mut MemStore,
    names: &[u8],
) -> Result<(), Fail> {
    for row in rows {
        gives(rt, alloc, row, store)?;
    }
    assert_eq!(rt; names_of(alloc, store)?.as_slice(), names);
    Ok(())
}

// The third write is the part of the run: a known and an unknown profile are left behind.
#[test]
fn what_a_cut_commit_left(rt: HostRuntime) -> Result<(), Fail> {
    let alloc = rt.alloc();
    let mut store = failing_store(alloc, BEFORE_WRITES + 3, false)?;
    let stopped = Row {
        status: 4,
        out: b"",
        err: b"dcpi: store fault\n",
        ..AT_BOUNDARY
    };
    let cut = [stopped, TWO_REMOVED, COUNTED, TIDIED];
    gives_and_leaves(&rt, alloc, &cut, &mut store, b"")?;
    let again = [AT_BOUNDARY, LISTED, TIDIED, LISTED];
    let names = b" head.1 p.0.0.1.1 r.1 seal.1 u.0.1.1";
    gives_and_leaves(&rt, alloc, &again, &mut store, names)
}

// The names of two parts without the first head and the first seal.
const NAMES_OF_PARTS: &[u8] = b" head.2 p.0.0.0.1 p.1.0.0.2 r.1 r.2 seal.2";

#[test]
fn an_older_generation(rt: HostRuntime) -> Result<(), Fail> {
    let rows = [
        TWO_PARTS,
        TWO_REMOVED,
        IN_EPOCHS,
        RUN_OF_PARTS,
        TIDIED,
        IN_EPOCHS,
    ];
    let mut store = sound_store(rt.alloc());
    gives_and_leaves(&rt, rt.alloc(), &rows, &mut store, NAMES_OF_PARTS)
}

/// How many calls of the store two parts make: the names, and two times four writes.
const CALLS_OF_PARTS: u64 = 9;

// Which call of the store fails behind them, whether a removal that failed left its file, and how many files are then left to
// remove: the names and the head are read, the names once more, and the head and the seal of the first part are removed.
const FAULTS: [(u64, bool, &[u8]); 7] = [
    (1, true, b"removed 2\n"),
    (2, true, b"removed 2\n"),
    (3, true, b"removed 2\n"),
    (4, true, b"removed 2\n"),
    (4, false, b"removed 1\n"),
    (5, true, b"removed 1\n"),
    (5, false, b"removed 0\n"),
];

#[test]
fn a_call_of_the_store_fails(rt: HostRuntime) -> Result<(), Fail> {
    let alloc = rt.alloc();
    for (call, stays, left) in &FAULTS {
        let mut store = failing_store(alloc, CALLS_OF_PARTS + *call, *stays)?;
        let again = Row {
            out: *left,
            ..TIDIED
        };
        let rows = [
            TWO_PARTS,
            STOPPED,
            IN_EPOCHS,
            RUN_OF_PARTS,
            again,
            IN_EPOCHS,
        ];
        gives_and_leaves(&rt, alloc, &rows, &mut store, NAMES_OF_PARTS)?;
    }
    Ok(())
}

const NOT_WRITTEN: Row = Row {
    write_fails: &[1],
    status: 5,
    out: b"",
    err: b"dcpi: write fault\n",
    ..TIDIED
};

// The files are removed though their number was not written.
#[test]
fn a_write_fails_behind_the_removals(rt: HostRuntime) -> Result<(), Fail> {
    let rows = [TWO_PARTS, NOT_WRITTEN, IN_EPOCHS, TIDIED];
    let mut store = sound_store(rt.alloc());
    gives_and_leaves(&rt, rt.alloc(), &rows, &mut store, NAMES_OF_PARTS)
}

// Of each form, beside the files of one part: of other generations, and of places that are in no row.
const UNUSED: [(&str, &[u8]); 9] = [
    ("head.2", b"head"),
    ("head.65536", b""),
    ("p.0.0.0.2", b"\x01\x01\x02\x03"),
    ("p.0.4095.3.1", b""),
    ("p.4294967295.0.0.1", b""),
    ("r.2", b""),
    ("r.65536", b""),
    ("u.0.0.1", b""),
    ("u.4294967295.3.65536", b""),
];

// Nearly of a form.
const OTHERS: [(&str, &[u8]); 11] = [
    ("head.0", b""),
    ("head.02", b""),
    ("note", b"kept"),
    ("p.0.0.4.1", b""),
    ("p.0.4096.0.1", b""),
    ("p.4294967296.0.0.1", b""),
    ("r.1.1", b""),
    ("seal", b""),
    ("seal.01", b""),
    ("seal.65537", b""),
    ("u.0.0.0.1", b""),
];

const NINE_REMOVED: Row = Row {
    out: b"removed 9\n",
    ..TIDIED
};

const COUNTED_FOLD: Row = Row {
    out: b"k 0 /bin/app cycles 8 3\n",
    ..COUNTED
};

#[test]
fn files_beside_a_database(rt: HostRuntime) -> Result<(), Fail> {
    let alloc = rt.alloc();
    let mut store = sound_store(alloc);
    gives(&rt, alloc, &REPLAYED, &mut store)?;
    put_files(&rt, alloc, &mut store, &UNUSED)?;
    put_files(&rt, alloc, &mut store, &OTHERS)?;
    let rows = [COUNTED_FOLD, NINE_REMOVED, COUNTED_FOLD, TIDIED];
    let names =
        b" head.0 head.02 head.1 note p.0.0.0.1 p.0.0.4.1 p.0.4096.0.1 p.4294967296.0.0.1 r.1 r.1.1 seal seal.01 seal.1 seal.65537 u.0.0.0.1";
    gives_and_leaves(&rt, alloc, &rows, &mut store, names)
}

// Without a seal every file of a form is one that no database uses.
const UNSEALED: [(&str, &[u8]); 5] = [
    ("head.1", b""),
    ("note", b""),
    ("p.0.0.0.1", b"\x01\x01\x02\x03"),
    ("r.1", b""),
    ("seal.01", b""),
];

const THREE_REMOVED: Row = Row {
    out: b"removed 3\n",
    ..TIDIED
};

#[test]
fn an_empty_database(rt: HostRuntime) -> Result<(), Fail> {
    let alloc = rt.alloc();
    let mut store = sound_store(alloc);
    gives_and_leaves(&rt, alloc, &[TIDIED, COUNTED], &mut store, b"")?;
    put_files(&rt, alloc, &mut store, &UNSEALED)?;
    let rows = [COUNTED, THREE_REMOVED, COUNTED, TIDIED];
    gives_and_leaves(&rt, alloc, &rows, &mut store, b" note seal.01")
}

/// The head is missing or bad.
pub const HEADLESS_TIDY: Row = Row {
    status: 7,
    out: b"",
    err: b"dcpi: database file head.1 is bad\n",
    ..TIDIED
};

// Under a bad head nothing is removed.
const HEADLESS: [(&str, &[u8]); 4] = [
    ("head.2", b""),
    ("p.0.0.0.2", b""),
    ("r.1", b""),
    ("seal.1", b""),
];

#[test]
fn under_a_bad_head(rt: HostRuntime) -> Result<(), Fail> {
    let alloc = rt.alloc();
    let mut store = sound_store(alloc);
    put_files(&rt, alloc, &mut store, &HEADLESS)?;
    let names = b" head.2 p.0.0.0.2 r.1 seal.1";
    gives_and_leaves(&rt, alloc, &[HEADLESS_TIDY], &mut store, names)
}

// A profile and a segment are bad: they are not read, and stay.
const BAD_FILES: [(&str, &[u8]); 3] = [("p.0.0.0.1", b"\x01"), ("r.1", b""), ("r.2", b"")];

const ONE_REMOVED: Row = Row {
    out: b"removed 1\n",
    ..TIDIED
};

#[test]
fn bad_files_are_not_read(rt: HostRuntime) -> Result<(), Fail> {
    let alloc = rt.alloc();
    let mut store = sound_store(alloc);
    gives(&rt, alloc, &REPLAYED, &mut store)?;
    put_files(&rt, alloc, &mut store, &BAD_FILES)?;
    let rows = [ONE_REMOVED, TIDIED];
    gives_and_leaves(
        &rt,
        alloc,
        &rows,
        &mut store,
        b" head.1 p.0.0.0.1 r.1 seal.1",
    )
}
