//! What is refused with a database, and which refusal comes first where two are due.
use crate::listings::EMPTY;
use crate::replays::{COUNTED, REPLAYED, RUNS};
use crate::rows::{Row, gives, gives_all, names_of, put_files, sound_store};
use crate::tidies::HEADLESS_TIDY;
use crate::traces::{BOUNDARY, FOLD, TRUNCATED, UNALIGNED};
use std::test::Fail;

const NO_MULTIPLE: Row = Row {
    input: UNALIGNED,
    status: 2,
    out: b"",
    err: b"dcpi: trace line 2: Unaligned\n",
    ..REPLAYED
};

const CUT: Row = Row {
    input: TRUNCATED,
    err: b"dcpi: trace line 2: NoEnd\n",
    ..NO_MULTIPLE
};

const FIRST_READ_FAILS: Row = Row {
    read_fails: &[1],
    status: 3,
    out: b"",
    err: b"dcpi: read fault\n",
    ..REPLAYED
};

const FIRST_WRITE_FAILS: Row = Row {
    write_fails: &[1],
    status: 5,
    out: b"",
    err: b"dcpi: write fault\n",
    ..REPLAYED
};

// The run is in the database though its summary was not written.
const LISTED: Row = Row {
    out: b"k 0 /bin/app cycles 8 3\n",
    ..COUNTED
};

const NO_WORDS: Row = Row {
    words: &[],
    status: 1,
    out: b"",
    err: b"dcpi: usage\n",
    ..REPLAYED
};

const REPLAY_ALONE: Row = Row {
    words: &["replay"],
    ..NO_WORDS
};

const TOO_MANY: Row = Row {
    words: &["replay", "db", "db"],
    ..NO_WORDS
};

const TIDY_ALONE: Row = Row {
    words: &["tidy"],
    ..NO_WORDS
};

const TIDY_TOO_MANY: Row = Row {
    words: &["tidy", "db", "db"],
    ..NO_WORDS
};

const PADDED_EPOCH: Row = Row {
    words: &["prof", "db", "image", "01", "cycles", "text"],
    ..NO_WORDS
};

const GREAT_EPOCH: Row = Row {
    words: &["prof", "db", "image", "4294967296", "cycles", "text"],
    ..NO_WORDS
};

const NO_EVENT: Row = Row {
    words: &["prof", "db", "image", "all", "stalls", "text"],
    ..NO_WORDS
};

const NO_FORM: Row = Row {
    words: &["prof", "db", "image", "all", "cycles", "html"],
    ..NO_WORDS
};

const NO_KIND: Row = Row {
    words: &["prof", "db", "line", "all", "cycles", "text"],
    ..NO_WORDS
};

const RUN: Row = Row {
    words: &["run", "db", "--pace", "free"],
    ..NO_WORDS
};

// The head is missing.
const HEADLESS: Row = Row {
    words: &["prof", "db", "image", "all", "cycles", "text"],
    input: b"",
    status: 7,
    out: b"",
    err: b"dcpi: database file head.1 is bad\n",
    ..REPLAYED
};

const HEADLESS_COUNTS: Row = Row {
    words: &["cat", "db"],
    ..HEADLESS
};

const HEADLESS_RUNS: Row = Row {
    words: &["runs", "db"],
    ..HEADLESS
};

const HEADLESS_REPLAY: Row = Row {
    words: &["replay", "db"],
    input: FOLD,
    ..HEADLESS
};

// The head comes before the trace, and words before the head.
const HEADLESS_AND_BAD_TRACE: Row = Row {
    input: UNALIGNED,
    ..HEADLESS_REPLAY
};

const HEADLESS_AND_NO_READ: Row = Row {
    read_fails: &[1],
    ..HEADLESS_REPLAY
};

#[test]
fn refused_before_a_run(rt: HostRuntime) -> Result<(), Fail> {
    let alloc = rt.alloc();
    let mut store = sound_store(alloc);
    for row in &[NO_MULTIPLE, CUT, FIRST_READ_FAILS] {
        gives(&rt, alloc, row, &mut store)?;
    }
    assert_eq!(rt; names_of(alloc, &mut store)?.as_slice(), b"".as_slice());
    Ok(())
}

#[test]
fn refused_words(rt: HostRuntime) -> Result<(), Fail> {
    let rows = [
        NO_WORDS,
        REPLAY_ALONE,
        TOO_MANY,
        TIDY_ALONE,
        TIDY_TOO_MANY,
        PADDED_EPOCH,
        GREAT_EPOCH,
        NO_EVENT,
        NO_FORM,
        NO_KIND,
        RUN,
    ];
    gives_all(&rt, rt.alloc(), &rows)
}

#[test]
fn a_write_fails_behind_the_run(rt: HostRuntime) -> Result<(), Fail> {
    gives_all(&rt, rt.alloc(), &[FIRST_WRITE_FAILS, LISTED])
}

#[test]
fn a_missing_head(rt: HostRuntime) -> Result<(), Fail> {
    let alloc = rt.alloc();
    let mut store = sound_store(alloc);
    put_files(&rt, alloc, &mut store, &[("seal.1", b"")])?;
    let rows = [
        HEADLESS,
        HEADLESS_COUNTS,
        HEADLESS_RUNS,
        HEADLESS_REPLAY,
        HEADLESS_TIDY,
        HEADLESS_AND_BAD_TRACE,
        HEADLESS_AND_NO_READ,
        NO_WORDS,
    ];
    for row in &rows {
        gives(&rt, alloc, row, &mut store)?;
    }
    Ok(())
}

#[test]
fn a_seal_of_another_name(rt: HostRuntime) -> Result<(), Fail> {
    let alloc = rt.alloc();
    let mut store = sound_store(alloc);
    put_files(&rt, alloc, &mut store, &[("seal.01", b"")])?;
    gives(&rt, alloc, &EMPTY, &mut store)?;
    gives(&rt, alloc, &COUNTED, &mut store)
}

// A profile is bad: only what reads it is refused.
const BAD_PROFILE: Row = Row {
    err: b"dcpi: database file p.0.0.0.1 is bad\n",
    ..HEADLESS
};

const BAD_PROFILE_COUNTS: Row = Row {
    err: b"dcpi: database file p.0.0.0.1 is bad\n",
    ..HEADLESS_COUNTS
};

const RUN_OF_FOLD: Row = Row {
    out: b"run 1 parts 1 whole\nc 0 cycles taken 3 known 3 unknown 0 lost 0\n",
    ..RUNS
};

const BAD_PROFILE_REPLAY: Row = Row {
    err: b"dcpi: database file p.0.0.0.1 is bad\n",
    ..HEADLESS_REPLAY
};

const OTHER_EVENT: Row = Row {
    input: BOUNDARY,
    out: b"run 2\nc 0 imiss taken 2 known 1 unknown 1 lost 0\nt 0 folded 0 placed 2 evicted 0 spilt 0 direct 0\ntotal taken 2 known 1 unknown 1 lost 0\n",
    ..REPLAYED
};

#[test]
fn a_bad_profile(rt: HostRuntime) -> Result<(), Fail> {
    let alloc = rt.alloc();
    let mut store = sound_store(alloc);
    gives(&rt, alloc, &REPLAYED, &mut store)?;
    put_files(
        &rt,
        alloc,
        &mut store,
        &[("p.0.0.0.1", b"\x01\x01\x02\x03\x00")],
    )?;
    gives(&rt, alloc, &BAD_PROFILE, &mut store)?;
    gives(&rt, alloc, &BAD_PROFILE_COUNTS, &mut store)?;
    gives(&rt, alloc, &RUN_OF_FOLD, &mut store)?;
    gives(&rt, alloc, &BAD_PROFILE_REPLAY, &mut store)?;
    gives(&rt, alloc, &OTHER_EVENT, &mut store)
}

// A segment is missing, or out of order: only the runs are refused.
const BAD_SEGMENT: Row = Row {
    err: b"dcpi: database file r.1 is bad\n",
    ..HEADLESS_RUNS
};

// The segment of a second part of the run.
const SECOND_PART: &[u8] = b"\x01\x01\x01\x01\x00\x00\x01\x00";

#[test]
fn a_bad_segment(rt: HostRuntime) -> Result<(), Fail> {
    let alloc = rt.alloc();
    for bytes in &[b"\x01".as_slice(), SECOND_PART] {
        let mut store = sound_store(alloc);
        gives(&rt, alloc, &REPLAYED, &mut store)?;
        put_files(&rt, alloc, &mut store, &[("r.1", *bytes)])?;
        gives(&rt, alloc, &BAD_SEGMENT, &mut store)?;
        gives(&rt, alloc, &LISTED, &mut store)?;
    }
    Ok(())
}

const BAD_HEADS: [&[u8]; 4] = [
    b"dcpi-head 1\ngeneration 1\nepoch 0\nruns 1\nimages 1\n/bin/app\nprofiles 2\n0 0 0 1\nunknowns 0\n",
    b"dcpi-head 1\ngeneration 1\nepoch 00\nruns 1\nimages 1\n/bin/app\nprofiles 1\n0 0 0 1\nunknowns 0\n",
    b"dcpi-head 1\ngeneration 2\nepoch 0\nruns 1\nimages 1\n/bin/app\nprofiles 1\n0 0 0 1\nunknowns 0\n",
    b"dcpi-head 1\ngeneration 1\nepoch 0\nruns 1\nimages 1\n/bin/app\nprofiles 1\n0 0 0 1\nunknowns 0\n\n",
];

#[test]
fn bad_heads(rt: HostRuntime) -> Result<(), Fail> {
    let alloc = rt.alloc();
    for head in &BAD_HEADS {
        let mut store = sound_store(alloc);
        gives(&rt, alloc, &REPLAYED, &mut store)?;
        put_files(&rt, alloc, &mut store, &[("head.1", *head)])?;
        gives(&rt, alloc, &HEADLESS_COUNTS, &mut store)?;
        gives(&rt, alloc, &HEADLESS_TIDY, &mut store)?;
    }
    Ok(())
}
