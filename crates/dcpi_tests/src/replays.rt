//! The command `replay`: summaries, files, and the database that they stand for.
use crate::rows::{File, Row, gives, gives_all, holds, names_of, put_files, sound_store};
use crate::traces::{
    BOTH_OUT, BOUNDARY, EVICTION, FLUSH, FLUSH_WAITS, FOLD, FOLD_SUMMARY, MAP_CHANGED, NOTHING,
    ONE_MORE, SECOND_LOOK, STRANGER, TWO_EPOCHS, WAITS, WORK, WORK_SUMMARY,
};
use std::alloc::Global;
use std::process::Abort;
use std::test::Fail;

/// Three samples of one instruction, into an empty database.
pub const REPLAYED: Row = Row {
    words: &["replay", "db"],
    input: FOLD,
    read_fails: &[],
    write_fails: &[],
    status: 0,
    out: FOLD_SUMMARY,
    err: b"",
};

const NOTHING_HELD: Row = Row {
    input: NOTHING,
    out: b"run 1\nt 0 folded 0 placed 0 evicted 0 spilt 0 direct 0\ntotal taken 0 known 0 unknown 0 lost 0\n",
    ..REPLAYED
};

const EVICTED: Row = Row {
    input: EVICTION,
    out: b"run 1\nc 0 cycles taken 5 known 0 unknown 5 lost 0\nt 0 folded 0 placed 4 evicted 1 spilt 0 direct 0\ntotal taken 5 known 0 unknown 5 lost 0\n",
    ..REPLAYED
};

const LOST: Row = Row {
    input: BOTH_OUT,
    out: b"run 1\nc 0 cycles taken 7 known 0 unknown 6 lost 1\nt 0 folded 0 placed 4 evicted 2 spilt 0 direct 0\ntotal taken 7 known 0 unknown 6 lost 1\n",
    ..REPLAYED
};

const FOUND_BACK: Row = Row {
    input: SECOND_LOOK,
    out: b"run 1\nc 0 cycles taken 7 known 0 unknown 7 lost 0\nt 0 folded 0 placed 4 evicted 3 spilt 0 direct 0\ntotal taken 7 known 0 unknown 7 lost 0\n",
    ..REPLAYED
};

const CHANGED_SINCE: Row = Row {
    input: MAP_CHANGED,
    out: b"run 1\nc 0 cycles taken 1 known 1 unknown 0 lost 0\nt 0 folded 0 placed 1 evicted 0 spilt 0 direct 0\ntotal taken 1 known 1 unknown 0 lost 0\n",
    ..REPLAYED
};

/// A known and an unknown sample.
pub const AT_BOUNDARY: Row = Row {
    input: BOUNDARY,
    out: b"run 1\nc 0 imiss taken 2 known 1 unknown 1 lost 0\nt 0 folded 0 placed 2 evicted 0 spilt 0 direct 0\ntotal taken 2 known 1 unknown 1 lost 0\n",
    ..REPLAYED
};

const OF_STRANGERS: Row = Row {
    input: STRANGER,
    out: b"run 1\nc 0 cycles taken 3 known 2 unknown 1 lost 0\nt 0 folded 0 placed 3 evicted 0 spilt 0 direct 0\ntotal taken 3 known 2 unknown 1 lost 0\n",
    ..REPLAYED
};

const FLUSHED: Row = Row {
    input: FLUSH,
    out: b"run 1\nc 0 cycles taken 3 known 0 unknown 3 lost 0\nt 0 folded 0 placed 1 evicted 0 spilt 0 direct 2\ntotal taken 3 known 0 unknown 3 lost 0\n",
    ..REPLAYED
};

/// Two parts, each in its epoch.
pub const TWO_PARTS: Row = Row {
    input: TWO_EPOCHS,
    out: b"run 1\nc 0 cycles taken 2 known 2 unknown 0 lost 0\nt 0 folded 0 placed 2 evicted 0 spilt 0 direct 0\ntotal taken 2 known 2 unknown 0 lost 0\n",
    ..REPLAYED
};

const WAITED: Row = Row {
    input: WAITS,
    out: b"run 1\nc 0 cycles taken 1 known 1 unknown 0 lost 0\nt 0 folded 0 placed 1 evicted 0 spilt 0 direct 0\ntotal taken 1 known 1 unknown 0 lost 0\n",
    ..REPLAYED
};

const BUFFER_WAITED: Row = Row {
    input: FLUSH_WAITS,
    ..EVICTED
};

/// Four processors.
pub const WORKED: Row = Row {
    input: WORK,
    out: WORK_SUMMARY,
    ..REPLAYED
};

// The head of the first commit of nothing.
const EMPTY_HEAD: &[u8] =
    b"dcpi-head 1\ngeneration 1\nepoch 0\nruns 1\nimages 0\nprofiles 0\nunknowns 0\n";

// The head of the second of two epochs.
const SECOND_HEAD: &[u8] =
    b"dcpi-head 1\ngeneration 2\nepoch 1\nruns 1\nimages 1\nA\nprofiles 2\n0 0 0 1\n1 0 0 2\nunknowns 0\n";

const EMPTY_PART: &[u8] =
    b"\x01\x01\x00\x01\x00\x01\x00\x00\x00\x02\x01\x00\x01\x00\x00\x00\x01\x00";

const AFTER_NOTHING: [File; 3] = [
    ("r.1", Some(EMPTY_PART)),
    ("head.1", Some(EMPTY_HEAD)),
    ("seal.1", Some(b"")),
];

const AFTER_FOLD: [File; 2] = [
    ("p.0.0.0.1", Some(b"\x01\x01\x02\x03")),
    ("seal.1", Some(b"")),
];

const AFTER_EPOCHS: [File; 4] = [
    ("p.0.0.0.1", Some(b"\x01\x01\x00\x01")),
    ("p.1.0.0.2", Some(b"\x01\x01\x00\x01")),
    ("head.2", Some(SECOND_HEAD)),
    ("seal.2", Some(b"")),
];

// A summary, with the names of the files that are there afterwards and some of the files.
fn leaves(
    rt: &impl Abort,
    alloc: Global,
    row: &Row<'_>,
    names: &[u8],
    files: &[File<'_>],
) -> Result<(), Fail> {
    let mut store = sound_store(alloc);
    gives(rt, alloc, row, &mut store)?;
    assert_eq!(rt; names_of(alloc, &mut store)?.as_slice(), names);
    holds(rt, alloc, &mut store, files)
}

#[test]
fn summaries_with_files(rt: HostRuntime) -> Result<(), Fail> {
    let alloc = rt.alloc();
    leaves(
        &rt,
        alloc,
        &NOTHING_HELD,
        b" head.1 r.1 seal.1",
        &AFTER_NOTHING,
    )?;
    leaves(
        &rt,
        alloc,
        &REPLAYED,
        b" head.1 p.0.0.0.1 r.1 seal.1",
        &AFTER_FOLD,
    )?;
    leaves(
        &rt,
        alloc,
        &TWO_PARTS,
        b" head.1 head.2 p.0.0.0.1 p.1.0.0.2 r.1 r.2 seal.1 seal.2",
        &AFTER_EPOCHS,
    )
}

#[test]
fn summaries(rt: HostRuntime) -> Result<(), Fail> {
    let rows = [
        EVICTED,
        LOST,
        FOUND_BACK,
        CHANGED_SINCE,
        AT_BOUNDARY,
        OF_STRANGERS,
        FLUSHED,
        WAITED,
        BUFFER_WAITED,
        WORKED,
    ];
    for row in &rows {
        gives(&rt, rt.alloc(), row, &mut sound_store(rt.alloc()))?;
    }
    Ok(())
}

// A sample so many times behind these lines, with so many turns of the driver.
fn long_trace(
    alloc: Global,
    start: &[u8],
    sample: &[u8],
    times: u32,
    turns: u32,
) -> Result<Vec<u8>, Fail> {
    let mut text = start.to_vec(alloc)?;
    for _sample in 0..times {
        text.extend_from_slice(sample)?;
    }
    text.extend_from_slice(b"end\n")?;
    for _turn in 0..turns {
        text.extend_from_slice(b"l 0\n")?;
    }
    Ok(text)
}

#[test]
fn an_entry_is_full(rt: HostRuntime) -> Result<(), Fail> {
    let input = long_trace(
        rt.alloc(),
        b"dcpi-trace 1 cpus 1\n",
        b"s 0 7 1000 cycles\n",
        65_536,
        0,
    )?;
    let row = Row {
        input: &input,
        out: b"run 1\nc 0 cycles taken 65536 known 0 unknown 65536 lost 0\nt 0 folded 65534 placed 1 evicted 0 spilt 1 direct 0\ntotal taken 65536 known 0 unknown 65536 lost 0\n",
        ..REPLAYED
    };
    let counted = Row {
        out: b"u 0 cycles 1000 65536\n",
        ..COUNTED
    };
    gives_all(&rt, rt.alloc(), &[row, counted])
}

// Five more instructions fill the bucket and both buffers before the entry is full.
const BEFORE: &[u8] =
    b"dcpi-trace 1 cpus 1 buckets 1 buffer 1\ns 0 7 1000 cycles\ns 0 7 1004 cycles\ns 0 7 1008 cycles\ns 0 7 100c cycles\ns 0 7 1010 cycles\ns 0 7 1014 cycles\n";

#[test]
fn a_full_entry_finds_no_buffer(rt: HostRuntime) -> Result<(), Fail> {
    let input = long_trace(rt.alloc(), BEFORE, b"s 0 7 1010 cycles\n", 65_535, 65_541)?;
    let row = Row {
        input: &input,
        out: b"run 1\nc 0 cycles taken 65541 known 0 unknown 65540 lost 1\nt 0 folded 65534 placed 4 evicted 2 spilt 0 direct 0\ntotal taken 65541 known 0 unknown 65540 lost 1\n",
        ..REPLAYED
    };
    gives(&rt, rt.alloc(), &row, &mut sound_store(rt.alloc()))
}

const AGAIN: Row = Row {
    out: b"run 2\nc 0 cycles taken 3 known 3 unknown 0 lost 0\nt 0 folded 2 placed 1 evicted 0 spilt 0 direct 0\ntotal taken 3 known 3 unknown 0 lost 0\n",
    ..REPLAYED
};

/// No count in the database.
pub const COUNTED: Row = Row {
    words: &["cat", "db"],
    input: b"",
    out: b"",
    ..REPLAYED
};

/// No run in the database.
pub const RUNS: Row = Row {
    words: &["runs", "db"],
    ..COUNTED
};

const SUM_OF_TWO: Row = Row {
    out: b"k 0 /bin/app cycles 8 6\n",
    ..COUNTED
};

const TWO_RUNS: Row = Row {
    out: b"run 1 parts 1 whole\nc 0 cycles taken 3 known 3 unknown 0 lost 0\nrun 2 parts 1 whole\nc 0 cycles taken 3 known 3 unknown 0 lost 0\n",
    ..RUNS
};

const UNKNOWN_ALONE: Row = Row {
    out: b"u 0 cycles 1000 1\nu 0 cycles 1004 1\nu 0 cycles 1008 1\nu 0 cycles 100c 1\nu 0 cycles 1010 1\nu 0 cycles 1014 1\n",
    ..COUNTED
};

const RUN_WITH_LOSS: Row = Row {
    out: b"run 1 parts 1 whole\nc 0 cycles taken 7 known 0 unknown 6 lost 1\n",
    ..RUNS
};

const AT_OTHER_IMAGE: Row = Row {
    out: b"k 0 B cycles 4 1\n",
    ..COUNTED
};

/// Two epochs, listed.
pub const IN_EPOCHS: Row = Row {
    out: b"k 0 A cycles 0 1\nk 1 A cycles 0 1\n",
    ..COUNTED
};

/// The run of two parts, listed.
pub const RUN_OF_PARTS: Row = Row {
    out: b"run 1 parts 2 whole\nc 0 cycles taken 2 known 2 unknown 0 lost 0\n",
    ..RUNS
};

#[test]
fn what_is_in_the_database(rt: HostRuntime) -> Result<(), Fail> {
    let alloc = rt.alloc();
    gives_all(&rt, alloc, &[COUNTED, RUNS])?;
    gives_all(&rt, alloc, &[NOTHING_HELD, COUNTED])?;
    gives_all(&rt, alloc, &[LOST, UNKNOWN_ALONE, RUN_WITH_LOSS])?;
    gives_all(&rt, alloc, &[CHANGED_SINCE, AT_OTHER_IMAGE])?;
    gives_all(&rt, alloc, &[TWO_PARTS, IN_EPOCHS, RUN_OF_PARTS])
}

#[test]
fn replayed_twice(rt: HostRuntime) -> Result<(), Fail> {
    gives_all(&rt, rt.alloc(), &[REPLAYED, AGAIN, SUM_OF_TWO, TWO_RUNS])
}

// The count of a place is at its limit.
const FULL_HEAD: &[u8] =
    b"dcpi-head 1\ngeneration 1\nepoch 0\nruns 1\nimages 1\nA\nprofiles 1\n0 0 0 1\nunknowns 0\n";

const FULL_FILES: [(&str, &[u8]); 4] = [
    ("seal.1", b""),
    ("r.1", EMPTY_PART),
    ("head.1", FULL_HEAD),
    ("p.0.0.0.1", b"\x01\x01\x01\x80\x80\x80\x80\x80\x80\x40"),
];

const FULL: Row = Row {
    input: ONE_MORE,
    status: 8,
    out: b"",
    err: b"dcpi: full: known epoch 0 image 0 cycles 4 held 281474976710656 added 1\n",
    ..REPLAYED
};

#[test]
fn a_count_is_at_its_limit(rt: HostRuntime) -> Result<(), Fail> {
    let alloc = rt.alloc();
    let mut store = sound_store(alloc);
    put_files(&rt, alloc, &mut store, &FULL_FILES)?;
    gives(&rt, alloc, &FULL, &mut store)?;
    assert_eq!(rt;
        names_of(alloc, &mut store)?.as_slice(),
        b" head.1 p.0.0.0.1 r.1 seal.1".as_slice()
    );
    Ok(())
}
