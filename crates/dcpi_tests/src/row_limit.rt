//! The rows of a head at their limit: profiles, unknown profiles and segments together are at most 65,536.
use crate::replays::REPLAYED;
use crate::rows::{Row, gives, holds, names_of, put_files, sound_store};
use crate::traces::{NOTHING, ONE_MORE};
use std::alloc::Global;
use std::process::Abort;
use std::test::Fail;

/// A replay into these files, and the names that are there afterwards.
struct Case<'a> {
    files: &'a [(&'a str, &'a [u8])],
    row: Row<'a>,
    names: &'a [u8],
}

const UNKNOWN_SAMPLE: &[u8] = b"dcpi-trace 1 cpus 1\ns 0 7 1000 cycles\nend\n";

const TWO_EMPTY_PARTS: &[u8] = b"dcpi-trace 1 cpus 1\nmerge\nend\n";

// A segment for each generation, and no profile: there is room for one row.
const ONE_LEFT: [(&str, &[u8]); 2] = [
    ("seal.65535", b""),
    (
        "head.65535",
        b"dcpi-head 1\ngeneration 65535\nepoch 0\nruns 1\nimages 0\nprofiles 0\nunknowns 0\n",
    ),
];

// With one profile there is room for none.
const NONE_LEFT: &[u8] =
    b"dcpi-head 1\ngeneration 65535\nepoch 0\nruns 1\nimages 1\nA\nprofiles 1\n0 0 0 1\nunknowns 0\n";

// The profile has a row in the head, and counts nothing.
const EMPTY_PROFILE: [(&str, &[u8]); 3] = [
    ("seal.65535", b""),
    ("head.65535", NONE_LEFT),
    ("p.0.0.0.1", b"\x01\x00"),
];

// One of its counts is at its limit.
const FULL_PROFILE: [(&str, &[u8]); 3] = [
    ("seal.65535", b""),
    ("head.65535", NONE_LEFT),
    ("p.0.0.0.1", b"\x01\x01\x01\x80\x80\x80\x80\x80\x80\x40"),
];

// The rows that are held, and those of the part: its segment, and each profile that has none yet.
const FULL_WITH_SEGMENT: Row = Row {
    input: NOTHING,
    status: 8,
    out: b"",
    err: b"dcpi: full: rows held 65536 added 1\n",
    ..REPLAYED
};

const FULL_WITH_PROFILE: Row = Row {
    err: b"dcpi: full: rows held 65535 added 2\n",
    ..FULL_WITH_SEGMENT
};

const CASES: [Case; 7] = [
    Case {
        files: &ONE_LEFT,
        row: Row {
            input: NOTHING,
            out: b"run 2\nt 0 folded 0 placed 0 evicted 0 spilt 0 direct 0\ntotal taken 0 known 0 unknown 0 lost 0\n",
            ..REPLAYED
        },
        names: b" head.65535 head.65536 r.65536 seal.65535 seal.65536",
    },
    Case {
        files: &ONE_LEFT,
        row: Row {
            input: UNKNOWN_SAMPLE,
            ..FULL_WITH_PROFILE
        },
        names: b" head.65535 seal.65535",
    },
    Case {
        files: &ONE_LEFT,
        row: Row {
            input: ONE_MORE,
            ..FULL_WITH_PROFILE
        },
        names: b" head.65535 seal.65535",
    },
    // The first part has room, and stays.
    Case {
        files: &ONE_LEFT,
        row: Row {
            input: TWO_EMPTY_PARTS,
            ..FULL_WITH_SEGMENT
        },
        names: b" head.65535 head.65536 r.65536 seal.65535 seal.65536",
    },
    Case {
        files: &EMPTY_PROFILE,
        row: FULL_WITH_SEGMENT,
        names: b" head.65535 p.0.0.0.1 seal.65535",
    },
    // The profile has its row.
    Case {
        files: &EMPTY_PROFILE,
        row: Row {
            input: ONE_MORE,
            ..FULL_WITH_SEGMENT
        },
        names: b" head.65535 p.0.0.0.1 seal.65535",
    },
    // Counts are looked at before rows.
    Case {
        files: &FULL_PROFILE,
        row: Row {
            input: ONE_MORE,
            err: b"dcpi: full: known epoch 0 image 0 cycles 4 held 281474976710656 added 1\n",
            ..FULL_WITH_SEGMENT
        },
        names: b" head.65535 p.0.0.0.1 seal.65535",
    },
];

fn replays(rt: &impl Abort, alloc: Global, case: &Case<'_>) -> Result<(), Fail> {
    let mut store = sound_store(alloc);
    put_files(rt, alloc, &mut store, case.files)?;
    gives(rt, alloc, &case.row, &mut store)?;
    assert_eq!(rt; names_of(alloc, &mut store)?.as_slice(), case.names);
    for (name, bytes) in case.files {
        holds(rt, alloc, &mut store, &[(*name, Some(*bytes))])?;
    }
    Ok(())
}

#[test]
fn rows_at_their_limit(rt: HostRuntime) -> Result<(), Fail> {
    let alloc = rt.alloc();
    for case in &CASES {
        replays(&rt, alloc, case)?;
    }
    Ok(())
}
