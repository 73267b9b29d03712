//! One file of a database is changed: what reads it names it and writes nothing, and what does not read it goes on.
use crate::calls::{Asked, gives, has_alone, put_file, sound_store};
use crate::traces::{BOUNDARY, CAT, FOLD, FOLD_FILES, REPLAY, RUNS};
use std::alloc::Global;
use std::process::Abort;
use std::test::Fail;
use store_io::{Left, MemStore, StoreFail};

const FOLD_REPLAYED: Asked = Asked {
    words: REPLAY,
    status: 0,
    out: b"run 1\nc 0 cycles taken 3 known 3 unknown 0 lost 0\nt 0 folded 2 placed 1 evicted 0 spilt 0 direct 0\ntotal taken 3 known 3 unknown 0 lost 0\n",
    err: b"",
};

const FOLD_AGAIN: Asked = Asked {
    out: b"run 2\nc 0 cycles taken 3 known 3 unknown 0 lost 0\nt 0 folded 2 placed 1 evicted 0 spilt 0 direct 0\ntotal taken 3 known 3 unknown 0 lost 0\n",
    ..FOLD_REPLAYED
};

const BOUNDARY_REPLAYED: Asked = Asked {
    out: b"run 2\nc 0 imiss taken 2 known 1 unknown 1 lost 0\nt 0 folded 0 placed 2 evicted 0 spilt 0 direct 0\ntotal taken 2 known 1 unknown 1 lost 0\n",
    ..FOLD_REPLAYED
};

const COUNTED: Asked = Asked {
    words: CAT,
    out: b"k 0 /bin/app cycles 8 3\n",
    ..FOLD_REPLAYED
};

const LISTED: Asked = Asked {
    words: &["prof", "db", "image", "all", "cycles", "text"],
    out: b"cycles epoch all total 3\n           3 100.00 100.00 /bin/app\n",
    ..FOLD_REPLAYED
};

const OTHER_EVENT: Asked = Asked {
    words: &["prof", "db", "image", "all", "imiss", "text"],
    out: b"imiss epoch all total 0\n",
    ..FOLD_REPLAYED
};

const RUN: Asked = Asked {
    words: RUNS,
    out: b"run 1 parts 1 whole\nc 0 cycles taken 3 known 3 unknown 0 lost 0\n",
    ..FOLD_REPLAYED
};

/// A call with its input, and whether it reads the file that is changed and is refused for it.
struct Call<'a> {
    asked: Asked<'a>,
    input: &'a [u8],
    reads_it: bool,
}

/// A file, the bytes that it has or nothing where it is taken away, the calls that are then made, and how many calls of
/// the store a replay makes up to the one that reads it.
struct Damage<'a> {
    file: &'a str,
    bytes: &'a [Option<&'a [u8]>],
    calls: &'a [Call<'a>],
    reads: u64,
}

const BAD_HEADS: [Option<&[u8]>; 7] = [
    Some(
        b"dcpi-head 1\ngeneration 1\nepoch 0\nruns 1\nimages 1\n/bin/app\nprofiles 2\n0 0 0 1\nunknowns 0\n",
    ),
    Some(
        b"dcpi-head 1\ngeneration 1\nepoch 00\nruns 1\nimages 1\n/bin/app\nprofiles 1\n0 0 0 1\nunknowns 0\n",
    ),
    Some(
        b"dcpi-head 1\ngeneration 2\nepoch 0\nruns 1\nimages 1\n/bin/app\nprofiles 1\n0 0 0 1\nunknowns 0\n",
    ),
    Some(
        b"dcpi-head 1\ngeneration 1\nepoch 0\nruns 1\nimages 1\n/bin/app\nprofiles 1\n0 0 0 2\nunknowns 0\n",
    ),
    Some(
        b"dcpi-head 1\ngeneration 1\nepoch 0\nruns 1\nimages 1\n/bin/app\nprofiles 1\n0 0 0 1\nunknowns 0\n\n",
    ),
    Some(b""),
    None,
];

const BAD_PROFILES: [Option<&[u8]>; 3] = [Some(b"\x01\x01\x02\x03\x00"), Some(b""), None];

const BAD_PARTS: [Option<&[u8]>; 3] = [None, Some(b""), Some(b"\x01")];

// Each call reads the head. A listing of another event reads no profile; the runs alone read segments; a replay reads
// the profiles of its own events.
const DAMAGES: [Damage; 3] = [
    Damage {
        file: "head.1",
        bytes: &BAD_HEADS,
        calls: &[
            Call {
                asked: COUNTED,
                input: b"",
                reads_it: true,
            },
            Call {
                asked: LISTED,
                input: b"",
                reads_it: true,
            },
            Call {
                asked: OTHER_EVENT,
                input: b"",
                reads_it: true,
            },
            Call {
                asked: RUN,
                input: b"",
                reads_it: true,
            },
            Call {
                asked: FOLD_AGAIN,
                input: FOLD,
                reads_it: true,
            },
            Call {
                asked: BOUNDARY_REPLAYED,
                input: BOUNDARY,
                reads_it: true,
            },
        ],
        reads: 2,
    },
    Damage {
        file: "p.0.0.0.1",
        bytes: &BAD_PROFILES,
        calls: &[
            Call {
                asked: COUNTED,
                input: b"",
                reads_it: true,
            },
            Call {
                asked: LISTED,
                input: b"",
                reads_it: true,
            },
            Call {
                asked: OTHER_EVENT,
                input: b"",
                reads_it: false,
            },
            Call {
                asked: RUN,
                input: b"",
                reads_it: false,
            },
            Call {
                asked: FOLD_AGAIN,
                input: FOLD,
                reads_it: true,
            },
            Call {
                asked: BOUNDARY_REPLAYED,
                input: BOUNDARY,
                reads_it: false,
            },
        ],
        reads: 3,
    },
    Damage {
        file: "r.1",
        bytes: &BAD_PARTS,
        calls: &[
            Call {
                asked: COUNTED,
                input: b"",
                reads_it: false,
            },
            Call {
                asked: LISTED,
                input: b"",
                reads_it: false,
            },
            Call {
                asked: OTHER_EVENT,
                input: b"",
                reads_it: false,
            },
            Call {
                asked: RUN,
                input: b"",
                reads_it: true,
            },
            Call {
                asked: FOLD_AGAIN,
                input: FOLD,
                reads_it: false,
            },
            Call {
                asked: BOUNDARY_REPLAYED,
                input: BOUNDARY,
                reads_it: false,
            },
        ],
        reads: 3,
    },
];

// The database of three samples with this file changed.
fn damaged(
    rt: &impl Abort,
    alloc: Global,
    file: &str,
    bytes: Option<&[u8]>,
    fails: Vec<StoreFail>,
) -> Result<MemStore, Fail> {
    let mut store = MemStore::new(alloc, fails);
    for (name, whole) in &FOLD_FILES {
        put_file(rt, alloc, &mut store, name, Some(*whole))?;
    }
    put_file(rt, alloc, &mut store, file, bytes)?;
    Ok(store)
}

// Makes the call over a store in which a file is changed.
fn is_answered(
    rt: &impl Abort,
    alloc: Global,
    file: &str,
    call: &Call<'_>,
    store: &mut MemStore,
) -> Result<(), Fail> {
    if !call.reads_it {
        return gives(rt, alloc, &call.asked, call.input, store);
    }
    let err = format!(in alloc; "dcpi: database file {file} is bad\n")?;
    let refused = Asked {
        status: 7,
        out: b"",
        err: err.as_bytes(),
        ..call.asked
    };
    gives(rt, alloc, &refused, call.input, store)
}

#[test]
fn damaged_files(rt: HostRuntime) -> Result<(), Fail> {
    let alloc = rt.alloc();
    for damage in &DAMAGES {
        for bytes in damage.bytes {
            for call in damage.calls {
                let fails = Vec::new(alloc);
                let mut store = damaged(&rt, alloc, damage.file, *bytes, fails)?;
                is_answered(&rt, alloc, damage.file, call, &mut store)?;
            }
        }
    }
    Ok(())
}

// The calls of the store that made the files, one each, and the one that changed a file.
const CALLS_BEFORE: u64 = 5;

// Each call of the store behind this one fails, up to the last write of a replay, so that a refusal shows that it made none.
fn failing_behind(alloc: Global, last: u64) -> Result<Vec<StoreFail>, Fail> {
    let mut fails = Vec::new(alloc);
    for behind in 1..6 {
        fails.push(StoreFail {
            call: last.saturating_add(behind),
            left: Left::Absent,
        })?;
    }
    Ok(fails)
}

#[test]
fn a_refused_replay_writes_nothing(rt: HostRuntime) -> Result<(), Fail> {
    let alloc = rt.alloc();
    for damage in &DAMAGES {
        for bytes in damage.bytes {
            for call in damage.calls {
                if call.reads_it {
                    let fails = failing_behind(alloc, CALLS_BEFORE + damage.reads)?;
                    let mut store = damaged(&rt, alloc, damage.file, *bytes, fails)?;
                    is_answered(&rt, alloc, damage.file, call, &mut store)?;
                }
            }
        }
    }
    Ok(())
}

#[test]
fn the_files_of_a_replay(rt: HostRuntime) -> Result<(), Fail> {
    let alloc = rt.alloc();
    let mut store = sound_store(alloc);
    gives(&rt, alloc, &FOLD_REPLAYED, FOLD, &mut store)?;
    assert!(rt; has_alone(alloc, &mut store, &FOLD_FILES)?);
    Ok(())
}
